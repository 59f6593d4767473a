//! Tests of the playing state and of the player, with files and images worked by hand.
#![tactic(auto)]

#[cfg(test)]
mod band_colours;
#[cfg(test)]
mod banded;
#[cfg(test)]
mod cleared;
#[cfg(test)]
mod comparing;
#[cfg(test)]
mod machines;
#[cfg(test)]
mod paths;
#[cfg(test)]
mod stepping;
