//! Command lines, inputs and outputs that work, and each kind that doesn't.
//!
//! tests/crate_tests_growth_test.py runs the tests named `.._under_failed_growth` once more for each allocation that can
//! fail.
#![tactic(auto)]

#[cfg(test)]
mod inputs;
#[cfg(test)]
mod parsed_lines;
#[cfg(test)]
mod reports;
#[cfg(test)]
mod same_values;
#[cfg(test)]
mod slow_readers;
#[cfg(test)]
mod writers;
