//! Lengths in proportion to others.
//!
//! # What is promised
//!
//! - A quotient is rounded to the nearest whole number, and a half is rounded up (`nearest`).
//! - The largest sides within a width and a height that have a frame's proportion: one of them is the width or the
//!   height itself, and the other is rounded to the nearest, but at least 1 (`fitted_sides`, by `fitted_width` and
//!   `fitted_height`). Neither is larger than what is given (`fitting_law`).
#![tactic(auto)]

mod fitting;
mod laws;
mod rounding;

pub use fitting::{Sides, fitted_sides};
pub use laws::fitting_law;
pub use rounding::nearest;
