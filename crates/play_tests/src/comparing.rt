//! Compares two values in one function, so that each comparison in a test needs little proof; and a pixel's colour.

use canvas::Canvas;
use mapping::Colour;
use std::fmt::Debug;
use std::process::Abort;

pub(crate) const BLUE: Colour = Colour { r: 0, g: 0, b: 255 };

/// Ends the test and prints both values, unless they are equal.
pub(crate) fn same<T: PartialEq + Debug + Drop>(rt: &impl Abort, left: T, right: T) {
    assert_eq!(rt; left, right);
}

/// The colour of a pixel, if the canvas has it.
pub(crate) fn colour(canvas: &Canvas, x: u32, y: u32) -> Option<Colour> {
    canvas.has_pixel(x, y).then(|| canvas.colour(x, y))
}
