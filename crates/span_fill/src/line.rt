//! Lines between placed points.

use mapping::Point;

/// A line from one placed point to another. It has its first point but not its last.
#[derive(Clone, Copy, Debug, PartialEq, Eq)]
pub struct Line {
    pub from: Point,
    pub to: Point,
}
