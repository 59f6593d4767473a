//! Lines as a fill sees them: from the upper end to the lower one.

use mapping::Point;

/// A line that isn't horizontal, from its upper end to its lower one.
#[derive(Clone, Copy, Debug)]
pub(crate) struct Edge {
    /// The line's number in its outline.
    pub(crate) line: u32,
    /// Whether the line itself runs downwards.
    pub(crate) is_down: bool,
    pub(crate) upper: Point,
    pub(crate) lower: Point,
}

/// An edge that crosses the centre of a row, its crossing there, and what moves it to the next row.
#[derive(Clone, Copy, Debug)]
pub(crate) struct ActiveEdge {
    /// The first row whose centre isn't above the lower end.
    pub(crate) bottom: u32,
    /// Whether the line itself runs downwards.
    pub(crate) is_down: bool,
    /// The first column whose centre isn't to the left of the crossing, on the surface or outside it: the floor of a
    /// fraction by `divisor`, with its remainder.
    pub(crate) column: i64,
    pub(crate) rest: i64,
    /// Twice the edge's height.
    pub(crate) divisor: i64,
    /// What one row adds to the fraction: its floor and its remainder.
    pub(crate) step: i64,
    pub(crate) more: i64,
}
