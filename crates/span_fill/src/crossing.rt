//! Where a line crosses a row.

/// Where a line crosses the centre of a row, as a fraction of integers. For a line whose upper end is `(x, y)` and
/// whose lower end lies `dx` to the right and `dy` below, `quotient` and `rest` are the quotient and remainder of
/// `2*dy*x + (2*row + 1 - 2*y)*dx` by `2*dy`.
#[derive(Clone, Copy, Debug, PartialEq, Eq)]
pub struct Crossing {
    /// The line's number, from 0, in the order of its outline.
    pub line: u32,
    /// The floor of the fraction.
    pub quotient: i64,
    /// The remainder, from 0 to before `2*dy`.
    pub rest: i64,
}
