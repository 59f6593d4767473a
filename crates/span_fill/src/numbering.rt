//! Numbers of the pixels along a line, which move by additions.

ghost use Rattle.std.specs.Prelude.{◌≡◌, ◌≤◌, ◌<◌, ◌^◌, pos, neg_ℤ, ◌+ℤ◌, ◌-ℤ◌, ◌*ℤ◌, if◌then◌else◌};
ghost use Rattle.mapping.specs.Limits.{IsWithin};
ghost use Rattle.span_fill.specs.Numberings.{IsNumbered, number_of};

use crate::edge_start::{product, sum};
use crate::fixed_walk::FixedWalk;
use crate::grid::Grid;

/// The number of the pixel at a coordinate on a line's major axis and at 0 on its minor axis, what a step adds to it,
/// and what one more on the minor axis does.
#[derive(Clone, Copy, Debug, Default)]
pub(crate) struct Numbering {
    pub(crate) number: i64,
    pub(crate) along: i64,
    pub(crate) across: i64,
}

impl Numbering {
    /// The numbering at a position.
    pub(crate) fn new(grid: Grid, position: FixedWalk, y_major: bool) -> Numbering
        requires { IsWithin (2 ^ 30) position.u }
        ensures { IsNumbered grid y_major position result }
    {
        let stride = i64::from(grid.stride);
        if y_major {
            Numbering {
                number: number_of(grid, 0, position.u),
                along: directed(position.forwards, stride),
                across: 1,
            }
        } else {
            Numbering {
                number: number_of(grid, position.u, 0),
                along: directed(position.forwards, 1),
                across: stride,
            }
        }
    }

    /// The numbering after a step.
    #[inline]
    pub(crate) fn moved(self) -> Numbering
        requires number { IsWithin (2 ^ 61) self.number }
        requires along { IsWithin (2 ^ 61) self.along }
        ensures number { result.number ≡ self.number +ℤ self.along }
        ensures along { result.along ≡ self.along }
        ensures across { result.across ≡ self.across }
    {
        Numbering {
            number: sum(self.number, self.along),
            along: self.along,
            across: self.across,
        }
    }

    /// The number of the pixel at this coordinate on the minor axis.
    #[inline]
    pub(crate) fn at(self, v: u32) -> i64
        requires number { IsWithin (2 ^ 61) self.number }
        requires across { IsWithin (2 ^ 30) self.across }
        requires v { v < 8192 }
        ensures { result ≡ self.number +ℤ pos v *ℤ self.across }
    {
        sum(self.number, product(i64::from(v), self.across))
    }
}

/// The weight, or if the coordinate doesn't grow, what is opposite to it.
fn directed(forwards: bool, weight: i64) -> i64
    requires { IsWithin (2 ^ 16) weight }
    ensures value { result ≡ (if forwards then weight else neg_ℤ weight) }
    ensures near { IsWithin (2 ^ 16) result }
{
    if forwards { weight } else { -weight }
}

/// The number of the pixel in column `x` of row `y`.
fn number_of(grid: Grid, x: i32, y: i32) -> i64
    requires x { IsWithin (2 ^ 30) x }
    requires y { IsWithin (2 ^ 30) y }
    ensures { result ≡ number_of grid x y }
{
    let rows = rows_after(grid, y);
    sum(product(rows, i64::from(grid.stride)), i64::from(x))
}

/// The number of rows from the grid's first one to another.
fn rows_after(grid: Grid, y: i32) -> i64
    requires { IsWithin (2 ^ 30) y }
    ensures value { result ≡ y -ℤ pos grid.first }
    ensures near { IsWithin (2 ^ 31) result }
{
    i64::from(y) - i64::from(grid.first)
}
