//! How a line's crossing moves from row to row.

ghost use Rattle.std.specs.Prelude.{◌≡◌, ◌+◌, ◌*◌, ◌^◌, ◌≤◌, pos, neg_ℤ, ◌+ℤ◌, ◌-ℤ◌, ◌*ℤ◌, ◌≤ℤ◌, unsigned_abs};

use crate::major_line::MajorLine;
use mapping::Point;

/// In a row, the column (or first column) of a line that begins at `(x, y)` is `x` plus the floor of `(step*(row - y) +
/// base) / divisor`.
#[derive(Clone, Copy, Debug)]
pub(crate) struct RowSlope {
    pub(crate) step: i64,
    pub(crate) base: i64,
    pub(crate) divisor: i64,
}

impl RowSlope {
    ghost use Rattle.span_fill.specs.MajorLines.{IsMajorLine, length_of};
    ghost use Rattle.span_fill.specs.RowSlopes.{IsSmallRowSlope, x_major_row_slope, row_slope_of, y_major_row_slope, total_of, turn_of};

    /// The numbers of a line; `y_major` says whether it is y-major.
    pub(crate) fn new(major: MajorLine, y_major: bool) -> RowSlope
        requires major { IsMajorLine major }
        requires some { 1 ≤ length_of major }
        ensures value { result ≡ row_slope_of y_major major }
        ensures small { IsSmallRowSlope result }
    {
        let long = i64::from(major.length());
        let turn = RowSlope::turn(major);
        if y_major {
            RowSlope::new_y_major(long, turn)
        } else {
            RowSlope::new_x_major(major.is_forwards(), long, turn)
        }
    }

    /// The dividend in a row.
    pub(crate) fn total(self, from: Point, row: i64) -> i64
        requires small { IsSmallRowSlope self }
        requires x { unsigned_abs from.x ≤ 2 ^ 28 + 1 }
        requires y { unsigned_abs from.y ≤ 2 ^ 28 + 1 }
        requires row { unsigned_abs row ≤ 2 ^ 14 }
        ensures value { result ≡ total_of self from row }
        ensures bound { unsigned_abs result ≤ 2 ^ 60 + 2 ^ 50 }
    {
        self.down(from.y, row) + self.base + self.across(from.x)
    }

    /// The contribution of the rows since the line's start.
    fn down(self, y: i32, row: i64) -> i64
        requires small { IsSmallRowSlope self }
        requires y { unsigned_abs y ≤ 2 ^ 28 + 1 }
        requires row { unsigned_abs row ≤ 2 ^ 14 }
        ensures value { result ≡ self.step *ℤ (row -ℤ y) }
        ensures bound { unsigned_abs result ≤ 2 ^ 59 + 2 ^ 46 }
    {
        product(self.step, rows_after(y, row))
    }

    /// The contribution of the line's first column.
    fn across(self, x: i32) -> i64
        requires small { IsSmallRowSlope self }
        requires x { unsigned_abs x ≤ 2 ^ 28 + 1 }
        ensures value { result ≡ self.divisor *ℤ x }
        ensures bound { unsigned_abs result ≤ 2 ^ 59 + 2 ^ 46 }
    {
        product(self.divisor, i64::from(x))
    }

    /// The progress of a line along its minor axis while the coordinate on its major axis grows.
    fn turn(major: MajorLine) -> i64
        requires { IsMajorLine major }
        ensures value { result ≡ turn_of major }
        ensures bound { unsigned_abs result ≤ length_of major }
    {
        if major.is_forwards() {
            i64::from(major.rise())
        } else {
            -i64::from(major.rise())
        }
    }

    /// The numbers of a y-major line.
    fn new_y_major(long: i64, turn: i64) -> RowSlope
        requires some { pos 1 ≤ℤ long }
        requires long { long ≤ℤ pos (2 ^ 29 + 2) }
        requires turn { unsigned_abs turn ≤ 2 ^ 29 + 2 }
        ensures value { result ≡ y_major_row_slope long turn }
        ensures small { IsSmallRowSlope result }
    {
        RowSlope {
            step: 2 * turn,
            base: long,
            divisor: 2 * long,
        }
    }

    /// The numbers of an x-major line.
    fn new_x_major(forwards: bool, long: i64, turn: i64) -> RowSlope
        requires some { pos 1 ≤ℤ long }
        requires long { long ≤ℤ pos (2 ^ 29 + 2) }
        requires turn { unsigned_abs turn ≤ 2 ^ 29 + 2 }
        ensures value { result ≡ x_major_row_slope forwards long turn }
        ensures small { IsSmallRowSlope result }
    {
        if turn == 0 {
            return RowSlope::new_horizontal(forwards, long);
        }
        if turn > 0 {
            RowSlope {
                step: 2 * long,
                base: 2 * turn - 1 - long,
                divisor: 2 * turn,
            }
        } else {
            RowSlope {
                step: -2 * long,
                base: long - 2 * turn,
                divisor: -2 * turn,
            }
        }
    }

    /// The numbers of a horizontal line.
    fn new_horizontal(forwards: bool, long: i64) -> RowSlope
        requires some { pos 1 ≤ℤ long }
        requires long { long ≤ℤ pos (2 ^ 29 + 2) }
        ensures value { result ≡ x_major_row_slope forwards long (pos 0) }
        ensures small { IsSmallRowSlope result }
    {
        if forwards {
            RowSlope {
                step: long,
                base: 0,
                divisor: 1,
            }
        } else {
            RowSlope {
                step: -long,
                base: 1,
                divisor: 1,
            }
        }
    }
}

/// The number of rows from one row to a later one.
fn rows_after(y: i32, row: i64) -> i64
    requires y { unsigned_abs y ≤ 2 ^ 28 + 1 }
    requires row { unsigned_abs row ≤ 2 ^ 14 }
    ensures value { result ≡ row -ℤ y }
    ensures bound { unsigned_abs result ≤ 2 ^ 28 + 2 ^ 15 }
{
    row - i64::from(y)
}

/// The product of two numbers of a line.
fn product(a: i64, b: i64) -> i64
    requires a { unsigned_abs a ≤ 2 ^ 31 }
    requires b { unsigned_abs b ≤ 2 ^ 28 + 2 ^ 15 }
    ensures value { result ≡ a *ℤ b }
    ensures bound { unsigned_abs result ≤ 2 ^ 59 + 2 ^ 46 }
{
    a * b
}
