//! An edge at the row where it becomes active. Its crossing and its step are divided here.

ghost use Rattle.std.specs.Prelude.{◌≡◌, ◌+◌, ◌*◌, ◌≤◌, ◌^◌, pos, ◌+ℤ◌, ◌-ℤ◌, ◌*ℤ◌, ◌≤ℤ◌, ◌<ℤ◌, IsTrue};
ghost use Rattle.mapping.specs.Floor.{floor_div};
ghost use Rattle.mapping.specs.Limits.{IsWithin};
ghost use Rattle.span_fill.specs.Crossings.{crossing_at};
ghost use Rattle.span_fill.specs.Edges.{IsEdge, active_at, column_dividend, edge_first_row, remainder_of, near_row};
ghost use Rattle.span_fill.specs.Fill.{across, crossing_dividend, crossing_divisor, down};

use crate::crossing::Crossing;
use crate::edge::{ActiveEdge, Edge};

/// A fraction of integers: its floor, and the remainder.
#[derive(Clone, Copy)]
struct Fraction {
    floor: i64,
    rest: i64,
}

impl Edge {
    /// The edge at its crossing with the row.
    pub(crate) fn active_at(self, row: u32) -> ActiveEdge
        requires edge { IsEdge self }
        requires row { row ≤ 8192 }
        ensures { result ≡ active_at row self }
    {
        let divisor = doubled(self.down());
        let column = divided(self.column_dividend(row), divisor);
        let per_row = divided(doubled(self.across()), divisor);
        ActiveEdge {
            bottom: row_of(self.lower.y),
            is_down: self.is_down,
            column: column.floor,
            rest: column.rest,
            divisor,
            step: per_row.floor,
            more: per_row.rest,
        }
    }

    /// Where the edge crosses the row.
    pub(crate) fn crossing_at(self, row: u32) -> Crossing
        requires edge { IsEdge self }
        requires row { row ≤ 8192 }
        ensures { result ≡ crossing_at self.line self.upper self.lower row }
    {
        let crossing = divided(self.dividend(row), doubled(self.down()));
        Crossing {
            line: self.line,
            quotient: crossing.floor,
            rest: crossing.rest,
        }
    }

    /// The first row whose centre isn't above the edge.
    pub(crate) fn first_row(self) -> u32
        ensures { result ≡ edge_first_row self }
    {
        row_of(self.upper.y)
    }

    /// The first row whose centre isn't above the edge's lower end.
    pub(crate) fn bottom(self) -> u32
        ensures { result ≡ near_row self.lower.y }
    {
        row_of(self.lower.y)
    }

    /// How far the lower end is below the upper one.
    pub(crate) fn down(self) -> i64
        requires { IsEdge self }
        ensures value { result ≡ down self.upper self.lower }
        ensures low { pos 1 ≤ℤ result }
        ensures high { result ≤ℤ pos (2 ^ 30) }
    {
        i64::from(self.lower.y) - i64::from(self.upper.y)
    }

    /// How far the lower end is to the right of the upper one.
    pub(crate) fn across(self) -> i64
        requires { IsEdge self }
        ensures value { result ≡ across self.upper self.lower }
        ensures near { IsWithin (2 ^ 30) result }
    {
        i64::from(self.lower.x) - i64::from(self.upper.x)
    }

    /// The distance of the row's centre below the upper end, in half rows.
    fn half_rows(self, row: u32) -> i64
        requires edge { IsEdge self }
        requires row { row ≤ 8192 }
        ensures value { result ≡ pos (2 * row + 1) -ℤ pos 2 *ℤ self.upper.y }
        ensures near { IsWithin (2 ^ 30) result }
    {
        i64::from(2 * row + 1) - 2 * i64::from(self.upper.y)
    }

    /// The dividend of the first column whose centre isn't to the left of the crossing; the divisor is twice the edge's
    /// height.
    fn column_dividend(self, row: u32) -> i64
        requires edge { IsEdge self }
        requires row { row ≤ 8192 }
        ensures value { result ≡ column_dividend self.upper self.lower row }
        ensures near { IsWithin (2 ^ 62 + 2 ^ 31) result }
    {
        rounded_up(self.dividend(row), self.down())
    }

    /// The dividend of the crossing; the divisor is twice the edge's height.
    fn dividend(self, row: u32) -> i64
        requires edge { IsEdge self }
        requires row { row ≤ 8192 }
        ensures value { result ≡ crossing_dividend self.upper self.lower row }
        ensures near { IsWithin (2 ^ 62) result }
    {
        let by_height = product(doubled(self.down()), i64::from(self.upper.x));
        let by_width = product(self.half_rows(row), self.across());
        sum(by_height, by_width)
    }
}

/// The row of a coordinate, or row 0 if it is negative.
fn row_of(y: i32) -> u32
    ensures { result ≡ near_row y }
{
    if y <= 0 { 0 } else { y as u32 }
}

/// Twice the number.
pub(crate) fn doubled(number: i64) -> i64
    requires { IsWithin (2 ^ 30) number }
    ensures value { result ≡ pos 2 *ℤ number }
    ensures near { IsWithin (2 ^ 31) result }
{
    2 * number
}

/// The product.
pub(crate) fn product(a: i64, b: i64) -> i64
    requires a { IsWithin (2 ^ 31) a }
    requires b { IsWithin (2 ^ 30) b }
    ensures value { result ≡ a *ℤ b }
    ensures near { IsWithin (2 ^ 61) result }
{
    a * b
}

/// The sum.
pub(crate) fn sum(a: i64, b: i64) -> i64
    requires a { IsWithin (2 ^ 61) a }
    requires b { IsWithin (2 ^ 61) b }
    ensures value { result ≡ a +ℤ b }
    ensures near { IsWithin (2 ^ 62) result }
{
    a + b
}

/// The dividend plus half of the divisor minus 1, for rounding up.
fn rounded_up(dividend: i64, half: i64) -> i64
    requires dividend { IsWithin (2 ^ 62) dividend }
    requires low { pos 1 ≤ℤ half }
    requires high { half ≤ℤ pos (2 ^ 30) }
    ensures value { result ≡ dividend +ℤ half -ℤ pos 1 }
    ensures near { IsWithin (2 ^ 62 + 2 ^ 31) result }
{
    dividend + half - 1
}

/// The fraction by a positive divisor.
fn divided(dividend: i64, divisor: i64) -> Fraction
    requires dividend { IsWithin (2 ^ 62 + 2 ^ 31) dividend }
    requires low { pos 1 ≤ℤ divisor }
    requires high { divisor ≤ℤ pos (2 ^ 31) }
    ensures floor { result.floor ≡ floor_div dividend divisor }
    ensures rest { result.rest ≡ remainder_of dividend divisor }
    ensures near { IsWithin (2 ^ 62 + 2 ^ 31) result.floor }
    ensures rest_low { pos 0 ≤ℤ result.rest }
    ensures rest_high { result.rest <ℤ divisor }
{
    let floor = dividend.div_euclid(divisor);
    Fraction {
        floor,
        rest: dividend - floor * divisor,
    }
}
