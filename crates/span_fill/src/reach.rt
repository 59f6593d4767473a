//! Numbers limited to a range.

ghost use Rattle.std.specs.Prelude.{◌≡◌, ◌↔◌, ℤ, ◌≤ℤ◌, ◌<ℤ◌};
ghost use Rattle.std.specs.Int.{int_max, int_min};

use crate::bounds::CoordinateRange;

/// A coordinate as a row of a range, or the end of the range.
pub(crate) fn first_in(range: CoordinateRange, coordinate: i64) -> i32
    requires { range.from ≤ℤ range.to }
    ensures exact { (y : ℤ) → range.from ≤ℤ y → y <ℤ range.to → (result ≤ℤ y ↔ (coordinate ≤ℤ y)) }
    ensures low { range.from ≤ℤ result }
    ensures high { result ≤ℤ range.to }
{
    if coordinate <= i64::from(range.from) {
        range.from
    } else if coordinate >= i64::from(range.to) {
        range.to
    } else {
        coordinate as i32
    }
}

/// The minimum of two numbers.
pub(crate) fn lesser(first: i64, second: i64) -> i64
    ensures value { result ≡ int_min first second }
    ensures first { result ≤ℤ first }
    ensures second { result ≤ℤ second }
{
    if second < first { second } else { first }
}

/// The maximum of two numbers.
pub(crate) fn greater(first: i64, second: i64) -> i64
    ensures value { result ≡ int_max first second }
    ensures first { first ≤ℤ result }
    ensures second { second ≤ℤ result }
{
    if second < first { first } else { second }
}
