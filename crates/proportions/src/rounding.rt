//! Rounding.

ghost use Rattle.std.specs.Prelude.{◌≡◌, ◌≤◌, ◌<◌, ◌^◌};
ghost use Rattle.proportions.specs.Rounding.{nearest};

/// The whole number nearest to a quotient. A half is rounded up.
pub fn nearest(dividend: u128, divisor: u128) -> u128
    requires dividend { dividend < 2 ^ 100 }
    requires divisor { 1 ≤ divisor }
    requires short { divisor < 2 ^ 100 }
    ensures { result ≡ nearest dividend divisor }
{
    (2 * dividend + divisor) / (2 * divisor)
}
