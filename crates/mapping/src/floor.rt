//! Floor division of integers, which rounds down for every sign.

ghost use Rattle.std.specs.Prelude.{◌≡◌, ◌≢◌, ◌<◌, ◌≤◌, ◌^◌, pos, unsigned_abs};
ghost use Rattle.mapping.specs.Floor.{floor_div, FloorDivisionIsGreatest};

/// The floor of `dividend / divisor`. Neither is the least number of its type, so both can be negated.
pub(crate) fn floor_quotient(dividend: i64, divisor: i64) -> i64
    requires not_zero { divisor ≢ pos 0 }
    requires dividend_fits { unsigned_abs dividend < 2 ^ 63 }
    requires divisor_fits { unsigned_abs divisor < 2 ^ 63 }
    ensures value { result ≡ floor_div dividend divisor }
    ensures bound { unsigned_abs result ≤ unsigned_abs dividend }
{
    if divisor > 0 {
        dividend.div_euclid(divisor)
    } else {
        (-dividend).div_euclid(-divisor)
    }
}

/// The same for numbers of more than 64 bits, which are far from the limits of their type.
pub(crate) fn wide_floor_quotient(dividend: i128, divisor: i128) -> i128
    requires not_zero { divisor ≢ pos 0 }
    requires dividend_fits { unsigned_abs dividend < 2 ^ 110 }
    requires divisor_fits { unsigned_abs divisor < 2 ^ 110 }
    ensures value { result ≡ floor_div dividend divisor }
    ensures bound { unsigned_abs result ≤ unsigned_abs dividend }
{
    if divisor > 0 {
        dividend.div_euclid(divisor)
    } else {
        (-dividend).div_euclid(-divisor)
    }
}

/// The law that says what floor division means: the quotient isn't above the fraction, and every integer that isn't
/// above the fraction is at most the quotient.
pub fn floor_division_law()
    ensures { FloorDivisionIsGreatest }
{}
