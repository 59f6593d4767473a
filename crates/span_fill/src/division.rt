//! Floor division.

ghost use Rattle.std.specs.Prelude.{◌≡◌, ◌^◌, pos, negsuc, ◌+ℤ◌, ◌*ℤ◌, ◌≤ℤ◌, ◌<ℤ◌};

/// An integer divided by a positive one: the floor of the fraction, and the remainder.
#[derive(Clone, Copy, Debug)]
pub(crate) struct Divided {
    pub(crate) quotient: i64,
    /// From 0 to before the divisor.
    pub(crate) rest: i64,
}

/// `dividend / divisor`, rounded down, and the remainder.
pub(crate) fn divide(dividend: i64, divisor: i64) -> Divided
    requires above_zero { pos 1 ≤ℤ divisor }
    requires divisor_fits { divisor ≤ℤ pos (2 ^ 61) }
    requires low { negsuc (2 ^ 62) ≤ℤ dividend }
    requires high { dividend ≤ℤ pos (2 ^ 62) }
    ensures whole { dividend ≡ divisor *ℤ result.quotient +ℤ result.rest }
    ensures rest { pos 0 ≤ℤ result.rest }
    ensures below { result.rest <ℤ divisor }
{
    let quotient = dividend.div_euclid(divisor);
    Divided {
        quotient,
        rest: dividend - divisor * quotient,
    }
}
