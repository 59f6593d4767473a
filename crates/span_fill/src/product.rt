//! Products that fit 64 bits.

ghost use Rattle.std.specs.Prelude.{◌≡◌, ◌+◌, ◌^◌, ◌≤◌, pos, negsuc, ◌*ℤ◌, ◌≤ℤ◌};

/// Twice a number.
pub(crate) fn doubled(number: i64) -> i64
    requires low { negsuc (2 ^ 61) ≤ℤ number }
    requires high { number ≤ℤ pos (2 ^ 61) }
    ensures { result ≡ pos 2 *ℤ number }
{
    2 * number
}

/// A count times a number.
pub(crate) fn product(count: u32, number: i32) -> i64
    requires count { count ≤ 2 ^ 30 }
    requires low { negsuc (2 ^ 30) ≤ℤ number }
    requires high { number ≤ℤ pos (2 ^ 30) }
    ensures value { result ≡ pos count *ℤ number }
    ensures least { negsuc (2 ^ 60 + 2 ^ 30) ≤ℤ result }
    ensures most { result ≤ℤ pos (2 ^ 60 + 2 ^ 30) }
{
    i64::from(count) * i64::from(number)
}
