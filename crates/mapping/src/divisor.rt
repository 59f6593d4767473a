//! Division by a fixed number, done by multiplication.

ghost use Rattle.std.specs.Prelude.{◌≡◌, ◌≤◌, ◌<◌, ◌+◌, ◌-◌, ◌*◌, ◌/◌, ◌^◌, pos};
ghost use Rattle.mapping.specs.Floor.{floor_div};

/// A number that divides many others. A dividend is multiplied by its reciprocal, which takes half the time.
///
/// # Guarantees
///
/// - The number is above 0, and the reciprocal is the greatest number whose product with it is below 2^64.
#[derive(Clone, Copy, Debug, PartialEq, Eq)]
pub struct Divisor {
    pub number: u32,
    reciprocal: u64,
    pub ghost above_zero: { 1 ≤ number },
    ghost exact: { reciprocal ≡ (2 ^ 64 - 1) / number },
}

impl Divisor {
    /// A divisor of at least 1.
    pub fn new(number: u32) -> Divisor
        requires { 1 ≤ number }
        ensures { result.number ≡ number }
    {
        Divisor {
            number,
            reciprocal: u64::MAX / u64::from(number),
        }
    }

    /// The quotient of a number.
    pub fn quotient(self, dividend: u64) -> u64
        ensures { result ≡ dividend / self.number }
    {
        let number = u64::from(self.number);
        let near = high_product(dividend, self.reciprocal);
        let rest = dividend - near * number;
        if rest < number { near } else { near + 1 }
    }

    /// The floor of the fraction.
    pub fn floor(self, dividend: i64) -> i64
        ensures { result ≡ floor_div dividend (pos self.number) }
    {
        if dividend < 0 {
            -1 - self.quotient((-1 - dividend) as u64) as i64
        } else {
            self.quotient(dividend as u64) as i64
        }
    }
}

/// The quotient of a product by 2^64.
fn high_product(one: u64, other: u64) -> u64
    ensures { result ≡ one * other / 2 ^ 64 }
{
    (u128::from(one) * u128::from(other) / (1 << 64)) as u64
}
