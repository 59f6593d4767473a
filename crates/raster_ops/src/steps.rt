//! Advancing along an axis by additions.

ghost use Rattle.std.specs.Prelude.{◌≡◌, ◌<◌, ◌≤◌, ◌+◌, ◌*◌, ◌^◌, if◌then◌else◌, IsTrue};
ghost use Rattle.raster_ops.specs.Sources.{scaled_place};

use crate::axes::middle;

/// A position along the box, and which of `count` columns contains its centre.
///
/// # Guarantees
///
/// - `quotient` and `rest` are those of `(2 * place + 1) * count` divided by `2 * side`.
/// - `whole` and `part` are those of `2 * count`, by which that number grows at each step.
#[derive(Clone, Copy, Debug)]
pub(crate) struct ColumnSteps {
    pub count: u32,
    pub side: u32,
    pub place: u32,
    /// The column.
    quotient: u32,
    /// The remainder, which is less than `2 * side`.
    rest: u32,
    /// What a step adds to the quotient.
    whole: u32,
    /// What a step adds to the remainder.
    part: u32,
    ghost some: { 1 ≤ count },
    ghost few: { count ≤ 2 ^ 16 },
    ghost short: { side ≤ 2 ^ 29 },
    ghost divided: { (2 * place + 1) * count ≡ quotient * (2 * side) + rest },
    ghost rest_below: { rest < 2 * side },
    ghost moves: { 2 * count ≡ whole * (2 * side) + part },
    ghost part_below: { part < 2 * side },
}

impl ColumnSteps {
    /// The steps from a position on.
    pub(crate) fn new(count: u32, side: u32, place: u32) -> ColumnSteps
        requires some { 1 ≤ count }
        requires few { count ≤ 2 ^ 16 }
        requires short { side ≤ 2 ^ 29 }
        requires within { place < side }
        ensures count { result.count ≡ count }
        ensures side { result.side ≡ side }
        ensures place { result.place ≡ place }
    {
        let twice = 2 * side;
        let middle = middle(count, place);
        ColumnSteps {
            count,
            side,
            place,
            quotient: (middle / u64::from(twice)) as u32,
            rest: (middle % u64::from(twice)) as u32,
            whole: 2 * count / twice,
            part: 2 * count % twice,
        }
    }

    /// The column that contains the centre of the position.
    #[inline]
    pub(crate) fn column(&self) -> u32
        ensures column { result ≡ scaled_place self.now.count self.now.side self.now.place }
        ensures within { self.now.place < self.now.side → result < self.now.count }
    {
        self.quotient
    }

    /// The next position.
    #[inline]
    pub(crate) fn next(self) -> ColumnSteps
        requires { self.place < self.side }
        ensures count { result.count ≡ self.count }
        ensures side { result.side ≡ self.side }
        ensures place { result.place ≡ self.place + 1 }
    {
        let twice = 2 * self.side;
        let rest = self.rest + self.part;
        let over = twice <= rest;
        ColumnSteps {
            count: self.count,
            side: self.side,
            place: self.place + 1,
            quotient: raised(self.quotient + self.whole, over),
            rest: lowered(rest, twice, over),
            whole: self.whole,
            part: self.part,
        }
    }
}

/// The quotient plus 1, if the remainder overflows.
#[inline]
fn raised(quotient: u32, over: bool) -> u32
    requires { quotient ≤ 2 ^ 20 }
    ensures { result ≡ quotient + (if over then 1 else 0) }
{
    quotient + u32::from(over)
}

/// The remainder minus the divisor, if it overflows.
#[inline]
fn lowered(rest: u32, divisor: u32, over: bool) -> u32
    requires { IsTrue over → divisor ≤ rest }
    ensures { result + (if over then divisor else 0) ≡ rest }
{
    if over { rest - divisor } else { rest }
}
