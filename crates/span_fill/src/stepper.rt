//! Where a line crosses a row, and moving to the next row by additions.

ghost use Rattle.std.specs.Prelude.{◌≡◌, ◌^◌, false, pos, negsuc, true, ◌+ℤ◌, ◌*ℤ◌, ◌≤ℤ◌, ◌<ℤ◌};
ghost use Rattle.span_fill.specs.Steppers.{IsStepper, IsStepperIncrement};

use crate::division::divide;

/// A fraction of integers.
#[derive(Clone, Copy, Debug)]
pub(crate) struct Stepper {
    /// The floor of the fraction.
    pub(crate) column: i64,
    /// The remainder, from 0 to before the divisor.
    pub(crate) rest: i64,
}

/// What a row adds to a fraction.
#[derive(Clone, Copy, Debug)]
pub(crate) struct StepperIncrement {
    /// The divisor of both.
    pub(crate) divisor: i64,
    /// The floor of what a row adds.
    pub(crate) across: i64,
    /// The remainder of that, from 0 to before the divisor.
    pub(crate) more: i64,
}

impl StepperIncrement {
    /// The step by `step / divisor`.
    pub(crate) fn new(step: i64, divisor: i64) -> StepperIncrement
        requires step_low { negsuc (2 ^ 31) ≤ℤ step }
        requires step_high { step ≤ℤ pos (2 ^ 31) }
        requires divisor_low { pos 1 ≤ℤ divisor }
        requires divisor_high { divisor ≤ℤ pos (2 ^ 31) }
        ensures { IsStepperIncrement step divisor result }
    {
        let row = divide(step, divisor);
        StepperIncrement {
            divisor,
            across: row.quotient,
            more: row.rest,
        }
    }
}

impl Stepper {
    ghost use Rattle.span_fill.specs.Steppers.{StepperCanMove, IsMovedStepper};

    /// The fraction `total / divisor`.
    pub(crate) fn new(total: i64, divisor: i64) -> Stepper
        requires low { negsuc (2 ^ 61) ≤ℤ total }
        requires high { total ≤ℤ pos (2 ^ 61) }
        requires divisor_low { pos 1 ≤ℤ divisor }
        requires divisor_high { divisor ≤ℤ pos (2 ^ 31) }
        ensures { IsStepper total divisor result }
    {
        let here = divide(total, divisor);
        Stepper {
            column: here.quotient,
            rest: here.rest,
        }
    }

    /// The fraction in the next row.
    #[inline]
    pub(crate) fn moved(self, step: StepperIncrement) -> Stepper
        requires { StepperCanMove step self }
        ensures { IsMovedStepper step self result }
    {
        // (to choose each number, and not the way, costs no branch that is hard to predict)
        let sum = self.rest + step.more;
        let is_carried = sum >= step.divisor;
        Stepper {
            column: self.column + step.across + carry_of(is_carried),
            rest: if is_carried { sum - step.divisor } else { sum },
        }
    }
}

/// What a carried remainder adds.
#[inline]
fn carry_of(is_carried: bool) -> i64
    ensures carried { is_carried ≡ true → result ≡ pos 1 }
    ensures kept { is_carried ≡ false → result ≡ pos 0 }
    ensures low { pos 0 ≤ℤ result }
    ensures high { result ≤ℤ pos 1 }
{
    if is_carried { 1 } else { 0 }
}
