//! Listed steps, for tests, examples and files that have been read.

ghost use Rattle.std.specs.Prelude.{◌≡◌, IfSome, map};
ghost use Rattle.draw_ops.specs.StepOf.{step_value_of};

use crate::record_fault::RecordFault;
use crate::source::{HasContent, OpSource};
use crate::step::Step;
use std::marker::Model;

/// The steps of a list in order, and then possibly a fault.
#[derive(Debug, Drop)]
pub struct Listed<'a> {
    steps: &'a [Step<'a>],
    fault: Option<RecordFault>,
}

impl<'a> Model for Listed<'a> {
    ghost use Rattle.std.specs.Prelude.{map};
    ghost use Rattle.draw_ops.specs.Content.{Content};
    ghost use Rattle.draw_ops.specs.StepOf.{step_value_of};

    ghost Value = { Content };

    ghost view = { λ listed. record { steps = map step_value_of listed.steps.now; fault = listed.fault } };
}

impl<'a> Listed<'a> {
    /// The source of these steps, followed by this fault.
    pub fn new(steps: &'a [Step<'a>], fault: Option<RecordFault>) -> Listed<'a>
        ensures steps { result.steps ≡ map step_value_of steps.entry.now }
        ensures fault { result.fault ≡ fault }
    {
        Listed { steps, fault }
    }
}

impl<'a> HasContent for Listed<'a> {
    ghost content = { λ listed. listed };
}

impl<'a> OpSource<'a> for Listed<'a> {
    fn next_op(&mut self) -> Result<Option<Step<'a>>, RecordFault> {
        let mut step: Step<'a> = Step::without_effect();
        match self.next_into(&mut step) {
            Ok(true) => Ok(Some(step)),
            Ok(false) => Ok(None),
            Err(fault) => Err(fault),
        }
    }

    fn next_into(&mut self, step: &mut Step<'a>) -> Result<bool, RecordFault> {
        if self.steps.is_empty() {
            return match self.fault {
                Some(fault) => Err(fault),
                None => Ok(false),
            };
        }
        *step = self.steps[0];
        self.steps = &self.steps[1..];
        Ok(true)
    }
}
