//! Steps: what records ask for, one by one.

ghost use Rattle.std.specs.Prelude.{◌≡◌};
ghost use Rattle.draw_ops.specs.NoteCounts.{no_notes};
ghost use Rattle.draw_ops.specs.Operation.{no_effect};
ghost use Rattle.draw_ops.specs.StepOf.{step_value_of};

use crate::note_set::NoteSet;
use crate::operation::Op;

/// What one record asks for.
#[derive(Clone, Copy, Debug, PartialEq, Eq)]
pub struct Step<'a> {
    /// The record's number in the file, from 0.
    pub number: u32,
    pub op: Op<'a>,
    /// The notes of the record.
    pub notes: NoteSet,
}

impl<'a> Step<'a> {
    /// Record 0 without an operation, which other steps can overwrite.
    pub fn without_effect() -> Step<'a>
        ensures { step_value_of result ≡ record { number = 0; operation = no_effect; notes = no_notes } }
    {
        Step {
            number: 0,
            op: Op::NoEffect,
            notes: NoteSet::none(),
        }
    }
}
