//! Playing the records of a file one by one.

ghost use Rattle.std.specs.Prelude.{IfErr};
ghost use Rattle.preflight_cert.specs.NextStep.{PlaysNext};
ghost use Rattle.preflight_cert.specs.Refusal.{ReportsNumber};

use crate::refusal::Refusal;
use dc_stack::{Draw, Machine};
use draw_ops::{OpSource, Step};
use object_tables::Table;

/// Plays the next step of a source, and writes the step and its drawing to the given variables. Returns false if no
/// step remains. The error is the first fault with its record's number, which is `before`, or `OutOfMemory` without
/// one.
///
/// This is compiled into each loop over records, so that no result is moved.
#[inline(always)]
pub(crate) fn play_next<'a, S: OpSource<'a>, T: Table<'a>>(
    source: &mut S,
    machine: &mut Machine<'a, T>,
    before: u32,
    step: &mut Step<'a>,
    drawn: &mut Option<Draw<'a>>,
) -> Result<bool, Refusal>
    ensures plays { PlaysNext (S.content source.old) (S.content source.new) machine.old machine.new before step.new drawn.new result }
    ensures number_reported { IfErr result ReportsNumber }
{
    let is_put = match source.next_into(step) {
        Ok(is_put) => is_put,
        Err(fault) => return Err(Refusal::at(before, fault)),
    };
    if !is_put {
        return Ok(false);
    }
    match machine.step_into(&step.op, drawn) {
        Ok(()) => Ok(true),
        Err(fault) => Err(Refusal::of_step(step.number, fault)),
    }
}
