//! Plays a cleared file: the steps of its records, in order, on a machine and a canvas.

ghost use Rattle.std.specs.Prelude.{◌≡◌, ◌+◌, ◌≤◌, OnErr, OnOk, length};
ghost use Rattle.draw_ops.specs.Records.{record_limit};
ghost use Rattle.dc_stack.specs.MachineState.{GoesOn};
ghost use Rattle.painting.specs.Drawn.{HoldsRows, SameRows};
ghost use Rattle.player.specs.After.{HasLines, HasCapacityForSteps};
ghost use Rattle.player.specs.Counts.{CountsFile, HasCapacityForFile};
ghost use Rattle.player.specs.Plays.{PlaysContent, PlaysFile, Stops};
ghost use Rattle.player.specs.Ready.{IsAtStart, IsReadyToPlay};

use canvas::Canvas;
use dc_stack::{Draw, Machine};
use draw_ops::{Fault, OpSource, Step};
use object_tables::Table;
use painting::{DrawingScratch, draw};
use preflight_cert::{Cleared, answer_law, need_law, size_law};

/// Plays a whole cleared file on a canvas with some rows of a surface, and returns the number of pixels written. The
/// surface is within the certificate's bound, and the machine and the memory for drawings meet the certificate's needs.
/// It can't fail.
pub(crate) fn play_rows<'a, T: Table<'a>>(
    cleared: &Cleared<'a>,
    machine: &mut Machine<'a, T>,
    drawings: &mut DrawingScratch,
    canvas: &mut Canvas,
) -> u64
    requires held { HoldsRows canvas.old machine.old.surface }
    requires countable { HasCapacityForFile canvas.old }
    requires ready { IsReadyToPlay cleared.now drawings.old.rows.capacity machine.old }
    requires start { IsAtStart cleared.now machine.old }
    ensures played { PlaysFile cleared.now.opened machine.old canvas.old canvas.new }
    ensures count { canvas.new.writes ≡ canvas.old.writes + result }
    ensures bounded { CountsFile canvas.old canvas.new }
    ensures rows { SameRows canvas.old canvas.new }
    ensures goes_on { GoesOn machine.old machine.new }
    ensures lines { drawings.new.rows.capacity ≡ drawings.old.rows.capacity }
{
    answer_law();
    size_law();
    let before = canvas.writes();
    match play_steps(&mut cleared.opened.source(), machine, drawings, canvas) {
        Ok(()) => canvas.writes() - before,
        Err(_) => unreachable!(),
    }
}

/// Plays the remaining steps of a source, and draws their drawings. Returns an error only if a step or the source has a
/// fault.
fn play_steps<'a, S: OpSource<'a>, T: Table<'a>>(
    source: &mut S,
    machine: &mut Machine<'a, T>,
    drawings: &mut DrawingScratch,
    canvas: &mut Canvas,
) -> Result<(), Fault>
    requires short { length (S.content source.old).steps ≤ record_limit }
    requires held { HoldsRows canvas.old machine.old.surface }
    requires capacity { HasCapacityForSteps (S.content source.old) machine.old }
    requires lines { HasLines drawings.old.rows.capacity (S.content source.old) machine.old }
    requires countable { HasCapacityForFile canvas.old }
    ensures played { OnOk result (PlaysContent (S.content source.old) machine.old canvas.old canvas.new) }
    ensures refusal { OnErr result (Stops (S.content source.old) machine.old) }
    ensures bounded { CountsFile canvas.old canvas.new }
    ensures rows { SameRows canvas.old canvas.new }
    ensures goes_on { GoesOn machine.old machine.new }
    ensures lines { drawings.new.rows.capacity ≡ drawings.old.rows.capacity }
{
    need_law();
    let mut step: Step<'a> = Step::without_effect();
    let mut drawn: Option<Draw<'a>> = None;
    loop {
        let is_put = match source.next_into(&mut step) {
            Ok(is_put) => is_put,
            Err(fault) => return Err(Fault::Record(fault)),
        };
        if !is_put {
            return Ok(());
        }
        match machine.step_into(&step.op, &mut drawn) {
            Ok(()) => {}
            Err(fault) => return Err(fault),
        }
        draw(drawn, machine, drawings, canvas);
    }
}
