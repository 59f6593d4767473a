//! Plays a file whose certificate was accepted.

ghost use Rattle.std.specs.Prelude.{◌≡◌, ◌+◌, ◌≤◌, IfErr, IfOk, OnErr, OnOk};
ghost use Rattle.meta_headers.specs.OpenedOf.{opened_of};
ghost use Rattle.painting.specs.Drawn.{SameRows};
ghost use Rattle.player.specs.Bounds.{IsPlayFault, ReportsTooLarge};
ghost use Rattle.player.specs.ClearedPlay.{AreClearedWrites, LeavesRun};
ghost use Rattle.player.specs.Counts.{HasCapacityForFile};
ghost use Rattle.player.specs.Plays.{PlaysOpened};
ghost use Rattle.player.specs.Ready.{IsAtStart, IsReadyToPlay, surface_of_file};

use crate::play_scratch::{PlayScratch, play_scratch};
use crate::playing::play_rows;
use canvas::Canvas;
use dc_stack::Machine;
use draw_ops::Fault;
use object_tables::Table;
use painting::DrawingScratch;
use preflight_cert::{Cleared, answer_law, size_law};
use std::alloc::Global;

/// Plays a cleared file over the image on a canvas of a whole surface. Returns the number of pixels written, which is
/// at most the certified number.
///
/// Returns `SurfaceTooLarge` exactly if the surface exceeds the certificate's bound, and `OutOfMemory` if the memory
/// that the certificate needs can't be allocated. In both cases the canvas is unchanged.
pub fn play(alloc: Global, cleared: &Cleared<'_>, canvas: &mut Canvas) -> Result<u64, Fault>
    requires whole { canvas.old.first ≡ 0 }
    requires countable { HasCapacityForFile canvas.old }
    ensures image { OnOk result (LeavesRun cleared.now canvas.old canvas.new) }
    ensures writes { IfOk result (AreClearedWrites cleared.now canvas.old.width canvas.old.rows) }
    ensures count { IfOk result (λ writes. canvas.new.writes ≡ canvas.old.writes + writes) }
    ensures few { IfOk result (λ writes. writes ≤ cleared.now.certificate.writes) }
    ensures too_large { ReportsTooLarge result canvas.old.width canvas.old.rows cleared.now.certificate }
    ensures refusal { IfErr result IsPlayFault }
    ensures unchanged { OnErr result (canvas.new ≡ canvas.old) }
    ensures rows { SameRows canvas.old canvas.new }
{
    match play_scratch(alloc, cleared, canvas.width(), canvas.rows()) {
        Ok(scratch) => {
            let PlayScratch {
                mut machine,
                mut drawings,
            } = scratch;
            Ok(play_reserved(cleared, &mut machine, &mut drawings, canvas))
        }
        Err(fault) => Err(fault),
    }
}

/// Plays on a machine and with memory that meet the certificate's needs. It can't fail.
fn play_reserved<'a, T: Table<'a>>(
    cleared: &Cleared<'a>,
    machine: &mut Machine<'a, T>,
    drawings: &mut DrawingScratch,
    canvas: &mut Canvas,
) -> u64
    requires whole { canvas.old.first ≡ 0 }
    requires countable { HasCapacityForFile canvas.old }
    requires ready { IsReadyToPlay cleared.now drawings.old.rows.capacity machine.old }
    requires start { IsAtStart cleared.now machine.old }
    requires surface { machine.old.surface ≡ surface_of_file cleared.now canvas.old.width canvas.old.rows }
    ensures played { PlaysOpened (opened_of cleared.now.opened) cleared.now.opened.records.now canvas.old canvas.new }
    ensures count { canvas.new.writes ≡ canvas.old.writes + result }
    ensures few { result ≤ cleared.now.certificate.writes }
    ensures rows { SameRows canvas.old canvas.new }
{
    answer_law();
    size_law();
    play_rows(cleared, machine, drawings, canvas)
}
