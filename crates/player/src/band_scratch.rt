//! The memory for playing in bands, allocated before the first byte is written, and playing one band in it.

ghost use Rattle.std.specs.Prelude.{◌≡◌, ◌+◌, ◌-◌, ◌<◌, ◌≤◌, min, IfErr, IfOk};
ghost use Rattle.player.specs.Bands.{PlaysClearedBand};
ghost use Rattle.player.specs.Bounds.{IsPlayFault, ReportsTooLarge};
ghost use Rattle.player.specs.Counts.{CountsFile, HasCapacityForFile};
ghost use Rattle.player.specs.ReadyBands.{IsBlankBand, IsReadyForBands};

use crate::band_plan::BandPlan;
use crate::play_scratch::{PlayScratch, play_scratch};
use crate::playing::play_rows;
use canvas::Canvas;
use dc_stack::Machine;
use draw_ops::{Fault, content_law};
use object_tables::FileTable;
use painting::DrawingScratch;
use preflight_cert::Cleared;
use std::alloc::Global;

/// A machine and memory for drawings, enough for the needs of a cleared file, and a canvas with memory for one band.
#[derive(Drop)]
pub(crate) struct BandScratch<'a> {
    pub machine: Machine<'a, FileTable<'a>>,
    pub drawings: DrawingScratch,
    pub canvas: Canvas,
}

/// Allocates the memory for playing a cleared file in the bands of a plan. The canvas shows the band that begins at row
/// `first`, before anything is drawn. Returns `SurfaceTooLarge` exactly if the surface exceeds the certificate's bound, and
/// `OutOfMemory` if an allocation fails.
pub(crate) fn band_scratch<'a>(
    alloc: Global,
    cleared: &Cleared<'a>,
    plan: BandPlan,
    first: u32,
) -> Result<BandScratch<'a>, Fault>
    requires below { first < plan.height }
    ensures ready { IfOk result (IsReadyForBands cleared.now plan) }
    ensures most { IfOk result (λ scratch. scratch.canvas.most ≡ min plan.rows (plan.height - first)) }
    ensures blank { IfOk result (λ scratch. IsBlankBand plan first scratch.canvas) }
    ensures unwritten { IfOk result (λ scratch. scratch.canvas.writes ≡ 0) }
    ensures too_large { ReportsTooLarge result plan.width plan.height cleared.now.certificate }
    ensures refusal { IfErr result IsPlayFault }
{
    let scratch = match play_scratch(alloc, cleared, plan.width, plan.height) {
        Ok(scratch) => scratch,
        Err(fault) => return Err(fault),
    };
    let PlayScratch { machine, drawings } = scratch;
    let rows = plan.rows.min(plan.height - first);
    match Canvas::band(alloc, plan.width, first, rows, plan.start) {
        Ok(canvas) => Ok(BandScratch {
            machine,
            drawings,
            canvas,
        }),
        Err(_) => Err(Fault::OutOfMemory),
    }
}

/// Plays the whole file on the band that begins at row `first` and that the canvas shows, before anything is drawn.
/// Returns the number of rows in that band.
pub(crate) fn show_band<'a>(
    cleared: &Cleared<'a>,
    scratch: &mut BandScratch<'a>,
    plan: BandPlan,
    first: u32,
) -> u32
    requires ready { IsReadyForBands cleared.now plan scratch.old }
    requires below { first < plan.height }
    requires blank { IsBlankBand plan first scratch.old.canvas }
    requires countable { HasCapacityForFile scratch.old.canvas }
    ensures some { 1 ≤ result }
    ensures within { first + result ≤ plan.height }
    ensures top { scratch.new.canvas.first ≡ first }
    ensures rows { scratch.new.canvas.rows ≡ result }
    ensures played { PlaysClearedBand cleared.now plan first result scratch.old.canvas scratch.new.canvas }
    ensures bounded { CountsFile scratch.old.canvas scratch.new.canvas }
    ensures ready { IsReadyForBands cleared.now plan scratch.new }
{
    content_law();
    let BandScratch {
        machine,
        drawings,
        canvas,
    } = scratch;
    let rows = canvas.rows();
    machine.restart(&cleared.opened);
    play_rows(cleared, machine, drawings, canvas);
    rows
}

/// Resets the canvas to the band that begins at row `first`, unless no row before `end` is left.
pub(crate) fn begin_band(canvas: &mut Canvas, plan: BandPlan, first: u32, end: u32)
    requires some { 1 ≤ canvas.old.most }
    requires width { canvas.old.width ≡ plan.width }
    requires within { end ≤ plan.height }
    requires low { plan.height ≤ 8192 }
    ensures blank { first < end → IsBlankBand plan first canvas.new }
    ensures width { canvas.new.width ≡ canvas.old.width }
    ensures most { canvas.new.most ≡ canvas.old.most }
    ensures writes { canvas.new.writes ≡ canvas.old.writes }
{
    if first < end {
        let rows = canvas.most_rows().min(plan.height - first);
        canvas.again(first, rows, plan.start);
    }
}
