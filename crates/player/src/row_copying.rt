//! Plays a cleared file on some rows of a surface, and copies their samples to a buffer.

ghost use Rattle.std.specs.Prelude.{◌≡◌, ◌+◌, ◌-◌, ◌*◌, ◌<◌, ◌≤◌, IfErr, OnErr, OnOk, length};
ghost use Rattle.player.specs.Bounds.{IsPlayFault, ReportsTooLarge};
ghost use Rattle.player.specs.ReadyBands.{IsBlankBand, IsReadyForBands};
ghost use Rattle.player.specs.Rows.{CopiesCanvas, CopiesPlayed, CopiesRun, HasCapacityForRows, layout_size, row_place};

use crate::band_plan::BandPlan;
use crate::band_scratch::{BandScratch, band_scratch, begin_band, show_band};
use crate::row_layout::RowLayout;
use canvas::Canvas;
use draw_ops::{Fault, content_law};
use preflight_cert::{Cleared, answer_law, rows_law, size_law};
use std::alloc::Global;

/// Plays a cleared file over one colour on the rows of a layout, and copies their samples to a buffer: red, green and
/// blue of each pixel, from the left. The rows must be rows of the plan's surface, at least one, and not overlap in the
/// buffer, which must have capacity for them. The bytes between them stay as they are.
///
/// The rows are played in bands of the plan's number of rows. All memory is allocated before the buffer is changed: as
/// much as the certificate needs, and one band.
///
/// Returns `SurfaceTooLarge` exactly if the surface exceeds the certificate's bound, and `OutOfMemory` if an allocation
/// failed. In both cases the buffer is unchanged.
pub fn play_rows(
    alloc: Global,
    cleared: &Cleared<'_>,
    plan: BandPlan,
    layout: RowLayout,
    out: &mut [u8],
) -> Result<(), Fault>
    requires some { 1 ≤ layout.count }
    requires within { layout.first + layout.count ≤ plan.height }
    requires apart { 3 * plan.width ≤ layout.stride }
    requires capacity { layout_size layout plan.width ≤ length out.old }
    ensures rows { OnOk result (CopiesRun cleared.now plan layout out.old out.new) }
    ensures too_large { ReportsTooLarge result plan.width plan.height cleared.now.certificate }
    ensures refusal { IfErr result IsPlayFault }
    ensures unchanged { OnErr result (out.new ≡ out.old) }
{
    match band_scratch(alloc, cleared, plan, layout.first) {
        Ok(mut scratch) => {
            copy_run(cleared, &mut scratch, plan, layout, out);
            Ok(())
        }
        Err(fault) => Err(fault),
    }
}

/// Plays and copies the rows with memory that has been allocated. It can't fail.
fn copy_run<'a>(
    cleared: &Cleared<'a>,
    scratch: &mut BandScratch<'a>,
    plan: BandPlan,
    layout: RowLayout,
    out: &mut [u8],
)
    requires ready { IsReadyForBands cleared.now plan scratch.old }
    requires unwritten { scratch.old.canvas.writes ≡ 0 }
    requires blank { IsBlankBand plan layout.first scratch.old.canvas }
    requires within { layout.first + layout.count ≤ plan.height }
    requires apart { 3 * plan.width ≤ layout.stride }
    requires capacity { layout_size layout plan.width ≤ length out.old }
    ensures { CopiesRun cleared.now plan layout out.old out.new }
{
    answer_law();
    size_law();
    content_law();
    copy_bands(cleared, scratch, plan, layout, out);
}

/// Plays the bands, and copies the rows of each one.
fn copy_bands<'a>(
    cleared: &Cleared<'a>,
    scratch: &mut BandScratch<'a>,
    plan: BandPlan,
    layout: RowLayout,
    out: &mut [u8],
)
    requires ready { IsReadyForBands cleared.now plan scratch.old }
    requires unwritten { scratch.old.canvas.writes ≡ 0 }
    requires blank { IsBlankBand plan layout.first scratch.old.canvas }
    requires within { layout.first + layout.count ≤ plan.height }
    requires apart { 3 * plan.width ≤ layout.stride }
    requires capacity { layout_size layout plan.width ≤ length out.old }
    ensures { CopiesPlayed cleared.now plan layout (layout.first + layout.count) out.old out.new }
{
    rows_law();
    let end = layout.first + layout.count;
    let mut next = layout.first;
    while next < end {
        let rows = show_band(cleared, scratch, plan, next);
        let after = end.min(next + rows);
        copy_rows(&scratch.canvas, layout, next, after, out);
        next = after;
        begin_band(&mut scratch.canvas, plan, next, end);
    }
}

/// Copies the samples of rows of a canvas, from one to before another, to their places in a buffer.
fn copy_rows(canvas: &Canvas, layout: RowLayout, from: u32, to: u32, out: &mut [u8])
    requires first { layout.first ≤ from }
    requires order { from ≤ to }
    requires top { canvas.now.first ≤ from }
    requires bottom { to ≤ canvas.now.first + canvas.now.rows }
    requires apart { 3 * canvas.now.width ≤ layout.stride }
    requires capacity { HasCapacityForRows layout (3 * canvas.now.width) from to out.old }
    ensures { CopiesCanvas canvas.now layout from to out.old out.new }
{
    let size = 3 * canvas.width() as usize;
    for y in from..to {
        let at = row_place(layout, y);
        canvas.copy_row(y, &mut out[at..at + size]);
    }
}

/// Where row `y` of the surface begins in a buffer.
fn row_place(layout: RowLayout, y: u32) -> usize
    requires { layout.first ≤ y }
    ensures { result ≡ row_place layout y }
{
    (y - layout.first) as usize * layout.stride as usize
}
