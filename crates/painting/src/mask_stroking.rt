//! Strokes through a mask of what their nib covers.

ghost use Rattle.std.specs.Prelude.{◌≡◌, ◌&&◌, ◌+◌, ◌^◌, ◌<◌, ℕ};
ghost use Rattle.mapping.specs.Nibs.{IsNib};
ghost use Rattle.span_fill.specs.StrokeMasks.{HasMaskCapacity, IsMaskRegion, to_come};
ghost use Rattle.painting.specs.Counts.{CountsLayer, HasCapacityForLayer};
ghost use Rattle.painting.specs.Regions.{HasRegion, IsOfSide};
ghost use Rattle.painting.specs.StrokedLines.{HasStroke, StrokesLines};
ghost use Rattle.painting.specs.Strips.{is_uncut, placed_boxes};
ghost use Rattle.painting.specs.WideSpans.{MixesUncutWide};

use crate::regions::{common, whole_law};
use crate::stroke::Stroke;
use crate::wide_spans::MaskSpans;
use canvas::{Canvas, writing_law};
use dc_stack::ClipBox;
use span_fill::{Outline, Region, StrokeMask};

/// Strokes the lines of an outline through a mask, in a region that contains everything visible of them.
pub(crate) fn stroke_by_mask<O: Outline + Copy>(
    canvas: &mut Canvas,
    mask: &mut StrokeMask,
    outline: O,
    drawn: Region,
    stroke: &Stroke<'_>,
)
    requires countable { HasCapacityForLayer canvas.old }
    requires nib { IsNib stroke.now.nib }
    requires visible { HasStroke stroke.now.nib stroke.now (O.lines outline) canvas.old drawn }
    requires columns { IsOfSide drawn.columns }
    requires rows { IsOfSide drawn.rows }
    ensures pixels { StrokesLines stroke.now.nib stroke.now (O.lines outline) canvas.old canvas.new }
    ensures few { CountsLayer canvas.old canvas.new }
{
    writing_law();
    whole_law(canvas);
    mix_parts(canvas, mask, outline, drawn, stroke);
}

/// Mixes the pixels of a region that the stroke's nib covers along an outline's lines and that no box cuts out: as many
/// rows at a time as the mask has memory for.
fn mix_parts<O: Outline + Copy>(
    canvas: &mut Canvas,
    mask: &mut StrokeMask,
    outline: O,
    drawn: Region,
    stroke: &Stroke<'_>,
)
    requires countable { HasCapacityForLayer canvas.old }
    requires nib { IsNib stroke.now.nib }
    requires held { HasRegion canvas.old drawn }
    requires columns { IsOfSide drawn.columns }
    requires rows { IsOfSide drawn.rows }
    ensures { MixesUncutWide drawn stroke.now (O.lines outline) canvas.old canvas.new }
{
    writing_law();
    whole_law(canvas);
    let mut rest = drawn;
    while rest.rows.from < rest.rows.to {
        let part = mask.part_of(rest);
        mix_part(canvas, mask, outline, part, stroke);
        rest.rows.from = part.rows.to;
    }
}

/// The same for a region for which the mask has memory.
fn mix_part<O: Outline + Copy>(
    canvas: &mut Canvas,
    mask: &mut StrokeMask,
    outline: O,
    part: Region,
    stroke: &Stroke<'_>,
)
    requires countable { canvas.old.writes + 2 ^ 27 < 2 ^ 64 }
    requires nib { IsNib stroke.now.nib }
    requires held { HasRegion canvas.old part }
    requires region { IsMaskRegion part }
    requires capacity { HasMaskCapacity part }
    ensures { MixesUncutWide part stroke.now (O.lines outline) canvas.old canvas.new }
{
    writing_law();
    whole_law(canvas);
    let mut lines = outline;
    mask.begin(&mut lines, stroke.nib, part);
    let cuts = stroke.clip.cut_boxes();
    cut_boxes(mask, part, cuts);
    canvas.mix_each_span(&mut MaskSpans { mask }, stroke.mix);
}

/// Takes away from a mask what boxes cut out of its region.
fn cut_boxes(mask: &mut StrokeMask, region: Region, cuts: &[ClipBox])
    requires region { mask.old.region ≡ region }
    requires part { IsMaskRegion region }
    ensures region { mask.new.region ≡ region }
    ensures rest { (x y : ℕ) → to_come mask.new x y ≡ (to_come mask.old x y && is_uncut (placed_boxes cuts.now) x y) }
{
    let Some((first, rest)) = cuts.split_first() else {
        return;
    };
    let hidden = common(region, first.placed);
    mask.cut(hidden);
    cut_boxes(mask, region, rest);
}
