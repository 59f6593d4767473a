//! Strokes by nibs of several pixels.

ghost use Rattle.std.specs.Prelude.{◌≡◌, ◌≤◌, [], ◌∷◌, IfSome, length};
ghost use Rattle.mapping.specs.Nibs.{IsNib};
ghost use Rattle.dc_stack.specs.Values.{placed_value};
ghost use Rattle.span_fill.specs.Lines.{HasNearEnds};
ghost use Rattle.span_fill.specs.WideStrokes.{in_wide_stroke};
ghost use Rattle.painting.specs.Counts.{CountsLayer, HasCapacityForLayer};
ghost use Rattle.painting.specs.ReachedParts.{HasAllOf, IsPartOf};
ghost use Rattle.painting.specs.Regions.{HasNarrowNib, HasRegion, HoldShape, IsOfSide};
ghost use Rattle.painting.specs.StrokedLines.{HasStroke, StrokesLines};
ghost use Rattle.painting.specs.WideSpans.{MixesWide};

use crate::lone_line::lone_line;
use crate::mask_stroking::stroke_by_mask;
use crate::reached_part::reached_part;
use crate::rectangles::LineList;
use crate::regions::{has_no_pixel, visible_in, whole_law};
use crate::scratch::DrawingScratch;
use crate::stroke::Stroke;
use crate::stroking::{StrokedLines, paint_begun};
use crate::wide_spans::WideLineSpans;
use canvas::{Canvas, writing_law};
use dc_stack::Clip;
use mapping::{Mix, Nib};
use span_fill::{Line, Outline, Region, StrokeMask, WideLine};

/// For a line in each so many columns, rows of spans take about as long as a mask, which is cleared and read whole.
const COLUMNS_A_LINE: u32 = 256;

/// To look at so many lines takes about as long as to clear and read a mask of the largest band.
const LINES_A_MASK: usize = 1024;

/// Strokes the lines of an outline by a nib of several pixels. A lone line is painted row by row, if the clip cuts no
/// boxes out. The row buffer keeps other lines if they are read more than once, so that each is placed once.
pub(crate) fn stroke_wide_lines<O: Outline + Copy>(
    canvas: &mut Canvas,
    scratch: &mut DrawingScratch,
    lines: StrokedLines<O>,
    stroke: &Stroke<'_>,
)
    requires countable { HasCapacityForLayer canvas.old }
    requires capacity { length (O.lines lines.outline) ≤ scratch.old.rows.capacity }
    requires nib { IsNib stroke.now.nib }
    requires bounded { HasNarrowNib lines.bounds }
    requires within { HoldShape lines.bounds (in_wide_stroke stroke.now.nib (O.lines lines.outline)) }
    ensures pixels { StrokesLines stroke.now.nib stroke.now (O.lines lines.outline) canvas.old canvas.new }
    ensures few { CountsLayer canvas.old canvas.new }
    ensures capacity { scratch.new.rows.capacity ≡ scratch.old.rows.capacity }
{
    writing_law();
    whole_law(canvas);
    let outline = lines.outline;
    let drawn = visible_in(canvas, stroke.clip, lines.bounds.on_surface());
    if has_no_pixel(drawn) {
        return;
    }
    if let Some(line) = lone_uncut_line(outline, lines.points, stroke.clip) {
        mix_wide_line(canvas, line, stroke.nib, drawn, stroke.mix);
        return;
    }
    // (there are as many lines as points, or a few less)
    let most = lines.points as usize;
    if let Some(mask) = &mut scratch.mask {
        if !are_few(most, drawn) && is_one_part(mask, drawn) {
            let part = reached_of(outline, most, stroke.nib, drawn);
            stroke_by_mask(canvas, mask, outline, part, stroke);
            return;
        }
    }
    let mut placed = outline;
    scratch.rows.keep(&mut placed);
    stroke_kept_wide(canvas, scratch, drawn, stroke);
}

/// Strokes the lines that the row buffer has taken, in a region that contains everything visible of them: through a mask,
/// or if there is none or there are few lines, by rows of spans.
pub(crate) fn stroke_kept_wide(
    canvas: &mut Canvas,
    scratch: &mut DrawingScratch,
    drawn: Region,
    stroke: &Stroke<'_>,
)
    requires countable { HasCapacityForLayer canvas.old }
    requires nib { IsNib stroke.now.nib }
    requires visible { HasStroke stroke.now.nib stroke.now scratch.old.rows.lines canvas.old drawn }
    requires columns { IsOfSide drawn.columns }
    requires rows { IsOfSide drawn.rows }
    ensures pixels { StrokesLines stroke.now.nib stroke.now scratch.old.rows.lines canvas.old canvas.new }
    ensures few { CountsLayer canvas.old canvas.new }
    ensures capacity { scratch.new.rows.capacity ≡ scratch.old.rows.capacity }
{
    let DrawingScratch { rows, mask, .. } = &mut *scratch;
    let kept = LineList { rest: rows.lines() };
    let count = kept.count();
    if !are_few(count, drawn) {
        if let Some(mask) = mask {
            let part = reached_of(kept, count, stroke.nib, drawn);
            stroke_by_mask(canvas, mask, kept, part, stroke);
            return;
        }
    }
    rows.begin_kept_stroke(stroke.nib, drawn.rows.from);
    paint_begun(canvas, scratch, drawn, stroke);
}

/// Whether there are so few lines for a region that rows of spans take less time.
fn are_few(lines: usize, drawn: Region) -> bool
    requires { IsOfSide drawn.columns }
{
    let width = drawn.columns.to - drawn.columns.from;
    lines <= (width / COLUMNS_A_LINE) as usize
}

/// Whether a mask has memory for all of a region.
fn is_one_part(mask: &StrokeMask, drawn: Region) -> bool
    requires columns { IsOfSide drawn.columns }
    requires rows { IsOfSide drawn.rows }
{
    mask.part_of(drawn).rows.to == drawn.rows.to
}

/// The part of a region that a nib reaches along lines. All of it if there are many lines, since to look at each takes longer
/// than a large mask.
fn reached_of<O: Outline + Copy>(outline: O, count: usize, nib: Nib, drawn: Region) -> Region
    requires nib { IsNib nib }
    requires columns { IsOfSide drawn.columns }
    requires rows { IsOfSide drawn.rows }
    ensures part { IsPartOf drawn result }
    ensures all { HasAllOf drawn (in_wide_stroke nib (O.lines outline)) result }
{
    if count > LINES_A_MASK {
        return drawn;
    }
    reached_part(outline, nib, drawn)
}

/// The only line of an outline, if the outline has exactly one and the clip cuts no boxes out.
fn lone_uncut_line<O: Outline + Copy>(outline: O, points: u32, clip: &Clip) -> Option<Line>
    ensures alone { IfSome result (λ line. O.lines outline ≡ line ∷ []) }
    ensures near { IfSome result HasNearEnds }
    ensures uncut { IfSome result (λ line. (placed_value clip.now).cuts ≡ []) }
{
    if !clip.cut_boxes().is_empty() {
        return None;
    }
    lone_line(outline, points)
}

/// Mixes the pixels of a region that a nib covers along a line.
fn mix_wide_line(canvas: &mut Canvas, line: Line, nib: Nib, drawn: Region, mix: Mix)
    requires near { HasNearEnds line }
    requires nib { IsNib nib }
    requires held { HasRegion canvas.old drawn }
    requires columns { IsOfSide drawn.columns }
    requires rows { IsOfSide drawn.rows }
    requires countable { HasCapacityForLayer canvas.old }
    ensures { MixesWide drawn nib (line ∷ []) mix canvas.old canvas.new }
{
    writing_law();
    whole_law(canvas);
    let wide = WideLine::new(line, nib, drawn.rows.from as i32, drawn.rows.to as i32);
    let mut spans = WideLineSpans {
        wide,
        columns: drawn.columns,
    };
    canvas.mix_each_span(&mut spans, mix);
}
