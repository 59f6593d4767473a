//! The only way to stroke lines.

ghost use Rattle.std.specs.Prelude.{◌≡◌, ◌<◌, ◌≤◌, ℕ, [], false, length};
ghost use Rattle.dc_stack.specs.Values.{placed_value};
ghost use Rattle.preflight_cert.specs.Rectangles.{rectangle_lines};
ghost use Rattle.mapping.specs.Nibs.{IsNib};
ghost use Rattle.span_fill.specs.WideStrokes.{in_wide_stroke, one_pixel};
ghost use Rattle.painting.specs.Counts.{CountsLayer, HasCapacityForLayer};
ghost use Rattle.painting.specs.Parts.{HasPart};
ghost use Rattle.painting.specs.RectangleBoxes.{IsNearBox};
ghost use Rattle.painting.specs.Regions.{HasNarrowNib, HoldShape, IsOfSide};
ghost use Rattle.painting.specs.VisitedMask.{is_taken};
ghost use Rattle.painting.specs.StrokedLines.{HasStroke, StrokesLines};
ghost use Rattle.painting.specs.declared.outline_rows.Part.TheVariants.{Lines};

use crate::line_steps::step_line;
use crate::lone_line::lone_line;
use crate::mask_costs::{shares_of, stroke_mask_pays, visited_mask_pays};
use crate::mask_stroking::stroke_by_mask;
use crate::outline_rows::{Part, paint_rows};
use crate::rectangles::{LineList, box_lines, has_inside};
use crate::regions::{Bounds, has_no_pixel, visible_in, whole_law};
use crate::row_op::full;
use crate::row_painter::{RowOps, RowPainter};
use crate::scratch::DrawingScratch;
use crate::stroke::Stroke;
use crate::visited_mask::VisitedMask;
use crate::visiting::{begin_visited_mask, visit_lines};
use crate::wide_stroking::{stroke_kept_wide, stroke_wide_lines};
use crate::widening::widened;
use canvas::{Canvas, writing_law};
use mapping::{Nib, Rect};
use span_fill::{Outline, Region, wide_stroke_law};

/// An outline to be stroked, with what is known of it before its lines are read.
#[derive(Clone, Copy, Debug)]
pub(crate) struct StrokedLines<O> {
    pub(crate) outline: O,
    /// A box that contains the pixels of the lines.
    pub(crate) bounds: Bounds,
    /// The number of points that the lines join.
    pub(crate) points: u32,
}

/// Strokes the lines of an outline, which lie within the bounds. No other function knows how strokes are painted.
pub(crate) fn stroke_lines<O: Outline + Copy>(
    canvas: &mut Canvas,
    scratch: &mut DrawingScratch,
    lines: StrokedLines<O>,
    stroke: &Stroke<'_>,
)
    requires countable { HasCapacityForLayer canvas.old }
    requires capacity { length (O.lines lines.outline) ≤ scratch.old.rows.capacity }
    requires nib { IsNib stroke.now.nib }
    requires bounded { HasNarrowNib lines.bounds }
    requires within { HoldShape lines.bounds (in_wide_stroke stroke.now.nib (O.lines lines.outline)) }
    ensures pixels { StrokesLines stroke.now.nib stroke.now (O.lines lines.outline) canvas.old canvas.new }
    ensures few { CountsLayer canvas.old canvas.new }
    ensures capacity { scratch.new.rows.capacity ≡ scratch.old.rows.capacity }
{
    if stroke.nib == Nib::ONE {
        stroke_thin_lines(canvas, scratch, lines, stroke);
        return;
    }
    stroke_wide_lines(canvas, scratch, lines, stroke);
}

/// Strokes lines by a nib of one pixel. A lone line is painted step by step. The row buffer keeps several lines, so that
/// each is placed once.
fn stroke_thin_lines<O: Outline + Copy>(
    canvas: &mut Canvas,
    scratch: &mut DrawingScratch,
    lines: StrokedLines<O>,
    stroke: &Stroke<'_>,
)
    requires countable { HasCapacityForLayer canvas.old }
    requires capacity { length (O.lines lines.outline) ≤ scratch.old.rows.capacity }
    requires nib { stroke.now.nib ≡ one_pixel }
    requires bounded { HasNarrowNib lines.bounds }
    requires within { HoldShape lines.bounds (in_wide_stroke one_pixel (O.lines lines.outline)) }
    ensures pixels { StrokesLines one_pixel stroke.now (O.lines lines.outline) canvas.old canvas.new }
    ensures few { CountsLayer canvas.old canvas.new }
    ensures capacity { scratch.new.rows.capacity ≡ scratch.old.rows.capacity }
{
    writing_law();
    wide_stroke_law();
    whole_law(canvas);
    let outline = lines.outline;
    if let Some(line) = lone_line(outline, lines.points) {
        step_line(canvas, line, stroke);
        return;
    }
    let drawn = visible_in(canvas, stroke.clip, lines.bounds.on_surface());
    if has_no_pixel(drawn) {
        return;
    }
    let mut placed = outline;
    scratch.rows.keep(&mut placed);
    stroke_kept_thin(canvas, scratch, drawn, stroke);
}

/// Strokes the lines that the row buffer has taken, in a region that contains everything visible of them. They are not
/// placed again.
pub(crate) fn stroke_kept(
    canvas: &mut Canvas,
    scratch: &mut DrawingScratch,
    drawn: Region,
    stroke: &Stroke<'_>,
)
    requires countable { HasCapacityForLayer canvas.old }
    requires nib { IsNib stroke.now.nib }
    requires visible { HasStroke stroke.now.nib stroke.now scratch.old.rows.lines canvas.old drawn }
    requires columns { IsOfSide drawn.columns }
    requires rows { IsOfSide drawn.rows }
    ensures pixels { StrokesLines stroke.now.nib stroke.now scratch.old.rows.lines canvas.old canvas.new }
    ensures few { CountsLayer canvas.old canvas.new }
    ensures capacity { scratch.new.rows.capacity ≡ scratch.old.rows.capacity }
{
    if stroke.nib == Nib::ONE {
        stroke_kept_thin(canvas, scratch, drawn, stroke);
        return;
    }
    stroke_kept_wide(canvas, scratch, drawn, stroke);
}

/// Strokes the lines that the row buffer has taken by a nib of one pixel, in a region that contains everything visible
/// of them: through the stroke mask or the visited mask if it costs the least, or else by rows of spans.
fn stroke_kept_thin(
    canvas: &mut Canvas,
    scratch: &mut DrawingScratch,
    drawn: Region,
    stroke: &Stroke<'_>,
)
    requires countable { HasCapacityForLayer canvas.old }
    requires nib { stroke.now.nib ≡ one_pixel }
    requires visible { HasStroke one_pixel stroke.now scratch.old.rows.lines canvas.old drawn }
    requires columns { IsOfSide drawn.columns }
    requires rows { IsOfSide drawn.rows }
    ensures pixels { StrokesLines one_pixel stroke.now scratch.old.rows.lines canvas.old canvas.new }
    ensures few { CountsLayer canvas.old canvas.new }
    ensures capacity { scratch.new.rows.capacity ≡ scratch.old.rows.capacity }
{
    let DrawingScratch {
        rows,
        visited,
        mask,
        ..
    } = &mut *scratch;
    let kept = LineList { rest: rows.lines() };
    let shares = shares_of(kept, drawn);
    if stroke_mask_pays(shares, drawn, stroke.clip) {
        if let Some(mask) = mask {
            stroke_by_mask(canvas, mask, kept, drawn, stroke);
            return;
        }
    }
    if visited_mask_pays(shares, drawn, stroke.clip) {
        if let Some(visited) = visited {
            if begin_visited_mask(visited, stroke.clip, drawn) {
                stroke_by_visited_mask(canvas, visited, kept, stroke);
                return;
            }
        }
    }
    rows.begin_kept_stroke(stroke.nib, drawn.rows.from);
    paint_begun(canvas, scratch, drawn, stroke);
}

/// Strokes the lines of an outline through the visited mask of a region that contains everything visible of them. No
/// pixel may be marked as visited yet.
fn stroke_by_visited_mask<O: Outline + Copy>(
    canvas: &mut Canvas,
    visited: &mut VisitedMask,
    outline: O,
    stroke: &Stroke<'_>,
)
    requires countable { HasCapacityForLayer canvas.old }
    requires uncut { (placed_value stroke.now.clip.now).cuts ≡ [] }
    requires none { (x y : ℕ) → is_taken visited.old x y ≡ false }
    requires visible { HasStroke one_pixel stroke.now (O.lines outline) canvas.old visited.old.region }
    ensures pixels { StrokesLines one_pixel stroke.now (O.lines outline) canvas.old canvas.new }
    ensures few { CountsLayer canvas.old canvas.new }
{
    writing_law();
    wide_stroke_law();
    whole_law(canvas);
    visit_lines(canvas, visited, outline, stroke.mix);
}

/// Paints the rows of a stroke. The row buffer has begun with it at the first row of the region, which contains
/// everything visible of it.
pub(crate) fn paint_begun(
    canvas: &mut Canvas,
    scratch: &mut DrawingScratch,
    drawn: Region,
    stroke: &Stroke<'_>,
)
    requires countable { HasCapacityForLayer canvas.old }
    requires begun { HasPart (Lines stroke.now.nib) drawn.rows stroke.now.clip.now drawn.columns scratch.old.rows canvas.old }
    ensures pixels { StrokesLines stroke.now.nib stroke.now scratch.old.rows.lines canvas.old canvas.new }
    ensures few { CountsLayer canvas.old canvas.new }
    ensures capacity { scratch.new.rows.capacity ≡ scratch.old.rows.capacity }
{
    writing_law();
    whole_law(canvas);
    let painter = RowPainter {
        clip: stroke.clip,
        columns: drawn.columns,
        row_ops: RowOps::Same(full(stroke.mix)),
    };
    paint_rows(
        canvas,
        scratch,
        Part::Lines(stroke.nib),
        drawn.rows,
        &painter,
    );
}

/// Strokes the outermost pixels of a box, if it has any.
pub(crate) fn stroke_box(
    canvas: &mut Canvas,
    scratch: &mut DrawingScratch,
    inside: Rect,
    stroke: &Stroke<'_>,
)
    requires countable { HasCapacityForLayer canvas.old }
    requires capacity { 4 ≤ scratch.old.rows.capacity }
    requires near { IsNearBox inside }
    requires nib { IsNib stroke.now.nib }
    ensures pixels { StrokesLines stroke.now.nib stroke.now (rectangle_lines inside) canvas.old canvas.new }
    ensures few { CountsLayer canvas.old canvas.new }
    ensures capacity { scratch.new.rows.capacity ≡ scratch.old.rows.capacity }
{
    writing_law();
    whole_law(canvas);
    wide_stroke_law();
    if !has_inside(inside) {
        return;
    }
    let around = box_lines(inside);
    let lines = StrokedLines {
        outline: LineList { rest: &around },
        bounds: Bounds::Placed(widened(inside, stroke.nib)),
        points: 4,
    };
    stroke_lines(canvas, scratch, lines, stroke);
}
