//! Fills the inside of outlines and boxes, row by row.

ghost use Rattle.std.specs.Prelude.{◌≡◌, ◌≤◌, ℕ, [], None, Some, true, length, IfSome, IsTrue};
ghost use Rattle.mapping.specs.PixelBoxes.{in_box};
ghost use Rattle.canvas.specs.Writing.{Repaints};
ghost use Rattle.span_fill.specs.RowState.{IsFillingWork};
ghost use Rattle.span_fill.specs.Spans.{in_region};
ghost use Rattle.painting.specs.FillStyles.{fill_style_paint, in_inside};
ghost use Rattle.painting.specs.Fills.{PutsShape, is_filled};
ghost use Rattle.painting.specs.Regions.{HasRegion, IsOfSide};
ghost use Rattle.painting.specs.Counts.{CountsLayer, HasCapacityForLayer};
ghost use Rattle.painting.specs.Painted.{PaintsShape};
ghost use Rattle.painting.specs.SourceRows.{ReadsBox};

use crate::fill_spans::FillSpans;
use crate::fill_style::FillStyle;
use crate::outline_rows::{Part, paint_rows, rule_of};
use crate::region_spans::RegionSpans;
use crate::regions::{has_no_pixel, visible_in, whole_law};
use crate::row_op_scratch::RowOpScratch;
use crate::scratch::DrawingScratch;
use crate::seen_columns::uncut_part;
use crate::source_rows::read_row;
use canvas::{Canvas, writing_law};
use mapping::{Colour, Rect};
use span_fill::{Outline, Region, RowBuf};

/// Fills the inside of an outline, which lies within a box, by the current fill mode. The style has no source. Returns
/// whether the row buffer has taken the outline's lines.
pub(crate) fn fill_inside<O: Outline + Copy>(
    canvas: &mut Canvas,
    scratch: &mut DrawingScratch,
    outline: O,
    bounds: Rect,
    paint: &FillStyle<'_, '_>,
) -> bool
    requires countable { HasCapacityForLayer canvas.old }
    requires alone { paint.now.source ≡ None }
    requires capacity { length (O.lines outline) ≤ scratch.old.rows.capacity }
    requires within { (x y : ℕ) → in_inside paint.now (O.lines outline) x y ≡ true → in_box bounds x y ≡ true }
    ensures pixels { PaintsShape (fill_style_paint paint.now) (in_inside paint.now (O.lines outline)) canvas.old canvas.new }
    ensures few { CountsLayer canvas.old canvas.new }
    ensures taken { IsTrue result → scratch.new.rows.lines ≡ O.lines outline }
    ensures capacity { scratch.new.rows.capacity ≡ scratch.old.rows.capacity }
{
    writing_law();
    whole_law(canvas);
    let drawn = visible_in(canvas, paint.clip, bounds);
    if has_no_pixel(drawn) {
        return false;
    }
    let rule = rule_of(paint.modes.fill_mode);
    let mut lines = outline;
    scratch.rows.begin_fill(&mut lines, rule, drawn.rows.from);
    if let (Some(colour), true) = (paint.same_colour(), paint.clip.cut_boxes().is_empty()) {
        put_inside(canvas, &mut scratch.rows, drawn, colour);
        return true;
    }
    let hatch = paint.hatch_rows(drawn.rows);
    let painter = paint.painter(drawn.columns, hatch.as_ref());
    paint_rows(canvas, scratch, Part::Inside(rule), drawn.rows, &painter);
    true
}

/// Writes the pixels of a region in one colour that are inside the lines with which a row buffer has begun.
fn put_inside(canvas: &mut Canvas, rows: &mut RowBuf, drawn: Region, colour: Colour)
    requires held { HasRegion canvas.old drawn }
    requires columns { IsOfSide drawn.columns }
    requires rows { IsOfSide drawn.rows }
    requires countable { HasCapacityForLayer canvas.old }
    requires filling { IsFillingWork rows.old.work }
    requires next { rows.old.next ≡ drawn.rows.from }
    requires begun { rows.old.spans ≡ [] }
    ensures pixels { PutsShape drawn (is_filled rows.old.work rows.old.lines) colour canvas.old canvas.new }
    ensures lines { rows.new.lines ≡ rows.old.lines }
    ensures capacity { rows.new.capacity ≡ rows.old.capacity }
{
    writing_law();
    whole_law(canvas);
    let mut spans = FillSpans {
        rows,
        columns: drawn.columns,
        end: drawn.rows.to,
        returned: 0,
    };
    canvas.put_each_span(&mut spans, colour);
}

/// Fills a box. If the style has a source, the box is the one that the source is stretched to.
pub(crate) fn fill_box(
    canvas: &mut Canvas,
    inside: Rect,
    paint: &FillStyle<'_, '_>,
    scratch: &mut RowOpScratch,
)
    requires countable { HasCapacityForLayer canvas.old }
    requires reads { IfSome paint.now.source (λ reader. ReadsBox reader inside) }
    ensures pixels { PaintsShape (fill_style_paint paint.now) (in_box inside) canvas.old canvas.new }
    ensures few { CountsLayer canvas.old canvas.new }
{
    writing_law();
    whole_law(canvas);
    if let (Some(colour), true) = (paint.same_colour(), paint.clip.cut_boxes().is_empty()) {
        let drawn = visible_in(canvas, paint.clip, inside);
        put_region(canvas, drawn, colour);
        return;
    }
    fill_box_by_rows(canvas, inside, paint, scratch);
}

/// Writes the pixels of a region in one colour.
fn put_region(canvas: &mut Canvas, region: Region, colour: Colour)
    requires held { HasRegion canvas.old region }
    requires countable { HasCapacityForLayer canvas.old }
    ensures pixels { Repaints (in_region region) (λ x y old. colour) canvas.old canvas.new }
{
    whole_law(canvas);
    let mut spans = RegionSpans { rest: region };
    canvas.put_each_span(&mut spans, colour);
}

/// Fills a box row by row. A row of source colours is gathered once and kept for as long as the rows of the box use it.
#[inline(never)]
fn fill_box_by_rows(
    canvas: &mut Canvas,
    inside: Rect,
    paint: &FillStyle<'_, '_>,
    scratch: &mut RowOpScratch,
)
    requires countable { HasCapacityForLayer canvas.old }
    requires reads { IfSome paint.now.source (λ reader. ReadsBox reader inside) }
    ensures pixels { PaintsShape (fill_style_paint paint.now) (in_box inside) canvas.old canvas.new }
    ensures few { CountsLayer canvas.old canvas.new }
{
    writing_law();
    whole_law(canvas);
    let drawn = visible_in(canvas, paint.clip, inside);
    let columns = drawn.columns;
    if has_no_pixel(drawn) {
        return;
    }
    let hatch = paint.hatch_rows(drawn.rows);
    let mut painter = paint.painter(columns, hatch.as_ref());
    let mut kept = None;
    for y in drawn.rows.from..drawn.rows.to {
        painter.columns = uncut_part(columns, y, painter.clip.cut_boxes());
        kept = read_row(
            &paint.source,
            painter.columns,
            y,
            kept,
            &mut *scratch.sources,
        );
        painter.put_row(canvas, &[columns], y, scratch);
    }
}
