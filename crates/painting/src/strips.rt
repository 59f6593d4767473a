//! Painting parts of a row: some columns, the columns outside the boxes that a clip cuts out, and all the spans of a
//! row.

ghost use Rattle.std.specs.Prelude.{◌≡◌, ◌+◌, ◌*◌, ◌<◌, ◌≤◌, ◌^◌, ◌&&◌, ℕ, [], slice_index_or};
ghost use Rattle.mapping.specs.PixelBoxes.{in_box};
ghost use Rattle.canvas.specs.CanvasState.{HasRow};
ghost use Rattle.canvas.specs.WritingLaws.{IsWhole};
ghost use Rattle.span_fill.specs.Spans.{AreApart, in_span, in_spans};
ghost use Rattle.painting.specs.RowOps.{mixed_at};
ghost use Rattle.painting.specs.Strips.{CountsOnce, MakesCells, MakesColumns, MayPaint, PutsRowOp, mixed_cells, placed_boxes};
ghost use Rattle.painting.specs.declared.row_op.RowOp.TheVariants.{Full};

use crate::regions::whole_law;
use crate::row_op::RowOp;
use crate::row_op_scratch::MAX_SIDE;
use canvas::{Canvas, Splat, Stripes, writing_law};
use dc_stack::ClipBox;
use mapping::{Colour, Mix, Rect};
use span_fill::Span;

/// Some columns of a row.
#[derive(Clone, Copy)]
struct RowPart {
    y: u32,
    columns: Span,
}

/// Applies a row operation to some columns of a row.
fn put_row_op(canvas: &mut Canvas, row_op: &RowOp<'_>, y: u32, columns: Span)
    requires { MayPaint canvas.old y columns }
    ensures pixels { PutsRowOp row_op.now [] y (in_span columns) canvas.old canvas.new }
    ensures count { CountsOnce columns canvas.old canvas.new }
{
    writing_law();
    match row_op {
        RowOp::Nothing => {}
        RowOp::Full(splat) => canvas.put_swatch(columns.from, columns.to, y, splat),
        RowOp::Pattern(pattern) => canvas.put_stripes(
            columns.from,
            columns.to,
            y,
            &Stripes::new(pattern),
        ),
        RowOp::Mixed(mix) => canvas.mix_span(columns.from, columns.to, y, *mix),
        RowOp::Cells {
            cells,
            mix,
            gaps: None,
        } => canvas.mix_cells(columns.from, columns.to, y, *cells, *mix),
        RowOp::Cells {
            cells,
            mix,
            gaps: Some(gaps),
        } => put_both(canvas, *cells, *mix, *gaps, RowPart { y, columns }),
        RowOp::Row(colours) => put_colours(canvas, colours, y, columns),
        RowOp::MixRow { keeps, flips } => put_mixes(canvas, keeps, flips, y, columns),
        RowOp::MixCells {
            cells,
            keeps,
            flips,
        } => put_cells(canvas, *cells, keeps, flips, RowPart { y, columns }),
    }
}

/// Sets some columns of a row to the colours at these columns.
fn put_colours(canvas: &mut Canvas, colours: &[Colour; MAX_SIDE], y: u32, columns: Span)
    requires { MayPaint canvas.old y columns }
    ensures pixels { MakesColumns y columns (slice_index_or colours.now) canvas.old canvas.new }
    ensures count { CountsOnce columns canvas.old canvas.new }
{
    writing_law();
    whole_law(canvas);
    let (first, last) = (columns.from as usize, columns.to as usize);
    canvas.put_row(columns.from, y, &colours[first..last]);
}

/// Mixes some columns of a row by the mixes at these columns.
fn put_mixes(
    canvas: &mut Canvas,
    keeps: &[Colour; MAX_SIDE],
    flips: &[Colour; MAX_SIDE],
    y: u32,
    columns: Span,
)
    requires { MayPaint canvas.old y columns }
    ensures pixels { MakesColumns y columns (mixed_at keeps.now flips.now) canvas.old canvas.new }
    ensures count { CountsOnce columns canvas.old canvas.new }
{
    writing_law();
    whole_law(canvas);
    let (first, last) = (columns.from as usize, columns.to as usize);
    canvas.mix_row(columns.from, y, &keeps[first..last], &flips[first..last]);
}

/// Mixes the cells among some columns of a row by the mixes at their columns.
fn put_cells(
    canvas: &mut Canvas,
    cells: u8,
    keeps: &[Colour; MAX_SIDE],
    flips: &[Colour; MAX_SIDE],
    part: RowPart,
)
    requires { MayPaint canvas.old part.y part.columns }
    ensures pixels { MakesCells part.y part.columns cells (mixed_at keeps.now flips.now) canvas.old canvas.new }
    ensures count { CountsOnce part.columns canvas.old canvas.new }
{
    writing_law();
    whole_law(canvas);
    for x in part.columns.from..part.columns.to {
        let (keep, flip) = (keeps[x as usize], flips[x as usize]);
        canvas.mix_cells(x, x + 1, part.y, cells, Mix { keep, flip });
    }
}

/// Mixes the cells by one mix and the gaps between them by another.
fn put_both(canvas: &mut Canvas, cells: u8, mix: Mix, gaps: Mix, part: RowPart)
    requires { MayPaint canvas.old part.y part.columns }
    ensures pixels { MakesColumns part.y part.columns (mixed_cells cells mix gaps) canvas.old canvas.new }
    ensures count { CountsOnce part.columns canvas.old canvas.new }
{
    writing_law();
    let Span { from, to } = part.columns;
    canvas.mix_cells(from, to, part.y, cells, mix);
    canvas.mix_cells(from, to, part.y, !cells, gaps);
}

/// The columns, among some, that a box covers in a row.
pub(crate) fn hidden(cut: Rect, y: u32, columns: Span) -> Span
    requires order { columns.from ≤ columns.to }
    ensures hidden { (x : ℕ) → in_span columns x && in_box cut x y ≡ in_span result x }
    ensures first { columns.from ≤ result.from }
    ensures order { result.from ≤ result.to }
    ensures last { result.to ≤ columns.to }
{
    if !cut.has_row(y) {
        return Span {
            from: columns.from,
            to: columns.from,
        };
    }
    columns.between(i64::from(cut.l), i64::from(cut.r))
}

/// Applies a row operation to those columns of a row that no box cuts out.
fn put_uncut(canvas: &mut Canvas, row_op: &RowOp<'_>, y: u32, columns: Span, cuts: &[ClipBox])
    requires { MayPaint canvas.old y columns }
    ensures pixels { PutsRowOp row_op.now (placed_boxes cuts.now) y (in_span columns) canvas.old canvas.new }
    ensures count { CountsOnce columns canvas.old canvas.new }
{
    writing_law();
    let Span { from, to } = columns;
    if from == to {
        return;
    }
    let Some((first, rest)) = cuts.split_first() else {
        put_row_op(canvas, row_op, y, columns);
        return;
    };
    let hidden = hidden(first.placed, y, columns);
    let (before, after) = (hidden.from, hidden.to);
    put_uncut(canvas, row_op, y, Span { from, to: before }, rest);
    put_uncut(canvas, row_op, y, Span { from: after, to }, rest);
}

/// Applies a row operation to the pixels in the spans of a row, except those that a box cuts out.
pub(crate) fn put_spans(
    canvas: &mut Canvas,
    row_op: &RowOp<'_>,
    y: u32,
    spans: &[Span],
    cuts: &[ClipBox],
)
    requires whole { IsWhole canvas.old }
    requires spans { AreApart 0 canvas.old.width spans.now }
    requires row { HasRow canvas.old y }
    requires countable { canvas.old.writes + 2 * canvas.old.width < 2 ^ 64 }
    ensures pixels { PutsRowOp row_op.now (placed_boxes cuts.now) y (in_spans spans.now) canvas.old canvas.new }
    ensures count { canvas.new.writes ≤ canvas.old.writes + canvas.old.width }
{
    writing_law();
    // (borrowed rather than copied: every row would wait for the copy)
    if cuts.is_empty() {
        if let RowOp::Full(splat) = row_op {
            put_full(canvas, splat, y, spans);
            return;
        }
    }
    for span in spans {
        put_uncut(canvas, row_op, y, *span, cuts);
    }
}

/// Sets the pixels in the spans of a row to one colour.
fn put_full(canvas: &mut Canvas, splat: &Splat, y: u32, spans: &[Span])
    requires whole { IsWhole canvas.old }
    requires spans { AreApart 0 canvas.old.width spans.now }
    requires row { HasRow canvas.old y }
    requires countable { canvas.old.writes + 2 * canvas.old.width < 2 ^ 64 }
    ensures pixels { PutsRowOp (Full splat.now) [] y (in_spans spans.now) canvas.old canvas.new }
    ensures count { canvas.new.writes ≤ canvas.old.writes + canvas.old.width }
{
    writing_law();
    for span in spans {
        canvas.put_swatch(span.from, span.to, y, splat);
    }
}
