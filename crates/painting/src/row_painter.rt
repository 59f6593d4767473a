//! Painters of a shape's rows.

ghost use Rattle.std.specs.Prelude.{◌≡◌, ◌+◌, ◌*◌, ◌^◌, ◌<◌, ◌≤◌};
ghost use Rattle.canvas.specs.CanvasState.{HasRow};
ghost use Rattle.canvas.specs.WritingLaws.{IsWhole};
ghost use Rattle.span_fill.specs.Spans.{AreApart};
ghost use Rattle.painting.specs.RowsPainted.{PaintsSpans};

use crate::fill_style::FillStyle;
use crate::row_op::{PERIOD, RowOp};
use crate::row_op_scratch::RowOpScratch;
use crate::strips::put_spans;
use canvas::Canvas;
use dc_stack::Clip;
use span_fill::Span;

/// The row operations of a hatch, which repeat by row.
#[derive(Clone, Copy, Debug)]
pub(crate) struct HatchRows {
    pub(crate) row_ops: [RowOp<'static>; 8],
}

/// The row operations for the rows of a shape.
#[derive(Clone, Copy, Debug)]
pub(crate) enum RowOps<'p, 'd, 'a> {
    /// The same for all rows. It isn't copied for each row.
    Same(RowOp<'static>),
    /// Eight for a hatch, which repeat by row.
    Repeated(&'p HatchRows),
    /// One for each row, computed from a fill style.
    EachRow(&'p FillStyle<'d, 'a>),
}

/// Paints some columns of a shape's rows, under a clip.
#[derive(Clone, Copy, Debug)]
pub(crate) struct RowPainter<'p, 'd, 'a> {
    pub(crate) clip: &'d Clip,
    pub(crate) columns: Span,
    pub(crate) row_ops: RowOps<'p, 'd, 'a>,
}

impl<'p, 'd, 'a> RowPainter<'p, 'd, 'a> {
    ghost use Rattle.painting.specs.RowPainters.{HasEight, HoldsRead, painter_paint};

    /// Paints the pixels in the spans of a row. Source colours for this row must have been gathered.
    pub(crate) fn put_row(
        &self,
        canvas: &mut Canvas,
        spans: &[Span],
        y: u32,
        scratch: &mut RowOpScratch,
    )
        requires whole { IsWhole canvas.old }
        requires spans { AreApart 0 canvas.old.width spans.now }
        requires row { HasRow canvas.old y }
        requires countable { canvas.old.writes + 2 * canvas.old.width < 2 ^ 64 }
        requires read { HoldsRead self.now.row_ops self.now.columns y scratch.old.sources.value }
        requires order { self.now.columns.from ≤ self.now.columns.to }
        requires end { self.now.columns.to ≤ 8192 }
        requires eight { HasEight self.now.row_ops }
        ensures painted { PaintsSpans (painter_paint self.now) self.now.columns y spans.now canvas.old canvas.new }
        ensures few { canvas.new.writes ≤ canvas.old.writes + canvas.old.width }
        ensures sources { scratch.new.sources ≡ scratch.old.sources }
    {
        let cuts = self.clip.cut_boxes();
        match &self.row_ops {
            RowOps::Same(row_op) => put_spans(canvas, row_op, y, spans, cuts),
            RowOps::Repeated(hatch) => {
                let row_ops = &hatch.row_ops[..];
                put_spans(canvas, &row_ops[(y % PERIOD) as usize], y, spans, cuts);
            }
            RowOps::EachRow(paint) => {
                let row_op = paint.new_row(y, self.columns, &*scratch.sources, &mut scratch.mixes);
                put_spans(canvas, &row_op, y, spans, cuts);
            }
        }
    }
}
