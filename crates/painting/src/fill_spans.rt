//! The inside of an outline, as spans for a canvas.

ghost use Rattle.std.specs.Prelude.{◌≡◌, ◌<◌, ◌≤◌, IsTrue, length, true};
ghost use Rattle.painting.specs.Fills.{AreSeparateFrom, is_filling};

use canvas::{RowSpan, SpanSource, SpanStep};
use span_fill::{RowBuf, Span};

/// The remaining spans of a fill, in some columns of a surface and in the rows to before `end`.
///
/// # Guarantees
///
/// - The columns and the rows are those of a surface.
/// - The spans of the latest row that weren't returned share no column.
#[derive(Drop)]
pub(crate) struct FillSpans<'r> {
    pub(crate) rows: &'r mut RowBuf,
    pub(crate) columns: Span,
    pub(crate) end: u32,
    /// How many spans of the latest row were returned.
    pub(crate) returned: usize,
    pub(crate) ghost filling: { is_filling rows.now.work ≡ true },
    pub(crate) ghost order: { columns.from ≤ columns.to },
    pub(crate) ghost side: { columns.to ≤ 8192 },
    pub(crate) ghost last: { end ≤ 8192 },
    pub(crate) ghost within: { returned ≤ length rows.now.spans },
    pub(crate) ghost separate: { AreSeparateFrom returned rows.now.spans },
    pub(crate) ghost latest: { returned < length rows.now.spans → 1 ≤ rows.now.next },
}

impl<'r> SpanSource for FillSpans<'r> {
    ghost use Rattle.painting.specs.FillSpans.{EndsFill, is_to_come, steps_left};

    ghost to_come = { is_to_come };

    ghost measure = { steps_left };

    ghost ends_as = { EndsFill };

    /// Returns the next span of the latest row, or else the only span of the next row. If that row has several, their
    /// list is computed, and nothing is returned.
    #[inline]
    fn step(&mut self) -> SpanStep {
        let y = self.rows.next_row();
        if let Some(span) = self.rows.spans().get(self.returned) {
            self.returned += 1;
            return SpanStep::Span(in_row(y - 1, *span));
        }
        if y >= self.end {
            return SpanStep::End;
        }
        if let Some(span) = self.rows.next_lone_span(self.columns) {
            return SpanStep::Span(in_row(y, span));
        }
        self.rows.next_fill(self.columns);
        self.returned = 0;
        SpanStep::Nothing
    }
}

/// A span of a row.
#[inline]
fn in_row(y: u32, span: Span) -> RowSpan
    ensures y { result.y ≡ y }
    ensures from { result.from ≡ span.from }
    ensures to { result.to ≡ span.to }
{
    RowSpan {
        y,
        from: span.from,
        to: span.to,
    }
}
