//! The pixels that a nib covers along lines, as spans for a canvas.

ghost use Rattle.std.specs.Prelude.{◌≡◌, ◌≤◌, ◌≤ℤ◌, ◌&&◌, nat_le, nat_lt, pos, ℕ};
ghost use Rattle.span_fill.specs.Spans.{in_span};
ghost use Rattle.span_fill.specs.StrokeMasks.{pixels_left, to_come};
ghost use Rattle.painting.specs.WideSpans.{is_wide_to_come, rows_left};

use canvas::{RowSpan, SpanSource, SpanStep};
use span_fill::{Span, StrokeMask, WideLine, WideRow};

/// The remaining rows of a wide line, within some columns of a surface.
///
/// # Guarantees
///
/// - The rows and the columns are those of a surface.
#[derive(Drop)]
pub(crate) struct WideLineSpans {
    pub(crate) wide: WideLine,
    pub(crate) columns: Span,
    pub(crate) ghost first: { pos 0 ≤ℤ wide.next },
    pub(crate) ghost last: { wide.end ≤ℤ pos 8192 },
    pub(crate) ghost side: { columns.to ≤ 8192 },
}

impl SpanSource for WideLineSpans {
    ghost to_come = { λ spans. is_wide_to_come spans.wide spans.columns };

    ghost measure = { λ spans. rows_left spans.wide };

    ghost ends_as = { λ start end. Unit {0} };

    fn step(&mut self) -> SpanStep {
        let columns = self.columns;
        match self.wide.next() {
            Some(row) => SpanStep::Span(span_of(row, columns)),
            None => SpanStep::End,
        }
    }
}

/// The part of a row within some columns.
fn span_of(row: WideRow, columns: Span) -> RowSpan
    requires { pos 0 ≤ℤ row.y }
    ensures y { pos result.y ≡ row.y }
    ensures columns { (x : ℕ) → (nat_le result.from x && nat_lt x result.to) ≡ (in_span columns x && in_span row.columns x) }
{
    RowSpan {
        y: row.y as u32,
        from: columns.from.max(row.columns.from),
        to: columns.to.min(row.columns.to),
    }
}

/// The remaining spans of a mask.
#[derive(Drop)]
pub(crate) struct MaskSpans<'m> {
    pub(crate) mask: &'m mut StrokeMask,
}

impl<'m> SpanSource for MaskSpans<'m> {
    ghost to_come = { λ spans. to_come spans.mask.now };

    ghost measure = { λ spans. pixels_left spans.mask.now };

    ghost ends_as = { λ start end. Unit {0} };

    fn step(&mut self) -> SpanStep {
        match self.mask.next_span() {
            Some(span) => SpanStep::Span(RowSpan {
                y: span.y,
                from: span.columns.from,
                to: span.columns.to,
            }),
            None => SpanStep::End,
        }
    }
}
