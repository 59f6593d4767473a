//! A region of a surface, as spans for a canvas.

ghost use Rattle.std.specs.Prelude.{◌-◌};
ghost use Rattle.span_fill.specs.Spans.{in_region};

use canvas::{RowSpan, SpanSource, SpanStep};
use span_fill::Region;

/// The remaining rows of a region.
#[derive(Clone, Copy, Debug)]
pub(crate) struct RegionSpans {
    pub(crate) rest: Region,
}

impl SpanSource for RegionSpans {
    ghost to_come = { λ spans. in_region spans.rest };

    ghost measure = { λ spans. spans.rest.rows.to - spans.rest.rows.from };

    ghost ends_as = { λ start end. Unit };

    /// Returns the next row.
    #[inline]
    fn step(&mut self) -> SpanStep {
        let y = self.rest.rows.from;
        if y >= self.rest.rows.to {
            return SpanStep::End;
        }
        self.rest.rows.from = y + 1;
        SpanStep::Span(RowSpan {
            y,
            from: self.rest.columns.from,
            to: self.rest.columns.to,
        })
    }
}
