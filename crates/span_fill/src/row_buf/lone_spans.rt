//! Rows of a fill that have a single span.

ghost use Rattle.std.specs.Prelude.{◌≡◌, ◌<◌, ◌≤◌};
ghost use Rattle.span_fill.specs.RowState.{GivesLoneSpan, IsFillingWork};

use crate::lone_pair::{is_lone_pair, span_between};
use crate::row_buf::RowBuf;
use crate::span::Span;

impl RowBuf {
    /// The next row.
    pub fn next_row(&self) -> u32
        ensures { result ≡ self.now.next }
    {
        self.next
    }

    /// The only span of the next row within the interval, if just two edges cross the row. The span may be empty.
    /// Advances to the row after it. Without such a span nothing changes. The spans that were computed last are kept.
    #[inline]
    pub fn next_lone_span(&mut self, interval: Span) -> Option<Span>
        requires filling { IsFillingWork self.old.work }
        requires next { self.old.next < 8192 }
        requires order { interval.from ≤ interval.to }
        requires end { interval.to ≤ 8192 }
        ensures { GivesLoneSpan self.old interval result self.new }
    {
        if !is_lone_pair(self.rule, self.active.as_slice()) {
            return None;
        }
        let span = span_between(&self.active[0], &self.active[1], interval);
        self.step();
        Some(span)
    }
}
