//! Joining the columns of several lines to spans.

ghost use Rattle.std.specs.Prelude.{◌≡◌, ◌+◌, ◌<◌, ◌≤◌, length, vec_len, vec_capacity};
ghost use Rattle.std.specs.List.Sorted.{IsNonDecreasingBy, IsPermutation};
ghost use Rattle.span_fill.specs.Joining.{column_after, joined};
ghost use Rattle.span_fill.specs.Spans.{AreRow, in_spans};
ghost use Rattle.span_fill.specs.Sweep.{run_at};

use crate::row_spans::RowSpans;
use crate::span::Span;
use crate::sweep::{put_part, put_run};

/// Sorts the parts by the columns where they begin.
pub(crate) fn sort_parts(parts: &mut Vec<Span>)
    ensures permutation { IsPermutation parts.old.items parts.new.items }
    ensures sorted { IsNonDecreasingBy (λ part. part.from) parts.new.items }
    ensures length { vec_len parts.new ≡ vec_len parts.old }
    ensures capacity { vec_capacity parts.new ≡ vec_capacity parts.old }
{
    parts.sort_unstable_by_key(|part| part.from);
}

/// Replaces the spans by what the parts have of an interval, as spans that are at least one pixel apart.
pub(crate) fn join_within(parts: &[Span], interval: Span, spans: &mut RowSpans)
    requires sorted { IsNonDecreasingBy (λ part. part.from) parts.now }
    requires capacity { 1 ≤ length parts.now → length parts.now + 1 ≤ spans.old.capacity }
    ensures spans { AreRow (λ x. in_spans parts.now x) interval spans.new.items }
    ensures capacity { spans.new.capacity ≡ spans.old.capacity }
{
    if interval.from >= interval.to {
        spans.clear();
        return;
    }
    if parts.is_empty() {
        spans.clear();
        return;
    }
    join(parts, interval, spans);
}

/// The same if there are parts and the interval isn't empty.
fn join(parts: &[Span], interval: Span, spans: &mut RowSpans)
    requires capacity { length parts.now + 1 ≤ spans.old.capacity }
    ensures spans { spans.new.items ≡ joined interval.to parts.now (run_at interval.from) }
    ensures capacity { spans.new.capacity ≡ spans.old.capacity }
{
    spans.clear();
    let mut run = Span {
        from: interval.from,
        to: interval.from,
    };
    for part in parts {
        let from = after(run, part.from, interval.to);
        let to = after(run, part.to, interval.to);
        run = put_part(spans, run, from, to, true);
    }
    put_run(spans, run);
}

/// A column, limited to be after a run and within the rest of the interval.
fn after(run: Span, column: u32, end: u32) -> u32
    ensures { result ≡ column_after run column end }
{
    run.to.max(column.min(end))
}
