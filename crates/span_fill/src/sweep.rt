//! The spans of a row, from the edges that cross it.

ghost use Rattle.std.specs.Prelude.{◌≡◌, ◌+◌, ◌-◌, ◌≤◌, ◌<◌, ◌^◌, ◌++◌, IsTrue, drop, length, max, min, if◌then◌else◌};
ghost use Rattle.smallvec.specs.SmallVec.{HasRoomFor, small_vec_len};
ghost use Rattle.span_fill.specs.Edges.{column_of, near_column};
ghost use Rattle.span_fill.specs.Fill.{is_inside};
ghost use Rattle.span_fill.specs.Sweep.{has_pair, is_over_after, is_part, longer_run, ended_spans, run_spans, swept, swept_within};

use crate::edge::ActiveEdge;
use crate::fill_rule::FillRule;
use crate::row_spans::RowSpans;
use crate::span::Span;

/// Appends the spans of a row within the interval. Most rows have two edges, and one span between them.
#[inline]
pub(crate) fn sweep(rule: FillRule, edges: &[ActiveEdge], interval: Span, spans: &mut RowSpans)
    requires count { length edges.now ≤ 2 ^ 20 }
    requires interval { interval.to ≤ 8192 }
    requires capacity { HasRoomFor spans.old (length edges.now + 2) }
    ensures spans { spans.new.items ≡ spans.old.items ++ swept_within rule edges.now interval }
    ensures capacity { spans.new.capacity ≡ spans.old.capacity }
{
    if edges.len() == 2 && is_over_after(rule, edges[0], edges[1]) {
        let from = column_after(interval.from, &edges[0], interval.to);
        let to = column_after(from, &edges[1], interval.to);
        put_run(spans, Span { from, to });
    } else {
        sweep_pairs(rule, edges, interval, spans);
    }
}

/// The same for any edges: two at a time, for as long as nothing is inside after both.
fn sweep_pairs(rule: FillRule, edges: &[ActiveEdge], interval: Span, spans: &mut RowSpans)
    requires count { length edges.now ≤ 2 ^ 20 }
    requires interval { interval.to ≤ 8192 }
    requires capacity { HasRoomFor spans.old (length edges.now + 2) }
    ensures spans { spans.new.items ≡ spans.old.items ++ swept_within rule edges.now interval }
    ensures capacity { spans.new.capacity ≡ spans.old.capacity }
{
    let mut at = interval.from;
    let mut run = Span { from: at, to: at };
    let mut place = 0;
    while has_pair(rule, edges, place) {
        let from = column_after(at, &edges[place], interval.to);
        at = column_after(from, &edges[place + 1], interval.to);
        run = put_part(spans, run, from, at, true);
        place += 2;
    }
    sweep_rest(
        rule,
        edges,
        place,
        Span {
            from: at,
            to: interval.to,
        },
        run,
        spans,
    );
}

/// Whether there are two edges at the index, and nothing is inside after both if nothing is before.
fn has_pair(rule: FillRule, edges: &[ActiveEdge], place: usize) -> bool
    requires count { length edges.now ≤ 2 ^ 20 }
    requires place { place ≤ length edges.now }
    ensures pair { result ≡ has_pair rule (drop place edges.now) }
    ensures within { IsTrue result → place + 1 < length edges.now }
{
    place + 1 < edges.len() && is_over_after(rule, edges[place], edges[place + 1])
}

/// Whether nothing is inside after the two edges.
pub(crate) fn is_over_after(rule: FillRule, left: ActiveEdge, right: ActiveEdge) -> bool
    ensures { result ≡ is_over_after rule left right }
{
    match rule {
        FillRule::EvenOdd => true,
        FillRule::NonZero => left.is_down != right.is_down,
    }
}

/// The same for the edges from the index on, in the rest of the interval: in the order of their columns, with the
/// number of those to the left. Before them nothing is inside, and a run may not have ended yet.
fn sweep_rest(
    rule: FillRule,
    edges: &[ActiveEdge],
    place: usize,
    rest: Span,
    begun: Span,
    spans: &mut RowSpans,
)
    requires count { length edges.now ≤ 2 ^ 20 }
    requires place { place ≤ length edges.now }
    requires interval { rest.to ≤ 8192 }
    requires capacity { HasRoomFor spans.old (length edges.now - place + 2) }
    ensures spans { spans.new.items ≡ spans.old.items ++ swept rule rest.to (drop place edges.now) rest.from 0 0 begun }
    ensures capacity { spans.new.capacity ≡ spans.old.capacity }
{
    let mut at = rest.from;
    let mut run = begun;
    let mut downs: u32 = 0;
    let mut ups: u32 = 0;
    for next in place..edges.len() {
        let edge = &edges[next];
        let column = column_after(at, edge, rest.to);
        run = put_part(spans, run, at, column, is_inside_at(rule, downs, ups));
        at = column;
        downs = counted(downs, edge.is_down);
        ups = counted(ups, !edge.is_down);
    }
    run = put_part(spans, run, at, rest.to, is_inside_at(rule, downs, ups));
    put_run(spans, run);
}

/// The edge's column, limited to the rest of the interval.
pub(crate) fn column_after(at: u32, edge: &ActiveEdge, end: u32) -> u32
    requires { end ≤ 8192 }
    ensures { result ≡ max at (min (column_of edge.now) end) }
{
    edge.column.min(i64::from(end)).max(i64::from(at)) as u32
}

/// The count plus 1, if the edge counts.
pub(crate) fn counted(count: u32, counts: bool) -> u32
    requires { count ≤ 2 ^ 20 }
    ensures { result ≡ count + (if counts then 1 else 0) }
{
    count + u32::from(counts)
}

/// Whether a pixel with these numbers of edges to its left is inside.
pub(crate) fn is_inside_at(rule: FillRule, downs: u32, ups: u32) -> bool
    requires { downs + ups < 2 ^ 32 }
    ensures { result ≡ is_inside rule downs ups }
{
    match rule {
        FillRule::EvenOdd => (downs + ups) % 2 == 1,
        FillRule::NonZero => downs != ups,
    }
}

/// Extends the run by the columns from `from` to before `to`, if they are inside. If they aren't adjacent to the run,
/// the run becomes a span.
pub(crate) fn put_part(spans: &mut RowSpans, run: Span, from: u32, to: u32, inside: bool) -> Span
    requires { HasRoomFor spans.old 1 }
    ensures run { result ≡ longer_run inside run from to }
    ensures spans { spans.new.items ≡ spans.old.items ++ ended_spans inside run from to }
    ensures length { small_vec_len spans.new ≤ small_vec_len spans.old + 1 }
    ensures capacity { spans.new.capacity ≡ spans.old.capacity }
{
    if !inside || from >= to {
        return run;
    }
    if run.to == from {
        return Span { from: run.from, to };
    }
    put_run(spans, run);
    Span { from, to }
}

/// Appends the run as a span, if it has columns.
pub(crate) fn put_run(spans: &mut RowSpans, run: Span)
    requires { HasRoomFor spans.old 1 }
    ensures spans { spans.new.items ≡ spans.old.items ++ run_spans run }
    ensures length { small_vec_len spans.new ≤ small_vec_len spans.old + 1 }
    ensures capacity { spans.new.capacity ≡ spans.old.capacity }
{
    if run.from < run.to {
        spans.push_reserved(run);
    }
}
