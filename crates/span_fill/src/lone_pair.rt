//! Rows that only two edges cross.

ghost use Rattle.std.specs.Prelude.{◌≡◌, ◌≤◌, ◌&&◌, ℕ, nat_le, nat_lt, max, min};
ghost use Rattle.span_fill.specs.Edges.{column_of};
ghost use Rattle.span_fill.specs.LonePairs.{is_between, is_lone_pair};
ghost use Rattle.span_fill.specs.Spans.{in_span};

use crate::edge::ActiveEdge;
use crate::fill_rule::FillRule;
use crate::span::Span;
use crate::sweep::{column_after, is_over_after};

/// Whether these are two edges, and nothing is inside but what is between them.
#[inline]
pub(crate) fn is_lone_pair(rule: FillRule, edges: &[ActiveEdge]) -> bool
    ensures { result ≡ is_lone_pair rule edges.now }
{
    edges.len() == 2 && is_over_after(rule, edges[0], edges[1])
}

/// The columns of an interval that are between two edges, in any order.
#[inline]
pub(crate) fn span_between(one: &ActiveEdge, other: &ActiveEdge, interval: Span) -> Span
    requires order { interval.from ≤ interval.to }
    requires end { interval.to ≤ 8192 }
    ensures { (x : ℕ) → in_span result x ≡ (in_span interval x && is_between one.now other.now x) }
{
    let first = column_after(interval.from, one, interval.to);
    let last = column_after(interval.from, other, interval.to);
    Span {
        from: first.min(last),
        to: first.max(last),
    }
}
