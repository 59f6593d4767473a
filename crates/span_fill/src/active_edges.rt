//! Updates the active edges where edges end or begin.

ghost use Rattle.std.specs.Prelude.{◌≡◌, ◌+◌, ◌-◌, ◌≤◌, ◌<◌, ◌++◌, length, drop, filter, MatchOption, vec_len, vec_capacity};
ghost use Rattle.std.specs.List.{All};
ghost use Rattle.std.specs.List.Sorted.{IsNonDecreasingBy, IsPermutation};
ghost use Rattle.span_fill.specs.Admitting.{BeginsEdge, NoneBegins, beginning_edges};
ghost use Rattle.span_fill.specs.Edges.{IsEdge, active_at, begins_after, edge_first_row, goes_to};

use crate::edge::{ActiveEdge, Edge};

/// Sorts the edges by the rows where they begin.
pub(crate) fn sort_edges(edges: &mut Vec<Edge>)
    ensures permutation { IsPermutation edges.old.items edges.new.items }
    ensures sorted { IsNonDecreasingBy edge_first_row edges.new.items }
    ensures length { vec_len edges.new ≡ vec_len edges.old }
    ensures capacity { vec_capacity edges.new ≡ vec_capacity edges.old }
{
    edges.sort_unstable_by_key(|edge| edge.first_row());
}

/// Removes the edges that don't cross the row.
pub(crate) fn retire(active: &mut Vec<ActiveEdge>, row: u32)
    ensures edges { active.new.items ≡ filter (goes_to row) active.old.items }
    ensures length { vec_len active.new ≤ vec_len active.old }
    ensures capacity { vec_capacity active.new ≡ vec_capacity active.old }
{
    active.retain(|edge| row < edge.bottom);
}

/// Appends the edges that begin at the row or above it, where they cross it. The edges from `begun` on have not begun
/// before; returns where those begin that still have not.
pub(crate) fn admit(active: &mut Vec<ActiveEdge>, edges: &[Edge], begun: usize, row: u32) -> usize
    requires edges { All IsEdge edges.now }
    requires sorted { IsNonDecreasingBy edge_first_row edges.now }
    requires begun { begun ≤ length edges.now }
    requires row { row ≤ 8192 }
    requires capacity { vec_len active.old + (length edges.now - begun) ≤ vec_capacity active.old }
    ensures active { active.new.items ≡ active.old.items ++ beginning_edges row (drop begun edges.now) }
    ensures left { drop result edges.now ≡ filter (begins_after row) (drop begun edges.now) }
    ensures within { result ≤ length edges.now }
    ensures length { vec_len active.new + (length edges.now - result) ≤ vec_len active.old + (length edges.now - begun) }
    ensures capacity { vec_capacity active.new ≡ vec_capacity active.old }
{
    let mut next = begun;
    while let Some(edge) = beginning(edges, next, row) {
        active.push_reserved(edge.active_at(row));
        next += 1;
    }
    next
}

/// The next edge, if it begins at the row or above it.
fn beginning(edges: &[Edge], next: usize, row: u32) -> Option<Edge>
    requires edges { All IsEdge edges.now }
    requires sorted { IsNonDecreasingBy edge_first_row edges.now }
    ensures { MatchOption result (NoneBegins row (drop next edges.now)) (BeginsEdge row edges.now next) }
{
    if next >= edges.len() {
        return None;
    }
    let edge = edges[next];
    if edge.first_row() <= row {
        Some(edge)
    } else {
        None
    }
}
