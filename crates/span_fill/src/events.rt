//! The rows in which edges end or begin. In the rows between them, the same edges are active.

ghost use Rattle.std.specs.Prelude.{◌≡◌, drop};
ghost use Rattle.span_fill.specs.Events.{first_begin, first_end};

use crate::edge::{ActiveEdge, Edge};

/// A row below all that can be used.
const BELOW_ALL: u32 = 8193;

/// The first row in which an active edge has ended, or a waiting one begins. The waiting ones are those from `begun`
/// on.
pub(crate) fn next_event(active: &[ActiveEdge], edges: &[Edge], begun: usize) -> u32
    ensures { result ≡ first_end (first_begin (drop begun edges.now)) active.now }
{
    let mut event = next_begin(edges, begun);
    for edge in active {
        event = event.min(edge.bottom);
    }
    event
}

/// The row in which the next edge begins.
fn next_begin(edges: &[Edge], begun: usize) -> u32
    ensures { result ≡ first_begin (drop begun edges.now) }
{
    if begun < edges.len() {
        edges[begun].first_row()
    } else {
        BELOW_ALL
    }
}
