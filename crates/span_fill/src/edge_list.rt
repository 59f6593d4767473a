//! The edges of lines.

ghost use Rattle.std.specs.Prelude.{◌≡◌, ◌+◌, ◌<◌, ◌≤◌, ◌^◌, [], ◌∷◌, ◌++◌, filter, length, vec_len, vec_capacity};
ghost use Rattle.span_fill.specs.Edges.{edges_from, edges_of_line, ends_after};

use crate::edge::Edge;
use crate::line::Line;

/// Replaces the edges by those of the lines that end after the row.
pub(crate) fn collect_edges(edges: &mut Vec<Edge>, lines: &[Line], row: u32)
    requires count { length lines.now ≤ 2 ^ 20 }
    requires capacity { length lines.now ≤ vec_capacity edges.old }
    ensures edges { edges.new.items ≡ filter (ends_after row) (edges_from 0 lines.now) }
    ensures length { vec_len edges.new ≤ length lines.now }
    ensures capacity { vec_capacity edges.new ≡ vec_capacity edges.old }
{
    edges.clear();
    let mut number: u32 = 0;
    for line in lines {
        put_line(edges, number, *line, row);
        number += 1;
    }
}

/// Appends the line's edge, if it isn't horizontal and ends after the row.
fn put_line(edges: &mut Vec<Edge>, number: u32, line: Line, row: u32)
    requires { vec_len edges.old < vec_capacity edges.old }
    ensures edges { edges.new.items
        ≡ edges.old.items ++ filter (ends_after row) (edges_of_line number line) }
    ensures length { vec_len edges.new ≤ vec_len edges.old + 1 }
    ensures capacity { vec_capacity edges.new ≡ vec_capacity edges.old }
{
    if line.from.y < line.to.y {
        let edge = Edge {
            line: number,
            is_down: true,
            upper: line.from,
            lower: line.to,
        };
        put_edge(edges, edge, row);
    } else if line.to.y < line.from.y {
        let edge = Edge {
            line: number,
            is_down: false,
            upper: line.to,
            lower: line.from,
        };
        put_edge(edges, edge, row);
    }
}

/// Appends the edge, if it ends after the row.
fn put_edge(edges: &mut Vec<Edge>, edge: Edge, row: u32)
    requires { vec_len edges.old < vec_capacity edges.old }
    ensures edges { edges.new.items ≡ edges.old.items ++ filter (ends_after row) (edge ∷ []) }
    ensures length { vec_len edges.new ≤ vec_len edges.old + 1 }
    ensures capacity { vec_capacity edges.new ≡ vec_capacity edges.old }
{
    if row < edge.bottom() {
        edges.push_reserved(edge);
    }
}
