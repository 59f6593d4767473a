//! The rows in which an edge lies to the left of a column's pixels. The crossing of an edge moves in one direction
//! only, so they are one interval, and one division finds its end.

ghost use Rattle.std.specs.Prelude.{◌≡◌, ◌+◌, ◌*◌, ◌<◌, ◌≤◌, ◌^◌, pos, ◌+ℤ◌, ◌-ℤ◌, ◌*ℤ◌, ◌≤ℤ◌};
ghost use Rattle.mapping.specs.Limits.{IsWithin};
ghost use Rattle.span_fill.specs.CrossedRows.{HasCrossedRows, HasRowsAfter, HasRowsFrom, HasRowsTo, IsLastMultiple, IsRowOf, reach_of};
ghost use Rattle.span_fill.specs.Edges.{IsEdge};

use crate::edge::Edge;
use crate::edge_start::{doubled, product};
use crate::span::Span;

/// The rows in which the edge crosses at or to the left of the column's centre.
pub(crate) fn crossed_rows(edge: Edge, column: u32) -> Span
    requires edge { IsEdge edge }
    requires column { column < 8192 }
    ensures rows { HasCrossedRows edge.upper edge.lower column result }
    ensures order { result.from ≤ result.to }
    ensures within { result.to ≤ 8192 }
{
    let across = edge.across();
    let reach = reach(edge, column);
    if across > 0 {
        rows_to(edge, last_multiple(reach - across, doubled(across)))
    } else if across < 0 {
        rows_after(edge, last_multiple(across - reach - 1, doubled(-across)))
    } else if reach >= 0 {
        rows_after(edge, -1)
    } else {
        rows_to(edge, -1)
    }
}

/// The distance of the column's centre to the right of the upper end, in half columns, times the edge's height.
fn reach(edge: Edge, column: u32) -> i64
    requires edge { IsEdge edge }
    requires column { column < 8192 }
    ensures value { result ≡ reach_of edge.upper edge.lower column }
    ensures near { IsWithin (2 ^ 61) result }
{
    product(half_columns(edge, column), edge.down())
}

/// The distance of the column's centre to the right of the upper end, in half columns.
fn half_columns(edge: Edge, column: u32) -> i64
    requires edge { IsEdge edge }
    requires column { column < 8192 }
    ensures value { result ≡ pos (2 * column + 1) -ℤ pos 2 *ℤ edge.upper.x }
    ensures near { IsWithin (2 ^ 31) result }
{
    i64::from(2 * column + 1) - 2 * i64::from(edge.upper.x)
}

/// The greatest number whose multiple is at most the dividend.
fn last_multiple(dividend: i64, divisor: i64) -> i64
    requires dividend { IsWithin (2 ^ 62) dividend }
    requires low { pos 1 ≤ℤ divisor }
    ensures last { IsLastMultiple dividend divisor result }
    ensures near { IsWithin (2 ^ 62) result }
{
    dividend.div_euclid(divisor)
}

/// The edge's rows up to the one this far below its upper end.
fn rows_to(edge: Edge, last: i64) -> Span
    requires { IsWithin (2 ^ 62) last }
    ensures rows { HasRowsTo edge.upper edge.lower last result }
    ensures order { result.from ≤ result.to }
    ensures within { result.to ≤ 8192 }
{
    let upper = i64::from(edge.upper.y);
    rows_from(upper, i64::from(edge.lower.y).min(upper + last + 1))
}

/// The edge's rows after the one this far below its upper end.
fn rows_after(edge: Edge, last: i64) -> Span
    requires { IsWithin (2 ^ 62) last }
    ensures rows { HasRowsAfter edge.upper edge.lower last result }
    ensures order { result.from ≤ result.to }
    ensures within { result.to ≤ 8192 }
{
    let upper = i64::from(edge.upper.y);
    rows_from(upper.max(upper + last + 1), i64::from(edge.lower.y))
}

/// The rows of the surface from one number to before another.
fn rows_from(from: i64, to: i64) -> Span
    ensures rows { HasRowsFrom from to result }
    ensures order { result.from ≤ result.to }
    ensures within { result.to ≤ 8192 }
{
    let first = surface_row(from);
    Span {
        from: first,
        to: surface_row(to).max(first),
    }
}

/// The number as a row of the surface: row 0 if it is above the surface, 8,192 if it is below.
fn surface_row(number: i64) -> u32
    ensures row { IsRowOf number result }
    ensures within { result ≤ 8192 }
{
    if number <= 0 {
        0
    } else if number >= 8192 {
        8192
    } else {
        number as u32
    }
}
