//! Strips, row by row: the waiting ones, the active ones, and the columns that they have in a row.

ghost use Rattle.std.specs.Prelude.{◌≡◌, ℕ, ℤ, ◌+◌, ◌-◌, ◌<◌, ◌≤◌, pos, unsigned_abs, int_le, drop, length, map, MatchOption, vec_len, vec_capacity};
ghost use Rattle.std.specs.List.{All};
ghost use Rattle.std.specs.List.Sorted.{IsNonDecreasingBy, IsPermutation};
ghost use Rattle.span_fill.specs.Lines.{HasNearEnds};
ghost use Rattle.mapping.specs.Nibs.{IsNib};
ghost use Rattle.span_fill.specs.Spans.{in_spans};
ghost use Rattle.span_fill.specs.StrokeRows.{AllAfter, BeginsWideEdge, HaveLineFrom, HaveLineOfRow, HaveSameFrom, HaveTogether, IsActive, IsPassed, IsWaiting, lines_have, wide_edges_have};

use crate::bounds::CoordinateRange;
use crate::line::Line;
use crate::span::Span;
use crate::wide_edge::WideEdge;
use mapping::Nib;

/// Replaces the strips by those of the lines of which the nib covers something in a row of the surface from `row` on.
pub(crate) fn collect_wide_edges(wide_edges: &mut Vec<WideEdge>, lines: &[Line], nib: Nib, row: u32)
    requires nib { IsNib nib }
    requires near { All HasNearEnds lines.now }
    requires row { row ≤ 8192 }
    requires capacity { length lines.now ≤ vec_capacity wide_edges.old }
    ensures waiting { All (IsWaiting nib (pos row) (pos 8192)) wide_edges.new.items }
    ensures have { (x : ℤ) (y : ℕ) → row ≤ y → y < 8192 → wide_edges_have nib wide_edges.new.items x y ≡ lines_have nib lines.now x y }
    ensures length { vec_len wide_edges.new ≤ length lines.now }
    ensures capacity { vec_capacity wide_edges.new ≡ vec_capacity wide_edges.old }
{
    wide_edges.clear();
    for line in lines {
        put_wide_edge(wide_edges, *line, nib, row);
    }
}

/// Appends the line's strip, if it has one.
fn put_wide_edge(wide_edges: &mut Vec<WideEdge>, line: Line, nib: Nib, row: u32)
    requires nib { IsNib nib }
    requires near { HasNearEnds line }
    requires row { row ≤ 8192 }
    requires waiting { All (IsWaiting nib (pos row) (pos 8192)) wide_edges.old.items }
    requires capacity { vec_len wide_edges.old < vec_capacity wide_edges.old }
    ensures waiting { All (IsWaiting nib (pos row) (pos 8192)) wide_edges.new.items }
    ensures have { HaveLineFrom nib row line wide_edges.old.items wide_edges.new.items }
    ensures length { vec_len wide_edges.new ≤ vec_len wide_edges.old + 1 }
    ensures capacity { vec_capacity wide_edges.new ≡ vec_capacity wide_edges.old }
{
    let Some(edge) = WideEdge::new(line, nib, rows_from(row)) else {
        return;
    };
    wide_edges.push_reserved(edge);
}

/// The rows of a surface from a row on.
fn rows_from(row: u32) -> CoordinateRange
    requires { row ≤ 8192 }
    ensures from { result.from ≡ pos row }
    ensures to { result.to ≡ pos 8192 }
{
    CoordinateRange {
        from: row as i32,
        to: 8192,
    }
}

/// Sorts the strips by their first rows.
pub(crate) fn sort_wide_edges(wide_edges: &mut Vec<WideEdge>)
    ensures permutation { IsPermutation wide_edges.old.items wide_edges.new.items }
    ensures sorted { IsNonDecreasingBy (λ edge. unsigned_abs edge.seen.from) wide_edges.new.items }
    ensures length { vec_len wide_edges.new ≡ vec_len wide_edges.old }
    ensures capacity { vec_capacity wide_edges.new ≡ vec_capacity wide_edges.old }
{
    wide_edges.sort_unstable_by_key(|edge| edge.seen.from.unsigned_abs());
}

/// Appends the strips that begin at the row. Those from `begun` on have not begun before; returns where those begin
/// that still have not.
pub(crate) fn enter(
    active: &mut Vec<WideEdge>,
    waiting: &[WideEdge],
    begun: usize,
    nib: Nib,
    row: u32,
) -> usize
    requires active { All (IsActive nib (pos row) (pos 8192)) active.old.items }
    requires waiting { All (IsWaiting nib (pos row) (pos 8192)) (drop begun waiting.now) }
    requires sorted { IsNonDecreasingBy (λ edge. unsigned_abs edge.seen.from) waiting.now }
    requires begun { begun ≤ length waiting.now }
    requires capacity { vec_len active.old + (length waiting.now - begun) ≤ vec_capacity active.old }
    ensures active { All (IsActive nib (pos row) (pos 8192)) active.new.items }
    ensures have { HaveTogether nib active.old.items (drop begun waiting.now) active.new.items (drop result waiting.now) }
    ensures waiting { AllAfter nib (pos row) (pos 8192) (drop result waiting.now) }
    ensures within { result ≤ length waiting.now }
    ensures length { vec_len active.new + (length waiting.now - result) ≤ vec_len active.old + (length waiting.now - begun) }
    ensures capacity { vec_capacity active.new ≡ vec_capacity active.old }
{
    let mut next = begun;
    while let Some(edge) = entering(waiting, next, nib, row) {
        active.push_reserved(edge);
        next += 1;
    }
    next
}

/// The next strip, if it begins at the row.
fn entering(waiting: &[WideEdge], next: usize, nib: Nib, row: u32) -> Option<WideEdge>
    requires waiting { All (IsWaiting nib (pos row) (pos 8192)) (drop next waiting.now) }
    requires sorted { IsNonDecreasingBy (λ edge. unsigned_abs edge.seen.from) waiting.now }
    ensures { MatchOption result (AllAfter nib (pos row) (pos 8192) (drop next waiting.now)) (λ edge. BeginsWideEdge nib (pos row) (pos 8192) waiting.now next edge) }
{
    if next >= waiting.len() {
        return None;
    }
    let edge = waiting[next];
    if begins_by(edge.seen, row) {
        Some(edge)
    } else {
        None
    }
}

/// Whether a range begins at the row or before it.
fn begins_by(range: CoordinateRange, row: u32) -> bool
    ensures { result ≡ int_le range.from (pos row) }
{
    i64::from(range.from) <= i64::from(row)
}

/// Computes the columns of the row that the nib covers along the strips' lines, advances the strips, and keeps those
/// that have the next row.
pub(crate) fn draw_row(active: &mut Vec<WideEdge>, parts: &mut Vec<Span>, nib: Nib, row: u32)
    requires nib { IsNib nib }
    requires active { All (IsActive nib (pos row) (pos 8192)) active.old.items }
    requires row { row < 8192 }
    requires parts_capacity { vec_len active.old ≤ vec_capacity parts.old }
    ensures parts { (x : ℕ) → x < 8192 → in_spans parts.new.items x ≡ wide_edges_have nib active.old.items (pos x) row }
    ensures active { All (IsActive nib (pos (row + 1)) (pos 8192)) active.new.items }
    ensures have { HaveSameFrom nib (row + 1) active.old.items active.new.items }
    ensures length { vec_len active.new ≤ vec_len active.old }
    ensures parts_length { vec_len parts.new ≡ vec_len active.old }
    ensures capacity { vec_capacity active.new ≡ vec_capacity active.old }
    ensures parts_capacity { vec_capacity parts.new ≡ vec_capacity parts.old }
{
    draw_wide_edges(active.as_mut_slice(), parts, nib, row);
    retire(active, nib, row + 1);
}

/// Computes the columns of the row that the nib covers along each strip's line, and advances each strip.
fn draw_wide_edges(active: &mut [WideEdge], parts: &mut Vec<Span>, nib: Nib, row: u32)
    requires nib { IsNib nib }
    requires active { All (IsActive nib (pos row) (pos 8192)) active.old }
    requires row { row < 8192 }
    requires parts_capacity { length active.old ≤ vec_capacity parts.old }
    ensures parts { (x : ℕ) → x < 8192 → in_spans parts.new.items x ≡ wide_edges_have nib active.old (pos x) row }
    ensures passed { All (IsPassed nib (pos (row + 1)) (pos 8192)) active.new }
    ensures lines { map (λ edge. edge.line) active.new ≡ map (λ edge. edge.line) active.old }
    ensures parts_length { vec_len parts.new ≡ length active.old }
    ensures parts_capacity { vec_capacity parts.new ≡ vec_capacity parts.old }
{
    parts.clear();
    for edge in active.iter_mut() {
        draw_wide_edge(edge, parts, nib, row);
    }
}

/// Appends the columns of the row that the nib covers along the strip's line, and advances the strip.
#[inline]
fn draw_wide_edge(edge: &mut WideEdge, parts: &mut Vec<Span>, nib: Nib, row: u32)
    requires nib { IsNib nib }
    requires active { IsActive nib (pos row) (pos 8192) edge.old }
    requires row { row < 8192 }
    requires capacity { vec_len parts.old < vec_capacity parts.old }
    ensures parts { HaveLineOfRow nib row edge.old.line parts.old.items parts.new.items }
    ensures passed { IsPassed nib (pos (row + 1)) (pos 8192) edge.new }
    ensures line { edge.new.line ≡ edge.old.line }
    ensures length { vec_len parts.new ≡ vec_len parts.old + 1 }
    ensures capacity { vec_capacity parts.new ≡ vec_capacity parts.old }
{
    let surface = Span { from: 0, to: 8192 };
    parts.push_reserved(edge.part(nib, surface));
    edge.move_on(nib, i64::from(row));
}

/// Keeps the strips that have the row.
fn retire(active: &mut Vec<WideEdge>, nib: Nib, row: u32)
    requires passed { All (IsPassed nib (pos row) (pos 8192)) active.old.items }
    ensures active { All (IsActive nib (pos row) (pos 8192)) active.new.items }
    ensures have { HaveSameFrom nib row active.old.items active.new.items }
    ensures length { vec_len active.new ≤ vec_len active.old }
    ensures capacity { vec_capacity active.new ≡ vec_capacity active.old }
{
    active.retain(|edge| i64::from(row) < i64::from(edge.seen.to));
}
