//! How lines wind around the pixels of one column, from row to row.

ghost use Rattle.std.specs.Prelude.{◌≡◌, ◌+◌, ◌<◌, ◌≤◌, ◌^◌, pos, length, vec_len, vec_capacity};
ghost use Rattle.std.specs.List.{All};
ghost use Rattle.mapping.specs.Limits.{IsWithin};
ghost use Rattle.span_fill.specs.Lines.{HasNearEnds};
ghost use Rattle.span_fill.specs.Windings.{ChangesFrom, GrowsBy, HasWindings, WindsLine, WindsRows};

use crate::crossed_rows::crossed_rows;
use crate::edge::Edge;
use crate::line::Line;
use crate::span::Span;

/// The number of rows with changes: those of the largest surface, and one below it for what ends there.
pub(crate) const CHANGES: usize = 8193;

/// Replaces the changes by none.
pub(crate) fn clear_changes(changes: &mut Vec<i32>)
    requires { 8193 ≤ vec_capacity changes.old }
    ensures none { All (IsWithin 0) changes.new.items }
    ensures length { vec_len changes.new ≡ 8193 }
    ensures capacity { vec_capacity changes.new ≡ vec_capacity changes.old }
{
    changes.clear();
    for _ in 0..CHANGES {
        changes.push_reserved(0);
    }
}

/// Adds the changes of the lines in a column.
pub(crate) fn wind_lines(lines: &[Line], column: u32, changes: &mut [i32])
    requires near { All HasNearEnds lines.now }
    requires count { length lines.now ≤ 2 ^ 20 }
    requires column { column < 8192 }
    requires length { length changes.old ≡ 8193 }
    requires none { All (IsWithin 0) changes.old }
    ensures windings { HasWindings lines.now column changes.new }
    ensures length { length changes.new ≡ length changes.old }
{
    for line in lines {
        wind_line(*line, column, changes);
    }
}

/// Adds the changes of a line: where its rows begin and where they end.
fn wind_line(line: Line, column: u32, changes: &mut [i32])
    requires near { HasNearEnds line }
    requires column { column < 8192 }
    requires length { length changes.old ≡ 8193 }
    requires few { All (IsWithin (2 ^ 22)) changes.old }
    ensures windings { WindsLine line column changes.old changes.new }
    ensures few { GrowsBy 2 changes.old changes.new }
    ensures length { length changes.new ≡ length changes.old }
{
    if line.from.y < line.to.y {
        let edge = Edge {
            line: 0,
            is_down: true,
            upper: line.from,
            lower: line.to,
        };
        wind_rows(crossed_rows(edge, column), 1, changes);
    } else if line.to.y < line.from.y {
        let edge = Edge {
            line: 0,
            is_down: false,
            upper: line.to,
            lower: line.from,
        };
        wind_rows(crossed_rows(edge, column), -1, changes);
    }
}

/// Adds a number to the windings of these rows.
fn wind_rows(rows: Span, by: i32, changes: &mut [i32])
    requires order { rows.from ≤ rows.to }
    requires within { rows.to ≤ 8192 }
    requires by { IsWithin 1 by }
    requires length { length changes.old ≡ 8193 }
    requires few { All (IsWithin (2 ^ 22)) changes.old }
    ensures windings { WindsRows rows by changes.old changes.new }
    ensures few { GrowsBy 2 changes.old changes.new }
    ensures length { length changes.new ≡ length changes.old }
{
    change(rows.from, by, changes);
    change(rows.to, -by, changes);
}

/// Adds a number to the windings from a row on.
fn change(row: u32, by: i32, changes: &mut [i32])
    requires row { row < length changes.old }
    requires by { IsWithin 1 by }
    requires few { All (IsWithin (2 ^ 23)) changes.old }
    ensures windings { ChangesFrom row by changes.old changes.new }
    ensures few { GrowsBy 1 changes.old changes.new }
    ensures length { length changes.new ≡ length changes.old }
{
    changes[row as usize] += by;
}
