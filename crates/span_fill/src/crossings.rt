//! Where lines cross a row, each computed separately.

ghost use Rattle.std.specs.Prelude.{◌≡◌, ◌+◌, ◌<◌, ◌≤◌, ◌^◌, [], ◌∷◌, ◌++◌, IsTrue, length, vec_len, vec_capacity};
ghost use Rattle.std.specs.List.{All};
ghost use Rattle.span_fill.specs.Crossings.{crossing_at, crossings_from, crossings_of, crossings_of_line};
ghost use Rattle.span_fill.specs.Fill.{has_row};
ghost use Rattle.span_fill.specs.Lines.{HasNearEnds, IsNearPoint};

use crate::crossing::Crossing;
use crate::edge::Edge;
use crate::line::Line;
use mapping::Point;

/// Replaces the crossings by those of the lines that cross the row.
pub(crate) fn put_crossings(crossings: &mut Vec<Crossing>, lines: &[Line], row: u32)
    requires near { All HasNearEnds lines.now }
    requires count { length lines.now ≤ 2 ^ 20 }
    requires capacity { length lines.now ≤ vec_capacity crossings.old }
    requires row { row ≤ 8192 }
    ensures crossings { crossings.new.items ≡ crossings_of lines.now row }
    ensures capacity { vec_capacity crossings.new ≡ vec_capacity crossings.old }
{
    crossings.clear();
    let mut number: u32 = 0;
    for line in lines {
        put_crossing(crossings, number, *line, row);
        number += 1;
    }
}

/// Appends the line's crossing, if it crosses the row.
fn put_crossing(crossings: &mut Vec<Crossing>, number: u32, line: Line, row: u32)
    requires near { HasNearEnds line }
    requires capacity { vec_len crossings.old < vec_capacity crossings.old }
    requires row { row ≤ 8192 }
    ensures crossings { crossings.new.items ≡ crossings.old.items ++ crossings_of_line number line row }
    ensures length { vec_len crossings.new ≤ vec_len crossings.old + 1 }
    ensures capacity { vec_capacity crossings.new ≡ vec_capacity crossings.old }
{
    if has_row(line.from, line.to, row) {
        crossings.push_reserved(crossing_at(number, line.from, line.to, row));
    } else if has_row(line.to, line.from, row) {
        crossings.push_reserved(crossing_at(number, line.to, line.from, row));
    }
}

/// Whether the row's centre lies between the ends.
fn has_row(upper: Point, lower: Point, row: u32) -> bool
    ensures { result ≡ has_row upper lower row }
{
    i64::from(upper.y) <= i64::from(row) && i64::from(row) < i64::from(lower.y)
}

/// Where the line with this number crosses the row.
fn crossing_at(number: u32, upper: Point, lower: Point, row: u32) -> Crossing
    requires upper { IsNearPoint upper }
    requires lower { IsNearPoint lower }
    requires between { IsTrue (has_row upper lower row) }
    requires row { row ≤ 8192 }
    ensures { result ≡ crossing_at number upper lower row }
{
    let edge = Edge {
        line: number,
        is_down: true,
        upper,
        lower,
    };
    edge.crossing_at(row)
}
