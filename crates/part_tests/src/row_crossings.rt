//! The crossings of several rows. Finding those of a row changes neither its spans nor those of the row before.

ghost use Rattle.std.specs.Prelude.{◌≡◌, ◌+◌, ◌≤◌, length};
ghost use Rattle.std.specs.List.{All};
ghost use Rattle.span_fill.specs.Lines.{HasNearEnds};
ghost use Rattle.span_fill.specs.RowState.{IsFillingWork, SameWork};

use crate::comparing::same;
use mapping::Point;
use span_fill::{Crossing, FillRule, Line, Outline, RowBuf, Span};
use std::process::Abort;
use std::test::Fail;

/// The remaining lines of a slice.
#[derive(Clone, Copy, Debug, Drop)]
struct LineList<'l> {
    rest: &'l [Line],
    ghost near: { All HasNearEnds rest.now },
}

impl<'l> Outline for LineList<'l> {
    ghost lines = { λ list. list.rest.now };

    fn count(&self) -> usize {
        self.rest.len()
    }

    fn next_line(&mut self) -> Option<Line> {
        let (first, rest) = self.rest.split_first()?;
        self.rest = rest;
        Some(*first)
    }
}

/// A line between two points.
fn line(x: u16, y: u16, end_x: u16, end_y: u16) -> Line
    ensures { HasNearEnds result }
{
    Line {
        from: Point {
            x: i32::from(x),
            y: i32::from(y),
        },
        to: Point {
            x: i32::from(end_x),
            y: i32::from(end_y),
        },
    }
}

/// What a row has: the points where lines cross it, and its spans.
#[derive(Clone, Copy)]
struct Row<'r> {
    crossings: &'r [(u32, i64, i64)],
    spans: &'r [Span],
}

/// The crossings are these, in any order.
fn check_crossings(rt: &impl Abort, found: &[Crossing], wanted: &[(u32, i64, i64)]) {
    same(rt, found.len(), wanted.len());
    for (line, quotient, rest) in wanted {
        let crossing = Crossing {
            line: *line,
            quotient: *quotient,
            rest: *rest,
        };
        assert!(rt; found.contains(&crossing), "line {line}");
    }
}

/// The next row has these crossings, found twice, and these spans. Finding the crossings doesn't change the spans of
/// the row before, and computing the row doesn't change the crossings.
fn check_row(rt: &impl Abort, rows: &mut RowBuf, before: &[Span], interval: Span, row: Row<'_>)
    requires filling { IsFillingWork rows.old.work }
    requires next { rows.old.next + 1 ≤ 8192 }
    requires interval { interval.to ≤ 8192 }
    ensures same { SameWork rows.old rows.new }
    ensures next { rows.new.next ≡ rows.old.next + 1 }
{
    rows.find_crossings();
    check_crossings(rt, rows.crossings(), row.crossings);
    same(rt, rows.spans(), before);
    rows.find_crossings();
    check_crossings(rt, rows.crossings(), row.crossings);
    rows.next_fill(interval);
    same(rt, rows.spans(), row.spans);
    check_crossings(rt, rows.crossings(), row.crossings);
}

/// Fills the lines of a list from row 0 on, within the interval, and checks each row up to the first one without a
/// crossing.
fn check_whole(
    rt: &impl Abort,
    rows: &mut RowBuf,
    list: LineList,
    interval: Span,
    wanted: [Row<'_>; 6],
)
    requires count { length list.rest.now ≤ rows.old.capacity }
    requires interval { interval.to ≤ 8192 }
    ensures { rows.new.capacity ≡ rows.old.capacity }
{
    let mut outline = list;
    rows.begin_fill(&mut outline, FillRule::EvenOdd, 0);
    check_row(rt, rows, &[], interval, wanted[0]);
    check_row(rt, rows, wanted[0].spans, interval, wanted[1]);
    check_row(rt, rows, wanted[1].spans, interval, wanted[2]);
    check_row(rt, rows, wanted[2].spans, interval, wanted[3]);
    check_row(rt, rows, wanted[3].spans, interval, wanted[4]);
    check_row(rt, rows, wanted[4].spans, interval, wanted[5]);
}

/// What a row has.
fn having<'r>(crossings: &'r [(u32, i64, i64)], spans: &'r [Span]) -> Row<'r> {
    Row { crossings, spans }
}

#[test]
fn each_row_of_a_polygon_has_its_crossings_and_its_spans(rt: HostRuntime) -> Result<(), Fail> {
    let lines = [
        line(2, 0, 8, 3),
        line(8, 3, 3, 5),
        line(3, 5, 0, 1),
        line(0, 1, 2, 0),
    ];
    let list = LineList { rest: &lines };
    let mut rows = RowBuf::new(rt.alloc());
    rows.reserve(4)?;
    // The crossing of line 0 is at 3 + 2y, of line 1 at (57 - 10y) / 4, of line 2 at (6y - 3) / 8, and of line 3 at
    // 1 - 2y. Each is given as a quotient and the remainder by twice the line's height. A pixel is inside from the
    // crossing on, if its centre is at the crossing or after it.
    let whole = [
        having(&[(0, 3, 0), (3, 1, 0)], &[Span { from: 1, to: 3 }]),
        having(&[(0, 5, 0), (2, 0, 3)], &[Span { from: 0, to: 5 }]),
        having(&[(0, 7, 0), (2, 1, 1)], &[Span { from: 1, to: 7 }]),
        having(&[(1, 6, 3), (2, 1, 7)], &[Span { from: 2, to: 7 }]),
        having(&[(1, 4, 1), (2, 2, 5)], &[Span { from: 3, to: 4 }]),
        having(&[], &[]),
    ];
    check_whole(&rt, &mut rows, list, Span { from: 0, to: 9 }, whole);

    let cut = [
        having(&[(0, 3, 0), (3, 1, 0)], &[Span { from: 2, to: 3 }]),
        having(&[(0, 5, 0), (2, 0, 3)], &[Span { from: 2, to: 4 }]),
        having(&[(0, 7, 0), (2, 1, 1)], &[Span { from: 2, to: 4 }]),
        having(&[(1, 6, 3), (2, 1, 7)], &[Span { from: 2, to: 4 }]),
        having(&[(1, 4, 1), (2, 2, 5)], &[Span { from: 3, to: 4 }]),
        having(&[], &[]),
    ];
    check_whole(&rt, &mut rows, list, Span { from: 2, to: 4 }, cut);
    Ok(())
}

#[test]
fn the_row_after_the_last_of_a_surface_has_crossings(rt: HostRuntime) -> Result<(), Fail> {
    // Row y is crossed half a column to the right of column y - 8,190.
    let lines = [line(0, 8190, 4, 8194)];
    let mut list = LineList { rest: &lines };
    let mut rows = RowBuf::new(rt.alloc());
    rows.reserve(1)?;
    rows.begin_fill(&mut list, FillRule::NonZero, 8191);
    let spans = [Span { from: 1, to: 8192 }];
    let last = having(&[(0, 1, 4)], &spans);
    check_row(&rt, &mut rows, &[], Span { from: 0, to: 8192 }, last);
    rows.find_crossings();
    check_crossings(&rt, rows.crossings(), &[(0, 2, 4)]);
    same(&rt, rows.spans(), &spans);
    Ok(())
}
