//! The lines through lists of page points, on the surface, one list after another.

ghost use Rattle.std.specs.Prelude.{◌≡◌, ◌∷◌, ◌<◌, ◌^◌, length};
ghost use Rattle.mapping.specs.declared.geometry.Point.{Point};
ghost use Rattle.point_views.specs.Points.{points_of};
ghost use Rattle.point_views.specs.Polys.{lists_of};
ghost use Rattle.span_fill.specs.Lines.{IsNearPoint};
ghost use Rattle.preflight_cert.specs.Outlines.{open_lines_of};
ghost use Rattle.painting.specs.PlacedLines.{AllLand, AllListsLand, lines_between, lines_of_lists, projected_list};

use crate::list_lines::{Cursor, Ends, ListLines, count_points};
use dc_stack::Projection;
use mapping::Point;
use point_views::{Points, Polys};
use span_fill::{Line, Outline};

/// The remaining lines of some lists of points.
#[derive(Clone, Copy, Debug, Drop)]
pub(crate) struct PlacedLines<'a> {
    /// The current list.
    pub(crate) current: ListLines<'a>,
    /// The lists after it.
    pub(crate) lists: Polys<'a>,
    pub(crate) ghost land: { AllListsLand current.by (lists_of lists) },
}

impl<'a> PlacedLines<'a> {
    ghost use Rattle.painting.specs.LinesToCome.{lines_to_come};

    /// The lines of some lists.
    pub(crate) fn of_lists(by: Projection, ends: Ends, lists: Polys<'a>) -> PlacedLines<'a>
        requires { AllListsLand by (lists_of lists) }
        ensures { lines_to_come result ≡ lines_of_lists by ends (lists_of lists.entry) }
    {
        PlacedLines {
            current: ListLines {
                by,
                ends,
                cursor: None,
                points: lists.points().part(0, 0),
            },
            lists,
        }
    }

    /// The lines from a point of the surface through some page points.
    pub(crate) fn from(
        start: Point,
        ends: Ends,
        by: Projection,
        points: Points<'a>,
    ) -> PlacedLines<'a>
        requires near { IsNearPoint start }
        requires land { AllLand by (points_of points) }
        ensures { lines_to_come result ≡ lines_between ends (start ∷ projected_list by (points_of points.entry)) }
    {
        PlacedLines {
            current: ListLines {
                by,
                ends,
                cursor: Some(Cursor {
                    first: start,
                    last: start,
                }),
                points,
            },
            lists: Polys::empty(),
        }
    }

    /// The number of lines in the lists after the current one.
    fn count_lists(&self) -> usize
        ensures count { result ≡ length (lines_of_lists self.now.current.by self.now.current.ends (lists_of self.now.lists)) }
        ensures few { result < 2 ^ 62 }
    {
        match self.current.ends {
            Ends::Open => count_open(self.lists),
            Ends::Closed => count_points(self.lists.points()),
        }
    }
}

/// The number of lines between consecutive points of each list. A list with points has one line less than it has
/// points.
fn count_open(lists: Polys<'_>) -> usize
    ensures count { result ≡ length (open_lines_of (lists_of lists.entry)) }
    ensures few { result < 2 ^ 62 }
{
    let mut count = count_points(lists.points());
    let mut rest = lists;
    while let Some((points, others)) = rest.after_empty().split_first() {
        count -= points.len().min(1);
        rest = others;
    }
    count
}

impl<'a> Outline for PlacedLines<'a> {
    ghost use Rattle.painting.specs.LinesToCome.{lines_to_come};

    ghost lines = { lines_to_come };

    fn count(&self) -> usize {
        self.current.count() + self.count_lists()
    }

    fn next_line(&mut self) -> Option<Line> {
        loop {
            if let Some(line) = self.current.next_line() {
                return Some(line);
            }
            // A record may have millions of lists without points, and every band goes through them.
            let Some((points, rest)) = self.lists.after_empty().split_first() else {
                return None;
            };
            self.current.begin(points);
            self.lists = rest;
        }
    }
}
