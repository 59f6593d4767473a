//! The lines through one list of page points, on the surface.

ghost use Rattle.std.specs.Prelude.{◌≡◌, ◌<◌, ◌≤◌, ◌^◌, length, IfSome};
ghost use Rattle.mapping.specs.declared.geometry.Point.{Point};
ghost use Rattle.point_views.specs.Points.{points_of};
ghost use Rattle.span_fill.specs.Lines.{GivesFirst, HasNearEnds, IsNearPoint};
ghost use Rattle.painting.specs.PlacedLines.{AllLand, lines_of_list};

use dc_stack::Projection;
use mapping::Point;
use point_views::Points;
use span_fill::Line;

/// Whether a line joins the last point of a list to its first.
#[derive(Clone, Copy, Debug, PartialEq, Eq)]
pub(crate) enum Ends {
    Open,
    Closed,
}

/// A cursor in a list of points: the first point and the latest one, on the surface.
#[derive(Clone, Copy, Debug)]
pub(crate) struct Cursor {
    pub(crate) first: Point,
    pub(crate) last: Point,
    pub(crate) ghost first_near: { IsNearPoint first },
    pub(crate) ghost last_near: { IsNearPoint last },
}

/// The remaining lines of a list.
#[derive(Clone, Copy, Debug)]
pub(crate) struct ListLines<'a> {
    pub(crate) by: Projection,
    pub(crate) ends: Ends,
    /// The position in the list. `None` after the last line, or if there is no line.
    pub(crate) cursor: Option<Cursor>,
    /// The remaining page points.
    pub(crate) points: Points<'a>,
    pub(crate) ghost land: { AllLand by (points_of points) },
}

impl<'a> ListLines<'a> {
    ghost use Rattle.painting.specs.LinesToCome.{lines_left};

    /// Begins with another list. Only what differs between lists is written, since a drawing may have many that are short.
    pub(crate) fn begin(&mut self, points: Points<'a>)
        requires { AllLand self.old.by (points_of points) }
        ensures lines { lines_left self.new ≡ lines_of_list self.old.by self.old.ends (points_of points.entry) }
        ensures by { self.new.by ≡ self.old.by }
        ensures ends { self.new.ends ≡ self.old.ends }
    {
        let Some((first, rest)) = points.split_first() else {
            self.cursor = None;
            self.points = points;
            return;
        };
        let first = self.by.at(first);
        self.cursor = Some(Cursor { first, last: first });
        self.points = rest;
    }

    /// The number of remaining lines.
    pub(crate) fn count(&self) -> usize
        ensures count { result ≡ length (lines_left self.now) }
        ensures few { result ≤ 2 ^ 62 }
    {
        let count = count_points(self.points);
        match (self.cursor, self.ends) {
            (None, _) => 0,
            (Some(_), Ends::Open) => count,
            (Some(_), Ends::Closed) => count + 1,
        }
    }

    /// The next line, or `None` after the last one.
    pub(crate) fn next_line(&mut self) -> Option<Line>
        ensures line { GivesFirst (lines_left self.old) result (lines_left self.new) }
        ensures near { IfSome result HasNearEnds }
        ensures by { self.new.by ≡ self.old.by }
        ensures ends { self.new.ends ≡ self.old.ends }
    {
        let Some(cursor) = self.cursor else {
            return None;
        };
        let Some((point, rest)) = self.points.split_first() else {
            self.cursor = None;
            return match self.ends {
                Ends::Open => None,
                Ends::Closed => Some(Line {
                    from: cursor.last,
                    to: cursor.first,
                }),
            };
        };
        let last = self.by.at(point);
        self.points = rest;
        self.cursor = Some(Cursor {
            first: cursor.first,
            last,
        });
        Some(Line {
            from: cursor.last,
            to: last,
        })
    }
}

/// The number of points: below 2^62, because each takes at least four bytes.
pub(crate) fn count_points(points: Points<'_>) -> usize
    ensures count { result ≡ length (points_of points.entry) }
    ensures few { result < 2 ^ 62 }
{
    points.len()
}
