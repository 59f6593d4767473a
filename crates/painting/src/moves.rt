//! The moves through a list of points, on the surface.

ghost use Rattle.std.specs.Prelude.{◌≡◌, ◌↔◌, [], IfSome, IsTrue};
ghost use Rattle.std.specs.List.{All};
ghost use Rattle.point_views.specs.Points.{points_of};
ghost use Rattle.span_fill.specs.Lines.{GivesFirst, IsNearPoint};
ghost use Rattle.painting.specs.FewPoints.{few_points};
ghost use Rattle.painting.specs.Moves.{IsNearMove, end_before, end_after, moves_of_list};
ghost use Rattle.painting.specs.PlacedLines.{AllLand};

use dc_stack::{FigureEnd, Projection, Verb};
use mapping::Point;
use point_views::Points;

/// A change to the open figure.
#[derive(Clone, Copy, Debug, PartialEq, Eq)]
pub(crate) enum Move {
    /// A line to this point, or the start of a figure there.
    To(Point),
    /// The end of the figure.
    End(FigureEnd),
}

/// Up to four points.
#[derive(Clone, Copy, Debug, PartialEq, Eq)]
pub(crate) enum FewPoints {
    Zero,
    One(Point),
    Two(Point, Point),
    Three(Point, Point, Point),
    Four(Point, Point, Point, Point),
}

/// Points of the page.
#[derive(Clone, Copy, Debug)]
pub(crate) struct PagePoints<'a> {
    pub(crate) by: Projection,
    pub(crate) points: Points<'a>,
    pub(crate) ghost land: { AllLand by (points_of points) },
}

/// Points of a surface.
#[derive(Clone, Copy, Debug)]
pub(crate) struct PlacedPoints {
    pub(crate) points: FewPoints,
    pub(crate) ghost near: { All IsNearPoint (few_points points) },
}

/// The remaining points of a list.
#[derive(Clone, Copy, Debug)]
pub(crate) enum ListPoints<'a> {
    Page(PagePoints<'a>),
    Placed(PlacedPoints),
}

/// The remaining moves through a list.
#[derive(Clone, Copy, Debug)]
pub(crate) struct ListMoves<'a> {
    /// The end of the open figure before the list. `None` once it has been returned.
    pub(crate) before: Option<FigureEnd>,
    pub(crate) points: ListPoints<'a>,
    /// The end of the open figure after the list. `None` once it has been returned.
    pub(crate) after: Option<FigureEnd>,
}

impl FewPoints {
    /// Takes the first point, or returns `None` if there is none.
    fn next_point(&mut self) -> Option<Point>
        ensures { GivesFirst (few_points self.old) result (few_points self.new) }
    {
        let (point, rest) = match *self {
            FewPoints::Zero => return None,
            FewPoints::One(a) => (a, FewPoints::Zero),
            FewPoints::Two(a, b) => (a, FewPoints::One(b)),
            FewPoints::Three(a, b, c) => (a, FewPoints::Two(b, c)),
            FewPoints::Four(a, b, c, d) => (a, FewPoints::Three(b, c, d)),
        };
        *self = rest;
        Some(point)
    }
}

impl<'a> PagePoints<'a> {
    ghost use Rattle.painting.specs.MovesToCome.{page_points_left};

    /// Takes the first point and returns it on the surface, or `None` if there is none.
    fn next_point(&mut self) -> Option<Point>
        ensures point { GivesFirst (page_points_left self.old) result (page_points_left self.new) }
        ensures near { IfSome result IsNearPoint }
    {
        let (point, rest) = self.points.split_first()?;
        let placed = self.by.at(point);
        self.points = rest;
        Some(placed)
    }
}

impl PlacedPoints {
    ghost use Rattle.painting.specs.MovesToCome.{placed_points_left};

    /// Takes the first point, or returns `None` if there is none.
    fn next_point(&mut self) -> Option<Point>
        ensures point { GivesFirst (placed_points_left self.old) result (placed_points_left self.new) }
        ensures near { IfSome result IsNearPoint }
    {
        let mut points = self.points;
        let point = points.next_point()?;
        self.points = points;
        Some(point)
    }
}

impl<'a> ListPoints<'a> {
    ghost use Rattle.painting.specs.MovesToCome.{points_left};

    /// Takes the first point and returns it on the surface, or `None` if there is none.
    fn next_point(&mut self) -> Option<Point>
        ensures point { GivesFirst (points_left self.old) result (points_left self.new) }
        ensures near { IfSome result IsNearPoint }
    {
        match self {
            ListPoints::Page(list) => list.next_point(),
            ListPoints::Placed(list) => list.next_point(),
        }
    }

    /// Whether no point remains.
    fn is_empty(&self) -> bool
        ensures { IsTrue result ↔ (points_left self.now ≡ []) }
    {
        match self {
            ListPoints::Page(list) => list.points.is_empty(),
            ListPoints::Placed(list) => matches!(list.points, FewPoints::Zero),
        }
    }
}

/// How the open figure ends before a list.
fn end_before_list(verb: Verb) -> FigureEnd
    ensures { result ≡ end_before verb }
{
    match verb {
        Verb::GoesOn => FigureEnd::Open,
        Verb::Polylines | Verb::Polygons => FigureEnd::Ended,
    }
}

/// How the open figure ends after a list.
fn end_after_list(verb: Verb) -> FigureEnd
    ensures { result ≡ end_after verb }
{
    match verb {
        Verb::GoesOn | Verb::Polylines => FigureEnd::Open,
        Verb::Polygons => FigureEnd::Closed,
    }
}

impl<'a> ListMoves<'a> {
    ghost use Rattle.painting.specs.MovesToCome.{list_moves_left, points_left};

    /// The moves through a list.
    pub(crate) fn new(verb: Verb, points: ListPoints<'a>) -> ListMoves<'a>
        ensures { list_moves_left result ≡ moves_of_list verb (points_left points.entry) }
    {
        if points.is_empty() {
            return ListMoves {
                before: None,
                points,
                after: None,
            };
        }
        ListMoves {
            before: Some(end_before_list(verb)),
            points,
            after: Some(end_after_list(verb)),
        }
    }

    /// The next move, or `None` after the last one.
    pub(crate) fn next_move(&mut self) -> Option<Move>
        ensures next { GivesFirst (list_moves_left self.old) result (list_moves_left self.new) }
        ensures near { IfSome result IsNearMove }
    {
        if let Some(end) = self.before {
            self.before = None;
            return Some(Move::End(end));
        }
        if let Some(point) = self.points.next_point() {
            return Some(Move::To(point));
        }
        let end = self.after?;
        self.after = None;
        Some(Move::End(end))
    }
}
