//! The moves through the points of pieces, on the surface.

ghost use Rattle.std.specs.Prelude.{◌≡◌, [], ◌∷◌, IfSome, IsTrue};
ghost use Rattle.mapping.specs.PlaceOf.{surface_of};
ghost use Rattle.point_views.specs.Polys.{lists_of};
ghost use Rattle.mapping.specs.Boxes.{box_between, left_top_of, right_bottom_of};
ghost use Rattle.dc_stack.specs.Figures.{box_corners};
ghost use Rattle.dc_stack.specs.Pieces.{AllLandOn, LandsOn, page_lists};
ghost use Rattle.dc_stack.specs.Projected.{is_projected, projected};
ghost use Rattle.span_fill.specs.Lines.{GivesFirst};
ghost use Rattle.painting.specs.FewPoints.{few_points};
ghost use Rattle.painting.specs.Moves.{IsNearMove, moves_of_piece, moves_of_pieces};
ghost use Rattle.painting.specs.PieceParts.{page_part, placed_part};
ghost use Rattle.painting.specs.PlacedLines.{AllListsLand};

use crate::moves::{FewPoints, ListMoves, ListPoints, Move, PagePoints, PlacedPoints};
use crate::rectangles::between;
use dc_stack::{FigureEnd, Piece, PiecePoints, Projection, Verb};
use mapping::{Place, Point, Rect, placing_law};
use point_views::Polys;

/// The remaining moves through a piece.
#[derive(Clone, Copy, Debug)]
pub(crate) struct PieceMoves<'a> {
    pub(crate) by: Projection,
    pub(crate) verb: Verb,
    /// The moves through the current list.
    pub(crate) list: ListMoves<'a>,
    /// The lists after it.
    pub(crate) lists: Polys<'a>,
    /// The end of the open figure after the piece. `None` once it has been returned.
    pub(crate) end: Option<FigureEnd>,
    pub(crate) ghost land: { AllListsLand by (lists_of lists) },
}

/// The remaining moves through some pieces.
#[derive(Clone, Copy, Debug, Drop)]
pub(crate) struct PathMoves<'p, 'a> {
    pub(crate) place: Place,
    /// The moves through the current piece.
    pub(crate) current: Option<PieceMoves<'a>>,
    /// The pieces after it.
    pub(crate) pieces: &'p [Piece<'a>],
    pub(crate) ghost land: { AllLandOn (surface_of place) pieces.now },
}

/// The points of a piece that are placed at once: one point, or the corners of a box.
fn place_part(by: Projection, points: PiecePoints<'_>) -> PlacedPoints
    requires { AllListsLand by (page_lists points) }
    ensures { few_points result.points ≡ placed_part by points.entry }
{
    match points {
        PiecePoints::Point(point) => place_one(by, point),
        PiecePoints::List(_) | PiecePoints::Lists(_) => PlacedPoints {
            points: FewPoints::Zero,
        },
        PiecePoints::Corners(corners) => place_corners(by, corners),
    }
}

/// A page point on the surface.
fn place_one(by: Projection, point: Point) -> PlacedPoints
    requires { IsTrue (is_projected by point) }
    ensures { few_points result.points ≡ projected by point ∷ [] }
{
    PlacedPoints {
        points: FewPoints::One(by.at(point)),
    }
}

/// The corners of a box on the surface, computed from two of them.
fn place_corners(by: Projection, corners: Rect) -> PlacedPoints
    requires first { IsTrue (is_projected by (left_top_of corners)) }
    requires second { IsTrue (is_projected by (right_bottom_of corners)) }
    ensures { few_points result.points ≡ box_corners (box_between (projected by (left_top_of corners)) (projected by (right_bottom_of corners))) }
{
    let first = by.at(corners.left_top());
    let second = by.at(corners.right_bottom());
    let inside = between(first, second);
    PlacedPoints {
        points: corners_of(inside),
    }
}

/// The corners of a box, clockwise from the top left.
fn corners_of(inside: Rect) -> FewPoints
    ensures { few_points result ≡ box_corners inside }
{
    FewPoints::Four(
        point(inside.l, inside.t),
        point(inside.r, inside.t),
        point(inside.r, inside.b),
        point(inside.l, inside.b),
    )
}

/// The point with these two coordinates.
fn point(x: i32, y: i32) -> Point
    ensures x { result.x ≡ x }
    ensures y { result.y ≡ y }
{
    Point { x, y }
}

/// The lists of a piece whose points are placed one by one.
fn lists_to_place(points: PiecePoints<'_>) -> Polys<'_>
    ensures { lists_of result ≡ page_part points.entry }
{
    match points {
        PiecePoints::Point(_) | PiecePoints::Corners(_) => Polys::empty(),
        PiecePoints::List(points) => Polys::one(points),
        PiecePoints::Lists(parted) => Polys::Parted(parted),
    }
}

impl<'a> PieceMoves<'a> {
    ghost use Rattle.painting.specs.MovesToCome.{piece_moves_left};

    /// The moves through a piece.
    fn new(place: Place, piece: Piece<'a>) -> PieceMoves<'a>
        requires { LandsOn (surface_of place) piece }
        ensures { piece_moves_left result ≡ moves_of_piece (surface_of place) piece.entry }
    {
        placing_law();
        let by = Projection {
            map: piece.map,
            place,
        };
        let first = place_part(by, piece.points);
        PieceMoves {
            by,
            verb: piece.verb,
            list: ListMoves::new(piece.verb, ListPoints::Placed(first)),
            lists: lists_to_place(piece.points),
            end: Some(piece.end),
        }
    }

    /// The next move, or `None` after the last one.
    fn next_move(&mut self) -> Option<Move>
        ensures next { GivesFirst (piece_moves_left self.old) result (piece_moves_left self.new) }
        ensures near { IfSome result IsNearMove }
    {
        loop {
            if let Some(step) = self.list.next_move() {
                return Some(step);
            }
            // A piece may have millions of lists without points, and every band goes through them.
            let Some((points, rest)) = self.lists.after_empty().split_first() else {
                let end = self.end?;
                self.end = None;
                return Some(Move::End(end));
            };
            let points = PagePoints {
                by: self.by,
                points,
            };
            self.list = ListMoves::new(self.verb, ListPoints::Page(points));
            self.lists = rest;
        }
    }
}

impl<'p, 'a> PathMoves<'p, 'a> {
    ghost use Rattle.painting.specs.MovesToCome.{moves_of_current, path_moves_left};

    /// The moves through some pieces.
    pub(crate) fn new(place: Place, pieces: &'p [Piece<'a>]) -> PathMoves<'p, 'a>
        requires { AllLandOn (surface_of place) pieces.now }
        ensures { path_moves_left result ≡ moves_of_pieces (surface_of place) pieces.now }
    {
        PathMoves {
            place,
            current: None,
            pieces,
        }
    }

    /// The next move of the current piece. `None` after its last move, or if there is no piece.
    fn next_of(current: &mut Option<PieceMoves<'a>>) -> Option<Move>
        ensures next { GivesFirst (moves_of_current current.old) result (moves_of_current current.new) }
        ensures near { IfSome result IsNearMove }
    {
        match current {
            None => None,
            Some(moves) => moves.next_move(),
        }
    }

    /// The next move, or `None` after the last one.
    pub(crate) fn next_move(&mut self) -> Option<Move>
        ensures next { GivesFirst (path_moves_left self.old) result (path_moves_left self.new) }
        ensures near { IfSome result IsNearMove }
    {
        loop {
            if let Some(step) = PathMoves::next_of(&mut self.current) {
                return Some(step);
            }
            let [piece, rest @ ..] = self.pieces else {
                return None;
            };
            self.current = Some(PieceMoves::new(self.place, *piece));
            self.pieces = rest;
        }
    }
}
