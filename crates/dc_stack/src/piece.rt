//! Pieces of a path, as records add them.

ghost use Rattle.std.specs.Prelude.{◌≡◌, ◌↔◌, [], IsFalse};
ghost use Rattle.point_views.specs.Polys.{lists_of};

use mapping::{PageMap, Point, Rect};
use point_views::{PartedPoints, Points, Polys};

/// The points of a piece. They are page points, as the file has them.
#[derive(Clone, Copy, Debug, PartialEq, Eq)]
pub enum PiecePoints<'a> {
    /// One point.
    Point(Point),
    /// The points of a list.
    List(Points<'a>),
    /// The points of several lists.
    Lists(PartedPoints<'a>),
    /// The corners of the box between two points.
    Corners(Rect),
}

impl<'a> PiecePoints<'a> {
    ghost use Rattle.mapping.specs.Plane.{MapNumbers};
    ghost use Rattle.dc_stack.specs.Drawing.{points_of_lists};
    ghost use Rattle.dc_stack.specs.Mapped.{mapped_lists};
    ghost use Rattle.dc_stack.specs.Pieces.{page_points, plane_lists};

    /// The points of one list or of several.
    pub(crate) fn of(lists: Polys<'a>) -> PiecePoints<'a>
        ensures plane { (m : MapNumbers) → plane_lists m result ≡ mapped_lists m (lists_of lists.entry) }
        ensures page { page_points result ≡ points_of_lists (lists_of lists.entry) }
    {
        match lists {
            Polys::One(points) => PiecePoints::List(points),
            Polys::Parted(parted) => PiecePoints::Lists(parted),
        }
    }

    /// Whether there is a point.
    pub(crate) fn is_some(self) -> bool
        ensures { IsFalse result ↔ (page_points self.entry ≡ []) }
    {
        match self {
            PiecePoints::Point(_) | PiecePoints::Corners(_) => true,
            PiecePoints::List(points) => !points.is_empty(),
            PiecePoints::Lists(parted) => !Polys::Parted(parted).points().is_empty(),
        }
    }
}

/// How a piece continues the figures before it.
#[derive(Clone, Copy, Debug, PartialEq, Eq)]
pub enum Verb {
    /// The open figure continues through the points. If none is open, one begins at the first point.
    GoesOn,
    /// Each list with a point is a figure, and the last one stays open.
    Polylines,
    /// Each list with a point is a closed figure.
    Polygons,
}

/// How the open figure ends after a piece, if there is one.
#[derive(Clone, Copy, Debug, PartialEq, Eq)]
pub enum FigureEnd {
    /// It stays open, and lines may continue it.
    Open,
    /// It ends without being closed.
    Ended,
    /// It ends, and its last point is joined to its first.
    Closed,
}

/// A piece of a path: what one record adds to it, or the current position where a record begins a figure. Its points
/// are mapped by the page map that was current when it was added.
#[derive(Clone, Copy, Debug, PartialEq, Eq)]
pub struct Piece<'a> {
    pub points: PiecePoints<'a>,
    pub map: PageMap,
    pub verb: Verb,
    pub end: FigureEnd,
}

const _: () = prove!(size_of::<Piece<'static>>() <= 96);
