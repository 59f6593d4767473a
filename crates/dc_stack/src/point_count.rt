//! The number of points in a path.

ghost use Rattle.std.specs.Prelude.{◌≡◌, ◌<◌, ◌≤◌, length, IfSome, IfNone};
ghost use Rattle.mapping.specs.PageMap.{map_numbers};
ghost use Rattle.dc_stack.specs.Drawing.{edge_limit, points_of_lists};
ghost use Rattle.dc_stack.specs.GatheredPath.{gathered_points};
ghost use Rattle.dc_stack.specs.Pieces.{plane_lists};

use crate::path::GatheredPath;
use crate::piece::{Piece, PiecePoints};
use crate::placing::MAX_EDGES;
use point_views::Polys;

impl<'a> GatheredPath<'a> {
    /// The number of points in the figures. `None` if there are more than one drawing may have.
    pub(crate) fn count_points(&self) -> Option<u32>
        ensures count { IfSome result (λ count. count ≡ length (gathered_points self.now.pieces.items)) }
        ensures few { IfSome result (λ count. length (gathered_points self.now.pieces.items) ≤ edge_limit) }
        ensures many { IfNone result (edge_limit < length (gathered_points self.now.pieces.items)) }
    {
        let mut count: usize = 0;
        for index in 0..self.pieces.len() {
            let more = count_of(&self.pieces[index]);
            if more > MAX_EDGES - count {
                return None;
            }
            count += more;
        }
        Some(count as u32)
    }
}

/// The number of points that a piece adds.
fn count_of(piece: &Piece<'_>) -> usize
    ensures { result ≡ length (points_of_lists (plane_lists (map_numbers piece.now.map) piece.now.points)) }
{
    match piece.points {
        PiecePoints::Point(_) => 1,
        PiecePoints::List(points) => points.len(),
        PiecePoints::Lists(parted) => Polys::Parted(parted).points().len(),
        PiecePoints::Corners(_) => 4,
    }
}
