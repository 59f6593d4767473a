//! The positions of a piece's points on the plane.

ghost use Rattle.std.specs.Prelude.{◌≡◌, [], ◌∷◌, IfErr, IfOk};
ghost use Rattle.std.specs.Result.{result_err};
ghost use Rattle.mapping.specs.PageMap.{map_numbers};
ghost use Rattle.mapping.specs.PlaceOf.{surface_of};
ghost use Rattle.dc_stack.specs.Extents.{IsExtent, IsOffPlane};
ghost use Rattle.dc_stack.specs.Figures.{box_corners};
ghost use Rattle.dc_stack.specs.Mapped.{mapped_box, mapped_corners};
ghost use Rattle.dc_stack.specs.OperationFault.{off_plane_fault};
ghost use Rattle.dc_stack.specs.Placing.{mapped_piece, plane_list, whole_piece};

use crate::piece::PiecePoints;
use crate::placing::{plane_point, plane_rect};
use crate::plane_box::{fits, plane_box};
use crate::projection::Projection;
use draw_ops::RecordFault;
use mapping::{PageMap, Point, Rect, box_law};
use point_views::Polys;

/// The bounding box of a piece's points on the plane, or `OffPlane` if one of them doesn't land.
pub(crate) fn land_piece(
    by: &Projection,
    points: PiecePoints<'_>,
) -> Result<Option<Rect>, RecordFault>
    ensures fault { result_err result ≡ off_plane_fault (mapped_piece by.now.map points.entry) (surface_of by.now.place) }
    ensures page { IfOk result (λ extent. IsExtent extent (mapped_piece by.now.map points.entry)) }
    ensures plane { IfOk result (λ extent. IsExtent extent (whole_piece by.now.map points.entry)) }
{
    match piece_box(&by.map, points) {
        Ok(extent) => {
            if fits(extent, by.place) {
                Ok(extent)
            } else {
                Err(RecordFault::OffPlane)
            }
        }
        Err(fault) => Err(fault),
    }
}

/// The same without a surface: `OffPlane` if a point leaves the plane.
fn piece_box(map: &PageMap, points: PiecePoints<'_>) -> Result<Option<Rect>, RecordFault>
    ensures off { IfErr result (IsOffPlane (mapped_piece map.now points.entry)) }
    ensures page { IfOk result (λ extent. IsExtent extent (mapped_piece map.now points.entry)) }
    ensures plane { IfOk result (λ extent. IsExtent extent (whole_piece map.now points.entry)) }
{
    match points {
        PiecePoints::Point(point) => point_box(map, point),
        PiecePoints::List(points) => plane_box(map, points),
        PiecePoints::Lists(parted) => {
            let points = Polys::Parted(parted).points();
            plane_box(map, points)
        }
        PiecePoints::Corners(corners) => corners_box(map, corners),
    }
}

/// The bounding box of a point.
fn point_box(map: &PageMap, point: Point) -> Result<Option<Rect>, RecordFault>
    ensures off { IfErr result (IsOffPlane (plane_list map.now (point ∷ []))) }
    ensures extent { IfOk result (λ extent. IsExtent extent (plane_list map.now (point ∷ []))) }
{
    box_law();
    match plane_point(map, point) {
        Ok(plane) => Ok(Some(Rect::around(plane))),
        Err(fault) => Err(fault),
    }
}

/// The box between two corners, which is the bounding box of all four.
fn corners_box(map: &PageMap, corners: Rect) -> Result<Option<Rect>, RecordFault>
    ensures off { IfErr result (IsOffPlane (mapped_corners (map_numbers map.now) corners)) }
    ensures page { IfOk result (λ extent. IsExtent extent (mapped_corners (map_numbers map.now) corners)) }
    ensures plane { IfOk result (λ extent. IsExtent extent (box_corners (mapped_box (map_numbers map.now) corners))) }
{
    match plane_rect(map, corners) {
        Ok(plane) => Ok(Some(plane)),
        Err(fault) => Err(fault),
    }
}
