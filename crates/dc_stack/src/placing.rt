//! Page points and boxes on the plane. Only the position of a clip's box depends on a surface.

ghost use Rattle.std.specs.Prelude.{◌≡◌, ◌≤◌, true, suc, [], ◌∷◌, length, Some, IfErr, IfOk, SomeIff, is_some};
ghost use Rattle.std.specs.Result.{result_err};
ghost use Rattle.mapping.specs.Boxes.{point_box, box_between};
ghost use Rattle.mapping.specs.PageMap.{map_numbers};
ghost use Rattle.mapping.specs.Plane.{IsOnPlane, is_on_plane, plane_point};
ghost use Rattle.mapping.specs.PlaceOf.{surface_of};
ghost use Rattle.point_views.specs.Points.{points_of};
ghost use Rattle.point_views.specs.Polys.{lists_of};
ghost use Rattle.draw_ops.specs.Blits.{blit_value_of};
ghost use Rattle.dc_stack.specs.Clip.{placed_box};
ghost use Rattle.dc_stack.specs.Drawing.{edge_limit};
ghost use Rattle.dc_stack.specs.Extents.{IsExtent, IsOffPlane, IsPlaneBox, IsRejected};
ghost use Rattle.dc_stack.specs.Mapped.{blit_corners, opposite_corner, mapped_box, mapped_corners, mapped_opposite, mapped_point};
ghost use Rattle.dc_stack.specs.OperationFault.{off_plane_fault};
ghost use Rattle.dc_stack.specs.Placing.{joined_plane_list, plane_list};

use crate::clip::ClipBox;
use crate::plane_box::{fits, joined, plane_box};
use draw_ops::{Blit, RecordFault};
use mapping::{PageMap, Place, Point, Rect, box_law, limits_law};
use point_views::{Points, Polys};

/// The most points of one drawing.
pub(crate) const MAX_EDGES: usize = 1_048_576;

/// A page point whose coordinates may exceed 32 bits.
#[derive(Clone, Copy, Debug)]
struct WidePoint {
    x: i64,
    y: i64,
}

/// A page point on the plane, or `OffPlane` if it leaves the plane.
pub(crate) fn plane_point(map: &PageMap, point: Point) -> Result<Point, RecordFault>
    ensures off { IfErr result (IsOffPlane (plane_list map.now (point ∷ []))) }
    ensures plane { IfOk result (λ plane. plane ≡ mapped_point (map_numbers map.now) point) }
    ensures on { IfOk result (λ plane. is_on_plane plane ≡ true) }
{
    let x = i64::from(point.x);
    let y = i64::from(point.y);
    wide_plane_point(map, WidePoint { x, y })
}

/// The same for a point whose coordinates may exceed 32 bits.
fn wide_plane_point(map: &PageMap, point: WidePoint) -> Result<Point, RecordFault>
    ensures off { IfErr result (IsOffPlane (plane_point (map_numbers map.now) point.x point.y ∷ [])) }
    ensures plane { IfOk result (λ plane. plane ≡ plane_point (map_numbers map.now) point.x point.y) }
    ensures on { IfOk result (λ plane. is_on_plane plane ≡ true) }
{
    match mapped(map, point) {
        Some(plane) => Ok(plane),
        None => Err(RecordFault::OffPlane),
    }
}

/// The plane point of a page point. `None` if it would leave the plane.
fn mapped(map: &PageMap, point: WidePoint) -> Option<Point>
    ensures point { let p = plane_point (map_numbers map.now) point.x point.y in SomeIff result (IsOnPlane p) p }
    ensures test { is_some result ≡ is_on_plane (plane_point (map_numbers map.now) point.x point.y) }
{
    map.plane(point.x, point.y)
}

/// Two page points on the plane, or `OffPlane` if one of them leaves the plane.
pub(crate) fn plane_pair(
    map: &PageMap,
    first: Point,
    second: Point,
) -> Result<(Point, Point), RecordFault>
    ensures off { IfErr result (IsOffPlane (plane_list map.now (first ∷ second ∷ []))) }
    ensures first { IfOk result (λ r. r.0 ≡ mapped_point (map_numbers map.now) first) }
    ensures second { IfOk result (λ r. r.1 ≡ mapped_point (map_numbers map.now) second) }
    ensures extent { IfOk result (λ r. IsPlaneBox (box_between r.0 r.1) (r.0 ∷ r.1 ∷ [])) }
{
    box_law();
    let first = match plane_point(map, first) {
        Ok(first) => first,
        Err(fault) => return Err(fault),
    };
    let second = match plane_point(map, second) {
        Ok(second) => second,
        Err(fault) => return Err(fault),
    };
    Ok((first, second))
}

/// The corners of a blit's box on the plane, first the one from which it extends, or `OffPlane` if one of them leaves
/// the plane.
pub(crate) fn plane_blit(map: &PageMap, asked: &Blit<'_>) -> Result<(Point, Point), RecordFault>
    ensures off { IfErr result (IsOffPlane (blit_corners (map_numbers map.now) (blit_value_of asked.now))) }
    ensures first { IfOk result (λ r. r.0 ≡ mapped_point (map_numbers map.now) asked.now.corner) }
    ensures second { IfOk result (λ r. r.1 ≡ mapped_opposite (map_numbers map.now) (blit_value_of asked.now)) }
    ensures extent { IfOk result (λ r. IsPlaneBox (box_between r.0 r.1) (r.0 ∷ r.1 ∷ [])) }
{
    box_law();
    let first = match plane_point(map, asked.corner) {
        Ok(first) => first,
        Err(fault) => return Err(fault),
    };
    let second = match wide_plane_point(map, far_corner(asked)) {
        Ok(second) => second,
        Err(fault) => return Err(fault),
    };
    Ok((first, second))
}

/// The corner of a blit's box opposite to the one from which it extends.
fn far_corner(asked: &Blit<'_>) -> WidePoint
    ensures x { result.x ≡ (opposite_corner (blit_value_of asked.now)).x }
    ensures y { result.y ≡ (opposite_corner (blit_value_of asked.now)).y }
{
    WidePoint {
        x: i64::from(asked.corner.x) + i64::from(asked.extent.x),
        y: i64::from(asked.corner.y) + i64::from(asked.extent.y),
    }
}

/// What a drawing of several points needs: their number, and their bounding box on the plane, if there is a point.
#[derive(Clone, Copy, Debug)]
pub(crate) struct PlanePoints {
    pub(crate) count: u32,
    pub(crate) extent: Option<Rect>,
}

/// The number of points in some lists, and their bounding box. Fails with `TooManyEdges` if there are more than one
/// drawing may have, or else with `OffPlane` if one of them leaves the plane.
pub(crate) fn plane_lists(map: &PageMap, lists: Polys<'_>) -> Result<PlanePoints, RecordFault>
    ensures rejected { IfErr result (IsRejected (joined_plane_list map.now (lists_of lists.entry))) }
    ensures count { IfOk result (λ p. p.count ≡ length (joined_plane_list map.now (lists_of lists.entry))) }
    ensures few { IfOk result (λ p. p.count ≤ edge_limit) }
    ensures extent { IfOk result (λ p. IsExtent p.extent (joined_plane_list map.now (lists_of lists.entry))) }
{
    let points = lists.points();
    if points.len() > MAX_EDGES {
        return Err(RecordFault::TooManyEdges);
    }
    match plane_box(map, points) {
        Ok(extent) => Ok(PlanePoints {
            count: points.len() as u32,
            extent,
        }),
        Err(fault) => Err(fault),
    }
}

/// For lines from a page point through others: the point on the plane, the number of all points, and their bounding
/// box. The faults are those of lists.
pub(crate) fn plane_lines(
    map: &PageMap,
    start: Point,
    points: Points<'_>,
) -> Result<(Point, PlanePoints), RecordFault>
    ensures rejected { IfErr result (IsRejected (plane_list map.now (start ∷ points_of points.entry))) }
    ensures from { IfOk result (λ r. r.0 ≡ mapped_point (map_numbers map.now) start) }
    ensures count { IfOk result (λ r. r.1.count ≡ suc (length (points_of points.entry))) }
    ensures few { IfOk result (λ r. r.1.count ≤ edge_limit) }
    ensures extent { IfOk result (λ r. IsExtent r.1.extent (plane_list map.now (start ∷ points_of points.entry))) }
{
    if points.len() >= MAX_EDGES {
        return Err(RecordFault::TooManyEdges);
    }
    let from = match plane_point(map, start) {
        Ok(from) => from,
        Err(fault) => return Err(fault),
    };
    box_law();
    let first = Some(Rect::around(from));
    match plane_box(map, points) {
        Ok(extent) => Ok((
            from,
            PlanePoints {
                count: points.len() as u32 + 1,
                extent: joined(first, extent),
            },
        )),
        Err(fault) => Err(fault),
    }
}

/// A box of the page on the plane, with its corners in order, or `OffPlane` if one of them leaves the plane.
pub(crate) fn plane_rect(map: &PageMap, corners: Rect) -> Result<Rect, RecordFault>
    ensures off { IfErr result (IsOffPlane (mapped_corners (map_numbers map.now) corners)) }
    ensures plane { IfOk result (λ plane. plane ≡ mapped_box (map_numbers map.now) corners) }
    ensures extent { IfOk result (λ plane. IsPlaneBox plane (mapped_corners (map_numbers map.now) corners)) }
{
    match plane_pair(map, corners.left_top(), corners.right_bottom()) {
        Ok((first, second)) => Ok(Rect::between(first, second)),
        Err(fault) => Err(fault),
    }
}

/// The same for a box of the clip, with its position on the surface. `OffPlane` also if a corner doesn't land there.
pub(crate) fn land_clip_box(
    map: &PageMap,
    place: Place,
    corners: Rect,
) -> Result<ClipBox, RecordFault>
    ensures fault { result_err result ≡ off_plane_fault (mapped_corners (map_numbers map.now) corners) (surface_of place) }
    ensures plane { IfOk result (λ b. b.plane ≡ mapped_box (map_numbers map.now) corners) }
    ensures extent { IfOk result (λ b. IsPlaneBox b.plane (mapped_corners (map_numbers map.now) corners)) }
    ensures placed { IfOk result (λ b. b.placed ≡ placed_box (surface_of place) b.plane) }
{
    box_law();
    let plane = match plane_rect(map, corners) {
        Ok(plane) => plane,
        Err(fault) => return Err(fault),
    };
    if !fits(Some(plane), place) {
        return Err(RecordFault::OffPlane);
    }
    limits_law();
    let near = place.at(plane.left_top());
    let far = place.at(plane.right_bottom());
    let placed = Rect {
        l: near.x,
        t: near.y,
        r: far.x,
        b: far.y,
    };
    Ok(ClipBox { plane, placed })
}
