//! Bounding boxes of points on the plane, and whether the points land on a surface: two corners decide for all.

ghost use Rattle.std.specs.Prelude.{◌≡◌, List, IfErr, IfOk};
ghost use Rattle.mapping.specs.PlaceOf.{surface_of};
ghost use Rattle.mapping.specs.declared.geometry.Point.{Point as ThePoint};
ghost use Rattle.point_views.specs.Points.{points_of};
ghost use Rattle.dc_stack.specs.Extents.{IsExtent, IsOffPlane, JoinsExtents, box_of, do_corners_fit};
ghost use Rattle.dc_stack.specs.OperationFault.{all_land_within};
ghost use Rattle.dc_stack.specs.Placing.{plane_list};

use crate::placing::plane_rect;
use draw_ops::RecordFault;
use mapping::{PageMap, Place, Rect, box_law};
use point_views::Points;

/// The bounding box of some page points on the plane, if there is a point, or `OffPlane` if one of them leaves the
/// plane. A page map keeps what lies between two coordinates between their images, so two corners of the page's
/// bounding box decide for all points.
pub(crate) fn plane_box(map: &PageMap, points: Points<'_>) -> Result<Option<Rect>, RecordFault>
    ensures off { IfErr result (IsOffPlane (plane_list map.now (points_of points.entry))) }
    ensures extent { IfOk result (λ extent. IsExtent extent (plane_list map.now (points_of points.entry))) }
{
    box_law();
    let Some(page) = points.bounds() else {
        return Ok(None);
    };
    match plane_rect(map, page) {
        Ok(plane) => Ok(Some(plane)),
        Err(fault) => Err(fault),
    }
}

/// The bounding box of two lists of points, from their boxes.
pub(crate) fn joined(first: Option<Rect>, second: Option<Rect>) -> Option<Rect>
    ensures { JoinsExtents first second result }
{
    box_law();
    match (first, second) {
        (None, _) => second,
        (_, None) => first,
        (Some(first), Some(second)) => Some(first.joined(second)),
    }
}

/// The box of a drawing's points.
pub(crate) fn least(extent: Option<Rect>) -> Rect
    ensures { result ≡ box_of extent }
{
    match extent {
        Some(bounds) => bounds,
        None => Rect::NONE,
    }
}

/// Whether all points with this bounding box on the plane land within the limits on a surface. `None` means that there
/// is no point. A place keeps what lies between two coordinates between their images, so the corners decide.
pub fn fits(extent: Option<Rect>, place: Place) -> bool
    ensures { (points : List ThePoint) → IsExtent extent points → result ≡ all_land_within points (surface_of place) }
{
    box_law();
    match extent {
        Some(bounds) => box_fits(bounds, place),
        None => true,
    }
}

/// Whether the top left and bottom right corners of a box of the plane land within the limits.
fn box_fits(bounds: Rect, place: Place) -> bool
    ensures { result ≡ do_corners_fit bounds (surface_of place) }
{
    let near = bounds.left_top();
    let far = bounds.right_bottom();
    place.fits(near) && place.fits(far)
}
