//! Places: where plane points land on a surface.

ghost use Rattle.std.specs.Prelude.{◌≡◌, ◌≤◌, ◌↔◌, ◌^◌, ◌*ℤ◌, pos, unsigned_abs, IsTrue, SomeIff, is_some};
ghost use Rattle.mapping.specs.Limits.{IsFrameSide, IsSurfaceSide, is_within, place_limit, surface_side_limit};
ghost use Rattle.mapping.specs.Surface.{placed, FitsPlace, IsPlaceCoordinate, fits_place, placed_point};
ghost use Rattle.mapping.specs.BoxLaws.{BoxLaws};
ghost use Rattle.mapping.specs.PlacingLaws.{PlacingLaws};

use crate::divisor::Divisor;
use crate::geometry::{Frame, Point};
use crate::limits::{PLACE_LIMIT, limits_law};

/// A surface that shows a frame.
///
/// # Guarantees
///
/// - The width and the height of the surface are from 1 to 8,192 pixels.
#[derive(Clone, Copy, Debug, PartialEq, Eq)]
pub struct Place {
    pub frame: Frame,
    /// The width of the surface in pixels.
    pub width: u32,
    pub height: u32,
    pub(crate) by_width: Divisor,
    pub(crate) by_height: Divisor,
    pub ghost wide: { IsSurfaceSide width },
    pub ghost high: { IsSurfaceSide height },
    ghost divides_width: { by_width.number ≡ frame.width },
    ghost divides_height: { by_height.number ≡ frame.height },
}

impl Place {
    ghost use Rattle.mapping.specs.PlaceOf.{surface_of, surface_with};

    /// The frame on a surface of `width` by `height` pixels.
    pub fn new(frame: &Frame, width: u32, height: u32) -> Place
        requires wide { IsSurfaceSide width }
        requires high { IsSurfaceSide height }
        ensures frame { result.frame ≡ frame.now }
        ensures surface { surface_of result ≡ surface_with frame.now width height }
    {
        Place {
            frame: *frame,
            width,
            height,
            by_width: Divisor::new(frame.width),
            by_height: Divisor::new(frame.height),
        }
    }

    /// Whether both placed coordinates of a plane point are at most 2^28 from 0.
    pub fn fits(&self, point: Point) -> bool
        ensures limits { IsTrue result ↔ FitsPlace (placed_point point (surface_of self.now)) }
        ensures test { result ≡ fits_place (placed_point point (surface_of self.now)) }
    {
        limits_law();
        axis_fits(point.x, self.width, self.frame.width)
            && axis_fits(point.y, self.height, self.frame.height)
    }

    /// Where a plane point lands. `None` if it doesn't fit.
    pub fn place(self, point: Point) -> Option<Point>
        ensures point { let there = placed_point point (surface_of self) in SomeIff result (FitsPlace there) there }
        ensures test { is_some result ≡ fits_place (placed_point point (surface_of self)) }
    {
        let Some(x) = axis_place(point.x, self.width, self.by_width) else {
            return None;
        };
        let Some(y) = axis_place(point.y, self.height, self.by_height) else {
            return None;
        };
        Some(Point { x, y })
    }

    /// Where a plane point that fits lands.
    pub fn at(self, point: Point) -> Point
        requires { FitsPlace (placed_point point (surface_of self)) }
        ensures { result ≡ placed_point point (surface_of self) }
    {
        Point {
            x: axis_at(point.x, self.width, self.by_width),
            y: axis_at(point.y, self.height, self.by_height),
        }
    }
}

/// A plane coordinate, scaled from the frame's width or height to the surface's.
fn scaled(coordinate: i32, surface_side: u32, frame_side: Divisor) -> i64
    requires surface { surface_side ≤ surface_side_limit }
    ensures { result ≡ placed coordinate surface_side frame_side.number }
{
    frame_side.floor(product(coordinate, surface_side))
}

/// A plane coordinate times the surface's width or height.
fn product(coordinate: i32, surface_side: u32) -> i64
    requires surface { surface_side ≤ surface_side_limit }
    ensures { result ≡ coordinate *ℤ pos surface_side }
{
    i64::from(coordinate) * i64::from(surface_side)
}

/// The placed coordinate. `None` if it exceeds its limit.
#[tactic(auto, unfolding(crate::specs::Limits::place_limit))]
fn axis_place(coordinate: i32, surface_side: u32, frame_side: Divisor) -> Option<i32>
    requires surface { surface_side ≤ surface_side_limit }
    ensures value { let p = placed coordinate surface_side frame_side.number in SomeIff result (IsPlaceCoordinate p) p }
    ensures test { is_some result ≡ is_within place_limit (placed coordinate surface_side frame_side.number) }
{
    let placed = scaled(coordinate, surface_side, frame_side);
    if -PLACE_LIMIT <= placed && placed <= PLACE_LIMIT {
        Some(placed as i32)
    } else {
        None
    }
}

/// Whether the placed coordinate is within its limit, without a division. The coordinate times the surface's width or
/// height must be at least the lower limit times the frame's, and less than the upper limit plus 1 times the frame's.
fn axis_fits(coordinate: i32, surface_side: u32, frame_side: u32) -> bool
    requires surface { surface_side ≤ surface_side_limit }
    requires frame { IsFrameSide frame_side }
    ensures { result ≡ is_within place_limit (placed coordinate surface_side frame_side) }
{
    let part = product(coordinate, surface_side);
    limit_on(-PLACE_LIMIT, frame_side) <= part && part < limit_on(PLACE_LIMIT + 1, frame_side)
}

/// A limit of placed coordinates times the frame's width or height.
fn limit_on(limit: i64, frame_side: u32) -> i64
    requires near { unsigned_abs limit ≤ 2 ^ 29 }
    requires frame { IsFrameSide frame_side }
    ensures { result ≡ limit *ℤ pos frame_side }
{
    limit * i64::from(frame_side)
}

/// The placed coordinate, which must be within its limit.
#[tactic(auto, unfolding(crate::specs::Limits::place_limit))]
fn axis_at(coordinate: i32, surface_side: u32, frame_side: Divisor) -> i32
    requires surface { surface_side ≤ surface_side_limit }
    requires fits { IsPlaceCoordinate (placed coordinate surface_side frame_side.number) }
    ensures { result ≡ placed coordinate surface_side frame_side.number }
{
    scaled(coordinate, surface_side, frame_side) as i32
}

/// The law of places: placing preserves the order of coordinates, and a point that lands within the limits on a surface
/// does so on each surface that is no larger and shows a frame of the same size.
pub fn placing_law()
    ensures { PlacingLaws }
{}

/// The law of boxes: page maps and places map what lies between two coordinates to what lies between their images. So
/// they map the bounding box of points to the bounding box of their images.
pub fn box_law()
    ensures { BoxLaws }
{}
