//! The axes of page maps: where page coordinates land on the plane on one axis.

ghost use Rattle.std.specs.Prelude.{◌≡◌, ◌≢◌, ◌+◌, ◌^◌, ◌<◌, ◌≤◌, pos, ◌+ℤ◌, ◌-ℤ◌, ◌*ℤ◌, unsigned_abs, SomeIff, is_some};
ghost use Rattle.mapping.specs.Floor.{floor_div};
ghost use Rattle.mapping.specs.Limits.{is_within, plane_limit};
ghost use Rattle.mapping.specs.Plane.{IsPlaneCoordinate};

use crate::floor::{floor_quotient, wide_floor_quotient};
use crate::limits::PLANE_LIMIT;

/// One axis of a page map ([MS-WMF] 2.3.5, [MS-EMF] 2.3.11: window and viewport, each with an origin and an extent),
/// with the frame's corner on that axis.
///
/// # Guarantees
///
/// - The window's extent isn't 0, so coordinates can be scaled by it.
#[derive(Clone, Copy, Debug, PartialEq, Eq)]
pub struct PageAxis {
    pub window_origin: i32,
    pub window_extent: i32,
    pub viewport_origin: i32,
    pub viewport_extent: i32,
    /// The frame's corner, which is the origin of the plane.
    pub corner: i32,
    pub ghost window_has_extent: { window_extent ≢ pos 0 },
}

impl PageAxis {
    ghost use Rattle.mapping.specs.OneToOne.{has_same_extents};
    ghost use Rattle.mapping.specs.PageMap.{axis_coordinate, axis_numbers, placeable_axis, unscaled_axis};

    /// An initial axis of a placeable file: the box's width or height is the window, and the frame's is the viewport.
    pub(crate) fn placeable(origin: i32, extent: i32) -> PageAxis
        requires has_extent { extent ≢ pos 0 }
        requires can_be_negated { unsigned_abs extent < 2 ^ 31 }
        ensures { axis_numbers 1 result ≡ placeable_axis origin extent }
    {
        PageAxis {
            window_origin: origin,
            window_extent: extent,
            viewport_origin: 0,
            viewport_extent: extent.abs(),
            corner: 0,
        }
    }

    /// An axis on which page coordinates are device coordinates, relative to the frame's corner.
    pub(crate) fn unscaled(corner: i32) -> PageAxis
        ensures { axis_numbers 1 result ≡ unscaled_axis corner }
    {
        PageAxis {
            window_origin: 0,
            window_extent: 1,
            viewport_origin: 0,
            viewport_extent: 1,
            corner,
        }
    }

    /// The plane coordinate of a page coordinate. `None` if it would leave the plane.
    pub(crate) fn plane(&self, coordinate: i64) -> Option<i32>
        ensures value { let v = axis_coordinate self.now coordinate in SomeIff result (IsPlaneCoordinate v) v }
        ensures test { is_some result ≡ is_within plane_limit (axis_coordinate self.now coordinate) }
    {
        match i32::try_from(coordinate) {
            Ok(coordinate) => on_plane(self.scaled(coordinate), self.shift()),
            Err(_) => self.wide_plane(coordinate),
        }
    }

    /// The same on an axis whose extents are the same.
    pub(crate) fn moved_plane(&self, coordinate: i32) -> Option<i32>
        requires { self.now.viewport_extent ≡ self.now.window_extent }
        ensures value { let v = axis_coordinate self.now coordinate in SomeIff result (IsPlaneCoordinate v) v }
        ensures test { is_some result ≡ is_within plane_limit (axis_coordinate self.now coordinate) }
    {
        on_plane(distance(coordinate, self.window_origin), self.shift())
    }

    /// The same as `plane` for a coordinate that may have more than 32 bits, such as the far corner of a blit.
    fn wide_plane(&self, coordinate: i64) -> Option<i32>
        ensures value { let v = axis_coordinate self.now coordinate in SomeIff result (IsPlaneCoordinate v) v }
        ensures test { is_some result ≡ is_within plane_limit (axis_coordinate self.now coordinate) }
    {
        wide_on_plane(self.wide_scaled(coordinate), self.shift())
    }

    /// The plane coordinate of a page coordinate that doesn't leave the plane.
    pub(crate) fn at(&self, coordinate: i32) -> i32
        requires { IsPlaneCoordinate (axis_coordinate self.now coordinate) }
        ensures { result ≡ axis_coordinate self.now coordinate }
    {
        plane_number(self.scaled(coordinate), self.shift())
    }

    /// The same on an axis whose extents are the same.
    pub(crate) fn moved(&self, coordinate: i32) -> i32
        requires extents { self.now.viewport_extent ≡ self.now.window_extent }
        requires there { IsPlaneCoordinate (axis_coordinate self.now coordinate) }
        ensures { result ≡ axis_coordinate self.now coordinate }
    {
        plane_number(distance(coordinate, self.window_origin), self.shift())
    }

    /// Whether its extents are the same.
    pub(crate) fn has_same_extents(&self) -> bool
        ensures { result ≡ has_same_extents self.now }
    {
        self.viewport_extent == self.window_extent
    }

    /// The distance of a coordinate from the window's origin, scaled from the window's extent to the viewport's and
    /// rounded down, for a coordinate of 32 bits. If both extents are the same, as initially in every file that isn't
    /// mirrored, nothing is scaled or divided.
    pub(crate) fn scaled(&self, coordinate: i32) -> i64
        ensures { result ≡ floor_div ((coordinate -ℤ self.now.window_origin) *ℤ self.now.viewport_extent) self.now.window_extent }
    {
        let distance = distance(coordinate, self.window_origin);
        if self.viewport_extent == self.window_extent {
            return distance;
        }
        let product = product(distance, i64::from(self.viewport_extent));
        floor_quotient(product, i64::from(self.window_extent))
    }

    /// The same for a coordinate that may have more than 32 bits, computed in 128 bits.
    fn wide_scaled(&self, coordinate: i64) -> i128
        ensures { result ≡ floor_div ((coordinate -ℤ self.now.window_origin) *ℤ self.now.viewport_extent) self.now.window_extent }
    {
        let distance = wide_distance(coordinate, self.window_origin);
        let product = wide_product(distance, i128::from(self.viewport_extent));
        wide_floor_quotient(product, i128::from(self.window_extent))
    }

    /// The shift after scaling: the viewport's origin, relative to the frame's corner.
    fn shift(&self) -> i64
        ensures value { result ≡ self.now.viewport_origin -ℤ self.now.corner }
        ensures bound { unsigned_abs result < 2 ^ 32 }
    {
        i64::from(self.viewport_origin) - i64::from(self.corner)
    }
}

/// The distance of a page coordinate from the window's origin.
pub(crate) fn distance(coordinate: i32, origin: i32) -> i64
    ensures value { result ≡ coordinate -ℤ origin }
    ensures bound { unsigned_abs result < 2 ^ 32 }
{
    i64::from(coordinate) - i64::from(origin)
}

/// A distance on the page times a viewport's extent.
pub(crate) fn product(distance: i64, extent: i64) -> i64
    requires distance_fits { unsigned_abs distance < 2 ^ 32 }
    requires extent_fits { unsigned_abs extent ≤ 2 ^ 31 }
    ensures value { result ≡ distance *ℤ extent }
    ensures bound { unsigned_abs result + 2 ^ 31 ≤ 2 ^ 63 }
{
    distance * extent
}

/// The distance of a page coordinate of more than 32 bits from the window's origin.
pub(crate) fn wide_distance(coordinate: i64, origin: i32) -> i128
    ensures value { result ≡ coordinate -ℤ origin }
    ensures bound { unsigned_abs result ≤ 2 ^ 65 }
{
    i128::from(coordinate) - i128::from(origin)
}

/// Such a distance times a viewport's extent.
pub(crate) fn wide_product(distance: i128, extent: i128) -> i128
    requires distance_fits { unsigned_abs distance ≤ 2 ^ 77 }
    requires extent_fits { unsigned_abs extent ≤ 2 ^ 31 }
    ensures value { result ≡ distance *ℤ extent }
    ensures bound { unsigned_abs result ≤ 2 ^ 108 }
{
    distance * extent
}

/// The plane coordinate from a scaled distance and a shift.
#[tactic(auto, unfolding(crate::specs::Limits::plane_limit))]
pub(crate) fn plane_number(scaled: i64, shift: i64) -> i32
    requires there { IsPlaneCoordinate (scaled +ℤ shift) }
    ensures { result ≡ scaled +ℤ shift }
{
    (scaled + shift) as i32
}

/// The plane coordinate from a scaled distance and a shift. `None` if it lies outside the plane.
#[tactic(auto, unfolding(crate::specs::Limits::plane_limit))]
pub(crate) fn on_plane(scaled: i64, shift: i64) -> Option<i32>
    ensures value { SomeIff result (IsPlaneCoordinate (scaled +ℤ shift)) (scaled +ℤ shift) }
    ensures test { is_some result ≡ is_within plane_limit (scaled +ℤ shift) }
{
    let there = scaled.checked_add(shift)?;
    if -PLANE_LIMIT <= there && there <= PLANE_LIMIT {
        Some(there as i32)
    } else {
        None
    }
}

/// The same for a distance that may have more than 64 bits, and then lies outside the plane.
#[tactic(auto, unfolding(crate::specs::Limits::plane_limit))]
pub(crate) fn wide_on_plane(scaled: i128, shift: i64) -> Option<i32>
    requires { unsigned_abs shift < 2 ^ 44 }
    ensures value { SomeIff result (IsPlaneCoordinate (scaled +ℤ shift)) (scaled +ℤ shift) }
    ensures test { is_some result ≡ is_within plane_limit (scaled +ℤ shift) }
{
    on_plane(i64::try_from(scaled).ok()?, shift)
}
