//! One axis of a page map with its number of parts: where its coordinates land on the plane.

ghost use Rattle.std.specs.Prelude.{◌≡◌, ◌≢◌, ◌+◌, ◌^◌, ◌<◌, ◌≤◌, pos, ◌+ℤ◌, ◌-ℤ◌, ◌*ℤ◌, unsigned_abs, SomeIff, is_some, true};
ghost use Rattle.mapping.specs.Floor.{floor_div};
ghost use Rattle.mapping.specs.Limits.{is_within, plane_limit};
ghost use Rattle.mapping.specs.Plane.{IsPlaneCoordinate};

use crate::floor::{floor_quotient, wide_floor_quotient};
use crate::page_axis::{
    PageAxis, distance, on_plane, plane_number, product, wide_distance, wide_on_plane, wide_product,
};

/// Numbers below this can be multiplied by any number of parts in 64 bits. Scaled distances of this many units or more lie
/// off the plane, whatever the number of parts.
const FAR: u64 = 1 << 45;

/// One axis of a page map, and how many parts a unit has.
///
/// # Guarantees
///
/// - A unit has from 1 to 4,096 parts.
#[derive(Clone, Copy, Debug)]
pub(crate) struct FineAxis {
    pub(crate) axis: PageAxis,
    pub(crate) parts: u16,
    pub ghost some_parts: { 1 ≤ parts },
    pub ghost few_parts: { parts ≤ 4096 },
}

impl FineAxis {
    ghost use Rattle.mapping.specs.OneToOne.{has_same_extents};
    ghost use Rattle.mapping.specs.PageMap.{fine_coordinate, fine_distance, scaled_distance};

    /// The plane coordinate of a page coordinate. `None` if it would leave the plane.
    #[inline]
    pub(crate) fn plane(&self, coordinate: i64) -> Option<i32>
        ensures value { let v = fine_coordinate self.now coordinate in SomeIff result (IsPlaneCoordinate v) v }
        ensures test { is_some result ≡ is_within plane_limit (fine_coordinate self.now coordinate) }
    {
        match i32::try_from(coordinate) {
            Ok(near) => self.near_plane(near),
            Err(_) => self.wide_plane(coordinate),
        }
    }

    /// The same for a coordinate of 32 bits. Nothing is divided if both extents are the same, and otherwise one division is
    /// mostly enough.
    #[inline]
    fn near_plane(&self, coordinate: i32) -> Option<i32>
        ensures value { let v = fine_coordinate self.now coordinate in SomeIff result (IsPlaneCoordinate v) v }
        ensures test { is_some result ≡ is_within plane_limit (fine_coordinate self.now coordinate) }
    {
        if self.axis.has_same_extents() {
            return self.unscaled_plane(coordinate);
        }
        let product = self.product(coordinate);
        if product.unsigned_abs() >= FAR {
            return self.far_plane(coordinate);
        }
        on_plane(self.short_in_parts(coordinate, product), self.shift())
    }

    /// The same if the product of distance and extent may be too large to be multiplied by the number of parts.
    #[inline(never)]
    fn far_plane(&self, coordinate: i32) -> Option<i32>
        ensures value { let v = fine_coordinate self.now coordinate in SomeIff result (IsPlaneCoordinate v) v }
        ensures test { is_some result ≡ is_within plane_limit (fine_coordinate self.now coordinate) }
    {
        let whole = self.axis.scaled(coordinate);
        if whole.unsigned_abs() >= FAR {
            return self.wide_plane(i64::from(coordinate));
        }
        on_plane(self.in_parts(coordinate, whole), self.shift())
    }

    /// The same if both extents are the same.
    fn unscaled_plane(&self, coordinate: i32) -> Option<i32>
        requires same { has_same_extents self.now.axis ≡ true }
        ensures value { let v = fine_coordinate self.now coordinate in SomeIff result (IsPlaneCoordinate v) v }
        ensures test { is_some result ≡ is_within plane_limit (fine_coordinate self.now coordinate) }
    {
        on_plane(self.unscaled(coordinate), self.shift())
    }

    /// The plane coordinate of a page coordinate that doesn't leave the plane, if both extents are the same.
    fn unscaled_at(&self, coordinate: i32) -> i32
        requires same { has_same_extents self.now.axis ≡ true }
        requires there { IsPlaneCoordinate (fine_coordinate self.now coordinate) }
        ensures { result ≡ fine_coordinate self.now coordinate }
    {
        plane_number(self.unscaled(coordinate), self.shift())
    }

    /// The distance of a coordinate from the window's origin in parts, if both extents are the same. Nothing is divided.
    fn unscaled(&self, coordinate: i32) -> i64
        requires same { has_same_extents self.now.axis ≡ true }
        ensures { result ≡ fine_distance self.now coordinate }
    {
        times(
            distance(coordinate, self.axis.window_origin),
            i64::from(self.parts),
        )
    }

    /// The distance of a coordinate from the window's origin, times the viewport's extent.
    fn product(&self, coordinate: i32) -> i64
        ensures value { result ≡ (coordinate -ℤ self.now.axis.window_origin) *ℤ self.now.axis.viewport_extent }
        ensures bound { unsigned_abs result + 2 ^ 31 ≤ 2 ^ 63 }
    {
        let distance = distance(coordinate, self.axis.window_origin);
        product(distance, i64::from(self.axis.viewport_extent))
    }

    /// The scaled distance of a coordinate in parts, rounded down, from this product, if it is short.
    fn short_in_parts(&self, coordinate: i32, product: i64) -> i64
        requires product { product ≡ (coordinate -ℤ self.now.axis.window_origin) *ℤ self.now.axis.viewport_extent }
        requires short { unsigned_abs product < 2 ^ 45 }
        ensures { result ≡ fine_distance self.now coordinate }
    {
        let parts = times(product, i64::from(self.parts));
        floor_quotient(parts, i64::from(self.axis.window_extent))
    }

    /// The plane coordinate of a page coordinate that doesn't leave the plane.
    #[inline]
    pub(crate) fn at(&self, coordinate: i32) -> i32
        requires { IsPlaneCoordinate (fine_coordinate self.now coordinate) }
        ensures { result ≡ fine_coordinate self.now coordinate }
    {
        if self.axis.has_same_extents() {
            return self.unscaled_at(coordinate);
        }
        let product = self.product(coordinate);
        if product.unsigned_abs() >= FAR {
            return self.far_at(coordinate);
        }
        plane_number(self.short_in_parts(coordinate, product), self.shift())
    }

    /// The same if the product of distance and extent may be too large to be multiplied by the number of parts.
    #[inline(never)]
    fn far_at(&self, coordinate: i32) -> i32
        requires { IsPlaneCoordinate (fine_coordinate self.now coordinate) }
        ensures { result ≡ fine_coordinate self.now coordinate }
    {
        match self.far_plane(coordinate) {
            Some(there) => there,
            None => unreachable!(),
        }
    }

    /// The same as `plane`, computed in 128 bits.
    #[inline(never)]
    fn wide_plane(&self, coordinate: i64) -> Option<i32>
        ensures value { let v = fine_coordinate self.now coordinate in SomeIff result (IsPlaneCoordinate v) v }
        ensures test { is_some result ≡ is_within plane_limit (fine_coordinate self.now coordinate) }
    {
        wide_on_plane(self.wide_scaled(coordinate), self.shift())
    }

    /// The scaled distance of a coordinate from the window's origin in parts, rounded down, from the one in units
    /// (`whole`): the parts of the whole units plus those of the remainder.
    fn in_parts(&self, coordinate: i32, whole: i64) -> i64
        requires whole { whole ≡ scaled_distance self.now.axis coordinate }
        requires near { unsigned_abs whole < 2 ^ 45 }
        ensures { result ≡ fine_distance self.now coordinate }
    {
        let product = product(
            distance(coordinate, self.axis.window_origin),
            i64::from(self.axis.viewport_extent),
        );
        quotient_in_parts(
            product,
            i64::from(self.axis.window_extent),
            whole,
            i64::from(self.parts),
        )
    }

    /// The scaled distance in parts for a coordinate that may have more than 32 bits, computed in 128 bits.
    fn wide_scaled(&self, coordinate: i64) -> i128
        ensures { result ≡ fine_distance self.now coordinate }
    {
        let distance = wide_in_parts(
            wide_distance(coordinate, self.axis.window_origin),
            i128::from(self.parts),
        );
        let product = wide_product(distance, i128::from(self.axis.viewport_extent));
        wide_floor_quotient(product, i128::from(self.axis.window_extent))
    }

    /// The shift after scaling, in parts: the viewport's origin, relative to the frame's corner.
    fn shift(&self) -> i64
        ensures value { result ≡ (self.now.axis.viewport_origin -ℤ self.now.axis.corner) *ℤ pos self.now.parts }
        ensures bound { unsigned_abs result < 2 ^ 44 }
    {
        times(
            distance(self.axis.viewport_origin, self.axis.corner),
            i64::from(self.parts),
        )
    }
}

/// The floor of a quotient in parts, from the floor of the quotient: the parts of that, and those of the remainder.
fn quotient_in_parts(dividend: i64, divisor: i64, whole: i64, parts: i64) -> i64
    requires not_zero { divisor ≢ pos 0 }
    requires dividend_fits { unsigned_abs dividend + 2 ^ 31 ≤ 2 ^ 63 }
    requires divisor_fits { unsigned_abs divisor ≤ 2 ^ 31 }
    requires whole { whole ≡ floor_div dividend divisor }
    requires near { unsigned_abs whole < 2 ^ 45 }
    requires parts_fit { unsigned_abs parts ≤ 2 ^ 12 }
    ensures { result ≡ floor_div (dividend *ℤ parts) divisor }
{
    let rest = remainder(dividend, divisor, whole);
    times(whole, parts) + floor_quotient(times(rest, parts), divisor)
}

/// What remains of a division.
fn remainder(dividend: i64, divisor: i64, whole: i64) -> i64
    requires not_zero { divisor ≢ pos 0 }
    requires dividend_fits { unsigned_abs dividend + 2 ^ 31 ≤ 2 ^ 63 }
    requires divisor_fits { unsigned_abs divisor ≤ 2 ^ 31 }
    requires whole { whole ≡ floor_div dividend divisor }
    requires near { unsigned_abs whole < 2 ^ 45 }
    ensures value { result ≡ dividend -ℤ whole *ℤ divisor }
    ensures bound { unsigned_abs result < 2 ^ 31 }
{
    dividend - whole * divisor
}

/// A number of units in parts.
fn times(number: i64, parts: i64) -> i64
    requires number_fits { unsigned_abs number < 2 ^ 45 }
    requires parts_fit { unsigned_abs parts ≤ 2 ^ 12 }
    ensures value { result ≡ number *ℤ parts }
    ensures bound { unsigned_abs result < 2 ^ 57 }
    ensures short { unsigned_abs number < 2 ^ 32 → unsigned_abs result < 2 ^ 44 }
{
    number * parts
}

/// A distance of more than 64 bits, in parts.
fn wide_in_parts(distance: i128, parts: i128) -> i128
    requires distance_fits { unsigned_abs distance ≤ 2 ^ 65 }
    requires parts_fit { unsigned_abs parts ≤ 2 ^ 12 }
    ensures value { result ≡ distance *ℤ parts }
    ensures bound { unsigned_abs result ≤ 2 ^ 77 }
{
    distance * parts
}
