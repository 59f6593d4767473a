//! Page maps: where page coordinates land on the plane.

ghost use Rattle.std.specs.Prelude.{◌≡◌, ◌≢◌, ◌^◌, ◌<◌, ◌≤◌, pos, unsigned_abs, SomeIff, is_some, IsTrue};
ghost use Rattle.mapping.specs.OneToOne.{maps_one_to_one};

use crate::fine_axis::FineAxis;
use crate::geometry::Point;
use crate::map_mode::MapMode;
use crate::page_axis::PageAxis;

/// Where page coordinates land on the plane, separately on each axis. The mode decides whether records can change the
/// extents.
///
/// # Guarantees
///
/// - A unit of the frame has from 1 to 4,096 parts.
#[derive(Clone, Copy, Debug, PartialEq, Eq)]
pub struct PageMap {
    pub mode: MapMode,
    /// Whether nothing is scaled: a unit of the frame is one part, and on each axis both extents are the same. Most
    /// maps are such maps, and one test is then enough for a point.
    pub one_to_one: bool,
    /// How many parts a unit of the frame has.
    pub parts: u16,
    pub x: PageAxis,
    pub y: PageAxis,
    pub ghost some_parts: { 1 ≤ parts },
    pub ghost few_parts: { parts ≤ 4096 },
    pub ghost tested: { one_to_one ≡ maps_one_to_one parts x y },
}

impl PageMap {
    ghost use Rattle.mapping.specs.Plane.{IsOnPlane, is_on_plane, plane_point};
    ghost use Rattle.mapping.specs.PageMap.{axis_numbers, map_in_parts, map_numbers, placeable_map, plain_map, unscaled_map};

    /// The map of these axes.
    pub(crate) fn new(mode: MapMode, parts: u16, x: PageAxis, y: PageAxis) -> PageMap
        requires some { 1 ≤ parts }
        requires few { parts ≤ 4096 }
        ensures { map_numbers result ≡ record { mode = mode; x = axis_numbers parts x; y = axis_numbers parts y } }
    {
        PageMap {
            mode,
            one_to_one: parts == 1 && x.has_same_extents() && y.has_same_extents(),
            parts,
            x,
            y,
        }
    }

    /// The initial map of a placeable file ([MS-WMF] 2.3.2.3) whose box has this corner and this size. A negative size
    /// means that the right or the bottom comes first.
    pub fn placeable(corner: Point, dimensions: Point) -> PageMap
        requires wide { dimensions.x ≢ pos 0 }
        requires width_can_be_negated { unsigned_abs dimensions.x < 2 ^ 31 }
        requires high { dimensions.y ≢ pos 0 }
        requires height_can_be_negated { unsigned_abs dimensions.y < 2 ^ 31 }
        ensures { map_numbers result ≡ placeable_map corner dimensions }
    {
        PageMap::new(
            MapMode::Anisotropic,
            1,
            PageAxis::placeable(corner.x, dimensions.x),
            PageAxis::placeable(corner.y, dimensions.y),
        )
    }

    /// The initial map of a plain WMF file whose window has this size ([MS-WMF] 2.3.5.30). A negative size means that x
    /// grows to the left or y upwards.
    pub fn plain(dimensions: Point) -> PageMap
        requires wide { dimensions.x ≢ pos 0 }
        requires width_can_be_negated { unsigned_abs dimensions.x < 2 ^ 31 }
        requires high { dimensions.y ≢ pos 0 }
        requires height_can_be_negated { unsigned_abs dimensions.y < 2 ^ 31 }
        ensures { map_numbers result ≡ plain_map dimensions }
    {
        PageMap::placeable(Point { x: 0, y: 0 }, dimensions)
    }

    /// The initial map of an EMF file ([MS-EMF] 2.2.9) whose bounds have this corner. Page coordinates are device
    /// coordinates.
    pub fn unscaled(corner: Point) -> PageMap
        ensures { map_numbers result ≡ unscaled_map corner }
    {
        PageMap::new(
            MapMode::Text,
            1,
            PageAxis::unscaled(corner.x),
            PageAxis::unscaled(corner.y),
        )
    }

    /// The same map with this many parts to a unit of the frame.
    pub fn in_parts(self, parts: u16) -> PageMap
        requires some { 1 ≤ parts }
        requires few { parts ≤ 4096 }
        ensures { map_numbers result ≡ map_in_parts parts (map_numbers self) }
    {
        PageMap::new(self.mode, parts, self.x, self.y)
    }

    /// The plane point of a page point. `None` exactly if one of its coordinates would be more than 2^30 from 0.
    #[inline]
    pub fn plane(&self, x: i64, y: i64) -> Option<Point>
        ensures point { let there = plane_point (map_numbers self.now) x y in SomeIff result (IsOnPlane there) there }
        ensures test { is_some result ≡ is_on_plane (plane_point (map_numbers self.now) x y) }
    {
        if self.one_to_one {
            if let Ok(x) = i32::try_from(x) {
                if let Ok(y) = i32::try_from(y) {
                    return self.moved_plane(Point { x, y });
                }
            }
        }
        self.scaled_plane(x, y)
    }

    /// The same for a point of 32 bits, on a map that scales nothing.
    #[inline]
    fn moved_plane(&self, point: Point) -> Option<Point>
        requires { IsTrue self.now.one_to_one }
        ensures point { let p = plane_point (map_numbers self.now) point.x point.y in SomeIff result (IsOnPlane p) p }
        ensures test { is_some result ≡ is_on_plane (plane_point (map_numbers self.now) point.x point.y) }
    {
        let Some(x) = self.x.moved_plane(point.x) else {
            return None;
        };
        let Some(y) = self.y.moved_plane(point.y) else {
            return None;
        };
        Some(Point { x, y })
    }

    /// The same as `plane`, for any map.
    #[inline(never)]
    fn scaled_plane(&self, x: i64, y: i64) -> Option<Point>
        ensures point { let there = plane_point (map_numbers self.now) x y in SomeIff result (IsOnPlane there) there }
        ensures test { is_some result ≡ is_on_plane (plane_point (map_numbers self.now) x y) }
    {
        if self.parts == 1 {
            return self.plane_in_units(x, y);
        }
        self.plane_in_parts(x, y)
    }

    /// The same where a unit of the frame is one part.
    fn plane_in_units(&self, x: i64, y: i64) -> Option<Point>
        requires { self.now.parts ≡ 1 }
        ensures point { let there = plane_point (map_numbers self.now) x y in SomeIff result (IsOnPlane there) there }
        ensures test { is_some result ≡ is_on_plane (plane_point (map_numbers self.now) x y) }
    {
        let Some(x) = self.x.plane(x) else {
            return None;
        };
        let Some(y) = self.y.plane(y) else {
            return None;
        };
        Some(Point { x, y })
    }

    /// The same for any number of parts.
    #[inline]
    fn plane_in_parts(&self, x: i64, y: i64) -> Option<Point>
        ensures point { let there = plane_point (map_numbers self.now) x y in SomeIff result (IsOnPlane there) there }
        ensures test { is_some result ≡ is_on_plane (plane_point (map_numbers self.now) x y) }
    {
        let Some(x) = self.fine_x().plane(x) else {
            return None;
        };
        let Some(y) = self.fine_y().plane(y) else {
            return None;
        };
        Some(Point { x, y })
    }

    /// The plane point of a page point that doesn't leave the plane, on a map that scales nothing.
    #[inline]
    pub fn moved(&self, point: Point) -> Point
        requires test { IsTrue self.now.one_to_one }
        requires there { IsOnPlane (plane_point (map_numbers self.now) point.x point.y) }
        ensures { result ≡ plane_point (map_numbers self.now) point.x point.y }
    {
        Point {
            x: self.x.moved(point.x),
            y: self.y.moved(point.y),
        }
    }

    /// The plane point of a page point that doesn't leave the plane, where a unit of the frame is one part.
    #[inline]
    pub fn at_in_units(&self, point: Point) -> Point
        requires unit { self.now.parts ≡ 1 }
        requires there { IsOnPlane (plane_point (map_numbers self.now) point.x point.y) }
        ensures { result ≡ plane_point (map_numbers self.now) point.x point.y }
    {
        Point {
            x: self.x.at(point.x),
            y: self.y.at(point.y),
        }
    }

    /// The plane point of a page point that doesn't leave the plane, for any number of parts.
    #[inline]
    pub fn at_in_parts(&self, point: Point) -> Point
        requires { IsOnPlane (plane_point (map_numbers self.now) point.x point.y) }
        ensures { result ≡ plane_point (map_numbers self.now) point.x point.y }
    {
        Point {
            x: self.fine_x().at(point.x),
            y: self.fine_y().at(point.y),
        }
    }

    /// The horizontal axis, in parts.
    #[inline]
    pub(crate) fn fine_x(&self) -> FineAxis
        ensures axis { result.axis ≡ self.now.x }
        ensures parts { result.parts ≡ self.now.parts }
    {
        FineAxis {
            axis: self.x,
            parts: self.parts,
        }
    }

    /// The vertical axis, in parts.
    #[inline]
    pub(crate) fn fine_y(&self) -> FineAxis
        ensures axis { result.axis ≡ self.now.y }
        ensures parts { result.parts ≡ self.now.parts }
    {
        FineAxis {
            axis: self.y,
            parts: self.parts,
        }
    }
}
