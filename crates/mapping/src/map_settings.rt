//! How records change a page map: its mode, and the origins and extents of its window and its viewport.

ghost use Rattle.std.specs.Prelude.{◌≡◌, ℕ, ◌≢◌, ◌+ℤ◌, ◌||◌, pos, IfSome, OnErr, OnOk, is_err, is_ok, is_some};
ghost use Rattle.std.specs.Ordering.{int_eq};
ghost use Rattle.mapping.specs.MapSettings.{is_page_coordinate, may_set_extents};

use crate::geometry::Point;
use crate::map_error::{OffPlane, ZeroExtent};
use crate::map_mode::MapMode;
use crate::page_axis::PageAxis;
use crate::page_map::PageMap;

impl PageMap {
    ghost use Rattle.mapping.specs.PageMap.{map_numbers};
    ghost use Rattle.mapping.specs.MapSettings.{is_page_point, offset_by, sets_zero_extent, viewport_origin_of, window_origin_of};
    ghost use Rattle.mapping.specs.MapSettings.{with_mode, with_viewport_extent, with_viewport_origin, with_window_extent, with_window_origin};
    ghost use Rattle.mapping.specs.MapSettings.{with_offset_viewport_origin, with_offset_window_origin};

    /// Sets the mode ([MS-WMF] 2.3.5.17). Text mode sets all four extents to 1, and they stay so in a later mode until
    /// they are set.
    pub fn set_mode(&mut self, mode: MapMode)
        ensures { map_numbers self.new ≡ with_mode mode (map_numbers self.old) }
    {
        let (x, y) = match mode {
            MapMode::Text => (self.x.with_unit_extents(), self.y.with_unit_extents()),
            MapMode::Isotropic | MapMode::Anisotropic => (self.x, self.y),
        };
        *self = PageMap::new(mode, self.parts, x, y);
    }

    /// Sets the window's origin ([MS-WMF] 2.3.5.31): the page point that lands on the viewport's origin.
    pub fn set_window_origin(&mut self, origin: Point)
        ensures { map_numbers self.new ≡ with_window_origin origin (map_numbers self.old) }
    {
        *self = PageMap::new(
            self.mode,
            self.parts,
            self.x.with_window(origin.x, self.x.window_extent),
            self.y.with_window(origin.y, self.y.window_extent),
        );
    }

    /// Sets the viewport's origin ([MS-WMF] 2.3.5.29): where the window's origin lands, before the frame's corner is
    /// subtracted.
    pub fn set_viewport_origin(&mut self, origin: Point)
        ensures { map_numbers self.new ≡ with_viewport_origin origin (map_numbers self.old) }
    {
        *self = PageMap::new(
            self.mode,
            self.parts,
            self.x.with_viewport(origin.x, self.x.viewport_extent),
            self.y.with_viewport(origin.y, self.y.viewport_extent),
        );
    }

    /// Sets the window's extent ([MS-WMF] 2.3.5.30) if the mode allows it. Fails if the extent is 0 on an axis.
    pub fn set_window_extent(&mut self, extent: Point) -> Result<(), ZeroExtent>
        ensures test { is_err result ≡ sets_zero_extent extent (map_numbers self.old) }
        ensures map { OnOk result (map_numbers self.new ≡ with_window_extent extent (map_numbers self.old)) }
        ensures kept { OnErr result (self.new ≡ self.old) }
    {
        if !may_set_extents(self.mode) {
            return Ok(());
        }
        if has_zero(extent) {
            return Err(ZeroExtent);
        }
        *self = PageMap::new(
            self.mode,
            self.parts,
            self.x.with_window(self.x.window_origin, extent.x),
            self.y.with_window(self.y.window_origin, extent.y),
        );
        Ok(())
    }

    /// Sets the viewport's extent ([MS-WMF] 2.3.5.28) if the mode allows it. Fails if the extent is 0 on an axis.
    pub fn set_viewport_extent(&mut self, extent: Point) -> Result<(), ZeroExtent>
        ensures test { is_err result ≡ sets_zero_extent extent (map_numbers self.old) }
        ensures map { OnOk result (map_numbers self.new ≡ with_viewport_extent extent (map_numbers self.old)) }
        ensures kept { OnErr result (self.new ≡ self.old) }
    {
        if !may_set_extents(self.mode) {
            return Ok(());
        }
        if has_zero(extent) {
            return Err(ZeroExtent);
        }
        *self = PageMap::new(
            self.mode,
            self.parts,
            self.x.with_viewport(self.x.viewport_origin, extent.x),
            self.y.with_viewport(self.y.viewport_origin, extent.y),
        );
        Ok(())
    }

    /// Moves the window's origin ([MS-WMF] 2.3.5.7). Fails if a coordinate would no longer fit 32 bits.
    pub fn offset_window_origin(&mut self, offset: Point) -> Result<(), OffPlane>
        ensures test { is_ok result ≡ is_page_point (offset_by offset (window_origin_of (map_numbers self.old))) }
        ensures map { OnOk result (map_numbers self.new ≡ with_offset_window_origin offset (map_numbers self.old)) }
        ensures kept { OnErr result (self.new ≡ self.old) }
    {
        let Some(x) = sum(self.x.window_origin, offset.x) else {
            return Err(OffPlane);
        };
        let Some(y) = sum(self.y.window_origin, offset.y) else {
            return Err(OffPlane);
        };
        self.set_window_origin(Point { x, y });
        Ok(())
    }

    /// Moves the viewport's origin ([MS-WMF] 2.3.5.6). Fails if a coordinate would no longer fit 32 bits.
    pub fn offset_viewport_origin(&mut self, offset: Point) -> Result<(), OffPlane>
        ensures test { is_ok result ≡ is_page_point (offset_by offset (viewport_origin_of (map_numbers self.old))) }
        ensures map { OnOk result (map_numbers self.new ≡ with_offset_viewport_origin offset (map_numbers self.old)) }
        ensures kept { OnErr result (self.new ≡ self.old) }
    {
        let Some(x) = sum(self.x.viewport_origin, offset.x) else {
            return Err(OffPlane);
        };
        let Some(y) = sum(self.y.viewport_origin, offset.y) else {
            return Err(OffPlane);
        };
        self.set_viewport_origin(Point { x, y });
        Ok(())
    }
}

impl PageAxis {
    ghost use Rattle.mapping.specs.PageMap.{axis_numbers};
    ghost use Rattle.mapping.specs.MapSettings.{with_unit_extents, with_viewport, with_window};

    /// The axis with another window.
    fn with_window(self, origin: i32, extent: i32) -> PageAxis
        requires { extent ≢ pos 0 }
        ensures { (parts : ℕ) → axis_numbers parts result ≡ with_window origin extent (axis_numbers parts self) }
    {
        PageAxis {
            window_origin: origin,
            window_extent: extent,
            viewport_origin: self.viewport_origin,
            viewport_extent: self.viewport_extent,
            corner: self.corner,
        }
    }

    /// The axis with another viewport.
    fn with_viewport(self, origin: i32, extent: i32) -> PageAxis
        ensures { (parts : ℕ) → axis_numbers parts result ≡ with_viewport origin extent (axis_numbers parts self) }
    {
        PageAxis {
            window_origin: self.window_origin,
            window_extent: self.window_extent,
            viewport_origin: origin,
            viewport_extent: extent,
            corner: self.corner,
        }
    }

    /// The axis with both extents 1.
    fn with_unit_extents(self) -> PageAxis
        ensures { (parts : ℕ) → axis_numbers parts result ≡ with_unit_extents (axis_numbers parts self) }
    {
        PageAxis {
            window_origin: self.window_origin,
            window_extent: 1,
            viewport_origin: self.viewport_origin,
            viewport_extent: 1,
            corner: self.corner,
        }
    }
}

/// Whether records can change the extents in this mode.
fn may_set_extents(mode: MapMode) -> bool
    ensures { result ≡ may_set_extents mode }
{
    match mode {
        MapMode::Text => false,
        MapMode::Isotropic | MapMode::Anisotropic => true,
    }
}

/// Whether an extent is 0 on an axis.
fn has_zero(extent: Point) -> bool
    ensures { result ≡ (int_eq extent.x (pos 0) || int_eq extent.y (pos 0)) }
{
    extent.x == 0 || extent.y == 0
}

/// A coordinate moved by an offset. `None` exactly if the sum doesn't fit 32 bits.
fn sum(coordinate: i32, offset: i32) -> Option<i32>
    ensures value { IfSome result (λ there. there ≡ coordinate +ℤ offset) }
    ensures test { is_some result ≡ is_page_coordinate (coordinate +ℤ offset) }
{
    coordinate.checked_add(offset)
}
