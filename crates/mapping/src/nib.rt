//! The nib of a pen: how many columns and rows of a surface it covers.

ghost use Rattle.std.specs.Prelude.{◌≡◌, ◌≤◌, ◌≤ℤ◌, ◌*◌, ◌/◌, pos, max, unsigned_abs, is_some, SomeIff, IsTrue, ◌↔◌};
ghost use Rattle.mapping.specs.Nibs.{IsNib, IsNibSide, NibLaws, is_nib, is_nib_side, nib_of, nib_side, reach_after, reach_before};
ghost use Rattle.mapping.specs.Limits.{surface_side_limit};
ghost use Rattle.mapping.specs.PageMap.{fine_numbers, map_numbers};
ghost use Rattle.mapping.specs.PlaceOf.{surface_of};

use crate::divisor::Divisor;
use crate::fine_axis::FineAxis;
use crate::limits::limits_law;
use crate::page_map::PageMap;
use crate::place::Place;

/// The greatest width or height of a nib, in pixels.
pub const MAX_NIB_SIDE: u16 = 4096;

/// The pixels that a pen covers at once: a box of `x` columns by `y` rows.
#[derive(Clone, Copy, Debug, PartialEq, Eq)]
pub struct Nib {
    /// The number of columns.
    pub x: u16,
    /// The number of rows.
    pub y: u16,
}

impl Nib {
    /// The nib of one pixel.
    pub const ONE: Nib = Nib { x: 1, y: 1 };

    /// Whether the width and the height are from 1 to 4,096 pixels.
    pub fn is_allowed(self) -> bool
        ensures limits { IsTrue result ↔ IsNib self }
        ensures test { result ≡ is_nib self }
    {
        limits_law();
        1 <= self.x && self.x <= MAX_NIB_SIDE && 1 <= self.y && self.y <= MAX_NIB_SIDE
    }
}

impl Place {
    /// The nib of a pen of this width, in page units, under a page map. `None` exactly if its width or height would
    /// exceed 4,096 pixels.
    pub fn nib(&self, width: u32, map: &PageMap) -> Option<Nib>
        ensures nib { let nib = nib_of width (map_numbers map.now) (surface_of self.now) in SomeIff result (IsNib nib) nib }
        ensures test { is_some result ≡ is_nib (nib_of width (map_numbers map.now) (surface_of self.now)) }
    {
        let Some(x) = map.fine_x().nib_side(width, self.width, self.by_width) else {
            return None;
        };
        let Some(y) = map.fine_y().nib_side(width, self.height, self.by_height) else {
            return None;
        };
        Some(Nib { x, y })
    }
}

impl FineAxis {
    /// The width or height in pixels of the nib of a pen of this width. `None` if it exceeds 4,096. If the extents on
    /// the axis have the same length, the map doesn't scale, and the only divisor is that of the frame.
    fn nib_side(&self, width: u32, surface_side: u32, frame_side: Divisor) -> Option<u16>
        requires { surface_side ≤ surface_side_limit }
        ensures side { let side = nib_side width (fine_numbers self.now) surface_side frame_side.number in SomeIff result (IsNibSide side) side }
        ensures test { is_some result ≡ is_nib_side (nib_side width (fine_numbers self.now) surface_side frame_side.number) }
    {
        let (viewport, window) = (self.viewport_length(), self.window_length());
        let fine_side = self.side_in_parts(surface_side);
        if viewport == window {
            return unscaled_side(times(width, fine_side), frame_side);
        }
        allowed_side(scaled(
            times(width, viewport),
            fine_side,
            times(window, frame_side.number),
        ))
    }

    /// A surface's width or height, times the parts of a unit.
    fn side_in_parts(&self, surface_side: u32) -> u32
        requires { surface_side ≤ surface_side_limit }
        ensures { result ≡ self.now.parts * surface_side }
    {
        u32::from(self.parts) * surface_side
    }

    /// The length of the viewport's extent, in either direction.
    fn viewport_length(&self) -> u32
        ensures { result ≡ unsigned_abs self.now.axis.viewport_extent }
    {
        self.axis.viewport_extent.unsigned_abs()
    }

    /// The length of the window's extent, in either direction.
    fn window_length(&self) -> u32
        ensures length { result ≡ unsigned_abs self.now.axis.window_extent }
        ensures some { 1 ≤ result }
    {
        self.axis.window_extent.unsigned_abs()
    }
}

/// The product of two numbers, with twice their bits.
fn times(one: u32, other: u32) -> u64
    ensures { result ≡ one * other }
{
    u64::from(one) * u64::from(other)
}

/// A length times a surface's width or height in parts, divided. Done in 64 bits if the product fits.
fn scaled(length: u64, fine_side: u32, whole: u64) -> u128
    requires { 1 ≤ whole }
    ensures { result ≡ length * fine_side / whole }
{
    match length.checked_mul(u64::from(fine_side)) {
        Some(part) => u128::from(part / whole),
        None => u128::from(length) * u128::from(fine_side) / u128::from(whole),
    }
}

/// The size of a nib that is `part` divided by the width or height of the frame. Most pens cover one pixel, which a
/// comparison detects.
fn unscaled_side(part: u64, frame_side: Divisor) -> Option<u16>
    ensures side { let side = max 1 (part / frame_side.number) in SomeIff result (IsNibSide side) side }
    ensures test { is_some result ≡ is_nib_side (max 1 (part / frame_side.number)) }
{
    if part < times(2, frame_side.number) {
        return Some(1);
    }
    allowed_side(u128::from(frame_side.quotient(part)))
}

/// The size of a nib, at least one pixel. `None` if it exceeds 4,096.
fn allowed_side(pixels: u128) -> Option<u16>
    ensures side { let side = max 1 pixels in SomeIff result (IsNibSide side) side }
    ensures test { is_some result ≡ is_nib_side (max 1 pixels) }
{
    let side = pixels.max(1);
    if side <= u128::from(MAX_NIB_SIDE) {
        Some(side as u16)
    } else {
        None
    }
}

/// For a nib of this width or height, how many of its columns, or rows, lie before the one that follows the line.
pub fn reach_before(side: u16) -> i32
    requires { IsNibSide side }
    ensures reach { result ≡ pos (reach_before side) }
    ensures few { result ≤ℤ pos 4095 }
{
    i32::from((side - 1) / 2)
}

/// How many of them lie after it.
pub fn reach_after(side: u16) -> i32
    requires { IsNibSide side }
    ensures reach { result ≡ pos (reach_after side) }
    ensures few { result ≤ℤ pos 4095 }
{
    i32::from(side - 1 - (side - 1) / 2)
}

/// The law of nibs: on a wider or higher surface a pen covers at least as many pixels, and a pen of width 0 covers one.
pub fn nib_law()
    ensures { NibLaws }
{}
