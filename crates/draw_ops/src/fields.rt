//! Fields of records.

ghost use Rattle.std.specs.Prelude.{◌≡◌, ◌+◌, ◌≤◌, length};
ghost use Rattle.draw_ops.specs.Fields.{box_at, is_rgb, rgb_at, reversed_box_at, xy_at, yx_at};

use crate::record_fault::RecordFault;
use mapping::{Colour, Point, Rect};
use point_views::{i16_at, i32_at, u8_at};

/// The colour whose red is at an offset ([MS-WMF] 2.2.2.8). `PaletteColour` if its type, the byte after its blue, is
/// neither 0 nor 2.
pub fn rgb_at(bytes: &[u8], place: usize) -> Result<Colour, RecordFault>
    requires { place + 4 ≤ length bytes.now }
    ensures value { result ≡ rgb_at bytes.now place }
{
    if !is_rgb(u8_at(bytes, place + 3)) {
        return Err(RecordFault::PaletteColour);
    }
    Ok(Colour {
        r: u8_at(bytes, place),
        g: u8_at(bytes, place + 1),
        b: u8_at(bytes, place + 2),
    })
}

/// The point at an offset, with y before x in 16 bits each, as in WMF records.
pub fn yx_at(bytes: &[u8], place: usize) -> Point
    requires { place + 4 ≤ length bytes.now }
    ensures { result ≡ yx_at bytes.now place }
{
    Point {
        x: i32::from(i16_at(bytes, place + 2)),
        y: i32::from(i16_at(bytes, place)),
    }
}

/// The point at an offset, with x before y in 32 bits each, as in EMF records.
pub fn xy_at(bytes: &[u8], place: usize) -> Point
    requires { place + 8 ≤ length bytes.now }
    ensures { result ≡ xy_at bytes.now place }
{
    Point {
        x: i32_at(bytes, place),
        y: i32_at(bytes, place + 4),
    }
}

/// The box at an offset, with left, top, right and bottom in 32 bits each, as in EMF records.
pub fn box_at(bytes: &[u8], place: usize) -> Rect
    requires { place + 16 ≤ length bytes.now }
    ensures { result ≡ box_at bytes.now place }
{
    Rect {
        l: i32_at(bytes, place),
        t: i32_at(bytes, place + 4),
        r: i32_at(bytes, place + 8),
        b: i32_at(bytes, place + 12),
    }
}

/// The box at an offset, with bottom, right, top and left in 16 bits each, as in WMF records.
pub fn reversed_box_at(bytes: &[u8], place: usize) -> Rect
    requires { place + 8 ≤ length bytes.now }
    ensures { result ≡ reversed_box_at bytes.now place }
{
    Rect {
        l: i32::from(i16_at(bytes, place + 6)),
        t: i32::from(i16_at(bytes, place + 4)),
        r: i32::from(i16_at(bytes, place + 2)),
        b: i32::from(i16_at(bytes, place)),
    }
}

/// Whether a colour of this type is given as red, green and blue.
fn is_rgb(colour_type: u8) -> bool
    ensures { result ≡ is_rgb colour_type }
{
    colour_type == 0 || colour_type == 2
}
