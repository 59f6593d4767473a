//! The colour of a pixel in the bytes of a row.

ghost use Rattle.std.specs.Prelude.{◌≡◌, ◌+◌, ◌*◌, ◌<◌, ◌≤◌, length};
ghost use Rattle.dib_views.specs.Pixels.{colour_at, colour_in_row, colour_of_16, index_in_row, pixel_bits, table_colour, wide_part};

use crate::shape::BitCount;
use mapping::Colour;
use point_views::u16_at;

/// The colour of the pixel in column `x` of a row, by the bits of a pixel and the colour table.
#[inline]
pub(crate) fn colour_in_row(bits: BitCount, table: &[u8], row: &[u8], x: usize) -> Colour
    requires { (x + 1) * pixel_bits bits ≤ 8 * length row.now }
    ensures { result ≡ colour_in_row bits table.now row.now x }
{
    match bits {
        BitCount::One => table_colour(table, index_of_1(row, x)),
        BitCount::Four => table_colour(table, index_of_4(row, x)),
        BitCount::Eight => table_colour(table, row[x]),
        BitCount::Sixteen => colour_of_16(u16_at(row, 2 * x)),
        BitCount::TwentyFour => colour_at(row, 3 * x),
        BitCount::ThirtyTwo => colour_at(row, 4 * x),
    }
}

/// The index in a pixel of 1 bit: the leftmost pixel of a byte has the highest bit.
#[inline]
fn index_of_1(row: &[u8], x: usize) -> u8
    requires { x < 8 * length row.now }
    ensures { result ≡ index_in_row BitCount.One row.now x }
{
    row[x / 8] >> (7 - x % 8) & 1
}

/// The index in a pixel of 4 bits: the left pixel of a byte has the high bits.
#[inline]
fn index_of_4(row: &[u8], x: usize) -> u8
    requires { x < 2 * length row.now }
    ensures { result ≡ index_in_row BitCount.Four row.now x }
{
    row[x / 2] >> (4 - x % 2 * 4) & 0xf
}

/// The colour of an entry of a table; black beyond its end, which is our own choice.
#[inline]
fn table_colour(table: &[u8], index: u8) -> Colour
    ensures { result ≡ table_colour table.now index }
{
    let place = 4 * usize::from(index);
    if place + 3 < table.len() {
        colour_at(table, place)
    } else {
        Colour { r: 0, g: 0, b: 0 }
    }
}

/// The colour in three bytes at an offset: blue, green and red.
#[inline]
fn colour_at(bytes: &[u8], place: usize) -> Colour
    requires { place + 3 ≤ length bytes.now }
    ensures { result ≡ colour_at bytes.now place }
{
    Colour {
        r: bytes[place + 2],
        g: bytes[place + 1],
        b: bytes[place],
    }
}

/// The colour in a number of 16 bits: five bits per component, red in the highest, blue in the lowest. The highest bit
/// is ignored.
#[inline]
fn colour_of_16(number: u16) -> Colour
    ensures { result ≡ colour_of_16 number }
{
    Colour {
        r: wide_part(number >> 10 & 0x1f),
        g: wide_part(number >> 5 & 0x1f),
        b: wide_part(number & 0x1f),
    }
}

/// Widens a component of five bits to eight, from 0 (none) to 255 (full). The rule v*8 + v/4 is our own choice.
#[inline]
fn wide_part(part: u16) -> u8
    requires { part < 32 }
    ensures { result ≡ wide_part part }
{
    (part * 8 + part / 4) as u8
}
