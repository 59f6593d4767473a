//! Reading a P6 text (ppm(5)): the positions of its numbers and its raster, and the colours of the raster.

ghost use Rattle.std.specs.Prelude.{◌≡◌, ◌+◌, ◌*◌, ◌<◌, ◌≤◌, false, length, drop, min, IsTrue, MatchOption};
ghost use Rattle.std.specs.List.{prefix_len};
ghost use Rattle.mapping.specs.Limits.{is_surface_side, surface_side_limit};
ghost use Rattle.std.specs.Char.{is_ascii_digit};
ghost use Rattle.canvas.specs.PpmReading.{is_white, is_in_gap, is_in_comment, after_gap, number_of_digits, begins_ppm, ends_head, has_head, colours_at};
ghost use Rattle.canvas.specs.PpmHead.{IsNumberAt, IsHeadOf};
ghost use Rattle.canvas.specs.Rows.{row_colours, row_stride};

use crate::surface::place;
use mapping::Colour;

/// The greatest value that is counted for a number. Higher numbers are all rejected.
const TOO_HIGH: u32 = 9_999;

/// The greatest width or height of a surface.
const MAX_SIDE: u32 = 8_192;

/// The width and height in a header, and the offset of the raster after it.
#[derive(Clone, Copy)]
pub(crate) struct PpmHead {
    pub width: u32,
    pub height: u32,
    pub start: usize,
}

/// A number that was read (`TOO_HIGH` if it is higher), and where its digits end.
#[derive(Clone, Copy)]
struct NumberRead {
    value: u32,
    end: usize,
}

/// The contents of the header, if the text begins with one.
pub(crate) fn read_head(bytes: &[u8]) -> Option<PpmHead>
    ensures { MatchOption result (has_head bytes.now ≡ false) (IsHeadOf bytes.now) }
{
    if !has_magic(bytes) {
        return None;
    }
    let width = number_after_gap(bytes, 2);
    let height = number_after_gap(bytes, width.end);
    let most = number_after_gap(bytes, height.end);
    if !ends_head(bytes, width.value, height.value, most) {
        return None;
    }
    Some(PpmHead {
        width: width.value,
        height: height.value,
        start: most.end + 1,
    })
}

/// Whether a surface may have this size, the greatest sample value is 255, and a white space byte follows it.
fn ends_head(bytes: &[u8], width: u32, height: u32, most: NumberRead) -> bool
    requires { most.end ≤ length bytes.now }
    ensures tests { result ≡ ends_head width height most.value (drop most.end bytes.now) }
    ensures there { IsTrue result → most.end < length bytes.now }
{
    is_side(width)
        && is_side(height)
        && most.value == 255
        && most.end < bytes.len()
        && is_white(bytes[most.end])
}

/// Whether the text begins with the magic number, followed by a gap.
fn has_magic(bytes: &[u8]) -> bool
    ensures magic { result ≡ begins_ppm bytes.now }
{
    bytes.len() > 2 && bytes[0] == b'P' && bytes[1] == b'6' && belongs_to_gap(false, bytes[2])
}

/// Whether a surface may have this width or height.
fn is_side(side: u32) -> bool
    ensures { result ≡ is_surface_side side }
{
    1 <= side && side <= MAX_SIDE
}

/// The number after the gap that begins at this offset. 0 if there is none.
fn number_after_gap(bytes: &[u8], from: usize) -> NumberRead
    requires { from ≤ length bytes.now }
    ensures { IsNumberAt bytes.now (after_gap false (drop from bytes.now)) result }
{
    let start = gap_end(bytes, from);
    let end = digits_end(bytes, start);
    NumberRead {
        value: value_of(&bytes[start..end]),
        end,
    }
}

/// The end of the gap that begins at this offset.
fn gap_end(bytes: &[u8], from: usize) -> usize
    requires { from ≤ length bytes.now }
    ensures after { drop result bytes.now ≡ after_gap false (drop from bytes.now) }
    ensures within { result ≤ length bytes.now }
{
    let mut at = from;
    let mut in_comment = false;
    while at < bytes.len() && belongs_to_gap(in_comment, bytes[at]) {
        in_comment = stays_comment(in_comment, bytes[at]);
        at += 1;
    }
    at
}

/// Whether the byte belongs to a gap.
fn belongs_to_gap(in_comment: bool, byte: u8) -> bool
    ensures { result ≡ is_in_gap in_comment byte }
{
    in_comment || byte == b'#' || is_white(byte)
}

/// Whether a gap is in a comment after this byte.
fn stays_comment(in_comment: bool, byte: u8) -> bool
    ensures { result ≡ is_in_comment in_comment byte }
{
    (in_comment || byte == b'#') && byte != b'\r' && byte != b'\n'
}

/// Whether the byte is a space, a TAB, a carriage return or a line feed.
fn is_white(byte: u8) -> bool
    ensures { result ≡ is_white byte }
{
    byte == b' ' || byte == b'\t' || byte == b'\r' || byte == b'\n'
}

/// The end of the digits that begin at this offset.
fn digits_end(bytes: &[u8], from: usize) -> usize
    requires { from ≤ length bytes.now }
    ensures end { result ≡ from + prefix_len is_ascii_digit (drop from bytes.now) }
    ensures within { result ≤ length bytes.now }
{
    let mut at = from;
    while at < bytes.len() && bytes[at].is_ascii_digit() {
        at += 1;
    }
    at
}

/// The value of the digits, or `TOO_HIGH` if it is higher.
fn value_of(digits: &[u8]) -> u32
    ensures { result ≡ min (number_of_digits digits.now) 9999 }
{
    let mut value = 0;
    for digit in digits {
        value = (value * 10 + u32::from(digit.saturating_sub(b'0'))).min(TOO_HIGH);
    }
    value
}

/// Reads the colours of some rows of this width, three samples for each, and stores the rows this far apart.
pub(crate) fn read_rows(
    colours: &mut [Colour],
    rows: u32,
    width: usize,
    stride: usize,
    samples: &[u8],
)
    requires wide { 1 ≤ width }
    requires apart { width ≤ stride }
    requires stride { stride ≤ row_stride surface_side_limit }
    requires rows { rows ≤ surface_side_limit }
    requires whole { length colours.old ≡ rows * stride }
    requires samples { 3 * (rows * width) ≤ length samples.now }
    ensures { row_colours rows width stride colours.new ≡ colours_at (rows * width) samples.now }
{
    for row in 0..rows {
        let start = place(stride, row, 0);
        let at = 3 * place(width, row, 0);
        read_colours(&mut colours[start..start + width], &samples[at..]);
    }
}

/// Reads as many colours as the slice has, three samples for each.
fn read_colours(colours: &mut [Colour], samples: &[u8])
    requires { 3 * length colours.old ≤ length samples.now }
    ensures { colours.new ≡ colours_at (length colours.old) samples.now }
{
    for k in 0..colours.len() {
        colours[k] = Colour {
            r: samples[3 * k],
            g: samples[3 * k + 1],
            b: samples[3 * k + 2],
        };
    }
}
