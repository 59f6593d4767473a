//! The parts of a line: numbers, points, boxes, colours and sizes.

ghost use Rattle.std.specs.Prelude.{◌≡◌, ◌+◌, ◌<◌, ◌≤◌, [], ◌∷◌, ◌++◌, length, decimal};
ghost use Rattle.std.specs.Fmt.{signed_decimal};
ghost use Rattle.listing.specs.Parts.{colour_text, digit, four_digits, point_text, rect_text, dimensions_text, two_digits};

use crate::text_buffer::TextBuffer;
use itoa::Buffer;
use mapping::{Colour, Point, Rect};

/// Appends a number in decimal digits.
pub(crate) fn put_number(buffer: &mut TextBuffer, number: u32)
    requires { length buffer.old + 10 ≤ 8192 }
    ensures text { buffer.new ≡ buffer.old ++ decimal number }
    ensures short { length buffer.new ≤ length buffer.old + 10 }
{
    let mut digits = Buffer::new();
    buffer.put(digits.format(number));
}

/// Appends a code of the standard in decimal digits.
pub(crate) fn put_code(buffer: &mut TextBuffer, code: u8)
    requires { length buffer.old + 3 ≤ 8192 }
    ensures text { buffer.new ≡ buffer.old ++ decimal code }
    ensures short { length buffer.new ≤ length buffer.old + 3 }
{
    let mut digits = Buffer::new();
    buffer.put(digits.format(code));
}

/// Appends an offset or a size in decimal digits.
pub(crate) fn put_size(buffer: &mut TextBuffer, size: usize)
    requires { length buffer.old + 20 ≤ 8192 }
    ensures text { buffer.new ≡ buffer.old ++ decimal size }
    ensures short { length buffer.new ≤ length buffer.old + 20 }
{
    let mut digits = Buffer::new();
    buffer.put(digits.format(size));
}

/// Appends a number that may be negative in decimal digits.
pub(crate) fn put_signed(buffer: &mut TextBuffer, number: i32)
    requires { length buffer.old + 11 ≤ 8192 }
    ensures text { buffer.new ≡ buffer.old ++ signed_decimal number }
    ensures short { length buffer.new ≤ length buffer.old + 11 }
{
    let mut digits = Buffer::new();
    buffer.put(digits.format(number));
}

/// Appends x and y.
#[tactic(auto, unfolding(crate::specs::Parts::point_text))]
pub(crate) fn put_point(buffer: &mut TextBuffer, point: Point)
    requires { length buffer.old + 23 ≤ 8192 }
    ensures text { buffer.new ≡ buffer.old ++ point_text point }
    ensures short { length buffer.new ≤ length buffer.old + 23 }
{
    put_signed(buffer, point.x);
    buffer.put(",");
    put_signed(buffer, point.y);
}

/// Appends left, top, right and bottom.
pub(crate) fn put_rect(buffer: &mut TextBuffer, rect: Rect)
    requires { length buffer.old + 47 ≤ 8192 }
    ensures text { buffer.new ≡ buffer.old ++ rect_text rect }
    ensures short { length buffer.new ≤ length buffer.old + 47 }
{
    put_point(
        buffer,
        Point {
            x: rect.l,
            y: rect.t,
        },
    );
    buffer.put(",");
    put_point(
        buffer,
        Point {
            x: rect.r,
            y: rect.b,
        },
    );
}

/// Appends a width and a height.
pub(crate) fn put_dimensions(buffer: &mut TextBuffer, width: u32, height: u32)
    requires { length buffer.old + 21 ≤ 8192 }
    ensures text { buffer.new ≡ buffer.old ++ dimensions_text width height }
    ensures short { length buffer.new ≤ length buffer.old + 21 }
{
    put_number(buffer, width);
    buffer.put("x");
    put_number(buffer, height);
}

/// The character of a digit below sixteen.
fn digit(number: u32) -> u8
    requires { number < 16 }
    ensures { result ≡ digit number }
{
    if number < 10 {
        48 + number as u8
    } else {
        87 + number as u8
    }
}

/// Appends the last two hexadecimal digits of a number.
pub(crate) fn put_two_digits(buffer: &mut TextBuffer, number: u32)
    requires { length buffer.old + 2 ≤ 8192 }
    ensures text { buffer.new ≡ buffer.old ++ two_digits number }
    ensures length { length buffer.new ≡ length buffer.old + 2 }
{
    buffer.put_byte(digit(number / 16 % 16));
    buffer.put_byte(digit(number % 16));
}

/// Appends the last four hexadecimal digits of a number.
pub(crate) fn put_four_digits(buffer: &mut TextBuffer, number: u32)
    requires { length buffer.old + 4 ≤ 8192 }
    ensures text { buffer.new ≡ buffer.old ++ four_digits number }
    ensures length { length buffer.new ≡ length buffer.old + 4 }
{
    put_two_digits(buffer, number / 256);
    put_two_digits(buffer, number);
}

/// Appends red, green and blue, with two hexadecimal digits each.
#[tactic(auto, unfolding(crate::specs::Parts::colour_text))]
pub(crate) fn put_colour(buffer: &mut TextBuffer, colour: Colour)
    requires { length buffer.old + 7 ≤ 8192 }
    ensures text { buffer.new ≡ buffer.old ++ colour_text colour }
    ensures length { length buffer.new ≡ length buffer.old + 7 }
{
    buffer.put("#");
    put_two_digits(buffer, u32::from(colour.r));
    put_two_digits(buffer, u32::from(colour.g));
    put_two_digits(buffer, u32::from(colour.b));
}
