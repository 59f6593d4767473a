//! The length of a P6 header.

ghost use Rattle.std.specs.Prelude.{◌≡◌, ◌≤◌, length, decimal};
ghost use Rattle.canvas.specs.Ppm.{header};

use itoa::Buffer;

/// The number of bytes of a P6 text that come before its samples.
pub(crate) fn header_length(width: u32, height: u32) -> usize
    ensures length { result ≡ length (header width height) }
    ensures short { result ≤ 32 }
{
    9 + digit_count(width) + digit_count(height)
}

/// The number of decimal digits of a number.
fn digit_count(number: u32) -> usize
    ensures count { result ≡ length (decimal number) }
    ensures short { result ≤ 10 }
{
    let mut digits = Buffer::new();
    digits.format(number).len()
}
