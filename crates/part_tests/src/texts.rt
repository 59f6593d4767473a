//! P6 texts for every number of pixels, to a writer that accepts everything (ppm(5)).

use canvas::Canvas;
use mapping::Colour;
use std::alloc::Global;
use std::io;
use std::io::Write;

/// A writer that accepts everything, and keeps only the number of bytes.
#[derive(Drop)]
struct Counter {
    bytes: usize,
}

impl Write for Counter {
    fn write(&mut self, buf: &[u8]) -> io::Result<usize> {
        self.bytes = self.bytes.wrapping_add(buf.len());
        Ok(buf.len())
    }

    fn flush(&mut self) -> io::Result<()> {
        Ok(())
    }
}

/// The number of digits of a width or height.
fn digits(side: u32) -> u8 {
    match side {
        0..=9 => 1,
        10..=99 => 2,
        100..=999 => 3,
        _ => 4,
    }
}

/// Whether the text of a surface of this size is written, with the length of its header ("P6", the size and 255) and
/// three bytes per pixel.
fn is_text(alloc: Global, width: u32, height: u32) -> bool {
    if width == 0 || 8192 < width || height == 0 || 8192 < height {
        return false;
    }
    let Ok(canvas) = Canvas::new(alloc, width, height, Colour::WHITE) else {
        return false;
    };
    let mut out = Counter { bytes: 0 };
    let header = 9 + usize::from(digits(width)) + usize::from(digits(height));
    let colours = (width as usize)
        .wrapping_mul(height as usize)
        .wrapping_mul(3);
    canvas.write_ppm(&mut out).is_ok() && out.bytes.wrapping_sub(header) == colours
}

/// The width and height of a surface with this many pixels, one of them small. None for a prime.
fn dimensions_of(pixels: u32) -> Option<(u32, u32)> {
    for width in 2..111 {
        if pixels % width == 0 {
            return Some((width, pixels / width));
        }
    }
    None
}

#[test]
fn a_text_has_each_count_of_pixels_in_one_row_or_column(rt: HostRuntime) {
    for pixels in 1..8193 {
        assert!(rt; is_text(rt.alloc(), pixels, 1), "{pixels} by 1");
        assert!(rt; is_text(rt.alloc(), 1, pixels), "1 by {pixels}");
    }
}

#[test]
fn a_text_has_each_count_of_pixels_of_three_pieces(rt: HostRuntime) {
    // A piece has 4,096 pixels.
    for pixels in 8193..12290 {
        if let Some((width, height)) = dimensions_of(pixels) {
            assert!(rt; is_text(rt.alloc(), width, height), "{width} by {height}");
        }
    }
}
