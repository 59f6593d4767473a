//! Texts of every length, sent to writers that accept all bytes or a few at a time; headers of every size; and rows of
//! every number.

use canvas::{Canvas, send, write_header};
use mapping::Colour;
use std::alloc::{AllocError, Global};
use std::io;
use std::io::Write;

/// A writer that accepts up to some number of bytes per call, and adds up their number and their values.
#[derive(Drop)]
struct Taker {
    most: usize,
    bytes: usize,
    sum: u64,
}

impl Write for Taker {
    fn write(&mut self, buf: &[u8]) -> io::Result<usize> {
        let count = buf.len().min(self.most);
        for byte in &buf[..count] {
            self.sum = self.sum.wrapping_add(u64::from(*byte));
        }
        self.bytes = self.bytes.wrapping_add(count);
        Ok(count)
    }

    fn flush(&mut self) -> io::Result<()> {
        Ok(())
    }
}

/// A writer that has accepted nothing yet.
fn taking(most: usize) -> Taker {
    Taker {
        most,
        bytes: 0,
        sum: 0,
    }
}

/// Widths and heights up to the largest number of 32 bits: powers of ten and of two, and their neighbours.
const GREAT_DIMENSIONS: [u32; 15] = [
    65535,
    65536,
    65537,
    99_999,
    100_000,
    999_999,
    1_000_000,
    9_999_999,
    10_000_000,
    16_777_216,
    99_999_999,
    100_000_000,
    999_999_999,
    1_000_000_000,
    4_294_967_295,
];

/// Whether this many bytes of a text are sent in full to a writer that accepts at most `most` bytes per call. Each byte
/// is 1.
fn is_sent(text: &[u8], length: usize, most: usize) -> bool {
    let Some(prefix) = text.get(..length) else {
        return false;
    };
    let mut out = taking(most);
    send(&mut out, prefix).is_ok() && out.bytes == length && out.sum == length as u64
}

/// Whether a header for this size is written as ppm(5) requires.
fn is_header(alloc: Global, width: u32, height: u32) -> Result<bool, AllocError> {
    let want = format!(in alloc; "P6\n{width} {height}\n255\n")?;
    let mut text = Vec::new(alloc);
    Ok(write_header(&mut text, width, height).is_ok() && text.as_slice() == want.as_bytes())
}

/// Whether a grey band of this size is written row by row.
fn are_rows(alloc: Global, width: u32, rows: u32) -> bool {
    if width == 0 || 8192 < width || rows == 0 || 8192 < rows {
        return false;
    }
    let Ok(band) = Canvas::band(alloc, width, 8192 - rows, rows, Colour { r: 1, g: 1, b: 1 }) else {
        return false;
    };
    let mut out = taking(usize::MAX);
    let count = (width as usize).wrapping_mul(rows as usize).wrapping_mul(3);
    band.write_rows(&mut out).is_ok() && out.bytes == count && out.sum == count as u64
}

#[test]
fn a_text_of_each_length_is_sent(rt: HostRuntime) -> Result<(), AllocError> {
    let mut text = Vec::new(rt.alloc());
    text.resize(20_000, 1)?;
    for length in 0..20_001 {
        assert!(rt;
            is_sent(text.as_slice(), length, usize::MAX),
            "{length} bytes"
        );
    }
    for length in 0..3_000 {
        assert!(rt; is_sent(text.as_slice(), length, 1), "{length} bytes");
        assert!(rt; is_sent(text.as_slice(), length, 7), "{length} bytes");
        assert!(rt; is_sent(text.as_slice(), length, 1024), "{length} bytes");
    }
    Ok(())
}

#[test]
fn a_header_has_each_side(rt: HostRuntime) -> Result<(), AllocError> {
    for side in 0..10_002 {
        assert!(rt; is_header(rt.alloc(), side, 1)?, "{side} by 1");
        assert!(rt; is_header(rt.alloc(), 1, side)?, "1 by {side}");
        assert!(rt; is_header(rt.alloc(), side, side)?, "{side} by {side}");
    }
    for side in GREAT_DIMENSIONS {
        assert!(rt; is_header(rt.alloc(), side, 1)?, "{side} by 1");
        assert!(rt; is_header(rt.alloc(), 1, side)?, "1 by {side}");
    }
    Ok(())
}

#[test]
fn rows_of_each_width_and_of_each_count_are_written(rt: HostRuntime) {
    for side in 1..8193 {
        assert!(rt; are_rows(rt.alloc(), 1, side), "{side} rows");
        assert!(rt; are_rows(rt.alloc(), side, 1), "{side} columns");
    }
    for area in 0..4_096 {
        let width = area % 64 + 1;
        let rows = area / 64 + 1;
        assert!(rt; are_rows(rt.alloc(), width, rows), "{width} by {rows}");
    }
}
