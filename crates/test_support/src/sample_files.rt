//! Files and certificates, written out byte by byte.

use mapping::Colour;
use std::alloc::{AllocError, Global};

/// A placeable file with the box (0,0,4,4), a red pixel at (2,1), and an end.
pub const DOT: &[u8] = b"\xd7\xcd\xc6\x9a\0\0\0\0\0\0\x04\0\x04\0\x60\0\0\0\0\0\x71\x57\
    \x01\0\x09\0\0\x03\x13\0\0\0\0\0\x07\0\0\0\0\0\
    \x07\0\0\0\x1f\x04\xff\0\0\0\x01\0\x02\0\x03\0\0\0\0\0";

/// The colour of its pixel.
pub const RED: Colour = Colour { r: 255, g: 0, b: 0 };

/// Its certificate for surfaces of at most 4 by 4: one write, and the point (2,1).
pub const DOT_CERT: &[u8] = b"MPC1\x04\0\0\0\x04\0\0\0\x01\0\0\0\0\0\0\0\
    \0\0\0\0\0\0\0\0\0\0\0\0\0\0\0\0\x01\0\0\0\
    \0\0\0\0\x02\0\0\0\x01\0\0\0\x02\0\0\0\x01\0\0\0";

/// A placeable file with the box (0,0,4,4), the polygon (0,0), (4,0), (0,4), and an end.
pub const TRI: &[u8] = b"\xd7\xcd\xc6\x9a\0\0\0\0\0\0\x04\0\x04\0\x60\0\0\0\0\0\x71\x57\
    \x01\0\x09\0\0\x03\x16\0\0\0\0\0\x0a\0\0\0\0\0\
    \x0a\0\0\0\x24\x03\x03\0\0\0\0\0\x04\0\0\0\0\0\x04\0\x03\0\0\0\0\0";

/// Its certificate for surfaces of at most 4 by 4: a fill and a stroke of 16 pixels each, three points, and the box
/// (0,0,4,4).
pub const TRI_CERT: &[u8] = b"MPC1\x04\0\0\0\x04\0\0\0\x20\0\0\0\0\0\0\0\
    \0\0\0\0\0\0\0\0\x03\0\0\0\0\0\0\0\x01\0\0\0\
    \0\0\0\0\0\0\0\0\0\0\0\0\x04\0\0\0\x04\0\0\0";

/// Bytes with other bytes from an offset on.
pub fn changed(
    alloc: Global,
    bytes: &[u8],
    place: usize,
    others: &[u8],
) -> Result<Vec<u8>, AllocError> {
    let mut changed = Vec::new(alloc);
    for (at, byte) in bytes.iter().enumerate() {
        let other = at.checked_sub(place).and_then(|k| others.get(k));
        changed.push(*other.unwrap_or(byte))?;
    }
    Ok(changed)
}
