//! Reading a bitmap's header: BitmapInfoHeader ([MS-WMF] 2.2.2.3), or BitmapV4Header or BitmapV5Header, which
//! begin with it.

ghost use Rattle.std.specs.Prelude.{◌≡◌, ◌≤◌, length, IfOk};
ghost use Rattle.dib_views.specs.Headers.{dib_head, good_head, has_dib_dimensions, has_other_size, header_in, is_header_short};
ghost use Rattle.dib_views.specs.Pixels.{is_dib_side};

use crate::fault::DibFault;
use crate::shape::{BitCount, DibShape, RowOrder};
use point_views::{i32_at, u16_at, u32_at};

/// The greatest width or height of a bitmap, in pixels. This is our own limit.
const MAX_DIB_SIDE: u32 = 32_768;

/// The contents of a bitmap's header: the position of its colour table, in the bytes that begin with the header, and
/// the shape of its rows.
#[derive(Clone, Copy, Debug, PartialEq, Eq)]
pub(crate) struct DibHead {
    /// Where the table begins: after the header.
    pub table_start: usize,
    /// Where the table ends.
    pub table_end: usize,
    /// The size, the bits of a pixel and the order of the rows.
    pub shape: DibShape,
}

impl DibHead {
    ghost use Rattle.dib_views.specs.Headers.{IsGoodHead};

    /// The contents of the header in the first bytes, or its first fault. Doesn't check whether the table is complete.
    pub(crate) fn read(bytes: &[u8]) -> Result<DibHead, DibFault>
        ensures head { result ≡ dib_head bytes.now }
        ensures good { IfOk result IsGoodHead }
    {
        if has_other_size(bytes) {
            return Err(DibFault::BadDib);
        }
        if is_header_short(bytes) {
            return Err(DibFault::ShortDib);
        }
        if u32_at(bytes, 16) != 0 {
            return Err(DibFault::CompressedDib);
        }
        match BitCount::from_number(u16_at(bytes, 14)) {
            Some(bits) => DibHead::with_bits(bytes, bits),
            None => Err(DibFault::BadDib),
        }
    }

    /// The same for a header that is complete and uncompressed, with this many bits per pixel.
    fn with_bits(bytes: &[u8], bits: BitCount) -> Result<DibHead, DibFault>
        requires { 40 ≤ length bytes.now }
        ensures head { result ≡ good_head (header_in bytes.now) (Some bits) }
        ensures good { IfOk result IsGoodHead }
    {
        let width = i32_at(bytes, 4);
        let height = i32_at(bytes, 8);
        let used = u32_at(bytes, 32);
        if !has_dib_dimensions(width, height) || !bits.is_table_size(used) {
            return Err(DibFault::BadDib);
        }
        let table_start = u32_at(bytes, 0) as usize;
        Ok(DibHead {
            table_start,
            table_end: table_start + 4 * bits.table_entries(used) as usize,
            shape: DibShape {
                width: width.unsigned_abs() as u16,
                height: height.unsigned_abs() as u16,
                bits,
                order: RowOrder::of_height(height),
            },
        })
    }
}

/// Whether the header's size field is present and has an unknown value.
fn has_other_size(bytes: &[u8]) -> bool
    ensures { result ≡ has_other_size bytes.now }
{
    bytes.len() >= 4 && !matches!(u32_at(bytes, 0), 40 | 108 | 124)
}

/// Whether bytes of the header are missing.
fn is_header_short(bytes: &[u8]) -> bool
    ensures { result ≡ is_header_short bytes.now }
{
    bytes.len() < 40 || bytes.len() < u32_at(bytes, 0) as usize
}

/// Whether a bitmap may have this size: the height may be negative, the width may not.
fn has_dib_dimensions(width: i32, height: i32) -> bool
    ensures { result ≡ has_dib_dimensions width height }
{
    width >= 1 && is_dib_side(width.unsigned_abs()) && is_dib_side(height.unsigned_abs())
}

/// Whether a width or height is within the limits.
fn is_dib_side(side: u32) -> bool
    ensures { result ≡ is_dib_side side }
{
    1 <= side && side <= MAX_DIB_SIDE
}
