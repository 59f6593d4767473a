//! Records with bitmaps, and records that paint as those do ([MS-WMF] 2.3.1, 2.3.3.12 and 2.3.4.8).

ghost use Rattle.std.specs.Prelude.{◌≡◌, ◌+◌, ◌≤◌, length};
ghost use Rattle.dib_views.specs.PictureOf.{dib_of};
ghost use Rattle.draw_ops.specs.Blits.{source_of};
ghost use Rattle.draw_ops.specs.RecordOf.{decoded_of};
ghost use Rattle.draw_ops.specs.Results.{result_map};
ghost use Rattle.wmf_records.specs.BitmapRecords.{blit_to, dib_bit_blt, dib_bit_blt_with, dib_bit_blt_without, dib_create_pattern_brush};
ghost use Rattle.wmf_records.specs.BitmapRecords.{dib_stretch_blt, dib_stretch_blt_with, dib_stretch_blt_without, is_without_bitmap};
ghost use Rattle.wmf_records.specs.BitmapRecords.{pat_blt, pattern_dib, stretch_dib};

use crate::functions::{META_DIBBITBLT, META_DIBSTRETCHBLT};
use dib_views::DibView;
use draw_ops::{
    BlitSource, Decoded, RecordFault, blit_meant, dib_at, pattern_brush_meant, rgb_dib_at,
    source_as_stored, source_from_top, yx_at,
};
use point_views::{u16_at, u32_at};

/// The style of a brush with a bitmap as its pattern ([MS-WMF] 2.1.1.4).
const BS_PATTERN: u16 = 3;

/// The blit of a record that begins with its raster operation, and has height, width, y and x at an offset. Its source
/// may be a fault.
#[tactic(auto, unfolding(crate::specs::BitmapRecords::blit_to))]
fn blit_to<'a>(
    bytes: &'a [u8],
    place: usize,
    source: Result<BlitSource<'a>, RecordFault>,
) -> Result<Decoded<'a>, RecordFault>
    requires operation { 10 ≤ length bytes.now }
    requires rectangle { place + 8 ≤ length bytes.now }
    ensures value { blit_to bytes.entry.now place (result_map source_of source.entry) ≡ result_map decoded_of result }
{
    let code = u32_at(bytes, 6);
    let extent = yx_at(bytes, place);
    let corner = yx_at(bytes, place + 4);
    blit_meant(corner, extent, code, source)
}

/// META_PATBLT (2.3.3.12): RasterOperation, Height, Width, YLeft, XLeft.
pub(crate) fn pat_blt(bytes: &[u8]) -> Result<Decoded<'_>, RecordFault>
    ensures value { pat_blt bytes.entry.now ≡ result_map decoded_of result }
{
    if bytes.len() < 18 {
        return Err(RecordFault::BadParams);
    }
    blit_to(bytes, 10, Ok(BlitSource::Missing))
}

/// Whether a record whose bitmap is optional has none (2.3.1.2, 2.3.1.3): its size in words is then the function's high
/// byte plus 3.
fn is_without_bitmap(function: u32, bytes: &[u8]) -> bool
    ensures { result ≡ is_without_bitmap function bytes.now }
{
    bytes.len() == 2 * (function as usize / 0x100 + 3)
}

/// META_DIBBITBLT (2.3.1.2).
pub(crate) fn dib_bit_blt(bytes: &[u8]) -> Result<Decoded<'_>, RecordFault>
    ensures value { dib_bit_blt bytes.entry.now ≡ result_map decoded_of result }
{
    if is_without_bitmap(META_DIBBITBLT, bytes) {
        dib_bit_blt_without(bytes)
    } else {
        dib_bit_blt_with(bytes)
    }
}

/// META_DIBBITBLT with a bitmap (2.3.1.2.1): RasterOperation, YSrc, XSrc, Height, Width, YDest, XDest, Target. Height
/// and width apply to the source too.
fn dib_bit_blt_with(bytes: &[u8]) -> Result<Decoded<'_>, RecordFault>
    ensures value { dib_bit_blt_with bytes.entry.now ≡ result_map decoded_of result }
{
    if bytes.len() < 22 {
        return Err(RecordFault::BadParams);
    }
    let source = source_from_top(yx_at(bytes, 10), yx_at(bytes, 14), dib_at(bytes, 22));
    blit_to(bytes, 14, source)
}

/// META_DIBBITBLT without a bitmap (2.3.1.2.2): RasterOperation, YSrc, XSrc, Reserved, Height, Width, YDest, XDest.
fn dib_bit_blt_without(bytes: &[u8]) -> Result<Decoded<'_>, RecordFault>
    requires { 24 ≤ length bytes.now }
    ensures value { dib_bit_blt_without bytes.entry.now ≡ result_map decoded_of result }
{
    blit_to(bytes, 16, Ok(BlitSource::Missing))
}

/// META_DIBSTRETCHBLT (2.3.1.3).
pub(crate) fn dib_stretch_blt(bytes: &[u8]) -> Result<Decoded<'_>, RecordFault>
    ensures value { dib_stretch_blt bytes.entry.now ≡ result_map decoded_of result }
{
    if is_without_bitmap(META_DIBSTRETCHBLT, bytes) {
        dib_stretch_blt_without(bytes)
    } else {
        dib_stretch_blt_with(bytes)
    }
}

/// META_DIBSTRETCHBLT with a bitmap (2.3.1.3.1): RasterOperation, SrcHeight, SrcWidth, YSrc, XSrc, DestHeight,
/// DestWidth, YDest, XDest, Target.
fn dib_stretch_blt_with(bytes: &[u8]) -> Result<Decoded<'_>, RecordFault>
    ensures value { dib_stretch_blt_with bytes.entry.now ≡ result_map decoded_of result }
{
    if bytes.len() < 26 {
        return Err(RecordFault::BadParams);
    }
    let source = source_from_top(yx_at(bytes, 14), yx_at(bytes, 10), dib_at(bytes, 26));
    blit_to(bytes, 18, source)
}

/// META_DIBSTRETCHBLT without a bitmap (2.3.1.3.2): RasterOperation, SrcHeight, SrcWidth, YSrc, XSrc, Reserved,
/// DestHeight, DestWidth, YDest, XDest.
fn dib_stretch_blt_without(bytes: &[u8]) -> Result<Decoded<'_>, RecordFault>
    requires { 28 ≤ length bytes.now }
    ensures value { dib_stretch_blt_without bytes.entry.now ≡ result_map decoded_of result }
{
    blit_to(bytes, 20, Ok(BlitSource::Missing))
}

/// META_STRETCHDIB (2.3.1.6): RasterOperation, ColorUsage, SrcHeight, SrcWidth, YSrc, XSrc, DestHeight, DestWidth,
/// yDst, xDst, DIB.
pub(crate) fn stretch_dib(bytes: &[u8]) -> Result<Decoded<'_>, RecordFault>
    ensures value { stretch_dib bytes.entry.now ≡ result_map decoded_of result }
{
    if bytes.len() < 28 {
        return Err(RecordFault::BadParams);
    }
    let dib = rgb_dib_at(u32::from(u16_at(bytes, 10)), bytes, 28);
    let source = source_as_stored(yx_at(bytes, 16), yx_at(bytes, 12), dib);
    blit_to(bytes, 20, source)
}

/// META_DIBCREATEPATTERNBRUSH (2.3.4.8): Style, ColorUsage, Target. The brush is made at the lowest free index.
pub(crate) fn dib_create_pattern_brush(bytes: &[u8]) -> Result<Decoded<'_>, RecordFault>
    ensures value { dib_create_pattern_brush bytes.entry.now ≡ result_map decoded_of result }
{
    if bytes.len() < 10 {
        return Err(RecordFault::BadParams);
    }
    pattern_brush_meant(None, pattern_dib(bytes))
}

/// The bitmap of META_DIBCREATEPATTERNBRUSH. It is read whatever the style is; for BS_PATTERN the usage is ignored.
fn pattern_dib(bytes: &[u8]) -> Result<DibView<'_>, RecordFault>
    requires { 10 ≤ length bytes.now }
    ensures value { pattern_dib bytes.entry.now ≡ result_map dib_of result }
{
    if u16_at(bytes, 6) == BS_PATTERN {
        dib_at(bytes, 10)
    } else {
        rgb_dib_at(u32::from(u16_at(bytes, 8)), bytes, 10)
    }
}
