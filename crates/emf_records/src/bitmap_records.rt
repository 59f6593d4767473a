//! Records with bitmaps ([MS-EMF] 2.3.1 and 2.3.7.4).

ghost use Rattle.std.specs.Prelude.{◌≡◌, ◌+◌, ◌≤◌, IsTrue, length};
ghost use Rattle.dib_views.specs.PictureOf.{dib_of};
ghost use Rattle.draw_ops.specs.Blits.{source_of};
ghost use Rattle.draw_ops.specs.RecordOf.{decoded_of};
ghost use Rattle.draw_ops.specs.Results.{result_map};
ghost use Rattle.emf_records.specs.BitmapRecords.{bit_blt, block_blit, block_dib, block_source, create_dib_pattern_brush_pt, dib_by_parts, dib_of_parts};
ghost use Rattle.emf_records.specs.BitmapRecords.{has_part, has_parts, part_at, part_end, stretch_blt, stretch_di_bits, stretch_source};

use crate::transform_records::is_identity_at;
use crate::types::{EMR_BITBLT, EMR_STRETCHBLT};
use dib_views::DibView;
use draw_ops::{
    BlitSource, Decoded, Handle, RecordFault, blit_meant, pattern_brush_meant, rgb_dib_in,
    source_as_stored, source_from_top, xy_at,
};
use mapping::Point;
use point_views::u32_at;

/// EMR_BITBLT (2.3.1.2): Bounds, xDest, yDest, cxDest, cyDest, BitBltRasterOperation, xSrc, ySrc, XformSrc, BkColorSrc,
/// UsageSrc, offBmiSrc, cbBmiSrc, offBitsSrc, cbBitsSrc. The source is as wide and as high as the rectangle, and
/// BkColorSrc is ignored.
pub(crate) fn bit_blt(bytes: &[u8]) -> Result<Decoded<'_>, RecordFault>
    ensures value { bit_blt bytes.entry.now ≡ result_map decoded_of result }
{
    if bytes.len() < 100 {
        return Err(RecordFault::BadParams);
    }
    block_blit(bytes, block_source(EMR_BITBLT, xy_at(bytes, 32), bytes))
}

/// EMR_STRETCHBLT (2.3.1.6): the fields of EMR_BITBLT, cxSrc, cySrc.
pub(crate) fn stretch_blt(bytes: &[u8]) -> Result<Decoded<'_>, RecordFault>
    ensures value { stretch_blt bytes.entry.now ≡ result_map decoded_of result }
{
    if bytes.len() < 108 {
        return Err(RecordFault::BadParams);
    }
    block_blit(
        bytes,
        block_source(EMR_STRETCHBLT, xy_at(bytes, 100), bytes),
    )
}

/// The blit of EMR_BITBLT or EMR_STRETCHBLT. Its source may be a fault.
#[tactic(auto, unfolding(crate::specs::BitmapRecords::block_blit))]
fn block_blit<'a>(
    bytes: &'a [u8],
    source: Result<BlitSource<'a>, RecordFault>,
) -> Result<Decoded<'a>, RecordFault>
    requires fields { 100 ≤ length bytes.now }
    ensures value { block_blit bytes.entry.now (result_map source_of source.entry) ≡ result_map decoded_of result }
{
    let corner = xy_at(bytes, 24);
    let extent = xy_at(bytes, 32);
    let code = u32_at(bytes, 40);
    blit_meant(corner, extent, code, source)
}

/// The source of EMR_BITBLT or EMR_STRETCHBLT. If cbBmiSrc is 0 there is no bitmap, and its other fields are ignored.
#[tactic(auto, unfolding(crate::specs::BitmapRecords::block_source))]
fn block_source(
    record_type: u32,
    extent: Point,
    bytes: &[u8],
) -> Result<BlitSource<'_>, RecordFault>
    requires { 100 ≤ length bytes.now }
    ensures value { block_source record_type extent bytes.entry.now ≡ result_map source_of result }
{
    if u32_at(bytes, 88) == 0 {
        return Ok(BlitSource::Missing);
    }
    source_from_top(xy_at(bytes, 44), extent, block_dib(record_type, bytes))
}

/// The bitmap of EMR_BITBLT or EMR_STRETCHBLT, or the first fault of its offsets, its transform, its usage and
/// itself.
#[tactic(auto, unfolding(crate::specs::BitmapRecords::block_dib))]
fn block_dib(record_type: u32, bytes: &[u8]) -> Result<DibView<'_>, RecordFault>
    requires { 100 ≤ length bytes.now }
    ensures value { block_dib record_type bytes.entry.now ≡ result_map dib_of result }
{
    if !has_parts(bytes, 84) {
        return Err(RecordFault::BadParams);
    }
    if !is_identity_at(bytes, 52) {
        return Err(RecordFault::Unsupported(record_type));
    }
    dib_of_parts(u32_at(bytes, 80), bytes, 84)
}

/// EMR_STRETCHDIBITS (2.3.1.7): Bounds, xDest, yDest, xSrc, ySrc, cxSrc, cySrc, offBmiSrc, cbBmiSrc, offBitsSrc,
/// cbBitsSrc, UsageSrc, BitBltRasterOperation, cxDest, cyDest.
pub(crate) fn stretch_di_bits(bytes: &[u8]) -> Result<Decoded<'_>, RecordFault>
    ensures value { stretch_di_bits bytes.entry.now ≡ result_map decoded_of result }
{
    if bytes.len() < 80 {
        return Err(RecordFault::BadParams);
    }
    let corner = xy_at(bytes, 24);
    let extent = xy_at(bytes, 72);
    let code = u32_at(bytes, 68);
    blit_meant(corner, extent, code, stretch_source(bytes))
}

/// The source of EMR_STRETCHDIBITS. If cbBmiSrc is 0 there is no bitmap, and its other fields are ignored.
#[tactic(auto, unfolding(crate::specs::BitmapRecords::stretch_source))]
fn stretch_source(bytes: &[u8]) -> Result<BlitSource<'_>, RecordFault>
    requires { 80 ≤ length bytes.now }
    ensures value { stretch_source bytes.entry.now ≡ result_map source_of result }
{
    if u32_at(bytes, 52) == 0 {
        return Ok(BlitSource::Missing);
    }
    let dib = dib_by_parts(u32_at(bytes, 64), bytes, 48);
    source_as_stored(xy_at(bytes, 32), xy_at(bytes, 40), dib)
}

/// EMR_CREATEDIBPATTERNBRUSHPT (2.3.7.4): ihBrush, Usage, offBmi, cbBmi, offBits, cbBits.
pub(crate) fn create_dib_pattern_brush_pt(bytes: &[u8]) -> Result<Decoded<'_>, RecordFault>
    ensures value { create_dib_pattern_brush_pt bytes.entry.now ≡ result_map decoded_of result }
{
    if bytes.len() < 32 {
        return Err(RecordFault::BadParams);
    }
    let at = Some(Handle(u32_at(bytes, 8)));
    pattern_brush_meant(at, dib_by_parts(u32_at(bytes, 12), bytes, 16))
}

/// A bitmap with a usage, whose header and colour table are one part of the record and whose rows are another. The
/// offsets and sizes of both are at `place`. A part that isn't in the record is `BadParams`.
#[tactic(auto, unfolding(crate::specs::BitmapRecords::dib_by_parts))]
fn dib_by_parts(usage: u32, bytes: &[u8], place: usize) -> Result<DibView<'_>, RecordFault>
    requires { place + 16 ≤ length bytes.now }
    ensures value { dib_by_parts usage bytes.entry.now place ≡ result_map dib_of result }
{
    if !has_parts(bytes, place) {
        return Err(RecordFault::BadParams);
    }
    dib_of_parts(usage, bytes, place)
}

/// The same for parts that are in the record.
#[tactic(auto, unfolding(crate::specs::BitmapRecords::dib_of_parts, crate::specs::BitmapRecords::has_parts))]
fn dib_of_parts(usage: u32, bytes: &[u8], place: usize) -> Result<DibView<'_>, RecordFault>
    requires reported { place + 16 ≤ length bytes.now }
    requires inside { IsTrue (has_parts bytes.now place) }
    ensures value { dib_of_parts usage bytes.entry.now place ≡ result_map dib_of result }
{
    let info = part_at(bytes, place);
    let bits = part_at(bytes, place + 8);
    rgb_dib_in(usage, info, bits)
}

/// Whether both parts, whose offsets and sizes are at `place`, are in the record.
#[tactic(auto, unfolding(crate::specs::BitmapRecords::has_parts))]
fn has_parts(bytes: &[u8], place: usize) -> bool
    requires { place + 16 ≤ length bytes.now }
    ensures { result ≡ has_parts bytes.now place }
{
    has_part(bytes, place) && has_part(bytes, place + 8)
}

/// Whether the part whose offset and size are at `place` is in the record. This applies to an empty part too.
fn has_part(bytes: &[u8], place: usize) -> bool
    requires { place + 8 ≤ length bytes.now }
    ensures { result ≡ has_part bytes.now place }
{
    part_end(bytes, place) <= bytes.len()
}

/// The bytes of that part.
fn part_at(bytes: &[u8], place: usize) -> &[u8]
    requires reported { place + 8 ≤ length bytes.now }
    requires inside { IsTrue (has_part bytes.now place) }
    ensures { result.now ≡ part_at bytes.entry.now place }
{
    let start = u32_at(bytes, place) as usize;
    &bytes[start..part_end(bytes, place)]
}

/// The end of the part whose offset and size are at `place`. It may be outside the record.
fn part_end(bytes: &[u8], place: usize) -> usize
    requires { place + 8 ≤ length bytes.now }
    ensures { result ≡ part_end bytes.now place }
{
    u32_at(bytes, place) as usize + u32_at(bytes, place + 4) as usize
}
