//! What records with bitmaps share: reading a bitmap, and making blits and brushes with it.

ghost use Rattle.std.specs.Prelude.{◌≡◌, ◌≤◌, length};
ghost use Rattle.dib_views.specs.PictureOf.{dib_of};
ghost use Rattle.draw_ops.specs.BitmapRecords.{blit_meant, dib_at, dib_in, fault_of_dib, needs_rgb, pattern_brush_meant};
ghost use Rattle.draw_ops.specs.BitmapRecords.{source_as_stored, source_from_top};
ghost use Rattle.draw_ops.specs.Blits.{source_of};
ghost use Rattle.draw_ops.specs.Objects.{index_of};
ghost use Rattle.draw_ops.specs.RecordOf.{decoded_of};
ghost use Rattle.draw_ops.specs.Results.{result_map};

use crate::blits::{Blit, BlitSource, SourceRectangle};
use crate::format::Decoded;
use crate::objects::{Brush, Handle, Object};
use crate::operation::Op;
use crate::record_fault::RecordFault;
use crate::ternary_op::TernaryOp;
use dib_views::{DibFault, DibView, RowOrder};
use mapping::Point;

/// The usage of a bitmap whose colours are given as red, green and blue ([MS-WMF] 2.1.1.6, [MS-EMF] 2.1.9).
const DIB_RGB_COLORS: u32 = 0;

/// The fault of a record whose bitmap has this fault.
fn fault_of_dib(fault: DibFault) -> RecordFault
    ensures value { result ≡ fault_of_dib fault }
{
    match fault {
        DibFault::BadDib => RecordFault::BadDib,
        DibFault::CompressedDib => RecordFault::CompressedDib,
        DibFault::ShortDib => RecordFault::ShortDib,
    }
}

/// The packed bitmap in a record, from an offset on, or its first fault.
#[tactic(auto, unfolding(crate::specs::BitmapRecords::dib_at))]
pub fn dib_at(bytes: &[u8], place: usize) -> Result<DibView<'_>, RecordFault>
    requires { place ≤ length bytes.now }
    ensures value { dib_at bytes.entry.now place ≡ result_map dib_of result }
{
    match DibView::packed(&bytes[place..]) {
        Ok(dib) => Ok(dib),
        Err(fault) => Err(fault_of_dib(fault)),
    }
}

/// The same for a bitmap with a usage: `PaletteColour` if its colours come from a palette.
pub fn rgb_dib_at(usage: u32, bytes: &[u8], place: usize) -> Result<DibView<'_>, RecordFault>
    requires { place ≤ length bytes.now }
    ensures value { needs_rgb usage (dib_at bytes.entry.now place) ≡ result_map dib_of result }
{
    if usage != DIB_RGB_COLORS {
        return Err(RecordFault::PaletteColour);
    }
    dib_at(bytes, place)
}

/// The bitmap whose header and colour table are one part of a record and whose rows are another, or its first fault. It
/// is `PaletteColour` if the usage says that its colours come from a palette.
#[tactic(auto, unfolding(crate::specs::BitmapRecords::dib_in))]
pub fn rgb_dib_in<'a>(
    usage: u32,
    info: &'a [u8],
    bits: &'a [u8],
) -> Result<DibView<'a>, RecordFault>
    ensures value { needs_rgb usage (dib_in info.entry.now bits.entry.now) ≡ result_map dib_of result }
{
    if usage != DIB_RGB_COLORS {
        return Err(RecordFault::PaletteColour);
    }
    match DibView::parts(info, bits) {
        Ok(dib) => Ok(dib),
        Err(fault) => Err(fault_of_dib(fault)),
    }
}

/// A rectangle of a bitmap, by a corner and the extent from there, in pixels. Its rows are counted from the top of the
/// picture. The bitmap may be a fault.
#[tactic(auto, unfolding(crate::specs::BitmapRecords::source_from_top))]
pub fn source_from_top<'a>(
    corner: Point,
    extent: Point,
    dib: Result<DibView<'a>, RecordFault>,
) -> Result<BlitSource<'a>, RecordFault>
    ensures value { source_from_top corner extent (result_map dib_of dib.entry) ≡ result_map source_of result }
{
    let picture = dib?;
    Ok(BlitSource::FromTop(SourceRectangle {
        picture,
        corner,
        extent,
    }))
}

/// A rectangle of a bitmap, by a corner and the extent from there, in pixels. Its rows are counted from the one that is
/// stored first, which is the bottom or the top row of the picture. The bitmap may be a fault.
#[tactic(auto, unfolding(crate::specs::BitmapRecords::source_as_stored))]
pub fn source_as_stored<'a>(
    corner: Point,
    extent: Point,
    dib: Result<DibView<'a>, RecordFault>,
) -> Result<BlitSource<'a>, RecordFault>
    ensures value { source_as_stored corner extent (result_map dib_of dib.entry) ≡ result_map source_of result }
{
    let picture = dib?;
    let rectangle = SourceRectangle {
        picture,
        corner,
        extent,
    };
    match picture.order() {
        RowOrder::BottomUp => Ok(BlitSource::FromBottom(rectangle)),
        RowOrder::TopDown => Ok(BlitSource::FromTop(rectangle)),
    }
}

/// A blit to a rectangle, by a corner and the extent from there, in page units. The code of its ternary raster
/// operation may be any number; its source may be a fault.
#[tactic(auto, unfolding(crate::specs::BitmapRecords::blit_meant))]
pub fn blit_meant<'a>(
    corner: Point,
    extent: Point,
    code: u32,
    source: Result<BlitSource<'a>, RecordFault>,
) -> Result<Decoded<'a>, RecordFault>
    ensures value { blit_meant corner extent code (result_map source_of source.entry) ≡ result_map decoded_of result }
{
    let source = source?;
    Ok(Decoded::unnoted(Op::Blit(Blit {
        corner,
        extent,
        operation: TernaryOp::from_code(code),
        source,
    })))
}

/// A brush that repeats a bitmap, made at an index or at the lowest free one. The bitmap may be a fault.
#[tactic(auto, unfolding(crate::specs::BitmapRecords::pattern_brush_meant))]
pub fn pattern_brush_meant<'a>(
    at: Option<Handle>,
    dib: Result<DibView<'a>, RecordFault>,
) -> Result<Decoded<'a>, RecordFault>
    ensures value { pattern_brush_meant (index_of at) (result_map dib_of dib.entry) ≡ result_map decoded_of result }
{
    let picture = dib?;
    Ok(Decoded::unnoted(Op::Create {
        at,
        object: Object::Brush(Brush::Tiled(picture)),
    }))
}
