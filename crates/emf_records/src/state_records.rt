//! Clipping, comment and state records ([MS-EMF] 2.3.2, 2.3.3 and 2.3.11).

ghost use Rattle.std.specs.Prelude.{◌≡◌};
ghost use Rattle.draw_ops.specs.Operation.{move_to, set_viewport_extent, set_viewport_origin, set_window_extent, set_window_origin};
ghost use Rattle.draw_ops.specs.RecordOf.{decoded_of};
ghost use Rattle.draw_ops.specs.Results.{result_map};
ghost use Rattle.emf_records.specs.StateRecords.{comment, exclude_clip_rect, ext_select_clip_rgn, intersect_clip_rect, point_in, point_record};
ghost use Rattle.emf_records.specs.StateRecords.{restore_dc, set_bk_color, set_bk_mode, set_layout, set_map_mode_record, set_poly_fill_mode, set_rop2};

use crate::types::{EMR_EXTSELECTCLIPRGN, EMR_SETLAYOUT};
use draw_ops::{
    Decoded, Note, Op, RecordFault, SavedState, background_mode_decoded, box_at, fill_mode_decoded,
    map_mode_meant, raster_op_decoded, rgb_at, xy_at,
};
use mapping::Point;
use point_views::{i32_at, u32_at};

/// The mode that replaces the clip by a region ([MS-EMF] 2.1.29).
const RGN_COPY: u32 = 5;

/// The first four bytes of an EMF+ comment ([MS-EMF] 2.3.3.2), as a number.
const EMF_PLUS: u32 = 0x2b464d45;

/// EMR_EXCLUDECLIPRECT: Clip.
pub(crate) fn exclude_clip_rect(bytes: &[u8]) -> Result<Decoded<'_>, RecordFault>
    ensures value { exclude_clip_rect bytes.entry.now ≡ result_map decoded_of result }
{
    if bytes.len() < 24 {
        return Err(RecordFault::BadParams);
    }
    Ok(Decoded::unnoted(Op::ExcludeClip(box_at(bytes, 8))))
}

/// EMR_INTERSECTCLIPRECT: Clip.
pub(crate) fn intersect_clip_rect(bytes: &[u8]) -> Result<Decoded<'_>, RecordFault>
    ensures value { intersect_clip_rect bytes.entry.now ≡ result_map decoded_of result }
{
    if bytes.len() < 24 {
        return Err(RecordFault::BadParams);
    }
    Ok(Decoded::unnoted(Op::IntersectClip(box_at(bytes, 8))))
}

/// EMR_EXTSELECTCLIPRGN: RgnDataSize, RegionMode. Only a record that removes the clip is supported.
pub(crate) fn ext_select_clip_rgn(bytes: &[u8]) -> Result<Decoded<'_>, RecordFault>
    ensures value { ext_select_clip_rgn bytes.entry.now ≡ result_map decoded_of result }
{
    if bytes.len() < 16 {
        return Err(RecordFault::BadParams);
    }
    if u32_at(bytes, 8) == 0 && u32_at(bytes, 12) == RGN_COPY {
        Ok(Decoded::unnoted(Op::RemoveClip))
    } else {
        Err(RecordFault::Unsupported(EMR_EXTSELECTCLIPRGN))
    }
}

/// EMR_COMMENT: DataSize, which is ignored, and the comment.
pub(crate) fn comment(bytes: &[u8]) -> Result<Decoded<'_>, RecordFault>
    ensures value { comment bytes.entry.now ≡ result_map decoded_of result }
{
    if 16 <= bytes.len() && u32_at(bytes, 12) == EMF_PLUS {
        Ok(Decoded::noting(Note::EmfPlus, Op::NoEffect))
    } else {
        Ok(Decoded::noting(Note::Skipped, Op::NoEffect))
    }
}

/// A record's point: x, y.
fn point(bytes: &[u8]) -> Result<Point, RecordFault>
    ensures value { point_in bytes.now ≡ result }
{
    if bytes.len() < 16 {
        return Err(RecordFault::BadParams);
    }
    Ok(xy_at(bytes, 8))
}

/// EMR_SETWINDOWEXTEX: Extent.
pub(crate) fn set_window_ext_ex(bytes: &[u8]) -> Result<Decoded<'_>, RecordFault>
    ensures value { point_record set_window_extent bytes.entry.now ≡ result_map decoded_of result }
{
    Ok(Decoded::unnoted(Op::SetWindowExtent(point(bytes)?)))
}

/// EMR_SETWINDOWORGEX: Origin.
pub(crate) fn set_window_org_ex(bytes: &[u8]) -> Result<Decoded<'_>, RecordFault>
    ensures value { point_record set_window_origin bytes.entry.now ≡ result_map decoded_of result }
{
    Ok(Decoded::unnoted(Op::SetWindowOrigin(point(bytes)?)))
}

/// EMR_SETVIEWPORTEXTEX: Extent.
pub(crate) fn set_viewport_ext_ex(bytes: &[u8]) -> Result<Decoded<'_>, RecordFault>
    ensures value { point_record set_viewport_extent bytes.entry.now ≡ result_map decoded_of result }
{
    Ok(Decoded::unnoted(Op::SetViewportExtent(point(bytes)?)))
}

/// EMR_SETVIEWPORTORGEX: Origin.
pub(crate) fn set_viewport_org_ex(bytes: &[u8]) -> Result<Decoded<'_>, RecordFault>
    ensures value { point_record set_viewport_origin bytes.entry.now ≡ result_map decoded_of result }
{
    Ok(Decoded::unnoted(Op::SetViewportOrigin(point(bytes)?)))
}

/// EMR_MOVETOEX: Offset.
pub(crate) fn move_to_ex(bytes: &[u8]) -> Result<Decoded<'_>, RecordFault>
    ensures value { point_record move_to bytes.entry.now ≡ result_map decoded_of result }
{
    Ok(Decoded::unnoted(Op::MoveTo(point(bytes)?)))
}

/// EMR_RESTOREDC: SavedDC.
pub(crate) fn restore_dc(bytes: &[u8]) -> Result<Decoded<'_>, RecordFault>
    ensures value { restore_dc bytes.entry.now ≡ result_map decoded_of result }
{
    if bytes.len() < 12 {
        return Err(RecordFault::BadParams);
    }
    Ok(Decoded::unnoted(Op::Restore(SavedState(i32_at(bytes, 8)))))
}

/// EMR_SETBKCOLOR: Color.
pub(crate) fn set_bk_color(bytes: &[u8]) -> Result<Decoded<'_>, RecordFault>
    ensures value { set_bk_color bytes.entry.now ≡ result_map decoded_of result }
{
    if bytes.len() < 12 {
        return Err(RecordFault::BadParams);
    }
    Ok(Decoded::unnoted(Op::SetBackgroundColour(rgb_at(bytes, 8)?)))
}

/// EMR_SETBKMODE: BackgroundMode.
pub(crate) fn set_bk_mode(bytes: &[u8]) -> Result<Decoded<'_>, RecordFault>
    ensures value { set_bk_mode bytes.entry.now ≡ result_map decoded_of result }
{
    if bytes.len() < 12 {
        return Err(RecordFault::BadParams);
    }
    background_mode_decoded(u32_at(bytes, 8))
}

/// EMR_SETMAPMODE: MapMode.
pub(crate) fn set_map_mode(bytes: &[u8]) -> Result<Decoded<'_>, RecordFault>
    ensures value { set_map_mode_record bytes.entry.now ≡ result_map decoded_of result }
{
    if bytes.len() < 12 {
        return Err(RecordFault::BadParams);
    }
    map_mode_meant(u32_at(bytes, 8))
}

/// EMR_SETPOLYFILLMODE: PolygonFillMode.
pub(crate) fn set_poly_fill_mode(bytes: &[u8]) -> Result<Decoded<'_>, RecordFault>
    ensures value { set_poly_fill_mode bytes.entry.now ≡ result_map decoded_of result }
{
    if bytes.len() < 12 {
        return Err(RecordFault::BadParams);
    }
    fill_mode_decoded(u32_at(bytes, 8))
}

/// EMR_SETROP2: ROP2Mode.
pub(crate) fn set_rop2(bytes: &[u8]) -> Result<Decoded<'_>, RecordFault>
    ensures value { set_rop2 bytes.entry.now ≡ result_map decoded_of result }
{
    if bytes.len() < 12 {
        return Err(RecordFault::BadParams);
    }
    raster_op_decoded(u32_at(bytes, 8))
}

/// EMR_SETLAYOUT: LayoutMode.
pub(crate) fn set_layout(bytes: &[u8]) -> Result<Decoded<'_>, RecordFault>
    ensures value { set_layout bytes.entry.now ≡ result_map decoded_of result }
{
    if bytes.len() < 12 {
        return Err(RecordFault::BadParams);
    }
    if u32_at(bytes, 8) != 0 {
        return Err(RecordFault::Unsupported(EMR_SETLAYOUT));
    }
    Ok(Decoded::unnoted(Op::NoEffect))
}
