//! State records ([MS-WMF] 2.3.5).

ghost use Rattle.std.specs.Prelude.{◌≡◌};
ghost use Rattle.draw_ops.specs.Operation.{move_to, offset_viewport_origin, offset_window_origin};
ghost use Rattle.draw_ops.specs.Operation.{set_viewport_extent, set_viewport_origin, set_window_extent, set_window_origin};
ghost use Rattle.draw_ops.specs.RecordOf.{decoded_of};
ghost use Rattle.draw_ops.specs.Results.{result_map};
ghost use Rattle.wmf_records.specs.StateRecords.{exclude_clip_rect, intersect_clip_rect, point_in, point_record, restore_dc};
ghost use Rattle.wmf_records.specs.StateRecords.{set_bk_color, set_bk_mode, set_layout, set_map_mode_record, set_poly_fill_mode, set_rop2};

use crate::functions::META_SETLAYOUT;
use draw_ops::{
    Decoded, Note, Op, RecordFault, SavedState, background_mode_decoded, fill_mode_decoded,
    map_mode_meant, raster_op_decoded, reversed_box_at, rgb_at, yx_at,
};
use mapping::Point;
use point_views::{i16_at, u16_at};

/// META_EXCLUDECLIPRECT (2.3.5.2): Bottom, Right, Top, Left.
pub(crate) fn exclude_clip_rect(bytes: &[u8]) -> Result<Decoded<'_>, RecordFault>
    ensures value { exclude_clip_rect bytes.entry.now ≡ result_map decoded_of result }
{
    if bytes.len() < 14 {
        return Err(RecordFault::BadParams);
    }
    Ok(Decoded::unnoted(Op::ExcludeClip(reversed_box_at(bytes, 6))))
}

/// META_INTERSECTCLIPRECT (2.3.5.3): Bottom, Right, Top, Left.
pub(crate) fn intersect_clip_rect(bytes: &[u8]) -> Result<Decoded<'_>, RecordFault>
    ensures value { intersect_clip_rect bytes.entry.now ≡ result_map decoded_of result }
{
    if bytes.len() < 14 {
        return Err(RecordFault::BadParams);
    }
    Ok(Decoded::unnoted(Op::IntersectClip(reversed_box_at(bytes, 6))))
}

/// A record's point: y, x.
fn point(bytes: &[u8]) -> Result<Point, RecordFault>
    ensures value { point_in bytes.now ≡ result }
{
    if bytes.len() < 10 {
        return Err(RecordFault::BadParams);
    }
    Ok(yx_at(bytes, 6))
}

/// META_MOVETO (2.3.5.4): y, x.
pub(crate) fn move_to(bytes: &[u8]) -> Result<Decoded<'_>, RecordFault>
    ensures value { point_record move_to bytes.entry.now ≡ result_map decoded_of result }
{
    Ok(Decoded::unnoted(Op::MoveTo(point(bytes)?)))
}

/// META_OFFSETVIEWPORTORG (2.3.5.6): YOffset, XOffset.
pub(crate) fn offset_viewport_org(bytes: &[u8]) -> Result<Decoded<'_>, RecordFault>
    ensures value { point_record offset_viewport_origin bytes.entry.now ≡ result_map decoded_of result }
{
    Ok(Decoded::unnoted(Op::OffsetViewportOrigin(point(bytes)?)))
}

/// META_OFFSETWINDOWORG (2.3.5.7): YOffset, XOffset.
pub(crate) fn offset_window_org(bytes: &[u8]) -> Result<Decoded<'_>, RecordFault>
    ensures value { point_record offset_window_origin bytes.entry.now ≡ result_map decoded_of result }
{
    Ok(Decoded::unnoted(Op::OffsetWindowOrigin(point(bytes)?)))
}

/// META_RESTOREDC (2.3.5.10): nSavedDC.
pub(crate) fn restore_dc(bytes: &[u8]) -> Result<Decoded<'_>, RecordFault>
    ensures value { restore_dc bytes.entry.now ≡ result_map decoded_of result }
{
    if bytes.len() < 8 {
        return Err(RecordFault::BadParams);
    }
    let state = SavedState(i32::from(i16_at(bytes, 6)));
    Ok(Decoded::unnoted(Op::Restore(state)))
}

/// META_SETBKCOLOR (2.3.5.14): ColorRef.
pub(crate) fn set_bk_color(bytes: &[u8]) -> Result<Decoded<'_>, RecordFault>
    ensures value { set_bk_color bytes.entry.now ≡ result_map decoded_of result }
{
    if bytes.len() < 10 {
        return Err(RecordFault::BadParams);
    }
    Ok(Decoded::unnoted(Op::SetBackgroundColour(rgb_at(bytes, 6)?)))
}

/// META_SETBKMODE (2.3.5.15): BkMode.
pub(crate) fn set_bk_mode(bytes: &[u8]) -> Result<Decoded<'_>, RecordFault>
    ensures value { set_bk_mode bytes.entry.now ≡ result_map decoded_of result }
{
    if bytes.len() < 8 {
        return Err(RecordFault::BadParams);
    }
    background_mode_decoded(u32::from(u16_at(bytes, 6)))
}

/// META_SETLAYOUT (2.3.5.16): Layout.
pub(crate) fn set_layout(bytes: &[u8]) -> Result<Decoded<'_>, RecordFault>
    ensures value { set_layout bytes.entry.now ≡ result_map decoded_of result }
{
    if bytes.len() < 8 {
        return Err(RecordFault::BadParams);
    }
    if u16_at(bytes, 6) != 0 {
        return Err(RecordFault::Unsupported(META_SETLAYOUT));
    }
    Ok(Decoded::noting(Note::Skipped, Op::NoEffect))
}

/// META_SETMAPMODE (2.3.5.17): MapMode.
pub(crate) fn set_map_mode(bytes: &[u8]) -> Result<Decoded<'_>, RecordFault>
    ensures value { set_map_mode_record bytes.entry.now ≡ result_map decoded_of result }
{
    if bytes.len() < 8 {
        return Err(RecordFault::BadParams);
    }
    map_mode_meant(u32::from(u16_at(bytes, 6)))
}

/// META_SETPOLYFILLMODE (2.3.5.20): PolyFillMode.
pub(crate) fn set_poly_fill_mode(bytes: &[u8]) -> Result<Decoded<'_>, RecordFault>
    ensures value { set_poly_fill_mode bytes.entry.now ≡ result_map decoded_of result }
{
    if bytes.len() < 8 {
        return Err(RecordFault::BadParams);
    }
    fill_mode_decoded(u32::from(u16_at(bytes, 6)))
}

/// META_SETROP2 (2.3.5.22): DrawMode.
pub(crate) fn set_rop2(bytes: &[u8]) -> Result<Decoded<'_>, RecordFault>
    ensures value { set_rop2 bytes.entry.now ≡ result_map decoded_of result }
{
    if bytes.len() < 8 {
        return Err(RecordFault::BadParams);
    }
    raster_op_decoded(u32::from(u16_at(bytes, 6)))
}

/// META_SETVIEWPORTEXT (2.3.5.28): Y, X.
pub(crate) fn set_viewport_ext(bytes: &[u8]) -> Result<Decoded<'_>, RecordFault>
    ensures value { point_record set_viewport_extent bytes.entry.now ≡ result_map decoded_of result }
{
    Ok(Decoded::unnoted(Op::SetViewportExtent(point(bytes)?)))
}

/// META_SETVIEWPORTORG (2.3.5.29): Y, X.
pub(crate) fn set_viewport_org(bytes: &[u8]) -> Result<Decoded<'_>, RecordFault>
    ensures value { point_record set_viewport_origin bytes.entry.now ≡ result_map decoded_of result }
{
    Ok(Decoded::unnoted(Op::SetViewportOrigin(point(bytes)?)))
}

/// META_SETWINDOWEXT (2.3.5.30): Y, X.
pub(crate) fn set_window_ext(bytes: &[u8]) -> Result<Decoded<'_>, RecordFault>
    ensures value { point_record set_window_extent bytes.entry.now ≡ result_map decoded_of result }
{
    Ok(Decoded::unnoted(Op::SetWindowExtent(point(bytes)?)))
}

/// META_SETWINDOWORG (2.3.5.31): Y, X.
pub(crate) fn set_window_org(bytes: &[u8]) -> Result<Decoded<'_>, RecordFault>
    ensures value { point_record set_window_origin bytes.entry.now ≡ result_map decoded_of result }
{
    Ok(Decoded::unnoted(Op::SetWindowOrigin(point(bytes)?)))
}
