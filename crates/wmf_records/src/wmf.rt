//! The records of WMF: their framing, and what each means.

ghost use Rattle.std.specs.Prelude.{◌≡◌};
ghost use Rattle.draw_ops.specs.PrefixLaws.{HoldsItsFields};
ghost use Rattle.draw_ops.specs.RecordOf.{decoded_of};
ghost use Rattle.draw_ops.specs.Results.{result_map};
ghost use Rattle.wmf_records.specs.Framing.{wmf_framing};
ghost use Rattle.wmf_records.specs.NoteLaw.{NeverEmfPlus};
ghost use Rattle.wmf_records.specs.Wmf.{wmf_meaning, wmf_record};

use crate::bitmap_records::{
    dib_bit_blt, dib_create_pattern_brush, dib_stretch_blt, pat_blt, stretch_dib,
};
use crate::drawing_records::{line_to, poly_polygon, polygon, polyline, rectangle, set_pixel};
use crate::entry::{WmfEntry, entry_of};
use crate::functions::META_EOF;
use crate::object_records::{
    create_brush_indirect, create_pen_indirect, created, delete_object, select_object,
    select_palette,
};
use crate::state_records::{
    exclude_clip_rect, intersect_clip_rect, move_to, offset_viewport_org, offset_window_org,
    restore_dc, set_bk_color, set_bk_mode, set_layout, set_map_mode, set_poly_fill_mode, set_rop2,
    set_viewport_ext, set_viewport_org, set_window_ext, set_window_org,
};
use draw_ops::{Decoded, Format, Note, Object, Op, RawRecord, RecordFault, RecordOps};
use point_views::{u16_at, u32_at};

/// The number of bytes in a record's head: the size in words of two bytes, and the function.
const HEAD_LENGTH: usize = 6;

/// The records of WMF.
#[derive(Clone, Copy, Debug, PartialEq, Eq)]
pub struct Wmf;

/// A source over the bytes after a file's headers.
pub type WmfOps<'a> = RecordOps<'a, Wmf>;

impl Format for Wmf {
    ghost framing = { wmf_framing };

    ghost meaning = { wmf_meaning };

    fn head_length() -> usize {
        HEAD_LENGTH
    }

    fn size(bytes: &[u8]) -> usize {
        2 * u32_at(bytes, 0) as usize
    }

    fn may_be_size(size: usize) -> bool {
        HEAD_LENGTH <= size && size % 2 == 0
    }

    fn kind(bytes: &[u8]) -> u32 {
        u32::from(u16_at(bytes, 4))
    }

    fn end_kind() -> u32 {
        META_EOF
    }

    #[inline(never)]
    fn read(_number: u32, leading: RawRecord<'_>) -> Result<Decoded<'_>, RecordFault> {
        match entry_of(leading.kind) {
            Some(entry) => record(entry, leading.kind, leading.bytes),
            None => Err(RecordFault::UnknownRecord(leading.kind)),
        }
    }
}

/// What a record with this entry means, or its first fault.
#[tactic(auto, unfolding(crate::specs::Wmf::wmf_record))]
fn record(entry: WmfEntry, function: u32, bytes: &[u8]) -> Result<Decoded<'_>, RecordFault>
    ensures value { wmf_record entry function bytes.entry.now ≡ result_map decoded_of result }
{
    match entry {
        WmfEntry::DibBitBlt => dib_bit_blt(bytes),
        WmfEntry::DibStretchBlt => dib_stretch_blt(bytes),
        WmfEntry::StretchDib => stretch_dib(bytes),
        WmfEntry::Eof => Ok(Decoded::unnoted(Op::NoEffect)),
        WmfEntry::LineTo => line_to(bytes),
        WmfEntry::PatBlt => pat_blt(bytes),
        WmfEntry::Polyline => polyline(bytes),
        WmfEntry::Polygon => polygon(bytes),
        WmfEntry::PolyPolygon => poly_polygon(bytes),
        WmfEntry::Rectangle => rectangle(bytes),
        WmfEntry::SetPixel => set_pixel(bytes),
        WmfEntry::CreateBrushIndirect => create_brush_indirect(bytes),
        WmfEntry::CreateFontIndirect => created(Object::Font),
        WmfEntry::CreatePalette => created(Object::Palette),
        WmfEntry::CreatePenIndirect => create_pen_indirect(bytes),
        WmfEntry::DeleteObject => delete_object(bytes),
        WmfEntry::DibCreatePatternBrush => dib_create_pattern_brush(bytes),
        WmfEntry::SelectObject => select_object(bytes),
        WmfEntry::SelectPalette => select_palette(bytes),
        WmfEntry::ExcludeClipRect => exclude_clip_rect(bytes),
        WmfEntry::IntersectClipRect => intersect_clip_rect(bytes),
        WmfEntry::MoveTo => move_to(bytes),
        WmfEntry::OffsetViewportOrg => offset_viewport_org(bytes),
        WmfEntry::OffsetWindowOrg => offset_window_org(bytes),
        WmfEntry::RestoreDc => restore_dc(bytes),
        WmfEntry::SaveDc => Ok(Decoded::unnoted(Op::Save)),
        WmfEntry::SetBkColor => set_bk_color(bytes),
        WmfEntry::SetBkMode => set_bk_mode(bytes),
        WmfEntry::SetLayout => set_layout(bytes),
        WmfEntry::SetMapMode => set_map_mode(bytes),
        WmfEntry::SetPolyFillMode => set_poly_fill_mode(bytes),
        WmfEntry::SetRop2 => set_rop2(bytes),
        WmfEntry::SetViewportExt => set_viewport_ext(bytes),
        WmfEntry::SetViewportOrg => set_viewport_org(bytes),
        WmfEntry::SetWindowExt => set_window_ext(bytes),
        WmfEntry::SetWindowOrg => set_window_org(bytes),
        WmfEntry::Skipped => Ok(Decoded::noting(Note::Skipped, Op::NoEffect)),
        WmfEntry::Rejected => Err(RecordFault::Unsupported(function)),
    }
}

/// A law: the head of a record contains its size and its function. So bytes that spell records spell none if they are
/// cut short (`prefix_law`).
pub fn framing_law()
    ensures { HoldsItsFields wmf_framing }
{}

/// A law: no record of WMF is noted to contain EMF+.
pub fn note_law()
    ensures { NeverEmfPlus }
{}
