//! The records of EMF: their framing, and what each means.

ghost use Rattle.std.specs.Prelude.{◌≡◌};
ghost use Rattle.draw_ops.specs.PrefixLaws.{HoldsItsFields};
ghost use Rattle.draw_ops.specs.RecordOf.{decoded_of};
ghost use Rattle.draw_ops.specs.Results.{result_map};
ghost use Rattle.emf_records.specs.Emf.{emf_meaning, emf_record, header_record};
ghost use Rattle.emf_records.specs.Framing.{emf_framing};

use crate::bitmap_records::{bit_blt, create_dib_pattern_brush_pt, stretch_blt, stretch_di_bits};
use crate::drawing_records::{
    line_to, poly_polygon, poly_polyline, polygon, polyline, polyline_to, rectangle, set_pixel_v,
};
use crate::entry::{EmfEntry, entry_of};
use crate::object_records::{
    create, create_brush_indirect, create_pen, delete_object, ext_create_pen, select_object,
    select_palette,
};
use crate::state_records::{
    comment, exclude_clip_rect, ext_select_clip_rgn, intersect_clip_rect, move_to_ex, restore_dc,
    set_bk_color, set_bk_mode, set_layout, set_map_mode, set_poly_fill_mode, set_rop2,
    set_viewport_ext_ex, set_viewport_org_ex, set_window_ext_ex, set_window_org_ex,
};
use crate::transform_records::{modify_world_transform, set_world_transform};
use crate::types::{EMR_EOF, EMR_HEADER};
use draw_ops::{Decoded, Format, Note, Object, Op, RawRecord, RecordFault, RecordOps};
use point_views::{NumberWidth, u32_at};

/// The number of bytes in a record's head: the type, and the size in bytes.
const HEAD_LENGTH: usize = 8;

/// The records of EMF.
#[derive(Clone, Copy, Debug, PartialEq, Eq)]
pub struct Emf;

/// A source over a whole file, whose header is record 0.
pub type EmfOps<'a> = RecordOps<'a, Emf>;

impl Format for Emf {
    ghost framing = { emf_framing };

    ghost meaning = { emf_meaning };

    fn head_length() -> usize {
        HEAD_LENGTH
    }

    fn size(bytes: &[u8]) -> usize {
        u32_at(bytes, 4) as usize
    }

    fn may_be_size(size: usize) -> bool {
        HEAD_LENGTH <= size && size % 4 == 0
    }

    fn kind(bytes: &[u8]) -> u32 {
        u32_at(bytes, 0)
    }

    fn end_kind() -> u32 {
        EMR_EOF
    }

    #[inline(never)]
    fn read(number: u32, leading: RawRecord<'_>) -> Result<Decoded<'_>, RecordFault> {
        match entry_of(leading.kind) {
            Some(entry) => record(entry, number, leading.kind, leading.bytes),
            None => Err(RecordFault::UnknownRecord(leading.kind)),
        }
    }
}

/// EMR_HEADER (2.3.4.2): no effect as the first record, and not supported after it.
fn header<'a>(number: u32) -> Result<Decoded<'a>, RecordFault>
    ensures value { header_record number ≡ result_map decoded_of result }
{
    if number == 0 {
        Ok(Decoded::unnoted(Op::NoEffect))
    } else {
        Err(RecordFault::Unsupported(EMR_HEADER))
    }
}

/// What a record with this entry means, or its first fault.
#[tactic(auto, unfolding(crate::specs::Emf::emf_record))]
fn record(
    entry: EmfEntry,
    number: u32,
    record_type: u32,
    bytes: &[u8],
) -> Result<Decoded<'_>, RecordFault>
    ensures value { emf_record entry number record_type bytes.entry.now ≡ result_map decoded_of result }
{
    match entry {
        EmfEntry::BitBlt => bit_blt(bytes),
        EmfEntry::StretchBlt => stretch_blt(bytes),
        EmfEntry::StretchDiBits => stretch_di_bits(bytes),
        EmfEntry::ExcludeClipRect => exclude_clip_rect(bytes),
        EmfEntry::IntersectClipRect => intersect_clip_rect(bytes),
        EmfEntry::ExtSelectClipRgn => ext_select_clip_rgn(bytes),
        EmfEntry::Comment => comment(bytes),
        EmfEntry::Header => header(number),
        EmfEntry::Eof => Ok(Decoded::unnoted(Op::NoEffect)),
        EmfEntry::Polygon => polygon(NumberWidth::Long, bytes),
        EmfEntry::Polyline => polyline(NumberWidth::Long, bytes),
        EmfEntry::PolylineTo => polyline_to(NumberWidth::Long, bytes),
        EmfEntry::PolyPolyline => poly_polyline(NumberWidth::Long, bytes),
        EmfEntry::PolyPolygon => poly_polygon(NumberWidth::Long, bytes),
        EmfEntry::SetPixelV => set_pixel_v(bytes),
        EmfEntry::Rectangle => rectangle(bytes),
        EmfEntry::LineTo => line_to(bytes),
        EmfEntry::FillPath => Ok(Decoded::unnoted(Op::FillPath)),
        EmfEntry::StrokeAndFillPath => Ok(Decoded::unnoted(Op::StrokeAndFillPath)),
        EmfEntry::StrokePath => Ok(Decoded::unnoted(Op::StrokePath)),
        EmfEntry::Polygon16 => polygon(NumberWidth::Short, bytes),
        EmfEntry::Polyline16 => polyline(NumberWidth::Short, bytes),
        EmfEntry::PolylineTo16 => polyline_to(NumberWidth::Short, bytes),
        EmfEntry::PolyPolyline16 => poly_polyline(NumberWidth::Short, bytes),
        EmfEntry::PolyPolygon16 => poly_polygon(NumberWidth::Short, bytes),
        EmfEntry::SelectObject => select_object(bytes),
        EmfEntry::CreatePen => create_pen(bytes),
        EmfEntry::CreateBrushIndirect => create_brush_indirect(bytes),
        EmfEntry::DeleteObject => delete_object(bytes),
        EmfEntry::SelectPalette => select_palette(bytes),
        EmfEntry::CreateDibPatternBrushPt => create_dib_pattern_brush_pt(bytes),
        EmfEntry::CreatePalette => create(Object::Palette, bytes),
        EmfEntry::ExtCreateFontIndirectW => create(Object::Font, bytes),
        EmfEntry::ExtCreatePen => ext_create_pen(bytes),
        EmfEntry::BeginPath => Ok(Decoded::unnoted(Op::BeginPath)),
        EmfEntry::EndPath => Ok(Decoded::unnoted(Op::EndPath)),
        EmfEntry::CloseFigure => Ok(Decoded::unnoted(Op::CloseFigure)),
        EmfEntry::AbortPath => Ok(Decoded::unnoted(Op::AbortPath)),
        EmfEntry::SetWindowExtEx => set_window_ext_ex(bytes),
        EmfEntry::SetWindowOrgEx => set_window_org_ex(bytes),
        EmfEntry::SetViewportExtEx => set_viewport_ext_ex(bytes),
        EmfEntry::SetViewportOrgEx => set_viewport_org_ex(bytes),
        EmfEntry::SetMapMode => set_map_mode(bytes),
        EmfEntry::SetBkMode => set_bk_mode(bytes),
        EmfEntry::SetPolyFillMode => set_poly_fill_mode(bytes),
        EmfEntry::SetRop2 => set_rop2(bytes),
        EmfEntry::SetBkColor => set_bk_color(bytes),
        EmfEntry::MoveToEx => move_to_ex(bytes),
        EmfEntry::SaveDc => Ok(Decoded::unnoted(Op::Save)),
        EmfEntry::RestoreDc => restore_dc(bytes),
        EmfEntry::SetLayout => set_layout(bytes),
        EmfEntry::SetWorldTransform => set_world_transform(bytes),
        EmfEntry::ModifyWorldTransform => modify_world_transform(bytes),
        EmfEntry::Skipped => Ok(Decoded::noting(Note::Skipped, Op::NoEffect)),
        EmfEntry::Rejected => Err(RecordFault::Unsupported(record_type)),
    }
}

/// A law: the head of a record contains its size and its type. So bytes that spell records spell none if they are cut
/// short (`prefix_law`).
pub fn framing_law()
    ensures { HoldsItsFields emf_framing }
{}
