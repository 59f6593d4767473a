//! Object records ([MS-WMF] 2.3.4). Each object is made at the lowest free index.

ghost use Rattle.std.specs.Prelude.{◌≡◌, ◌≤◌, Ok, length};
ghost use Rattle.draw_ops.specs.Objects.{object_value_of};
ghost use Rattle.draw_ops.specs.Operation.{delete, select, select_palette};
ghost use Rattle.draw_ops.specs.RecordOf.{decoded_of};
ghost use Rattle.draw_ops.specs.Results.{result_map};
ghost use Rattle.wmf_records.specs.ObjectFields.{pen_end};
ghost use Rattle.wmf_records.specs.ObjectRecords.{create_brush_indirect, create_pen_indirect, created, index_in, index_record, pen_in};

use draw_ops::{
    Decoded, Handle, Object, Op, PenFields, RecordFault, brush_meant, pen_meant, rgb_at,
};
use point_views::{i16_at, u16_at};

// The offsets of the fields in bytes from the start of a record, and the number of bytes that a record needs.

/// ObjectIndex or Palette.
const OBJECT_INDEX: usize = 6;

const INDEX_END: usize = 8;

// META_CREATEBRUSHINDIRECT (2.3.4.1): its LogBrush (2.2.2.10) is BrushStyle, ColorRef and BrushHatch.
const LOGBRUSH_STYLE: usize = 6;

const LOGBRUSH_COLOR: usize = 8;

const LOGBRUSH_HATCH: usize = 12;

const LOGBRUSH_END: usize = 14;

// META_CREATEPENINDIRECT (2.3.4.5): its Pen (2.2.1.4) is PenStyle, Width, which is a point whose y is ignored, and
// ColorRef.
const PEN_STYLE: usize = 6;

const PEN_WIDTH: usize = 8;

const PEN_COLOR: usize = 12;

const PEN_END: usize = 16;

/// META_CREATEBRUSHINDIRECT: LogBrush.
pub(crate) fn create_brush_indirect(bytes: &[u8]) -> Result<Decoded<'_>, RecordFault>
    ensures value { create_brush_indirect bytes.entry.now ≡ result_map decoded_of result }
{
    if bytes.len() < LOGBRUSH_END {
        return Err(RecordFault::BadParams);
    }
    let style = u32::from(u16_at(bytes, LOGBRUSH_STYLE));
    let colour = rgb_at(bytes, LOGBRUSH_COLOR);
    let hatch = u32::from(u16_at(bytes, LOGBRUSH_HATCH));
    brush_meant(None, style, colour, hatch)
}

/// META_CREATEPENINDIRECT: Pen.
pub(crate) fn create_pen_indirect(bytes: &[u8]) -> Result<Decoded<'_>, RecordFault>
    ensures value { create_pen_indirect bytes.entry.now ≡ result_map decoded_of result }
{
    if bytes.len() < PEN_END {
        return Err(RecordFault::BadParams);
    }
    pen_meant(None, pen(bytes), rgb_at(bytes, PEN_COLOR))
}

/// The fields of the pen of META_CREATEPENINDIRECT.
fn pen(bytes: &[u8]) -> Option<PenFields>
    requires { pen_end ≤ length bytes.now }
    ensures { result ≡ pen_in bytes.now }
{
    let style = u32::from(u16_at(bytes, PEN_STYLE));
    let width = i32::from(i16_at(bytes, PEN_WIDTH));
    PenFields::log_pen(style, width)
}

/// META_CREATEFONTINDIRECT (2.3.4.2) and META_CREATEPALETTE (2.3.4.3): their contents are ignored.
pub(crate) fn created<'a>(object: Object<'a>) -> Result<Decoded<'a>, RecordFault>
    ensures value { Ok (created (object_value_of object.entry)) ≡ result_map decoded_of result }
{
    Ok(Decoded::unnoted(Op::Create { at: None, object }))
}

/// META_DELETEOBJECT (2.3.4.7): ObjectIndex.
pub(crate) fn delete_object(bytes: &[u8]) -> Result<Decoded<'_>, RecordFault>
    ensures value { index_record delete bytes.entry.now ≡ result_map decoded_of result }
{
    Ok(Decoded::unnoted(Op::Delete(index(bytes)?)))
}

/// META_SELECTOBJECT (2.3.4.10): ObjectIndex.
pub(crate) fn select_object(bytes: &[u8]) -> Result<Decoded<'_>, RecordFault>
    ensures value { index_record select bytes.entry.now ≡ result_map decoded_of result }
{
    Ok(Decoded::unnoted(Op::Select(index(bytes)?)))
}

/// META_SELECTPALETTE (2.3.4.11): Palette.
pub(crate) fn select_palette(bytes: &[u8]) -> Result<Decoded<'_>, RecordFault>
    ensures value { index_record select_palette bytes.entry.now ≡ result_map decoded_of result }
{
    Ok(Decoded::unnoted(Op::SelectPalette(index(bytes)?)))
}

/// The index of an object.
fn index(bytes: &[u8]) -> Result<Handle, RecordFault>
    ensures value { index_in bytes.now ≡ result_map (λ handle. handle.0) result }
{
    if bytes.len() < INDEX_END {
        return Err(RecordFault::BadParams);
    }
    Ok(Handle(u32::from(u16_at(bytes, OBJECT_INDEX))))
}
