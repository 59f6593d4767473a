//! Object records ([MS-EMF] 2.3.7 and 2.3.8). Each object is made at the index that its record gives.

ghost use Rattle.std.specs.Prelude.{◌≡◌, ◌≤◌, length};
ghost use Rattle.draw_ops.specs.Objects.{object_value_of};
ghost use Rattle.draw_ops.specs.Operation.{delete, select, select_palette};
ghost use Rattle.draw_ops.specs.RecordOf.{decoded_of};
ghost use Rattle.draw_ops.specs.Results.{result_map};
ghost use Rattle.emf_records.specs.ObjectFields.{logpen_end, logpenex_end};
ghost use Rattle.emf_records.specs.ObjectRecords.{create_brush_indirect, create_pen, create_record, ext_create_pen, ext_pen_decoded, index_in, index_record, log_pen_ex_in, log_pen_in};

use crate::types::EMR_EXTCREATEPEN;
use draw_ops::{
    Decoded, Handle, Object, Op, Pen, PenFields, RecordFault, brush_meant, pen_meant, rgb_at,
};
use mapping::Colour;
use point_views::{i32_at, u32_at};

// The offsets of the fields in bytes from the start of a record, and the number of bytes that a record needs.

/// ihObject, ihPal, ihFonts, ihPen or ihBrush.
const OBJECT_INDEX: usize = 8;

const INDEX_END: usize = 12;

// EMR_CREATEPEN (2.3.7.7): its LogPen (2.2.19) is PenStyle, Width, which is a point whose y is ignored, and ColorRef.
const LOGPEN_STYLE: usize = 12;

const LOGPEN_WIDTH: usize = 16;

const LOGPEN_COLOR: usize = 24;

const LOGPEN_END: usize = 28;

// EMR_CREATEBRUSHINDIRECT (2.3.7.1): its LogBrushEx (2.2.12) is BrushStyle, Color and BrushHatch.
const LOGBRUSH_STYLE: usize = 12;

const LOGBRUSH_COLOR: usize = 16;

const LOGBRUSH_HATCH: usize = 20;

const LOGBRUSH_END: usize = 24;

// EMR_EXTCREATEPEN (2.3.7.9): offBmi, cbBmi, offBits and cbBits, then its LogPenEx (2.2.20), which is PenStyle, Width,
// BrushStyle, ColorRef, BrushHatch and NumStyleEntries.
const LOGPENEX_STYLE: usize = 28;

const LOGPENEX_WIDTH: usize = 32;

const LOGPENEX_BRUSH_STYLE: usize = 36;

const LOGPENEX_COLOR: usize = 40;

const LOGPENEX_END: usize = 52;

// The styles of the brush for the lines of an extended pen ([MS-WMF] 2.1.1.4).
const BS_SOLID: u32 = 0;

const BS_NULL: u32 = 1;

/// EMR_SELECTOBJECT: ihObject.
pub(crate) fn select_object(bytes: &[u8]) -> Result<Decoded<'_>, RecordFault>
    ensures value { index_record select bytes.entry.now ≡ result_map decoded_of result }
{
    Ok(Decoded::unnoted(Op::Select(index(bytes)?)))
}

/// EMR_DELETEOBJECT: ihObject.
pub(crate) fn delete_object(bytes: &[u8]) -> Result<Decoded<'_>, RecordFault>
    ensures value { index_record delete bytes.entry.now ≡ result_map decoded_of result }
{
    Ok(Decoded::unnoted(Op::Delete(index(bytes)?)))
}

/// EMR_SELECTPALETTE: ihPal.
pub(crate) fn select_palette(bytes: &[u8]) -> Result<Decoded<'_>, RecordFault>
    ensures value { index_record select_palette bytes.entry.now ≡ result_map decoded_of result }
{
    Ok(Decoded::unnoted(Op::SelectPalette(index(bytes)?)))
}

/// The index of an object.
fn index(bytes: &[u8]) -> Result<Handle, RecordFault>
    ensures value { index_in bytes.now ≡ result_map (λ handle. handle.0) result }
{
    if bytes.len() < INDEX_END {
        return Err(RecordFault::BadParams);
    }
    Ok(Handle(u32_at(bytes, OBJECT_INDEX)))
}

/// EMR_CREATEPALETTE: ihPal, and EMR_EXTCREATEFONTINDIRECTW: ihFonts. Their other fields are ignored.
pub(crate) fn create<'a>(object: Object<'a>, bytes: &'a [u8]) -> Result<Decoded<'a>, RecordFault>
    ensures value { create_record (object_value_of object.entry) bytes.entry.now ≡ result_map decoded_of result }
{
    let at = Some(index(bytes)?);
    Ok(Decoded::unnoted(Op::Create { at, object }))
}

/// EMR_CREATEPEN: ihPen, LogPen.
pub(crate) fn create_pen(bytes: &[u8]) -> Result<Decoded<'_>, RecordFault>
    ensures value { create_pen bytes.entry.now ≡ result_map decoded_of result }
{
    if bytes.len() < LOGPEN_END {
        return Err(RecordFault::BadParams);
    }
    let at = Some(Handle(u32_at(bytes, OBJECT_INDEX)));
    pen_meant(at, log_pen(bytes), rgb_at(bytes, LOGPEN_COLOR))
}

/// The fields of the pen of EMR_CREATEPEN.
fn log_pen(bytes: &[u8]) -> Option<PenFields>
    requires { logpen_end ≤ length bytes.now }
    ensures { result ≡ log_pen_in bytes.now }
{
    PenFields::log_pen(u32_at(bytes, LOGPEN_STYLE), i32_at(bytes, LOGPEN_WIDTH))
}

/// EMR_CREATEBRUSHINDIRECT: ihBrush, LogBrush.
pub(crate) fn create_brush_indirect(bytes: &[u8]) -> Result<Decoded<'_>, RecordFault>
    ensures value { create_brush_indirect bytes.entry.now ≡ result_map decoded_of result }
{
    if bytes.len() < LOGBRUSH_END {
        return Err(RecordFault::BadParams);
    }
    let at = Some(Handle(u32_at(bytes, OBJECT_INDEX)));
    let style = u32_at(bytes, LOGBRUSH_STYLE);
    let colour = rgb_at(bytes, LOGBRUSH_COLOR);
    let hatch = u32_at(bytes, LOGBRUSH_HATCH);
    brush_meant(at, style, colour, hatch)
}

/// EMR_EXTCREATEPEN: ihPen, offBmi, cbBmi, offBits, cbBits, elp. Bitmap, hatch and entries are ignored.
pub(crate) fn ext_create_pen(bytes: &[u8]) -> Result<Decoded<'_>, RecordFault>
    ensures value { ext_create_pen bytes.entry.now ≡ result_map decoded_of result }
{
    if bytes.len() < LOGPENEX_END {
        return Err(RecordFault::BadParams);
    }
    let at = Handle(u32_at(bytes, OBJECT_INDEX));
    let brush_style = u32_at(bytes, LOGPENEX_BRUSH_STYLE);
    let colour = rgb_at(bytes, LOGPENEX_COLOR);
    ext_pen_decoded(at, log_pen_ex(bytes), brush_style, colour)
}

/// The fields of the pen of EMR_EXTCREATEPEN.
fn log_pen_ex(bytes: &[u8]) -> Option<PenFields>
    requires { logpenex_end ≤ length bytes.now }
    ensures { result ≡ log_pen_ex_in bytes.now }
{
    PenFields::log_pen_ex(u32_at(bytes, LOGPENEX_STYLE), u32_at(bytes, LOGPENEX_WIDTH))
}

/// A pen with these fields, for whose lines a brush with this style is used.
fn ext_pen_decoded<'a>(
    at: Handle,
    fields: Option<PenFields>,
    brush_style: u32,
    colour: Result<Colour, RecordFault>,
) -> Result<Decoded<'a>, RecordFault>
    ensures value { ext_pen_decoded at.0 fields brush_style colour ≡ result_map decoded_of result }
{
    let Some(fields) = fields else {
        return Err(RecordFault::BadValue);
    };
    let pen = if brush_style == BS_SOLID {
        fields.pen(colour)?
    } else if brush_style == BS_NULL {
        Pen::Null
    } else {
        return Err(RecordFault::Unsupported(EMR_EXTCREATEPEN));
    };
    Ok(Decoded {
        op: Op::Create {
            at: Some(at),
            object: Object::Pen(pen),
        },
        notes: fields.notes(),
    })
}
