//! Decodes records that create pens.

ghost use Rattle.std.specs.Prelude.{◌≡◌};
ghost use Rattle.draw_ops.specs.NoteSet.{notes_in};
ghost use Rattle.draw_ops.specs.Objects.{index_of};
ghost use Rattle.draw_ops.specs.PenRecords.{is_geometric, log_pen_ex_fields, log_pen_fields, pen_meant, pen_notes, pen_of, pen_style_of};
ghost use Rattle.draw_ops.specs.RecordOf.{decoded_of};
ghost use Rattle.draw_ops.specs.Results.{result_map};

use crate::format::Decoded;
use crate::note::Note;
use crate::note_set::NoteSet;
use crate::objects::{Handle, Object, Pen};
use crate::operation::Op;
use crate::record_fault::RecordFault;
use mapping::Colour;

/// The style of a pen's lines ([MS-WMF] 2.1.1.23).
#[derive(Clone, Copy, Debug, PartialEq, Eq)]
pub enum PenStyle {
    /// Without gaps: PS_SOLID, PS_INSIDEFRAME.
    Solid,
    /// With gaps, but played without them.
    Dashed,
    /// Nothing is drawn: PS_NULL.
    Null,
}

impl PenStyle {
    /// The style with this code, from its low four bits. `None` exactly if the standard has none.
    pub fn from_code(code: u32) -> Option<PenStyle>
        ensures { result ≡ pen_style_of code }
    {
        match code % 16 {
            0 => Some(PenStyle::Solid),
            1 => Some(PenStyle::Dashed),
            2 => Some(PenStyle::Dashed),
            3 => Some(PenStyle::Dashed),
            4 => Some(PenStyle::Dashed),
            5 => Some(PenStyle::Null),
            6 => Some(PenStyle::Solid),
            7 => Some(PenStyle::Dashed),
            8 => Some(PenStyle::Dashed),
            _ => None,
        }
    }
}

/// What a record says about a pen, except its colour.
#[derive(Clone, Copy, Debug, PartialEq, Eq)]
pub struct PenFields {
    /// The style of the lines.
    pub style: PenStyle,
    /// The width of the lines, in page units.
    pub width: u32,
    /// Whether to note a width above one unit.
    pub is_wide: bool,
}

/// The bit of a style that makes the width of an extended pen count in page units ([MS-EMF] 2.1.25).
const PS_GEOMETRIC: u32 = 0x0001_0000;

impl PenFields {
    /// The fields of a LogPen. `None` exactly if the standard has no such style. A negative width counts by its
    /// absolute value, and isn't noted.
    pub fn log_pen(style: u32, width: i32) -> Option<PenFields>
        ensures { result ≡ log_pen_fields style width }
    {
        Some(PenFields {
            style: PenStyle::from_code(style)?,
            width: width.unsigned_abs(),
            is_wide: 1 < width,
        })
    }

    /// The fields of a LogPenEx. `None` exactly if the standard has no such style. The width counts only if the pen is
    /// geometric, and isn't noted.
    pub fn log_pen_ex(style: u32, width: u32) -> Option<PenFields>
        ensures { result ≡ log_pen_ex_fields style width }
    {
        Some(PenFields {
            style: PenStyle::from_code(style)?,
            width: if is_geometric(style) { width } else { 0 },
            is_wide: false,
        })
    }

    /// The pen with these fields. The colour of a pen that draws nothing is ignored.
    pub fn pen(self, colour: Result<Colour, RecordFault>) -> Result<Pen, RecordFault>
        ensures value { result ≡ pen_of self colour }
    {
        match self.style {
            PenStyle::Null => Ok(Pen::Null),
            PenStyle::Solid | PenStyle::Dashed => Ok(Pen::Solid {
                width: self.width,
                colour: colour?,
            }),
        }
    }

    /// The notes of a pen with these fields.
    pub fn notes(self) -> NoteSet
        ensures { notes_in result ≡ pen_notes self }
    {
        match (self.style, self.is_wide) {
            (PenStyle::Null, _) => NoteSet::none(),
            (PenStyle::Solid, false) => NoteSet::none(),
            (PenStyle::Solid, true) => NoteSet::none().with(Note::WidePen),
            (PenStyle::Dashed, false) => NoteSet::none().with(Note::DashedPen),
            (PenStyle::Dashed, true) => NoteSet::none().with(Note::WidePen).with(Note::DashedPen),
        }
    }
}

/// Whether the code of a style has the bit of a geometric pen.
fn is_geometric(style: u32) -> bool
    ensures { result ≡ is_geometric style }
{
    style & PS_GEOMETRIC != 0
}

/// A pen with these fields, made at an index or at the lowest free one. `BadValue` if there are no fields because the
/// standard has no such style. Wide pens and dashed pens are noted.
pub fn pen_meant<'a>(
    at: Option<Handle>,
    fields: Option<PenFields>,
    colour: Result<Colour, RecordFault>,
) -> Result<Decoded<'a>, RecordFault>
    ensures value { pen_meant (index_of at) fields colour ≡ result_map decoded_of result }
{
    let Some(fields) = fields else {
        return Err(RecordFault::BadValue);
    };
    let pen = fields.pen(colour)?;
    Ok(Decoded {
        op: Op::Create {
            at,
            object: Object::Pen(pen),
        },
        notes: fields.notes(),
    })
}
