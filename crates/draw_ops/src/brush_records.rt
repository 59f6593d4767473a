//! Decodes records that create brushes.

ghost use Rattle.std.specs.Prelude.{◌≡◌};
ghost use Rattle.draw_ops.specs.BrushRecords.{brush_meant, brush_of};
ghost use Rattle.draw_ops.specs.Objects.{brush_value_of, index_of};
ghost use Rattle.draw_ops.specs.RecordOf.{decoded_of};
ghost use Rattle.draw_ops.specs.Results.{result_map};

use crate::format::Decoded;
use crate::hatch::Hatch;
use crate::objects::{Brush, Handle, Object};
use crate::operation::Op;
use crate::record_fault::RecordFault;
use mapping::Colour;

// The styles ([MS-WMF] 2.1.1.4).
const BS_SOLID: u32 = 0;

const BS_NULL: u32 = 1;

const BS_HATCHED: u32 = 2;

/// A brush with a style, a colour and a hatch, made at an index or at the lowest free one. A style or hatch that isn't
/// supported is `BadValue`. The hatch is read only for a hatched brush, and for a null brush even the colour is
/// ignored.
pub fn brush_meant<'a>(
    at: Option<Handle>,
    style: u32,
    colour: Result<Colour, RecordFault>,
    hatch: u32,
) -> Result<Decoded<'a>, RecordFault>
    ensures value { brush_meant (index_of at) style colour hatch ≡ result_map decoded_of result }
{
    let brush = brush(style, colour, hatch)?;
    Ok(Decoded::unnoted(Op::Create {
        at,
        object: Object::Brush(brush),
    }))
}

/// The brush itself, or its first fault.
fn brush<'a>(
    style: u32,
    colour: Result<Colour, RecordFault>,
    hatch: u32,
) -> Result<Brush<'a>, RecordFault>
    ensures value { brush_of style colour hatch ≡ result_map brush_value_of result }
{
    if style == BS_SOLID {
        return Ok(Brush::Solid(colour?));
    }
    if style == BS_NULL {
        return Ok(Brush::Null);
    }
    if style != BS_HATCHED {
        return Err(RecordFault::BadValue);
    }
    let colour = colour?;
    match Hatch::from_code(hatch) {
        Some(hatch) => Ok(Brush::Hatched { hatch, colour }),
        None => Err(RecordFault::BadValue),
    }
}
