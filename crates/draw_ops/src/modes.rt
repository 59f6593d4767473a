//! Decodes records that set a mode.

ghost use Rattle.std.specs.Prelude.{◌≡◌};
ghost use Rattle.draw_ops.specs.Modes.{background_mode_decoded, fill_mode_decoded, map_mode_meant, raster_op_decoded};
ghost use Rattle.draw_ops.specs.RecordOf.{decoded_of};
ghost use Rattle.draw_ops.specs.Results.{result_map};

use crate::format::Decoded;
use crate::note::Note;
use crate::operation::Op;
use crate::raster_op::RasterOp;
use crate::record_fault::RecordFault;
use crate::settings::{BackgroundMode, FillMode};
use mapping::MapMode;

/// Sets the background mode with this code ([MS-WMF] 2.1.1.20), or `BadValue`.
pub fn background_mode_decoded<'a>(code: u32) -> Result<Decoded<'a>, RecordFault>
    ensures value { background_mode_decoded code ≡ result_map decoded_of result }
{
    match BackgroundMode::from_code(code) {
        Some(mode) => Ok(Decoded::unnoted(Op::SetBackgroundMode(mode))),
        None => Err(RecordFault::BadValue),
    }
}

/// Sets the fill mode with this code ([MS-WMF] 2.1.1.25), or `BadValue`.
pub fn fill_mode_decoded<'a>(code: u32) -> Result<Decoded<'a>, RecordFault>
    ensures value { fill_mode_decoded code ≡ result_map decoded_of result }
{
    match FillMode::from_code(code) {
        Some(mode) => Ok(Decoded::unnoted(Op::SetFillMode(mode))),
        None => Err(RecordFault::BadValue),
    }
}

/// Sets the binary raster operation with this code ([MS-WMF] 2.1.1.2), or `BadValue`.
pub fn raster_op_decoded<'a>(code: u32) -> Result<Decoded<'a>, RecordFault>
    ensures value { raster_op_decoded code ≡ result_map decoded_of result }
{
    match RasterOp::from_code(code) {
        Some(op) => Ok(Decoded::unnoted(Op::SetRasterOp(op))),
        None => Err(RecordFault::BadValue),
    }
}

/// Sets the map mode with this code ([MS-WMF] 2.1.1.16). `MetricMode` for 2 to 6, which use units of length, otherwise
/// `BadValue`. The isotropic mode adds a note.
pub fn map_mode_meant<'a>(code: u32) -> Result<Decoded<'a>, RecordFault>
    ensures value { map_mode_meant code ≡ result_map decoded_of result }
{
    if 2 <= code && code <= 6 {
        return Err(RecordFault::MetricMode);
    }
    match MapMode::from_code(code) {
        Some(MapMode::Text) => Ok(Decoded::unnoted(Op::SetMapMode(MapMode::Text))),
        Some(MapMode::Isotropic) => Ok(Decoded::noting(
            Note::Isotropic,
            Op::SetMapMode(MapMode::Isotropic),
        )),
        Some(MapMode::Anisotropic) => Ok(Decoded::unnoted(Op::SetMapMode(MapMode::Anisotropic))),
        None => Err(RecordFault::BadValue),
    }
}
