//! The names of faults by their codes.

ghost use Rattle.std.specs.Prelude.{◌≡◌, ◌≤◌, IfSome, None};
ghost use Rattle.draw_ops.specs.FaultTable.{fault_row};
ghost use Rattle.buffer_calls.specs.FaultNames.{EndsName, IsNameOf, IsNoCode};

use crate::copying::copy_text;
use crate::outcome::Outcome;
use draw_ops::{Fault, RecordFault, table_law};

/// The faults in the order of their codes, from code 1 on. The kind of record that two of them refer to doesn't change
/// their names.
const FAULTS: [Fault; 48] = [
    Fault::TooLong,
    Fault::NotMetafile,
    Fault::ShortHeader,
    Fault::BadHeader,
    Fault::NoFrame,
    Fault::NotCertificate,
    Fault::ShortCertificate,
    Fault::BadBound,
    Fault::TrailingBytes,
    Fault::Record(RecordFault::NoEnd),
    Fault::Record(RecordFault::ShortRecord),
    Fault::Record(RecordFault::PastEnd),
    Fault::Record(RecordFault::TooManyRecords),
    Fault::Record(RecordFault::UnknownRecord(0)),
    Fault::Record(RecordFault::Unsupported(0)),
    Fault::Record(RecordFault::BadParams),
    Fault::Record(RecordFault::BadValue),
    Fault::Record(RecordFault::PaletteColour),
    Fault::Record(RecordFault::MetricMode),
    Fault::Record(RecordFault::BadDib),
    Fault::Record(RecordFault::CompressedDib),
    Fault::Record(RecordFault::ShortDib),
    Fault::Record(RecordFault::TableFull),
    Fault::Record(RecordFault::HandleTaken),
    Fault::Record(RecordFault::NoSuchHandle),
    Fault::Record(RecordFault::WrongKind),
    Fault::Record(RecordFault::HeldObject),
    Fault::Record(RecordFault::NoSavedState),
    Fault::Record(RecordFault::DepthLimit),
    Fault::Record(RecordFault::TooManyCuts),
    Fault::Record(RecordFault::ZeroExtent),
    Fault::Record(RecordFault::OffPlane),
    Fault::Record(RecordFault::SourceMissing),
    Fault::Record(RecordFault::SourceOutside),
    Fault::Record(RecordFault::PathState),
    Fault::Record(RecordFault::TooManyEdges),
    Fault::Record(RecordFault::TooManyPieces),
    Fault::Record(RecordFault::WrongEntry),
    Fault::Record(RecordFault::BoxTooSmall),
    Fault::NeedTooSmall,
    Fault::BudgetTooSmall,
    Fault::SurfaceTooLarge,
    Fault::BadImage,
    Fault::WriteFault,
    Fault::OutOfMemory,
    Fault::Record(RecordFault::NibTooWide),
    Fault::Record(RecordFault::NibTooSmall),
    Fault::Record(RecordFault::EmfPlusAlone),
];

/// The name of the fault with this code, spelled as its variant is. `None` exactly if no fault has the code.
pub fn fault_name(code: u32) -> Option<&'static str>
    ensures name { IfSome result (λ name. IsNameOf code name.now) }
    ensures none { result ≡ None → IsNoCode code }
{
    table_law();
    if code == 0 || code > 48 {
        return None;
    }
    Some(fault_with(code).name())
}

/// The fault with this code.
fn fault_with(code: u32) -> Fault
    requires first { 1 ≤ code }
    requires last { code ≤ 48 }
    ensures { (fault_row result).code ≡ code }
{
    FAULTS[code as usize - 1]
}

/// Copies the name of the fault with this code to the start of a buffer, without a zero byte after it. `None` exactly
/// if no fault has the code.
pub fn copy_fault_name(code: u32, out: &mut [u8]) -> Option<Outcome>
    ensures { EndsName code out.old out.new result }
{
    match fault_name(code) {
        Some(name) => Some(copy_text(name.as_bytes(), out)),
        None => None,
    }
}
