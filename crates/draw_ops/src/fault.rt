//! Why a file, a certificate or a call is rejected.

ghost use Rattle.std.specs.Prelude.{◌≡◌};

use crate::record_fault::RecordFault;
use std::error::Error;
use std::fmt;

/// A fault. Its code and its name never change, nor does the kind of record (a function or a type) that some faults
/// refer to. Callers know them, and rejections show the name and the kind.
#[derive(Clone, Copy, Debug, PartialEq, Eq)]
pub enum Fault {
    // The file: its opening.
    /// The file is longer than 67,108,864 bytes.
    TooLong,
    /// The file doesn't begin like any metafile.
    NotMetafile,
    /// The file ends within its headers.
    ShortHeader,
    /// A header has a type, a size or a version that the standard does not allow.
    BadHeader,
    /// The size of the picture isn't known: its width or height is 0 or too large, or no record of a plain WMF file
    /// gives it.
    NoFrame,
    // The certificate: its bytes.
    /// The bytes don't begin like a certificate.
    NotCertificate,
    /// The certificate ends before its last entry does.
    ShortCertificate,
    /// A number in the certificate, or a requested bound, is outside its limits.
    BadBound,
    /// Bytes follow the last entry of the certificate.
    TrailingBytes,
    // A record of the file.
    /// The record that is reported with it has this fault.
    Record(RecordFault),
    // The certificate: what it states about the file.
    /// The certificate states less than the file needs.
    NeedTooSmall,
    /// The certificate states fewer writes than its entries may make.
    BudgetTooSmall,
    // The caller.
    /// The surface is larger than the bound of the certificate.
    SurfaceTooLarge,
    /// The image isn't a P6 text of a valid size.
    BadImage,
    // The computer.
    /// The writer failed, or accepted no byte.
    WriteFault,
    /// An allocation failed.
    OutOfMemory,
}

impl Fault {
    ghost use Rattle.draw_ops.specs.FaultTable.{fault_row};
    ghost use Rattle.draw_ops.specs.Fault.{record_kind_of};

    /// The fault's code, from 1 on.
    pub fn code(self) -> u8
        ensures { result ≡ (fault_row self).code }
    {
        self.row().0
    }

    /// The fault's name, spelled as its variant is.
    pub fn name(self) -> &'static str
        ensures { result.now ≡ (fault_row self).name }
    {
        self.row().1
    }

    /// The kind of record that the fault refers to, if any: a function ([MS-WMF]) or a type ([MS-EMF]).
    pub fn number(self) -> Option<u32>
        ensures { result ≡ record_kind_of self }
    {
        match self {
            Fault::Record(RecordFault::UnknownRecord(kind)) => Some(kind),
            Fault::Record(RecordFault::Unsupported(kind)) => Some(kind),
            _ => None,
        }
    }

    /// The table of faults: the one place where a code and a name meet.
    #[rattlefmt::skip]
    fn row(self) -> (u8, &'static str)
        ensures code { result.0 ≡ (fault_row self).code }
        ensures name { result.1.now ≡ (fault_row self).name }
    {
        match self {
            Fault::TooLong => (1, "TooLong"),
            Fault::NotMetafile => (2, "NotMetafile"),
            Fault::ShortHeader => (3, "ShortHeader"),
            Fault::BadHeader => (4, "BadHeader"),
            Fault::NoFrame => (5, "NoFrame"),
            Fault::NotCertificate => (6, "NotCertificate"),
            Fault::ShortCertificate => (7, "ShortCertificate"),
            Fault::BadBound => (8, "BadBound"),
            Fault::TrailingBytes => (9, "TrailingBytes"),
            Fault::Record(RecordFault::NoEnd) => (10, "NoEnd"),
            Fault::Record(RecordFault::ShortRecord) => (11, "ShortRecord"),
            Fault::Record(RecordFault::PastEnd) => (12, "PastEnd"),
            Fault::Record(RecordFault::TooManyRecords) => (13, "TooManyRecords"),
            Fault::Record(RecordFault::UnknownRecord(_)) => (14, "UnknownRecord"),
            Fault::Record(RecordFault::Unsupported(_)) => (15, "Unsupported"),
            Fault::Record(RecordFault::BadParams) => (16, "BadParams"),
            Fault::Record(RecordFault::BadValue) => (17, "BadValue"),
            Fault::Record(RecordFault::PaletteColour) => (18, "PaletteColour"),
            Fault::Record(RecordFault::MetricMode) => (19, "MetricMode"),
            Fault::Record(RecordFault::BadDib) => (20, "BadDib"),
            Fault::Record(RecordFault::CompressedDib) => (21, "CompressedDib"),
            Fault::Record(RecordFault::ShortDib) => (22, "ShortDib"),
            Fault::Record(RecordFault::TableFull) => (23, "TableFull"),
            Fault::Record(RecordFault::HandleTaken) => (24, "HandleTaken"),
            Fault::Record(RecordFault::NoSuchHandle) => (25, "NoSuchHandle"),
            Fault::Record(RecordFault::WrongKind) => (26, "WrongKind"),
            Fault::Record(RecordFault::HeldObject) => (27, "HeldObject"),
            Fault::Record(RecordFault::NoSavedState) => (28, "NoSavedState"),
            Fault::Record(RecordFault::DepthLimit) => (29, "DepthLimit"),
            Fault::Record(RecordFault::TooManyCuts) => (30, "TooManyCuts"),
            Fault::Record(RecordFault::ZeroExtent) => (31, "ZeroExtent"),
            Fault::Record(RecordFault::OffPlane) => (32, "OffPlane"),
            Fault::Record(RecordFault::SourceMissing) => (33, "SourceMissing"),
            Fault::Record(RecordFault::SourceOutside) => (34, "SourceOutside"),
            Fault::Record(RecordFault::PathState) => (35, "PathState"),
            Fault::Record(RecordFault::TooManyEdges) => (36, "TooManyEdges"),
            Fault::Record(RecordFault::TooManyPieces) => (37, "TooManyPieces"),
            Fault::Record(RecordFault::WrongEntry) => (38, "WrongEntry"),
            Fault::Record(RecordFault::BoxTooSmall) => (39, "BoxTooSmall"),
            Fault::NeedTooSmall => (40, "NeedTooSmall"),
            Fault::BudgetTooSmall => (41, "BudgetTooSmall"),
            Fault::SurfaceTooLarge => (42, "SurfaceTooLarge"),
            Fault::BadImage => (43, "BadImage"),
            Fault::WriteFault => (44, "WriteFault"),
            Fault::OutOfMemory => (45, "OutOfMemory"),
            Fault::Record(RecordFault::NibTooWide) => (46, "NibTooWide"),
            Fault::Record(RecordFault::NibTooSmall) => (47, "NibTooSmall"),
            Fault::Record(RecordFault::EmfPlusAlone) => (48, "EmfPlusAlone"),
        }
    }
}

impl fmt::Display for Fault {
    ghost use Rattle.std.specs.Prelude.{Some};
    ghost use Rattle.draw_ops.specs.Fault.{text_of};

    ghost output = { λ fault. Some (text_of fault) };

    /// The name, followed by the kind of record that the fault refers to, if any.
    fn fmt<W: fmt::Write>(&self, f: &mut fmt::Formatter<W>) -> fmt::Result {
        let name = self.name();
        match self.number() {
            Some(kind) => write!(f, "{name} {kind}"),
            None => write!(f, "{name}"),
        }
    }
}

impl Error for Fault {}

impl fmt::Display for RecordFault {
    ghost use Rattle.std.specs.Prelude.{Some};
    ghost use Rattle.draw_ops.specs.Fault.{text_of};
    ghost use Rattle.draw_ops.specs.declared.fault.Fault.TheVariants.{Record};

    ghost output = { λ fault. Some (text_of (Record fault)) };

    /// Shown as the fault of the record.
    fn fmt<W: fmt::Write>(&self, f: &mut fmt::Formatter<W>) -> fmt::Result {
        let fault = Fault::Record(*self);
        write!(f, "{fault}")
    }
}

impl Error for RecordFault {}

impl From<RecordFault> for Fault {
    ghost use Rattle.draw_ops.specs.declared.fault.Fault.TheVariants.{Record};

    ghost from_gives = { λ fault of. of ≡ Record fault };

    fn from(fault: RecordFault) -> Fault {
        Fault::Record(fault)
    }
}
