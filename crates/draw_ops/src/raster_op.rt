//! Binary raster operations.

ghost use Rattle.std.specs.Prelude.{◌≡◌};
ghost use Rattle.draw_ops.specs.RasterOp.{raster_op_code, raster_op_of};

/// A binary raster operation: the new colour of a pixel, bit by bit, from the pen (the drawn colour) and the old colour
/// ([MS-WMF] 2.1.1.2).
#[derive(Clone, Copy, Debug, PartialEq, Eq)]
pub enum RasterOp {
    /// All bits 0.
    Black,
    /// The complement of `MergePen`.
    NotMergePen,
    /// The old colour, and the complement of the pen.
    MaskNotPen,
    /// The complement of the pen.
    NotCopyPen,
    /// The pen, and the complement of the old colour.
    MaskPenNot,
    /// The complement of the old colour.
    Not,
    /// The pen, or the old colour, but not both.
    XorPen,
    /// The complement of `MaskPen`.
    NotMaskPen,
    /// The pen, and the old colour.
    MaskPen,
    /// The complement of `XorPen`.
    NotXorPen,
    /// The old colour.
    Nop,
    /// The old colour, or the complement of the pen.
    MergeNotPen,
    /// The pen.
    CopyPen,
    /// The pen, or the complement of the old colour.
    MergePenNot,
    /// The pen, or the old colour.
    MergePen,
    /// All bits 1.
    White,
}

impl RasterOp {
    /// The operation with this code. `None` exactly if the standard has none.
    pub fn from_code(code: u32) -> Option<RasterOp>
        ensures { result ≡ raster_op_of code }
    {
        match code {
            1 => Some(RasterOp::Black),
            2 => Some(RasterOp::NotMergePen),
            3 => Some(RasterOp::MaskNotPen),
            4 => Some(RasterOp::NotCopyPen),
            5 => Some(RasterOp::MaskPenNot),
            6 => Some(RasterOp::Not),
            7 => Some(RasterOp::XorPen),
            8 => Some(RasterOp::NotMaskPen),
            9 => Some(RasterOp::MaskPen),
            10 => Some(RasterOp::NotXorPen),
            11 => Some(RasterOp::Nop),
            12 => Some(RasterOp::MergeNotPen),
            13 => Some(RasterOp::CopyPen),
            14 => Some(RasterOp::MergePenNot),
            15 => Some(RasterOp::MergePen),
            16 => Some(RasterOp::White),
            _ => None,
        }
    }

    /// The operation's code, from 1 to 16.
    pub fn code(self) -> u8
        ensures { result ≡ raster_op_code self }
    {
        match self {
            RasterOp::Black => 1,
            RasterOp::NotMergePen => 2,
            RasterOp::MaskNotPen => 3,
            RasterOp::NotCopyPen => 4,
            RasterOp::MaskPenNot => 5,
            RasterOp::Not => 6,
            RasterOp::XorPen => 7,
            RasterOp::NotMaskPen => 8,
            RasterOp::MaskPen => 9,
            RasterOp::NotXorPen => 10,
            RasterOp::Nop => 11,
            RasterOp::MergeNotPen => 12,
            RasterOp::CopyPen => 13,
            RasterOp::MergePenNot => 14,
            RasterOp::MergePen => 15,
            RasterOp::White => 16,
        }
    }
}
