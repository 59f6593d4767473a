//! Ternary raster operations.

ghost use Rattle.std.specs.Prelude.{◌≡◌};
ghost use Rattle.draw_ops.specs.TernaryOp.{ternary_table};

/// A ternary raster operation: the new colour of a pixel, bit by bit, from the brush's pattern, the source bitmap and
/// the old colour ([MS-WMF] 2.1.1.31).
#[derive(Clone, Copy, Debug, PartialEq, Eq)]
pub struct TernaryOp {
    /// Bit 4P + 2S + D is the result for a bit P of the pattern, S of the source, and D of the old colour.
    pub table: u8,
}

impl TernaryOp {
    /// The operation with a record's code, whose bits 16 to 23 are the table. Its low 16 bits, which named the
    /// operation to old hardware, are ignored.
    pub fn from_code(code: u32) -> TernaryOp
        ensures { result.table ≡ ternary_table code }
    {
        TernaryOp {
            table: (code / 0x10000 % 0x100) as u8,
        }
    }
}
