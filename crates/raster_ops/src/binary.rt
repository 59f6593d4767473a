//! Binary raster operations, as ternary ones that don't depend on the source.

ghost use Rattle.std.specs.Prelude.{◌≡◌, false};
ghost use Rattle.draw_ops.specs.declared.raster_op.RasterOp.{RasterOp};
ghost use Rattle.raster_ops.specs.RasterOps.{BinaryIsTernary, binary_table, mixed_colour};
ghost use Rattle.raster_ops.specs.TernaryOps.{uses_source};

use crate::ternary::rop3;
use draw_ops::{RasterOp, TernaryOp};
use mapping::Colour;

/// The result of a binary raster operation on the paint and the old colour ([MS-WMF] 2.1.1.2).
pub fn rop2(op: RasterOp, paint: Colour, old: Colour) -> Colour
    ensures { result ≡ mixed_colour op paint old }
{
    binary_law();
    rop3(ternary_of(op), paint, paint, old)
}

/// A binary raster operation as a ternary one: the paint is its pattern, and it doesn't depend on the source.
pub fn ternary_of(op: RasterOp) -> TernaryOp
    ensures { result.table ≡ binary_table op }
{
    let bits = op.code() - 1;
    TernaryOp {
        table: bits % 4 * 5 + bits / 4 * 80,
    }
}

/// A law: for every paint, old colour and source, each of the sixteen binary raster operations gives the same as its
/// ternary table.
pub fn binary_law()
    ensures same { BinaryIsTernary }
    ensures alone { (op : RasterOp) → uses_source (binary_table op) ≡ false }
{}
