//! The cells of the hatches.

ghost use Rattle.std.specs.Prelude.{◌≡◌, ◌==◌, ℕ, ◌+◌, ◌%◌, ◌<◌};
ghost use Rattle.std.specs.Int.{bit_at};
ghost use Rattle.mapping.specs.Pixels.{is_cell};
ghost use Rattle.raster_ops.specs.Hatches.{has_cell};

use draw_ops::Hatch;

/// Whether the lines of a hatch cover the surface's pixel `(x, y)` ([MS-WMF] 2.1.1.12).
pub(crate) fn has_cell(hatch: Hatch, x: u32, y: u32) -> bool
    ensures { result ≡ has_cell hatch x y }
{
    let column = x % 8;
    let row = y % 8;
    match hatch {
        Hatch::Horizontal => row == 0,
        Hatch::Vertical => column == 0,
        Hatch::ForwardDiagonal => column == row,
        Hatch::BackwardDiagonal => column + row == 7,
        Hatch::Cross => row == 0 || column == 0,
        Hatch::DiagonalCross => column == row || column + row == 7,
    }
}

/// The cells of a hatch in row `y`: bit `x % 8` is 1 if its lines cover column `x`.
pub fn hatch_cells(hatch: Hatch, y: u32) -> u8
    ensures { (x : ℕ) → is_cell result x ≡ has_cell hatch x y }
{
    let row = y % 8;
    match hatch {
        Hatch::Horizontal => horizontal(row),
        Hatch::Vertical => 1,
        Hatch::ForwardDiagonal => forward(row),
        Hatch::BackwardDiagonal => backward(row),
        Hatch::Cross => horizontal(row) | 1,
        Hatch::DiagonalCross => forward(row) | backward(row),
    }
}

/// The cells of the horizontal lines.
fn horizontal(row: u32) -> u8
    ensures { (m : ℕ) → m < 8 → (bit_at result m == 1) ≡ (row == 0) }
{
    if row == 0 { 0xff } else { 0 }
}

/// The cells of the diagonal down to the right.
fn forward(row: u32) -> u8
    requires { row < 8 }
    ensures { (m : ℕ) → m < 8 → (bit_at result m == 1) ≡ (m == row) }
{
    1 << row
}

/// The cells of the diagonal down to the left.
fn backward(row: u32) -> u8
    requires { row < 8 }
    ensures { (m : ℕ) → m < 8 → (bit_at result m == 1) ≡ (m + row == 7) }
{
    0x80 >> row
}
