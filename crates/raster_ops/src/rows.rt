//! One row of a brush.

ghost use Rattle.std.specs.Prelude.{◌≤◌};

use dib_views::DibRow;
use mapping::Colour;

/// One row of a repeated bitmap.
///
/// # Guarantees
///
/// - The row isn't empty.
#[derive(Clone, Copy, Debug, PartialEq, Eq)]
pub struct TileRow<'a> {
    pub row: DibRow<'a>,
    pub ghost wide: { 1 ≤ row.width },
}

/// What a brush paints in one row of a surface.
#[derive(Clone, Copy, Debug, PartialEq, Eq)]
pub enum BrushRow<'a> {
    /// Nothing.
    Nothing,
    /// Every pixel in this colour.
    Solid(Colour),
    /// The pixels whose bit, at their column modulo 8, is set in `cells` in `colour`; the others in `gaps`, if they are
    /// painted.
    Hatched {
        cells: u8,
        colour: Colour,
        gaps: Option<Colour>,
    },
    /// The colours of this row, repeated from the surface's column 0 on.
    Tiled(TileRow<'a>),
}
