//! How a surface is divided into bands.

ghost use Rattle.std.specs.Prelude.{◌≤◌};

use mapping::Colour;

/// How a surface is divided into bands of rows.
///
/// # Guarantees
///
/// - The width, the height and the number of rows of a band are at least 1.
#[derive(Clone, Copy, Debug, PartialEq, Eq)]
pub struct BandPlan {
    /// The width of the surface in pixels.
    pub width: u32,
    /// The height of the surface in pixels.
    pub height: u32,
    /// The colour of every pixel before the first record.
    pub start: Colour,
    /// The number of rows in each band. The last band has the rows that remain.
    pub rows: u32,
    pub ghost wide: { 1 ≤ width },
    pub ghost high: { 1 ≤ height },
    pub ghost some: { 1 ≤ rows },
}
