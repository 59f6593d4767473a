//! A numbering of a surface's pixels.

ghost use Rattle.std.specs.Prelude.{◌≤◌, ◌^◌};

/// A numbering of a surface's pixels, row by row. Rows are `stride` numbers apart, and the first pixel of row `first` has
/// the number 0.
///
/// # Guarantees
///
/// - The stride is at most 2^16, and the row at most 8,192.
#[derive(Clone, Copy, Debug, PartialEq, Eq)]
pub struct Grid {
    pub stride: u32,
    pub first: u32,
    pub ghost narrow: { stride ≤ 2 ^ 16 },
    pub ghost low: { first ≤ 8192 },
}
