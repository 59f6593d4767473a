//! Where the rows of a surface lie in a buffer.

/// Some rows of a surface, and how far apart they are in a buffer.
#[derive(Clone, Copy, Debug, PartialEq, Eq)]
pub struct RowLayout {
    /// The number of the first row.
    pub first: u32,
    /// The number of rows.
    pub count: u32,
    /// The distance from the first byte of a row to that of the next, in bytes.
    pub stride: u32,
}
