//! Why a bitmap is rejected.

/// Why a bitmap is rejected.
#[derive(Clone, Copy, Debug, PartialEq, Eq)]
pub enum DibFault {
    /// A number in its header has an invalid value.
    BadDib,
    /// Its rows are compressed, or its pixels have masks.
    CompressedDib,
    /// Bytes of its header, its colour table or its rows are missing.
    ShortDib,
}
