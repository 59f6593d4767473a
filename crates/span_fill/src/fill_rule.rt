//! What is inside polygons that cross themselves or each other.

/// Which pixels are inside polygons, by the lines to the left of a pixel ([MS-WMF] 2.1.1.25).
#[derive(Clone, Copy, Debug, PartialEq, Eq)]
pub enum FillRule {
    /// Those with an odd number of lines to the left (ALTERNATE).
    EvenOdd,
    /// Those for which the numbers of lines to the left that run downwards and upwards differ (WINDING).
    NonZero,
}
