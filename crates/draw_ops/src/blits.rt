//! Blits and their sources.

use crate::ternary_op::TernaryOp;
use dib_views::DibView;
use mapping::Point;

/// The rectangle of a bitmap that is the source of a blit, in the bitmap's pixels.
#[derive(Clone, Copy, Debug, PartialEq, Eq)]
pub struct SourceRectangle<'a> {
    pub picture: DibView<'a>,
    /// The corner from which the rectangle extends.
    pub corner: Point,
    /// The width as `x` and the height as `y`. A negative one extends to the left or upwards, and mirrors.
    pub extent: Point,
}

/// The source of a blit.
#[derive(Clone, Copy, Debug, PartialEq, Eq)]
pub enum BlitSource<'a> {
    /// There is none: the record has no bitmap.
    Missing,
    /// A rectangle whose rows are counted from the top of the bitmap.
    FromTop(SourceRectangle<'a>),
    /// A rectangle whose rows are counted from the bottom of the bitmap: META_STRETCHDIB and EMR_STRETCHDIBITS count so
    /// if the bottom row is stored first.
    FromBottom(SourceRectangle<'a>),
}

/// A blit: each pixel of a rectangle becomes the result of a ternary raster operation on the brush, the source and the
/// pixel's old colour.
#[derive(Clone, Copy, Debug, PartialEq, Eq)]
pub struct Blit<'a> {
    /// The corner from which the rectangle extends, in page units.
    pub corner: Point,
    /// The width as `x` and the height as `y`. A negative one extends to the left or upwards, and mirrors.
    pub extent: Point,
    pub operation: TernaryOp,
    pub source: BlitSource<'a>,
}
