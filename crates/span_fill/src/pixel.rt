//! Pixels.

/// The pixel in column `x` of row `y`, both from 0.
#[derive(Clone, Copy, Debug, PartialEq, Eq)]
pub struct Pixel {
    pub x: u32,
    pub y: u32,
}

/// A pixel and its number on a grid.
#[derive(Clone, Copy, Debug, PartialEq, Eq)]
pub struct NumberedPixel {
    pub pixel: Pixel,
    pub number: i64,
}
