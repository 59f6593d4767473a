//! The sizes that a file's headers give.

use mapping::Rect;

/// A number of the horizontal axis, and one of the vertical axis.
#[derive(Clone, Copy, Debug, PartialEq, Eq)]
pub struct Axes {
    /// The number of the horizontal axis.
    pub x: u32,
    /// The number of the vertical axis.
    pub y: u32,
}

/// The sizes that a file's headers give.
#[derive(Clone, Copy, Debug, PartialEq, Eq)]
pub struct Sizes {
    /// The frame's width in units of the plane.
    pub frame_width: u32,
    /// The frame's height in units of the plane.
    pub frame_height: u32,
    /// Dots per inch, if the headers give them, and they have at most 32 bits.
    pub dots: Option<Axes>,
    /// The frame's width and height in hundredths of a millimetre, if the headers give them, and they have at most 32
    /// bits.
    pub paper: Option<Axes>,
    /// Frame in the header of an EMF file, in hundredths of a millimetre ([MS-EMF] 2.2.9).
    pub emf_frame: Option<Rect>,
}
