//! One row of a picture.

ghost use Rattle.std.specs.Prelude.{◌≡◌, ◌<◌, length, slice_index_or};
ghost use Rattle.mapping.specs.Colours.{black_colour};
ghost use Rattle.dib_views.specs.Pixels.{row_size};

use crate::pixels::colour_in_row;
use crate::shape::BitCount;
use mapping::Colour;

/// One row of a picture: its bytes, with what is needed to decode their colours. It is for callers that read along a
/// row.
///
/// # Guarantees
///
/// - `bytes` has the length of a row of this width.
#[derive(Clone, Copy, Debug, PartialEq, Eq)]
pub struct DibRow<'a> {
    /// The row's bytes, with the padding to a multiple of four.
    pub bytes: &'a [u8],
    /// The colour table's bytes.
    pub table: &'a [u8],
    /// The width in pixels.
    pub width: u16,
    /// The bits of a pixel.
    pub bits: BitCount,
    pub ghost whole: { length bytes.now ≡ row_size bits width },
}

impl<'a> DibRow<'a> {
    ghost use Rattle.dib_views.specs.Rows.{row_colours_of};

    /// The colour of the pixel in column `x`, from 0 at the left.
    #[inline]
    pub fn colour(&self, x: u32) -> Colour
        requires { x < self.now.width }
        ensures { result ≡ slice_index_or (row_colours_of self.now) x black_colour }
    {
        colour_in_row(self.bits, self.table, self.bytes, x as usize)
    }
}
