//! Bitmaps, read in place.

ghost use Rattle.std.specs.Prelude.{◌≡◌, ◌<◌, ◌↔◌, [], length, IsTrue, slice_index_or};
ghost use Rattle.dib_views.specs.Dibs.{packed_dib, packed_stored, parts_by, parts_dib, parts_stored};
ghost use Rattle.dib_views.specs.Headers.{IsGoodHead};
ghost use Rattle.dib_views.specs.Pictures.{picture_colour};
ghost use Rattle.dib_views.specs.Pixels.{IsDibSide, row_bytes, row_size, rows_size};
ghost use Rattle.dib_views.specs.Results.{result_map};
ghost use Rattle.dib_views.specs.Rows.{row_colours_of};

use crate::fault::DibFault;
use crate::header::DibHead;
use crate::row::DibRow;
use crate::shape::{DibShape, RowOrder};
use mapping::Colour;

/// A device-independent bitmap ([MS-WMF] 2.2.2.9): slices of the bytes that contain it, and what its header says about
/// them.
///
/// # Guarantees
///
/// - The width and the height are from 1 to 32,768.
/// - `rows` contains the rows and nothing else.
#[derive(Clone, Copy, Debug, PartialEq, Eq)]
pub struct DibView<'a> {
    /// The colour table's bytes, four for each entry: blue, green, red and one that is ignored.
    pub table: &'a [u8],
    /// The rows' bytes, in the order in which they are stored.
    pub rows: &'a [u8],
    /// The size, the bits of a pixel and the order of the rows.
    pub shape: DibShape,
    pub ghost wide: { IsDibSide shape.width },
    pub ghost high: { IsDibSide shape.height },
    pub ghost whole: { length rows.now ≡ rows_size shape },
}

impl<'a> DibView<'a> {
    ghost use Rattle.dib_views.specs.PictureOf.{dib_of, picture_of, row_order_of, stored_of};

    /// The bitmap whose header, colour table and rows follow one another in the bytes, or its first fault. Bytes after
    /// the rows don't matter.
    ///
    /// # Errors
    ///
    /// The first of these:
    ///
    /// - `BadDib`: the header's size is present, but isn't 40, 108 or 124.
    /// - `ShortDib`: the header is incomplete.
    /// - `CompressedDib`: the compression isn't 0.
    /// - `BadDib`: the bits of a pixel, the width, the height or ClrUsed is invalid.
    /// - `ShortDib`: bytes of the colour table or the rows are missing.
    pub fn packed(bytes: &'a [u8]) -> Result<DibView<'a>, DibFault>
        ensures dib { result_map dib_of result ≡ packed_dib bytes.now }
        ensures stored { result_map stored_of result ≡ packed_stored bytes.now }
    {
        let head = DibHead::read(bytes)?;
        if bytes.len() < head.table_end {
            return Err(DibFault::ShortDib);
        }
        DibView::new(head, bytes, &bytes[head.table_end..])
    }

    /// The bitmap whose header and colour table are in `info`, and whose rows are in `bits`, or its first fault. Bytes
    /// after the table and after the rows don't matter.
    ///
    /// # Errors
    ///
    /// The first of these:
    ///
    /// - `BadDib`: the header's size is present, but isn't 40, 108 or 124.
    /// - `ShortDib`: the header is incomplete.
    /// - `CompressedDib`: the compression isn't 0.
    /// - `BadDib`: the bits of a pixel, the width, the height or ClrUsed is invalid.
    /// - `ShortDib`: bytes of the colour table or the rows are missing.
    pub fn parts(info: &'a [u8], bits: &'a [u8]) -> Result<DibView<'a>, DibFault>
        ensures dib { result_map dib_of result ≡ parts_dib info.now bits.now }
        ensures stored { result_map stored_of result ≡ parts_stored info.now bits.now }
    {
        let head = DibHead::read(info)?;
        DibView::new(head, info, bits)
    }

    /// The bitmap whose header, read as `head`, and colour table are in `info`, and whose rows are in `bits`. Fails
    /// exactly if bytes of the table or the rows are missing.
    fn new(head: DibHead, info: &'a [u8], bits: &'a [u8]) -> Result<DibView<'a>, DibFault>
        requires { IsGoodHead head }
        ensures { result_map stored_of result ≡ parts_by head info.now bits.now }
    {
        let rows_size = head.shape.rows_size();
        if info.len() < head.table_end || bits.len() < rows_size {
            return Err(DibFault::ShortDib);
        }
        Ok(DibView {
            table: &info[head.table_start..head.table_end],
            rows: &bits[..rows_size],
            shape: head.shape,
        })
    }

    /// The width in pixels, from 1 to 32,768.
    #[inline]
    pub fn width(&self) -> u32
        ensures { result ≡ (picture_of self.now).width }
    {
        u32::from(self.shape.width)
    }

    /// The height in pixels, from 1 to 32,768.
    #[inline]
    pub fn height(&self) -> u32
        ensures { result ≡ (picture_of self.now).height }
    {
        u32::from(self.shape.height)
    }

    /// Which row is stored first.
    #[inline]
    pub fn order(&self) -> RowOrder
        ensures { result ≡ row_order_of self.now }
    {
        self.shape.order
    }

    /// Whether the bottom row is stored first.
    #[inline]
    pub fn bottom_up(&self) -> bool
        ensures { IsTrue result ↔ (row_order_of self.now ≡ RowOrder.BottomUp) }
    {
        self.order() == RowOrder::BottomUp
    }

    /// All bytes of the picture's row `y`, counted from the top, with the padding to a multiple of four.
    #[inline]
    pub fn row(&self, y: u32) -> &'a [u8]
        requires { y < (picture_of self.now).height }
        ensures bytes { result.now ≡ row_bytes (stored_of self.now) y }
        ensures size { length result.now ≡ row_size self.now.shape.bits self.now.shape.width }
    {
        let size = self.shape.row_size();
        let start = self.shape.stored_row(y) * size;
        &self.rows[start..start + size]
    }

    /// The picture's row `y`, counted from the top.
    #[inline]
    pub fn picture_row(&self, y: u32) -> DibRow<'a>
        requires { y < (picture_of self.now).height }
        ensures row { row_colours_of result ≡ slice_index_or (picture_of self.now).rows y [] }
        ensures width { result.width ≡ (picture_of self.now).width }
    {
        DibRow {
            bytes: self.row(y),
            table: self.table,
            width: self.shape.width,
            bits: self.shape.bits,
        }
    }

    /// The colour of the picture's pixel in column `x`, from 0 at the left, of row `y`, from 0 at the top.
    #[inline]
    pub fn colour(&self, x: u32, y: u32) -> Colour
        requires inside_x { x < (picture_of self.now).width }
        requires inside_y { y < (picture_of self.now).height }
        ensures { result ≡ picture_colour (picture_of self.now) x y }
    {
        self.picture_row(y).colour(x)
    }
}

// An operation that draws a bitmap has one of these.
const _: () = prove!(size_of::<DibView<'static>>() <= 40);
