//! The source colours of blits, at a pixel and along a row.

ghost use Rattle.std.specs.Prelude.{◌≡◌, ◌<◌, ◌≤◌, ◌+◌, ◌^◌, pos, ◌+ℤ◌, ◌≤ℤ◌, ◌<ℤ◌, IsTrue, IfSome, is_some, length};
ghost use Rattle.std.specs.Int.{int_min};
ghost use Rattle.dib_views.specs.PictureOf.{picture_of};
ghost use Rattle.draw_ops.specs.Blits.{source_of};
ghost use Rattle.mapping.specs.Surface.{FitsPlace};
ghost use Rattle.mapping.specs.declared.geometry.Colour.{Colour};
ghost use Rattle.raster_ops.specs.Gathered.{AreAt, AreKeptOutside, HaveBytes};
ghost use Rattle.raster_ops.specs.Sources.{distance, is_readable, source_colour};

use crate::rectangles::{least_end, row_from_bottom, row_from_top};
use dib_views::DibView;
use draw_ops::{BlitSource, SourceRectangle};
use mapping::{Colour, Point};

/// How the columns or rows of a box read those of a source rectangle, which is stretched to the box.
///
/// # Guarantees
///
/// - The rectangle has at least one column or row.
/// - `first + count` is at most 65,536.
/// - `side` is at most 2^29.
#[derive(Clone, Copy, Debug, PartialEq, Eq)]
pub struct AxisReading {
    /// The first column or row of the source rectangle in the bitmap.
    pub first: u32,
    /// The number of columns or rows in the rectangle. If there are more than `side`, some of them aren't read.
    pub count: u32,
    /// The box's first column or row on the surface, from the left or the top.
    pub near: i32,
    /// The number of columns or rows in the box.
    pub side: u32,
    /// Whether the box's first column or row reads the rectangle's last one.
    pub mirrored: bool,
    pub ghost some: { 1 ≤ count },
    pub ghost few: { first + count ≤ 2 ^ 16 },
    pub ghost short: { side ≤ 2 ^ 29 },
}

/// How a blit reads its source bitmap.
///
/// # Guarantees
///
/// - The rectangle lies inside the bitmap.
#[derive(Clone, Copy, Debug, PartialEq, Eq)]
pub struct SourceReader<'a> {
    pub picture: DibView<'a>,
    pub columns: AxisReading,
    pub rows: AxisReading,
    pub ghost across: { columns.first + columns.count ≤ (picture_of picture).width },
    pub ghost down: { rows.first + rows.count ≤ (picture_of picture).height },
}

impl<'a> SourceReader<'a> {
    ghost use Rattle.raster_ops.specs.Readers.{ReadsColumns, ReadsRows, ReadsSource, column_colour, column_read, is_inside_from, row_read};

    /// How the box between two placed corners reads its source. `None` exactly if there is no bitmap, or its rectangle
    /// is empty or doesn't lie inside, whatever the box is.
    pub fn new(source: &BlitSource<'a>, first: Point, second: Point) -> Option<SourceReader<'a>>
        requires first { FitsPlace first }
        requires second { FitsPlace second }
        ensures some { is_some result ≡ is_readable (source_of source.now) }
        ensures reads { IfSome result (λ reader. ReadsSource reader (source_of source.now) first second) }
        ensures near_column { IfSome result (λ reader. reader.columns.near ≡ int_min first.x second.x) }
        ensures column_count { IfSome result (λ reader. reader.columns.side ≡ distance first.x second.x) }
        ensures near_row { IfSome result (λ reader. reader.rows.near ≡ int_min first.y second.y) }
        ensures row_count { IfSome result (λ reader. reader.rows.side ≡ distance first.y second.y) }
    {
        match *source {
            BlitSource::Missing => None,
            BlitSource::FromTop(rectangle) => {
                SourceReader::of_rectangle(&rectangle, row_from_top(&rectangle), first, second)
            }
            BlitSource::FromBottom(rectangle) => {
                SourceReader::of_rectangle(&rectangle, row_from_bottom(&rectangle), first, second)
            }
        }
    }

    /// The same for a rectangle with this first row.
    fn of_rectangle(
        rectangle: &SourceRectangle<'a>,
        row: i64,
        first: Point,
        second: Point,
    ) -> Option<SourceReader<'a>>
        requires first { FitsPlace first }
        requires second { FitsPlace second }
        ensures some { is_some result ≡ is_inside_from row rectangle.now }
        ensures picture { IfSome result (λ reader. reader.picture ≡ rectangle.now.picture) }
        ensures columns { IfSome result (ReadsColumns rectangle.now first second) }
        ensures rows { IfSome result (ReadsRows row rectangle.now first second) }
    {
        let picture = rectangle.picture;
        let column = least_end(rectangle.corner.x, rectangle.extent.x);
        let width = picture.width();
        let Some(columns) = AxisReading::new(column, rectangle.extent.x, first.x, second.x, width)
        else {
            return None;
        };
        let height = picture.height();
        let Some(rows) = AxisReading::new(row, rectangle.extent.y, first.y, second.y, height) else {
            return None;
        };
        Some(SourceReader {
            picture,
            columns,
            rows,
        })
    }

    /// The bitmap's row that row `y` of the surface reads.
    pub fn row_at(&self, y: u32) -> u32
        requires from { self.now.rows.near ≤ℤ pos y }
        requires to { pos y <ℤ (self.now.rows.near +ℤ pos self.now.rows.side) }
        ensures row { result ≡ row_read self.now y }
        ensures within { result < (picture_of self.now.picture).height }
    {
        self.rows.index_at(y)
    }

    /// The bitmap's column that column `x` of the surface reads.
    pub fn column_at(&self, x: u32) -> u32
        requires from { self.now.columns.near ≤ℤ pos x }
        requires to { pos x <ℤ (self.now.columns.near +ℤ pos self.now.columns.side) }
        ensures column { result ≡ column_read self.now x }
        ensures within { result < (picture_of self.now.picture).width }
    {
        self.columns.index_at(x)
    }

    /// Writes the colours that the columns from one to before another read in the bitmap's row `row` to `out`, each at
    /// its column. The rest of `out` is unchanged.
    pub fn gather(&self, row: u32, from: u32, to: u32, out: &mut [Colour])
        requires row { row < (picture_of self.now.picture).height }
        requires ordered { from ≤ to }
        requires capacity { to ≤ length out.old }
        requires from { self.now.columns.near ≤ℤ pos from }
        requires to { pos to ≤ℤ (self.now.columns.near +ℤ pos self.now.columns.side) }
        ensures colours { AreAt (λ x. column_colour self.now row x) from to out.new }
        ensures parts { HaveBytes from to out.new }
        ensures others { AreKeptOutside from to out.old out.new }
    {
        let line = self.picture.picture_row(row);
        self.columns.gather(&line, from, to, out);
    }
}

/// The source colour of the surface's pixel `(x, y)`, for a box between two placed corners.
pub fn source_at(source: &BlitSource<'_>, first: Point, second: Point, x: u32, y: u32) -> Colour
    requires readable { IsTrue (is_readable (source_of source.now)) }
    requires first { FitsPlace first }
    requires second { FitsPlace second }
    requires left { int_min first.x second.x ≤ℤ pos x }
    requires right { pos x <ℤ (int_min first.x second.x +ℤ pos (distance first.x second.x)) }
    requires top { int_min first.y second.y ≤ℤ pos y }
    requires bottom { pos y <ℤ (int_min first.y second.y +ℤ pos (distance first.y second.y)) }
    ensures { result ≡ source_colour (source_of source.now) first second x y }
{
    let Some(reader) = SourceReader::new(source, first, second) else {
        unreachable!()
    };
    reader.picture.colour(reader.column_at(x), reader.row_at(y))
}
