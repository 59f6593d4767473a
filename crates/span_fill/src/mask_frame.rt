//! The rows of a mask for rows of lines.

ghost use Rattle.std.specs.Prelude.{◌≡◌, ◌+◌, ◌*◌, ◌<◌, ◌≤◌, ℕ, pos, negsuc, ◌≤ℤ◌, ◌<ℤ◌, IsTrue};
ghost use Rattle.mapping.specs.Nibs.{IsNib};
ghost use Rattle.span_fill.specs.StrokeMasks.{IsMaskRegion, height_of, width_of};
ghost use Rattle.span_fill.specs.WideStrokes.{row_of};

use crate::span::{Region, Span};
use mapping::{Nib, reach_after};

/// A nib that moves along lines, and the region of a surface for a mask.
///
/// The mask's first rows are rows of lines, in order: the rows from which the nib reaches the region. All rows from
/// which it reaches the whole region share one row of the mask, so that twice the region's rows are always enough.
#[derive(Clone, Copy, Debug)]
pub(crate) struct MaskFrame {
    pub(crate) nib: Nib,
    pub(crate) region: Region,
}

impl MaskFrame {
    ghost use Rattle.span_fill.specs.MaskCovers.{last_row};
    ghost use Rattle.span_fill.specs.MaskFrames.{HasSurfaceRows, IsMaskFrame, IsPartOf, LiesInRows, depth_of, first_row, mask_row, row_at, row_count, shared_nib, shared_row, spare_of};

    /// The number of columns in the region.
    pub(crate) fn width(self) -> u32
        requires { IsMaskRegion self.region }
        ensures width { result ≡ width_of self.region }
        ensures limit { result ≤ 8192 }
    {
        self.region.columns.to - self.region.columns.from
    }

    /// The number of rows in the region.
    pub(crate) fn height(self) -> u32
        requires { IsMaskRegion self.region }
        ensures height { result ≡ height_of self.region }
        ensures limit { result ≤ 8192 }
    {
        self.region.rows.to - self.region.rows.from
    }

    /// The nib's columns, as a nib of one row.
    pub(crate) fn row_of_nib(self) -> Nib
        requires { IsMaskFrame self }
        ensures nib { result ≡ row_of self.nib }
        ensures is_nib { IsNib result }
    {
        Nib {
            x: self.nib.x,
            y: 1,
        }
    }

    /// The first row of lines from which the nib reaches the region.
    pub(crate) fn first_row(self) -> i32
        requires { IsMaskFrame self }
        ensures row { result ≡ first_row self }
        ensures low { negsuc 4095 ≤ℤ result }
        ensures high { result ≤ℤ pos 8192 }
    {
        self.region.rows.from as i32 - reach_after(self.nib.y)
    }

    /// The number of rows of lines from which it does.
    pub(crate) fn row_count(self) -> u32
        requires { IsMaskFrame self }
        ensures { result ≡ row_count self }
    {
        self.height() + u32::from(self.nib.y) - 1
    }

    /// The row of lines this many rows after the first one, or the end of these rows.
    pub(crate) fn row_at(self, number: u32) -> i32
        requires frame { IsMaskFrame self }
        requires number { number ≤ row_count self }
        ensures row { result ≡ row_at self number }
        ensures low { negsuc 4095 ≤ℤ result }
        ensures high { result ≤ℤ pos 12288 }
    {
        self.first_row() + number as i32
    }

    /// Of the largest surface, the part in these rows of lines.
    pub(crate) fn surface_rows(self, from: u32, count: u32) -> Region
        requires frame { IsMaskFrame self }
        requires rows { from + count ≤ row_count self }
        ensures columns { result.columns.to ≤ 8192 }
        ensures rows { result.rows.to ≤ 8192 }
        ensures all { HasSurfaceRows self from count result }
        ensures no_other { LiesInRows self from count result }
    {
        let surface = Span { from: 0, to: 8192 };
        let first = self.row_at(from);
        let end = self.row_at(from + count);
        let rows = surface.between(i64::from(first), i64::from(end));
        Region {
            columns: surface,
            rows,
        }
    }

    /// How many rows of the mask cover a row of the region.
    pub(crate) fn depth(self) -> u32
        requires { IsMaskFrame self }
        ensures { result ≡ depth_of self }
    {
        u32::from(self.nib.y).min(self.height())
    }

    /// How many rows of lines don't have their own row in the mask.
    pub(crate) fn spare(self) -> u32
        requires { IsMaskFrame self }
        ensures { result ≡ spare_of self }
    {
        u32::from(self.nib.y) - self.depth()
    }

    /// The row of the mask for a row of lines, counted from the first one.
    pub(crate) fn mask_row(self, row: u32) -> u32
        requires frame { IsMaskFrame self }
        requires row { row < row_count self }
        requires some { 1 ≤ height_of self.region }
        ensures row { result ≡ mask_row self row }
        ensures within { result < 2 * height_of self.region }
    {
        row.min(self.height() - 1)
            .max(row.saturating_sub(self.spare()))
    }

    /// The last row of the mask, which no row of lines has.
    pub(crate) fn last_row(self) -> u32
        requires frame { IsMaskFrame self }
        requires some { 1 ≤ height_of self.region }
        ensures row { result ≡ last_row self }
        ensures within { result < 2 * height_of self.region }
    {
        2 * self.height() - 1
    }

    /// After how many marked rows it pays to look for columns that are covered: about as many as words are read then.
    pub(crate) fn reading_rows(self) -> u32
        requires frame { IsMaskFrame self }
        requires some { 1 ≤ height_of self.region }
    {
        let rows_read = self.height().div_ceil(self.depth()) + 1;
        rows_read.saturating_mul(self.width() / 64 + 1)
    }

    /// A nib of the same width, which covers at once what the nib's columns cover in all rows of lines that share a row
    /// of the mask.
    pub(crate) fn shared_nib(self) -> Nib
        requires frame { IsMaskFrame self }
        requires some { 1 ≤ height_of self.region }
        ensures nib { result ≡ shared_nib self }
        ensures is_nib { IsNib result }
    {
        Nib {
            x: self.nib.x,
            y: (self.spare() + 1) as u16,
        }
    }

    /// The row along which this nib moves.
    pub(crate) fn shared_row(self) -> i32
        requires frame { IsMaskFrame self }
        requires some { 1 ≤ height_of self.region }
        ensures row { result ≡ shared_row self }
        ensures low { negsuc 4095 ≤ℤ result }
        ensures high { result <ℤ pos 12288 }
    {
        self.row_at(self.height() - 1) + reach_after(self.shared_nib().y)
    }

    /// The part of some columns of a surface in the region, counted from the region's first column.
    pub(crate) fn columns_of(self, columns: Span) -> Span
        requires { IsMaskRegion self.region }
        ensures columns { IsPartOf self.region columns result }
        ensures order { result.from ≤ result.to }
        ensures within { result.to ≤ width_of self.region }
    {
        let start = self.region.columns.from;
        let part = self
            .region
            .columns
            .between(i64::from(columns.from), i64::from(columns.to));
        Span {
            from: part.from - start,
            to: part.to - start,
        }
    }
}
