//! The columns of a mask that are covered in each row of its region. The mask's last row, which no row of lines has, keeps
//! them.

ghost use Rattle.std.specs.Prelude.{◌≡◌, ◌+◌, ◌-◌, ◌*◌, ◌^◌, ◌<◌, ◌≤◌, ◌+ℤ◌, ◌-ℤ◌, ◌≤ℤ◌, ℕ, true, IsTrue, pos};
ghost use Rattle.mapping.specs.Nibs.{IsNib, reach_after, reach_before};
ghost use Rattle.span_fill.specs.BitRows.{HasSize};
ghost use Rattle.span_fill.specs.Lines.{HasNearEnds};
ghost use Rattle.span_fill.specs.MaskCovers.{AreAmong, AreKnown, HoldsAllBetween, HoldsColumns, IsCoveredAlike, IsSpanCovered, KnowsCovered, is_in_region, is_in_rows, tall_nib, tall_row};
ghost use Rattle.span_fill.specs.MaskFrames.{IsMaskFrame, row_count};
ghost use Rattle.span_fill.specs.MaskMarks.{HasRows};
ghost use Rattle.span_fill.specs.Spans.{in_span};
ghost use Rattle.span_fill.specs.StrokeMasks.{height_of};
ghost use Rattle.span_fill.specs.WideLines.{HasAllRows};

use crate::bit_rows::BitRows;
use crate::line::Line;
use crate::mask_frame::MaskFrame;
use crate::span::Span;
use crate::wide_line::WideLine;
use mapping::{Nib, reach_after, reach_before};

/// The greatest width and height of a nib.
const MAX_NIB: u32 = 4096;

/// Finds columns that are covered in each row of the region, and returns the longest span of them, counted from the
/// region's first column.
pub(crate) fn find_known(bits: &mut BitRows, frame: MaskFrame) -> Span
    requires frame { IsMaskFrame frame }
    requires size { HasRows frame bits.old }
    requires some { 1 ≤ height_of frame.region }
    ensures known { KnowsCovered frame bits.new }
    ensures same { IsCoveredAlike frame bits.old bits.new }
    ensures covered { IsSpanCovered frame bits.new result }
    ensures size { HasSize bits.new bits.old.rows bits.old.columns }
{
    find_covered(bits, frame);
    longest_known(bits, frame)
}

/// Finds columns that are covered in each row of the region: those that are set in each `depth`th row, and in the last one.
fn find_covered(bits: &mut BitRows, frame: MaskFrame)
    requires frame { IsMaskFrame frame }
    requires size { HasRows frame bits.old }
    requires some { 1 ≤ height_of frame.region }
    ensures known { KnowsCovered frame bits.new }
    ensures same { IsCoveredAlike frame bits.old bits.new }
    ensures size { HasSize bits.new bits.old.rows bits.old.columns }
{
    let (height, depth) = (frame.height(), frame.depth());
    let last = frame.last_row();
    bits.set(last, 0, frame.width());
    let mut row = depth - 1;
    while row < height + depth - 1 {
        // (each `depth` rows of the mask, from a row of the region on, have one of these)
        let read = row.min(height - 1);
        bits.keep_common(last, read);
        row += depth;
    }
}

/// The longest span of columns that are known to be covered.
fn longest_known(bits: &BitRows, frame: MaskFrame) -> Span
    requires frame { IsMaskFrame frame }
    requires size { HasRows frame bits.now }
    requires some { 1 ≤ height_of frame.region }
    ensures { AreKnown frame bits.now (in_span result) }
{
    let (row, width) = (frame.last_row(), frame.width());
    let mut longest = Span { from: 0, to: 0 };
    let mut column = 0;
    while column < width {
        let from = bits.next_set(row, column, width);
        let to = bits.next_clear(row, from, width);
        if to - from > longest.to - longest.from {
            longest = Span { from, to };
        }
        column = to + 1;
    }
    longest
}

/// Whether some columns of the surface, as far as they lie in the region, are known to be covered.
fn are_covered(bits: &BitRows, columns: Span, frame: MaskFrame) -> bool
    requires frame { IsMaskFrame frame }
    requires size { HasRows frame bits.now }
    requires some { 1 ≤ height_of frame.region }
    ensures { IsTrue result → AreKnown frame bits.now (λ x. in_span columns (x + frame.region.columns.from)) }
{
    let part = frame.columns_of(columns);
    bits.next_clear(frame.last_row(), part.from, part.to) >= part.to
}

/// Whether all columns of the region from one end of a line to the other, as far as the nib reaches, are among these, which
/// are counted from the region's first column.
pub(crate) fn is_around_within(line: Line, frame: MaskFrame, columns: Span) -> bool
    requires { IsMaskFrame frame }
    ensures { IsTrue result → AreAmong frame (is_in_region frame line) columns }
{
    let part = frame.columns_of(columns_around(line, frame));
    part.from >= part.to || (columns.from <= part.from && part.to <= columns.to)
}

/// The columns of the region that a nib covers anywhere along a line, and those between them.
fn columns_around(line: Line, frame: MaskFrame) -> Span
    requires { IsMaskFrame frame }
    ensures { HoldsColumns frame (is_in_region frame line) result }
{
    let first = first_around(line, frame.nib);
    let last = last_around(line, frame.nib);
    columns_between(frame, first, last)
}

/// The first column that a nib reaches from one of a line's ends.
fn first_around(line: Line, nib: Nib) -> i64
    requires nib { IsNib nib }
    ensures from { result ≤ℤ (line.from.x -ℤ pos (reach_before nib.x)) }
    ensures to { result ≤ℤ (line.to.x -ℤ pos (reach_before nib.x)) }
{
    let column = line.from.x.min(line.to.x);
    i64::from(column) - i64::from(reach_before(nib.x))
}

/// The last column that it reaches from one of them.
fn last_around(line: Line, nib: Nib) -> i64
    requires nib { IsNib nib }
    ensures from { (line.from.x +ℤ pos (reach_after nib.x)) ≤ℤ result }
    ensures to { (line.to.x +ℤ pos (reach_after nib.x)) ≤ℤ result }
    ensures few { result ≤ℤ pos (2 ^ 62) }
{
    let column = line.from.x.max(line.to.x);
    i64::from(column) + i64::from(reach_after(nib.x))
}

/// The columns of the region from one number to another, inclusive.
fn columns_between(frame: MaskFrame, first: i64, last: i64) -> Span
    requires frame { IsMaskFrame frame }
    requires last { last ≤ℤ pos (2 ^ 62) }
    ensures { HoldsAllBetween frame first last result }
{
    let columns = frame.region.columns;
    columns.between(first, last + 1)
}

/// Whether all that the nib's columns cover of a line, in some rows of lines, lies in columns that are known to be covered.
pub(crate) fn are_rows_covered(
    bits: &BitRows,
    line: Line,
    frame: MaskFrame,
    from: u32,
    count: u32,
) -> bool
    requires frame { IsMaskFrame frame }
    requires size { HasRows frame bits.now }
    requires some { 1 ≤ height_of frame.region }
    requires near { HasNearEnds line }
    requires rows { from + count ≤ row_count frame }
    ensures { IsTrue result → AreKnown frame bits.now (is_in_rows frame line from count) }
{
    if count == 0 || count > MAX_NIB {
        return false;
    }
    let mut rows = rows_at_once(line, frame, from, count);
    let Some(all) = rows.next() else {
        return true;
    };
    are_covered(bits, all.columns, frame)
}

/// What the nib's columns cover along a line in some rows of lines, as one row: that of a nib with as many rows.
fn rows_at_once(line: Line, frame: MaskFrame, from: u32, count: u32) -> WideLine
    requires frame { IsMaskFrame frame }
    requires near { HasNearEnds line }
    requires some { 1 ≤ count }
    requires few { count ≤ 4096 }
    requires rows { from + count ≤ row_count frame }
    ensures line { result.line ≡ line }
    ensures nib { result.nib ≡ tall_nib frame count }
    ensures all { HasAllRows (tall_row frame from count) (tall_row frame from count +ℤ pos 1) result }
{
    let nib = Nib {
        x: frame.nib.x,
        y: count as u16,
    };
    let row = frame.row_at(from) + reach_after(nib.y);
    WideLine::new(line, nib, row, row + 1)
}
