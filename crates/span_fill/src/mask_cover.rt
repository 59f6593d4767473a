//! Covering a mask with what a nib covers along lines.

ghost use Rattle.std.specs.Prelude.{◌≡◌, ◌+◌, ◌-◌, ◌*◌, ◌<◌, ◌≤◌, IfSome, IsTrue};
ghost use Rattle.span_fill.specs.BitRows.{HasSize};
ghost use Rattle.span_fill.specs.Lines.{HasNearEnds};
ghost use Rattle.span_fill.specs.MaskCovers.{CoversLine, CoversLines, CoversRows, EndsBefore, EndsFrom, IsSpanCovered, KnowsCovered};
ghost use Rattle.span_fill.specs.MaskFrames.{IsMaskFrame, first_row, row_at, row_count, spare_of};
ghost use Rattle.span_fill.specs.MaskMarks.{HasRows, HasStroke, IsClear};
ghost use Rattle.span_fill.specs.StrokeMasks.{height_of};

use crate::bit_rows::BitRows;
use crate::covered_columns::{are_rows_covered, find_known, is_around_within};
use crate::line::Line;
use crate::mask_frame::MaskFrame;
use crate::mask_marks::{mark_line, mark_rows, mark_shared, widen};
use crate::outline::Outline;
use crate::span::Span;

/// Sets the bits of the region's pixels that the nib covers along the lines of an outline. All bits must be clear.
pub(crate) fn cover<O: Outline>(bits: &mut BitRows, outline: &mut O, frame: MaskFrame)
    requires frame { IsMaskFrame frame }
    requires size { HasRows frame bits.old }
    requires clear { IsClear frame bits.old }
    ensures stroke { HasStroke frame (O.lines outline.old) bits.new }
    ensures size { HasSize bits.new bits.old.rows bits.old.columns }
{
    let height = frame.height();
    if height == 0 {
        return;
    }
    cover_lines(bits, outline, frame);
    widen(bits, height, frame.depth());
}

/// Covers what the nib covers along the lines of an outline.
///
/// After each so many rows, it looks for columns that are covered from top to bottom. A line in such columns costs
/// little, and once all columns are covered, no more lines are read. So many lines over one another cost hardly more
/// than what they cover.
fn cover_lines<O: Outline>(bits: &mut BitRows, outline: &mut O, frame: MaskFrame)
    requires frame { IsMaskFrame frame }
    requires size { HasRows frame bits.old }
    requires some { 1 ≤ height_of frame.region }
    requires known { KnowsCovered frame bits.old }
    ensures lines { CoversLines frame (O.lines outline.old) bits.old bits.new }
    ensures size { HasSize bits.new bits.old.rows bits.old.columns }
{
    let mut most = frame.reading_rows();
    let (mut rows, mut known) = (0_u32, None);
    while let Some(line) = outline.next_line() {
        let marked = cover_next(bits, line, frame, known);
        // (to read a line counts like a row: the rows that share one aren't marked one by one)
        rows = rows.wrapping_add(marked).wrapping_add(1);
        if rows >= most {
            let columns = find_known(bits, frame);
            if columns.from == 0 && columns.to >= frame.width() {
                return;
            }
            (rows, known) = (0, if_any(columns));
            // (each time after a few more rows, so that looking takes a small part of the time)
            most = most.saturating_add(most / 16);
        }
    }
}

/// A span, if it has a column.
fn if_any(columns: Span) -> Option<Span>
    ensures { IfSome result (λ same. same ≡ columns) }
{
    (columns.from < columns.to).then_some(columns)
}

/// Covers what the nib covers along a line. Columns in which all pixels are known to be covered may have been found.
/// Returns how many rows or pixels of the line were marked one by one.
#[inline(always)]
fn cover_next(bits: &mut BitRows, line: Line, frame: MaskFrame, known: Option<Span>) -> u32
    requires frame { IsMaskFrame frame }
    requires size { HasRows frame bits.old }
    requires some { 1 ≤ height_of frame.region }
    requires near { HasNearEnds line }
    requires known { KnowsCovered frame bits.old }
    requires columns { IfSome known (IsSpanCovered frame bits.old) }
    ensures line { CoversLine frame line bits.old bits.new }
    ensures known { KnowsCovered frame bits.new }
    ensures size { HasSize bits.new bits.old.rows bits.old.columns }
{
    if is_above(line, frame) || is_below(line, frame) {
        return 0;
    }
    match known {
        Some(columns) => cover_line(bits, line, frame, columns),
        None => cover_new_line(bits, line, frame),
    }
}

/// Whether both ends of a line lie above the rows from which the nib reaches the region.
#[inline(always)]
fn is_above(line: Line, frame: MaskFrame) -> bool
    requires { IsMaskFrame frame }
    ensures { IsTrue result → EndsBefore (first_row frame) line }
{
    let first = frame.first_row();
    line.from.y < first && line.to.y < first
}

/// Whether both ends lie below these rows.
#[inline(always)]
fn is_below(line: Line, frame: MaskFrame) -> bool
    requires { IsMaskFrame frame }
    ensures { IsTrue result → EndsFrom (row_at frame (row_count frame)) line }
{
    let end = frame.row_at(frame.row_count());
    end <= line.from.y && end <= line.to.y
}

/// The same for a line while nothing is known to be covered. A line beside the region marks nothing.
#[inline(always)]
fn cover_new_line(bits: &mut BitRows, line: Line, frame: MaskFrame) -> u32
    requires frame { IsMaskFrame frame }
    requires size { HasRows frame bits.old }
    requires some { 1 ≤ height_of frame.region }
    requires near { HasNearEnds line }
    requires known { KnowsCovered frame bits.old }
    ensures line { CoversLine frame line bits.old bits.new }
    ensures known { KnowsCovered frame bits.new }
    ensures size { HasSize bits.new bits.old.rows bits.old.columns }
{
    if is_around_within(line, frame, Span { from: 0, to: 0 }) {
        return 0;
    }
    mark_line(bits, line, frame)
}

/// The same, but it marks nothing in columns that are known to be covered: these among others.
fn cover_line(bits: &mut BitRows, line: Line, frame: MaskFrame, known: Span) -> u32
    requires frame { IsMaskFrame frame }
    requires size { HasRows frame bits.old }
    requires some { 1 ≤ height_of frame.region }
    requires near { HasNearEnds line }
    requires known { KnowsCovered frame bits.old }
    requires columns { IsSpanCovered frame bits.old known }
    ensures line { CoversLine frame line bits.old bits.new }
    ensures known { KnowsCovered frame bits.new }
    ensures size { HasSize bits.new bits.old.rows bits.old.columns }
{
    if is_around_within(line, frame, known) {
        return 0;
    }
    let spare = frame.spare();
    if spare == 0 {
        return cover_rows(bits, line, frame, 0, frame.row_count());
    }
    let before = frame.height() - 1;
    let first = cover_rows(bits, line, frame, 0, before);
    cover_shared(bits, line, frame);
    let last = cover_rows(bits, line, frame, before + 1 + spare, before);
    first.wrapping_add(last)
}

/// Covers what the nib's columns cover along a line in some rows of lines, unless that lies in columns that are known to
/// be covered. Returns how many rows or pixels were marked.
fn cover_rows(bits: &mut BitRows, line: Line, frame: MaskFrame, from: u32, count: u32) -> u32
    requires frame { IsMaskFrame frame }
    requires size { HasRows frame bits.old }
    requires some { 1 ≤ height_of frame.region }
    requires near { HasNearEnds line }
    requires rows { from + count ≤ row_count frame }
    requires known { KnowsCovered frame bits.old }
    ensures rows { CoversRows frame line from count bits.old bits.new }
    ensures known { KnowsCovered frame bits.new }
    ensures size { HasSize bits.new bits.old.rows bits.old.columns }
{
    if are_rows_covered(bits, line, frame, from, count) {
        return 0;
    }
    mark_rows(bits, line, frame, from, count)
}

/// Covers what the nib's columns cover in the rows of lines that share a row of the mask.
fn cover_shared(bits: &mut BitRows, line: Line, frame: MaskFrame)
    requires frame { IsMaskFrame frame }
    requires size { HasRows frame bits.old }
    requires some { 1 ≤ height_of frame.region }
    requires near { HasNearEnds line }
    requires known { KnowsCovered frame bits.old }
    ensures rows { CoversRows frame line (height_of frame.region - 1) (spare_of frame + 1) bits.old bits.new }
    ensures known { KnowsCovered frame bits.new }
    ensures size { HasSize bits.new bits.old.rows bits.old.columns }
{
    mark_shared(bits, line, frame);
}
