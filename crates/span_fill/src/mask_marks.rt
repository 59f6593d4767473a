//! Marking what a nib's columns cover along lines, in rows of bits.

ghost use Rattle.std.specs.Prelude.{◌≡◌, ◌↔◌, ◌+◌, ◌-◌, ◌*◌, ◌<◌, ◌≤◌, ◌≤ℤ◌, ◌<ℤ◌, ℕ, pos, IfSome, IsTrue};
ghost use Rattle.mapping.specs.Boxes.{HasPoint};
ghost use Rattle.mapping.specs.Nibs.{IsNib, reach_after, reach_before};
ghost use Rattle.span_fill.specs.BitRows.{HasSize};
ghost use Rattle.span_fill.specs.Clips.{IsIn};
ghost use Rattle.span_fill.specs.LineBoxes.{HasLine};
ghost use Rattle.span_fill.specs.Lines.{HasNearEnds};
ghost use Rattle.span_fill.specs.MaskFrames.{IsMaskFrame, first_row, row_at, row_count, spare_of};
ghost use Rattle.span_fill.specs.MaskMarks.{HasRows, IsAround, IsPart, MarksColumns, MarksLine, MarksRow, MarksRows, Widens, largest_surface};
ghost use Rattle.span_fill.specs.MaskRuns.{IsRunOf, IsShiftOf};
ghost use Rattle.span_fill.specs.StrokeMasks.{height_of};

use crate::bit_rows::BitRows;
use crate::line::Line;
use crate::mask_frame::MaskFrame;
use crate::mask_runs::{MOST_COLUMNS, Runs, mark_run, own_row, runs_of, shift_of};
use crate::pixel::Pixel;
use crate::span::Span;
use crate::steps::LineSteps;
use crate::wide_line::{WideLine, WideRow};
use mapping::{Nib, Point, reach_after, reach_before};

/// With so many pixels in each of a line's rows, both ways take about as long.
const PIXELS_A_ROW: u32 = 3;

/// Marks what the nib's columns cover along a line. Returns how many rows or pixels were marked one by one.
#[inline]
pub(crate) fn mark_line(bits: &mut BitRows, line: Line, frame: MaskFrame) -> u32
    requires frame { IsMaskFrame frame }
    requires size { HasRows frame bits.old }
    requires some { 1 ≤ height_of frame.region }
    requires near { HasNearEnds line }
    ensures line { MarksLine frame line bits.old bits.new }
    ensures size { HasSize bits.new bits.old.rows bits.old.columns }
{
    let spare = frame.spare();
    if spare == 0 {
        return mark_rows(bits, line, frame, 0, frame.row_count());
    }
    // The rows that share one are marked at once, by a nib of this many rows: the cost of a y-major line depends on the
    // mask's rows, but not on the nib's.
    let before = frame.height() - 1;
    let first = mark_rows(bits, line, frame, 0, before);
    mark_shared(bits, line, frame);
    let last = mark_rows(bits, line, frame, before + 1 + spare, before);
    first.wrapping_add(last)
}

/// Marks what the nib's columns cover in some rows of lines. Returns how many of them were marked, or how many pixels, if
/// the line has few in each row.
pub(crate) fn mark_rows(
    bits: &mut BitRows,
    line: Line,
    frame: MaskFrame,
    from: u32,
    count: u32,
) -> u32
    requires frame { IsMaskFrame frame }
    requires size { HasRows frame bits.old }
    requires some { 1 ≤ height_of frame.region }
    requires near { HasNearEnds line }
    requires rows { from + count ≤ row_count frame }
    ensures rows { MarksRows frame line from count bits.old bits.new }
    ensures size { HasSize bits.new bits.old.rows bits.old.columns }
{
    if has_few_a_row(line, frame.nib) && is_on_surface(line) {
        mark_steps(bits, line, frame, from, count)
    } else {
        mark_wide_rows(bits, line, frame, from, count)
    }
}

/// The same, row by row, for any line.
fn mark_wide_rows(bits: &mut BitRows, line: Line, frame: MaskFrame, from: u32, count: u32) -> u32
    requires frame { IsMaskFrame frame }
    requires size { HasRows frame bits.old }
    requires some { 1 ≤ height_of frame.region }
    requires near { HasNearEnds line }
    requires rows { from + count ≤ row_count frame }
    ensures rows { MarksRows frame line from count bits.old bits.new }
    ensures size { HasSize bits.new bits.old.rows bits.old.columns }
{
    let mut rows = WideLine::new(
        line,
        frame.row_of_nib(),
        frame.row_at(from),
        frame.row_at(from + count),
    );
    let shift = shift_of(frame, from, count);
    let mut marked = 0_u32;
    while let Some(row) = rows.next_among(frame.region.columns) {
        mark_seen(bits, row.columns, frame, own_row(row.y, frame, shift));
        marked = marked.wrapping_add(1);
    }
    marked
}

/// The same, step by step, for a line within the largest surface.
fn mark_steps(bits: &mut BitRows, line: Line, frame: MaskFrame, from: u32, count: u32) -> u32
    requires frame { IsMaskFrame frame }
    requires size { HasRows frame bits.old }
    requires some { 1 ≤ height_of frame.region }
    requires near { HasNearEnds line }
    requires inside { HasLine largest_surface line }
    requires rows { from + count ≤ row_count frame }
    ensures rows { MarksRows frame line from count bits.old bits.new }
    ensures size { HasSize bits.new bits.old.rows bits.old.columns }
{
    let region = frame.surface_rows(from, count);
    let shift = shift_of(frame, from, count);
    let runs = runs_of(line, frame, shift);
    let mut steps = LineSteps::new(line, region);
    let mut marked = 0_u32;
    while let Some(pixel) = steps.next() {
        let row = row_around(pixel, frame.nib);
        mark_around(bits, row, frame, shift, runs);
        marked = marked.wrapping_add(1);
    }
    marked
}

/// Marks the columns of a row in its row of the mask. More may be known of them.
#[inline(always)]
fn mark_around(
    bits: &mut BitRows,
    row: WideRow,
    frame: MaskFrame,
    shift: Option<u32>,
    runs: Option<Runs>,
)
    requires frame { IsMaskFrame frame }
    requires size { HasRows frame bits.old }
    requires some { 1 ≤ height_of frame.region }
    requires first { first_row frame ≤ℤ row.y }
    requires last { row.y <ℤ row_at frame (row_count frame) }
    requires shift { IfSome shift (IsShiftOf frame row.y) }
    requires run { IfSome runs (IsRunOf frame row) }
    ensures row { MarksRow frame row bits.old bits.new }
    ensures size { HasSize bits.new bits.old.rows bits.old.columns }
{
    match runs {
        Some(runs) => mark_run(bits, row, frame, runs),
        None => mark_columns(bits, row.columns, frame, own_row(row.y, frame, shift)),
    }
}

/// Whether a line has so few pixels in each row that to mark them one by one takes fewer instructions than to find where
/// they begin and end. A nib of many columns marks them faster row by row, unless each row has one pixel.
fn has_few_a_row(line: Line, nib: Nib) -> bool {
    let across = line.to.x.abs_diff(line.from.x);
    let down = line.to.y.abs_diff(line.from.y);
    across <= down || (nib.x <= MOST_COLUMNS && across / PIXELS_A_ROW <= down)
}

/// Whether both ends of a line lie within the largest surface.
fn is_on_surface(line: Line) -> bool
    ensures { IsTrue result → HasLine largest_surface line }
{
    is_inside(line.from) && is_inside(line.to)
}

/// Whether a point lies within the largest surface.
fn is_inside(point: Point) -> bool
    ensures { IsTrue result → HasPoint largest_surface point }
{
    0 <= point.x && point.x <= 8191 && 0 <= point.y && point.y <= 8191
}

/// The columns that a nib's columns cover around a pixel.
#[inline]
fn row_around(pixel: Pixel, nib: Nib) -> WideRow
    requires nib { IsNib nib }
    requires x { pixel.x < 8192 }
    requires y { pixel.y < 8192 }
    ensures row { result.y ≡ pos pixel.y }
    ensures from { result.columns.from ≡ pixel.x - reach_before nib.x }
    ensures to { result.columns.to ≡ pixel.x + reach_after nib.x + 1 }
    ensures columns { (n : ℕ) → IsIn result.columns n ↔ IsAround nib pixel.x n }
{
    let before = reach_before(nib.x) as u32;
    let after = reach_after(nib.x) as u32;
    WideRow {
        y: pixel.y as i32,
        columns: Span {
            from: pixel.x.saturating_sub(before),
            to: pixel.x + after + 1,
        },
    }
}

/// Marks what the nib's columns cover in the rows of lines that share a row of the mask.
pub(crate) fn mark_shared(bits: &mut BitRows, line: Line, frame: MaskFrame)
    requires frame { IsMaskFrame frame }
    requires size { HasRows frame bits.old }
    requires some { 1 ≤ height_of frame.region }
    requires near { HasNearEnds line }
    ensures rows { MarksRows frame line (height_of frame.region - 1) (spare_of frame + 1) bits.old bits.new }
    ensures size { HasSize bits.new bits.old.rows bits.old.columns }
{
    let row = frame.shared_row();
    let mut rows = WideLine::new(line, frame.shared_nib(), row, row + 1);
    let Some(shared) = rows.next() else {
        return;
    };
    mark_columns(bits, shared.columns, frame, frame.height() - 1);
}

/// Marks columns of a surface in a row of the mask.
#[inline(always)]
fn mark_columns(bits: &mut BitRows, columns: Span, frame: MaskFrame, row: u32)
    requires frame { IsMaskFrame frame }
    requires size { HasRows frame bits.old }
    requires row { row < 2 * height_of frame.region }
    ensures columns { MarksColumns frame columns row bits.old bits.new }
    ensures size { HasSize bits.new bits.old.rows bits.old.columns }
{
    let seen = frame.region.columns;
    let part = seen.between(i64::from(columns.from), i64::from(columns.to));
    mark_seen(bits, part, frame, row);
}

/// Marks columns of the region in a row of the mask. Few are set at once.
#[inline(always)]
fn mark_seen(bits: &mut BitRows, columns: Span, frame: MaskFrame, row: u32)
    requires frame { IsMaskFrame frame }
    requires size { HasRows frame bits.old }
    requires row { row < 2 * height_of frame.region }
    requires part { IsPart columns frame.region.columns }
    ensures columns { MarksColumns frame columns row bits.old bits.new }
    ensures size { HasSize bits.new bits.old.rows bits.old.columns }
{
    let width = columns.to - columns.from;
    if width == 0 {
        return;
    }
    let from = columns.from - frame.region.columns.from;
    if width <= 64 {
        bits.set_run(row, from, width);
    } else {
        bits.set(row, from, from + width);
    }
}

/// Joins to each of the first rows the rows after it, `depth` rows in all.
pub(crate) fn widen(bits: &mut BitRows, height: u32, depth: u32)
    requires some { 1 ≤ depth }
    requires depth { depth ≤ height }
    requires height { height ≤ 8192 }
    requires rows { 2 * height ≤ bits.old.rows }
    ensures rows { Widens height depth bits.old bits.new }
    ensures size { HasSize bits.new bits.old.rows bits.old.columns }
{
    let rows = height + depth - 1;
    let mut reach = 1;
    while 2 * reach <= depth {
        // Each row with enough rows after it doubles the number of rows that it has joined.
        bits.join(rows + 1 - 2 * reach, reach);
        reach *= 2;
    }
    bits.join(height, depth - reach);
}
