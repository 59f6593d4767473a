//! Lines with a nib, one row at a time.

ghost use Rattle.std.specs.Prelude.{◌≡◌, ℕ, ◌+◌, ◌^◌, ◌<◌, ◌≤◌, ◌↔◌, pos, negsuc, ◌+ℤ◌, ◌-ℤ◌, ◌≤ℤ◌, ◌<ℤ◌, unsigned_abs, MatchOption, true, false, int_le, int_lt};
ghost use Rattle.mapping.specs.Nibs.{IsNib, reach_after, reach_before};
ghost use Rattle.span_fill.specs.Clips.{IsIn};
ghost use Rattle.span_fill.specs.MajorLines.{IsMajorLine, length_of};
ghost use Rattle.span_fill.specs.Steppers.{StepperCanMove, IsStepper, IsStepperIncrement, IsMovedStepper};
ghost use Rattle.span_fill.specs.Lines.{HasNearEnds};
ghost use Rattle.span_fill.specs.RowSlopes.{IsSmallRowSlope, total_of};
ghost use Rattle.span_fill.specs.WideEdges.{IsAtRow, IsNearRow, LiesNear, crossing_of, high_over, low_over, part_high, part_low};
ghost use Rattle.span_fill.specs.StrokeRows.{IsBegun, IsPast};

use crate::axes::{major_along, runs_y_major};
use crate::bounds::CoordinateRange;
use crate::line::Line;
use crate::reach::{greater, lesser};
use crate::row_slope::RowSlope;
use crate::span::Span;
use crate::stepper::{Stepper, StepperIncrement};
use crate::wide_edge_rows::{
    columns_along, end_row, rows_along, rows_seen, window_bottom, window_top,
};
use mapping::{Nib, reach_after, reach_before};

/// A line with a nib that moves along it, at one row of the surface. The rows of the line that the nib reaches from
/// there have an interval of columns, and the nib covers what is around it.
#[derive(Clone, Copy, Debug)]
pub(crate) struct WideEdge {
    pub(crate) line: Line,
    /// Where the line crosses the first of these rows.
    pub(crate) first: Stepper,
    /// Where it crosses the last of these rows or, unless it is y-major, the row after that.
    pub(crate) last: Stepper,
    /// What a row adds.
    pub(crate) step: StepperIncrement,
    /// The columns of the line.
    pub(crate) columns: CoordinateRange,
    /// The rows of the line.
    pub(crate) rows: CoordinateRange,
    /// The rows in which the nib covers something of it.
    pub(crate) seen: CoordinateRange,
    /// Whether the line is y-major.
    pub(crate) y_major: bool,
}

impl WideEdge {
    /// The line at the first row of a range in which the nib covers something of it. `None` if there is no such row.
    pub(crate) fn new(line: Line, nib: Nib, range: CoordinateRange) -> Option<WideEdge>
        requires near { HasNearEnds line }
        requires nib { IsNib nib }
        requires low { negsuc 4095 ≤ℤ range.from }
        requires order { range.from ≤ℤ range.to }
        requires high { range.to ≤ℤ pos 12288 }
        ensures { MatchOption result (IsPast nib range.from range.to line) (λ edge. IsBegun nib range.from range.to line edge) }
    {
        let y_major = runs_y_major(line);
        let major = major_along(line, y_major);
        if major.length() == 0 {
            return None;
        }
        let rows = rows_along(major, y_major);
        let seen = rows_seen(nib, rows, range);
        if seen.from >= seen.to {
            return None;
        }
        let top = window_top(nib, i64::from(seen.from), rows);
        let bottom = window_bottom(nib, i64::from(seen.from), rows);
        if bottom < top {
            return None;
        }
        let slope = RowSlope::new(major, y_major);
        Some(WideEdge {
            line,
            first: stepper_in(line, slope, top),
            last: stepper_in(line, slope, end_row(y_major, bottom)),
            step: step_of(slope),
            columns: columns_along(major, y_major),
            rows,
            seen,
            y_major,
        })
    }

    /// A line of which a nib covers nothing from a row on.
    pub(crate) fn unseen(line: Line, row: i32) -> WideEdge
        ensures line { result.line ≡ line }
        ensures from { result.seen.from ≡ row }
        ensures to { result.seen.to ≡ row }
    {
        let none = Stepper { column: 0, rest: 0 };
        let no_rows = CoordinateRange { from: row, to: row };
        WideEdge {
            line,
            first: none,
            last: none,
            step: StepperIncrement {
                divisor: 1,
                across: 0,
                more: 0,
            },
            columns: no_rows,
            rows: no_rows,
            seen: no_rows,
            y_major: false,
        }
    }

    /// Of some columns, those that the nib covers in this row.
    #[inline(always)]
    pub(crate) fn part(&self, nib: Nib, columns: Span) -> Span
        requires nib { IsNib nib }
        requires first { StepperCanMove self.now.step self.now.first }
        requires last { StepperCanMove self.now.step self.now.last }
        requires order { columns.from ≤ columns.to }
        ensures exact { (x : ℕ) → IsIn columns x → (IsIn result x ↔ LiesNear nib (part_low self.now) (part_high self.now) (pos x)) }
        ensures first { columns.from ≤ result.from }
        ensures order { result.from ≤ result.to }
        ensures last { result.to ≤ columns.to }
    {
        let (low, high) = (self.low(), self.high());
        if low < high {
            near(nib, low, high, columns)
        } else {
            Span {
                from: columns.from,
                to: columns.from,
            }
        }
    }

    /// Moves to the next row. Each end of the rows that the nib reaches moves, unless it is the line's end.
    #[inline(always)]
    pub(crate) fn move_on(&mut self, nib: Nib, row: i64)
        requires nib { IsNib nib }
        requires row { IsNearRow row }
        requires first { StepperCanMove self.old.step self.old.first }
        requires last { StepperCanMove self.old.step self.old.last }
        ensures line { self.new.line ≡ self.old.line }
        ensures rows { self.new.rows ≡ self.old.rows }
        ensures seen { self.new.seen ≡ self.old.seen }
        ensures at { IsAtRow nib row self.old → IsNearRow (row +ℤ pos 1) → (row +ℤ pos 1 -ℤ pos (reach_after nib.y)) <ℤ self.old.rows.to
            → IsAtRow nib (row +ℤ pos 1) self.new }
    {
        if nib.y == 1 {
            // Such a nib reaches one row of the line, and both ends of it move. Where the line leaves a row is where it
            // enters the next one.
            let next = self.last.moved(self.step);
            self.first = crossing_of(self.y_major, self.last, next);
            self.last = next;
            return;
        }
        self.first = moved_if(self.first, self.step, self.leaves_first(nib, row));
        self.last = moved_if(self.last, self.step, self.is_before_last(nib, row));
    }

    /// Whether the nib, in the next row, no longer reaches the first of the rows that it reaches from this row.
    fn leaves_first(&self, nib: Nib, row: i64) -> bool
        requires nib { IsNib nib }
        requires row { IsNearRow row }
        ensures { result ≡ int_le self.now.rows.from (row -ℤ pos (reach_after nib.y)) }
    {
        i64::from(self.rows.from) <= row - i64::from(reach_after(nib.y))
    }

    /// Whether the line has rows after the last one that the nib reaches from this row.
    fn is_before_last(&self, nib: Nib, row: i64) -> bool
        requires nib { IsNib nib }
        requires row { IsNearRow row }
        ensures { result ≡ int_lt (row +ℤ pos (reach_before nib.y)) (self.now.rows.to -ℤ pos 1) }
    {
        row + i64::from(reach_before(nib.y)) < i64::from(self.rows.to) - 1
    }

    /// The first column of the line in the rows that the nib reaches.
    fn low(&self) -> i64
        ensures low { result ≡ part_low self.now }
        ensures least { negsuc (2 ^ 31) ≤ℤ result }
    {
        greater(
            low_over(self.first.column, self.last.column),
            i64::from(self.columns.from),
        )
    }

    /// The column after the last one of the line in the rows that the nib reaches.
    fn high(&self) -> i64
        requires first { StepperCanMove self.now.step self.now.first }
        requires last { StepperCanMove self.now.step self.now.last }
        ensures high { result ≡ part_high self.now }
        ensures most { result ≤ℤ pos (2 ^ 31) }
    {
        lesser(
            high_over(self.y_major, self.first.column, self.last.column),
            i64::from(self.columns.to),
        )
    }
}

/// A crossing, moved to the next row if `moves` is set.
#[inline]
fn moved_if(stepper: Stepper, step: StepperIncrement, moves: bool) -> Stepper
    requires { StepperCanMove step stepper }
    ensures moved { moves ≡ true → IsMovedStepper step stepper result }
    ensures same { moves ≡ false → result ≡ stepper }
{
    if moves { stepper.moved(step) } else { stepper }
}

/// Where a line crosses a row of its own, if it ends the row before at the first crossing, and this row at the second.
#[inline]
fn crossing_of(y_major: bool, before: Stepper, here: Stepper) -> Stepper
    ensures { result ≡ crossing_of y_major before here }
{
    if y_major { here } else { before }
}

/// Of some columns, those between two numbers, with those that a nib covers on both sides.
#[inline]
fn near(nib: Nib, low: i64, high: i64, columns: Span) -> Span
    requires nib { IsNib nib }
    requires some { low <ℤ high }
    requires least { negsuc (2 ^ 31) ≤ℤ low }
    requires most { high ≤ℤ pos (2 ^ 31) }
    requires order { columns.from ≤ columns.to }
    ensures exact { (x : ℕ) → IsIn columns x → (IsIn result x ↔ LiesNear nib low high (pos x)) }
    ensures first { columns.from ≤ result.from }
    ensures order { result.from ≤ result.to }
    ensures last { result.to ≤ columns.to }
{
    columns.between(
        low - i64::from(reach_before(nib.x)),
        high + i64::from(reach_after(nib.x)),
    )
}

/// Where the columns of several rows begin.
#[inline]
fn low_over(first: i64, last: i64) -> i64
    ensures { result ≡ low_over first last }
{
    if first <= last { first } else { last }
}

/// Where the columns of several rows end.
#[inline]
fn high_over(y_major: bool, first: i64, last: i64) -> i64
    requires first { first ≤ℤ pos (2 ^ 62) }
    requires last { last ≤ℤ pos (2 ^ 62) }
    ensures { result ≡ high_over y_major first last }
{
    let end = if first <= last { last } else { first };
    if y_major { end + 1 } else { end }
}

/// Where a line crosses a row.
fn stepper_in(line: Line, slope: RowSlope, row: i64) -> Stepper
    requires near { HasNearEnds line }
    requires small { IsSmallRowSlope slope }
    requires row { unsigned_abs row ≤ 2 ^ 14 }
    ensures { IsStepper (total_of slope line.from row) slope.divisor result }
{
    Stepper::new(slope.total(line.from, row), slope.divisor)
}

/// What a row adds to where a line crosses it.
fn step_of(slope: RowSlope) -> StepperIncrement
    requires { IsSmallRowSlope slope }
    ensures { IsStepperIncrement slope.step slope.divisor result }
{
    StepperIncrement::new(slope.step, slope.divisor)
}
