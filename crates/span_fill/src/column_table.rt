//! A table of the pixels of a few columns that are inside, in all rows. It is computed column by column, from the rows
//! in which each line lies to the left.

ghost use Rattle.std.specs.Prelude.{◌≡◌, ◌+◌, ◌-◌, ◌*◌, ◌<◌, ◌≤◌, ◌^◌, true, false, IsTrue, List, OnOk, length, vec_len, vec_capacity};
ghost use Rattle.std.specs.List.{All};
ghost use Rattle.mapping.specs.Limits.{IsWithin};
ghost use Rattle.span_fill.specs.ColumnTables.{AddsColumn, AnswersWinding, AreFlags, AreSmallSums, CanBeTabled, flag_at};
ghost use Rattle.span_fill.specs.Lines.{HasNearEnds};
ghost use Rattle.span_fill.specs.Spans.{AreRow};

use crate::fill_rule::FillRule;
use crate::line::Line;
use crate::memory::grow;
use crate::row_error::OutOfMemory;
use crate::row_spans::RowSpans;
use crate::span::Span;
use crate::sweep::{put_part, put_run};
use crate::winding::{CHANGES, clear_changes, wind_lines};
use std::alloc::Global;

/// The number of rows in a column of the table: as many as the largest surface has.
const ROWS: usize = 8192;

/// An even number greater than any winding, so that sums from it on aren't negative.
const BASE: i32 = 1 << 21;

/// The fewest lines for a table.
const MANY_LINES: usize = 4096;

/// The fewest edges across a row for a table. Rows with this many edges are handled by counting if the edges aren't
/// sorted.
pub(crate) const MANY_EDGES: usize = 8256;

/// The most columns of a table. A wider one would take more memory, and more time than moving edges.
const MOST_COLUMNS: u32 = 256;

/// One line in one column of a table takes as long as moving an edge to the next row this many times.
const MOVES: u64 = 5;

/// Which pixels of some columns are inside.
///
/// # Guarantees
///
/// - Only `reserve` allocates memory.
#[derive(Debug, Drop)]
pub(crate) struct ColumnTable {
    /// Whether rows are read from the flags.
    pub(crate) is_used: bool,
    /// The columns of the flags.
    pub(crate) columns: Span,
    /// The flags, column by column.
    pub(crate) flags: Vec<bool>,
    /// Scratch memory for the changes of a column.
    pub(crate) changes: Vec<i32>,
    /// How often edges were moved to another row while there were many.
    pub(crate) moves: u64,
}

impl ColumnTable {
    ghost use Rattle.span_fill.specs.ColumnTables.{AreTabled, HasColumns, HasSameTableCapacity, HasTableCapacity};
    ghost use Rattle.span_fill.specs.declared.fill_rule.FillRule.{FillRule as Rule};
    ghost use Rattle.span_fill.specs.declared.line.Line.{Line as TheLine};

    /// An unused table without memory.
    pub(crate) fn new(alloc: Global) -> ColumnTable
        ensures unused { result.is_used ≡ false }
        ensures capacity { HasTableCapacity 0 result }
    {
        ColumnTable {
            is_used: false,
            columns: Span { from: 0, to: 0 },
            flags: Vec::new(alloc),
            changes: Vec::new(alloc),
            moves: 0,
        }
    }

    /// Allocates memory for a table, if it can be used for this many lines. Fails with `OutOfMemory`.
    pub(crate) fn reserve(&mut self, lines: usize) -> Result<(), OutOfMemory>
        ensures ok { OnOk result (HasTableCapacity lines self.new) }
        ensures kept { HasSameTableCapacity self.old self.new }
        ensures used { self.new.is_used ≡ self.old.is_used }
        ensures tabled { (rule : Rule) (of : List TheLine) → AreTabled rule of self.old → AreTabled rule of self.new }
    {
        if lines < MANY_LINES {
            return Ok(());
        }
        grow(&mut self.changes, CHANGES)?;
        grow(&mut self.flags, MOST_COLUMNS as usize * ROWS)?;
        Ok(())
    }

    /// Starts with rows that aren't read from the flags.
    pub(crate) fn begin(&mut self)
        ensures unused { self.new.is_used ≡ false }
        ensures capacity { HasSameTableCapacity self.old self.new }
    {
        self.is_used = false;
        self.moves = 0;
    }

    /// Computes the flags of these columns, from which rows are read from now on.
    #[inline(never)]
    pub(crate) fn put(&mut self, rule: FillRule, lines: &[Line], columns: Span)
        requires near { All HasNearEnds lines.now }
        requires count { length lines.now ≤ 2 ^ 20 }
        requires can { CanBeTabled (length lines.now) columns }
        requires columns { columns.to ≤ 8192 }
        requires capacity { HasTableCapacity (length lines.now) self.old }
        ensures tabled { AreTabled rule lines.now self.new }
        ensures used { self.new.is_used ≡ true }
        ensures capacity { HasSameTableCapacity self.old self.new }
    {
        put_table(rule, lines, columns, &mut self.changes, &mut self.flags);
        self.columns = columns;
        self.is_used = true;
    }

    /// Whether the table has the columns of the interval.
    pub(crate) fn has_columns(&self, interval: Span) -> bool
        ensures { IsTrue result → HasColumns self.now interval }
    {
        self.columns.from <= interval.from && interval.to <= self.columns.to
    }

    /// Replaces the spans by those of the inside columns of a row, within the interval.
    #[inline(never)]
    pub(crate) fn put_row(&self, row: u32, interval: Span, spans: &mut RowSpans)
        requires row { row < 8192 }
        requires has { HasColumns self.now interval }
        requires order { interval.from ≤ interval.to }
        requires end { self.now.columns.to ≤ 8192 }
        requires flags { length self.now.flags.items ≡ (self.now.columns.to - self.now.columns.from) * 8192 }
        requires capacity { interval.to - interval.from + 1 ≤ spans.old.capacity }
        ensures row { AreRow (λ x. flag_at self.now.flags.items self.now.columns.from x row) interval spans.new.items }
        ensures capacity { spans.new.capacity ≡ spans.old.capacity }
    {
        put_flagged(
            self.flags.as_slice(),
            self.columns.from,
            row,
            interval,
            spans,
        );
    }
}

/// Whether a table for the columns of the interval takes less time than the moves so far.
pub(crate) fn is_worth(moves: u64, lines: usize, interval: Span) -> bool
    requires { lines ≤ 2 ^ 20 }
    ensures { IsTrue result → CanBeTabled lines interval }
{
    if lines < MANY_LINES || interval.to < interval.from {
        return false;
    }
    let columns = interval.to - interval.from;
    columns <= MOST_COLUMNS && MOVES * lines as u64 * u64::from(columns) <= moves
}

/// Replaces the flags by those of these columns.
fn put_table(
    rule: FillRule,
    lines: &[Line],
    columns: Span,
    changes: &mut Vec<i32>,
    flags: &mut Vec<bool>,
)
    requires near { All HasNearEnds lines.now }
    requires count { length lines.now ≤ 2 ^ 20 }
    requires order { columns.from ≤ columns.to }
    requires columns { columns.to ≤ 8192 }
    requires changes_capacity { 8193 ≤ vec_capacity changes.old }
    requires flags_capacity { (columns.to - columns.from) * 8192 ≤ vec_capacity flags.old }
    ensures flags { AreFlags rule lines.now columns flags.new.items }
    ensures length { vec_len flags.new ≡ (columns.to - columns.from) * 8192 }
    ensures changes_capacity { vec_capacity changes.new ≡ vec_capacity changes.old }
    ensures flags_capacity { vec_capacity flags.new ≡ vec_capacity flags.old }
{
    flags.clear();
    for column in columns.from..columns.to {
        clear_changes(changes);
        wind_lines(lines, column, changes.as_mut_slice());
        put_column(rule, changes.as_slice(), flags);
    }
}

/// Appends the flags of a column, from its changes.
fn put_column(rule: FillRule, changes: &[i32], flags: &mut Vec<bool>)
    requires length { length changes.now ≡ 8193 }
    requires small { AreSmallSums changes.now }
    requires capacity { vec_len flags.old + 8192 ≤ vec_capacity flags.old }
    ensures column { AddsColumn rule changes.now flags.old.items flags.new.items }
    ensures capacity { vec_capacity flags.new ≡ vec_capacity flags.old }
{
    let mut sum: i32 = 0;
    for row in 0..ROWS {
        sum += changes[row];
        flags.push_reserved(is_wound(rule, sum));
    }
}

/// Whether a pixel is inside if lines wind around it this many times.
fn is_wound(rule: FillRule, sum: i32) -> bool
    requires { IsWithin (2 ^ 20) sum }
    ensures { AnswersWinding rule sum result }
{
    match rule {
        FillRule::EvenOdd => (BASE + sum) as u32 % 2 == 1,
        FillRule::NonZero => sum != 0,
    }
}

/// Replaces the spans by those of the inside columns of a row, within the interval, from the row's flags.
fn put_flagged(flags: &[bool], first: u32, row: u32, interval: Span, spans: &mut RowSpans)
    requires row { row < 8192 }
    requires first { first ≤ interval.from }
    requires order { interval.from ≤ interval.to }
    requires flags { (interval.to - first) * 8192 ≤ length flags.now }
    requires interval { interval.to ≤ 8192 }
    requires capacity { interval.to - interval.from + 1 ≤ spans.old.capacity }
    ensures spans { AreRow (λ x. flag_at flags.now first x row) interval spans.new.items }
    ensures capacity { spans.new.capacity ≡ spans.old.capacity }
{
    spans.clear();
    let mut run = Span {
        from: interval.from,
        to: interval.from,
    };
    for column in interval.from..interval.to {
        let inside = flags[(column - first) as usize * ROWS + row as usize];
        run = put_part(spans, run, column, column + 1, inside);
    }
    put_run(spans, run);
}
