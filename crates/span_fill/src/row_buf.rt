//! A buffer that computes the spans of an outline's rows, one row after another.

ghost use Rattle.std.specs.Prelude.{◌≡◌, ◌+◌, ◌<◌, ◌≤◌, ◌^◌, [], length, OnOk, OnErr};
ghost use Rattle.std.specs.List.{All};
ghost use Rattle.mapping.specs.Nibs.{IsNib};
ghost use Rattle.span_fill.specs.Lines.{HasNearEnds};
ghost use Rattle.span_fill.specs.RowState.{BeginsFill, BeginsStroke, DiffersInCapacity, FillsRow, HasFoundCrossings, KeepsLines, SameWork, IsFillingWork, IsStrokingWork, filling, idle, stroking};

mod lone_spans;
mod sweeping;

use crate::active_edges::{admit, sort_edges};
use crate::column_table::ColumnTable;
use crate::counted_row::{ColumnCount, most_counts};
use crate::crossing::Crossing;
use crate::crossings::put_crossings;
use crate::edge::{ActiveEdge, Edge};
use crate::edge_list::collect_edges;
use crate::events::next_event;
use crate::fill_rule::FillRule;
use crate::line::Line;
use crate::memory::grow;
use crate::outline::{Outline, copy_lines};
use crate::row_error::OutOfMemory;
use crate::row_spans::{RowSpans, grow_spans};
use crate::span::Span;
use crate::strokes::Strokes;
use mapping::Nib;
use smallvec::SmallVec;
use std::alloc::Global;
use std::marker::Model;

/// What the lines are used for.
#[derive(Clone, Copy, Debug)]
enum Work {
    Idle,
    Filling,
    Stroking,
}

/// The lines of an outline, and their spans row by row: either of the pixels inside, or of the lines themselves.
///
/// Each line is divided once, at the row where it begins; from there on its crossing moves by additions. If very many
/// lines cross a few columns, rows are read from a table, for which each line is divided once per column.
///
/// # Guarantees
///
/// - Within its capacity, only `reserve` allocates memory.
#[derive(Debug, Drop)]
pub struct RowBuf {
    lines: Vec<Line>,
    /// The edges that end after the first row, sorted by the rows where they begin.
    edges: Vec<Edge>,
    /// How many of them have begun.
    begun: usize,
    /// Those that cross the next row.
    active: Vec<ActiveEdge>,
    /// Whether these are sorted by the columns where they do.
    is_sorted: bool,
    /// The first row in which one of these has ended or another one begins.
    event: u32,
    /// Where the lines cross the next row, if that was computed.
    crossings: Vec<Crossing>,
    /// Scratch memory for the counts of a row's columns.
    counts: Vec<ColumnCount>,
    /// The inside of a few columns, if so many edges cross them that this takes less time than moving the edges.
    table: ColumnTable,
    spans: RowSpans,
    /// The lines themselves.
    strokes: Strokes,
    work: Work,
    rule: FillRule,
    next: u32,
    capacity: usize,
}

impl Model for RowBuf {
    ghost use Rattle.span_fill.specs.RowState.{RowState};

    ghost Value = { RowState };

    ghost use Rattle.span_fill.specs.RowFields.{row_state, IsRowBuf};

    ghost view = { row_state };

    ghost invariant = { IsRowBuf };
}

impl RowBuf {
    /// A buffer with no work and no capacity. Allocates no memory.
    pub fn new(alloc: Global) -> RowBuf
        ensures lines { result.lines ≡ [] }
        ensures work { result.work ≡ idle }
        ensures spans { result.spans ≡ [] }
        ensures capacity { result.capacity ≡ 0 }
    {
        RowBuf {
            lines: Vec::new(alloc),
            edges: Vec::new(alloc),
            begun: 0,
            active: Vec::new(alloc),
            is_sorted: true,
            event: 0,
            crossings: Vec::new(alloc),
            counts: Vec::new(alloc),
            table: ColumnTable::new(alloc),
            spans: SmallVec::new(alloc),
            strokes: Strokes::new(alloc),
            work: Work::Idle,
            rule: FillRule::EvenOdd,
            next: 0,
            capacity: 0,
        }
    }

    /// Allocates memory for outlines of this many lines, at most 2^20. Fails with `OutOfMemory`, and then the buffer is
    /// unchanged.
    pub fn reserve(&mut self, lines: usize) -> Result<(), OutOfMemory>
        requires { lines ≤ 2 ^ 20 }
        ensures ok { OnOk result (lines ≤ self.new.capacity) }
        ensures err { OnErr result (self.old.capacity < lines) }
        ensures unchanged { OnErr result (self.new ≡ self.old) }
        ensures same { DiffersInCapacity self.old self.new }
        ensures kept { self.old.capacity ≤ self.new.capacity }
    {
        if lines <= self.capacity {
            return Ok(());
        }
        grow(&mut self.lines, lines)?;
        grow(&mut self.edges, lines)?;
        grow(&mut self.active, lines)?;
        grow(&mut self.crossings, lines)?;
        grow(&mut self.counts, most_counts(lines))?;
        self.table.reserve(lines)?;
        grow_spans(&mut self.spans, lines + 2)?;
        self.strokes.reserve(lines)?;
        self.capacity = lines;
        Ok(())
    }

    /// Starts with the pixels inside the outline, at row `y`. Takes all lines of the outline.
    pub fn begin_fill<O: Outline>(&mut self, outline: &mut O, rule: FillRule, y: u32)
        requires count { length (O.lines outline.old) ≤ self.old.capacity }
        requires row { y ≤ 8192 }
        ensures { BeginsFill rule (O.lines outline.old) y self.old.capacity self.new }
    {
        copy_lines(outline, &mut self.lines);
        self.spans.clear();
        self.table.begin();
        self.work = Work::Filling;
        self.rule = rule;
        self.next = y;
        collect_edges(&mut self.edges, self.lines.as_slice(), y);
        sort_edges(&mut self.edges);
        self.active.clear();
        self.begun = admit(&mut self.active, self.edges.as_slice(), 0, y);
        self.is_sorted = false;
        self.event = next_event(self.active.as_slice(), self.edges.as_slice(), self.begun);
    }

    /// Computes the spans of the next row within the interval.
    pub fn next_fill(&mut self, interval: Span)
        requires filling { IsFillingWork self.old.work }
        requires next { self.old.next < 8192 }
        requires interval { interval.to ≤ 8192 }
        ensures spans { FillsRow self.old.work self.old.lines self.old.next interval self.new.spans }
        ensures next { self.new.next ≡ self.old.next + 1 }
        ensures same { SameWork self.old self.new }
    {
        self.sweep_row(interval);
        self.step();
    }

    /// Computes the spans of one row: starts and computes its first row.
    pub fn fill_row<O: Outline>(&mut self, outline: &mut O, rule: FillRule, y: u32, interval: Span)
        requires count { length (O.lines outline.old) ≤ self.old.capacity }
        requires row { y < 8192 }
        requires interval { interval.to ≤ 8192 }
        ensures work { self.new.work ≡ filling rule }
        ensures lines { self.new.lines ≡ O.lines outline.old }
        ensures spans { FillsRow (filling rule) (O.lines outline.old) y interval self.new.spans }
        ensures next { self.new.next ≡ y + 1 }
        ensures capacity { self.new.capacity ≡ self.old.capacity }
    {
        self.begin_fill(outline, rule, y);
        self.next_fill(interval);
    }

    /// Starts with the pixels of the outline's lines, at row `y`. Takes all lines of the outline.
    pub fn begin_stroke<O: Outline>(&mut self, outline: &mut O, nib: Nib, y: u32)
        requires count { length (O.lines outline.old) ≤ self.old.capacity }
        requires nib { IsNib nib }
        requires row { y ≤ 8192 }
        ensures { BeginsStroke nib (O.lines outline.old) y self.old.capacity self.new }
    {
        self.keep(outline);
        self.begin_kept_stroke(nib, y);
    }

    /// Takes all lines of the outline and keeps them, without work.
    pub fn keep<O: Outline>(&mut self, outline: &mut O)
        requires { length (O.lines outline.old) ≤ self.old.capacity }
        ensures { KeepsLines (O.lines outline.old) self.old.capacity self.new }
    {
        copy_lines(outline, &mut self.lines);
        self.spans.clear();
        self.work = Work::Idle;
    }

    /// The lines that were taken last.
    pub fn lines(&self) -> &[Line]
        ensures lines { result.now ≡ self.now.lines }
        ensures near { All HasNearEnds result.now }
    {
        self.lines.as_slice()
    }

    /// Starts with the pixels of the lines that were taken last, at row `y`.
    pub fn begin_kept_stroke(&mut self, nib: Nib, y: u32)
        requires nib { IsNib nib }
        requires row { y ≤ 8192 }
        ensures { BeginsStroke nib self.old.lines y self.old.capacity self.new }
    {
        self.spans.clear();
        self.work = Work::Stroking;
        self.next = y;
        self.strokes.begin(self.lines.as_slice(), nib, y);
    }

    /// Computes the spans of the next row within the interval.
    pub fn next_stroke(&mut self, interval: Span)
        requires stroking { IsStrokingWork self.old.work }
        requires next { self.old.next < 8192 }
        requires interval { interval.to ≤ 8192 }
        ensures spans { FillsRow self.old.work self.old.lines self.old.next interval self.new.spans }
        ensures next { self.new.next ≡ self.old.next + 1 }
        ensures same { SameWork self.old self.new }
    {
        self.strokes.next_row(self.next, interval, &mut self.spans);
        self.next += 1;
    }

    /// Computes the spans of one row: starts and computes its first row.
    pub fn stroke_row<O: Outline>(&mut self, outline: &mut O, nib: Nib, y: u32, interval: Span)
        requires count { length (O.lines outline.old) ≤ self.old.capacity }
        requires nib { IsNib nib }
        requires row { y < 8192 }
        requires interval { interval.to ≤ 8192 }
        ensures work { self.new.work ≡ stroking nib }
        ensures lines { self.new.lines ≡ O.lines outline.old }
        ensures spans { FillsRow (stroking nib) (O.lines outline.old) y interval self.new.spans }
        ensures next { self.new.next ≡ y + 1 }
        ensures capacity { self.new.capacity ≡ self.old.capacity }
    {
        self.begin_stroke(outline, nib, y);
        self.next_stroke(interval);
    }

    /// The spans that were computed last, in order, at least one pixel apart.
    pub fn spans(&self) -> &[Span]
        ensures { result.now ≡ self.now.spans }
    {
        self.spans.as_slice()
    }

    /// Finds where the lines cross the centre of the next row, once for each line that does. Each line is divided anew.
    pub fn find_crossings(&mut self)
        requires { IsFillingWork self.old.work }
        ensures { HasFoundCrossings self.old self.new }
    {
        put_crossings(&mut self.crossings, self.lines.as_slice(), self.next);
    }

    /// The crossings that were found last, in no particular order.
    pub fn crossings(&self) -> &[Crossing]
        ensures { result.now ≡ self.now.crossings }
    {
        self.crossings.as_slice()
    }
}
