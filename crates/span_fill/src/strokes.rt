//! The strips of lines, and their spans row by row.

ghost use Rattle.std.specs.Prelude.{◌≡◌, ℕ, ◌+◌, ◌<◌, ◌≤◌, ◌^◌, ℤ, pos, [], OnOk, OnErr, length};
ghost use Rattle.std.specs.List.{All};
ghost use Rattle.span_fill.specs.Lines.{HasNearEnds};
ghost use Rattle.mapping.specs.Nibs.{IsNib};
ghost use Rattle.span_fill.specs.Spans.{AreRow};
ghost use Rattle.span_fill.specs.StrokeRows.{lines_have};

use crate::joining::{join_within, sort_parts};
use crate::line::Line;
use crate::memory::grow;
use crate::row_error::OutOfMemory;
use crate::row_spans::RowSpans;
use crate::span::Span;
use crate::stroke_rows::{collect_wide_edges, draw_row, enter, sort_wide_edges};
use crate::wide_edge::WideEdge;
use mapping::Nib;
use std::alloc::Global;

/// The strips of lines.
#[derive(Debug, Drop)]
pub(crate) struct Strokes {
    /// The nib that moves along them.
    pub(crate) nib: Nib,
    /// The strips, sorted by their first rows.
    pub(crate) waiting: Vec<WideEdge>,
    /// How many of them have begun.
    pub(crate) begun: usize,
    /// Those that have the next row, at that row.
    pub(crate) active: Vec<WideEdge>,
    /// Scratch memory for the columns of a row.
    pub(crate) parts: Vec<Span>,
}

impl Strokes {
    ghost use Rattle.span_fill.specs.Stroking.{AreStrokes, HasSameCapacity, HasStrokeCapacity, stroke_count, strokes_have};

    /// No strips. Allocates no memory.
    pub(crate) fn new(alloc: Global) -> Strokes
        ensures { HasStrokeCapacity 0 result }
    {
        Strokes {
            nib: Nib::ONE,
            waiting: Vec::new(alloc),
            begun: 0,
            active: Vec::new(alloc),
            parts: Vec::new(alloc),
        }
    }

    /// Allocates memory for this many lines. Fails with `OutOfMemory`, and then the strips are unchanged.
    pub(crate) fn reserve(&mut self, lines: usize) -> Result<(), OutOfMemory>
        requires { lines ≤ 2 ^ 20 }
        ensures ok { OnOk result (HasStrokeCapacity lines self.new) }
        ensures kept { HasSameCapacity self.old self.new }
        ensures strokes { (row : ℕ) → AreStrokes row self.old → AreStrokes row self.new }
        ensures have { (x : ℤ) (y : ℕ) → strokes_have self.new x y ≡ strokes_have self.old x y }
        ensures nib { self.new.nib ≡ self.old.nib }
        ensures count { stroke_count self.new ≡ stroke_count self.old }
    {
        grow(&mut self.waiting, lines)?;
        grow(&mut self.active, lines)?;
        grow(&mut self.parts, lines)?;
        Ok(())
    }

    /// Starts with lines at a row.
    pub(crate) fn begin(&mut self, lines: &[Line], nib: Nib, row: u32)
        requires nib { IsNib nib }
        requires near { All HasNearEnds lines.now }
        requires row { row ≤ 8192 }
        requires capacity { HasStrokeCapacity (length lines.now) self.old }
        ensures strokes { AreStrokes row self.new }
        ensures have { (x : ℤ) (y : ℕ) → row ≤ y → y < 8192 → strokes_have self.new x y ≡ lines_have nib lines.now x y }
        ensures nib { self.new.nib ≡ nib }
        ensures count { stroke_count self.new ≤ length lines.now }
        ensures capacity { HasSameCapacity self.old self.new }
    {
        self.nib = nib;
        collect_wide_edges(&mut self.waiting, lines, nib, row);
        sort_wide_edges(&mut self.waiting);
        self.begun = 0;
        self.active.clear();
    }

    /// Computes the spans of the row within the interval, and advances to the next row.
    pub(crate) fn next_row(&mut self, row: u32, interval: Span, spans: &mut RowSpans)
        requires strokes { AreStrokes row self.old }
        requires row { row < 8192 }
        requires interval { interval.to ≤ 8192 }
        requires capacity { 1 ≤ stroke_count self.old → stroke_count self.old + 1 ≤ spans.old.capacity }
        ensures spans { AreRow (λ x. strokes_have self.old (pos x) row) interval spans.new.items }
        ensures strokes { AreStrokes (row + 1) self.new }
        ensures have { (x : ℤ) (y : ℕ) → row < y → y < 8192 → strokes_have self.new x y ≡ strokes_have self.old x y }
        ensures nib { self.new.nib ≡ self.old.nib }
        ensures count { stroke_count self.new ≤ stroke_count self.old }
        ensures capacity { HasSameCapacity self.old self.new }
        ensures spans_capacity { spans.new.capacity ≡ spans.old.capacity }
    {
        self.begun = enter(
            &mut self.active,
            self.waiting.as_slice(),
            self.begun,
            self.nib,
            row,
        );
        draw_row(&mut self.active, &mut self.parts, self.nib, row);
        sort_parts(&mut self.parts);
        join_within(self.parts.as_slice(), interval, spans);
    }
}
