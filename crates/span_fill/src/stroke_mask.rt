//! What a nib covers along many lines, as a mask of bits.

ghost use Rattle.std.specs.Prelude.{◌≡◌, ◌↔◌, ◌&&◌, ◌+◌, ℕ, ◌<◌, ◌≤◌, false, not, IsTrue, IfOk};
ghost use Rattle.span_fill.specs.Spans.{in_region};
ghost use Rattle.mapping.specs.Nibs.{IsNib};
ghost use Rattle.span_fill.specs.StrokeMasks.{GivesRun, GivesSpan, GivesSpanOfRow, HasMaskCapacity, HasStrokeToCome, IsMaskRegion, IsPartOfSpan, in_row_span, rows_before, to_come};

use crate::bit_rows::BitRows;
use crate::mask_cover::cover;
use crate::mask_frame::MaskFrame;
use crate::outline::Outline;
use crate::row_error::OutOfMemory;
use crate::span::{Region, Span};
use mapping::Nib;
use std::alloc::Global;
use std::marker::Model;

/// A span of a row of a surface.
#[derive(Clone, Copy, Debug, PartialEq, Eq)]
pub struct RowSpan {
    /// The row.
    pub y: u32,
    /// The columns.
    pub columns: Span,
}

/// What a nib covers in a region as it moves along many lines: marked in bits, widened at once, and returned span by
/// span.
///
/// A line marks only its own rows, with what the nib's columns cover there. The nib's rows are added for all lines at
/// once, so that their number costs the mask its logarithm, and a line nothing.
///
/// # Guarantees
///
/// - Only `new` allocates memory.
#[derive(Drop)]
pub struct StrokeMask {
    /// The rows of bits of the region, from its first row and first column on.
    bits: BitRows,
    region: Region,
    /// The row and the column of the next pixels.
    row: u32,
    column: u32,
}

impl Model for StrokeMask {
    ghost use Rattle.span_fill.specs.StrokeMasks.{StrokeMaskState};

    ghost Value = { StrokeMaskState };

    ghost view = { λ a. record { bits = a.bits; region = a.region; row = a.row; column = a.column } };

    ghost use Rattle.span_fill.specs.StrokeMaskInside.{IsStrokeMask};

    ghost invariant = { IsStrokeMask };
}

impl StrokeMask {
    /// A mask with nothing to return. It allocates all of its memory.
    pub fn new(alloc: Global) -> Result<StrokeMask, OutOfMemory>
        ensures { IfOk result (λ mask. (x y : ℕ) → to_come mask x y ≡ false) }
    {
        let bits = BitRows::new(alloc)?;
        let nothing = Span { from: 0, to: 0 };
        Ok(StrokeMask {
            bits,
            region: Region {
                columns: nothing,
                rows: nothing,
            },
            row: 0,
            column: 0,
        })
    }

    /// The first rows of a region, as many as there is memory for.
    pub fn part_of(&self, region: Region) -> Region
        requires { IsMaskRegion region }
        ensures columns { result.columns ≡ region.columns }
        ensures first { result.rows.from ≡ region.rows.from }
        ensures last { result.rows.to ≤ region.rows.to }
        ensures region { IsMaskRegion result }
        ensures capacity { HasMaskCapacity result }
        ensures most { (to : ℕ) → to ≤ region.rows.to → HasMaskCapacity (rows_before region to) → to ≤ result.rows.to }
        ensures many { result.rows.to < region.rows.to → result.rows.from + 128 ≤ result.rows.to }
        ensures some { region.rows.from < region.rows.to → result.rows.from < result.rows.to }
    {
        let count = self.bits.room(region.columns.to - region.columns.from) / 2;
        let rows = Span {
            from: region.rows.from,
            to: region.rows.to.min(region.rows.from + count),
        };
        Region {
            columns: region.columns,
            rows,
        }
    }

    /// Starts with what a nib covers in a region along the lines of an outline. Takes all of the lines, unless the
    /// region has no row.
    pub fn begin<O: Outline>(&mut self, outline: &mut O, nib: Nib, region: Region)
        requires nib { IsNib nib }
        requires region { IsMaskRegion region }
        requires capacity { HasMaskCapacity region }
        ensures region { self.new.region ≡ region }
        ensures stroke { HasStrokeToCome nib region (O.lines outline.old) self.new }
    {
        let frame = MaskFrame { nib, region };
        self.bits.begin(2 * frame.height(), frame.width());
        cover(&mut self.bits, outline, frame);
        self.region = region;
        self.row = region.rows.from;
        self.column = region.columns.from;
    }

    /// Takes away all remaining pixels in a part of the surface.
    pub fn cut(&mut self, hidden: Region)
        ensures region { self.new.region ≡ self.old.region }
        ensures rest { (x y : ℕ) → to_come self.new x y ≡ (to_come self.old x y && not (in_region hidden x y)) }
    {
        let (own, columns, rows) = (self.region, hidden.columns, hidden.rows);
        self.cut_rows(Region {
            columns: own
                .columns
                .between(i64::from(columns.from), i64::from(columns.to)),
            rows: own.rows.between(i64::from(rows.from), i64::from(rows.to)),
        });
    }

    /// Takes away all remaining pixels in a part of the region.
    fn cut_rows(&mut self, part: Region)
        requires columns { IsPartOfSpan part.columns self.old.region.columns }
        requires rows { IsPartOfSpan part.rows self.old.region.rows }
        ensures region { self.new.region ≡ self.old.region }
        ensures rest { (x y : ℕ) → to_come self.new x y ≡ (to_come self.old x y && not (in_region part x y)) }
    {
        for y in part.rows.from..part.rows.to {
            self.cut_span(RowSpan {
                y,
                columns: part.columns,
            });
        }
    }

    /// Takes away all remaining pixels in a span of the region.
    fn cut_span(&mut self, span: RowSpan)
        requires columns { IsPartOfSpan span.columns self.old.region.columns }
        requires first { self.old.region.rows.from ≤ span.y }
        requires last { span.y < self.old.region.rows.to }
        ensures region { self.new.region ≡ self.old.region }
        ensures rest { (x y : ℕ) → to_come self.new x y ≡ (to_come self.old x y && not (in_row_span span x y)) }
    {
        let start = self.region.columns.from;
        let row = span.y - self.region.rows.from;
        self.bits
            .clear(row, span.columns.from - start, span.columns.to - start);
    }

    /// The next span, in the order of rows and columns, or `None` after the last one.
    pub fn next_span(&mut self) -> Option<RowSpan>
        ensures { GivesSpan self.old result self.new }
    {
        while self.has_row() {
            if let Some(span) = self.next_of_row() {
                return Some(span);
            }
        }
        None
    }

    /// Whether a row remains.
    fn has_row(&self) -> bool
        ensures { IsTrue result ↔ (self.now.row < self.now.region.rows.to) }
    {
        self.row < self.region.rows.to
    }

    /// The next span of the row, or advances to the next row.
    fn next_of_row(&mut self) -> Option<RowSpan>
        requires { self.old.row < self.old.region.rows.to }
        ensures { GivesSpanOfRow self.old result self.new }
    {
        let Some(columns) = self.next_run() else {
            self.row += 1;
            self.column = self.region.columns.from;
            return None;
        };
        self.column = columns.to;
        Some(RowSpan {
            y: self.row,
            columns,
        })
    }

    /// The next set columns of the row.
    fn next_run(&self) -> Option<Span>
        requires { self.now.row < self.now.region.rows.to }
        ensures { GivesRun self.now result }
    {
        let row = self.row - self.region.rows.from;
        let start = self.region.columns.from;
        let end = self.region.columns.to - start;
        let from = self.bits.next_set(row, self.column - start, end);
        if from >= end {
            return None;
        }
        let to = self.bits.next_clear(row, from, end);
        Some(Span {
            from: start + from,
            to: start + to,
        })
    }
}
