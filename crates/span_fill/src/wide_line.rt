//! What a nib covers along one line, row by row.

ghost use Rattle.std.specs.Prelude.{◌≡◌, pos, negsuc, ◌≤◌, ◌≤ℤ◌, ◌<ℤ◌};
ghost use Rattle.mapping.specs.Nibs.{IsNib};
ghost use Rattle.span_fill.specs.Lines.{HasNearEnds};
ghost use Rattle.span_fill.specs.WideLines.{GivesRowAmong, HasAllRows, TakesRowAmong, all_columns};

use crate::bounds::CoordinateRange;
use crate::line::Line;
use crate::span::Span;
use crate::wide_edge::WideEdge;
use mapping::Nib;
use std::marker::Model;

/// The columns that a nib covers in a row.
#[derive(Clone, Copy, Debug)]
pub struct WideRow {
    pub y: i32,
    /// The columns, limited to those from 0 to 8,191.
    pub columns: Span,
}

/// What a nib covers as it moves along a line, row by row: in each row one span.
///
/// # Guarantees
///
/// - No call allocates memory, and nothing is divided except when a line begins.
#[derive(Debug, Drop)]
pub struct WideLine {
    nib: Nib,
    /// The line at row `next`, if that is one of its remaining rows.
    edge: WideEdge,
    next: i32,
}

impl Model for WideLine {
    ghost use Rattle.span_fill.specs.WideLines.{WideLineState};

    ghost Value = { WideLineState };

    ghost view = { λ a. record { line = a.edge.line; nib = a.nib; next = a.next; end = a.edge.seen.to } };

    ghost use Rattle.span_fill.specs.WideLineInside.{IsWideLine};

    ghost invariant = { IsWideLine };
}

impl WideLine {
    /// The rows from `from` to before `to` in which the nib covers something. They are limited to the rows from -4,096
    /// to 12,287: those of a surface, and those from which a nib reaches it.
    #[inline(always)]
    pub fn new(line: Line, nib: Nib, from: i32, to: i32) -> WideLine
        requires near { HasNearEnds line }
        requires nib { IsNib nib }
        requires low { negsuc 4095 ≤ℤ from }
        requires order { from ≤ℤ to }
        requires high { to ≤ℤ pos 12288 }
        ensures line { result.line ≡ line }
        ensures nib { result.nib ≡ nib }
        ensures all { HasAllRows from to result }
    {
        match WideEdge::new(line, nib, CoordinateRange { from, to }) {
            Some(edge) => WideLine {
                nib,
                edge,
                next: edge.seen.from,
            },
            None => WideLine {
                nib,
                edge: WideEdge::unseen(line, from),
                next: from,
            },
        }
    }

    /// The next row, or `None` after the last one.
    #[inline]
    pub fn next(&mut self) -> Option<WideRow>
        ensures { GivesRowAmong all_columns self.old result self.new }
    {
        self.next_among(Span { from: 0, to: 8192 })
    }

    /// The next row, or `None` after the last one: of its columns those among some columns.
    #[inline(always)]
    pub(crate) fn next_among(&mut self, columns: Span) -> Option<WideRow>
        requires { columns.from ≤ columns.to }
        ensures { GivesRowAmong columns self.old result self.new }
    {
        if self.next >= self.edge.seen.to {
            return None;
        }
        Some(self.take(columns))
    }

    /// Of the next row, those among some columns.
    #[inline(always)]
    fn take(&mut self, columns: Span) -> WideRow
        requires left { self.old.next <ℤ self.old.end }
        requires order { columns.from ≤ columns.to }
        ensures { TakesRowAmong columns self.old self.new result }
    {
        let row = WideRow {
            y: self.next,
            columns: self.edge.part(self.nib, columns),
        };
        self.edge.move_on(self.nib, i64::from(self.next));
        self.next += 1;
        row
    }
}
