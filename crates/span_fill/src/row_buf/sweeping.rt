//! The rows of a fill: from active edges, which move from row to row, or from a table of a few columns.

ghost use Rattle.std.specs.Prelude.{◌≡◌, ◌+◌, ◌<◌, ◌≤◌};
ghost use Rattle.span_fill.specs.RowState.{FillsRow, SameWork, IsFillingWork};

use crate::active_edges::{admit, retire, sort_edges};
use crate::column_table::{MANY_EDGES, is_worth};
use crate::counted_row::{count_row, is_counted};
use crate::crossing_moves::move_edges;
use crate::edge_list::collect_edges;
use crate::events::next_event;
use crate::insertion::sort_active;
use crate::row_buf::RowBuf;
use crate::span::Span;
use crate::sweep::sweep;

impl RowBuf {
    /// Switches to a table of the interval's columns once many edges have been moved so often that it would have taken
    /// less time. The number of remaining rows isn't known, but this takes at most twice the time of the better way.
    #[inline(never)]
    fn turn_to_table(&mut self, interval: Span)
        requires filling { IsFillingWork self.old.work }
        requires interval { interval.to ≤ 8192 }
        ensures { self.new ≡ self.old }
    {
        let edges = self.active.len();
        if edges < MANY_EDGES || self.table.is_used {
            return;
        }
        let moves = self.table.moves.saturating_add(edges as u64);
        self.table.moves = moves;
        if is_worth(moves, self.lines.len(), interval) {
            self.table.put(self.rule, self.lines.as_slice(), interval);
            self.is_sorted = false;
            self.event = 0;
        }
    }

    /// Computes the spans of the next row within the interval. Doesn't advance to the row after it.
    pub(super) fn sweep_row(&mut self, interval: Span)
        requires filling { IsFillingWork self.old.work }
        requires next { self.old.next < 8192 }
        requires interval { interval.to ≤ 8192 }
        ensures spans { FillsRow self.old.work self.old.lines self.old.next interval self.new.spans }
        ensures next { self.new.next ≡ self.old.next }
        ensures same { SameWork self.old self.new }
    {
        self.spans.clear();
        if interval.from >= interval.to {
            return;
        }
        if is_counted(self.active.len(), self.is_sorted, interval) {
            if self.table.is_used {
                if self.table.has_columns(interval) {
                    self.table.put_row(self.next, interval, &mut self.spans);
                    return;
                }
                self.sweep_anew(interval);
                return;
            }
            count_row(
                self.rule,
                self.active.as_slice(),
                interval,
                &mut self.counts,
                &mut self.spans,
            );
            self.turn_to_table(interval);
            return;
        }
        sort_active(&mut self.active, self.is_sorted);
        self.is_sorted = true;
        sweep(self.rule, self.active.as_slice(), interval, &mut self.spans);
    }

    /// The same with edges that start anew at this row, because the table doesn't have all columns of the interval.
    #[inline(never)]
    fn sweep_anew(&mut self, interval: Span)
        requires filling { IsFillingWork self.old.work }
        requires interval { interval.to ≤ 8192 }
        requires order { interval.from < interval.to }
        ensures spans { FillsRow self.old.work self.old.lines self.old.next interval self.new.spans }
        ensures next { self.new.next ≡ self.old.next }
        ensures same { SameWork self.old self.new }
    {
        self.spans.clear();
        self.table.begin();
        collect_edges(&mut self.edges, self.lines.as_slice(), self.next);
        sort_edges(&mut self.edges);
        self.active.clear();
        self.begun = admit(&mut self.active, self.edges.as_slice(), 0, self.next);
        self.event = next_event(self.active.as_slice(), self.edges.as_slice(), self.begun);
        sort_active(&mut self.active, false);
        self.is_sorted = true;
        sweep(self.rule, self.active.as_slice(), interval, &mut self.spans);
    }

    /// Advances to the next row.
    #[inline]
    pub(super) fn step(&mut self)
        requires filling { IsFillingWork self.old.work }
        requires next { self.old.next < 8192 }
        ensures spans { self.new.spans ≡ self.old.spans }
        ensures next { self.new.next ≡ self.old.next + 1 }
        ensures same { SameWork self.old self.new }
    {
        let next = self.next + 1;
        if next < self.event {
            self.next = next;
            self.is_sorted = move_edges(&mut self.active);
        } else {
            self.pass_event();
        }
    }

    /// The same where edges end or begin, or where rows are read from a table.
    #[inline(never)]
    fn pass_event(&mut self)
        requires filling { IsFillingWork self.old.work }
        requires next { self.old.next < 8192 }
        ensures spans { self.new.spans ≡ self.old.spans }
        ensures next { self.new.next ≡ self.old.next + 1 }
        ensures same { SameWork self.old self.new }
    {
        self.next += 1;
        if self.table.is_used {
            return;
        }
        retire(&mut self.active, self.next);
        move_edges(&mut self.active);
        self.begun = admit(
            &mut self.active,
            self.edges.as_slice(),
            self.begun,
            self.next,
        );
        self.is_sorted = false;
        self.event = next_event(self.active.as_slice(), self.edges.as_slice(), self.begun);
    }
}
