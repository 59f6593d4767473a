//! Moving edges to the next row by additions.

ghost use Rattle.std.specs.Prelude.{◌≡◌, ◌+◌, ◌≤◌, ◌^◌, pos, ◌+ℤ◌, ◌-ℤ◌, ◌*ℤ◌, ◌≤ℤ◌, ◌<ℤ◌, if◌then◌else◌, ◌&&◌, int_le, map, IsTrue, vec_len, vec_capacity};
ghost use Rattle.std.specs.List.{All};
ghost use Rattle.std.specs.List.Sorted.{IsNonDecreasingBy};
ghost use Rattle.mapping.specs.Limits.{IsWithin};
ghost use Rattle.span_fill.specs.Edges.{EdgeCanMove, column_of, is_over, moved, moved_column, moved_rest};
ghost use Rattle.span_fill.specs.Insertion.{are_in_order, lowest};

use crate::edge::ActiveEdge;

impl ActiveEdge {
    /// Moves to the next row.
    #[inline]
    fn move_on(&mut self)
        requires { EdgeCanMove self.old }
        ensures { self.new ≡ moved self.old }
    {
        let sum = self.rest + self.more;
        let over = self.divisor <= sum;
        self.column = raised(self.column + self.step, over);
        self.rest = lowered(sum, self.divisor, over);
    }
}

/// Moves all edges to the next row. Returns whether they are sorted by the columns where they cross it.
#[inline]
pub(crate) fn move_edges(active: &mut Vec<ActiveEdge>) -> bool
    requires { All EdgeCanMove active.old.items }
    ensures edges { active.new.items ≡ map moved active.old.items }
    ensures sorted { IsTrue result → IsNonDecreasingBy column_of active.new.items }
    ensures length { vec_len active.new ≡ vec_len active.old }
    ensures capacity { vec_capacity active.new ≡ vec_capacity active.old }
{
    move_all(active.as_mut_slice())
}

/// Moves all edges to the next row. Returns whether they are sorted by their columns.
#[inline]
fn move_all(active: &mut [ActiveEdge]) -> bool
    requires { All EdgeCanMove active.old }
    ensures edges { active.new ≡ map moved active.old }
    ensures order { result ≡ are_in_order lowest active.new }
{
    let mut ordered = true;
    let mut before = i64::MIN;
    for edge in active.iter_mut() {
        edge.move_on();
        ordered = goes_on(ordered, before, edge.column);
        before = edge.column;
    }
    ordered
}

/// Whether a sorted order continues with this column after the previous one.
#[inline]
fn goes_on(ordered: bool, before: i64, column: i64) -> bool
    ensures { result ≡ (ordered && int_le before column) }
{
    ordered && before <= column
}

/// The column plus 1, if the remainder overflows.
#[inline]
fn raised(column: i64, over: bool) -> i64
    requires { IsWithin (2 ^ 62 + 2 ^ 32) column }
    ensures { result ≡ column +ℤ (if over then pos 1 else pos 0) }
{
    column + i64::from(over)
}

/// The remainder minus the divisor, if it overflows.
#[inline]
fn lowered(rest: i64, divisor: i64, over: bool) -> i64
    requires rest { IsWithin (2 ^ 32) rest }
    requires divisor_low { pos 0 ≤ℤ divisor }
    requires divisor_high { divisor ≤ℤ pos (2 ^ 32) }
    ensures { result ≡ rest -ℤ (if over then divisor else pos 0) }
{
    if over { rest - divisor } else { rest }
}
