//! Boxes of a surface, widened by a nib.

ghost use Rattle.std.specs.Prelude.{◌≡◌, ◌+ℤ◌, ◌-ℤ◌, ◌≤ℤ◌, pos};
ghost use Rattle.mapping.specs.Nibs.{IsNib};
ghost use Rattle.painting.specs.RectangleBoxes.{IsNearBox};
ghost use Rattle.span_fill.specs.Lines.{IsNear};
ghost use Rattle.span_fill.specs.WideStrokes.{widened};

use mapping::{Nib, Rect, reach_after, reach_before};

/// The box of all that a nib covers as it moves over the pixels of a box.
pub(crate) fn widened(inside: Rect, nib: Nib) -> Rect
    requires near { IsNearBox inside }
    requires nib { IsNib nib }
    ensures { result ≡ widened nib inside }
{
    Rect {
        l: less(inside.l, reach_before(nib.x)),
        t: less(inside.t, reach_before(nib.y)),
        r: more(inside.r, reach_after(nib.x)),
        b: more(inside.b, reach_after(nib.y)),
    }
}

/// An edge, minus this number of columns or rows.
fn less(edge: i32, count: i32) -> i32
    requires near { IsNear edge }
    requires some { pos 0 ≤ℤ count }
    requires few { count ≤ℤ pos 4095 }
    ensures { result ≡ edge -ℤ count }
{
    edge - count
}

/// An edge, plus this number of columns or rows.
fn more(edge: i32, count: i32) -> i32
    requires near { IsNear edge }
    requires some { pos 0 ≤ℤ count }
    requires few { count ≤ℤ pos 4095 }
    ensures { result ≡ edge +ℤ count }
{
    edge + count
}
