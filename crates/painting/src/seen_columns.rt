//! The columns of a row that can be painted, so that colours are gathered for no others.

ghost use Rattle.std.specs.Prelude.{◌≡◌, ◌≤◌, ℕ, true};
ghost use Rattle.mapping.specs.PixelBoxes.{in_box};
ghost use Rattle.span_fill.specs.Spans.{AreApart, in_span, in_spans};
ghost use Rattle.painting.specs.Strips.{is_uncut, placed_boxes};

use crate::strips::hidden;
use dc_stack::ClipBox;
use mapping::Rect;
use span_fill::Span;

/// The columns from the start of the first span to the end of the last one.
pub(crate) fn hull(spans: &[Span]) -> Span
    requires apart { AreApart 0 8192 spans.now }
    ensures all { (x : ℕ) → in_spans spans.now x ≡ true → in_span result x ≡ true }
    ensures order { result.from ≤ result.to }
    ensures end { result.to ≤ 8192 }
{
    let (Some(first), Some(last)) = (spans.first(), spans.last()) else {
        return Span { from: 0, to: 0 };
    };
    Span {
        from: first.from,
        to: last.to,
    }
}

/// The columns that remain after each box, in turn, has cut off their start or their end.
pub(crate) fn uncut_part(columns: Span, y: u32, cuts: &[ClipBox]) -> Span
    requires order { columns.from ≤ columns.to }
    ensures all { (x : ℕ) → in_span columns x ≡ true → is_uncut (placed_boxes cuts.now) x y ≡ true → in_span result x ≡ true }
    ensures first { columns.from ≤ result.from }
    ensures order { result.from ≤ result.to }
    ensures last { result.to ≤ columns.to }
{
    let mut part = columns;
    for cut in cuts {
        part = less(part, cut.placed, y);
    }
    part
}

/// The columns outside a box, if the box covers their start or their end.
fn less(columns: Span, cut: Rect, y: u32) -> Span
    requires order { columns.from ≤ columns.to }
    ensures all { (x : ℕ) → in_span columns x ≡ true → (in_box cut x y ≡ true → ⊥) → in_span result x ≡ true }
    ensures first { columns.from ≤ result.from }
    ensures order { result.from ≤ result.to }
    ensures last { result.to ≤ columns.to }
{
    let hidden = hidden(cut, y, columns);
    if hidden.from == columns.from {
        return Span {
            from: hidden.to,
            to: columns.to,
        };
    }
    if hidden.to == columns.to {
        return Span {
            from: columns.from,
            to: hidden.from,
        };
    }
    columns
}
