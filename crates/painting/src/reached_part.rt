//! The part of a region that a nib reaches along lines, so that lines in two far corners don't take a mask as large as the
//! surface.

ghost use Rattle.std.specs.Prelude.{◌≡◌, ◌≤◌, ◌+ℤ◌, ◌-ℤ◌, ◌≤ℤ◌, ◌^◌, ℕ, pos, true};
ghost use Rattle.mapping.specs.Nibs.{IsNib};
ghost use Rattle.span_fill.specs.Lines.{HasNearEnds};
ghost use Rattle.span_fill.specs.Spans.{in_region, in_span};
ghost use Rattle.span_fill.specs.WideStrokes.{in_wide_stroke, on_wide_line};
ghost use Rattle.painting.specs.ReachedParts.{HasAllOf, IsPartOf, IsWithin};
ghost use Rattle.painting.specs.Regions.{IsOfSide};

use mapping::{Nib, reach_after, reach_before};
use span_fill::{Line, Outline, Region, Span, wide_stroke_law};

/// The smallest box of a region that contains, for each line of an outline, what the region has between the line's ends, as
/// far as the nib reaches.
pub(crate) fn reached_part<O: Outline + Copy>(outline: O, nib: Nib, drawn: Region) -> Region
    requires nib { IsNib nib }
    requires columns { IsOfSide drawn.columns }
    requires rows { IsOfSide drawn.rows }
    ensures part { IsPartOf drawn result }
    ensures all { HasAllOf drawn (in_wide_stroke nib (O.lines outline)) result }
{
    let mut lines = outline;
    let mut reached = nothing_of(drawn);
    while let Some(line) = lines.next_line() {
        reached = joined(reached, reached_by(line, nib, drawn));
    }
    ordered(reached, drawn)
}

/// No pixel of a region: its ends are exchanged, so that each pixel of the region extends it.
fn nothing_of(drawn: Region) -> Region
    requires columns { IsOfSide drawn.columns }
    requires rows { IsOfSide drawn.rows }
    ensures within { IsWithin drawn result }
{
    Region {
        columns: Span {
            from: drawn.columns.to,
            to: drawn.columns.from,
        },
        rows: Span {
            from: drawn.rows.to,
            to: drawn.rows.from,
        },
    }
}

/// What a region has between a line's ends, as far as the nib reaches.
fn reached_by(line: Line, nib: Nib, drawn: Region) -> Region
    requires near { HasNearEnds line }
    requires nib { IsNib nib }
    requires columns { IsOfSide drawn.columns }
    requires rows { IsOfSide drawn.rows }
    ensures within { IsWithin drawn result }
    ensures all { HasAllOf drawn (λ x y. on_wide_line nib line (pos x) (pos y)) result }
{
    wide_stroke_law();
    let left = first_of(line.from.x, line.to.x, reach_before(nib.x));
    let right = last_of(line.from.x, line.to.x, reach_after(nib.x));
    let top = first_of(line.from.y, line.to.y, reach_before(nib.y));
    let bottom = last_of(line.from.y, line.to.y, reach_after(nib.y));
    let columns = part_of_span(drawn.columns, left, right);
    let rows = part_of_span(drawn.rows, top, bottom);
    Region { columns, rows }
}

/// The first coordinate that a nib reaches from one of two.
fn first_of(one: i32, other: i32, reach: i32) -> i64
    requires some { pos 0 ≤ℤ reach }
    ensures one { result ≤ℤ (one -ℤ reach) }
    ensures other { result ≤ℤ (other -ℤ reach) }
{
    let least = one.min(other);
    i64::from(least) - i64::from(reach)
}

/// The last coordinate that it reaches from one of them.
fn last_of(one: i32, other: i32, reach: i32) -> i64
    requires some { pos 0 ≤ℤ reach }
    ensures one { (one +ℤ reach) ≤ℤ result }
    ensures other { (other +ℤ reach) ≤ℤ result }
    ensures few { result ≤ℤ pos (2 ^ 62) }
{
    let most = one.max(other);
    i64::from(most) + i64::from(reach)
}

/// The part of a span from one number to another, inclusive.
fn part_of_span(span: Span, first: i64, last: i64) -> Span
    requires side { IsOfSide span }
    requires few { last ≤ℤ pos (2 ^ 62) }
    ensures from { span.from ≤ result.from }
    ensures order { result.from ≤ result.to }
    ensures to { result.to ≤ span.to }
    ensures all { (n : ℕ) → in_span span n ≡ true → first ≤ℤ pos n → pos n ≤ℤ last → in_span result n ≡ true }
{
    span.between(first, last + 1)
}

/// The smallest box that contains a part of a region and another part, if that has a pixel.
fn joined(reached: Region, part: Region) -> Region
    ensures first { (x y : ℕ) → in_region reached x y ≡ true → in_region result x y ≡ true }
    ensures second { (x y : ℕ) → in_region part x y ≡ true → in_region result x y ≡ true }
    ensures within { (drawn : Region) → IsWithin drawn reached → IsWithin drawn part → IsWithin drawn result }
{
    if part.columns.from >= part.columns.to || part.rows.from >= part.rows.to {
        return reached;
    }
    Region {
        columns: hull(reached.columns, part.columns),
        rows: hull(reached.rows, part.rows),
    }
}

/// The smallest span that contains two.
fn hull(one: Span, other: Span) -> Span
    ensures first { (n : ℕ) → in_span one n ≡ true → in_span result n ≡ true }
    ensures second { (n : ℕ) → in_span other n ≡ true → in_span result n ≡ true }
    ensures least { (from : ℕ) → from ≤ one.from → from ≤ other.from → from ≤ result.from }
    ensures most { (to : ℕ) → one.to ≤ to → other.to ≤ to → result.to ≤ to }
    ensures low { result.from ≤ one.from }
{
    Span {
        from: one.from.min(other.from),
        to: one.to.max(other.to),
    }
}

/// The same pixels of a region, with ends in order.
fn ordered(reached: Region, drawn: Region) -> Region
    requires columns { IsOfSide drawn.columns }
    requires rows { IsOfSide drawn.rows }
    requires within { IsWithin drawn reached }
    ensures part { IsPartOf drawn result }
    ensures same { (x y : ℕ) → in_region reached x y ≡ true → in_region result x y ≡ true }
{
    Region {
        columns: ordered_span(reached.columns),
        rows: ordered_span(reached.rows),
    }
}

/// The same span, with ends in order.
fn ordered_span(span: Span) -> Span
    ensures from { result.from ≡ span.from }
    ensures order { result.from ≤ result.to }
    ensures to { (most : ℕ) → span.from ≤ most → span.to ≤ most → result.to ≤ most }
    ensures same { (n : ℕ) → in_span span n ≡ true → in_span result n ≡ true }
{
    Span {
        from: span.from,
        to: span.to.max(span.from),
    }
}
