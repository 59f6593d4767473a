//! The steps of a line that lie within a region.

ghost use Rattle.std.specs.Prelude.{◌≡◌, ℕ, ◌+◌, ◌*◌, ◌^◌, ◌<◌, ◌≤◌, ◌↔◌, ℤ, IsTrue, pos, negsuc, neg_ℤ, ◌+ℤ◌, ◌-ℤ◌, ◌*ℤ◌, ◌≤ℤ◌, ◌<ℤ◌};
ghost use Rattle.span_fill.specs.Clips.{SpanHas, IsIn};
ghost use Rattle.span_fill.specs.MajorLines.{AreStepsWithin, IsMajorLine, IsPixelOf, length_of, rise_of, major_step};

use crate::division::divide;
use crate::major_line::MajorLine;
use crate::product::product;
use crate::span::Span;

/// The steps of a line whose coordinates lie within `u` on the major axis and within `v` on the minor one. If both ends
/// of the line lie within them, all steps do. Most lines of a drawing are such lines, and are spared a call.
#[inline(always)]
pub(crate) fn clipped(major: MajorLine, u: Span, v: Span) -> Span
    requires major { IsMajorLine major }
    requires u { u.to ≤ 8192 }
    requires v { v.to ≤ 8192 }
    ensures exact { AreStepsWithin major u v result }
    ensures bound { result.to ≤ length_of major }
{
    if contains_both(u, major.from_u, major.to_u) && contains_both(v, major.from_v, major.to_v) {
        return Span {
            from: 0,
            to: major.length(),
        };
    }
    common_steps(major, u, v)
}

/// The same, wherever the ends lie. A line that doesn't get to `u` needs no division.
#[inline(never)]
fn common_steps(major: MajorLine, u: Span, v: Span) -> Span
    requires major { IsMajorLine major }
    requires u { u.to ≤ 8192 }
    requires v { v.to ≤ 8192 }
    ensures exact { AreStepsWithin major u v result }
    ensures bound { result.to ≤ length_of major }
{
    let along = steps_along(major, ordered(u));
    if along.to <= along.from {
        return along;
    }
    common(along, steps_across(major, ordered(v)))
}

/// Whether a span contains both coordinates.
fn contains_both(span: Span, first: i32, last: i32) -> bool
    ensures { IsTrue result ↔ (SpanHas span first × SpanHas span last) }
{
    contains(span, first) && contains(span, last)
}

/// Whether a span contains a coordinate.
fn contains(span: Span, at: i32) -> bool
    ensures { IsTrue result ↔ SpanHas span at }
{
    i64::from(span.from) <= i64::from(at) && i64::from(at) < i64::from(span.to)
}

/// The same span, with its ends in order.
fn ordered(span: Span) -> Span
    ensures same { (z : ℤ) → (SpanHas result z ↔ SpanHas span z) }
    ensures to { result.to ≡ span.to }
    ensures order { result.from ≤ result.to }
{
    Span {
        from: span.from.min(span.to),
        to: span.to,
    }
}

/// The intersection of two spans.
fn common(a: Span, b: Span) -> Span
    ensures both { (k : ℕ) → (IsIn result k ↔ (IsIn a k × IsIn b k)) }
    ensures first { result.to ≤ a.to }
    ensures second { result.to ≤ b.to }
{
    Span {
        from: a.from.max(b.from),
        to: a.to.min(b.to),
    }
}

/// The steps at which the coordinate on the major axis is within a span.
fn steps_along(major: MajorLine, within: Span) -> Span
    requires major { IsMajorLine major }
    requires to { within.to ≤ 8192 }
    requires order { within.from ≤ within.to }
    ensures exact { (u v : ℤ) → IsPixelOf major u v → (IsIn result (major_step major u) ↔ SpanHas within u) }
    ensures bound { result.to ≤ length_of major }
{
    if major.is_forwards() {
        Span {
            from: run_up(major, within.from),
            to: run_up(major, within.to),
        }
    } else {
        Span {
            from: run_down(major, within.to),
            to: run_down(major, within.from),
        }
    }
}

/// The steps at which the coordinate on the minor axis is within a span.
fn steps_across(major: MajorLine, within: Span) -> Span
    requires major { IsMajorLine major }
    requires to { within.to ≤ 8192 }
    requires order { within.from ≤ within.to }
    ensures exact { (u v : ℤ) → IsPixelOf major u v → (IsIn result (major_step major u) ↔ SpanHas within v) }
    ensures bound { result.to ≤ length_of major }
{
    if major.rise() < 0 {
        Span {
            from: fall(major, within.to),
            to: fall(major, within.from),
        }
    } else {
        Span {
            from: rise(major, within.from),
            to: rise(major, within.to),
        }
    }
}

/// The distance of a row or column from a coordinate.
fn distance(from: i32, to: u32) -> i32
    requires low { negsuc (2 ^ 28) ≤ℤ from }
    requires high { from ≤ℤ pos (2 ^ 28 + 1) }
    requires to { to ≤ 8192 }
    ensures { result ≡ pos to -ℤ from }
{
    to as i32 - from
}

/// The distance of the coordinate before a row or column, in the other direction.
fn distance_below(from: i32, to: u32) -> i32
    requires low { negsuc (2 ^ 28) ≤ℤ from }
    requires high { from ≤ℤ pos (2 ^ 28 + 1) }
    requires to { to ≤ 8192 }
    ensures { result ≡ pos 1 -ℤ (pos to -ℤ from) }
{
    from - to as i32 + 1
}

/// The first step at which a line that goes forwards reaches a coordinate on the major axis, or its length.
fn run_up(major: MajorLine, bound: u32) -> u32
    requires major { IsMajorLine major }
    requires bound { bound ≤ 8192 }
    requires forwards { major.from_u <ℤ major.to_u }
    ensures exact { (u v : ℤ) → IsPixelOf major u v → (result ≤ major_step major u ↔ (pos bound ≤ℤ u)) }
    ensures within { result ≤ length_of major }
{
    first_from(distance(major.from_u, bound), major.length())
}

/// The first step at which a line that goes backwards is before a coordinate on the major axis, or its length.
fn run_down(major: MajorLine, bound: u32) -> u32
    requires major { IsMajorLine major }
    requires bound { bound ≤ 8192 }
    requires backwards { major.to_u ≤ℤ major.from_u }
    ensures exact { (u v : ℤ) → IsPixelOf major u v → (result ≤ major_step major u ↔ (u <ℤ pos bound)) }
    ensures within { result ≤ length_of major }
{
    first_from(distance_below(major.from_u, bound), major.length())
}

/// The first of `most` counts that is at least a distance, or `most` if none is.
fn first_from(distance: i32, most: u32) -> u32
    requires { most ≤ 2 ^ 30 }
    ensures exact { (k : ℕ) → k < most → (result ≤ k ↔ (distance ≤ℤ pos k)) }
    ensures bound { result ≤ most }
{
    if distance <= 0 {
        return 0;
    }
    most.min(distance as u32)
}

/// The first step at which a line that doesn't fall reaches a coordinate on the minor axis, or its length.
fn rise(major: MajorLine, bound: u32) -> u32
    requires major { IsMajorLine major }
    requires bound { bound ≤ 8192 }
    requires rises { pos 0 ≤ℤ rise_of major }
    ensures exact { (u v : ℤ) → IsPixelOf major u v → (result ≤ major_step major u ↔ (pos bound ≤ℤ v)) }
    ensures within { result ≤ length_of major }
{
    first_reach(amount(major, bound), each(major), major.length())
}

/// The first step at which a line that falls is before a coordinate on the minor axis, or its length.
fn fall(major: MajorLine, bound: u32) -> u32
    requires major { IsMajorLine major }
    requires bound { bound ≤ 8192 }
    requires falls { rise_of major ≤ℤ pos 0 }
    ensures exact { (u v : ℤ) → IsPixelOf major u v → (result ≤ major_step major u ↔ (v <ℤ pos bound)) }
    ensures within { result ≤ length_of major }
{
    first_reach(amount_below(major, bound), each(major), major.length())
}

/// What twice the rise of the steps must reach for a rising line to reach a coordinate.
fn amount(major: MajorLine, bound: u32) -> i64
    requires major { IsMajorLine major }
    requires bound { bound ≤ 8192 }
    ensures value { result ≡ pos (length_of major) *ℤ (pos 2 *ℤ (pos bound -ℤ major.from_v) -ℤ pos 1) }
    ensures least { negsuc (2 ^ 60 + 2 ^ 30) ≤ℤ result }
    ensures most { result ≤ℤ pos (2 ^ 60 + 2 ^ 30) }
{
    product(major.length(), odd(major, bound))
}

/// What twice the fall of the steps must reach for a falling line to be before a coordinate.
fn amount_below(major: MajorLine, bound: u32) -> i64
    requires major { IsMajorLine major }
    requires bound { bound ≤ 8192 }
    ensures value { result ≡ pos 1 -ℤ pos (length_of major) *ℤ (pos 2 *ℤ (pos bound -ℤ major.from_v) -ℤ pos 1) }
    ensures least { negsuc (2 ^ 61) ≤ℤ result }
    ensures most { result ≤ℤ pos (2 ^ 61) }
{
    1 - amount(major, bound)
}

/// Twice the distance of a coordinate on the minor axis from the line's start, minus 1.
fn odd(major: MajorLine, bound: u32) -> i32
    requires major { IsMajorLine major }
    requires bound { bound ≤ 8192 }
    ensures value { result ≡ pos 2 *ℤ (pos bound -ℤ major.from_v) -ℤ pos 1 }
    ensures least { negsuc (2 ^ 30) ≤ℤ result }
    ensures most { result ≤ℤ pos (2 ^ 30) }
{
    2 * distance(major.from_v, bound) - 1
}

/// Twice the amount by which a line rises or falls.
fn each(major: MajorLine) -> u32
    requires { IsMajorLine major }
    ensures rises { pos 0 ≤ℤ rise_of major → pos result ≡ pos 2 *ℤ rise_of major }
    ensures falls { rise_of major ≤ℤ pos 0 → pos result ≡ neg_ℤ (pos 2 *ℤ rise_of major) }
    ensures bound { result ≤ 2 ^ 31 }
{
    2 * major.rise().unsigned_abs()
}

/// The first of `most` counts whose multiple reaches an amount, or `most` if none does. If it is the first one or none,
/// nothing is divided.
fn first_reach(amount: i64, each: u32, most: u32) -> u32
    requires low { negsuc (2 ^ 61) ≤ℤ amount }
    requires high { amount ≤ℤ pos (2 ^ 61) }
    requires each { each ≤ 2 ^ 31 }
    requires most { most ≤ 2 ^ 30 }
    ensures exact { (k : ℕ) → k < most → (result ≤ k ↔ (amount ≤ℤ (pos each *ℤ pos k))) }
    ensures within { result ≤ most }
{
    if amount <= 0 {
        return 0;
    }
    if whole(each, most) < amount {
        return most;
    }
    divided_reach(amount, each, most)
}

/// The product of two counts.
fn whole(each: u32, most: u32) -> i64
    requires each { each ≤ 2 ^ 31 }
    requires most { most ≤ 2 ^ 30 }
    ensures { result ≡ pos each *ℤ pos most }
{
    i64::from(each) * i64::from(most)
}

/// The first count whose multiple reaches an amount.
fn divided_reach(amount: i64, each: u32, most: u32) -> u32
    requires low { pos 1 ≤ℤ amount }
    requires high { amount ≤ℤ pos (2 ^ 61) }
    requires reached { amount ≤ℤ (pos each *ℤ pos most) }
    requires most { most ≤ 2 ^ 30 }
    ensures exact { (k : ℕ) → (result ≤ k ↔ (amount ≤ℤ (pos each *ℤ pos k))) }
    ensures within { result ≤ most }
{
    count_from(divide(amount - 1, i64::from(each)).quotient)
}

/// The count after a quotient.
fn count_from(quotient: i64) -> u32
    requires low { pos 0 ≤ℤ quotient }
    requires high { quotient <ℤ pos (2 ^ 30) }
    ensures { pos result ≡ quotient +ℤ pos 1 }
{
    quotient as u32 + 1
}
