//! A walk along a line in fixed point: a step adds one number, and nothing is compared.

ghost use Rattle.std.specs.Prelude.{◌≡◌, ◌+◌, ◌*◌, ◌^◌, ◌<◌, ◌≤◌, pos, negsuc, ◌+ℤ◌, ◌*ℤ◌, ◌≤ℤ◌, ◌<ℤ◌};
ghost use Rattle.mapping.specs.Limits.{IsWithin};
ghost use Rattle.span_fill.specs.Axis.{ahead};
ghost use Rattle.span_fill.specs.FixedWalks.{CanWalk, IsFixed};
ghost use Rattle.span_fill.specs.MajorLines.{pixel_column, pixel_row};

use crate::pixel::Pixel;
use crate::walk::Walk;

/// One, in fixed point.
const ONE: u64 = 1 << 48;

/// A part of `ONE`: a number of 32 bits times this fits into 64.
const HIGH_PART: u64 = 1 << 32;

/// `ONE / HIGH_PART`.
const LOW_PART: u64 = 1 << 16;

/// The greatest divisor for which one division is enough.
const MAX_SHORT: u64 = 1 << 15;

/// A position on a line in fixed point. A walk's remainder becomes a fraction of 48 bits, rounded up, and each step adds
/// less than 2^-48 too much. Within 8,192 steps this changes no whole number, because the walk's divisor is below 2^31.
#[derive(Clone, Copy, Debug, Default)]
pub(crate) struct FixedWalk {
    /// The coordinate on the minor axis, times 2^48.
    pub(crate) at: i64,
    /// What a step adds to it.
    pub(crate) each: i64,
    pub(crate) u: i32,
    /// Whether `u` grows.
    pub(crate) forwards: bool,
}

impl FixedWalk {
    /// The position of a walk on a surface. This costs at most four divisions, and mostly one.
    pub(crate) fn of(walk: Walk) -> FixedWalk
        requires { CanWalk walk }
        ensures { IsFixed 1 walk result }
    {
        FixedWalk {
            at: fixed(walk.v, fraction(walk.rest, walk.full)),
            each: fixed(walk.back, fraction(walk.more, walk.full)),
            u: walk.u,
            forwards: walk.forwards,
        }
    }

    /// The whole coordinate on the minor axis.
    #[inline]
    pub(crate) fn v(self) -> u32
        requires low { pos 0 ≤ℤ self.at }
        requires high { self.at <ℤ pos (2 ^ 62) }
        ensures low { (pos result *ℤ pos (2 ^ 48)) ≤ℤ self.at }
        ensures high { self.at <ℤ ((pos result +ℤ pos 1) *ℤ pos (2 ^ 48)) }
    {
        (self.at as u64 / ONE) as u32
    }

    /// The position after one more step.
    #[inline]
    pub(crate) fn advanced(self) -> FixedWalk
        requires u { IsWithin (2 ^ 30) self.u }
        requires at { IsWithin (2 ^ 61) self.at }
        requires each { IsWithin (2 ^ 61) self.each }
        ensures u { result.u ≡ ahead self.forwards self.u 1 }
        ensures at { result.at ≡ self.at +ℤ self.each }
        ensures each { result.each ≡ self.each }
        ensures forwards { result.forwards ≡ self.forwards }
    {
        FixedWalk {
            at: self.at + self.each,
            each: self.each,
            u: moved(self.u, self.forwards),
            forwards: self.forwards,
        }
    }
}

/// The pixel at these coordinates. `u` is its row if the line is `y_major`, otherwise its column.
#[inline]
pub(crate) fn pixel_at(u: i32, v: u32, y_major: bool) -> Pixel
    requires { pos 0 ≤ℤ u }
    ensures x { pos result.x ≡ pixel_column y_major u (pos v) }
    ensures y { pos result.y ≡ pixel_row y_major u (pos v) }
{
    if y_major {
        Pixel { x: v, y: u as u32 }
    } else {
        Pixel { x: u as u32, y: v }
    }
}

/// A whole number and a fraction in fixed point.
fn fixed(whole: i32, part: u64) -> i64
    requires whole { IsWithin (2 ^ 13) whole }
    requires part { part ≤ 2 ^ 49 }
    ensures { result ≡ whole *ℤ pos (2 ^ 48) +ℤ pos part }
{
    i64::from(whole) * ONE as i64 + part as i64
}

/// `part / whole` in fixed point, rounded up.
fn fraction(part: u32, whole: u32) -> u64
    requires some { 1 ≤ whole }
    requires within { part ≤ whole }
    requires small { whole < 2 ^ 31 }
    ensures low { part * 2 ^ 48 ≤ result * whole }
    ensures high { result * whole ≤ part * 2 ^ 48 + whole }
    ensures small { result ≤ 2 ^ 49 }
{
    if whole == 2 * part {
        return ONE / 2;
    }
    let (part, whole) = (u64::from(part), u64::from(whole));
    if whole <= MAX_SHORT {
        return (part * ONE).div_ceil(whole);
    }
    let high = part * HIGH_PART / whole;
    let left = part * HIGH_PART - high * whole;
    high * LOW_PART + (left * LOW_PART).div_ceil(whole)
}

/// The next coordinate in this direction.
fn moved(u: i32, forwards: bool) -> i32
    requires { IsWithin (2 ^ 30) u }
    ensures { result ≡ ahead forwards u 1 }
{
    if forwards { u + 1 } else { u - 1 }
}
