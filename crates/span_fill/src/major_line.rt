//! Lines by their major axis, and the start of a walk along one.

ghost use Rattle.std.specs.Prelude.{◌≡◌, ℕ, ◌+◌, ◌*◌, ◌^◌, ◌<◌, ◌≤◌, ℤ, int_lt, pos, negsuc, neg_ℤ, ◌+ℤ◌, ◌-ℤ◌, ◌*ℤ◌, ◌≤ℤ◌, ◌<ℤ◌};
ghost use Rattle.span_fill.specs.Axis.{IsOffset, IsPlace, ahead};

use crate::division::{Divided, divide};
use crate::product::{doubled, product};
use crate::walk::Walk;

/// A line from `(from_u, from_v)` to `(to_u, to_v)`, where `u` is the coordinate on its major axis.
#[derive(Clone, Copy, Debug)]
pub(crate) struct MajorLine {
    pub(crate) from_u: i32,
    pub(crate) from_v: i32,
    pub(crate) to_u: i32,
    pub(crate) to_v: i32,
}

/// The progress of a line along its minor axis: the floor of `(2*step*short + long) / (2*long)`, and the remainder.
#[derive(Clone, Copy, Debug)]
struct Offset {
    across: i32,
    rest: u32,
}

/// What a step adds to the remainder, and before that to the coordinate on the minor axis.
#[derive(Clone, Copy, Debug)]
struct Slope {
    more: u32,
    back: i32,
}

impl MajorLine {
    ghost use Rattle.span_fill.specs.MajorLines.{IsMajorLine, IsOn, length_of, rise_of};

    /// The walk along the line, `step` steps from its start.
    pub(crate) fn walk(self, step: u32) -> Walk
        requires major { IsMajorLine self }
        requires within { step ≤ length_of self }
        requires some { 1 ≤ length_of self }
        ensures { IsOn self step result }
    {
        let offset = self.offset(step);
        let slope = slope_of(self.length(), self.rise());
        Walk {
            u: self.reached(step),
            v: self.placed(offset),
            rest: offset.rest,
            more: slope.more,
            full: 2 * self.length(),
            back: slope.back,
            forwards: self.is_forwards(),
        }
    }

    /// The number of steps.
    pub(crate) fn length(self) -> u32
        requires { IsMajorLine self }
        ensures value { result ≡ length_of self }
        ensures bound { result ≤ 2 ^ 29 + 2 }
    {
        self.to_u.abs_diff(self.from_u)
    }

    /// The progress of the whole line along its minor axis.
    pub(crate) fn rise(self) -> i32
        requires { IsMajorLine self }
        ensures value { result ≡ rise_of self }
        ensures low { neg_ℤ (pos (length_of self)) ≤ℤ result }
        ensures high { result ≤ℤ pos (length_of self) }
    {
        self.to_v - self.from_v
    }

    /// Whether the coordinate on its major axis grows.
    pub(crate) fn is_forwards(self) -> bool
        ensures { result ≡ int_lt self.from_u self.to_u }
    {
        self.from_u < self.to_u
    }

    /// The coordinate on the major axis after this many steps.
    fn reached(self, step: u32) -> i32
        requires major { IsMajorLine self }
        requires within { step ≤ length_of self }
        ensures { result ≡ ahead (int_lt self.from_u self.to_u) self.from_u step }
    {
        let distance = step as i32;
        if self.is_forwards() {
            self.from_u + distance
        } else {
            self.from_u - distance
        }
    }

    /// The progress along the minor axis after this many steps.
    fn offset(self, step: u32) -> Offset
        requires major { IsMajorLine self }
        requires within { step ≤ length_of self }
        requires some { 1 ≤ length_of self }
        ensures offset { IsOffset (length_of self) (rise_of self) step result.across (pos result.rest) }
        ensures below { result.rest < 2 * length_of self }
    {
        offset_after(self.length(), self.rise(), step)
    }

    /// The coordinate on the minor axis for this progress.
    fn placed(self, offset: Offset) -> i32
        requires major { IsMajorLine self }
        requires low { neg_ℤ (pos (length_of self)) ≤ℤ offset.across }
        requires high { offset.across ≤ℤ pos (length_of self) }
        ensures { result ≡ self.from_v +ℤ offset.across }
    {
        self.from_v + offset.across
    }
}

/// What a step adds.
fn slope_of(long: u32, short: i32) -> Slope
    requires long { long ≤ 2 ^ 29 + 2 }
    requires low { neg_ℤ (pos long) ≤ℤ short }
    requires high { short ≤ℤ pos long }
    ensures moves { pos result.more ≡ pos 2 *ℤ short -ℤ pos 2 *ℤ (pos long *ℤ result.back) }
    ensures within { result.more ≤ 2 * long }
    ensures low { negsuc 0 ≤ℤ result.back }
    ensures high { result.back ≤ℤ pos 0 }
{
    let distance = short.unsigned_abs();
    if short < 0 {
        return Slope {
            more: 2 * (long - distance),
            back: -1,
        };
    }
    Slope {
        more: 2 * distance,
        back: 0,
    }
}

/// The progress of a line after `step` steps. At the start nothing is divided.
fn offset_after(long: u32, short: i32, step: u32) -> Offset
    requires some { 1 ≤ long }
    requires long { long ≤ 2 ^ 29 + 2 }
    requires low { neg_ℤ (pos long) ≤ℤ short }
    requires high { short ≤ℤ pos long }
    requires within { step ≤ long }
    ensures offset { IsOffset long short step result.across (pos result.rest) }
    ensures below { result.rest < 2 * long }
{
    if step == 0 {
        return Offset {
            across: 0,
            rest: long,
        };
    }
    narrowed(divided_offset(long, short, step))
}

/// The same, by division.
fn divided_offset(long: u32, short: i32, step: u32) -> Divided
    requires some { 1 ≤ long }
    requires long { long ≤ 2 ^ 29 + 2 }
    requires low { neg_ℤ (pos long) ≤ℤ short }
    requires high { short ≤ℤ pos long }
    requires within { step ≤ long }
    ensures offset { IsOffset long short step result.quotient result.rest }
    ensures rest { pos 0 ≤ℤ result.rest }
    ensures below { result.rest <ℤ pos (2 * long) }
{
    divide(dividend(long, short, step), i64::from(2 * long))
}

/// A quotient and a remainder as numbers of 32 bits.
fn narrowed(divided: Divided) -> Offset
    requires low { negsuc (2 ^ 30) ≤ℤ divided.quotient }
    requires high { divided.quotient ≤ℤ pos (2 ^ 30) }
    requires not_negative { pos 0 ≤ℤ divided.rest }
    requires below { divided.rest ≤ℤ pos (2 ^ 31) }
    ensures across { result.across ≡ divided.quotient }
    ensures rest { pos result.rest ≡ divided.rest }
{
    Offset {
        across: divided.quotient as i32,
        rest: divided.rest as u32,
    }
}

/// The dividend after `step` steps.
fn dividend(long: u32, short: i32, step: u32) -> i64
    requires long { long ≤ 2 ^ 29 + 2 }
    requires low { neg_ℤ (pos long) ≤ℤ short }
    requires high { short ≤ℤ pos long }
    requires within { step ≤ long }
    ensures value { result ≡ pos 2 *ℤ (pos step *ℤ short) +ℤ pos long }
    ensures least { negsuc (2 ^ 62) ≤ℤ result }
    ensures most { result ≤ℤ pos (2 ^ 62) }
{
    doubled(product(step, short)) + i64::from(long)
}
