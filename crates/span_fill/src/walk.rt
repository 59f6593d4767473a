//! The position on a line after some steps.

/// A position on a line that has `long` steps along its major axis and moves by `short` along its minor axis, which may
/// be negative. `u` is the coordinate on the major axis, `v` the nearest one on the minor axis. After `k` steps,
/// `2*k*short + long` is `2*long*(v - v0) + rest`, where `v0` is the line's start.
#[derive(Clone, Copy, Debug, Default)]
pub(crate) struct Walk {
    pub(crate) u: i32,
    pub(crate) v: i32,
    /// From 0 to before `full`.
    pub(crate) rest: u32,
    /// What a step adds to the remainder: `2*short`, or `2*short + 2*long` if `short` is negative.
    pub(crate) more: u32,
    /// `2*long`, which the remainder may not reach.
    pub(crate) full: u32,
    /// What each step adds to `v` before the remainder is tested: -1 if `short` is negative, otherwise 0.
    pub(crate) back: i32,
    /// Whether `u` grows.
    pub(crate) forwards: bool,
}
