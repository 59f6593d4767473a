//! The limits on coordinates and sizes.

ghost use Rattle.mapping.specs.LimitTests.{TestsAreLimits};

/// The greatest distance of a plane coordinate from 0.
pub(crate) const PLANE_LIMIT: i64 = 1 << 30;

/// The greatest distance of a placed coordinate from 0.
pub(crate) const PLACE_LIMIT: i64 = 1 << 28;

/// The greatest width or height of a surface, in pixels.
pub const MAX_SURFACE_SIDE: u32 = 8192;

/// The greatest width or height of a frame, in plane units.
pub const MAX_FRAME_SIDE: u32 = 1 << 28;

/// A law: the tests of the limits are true exactly if the limits hold.
pub fn limits_law()
    ensures { TestsAreLimits }
{}
