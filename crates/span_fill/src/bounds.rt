//! The range of a line on each axis.

ghost use Rattle.std.specs.Prelude.{◌≡◌, ◌↔◌, ℤ, pos, ◌+ℤ◌, ◌≤ℤ◌, ◌<ℤ◌, IsTrue};
ghost use Rattle.span_fill.specs.MajorLines.{IsMajorLine, IsHorizontal, IsPixelOf, has_along};

use crate::major_line::MajorLine;

/// Coordinates, from the first to before the last.
#[derive(Clone, Copy, Debug)]
pub(crate) struct CoordinateRange {
    pub(crate) from: i32,
    pub(crate) to: i32,
}

/// The range of a line on its major axis.
pub(crate) fn run(major: MajorLine) -> CoordinateRange
    requires { IsMajorLine major }
    ensures exact { (u : ℤ) → (IsTrue (has_along major u) ↔ ((result.from ≤ℤ u) × (u <ℤ result.to))) }
    ensures order { result.from ≤ℤ result.to }
{
    if major.is_forwards() {
        CoordinateRange {
            from: major.from_u,
            to: major.to_u,
        }
    } else {
        CoordinateRange {
            from: major.to_u + 1,
            to: major.from_u + 1,
        }
    }
}

/// The range of a line on its minor axis, including its last point.
pub(crate) fn hull(major: MajorLine) -> CoordinateRange
    requires { IsMajorLine major }
    ensures within { (u v : ℤ) → IsPixelOf major u v → (result.from ≤ℤ v) × (v <ℤ result.to) }
    ensures horizontal { IsHorizontal major → (result.from ≡ major.from_v) × (result.to ≡ major.from_v +ℤ pos 1) }
    ensures order { result.from ≤ℤ result.to }
{
    if major.from_v <= major.to_v {
        CoordinateRange {
            from: major.from_v,
            to: major.to_v + 1,
        }
    } else {
        CoordinateRange {
            from: major.to_v,
            to: major.from_v + 1,
        }
    }
}
