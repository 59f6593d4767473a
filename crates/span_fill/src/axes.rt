//! Lines and regions by a line's major axis.

ghost use Rattle.std.specs.Prelude.{◌≡◌, ◌≤◌, ◌<◌, ◌^◌};
ghost use Rattle.mapping.specs.Limits.{IsWithin};
ghost use Rattle.span_fill.specs.FixedWalks.{CanWalk, IsFixed};
ghost use Rattle.span_fill.specs.MajorLines.{AreStepsWithin, IsMajorLine, IsOn, across_span, along_span, major_of, length_of};
ghost use Rattle.span_fill.specs.Lines.{HasNearEnds};
ghost use Rattle.span_fill.specs.Numberings.{IsNumbered};
ghost use Rattle.span_fill.specs.Strokes.{is_y_major};

use crate::clip::clipped;
use crate::fixed_walk::FixedWalk;
use crate::grid::Grid;
use crate::line::Line;
use crate::major_line::MajorLine;
use crate::numbering::Numbering;
use crate::span::{Region, Span};
use crate::walk::Walk;

/// Whether a line is y-major.
pub(crate) fn runs_y_major(line: Line) -> bool
    ensures { result ≡ is_y_major line }
{
    line.to.x.abs_diff(line.from.x) < line.to.y.abs_diff(line.from.y)
}

/// A line by its major axis.
pub(crate) fn major_along(line: Line, y_major: bool) -> MajorLine
    requires near { HasNearEnds line }
    requires axis { y_major ≡ is_y_major line }
    ensures value { result ≡ major_of y_major line }
    ensures major { IsMajorLine (major_of y_major line) }
{
    if y_major {
        MajorLine {
            from_u: line.from.y,
            from_v: line.from.x,
            to_u: line.to.y,
            to_v: line.to.x,
        }
    } else {
        MajorLine {
            from_u: line.from.x,
            from_v: line.from.y,
            to_u: line.to.x,
            to_v: line.to.y,
        }
    }
}

/// The steps of a line whose pixels lie in a region.
pub(crate) fn steps_within(major: MajorLine, region: Region, y_major: bool) -> Span
    requires major { IsMajorLine major }
    requires columns { region.columns.to ≤ 8192 }
    requires rows { region.rows.to ≤ 8192 }
    ensures exact { AreStepsWithin major (along_span y_major region) (across_span y_major region) result }
    ensures bound { result.to ≤ length_of major }
{
    if y_major {
        clipped(major, region.rows, region.columns)
    } else {
        clipped(major, region.columns, region.rows)
    }
}

/// The walk along a line at the first of these steps, or any walk if there is none.
pub(crate) fn walk_within(major: MajorLine, steps: Span) -> Walk
    requires major { IsMajorLine major }
    requires bound { steps.to ≤ length_of major }
    ensures { steps.from < steps.to → IsOn major steps.from result }
{
    if steps.from < steps.to {
        major.walk(steps.from)
    } else {
        Walk::default()
    }
}

/// The position at the first of these steps in fixed point, or any position if there is none.
pub(crate) fn fixed_within(steps: Span, walk: Walk) -> FixedWalk
    requires { steps.from < steps.to → CanWalk walk }
    ensures { steps.from < steps.to → IsFixed 1 walk result }
{
    if steps.from < steps.to {
        FixedWalk::of(walk)
    } else {
        FixedWalk::default()
    }
}

/// The numbering at the first of these steps, or any numbering if there is none.
pub(crate) fn numbered_within(
    grid: Grid,
    steps: Span,
    position: FixedWalk,
    y_major: bool,
) -> Numbering
    requires { steps.from < steps.to → IsWithin (2 ^ 30) position.u }
    ensures { steps.from < steps.to → IsNumbered grid y_major position result }
{
    if steps.from < steps.to {
        Numbering::new(grid, position, y_major)
    } else {
        Numbering::default()
    }
}
