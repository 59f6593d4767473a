//! The rows and columns of a line, and which of these rows a nib reaches from another row.

ghost use Rattle.std.specs.Prelude.{◌≡◌, ◌+◌, ◌^◌, ◌≤◌, ◌↔◌, ℤ, pos, negsuc, ◌≤ℤ◌, ◌<ℤ◌, unsigned_abs, true, false};
ghost use Rattle.mapping.specs.Nibs.{IsNib};
ghost use Rattle.span_fill.specs.MajorLines.{IsMajorLine};
ghost use Rattle.span_fill.specs.WideEdges.{HasRow, IsHull, IsNearRow, IsRun, ReachesRows, bottom_of, end_row, top_of};

use crate::bounds::{CoordinateRange, hull, run};
use crate::major_line::MajorLine;
use crate::reach::{first_in, greater, lesser};
use mapping::{Nib, reach_after, reach_before};

/// The rows of a line.
pub(crate) fn rows_along(major: MajorLine, y_major: bool) -> CoordinateRange
    requires { IsMajorLine major }
    ensures y_major { y_major ≡ true → IsRun major result.from result.to }
    ensures x_major { y_major ≡ false → IsHull major result.from result.to }
{
    if y_major { run(major) } else { hull(major) }
}

/// The columns of a line.
pub(crate) fn columns_along(major: MajorLine, y_major: bool) -> CoordinateRange
    requires { IsMajorLine major }
    ensures y_major { y_major ≡ true → IsHull major result.from result.to }
    ensures x_major { y_major ≡ false → IsRun major result.from result.to }
{
    if y_major { hull(major) } else { run(major) }
}

/// The rows of a range from which a nib reaches these rows.
pub(crate) fn rows_seen(nib: Nib, rows: CoordinateRange, range: CoordinateRange) -> CoordinateRange
    requires nib { IsNib nib }
    requires order { range.from ≤ℤ range.to }
    ensures exact { (y : ℤ) → HasRow range y → (HasRow result y ↔ ReachesRows nib rows y) }
    ensures from { range.from ≤ℤ result.from }
    ensures to { result.to ≤ℤ range.to }
{
    CoordinateRange {
        from: first_in(range, i64::from(rows.from) - i64::from(reach_before(nib.y))),
        to: first_in(range, i64::from(rows.to) + i64::from(reach_after(nib.y))),
    }
}

/// The first of a line's rows that a nib reaches from a row.
pub(crate) fn window_top(nib: Nib, row: i64, rows: CoordinateRange) -> i64
    requires nib { IsNib nib }
    requires row { IsNearRow row }
    ensures top { result ≡ top_of nib row rows.from }
    ensures least { negsuc 8190 ≤ℤ result }
{
    greater(row - i64::from(reach_after(nib.y)), i64::from(rows.from))
}

/// The last of a line's rows that a nib reaches from a row.
pub(crate) fn window_bottom(nib: Nib, row: i64, rows: CoordinateRange) -> i64
    requires nib { IsNib nib }
    requires row { IsNearRow row }
    ensures bottom { result ≡ bottom_of nib row rows.to }
    ensures most { result ≤ℤ pos 16382 }
{
    lesser(row + i64::from(reach_before(nib.y)), i64::from(rows.to) - 1)
}

/// The row where the columns of a last row end.
pub(crate) fn end_row(y_major: bool, bottom: i64) -> i64
    requires low { negsuc 8190 ≤ℤ bottom }
    requires high { bottom ≤ℤ pos 16382 }
    ensures row { result ≡ end_row y_major bottom }
    ensures small { unsigned_abs result ≤ 2 ^ 14 }
{
    if y_major { bottom } else { bottom + 1 }
}
