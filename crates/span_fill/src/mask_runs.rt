//! Marking what a narrow nib covers around the pixels of a line, if all of that lies in the columns of a mask.

ghost use Rattle.std.specs.Prelude.{◌+◌, ◌*◌, ◌<◌, ◌≤◌, ◌≡◌, ◌-ℤ◌, ◌≤ℤ◌, ◌<ℤ◌, IfSome, IsTrue, Some, unsigned_abs};
ghost use Rattle.span_fill.specs.BitRows.{HasSize};
ghost use Rattle.span_fill.specs.MaskFrames.{IsMaskFrame, first_row, mask_row, row_at, row_count};
ghost use Rattle.span_fill.specs.MaskMarks.{HasRows, MarksRow};
ghost use Rattle.span_fill.specs.MaskRuns.{AreRuns, IsBehind, IsInside, IsRunOf, IsShiftOf};
ghost use Rattle.span_fill.specs.StrokeMasks.{height_of};

use crate::bit_rows::BitRows;
use crate::line::Line;
use crate::mask_frame::MaskFrame;
use crate::wide_line::WideRow;
use mapping::{reach_after, reach_before};

/// The most columns that are set at once.
pub(crate) const MOST_COLUMNS: u16 = 64;

/// What is known before the first pixel of a line, so that each pixel costs little.
#[derive(Clone, Copy, Debug)]
pub(crate) struct Runs {
    /// How many rows each row of a line lies after its row of the mask.
    pub(crate) shift: u32,
    /// The number of columns around each pixel, all of which lie in the region.
    pub(crate) width: u32,
}

/// What is known of a line before its first pixel, if each row of it lies `shift` rows after its row of the mask.
/// `None` if there is no such number, if the nib has more than 64 columns, or if some of them around an end of the line
/// lie outside the region.
pub(crate) fn runs_of(line: Line, frame: MaskFrame, shift: Option<u32>) -> Option<Runs>
    requires { IsMaskFrame frame }
    ensures runs { IfSome result (AreRuns frame line) }
    ensures shift { IfSome result (λ runs. shift ≡ Some runs.shift) }
{
    if frame.nib.x > MOST_COLUMNS
        || !is_inside(line.from.x, frame)
        || !is_inside(line.to.x, frame)
    {
        return None;
    }
    let width = u32::from(frame.nib.x);
    Some(Runs {
        shift: shift?,
        width,
    })
}

/// Whether the nib's columns around a column lie in the region.
fn is_inside(x: i32, frame: MaskFrame) -> bool
    requires { IsMaskFrame frame }
    ensures { IsTrue result → IsInside frame x }
{
    let columns = frame.region.columns;
    let first = columns.from as i32 + reach_before(frame.nib.x);
    let end = columns.to as i32 - reach_after(frame.nib.x);
    first <= x && x < end
}

/// How many rows some rows of lines lie after their rows of the mask: `None` if some but not all of them share a row of
/// the mask.
pub(crate) fn shift_of(frame: MaskFrame, from: u32, count: u32) -> Option<u32>
    requires frame { IsMaskFrame frame }
    requires some { 1 ≤ height_of frame.region }
    requires rows { from + count ≤ row_count frame }
    ensures { IfSome result (IsBehind frame from count) }
{
    let (height, spare) = (frame.height(), frame.spare());
    if spare == 0 || from + count <= height {
        return Some(0);
    }
    if from + 1 >= height + spare {
        return Some(spare);
    }
    None
}

/// The row of the mask for a row of lines.
#[inline(always)]
pub(crate) fn own_row(row: i32, frame: MaskFrame, shift: Option<u32>) -> u32
    requires frame { IsMaskFrame frame }
    requires some { 1 ≤ height_of frame.region }
    requires first { first_row frame ≤ℤ row }
    requires last { row <ℤ row_at frame (row_count frame) }
    requires shift { IfSome shift (IsShiftOf frame row) }
    ensures row { result ≡ mask_row frame (unsigned_abs (row -ℤ first_row frame)) }
    ensures within { result < 2 * height_of frame.region }
{
    let place = (row - frame.first_row()) as u32;
    match shift {
        Some(shift) => place - shift,
        None => frame.mask_row(place),
    }
}

/// Marks a run of columns in its row of the mask.
#[inline(always)]
pub(crate) fn mark_run(bits: &mut BitRows, row: WideRow, frame: MaskFrame, runs: Runs)
    requires frame { IsMaskFrame frame }
    requires size { HasRows frame bits.old }
    requires some { 1 ≤ height_of frame.region }
    requires first { first_row frame ≤ℤ row.y }
    requires last { row.y <ℤ row_at frame (row_count frame) }
    requires run { IsRunOf frame row runs }
    ensures row { MarksRow frame row bits.old bits.new }
    ensures size { HasSize bits.new bits.old.rows bits.old.columns }
{
    let own = own_row(row.y, frame, Some(runs.shift));
    let from = row.columns.from - frame.region.columns.from;
    bits.set_run(own, from, runs.width);
}
