//! The greatest number of columns or rows of a surface that a part of the plane can meet.

ghost use Rattle.std.specs.Prelude.{◌≡◌, ◌≤◌, ◌+◌, ◌-◌, ◌*◌, min, int_lt, if◌then◌else◌};
ghost use Rattle.mapping.specs.CellLaws.{CellLaws, WideCellLaws};
ghost use Rattle.mapping.specs.Cells.{cells, count_of, is_away, rounded_up, wide_cells};
ghost use Rattle.mapping.specs.Limits.{IsFrameSide, IsSurfaceSide, surface_side_limit};

use crate::divisor::Divisor;
use crate::place::Place;

/// The greatest number of columns, or rows, of a surface that the plane from `l` to `r`, inclusive, can meet. It is 0
/// if `r` is less than `l`, or if the frame lies outside that part. A surface has a width or height of 1 to 8,192
/// pixels, a frame one of 1 to 2^28 plane units.
pub fn cells(l: i32, r: i32, surface_side: u32, frame_side: u32) -> u32
    requires surface { IsSurfaceSide surface_side }
    requires frame { IsFrameSide frame_side }
    ensures cells { result ≡ cells l r surface_side frame_side }
    ensures few { result ≤ surface_side }
{
    cells_by(l, r, surface_side, Divisor::new(frame_side))
}

impl Place {
    /// The greatest number of columns of the surface that the plane from `l` to `r`, inclusive, can meet.
    pub fn columns(&self, l: i32, r: i32) -> u32
        ensures cells { result ≡ cells l r self.now.width self.now.frame.width }
        ensures few { result ≤ self.now.width }
    {
        cells_by(l, r, self.width, self.by_width)
    }

    /// The greatest number of rows of the surface that the plane from `t` to `b`, inclusive, can meet.
    pub fn rows(&self, t: i32, b: i32) -> u32
        ensures cells { result ≡ cells t b self.now.height self.now.frame.height }
        ensures few { result ≤ self.now.height }
    {
        cells_by(t, b, self.height, self.by_height)
    }

    /// The greatest number of columns of the surface that a nib of `nib_side` columns can cover as it moves over the
    /// plane from `l` to `r`, inclusive.
    pub fn wide_columns(&self, l: i32, r: i32, nib_side: u16) -> u32
        ensures cells { result ≡ wide_cells l r self.now.width self.now.frame.width nib_side }
        ensures few { result ≤ self.now.width }
    {
        widened(l, r, self.width, nib_side, self.columns(l, r))
    }

    /// The greatest number of rows of the surface that a nib of `nib_side` rows can cover as it moves over the plane
    /// from `t` to `b`, inclusive.
    pub fn wide_rows(&self, t: i32, b: i32, nib_side: u16) -> u32
        ensures cells { result ≡ wide_cells t b self.now.height self.now.frame.height nib_side }
        ensures few { result ≤ self.now.height }
    {
        widened(t, b, self.height, nib_side, self.rows(t, b))
    }
}

/// The greatest number of columns, or rows, of a surface that a nib of `nib_side` columns, or rows, can cover as it
/// moves over the plane from `l` to `r`, inclusive. It is 0 if `r` is less than `l`.
pub fn wide_cells(l: i32, r: i32, surface_side: u32, frame_side: u32, nib_side: u16) -> u32
    requires surface { IsSurfaceSide surface_side }
    requires frame { IsFrameSide frame_side }
    ensures cells { result ≡ wide_cells l r surface_side frame_side nib_side }
    ensures few { result ≤ surface_side }
{
    widened(
        l,
        r,
        surface_side,
        nib_side,
        cells(l, r, surface_side, frame_side),
    )
}

/// The same, from the number that a nib of one can cover.
fn widened(l: i32, r: i32, surface_side: u32, nib_side: u16, cells: u32) -> u32
    requires side { surface_side ≤ surface_side_limit }
    requires few { cells ≤ surface_side }
    ensures cells { result ≡ (if int_lt r l then 0 else min surface_side (cells + (nib_side - 1))) }
    ensures few { result ≤ surface_side }
{
    if r < l {
        return 0;
    }
    surface_side.min(cells + u32::from(nib_side.saturating_sub(1)))
}

/// The number of columns, or rows, with the width or height of the frame as a divisor.
#[tactic(auto, using(crate::proofs::MetLemmas::ordered))]
fn cells_by(l: i32, r: i32, surface_side: u32, frame_side: Divisor) -> u32
    requires surface { IsSurfaceSide surface_side }
    requires frame { IsFrameSide frame_side.number }
    ensures cells { result ≡ cells l r surface_side frame_side.number }
    ensures few { result ≤ surface_side }
{
    if is_away(l, r, frame_side.number) {
        return 0;
    }
    met(
        count_of(l),
        count_of(r).min(frame_side.number),
        surface_side,
        frame_side,
    )
}

/// Whether the plane from `l` to `r` is empty, or lies before or after the frame.
fn is_away(l: i32, r: i32, frame_side: u32) -> bool
    ensures { result ≡ is_away l r frame_side }
{
    r < l || (r < 0 || i64::from(frame_side) <= i64::from(l))
}

/// A coordinate as a count; 0 if it is negative.
fn count_of(v: i32) -> u32
    ensures { result ≡ count_of v }
{
    v.max(0) as u32
}

/// The greatest number of columns, or rows, between two coordinates within the frame.
fn met(from: u32, to: u32, surface_side: u32, frame_side: Divisor) -> u32
    requires surface { IsSurfaceSide surface_side }
    requires frame { IsFrameSide frame_side.number }
    requires order { from ≤ to }
    requires within { to ≤ frame_side.number }
    ensures cells { result ≡ min surface_side (rounded_up ((to - from) * surface_side) frame_side.number + 1) }
    ensures few { result ≤ surface_side }
{
    let part = u64::from(to - from) * u64::from(surface_side);
    let met = frame_side.quotient(part + u64::from(frame_side.number - 1)) + 1;
    u64::from(surface_side).min(met) as u32
}

/// The law of cells. From where one coordinate lands to where a later one lands there are at most `cells` columns. That
/// number doesn't decrease if the surface grows or if the interval is extended. And the number of pixels that lie in
/// some columns and some rows is at most the number of these columns times the number of these rows.
pub fn cell_law()
    ensures { CellLaws }
{}

/// The law of wide cells. A nib that moves over a part of the plane covers at most `wide_cells` columns, or rows. That
/// number doesn't decrease if the surface, the part or the nib grows, and for a nib of one it equals `cells`.
pub fn wide_cell_law()
    ensures { WideCellLaws }
{}
