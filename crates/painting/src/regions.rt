//! The part of a surface to which a drawing may write.

ghost use Rattle.std.specs.Prelude.{◌≡◌, ◌≤◌, ◌<◌, ◌+◌, ◌*◌, ◌^◌, ◌&&◌, ◌↔◌, ◌+ℤ◌, ◌-ℤ◌, ◌*ℤ◌, ◌<ℤ◌, Bool, IsFalse, IsTrue, false, int_lt, pos, true, ℕ};
ghost use Rattle.canvas.specs.CanvasState.{HasPixel};
ghost use Rattle.canvas.specs.WritingLaws.{IsWhole};
ghost use Rattle.mapping.specs.PixelBoxes.{in_box, is_from_to};
ghost use Rattle.dc_stack.specs.Clip.{in_kept, placed_box};
ghost use Rattle.dc_stack.specs.Values.{placed_value};
ghost use Rattle.mapping.specs.PlaceOf.{surface_of};
ghost use Rattle.mapping.specs.Surface.{placed};
ghost use Rattle.preflight_cert.specs.MissedRowsLaws.{LiesOutside};
ghost use Rattle.mapping.specs.Nibs.{IsNib, IsNibSide, reach_after, reach_before};
ghost use Rattle.span_fill.specs.WideStrokes.{widened};
ghost use Rattle.painting.specs.Regions.{HasLanded, HasNarrowNib, HasRegion, HasShape, HasVisible, HoldShape, IsOfSide};
ghost use Rattle.span_fill.specs.Spans.{in_region, in_span};

use crate::rectangles::rectangle_box;
use crate::widening::widened;
use canvas::Canvas;
use dc_stack::Clip;
use draw_ops::RectangleEdges;
use mapping::{
    Nib, Place, Rect, box_law, floor_division_law, placing_law, reach_after, reach_before,
};
use span_fill::{Region, Span};

/// A law: every canvas is consistent, and has at most 8,192 columns and 2^26 pixels.
pub(crate) fn whole_law(canvas: &Canvas)
    ensures whole { IsWhole canvas.now }
    ensures side { canvas.now.width ≤ 8192 }
    ensures pixels { canvas.now.rows * canvas.now.width ≤ 2 ^ 26 }
{
    canvas.width();
    canvas.rows();
}

/// The part of the canvas within the clip's kept box.
pub(crate) fn visible(canvas: &Canvas, clip: &Clip) -> Region
    ensures held { HasRegion canvas.now result }
    ensures columns { IsOfSide result.columns }
    ensures rows { IsOfSide result.rows }
    ensures kept { (x y : ℕ) → HasPixel canvas.now x y → in_region result x y ≡ in_kept (placed_value clip.now).kept x y }
{
    let held = Region {
        columns: Span {
            from: 0,
            to: canvas.width(),
        },
        rows: rows_held(canvas),
    };
    match clip.kept {
        None => held,
        Some(kept) => common(held, kept.placed),
    }
}

/// The part of the canvas within both the clip's kept box and another box.
pub(crate) fn visible_in(canvas: &Canvas, clip: &Clip, inside: Rect) -> Region
    ensures visible { HasVisible (placed_value clip.now) (in_box inside) canvas.now result }
    ensures columns { IsOfSide result.columns }
    ensures rows { IsOfSide result.rows }
    ensures boxed { (x y : ℕ) → in_region result x y ≡ true → in_box inside x y ≡ true }
{
    common(visible(canvas, clip), inside)
}

/// Whether a region has no pixel.
pub(crate) fn has_no_pixel(region: Region) -> bool
    ensures none { IsTrue result → (x y : ℕ) → in_region region x y ≡ false }
    ensures columns { IsFalse result → region.columns.from < region.columns.to }
{
    region.columns.from >= region.columns.to || region.rows.from >= region.rows.to
}

/// The rows of a canvas.
fn rows_held(canvas: &Canvas) -> Span
    ensures from { result.from ≡ canvas.now.first }
    ensures to { result.to ≡ canvas.now.first + canvas.now.rows }
    ensures rows { IsOfSide result }
    ensures few { canvas.now.rows ≤ 8192 }
{
    let (first, rows) = (canvas.first(), canvas.rows());
    Span {
        from: first,
        to: first + rows,
    }
}

/// The part of a region within a box. The box includes its left and top edges and excludes its right and bottom ones.
pub(crate) fn common(region: Region, inside: Rect) -> Region
    requires columns { IsOfSide region.columns }
    requires rows { IsOfSide region.rows }
    ensures right { result.columns.to ≤ region.columns.to }
    ensures top { region.rows.from ≤ result.rows.from }
    ensures bottom { result.rows.to ≤ region.rows.to }
    ensures columns { IsOfSide result.columns }
    ensures rows { IsOfSide result.rows }
    ensures has_columns { (n : ℕ) → in_span result.columns n ≡ in_span region.columns n && is_from_to inside.l inside.r n }
    ensures has_rows { (n : ℕ) → in_span result.rows n ≡ in_span region.rows n && is_from_to inside.t inside.b n }
{
    Region {
        columns: region
            .columns
            .between(i64::from(inside.l), i64::from(inside.r)),
        rows: region
            .rows
            .between(i64::from(inside.t), i64::from(inside.b)),
    }
}

/// The box on the surface that contains the pixels of a drawing with this bounding box on the plane and this nib. It
/// includes its left and top edges and excludes its right and bottom ones. The two corners are placed as points are,
/// because placing preserves order.
pub(crate) fn landed_box(place: Place, bounds: Rect, nib: Nib) -> Rect
    requires { IsNib nib }
    ensures { HasLanded nib (surface_of place) bounds result }
{
    box_law();
    placing_law();
    let near = place.place(bounds.left_top());
    let far = place.place(bounds.right_bottom());
    match (near, far) {
        (Some(near), Some(far)) => {
            widened(rectangle_box(near, far, RectangleEdges::Inclusive), nib)
        }
        // (there is no point)
        _ => Rect::NONE,
    }
}

/// A box that contains all that is painted.
#[derive(Clone, Copy, Debug)]
pub(crate) enum Bounds {
    /// A box of the surface.
    Placed(Rect),
    /// The box of a drawing, from its bounding box on the plane and its nib. Placing it costs up to four divisions.
    Plane(Place, Rect, Nib),
}

impl Bounds {
    /// The box on the surface.
    pub(crate) fn on_surface(self) -> Rect
        requires { HasNarrowNib self }
        ensures { (shape : ℕ → ℕ → Bool) → HoldShape self shape → HasShape result shape }
    {
        match self {
            Bounds::Placed(inside) => inside,
            Bounds::Plane(place, bounds, nib) => landed_box(place, bounds, nib),
        }
    }
}

/// Whether a drawing with this bounding box on the plane and this nib lies outside the rows of a canvas: it ends above
/// them or begins below them. Such a drawing needn't be painted there.
pub(crate) fn misses_rows(canvas: &Canvas, place: Place, bounds: Rect, nib: Nib) -> bool
    requires { IsNib nib }
    ensures { IsTrue result ↔ LiesOutside (widened nib (placed_box (surface_of place) bounds)) canvas.now.first canvas.now.rows }
{
    let held = rows_held(canvas);
    ends_above(place, bounds.b, nib.y, held.from) || !begins_above(place, bounds.t, nib.y, held.to)
}

/// Whether a nib of this height, on a row of the plane, lies entirely above a row of the surface.
fn ends_above(place: Place, plane_row: i32, nib_rows: u16, row: u32) -> bool
    requires rows { IsNibSide nib_rows }
    requires row { row ≤ 8192 }
    ensures { result ≡ int_lt (placed plane_row place.height place.frame.height +ℤ pos (reach_after nib_rows)) (pos row) }
{
    lands_above(place, plane_row, row as i32 - reach_after(nib_rows))
}

/// Whether the first row of the nib lies above it.
fn begins_above(place: Place, plane_row: i32, nib_rows: u16, row: u32) -> bool
    requires rows { IsNibSide nib_rows }
    requires row { row ≤ 8192 }
    ensures { result ≡ int_lt (placed plane_row place.height place.frame.height -ℤ pos (reach_before nib_rows)) (pos row) }
{
    lands_above(place, plane_row, row as i32 + reach_before(nib_rows))
}

/// Whether a row of the plane lies above a row of the surface. The comparison multiplies each row by the other's
/// height, so that nothing is divided.
fn lands_above(place: Place, plane_row: i32, row: i32) -> bool
    ensures { result ≡ int_lt (placed plane_row place.height place.frame.height) row }
{
    floor_division_law();
    product(plane_row, place.height) < product(row, place.frame.height)
}

/// A row times a height.
fn product(row: i32, height: u32) -> i64
    ensures { result ≡ row *ℤ pos height }
{
    i64::from(row) * i64::from(height)
}
