//! A bound on the number of pixels that a drawing writes, layer by layer.

ghost use Rattle.std.specs.Prelude.{◌≡◌, ◌≤◌, ◌*◌, List};
ghost use Rattle.mapping.specs.PlaceOf.{surface_of};
ghost use Rattle.mapping.specs.declared.geometry.Point.{Point};
ghost use Rattle.draw_ops.specs.declared.operation.RectangleEdges.{RectangleEdges};
ghost use Rattle.draw_ops.specs.declared.settings.FillMode.{FillMode};
ghost use Rattle.dc_stack.specs.Drawing.{tools_of};
ghost use Rattle.dc_stack.specs.Figures.{Figure};
ghost use Rattle.dc_stack.specs.MachineState.{drawing_with};
ghost use Rattle.dc_stack.specs.Values.{dc_value};
ghost use Rattle.preflight_cert.specs.Budget.{box_cells, drawing_cells, layers_budget, wide_box_cells};
ghost use Rattle.preflight_cert.specs.Layer.{filled, stroked};
ghost use Rattle.preflight_cert.specs.Shape.{inside_figures, inside_rectangle};
ghost use Rattle.preflight_cert.specs.StrokedOutline.{Outline};

use crate::certificate_entry::Entry;
use dc_stack::{Dc, Draw, Machine, Mark, Painting};
use draw_ops::{Brush, Pen};
use mapping::{Nib, Place, Rect};
use object_tables::Table;

/// The most pixels of the machine's surface that a drawing writes, by an entry's box on the plane, which contains its
/// points, and by the entry's nib: those of the fill, of a dot or a blit, and of the stroke.
#[tactic(auto, using(crate::proofs::BudgetLemmas::budgets))]
pub(crate) fn drawing_budget<'a, T: Table<'a>>(
    drawn: &Draw<'a>,
    machine: &Machine<'a, T>,
    entry: &Entry,
) -> u64
    ensures layers { result ≡ drawing_cells (drawing_with machine.now drawn.now) entry.now.nib entry.now.bounds machine.now.surface }
    ensures few { result ≤ 134217728 }
{
    let dc = machine.dc();
    let place = machine.place();
    let bounds = entry.bounds;
    match drawn.mark {
        Mark::Dot { .. } | Mark::Blit(_) => box_cells(bounds, place),
        Mark::Line { .. } => stroke_cells(dc, bounds, entry.nib, place),
        Mark::Rectangle { .. } => {
            fill_cells(dc, bounds, place) + stroke_cells(dc, bounds, entry.nib, place)
        }
        Mark::Figures { painting, .. } => match painting {
            Painting::Fill => fill_cells(dc, bounds, place),
            Painting::Stroke => stroke_cells(dc, bounds, entry.nib, place),
            Painting::StrokeAndFill => {
                fill_cells(dc, bounds, place) + stroke_cells(dc, bounds, entry.nib, place)
            }
        },
    }
}

/// The most pixels that the brush fills in a box of the plane: 0 if it paints nothing.
fn fill_cells(dc: &Dc<'_>, bounds: Rect, place: Place) -> u64
    ensures figures { (mode : FillMode) (figures : List Figure) (nib : Nib)
        → result ≡ layers_budget (filled (inside_figures mode figures) (tools_of (dc_value dc.now))) nib bounds (surface_of place) }
    ensures rectangle { (p q : Point) (edges : RectangleEdges) (nib : Nib)
        → result ≡ layers_budget (filled (inside_rectangle p q edges) (tools_of (dc_value dc.now))) nib bounds (surface_of place) }
    ensures few { result ≤ 67108864 }
{
    match dc.selected.brush {
        Brush::Null => 0,
        Brush::Solid(_) | Brush::Hatched { .. } | Brush::Tiled(_) => box_cells(bounds, place),
    }
}

/// The most pixels that the pen strokes as its nib moves over a box of the plane: 0 if it draws nothing.
fn stroke_cells(dc: &Dc<'_>, bounds: Rect, nib: Nib, place: Place) -> u64
    ensures budget { (outline : Outline)
        → result ≡ layers_budget (stroked outline (tools_of (dc_value dc.now))) nib bounds (surface_of place) }
    ensures few { result ≤ 67108864 }
{
    match dc.selected.pen {
        Pen::Null => 0,
        Pen::Solid { .. } => wide_box_cells(bounds, nib, place),
    }
}

/// The most pixels of a place's surface that a box of the plane meets. Right and bottom are inclusive.
fn box_cells(bounds: Rect, place: Place) -> u64
    ensures cells { result ≡ box_cells bounds (surface_of place) }
    ensures few { result ≤ 67108864 }
{
    let columns = place.columns(bounds.l, bounds.r);
    let rows = place.rows(bounds.t, bounds.b);
    product(columns, rows)
}

/// The most pixels that a nib covers as it moves over the box.
fn wide_box_cells(bounds: Rect, nib: Nib, place: Place) -> u64
    ensures cells { result ≡ wide_box_cells nib bounds (surface_of place) }
    ensures few { result ≤ 67108864 }
{
    let columns = place.wide_columns(bounds.l, bounds.r, nib.x);
    let rows = place.wide_rows(bounds.t, bounds.b, nib.y);
    product(columns, rows)
}

/// Columns times rows.
fn product(columns: u32, rows: u32) -> u64
    requires columns { columns ≤ 8192 }
    requires rows { rows ≤ 8192 }
    ensures product { result ≡ columns * rows }
    ensures few { result ≤ 67108864 }
{
    u64::from(columns) * u64::from(rows)
}
