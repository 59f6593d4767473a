//! Draws the result of a step on a canvas: first its fill, then its stroke.

ghost use Rattle.std.specs.Prelude.{◌≡◌, ◌≤◌, IfSome, IsTrue, true};
ghost use Rattle.std.specs.Option.{option_map};
ghost use Rattle.dc_stack.specs.Draws.{IsPlacedDraw};
ghost use Rattle.dc_stack.specs.Drawing.{drawing_edges, tools_of};
ghost use Rattle.dc_stack.specs.MachineState.{HasNib, drawing_with};
ghost use Rattle.painting.specs.Counts.{CountsDrawing, HasCapacityForDrawing, HasCapacityForLayer};
ghost use Rattle.painting.specs.Drawn.{DrawsDrawing, HoldsRows, SameRows};
ghost use Rattle.painting.specs.Draws.{Draws, Fills, HasClosedLines, MayDraw, Strokes, strokes_closed_figures};
ghost use Rattle.painting.specs.PaintsOfLayers.{IsPenOf};

use crate::blits::blit;
use crate::dots::put;
use crate::figure_outline::{FigureOutline, stroked_ends};
use crate::fill_style::FillStyle;
use crate::filling::{fill_box, fill_inside};
use crate::list_lines::Ends;
use crate::lone_line::LoneLine;
use crate::rectangles::placed_box;
use crate::regions::{Bounds, landed_box, misses_rows, visible_in, whole_law};
use crate::scratch::DrawingScratch;
use crate::stroke::Stroke;
use crate::stroking::{StrokedLines, stroke_box, stroke_kept, stroke_lines};
use canvas::{Canvas, writing_law};
use dc_stack::{Draw, Machine, Mark, Painting};
use draw_ops::{Brush, Pen};
use mapping::Nib;
use object_tables::Table;
use preflight_cert::{drawing_box_law, missed_rows_law};

/// Draws the result of one step of the machine, if there is one, with the machine's current objects and modes. If the
/// drawing's box, widened by its nib, lies outside the rows of the canvas, nothing is painted, because the drawing has
/// no pixel there.
///
/// Before the call, the count of writes must be low enough for two layers of 2^26 pixels, and the row buffer must have
/// the capacity for the drawing's lines. No memory is allocated.
pub fn draw<'a, T: Table<'a>>(
    step: Option<Draw<'a>>,
    machine: &Machine<'a, T>,
    scratch: &mut DrawingScratch,
    canvas: &mut Canvas,
)
    requires held { HoldsRows canvas.old machine.now.surface }
    requires countable { HasCapacityForDrawing canvas.old }
    requires placed { IfSome step (IsPlacedDraw machine.now.surface machine.now.painted) }
    requires nib { IfSome step (HasNib machine.now.surface machine.now) }
    requires lines { drawing_edges (option_map (drawing_with machine.now) step) ≤ scratch.old.rows.capacity }
    ensures drawn { DrawsDrawing (option_map (drawing_with machine.now) step.entry) machine.now.surface canvas.old canvas.new }
    ensures rows { SameRows canvas.old canvas.new }
    ensures few { CountsDrawing canvas.old canvas.new }
    ensures capacity { scratch.new.rows.capacity ≡ scratch.old.rows.capacity }
{
    missed_rows_law();
    whole_law(canvas);
    let Some(drawn) = step else {
        return;
    };
    if misses_rows(canvas, machine.place(), drawn.bounds, drawn.nib) {
        return;
    }
    paint(drawn, machine, scratch, canvas);
}

/// Paints one drawing. A dot writes one pixel in its own colour, a blit paints a box, and a line is only stroked.
/// Everything else is filled, then stroked.
fn paint<'a, T: Table<'a>>(
    drawn: Draw<'a>,
    machine: &Machine<'a, T>,
    scratch: &mut DrawingScratch,
    canvas: &mut Canvas,
)
    requires may { MayDraw drawn machine.now scratch.old canvas.old }
    requires countable { HasCapacityForDrawing canvas.old }
    ensures drawn { Draws drawn.entry machine.now canvas.old canvas.new }
    ensures rows { SameRows canvas.old canvas.new }
    ensures few { CountsDrawing canvas.old canvas.new }
    ensures capacity { scratch.new.rows.capacity ≡ scratch.old.rows.capacity }
{
    writing_law();
    whole_law(canvas);
    let dc = machine.dc();
    let place = machine.place();
    match drawn.mark {
        Mark::Dot { at, colour } => put(place.at(at), colour, &dc.clip, canvas),
        Mark::Blit(asked) => blit(&asked, place, dc, &mut scratch.row_ops, canvas),
        Mark::Line { .. } => stroke(drawn, false, machine, scratch, canvas),
        Mark::Figures { .. } | Mark::Rectangle { .. } => {
            let are_taken = fill(drawn, machine, scratch, canvas);
            stroke(drawn, are_taken, machine, scratch, canvas);
        }
    }
}

/// Fills the inside of a drawing, if it has one and the brush isn't null. Returns whether the row buffer has taken the
/// lines around it.
fn fill<'a, T: Table<'a>>(
    drawn: Draw<'a>,
    machine: &Machine<'a, T>,
    scratch: &mut DrawingScratch,
    canvas: &mut Canvas,
) -> bool
    requires may { MayDraw drawn machine.now scratch.old canvas.old }
    requires countable { HasCapacityForLayer canvas.old }
    ensures drawn { Fills drawn.entry machine.now canvas.old canvas.new }
    ensures taken { IsTrue result → HasClosedLines drawn.entry.mark machine.now scratch.new.rows.lines }
    ensures capacity { scratch.new.rows.capacity ≡ scratch.old.rows.capacity }
{
    writing_law();
    whole_law(canvas);
    drawing_box_law();
    let brush = machine.dc().selected.brush;
    if let Brush::Null = brush {
        return false;
    }
    let place = machine.place();
    let paint = FillStyle::with(brush, machine);
    match drawn.mark {
        Mark::Dot { .. } | Mark::Line { .. } | Mark::Blit(_) => false,
        Mark::Figures { painting, points } => {
            if let Painting::Stroke = painting {
                return false;
            }
            let outline = FigureOutline::new(points, Ends::Closed, machine);
            fill_inside(
                canvas,
                scratch,
                outline,
                landed_box(place, drawn.bounds, Nib::ONE),
                &paint,
            )
        }
        Mark::Rectangle {
            first,
            second,
            edges,
        } => {
            let inside = placed_box(place, first, second, edges);
            fill_box(canvas, inside, &paint, &mut scratch.row_ops);
            false
        }
    }
}

/// Strokes the outline of a drawing, if it has one and the pen isn't null. The row buffer may have taken the lines around
/// its inside.
fn stroke<'a, T: Table<'a>>(
    drawn: Draw<'a>,
    are_taken: bool,
    machine: &Machine<'a, T>,
    scratch: &mut DrawingScratch,
    canvas: &mut Canvas,
)
    requires may { MayDraw drawn machine.now scratch.old canvas.old }
    requires countable { HasCapacityForLayer canvas.old }
    requires taken { IsTrue are_taken → HasClosedLines drawn.mark machine.now scratch.old.rows.lines }
    ensures drawn { Strokes drawn.entry machine.now canvas.old canvas.new }
    ensures capacity { scratch.new.rows.capacity ≡ scratch.old.rows.capacity }
{
    whole_law(canvas);
    let Pen::Solid { colour, .. } = machine.dc().selected.pen else {
        return;
    };
    let stroke = Stroke::with(colour, drawn.nib, machine);
    if are_taken && strokes_closed_figures(&drawn.mark) {
        stroke_taken(drawn, &stroke, machine, scratch, canvas);
        return;
    }
    stroke_outline(drawn, &stroke, machine, scratch, canvas);
}

/// Whether a mark strokes figures that are all closed, as for a fill.
fn strokes_closed_figures(mark: &Mark<'_>) -> bool
    ensures { result ≡ strokes_closed_figures mark.now }
{
    match mark {
        Mark::Figures { painting, .. } => matches!(painting, Painting::StrokeAndFill),
        Mark::Dot { .. } | Mark::Line { .. } | Mark::Rectangle { .. } | Mark::Blit(_) => false,
    }
}

/// Strokes closed figures, whose lines the row buffer has taken.
fn stroke_taken<'a, T: Table<'a>>(
    drawn: Draw<'a>,
    stroke: &Stroke<'_>,
    machine: &Machine<'a, T>,
    scratch: &mut DrawingScratch,
    canvas: &mut Canvas,
)
    requires may { MayDraw drawn machine.now scratch.old canvas.old }
    requires countable { HasCapacityForLayer canvas.old }
    requires pen { IsPenOf (tools_of machine.now.state.dc) machine.now.surface stroke.now }
    requires nib { stroke.now.nib ≡ drawn.nib }
    requires closed { strokes_closed_figures drawn.mark ≡ true }
    requires taken { HasClosedLines drawn.mark machine.now scratch.old.rows.lines }
    ensures drawn { Strokes drawn.entry machine.now canvas.old canvas.new }
    ensures capacity { scratch.new.rows.capacity ≡ scratch.old.rows.capacity }
{
    writing_law();
    whole_law(canvas);
    drawing_box_law();
    let bounds = Bounds::Plane(machine.place(), drawn.bounds, drawn.nib);
    let region = visible_in(canvas, stroke.clip, bounds.on_surface());
    stroke_kept(canvas, scratch, region, stroke);
}

/// Strokes the outline of a drawing, if it has one, with the pen's stroke.
fn stroke_outline<'a, T: Table<'a>>(
    drawn: Draw<'a>,
    stroke: &Stroke<'_>,
    machine: &Machine<'a, T>,
    scratch: &mut DrawingScratch,
    canvas: &mut Canvas,
)
    requires may { MayDraw drawn machine.now scratch.old canvas.old }
    requires countable { HasCapacityForLayer canvas.old }
    requires pen { IsPenOf (tools_of machine.now.state.dc) machine.now.surface stroke.now }
    requires nib { stroke.now.nib ≡ drawn.nib }
    ensures drawn { Strokes drawn.entry machine.now canvas.old canvas.new }
    ensures capacity { scratch.new.rows.capacity ≡ scratch.old.rows.capacity }
{
    writing_law();
    whole_law(canvas);
    drawing_box_law();
    let place = machine.place();
    match drawn.mark {
        Mark::Dot { .. } | Mark::Blit(_) => {}
        Mark::Line { from, to } => {
            let lines = StrokedLines {
                outline: LoneLine::new(place, from, to),
                bounds: Bounds::Plane(place, drawn.bounds, drawn.nib),
                points: drawn.edges,
            };
            stroke_lines(canvas, scratch, lines, stroke);
        }
        Mark::Figures { painting, points } => {
            if let Some(ends) = stroked_ends(painting) {
                let lines = StrokedLines {
                    outline: FigureOutline::new(points, ends, machine),
                    bounds: Bounds::Plane(place, drawn.bounds, drawn.nib),
                    points: drawn.edges,
                };
                stroke_lines(canvas, scratch, lines, stroke);
            }
        }
        Mark::Rectangle {
            first,
            second,
            edges,
        } => stroke_box(
            canvas,
            scratch,
            placed_box(place, first, second, edges),
            stroke,
        ),
    }
}
