//! A lone line, painted pixel by pixel.

ghost use Rattle.std.specs.Prelude.{◌≡◌, ◌+◌, ◌*◌, ◌<◌, ◌^◌, ℕ, pos, true};
ghost use Rattle.canvas.specs.CanvasState.{HasPixel, place_in};
ghost use Rattle.span_fill.specs.Lines.{HasNearEnds};
ghost use Rattle.span_fill.specs.Strokes.{on_line};
ghost use Rattle.painting.specs.Counts.{HasCapacityForLayer};
ghost use Rattle.painting.specs.LinePixels.{place_on};
ghost use Rattle.painting.specs.Painted.{PaintsShape};
ghost use Rattle.painting.specs.PenStrokes.{MixesUncut, is_uncut_step, stroke_paint};

use crate::line_pixels::{LinePixels, grid_of};
use crate::regions::{visible, whole_law};
use crate::stroke::Stroke;
use crate::uncut_pixels::UncutPixels;
use canvas::{Canvas, writing_law};
use span_fill::{Line, LineSteps};

/// Strokes a line step by step. This isn't inlined, so that its loops get enough registers.
#[inline(never)]
pub(crate) fn step_line(canvas: &mut Canvas, line: Line, stroke: &Stroke<'_>)
    requires near { HasNearEnds line }
    requires countable { HasCapacityForLayer canvas.old }
    ensures { PaintsShape (stroke_paint stroke.now) (λ x y. on_line line (pos x) (pos y)) canvas.old canvas.new }
{
    writing_law();
    whole_law(canvas);
    let steps = LineSteps::numbered(line, visible(canvas, stroke.clip), grid_of(canvas));
    let mut pixels = LinePixels { steps };
    if stroke.clip.cut_boxes().is_empty() {
        canvas.mix_each(&mut pixels, stroke.mix);
        return;
    }
    mix_uncut(canvas, pixels, stroke);
}

/// Mixes the pixels of a line that the clip contains. This isn't inlined: with fewer loops in a function, the compiler
/// is more likely to split a loop in two, for y-major and x-major lines.
#[inline(never)]
fn mix_uncut(canvas: &mut Canvas, pixels: LinePixels, stroke: &Stroke<'_>)
    requires held { (x y : ℕ) → is_uncut_step pixels.steps stroke.now x y ≡ true → HasPixel canvas.old x y }
    requires places { (x y : ℕ) → place_on pixels.steps x y ≡ place_in canvas.old x y }
    requires countable { canvas.old.writes + canvas.old.rows * canvas.old.width + 1 < 2 ^ 64 }
    ensures { MixesUncut pixels.steps stroke.now canvas.old canvas.new }
{
    let clip = stroke.clip;
    canvas.mix_each(&mut UncutPixels { pixels, clip }, stroke.mix);
}
