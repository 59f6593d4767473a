//! Strokes of several lines, step by step: a pixel is written unless an earlier line has visited it.

ghost use Rattle.std.specs.Prelude.{◌≡◌, ◌+◌, ◌*◌, ◌<◌, ◌≤◌, ◌^◌, ℕ, [], false, IsTrue};
ghost use Rattle.dc_stack.specs.Values.{placed_value};
ghost use Rattle.span_fill.specs.Lines.{HasNearEnds};
ghost use Rattle.painting.specs.Counts.{HasCapacityForLayer};
ghost use Rattle.painting.specs.Regions.{HasRegion, IsOfSide};
ghost use Rattle.painting.specs.LinePixels.{MixesLines};
ghost use Rattle.painting.specs.Visiting.{VisitsLine};
ghost use Rattle.painting.specs.VisitedMask.{is_taken};

use crate::line_pixels::{LinePixels, grid_of};
use crate::regions::whole_law;
use crate::untaken_pixels::UntakenPixels;
use crate::visited_mask::VisitedMask;
use canvas::{Canvas, writing_law};
use dc_stack::Clip;
use mapping::Mix;
use span_fill::{Line, Outline, Region, line_law};

/// Starts a visited mask for a box, if the box is small enough and the clip cuts no boxes out. Returns whether it did.
pub(crate) fn begin_visited_mask(visited: &mut VisitedMask, clip: &Clip, drawn: Region) -> bool
    requires columns { IsOfSide drawn.columns }
    requires rows { IsOfSide drawn.rows }
    ensures uncut { IsTrue result → (placed_value clip.now).cuts ≡ [] }
    ensures region { IsTrue result → visited.new.region ≡ drawn }
    ensures none { IsTrue result → (x y : ℕ) → is_taken visited.new x y ≡ false }
{
    if !clip.cut_boxes().is_empty() {
        return false;
    }
    visited.begin(drawn)
}

/// Mixes the pixels of an outline's lines within the box of the mask, each once. No pixel may be marked as visited yet.
pub(crate) fn visit_lines<O: Outline + Copy>(
    canvas: &mut Canvas,
    visited: &mut VisitedMask,
    outline: O,
    mix: Mix,
)
    requires held { HasRegion canvas.old visited.old.region }
    requires none { (x y : ℕ) → is_taken visited.old x y ≡ false }
    requires countable { HasCapacityForLayer canvas.old }
    ensures { MixesLines visited.old.region (O.lines outline) mix canvas.old canvas.new }
{
    writing_law();
    whole_law(canvas);
    let mut lines = outline;
    while let Some(line) = lines.next_line() {
        visit_line(canvas, visited, line, mix);
    }
}

/// Mixes the pixels of a line within the box that aren't marked as visited, and marks them. This isn't inlined, so that
/// its loops get enough registers.
#[inline(never)]
fn visit_line(canvas: &mut Canvas, visited: &mut VisitedMask, line: Line, mix: Mix)
    requires near { HasNearEnds line }
    requires held { HasRegion canvas.old visited.old.region }
    requires countable { canvas.old.writes + canvas.old.rows * canvas.old.width + 1 < 2 ^ 64 }
    ensures { VisitsLine line mix visited.old visited.new canvas.old canvas.new }
{
    writing_law();
    whole_law(canvas);
    line_law();
    if is_point(line) {
        return;
    }
    let steps = visited.steps(line, grid_of(canvas));
    if steps.is_empty() {
        return;
    }
    let pixels = LinePixels { steps };
    canvas.mix_each(&mut UntakenPixels { pixels, visited }, mix);
}

/// Whether a line ends where it begins, and so has no pixel.
fn is_point(line: Line) -> bool
    ensures x { IsTrue result → line.from.x ≡ line.to.x }
    ensures y { IsTrue result → line.from.y ≡ line.to.y }
{
    line.from.x == line.to.x && line.from.y == line.to.y
}
