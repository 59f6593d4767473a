//! The pixels of a line as a source of pixels for a canvas.

ghost use Rattle.std.specs.Prelude.{◌≡◌, ◌≤◌, ◌-◌, ◌≤ℤ◌, ℕ, pos, false};
ghost use Rattle.canvas.specs.Rows.{row_stride};
ghost use Rattle.painting.specs.LinePixels.{is_to_step, place_on};

use canvas::{Canvas, PixelAt, PixelSource, PixelStep};
use span_fill::{Grid, LineSteps, line_law};

/// The pixels of a line's remaining steps. Their numbers are their places in a canvas.
///
/// # Guarantees
///
/// - The region of the steps has no row above the first one of the canvas.
#[derive(Drop)]
pub(crate) struct LinePixels {
    pub(crate) steps: LineSteps,
    pub(crate) ghost below: { steps.grid.first ≤ steps.region.rows.from },
}

/// The numbering by which a pixel's number is its place in a canvas.
pub(crate) fn grid_of(canvas: &Canvas) -> Grid
    ensures stride { result.stride ≡ row_stride canvas.now.width }
    ensures first { result.first ≡ canvas.now.first }
{
    canvas.rows();
    Grid {
        stride: canvas.stride() as u32,
        first: canvas.first(),
    }
}

/// A place from a number.
fn place_of(number: i64) -> usize
    requires { pos 0 ≤ℤ number }
    ensures { pos result ≡ number }
{
    number as usize
}

impl PixelSource for LinePixels {
    ghost places = { λ pixels. place_on pixels.steps };

    ghost to_come = { λ pixels. is_to_step pixels.steps };

    ghost measure = { λ pixels. pixels.steps.end - pixels.steps.next };

    ghost ends_as = { λ start end. (x y : ℕ) → is_to_step end.steps x y ≡ false };

    fn step(&mut self) -> PixelStep {
        line_law();
        match self.steps.next_numbered() {
            Some(numbered) => PixelStep::Pixel(PixelAt {
                x: numbered.pixel.x,
                y: numbered.pixel.y,
                place: place_of(numbered.number),
            }),
            None => PixelStep::End,
        }
    }
}
