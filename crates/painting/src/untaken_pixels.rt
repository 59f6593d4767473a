//! The pixels of a line that no earlier line has visited.

ghost use Rattle.std.specs.Prelude.{◌≡◌, ◌-◌, ◌&&◌, ℕ, not, true};
ghost use Rattle.span_fill.specs.Spans.{in_region};
ghost use Rattle.painting.specs.LinePixels.{is_to_step, place_on};
ghost use Rattle.painting.specs.VisitedMask.{is_taken};

use crate::line_pixels::LinePixels;
use crate::visited_mask::VisitedMask;
use canvas::{PixelSource, PixelStep};

/// The pixels of a line's remaining steps that aren't marked as visited. A pixel is marked when it is returned.
///
/// # Guarantees
///
/// - The mask belongs to a box that contains these pixels.
#[derive(Drop)]
pub(crate) struct UntakenPixels<'s> {
    pub(crate) pixels: LinePixels,
    pub(crate) visited: &'s mut VisitedMask,
    pub(crate) ghost boxed: { (x y : ℕ) → is_to_step pixels.steps x y ≡ true → in_region visited.now.region x y ≡ true },
}

impl<'s> PixelSource for UntakenPixels<'s> {
    ghost use Rattle.painting.specs.UntakenPixels.{TakesAll};

    ghost places = { λ untaken. place_on untaken.pixels.steps };

    ghost to_come = { λ untaken x y. is_to_step untaken.pixels.steps x y && not (is_taken untaken.visited.now x y) };

    ghost measure = { λ untaken. untaken.pixels.steps.end - untaken.pixels.steps.next };

    ghost ends_as = { TakesAll };

    fn step(&mut self) -> PixelStep {
        match self.pixels.step() {
            PixelStep::Pixel(pixel) => {
                if self.visited.take(pixel.x, pixel.y) {
                    PixelStep::Pixel(pixel)
                } else {
                    PixelStep::Nothing
                }
            }
            PixelStep::Nothing => PixelStep::Nothing,
            PixelStep::End => PixelStep::End,
        }
    }
}
