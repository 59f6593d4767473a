//! The pixels of a line that a clip contains.

ghost use Rattle.std.specs.Prelude.{◌-◌, ◌&&◌};
ghost use Rattle.dc_stack.specs.Clip.{in_boxes};
ghost use Rattle.dc_stack.specs.Values.{placed_value};
ghost use Rattle.painting.specs.LinePixels.{is_to_step, place_on};

use crate::line_pixels::LinePixels;
use canvas::{PixelSource, PixelStep};
use dc_stack::Clip;

/// The pixels of a line's remaining steps that a clip contains.
#[derive(Drop)]
pub(crate) struct UncutPixels<'c> {
    pub(crate) pixels: LinePixels,
    pub(crate) clip: &'c Clip,
}

impl<'c> PixelSource for UncutPixels<'c> {
    ghost places = { λ uncut. place_on uncut.pixels.steps };

    ghost to_come = { λ uncut x y. is_to_step uncut.pixels.steps x y && in_boxes (placed_value uncut.clip.now) x y };

    ghost measure = { λ uncut. uncut.pixels.steps.end - uncut.pixels.steps.next };

    ghost ends_as = { λ start end. Unit {0} };

    fn step(&mut self) -> PixelStep {
        match self.pixels.step() {
            PixelStep::Pixel(pixel) => {
                if self.clip.has(pixel.x, pixel.y) {
                    PixelStep::Pixel(pixel)
                } else {
                    PixelStep::Nothing
                }
            }
            PixelStep::Nothing => PixelStep::Nothing,
            PixelStep::End => PixelStep::End,
        }
    }
}
