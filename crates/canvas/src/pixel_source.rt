//! Writing pixels that a source returns one by one.

ghost use Rattle.std.specs.Prelude.{◌≡◌, ◌+◌, ◌*◌, ◌<◌, ◌^◌, ℕ, Bool, true};
ghost use Rattle.mapping.specs.Mixes.{mixed_by};
ghost use Rattle.canvas.specs.CanvasState.{HasPixel, place_in};
ghost use Rattle.canvas.specs.PixelSources.{GivesNext, KeepsEnd, counted, is_end};
ghost use Rattle.canvas.specs.Writing.{Repaints, is_at};

use crate::pixel_change::PixelChange;
use crate::surface::{Canvas, place};
use mapping::{Colour, Mix};

/// A pixel of a surface, by its column and its row, and by its place in a canvas.
#[derive(Clone, Copy, Debug, PartialEq, Eq)]
pub struct PixelAt {
    pub x: u32,
    pub y: u32,
    /// `x`, plus the canvas's stride (`Canvas::stride`) for each of its rows above `y`.
    pub place: usize,
}

/// The result of a source's step.
#[derive(Clone, Copy, Debug, PartialEq, Eq)]
pub enum PixelStep {
    /// One of the remaining pixels.
    Pixel(PixelAt),
    /// No pixel. The same pixels remain.
    Nothing,
    /// No pixel remains.
    End,
}

/// Pixels of a surface, one by one and none twice. A step may return nothing: a source that searches for its next pixel
/// in a loop of its own would be slower.
pub trait PixelSource {
    /// The place of each pixel, by its column and its row.
    ghost places: { Self → ℕ → ℕ → ℕ };

    /// Whether a pixel remains.
    ghost to_come: { Self → ℕ → ℕ → Bool };

    /// A number that decreases with each step.
    ghost measure: { Self → ℕ };

    /// What a source is after it has returned all its pixels.
    ghost ends_as: { Self → Self → Type 0 };

    /// Takes a step.
    fn step(&mut self) -> PixelStep
        ensures pixel { GivesNext (places self.old) (to_come self.old) (measure self.old) result (to_come self.new) (measure self.new) }
        ensures places { (x y : ℕ) → places self.new x y ≡ places self.old x y }
        ensures end { KeepsEnd ends_as (is_end result) self.old self.new };
}

impl Canvas {
    /// Writes the pixels of a source in one colour, and counts each once.
    pub fn put_each<P: PixelSource>(&mut self, pixels: &mut P, colour: Colour)
        requires held { (x y : ℕ) → P.to_come pixels.old x y ≡ true → HasPixel self.old x y }
        requires places { (x y : ℕ) → P.places pixels.old x y ≡ place_in self.old x y }
        requires countable { self.old.writes + self.old.rows * self.old.width + 1 < 2 ^ 64 }
        ensures pixels { Repaints (P.to_come pixels.old) (λ x y old. colour) self.old self.new }
        ensures end { P.ends_as pixels.old pixels.new }
    {
        self.change_each(pixels, colour);
    }

    /// Changes the pixels of a source by the mix, and counts each once. If the mix gives one colour for all old
    /// colours, none is read.
    pub fn mix_each<P: PixelSource>(&mut self, pixels: &mut P, mix: Mix)
        requires held { (x y : ℕ) → P.to_come pixels.old x y ≡ true → HasPixel self.old x y }
        requires places { (x y : ℕ) → P.places pixels.old x y ≡ place_in self.old x y }
        requires countable { self.old.writes + self.old.rows * self.old.width + 1 < 2 ^ 64 }
        ensures pixels { Repaints (P.to_come pixels.old) (λ x y old. mixed_by mix old) self.old self.new }
        ensures end { P.ends_as pixels.old pixels.new }
    {
        self.width();
        match mix.constant() {
            Some(colour) => self.put_each(pixels, colour),
            None => self.change_each(pixels, mix),
        }
    }

    /// Changes the pixels of a source, and counts each once.
    fn change_each<P: PixelSource, C: PixelChange>(&mut self, pixels: &mut P, change: C)
        requires held { (x y : ℕ) → P.to_come pixels.old x y ≡ true → HasPixel self.old x y }
        requires places { (x y : ℕ) → P.places pixels.old x y ≡ place_in self.old x y }
        requires countable { self.old.writes + self.old.rows * self.old.width + 1 < 2 ^ 64 }
        ensures pixels { Repaints (P.to_come pixels.old) (λ x y old. C.made change old) self.old self.new }
        ensures end { P.ends_as pixels.old pixels.new }
    {
        self.width();
        // (the writes are counted here: counting in the canvas would access memory for each pixel)
        let mut count: u64 = 0;
        loop {
            match pixels.step() {
                PixelStep::Pixel(pixel) => {
                    self.change_at(pixel, change);
                    count += 1;
                }
                PixelStep::Nothing => {}
                PixelStep::End => break,
            }
        }
        self.writes += count;
    }

    /// Changes the surface's pixel `(x, y)`, without counting it.
    pub(crate) fn change<C: PixelChange>(&mut self, x: u32, y: u32, change: C)
        requires { HasPixel self.old x y }
        ensures repaints { Repaints (is_at x y) (λ column row old. C.made change old) self.old (counted 1 self.new) }
        ensures count { self.new.writes ≡ self.old.writes }
    {
        let place = place(self.stride, y - self.first, x);
        self.colours[place] = change.of(self.colours[place]);
    }

    /// The same for a pixel whose place is known.
    fn change_at<C: PixelChange>(&mut self, pixel: PixelAt, change: C)
        requires held { HasPixel self.old pixel.x pixel.y }
        requires place { pixel.place ≡ place_in self.old pixel.x pixel.y }
        ensures repaints { Repaints (is_at pixel.x pixel.y) (λ x y old. C.made change old) self.old (counted 1 self.new) }
        ensures count { self.new.writes ≡ self.old.writes }
    {
        self.colours[pixel.place] = change.of(self.colours[pixel.place]);
    }
}
