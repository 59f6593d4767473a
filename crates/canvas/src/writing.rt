//! Writing the pixels of a row.

ghost use Rattle.std.specs.Prelude.{◌≡◌, ◌+◌, ◌-◌, ◌<◌, ◌≤◌, ◌^◌, length};
ghost use Rattle.mapping.specs.Mixes.{mixed_by};
ghost use Rattle.canvas.specs.CanvasState.{HasPixel, HasRow};
ghost use Rattle.canvas.specs.Writing.{Repaints, in_cells, in_row, in_row_span, is_at, mixed_by_row, put_by_pattern, put_by_row};

use crate::parts::{change_cells_of, fill_with, fill_with_stripes, mix_all, mix_all_by};
use crate::pixel_change::PixelChange;
use crate::span_source::RowSpan;
use crate::splat::Splat;
use crate::stripes::Stripes;
use crate::surface::{Canvas, place};
use mapping::{Colour, Mix};

impl Canvas {
    /// Writes the pixels of row `y` in the columns from `x_from` to before `x_to` in one colour.
    pub fn put_span(&mut self, x_from: u32, x_to: u32, y: u32, colour: Colour)
        requires columns { x_from ≤ x_to }
        requires width { x_to ≤ self.old.width }
        requires row { HasRow self.old y }
        requires countable { self.old.writes + (x_to - x_from) < 2 ^ 64 }
        ensures pixels { Repaints (in_row_span y x_from x_to) (λ column row old. colour) self.old self.new }
        ensures count { self.new.writes ≡ self.old.writes + (x_to - x_from) }
    {
        self.put_swatch(x_from, x_to, y, &Splat::new(colour));
    }

    /// The same in the colour of a swatch, which is made once for many spans.
    pub fn put_swatch(&mut self, x_from: u32, x_to: u32, y: u32, splat: &Splat)
        requires columns { x_from ≤ x_to }
        requires width { x_to ≤ self.old.width }
        requires row { HasRow self.old y }
        requires countable { self.old.writes + (x_to - x_from) < 2 ^ 64 }
        ensures pixels { Repaints (in_row_span y x_from x_to) (λ column row old. splat.now.colour) self.old self.new }
        ensures count { self.new.writes ≡ self.old.writes + (x_to - x_from) }
    {
        let start = place(self.stride, y - self.first, x_from);
        let end = start + (x_to - x_from) as usize;
        fill_with(&mut self.colours[start..end], splat);
        self.writes += u64::from(x_to - x_from);
    }

    /// Writes the pixels of row `y` in the columns from `x_from` to before `x_to`, each in the stripes' colour at its column
    /// modulo 8.
    pub fn put_stripes(&mut self, x_from: u32, x_to: u32, y: u32, stripes: &Stripes)
        requires columns { x_from ≤ x_to }
        requires width { x_to ≤ self.old.width }
        requires row { HasRow self.old y }
        requires countable { self.old.writes + (x_to - x_from) < 2 ^ 64 }
        ensures pixels { Repaints (in_row_span y x_from x_to) (put_by_pattern stripes.now.twice) self.old self.new }
        ensures count { self.new.writes ≡ self.old.writes + (x_to - x_from) }
    {
        let start = place(self.stride, y - self.first, x_from);
        let end = start + (x_to - x_from) as usize;
        fill_with_stripes(&mut self.colours[start..end], x_from, stripes);
        self.writes += u64::from(x_to - x_from);
    }

    /// Writes these colours into row `y`, the first in column `x_from`.
    pub fn put_row(&mut self, x_from: u32, y: u32, inks: &[Colour])
        requires width { x_from + length inks.now ≤ self.old.width }
        requires row { HasRow self.old y }
        requires countable { self.old.writes + length inks.now < 2 ^ 64 }
        ensures pixels { Repaints (in_row y x_from inks.now) (put_by_row inks.now x_from) self.old self.new }
        ensures count { self.new.writes ≡ self.old.writes + length inks.now }
    {
        let start = place(self.stride, y - self.first, x_from);
        let end = start + inks.len();
        self.colours[start..end].copy_from_slice(inks);
        self.writes += inks.len() as u64;
    }

    /// Changes the pixels of row `y` in the columns from `x_from` to before `x_to` by the mix.
    pub fn mix_span(&mut self, x_from: u32, x_to: u32, y: u32, mix: Mix)
        requires columns { x_from ≤ x_to }
        requires width { x_to ≤ self.old.width }
        requires row { HasRow self.old y }
        requires countable { self.old.writes + (x_to - x_from) < 2 ^ 64 }
        ensures pixels { Repaints (in_row_span y x_from x_to) (λ column row old. mixed_by mix old) self.old self.new }
        ensures count { self.new.writes ≡ self.old.writes + (x_to - x_from) }
    {
        let start = place(self.stride, y - self.first, x_from);
        let end = start + (x_to - x_from) as usize;
        mix_all(&mut self.colours[start..end], mix);
        self.writes += u64::from(x_to - x_from);
    }

    /// Changes the pixels of row `y` from column `x_from` on, each by the mix at its index, as many as there are mixes.
    /// The bits to keep and the bits to flip are in separate rows.
    pub fn mix_row(&mut self, x_from: u32, y: u32, keeps: &[Colour], flips: &[Colour])
        requires mixes { length flips.now ≡ length keeps.now }
        requires width { x_from + length keeps.now ≤ self.old.width }
        requires row { HasRow self.old y }
        requires countable { self.old.writes + length keeps.now < 2 ^ 64 }
        ensures pixels { Repaints (in_row y x_from keeps.now) (mixed_by_row keeps.now flips.now x_from) self.old self.new }
        ensures count { self.new.writes ≡ self.old.writes + length keeps.now }
    {
        let start = place(self.stride, y - self.first, x_from);
        let end = start + keeps.len();
        mix_all_by(&mut self.colours[start..end], keeps, flips);
        self.writes += keeps.len() as u64;
    }

    /// Changes the pixels of row `y` in the columns from `x_from` to before `x_to` whose bit, at their column modulo 8,
    /// is set in `cells`, by the mix. If the mix gives one colour for all old colours, none is read.
    pub fn mix_cells(&mut self, x_from: u32, x_to: u32, y: u32, cells: u8, mix: Mix)
        requires columns { x_from ≤ x_to }
        requires width { x_to ≤ self.old.width }
        requires row { HasRow self.old y }
        requires countable { self.old.writes + (x_to - x_from) < 2 ^ 64 }
        ensures pixels { Repaints (in_cells y x_from x_to cells) (λ column row old. mixed_by mix old) self.old self.new }
        ensures count { self.new.writes ≤ self.old.writes + (x_to - x_from) }
    {
        self.width();
        let span = RowSpan {
            y,
            from: x_from,
            to: x_to,
        };
        match mix.constant() {
            Some(colour) => self.change_cells(span, cells, colour),
            None => self.change_cells(span, cells, mix),
        }
    }

    /// Changes the pixels of a span whose bit, at their column modulo 8, is set in `cells`.
    fn change_cells<C: PixelChange>(&mut self, span: RowSpan, cells: u8, change: C)
        requires columns { span.from ≤ span.to }
        requires width { span.to ≤ self.old.width }
        requires row { HasRow self.old span.y }
        requires countable { self.old.writes + (span.to - span.from) < 2 ^ 64 }
        ensures pixels { Repaints (in_cells span.y span.from span.to cells) (λ column row old. C.made change old) self.old self.new }
        ensures count { self.new.writes ≤ self.old.writes + (span.to - span.from) }
    {
        let start = place(self.stride, span.y - self.first, span.from);
        let end = start + (span.to - span.from) as usize;
        let count = change_cells_of(&mut self.colours[start..end], span.from, cells, change);
        self.writes += count as u64;
    }

    /// Changes the surface's pixel `(x, y)` by the mix.
    pub fn mix(&mut self, x: u32, y: u32, mix: Mix)
        requires pixel { HasPixel self.old x y }
        requires countable { self.old.writes + 1 < 2 ^ 64 }
        ensures pixel { Repaints (is_at x y) (λ column row old. mixed_by mix old) self.old self.new }
        ensures count { self.new.writes ≡ self.old.writes + 1 }
    {
        self.change(x, y, mix);
        self.writes += 1;
    }
}
