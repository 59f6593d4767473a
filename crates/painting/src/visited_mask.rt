//! Visited masks: which pixels of a box have been visited.

ghost use Rattle.std.specs.Prelude.{◌≡◌, ◌+◌, ◌*◌, ◌<◌, ◌≤◌, ◌||◌, ◌==◌, ℕ, IfOk, IsTrue, IsFalse, false, length, not, nat_le};
ghost use Rattle.canvas.specs.Writing.{is_at};
ghost use Rattle.span_fill.specs.Lines.{HasNearEnds};
ghost use Rattle.span_fill.specs.Spans.{in_region};
ghost use Rattle.span_fill.specs.Steps.{HasAllSteps};
ghost use Rattle.painting.specs.VisitedMask.{has_bit, is_taken, pixel_count, pixel_number, span_width, visited_mask_limit};

use span_fill::{Grid, Line, LineSteps, OutOfMemory, Region, Span};
use std::alloc::Global;
use std::marker::Model;

/// The number of words of a mask, each of 64 bits.
const WORDS: usize = 16_384;

/// The most pixels of a box.
const MAX_PIXELS: usize = 1_048_576;

/// A visited mask: one bit for each pixel of a box, set when the pixel is visited.
///
/// # Guarantees
///
/// - Only `new` allocates memory, whatever the box.
#[derive(Drop)]
pub(crate) struct VisitedMask {
    /// The mask, row by row, followed by remains of earlier boxes.
    words: Vec<u64>,
    region: Region,
    /// The number of columns of the box.
    columns: usize,
    /// The number that the first pixel of the box has if those of the surface are counted row by row, in rows as wide as
    /// the box. It saves two subtractions for each pixel.
    start: usize,
}

impl Model for VisitedMask {
    ghost use Rattle.painting.specs.VisitedMask.{VisitedMaskState};

    ghost Value = { VisitedMaskState };

    ghost use Rattle.painting.specs.VisitedMaskInside.{HasVisitedMask, visited_mask_state};

    ghost view = { visited_mask_state };

    ghost invariant = { HasVisitedMask };
}

impl VisitedMask {
    /// Allocates a mask that can serve any box: 128 KiB. Its first box has no pixels. Returns `OutOfMemory` if the
    /// allocation fails.
    pub(crate) fn new(alloc: Global) -> Result<VisitedMask, OutOfMemory>
        ensures { IfOk result (λ visited. pixel_count visited.region ≡ 0) }
    {
        let Ok(words) = Vec::from_elem(alloc, 0, WORDS) else {
            return Err(OutOfMemory);
        };
        let region = empty_box();
        let columns = width(region.columns);
        let start = number_of(region.columns.from, region.rows.from, columns);
        Ok(VisitedMask {
            words,
            region,
            columns,
            start,
        })
    }

    /// Starts a box with no pixel visited, if it has at most 1,048,576 pixels, and returns whether it has. Otherwise
    /// the mask doesn't change.
    pub(crate) fn begin(&mut self, region: Region) -> bool
        requires columns { region.columns.to ≤ 8192 }
        requires rows { region.rows.to ≤ 8192 }
        ensures begun { result ≡ nat_le (pixel_count region) visited_mask_limit }
        ensures region { IsTrue result → self.new.region ≡ region }
        ensures none { IsTrue result → (x y : ℕ) → is_taken self.new x y ≡ false }
        ensures same { IsFalse result → self.new ≡ self.old }
    {
        let count = pixels(region);
        if count > MAX_PIXELS {
            return false;
        }
        clear(&mut self.words[..], count);
        self.region = region;
        self.columns = width(region.columns);
        self.start = number_of(region.columns.from, region.rows.from, self.columns);
        true
    }

    /// The pixels of a line within the box, step by step, with their numbers on a grid.
    pub(crate) fn steps(&self, line: Line, grid: Grid) -> LineSteps
        requires { HasNearEnds line }
        ensures line { result.line ≡ line }
        ensures region { result.region ≡ self.now.region }
        ensures grid { result.grid ≡ grid }
        ensures all { HasAllSteps result }
    {
        LineSteps::numbered(line, self.region, grid)
    }

    /// The number of a pixel of the box, counted row by row.
    fn number_in(&self, x: u32, y: u32) -> usize
        requires { IsTrue (in_region self.now.region x y) }
        ensures number { result ≡ pixel_number self.now.region x y }
        ensures within { result < visited_mask_limit }
    {
        number_of(x, y, self.columns) - self.start
    }

    /// Marks a pixel of the box as visited, and returns whether it wasn't visited before.
    pub(crate) fn take(&mut self, x: u32, y: u32) -> bool
        requires { IsTrue (in_region self.old.region x y) }
        ensures first { result ≡ not (is_taken self.old x y) }
        ensures taken { (a b : ℕ) → is_taken self.new a b ≡ (is_taken self.old a b || is_at x y a b) }
        ensures region { self.new.region ≡ self.old.region }
    {
        let number = self.number_in(x, y);
        take_bit(&mut self.words[..], number)
    }
}

/// A box without pixels.
fn empty_box() -> Region
    ensures columns { result.columns.to ≤ 8192 }
    ensures rows { result.rows.to ≤ 8192 }
    ensures none { pixel_count result ≡ 0 }
{
    let none = Span { from: 0, to: 0 };
    Region {
        columns: none,
        rows: none,
    }
}

/// How many numbers a span has.
fn width(span: Span) -> usize
    requires { span.to ≤ 8192 }
    ensures width { result ≡ span_width span }
    ensures few { result ≤ 8192 }
{
    if span.from < span.to {
        (span.to - span.from) as usize
    } else {
        0
    }
}

/// How many pixels a box has.
pub(crate) fn pixels(region: Region) -> usize
    requires columns { region.columns.to ≤ 8192 }
    requires rows { region.rows.to ≤ 8192 }
    ensures { result ≡ pixel_count region }
{
    width(region.columns) * width(region.rows)
}

/// The number of a pixel, counted row by row from the surface's first one, in rows of so many columns.
fn number_of(x: u32, y: u32, columns: usize) -> usize
    requires { columns ≤ 8192 }
    ensures { result ≡ y * columns + x }
{
    y as usize * columns + x as usize
}

/// Clears this number of bits, and the rest of the last word.
fn clear(words: &mut [u64], count: usize)
    requires words { length words.old ≡ 16384 }
    requires count { count ≤ visited_mask_limit }
    ensures clear { (number : ℕ) → number < count → has_bit words.new number ≡ false }
{
    for at in 0..(count + 63) / 64 {
        words[at] = 0;
    }
}

/// Sets a bit, and returns whether it wasn't set before.
fn take_bit(words: &mut [u64], number: usize) -> bool
    requires words { length words.old ≡ 16384 }
    requires number { number < visited_mask_limit }
    ensures first { result ≡ not (has_bit words.old number) }
    ensures bits { (other : ℕ) → has_bit words.new other ≡ (has_bit words.old other || other == number) }
{
    let (at, bit) = (number / 64, number % 64);
    let word = words[at];
    words[at] = word | 1 << bit;
    word >> bit & 1 == 0
}
