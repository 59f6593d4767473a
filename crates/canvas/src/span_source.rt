//! Writing row spans that a source returns one by one.

ghost use Rattle.std.specs.Prelude.{◌≡◌, ◌+◌, ◌*◌, ◌<◌, ◌≤◌, ◌^◌, ℕ, Bool, true};
ghost use Rattle.mapping.specs.Mixes.{mixed_by};
ghost use Rattle.canvas.specs.CanvasState.{HasPixel, HasRow};
ghost use Rattle.canvas.specs.PixelSources.{KeepsEnd};
ghost use Rattle.canvas.specs.SpanSources.{ChangesSpan, GivesNextSpan, is_last};
ghost use Rattle.canvas.specs.Writing.{Repaints, in_row_span};

use crate::part_change::PartChange;
use crate::splat::Splat;
use crate::surface::{Canvas, place};
use mapping::{Colour, Mix};

/// Columns of a row of a surface, from the first to before the last. If `to` isn't above `from`, there are none.
#[derive(Clone, Copy, Debug, PartialEq, Eq)]
pub struct RowSpan {
    pub y: u32,
    pub from: u32,
    pub to: u32,
}

/// The result of a source's step.
#[derive(Clone, Copy, Debug, PartialEq, Eq)]
pub enum SpanStep {
    /// A span of pixels that remain. It may be empty.
    Span(RowSpan),
    /// No span. The same pixels remain.
    Nothing,
    /// No pixel remains.
    End,
}

/// Spans of a surface's rows, one by one, with no pixel in two of them. A step may return nothing.
pub trait SpanSource {
    /// Whether a pixel remains.
    ghost to_come: { Self → ℕ → ℕ → Bool };

    /// A number that decreases with each step.
    ghost measure: { Self → ℕ };

    /// What a source is after it has returned all its spans.
    ghost ends_as: { Self → Self → Type 0 };

    /// Takes a step.
    fn step(&mut self) -> SpanStep
        ensures span { GivesNextSpan (to_come self.old) (measure self.old) result (to_come self.new) (measure self.new) }
        ensures end { KeepsEnd ends_as (is_last result) self.old self.new };
}

impl Canvas {
    /// Writes the pixels of all spans of a source in one colour, and counts each once.
    pub fn put_each_span<S: SpanSource>(&mut self, spans: &mut S, colour: Colour)
        requires held { (x y : ℕ) → S.to_come spans.old x y ≡ true → HasPixel self.old x y }
        requires countable { self.old.writes + self.old.rows * self.old.width + 1 < 2 ^ 64 }
        ensures pixels { Repaints (S.to_come spans.old) (λ x y old. colour) self.old self.new }
        ensures end { S.ends_as spans.old spans.new }
    {
        self.change_spans(spans, &Splat::new(colour));
    }

    /// Changes the pixels of all spans of a source by the mix, and counts each once. If the mix gives one colour for
    /// all old colours, none is read.
    pub fn mix_each_span<S: SpanSource>(&mut self, spans: &mut S, mix: Mix)
        requires held { (x y : ℕ) → S.to_come spans.old x y ≡ true → HasPixel self.old x y }
        requires countable { self.old.writes + self.old.rows * self.old.width + 1 < 2 ^ 64 }
        ensures pixels { Repaints (S.to_come spans.old) (λ x y old. mixed_by mix old) self.old self.new }
        ensures end { S.ends_as spans.old spans.new }
    {
        self.width();
        match mix.constant() {
            Some(colour) => self.put_each_span(spans, colour),
            None => self.change_spans(spans, &mix),
        }
    }

    /// Changes the pixels of all spans of a source, and counts each once.
    fn change_spans<S: SpanSource, C: PartChange>(&mut self, spans: &mut S, change: &C)
        requires held { (x y : ℕ) → S.to_come spans.old x y ≡ true → HasPixel self.old x y }
        requires countable { self.old.writes + self.old.rows * self.old.width + 1 < 2 ^ 64 }
        ensures pixels { Repaints (S.to_come spans.old) (λ x y old. C.made change.now old) self.old self.new }
        ensures end { S.ends_as spans.old spans.new }
    {
        self.width();
        // (the writes are counted here: counting in the canvas would access memory for each span)
        let mut count: u64 = 0;
        loop {
            match spans.step() {
                SpanStep::Span(span) => count += self.change_span(span, change),
                SpanStep::Nothing => {}
                SpanStep::End => break,
            }
        }
        self.writes += count;
    }

    /// Changes the pixels of a span, and returns how many there are, without counting them.
    fn change_span<C: PartChange>(&mut self, span: RowSpan, change: &C) -> u64
        requires { (x y : ℕ) → in_row_span span.y span.from span.to x y ≡ true → HasPixel self.old x y }
        ensures pixels { ChangesSpan span (C.made change.now) result self.old self.new }
        ensures count { self.new.writes ≡ self.old.writes }
    {
        self.width();
        // (the canvas need not have the row of an empty span)
        if span.from >= span.to {
            return 0;
        }
        self.change_columns(span, change)
    }

    /// The same for a span in a row of the canvas.
    fn change_columns<C: PartChange>(&mut self, span: RowSpan, change: &C) -> u64
        requires columns { span.from ≤ span.to }
        requires width { span.to ≤ self.old.width }
        requires row { HasRow self.old span.y }
        ensures pixels { ChangesSpan span (C.made change.now) result self.old self.new }
        ensures count { self.new.writes ≡ self.old.writes }
    {
        let length = span.to - span.from;
        let start = place(self.stride, span.y - self.first, span.from);
        let end = start + length as usize;
        change.change(&mut self.colours[start..end]);
        u64::from(length)
    }
}
