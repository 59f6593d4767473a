//! Spans: parts of rows, and intervals.

ghost use Rattle.std.specs.Prelude.{◌≡◌, ◌≤◌, ◌<◌, ◌↔◌, ◌&&◌, ◌<ℤ◌, ℕ, pos};
ghost use Rattle.mapping.specs.PixelBoxes.{is_from_to};

/// Columns of a row, or rows: from the first to before the last. If `to` isn't above `from`, there are none.
#[derive(Clone, Copy, Debug, Default, PartialEq, Eq)]
pub struct Span {
    pub from: u32,
    pub to: u32,
}

impl Span {
    ghost use Rattle.span_fill.specs.Spans.{in_span};

    /// The part of the span from one number to before another.
    #[inline]
    pub fn between(self, from: i64, to: i64) -> Span
        requires { self.from ≤ self.to }
        ensures numbers { (n : ℕ) → in_span result n ≡ in_span self n && is_from_to from to n }
        ensures first { self.from ≤ result.from }
        ensures order { result.from ≤ result.to }
        ensures last { result.to ≤ self.to }
    {
        let first = clamped(from, self.from, self.to);
        Span {
            from: first,
            to: clamped(to, first, self.to),
        }
    }
}

/// A part of a surface: some of its columns and some of its rows.
#[derive(Clone, Copy, Debug, PartialEq, Eq)]
pub struct Region {
    pub columns: Span,
    pub rows: Span,
}

/// A number, limited to be at least the second and at most the third.
fn clamped(number: i64, least: u32, most: u32) -> u32
    requires { least ≤ most }
    ensures least { least ≤ result }
    ensures most { result ≤ most }
    ensures before { (n : ℕ) → least ≤ n → n < most → (n < result) ↔ (pos n <ℤ number) }
{
    if number <= i64::from(least) {
        least
    } else if i64::from(most) <= number {
        most
    } else {
        number as u32
    }
}
