//! Estimates whether a stroke costs less by a mask or by rows of spans. This chooses the method and doesn't affect what is
//! painted.

ghost use Rattle.painting.specs.Regions.{IsOfSide};

use crate::visited_mask::pixels;
use dc_stack::Clip;
use span_fill::{Line, Outline, Region, Span};

/// The number of a line's pixels that take about as long through the visited mask as the line's spans take in one row.
const STEPS_A_ROW: usize = 4;

/// To clear and read so many pixels of a stroke mask takes no longer than a line's spans in one row.
const MASK_PIXELS_A_ROW: usize = 32;

/// The same where the clip cuts boxes out, since spans take longer there.
const MASK_PIXELS_A_CUT_ROW: usize = 256;

/// For a line with fewer columns and rows than this, both methods cost about the same.
const SHORT: u32 = 16;

/// An estimate of what an outline's long lines have in a box: the number of pixels of all of them, and the sum of their
/// numbers of rows.
#[derive(Clone, Copy)]
pub(crate) struct Shares {
    steps: usize,
    rows: usize,
}

impl Shares {
    /// The shares of no line.
    const NONE: Shares = Shares { steps: 0, rows: 0 };

    /// These shares with those of one more line, if it is long.
    fn with(self, line: Line, drawn: Region) -> Shares
        requires columns { IsOfSide drawn.columns }
        requires rows { IsOfSide drawn.rows }
    {
        if is_short(line) {
            return self;
        }
        let columns = numbers_between(line.from.x, line.to.x, drawn.columns);
        let rows = numbers_between(line.from.y, line.to.y, drawn.rows);
        if columns <= 0 || rows <= 0 {
            return self;
        }
        // (a drawing has too few lines for an overflow)
        Shares {
            steps: self
                .steps
                .wrapping_add(steps_in(line, columns as u32, rows as u32) as usize),
            rows: self.rows.wrapping_add(rows as usize),
        }
    }

    /// Whether the visited mask costs less than rows of spans. Painting pixel by pixel is expensive for x-major lines,
    /// whose spans are long.
    fn are_for_visited(self) -> bool {
        self.steps / STEPS_A_ROW <= self.rows
    }
}

/// Whether the visited mask of a box costs less than rows of spans. (Clearing one row of the mask takes less time than
/// advancing to the next row, so the size of the box doesn't matter.)
pub(crate) fn visited_mask_pays(shares: Shares, drawn: Region, clip: &Clip) -> bool
    requires columns { IsOfSide drawn.columns }
    requires rows { IsOfSide drawn.rows }
{
    if pixels(drawn) == 0 || !clip.cut_boxes().is_empty() {
        return false;
    }
    is_narrow(drawn) || shares.are_for_visited()
}

/// Whether the stroke mask of a box costs less than the visited mask, or if that can't be used or costs more, than rows of
/// spans. The stroke mask is cleared and read whole, but to mark a pixel in it costs the least.
pub(crate) fn stroke_mask_pays(shares: Shares, drawn: Region, clip: &Clip) -> bool
    requires columns { IsOfSide drawn.columns }
    requires rows { IsOfSide drawn.rows }
{
    if visited_mask_pays(shares, drawn, clip) {
        return shares.rows > pixels(drawn);
    }
    if clip.cut_boxes().is_empty() {
        return shares.rows > pixels(drawn) / MASK_PIXELS_A_ROW;
    }
    shares.rows > pixels(drawn) / MASK_PIXELS_A_CUT_ROW
}

/// The shares of an outline's long lines in a box. All lines are examined, so the result doesn't depend on their order.
pub(crate) fn shares_of<O: Outline + Copy>(outline: O, drawn: Region) -> Shares
    requires columns { IsOfSide drawn.columns }
    requires rows { IsOfSide drawn.rows }
{
    let mut lines = outline;
    let mut shares = Shares::NONE;
    while let Some(line) = lines.next_line() {
        shares = shares.with(line, drawn);
    }
    shares
}

/// Whether a box has so few columns that each of its lines is short or y-major.
fn is_narrow(drawn: Region) -> bool {
    drawn.columns.to <= drawn.columns.from.saturating_add(SHORT)
}

/// An estimate of the number of a line's pixels in a box, of which it meets this many columns and rows.
fn steps_in(line: Line, columns: u32, rows: u32) -> u32 {
    let across = line.to.x.abs_diff(line.from.x);
    let down = line.to.y.abs_diff(line.from.y);
    if across <= down {
        return rows;
    }
    if across / STEPS_A_ROW as u32 <= down {
        return columns.min(rows.wrapping_mul(STEPS_A_ROW as u32));
    }
    columns.max(rows)
}

/// Whether a line has few columns and few rows.
fn is_short(line: Line) -> bool {
    is_small(line.to.x.wrapping_sub(line.from.x)) && is_small(line.to.y.wrapping_sub(line.from.y))
}

/// Whether a number is above -16 and below 16: the compiler makes one comparison of the two.
fn is_small(number: i32) -> bool {
    -(SHORT as i32) < number && number < SHORT as i32
}

/// How many numbers of a span lie between two numbers, inclusive. A result of 0 or less means none.
fn numbers_between(one: i32, other: i32, span: Span) -> i32
    requires { IsOfSide span }
{
    let first = one.min(other).max(span.from as i32);
    let last = one.max(other).min((span.to as i32).wrapping_sub(1));
    last.wrapping_sub(first).wrapping_add(1)
}
