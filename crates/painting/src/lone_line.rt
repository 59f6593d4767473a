//! Outlines that consist of one line.

ghost use Rattle.std.specs.Prelude.{◌≡◌, true, [], ◌∷◌, IfSome};
ghost use Rattle.std.specs.List.{All};
ghost use Rattle.mapping.specs.PlaceOf.{surface_of};
ghost use Rattle.mapping.specs.Surface.{lands_within_limits};
ghost use Rattle.span_fill.specs.Lines.{HasNearEnds};
ghost use Rattle.painting.specs.LoneLines.{landed_line, lone_lines};

use mapping::{Place, Point};
use span_fill::{Line, Outline};

/// An outline of one line, until that line is taken.
#[derive(Clone, Copy, Debug, Drop)]
pub(crate) struct LoneLine {
    pub(crate) line: Option<Line>,
    pub(crate) ghost near: { All HasNearEnds (lone_lines line) },
}

impl LoneLine {
    /// The line between the positions of two plane points on the surface.
    pub(crate) fn new(place: Place, from: Point, to: Point) -> LoneLine
        requires from { lands_within_limits from (surface_of place) ≡ true }
        requires to { lands_within_limits to (surface_of place) ≡ true }
        ensures { lone_lines result.line ≡ landed_line (surface_of place) from to ∷ [] }
    {
        let line = Line {
            from: place.at(from),
            to: place.at(to),
        };
        LoneLine { line: Some(line) }
    }
}

impl Outline for LoneLine {
    ghost lines = { λ lone. lone_lines lone.line };

    fn count(&self) -> usize {
        match self.line {
            Some(_) => 1,
            None => 0,
        }
    }

    fn next_line(&mut self) -> Option<Line> {
        let line = self.line;
        self.line = None;
        line
    }
}

/// The only line of an outline, if the outline has exactly one. An outline of more than two points isn't examined,
/// because that would place three of its points.
pub(crate) fn lone_line<O: Outline + Copy>(outline: O, points: u32) -> Option<Line>
    ensures alone { IfSome result (λ line. O.lines outline ≡ line ∷ []) }
    ensures near { IfSome result HasNearEnds }
{
    if points > 2 {
        return None;
    }
    let mut lines = outline;
    let first = lines.next_line()?;
    match lines.next_line() {
        Some(_) => None,
        None => Some(first),
    }
}
