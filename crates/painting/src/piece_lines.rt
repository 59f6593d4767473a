//! The lines of the figures that the pieces of a path define, on the surface.

ghost use Rattle.std.specs.Prelude.{◌≡◌, ◌<◌, ◌^◌, [], length, IfSome};
ghost use Rattle.mapping.specs.PlaceOf.{surface_of};
ghost use Rattle.dc_stack.specs.Figures.{all_figures, points_of_figures};
ghost use Rattle.dc_stack.specs.Pieces.{AllLandOn, figures_of};
ghost use Rattle.span_fill.specs.Lines.{GivesFirst, HasNearEnds, IsNearPoint};
ghost use Rattle.painting.specs.FigureEnds.{landed_lines};
ghost use Rattle.painting.specs.Moves.{IsNearMove, after_move, lines_at_end, lines_of_move};
ghost use Rattle.painting.specs.MovesToCome.{drawn_of, figure_lines_left};
ghost use Rattle.painting.specs.declared.moves.Move.TheVariants.{To, End};

use crate::list_lines::{Cursor, Ends};
use crate::moves::Move;
use crate::path_moves::PathMoves;
use dc_stack::{FigureEnd, Piece};
use mapping::{Place, Point};
use span_fill::{Line, Outline};

/// The remaining lines of a sequence of moves.
#[derive(Clone, Copy, Debug, Drop)]
pub(crate) struct FigureLines<'p, 'a> {
    pub(crate) ends: Ends,
    /// The open figure, if there is one.
    pub(crate) cursor: Option<Cursor>,
    pub(crate) moves: PathMoves<'p, 'a>,
}

/// The remaining lines of the figures that some pieces define.
#[derive(Clone, Copy, Debug, Drop)]
pub(crate) struct PieceLines<'p, 'a> {
    pub(crate) lines: FigureLines<'p, 'a>,
    pub(crate) ghost few: { length (figure_lines_left lines) < 2 ^ 64 },
}

/// Extends the open figure by a line to a point, or starts a figure there.
fn go_to(cursor: &mut Option<Cursor>, ends: Ends, point: Point) -> Option<Line>
    requires { IsNearPoint point }
    ensures line { GivesFirst (lines_of_move ends (To point) (drawn_of cursor.old)) result [] }
    ensures near { IfSome result HasNearEnds }
    ensures figure { drawn_of cursor.new ≡ after_move (To point) (drawn_of cursor.old) }
{
    let Some(figure) = *cursor else {
        *cursor = Some(Cursor {
            first: point,
            last: point,
        });
        return None;
    };
    *cursor = Some(Cursor {
        first: figure.first,
        last: point,
    });
    Some(Line {
        from: figure.last,
        to: point,
    })
}

/// Ends the open figure. Returns the line back to its first point, if the figure has one.
fn end_figure(cursor: &mut Option<Cursor>, ends: Ends, end: FigureEnd) -> Option<Line>
    ensures line { GivesFirst (lines_at_end ends end (drawn_of cursor.old)) result [] }
    ensures near { IfSome result HasNearEnds }
    ensures figure { drawn_of cursor.new ≡ after_move (End end) (drawn_of cursor.old) }
{
    let figure = (*cursor)?;
    match (end, ends) {
        (FigureEnd::Open, _) => None,
        (FigureEnd::Ended, Ends::Open) => {
            *cursor = None;
            None
        }
        (FigureEnd::Ended, Ends::Closed) | (FigureEnd::Closed, _) => {
            *cursor = None;
            Some(Line {
                from: figure.last,
                to: figure.first,
            })
        }
    }
}

impl<'p, 'a> FigureLines<'p, 'a> {
    /// The line that a move draws, if it draws one.
    fn follow(&mut self, step: Move) -> Option<Line>
        requires { IsNearMove step }
        ensures line { GivesFirst (lines_of_move self.old.ends step (drawn_of self.old.cursor)) result [] }
        ensures near { IfSome result HasNearEnds }
        ensures figure { drawn_of self.new.cursor ≡ after_move step (drawn_of self.old.cursor) }
        ensures moves { self.new.moves ≡ self.old.moves }
        ensures ends { self.new.ends ≡ self.old.ends }
    {
        match step {
            Move::To(point) => go_to(&mut self.cursor, self.ends, point),
            Move::End(end) => end_figure(&mut self.cursor, self.ends, end),
        }
    }

    /// The next line, or `None` after the last one.
    fn next_line(&mut self) -> Option<Line>
        ensures line { GivesFirst (figure_lines_left self.old) result (figure_lines_left self.new) }
        ensures near { IfSome result HasNearEnds }
    {
        while let Some(step) = self.moves.next_move() {
            if let Some(line) = self.follow(step) {
                return Some(line);
            }
        }
        self.follow(Move::End(FigureEnd::Ended))
    }
}

impl<'p, 'a> PieceLines<'p, 'a> {
    ghost use Rattle.painting.specs.FiguresToCome.{piece_lines_left};

    /// The lines of the figures that some pieces define. Either all figures are closed, or only those that are marked
    /// closed.
    pub(crate) fn new(place: Place, ends: Ends, pieces: &'p [Piece<'a>]) -> PieceLines<'p, 'a>
        requires land { AllLandOn (surface_of place) pieces.now }
        requires few { length (points_of_figures (all_figures (figures_of pieces.now))) < 2 ^ 64 }
        ensures { piece_lines_left result ≡ landed_lines (surface_of place) ends (all_figures (figures_of pieces.now)) }
    {
        PieceLines {
            lines: FigureLines {
                ends,
                cursor: None,
                moves: PathMoves::new(place, pieces),
            },
        }
    }
}

impl<'p, 'a> Outline for PieceLines<'p, 'a> {
    ghost use Rattle.painting.specs.FiguresToCome.{piece_lines_left};

    ghost lines = { piece_lines_left };

    fn count(&self) -> usize {
        let mut rest = self.lines;
        let mut count = 0;
        while let Some(_) = rest.next_line() {
            count += 1;
        }
        count
    }

    fn next_line(&mut self) -> Option<Line> {
        self.lines.next_line()
    }
}
