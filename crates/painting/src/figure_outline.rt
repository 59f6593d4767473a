//! The lines of painted figures, on the surface.

ghost use Rattle.std.specs.Prelude.{◌≡◌, ◌<◌, ◌^◌, length};
ghost use Rattle.dc_stack.specs.Draws.{BorrowsLanded, figures_drawn};
ghost use Rattle.dc_stack.specs.Figures.{points_of_figures};
ghost use Rattle.painting.specs.FigureEnds.{FiguresLand, landed_lines, stroked_ends};

use crate::list_lines::Ends;
use crate::piece_lines::PieceLines;
use crate::placed_lines::PlacedLines;
use dc_stack::{FigurePoints, Machine, Painting, Projection};
use object_tables::Table;
use span_fill::{Line, Outline};

/// The remaining lines of some figures.
#[derive(Clone, Copy, Debug, Drop)]
pub(crate) enum FigureOutline<'p, 'a> {
    /// From lists of points.
    Lists(PlacedLines<'a>),
    /// From the pieces of a path.
    Pieces(PieceLines<'p, 'a>),
}

impl<'p, 'a> FigureOutline<'p, 'a> {
    ghost use Rattle.painting.specs.FigureOutlines.{outline_left};

    /// The lines of the figures that a machine draws. Either all figures are closed, or only those that are marked
    /// closed.
    pub(crate) fn new<T: Table<'a>>(
        points: FigurePoints<'a>,
        ends: Ends,
        machine: &'p Machine<'a, T>,
    ) -> FigureOutline<'p, 'a>
        requires borrowed { BorrowsLanded machine.now.surface machine.now.painted points }
        requires land { FiguresLand machine.now.surface (figures_drawn machine.now.painted points) }
        requires few { length (points_of_figures (figures_drawn machine.now.painted points)) < 2 ^ 64 }
        ensures { outline_left result ≡ landed_lines machine.now.surface ends (figures_drawn machine.now.painted points.entry) }
    {
        let place = machine.place();
        match points {
            FigurePoints::Through { from, points, map } => {
                let by = Projection { map, place };
                FigureOutline::Lists(PlacedLines::from(place.at(from), ends, by, points))
            }
            FigurePoints::Lists { lists, map } => {
                let by = Projection { map, place };
                FigureOutline::Lists(PlacedLines::of_lists(by, ends, lists))
            }
            FigurePoints::Path => {
                FigureOutline::Pieces(PieceLines::new(place, ends, machine.painted()))
            }
        }
    }
}

impl<'p, 'a> Outline for FigureOutline<'p, 'a> {
    ghost use Rattle.painting.specs.FigureOutlines.{outline_left};

    ghost lines = { outline_left };

    fn count(&self) -> usize {
        match self {
            FigureOutline::Lists(lines) => lines.count(),
            FigureOutline::Pieces(lines) => lines.count(),
        }
    }

    fn next_line(&mut self) -> Option<Line> {
        match self {
            FigureOutline::Lists(lines) => lines.next_line(),
            FigureOutline::Pieces(lines) => lines.next_line(),
        }
    }
}

/// How the figures of a painting end when they are stroked, if the painting strokes them.
pub(crate) fn stroked_ends(painting: Painting) -> Option<Ends>
    ensures { result ≡ stroked_ends painting }
{
    match painting {
        Painting::Fill => None,
        Painting::Stroke => Some(Ends::Open),
        Painting::StrokeAndFill => Some(Ends::Closed),
    }
}
