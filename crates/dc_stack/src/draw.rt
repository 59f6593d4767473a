//! Drawings.

ghost use Rattle.std.specs.Prelude.{◌≡◌, None};
ghost use Rattle.dc_stack.specs.Drawing.{paints_lines};
ghost use Rattle.dc_stack.specs.Draws.{is_of_path, borrows_path, paints_path, strokes};

use draw_ops::{BlitSource, RectangleEdges, TernaryOp};
use mapping::{Colour, Nib, PageMap, Point, Rect};
use point_views::{Points, Polys};

/// Which parts of figures are painted.
#[derive(Clone, Copy, Debug, PartialEq, Eq)]
pub enum Painting {
    /// Their inside, with all figures closed.
    Fill,
    /// Their lines.
    Stroke,
    /// Their inside, and then their lines, with all figures closed.
    StrokeAndFill,
}

/// The points of figures, as they are in a record or a path.
#[derive(Clone, Copy, Debug, PartialEq, Eq)]
pub enum FigurePoints<'a> {
    /// An open figure from a point of the plane through other points of the page, at least one.
    Through {
        from: Point,
        points: Points<'a>,
        map: PageMap,
    },
    /// An open figure for each list of page points.
    Lists {
        lists: Polys<'a>,
        map: PageMap,
    },
    /// The figures of the path whose pieces the machine has (`Machine::painted`). The points of each piece are mapped
    /// by its own page map.
    Path,
}

/// The box between two corners on the plane, in any order. Each of its pixels becomes the result of the operation on
/// the brush, the source and its old colour. If the operation depends on the source, the source lies inside its bitmap.
#[derive(Clone, Copy, Debug, PartialEq, Eq)]
pub struct PlaneBlit<'a> {
    pub first: Point,
    pub second: Point,
    pub operation: TernaryOp,
    pub source: BlitSource<'a>,
}

/// What a drawing marks on the plane.
#[derive(Clone, Copy, Debug, PartialEq, Eq)]
pub enum Mark<'a> {
    /// One pixel.
    Dot {
        at: Point,
        colour: Colour,
    },
    /// A line: a stroked figure of two points.
    Line {
        from: Point,
        to: Point,
    },
    /// Figures.
    Figures {
        painting: Painting,
        points: FigurePoints<'a>,
    },
    /// The rectangle between two corners, in any order.
    Rectangle {
        first: Point,
        second: Point,
        edges: RectangleEdges,
    },
    /// The box of a blit.
    Blit(PlaneBlit<'a>),
}

/// What a step draws. All its points land within the limits. The current pen, brush, modes and clip are those of the
/// machine (`Machine::dc`), since no drawing changes them.
#[derive(Clone, Copy, Debug, PartialEq, Eq)]
pub struct Draw<'a> {
    pub mark: Mark<'a>,
    /// The bounding box of its points on the plane, with right and bottom inclusive. `Rect::NONE` if there is no point.
    pub bounds: Rect,
    /// The number of points for which it needs memory.
    pub edges: u32,
    /// The nib of its stroke on the machine's surface. One pixel if it has no stroke.
    pub nib: Nib,
}

/// Whether figures are those of a path.
fn is_of_path(points: &FigurePoints<'_>) -> bool
    ensures { result ≡ is_of_path points.now }
{
    match points {
        FigurePoints::Through { .. } | FigurePoints::Lists { .. } => false,
        FigurePoints::Path => true,
    }
}

/// Whether a mark uses the pieces of a path.
fn borrows_path(mark: &Mark<'_>) -> bool
    ensures { result ≡ borrows_path mark.now }
{
    match mark {
        Mark::Figures { points, .. } => is_of_path(points),
        Mark::Dot { .. } | Mark::Line { .. } | Mark::Rectangle { .. } | Mark::Blit(_) => false,
    }
}

/// Whether the lines of figures are painted, and not only their inside.
fn paints_lines(painting: Painting) -> bool
    ensures { result ≡ paints_lines painting }
{
    match painting {
        Painting::Fill => false,
        Painting::Stroke | Painting::StrokeAndFill => true,
    }
}

/// Whether a mark is stroked.
pub(crate) fn strokes(mark: &Mark<'_>) -> bool
    ensures { result ≡ strokes mark.now }
{
    match mark {
        Mark::Line { .. } | Mark::Rectangle { .. } => true,
        Mark::Figures { painting, .. } => paints_lines(*painting),
        Mark::Dot { .. } | Mark::Blit(_) => false,
    }
}

/// Whether a path is painted.
pub(crate) fn paints_path(drawn: &Option<Draw<'_>>) -> bool
    ensures { result ≡ paints_path drawn.now }
{
    match drawn {
        None => false,
        Some(drawn) => borrows_path(&drawn.mark),
    }
}

/// Leaves no drawing. This isn't inlined, because the caller would otherwise clear the memory of an empty drawing in
/// every step.
#[inline(never)]
pub(crate) fn clear_drawing(drawn: &mut Option<Draw<'_>>)
    ensures { drawn.new ≡ None }
{
    *drawn = None;
}
