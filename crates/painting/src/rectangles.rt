//! Rectangles on a surface.

ghost use Rattle.std.specs.Prelude.{◌≡◌, true, IsTrue};
ghost use Rattle.std.specs.List.{All};
ghost use Rattle.mapping.specs.PlaceOf.{surface_of};
ghost use Rattle.mapping.specs.Surface.{FitsPlace, IsPlaceCoordinate, lands_within_limits};
ghost use Rattle.span_fill.specs.Lines.{HasNearEnds};
ghost use Rattle.mapping.specs.Boxes.{box_between};
ghost use Rattle.painting.specs.RectangleBoxes.{IsNearBox};
ghost use Rattle.preflight_cert.specs.Rectangles.{has_inside, raised, rectangle_lines, rectangle_on};

use draw_ops::RectangleEdges;
use mapping::{Place, Point, Rect};
use span_fill::{Line, Outline};

/// The remaining lines of a slice.
#[derive(Clone, Copy, Debug, Drop)]
pub(crate) struct LineList<'l> {
    pub(crate) rest: &'l [Line],
    pub(crate) ghost near: { All HasNearEnds rest.now },
}

impl<'l> Outline for LineList<'l> {
    ghost lines = { λ list. list.rest.now };

    fn count(&self) -> usize {
        self.rest.len()
    }

    fn next_line(&mut self) -> Option<Line> {
        let (first, rest) = self.rest.split_first()?;
        self.rest = rest;
        Some(*first)
    }
}

/// The box of a rectangle on the surface, from two corners on the plane.
pub(crate) fn placed_box(place: Place, first: Point, second: Point, edges: RectangleEdges) -> Rect
    requires first { lands_within_limits first (surface_of place) ≡ true }
    requires second { lands_within_limits second (surface_of place) ≡ true }
    ensures value { result ≡ rectangle_on (surface_of place) first second edges }
    ensures near { IsNearBox result }
{
    rectangle_box(place.at(first), place.at(second), edges)
}

/// The box of a rectangle between two corners on the surface, in any order. It includes its left and top edges and
/// excludes its right and bottom ones. These are greater by one if they belong to the rectangle.
pub(crate) fn rectangle_box(first: Point, second: Point, edges: RectangleEdges) -> Rect
    requires first { FitsPlace first }
    requires second { FitsPlace second }
    ensures value { result ≡ raised edges (box_between first second) }
    ensures near { IsNearBox result }
{
    let inside = between(first, second);
    match edges {
        RectangleEdges::HalfOpen => inside,
        RectangleEdges::Inclusive => Rect {
            l: inside.l,
            t: inside.t,
            r: inside.r + 1,
            b: inside.b + 1,
        },
    }
}

/// The box between two corners on the surface, in any order.
pub(crate) fn between(first: Point, second: Point) -> Rect
    requires first { FitsPlace first }
    requires second { FitsPlace second }
    ensures value { result ≡ box_between first second }
    ensures left { IsPlaceCoordinate result.l }
    ensures top { IsPlaceCoordinate result.t }
    ensures right { IsPlaceCoordinate result.r }
    ensures bottom { IsPlaceCoordinate result.b }
{
    Rect::between(first, second)
}

/// Whether a box has a pixel.
pub(crate) fn has_inside(inside: Rect) -> bool
    ensures { result ≡ has_inside inside }
{
    inside.l < inside.r && inside.t < inside.b
}

/// The lines along the outermost pixels of a box, which must have a pixel.
pub(crate) fn box_lines(inside: Rect) -> [Line; 4]
    requires near { IsNearBox inside }
    requires some { IsTrue (has_inside inside) }
    ensures lines { result ≡ rectangle_lines inside }
    ensures near { All HasNearEnds result }
{
    let left_top = Point {
        x: inside.l,
        y: inside.t,
    };
    let right_top = Point {
        x: inside.r - 1,
        y: inside.t,
    };
    let right_bottom = Point {
        x: inside.r - 1,
        y: inside.b - 1,
    };
    let left_bottom = Point {
        x: inside.l,
        y: inside.b - 1,
    };
    [
        line(left_top, right_top),
        line(right_top, right_bottom),
        line(right_bottom, left_bottom),
        line(left_bottom, left_top),
    ]
}

/// The line from one point to another.
fn line(from: Point, to: Point) -> Line
    ensures from { result.from ≡ from }
    ensures to { result.to ≡ to }
{
    Line { from, to }
}
