//! Making drawings: the one place where a mark becomes a drawing.

ghost use Rattle.std.specs.Prelude.{◌≡◌, [], ◌∷◌, if◌then◌else◌, IfErr, IfOk, SomeIff, is_some};
ghost use Rattle.mapping.specs.Nibs.{IsNib, is_nib};
ghost use Rattle.mapping.specs.PlaceOf.{surface_of};
ghost use Rattle.point_views.specs.Points.{points_of};
ghost use Rattle.point_views.specs.Polys.{lists_of};
ghost use Rattle.dc_stack.specs.Drawing.{drawing_nib, lists_mark, pen_width, rectangle_mark};
ghost use Rattle.dc_stack.specs.Draws.{strokes};
ghost use Rattle.dc_stack.specs.DrawsApart.{DrawsHere, DrawsLines};
ghost use Rattle.dc_stack.specs.declared.draw.Painting.TheVariants.{Stroke};
ghost use Rattle.dc_stack.specs.MachineState.{GoesOn, drawing_with, outcome};
ghost use Rattle.dc_stack.specs.Marking.{AllLand, IsPlaceFault, Marks, mark_nib, stroke_nib};
ghost use Rattle.dc_stack.specs.Next.{end_of};

use crate::draw::{Draw, FigurePoints, Mark, Painting, strokes};
use crate::lone_line::lone_line;
use crate::machine::Machine;
use crate::placing::{plane_lines, plane_lists, plane_pair};
use crate::plane_box::{fits, least};
use draw_ops::{Fault, Pen, RecordFault, RectangleEdges};
use mapping::{Nib, Place, Point, Rect};
use object_tables::Table;
use point_views::{Points, Polys};

impl<'a, T: Table<'a>> Machine<'a, T> {
    /// Makes the drawing of a mark, from the bounding box of its points on the plane and the number of points for which
    /// it needs memory. Fails with `OffPlane` if the points don't all land, or with `NibTooWide` if its nib would be
    /// too wide. Every step that draws uses this.
    #[inline(always)]
    pub(super) fn make_draw(
        &mut self,
        mark: Mark<'a>,
        extent: Option<Rect>,
        edges: u32,
        drawn: &mut Option<Draw<'a>>,
    ) -> Result<Option<Rect>, Fault>
        ensures marks { Marks mark.entry extent edges self.old (outcome result drawn.new) self.new }
        ensures goes_on { GoesOn self.old self.new }
    {
        let nib = match self.placed_nib(extent, stroke_width(&mark, self.dc.selected.pen)) {
            Ok(nib) => nib,
            Err(fault) => return Err(Fault::Record(fault)),
        };
        self.needs.raise_edges(edges);
        *drawn = Some(Draw {
            mark,
            bounds: least(extent),
            edges,
            nib,
        });
        Ok(extent)
    }

    /// The nib of a stroke of this width, if the points of a drawing land and the nib isn't too wide. This isn't
    /// inlined, so that the drawing is built in place.
    #[inline(never)]
    fn placed_nib(&self, extent: Option<Rect>, width: u32) -> Result<Nib, RecordFault>
        ensures nib { IfOk result (λ nib. nib ≡ stroke_nib width self.now self.now.surface) }
        ensures allowed { IfOk result IsNib }
        ensures lands { IfOk result (λ nib. AllLand extent self.now.surface) }
        ensures rejected { IfErr result (IsPlaceFault extent (stroke_nib width self.now self.now.surface) self.now.surface) }
    {
        if !fits(extent, self.place) {
            return Err(RecordFault::OffPlane);
        }
        match self.place.nib(width, &self.dc.map) {
            Some(nib) => Ok(nib),
            None => Err(RecordFault::NibTooWide),
        }
    }

    /// The nib of the last step's drawing on a surface: that of the selected pen by the current page map, or one pixel
    /// if nothing is stroked. `None` if its width or height would exceed 4,096 pixels.
    pub fn nib_on(&self, draw: &Draw<'a>, place: Place) -> Option<Nib>
        ensures nib { let nib = drawing_nib (drawing_with self.now draw.now) (surface_of place) in SomeIff result (IsNib nib) nib }
        ensures test { is_some result ≡ is_nib (drawing_nib (drawing_with self.now draw.now) (surface_of place)) }
    {
        self.mark_nib(&draw.mark, place)
    }

    /// The same for a mark.
    fn mark_nib(&self, mark: &Mark<'a>, place: Place) -> Option<Nib>
        ensures nib { let nib = mark_nib mark.now self.now (surface_of place) in SomeIff result (IsNib nib) nib }
        ensures test { is_some result ≡ is_nib (mark_nib mark.now self.now (surface_of place)) }
    {
        place.nib(stroke_width(mark, self.dc.selected.pen), &self.dc.map)
    }

    /// Draws a line from the current position to a point, which becomes the current position.
    pub(super) fn draw_line(
        &mut self,
        point: Point,
        drawn: &mut Option<Draw<'a>>,
    ) -> Result<Option<Rect>, Fault>
        ensures draws { DrawsLines (point ∷ []) self.old (outcome result drawn.new) self.new }
        ensures goes_on { GoesOn self.old self.new }
    {
        match self.draw_pair(self.dc.position, point, drawn) {
            Ok(extent) => {
                self.dc.position = point;
                Ok(extent)
            }
            Err(fault) => Err(fault),
        }
    }

    /// Draws a line from one point to another.
    fn draw_pair(
        &mut self,
        from: Point,
        to: Point,
        drawn: &mut Option<Draw<'a>>,
    ) -> Result<Option<Rect>, Fault>
        ensures draws { DrawsHere (lists_mark Stroke ((from ∷ to ∷ []) ∷ [])) self.old (outcome result drawn.new) self.new }
        ensures goes_on { GoesOn self.old self.new }
    {
        match plane_pair(&self.dc.map, from, to) {
            Ok((from, to)) => {
                let extent = Rect::between(from, to);
                self.make_draw(Mark::Line { from, to }, Some(extent), 2, drawn)
            }
            Err(fault) => Err(Fault::Record(fault)),
        }
    }

    /// Draws a rectangle.
    pub(super) fn draw_rectangle(
        &mut self,
        corners: Rect,
        edges: RectangleEdges,
        drawn: &mut Option<Draw<'a>>,
    ) -> Result<Option<Rect>, Fault>
        ensures draws { DrawsHere (rectangle_mark corners edges) self.old (outcome result drawn.new) self.new }
        ensures goes_on { GoesOn self.old self.new }
    {
        match plane_pair(&self.dc.map, corners.left_top(), corners.right_bottom()) {
            Ok((first, second)) => {
                let mark = Mark::Rectangle {
                    first,
                    second,
                    edges,
                };
                self.make_draw(mark, Some(Rect::between(first, second)), 4, drawn)
            }
            Err(fault) => Err(Fault::Record(fault)),
        }
    }

    /// Draws lines from point to point, for each list.
    pub(super) fn draw_polylines(
        &mut self,
        lists: Polys<'a>,
        drawn: &mut Option<Draw<'a>>,
    ) -> Result<Option<Rect>, Fault>
        ensures draws { DrawsHere (lists_mark Stroke (lists_of lists.entry)) self.old (outcome result drawn.new) self.new }
        ensures goes_on { GoesOn self.old self.new }
    {
        match lone_line(lists) {
            Some((from, to)) => self.draw_pair(from, to, drawn),
            None => self.draw_lists(Painting::Stroke, lists, drawn),
        }
    }

    /// Draws figures, one for each list.
    pub(super) fn draw_lists(
        &mut self,
        painting: Painting,
        lists: Polys<'a>,
        drawn: &mut Option<Draw<'a>>,
    ) -> Result<Option<Rect>, Fault>
        ensures draws { DrawsHere (lists_mark painting (lists_of lists.entry)) self.old (outcome result drawn.new) self.new }
        ensures goes_on { GoesOn self.old self.new }
    {
        let map = self.dc.map;
        match plane_lists(&map, lists) {
            Ok(plane) => {
                let points = FigurePoints::Lists { lists, map };
                let mark = Mark::Figures { painting, points };
                self.make_draw(mark, plane.extent, plane.count, drawn)
            }
            Err(fault) => Err(Fault::Record(fault)),
        }
    }

    /// Draws lines from the current position through points. The last point becomes the current position.
    pub(super) fn draw_lines(
        &mut self,
        points: Points<'a>,
        drawn: &mut Option<Draw<'a>>,
    ) -> Result<Option<Rect>, Fault>
        ensures draws { DrawsLines (points_of points.entry) self.old (outcome result drawn.new) self.new }
        ensures goes_on { GoesOn self.old self.new }
    {
        if points.is_empty() {
            return self.draw_lists(Painting::Stroke, Polys::empty(), drawn);
        }
        let position = self.dc.position;
        let map = self.dc.map;
        let (from, plane) = match plane_lines(&map, position, points) {
            Ok(lines) => lines,
            Err(fault) => return Err(Fault::Record(fault)),
        };
        let mark = Mark::Figures {
            painting: Painting::Stroke,
            points: FigurePoints::Through { from, points, map },
        };
        match self.make_draw(mark, plane.extent, plane.count, drawn) {
            Ok(extent) => {
                self.dc.position = end_of(position, points);
                Ok(extent)
            }
            Err(fault) => Err(fault),
        }
    }
}

/// The width in page units with which a pen strokes a mark. 0 if it isn't stroked.
fn stroke_width(mark: &Mark<'_>, pen: Pen) -> u32
    ensures { result ≡ (if strokes mark.now then pen_width pen else 0) }
{
    if !strokes(mark) {
        return 0;
    }
    match pen {
        Pen::Null => 0,
        Pen::Solid { width, .. } => width,
    }
}

/// The end of lines from a point through others.
pub(super) fn end_of(start: Point, points: Points<'_>) -> Point
    ensures { result ≡ end_of start (points_of points.entry) }
{
    if points.is_empty() {
        return start;
    }
    points.get(points.len() - 1)
}
