//! Steps that draw, or add to an open path instead.

ghost use Rattle.std.specs.Prelude.{◌≡◌};
ghost use Rattle.draw_ops.specs.Blits.{blit_value_of, source_of};
ghost use Rattle.draw_ops.specs.Operation.{blit, line_to, pixel, polygon, polyline, polyline_to, rectangle};
ghost use Rattle.point_views.specs.Points.{points_of};
ghost use Rattle.point_views.specs.Polys.{lists_of};
ghost use Rattle.dc_stack.specs.MachineState.{GoesOn, Plays, outcome};
ghost use Rattle.dc_stack.specs.OperationFault.{source_fault};

use crate::draw::{Draw, Mark, Painting, PlaneBlit};
use crate::machine::marking::end_of;
use crate::machine::{Machine, draw_nothing};
use crate::piece::{PiecePoints, Verb};
use crate::placing::{plane_blit, plane_point};
use draw_ops::{Blit, BlitSource, Fault, RecordFault, RectangleEdges, TernaryOp};
use mapping::{Colour, Point, Rect, box_law};
use object_tables::Table;
use point_views::{Points, Polys};
use raster_ops::{is_readable, uses_source};

impl<'a, T: Table<'a>> Machine<'a, T> {
    /// Draws a pixel.
    pub(super) fn pixel(
        &mut self,
        point: Point,
        colour: Colour,
        drawn: &mut Option<Draw<'a>>,
    ) -> Result<Option<Rect>, Fault>
        ensures plays { Plays (pixel point colour) self.old (outcome result drawn.new) self.new }
        ensures goes_on { GoesOn self.old self.new }
    {
        box_law();
        match plane_point(&self.dc.map, point) {
            Ok(at) => {
                let extent = Rect::around(at);
                self.make_draw(Mark::Dot { at, colour }, Some(extent), 0, drawn)
            }
            Err(fault) => Err(Fault::Record(fault)),
        }
    }

    /// Paints a box by a ternary raster operation, even while a path is open.
    pub(super) fn blit(
        &mut self,
        asked: &Blit<'a>,
        drawn: &mut Option<Draw<'a>>,
    ) -> Result<Option<Rect>, Fault>
        ensures plays { Plays (blit (blit_value_of asked.now)) self.old (outcome result drawn.new) self.new }
        ensures goes_on { GoesOn self.old self.new }
    {
        if let Some(fault) = source_fault(asked.operation, &asked.source) {
            return Err(Fault::Record(fault));
        }
        let (first, second) = match plane_blit(&self.dc.map, asked) {
            Ok(corners) => corners,
            Err(fault) => return Err(Fault::Record(fault)),
        };
        let mark = Mark::Blit(PlaneBlit {
            first,
            second,
            operation: asked.operation,
            source: asked.source,
        });
        self.make_draw(mark, Some(Rect::between(first, second)), 0, drawn)
    }

    /// Draws a line from the current position to a point, or adds it to an open path. The point becomes the current
    /// position.
    pub(super) fn line_to(
        &mut self,
        point: Point,
        drawn: &mut Option<Draw<'a>>,
    ) -> Result<Option<Rect>, Fault>
        ensures plays { Plays (line_to point) self.old (outcome result drawn.new) self.new }
        ensures goes_on { GoesOn self.old self.new }
    {
        if self.path.is_open() {
            draw_nothing(self.add_lines(PiecePoints::Point(point), point), drawn)
        } else {
            self.draw_line(point, drawn)
        }
    }

    /// Draws a rectangle, or adds it to an open path.
    pub(super) fn rectangle(
        &mut self,
        corners: Rect,
        edges: RectangleEdges,
        drawn: &mut Option<Draw<'a>>,
    ) -> Result<Option<Rect>, Fault>
        ensures plays { Plays (rectangle corners edges) self.old (outcome result drawn.new) self.new }
        ensures goes_on { GoesOn self.old self.new }
    {
        if self.path.is_open() {
            let added = self.add_lists(PiecePoints::Corners(corners), Verb::Polygons);
            draw_nothing(added, drawn)
        } else {
            self.draw_rectangle(corners, edges, drawn)
        }
    }

    /// Draws lines from point to point, for each list, or adds them to an open path.
    pub(super) fn polyline(
        &mut self,
        lists: Polys<'a>,
        drawn: &mut Option<Draw<'a>>,
    ) -> Result<Option<Rect>, Fault>
        ensures plays { Plays (polyline (lists_of lists.entry)) self.old (outcome result drawn.new) self.new }
        ensures goes_on { GoesOn self.old self.new }
    {
        if self.path.is_open() {
            let added = self.add_lists(PiecePoints::of(lists), Verb::Polylines);
            draw_nothing(added, drawn)
        } else {
            self.draw_polylines(lists, drawn)
        }
    }

    /// Draws polygons, one for each list, or adds them to an open path.
    pub(super) fn polygon(
        &mut self,
        lists: Polys<'a>,
        drawn: &mut Option<Draw<'a>>,
    ) -> Result<Option<Rect>, Fault>
        ensures plays { Plays (polygon (lists_of lists.entry)) self.old (outcome result drawn.new) self.new }
        ensures goes_on { GoesOn self.old self.new }
    {
        if self.path.is_open() {
            let added = self.add_lists(PiecePoints::of(lists), Verb::Polygons);
            draw_nothing(added, drawn)
        } else {
            self.draw_lists(Painting::StrokeAndFill, lists, drawn)
        }
    }

    /// Draws lines from the current position through points, or adds them to an open path. The last point becomes the
    /// current position.
    pub(super) fn polyline_to(
        &mut self,
        points: Points<'a>,
        drawn: &mut Option<Draw<'a>>,
    ) -> Result<Option<Rect>, Fault>
        ensures plays { Plays (polyline_to (points_of points.entry)) self.old (outcome result drawn.new) self.new }
        ensures goes_on { GoesOn self.old self.new }
    {
        if self.path.is_open() {
            let end = end_of(self.dc.position, points);
            draw_nothing(self.add_lines(PiecePoints::List(points), end), drawn)
        } else {
            self.draw_lines(points, drawn)
        }
    }
}

/// `SourceMissing` or `SourceOutside`, if the operation depends on the source and there is no readable one.
fn source_fault(operation: TernaryOp, source: &BlitSource<'_>) -> Option<RecordFault>
    ensures { result ≡ source_fault operation.table (source_of source.now) }
{
    if !uses_source(operation) || is_readable(source) {
        return None;
    }
    match source {
        BlitSource::Missing => Some(RecordFault::SourceMissing),
        BlitSource::FromTop(_) | BlitSource::FromBottom(_) => Some(RecordFault::SourceOutside),
    }
}
