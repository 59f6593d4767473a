//! Steps that begin, end and paint paths.

ghost use Rattle.draw_ops.specs.Operation.{abort_path, begin_path, close_figure, end_path, move_to};
ghost use Rattle.dc_stack.specs.MachineState.{GoesOn, Plays, outcome, painting_operation, undrawn};

use crate::draw::{Draw, FigurePoints, Mark, Painting};
use crate::machine::Machine;
use draw_ops::{Fault, RecordFault};
use mapping::{Point, Rect};
use object_tables::Table;

impl<'a, T: Table<'a>> Machine<'a, T> {
    /// Opens an empty path, replacing a finished one.
    pub(super) fn begin_path(&mut self) -> Result<Option<Rect>, Fault>
        ensures plays { Plays begin_path self.old (undrawn result) self.new }
        ensures goes_on { GoesOn self.old self.new }
    {
        if self.path.is_open() {
            return Err(Fault::Record(RecordFault::PathState));
        }
        self.path.begin();
        Ok(None)
    }

    /// Finishes the open path.
    pub(super) fn end_path(&mut self) -> Result<Option<Rect>, Fault>
        ensures plays { Plays end_path self.old (undrawn result) self.new }
        ensures goes_on { GoesOn self.old self.new }
    {
        if !self.path.is_open() {
            return Err(Fault::Record(RecordFault::PathState));
        }
        self.path.finish();
        Ok(None)
    }

    /// Closes the open figure of the open path, if there is one.
    pub(super) fn close_figure(&mut self) -> Result<Option<Rect>, Fault>
        ensures plays { Plays close_figure self.old (undrawn result) self.new }
        ensures goes_on { GoesOn self.old self.new }
    {
        if !self.path.is_open() {
            return Err(Fault::Record(RecordFault::PathState));
        }
        self.path.close_figure();
        Ok(None)
    }

    /// Drops any path.
    pub(super) fn abort_path(&mut self) -> Result<Option<Rect>, Fault>
        ensures plays { Plays abort_path self.old (undrawn result) self.new }
        ensures goes_on { GoesOn self.old self.new }
    {
        self.path.abort();
        Ok(None)
    }

    /// Moves the current position. The open figure of an open path ends.
    pub(super) fn move_to(&mut self, point: Point) -> Result<Option<Rect>, Fault>
        ensures plays { Plays (move_to point) self.old (undrawn result) self.new }
        ensures goes_on { GoesOn self.old self.new }
    {
        self.path.end_figure();
        self.dc.position = point;
        Ok(None)
    }

    /// Paints the finished path, which is then dropped.
    pub(super) fn paint_path(
        &mut self,
        painting: Painting,
        drawn: &mut Option<Draw<'a>>,
    ) -> Result<Option<Rect>, Fault>
        ensures plays { Plays (painting_operation painting) self.old (outcome result drawn.new) self.new }
        ensures goes_on { GoesOn self.old self.new }
    {
        if !self.path.is_finished() {
            return Err(Fault::Record(RecordFault::PathState));
        }
        let edges = match self.path.count_points() {
            Some(count) => count,
            None => return Err(Fault::Record(RecordFault::TooManyEdges)),
        };
        let mark = Mark::Figures {
            painting,
            points: FigurePoints::Path,
        };
        let extent = self.path.bounds;
        match self.make_draw(mark, extent, edges, drawn) {
            Ok(extent) => {
                self.path.borrow_pieces();
                Ok(extent)
            }
            Err(fault) => Err(fault),
        }
    }
}
