//! Steps that add to an open path.

ghost use Rattle.std.specs.Prelude.{◌≡◌, ◌≢◌, ◌≤◌, true};
ghost use Rattle.dc_stack.specs.Adding.{AddsLines, AddsLists};
ghost use Rattle.dc_stack.specs.MachineState.{GoesOn};
ghost use Rattle.dc_stack.specs.Needs.{greater_needs, pieces_needed};
ghost use Rattle.dc_stack.specs.Path.{is_open, piece_count, piece_limit};
ghost use Rattle.dc_stack.specs.Pieces.{AreMappedAlone, page_points};
ghost use Rattle.dc_stack.specs.State.{with_position};
ghost use Rattle.dc_stack.specs.declared.piece.Verb.TheVariants.{GoesOn as LinesGoOn};

use crate::machine::Machine;
use crate::piece::{PiecePoints, Verb};
use crate::projection::Projection;
use draw_ops::Fault;
use mapping::{Point, Rect};
use object_tables::Table;

impl<'a, T: Table<'a>> Machine<'a, T> {
    /// Adds lines through the points of one list, and moves the current position to a point. Returns their extent, as
    /// `add_lists` does.
    pub(super) fn add_lines(
        &mut self,
        points: PiecePoints<'a>,
        end: Point,
    ) -> Result<Option<Rect>, Fault>
        requires open { is_open self.old.state.path ≡ true }
        requires alone { AreMappedAlone points }
        ensures adds { AddsLines (page_points points.entry) end self.old result self.new }
        ensures goes_on { GoesOn self.old self.new }
    {
        if !points.is_some() {
            self.added(end);
            return Ok(None);
        }
        let by = Projection {
            map: self.dc.map,
            place: self.place,
        };
        match self.path.add_lines(self.dc.position, points, &by) {
            Ok(extent) => {
                self.added(end);
                Ok(extent)
            }
            Err(fault) => Err(fault),
        }
    }

    /// Adds lists as separate figures.
    pub(super) fn add_lists(
        &mut self,
        points: PiecePoints<'a>,
        verb: Verb,
    ) -> Result<Option<Rect>, Fault>
        requires open { is_open self.old.state.path ≡ true }
        requires own { verb ≢ LinesGoOn }
        ensures adds { AddsLists verb points.entry self.old result self.new }
        ensures goes_on { GoesOn self.old self.new }
    {
        if !points.is_some() {
            self.added(self.dc.position);
            return Ok(None);
        }
        let by = Projection {
            map: self.dc.map,
            place: self.place,
        };
        match self.path.add_lists(points, verb, &by) {
            Ok(extent) => {
                self.added(self.dc.position);
                Ok(extent)
            }
            Err(fault) => Err(fault),
        }
    }

    /// Counts the pieces of the open path, and moves the current position to a point.
    fn added(&mut self, end: Point)
        requires open { is_open self.old.state.path ≡ true }
        ensures few { piece_count self.old.state.path ≤ piece_limit }
        ensures state { self.new.state ≡ with_position end self.old.state }
        ensures needs { self.new.needs ≡ greater_needs self.old.needs (pieces_needed (piece_count self.old.state.path)) }
        ensures painted { self.new.painted ≡ self.old.painted }
        ensures goes_on { GoesOn self.old self.new }
    {
        self.needs.raise_pieces(self.path.count());
        self.dc.position = end;
    }
}
