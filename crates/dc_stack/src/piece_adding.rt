//! Adding pieces to an open path.

ghost use Rattle.std.specs.Prelude.{◌≡◌, ◌≢◌, ◌≤◌, [], ◌∷◌, true, length, vec_capacity, OnOk, OnErr};
ghost use Rattle.mapping.specs.PlaceOf.{surface_of};
ghost use Rattle.dc_stack.specs.GatheredPath.{AddsPieces, AnswersLines, IsGathered, IsSamePath, StaysInside, is_open_phase, painted_of, path_of, path_with_lines, path_with_lists, phase_after, with_added, with_begun};
ghost use Rattle.dc_stack.specs.Path.{piece_limit};
ghost use Rattle.dc_stack.specs.Pieces.{page_points};
ghost use Rattle.dc_stack.specs.Placing.{mapped_piece, plane_list, whole_piece};
ghost use Rattle.dc_stack.specs.declared.path.PathPhase.TheVariants.{InFigure};
ghost use Rattle.dc_stack.specs.declared.piece.Verb.TheVariants.{GoesOn};

use crate::path::{GatheredPath, PathPhase};
use crate::piece::{PiecePoints, Verb};
use crate::piece_landing::land_piece;
use crate::plane_box::joined;
use crate::projection::Projection;
use draw_ops::{Fault, RecordFault};
use mapping::{Point, Rect};

impl<'a> GatheredPath<'a> {
    /// Adds a piece to an open path, and returns its extent. Fails with `TooManyPieces`, `OffPlane`, or `OutOfMemory`
    /// if memory was needed and the allocation failed.
    fn add(
        &mut self,
        points: PiecePoints<'a>,
        verb: Verb,
        by: &Projection,
    ) -> Result<Option<Rect>, Fault>
        requires gathered { IsGathered self.old }
        ensures answer { AddsPieces 1 (mapped_piece by.now.map points.entry) self.old by.now result }
        ensures pieces { OnOk result (self.new.pieces.items ≡ with_added points.entry by.now.map verb self.old) }
        ensures phase { OnOk result (self.new.phase ≡ phase_after verb) }
        ensures few { OnOk result (length self.new.pieces.items ≤ piece_limit) }
        ensures lands { OnOk result (StaysInside (surface_of by.now.place) self.old self.new) }
        ensures kept { OnErr result (IsSamePath self.old self.new) }
        ensures capacity { vec_capacity self.old.pieces ≤ vec_capacity self.new.pieces }
    {
        if !self.may_add(1) {
            return Err(Fault::Record(RecordFault::TooManyPieces));
        }
        let extent = match land_piece(by, points) {
            Ok(extent) => extent,
            Err(fault) => return Err(Fault::Record(fault)),
        };
        match self.ensure_capacity(1) {
            Ok(()) => {
                let bounds = joined(self.bounds, extent);
                self.push(points, by.map, verb, bounds);
                Ok(extent)
            }
            Err(fault) => Err(fault),
        }
    }

    /// Adds the current position, where a figure begins, and a piece that continues from there, or neither of them.
    fn add_from(
        &mut self,
        position: Point,
        points: PiecePoints<'a>,
        by: &Projection,
    ) -> Result<Option<Rect>, Fault>
        requires gathered { IsGathered self.old }
        ensures answer { AddsPieces 2 (plane_list by.now.map (position ∷ page_points points.entry)) self.old by.now result }
        ensures pieces { OnOk result (self.new.pieces.items ≡ with_begun position points.entry by.now.map self.old) }
        ensures phase { OnOk result (self.new.phase ≡ InFigure) }
        ensures few { OnOk result (length self.new.pieces.items ≤ piece_limit) }
        ensures lands { OnOk result (StaysInside (surface_of by.now.place) self.old self.new) }
        ensures kept { OnErr result (IsSamePath self.old self.new) }
        ensures capacity { vec_capacity self.old.pieces ≤ vec_capacity self.new.pieces }
    {
        if !self.may_add(2) {
            return Err(Fault::Record(RecordFault::TooManyPieces));
        }
        let start = PiecePoints::Point(position);
        let first = match land_piece(by, start) {
            Ok(extent) => extent,
            Err(fault) => return Err(Fault::Record(fault)),
        };
        let through = match land_piece(by, points) {
            Ok(extent) => extent,
            Err(fault) => return Err(Fault::Record(fault)),
        };
        match self.ensure_capacity(2) {
            Ok(()) => {
                let begun = joined(self.bounds, first);
                self.push(start, by.map, Verb::GoesOn, begun);
                let bounds = joined(begun, through);
                self.push(points, by.map, Verb::GoesOn, bounds);
                Ok(joined(first, through))
            }
            Err(fault) => Err(fault),
        }
    }

    /// Adds lines that continue the open figure through points, or begin one at the current position.
    pub(crate) fn add_lines(
        &mut self,
        position: Point,
        points: PiecePoints<'a>,
        by: &Projection,
    ) -> Result<Option<Rect>, Fault>
        requires gathered { IsGathered self.old }
        requires open { is_open_phase self.old.phase ≡ true }
        requires some { page_points points ≢ [] }
        requires as_they_are { whole_piece by.now.map points ≡ mapped_piece by.now.map points }
        ensures answer { AnswersLines by.now position points.entry self.old result }
        ensures path { OnOk result (path_of self.new ≡ path_with_lines position points.entry by.now.map self.old) }
        ensures painted { OnOk result (painted_of self.new ≡ []) }
        ensures gathered { OnOk result (IsGathered self.new) }
        ensures lands { OnOk result (StaysInside (surface_of by.now.place) self.old self.new) }
        ensures kept { OnErr result (IsSamePath self.old self.new) }
        ensures capacity { vec_capacity self.old.pieces ≤ vec_capacity self.new.pieces }
    {
        if self.phase == PathPhase::InFigure {
            self.add(points, Verb::GoesOn, by)
        } else {
            self.add_from(position, points, by)
        }
    }

    /// Adds lists as separate figures, closed or not.
    pub(crate) fn add_lists(
        &mut self,
        points: PiecePoints<'a>,
        verb: Verb,
        by: &Projection,
    ) -> Result<Option<Rect>, Fault>
        requires gathered { IsGathered self.old }
        requires open { is_open_phase self.old.phase ≡ true }
        requires some { whole_piece by.now.map points ≢ [] }
        requires own { verb ≢ GoesOn }
        ensures answer { AddsPieces 1 (mapped_piece by.now.map points.entry) self.old by.now result }
        ensures path { OnOk result (path_of self.new ≡ path_with_lists verb points.entry by.now.map self.old) }
        ensures painted { OnOk result (painted_of self.new ≡ []) }
        ensures gathered { OnOk result (IsGathered self.new) }
        ensures lands { OnOk result (StaysInside (surface_of by.now.place) self.old self.new) }
        ensures kept { OnErr result (IsSamePath self.old self.new) }
        ensures capacity { vec_capacity self.old.pieces ≤ vec_capacity self.new.pieces }
    {
        self.add(points, verb, by)
    }
}
