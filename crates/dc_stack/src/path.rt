//! Gathering a path.

ghost use Rattle.std.specs.Prelude.{◌≡◌, ◌≢◌, ◌+◌, ◌<◌, ◌≤◌, [], ◌∷◌, ◌++◌, Bool, true, length, nat_le, None, vec_capacity, OnOk, OnErr, IfErr, IsTrue};
ghost use Rattle.mapping.specs.Surface.{Surface};
ghost use Rattle.draw_ops.specs.declared.fault.Fault.TheVariants.{OutOfMemory};
ghost use Rattle.dc_stack.specs.Figures.{no_figures};
ghost use Rattle.dc_stack.specs.GatheredPath.{IsGathered, IsSamePath, StaysInside, is_open_phase, open_piece, painted_of, path_of, phase_after};
ghost use Rattle.dc_stack.specs.Path.{after_closing, after_ending, after_moving, is_finished, is_open, no_path, open_path, piece_limit};
ghost use Rattle.dc_stack.specs.Pieces.{figures_of, with_end};
ghost use Rattle.dc_stack.specs.declared.path.PathPhase.TheVariants.{BetweenFigures, Finished, InFigure};
ghost use Rattle.dc_stack.specs.declared.piece.FigureEnd.TheVariants.{Open};

use crate::piece::{FigureEnd, Piece, PiecePoints, Verb};
use draw_ops::Fault;
use mapping::{PageMap, Rect};
use std::alloc::Global;

/// The most pieces of a path.
pub const MAX_PIECES: usize = 65_536;

/// The phase of a path.
#[derive(Clone, Copy, Debug, PartialEq, Eq)]
pub(crate) enum PathPhase {
    NoPath,
    /// It is open, but no figure is.
    BetweenFigures,
    /// It is open, and so is a figure.
    InFigure,
    /// It is ready to be painted.
    Finished,
    /// The last step painted it, and its pieces can be borrowed.
    Painted,
}

/// A path: its phase, its pieces, and the bounding box of all their points on the plane, with right and bottom
/// inclusive.
#[derive(Drop)]
pub(crate) struct GatheredPath<'a> {
    pub(crate) phase: PathPhase,
    pub(crate) pieces: Vec<Piece<'a>>,
    pub(crate) bounds: Option<Rect>,
}

impl<'a> GatheredPath<'a> {
    /// No path. Allocates no memory.
    pub(crate) fn new(alloc: Global) -> GatheredPath<'a>
        ensures path { path_of result ≡ no_path }
        ensures painted { painted_of result ≡ [] }
        ensures gathered { IsGathered result }
        ensures pieces { result.pieces.items ≡ [] }
        ensures capacity { vec_capacity result.pieces ≡ 0 }
        ensures bounds { result.bounds ≡ None }
    {
        GatheredPath {
            phase: PathPhase::NoPath,
            pieces: Vec::new(alloc),
            bounds: None,
        }
    }

    /// Drops any path. The capacity is kept.
    pub(crate) fn abort(&mut self)
        ensures path { path_of self.new ≡ no_path }
        ensures painted { painted_of self.new ≡ [] }
        ensures gathered { IsGathered self.new }
        ensures pieces { self.new.pieces.items ≡ [] }
        ensures bounds { self.new.bounds ≡ None }
        ensures capacity { vec_capacity self.new.pieces ≡ vec_capacity self.old.pieces }
    {
        self.phase = PathPhase::NoPath;
        self.pieces.clear();
        self.bounds = None;
    }

    /// Opens an empty path, replacing any other. The capacity is kept.
    pub(crate) fn begin(&mut self)
        ensures path { path_of self.new ≡ open_path no_figures 0 }
        ensures painted { painted_of self.new ≡ [] }
        ensures gathered { IsGathered self.new }
        ensures pieces { self.new.pieces.items ≡ [] }
        ensures bounds { self.new.bounds ≡ None }
        ensures capacity { vec_capacity self.new.pieces ≡ vec_capacity self.old.pieces }
    {
        self.abort();
        self.phase = PathPhase::BetweenFigures;
    }

    /// Whether records add to the path.
    pub(crate) fn is_open(&self) -> bool
        ensures path { result ≡ is_open (path_of self.now) }
        ensures phase { result ≡ is_open_phase self.now.phase }
    {
        match self.phase {
            PathPhase::BetweenFigures | PathPhase::InFigure => true,
            PathPhase::NoPath | PathPhase::Finished | PathPhase::Painted => false,
        }
    }

    /// Whether the path is ready to be painted.
    pub(crate) fn is_finished(&self) -> bool
        ensures path { result ≡ is_finished (path_of self.now) }
        ensures phase { IsTrue result → self.now.phase ≡ Finished }
    {
        self.phase == PathPhase::Finished
    }

    /// Finishes an open path.
    pub(crate) fn finish(&mut self)
        requires open { is_open_phase self.old.phase ≡ true }
        requires gathered { IsGathered self.old }
        ensures path { path_of self.new ≡ after_ending (path_of self.old) }
        ensures painted { painted_of self.new ≡ [] }
        ensures gathered { IsGathered self.new }
        ensures pieces { self.new.pieces ≡ self.old.pieces }
        ensures bounds { self.new.bounds ≡ self.old.bounds }
    {
        self.phase = PathPhase::Finished;
    }

    /// Makes the pieces of a finished path available for painting. The path is then dropped.
    pub(crate) fn borrow_pieces(&mut self)
        requires gathered { IsGathered self.old }
        ensures path { path_of self.new ≡ no_path }
        ensures painted { painted_of self.new ≡ self.old.pieces.items }
        ensures gathered { IsGathered self.new }
        ensures pieces { self.new.pieces ≡ self.old.pieces }
        ensures bounds { self.new.bounds ≡ self.old.bounds }
    {
        self.phase = PathPhase::Painted;
    }

    /// The pieces to be painted.
    pub(crate) fn painted(&self) -> &[Piece<'a>]
        ensures { result.now ≡ painted_of self.now }
    {
        match self.phase {
            PathPhase::Painted => self.pieces.as_slice(),
            PathPhase::NoPath
            | PathPhase::BetweenFigures
            | PathPhase::InFigure
            | PathPhase::Finished => &[],
        }
    }

    /// Drops the pieces to be painted.
    pub(crate) fn forget(&mut self)
        requires gathered { IsGathered self.old }
        ensures path { path_of self.new ≡ path_of self.old }
        ensures painted { painted_of self.new ≡ [] }
        ensures gathered { IsGathered self.new }
        ensures lands { (s : Surface) → StaysInside s self.old self.new }
        ensures capacity { vec_capacity self.new.pieces ≡ vec_capacity self.old.pieces }
    {
        if self.phase == PathPhase::Painted {
            self.abort();
        }
    }

    /// Allocates memory for this many pieces in all. Fails with `OutOfMemory`.
    pub(crate) fn reserve(&mut self, pieces: usize) -> Result<(), Fault>
        ensures capacity { OnOk result (pieces ≤ vec_capacity self.new.pieces) }
        ensures full { OnErr result (vec_capacity self.old.pieces < pieces) }
        ensures rejected { IfErr result (λ fault. fault ≡ OutOfMemory) }
        ensures same { IsSamePath self.old self.new }
    {
        let count = self.pieces.len();
        if pieces <= self.pieces.capacity() {
            return Ok(());
        }
        self.ensure_capacity(pieces - count)
    }

    /// The number of pieces.
    pub(crate) fn count(&self) -> u32
        requires gathered { IsGathered self.now }
        ensures { result ≡ length self.now.pieces.items }
    {
        self.pieces.len() as u32
    }

    /// Whether this many more pieces are allowed.
    pub(crate) fn may_add(&self, more: usize) -> bool
        requires gathered { IsGathered self.now }
        requires few { more ≤ 2 }
        ensures { result ≡ nat_le (length self.now.pieces.items + more) piece_limit }
    {
        self.pieces.len() + more <= MAX_PIECES
    }

    /// Allocates memory for this many more pieces, if it is needed. Fails with `OutOfMemory`.
    pub(crate) fn ensure_capacity(&mut self, more: usize) -> Result<(), Fault>
        ensures capacity { OnOk result (length self.new.pieces.items + more ≤ vec_capacity self.new.pieces) }
        ensures full { OnErr result (vec_capacity self.old.pieces < length self.old.pieces.items + more) }
        ensures rejected { IfErr result (λ fault. fault ≡ OutOfMemory) }
        ensures same { IsSamePath self.old self.new }
    {
        match self.pieces.reserve(more) {
            Ok(()) => Ok(()),
            Err(_) => Err(Fault::OutOfMemory),
        }
    }

    /// Adds a piece to an open path, within its capacity. `bounds` becomes the box of all points.
    pub(crate) fn push(
        &mut self,
        points: PiecePoints<'a>,
        map: PageMap,
        verb: Verb,
        bounds: Option<Rect>,
    )
        requires capacity { length self.old.pieces.items < vec_capacity self.old.pieces }
        ensures pieces { self.new.pieces.items ≡ self.old.pieces.items ++ open_piece points.entry map verb ∷ [] }
        ensures phase { self.new.phase ≡ phase_after verb }
        ensures bounds { self.new.bounds ≡ bounds }
        ensures capacity { vec_capacity self.new.pieces ≡ vec_capacity self.old.pieces }
    {
        self.pieces.push_reserved(Piece {
            points,
            map,
            verb,
            end: FigureEnd::Open,
        });
        self.phase = match verb {
            Verb::GoesOn | Verb::Polylines => PathPhase::InFigure,
            Verb::Polygons => PathPhase::BetweenFigures,
        };
        self.bounds = bounds;
    }

    /// Ends the open figure, if there is one.
    pub(crate) fn end_figure(&mut self)
        requires gathered { IsGathered self.old }
        ensures path { path_of self.new ≡ after_moving (path_of self.old) }
        ensures painted { painted_of self.new ≡ painted_of self.old }
        ensures gathered { IsGathered self.new }
        ensures lands { (s : Surface) → StaysInside s self.old self.new }
        ensures capacity { vec_capacity self.new.pieces ≡ vec_capacity self.old.pieces }
    {
        if self.phase != PathPhase::InFigure {
            return;
        }
        self.end_with(FigureEnd::Ended);
    }

    /// Closes the open figure, if there is one.
    pub(crate) fn close_figure(&mut self)
        requires gathered { IsGathered self.old }
        ensures path { path_of self.new ≡ after_closing (path_of self.old) }
        ensures painted { painted_of self.new ≡ painted_of self.old }
        ensures gathered { IsGathered self.new }
        ensures lands { (s : Surface) → StaysInside s self.old self.new }
        ensures capacity { vec_capacity self.new.pieces ≡ vec_capacity self.old.pieces }
    {
        if self.phase == PathPhase::InFigure {
            self.end_with(FigureEnd::Closed);
        }
    }

    /// Says how the figure that is open after the last piece ends. No more lines continue it.
    fn end_with(&mut self, end: FigureEnd)
        requires open { self.old.phase ≡ InFigure }
        requires gathered { IsGathered self.old }
        requires ends { end ≢ Open }
        ensures figures { figures_of self.new.pieces.items ≡ with_end end (figures_of self.old.pieces.items) }
        ensures count { length self.new.pieces.items ≡ length self.old.pieces.items }
        ensures phase { self.new.phase ≡ BetweenFigures }
        ensures lands { (s : Surface) → StaysInside s self.old self.new }
        ensures capacity { vec_capacity self.new.pieces ≡ vec_capacity self.old.pieces }
    {
        let Some(last) = self.pieces.pop() else {
            return;
        };
        self.pieces.push_reserved(Piece { end, ..last });
        self.phase = PathPhase::BetweenFigures;
    }
}
