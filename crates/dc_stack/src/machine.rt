//! The machine: the playing state, and how one operation changes it.

ghost use Rattle.std.specs.Prelude.{◌≡◌, ◌≤◌, ◌<◌, ◌⊎◌, [], IfErr, IfOk, IfSome, None, OnErr, OnOk, length};
ghost use Rattle.mapping.specs.PlaceOf.{surface_of};
ghost use Rattle.draw_ops.specs.Operation.{Operation};
ghost use Rattle.draw_ops.specs.OperationOf.{operation_of};
ghost use Rattle.draw_ops.specs.declared.fault.Fault.TheVariants.{OutOfMemory};
ghost use Rattle.dc_stack.specs.MachineState.{GoesOn, HasNib, HasStepped, IsDrawingOf, IsExtentOf, IsUnchanged, LacksCapacity, BorrowsPainted, MachineState, Plays, RejectsStep, ReportsUndrawn, outcome};
ghost use Rattle.dc_stack.specs.Draws.{IsPlacedDraw};
ghost use Rattle.dc_stack.specs.Needs.{no_needs};
ghost use Rattle.dc_stack.specs.StartFor.{start_for};

mod adding;
mod clipping;
mod drawing;
mod marking;
mod objects;
mod page_mapping;
mod paths;
mod saving;
mod settings;

use crate::dc::Dc;
use crate::draw::{Draw, Painting, clear_drawing, paints_path};
use crate::needs::Needs;
use crate::path::GatheredPath;
use crate::piece::Piece;
use draw_ops::{Fault, Op, Rules};
use mapping::{Place, Rect};
use meta_headers::Opened;
use object_tables::{Contents, Table};
pub use saving::MAX_SAVED_STATES;
use std::alloc::Global;
use std::marker::Model;

/// The playing state of a file on a surface. It starts as the file does, and each record's operation is a step. The
/// objects are in a table, which decides how a new one gets its index.
#[derive(Drop)]
pub struct Machine<'a, T: Contents> {
    dc: Dc<'a>,
    saved: Vec<Dc<'a>>,
    table: T,
    path: GatheredPath<'a>,
    plane_extent: Option<Rect>,
    place: Place,
    needs: Needs,
    rules: Rules,
    held_deletions: u32,
}

impl<'a, T: Contents> Model for Machine<'a, T> {
    ghost use Rattle.std.specs.Prelude.{map, vec_capacity};
    ghost use Rattle.mapping.specs.PlaceOf.{surface_of};
    ghost use Rattle.dc_stack.specs.MachineState.{MachineState};
    ghost use Rattle.dc_stack.specs.FitsSurface.{FitsSurface};
    ghost use Rattle.dc_stack.specs.GatheredPath.{painted_of, path_of};
    ghost use Rattle.dc_stack.specs.Values.{dc_value};

    ghost Value = { MachineState };

    ghost view = { λ m. record {
      state = record { dc = dc_value m.dc; slots = (T.state m.table).slots; table_kind = (T.state m.table).kind; saved = map dc_value m.saved.items; path = path_of m.path; rules = m.rules; held_deletions = m.held_deletions };
      painted = painted_of m.path;
      plane_extent = m.plane_extent;
      surface = surface_of m.place;
      needs = m.needs;
      capacity = record { depth = vec_capacity m.saved; slots = (T.state m.table).capacity; pieces = vec_capacity m.path.pieces };
    } };

    ghost invariant = { λ m. FitsSurface (surface_of m.place) m.dc m.saved.items m.path };
}

impl<'a, T: Table<'a>> Machine<'a, T> {
    ghost use Rattle.dc_stack.specs.Values.{IsPlacedOn, dc_value};

    /// The machine at the start of a file that is shown on a surface. Its table has no objects. Allocates no memory.
    pub fn new(alloc: Global, opened: &Opened<'_>, place: Place, mut table: T) -> Machine<'a, T>
        ensures state { result.state ≡ start_for opened.now (T.state table).kind }
        ensures surface { result.surface ≡ surface_of place }
        ensures needs { result.needs ≡ no_needs }
        ensures painted { result.painted ≡ [] }
        ensures extent { result.plane_extent ≡ None }
        ensures depth { result.capacity.depth ≡ 0 }
        ensures slots { result.capacity.slots ≡ (T.state table).capacity }
        ensures pieces { result.capacity.pieces ≡ 0 }
    {
        table.clear();
        Machine {
            dc: Dc::start(opened.start_map),
            saved: Vec::new(alloc),
            table,
            path: GatheredPath::new(alloc),
            plane_extent: None,
            place,
            needs: Needs::none(),
            rules: opened.rules,
            held_deletions: 0,
        }
    }

    /// Goes back to the start of a file, on the same surface. The capacity is kept.
    pub fn restart(&mut self, opened: &Opened<'_>)
        ensures state { self.new.state ≡ start_for opened.now self.old.state.table_kind }
        ensures painted { self.new.painted ≡ [] }
        ensures extent { self.new.plane_extent ≡ None }
        ensures needs { self.new.needs ≡ no_needs }
        ensures goes_on { GoesOn self.old self.new }
    {
        self.dc = Dc::start(opened.start_map);
        self.saved.clear();
        self.table.clear();
        self.path.abort();
        self.plane_extent = None;
        self.needs = Needs::none();
        self.rules = opened.rules;
        self.held_deletions = 0;
    }

    /// Allocates memory for this many saved states, for objects with indexes below `slots`, and for this many pieces of
    /// a path, so that no step within these numbers allocates memory. Fails with `OutOfMemory`.
    pub fn reserve(&mut self, depth: usize, slots: usize, pieces: usize) -> Result<(), Fault>
        ensures depth { OnOk result (depth ≤ self.new.capacity.depth) }
        ensures slots { OnOk result (slots ≤ self.new.capacity.slots) }
        ensures pieces { OnOk result (pieces ≤ self.new.capacity.pieces) }
        ensures full { OnErr result (LacksCapacity self.old.capacity depth slots pieces) }
        ensures rejected { IfErr result (λ fault. fault ≡ OutOfMemory) }
        ensures unchanged { IsUnchanged self.old self.new }
        ensures goes_on { GoesOn self.old self.new }
    {
        let length = self.saved.len();
        if depth > self.saved.capacity() && self.saved.reserve(depth - length).is_err() {
            return Err(Fault::OutOfMemory);
        }
        if self.path.reserve(pieces).is_err() {
            return Err(Fault::OutOfMemory);
        }
        self.table.reserve(slots)
    }

    /// Plays one operation, and returns its drawing, if it draws. After a fault nothing has changed. The fault is the
    /// operation's first:
    ///
    /// - for an object `TableFull`, `HandleTaken`, `NoSuchHandle`, `WrongKind` or `HeldObject`;
    /// - for a saved state `DepthLimit` or `NoSavedState`; for an extent `ZeroExtent`; for a cut `TooManyCuts`;
    /// - for an addition to a path `TooManyPieces`; for a drawing `PathState` or `TooManyEdges`, for a blit
    ///   `SourceMissing` or `SourceOutside`;
    /// - last `OffPlane` and `NibTooWide`.
    ///
    /// It is `OutOfMemory` if memory was needed and an allocation failed.
    pub fn step(&mut self, op: Op<'a>) -> Result<Option<Draw<'a>>, Fault>
        ensures stepped { OnOk result (HasStepped (operation_of op.entry) self.old self.new) }
        ensures drawn { IfOk result (IsDrawingOf (operation_of op.entry) self.old self.new) }
        ensures placed { IfOk result (λ draw. IfSome draw (IsPlacedDraw self.old.surface self.new.painted)) }
        ensures nib { IfOk result (λ draw. IfSome draw (HasNib self.old.surface self.new)) }
        ensures borrowed { IfOk result (λ draw. BorrowsPainted self.old draw self.new) }
        ensures extent { OnOk result (IsExtentOf (operation_of op.entry) self.old self.new.plane_extent) }
        ensures rejected { IfErr result (RejectsStep (operation_of op.entry) self.old) }
        ensures kept { OnErr result (IsUnchanged self.old self.new) }
        ensures goes_on { GoesOn self.old self.new }
    {
        let mut drawn: Option<Draw<'a>> = None;
        match self.step_into(&op, &mut drawn) {
            Ok(()) => Ok(drawn),
            Err(fault) => Err(fault),
        }
    }

    /// The same for a borrowed operation, whose drawing is written to `drawn`, so that a loop over records moves
    /// neither. After a fault `drawn` is `None`.
    #[inline(never)]
    pub fn step_into(&mut self, op: &Op<'a>, drawn: &mut Option<Draw<'a>>) -> Result<(), Fault>
        ensures stepped { OnOk result (HasStepped (operation_of op.now) self.old self.new) }
        ensures drawn { OnOk result (IsDrawingOf (operation_of op.now) self.old self.new drawn.new) }
        ensures placed { OnOk result (IfSome drawn.new (IsPlacedDraw self.old.surface self.new.painted)) }
        ensures nib { OnOk result (IfSome drawn.new (HasNib self.old.surface self.new)) }
        ensures borrowed { OnOk result (BorrowsPainted self.old drawn.new self.new) }
        ensures extent { OnOk result (IsExtentOf (operation_of op.now) self.old self.new.plane_extent) }
        ensures rejected { IfErr result (RejectsStep (operation_of op.now) self.old) }
        ensures kept { OnErr result (IsUnchanged self.old self.new) }
        ensures undrawn { OnErr result (drawn.new ≡ None) }
        ensures goes_on { GoesOn self.old self.new }
    {
        match self.play(op, drawn) {
            Ok(extent) => {
                self.plane_extent = extent;
                if !paints_path(drawn) {
                    self.path.forget();
                }
                Ok(())
            }
            Err(fault) => {
                clear_drawing(drawn);
                Err(fault)
            }
        }
    }

    /// Plays one operation, and returns the extent of what it places on the plane. The pieces of a path that the
    /// previous step painted may still be borrowed.
    fn play(&mut self, op: &Op<'a>, drawn: &mut Option<Draw<'a>>) -> Result<Option<Rect>, Fault>
        ensures plays { Plays (operation_of op.now) self.old (outcome result drawn.new) self.new }
        ensures goes_on { GoesOn self.old self.new }
    {
        match *op {
            Op::NoEffect => draw_nothing(Ok(None), drawn),
            Op::Save => draw_nothing(self.save(), drawn),
            Op::Restore(which) => draw_nothing(self.restore(which), drawn),
            Op::SetBackgroundMode(mode) => draw_nothing(self.set_background_mode(mode), drawn),
            Op::SetMapMode(mode) => draw_nothing(self.set_map_mode(mode), drawn),
            Op::SetRasterOp(raster_op) => draw_nothing(self.set_raster_op(raster_op), drawn),
            Op::SetFillMode(mode) => draw_nothing(self.set_fill_mode(mode), drawn),
            Op::SetBackgroundColour(colour) => draw_nothing(
                self.set_background_colour(colour),
                drawn,
            ),
            Op::SetWindowOrigin(origin) => draw_nothing(self.set_window_origin(origin), drawn),
            Op::SetWindowExtent(extent) => draw_nothing(self.set_window_extent(extent), drawn),
            Op::SetViewportOrigin(origin) => draw_nothing(self.set_viewport_origin(origin), drawn),
            Op::SetViewportExtent(extent) => draw_nothing(self.set_viewport_extent(extent), drawn),
            Op::OffsetWindowOrigin(offset) => draw_nothing(
                self.offset_window_origin(offset),
                drawn,
            ),
            Op::OffsetViewportOrigin(offset) => draw_nothing(
                self.offset_viewport_origin(offset),
                drawn,
            ),
            Op::ExcludeClip(corners) => draw_nothing(self.exclude_clip(corners), drawn),
            Op::IntersectClip(corners) => draw_nothing(self.intersect_clip(corners), drawn),
            Op::RemoveClip => draw_nothing(self.remove_clip(), drawn),
            Op::MoveTo(point) => draw_nothing(self.move_to(point), drawn),
            Op::LineTo(point) => self.line_to(point, drawn),
            Op::Pixel { point, colour } => self.pixel(point, colour, drawn),
            Op::Rectangle { corners, edges } => self.rectangle(corners, edges, drawn),
            Op::Polyline(lists) => self.polyline(lists, drawn),
            Op::Polygon(lists) => self.polygon(lists, drawn),
            Op::PolylineTo(points) => self.polyline_to(points, drawn),
            Op::Blit(ref asked) => self.blit(asked, drawn),
            Op::Create { at, object } => draw_nothing(self.create(at, object), drawn),
            Op::Select(handle) => draw_nothing(self.select(handle), drawn),
            Op::SelectPalette(handle) => draw_nothing(self.select_palette(handle), drawn),
            Op::Delete(handle) => draw_nothing(self.delete(handle), drawn),
            Op::BeginPath => draw_nothing(self.begin_path(), drawn),
            Op::EndPath => draw_nothing(self.end_path(), drawn),
            Op::CloseFigure => draw_nothing(self.close_figure(), drawn),
            Op::AbortPath => draw_nothing(self.abort_path(), drawn),
            Op::FillPath => self.paint_path(Painting::Fill, drawn),
            Op::StrokePath => self.paint_path(Painting::Stroke, drawn),
            Op::StrokeAndFillPath => self.paint_path(Painting::StrokeAndFill, drawn),
        }
    }

    /// The pieces of the path that the last accepted step painted. Empty if it painted none.
    pub fn painted(&self) -> &[Piece<'a>]
        ensures { result.now ≡ self.now.painted }
    {
        self.path.painted()
    }

    /// The bounding box on the plane of all points that the last accepted step placed, with right and bottom inclusive.
    /// These are the points of its drawing, of its addition to a path, or of a box of the clip. `None` if it placed no
    /// point. `fits` returns whether they land on another surface.
    pub fn plane_extent(&self) -> Option<Rect>
        ensures { result ≡ self.now.plane_extent }
    {
        self.plane_extent
    }

    /// The surface and the frame that it shows.
    pub fn place(&self) -> Place
        ensures { surface_of result ≡ self.now.surface }
    {
        self.place
    }

    /// What drawings depend on. The boxes of its clip are placed on the machine's surface.
    pub fn dc(&self) -> &Dc<'a>
        ensures value { dc_value result.now ≡ self.now.state.dc }
        ensures placed { IsPlacedOn self.now.surface result.now.clip }
    {
        &self.dc
    }

    /// The rules under which the file is played.
    pub fn rules(&self) -> Rules
        ensures { result ≡ self.now.state.rules }
    {
        self.rules
    }

    /// How many objects were deleted while they were selected, since the start, at most 2^32 - 1.
    pub fn held_deletions(&self) -> u32
        ensures { result ≡ self.now.state.held_deletions }
    {
        self.held_deletions
    }

    /// The greatest needs of all steps since the start.
    pub fn needs(&self) -> Needs
        ensures { result ≡ self.now.needs }
    {
        self.needs
    }
}

/// The result of a step that draws nothing. Nothing is written to `drawn`.
fn draw_nothing<'a>(
    answer: Result<Option<Rect>, Fault>,
    drawn: &mut Option<Draw<'a>>,
) -> Result<Option<Rect>, Fault>
    ensures { ReportsUndrawn answer result drawn.new }
{
    *drawn = None;
    answer
}
