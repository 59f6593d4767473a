//! Steps that create, select and delete objects.

ghost use Rattle.std.specs.Prelude.{◌≡◌, map};
ghost use Rattle.std.specs.List.{list_any};
ghost use Rattle.std.specs.Option.{option_map};
ghost use Rattle.draw_ops.specs.Objects.{index_of, object_value_of};
ghost use Rattle.draw_ops.specs.Operation.{create, delete, select, select_palette};
ghost use Rattle.dc_stack.specs.Deleting.{dc_without};
ghost use Rattle.dc_stack.specs.MachineState.{GoesOn, IsLetGo, Plays, undrawn};
ghost use Rattle.dc_stack.specs.Selecting.{is_in_use, named_object, selects};
ghost use Rattle.dc_stack.specs.Values.{dc_value};

use crate::dc::Dc;
use crate::machine::Machine;
use crate::stock::{is_stock, own_handle, stock_object};
use draw_ops::{Fault, Handle, Object, RecordFault};
use mapping::Rect;
use object_tables::Table;

impl<'a, T: Table<'a>> Machine<'a, T> {
    /// Adds an object to the table.
    pub(super) fn create(
        &mut self,
        at: Option<Handle>,
        object: Object<'a>,
    ) -> Result<Option<Rect>, Fault>
        ensures plays { Plays (create (index_of at) (object_value_of object.entry)) self.old (undrawn result) self.new }
        ensures goes_on { GoesOn self.old self.new }
    {
        match self.table.create(at, object) {
            Ok(handle) => {
                self.needs.raise_slots(handle.0);
                Ok(None)
            }
            Err(fault) => Err(fault),
        }
    }

    /// Selects a pen, a brush or a font.
    pub(super) fn select(&mut self, handle: Handle) -> Result<Option<Rect>, Fault>
        ensures plays { Plays (select handle.0) self.old (undrawn result) self.new }
        ensures goes_on { GoesOn self.old self.new }
    {
        match self.named(handle) {
            None => Err(Fault::Record(RecordFault::NoSuchHandle)),
            Some(Object::Palette) => Err(Fault::Record(RecordFault::WrongKind)),
            Some(object) => {
                self.dc.selected.select(own_handle(handle), object);
                Ok(None)
            }
        }
    }

    /// Selects a palette.
    pub(super) fn select_palette(&mut self, handle: Handle) -> Result<Option<Rect>, Fault>
        ensures plays { Plays (select_palette handle.0) self.old (undrawn result) self.new }
        ensures goes_on { GoesOn self.old self.new }
    {
        match self.named(handle) {
            None => Err(Fault::Record(RecordFault::NoSuchHandle)),
            Some(Object::Palette) => {
                self.dc.selected.select(own_handle(handle), Object::Palette);
                Ok(None)
            }
            Some(_) => Err(Fault::Record(RecordFault::WrongKind)),
        }
    }

    /// Removes an object from the table. If it is selected, and the rules allow that, what has it selected keeps its
    /// values.
    #[tactic(auto, using(crate::proofs::DeletionLemmas::not_held))]
    pub(super) fn delete(&mut self, handle: Handle) -> Result<Option<Rect>, Fault>
        ensures plays { Plays (delete handle.0) self.old (undrawn result) self.new }
        ensures goes_on { GoesOn self.old self.new }
    {
        if self.table.get(handle).is_err() {
            return Err(Fault::Record(RecordFault::NoSuchHandle));
        }
        let is_held = self.is_in_use(handle);
        if is_held && !self.rules.allows_held_deletion() {
            return Err(Fault::Record(RecordFault::HeldObject));
        }
        match self.table.remove(handle) {
            Ok(()) => {
                if is_held {
                    self.let_go(handle);
                }
                Ok(None)
            }
            Err(fault) => Err(Fault::Record(fault)),
        }
    }

    /// Drops an index from the current state and all saved ones, which keep its values, and counts the deletion.
    fn let_go(&mut self, handle: Handle)
        ensures { IsLetGo handle.0 self.old self.new }
    {
        self.dc.let_go(handle);
        all_let_go(self.saved.as_mut_slice(), handle);
        self.held_deletions = self.held_deletions.saturating_add(1);
    }

    /// The object with an index: a stock object, or one in the table.
    fn named(&self, handle: Handle) -> Option<Object<'a>>
        ensures { option_map object_value_of result ≡ named_object handle.0 self.now.state.slots }
    {
        if is_stock(handle) {
            return stock_object(handle);
        }
        match self.table.get(handle) {
            Ok(object) => Some(object),
            Err(_) => None,
        }
    }

    /// Whether an index is selected, now or in a saved state.
    fn is_in_use(&self, handle: Handle) -> bool
        ensures { result ≡ is_in_use handle.0 self.now.state }
    {
        self.dc.selected.has(handle) || any_has(self.saved.as_slice(), handle)
    }
}

/// Whether an index is selected in one of the saved states.
fn any_has(saved: &[Dc<'_>], handle: Handle) -> bool
    ensures { result ≡ list_any (λ dc. selects handle.0 (dc_value dc).selected) saved.now }
{
    saved.iter().any(|dc| dc.selected.has(handle))
}

/// Drops an index from all saved states, which keep its values.
fn all_let_go(saved: &mut [Dc<'_>], handle: Handle)
    ensures values { map dc_value saved.new ≡ map (dc_without handle.0) (map dc_value saved.old) }
    ensures clips { map (λ dc. dc.clip) saved.new ≡ map (λ dc. dc.clip) saved.old }
{
    for dc in saved.iter_mut() {
        dc.let_go(handle);
    }
}
