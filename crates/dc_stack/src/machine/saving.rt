//! Steps that save the state and restore a saved one.

ghost use Rattle.draw_ops.specs.Operation.{restore, save};
ghost use Rattle.dc_stack.specs.MachineState.{GoesOn, Plays, undrawn};

use crate::machine::Machine;
use crate::saved::place_of;
use draw_ops::{Fault, RecordFault, SavedState};
use mapping::Rect;
use object_tables::Table;

/// The most saved states at a time.
pub const MAX_SAVED_STATES: usize = 256;

impl<'a, T: Table<'a>> Machine<'a, T> {
    /// Saves a copy of what drawings depend on.
    pub(super) fn save(&mut self) -> Result<Option<Rect>, Fault>
        ensures plays { Plays save self.old (undrawn result) self.new }
        ensures goes_on { GoesOn self.old self.new }
    {
        if self.saved.len() >= MAX_SAVED_STATES {
            return Err(Fault::Record(RecordFault::DepthLimit));
        }
        match self.saved.push(self.dc) {
            Ok(()) => {
                self.needs.raise_depth(self.saved.len() as u32);
                Ok(None)
            }
            Err(_) => Err(Fault::OutOfMemory),
        }
    }

    /// Restores a saved state.
    pub(super) fn restore(&mut self, which: SavedState) -> Result<Option<Rect>, Fault>
        ensures plays { Plays (restore which.0) self.old (undrawn result) self.new }
        ensures goes_on { GoesOn self.old self.new }
    {
        let Some(place) = place_of(which, self.saved.len()) else {
            return Err(Fault::Record(RecordFault::NoSavedState));
        };
        self.dc = self.saved[place];
        self.saved.truncate(place);
        Ok(None)
    }
}
