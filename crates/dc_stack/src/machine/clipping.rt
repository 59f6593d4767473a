//! Steps that set the clip.

ghost use Rattle.draw_ops.specs.Operation.{exclude_clip, intersect_clip, remove_clip};
ghost use Rattle.dc_stack.specs.MachineState.{GoesOn, Plays, undrawn};

use crate::clip::Clip;
use crate::machine::Machine;
use crate::placing::land_clip_box;
use draw_ops::{Fault, RecordFault};
use mapping::{Rect, placing_law};
use object_tables::Table;

impl<'a, T: Table<'a>> Machine<'a, T> {
    /// Cuts a box of the page out of the clip.
    pub(super) fn exclude_clip(&mut self, corners: Rect) -> Result<Option<Rect>, Fault>
        ensures plays { Plays (exclude_clip corners) self.old (undrawn result) self.new }
        ensures goes_on { GoesOn self.old self.new }
    {
        if !self.dc.clip.may_be_cut() {
            return Err(Fault::Record(RecordFault::TooManyCuts));
        }
        match land_clip_box(&self.dc.map, self.place, corners) {
            Ok(landed) => {
                self.dc.clip.cut(landed);
                Ok(Some(landed.plane))
            }
            Err(fault) => Err(Fault::Record(fault)),
        }
    }

    /// Intersects the clip with a box of the page.
    pub(super) fn intersect_clip(&mut self, corners: Rect) -> Result<Option<Rect>, Fault>
        ensures plays { Plays (intersect_clip corners) self.old (undrawn result) self.new }
        ensures goes_on { GoesOn self.old self.new }
    {
        match land_clip_box(&self.dc.map, self.place, corners) {
            Ok(landed) => {
                placing_law();
                self.dc.clip.keep(landed);
                Ok(Some(landed.plane))
            }
            Err(fault) => Err(Fault::Record(fault)),
        }
    }

    /// Removes the clip.
    pub(super) fn remove_clip(&mut self) -> Result<Option<Rect>, Fault>
        ensures plays { Plays remove_clip self.old (undrawn result) self.new }
        ensures goes_on { GoesOn self.old self.new }
    {
        self.dc.clip = Clip::none();
        Ok(None)
    }
}
