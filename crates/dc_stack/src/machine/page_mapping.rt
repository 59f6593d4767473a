//! Steps that change the page map.

ghost use Rattle.draw_ops.specs.Operation.{offset_viewport_origin, offset_window_origin, set_map_mode, set_viewport_extent, set_viewport_origin, set_window_extent, set_window_origin};
ghost use Rattle.dc_stack.specs.MachineState.{GoesOn, Plays, undrawn};

use crate::machine::Machine;
use draw_ops::{Fault, RecordFault};
use mapping::{MapMode, Point, Rect};
use object_tables::Table;

impl<'a, T: Table<'a>> Machine<'a, T> {
    /// Sets the map mode.
    pub(super) fn set_map_mode(&mut self, mode: MapMode) -> Result<Option<Rect>, Fault>
        ensures plays { Plays (set_map_mode mode) self.old (undrawn result) self.new }
        ensures goes_on { GoesOn self.old self.new }
    {
        self.dc.map.set_mode(mode);
        Ok(None)
    }

    /// Sets the window's origin.
    pub(super) fn set_window_origin(&mut self, origin: Point) -> Result<Option<Rect>, Fault>
        ensures plays { Plays (set_window_origin origin) self.old (undrawn result) self.new }
        ensures goes_on { GoesOn self.old self.new }
    {
        self.dc.map.set_window_origin(origin);
        Ok(None)
    }

    /// Sets the viewport's origin.
    pub(super) fn set_viewport_origin(&mut self, origin: Point) -> Result<Option<Rect>, Fault>
        ensures plays { Plays (set_viewport_origin origin) self.old (undrawn result) self.new }
        ensures goes_on { GoesOn self.old self.new }
    {
        self.dc.map.set_viewport_origin(origin);
        Ok(None)
    }

    /// Sets the window's extent.
    pub(super) fn set_window_extent(&mut self, extent: Point) -> Result<Option<Rect>, Fault>
        ensures plays { Plays (set_window_extent extent) self.old (undrawn result) self.new }
        ensures goes_on { GoesOn self.old self.new }
    {
        match self.dc.map.set_window_extent(extent) {
            Ok(()) => Ok(None),
            Err(_) => Err(Fault::Record(RecordFault::ZeroExtent)),
        }
    }

    /// Sets the viewport's extent.
    pub(super) fn set_viewport_extent(&mut self, extent: Point) -> Result<Option<Rect>, Fault>
        ensures plays { Plays (set_viewport_extent extent) self.old (undrawn result) self.new }
        ensures goes_on { GoesOn self.old self.new }
    {
        match self.dc.map.set_viewport_extent(extent) {
            Ok(()) => Ok(None),
            Err(_) => Err(Fault::Record(RecordFault::ZeroExtent)),
        }
    }

    /// Moves the window's origin.
    pub(super) fn offset_window_origin(&mut self, offset: Point) -> Result<Option<Rect>, Fault>
        ensures plays { Plays (offset_window_origin offset) self.old (undrawn result) self.new }
        ensures goes_on { GoesOn self.old self.new }
    {
        match self.dc.map.offset_window_origin(offset) {
            Ok(()) => Ok(None),
            Err(_) => Err(Fault::Record(RecordFault::OffPlane)),
        }
    }

    /// Moves the viewport's origin.
    pub(super) fn offset_viewport_origin(&mut self, offset: Point) -> Result<Option<Rect>, Fault>
        ensures plays { Plays (offset_viewport_origin offset) self.old (undrawn result) self.new }
        ensures goes_on { GoesOn self.old self.new }
    {
        match self.dc.map.offset_viewport_origin(offset) {
            Ok(()) => Ok(None),
            Err(_) => Err(Fault::Record(RecordFault::OffPlane)),
        }
    }
}
