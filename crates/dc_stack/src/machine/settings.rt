//! Steps that change settings for later drawing.

ghost use Rattle.draw_ops.specs.Operation.{set_background_colour, set_background_mode, set_fill_mode, set_raster_op};
ghost use Rattle.dc_stack.specs.MachineState.{GoesOn, Plays, undrawn};

use crate::machine::Machine;
use draw_ops::{BackgroundMode, Fault, FillMode, RasterOp};
use mapping::{Colour, Rect};
use object_tables::Table;

impl<'a, T: Table<'a>> Machine<'a, T> {
    /// Sets how the gaps of a hatch are painted.
    pub(super) fn set_background_mode(
        &mut self,
        mode: BackgroundMode,
    ) -> Result<Option<Rect>, Fault>
        ensures plays { Plays (set_background_mode mode) self.old (undrawn result) self.new }
        ensures goes_on { GoesOn self.old self.new }
    {
        self.dc.modes.background_mode = mode;
        Ok(None)
    }

    /// Sets the colour of the gaps of a hatch.
    pub(super) fn set_background_colour(&mut self, colour: Colour) -> Result<Option<Rect>, Fault>
        ensures plays { Plays (set_background_colour colour) self.old (undrawn result) self.new }
        ensures goes_on { GoesOn self.old self.new }
    {
        self.dc.modes.background_colour = colour;
        Ok(None)
    }

    /// Sets the raster operation for pens and brushes.
    pub(super) fn set_raster_op(&mut self, raster_op: RasterOp) -> Result<Option<Rect>, Fault>
        ensures plays { Plays (set_raster_op raster_op) self.old (undrawn result) self.new }
        ensures goes_on { GoesOn self.old self.new }
    {
        self.dc.modes.raster_op = raster_op;
        Ok(None)
    }

    /// Sets which parts polygons fill.
    pub(super) fn set_fill_mode(&mut self, mode: FillMode) -> Result<Option<Rect>, Fault>
        ensures plays { Plays (set_fill_mode mode) self.old (undrawn result) self.new }
        ensures goes_on { GoesOn self.old self.new }
    {
        self.dc.modes.fill_mode = mode;
        Ok(None)
    }
}
