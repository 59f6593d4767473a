//! How a pen's stroke changes pixels.

ghost use Rattle.std.specs.Prelude.{◌≡◌};
ghost use Rattle.dc_stack.specs.Drawing.{tools_of};
ghost use Rattle.preflight_cert.specs.Paint.{solid};
ghost use Rattle.painting.specs.PaintsOfLayers.{IsPaintOf};

use crate::row_op_scratch::BLACK;
use dc_stack::{Clip, Machine};
use mapping::{Colour, Mix, Nib};
use object_tables::Table;
use raster_ops::{TernaryMixer, binary_law, ternary_of};

/// A pen's stroke: each pixel that its nib covers along the lines is mixed, if the clip contains it.
#[derive(Clone, Copy, Debug)]
pub(crate) struct Stroke<'d> {
    pub(crate) mix: Mix,
    pub(crate) clip: &'d Clip,
    pub(crate) nib: Nib,
}

impl<'d> Stroke<'d> {
    ghost use Rattle.painting.specs.PenStrokes.{stroke_paint};

    /// A stroke in this colour and by this nib, with the current raster operation and clip.
    pub(crate) fn with<'a, T: Table<'a>>(
        colour: Colour,
        nib: Nib,
        machine: &'d Machine<'a, T>,
    ) -> Stroke<'d>
        ensures nib { result.nib ≡ nib }
        ensures paint { IsPaintOf (solid colour) (tools_of machine.now.state.dc) machine.now.surface (stroke_paint result) }
    {
        binary_law();
        let dc = machine.dc();
        let mixer = TernaryMixer::new(ternary_of(dc.modes.raster_op));
        Stroke {
            mix: mixer.mix(colour, BLACK),
            clip: &dc.clip,
            nib,
        }
    }
}
