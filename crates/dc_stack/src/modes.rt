//! Modes and colours for later drawing.

ghost use Rattle.std.specs.Prelude.{◌≡◌};

use draw_ops::{BackgroundMode, FillMode, RasterOp};
use mapping::Colour;

/// The settings for later drawing. The background applies only to hatched brushes.
#[derive(Clone, Copy, Debug, PartialEq, Eq)]
pub struct Modes {
    pub background_mode: BackgroundMode,
    pub background_colour: Colour,
    pub raster_op: RasterOp,
    pub fill_mode: FillMode,
}

impl Modes {
    ghost use Rattle.dc_stack.specs.State.{start_modes};

    /// The settings before the first record.
    pub(crate) fn start() -> Modes
        ensures { result ≡ start_modes }
    {
        Modes {
            background_mode: BackgroundMode::Opaque,
            background_colour: Colour::WHITE,
            raster_op: RasterOp::CopyPen,
            fill_mode: FillMode::Alternate,
        }
    }
}
