//! The sides that fit a file's frame.

ghost use Rattle.std.specs.Prelude.{◌≡◌};
ghost use Rattle.mapping.specs.Limits.{is_surface_side};
ghost use Rattle.preflight_cert.specs.Preparation.{is_bound};
ghost use Rattle.buffer_calls.specs.Fitted.{fitted_result};

use draw_ops::Fault;
use mapping::MAX_SURFACE_SIDE;
use meta_headers::open_file;
use proportions::{Sides, fitted_sides};

/// The largest sides within a width and a height that are in the proportion of a file's frame. Fails with `BadBound`
/// if the width or the height isn't from 1 to 8,192, or else with the first fault of the file's headers.
pub fn fitted_for(file: &[u8], within: Sides) -> Result<Sides, Fault>
    ensures { result ≡ fitted_result file.now within.width within.height }
{
    if !is_bound(within) {
        return Err(Fault::BadBound);
    }
    match open_file(file) {
        Ok(opened) => Ok(fitted_sides(&opened.frame, within.width, within.height)),
        Err(fault) => Err(fault),
    }
}

/// Whether a surface may have this size.
pub(crate) fn is_bound(sides: Sides) -> bool
    ensures { result ≡ is_bound sides.width sides.height }
{
    is_side(sides.width) && is_side(sides.height)
}

/// Whether a surface may have this width or height.
fn is_side(side: u32) -> bool
    ensures { result ≡ is_surface_side side }
{
    1 <= side && side <= MAX_SURFACE_SIDE
}
