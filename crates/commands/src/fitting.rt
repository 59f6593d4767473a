//! The surface that a command line asks for.

ghost use Rattle.std.specs.Prelude.{◌≡◌};
ghost use Rattle.mapping.specs.Limits.{IsSurfaceSide};
ghost use Rattle.meta_headers.specs.Opening.{opened};
ghost use Rattle.commands.specs.Fitting.{asked_height, asked_width};

use meta_headers::open_file;
use proportions::{Sides, fitted_sides, fitting_law};

/// The sides of the surface that a file is played on: the given ones, or with `fit` the largest within them that have
/// the proportion of the file's frame. A file that doesn't open has no frame, and is rejected on any surface.
pub(crate) fn asked_sides(file: &[u8], width: u32, height: u32, fit: bool) -> Sides
    requires wide { IsSurfaceSide width }
    requires high { IsSurfaceSide height }
    ensures width { result.width ≡ asked_width fit (opened file.now) width height }
    ensures height { result.height ≡ asked_height fit (opened file.now) width height }
    ensures wide { IsSurfaceSide result.width }
    ensures high { IsSurfaceSide result.height }
{
    if !fit {
        return Sides { width, height };
    }
    fitting_law();
    match open_file(file) {
        Ok(opened) => fitted_sides(&opened.frame, width, height),
        Err(_) => Sides { width, height },
    }
}
