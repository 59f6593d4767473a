//! Single pixels.

ghost use Rattle.std.specs.Prelude.{◌≡◌, ◌+◌, ◌<◌, ◌≤◌, ◌^◌};
ghost use Rattle.dc_stack.specs.Values.{placed_value};
ghost use Rattle.painting.specs.Dots.{PutsDot, indexes_of};

use crate::regions::whole_law;
use canvas::{Canvas, writing_law};
use dc_stack::Clip;
use mapping::{Colour, Point};

/// Writes one pixel, if both the canvas and the clip contain it.
pub(crate) fn put(point: Point, colour: Colour, clip: &Clip, canvas: &mut Canvas)
    requires countable { canvas.old.writes + 1 < 2 ^ 64 }
    ensures pixels { PutsDot (placed_value clip.now) point colour canvas.old canvas.new }
    ensures few { canvas.new.writes ≤ canvas.old.writes + 1 }
{
    writing_law();
    whole_law(canvas);
    let Some((x, y)) = indexes(point) else {
        return;
    };
    if !canvas.has_pixel(x, y) {
        return;
    }
    if clip.has(x, y) {
        canvas.put(x, y, colour);
    }
}

/// The column and row of a point on the surface, if neither is negative.
fn indexes(point: Point) -> Option<(u32, u32)>
    ensures { result ≡ indexes_of point }
{
    let x = u32::try_from(point.x).ok()?;
    let y = u32::try_from(point.y).ok()?;
    Some((x, y))
}
