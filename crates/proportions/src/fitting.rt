//! The largest sides in a frame's proportion.

ghost use Rattle.std.specs.Prelude.{◌≡◌, ◌≤◌, ◌<◌, ◌*◌, ◌^◌};
ghost use Rattle.proportions.specs.Fitting.{fitted_height, fitted_width, is_wide, scaled_side};

use crate::rounding::nearest;
use mapping::Frame;

/// The width and the height of a surface in pixels.
#[derive(Clone, Copy, Debug, PartialEq, Eq)]
pub struct Sides {
    pub width: u32,
    pub height: u32,
}

/// The largest sides within a width and a height, in the proportion of a frame. Each is at least 1, and rounded to the
/// nearest; a half is rounded up.
pub fn fitted_sides(frame: &Frame, width: u32, height: u32) -> Sides
    requires width { 1 ≤ width }
    requires height { 1 ≤ height }
    ensures width { result.width ≡ fitted_width frame.now.width frame.now.height width height }
    ensures height { result.height ≡ fitted_height frame.now.width frame.now.height width height }
{
    if is_wide(frame, width, height) {
        Sides {
            width,
            height: scaled_side(width, frame.width, frame.height),
        }
    } else {
        Sides {
            width: scaled_side(height, frame.height, frame.width),
            height,
        }
    }
}

/// Whether the frame's proportion is that of a surface with this width, or is wider than that of one with this height.
fn is_wide(frame: &Frame, width: u32, height: u32) -> bool
    ensures { result ≡ is_wide frame.now.width frame.now.height width height }
{
    u64::from(width) * u64::from(frame.height) <= u64::from(height) * u64::from(frame.width)
}

/// One side of a surface, in the proportion of two sides of a frame, by the other side.
fn scaled_side(side: u32, of_side: u32, of_result: u32) -> u32
    requires frame { 1 ≤ of_side }
    requires short { scaled_side side of_side of_result < 2 ^ 32 }
    ensures { result ≡ scaled_side side of_side of_result }
{
    let length = nearest(
        u128::from(side) * u128::from(of_result),
        u128::from(of_side),
    );
    length.max(1) as u32
}
