//! The saved state that a number names.

ghost use Rattle.std.specs.Prelude.{◌≡◌, ◌<◌, ◌^◌, IfSome};
ghost use Rattle.dc_stack.specs.SavedStates.{saved_place};

use draw_ops::SavedState;

/// The position, among `count` saved states from the oldest on, that a number names.
pub(crate) fn place_of(which: SavedState, count: usize) -> Option<usize>
    ensures place { result ≡ saved_place which.0 count }
    ensures within { IfSome result (λ place. place < count) }
{
    let distance = which.0.unsigned_abs() as usize;
    if distance == 0 || distance > count {
        return None;
    }
    if which.0 > 0 {
        Some(distance - 1)
    } else {
        Some(count - distance)
    }
}
