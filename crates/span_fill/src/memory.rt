//! The capacity of vectors.

ghost use Rattle.std.specs.Prelude.{◌≡◌, ◌≤◌, ◌^◌, OnOk, vec_capacity};

use crate::row_error::OutOfMemory;

/// Allocates memory for this many elements.
pub(crate) fn grow<T>(elements: &mut Vec<T>, count: usize) -> Result<(), OutOfMemory>
    requires { count ≤ 2 ^ 21 }
    ensures ok { OnOk result (count ≤ vec_capacity elements.new) }
    ensures items { elements.new.items ≡ elements.old.items }
    ensures kept { vec_capacity elements.old ≤ vec_capacity elements.new }
{
    let there = elements.len();
    if there < count {
        match elements.reserve(count - there) {
            Ok(()) => Ok(()),
            Err(_) => Err(OutOfMemory),
        }
    } else {
        Ok(())
    }
}
