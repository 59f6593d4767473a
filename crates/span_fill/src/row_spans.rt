//! Storage for the spans of a row.

ghost use Rattle.std.specs.Prelude.{◌≡◌, ◌≤◌, IsOk, OnOk};

use crate::row_error::OutOfMemory;
use crate::span::Span;
use smallvec::SmallVec;

/// How many spans are stored inline. Most rows have one or two, but the capacity is set before any row is known, for
/// two spans more than there are lines. So 4 would be enough for two lines only; 8 are enough for six, and thus for
/// each rectangle and triangle.
pub(crate) const INLINE_SPANS: usize = 8;

/// The spans of a row: a few are stored inline, more of them on the heap.
pub(crate) type RowSpans = SmallVec<Span, INLINE_SPANS>;

/// Allocates memory for this many spans, unless the capacity is enough.
pub(crate) fn grow_spans(spans: &mut RowSpans, count: usize) -> Result<(), OutOfMemory>
    ensures ok { OnOk result (count ≤ spans.new.capacity) }
    ensures few { count ≤ INLINE_SPANS → IsOk result }
    ensures had_capacity { count ≤ spans.old.capacity → spans.new ≡ spans.old }
    ensures items { spans.new.items ≡ spans.old.items }
    ensures kept { spans.old.capacity ≤ spans.new.capacity }
{
    if count <= spans.capacity() {
        return Ok(());
    }
    // `reserve` would round up to a power of two, which is up to twice as much.
    match spans.reserve_exact(count - spans.len()) {
        Ok(()) => Ok(()),
        Err(_) => Err(OutOfMemory),
    }
}
