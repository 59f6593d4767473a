//! Copying bytes to a buffer.

ghost use Rattle.std.specs.Prelude.{◌≡◌, ◌+◌, ◌≤◌, ◌++◌, length, take, drop};
ghost use Rattle.buffer_calls.specs.Texts.{EndsText};

use crate::outcome::Outcome;

/// Copies a text to the start of a buffer. If the buffer is too short for all of it, nothing is copied.
pub(crate) fn copy_text(text: &[u8], out: &mut [u8]) -> Outcome
    ensures { EndsText (λ copied. copied ≡ text.now) out.old out.new result }
{
    let count = text.len();
    if out.len() < count {
        return Outcome::TooShort(count);
    }
    put(out, 0, text);
    Outcome::Done(count)
}

/// Copies bytes to a buffer, after its first `at` bytes.
pub(crate) fn put(buffer: &mut [u8], at: usize, bytes: &[u8])
    requires { at + length bytes.now ≤ length buffer.old }
    ensures { buffer.new ≡ take at buffer.old ++ bytes.now ++ drop (at + length bytes.now) buffer.old }
{
    let end = at + bytes.len();
    buffer[at..end].copy_from_slice(bytes);
}
