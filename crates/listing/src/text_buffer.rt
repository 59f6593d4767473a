//! A text buffer, from which text is sent to a writer.

ghost use Rattle.std.specs.Prelude.{◌≡◌, ◌+◌, ◌≤◌, [], ◌∷◌, ◌++◌, length};

use std::marker::Model;

/// The capacity of a buffer in bytes.
pub(crate) const BUFFER_CAPACITY: usize = 8192;

/// A text buffer.
#[derive(Debug, Drop)]
pub(crate) struct TextBuffer {
    bytes: [u8; BUFFER_CAPACITY],
    /// The number of bytes of text.
    end: usize,
}

impl Model for TextBuffer {
    ghost use Rattle.std.specs.Prelude.{ℕ, ◌≤◌, List, take};

    ghost Value = { List ℕ };

    ghost view = { λ a. take a.end a.bytes };

    ghost invariant = { λ a. a.end ≤ 8192 };
}

impl TextBuffer {
    /// An empty buffer.
    pub(crate) fn new() -> TextBuffer
        ensures { result ≡ [] }
    {
        TextBuffer {
            bytes: [0; BUFFER_CAPACITY],
            end: 0,
        }
    }

    /// The number of bytes of text.
    pub(crate) fn len(&self) -> usize
        ensures value { result ≡ length self.now }
        ensures within { result ≤ 8192 }
    {
        self.end
    }

    /// The text.
    pub(crate) fn text(&self) -> &[u8]
        ensures { result.now ≡ self.now }
    {
        &self.bytes[..self.end]
    }

    /// Removes all text.
    pub(crate) fn clear(&mut self)
        ensures { self.new ≡ [] }
    {
        self.end = 0;
    }

    /// Appends a text.
    pub(crate) fn put(&mut self, text: &str)
        requires { length self.old + length text.now ≤ 8192 }
        ensures { self.new ≡ self.old ++ text.now }
    {
        let end = self.end + text.len();
        self.bytes[self.end..end].copy_from_slice(text.as_bytes());
        self.end = end;
    }

    /// Appends an ASCII character.
    pub(crate) fn put_byte(&mut self, byte: u8)
        requires { length self.old + 1 ≤ 8192 }
        ensures { self.new ≡ self.old ++ byte ∷ [] }
    {
        self.bytes[self.end] = byte;
        self.end += 1;
    }
}
