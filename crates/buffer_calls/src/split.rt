//! A text of which the header goes to an array, and the samples to a buffer.

ghost use Rattle.std.specs.Prelude.{◌≡◌, ◌+◌, ◌-◌, ◌<◌, ◌≤◌, ◌++◌, length, min, take};

use crate::copying::put;

/// The capacity for a header, which has at most 29 bytes.
pub(crate) const HEADER_CAPACITY: usize = 32;

/// How much of a P6 text was written, and its header. The samples after the header are in a buffer, which each call is
/// given.
///
/// # Guarantees
///
/// - The header isn't longer than its capacity.
#[derive(Clone, Copy, Debug)]
pub(crate) struct Split {
    pub(crate) header: [u8; HEADER_CAPACITY],
    pub(crate) header_length: usize,
    /// How many bytes of header and samples were written.
    pub(crate) written: usize,
    pub(crate) ghost whole: { length header ≡ 32 },
    pub(crate) ghost short: { header_length ≤ 32 },
}

impl Split {
    ghost use Rattle.buffer_calls.specs.Split.{GoesOn, IsFull, capacity_left, header_of, taken_at_once, text_of};

    /// Takes as many of the bytes as header and buffer have capacity for, and returns how many.
    pub(crate) fn accept(&mut self, samples: &mut [u8], bytes: &[u8]) -> usize
        requires within { self.old.written ≤ self.old.header_length + length samples.old }
        ensures bound { result ≤ length bytes.now }
        ensures text { text_of self.new samples.new ≡ text_of self.old samples.old ++ take result bytes.now }
        ensures next { GoesOn result self.old samples.old self.new samples.new }
        ensures count { result ≡ min (length bytes.now) (taken_at_once self.old samples.old) }
        ensures full { result ≡ 0 → 0 < length bytes.now → IsFull self.new samples.new }
    {
        if self.written < self.header_length {
            self.accept_header(bytes)
        } else {
            self.accept_samples(samples, bytes)
        }
    }

    /// Takes bytes of the header.
    fn accept_header(&mut self, bytes: &[u8]) -> usize
        requires header { self.old.written < self.old.header_length }
        ensures bound { result ≤ length bytes.now }
        ensures some { 0 < length bytes.now → 0 < result }
        ensures count { result ≡ min (length bytes.now) (self.old.header_length - self.old.written) }
        ensures within { self.new.written ≤ self.new.header_length }
        ensures length { self.new.header_length ≡ self.old.header_length }
        ensures written { self.new.written ≡ self.old.written + result }
        ensures text { header_of self.new ≡ header_of self.old ++ take result bytes.now }
    {
        let count = bytes.len().min(self.header_length - self.written);
        put(&mut self.header, self.written, &bytes[..count]);
        self.written += count;
        count
    }

    /// Takes as many of the bytes as the buffer has capacity for.
    fn accept_samples(&mut self, samples: &mut [u8], bytes: &[u8]) -> usize
        requires after { self.old.header_length ≤ self.old.written }
        requires within { self.old.written ≤ self.old.header_length + length samples.old }
        ensures bound { result ≤ length bytes.now }
        ensures text { text_of self.new samples.new ≡ text_of self.old samples.old ++ take result bytes.now }
        ensures next { GoesOn result self.old samples.old self.new samples.new }
        ensures count { result ≡ min (length bytes.now) (capacity_left self.old samples.old) }
        ensures full { result ≡ 0 → 0 < length bytes.now → IsFull self.new samples.new }
    {
        let at = self.written - self.header_length;
        let count = bytes.len().min(samples.len() - at);
        put(samples, at, &bytes[..count]);
        self.written += count;
        count
    }
}
