//! A writer that keeps the samples of a P6 text in a borrowed buffer.

ghost use Rattle.std.specs.Prelude.{◌≡◌, ◌+◌, ◌≤◌, length};
ghost use Rattle.buffer_calls.specs.Split.{IsFull, rest_of};

use crate::split::Split;
use crate::target::Target;
use canvas::FaultCount;
use std::io;
use std::io::Write;
use std::marker::PhantomData;

/// A writer of a P6 text. It keeps the samples in a borrowed buffer, and leaves out the header. It fails only if it is
/// full.
///
/// # Guarantees
///
/// - The header has the target's length, and bytes of the buffer that weren't written yet are as they were at first.
#[derive(Drop)]
pub(crate) struct SampleWriter<'s, T: Target> {
    pub(crate) samples: &'s mut [u8],
    pub(crate) split: Split,
    pub(crate) faults: u64,
    /// Whether the writer was flushed, and nothing was written since.
    pub(crate) flushed: bool,
    pub(crate) target: PhantomData<T>,
    pub(crate) ghost header: { split.header_length ≡ T.header_length },
    pub(crate) ghost within: { split.written ≤ split.header_length + length samples.now },
    pub(crate) ghost kept: { rest_of split samples.now ≡ rest_of split T.start },
    pub(crate) ghost full: { 1 ≤ faults → IsFull split samples.now },
}

impl<T: Target> Write for SampleWriter<'_, T> {
    ghost use Rattle.std.specs.Prelude.{Some};
    ghost use Rattle.buffer_calls.specs.Split.{held};

    ghost contents = { λ writer. Some (held writer.split writer.samples) };

    fn write(&mut self, buf: &[u8]) -> io::Result<usize> {
        let count = self.split.accept(self.samples, buf);
        self.flushed = self.flushed && count == 0;
        Ok(count)
    }

    fn flush(&mut self) -> io::Result<()> {
        self.flushed = true;
        Ok(())
    }
}

impl<T: Target> FaultCount for SampleWriter<'_, T> {
    ghost fault_count = { λ writer. writer.faults };

    ghost is_flushed = { λ writer. writer.flushed };

    fn faults(&self) -> u64 {
        self.faults
    }

    fn write_counted(&mut self, buf: &[u8]) -> io::Result<usize> {
        let count = self.split.accept(self.samples, buf);
        self.flushed = self.flushed && count == 0;
        if count == 0 && !buf.is_empty() {
            self.faults += 1;
        }
        Ok(count)
    }

    fn flush_counted(&mut self) -> io::Result<()> {
        self.flushed = true;
        Ok(())
    }
}
