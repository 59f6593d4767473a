//! Writers that count their failures.

ghost use Rattle.std.specs.Prelude.{◌≡◌, ℕ, Bool, false, ◌-◌, ◌^◌, ◌<◌};
ghost use Rattle.std.specs.Io.{WritesAtMost};
ghost use Rattle.std.specs.Io.KnownBytes.{Keeps, WriteAppends};
ghost use Rattle.canvas.specs.Faults.{CountsFault, CountsFlush, flushed_by_flush, flushed_by_write};

use std::io;
use std::io::Write;

/// A writer that counts its faults: the calls that failed, and those that accepted none of some bytes. This lets code
/// that uses it prove that it reports a fault only if there was one.
pub trait FaultCount: Write {
    ghost fault_count: { Self → ℕ };

    /// True only if a flush succeeded and no byte was accepted after it.
    ghost is_flushed: { Self → Bool };

    /// The number of faults.
    fn faults(&self) -> u64
        ensures { result ≡ fault_count self.now };

    /// Writes some of the bytes and returns how many, as `write` does, and counts a fault.
    fn write_counted(&mut self, buf: &[u8]) -> io::Result<usize>
        requires capacity { fault_count self.old < 2 ^ 64 - 1 }
        ensures bound { WritesAtMost result buf.now }
        ensures bytes { WriteAppends (Self.contents self.old) (Self.contents self.new) result buf.now }
        ensures count { CountsFault (fault_count self.old) (fault_count self.new) result buf.now }
        ensures flushed { is_flushed self.new ≡ flushed_by_write (is_flushed self.old) result };

    /// Flushes the writer, as `flush` does, and counts a failure.
    fn flush_counted(&mut self) -> io::Result<()>
        requires capacity { fault_count self.old < 2 ^ 64 - 1 }
        ensures bytes { Keeps (Self.contents self.old) (Self.contents self.new) }
        ensures count { CountsFlush (fault_count self.old) (fault_count self.new) result }
        ensures flushed { is_flushed self.new ≡ flushed_by_flush (is_flushed self.old) result };
}

/// Any writer, with a count of its faults. Bytes that are written by `write` are passed to it unchanged.
#[derive(Drop)]
pub struct Counting<W> {
    writer: W,
    faults: u64,
    flushed: bool,
}

impl<W: Write + Drop> Counting<W> {
    /// Counts the faults of this writer from now on.
    pub fn new(writer: W) -> Counting<W>
        ensures contents { ⟦<Counting<W> as Write>⟧.contents result ≡ W.contents writer }
        ensures count { ⟦<Counting<W> as FaultCount>⟧.fault_count result ≡ 0 }
        ensures flushed { ⟦<Counting<W> as FaultCount>⟧.is_flushed result ≡ false }
    {
        Counting {
            writer,
            faults: 0,
            flushed: false,
        }
    }

    /// The writer itself.
    pub fn into_writer(self) -> W
        ensures { W.contents result ≡ ⟦<Counting<W> as Write>⟧.contents self }
    {
        self.writer
    }
}

impl<W: Write + Drop> Write for Counting<W> {
    ghost contents = { λ counting. W.contents counting.writer };

    fn write(&mut self, buf: &[u8]) -> io::Result<usize>
        ensures bound { WritesAtMost result buf.now }
        ensures bytes { WriteAppends (W.contents self.old.writer) (W.contents self.new.writer) result buf.now }
        ensures flushed { ⟦<Counting<W> as FaultCount>⟧.is_flushed self.new ≡ false }
    {
        self.flushed = false;
        self.writer.write(buf)
    }

    fn flush(&mut self) -> io::Result<()> {
        self.writer.flush()
    }
}

impl<W: Write + Drop> FaultCount for Counting<W> {
    ghost fault_count = { λ counting. counting.faults };

    ghost is_flushed = { λ counting. counting.flushed };

    fn faults(&self) -> u64 {
        self.faults
    }

    fn write_counted(&mut self, buf: &[u8]) -> io::Result<usize> {
        match self.writer.write(buf) {
            Ok(0) if !buf.is_empty() => {
                self.faults += 1;
                Ok(0)
            }
            Ok(count) => {
                self.flushed = self.flushed && count == 0;
                Ok(count)
            }
            Err(error) => {
                self.faults += 1;
                Err(error)
            }
        }
    }

    fn flush_counted(&mut self) -> io::Result<()> {
        match self.writer.flush() {
            Ok(()) => {
                self.flushed = true;
                Ok(())
            }
            Err(error) => {
                self.faults += 1;
                Err(error)
            }
        }
    }
}
