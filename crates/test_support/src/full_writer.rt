//! A writer that becomes full.

use std::alloc::Global;
use std::io;
use std::io::Write;

/// A writer that keeps the bytes it accepts, and fails after some number of bytes, or at a flush.
#[derive(Drop)]
pub struct Full {
    /// The bytes that it accepted.
    pub taken: Vec<u8>,
    most: usize,
    can_flush: bool,
}

impl Write for Full {
    fn write(&mut self, buf: &[u8]) -> io::Result<usize> {
        let capacity = self.most.saturating_sub(self.taken.len());
        if capacity == 0 && !buf.is_empty() {
            return Err(io::Error::from(io::ErrorKind::StorageFull));
        }
        let count = buf.len().min(capacity);
        self.taken.extend_from_slice(&buf[..count])?;
        Ok(count)
    }

    fn flush(&mut self) -> io::Result<()> {
        if self.can_flush {
            Ok(())
        } else {
            Err(io::Error::from(io::ErrorKind::StorageFull))
        }
    }
}

/// A writer that accepts so many bytes, and whose flushes succeed or fail.
pub fn limited(alloc: Global, most: usize, can_flush: bool) -> Full {
    Full {
        taken: Vec::new(alloc),
        most,
        can_flush,
    }
}
