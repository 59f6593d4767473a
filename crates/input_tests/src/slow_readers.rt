//! Readers that give each number of bytes at once.

use crate::inputs::pattern;
use commands::read_input;
use std::alloc::{AllocError, Global};
use std::io;
use std::io::Read;

/// A reader that gives at most so many bytes a call.
#[derive(Drop)]
struct Giver<'a> {
    bytes: &'a [u8],
    most: usize,
}

impl Read for Giver<'_> {
    fn read(&mut self, buf: &mut [u8]) -> io::Result<usize> {
        let count = buf.len().min(self.most);
        self.bytes.read(&mut buf[..count])
    }
}

/// Whether these bytes are read whole where a call gives at most so many.
fn is_read(alloc: Global, bytes: &[u8], most: usize) -> bool {
    let mut input = Giver { bytes, most };
    match read_input(alloc, &mut input) {
        Ok(read) => read.as_slice() == bytes,
        Err(_) => false,
    }
}

#[test]
fn an_input_is_read_in_pieces_of_each_size(rt: HostRuntime) -> Result<(), AllocError> {
    let short = pattern(rt.alloc(), 3000)?;
    let long = pattern(rt.alloc(), 200_000)?;
    for most in 1..3002 {
        assert!(rt; is_read(rt.alloc(), short.as_slice(), most), "{most} bytes");
    }
    for most in [1, 7, 1000, 4096, 65_535, 65_536, 65_537, 131_072, 200_000] {
        assert!(rt; is_read(rt.alloc(), long.as_slice(), most), "{most} bytes");
    }
    Ok(())
}
