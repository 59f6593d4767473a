//! Inputs that are read to their end, and inputs that can't be read.

use crate::same_values::same;
use commands::{InputFault, read_file, read_input};
use std::alloc::{AllocError, Global};
use std::io;
use std::io::Read;
use std::test::Fail;

/// A reader that returns one byte per call, and fails at one call, counted from 0.
#[derive(Drop)]
struct Failing<'a> {
    bytes: &'a [u8],
    calls_left: u32,
    kind: io::ErrorKind,
}

impl Read for Failing<'_> {
    fn read(&mut self, buf: &mut [u8]) -> io::Result<usize> {
        if self.calls_left == 0 {
            self.calls_left = u32::MAX;
            return Err(io::Error::from(self.kind));
        }
        self.calls_left -= 1;
        let Some((first, others)) = self.bytes.split_first() else {
            return Ok(0);
        };
        if buf.is_empty() {
            return Ok(0);
        }
        buf[0] = *first;
        self.bytes = others;
        Ok(1)
    }
}

#[test]
fn a_file_is_read_and_not_standard_input(rt: HostRuntime) -> Result<(), Fail> {
    let mut input = "from standard input".as_bytes();
    let bytes = read_file(&rt, "stdin", &mut input)?;
    same(&rt, bytes.as_slice(), b"from standard input".as_slice());
    // A directory can be opened but not read, and this one exists on every machine.
    let mut input = "from standard input".as_bytes();
    same(
        &rt,
        read_file(&rt, "/", &mut input).err(),
        Some(InputFault::CannotRead),
    );
    let mut input = "from standard input".as_bytes();
    same(
        &rt,
        read_file(&rt, "/no/such/file", &mut input).err(),
        Some(InputFault::CannotRead),
    );
    let bytes = read_file(&rt, "/dev/null", &mut input)?;
    assert!(rt; bytes.is_empty());
    Ok(())
}

#[test]
fn an_input_is_read_to_its_end(rt: HostRuntime) -> Result<(), Fail> {
    for text in ["", "a", "some more bytes than one"] {
        let mut at_once = text.as_bytes();
        let bytes = read_input(rt.alloc(), &mut at_once)?;
        same(&rt, bytes.as_slice(), text.as_bytes());
        let mut slow = Failing {
            bytes: text.as_bytes(),
            calls_left: 1000,
            kind: io::ErrorKind::BrokenPipe,
        };
        let bytes = read_input(rt.alloc(), &mut slow)?;
        same(&rt, bytes.as_slice(), text.as_bytes());
    }
    Ok(())
}

#[test]
fn a_reader_that_has_ended_is_not_asked_again(rt: HostRuntime) -> Result<(), Fail> {
    // One call for each byte and one for the end: the next call would fail.
    let mut input = Failing {
        bytes: b"abc",
        calls_left: 4,
        kind: io::ErrorKind::BrokenPipe,
    };
    let bytes = read_input(rt.alloc(), &mut input)?;
    same(&rt, bytes.as_slice(), "abc".as_bytes());
    same(&rt, input.calls_left, 0);
    Ok(())
}

#[test]
fn a_reader_that_fails_cannot_be_read(rt: HostRuntime) -> Result<(), Fail> {
    // Whatever the kind of the error, no allocation failed.
    for kind in [
        io::ErrorKind::BrokenPipe,
        io::ErrorKind::Interrupted,
        io::ErrorKind::OutOfMemory,
    ] {
        for calls_left in 0..4 {
            let mut input = Failing {
                bytes: b"abc",
                calls_left,
                kind,
            };
            let read = read_input(rt.alloc(), &mut input);
            same(
                &rt,
                (calls_left, read.err()),
                (calls_left, Some(InputFault::CannotRead)),
            );
        }
    }
    Ok(())
}

#[test]
fn an_input_has_at_most_268435456_bytes(rt: HostRuntime) -> Result<(), Fail> {
    let bytes = read_input(rt.alloc(), &mut io::repeat(0).take(268435456))?;
    same(&rt, bytes.len(), 268435456);
    drop(bytes);
    let read = read_input(rt.alloc(), &mut io::repeat(0).take(268435457));
    same(&rt, read.err(), Some(InputFault::CannotRead));
    Ok(())
}

/// This many bytes, in a pattern whose period isn't a power of two.
pub(crate) fn pattern(alloc: Global, length: usize) -> Result<Vec<u8>, AllocError> {
    let mut bytes = Vec::new(alloc);
    for k in 0..length {
        bytes.push((k % 251) as u8)?;
    }
    Ok(bytes)
}

#[test]
fn an_input_may_end_at_a_piece_or_next_to_it(rt: HostRuntime) -> Result<(), Fail> {
    for length in [1, 65535, 65536, 65537, 131072] {
        let wanted = pattern(rt.alloc(), length)?;
        let mut input = wanted.as_slice();
        let bytes = read_input(rt.alloc(), &mut input)?;
        same(&rt, bytes.len(), length);
        assert!(rt; bytes.as_slice() == wanted.as_slice(), "{length} bytes");
        let mut input = wanted.as_slice();
        let bytes = read_file(&rt, "stdin", &mut input)?;
        assert!(rt; bytes.as_slice() == wanted.as_slice(), "{length} bytes");
    }
    Ok(())
}

#[test]
fn an_input_of_any_length_is_read(rt: HostRuntime) -> Result<(), Fail> {
    // Around each multiple of the piece's size up to 4 MiB, at each length up to 3,000, and at lengths far from any
    // multiple.
    let whole = pattern(rt.alloc(), 64 * 65536 + 1)?;
    for piece in 1..=64 {
        for length in [piece * 65536 - 1, piece * 65536, piece * 65536 + 1] {
            assert!(rt;
                is_read_whole(rt.alloc(), whole.as_slice(), length)?,
                "{length} bytes"
            );
        }
        let length = piece * 65521 - 7;
        assert!(rt;
            is_read_whole(rt.alloc(), whole.as_slice(), length)?,
            "{length} bytes"
        );
    }
    for length in 0..3000 {
        assert!(rt;
            is_read_whole(rt.alloc(), whole.as_slice(), length)?,
            "{length} bytes"
        );
    }
    Ok(())
}

/// Whether an input of this length, a prefix of these bytes, is read unchanged.
fn is_read_whole(alloc: Global, bytes: &[u8], length: usize) -> Result<bool, InputFault> {
    let Some(wanted) = bytes.get(..length) else {
        return Ok(false);
    };
    let mut input = wanted;
    let bytes = read_input(alloc, &mut input)?;
    Ok(bytes.as_slice() == wanted)
}

#[test]
fn an_input_under_failed_growth(rt: HostRuntime) -> Result<(), Fail> {
    match read_input(rt.alloc(), &mut io::repeat(7).take(300000)) {
        Ok(bytes) => {
            same(&rt, bytes.len(), 300000);
            assert!(rt; bytes.iter().all(|byte| *byte == 7));
        }
        Err(fault) => same(&rt, fault, InputFault::OutOfMemory),
    }
    Ok(())
}
