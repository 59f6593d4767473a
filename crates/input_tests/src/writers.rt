//! Writers that fail, accept nothing, stop short or are interrupted.

use crate::parsed_lines::words;
use crate::same_values::same;
use canvas::Counting;
use command_lines::line;
use commands::{show_command, usage};
use std::alloc::Global;
use std::io;
use std::io::Write;
use std::test::Fail;
use test_support::{DOT, limited};

/// The image of `DOT` at 4 by 1: the red pixel is in column 2.
const ROW: &[u8] = b"P6\n4 1\n255\n\xff\xff\xff\xff\xff\xff\xff\x00\x00\xff\xff\xff";

/// A writer that accepts one byte per call, counts its calls and flushes, and fails at one call, counted from 0.
#[derive(Drop)]
struct Slow {
    taken: Vec<u8>,
    calls: u32,
    fails_at: u32,
    kind: io::ErrorKind,
    flushes: u32,
    taken_at_flush: usize,
}

impl Slow {
    fn new(alloc: Global, fails_at: u32, kind: io::ErrorKind) -> Slow {
        Slow {
            taken: Vec::new(alloc),
            calls: 0,
            fails_at,
            kind,
            flushes: 0,
            taken_at_flush: 0,
        }
    }
}

impl Write for Slow {
    fn write(&mut self, buf: &[u8]) -> io::Result<usize> {
        let call = self.calls;
        self.calls = self.calls.saturating_add(1);
        if call == self.fails_at {
            return Err(io::Error::from(self.kind));
        }
        let Some(first) = buf.first() else {
            return Ok(0);
        };
        self.taken.push(*first)?;
        Ok(1)
    }

    fn flush(&mut self) -> io::Result<()> {
        self.flushes = self.flushes.saturating_add(1);
        self.taken_at_flush = self.taken.len();
        Ok(())
    }
}

/// A writer that accepts no bytes and reports no error.
#[derive(Drop)]
struct Deaf;

impl Write for Deaf {
    fn write(&mut self, _buf: &[u8]) -> io::Result<usize> {
        Ok(0)
    }

    fn flush(&mut self) -> io::Result<()> {
        Ok(())
    }
}

#[test]
fn an_image_is_flushed_once_after_its_last_byte(rt: HostRuntime) -> Result<(), Fail> {
    let mut out = Counting::new(Slow::new(rt.alloc(), u32::MAX, io::ErrorKind::Other));
    let mut err = Counting::new(Slow::new(rt.alloc(), u32::MAX, io::ErrorKind::Other));
    let status = show_command(rt.alloc(), DOT, 4, 1, &mut out, &mut err).status();
    let out = out.into_writer();
    let err = err.into_writer();
    same(&rt, status, 0);
    same(&rt, out.taken.as_slice(), ROW);
    same(&rt, (out.flushes, out.taken_at_flush), (1, ROW.len()));
    same(&rt, (err.calls, err.flushes), (0, 0));
    Ok(())
}

#[test]
fn a_rejected_file_writes_and_flushes_nothing(rt: HostRuntime) -> Result<(), Fail> {
    let mut out = Counting::new(Slow::new(rt.alloc(), u32::MAX, io::ErrorKind::Other));
    let mut err = Counting::new(Slow::new(rt.alloc(), u32::MAX, io::ErrorKind::Other));
    let status = show_command(rt.alloc(), &DOT[..50], 4, 1, &mut out, &mut err).status();
    let out = out.into_writer();
    let err = err.into_writer();
    same(&rt, status, 1);
    same(&rt, (out.calls, out.flushes), (0, 0));
    same(
        &rt,
        err.taken.as_slice(),
        b"metaplay: PastEnd at record 0\n".as_slice(),
    );
    Ok(())
}

#[test]
fn an_interrupted_write_is_tried_again(rt: HostRuntime) -> Result<(), Fail> {
    for fails_at in [0, 1, 10, 22] {
        let mut out = Counting::new(Slow::new(rt.alloc(), fails_at, io::ErrorKind::Interrupted));
        let mut err = Counting::new(Vec::new(rt.alloc()));
        let status = show_command(rt.alloc(), DOT, 4, 1, &mut out, &mut err).status();
        let out = out.into_writer();
        let err = err.into_writer();
        same(&rt, (fails_at, status), (fails_at, 0));
        same(&rt, out.taken.as_slice(), ROW);
        same(&rt, out.flushes, 1);
        assert!(rt; err.is_empty());
    }
    Ok(())
}

#[test]
fn a_write_that_fails_otherwise_is_tried_once(rt: HostRuntime) -> Result<(), Fail> {
    for kind in [
        io::ErrorKind::WouldBlock,
        io::ErrorKind::TimedOut,
        io::ErrorKind::BrokenPipe,
    ] {
        for fails_at in [0, 5] {
            let mut out = Counting::new(Slow::new(rt.alloc(), fails_at, kind));
            let mut err = Counting::new(Vec::new(rt.alloc()));
            let status = show_command(rt.alloc(), DOT, 4, 1, &mut out, &mut err).status();
            let out = out.into_writer();
            let err = err.into_writer();
            same(&rt, status, 3);
            same(&rt, (out.calls, out.flushes), (fails_at + 1, 0));
            same(&rt, out.taken.as_slice(), &ROW[..fails_at as usize]);
            same(&rt, err.as_slice(), b"metaplay: cannot write\n".as_slice());
        }
    }
    Ok(())
}

#[test]
fn a_writer_that_takes_nothing_cannot_be_written(rt: HostRuntime) -> Result<(), Fail> {
    let mut err = Counting::new(Vec::new(rt.alloc()));
    let status = show_command(rt.alloc(), DOT, 4, 1, &mut Counting::new(Deaf), &mut err).status();
    let err = err.into_writer();
    same(&rt, status, 3);
    same(&rt, err.as_slice(), b"metaplay: cannot write\n".as_slice());
    let mut out = Counting::new(Vec::new(rt.alloc()));
    let status = show_command(rt.alloc(), b"", 4, 1, &mut out, &mut Counting::new(Deaf)).status();
    same(&rt, status, 1);
    Ok(())
}

#[test]
fn a_line_is_printed_whole_where_standard_error_is_slow(rt: HostRuntime) -> Result<(), Fail> {
    for fails_at in [0, 3, 21] {
        let mut out = Counting::new(Vec::new(rt.alloc()));
        let mut err = Counting::new(Slow::new(rt.alloc(), fails_at, io::ErrorKind::Interrupted));
        let status = show_command(rt.alloc(), b"", 4, 1, &mut out, &mut err).status();
        let err = err.into_writer();
        same(&rt, status, 1);
        same(
            &rt,
            err.taken.as_slice(),
            b"metaplay: NotMetafile\n".as_slice(),
        );
    }
    Ok(())
}

#[test]
fn a_line_ends_where_standard_error_fails(rt: HostRuntime) -> Result<(), Fail> {
    let mut out = Counting::new(Vec::new(rt.alloc()));
    let mut err = Counting::new(Slow::new(rt.alloc(), 4, io::ErrorKind::WouldBlock));
    let status = show_command(rt.alloc(), b"", 4, 1, &mut out, &mut err).status();
    let err = err.into_writer();
    same(&rt, status, 1);
    same(&rt, err.taken.as_slice(), b"meta".as_slice());
    same(&rt, err.calls, 5);
    Ok(())
}

#[test]
fn a_usage_is_shown_whole_or_up_to_where_its_writer_fails(rt: HostRuntime) -> Result<(), Fail> {
    let asked = words(rt.alloc(), &["metaplay"])?;
    let Err(error) = line(rt.alloc(), asked.as_slice()) else {
        return Err(Fail::from("a wrong command line was taken"));
    };
    for (most, whole) in [(0, false), (20, false), (1000, true)] {
        let mut out = Counting::new(limited(rt.alloc(), 0, true));
        let mut err = Counting::new(limited(rt.alloc(), most, true));
        let answer = usage(&error, &mut out, &mut err);
        same(&rt, (answer.status(), answer.printed.is_ok()), (2, whole));
        let err = err.into_writer();
        same(&rt, err.taken.len().min(20), most.min(20));
    }
    Ok(())
}
