//! Writers that count their faults: what is counted, and when a write fault is returned.

use crate::bands::Full;
use crate::canvases::Slow;
use crate::comparing::same;
use canvas::{
    Canvas, Counting, FaultCount, WriteFault, flush_sent, send_counted, send_finished,
    write_header_to,
};
use mapping::Colour;
use std::alloc::Global;
use std::io;
use std::io::{ErrorKind, Write};
use std::test::Fail;

const GREY: Colour = Colour { r: 7, g: 8, b: 9 };

/// Every kind of error that a writer can return.
const KINDS: [ErrorKind; 41] = [
    ErrorKind::NotFound,
    ErrorKind::PermissionDenied,
    ErrorKind::ConnectionRefused,
    ErrorKind::ConnectionReset,
    ErrorKind::HostUnreachable,
    ErrorKind::NetworkUnreachable,
    ErrorKind::ConnectionAborted,
    ErrorKind::NotConnected,
    ErrorKind::AddrInUse,
    ErrorKind::AddrNotAvailable,
    ErrorKind::NetworkDown,
    ErrorKind::BrokenPipe,
    ErrorKind::AlreadyExists,
    ErrorKind::WouldBlock,
    ErrorKind::NotADirectory,
    ErrorKind::IsADirectory,
    ErrorKind::DirectoryNotEmpty,
    ErrorKind::ReadOnlyFilesystem,
    ErrorKind::FilesystemLoop,
    ErrorKind::StaleNetworkFileHandle,
    ErrorKind::InvalidInput,
    ErrorKind::InvalidData,
    ErrorKind::TimedOut,
    ErrorKind::WriteZero,
    ErrorKind::StorageFull,
    ErrorKind::NotSeekable,
    ErrorKind::QuotaExceeded,
    ErrorKind::FileTooLarge,
    ErrorKind::ResourceBusy,
    ErrorKind::ExecutableFileBusy,
    ErrorKind::Deadlock,
    ErrorKind::CrossesDevices,
    ErrorKind::TooManyLinks,
    ErrorKind::InvalidFilename,
    ErrorKind::ArgumentListTooLong,
    ErrorKind::Interrupted,
    ErrorKind::Unsupported,
    ErrorKind::UnexpectedEof,
    ErrorKind::OutOfMemory,
    ErrorKind::InProgress,
    ErrorKind::Other,
];

/// A writer that accepts every byte, and whose first flushes fail with one kind of error.
#[derive(Drop)]
struct Stuck {
    taken: Vec<u8>,
    /// The number of bytes that were flushed.
    flushed: usize,
    /// The number of flushes, with those that failed.
    flushes: usize,
    failures: usize,
    kind: ErrorKind,
}

impl Stuck {
    fn new(alloc: Global, failures: usize) -> Stuck {
        Stuck::with(alloc, failures, ErrorKind::StorageFull)
    }

    fn with(alloc: Global, failures: usize, kind: ErrorKind) -> Stuck {
        Stuck {
            taken: Vec::new(alloc),
            flushed: 0,
            flushes: 0,
            failures,
            kind,
        }
    }
}

impl Write for Stuck {
    fn write(&mut self, buf: &[u8]) -> io::Result<usize> {
        self.taken.extend_from_slice(buf)?;
        Ok(buf.len())
    }

    fn flush(&mut self) -> io::Result<()> {
        self.flushes = self.flushes.saturating_add(1);
        if self.failures > 0 {
            self.failures -= 1;
            return Err(io::Error::from(self.kind));
        }
        self.flushed = self.taken.len();
        Ok(())
    }
}

#[test]
fn a_writer_that_takes_all_has_no_fault(rt: HostRuntime) -> Result<(), Fail> {
    let canvas = Canvas::new(rt.alloc(), 1, 1, GREY)?;
    let mut out = Counting::new(Vec::new(rt.alloc()));
    assert!(rt; out.faults() == 0);
    canvas.write_ppm_to(&mut out)?;
    same(&rt, out.faults(), 0);
    let taken = out.into_writer();
    same(
        &rt,
        taken.as_slice(),
        b"P6\n1 1\n255\n\x07\x08\x09".as_slice(),
    );
    Ok(())
}

#[test]
fn an_interrupted_writer_gets_the_text_and_its_faults_are_counted(
    rt: HostRuntime,
) -> Result<(), Fail> {
    let canvas = Canvas::new(rt.alloc(), 1, 1, GREY)?;
    let mut out = Counting::new(Slow::new(Vec::new(rt.alloc()), 1, 1000));
    assert!(rt; out.faults() == 0);
    canvas.write_ppm_to(&mut out)?;
    same(&rt, out.faults(), 14);
    let slow = out.into_writer();
    same(
        &rt,
        slow.taken.as_slice(),
        b"P6\n1 1\n255\n\x07\x08\x09".as_slice(),
    );
    Ok(())
}

#[test]
fn a_writer_that_takes_nothing_has_one_fault(rt: HostRuntime) -> Result<(), Fail> {
    let band = Canvas::band(rt.alloc(), 2, 1, 1, GREY)?;
    for most in 0..6 {
        let full = Full {
            taken: Vec::new(rt.alloc()),
            most,
        };
        let mut out = Counting::new(full);
        assert!(rt; out.faults() == 0);
        same(&rt, band.write_rows_to(&mut out), Err(WriteFault));
        same(&rt, out.faults(), 1);
        let full = out.into_writer();
        same(
            &rt,
            full.taken.as_slice(),
            &b"\x07\x08\x09\x07\x08\x09"[..most],
        );
    }
    Ok(())
}

#[test]
fn a_writer_that_fails_has_a_fault_more_than_interruptions(rt: HostRuntime) -> Result<(), Fail> {
    for most in 0..11 {
        let mut out = Counting::new(Slow::new(Vec::new(rt.alloc()), 1, most));
        assert!(rt; out.faults() == 0);
        same(&rt, write_header_to(&mut out, 1, 2), Err(WriteFault));
        same(&rt, out.faults(), most as u64 + 2);
        let slow = out.into_writer();
        same(&rt, slow.taken.as_slice(), &b"P6\n1 2\n255\n"[..most]);
    }
    Ok(())
}

#[test]
fn nothing_is_sent_without_a_fault(rt: HostRuntime) -> Result<(), Fail> {
    let full = Full {
        taken: Vec::new(rt.alloc()),
        most: 0,
    };
    let mut out = Counting::new(full);
    assert!(rt; out.faults() == 0);
    send_counted(&mut out, b"".as_slice())?;
    same(&rt, out.faults(), 0);
    assert!(rt; out.faults() == 0);
    same(&rt, out.write_counted(b"".as_slice()).is_ok(), true);
    same(&rt, out.faults(), 0);
    assert!(rt; out.faults() == 0);
    same(&rt, out.write_counted(b"a".as_slice()).is_ok(), true);
    same(&rt, out.faults(), 1);
    out.flush()?;
    Ok(())
}

#[test]
fn a_plain_flush_answers_as_the_writer_does(rt: HostRuntime) -> Result<(), Fail> {
    let mut out = Counting::new(Stuck::new(rt.alloc(), 1));
    assert!(rt; out.faults() == 0);
    send_counted(&mut out, b"ab".as_slice())?;
    same(&rt, out.flush().is_ok(), false);
    same(&rt, out.faults(), 0);
    same(&rt, out.flush().is_ok(), true);
    same(&rt, out.into_writer().flushed, 2);
    Ok(())
}

#[test]
fn each_flush_reaches_the_writer(rt: HostRuntime) -> Result<(), Fail> {
    let mut out = Counting::new(Stuck::new(rt.alloc(), 0));
    assert!(rt; out.faults() == 0);
    send_counted(&mut out, b"ab".as_slice())?;
    assert!(rt; out.faults() == 0);
    same(&rt, out.flush_counted().is_ok(), true);
    assert!(rt; out.faults() == 0);
    same(&rt, out.flush_counted().is_ok(), true);
    same(&rt, out.flush().is_ok(), true);
    same(&rt, out.flush().is_ok(), true);
    same(&rt, out.into_writer().flushes, 4);
    Ok(())
}

/// The kind of error with which a call failed, if it did.
fn kind_of(done: io::Result<()>) -> Option<ErrorKind> {
    match done {
        Ok(()) => None,
        Err(error) => Some(error.kind()),
    }
}

#[test]
fn a_flush_returns_each_kind_of_error(rt: HostRuntime) {
    for kind in KINDS {
        let mut out = Counting::new(Stuck::with(rt.alloc(), 2, kind));
        same(&rt, kind_of(out.flush()), Some(kind));
        assert!(rt; out.faults() == 0);
        same(&rt, kind_of(out.flush_counted()), Some(kind));
        same(&rt, out.faults(), 1);
    }
}

#[test]
fn a_plain_flush_fails_after_each_count_of_faults(rt: HostRuntime) -> Result<(), Fail> {
    let mut out = Counting::new(Stuck::new(rt.alloc(), usize::MAX));
    for count in 0..1000 {
        assert!(rt; out.faults() == count);
        same(&rt, out.flush().is_ok(), false);
        assert!(rt; out.faults() == count);
        same(&rt, out.flush_counted().is_ok(), false);
    }
    Ok(())
}

#[test]
fn a_flush_that_fails_is_counted(rt: HostRuntime) -> Result<(), Fail> {
    let mut out = Counting::new(Stuck::new(rt.alloc(), 2));
    assert!(rt; out.faults() == 0);
    send_counted(&mut out, b"ab".as_slice())?;
    assert!(rt; out.faults() == 0);
    same(&rt, out.flush_counted().is_ok(), false);
    assert!(rt; out.faults() == 1);
    same(&rt, flush_sent(&mut out), Err(WriteFault));
    assert!(rt; out.faults() == 2);
    same(&rt, out.flush_counted().is_ok(), true);
    same(&rt, out.faults(), 2);
    same(&rt, out.into_writer().flushed, 2);
    Ok(())
}

#[test]
fn a_finished_text_was_flushed(rt: HostRuntime) -> Result<(), Fail> {
    let mut out = Counting::new(Stuck::new(rt.alloc(), 1));
    assert!(rt; out.faults() == 0);
    same(
        &rt,
        send_finished(&mut out, b"ab".as_slice()),
        Err(WriteFault),
    );
    assert!(rt; out.faults() == 1);
    send_finished(&mut out, b"cde".as_slice())?;
    same(&rt, out.faults(), 1);
    let stuck = out.into_writer();
    same(&rt, stuck.taken.as_slice(), b"abcde".as_slice());
    same(&rt, stuck.flushed, 5);
    Ok(())
}
