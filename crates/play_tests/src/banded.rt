//! Playing files by certificate in bands, with the texts worked by hand.

use crate::comparing::{BLUE, same};
use canvas::{Counting, FaultCount};
use draw_ops::Fault;
use player::{play_bands, play_bands_to};
use preflight_cert::check;
use std::io;
use std::io::Write;
use std::test::Fail;
use test_support::{TRI, TRI_CERT};

/// The polygon over blue at 4 by 4: black, but (1,1) white, and (2,1), (1,2), (3,2), (2,3) and (3,3) blue.
const TEXT: &[u8; 59] = b"P6\n4 4\n255\n\
    \0\0\0\0\0\0\0\0\0\0\0\0\
    \0\0\0\xff\xff\xff\0\0\xff\0\0\0\
    \0\0\0\0\0\xff\0\0\0\0\0\xff\
    \0\0\0\0\0\0\0\0\xff\0\0\xff";

/// A writer that accepts some number of bytes, and then none.
#[derive(Drop)]
struct Full {
    taken: Vec<u8>,
    most: usize,
}

impl Write for Full {
    fn write(&mut self, buf: &[u8]) -> io::Result<usize> {
        let count = buf.len().min(self.most.saturating_sub(self.taken.len()));
        self.taken.extend_from_slice(&buf[..count])?;
        Ok(count)
    }

    fn flush(&mut self) -> io::Result<()> {
        Ok(())
    }
}

#[test]
fn a_polygon_has_one_text_in_bands_of_any_height(rt: HostRuntime) -> Result<(), Fail> {
    let cleared = check(rt.alloc(), TRI, TRI_CERT)?;
    for rows in [1, 2, 3, 4, 5, u32::MAX] {
        let mut out = Vec::new(rt.alloc());
        let played = play_bands(rt.alloc(), &cleared, 4, 4, BLUE, rows, &mut out);
        same(&rt, (rows, played), (rows, Ok(16)));
        same(&rt, out.as_slice(), TEXT.as_slice());
    }
    Ok(())
}

#[test]
fn a_surface_above_the_bound_has_no_text(rt: HostRuntime) -> Result<(), Fail> {
    let cleared = check(rt.alloc(), TRI, TRI_CERT)?;
    for (width, height) in [(5, 4), (4, 5), (u32::MAX, u32::MAX)] {
        let mut out = Vec::new(rt.alloc());
        let played = play_bands(rt.alloc(), &cleared, width, height, BLUE, 1, &mut out);
        same(&rt, played, Err(Fault::SurfaceTooLarge));
        assert!(rt; out.is_empty());
    }
    Ok(())
}

#[test]
fn an_output_that_is_full_has_a_prefix_of_the_text(rt: HostRuntime) -> Result<(), Fail> {
    let cleared = check(rt.alloc(), TRI, TRI_CERT)?;
    // The header has 11 bytes, and each row has 12: the output is full in the header, and in each band.
    for capacity in 0..59usize {
        for rows in [1, 3] {
            let mut out = [0xa5u8; 64];
            let mut prefix = &mut out[..capacity];
            let played = play_bands(rt.alloc(), &cleared, 4, 4, BLUE, rows, &mut prefix);
            same(&rt, (capacity, played), (capacity, Err(Fault::WriteFault)));
            same(&rt, &out[..capacity], &TEXT[..capacity]);
            same(&rt, out[capacity], 0xa5);
        }
    }
    Ok(())
}

#[test]
fn a_writer_that_counts_has_one_fault_where_it_is_full(rt: HostRuntime) -> Result<(), Fail> {
    let cleared = check(rt.alloc(), TRI, TRI_CERT)?;
    // Full in the header, after it, in each of the four rows and after each, and never.
    for most in [0, 10, 11, 22, 23, 34, 35, 46, 47, 58, 59] {
        let taken = Vec::new(rt.alloc());
        let mut out = Counting::new(Full { taken, most });
        assert!(rt; out.faults() == 0);
        let played = play_bands_to(rt.alloc(), &cleared, 4, 4, BLUE, 1, &mut out);
        let (want, faults) = if most < 59 {
            (Err(Fault::WriteFault), 1)
        } else {
            (Ok(16), 0)
        };
        same(&rt, (most, played), (most, want));
        same(&rt, (most, out.faults()), (most, faults));
        same(&rt, out.into_writer().taken.as_slice(), &TEXT[..most]);
    }
    Ok(())
}

// tests/crate_tests_growth_test.py runs this once more for each allocation that can fail.
#[test]
fn bands_under_failed_growth(rt: HostRuntime) -> Result<(), Fail> {
    let Ok(cleared) = check(rt.alloc(), TRI, TRI_CERT) else {
        return Ok(());
    };
    let mut out = [0xa5u8; 59];
    match play_bands(rt.alloc(), &cleared, 4, 4, BLUE, 2, &mut out.as_mut_slice()) {
        Ok(writes) => {
            same(&rt, writes, 16);
            same(&rt, out.as_slice(), TEXT.as_slice());
        }
        Err(fault) => {
            same(&rt, fault, Fault::OutOfMemory);
            same(&rt, out[0], 0xa5);
        }
    }
    Ok(())
}
