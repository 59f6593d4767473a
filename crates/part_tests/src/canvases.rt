//! Canvases, and their P6 texts to writers that are slow or fail.

use crate::comparing::same;
use canvas::{Canvas, OutOfMemory, WriteFault};
use mapping::Colour;
use std::io;
use std::io::{ErrorKind, Write};
use std::test::Fail;

const RED: Colour = Colour { r: 255, g: 0, b: 0 };

/// A writer that accepts a few bytes per call, is interrupted at every other call, and fails after some number of
/// bytes.
#[derive(Drop)]
pub(crate) struct Slow {
    pub taken: Vec<u8>,
    a_call: usize,
    most: usize,
    rested: bool,
}

impl Slow {
    pub(crate) fn new(taken: Vec<u8>, a_call: usize, most: usize) -> Slow {
        Slow {
            taken,
            a_call,
            most,
            rested: false,
        }
    }
}

impl Write for Slow {
    fn write(&mut self, buf: &[u8]) -> io::Result<usize> {
        self.rested = !self.rested;
        if self.rested {
            return Err(io::Error::from(ErrorKind::Interrupted));
        }
        let capacity = self.most.saturating_sub(self.taken.len());
        if capacity == 0 {
            return Err(io::Error::from(ErrorKind::StorageFull));
        }
        let count = buf.len().min(self.a_call).min(capacity);
        self.taken.extend_from_slice(&buf[..count])?;
        Ok(count)
    }

    fn flush(&mut self) -> io::Result<()> {
        Ok(())
    }
}

/// A writer that records how many bytes each call brings.
#[derive(Drop)]
struct Pieces {
    lengths: Vec<usize>,
}

impl Write for Pieces {
    fn write(&mut self, buf: &[u8]) -> io::Result<usize> {
        self.lengths.push(buf.len())?;
        Ok(buf.len())
    }

    fn flush(&mut self) -> io::Result<()> {
        Ok(())
    }
}

#[test]
fn a_write_changes_one_pixel_and_counts_once(rt: HostRuntime) -> Result<(), Fail> {
    let mut canvas = Canvas::new(rt.alloc(), 3, 2, Colour::WHITE)?;
    same(&rt, canvas.writes(), 0);
    for (x, y) in [(2, 1), (0, 1), (2, 1)] {
        assert!(rt; canvas.has_pixel(x, y) && canvas.writes() < 1000);
        canvas.put(x, y, RED);
    }
    same(&rt, canvas.writes(), 3);
    for (x, y, want) in [
        (0, 0, Colour::WHITE),
        (2, 0, Colour::WHITE),
        (0, 1, RED),
        (1, 1, Colour::WHITE),
        (2, 1, RED),
    ] {
        assert!(rt; canvas.has_pixel(x, y));
        same(&rt, (x, y, canvas.colour(x, y)), (x, y, want));
    }
    assert!(rt; !canvas.has_pixel(3, 0) && !canvas.has_pixel(0, 2));
    same(
        &rt,
        (canvas.width(), canvas.first(), canvas.rows()),
        (3, 0, 2),
    );
    Ok(())
}

#[test]
fn a_slow_writer_gets_the_same_text(rt: HostRuntime) -> Result<(), Fail> {
    let canvas = Canvas::new(rt.alloc(), 7, 3, RED)?;
    let mut whole = Vec::new(rt.alloc());
    canvas.write_ppm(&mut whole)?;
    same(&rt, whole.len(), 11 + 63);
    for a_call in [1, 2, 5] {
        let mut slow = Slow::new(Vec::new(rt.alloc()), a_call, 1000);
        canvas.write_ppm(&mut slow)?;
        same(
            &rt,
            (a_call, slow.taken.as_slice()),
            (a_call, whole.as_slice()),
        );
    }
    Ok(())
}

#[test]
fn a_writer_that_fails_has_a_prefix_of_the_text(rt: HostRuntime) -> Result<(), Fail> {
    let canvas = Canvas::new(rt.alloc(), 2, 2, RED)?;
    let mut whole = Vec::new(rt.alloc());
    canvas.write_ppm(&mut whole)?;
    same(&rt, whole.len(), 23);
    for most in 0..23 {
        let mut slow = Slow::new(Vec::new(rt.alloc()), 4, most);
        same(
            &rt,
            (most, canvas.write_ppm(&mut slow)),
            (most, Err(WriteFault)),
        );
        same(&rt, slow.taken.len(), most);
        assert!(rt; whole.starts_with(slow.taken.as_slice()));
    }
    // A writer that accepts no byte without failing is a fault too.
    let mut idle = Slow::new(Vec::new(rt.alloc()), 0, 1000);
    same(&rt, canvas.write_ppm(&mut idle), Err(WriteFault));
    Ok(())
}

#[test]
fn a_large_text_goes_out_in_large_pieces(rt: HostRuntime) -> Result<(), Fail> {
    let canvas = Canvas::new(rt.alloc(), 1, 8192, RED)?;
    let mut pieces = Pieces {
        lengths: Vec::new(rt.alloc()),
    };
    canvas.write_ppm(&mut pieces)?;
    // The header "P6\n1 8192\n255\n" is written with the first 4,096 pixels.
    same(
        &rt,
        pieces.lengths.as_slice(),
        [14 + 12288, 12288].as_slice(),
    );
    Ok(())
}

#[test]
fn the_faults_show_their_names(rt: HostRuntime) -> Result<(), Fail> {
    let memory = format!(in rt.alloc(); "{OutOfMemory}")?;
    same(&rt, memory.as_str(), "OutOfMemory");
    let writer = format!(in rt.alloc(); "{WriteFault}")?;
    same(&rt, writer.as_str(), "WriteFault");
    Ok(())
}

#[test]
fn a_large_piece_goes_out_byte_by_byte(rt: HostRuntime) -> Result<(), Fail> {
    let canvas = Canvas::new(rt.alloc(), 100, 41, RED)?;
    let mut out = Slow::new(Vec::new(rt.alloc()), 1, usize::MAX);
    canvas.write_ppm(&mut out)?;
    // The header has 14 bytes, and each of the 4,100 pixels has 3.
    same(&rt, out.taken.len(), 12314);
    Ok(())
}

// tests/crate_tests_growth_test.py runs this once more for each allocation that can fail.
#[test]
fn a_canvas_under_failed_growth(rt: HostRuntime) -> Result<(), Fail> {
    match Canvas::new(rt.alloc(), 2, 3, RED) {
        Ok(canvas) => {
            for (x, y) in [(0, 0), (1, 0), (0, 1), (1, 1), (0, 2), (1, 2)] {
                assert!(rt; canvas.has_pixel(x, y), "{x} {y}");
                same(&rt, (x, y, canvas.colour(x, y)), (x, y, RED));
            }
            same(&rt, canvas.writes(), 0);
        }
        Err(error) => same(&rt, error, OutOfMemory),
    }
    Ok(())
}
