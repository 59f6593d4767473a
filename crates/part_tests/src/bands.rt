//! Bands: some rows of a surface, moved further down, and written one after another.

use crate::comparing::same;
use canvas::{Canvas, OutOfMemory, WriteFault, write_header};
use mapping::Colour;
use std::io;
use std::io::Write;
use std::test::Fail;

const RED: Colour = Colour { r: 255, g: 0, b: 0 };

const GREY: Colour = Colour { r: 7, g: 8, b: 9 };

/// A writer that accepts some number of bytes, and then none.
#[derive(Drop)]
pub(crate) struct Full {
    pub taken: Vec<u8>,
    pub most: usize,
}

impl Write for Full {
    fn write(&mut self, buf: &[u8]) -> io::Result<usize> {
        let count = buf.len().min(self.most.saturating_sub(self.taken.len()));
        self.taken.extend_from_slice(&buf[..count])?;
        Ok(count)
    }

    fn flush(&mut self) -> io::Result<()> {
        Ok(())
    }
}

#[test]
fn a_band_holds_its_rows(rt: HostRuntime) -> Result<(), Fail> {
    let mut band = Canvas::band(rt.alloc(), 2, 3, 2, GREY)?;
    same(&rt, (band.width(), band.first(), band.rows()), (2, 3, 2));
    same(&rt, (band.most_rows(), band.writes()), (2, 0));
    assert!(rt; !band.has_pixel(0, 2) && !band.has_pixel(0, 5) && !band.has_pixel(2, 3));
    assert!(rt; band.has_pixel(0, 3) && band.has_pixel(1, 4) && band.writes() < 1000);
    band.put(1, 4, RED);
    same(&rt, (band.colour(0, 3), band.colour(1, 4)), (GREY, RED));
    let mut out = Vec::new(rt.alloc());
    band.write_rows(&mut out)?;
    same(
        &rt,
        out.as_slice(),
        b"\x07\x08\x09\x07\x08\x09\x07\x08\x09\xff\x00\x00".as_slice(),
    );
    Ok(())
}

#[test]
fn a_header_and_two_bands_are_the_whole_text(rt: HostRuntime) -> Result<(), Fail> {
    let mut out = Vec::new(rt.alloc());
    write_header(&mut out, 1, 3)?;
    same(&rt, out.as_slice(), b"P6\n1 3\n255\n".as_slice());
    let mut band = Canvas::band(rt.alloc(), 1, 0, 2, RED)?;
    band.write_rows(&mut out)?;
    assert!(rt; band.most_rows() == 2);
    band.again(2, 1, GREY);
    band.write_rows(&mut out)?;
    same(
        &rt,
        out.as_slice(),
        b"P6\n1 3\n255\n\xff\x00\x00\xff\x00\x00\x07\x08\x09".as_slice(),
    );
    Ok(())
}

#[test]
fn a_full_writer_has_a_prefix_of_the_rows(rt: HostRuntime) -> Result<(), Fail> {
    let band = Canvas::band(rt.alloc(), 2, 1, 1, GREY)?;
    for most in 0..6 {
        let mut full = Full {
            taken: Vec::new(rt.alloc()),
            most,
        };
        same(&rt, band.write_rows(&mut full), Err(WriteFault));
        same(
            &rt,
            full.taken.as_slice(),
            &b"\x07\x08\x09\x07\x08\x09"[..most],
        );
    }
    for most in 0..11 {
        let mut full = Full {
            taken: Vec::new(rt.alloc()),
            most,
        };
        same(&rt, write_header(&mut full, 1, 2), Err(WriteFault));
        same(&rt, full.taken.as_slice(), &b"P6\n1 2\n255\n"[..most]);
    }
    Ok(())
}

// tests/crate_tests_growth_test.py runs this once more for each allocation that can fail.
#[test]
fn a_band_under_failed_growth(rt: HostRuntime) -> Result<(), Fail> {
    match Canvas::band(rt.alloc(), 2, 3, 2, GREY) {
        Ok(mut band) => {
            assert!(rt; band.most_rows() == 2);
            band.again(7, 2, RED);
            assert!(rt; band.has_pixel(0, 7) && band.has_pixel(1, 8));
            same(&rt, (band.colour(0, 7), band.colour(1, 8)), (RED, RED));
        }
        Err(error) => same(&rt, error, OutOfMemory),
    }
    Ok(())
}
