//! Reading P6 texts: errors, and failed allocations.

use crate::comparing::same;
use canvas::{Canvas, ImageError};
use mapping::Colour;
use std::test::Fail;

#[test]
fn errors_display_their_names(rt: HostRuntime) -> Result<(), Fail> {
    let bad = format!(in rt.alloc(); "{}", ImageError::BadImage)?;
    same(&rt, bad.as_str(), "BadImage");
    let memory = format!(in rt.alloc(); "{}", ImageError::OutOfMemory)?;
    same(&rt, memory.as_str(), "OutOfMemory");
    Ok(())
}

// tests/crate_tests_growth_test.py runs this once more for each allocation that can fail.
#[test]
fn an_image_under_failed_growth(rt: HostRuntime) -> Result<(), Fail> {
    match Canvas::from_ppm(rt.alloc(), b"P6 1 2 255 abcdef".as_slice()) {
        Ok(canvas) => {
            assert!(rt; canvas.has_pixel(0, 0) && canvas.has_pixel(0, 1));
            let (a, d) = (
                Colour {
                    r: 97,
                    g: 98,
                    b: 99,
                },
                Colour {
                    r: 100,
                    g: 101,
                    b: 102,
                },
            );
            same(&rt, (canvas.colour(0, 0), canvas.colour(0, 1)), (a, d));
        }
        Err(error) => same(&rt, error, ImageError::OutOfMemory),
    }
    Ok(())
}
