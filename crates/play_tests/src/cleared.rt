//! Playing files by certificate on a surface that exceeds the bound, again and again on one canvas, and while memory
//! fails.

ghost use Rattle.mapping.specs.Limits.{IsSurfaceSide};

use crate::comparing::{BLUE, colour, same};
use canvas::Canvas;
use draw_ops::Fault;
use mapping::Colour;
use player::play;
use preflight_cert::{Refusal, check, prepare};
use std::alloc::Global;
use std::test::Fail;
use test_support::{DOT, DOT_CERT, RED, TRI, TRI_CERT};

#[test]
fn a_surface_above_the_bound_is_left_as_it_is(rt: HostRuntime) -> Result<(), Fail> {
    let cleared = check(rt.alloc(), TRI, TRI_CERT)?;
    for (width, height) in [(5, 4), (4, 5), (8192, 1)] {
        let mut canvas = Canvas::new(rt.alloc(), width, height, BLUE)?;
        let rejected = Err(Fault::SurfaceTooLarge);
        same(&rt, play(rt.alloc(), &cleared, &mut canvas), rejected);
        same(&rt, canvas.writes(), 0);
        same(&rt, colour(&canvas, 0, 0), Some(BLUE));
    }
    Ok(())
}

#[test]
fn a_canvas_counts_on(rt: HostRuntime) -> Result<(), Fail> {
    let cleared = check(rt.alloc(), DOT, DOT_CERT)?;
    let mut canvas = Canvas::new(rt.alloc(), 4, 4, BLUE)?;
    for played in 1..4 {
        if canvas.first() != 0 || canvas.writes() > 1000 {
            return Err("the canvas of a test is whole and new".into());
        }
        same(&rt, play(rt.alloc(), &cleared, &mut canvas), Ok(1));
        same(&rt, canvas.writes(), played);
    }
    Ok(())
}

/// Prepares a file at the size of a surface, checks its certificate, and plays it on white.
fn play_white(alloc: Global, file: &[u8], width: u32, height: u32) -> Result<Canvas, Refusal>
    requires wide { IsSurfaceSide width }
    requires high { IsSurfaceSide height }
{
    let certificate = prepare(alloc, file, width, height)?;
    let cleared = check(alloc, file, certificate.as_slice())?;
    let Ok(mut canvas) = Canvas::new(alloc, width, height, Colour::WHITE) else {
        return Err(Refusal::of_file(Fault::OutOfMemory));
    };
    match play(alloc, &cleared, &mut canvas) {
        Ok(_) => Ok(canvas),
        Err(fault) => Err(Refusal::of_file(fault)),
    }
}

// tests/crate_tests_growth_test.py runs this once more for each allocation that can fail.
#[test]
fn a_dot_under_failed_growth(rt: HostRuntime) -> Result<(), Fail> {
    match play_white(rt.alloc(), DOT, 4, 4) {
        Ok(canvas) => {
            same(&rt, canvas.writes(), 1);
            same(&rt, colour(&canvas, 2, 1), Some(RED));
        }
        Err(refusal) => {
            let want = Refusal {
                number: None,
                fault: Fault::OutOfMemory,
            };
            same(&rt, refusal, want);
        }
    }
    Ok(())
}
