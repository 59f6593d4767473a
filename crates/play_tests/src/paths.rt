//! Paths of a machine: the pieces that it lets others borrow, and failed allocations.

use crate::comparing::same;
use crate::stepping::{machine, step};
use dc_stack::MAX_PIECES;
use draw_ops::{Fault, Op, RecordFault};
use mapping::Point;
use meta_headers::open_file;
use std::test::Fail;
use test_support::DOT;

const LINE: Op<'static> = Op::LineTo(Point { x: 1, y: 2 });

#[test]
fn pieces_are_borrowed_until_the_next_accepted_step(rt: HostRuntime) -> Result<(), Fail> {
    let opened = open_file(DOT)?;
    let mut machine = machine(rt.alloc(), &opened);
    for (op, answer, borrowed) in [
        (Op::BeginPath, Ok(false), 0),
        (LINE, Ok(false), 0),
        (Op::EndPath, Ok(false), 0),
        (Op::FillPath, Ok(true), 2),
        (Op::EndPath, Err(Fault::Record(RecordFault::PathState)), 2),
        (Op::NoEffect, Ok(false), 0),
    ] {
        same(&rt, step(&mut machine, op), answer);
        same(&rt, machine.painted().len(), borrowed);
    }
    Ok(())
}

// tests/crate_tests_growth_test.py runs this once more for each allocation that can fail.
#[test]
fn path_steps_under_failed_growth(rt: HostRuntime) -> Result<(), Fail> {
    let opened = open_file(DOT)?;
    let mut machine = machine(rt.alloc(), &opened);
    same(&rt, step(&mut machine, Op::BeginPath), Ok(false));
    for count in 1..100 {
        let before = machine.needs();
        if let Err(fault) = step(&mut machine, LINE) {
            same(&rt, fault, Fault::OutOfMemory);
            same(&rt, machine.needs(), before);
            same(&rt, step(&mut machine, LINE), Ok(false));
        }
        same(&rt, machine.needs().pieces, count + 1);
    }
    Ok(())
}

// tests/crate_tests_growth_test.py runs this once more for each allocation that can fail.
#[test]
fn reserved_path_steps_under_failed_growth(rt: HostRuntime) -> Result<(), Fail> {
    let opened = open_file(DOT)?;
    let mut machine = machine(rt.alloc(), &opened);
    if let Err(fault) = machine.reserve(0, 0, MAX_PIECES) {
        same(&rt, fault, Fault::OutOfMemory);
        machine.reserve(0, 0, MAX_PIECES)?;
    }
    same(&rt, step(&mut machine, Op::BeginPath), Ok(false));
    for _ in 1..MAX_PIECES {
        same(&rt, step(&mut machine, LINE), Ok(false));
    }
    same(
        &rt,
        step(&mut machine, LINE),
        Err(Fault::Record(RecordFault::TooManyPieces)),
    );
    Ok(())
}
