//! Machines under failed allocations.

use crate::comparing::same;
use crate::stepping::{machine, step};
use draw_ops::{Fault, Object, Op};
use meta_headers::open_file;
use std::test::Fail;
use test_support::DOT;

const FONT: Op<'static> = Op::Create {
    at: None,
    object: Object::Font,
};

// tests/crate_tests_growth_test.py runs this once more for each allocation that can fail. After a failure, the machine is
// as it was before the step.
#[test]
fn steps_under_failed_growth(rt: HostRuntime) -> Result<(), Fail> {
    let opened = open_file(DOT)?;
    let mut machine = machine(rt.alloc(), &opened);
    for count in 1..100 {
        for op in [FONT, Op::Save] {
            let before = machine.needs();
            if let Err(fault) = step(&mut machine, op) {
                same(&rt, fault, Fault::OutOfMemory);
                same(&rt, machine.needs(), before);
                same(&rt, step(&mut machine, op), Ok(false));
            }
        }
        let needs = machine.needs();
        assert!(rt; needs.depth == count && needs.slots == count);
    }
    Ok(())
}

// tests/crate_tests_growth_test.py runs this once more for each allocation that can fail.
#[test]
fn reserved_steps_under_failed_growth(rt: HostRuntime) -> Result<(), Fail> {
    let opened = open_file(DOT)?;
    let mut machine = machine(rt.alloc(), &opened);
    if let Err(fault) = machine.reserve(100, 100, 0) {
        same(&rt, fault, Fault::OutOfMemory);
        machine.reserve(100, 100, 0)?;
    }
    for _ in 0..100 {
        same(&rt, step(&mut machine, FONT), Ok(false));
        same(&rt, step(&mut machine, Op::Save), Ok(false));
    }
    Ok(())
}
