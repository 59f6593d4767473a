//! Tables of objects under failed allocations.

use crate::comparing::same;
use draw_ops::{Fault, Handle, Object, RecordFault};
use object_tables::{Given, LowestFree, Table};
use std::test::Fail;

const FONT: Object<'static> = Object::Font;

// tests/crate_tests_growth_test.py runs this once more for each allocation that can fail.
#[test]
fn a_create_under_failed_growth(rt: HostRuntime) -> Result<(), Fail> {
    let mut table = LowestFree::new(rt.alloc());
    for index in 0..100 {
        let mut made = table.create(None, FONT);
        if made == Err(Fault::OutOfMemory) {
            same(
                &rt,
                table.get(Handle(index)),
                Err(RecordFault::NoSuchHandle),
            );
            if index > 0 {
                same(&rt, table.get(Handle(index - 1)), Ok(FONT));
            }
            made = table.create(None, FONT);
        }
        same(&rt, made, Ok(Handle(index)));
    }
    Ok(())
}

// tests/crate_tests_growth_test.py runs this once more for each allocation that can fail.
#[test]
fn a_given_index_under_failed_growth(rt: HostRuntime) -> Result<(), Fail> {
    let mut table = Given::new(rt.alloc(), 1000);
    for index in [2, 900, 1, 999] {
        let at = Handle(index);
        let mut made = table.create(Some(at), FONT);
        if made == Err(Fault::OutOfMemory) {
            same(&rt, table.get(at), Err(RecordFault::NoSuchHandle));
            made = table.create(Some(at), FONT);
        }
        same(&rt, made, Ok(at));
        same(&rt, table.get(Handle(2)), Ok(FONT));
    }
    Ok(())
}

// tests/crate_tests_growth_test.py runs this once more for each allocation that can fail.
#[test]
fn a_reserve_under_failed_growth(rt: HostRuntime) -> Result<(), Fail> {
    let mut table = Given::new(rt.alloc(), 500);
    if let Err(fault) = table.reserve(500) {
        same(&rt, fault, Fault::OutOfMemory);
        same(&rt, table.reserve(500), Ok(()));
    }
    for index in [499, 1, 250] {
        same(
            &rt,
            table.create(Some(Handle(index)), FONT),
            Ok(Handle(index)),
        );
    }
    Ok(())
}
