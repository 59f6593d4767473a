//! A machine at the start of a small file, and the results of its steps.

use dc_stack::Machine;
use draw_ops::{Fault, Op};
use mapping::Place;
use meta_headers::Opened;
use object_tables::LowestFree;
use std::alloc::Global;

/// A machine at the start of a file, at 2 by 2.
pub(crate) fn machine<'a>(alloc: Global, opened: &Opened<'a>) -> Machine<'a, LowestFree<'a>> {
    let place = Place::new(&opened.fine_frame, 2, 2);
    Machine::new(alloc, opened, place, LowestFree::new(alloc))
}

/// Whether an operation draws, or its fault. A test says nothing about its contract, so that many steps are proved as
/// fast as one.
pub(crate) fn step<'a>(
    machine: &mut Machine<'a, LowestFree<'a>>,
    op: Op<'a>,
) -> Result<bool, Fault> {
    match machine.step(op) {
        Ok(drawn) => Ok(drawn.is_some()),
        Err(fault) => Err(fault),
    }
}
