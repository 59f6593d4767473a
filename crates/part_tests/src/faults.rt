//! How faults are shown to users.

use crate::comparing::same;
use draw_ops::{Fault, RecordFault};
use std::test::Fail;

#[test]
fn a_fault_shows_its_name_and_the_record_that_it_speaks_of(rt: HostRuntime) -> Result<(), Fail> {
    for (fault, code, name, text) in [
        (Fault::TooLong, 1, "TooLong", "TooLong"),
        (
            Fault::Record(RecordFault::UnknownRecord(2457)),
            14,
            "UnknownRecord",
            "UnknownRecord 2457",
        ),
        (
            Fault::Record(RecordFault::Unsupported(2610)),
            15,
            "Unsupported",
            "Unsupported 2610",
        ),
        (
            Fault::Record(RecordFault::HeldObject),
            27,
            "HeldObject",
            "HeldObject",
        ),
        (
            Fault::Record(RecordFault::BoxTooSmall),
            39,
            "BoxTooSmall",
            "BoxTooSmall",
        ),
        (
            Fault::BudgetTooSmall,
            41,
            "BudgetTooSmall",
            "BudgetTooSmall",
        ),
        (Fault::OutOfMemory, 45, "OutOfMemory", "OutOfMemory"),
        (
            Fault::Record(RecordFault::NibTooWide),
            46,
            "NibTooWide",
            "NibTooWide",
        ),
        (
            Fault::Record(RecordFault::NibTooSmall),
            47,
            "NibTooSmall",
            "NibTooSmall",
        ),
        (
            Fault::Record(RecordFault::EmfPlusAlone),
            48,
            "EmfPlusAlone",
            "EmfPlusAlone",
        ),
    ] {
        same(&rt, fault.code(), code);
        same(&rt, fault.name(), name);
        let shown = format!(in rt.alloc(); "{fault}")?;
        same(&rt, shown.as_str(), text);
    }
    same(
        &rt,
        Fault::Record(RecordFault::Unsupported(2610)).number(),
        Some(2610),
    );
    same(
        &rt,
        Fault::Record(RecordFault::UnknownRecord(0)).number(),
        Some(0),
    );
    same(&rt, Fault::Record(RecordFault::NoEnd).number(), None);
    Ok(())
}
