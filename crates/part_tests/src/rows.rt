//! Rows of spans: their capacity for lines, and failed allocations.

use crate::comparing::same;
use span_fill::{OutOfMemory, RowBuf};
use std::test::Fail;

// tests/crate_tests_growth_test.py runs this once more for each allocation that can fail. After a failure the buffer is
// unchanged, and a second call allocates the memory.
#[test]
fn capacity_is_reserved_under_failed_growth(rt: HostRuntime) -> Result<(), Fail> {
    let mut rows = RowBuf::new(rt.alloc());
    same(&rt, rows.reserve(0), Ok(()));
    if rows.reserve(4) == Err(OutOfMemory) {
        assert!(rt; rows.spans().is_empty());
        same(&rt, rows.reserve(4), Ok(()));
    }
    same(&rt, rows.reserve(3), Ok(()));
    if rows.reserve(1 << 20) == Err(OutOfMemory) {
        assert!(rt; rows.spans().is_empty());
        same(&rt, rows.reserve(1 << 20), Ok(()));
    }
    same(&rt, rows.reserve(1_000_000), Ok(()));
    Ok(())
}
