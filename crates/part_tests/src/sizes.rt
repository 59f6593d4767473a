//! Allocations of many sizes: if there is memory, none fails.

use canvas::Canvas;
use mapping::Colour;
use object_tables::{Given, LowestFree, Table};
use span_fill::{OutOfMemory, RowBuf};
use std::alloc::Global;

/// Powers of two above the counts that are tried one by one, and their neighbours. No count of lines exceeds 2^20.
const OUTSIDE_POWERS: [usize; 14] = [
    65535, 65536, 65537, 131071, 131072, 131073, 262143, 262144, 262145, 524287, 524288, 524289,
    1048575, 1048576,
];

/// Whether a surface of this size can be made.
fn is_canvas(alloc: Global, width: u32, height: u32) -> bool {
    if width == 0 || 8192 < width || height == 0 || 8192 < height {
        return false;
    }
    Canvas::new(alloc, width, height, Colour::WHITE).is_ok()
}

/// Whether a row buffer for this many lines can be made.
fn has_rows(alloc: Global, lines: usize) -> bool {
    if 1_048_576 < lines {
        return false;
    }
    RowBuf::new(alloc).reserve(lines).is_ok()
}

/// Whether a row buffer for this many lines can be extended to one more, to twice as many and to many more.
fn gets_more(alloc: Global, lines: usize) -> bool {
    if 100_000 < lines {
        return false;
    }
    let mut rows = RowBuf::new(alloc);
    rows.reserve(lines).is_ok()
        && rows.reserve(lines + 1).is_ok()
        && rows.reserve(2 * lines).is_ok()
        && rows.reserve(2 * lines + 1_000).is_ok()
}

/// Whether tables of both kinds can be made for this many objects.
fn has_tables(alloc: Global, slots: usize) -> bool {
    let handles = u16::try_from(slots).unwrap_or(u16::MAX);
    LowestFree::new(alloc).reserve(slots).is_ok()
        && Given::new(alloc, handles).reserve(slots).is_ok()
}

#[test]
fn a_canvas_has_each_width_and_each_height(rt: HostRuntime) {
    for side in 1..8193 {
        assert!(rt; is_canvas(rt.alloc(), side, 1), "{side} by 1");
        assert!(rt; is_canvas(rt.alloc(), 1, side), "1 by {side}");
        assert!(rt; is_canvas(rt.alloc(), side, 2), "{side} by 2");
        assert!(rt; is_canvas(rt.alloc(), 3, side), "3 by {side}");
    }
}

#[test]
fn a_canvas_has_each_two_small_dimensions(rt: HostRuntime) {
    for area in 0..10_000 {
        let width = area % 100 + 1;
        let height = area / 100 + 1;
        assert!(rt; is_canvas(rt.alloc(), width, height), "{width} by {height}");
    }
}

#[test]
fn rows_have_capacity_for_each_count_of_lines(rt: HostRuntime) {
    for lines in 0..40_001 {
        assert!(rt; has_rows(rt.alloc(), lines), "{lines}");
    }
    for part in 0..1025 {
        assert!(rt; has_rows(rt.alloc(), 1023 * part), "{part}");
        assert!(rt; has_rows(rt.alloc(), 1000 * part), "{part}");
    }
    for lines in OUTSIDE_POWERS {
        assert!(rt; has_rows(rt.alloc(), lines), "{lines}");
    }
}

#[test]
fn tables_have_capacity_for_each_count_of_objects(rt: HostRuntime) {
    for slots in 0..65_537 {
        assert!(rt; has_tables(rt.alloc(), slots), "{slots}");
    }
}

#[test]
fn rows_that_have_capacity_get_more(rt: HostRuntime) -> Result<(), OutOfMemory> {
    let mut rows = RowBuf::new(rt.alloc());
    for lines in 0..10_001 {
        rows.reserve(lines)?;
    }
    for lines in 0..1_001 {
        assert!(rt; gets_more(rt.alloc(), lines), "{lines}");
    }
    Ok(())
}
