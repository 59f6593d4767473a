//! Canvases of every number of colours, up to that of a band of 128 rows on the widest surface: if there is memory, each
//! can be made.

use canvas::Canvas;
use mapping::Colour;
use std::alloc::Global;

/// The parts of 128 rows of the widest surface.
const MOST_PARTS: u32 = 16_512;

/// The number of parts that each row has on a canvas of this many parts. A row has room for an odd number of them, up
/// to 129.
fn parts_of_row(parts: u32) -> u32 {
    let mut found = 1;
    for half in 1..65 {
        let row = 2 * half + 1;
        if parts % row == 0 {
            found = row;
        }
    }
    found
}

/// Whether a canvas can be made of this many parts of 64 colours. There is none if its rows would be too many.
fn has_parts(alloc: Global, parts: u32) -> bool {
    let row = parts_of_row(parts);
    if row == 0 {
        return false;
    }
    let width = row.wrapping_mul(64).wrapping_sub(64).max(1);
    let rows = parts / row;
    if width == 0 || 8192 < width || rows == 0 || 8192 < rows {
        return 8192 < rows;
    }
    Canvas::band(alloc, width, 0, rows, Colour::WHITE).is_ok()
}

#[test]
fn a_canvas_has_each_number_of_colours(rt: HostRuntime) {
    for parts in 1..MOST_PARTS + 1 {
        assert!(rt; has_parts(rt.alloc(), parts), "{parts}");
    }
}
