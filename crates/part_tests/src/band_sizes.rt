//! Bands of every first row and every number of rows, and surfaces of every colour: if there is memory, each can be
//! made.

use canvas::Canvas;
use mapping::Colour;
use std::alloc::Global;

/// Whether the canvas has this pixel, in this colour.
fn shows(canvas: &Canvas, x: u32, y: u32, colour: Colour) -> bool {
    canvas.has_pixel(x, y) && canvas.colour(x, y) == colour
}

/// Whether a band of these rows can be made, and shows the colour in its first and last pixels.
fn is_band(alloc: Global, width: u32, first: u32, rows: u32, colour: Colour) -> bool {
    if width == 0 || 8192 < width || rows == 0 || 8192 < rows || 8192 - rows < first {
        return false;
    }
    match Canvas::band(alloc, width, first, rows, colour) {
        Ok(band) => {
            shows(&band, 0, first, colour) && shows(&band, width - 1, first + rows - 1, colour)
        }
        Err(_) => false,
    }
}

/// Whether a surface of three by two pixels can be made in a colour.
fn is_coloured(alloc: Global, r: u8, g: u8, b: u8) -> bool {
    is_band(alloc, 3, 0, 2, Colour { r, g, b })
}

const GREY: Colour = Colour { r: 7, g: 8, b: 9 };

#[test]
fn a_band_begins_at_each_row(rt: HostRuntime) {
    for first in 0..8192 {
        assert!(rt; is_band(rt.alloc(), 7, first, 1, GREY), "from {first}");
        assert!(rt;
            is_band(rt.alloc(), 1, first, 8192 - first, Colour::WHITE),
            "from {first}"
        );
    }
}

#[test]
fn a_band_has_each_count_of_rows(rt: HostRuntime) {
    for rows in 1..8193 {
        assert!(rt;
            is_band(rt.alloc(), 2, 0, rows, Colour::WHITE),
            "{rows} rows"
        );
        assert!(rt;
            is_band(rt.alloc(), 3, 8192 - rows, rows, GREY),
            "{rows} rows"
        );
        assert!(rt; is_band(rt.alloc(), rows, 5, 2, GREY), "{rows} columns");
    }
}

#[test]
fn a_surface_has_each_colour(rt: HostRuntime) {
    for part in 0..=255u8 {
        assert!(rt; is_coloured(rt.alloc(), part, 255, 255), "red {part}");
        assert!(rt; is_coloured(rt.alloc(), 255, part, 255), "green {part}");
        assert!(rt; is_coloured(rt.alloc(), 255, 255, part), "blue {part}");
        assert!(rt; is_coloured(rt.alloc(), part, part, part), "grey {part}");
        assert!(rt; is_coloured(rt.alloc(), 0, part, 7), "{part}");
    }
}
