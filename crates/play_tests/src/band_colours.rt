//! A surface shown in bands from each colour.

use mapping::Colour;
use player::play_bands;
use preflight_cert::check;
use std::alloc::Global;
use test_support::{TRI, TRI_CERT};

/// Whether the polygon is shown over a colour, in bands of so many rows: its 16 pixels are black, or one of them white, and there the colour
/// is in three places.
fn is_over(alloc: Global, start: Colour, rows: u32) -> bool {
    let Ok(cleared) = check(alloc, TRI, TRI_CERT) else {
        return false;
    };
    if rows == 0 {
        return false;
    }
    let mut text = Vec::new(alloc);
    let played = play_bands(alloc, &cleared, 4, 4, start, rows, &mut text);
    let last = text.as_slice().get(56..);
    played == Ok(16) && text.len() == 59 && last == Some([start.r, start.g, start.b].as_slice())
}

#[test]
fn bands_begin_with_each_colour(rt: HostRuntime) {
    for part in 0..=255u8 {
        for rows in [1, 3, 4] {
            let red = Colour {
                r: part,
                g: 0,
                b: 1,
            };
            let green = Colour {
                r: 255,
                g: part,
                b: 255,
            };
            let blue = Colour {
                r: 7,
                g: 8,
                b: part,
            };
            assert!(rt; is_over(rt.alloc(), red, rows), "red {part}");
            assert!(rt; is_over(rt.alloc(), green, rows), "green {part}");
            assert!(rt; is_over(rt.alloc(), blue, rows), "blue {part}");
        }
    }
}
