//! Eight repeating colours.

ghost use Rattle.std.specs.Prelude.{◌≡◌, ◌==◌, ℕ, ◌%◌, ◌<◌, slice_index_or, if◌then◌else◌};
ghost use Rattle.std.specs.Int.{bit_at};
ghost use Rattle.mapping.specs.Pixels.{is_cell};
ghost use Rattle.mapping.specs.declared.geometry.Colour.{Colour};

use mapping::Colour;

/// Eight colours: at index `i`, `colour` if bit `i` of `cells` is 1, otherwise `gaps`.
pub fn pattern(cells: u8, colour: Colour, gaps: Colour) -> [Colour; 8]
    ensures { (x : ℕ) (old : Colour) → slice_index_or result (x % 8) old ≡ (if is_cell cells x then colour else gaps) }
{
    let mut colours = [gaps; 8];
    for i in 0..8 {
        colours[i] = cell_colour(cells, i, colour, gaps);
    }
    colours
}

/// The colour of one of the eight.
fn cell_colour(cells: u8, i: usize, colour: Colour, gaps: Colour) -> Colour
    requires { i < 8 }
    ensures { result ≡ (if bit_at cells i == 1 then colour else gaps) }
{
    if cells >> i & 1 == 1 { colour } else { gaps }
}
