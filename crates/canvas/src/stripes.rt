//! Eight repeating colours.

ghost use Rattle.std.specs.Prelude.{◌≡◌, ◌+◌, ◌<◌, ◌≤◌, ℕ, length, slice_index_or};
ghost use Rattle.mapping.specs.declared.geometry.Colour.{Colour};
ghost use Rattle.canvas.specs.PartsMade.{EachIs};

use mapping::Colour;

/// Eight colours for filling spans, each at its column modulo 8. They are held twice, so that the eight from any column
/// on can be copied at once. They are made once for all spans, because copying them immediately after making them would
/// cause a stall.
///
/// # Guarantees
///
/// - The second eight are the first eight.
#[derive(Clone, Copy, Debug)]
pub struct Stripes {
    pub twice: [Colour; 16],
    pub ghost same: { (k : ℕ) (d : Colour) → k < 8 → slice_index_or twice (k + 8) d ≡ slice_index_or twice k d },
}

impl Stripes {
    /// The stripes of these colours, the first of which is for column 0.
    pub fn new(colours: &[Colour; 8]) -> Stripes
        ensures { (k : ℕ) (d : Colour) → k < 8 → slice_index_or result.twice k d ≡ slice_index_or colours.now k d }
    {
        let mut twice = [colours[0]; 16];
        twice[..8].copy_from_slice(colours);
        twice[8..].copy_from_slice(colours);
        Stripes { twice }
    }

    /// The eight colours from this column on.
    pub(crate) fn eight_from(&self, column: usize) -> &[Colour; 8]
        requires { column < 8 }
        ensures { EachIs 8 result.now (λ k any. slice_index_or self.now.twice (column + k) any) }
    {
        self.twice[column..].first_chunk().unwrap()
    }
}
