//! Changes to the colours of a part of a row.

ghost use Rattle.std.specs.Prelude.{◌≡◌, ℕ, length, slice_index_or};
ghost use Rattle.mapping.specs.declared.geometry.Colour.{Colour};
ghost use Rattle.mapping.specs.Mixes.{mixed_by};
ghost use Rattle.canvas.specs.PartsMade.{EachIs};

use crate::parts::{fill_with, mix_all};
use crate::splat::Splat;
use mapping::{Colour, Mix};

/// A change to the pixels of a part of a row.
pub(crate) trait PartChange {
    /// The new colour of a pixel, from its old one.
    ghost made: { Self → Colour → Colour };

    /// Changes each colour of the part.
    fn change(&self, part: &mut [Colour])
        ensures { EachIs (length part.old) part.new (λ k any. made self.now (slice_index_or part.old k any)) };
}

/// The swatch's colour replaces every other.
impl PartChange for Splat {
    ghost made = { λ splat old. splat.colour };

    fn change(&self, part: &mut [Colour]) {
        fill_with(part, self);
    }
}

impl PartChange for Mix {
    ghost made = { λ mix old. mixed_by mix old };

    fn change(&self, part: &mut [Colour]) {
        mix_all(part, *self);
    }
}
