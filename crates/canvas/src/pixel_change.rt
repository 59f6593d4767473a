//! Changes to a pixel's colour.

ghost use Rattle.std.specs.Prelude.{◌≡◌};
ghost use Rattle.mapping.specs.declared.geometry.Colour.{Colour};
ghost use Rattle.mapping.specs.Mixes.{mixed_by};

use mapping::{Colour, Mix};

/// A change to a pixel.
pub(crate) trait PixelChange: Copy {
    /// The new colour, from the old one.
    ghost made: { Self → Colour → Colour };

    /// The new colour of a pixel with this old one.
    fn of(self, old: Colour) -> Colour
        ensures { result ≡ made self old };
}

/// A colour replaces every other.
impl PixelChange for Colour {
    ghost made = { λ colour old. colour };

    fn of(self, _old: Colour) -> Colour {
        self
    }
}

impl PixelChange for Mix {
    ghost made = { λ mix old. mixed_by mix old };

    fn of(self, old: Colour) -> Colour {
        self.apply(old)
    }
}
