//! Changes to a colour, bit by bit.

ghost use Rattle.std.specs.Prelude.{◌≡◌, ◌↔◌, IfSome, IsSome};
ghost use Rattle.mapping.specs.Colours.{black_colour};
ghost use Rattle.mapping.specs.declared.geometry.Colour.{Colour};
ghost use Rattle.mapping.specs.Mixes.{mixed_by, mixed_part_by};

use crate::geometry::Colour;

/// A change to a colour, bit by bit: a bit is kept if `keep` has a 1 and dropped to 0 if it has a 0, and then flipped
/// if `flip` has a 1.
#[derive(Clone, Copy, Debug, PartialEq, Eq)]
pub struct Mix {
    pub keep: Colour,
    pub flip: Colour,
}

impl Mix {
    /// The mix that turns every colour into this one.
    pub fn copy(colour: Colour) -> Mix
        ensures { (old : Colour) → mixed_by result old ≡ colour }
    {
        Mix {
            keep: Colour { r: 0, g: 0, b: 0 },
            flip: colour,
        }
    }

    /// The colour that the mix turns every colour into, if it keeps no bits.
    pub fn constant(self) -> Option<Colour>
        ensures kept { IsSome result ↔ (self.keep ≡ black_colour) }
        ensures colour { IfSome result (λ colour. (old : Colour) → mixed_by self old ≡ colour) }
    {
        if self.keep == (Colour { r: 0, g: 0, b: 0 }) {
            Some(self.flip)
        } else {
            None
        }
    }

    /// The result of the mix on a colour.
    pub fn apply(self, old: Colour) -> Colour
        ensures { result ≡ mixed_by self old }
    {
        Colour {
            r: mixed_part(self.keep.r, self.flip.r, old.r),
            g: mixed_part(self.keep.g, self.flip.g, old.g),
            b: mixed_part(self.keep.b, self.flip.b, old.b),
        }
    }
}

/// The result for one component of a colour.
fn mixed_part(keep: u8, flip: u8, old: u8) -> u8
    ensures { result ≡ mixed_part_by keep flip old }
{
    keep & old ^ flip
}
