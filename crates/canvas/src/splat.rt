//! One colour, several times.

ghost use Rattle.std.specs.Prelude.{◌≡◌, ◌<◌, ℕ, IfOk, replicate, slice_index_or};
ghost use Rattle.mapping.specs.declared.geometry.Colour.{Colour};

use crate::canvas_error::OutOfMemory;
use crate::parts::fill_with;
use mapping::Colour;
use std::alloc::Global;

/// A colour for filling spans: eight copies of it. It is made once for all spans, because copying eight colours
/// immediately after making them would cause a stall.
///
/// # Guarantees
///
/// - All eight are the colour.
#[derive(Clone, Copy, Debug)]
pub struct Splat {
    pub colour: Colour,
    pub(crate) eight: [Colour; 8],
    pub ghost same: { (k : ℕ) (d : Colour) → k < 8 → slice_index_or eight k d ≡ colour },
}

impl Splat {
    /// The splat of a colour. This isn't inlined: a compiler that sees the eight colours made would set each byte of a
    /// span instead of copying them.
    #[inline(never)]
    pub fn new(colour: Colour) -> Splat
        ensures { result.colour ≡ colour }
    {
        Splat {
            colour,
            eight: [colour; 8],
        }
    }
}

/// This many copies of a colour. They are white first, because all bytes of white are equal, so one call sets them.
pub(crate) fn same_colours(
    alloc: Global,
    count: usize,
    colour: Colour,
) -> Result<Vec<Colour>, OutOfMemory>
    ensures { IfOk result (λ colours. colours.items ≡ replicate count colour) }
{
    let Ok(mut colours) = Vec::from_elem(alloc, Colour::WHITE, count) else {
        return Err(OutOfMemory);
    };
    if colour == Colour::WHITE {
        return Ok(colours);
    }
    fill_with(&mut colours[..], &Splat::new(colour));
    Ok(colours)
}
