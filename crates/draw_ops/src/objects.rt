//! The objects that a metafile creates, selects and deletes.

ghost use Rattle.std.specs.Prelude.{◌≡◌};
ghost use Rattle.draw_ops.specs.declared.objects.Pen.TheVariants.{Solid};

use crate::hatch::Hatch;
use dib_views::DibView;
use mapping::Colour;

/// The index of an object. In EMF the indexes from 0x80000000 on are those of the stock objects
/// ([MS-EMF] 2.1.31).
#[derive(Clone, Copy, Debug, PartialEq, Eq)]
pub struct Handle(pub u32);

/// What draws lines and outlines.
#[derive(Clone, Copy, Debug, PartialEq, Eq)]
pub enum Pen {
    /// Draws nothing.
    Null,
    /// Draws lines of this colour, with a width in page units. Lines of width 0 are one pixel wide.
    Solid { width: u32, colour: Colour },
}

impl Pen {
    /// The pen of width 0 for lines of this colour.
    pub fn hairline(colour: Colour) -> Pen
        ensures { result ≡ Solid 0 colour }
    {
        Pen::Solid { width: 0, colour }
    }
}

/// What fills.
#[derive(Clone, Copy, Debug, PartialEq, Eq)]
pub enum Brush<'a> {
    /// Paints every pixel in this colour.
    Solid(Colour),
    /// Paints nothing.
    Null,
    /// Paints the lines of the hatch in this colour. The background mode decides about the gaps.
    Hatched { hatch: Hatch, colour: Colour },
    /// Paints a bitmap, which is repeated over the surface from the surface's corner on.
    Tiled(DibView<'a>),
}

/// An object. Fonts and palettes occupy an index and draw nothing.
#[derive(Clone, Copy, Debug, PartialEq, Eq)]
pub enum Object<'a> {
    Pen(Pen),
    Brush(Brush<'a>),
    Font,
    Palette,
}
