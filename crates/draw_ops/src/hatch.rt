//! The hatch patterns of brushes.

ghost use Rattle.std.specs.Prelude.{◌≡◌};
ghost use Rattle.draw_ops.specs.Hatch.{hatch_code, hatch_of};

/// The lines of a hatched brush ([MS-WMF] 2.1.1.12).
#[derive(Clone, Copy, Debug, PartialEq, Eq)]
pub enum Hatch {
    /// Horizontal lines.
    Horizontal,
    /// Vertical lines.
    Vertical,
    /// HS_FDIAGONAL.
    ForwardDiagonal,
    /// HS_BDIAGONAL.
    BackwardDiagonal,
    /// Horizontal and vertical lines.
    Cross,
    /// The lines of both diagonals.
    DiagonalCross,
}

impl Hatch {
    /// The hatch with this code. `None` exactly if the standard has none.
    pub fn from_code(code: u32) -> Option<Hatch>
        ensures { result ≡ hatch_of code }
    {
        match code {
            0 => Some(Hatch::Horizontal),
            1 => Some(Hatch::Vertical),
            2 => Some(Hatch::ForwardDiagonal),
            3 => Some(Hatch::BackwardDiagonal),
            4 => Some(Hatch::Cross),
            5 => Some(Hatch::DiagonalCross),
            _ => None,
        }
    }

    /// The hatch's code, from 0 to 5.
    pub fn code(self) -> u8
        ensures { result ≡ hatch_code self }
    {
        match self {
            Hatch::Horizontal => 0,
            Hatch::Vertical => 1,
            Hatch::ForwardDiagonal => 2,
            Hatch::BackwardDiagonal => 3,
            Hatch::Cross => 4,
            Hatch::DiagonalCross => 5,
        }
    }
}
