//! How many parts a unit of the frame has, if the plane is fine.

ghost use Rattle.std.specs.Prelude.{◌≡◌, ◌*◌};
ghost use Rattle.mapping.specs.Parts.{PartLaws, fine_parts, first_fine};

use crate::geometry::Frame;

/// The greatest side of a fine frame, in parts, if a unit has more than one part.
const MAX_FINE_SIDE: u64 = 1 << 20;

/// The numbers of parts that a unit may have, the greatest first, apart from 1.
const PART_COUNTS: [u16; 12] = [4096, 2048, 1024, 512, 256, 128, 64, 32, 16, 8, 4, 2];

impl Frame {
    /// How many parts a unit has on the frame's fine plane: the greatest of 1, 2, 4, .., 4,096 with which the longer
    /// side has at most 2^20 parts, or 1 if there is none.
    pub fn parts(&self) -> u16
        ensures { result ≡ fine_parts self.now.width self.now.height }
    {
        first_fine(self.width.max(self.height), &PART_COUNTS)
    }

    /// The same frame, with its sides counted in these parts.
    pub fn fine(&self) -> Frame
        ensures width { result.width ≡ self.now.width * fine_parts self.now.width self.now.height }
        ensures height { result.height ≡ self.now.height * fine_parts self.now.width self.now.height }
    {
        part_law();
        let parts = u32::from(self.parts());
        Frame {
            width: self.width * parts,
            height: self.height * parts,
        }
    }
}

/// The first of these numbers of parts with which the side isn't too long, or 1 if there is none.
fn first_fine(side: u32, counts: &[u16]) -> u16
    ensures { result ≡ first_fine side counts.now }
{
    for parts in counts {
        if u64::from(*parts) * u64::from(side) <= MAX_FINE_SIDE {
            return *parts;
        }
    }
    1
}

/// The law of parts: the sides of a frame in its parts are within the limits of frames, and where a unit is one part,
/// coordinates and nibs are those without parts.
pub fn part_law()
    ensures { PartLaws }
{}
