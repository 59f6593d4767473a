//! How a file's run on the largest surface ends.

use preflight_cert::{Refusal, Uses};

/// How a file's run on the largest surface ends.
#[derive(Clone, Copy, Debug, PartialEq, Eq)]
pub enum Playing {
    /// It has no fault.
    Plays {
        drawings: u64,
        /// The most places for objects that are used at once.
        objects: u32,
        /// How often the file uses what its rules can allow.
        uses: Uses,
    },
    /// It stops at this fault.
    Stops(Refusal),
}

impl Playing {
    ghost use Rattle.std.specs.Prelude.{◌≡◌};
    ghost use Rattle.file_info.specs.Info.{is_playing};

    /// Whether the run has no fault.
    pub fn is_playing(self) -> bool
        ensures { result ≡ is_playing self }
    {
        match self {
            Playing::Plays { .. } => true,
            Playing::Stops(_) => false,
        }
    }
}
