//! The kinds of notes of a record.

ghost use Rattle.std.specs.Prelude.{◌≡◌, ◌<◌, ◌^◌};
ghost use Rattle.std.specs.Int.{bit_at};
ghost use Rattle.draw_ops.specs.NoteKinds.{is_noted, noted};

use crate::note::Note;

/// A set of kinds of notes: the notes of one record, each kind at most once.
///
/// # Guarantees
///
/// - No other bit is set, so two sets are equal exactly if they have the same kinds.
#[derive(Clone, Copy, Debug, PartialEq, Eq)]
pub struct NoteSet {
    /// One bit per kind, from the lowest on, in the order of the table of notes.
    pub bits: u16,
    pub ghost within: { bits < 2 ^ 9 },
}

impl NoteSet {
    ghost use Rattle.draw_ops.specs.NoteCounts.{no_notes};
    ghost use Rattle.draw_ops.specs.NoteSet.{notes_in};

    /// The empty set.
    pub fn none() -> NoteSet
        ensures { notes_in result ≡ no_notes }
    {
        NoteSet { bits: 0 }
    }

    /// Whether the set contains a kind.
    pub fn contains(self, note: Note) -> bool
        ensures { result ≡ is_noted (notes_in self) note }
    {
        (self.bits >> note.row().0) & 1 == 1
    }

    /// The set with this kind added.
    pub fn with(self, note: Note) -> NoteSet
        ensures { notes_in result ≡ noted (notes_in self) note }
    {
        NoteSet {
            bits: self.bits | (1 << note.row().0),
        }
    }

    /// 1 if the set contains the kind at an index of the table of notes, otherwise 0.
    pub(crate) fn bit(self, index: u32) -> u32
        requires { index < 9 }
        ensures { result ≡ bit_at self.bits index }
    {
        u32::from((self.bits >> index) & 1)
    }
}
