//! Counts of notes.

ghost use Rattle.std.specs.Prelude.{◌≡◌, length};
ghost use Rattle.draw_ops.specs.NoteCounts.{note_count, no_notes, with_note, added_notes};
ghost use Rattle.draw_ops.specs.NoteSet.{notes_in};

use crate::note::Note;
use crate::note_set::NoteSet;

/// The number of notes of each kind.
#[derive(Clone, Copy, Debug, PartialEq, Eq)]
pub struct Notes {
    /// The counts, in the order of the table of notes.
    pub counts: [u32; 9],
}

impl Notes {
    /// No notes.
    pub fn none() -> Notes
        ensures { result.counts ≡ no_notes }
    {
        Notes { counts: [0; 9] }
    }

    /// One note of each kind in a set.
    pub fn of(set: NoteSet) -> Notes
        ensures { result.counts ≡ notes_in set }
    {
        Notes {
            counts: [
                set.bit(0),
                set.bit(1),
                set.bit(2),
                set.bit(3),
                set.bit(4),
                set.bit(5),
                set.bit(6),
                set.bit(7),
                set.bit(8),
            ],
        }
    }

    /// The number of notes of a kind.
    pub fn count(self, note: Note) -> u32
        ensures { result ≡ note_count self.counts note }
    {
        self.counts[note.row().0]
    }

    /// The counts with one more note of a kind. A count stops at 2^32 - 1, which no file reaches.
    pub fn with(self, note: Note) -> Notes
        ensures { result.counts ≡ with_note self.counts note }
    {
        let mut counts = self.counts;
        let index = note.row().0;
        counts[index] = counts[index].saturating_add(1);
        Notes { counts }
    }

    /// The sums of two counts for each kind. A count stops at 2^32 - 1, which no file reaches.
    #[tactic(auto, using(crate::proofs::NoteLemmas::sums))]
    pub fn plus(self, other: Notes) -> Notes
        ensures { result.counts ≡ added_notes self.counts other.counts }
    {
        let mut counts = self.counts;
        for i in 0..9 {
            counts[i] = counts[i].saturating_add(other.counts[i]);
        }
        Notes { counts }
    }

    /// The counts with one more note of each kind in a set. Most sets are empty, and then nothing is added.
    pub fn with_all(self, set: NoteSet) -> Notes
        ensures { result.counts ≡ added_notes self.counts (notes_in set) }
    {
        if set.bits == 0 {
            zeros_law(&self.counts);
            return self;
        }
        self.plus(Notes::of(set))
    }
}

/// Adding no note changes no count.
fn zeros_law(counts: &[u32])
    requires { length counts.now ≡ 9 }
    ensures { added_notes counts.now no_notes ≡ counts.now }
{}
