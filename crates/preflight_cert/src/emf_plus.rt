//! Files that contain EMF+ and draw nothing by their own records.

ghost use Rattle.std.specs.Prelude.{◌≡◌, ◌||◌, None, IfErr, IfOk, OnOk};
ghost use Rattle.draw_ops.specs.NoteKinds.{is_noted};
ghost use Rattle.draw_ops.specs.NoteSet.{notes_in};
ghost use Rattle.draw_ops.specs.declared.note.Note.TheVariants.{EmfPlus as EmfPlusNote};
ghost use Rattle.preflight_cert.specs.After.{counted_uses};
ghost use Rattle.preflight_cert.specs.EmfPlus.{is_emf_plus_alone};
ghost use Rattle.preflight_cert.specs.Refusal.{ReportsNumber, ReportsStop};
ghost use Rattle.preflight_cert.specs.Stop.{emf_plus_stop};

use crate::refusal::Refusal;
use crate::uses::Uses;
use draw_ops::{Note, NoteSet, RecordFault, Rules};

/// Whether records contain EMF+, and whether they draw.
#[derive(Clone, Copy, Debug, PartialEq, Eq)]
pub struct EmfPlus {
    pub is_contained: bool,
    pub is_drawn: bool,
}

impl EmfPlus {
    /// No records.
    pub const NONE: EmfPlus = EmfPlus {
        is_contained: false,
        is_drawn: false,
    };

    /// The same with one more record, which has these notes, and which draws or not.
    pub fn with(self, notes: NoteSet, draws: bool) -> EmfPlus
        ensures contained { result.is_contained ≡ (self.is_contained || is_noted (notes_in notes) EmfPlusNote) }
        ensures drawn { result.is_drawn ≡ (self.is_drawn || draws) }
    {
        EmfPlus {
            is_contained: self.is_contained || notes.contains(Note::EmfPlus),
            is_drawn: self.is_drawn || draws,
        }
    }

    /// Whether the records contain EMF+ and don't draw. Under the core profile they never count as such.
    pub fn is_alone(self, rules: Rules) -> bool
        ensures { result ≡ is_emf_plus_alone rules self }
    {
        rules.is_print() && self.is_contained && !self.is_drawn
    }

    /// What the records use, after the last of this many, with this many deletions of selected objects. Fails with
    /// `EmfPlusAlone` in the last record if they contain EMF+ and don't draw, and the rules don't allow that.
    pub(crate) fn uses(self, rules: Rules, deletions: u32, count: u32) -> Result<Uses, Refusal>
        ensures allowed { OnOk result (emf_plus_stop rules (is_emf_plus_alone rules self) count ≡ None) }
        ensures uses { IfOk result (λ uses. uses ≡ counted_uses deletions (is_emf_plus_alone rules self)) }
        ensures refusal { IfErr result (ReportsStop (emf_plus_stop rules (is_emf_plus_alone rules self) count)) }
        ensures number_reported { IfErr result ReportsNumber }
    {
        let is_alone = self.is_alone(rules);
        if is_alone && !rules.allows_emf_plus() {
            return Err(Refusal::at(count.saturating_sub(1), RecordFault::EmfPlusAlone));
        }
        Ok(Uses {
            held_deletion: deletions,
            emf_plus: u32::from(is_alone),
        })
    }
}
