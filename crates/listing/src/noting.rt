//! The texts of notes.

ghost use Rattle.std.specs.Prelude.{◌≡◌, ◌+◌, ◌≤◌, ◌++◌, length};
ghost use Rattle.draw_ops.specs.NoteSet.{notes_in};
ghost use Rattle.listing.specs.NoteTexts.{note_text, notes_text};

use crate::text_buffer::TextBuffer;
use draw_ops::{Note, NoteSet};

/// Appends the name of a kind, if it is among the notes.
#[tactic(auto, unfolding(crate::specs::NoteTexts::note_text))]
fn put_note(buffer: &mut TextBuffer, notes: NoteSet, note: Note)
    requires { length buffer.old + 20 ≤ 8192 }
    ensures text { buffer.new ≡ buffer.old ++ note_text (notes_in notes) note }
    ensures short { length buffer.new ≤ length buffer.old + 20 }
{
    if notes.contains(note) {
        buffer.put("; ");
        buffer.put(note.name());
    }
}

/// Appends the names of the kinds of notes.
pub(crate) fn put_notes(buffer: &mut TextBuffer, notes: NoteSet)
    requires { length buffer.old + 180 ≤ 8192 }
    ensures text { buffer.new ≡ buffer.old ++ notes_text (notes_in notes) }
    ensures short { length buffer.new ≤ length buffer.old + 180 }
{
    put_note(buffer, notes, Note::PlaceableChecksum);
    put_note(buffer, notes, Note::PlaceableFields);
    put_note(buffer, notes, Note::SizeField);
    put_note(buffer, notes, Note::AfterEnd);
    put_note(buffer, notes, Note::DashedPen);
    put_note(buffer, notes, Note::WidePen);
    put_note(buffer, notes, Note::Isotropic);
    put_note(buffer, notes, Note::EmfPlus);
    put_note(buffer, notes, Note::Skipped);
}
