//! Notes under a condition.

ghost use Rattle.std.specs.Prelude.{◌≡◌};
ghost use Rattle.draw_ops.specs.NoteSet.{notes_in};
ghost use Rattle.meta_headers.specs.Headers.{noted_where};

use draw_ops::{Note, NoteSet};

/// The notes, with one more kind if a condition holds.
pub(crate) fn noted_where(holds: bool, notes: NoteSet, note: Note) -> NoteSet
    ensures { notes_in result ≡ noted_where holds (notes_in notes) note }
{
    if holds { notes.with(note) } else { notes }
}
