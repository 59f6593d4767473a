//! Deviations from the standard, and features that are played differently, that don't cause a rejection.

ghost use Rattle.std.specs.Prelude.{◌≡◌, ◌<◌};
ghost use Rattle.draw_ops.specs.NoteTable.{note_row_of};

/// A kind of note.
#[derive(Clone, Copy, Debug, PartialEq, Eq)]
pub enum Note {
    /// The checksum in the placeable header doesn't match its fields.
    PlaceableChecksum,
    /// A field of the placeable header has a value that the standard does not allow.
    PlaceableFields,
    /// A size in a header isn't that of the file.
    SizeField,
    /// Bytes follow the last record.
    AfterEnd,
    /// A pen with dashes draws unbroken lines.
    DashedPen,
    /// A pen that draws is wider than one unit.
    WidePen,
    /// An isotropic map is played as it is set, and no extent is adjusted.
    Isotropic,
    /// A comment has records of EMF+, which are not played.
    EmfPlus,
    /// A record is skipped.
    Skipped,
}

impl Note {
    /// The note's name, spelled as its variant is.
    pub fn name(self) -> &'static str
        ensures { result.now ≡ (note_row_of self).name }
    {
        self.row().1
    }

    /// The row in the table of notes: the index of the kind's count, and the name.
    pub(crate) fn row(self) -> (usize, &'static str)
        ensures index { result.0 ≡ (note_row_of self).index }
        ensures name { result.1.now ≡ (note_row_of self).name }
        ensures below { result.0 < 9 }
    {
        match self {
            Note::PlaceableChecksum => (0, "PlaceableChecksum"),
            Note::PlaceableFields => (1, "PlaceableFields"),
            Note::SizeField => (2, "SizeField"),
            Note::AfterEnd => (3, "AfterEnd"),
            Note::DashedPen => (4, "DashedPen"),
            Note::WidePen => (5, "WidePen"),
            Note::Isotropic => (6, "Isotropic"),
            Note::EmfPlus => (7, "EmfPlus"),
            Note::Skipped => (8, "Skipped"),
        }
    }
}
