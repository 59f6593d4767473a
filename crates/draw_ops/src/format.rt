//! What differs between the record formats.

ghost use Rattle.std.specs.Prelude.{◌≡◌, ◌≤◌, length};
ghost use Rattle.draw_ops.specs.Meaning.{Meaning, noting, unnoted};
ghost use Rattle.draw_ops.specs.OperationOf.{operation_of};
ghost use Rattle.draw_ops.specs.RecordOf.{decoded_of, record_of};
ghost use Rattle.draw_ops.specs.Records.{Framing, may_be_size, kind_of, size_of};
ghost use Rattle.draw_ops.specs.Results.{result_map};

use crate::note::Note;
use crate::note_set::NoteSet;
use crate::operation::Op;
use crate::record_fault::RecordFault;

/// A record: its kind, which is a function ([MS-WMF]) or a type ([MS-EMF]), and its bytes with the head.
#[derive(Clone, Copy, Debug, PartialEq, Eq)]
pub struct RawRecord<'a> {
    pub kind: u32,
    pub bytes: &'a [u8],
}

/// A decoded record: its operation and its notes.
#[derive(Clone, Copy, Debug, PartialEq, Eq)]
pub struct Decoded<'a> {
    pub op: Op<'a>,
    pub notes: NoteSet,
}

impl<'a> Decoded<'a> {
    /// An operation with one note.
    pub fn noting(note: Note, op: Op<'a>) -> Decoded<'a>
        ensures { decoded_of result ≡ noting note (operation_of op.entry) }
    {
        Decoded {
            op,
            notes: NoteSet::none().with(note),
        }
    }

    /// An operation without notes.
    pub fn unnoted(op: Op<'a>) -> Decoded<'a>
        ensures { decoded_of result ≡ unnoted (operation_of op.entry) }
    {
        Decoded {
            op,
            notes: NoteSet::none(),
        }
    }
}

/// A format of records: how they follow one another, and what each means. `RecordOps` reads the records of any format.
pub trait Format {
    /// How the records are framed.
    ghost framing: { Framing };

    /// What a record means, given its number in the file.
    ghost meaning: { Meaning };

    /// The length of a record's head, in bytes.
    fn head_length() -> usize
        ensures { result ≡ framing.head_length };

    /// The size in bytes that the head at the start gives.
    fn size(bytes: &[u8]) -> usize
        requires { framing.head_length ≤ length bytes.now }
        ensures { result ≡ size_of framing bytes.now };

    /// Whether a record may have this size.
    fn may_be_size(size: usize) -> bool
        ensures { result ≡ may_be_size framing size };

    /// The kind that the head at the start gives.
    fn kind(bytes: &[u8]) -> u32
        requires { framing.head_length ≤ length bytes.now }
        ensures { result ≡ kind_of framing bytes.now };

    /// The kind of the record that ends a file.
    fn end_kind() -> u32
        ensures { result ≡ framing.end_kind };

    /// What the record with this number in the file means, or its first fault.
    fn read(number: u32, leading: RawRecord<'_>) -> Result<Decoded<'_>, RecordFault>
        ensures value { meaning number (record_of leading.entry) ≡ result_map decoded_of result };
}
