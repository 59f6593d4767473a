//! The records of a file, one by one, each with its offset, in any format.

ghost use Rattle.std.specs.Prelude.{◌≡◌, ◌+◌, ◌<◌, ◌≤◌, ◌^◌, length};
ghost use Rattle.draw_ops.specs.Framed.{framed_of};
ghost use Rattle.draw_ops.specs.Meaning.{end_notes};
ghost use Rattle.draw_ops.specs.Records.{record_limit};
ghost use Rattle.draw_ops.specs.NoteSet.{notes_in};
ghost use Rattle.listing.specs.Walk.{GivesNext};

use draw_ops::{Format, Note, NoteSet, RawRecord, RecordFault, Step, first_record};
use std::marker::{Model, PhantomData};

/// A record with its offset.
#[derive(Clone, Copy, Debug, PartialEq, Eq)]
pub struct PlacedRecord<'a> {
    /// Its number in the file, from 0.
    pub number: u32,
    /// Its offset in the file.
    pub place: usize,
    pub record: RawRecord<'a>,
    /// The bytes of the file after it.
    pub after: &'a [u8],
}

impl<'a> PlacedRecord<'a> {
    ghost use Rattle.std.specs.Prelude.{◌≡◌};
    ghost use Rattle.draw_ops.specs.Results.{result_map};
    ghost use Rattle.draw_ops.specs.StepOf.{step_value_of};
    ghost use Rattle.listing.specs.Walk.{placed_step};

    /// The record's step, or its first fault.
    pub fn step<F: Format>(self) -> Result<Step<'a>, RecordFault>
        ensures { placed_step F.framing F.meaning self.entry ≡ result_map step_value_of result }
    {
        match &F::read(self.number, self.record) {
            Ok(decoded) => Ok(Step {
                number: self.number,
                op: decoded.op,
                notes: with_end(decoded.notes, self.record.kind == F::end_kind(), self.after),
            }),
            Err(fault) => Err(*fault),
        }
    }
}

/// A walk over the bytes of a file's records, which finds each record's offset without decoding it.
#[derive(Debug, Drop)]
pub struct RecordWalk<'a, F: Format> {
    rest: &'a [u8],
    /// The number in the file of the next record.
    number: u32,
    /// The offset of the next record in the file.
    place: usize,
    /// Whether the end record was returned.
    has_ended: bool,
    format: PhantomData<F>,
}

impl<'a, F: Format> Model for RecordWalk<'a, F> {
    ghost use Rattle.listing.specs.WalkState.{IsWalking, Walk, framed_left};

    ghost Value = { Walk };

    ghost view = { λ a. record { number = a.number; place = a.place; framed = framed_left F.framing a.has_ended a.number a.rest.now } };

    ghost invariant = { λ a. IsWalking a.number a.place a.rest.now };
}

impl<'a, F: Format> RecordWalk<'a, F> {
    /// The walk over the bytes from record 0 on, which begin at this offset in the file.
    pub fn new(bytes: &'a [u8], place: usize) -> RecordWalk<'a, F>
        requires { place + length bytes.now < 2 ^ 64 }
        ensures number { result.number ≡ 0 }
        ensures place { result.place ≡ place }
        ensures framed { result.framed ≡ framed_of F.framing bytes.entry.now }
    {
        RecordWalk {
            rest: bytes,
            number: 0,
            place,
            has_ended: false,
            format: PhantomData,
        }
    }

    /// The number in the file of the next record.
    pub fn number(&self) -> u32
        ensures value { result ≡ self.now.number }
        ensures within { result ≤ record_limit }
    {
        self.number
    }

    /// The offset of the next record in the file.
    pub fn place(&self) -> usize
        ensures { result ≡ self.now.place }
    {
        self.place
    }

    /// The next record, `None` after the end record, or the fault at which the records break: `TooManyRecords`,
    /// `NoEnd`, `ShortRecord` or `PastEnd`. Later calls return the same again.
    pub fn next_record(&mut self) -> Result<Option<PlacedRecord<'a>>, RecordFault>
        ensures { GivesNext F.framing self.old result self.new }
    {
        if self.has_ended {
            return Ok(None);
        }
        match first_record::<F>(self.number, self.rest) {
            Err(fault) => Err(fault),
            Ok(record) => {
                let (_, after) = self.rest.split_at(record.bytes.len());
                let given = PlacedRecord {
                    number: self.number,
                    place: self.place,
                    record,
                    after,
                };
                self.rest = after;
                self.number += 1;
                self.place += record.bytes.len();
                self.has_ended = record.kind == F::end_kind();
                Ok(Some(given))
            }
        }
    }
}

/// The notes of a record. For the end record they include whether bytes follow it.
fn with_end(notes: NoteSet, is_last: bool, after: &[u8]) -> NoteSet
    ensures { notes_in result ≡ end_notes is_last after.now (notes_in notes) }
{
    if is_last && !after.is_empty() {
        notes.with(Note::AfterEnd)
    } else {
        notes
    }
}
