//! The steps of a file's records, one at a time, in any format.

ghost use Rattle.std.specs.Prelude.{◌≡◌, ◌<◌, ◌≤◌, length, OnErr, OnOk};
ghost use Rattle.draw_ops.specs.Meaning.{end_notes, step_of};
ghost use Rattle.draw_ops.specs.NoteSet.{notes_in};
ghost use Rattle.draw_ops.specs.Reading.{leading_step};
ghost use Rattle.draw_ops.specs.RecordContent.{IsContent};
ghost use Rattle.draw_ops.specs.RecordOf.{record_of};
ghost use Rattle.draw_ops.specs.Records.{record_limit, size_of};
ghost use Rattle.draw_ops.specs.StepOf.{step_or_fault};

use crate::format::{Format, RawRecord};
use crate::framing::first_record;
use crate::note::Note;
use crate::note_set::NoteSet;
use crate::record_fault::RecordFault;
use crate::source::{HasContent, OpSource};
use crate::step::Step;
use std::marker::{Model, PhantomData};

/// The state of a source.
#[derive(Clone, Copy, Debug, PartialEq, Eq)]
enum Reading {
    /// Records remain.
    Records,
    /// The end record was returned.
    Ended,
    /// A record has this fault.
    Failed(RecordFault),
}

/// A source over the bytes of a file's records. Each record is read in place.
#[derive(Debug, Drop)]
pub struct RecordOps<'a, F: Format> {
    rest: &'a [u8],
    /// The number in the file of the next record.
    number: u32,
    reading: Reading,
    format: PhantomData<F>,
}

impl<'a, F: Format> Model for RecordOps<'a, F> {
    ghost use Rattle.draw_ops.specs.Content.{Content};

    ghost Value = { Content };

    ghost use Rattle.std.specs.Prelude.{◌≤◌};
    ghost use Rattle.draw_ops.specs.Reading.{content_left};
    ghost use Rattle.draw_ops.specs.Records.{record_limit};

    ghost view = { λ a. content_left F.framing F.meaning a.reading a.number a.rest.now };

    ghost invariant = { λ a. a.number ≤ record_limit };
}

impl<'a, F: Format> RecordOps<'a, F> {
    /// The source over the bytes, from record 0 on.
    pub fn new(bytes: &'a [u8]) -> RecordOps<'a, F>
        ensures content { IsContent F.framing F.meaning bytes.entry.now result }
        ensures short { length result.steps ≤ record_limit }
    {
        RecordOps {
            rest: bytes,
            number: 0,
            reading: Reading::Records,
            format: PhantomData,
        }
    }
}

impl<'a, F: Format> HasContent for RecordOps<'a, F> {
    ghost content = { λ source. source };
}

impl<'a, F: Format> OpSource<'a> for RecordOps<'a, F> {
    /// The next record's step, `None` after the end record, or the fault at which the records break.
    fn next_op(&mut self) -> Result<Option<Step<'a>>, RecordFault> {
        let mut step: Step<'a> = Step::without_effect();
        match self.next_into(&mut step) {
            Ok(true) => Ok(Some(step)),
            Ok(false) => Ok(None),
            Err(fault) => Err(fault),
        }
    }

    /// The same, written to `step`.
    fn next_into(&mut self, step: &mut Step<'a>) -> Result<bool, RecordFault> {
        match self.reading {
            Reading::Ended => Ok(false),
            Reading::Failed(fault) => Err(fault),
            Reading::Records => match put_step::<F>(self.number, self.rest, step) {
                Err(fault) => {
                    self.reading = Reading::Failed(fault);
                    Err(fault)
                }
                Ok(()) => {
                    if F::kind(self.rest) == F::end_kind() {
                        self.reading = Reading::Ended;
                        return Ok(true);
                    }
                    self.rest = &self.rest[F::size(self.rest)..];
                    self.number += 1;
                    Ok(true)
                }
            },
        }
    }
}

/// Writes the step of the record at the start of the bytes, which has this number in the file, to `step`, or returns
/// its first fault.
fn put_step<'a, F: Format>(
    number: u32,
    bytes: &'a [u8],
    step: &mut Step<'a>,
) -> Result<(), RecordFault>
    ensures value { leading_step F.framing F.meaning number bytes.entry.now ≡ step_or_fault step.new result }
    ensures head { OnOk result (F.framing.head_length ≤ length bytes.entry.now) }
    ensures within { OnOk result (size_of F.framing bytes.entry.now ≤ length bytes.entry.now) }
    ensures below_limit { OnOk result (number < record_limit) }
    ensures kept { OnErr result (step.new ≡ step.old) }
{
    let leading = first_record::<F>(number, bytes)?;
    put_decoded::<F>(number, leading, &bytes[leading.bytes.len()..], step)
}

/// Writes the step of a record with this number, which these bytes follow, to `step`, or returns the first fault of its
/// meaning. The operation is moved only once, from where it was decoded.
fn put_decoded<'a, F: Format>(
    number: u32,
    leading: RawRecord<'a>,
    after: &[u8],
    step: &mut Step<'a>,
) -> Result<(), RecordFault>
    ensures value { step_of F.framing F.meaning after.now number (record_of leading.entry) ≡ step_or_fault step.new result }
    ensures kept { OnErr result (step.new ≡ step.old) }
{
    match &F::read(number, leading) {
        Ok(decoded) => {
            step.number = number;
            step.op = decoded.op;
            step.notes = with_end(decoded.notes, leading.kind == F::end_kind(), after);
            Ok(())
        }
        Err(fault) => Err(*fault),
    }
}

/// The notes of a record. For the end record they include whether bytes follow it.
fn with_end(notes: NoteSet, is_last: bool, after: &[u8]) -> NoteSet
    ensures { notes_in result ≡ end_notes is_last after.now (notes_in notes) }
{
    if is_last && !after.is_empty() {
        notes.with(Note::AfterEnd)
    } else {
        notes
    }
}
