//! The line of a record.

ghost use Rattle.std.specs.Prelude.{◌≡◌, ◌+◌, ◌≤◌, ◌++◌, IfSome, codes, decimal, length};
ghost use Rattle.std.specs.Option.{option_map};
ghost use Rattle.draw_ops.specs.FaultTable.{fault_row};
ghost use Rattle.draw_ops.specs.NoteSet.{notes_in};
ghost use Rattle.draw_ops.specs.RecordOf.{record_of};
ghost use Rattle.draw_ops.specs.Results.{result_map};
ghost use Rattle.draw_ops.specs.StepOf.{step_value_of};
ghost use Rattle.listing.specs.Line.{action_text, fault_line, head_of, kind_name, kind_text, decoded_text};
ghost use Rattle.listing.specs.Line.{rejected_text, step_text, text_or_hyphen};
ghost use Rattle.listing.specs.Listing.{no_format_line};
ghost use Rattle.listing.specs.Putting.{placed_line, placed_step_in};

use crate::asked::put_asked;
use crate::field_texts::{put_four_digits, put_number, put_size};
use crate::noting::put_notes;
use crate::record_names::record_name;
use crate::record_walk::PlacedRecord;
use crate::text_buffer::TextBuffer;
use draw_ops::{Fault, Note, NoteSet, RecordFault, Step};
use emf_records::Emf;
use meta_headers::FileFormat;
use wmf_records::Wmf;

/// Appends a function of WMF in four hexadecimal digits.
fn put_function(buffer: &mut TextBuffer, function: u32)
    requires { length buffer.old + 6 ≤ 8192 }
    ensures text { buffer.new ≡ buffer.old ++ kind_text FileFormat.Plain function }
    ensures length { length buffer.new ≡ length buffer.old + 6 }
{
    buffer.put("0x");
    put_four_digits(buffer, function);
}

/// Appends a kind in its format's base.
fn put_kind(buffer: &mut TextBuffer, format: FileFormat, kind: u32)
    requires { length buffer.old + 10 ≤ 8192 }
    ensures text { buffer.new ≡ buffer.old ++ kind_text format kind }
    ensures short { length buffer.new ≤ length buffer.old + 10 }
{
    match format {
        FileFormat::Placeable => put_function(buffer, kind),
        FileFormat::Plain => put_function(buffer, kind),
        FileFormat::Emf => put_number(buffer, kind),
    }
}

/// A name, or a hyphen.
fn name_or_hyphen(name: Option<&'static str>) -> &'static str
    requires { IfSome name (λ n. length n.now ≤ 27) }
    ensures name { result.now ≡ text_or_hyphen (option_map (λ n. n.now) name.entry) }
    ensures short { length result.now ≤ 27 }
{
    match name {
        Some(name) => name,
        None => "-",
    }
}

/// The standard's name of a kind, or a hyphen if it has none.
fn kind_name(format: FileFormat, kind: u32) -> &'static str
    ensures name { result.now ≡ kind_name format kind }
    ensures short { length result.now ≤ 27 }
{
    name_or_hyphen(record_name(format, kind))
}

/// What the player does with a record that has these notes.
fn action(notes: NoteSet) -> &'static str
    ensures text { result.now ≡ action_text (notes_in notes) }
    ensures short { length result.now ≤ 6 }
{
    if notes.contains(Note::Skipped) || notes.contains(Note::EmfPlus) {
        "noted"
    } else {
        "played"
    }
}

/// Appends that a record is rejected, and the name of its fault.
fn put_rejected(buffer: &mut TextBuffer, fault: Fault)
    requires { length buffer.old + 24 ≤ 8192 }
    ensures text { buffer.new ≡ buffer.old ++ rejected_text fault }
    ensures short { length buffer.new ≤ length buffer.old + 24 }
{
    buffer.put("refused\t");
    buffer.put(fault.name());
}

/// Appends the fault that runs have in a record, or else what is done with it, its operation and its notes.
fn put_step(buffer: &mut TextBuffer, run: Option<RecordFault>, step: &Step<'_>)
    requires { length buffer.old + 347 ≤ 8192 }
    ensures text { buffer.new ≡ buffer.old ++ step_text run (step_value_of step.now) }
    ensures short { length buffer.new ≤ length buffer.old + 347 }
{
    match run {
        Some(fault) => put_rejected(buffer, Fault::Record(fault)),
        None => {
            buffer.put(action(step.notes));
            buffer.put("\t");
            put_asked(buffer, &step.op);
            put_notes(buffer, step.notes);
        }
    }
}

/// Appends the fields of a decoded record, or the fault of its meaning.
fn put_decoded(
    buffer: &mut TextBuffer,
    run: Option<RecordFault>,
    decoded: &Result<Step<'_>, RecordFault>,
)
    requires { length buffer.old + 347 ≤ 8192 }
    ensures text { buffer.new ≡ buffer.old ++ decoded_text run (result_map step_value_of decoded.now) }
    ensures short { length buffer.new ≤ length buffer.old + 347 }
{
    match decoded {
        Ok(step) => put_step(buffer, run, step),
        Err(fault) => put_rejected(buffer, Fault::Record(*fault)),
    }
}

/// The step of a record of a format, or its first fault.
pub fn step_in<'a>(format: FileFormat, given: PlacedRecord<'a>) -> Result<Step<'a>, RecordFault>
    ensures { placed_step_in format given.entry ≡ result_map step_value_of result }
{
    match format {
        FileFormat::Placeable => given.step::<Wmf>(),
        FileFormat::Plain => given.step::<Wmf>(),
        FileFormat::Emf => given.step::<Emf>(),
    }
}

/// Appends the number and the offset of a record, each followed by a tab.
fn put_place(buffer: &mut TextBuffer, number: u32, place: usize)
    requires { length buffer.old + 32 ≤ 8192 }
    ensures text { buffer.new ≡ buffer.old ++ decimal number ++ codes "\t" ++ decimal place ++ codes "\t" }
    ensures short { length buffer.new ≤ length buffer.old + 32 }
{
    put_number(buffer, number);
    buffer.put("\t");
    put_size(buffer, place);
    buffer.put("\t");
}

/// Appends the fields of a record that isn't decoded, each followed by a tab.
fn put_head(buffer: &mut TextBuffer, format: FileFormat, given: &PlacedRecord<'_>)
    requires { length buffer.old + 92 ≤ 8192 }
    ensures text { buffer.new ≡ buffer.old ++ head_of format given.now.number given.now.place (record_of given.now.record) }
    ensures short { length buffer.new ≤ length buffer.old + 92 }
{
    put_place(buffer, given.number, given.place);
    put_size(buffer, given.record.bytes.len());
    buffer.put("\t");
    put_kind(buffer, format, given.record.kind);
    buffer.put("\t");
    buffer.put(kind_name(format, given.record.kind));
    buffer.put("\t");
}

/// Appends the line of a record with this step, or fault of its meaning, and this fault in runs.
pub(crate) fn put_line(
    buffer: &mut TextBuffer,
    format: FileFormat,
    given: &PlacedRecord<'_>,
    run: Option<RecordFault>,
    decoded: &Result<Step<'_>, RecordFault>,
)
    requires { length buffer.old + 512 ≤ 8192 }
    ensures { buffer.new ≡ buffer.old ++ placed_line format run given.now (result_map step_value_of decoded.now) }
{
    put_head(buffer, format, given);
    put_decoded(buffer, run, decoded);
    buffer.put("\n");
}

/// Appends the line that says where the records break, and by which fault.
pub(crate) fn put_fault_line(buffer: &mut TextBuffer, number: u32, place: usize, fault: RecordFault)
    requires { length buffer.old + 512 ≤ 8192 }
    ensures { buffer.new ≡ buffer.old ++ fault_line number place fault }
{
    put_place(buffer, number, place);
    buffer.put("-\t-\t-\t");
    put_rejected(buffer, Fault::Record(fault));
    buffer.put("\n");
}

/// Appends the line that says that a file doesn't begin like any metafile.
pub(crate) fn put_no_metafile(buffer: &mut TextBuffer)
    requires { length buffer.old + 512 ≤ 8192 }
    ensures { buffer.new ≡ buffer.old ++ no_format_line }
{
    buffer.put("-\t-\t-\t-\t-\t");
    put_rejected(buffer, Fault::NotMetafile);
    buffer.put("\n");
}
