//! The report about a file, as JSON.

ghost use Rattle.std.specs.Prelude.{◌≡◌, ◌++◌, IfOk, OnOk, drop};
ghost use Rattle.serde_json.specs.Data.{object, string};
ghost use Rattle.serde_json.specs.View.{members_view, view};
ghost use Rattle.serde_json.specs.Written.{compact_text};
ghost use Rattle.report_parts.specs.Parts.{report_text};
ghost use Rattle.file_info.specs.InfoReport.{counted_items, first_members, info_line, last_members, unread_data, with_last_unknown, with_playing};
ghost use Rattle.file_info.specs.JoinedText.{PutsFaults, faults_head};

use crate::counted_text::put_counted;
use crate::fault_counts::FaultCounts;
use crate::info::FileInfo;
use crate::info_values::{
    axes_value, box_value, description_of, dots_of, format_value, frame_value, paper_of,
    records_value,
};
use crate::playing::Playing;
use crate::playing_values::{
    allowed_value, drawings_value, fault_of, kind_name, kind_of, objects_value, record_of,
};
use draw_ops::Rules;
use meta_headers::FileFormat;
use report_parts::{
    compact_text_of, notes_value, put_allowed, put_number_if, put_profile, put_text, put_text_if,
    report_text_of,
};
use serde_json::{Map, Value, put};
use std::alloc::{AllocError, Global};

/// The line of a file: the report about it, and a line feed.
pub fn info_text(alloc: Global, name: &str, info: &FileInfo) -> Result<Vec<u8>, AllocError>
    ensures { IfOk result (λ text. text.items ≡ info_line name.now info.now) }
{
    let first = first_value(alloc, info)?;
    let last = last_value(alloc, name, info)?;
    let mut text = compact_text_of(alloc, &first)?;
    let rest = compact_text_of(alloc, &last)?;
    put_faults(alloc, &mut text, info.format, &info.totals.faults)?;
    text.extend_from_slice(without_first(&rest))?;
    text.push(b'\n')?;
    Ok(text)
}

/// The members before `faults`.
fn first_value(alloc: Global, info: &FileInfo) -> Result<Value, AllocError>
    ensures { IfOk result (λ value. view value ≡ object (first_members info.now)) }
{
    let dots = axes_value(alloc, dots_of(info.sizes))?;
    let frame = box_value(alloc, info.sizes)?;
    let uses = allowed_value(alloc, info.playing)?;
    let mut members = Map::new(alloc);
    put_text_if(&mut members, alloc, "fault", fault_of(info.playing))?;
    put(&mut members, alloc, "error", Value::Null)?;
    put(&mut members, alloc, "emf_frame", frame)?;
    put(
        &mut members,
        alloc,
        "drawings",
        drawings_value(info.playing),
    )?;
    put(&mut members, alloc, "dots_per_inch", dots)?;
    put_text_if(&mut members, alloc, "description", description_of(info))?;
    put_allowed(&mut members, alloc, info.rules, uses)?;
    Ok(Value::from(members))
}

/// The members after `faults`.
fn last_value(alloc: Global, name: &str, info: &FileInfo) -> Result<Value, AllocError>
    ensures { IfOk result (λ value. view value ≡ object (last_members name.now info.now)) }
{
    let size = axes_value(alloc, paper_of(info.sizes))?;
    let notes = notes_value(alloc, info.totals.notes)?;
    let frame = frame_value(alloc, info.sizes)?;
    let format = format_value(alloc, info.format)?;
    let mut members = Map::new(alloc);
    put(&mut members, alloc, "size", size)?;
    put(
        &mut members,
        alloc,
        "records",
        records_value(info.format, info.totals.records),
    )?;
    put_playing(&mut members, alloc, info.format, info.playing)?;
    put(&mut members, alloc, "notes", notes)?;
    put(&mut members, alloc, "frame", frame)?;
    put(&mut members, alloc, "format", format)?;
    put_text(&mut members, alloc, "file", name)?;
    put_profile(&mut members, alloc, info.rules)?;
    Ok(Value::from(members))
}

/// Adds how the file's run ends.
fn put_playing(
    members: &mut Map<String, Value>,
    alloc: Global,
    format: Option<FileFormat>,
    playing: Playing,
) -> Result<(), AllocError>
    ensures { OnOk result (members_view members.new.entries ≡ with_playing format playing (members_view members.old.entries)) }
{
    let kind = kind_of(playing);
    put_text_if(members, alloc, "record_name", kind_name(format, kind))?;
    put_number_if(members, alloc, "record", record_of(playing))?;
    put(members, alloc, "plays", Value::from(playing.is_playing()))?;
    put(members, alloc, "objects", objects_value(playing))?;
    put_number_if(members, alloc, "number", kind)
}

/// Puts the member `faults` in place of the brace at the end of a text, and a comma after it.
fn put_faults(
    alloc: Global,
    text: &mut Vec<u8>,
    format: Option<FileFormat>,
    faults: &FaultCounts,
) -> Result<(), AllocError>
    ensures { OnOk result (PutsFaults (counted_items format faults.now) text.old.items text.new.items) }
{
    text.pop();
    put_head(alloc, text)?;
    put_counted(alloc, text, format, faults)?;
    text.push(b',')?;
    Ok(())
}

/// Appends a comma, the name `faults`, and the beginning of a list.
fn put_head(alloc: Global, text: &mut Vec<u8>) -> Result<(), AllocError>
    ensures { OnOk result (text.new.items ≡ text.old.items ++ faults_head) }
{
    let name = quoted(alloc, "faults")?;
    text.push(b',')?;
    text.extend_from_slice(name.as_slice())?;
    text.push(b':')?;
    text.push(b'[')?;
    Ok(())
}

/// A text in quotes, as JSON has it.
fn quoted(alloc: Global, text: &str) -> Result<Vec<u8>, AllocError>
    ensures { IfOk result (λ quoted. quoted.items ≡ compact_text (string text.now)) }
{
    let value = Value::try_from_str(alloc, text)?;
    compact_text_of(alloc, &value)
}

/// All bytes but the first.
fn without_first(bytes: &[u8]) -> &[u8]
    ensures { result.now ≡ drop 1 bytes.now }
{
    if bytes.is_empty() {
        return bytes;
    }
    let (_, rest) = bytes.split_at(1);
    rest
}

/// The line of a file that wasn't read, with the error.
pub fn unread_text(
    alloc: Global,
    rules: Rules,
    name: &str,
    error: &str,
) -> Result<Vec<u8>, AllocError>
    ensures { IfOk result (λ text. text.items ≡ report_text (unread_data rules name.now error.now)) }
{
    let report = unread_value(alloc, rules, name, error)?;
    report_text_of(alloc, &report)
}

/// The report about a file that wasn't read.
fn unread_value(alloc: Global, rules: Rules, name: &str, error: &str) -> Result<Value, AllocError>
    ensures { IfOk result (λ value. view value ≡ unread_data rules name.now error.now) }
{
    let mut members = Map::new(alloc);
    put_last_unknown(&mut members, alloc)?;
    put_text(&mut members, alloc, "file", name)?;
    put(&mut members, alloc, "faults", Value::Null)?;
    put(&mut members, alloc, "fault", Value::Null)?;
    put_text(&mut members, alloc, "error", error)?;
    put(&mut members, alloc, "emf_frame", Value::Null)?;
    put(&mut members, alloc, "drawings", Value::Null)?;
    put(&mut members, alloc, "dots_per_inch", Value::Null)?;
    put(&mut members, alloc, "description", Value::Null)?;
    put_profile(&mut members, alloc, rules)?;
    put_allowed(&mut members, alloc, rules, Value::Null)?;
    Ok(Value::from(members))
}

/// Adds the members after `file`, all of them null.
fn put_last_unknown(members: &mut Map<String, Value>, alloc: Global) -> Result<(), AllocError>
    ensures { OnOk result (members_view members.new.entries ≡ with_last_unknown (members_view members.old.entries)) }
{
    put(members, alloc, "size", Value::Null)?;
    put(members, alloc, "records", Value::Null)?;
    put(members, alloc, "record_name", Value::Null)?;
    put(members, alloc, "record", Value::Null)?;
    put(members, alloc, "plays", Value::Null)?;
    put(members, alloc, "objects", Value::Null)?;
    put(members, alloc, "number", Value::Null)?;
    put(members, alloc, "notes", Value::Null)?;
    put(members, alloc, "frame", Value::Null)?;
    put(members, alloc, "format", Value::Null)
}
