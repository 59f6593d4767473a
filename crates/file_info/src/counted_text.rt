//! The text of the faults that were counted.

ghost use Rattle.std.specs.Prelude.{◌≡◌, ◌++◌, IfOk, OnOk, false};
ghost use Rattle.serde_json.specs.View.{view};
ghost use Rattle.serde_json.specs.Written.{items_text};
ghost use Rattle.file_info.specs.InfoReport.{counted_data, counted_items};
ghost use Rattle.file_info.specs.JoinedText.{item_text};

use crate::fault_count::FaultCount;
use crate::fault_counts::FaultCounts;
use crate::playing_values::kind_name;
use meta_headers::FileFormat;
use report_parts::{compact_text_of, put_number, put_number_if, put_text, put_text_if};
use serde_json::{Map, Value};
use std::alloc::{AllocError, Global};

/// Appends an object for each fault that was counted, with commas between them, and a closing bracket.
pub(crate) fn put_counted(
    alloc: Global,
    text: &mut Vec<u8>,
    format: Option<FileFormat>,
    faults: &FaultCounts,
) -> Result<(), AllocError>
    ensures { OnOk result (text.new.items ≡ text.old.items ++ items_text false (counted_items format faults.now)) }
{
    let mut is_later = false;
    for (_, counted) in &faults.counts {
        put_item(alloc, text, is_later, format, *counted)?;
        is_later = true;
    }
    text.push(b']')?;
    Ok(())
}

/// Appends an item, after a comma if it isn't the first.
fn put_item(
    alloc: Global,
    text: &mut Vec<u8>,
    is_later: bool,
    format: Option<FileFormat>,
    counted: FaultCount,
) -> Result<(), AllocError>
    ensures { OnOk result (text.new.items ≡ text.old.items ++ item_text is_later format counted) }
{
    let item = counted_value(alloc, format, counted)?;
    let part = compact_text_of(alloc, &item)?;
    if is_later {
        text.push(b',')?;
    }
    text.extend_from_slice(part.as_slice())?;
    Ok(())
}

/// A fault in a file of this format, with how often it occurs.
fn counted_value(
    alloc: Global,
    format: Option<FileFormat>,
    counted: FaultCount,
) -> Result<Value, AllocError>
    ensures { IfOk result (λ value. view value ≡ counted_data format counted) }
{
    let kind = counted.fault.number();
    let mut members = Map::new(alloc);
    put_text_if(&mut members, alloc, "record_name", kind_name(format, kind))?;
    put_number_if(&mut members, alloc, "number", kind)?;
    put_text(&mut members, alloc, "fault", counted.fault.name())?;
    put_number(&mut members, alloc, "count", u64::from(counted.count))?;
    Ok(Value::from(members))
}
