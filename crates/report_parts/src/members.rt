//! Members of an object.

ghost use Rattle.std.specs.Prelude.{◌≡◌, IfOk, OnOk};
ghost use Rattle.serde_json.specs.Data.{string};
ghost use Rattle.serde_json.specs.View.{view};
ghost use Rattle.report_parts.specs.Parts.{pair, text_if, whole, whole_if};
ghost use Rattle.report_parts.specs.Putting.{Puts, text_in};

use serde_json::{Map, Value, json, put};
use std::alloc::{AllocError, Global};

/// Adds a number under its name to a map of members.
pub fn put_number(
    members: &mut Map<String, Value>,
    alloc: Global,
    name: &str,
    number: u64,
) -> Result<(), AllocError>
    ensures { OnOk result (Puts name.now (whole number) members.old.entries members.new.entries) }
{
    put(members, alloc, name, Value::from(number))
}

/// Adds a text under its name to a map of members.
pub fn put_text(
    members: &mut Map<String, Value>,
    alloc: Global,
    name: &str,
    text: &str,
) -> Result<(), AllocError>
    ensures { OnOk result (Puts name.now (string text.now) members.old.entries members.new.entries) }
{
    let value = Value::try_from_str(alloc, text)?;
    put(members, alloc, name, value)
}

/// Adds a number, or null if there is none, under its name to a map of members.
pub fn put_number_if(
    members: &mut Map<String, Value>,
    alloc: Global,
    name: &str,
    number: Option<u32>,
) -> Result<(), AllocError>
    ensures { OnOk result (Puts name.now (whole_if number) members.old.entries members.new.entries) }
{
    match number {
        Some(number) => put_number(members, alloc, name, u64::from(number)),
        None => put(members, alloc, name, Value::Null),
    }
}

/// Adds a text, or null if there is none, under its name to a map of members.
pub fn put_text_if(
    members: &mut Map<String, Value>,
    alloc: Global,
    name: &str,
    text: Option<&str>,
) -> Result<(), AllocError>
    ensures { OnOk result (Puts name.now (text_if (text_in text.entry)) members.old.entries members.new.entries) }
{
    match text {
        Some(text) => put_text(members, alloc, name, text),
        None => put(members, alloc, name, Value::Null),
    }
}

/// A list of two numbers.
pub fn pair_value(alloc: Global, first: u32, second: u32) -> Result<Value, AllocError>
    ensures { IfOk result (λ value. view value ≡ pair first second) }
{
    json!(in alloc; [first, second])
}
