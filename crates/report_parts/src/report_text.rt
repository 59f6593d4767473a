//! The text of a report.

ghost use Rattle.std.specs.Prelude.{◌≡◌, IfOk, false};
ghost use Rattle.serde_json.specs.View.{view};
ghost use Rattle.serde_json.specs.Written.{compact_text, has_float};
ghost use Rattle.report_parts.specs.Parts.{report_text};

use serde_json::Value;
use std::alloc::{AllocError, Global};

/// A value as compact JSON. All numbers in it are integers.
pub fn compact_text_of(alloc: Global, value: &Value) -> Result<Vec<u8>, AllocError>
    requires { has_float (view value.now) ≡ false }
    ensures { IfOk result (λ text. text.items ≡ compact_text (view value.now)) }
{
    value.to_vec(alloc)
}

/// The text of a report: compact JSON and a line feed. All numbers in the report are integers.
pub fn report_text_of(alloc: Global, report: &Value) -> Result<Vec<u8>, AllocError>
    requires { has_float (view report.now) ≡ false }
    ensures { IfOk result (λ text. text.items ≡ report_text (view report.now)) }
{
    let mut text = report.to_vec(alloc)?;
    text.push(b'\n')?;
    Ok(text)
}
