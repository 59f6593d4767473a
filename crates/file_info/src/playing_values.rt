//! Values in the report about a file: how its run on the largest surface ends.

ghost use Rattle.std.specs.Prelude.{◌≡◌, IfOk, option_map};
ghost use Rattle.serde_json.specs.View.{view};
ghost use Rattle.report_parts.specs.Parts.{whole_if};
ghost use Rattle.file_info.specs.InfoReport.{drawings_if, fault_if, kind_if, name_if, objects_if, record_if, uses_if};

use crate::playing::Playing;
use listing::record_name;
use meta_headers::FileFormat;
use report_parts::uses_value;
use serde_json::Value;
use std::alloc::{AllocError, Global};

/// The number of drawings, or null if the file doesn't play.
pub(crate) fn drawings_value(playing: Playing) -> Value
    ensures { view result ≡ whole_if (drawings_if playing) }
{
    match playing {
        Playing::Plays { drawings, .. } => Value::from(drawings),
        Playing::Stops(_) => Value::Null,
    }
}

/// The number of places for objects, or null if the file doesn't play.
pub(crate) fn objects_value(playing: Playing) -> Value
    ensures { view result ≡ whole_if (objects_if playing) }
{
    match playing {
        Playing::Plays { objects, .. } => Value::from(objects),
        Playing::Stops(_) => Value::Null,
    }
}

/// What the file uses of what its rules allow, or null if it doesn't play.
pub(crate) fn allowed_value(alloc: Global, playing: Playing) -> Result<Value, AllocError>
    ensures { IfOk result (λ value. view value ≡ uses_if playing) }
{
    match playing {
        Playing::Plays { uses, .. } => uses_value(alloc, uses.held_deletion, uses.emf_plus),
        Playing::Stops(_) => Ok(Value::Null),
    }
}

/// The name of the first fault. `None` if the file plays.
pub(crate) fn fault_of(playing: Playing) -> Option<&'static str>
    ensures { option_map (λ name. name.now) result ≡ fault_if playing }
{
    match playing {
        Playing::Plays { .. } => None,
        Playing::Stops(refusal) => Some(refusal.fault.name()),
    }
}

/// The kind of record that the first fault refers to, if there is one.
pub(crate) fn kind_of(playing: Playing) -> Option<u32>
    ensures { result ≡ kind_if playing }
{
    match playing {
        Playing::Plays { .. } => None,
        Playing::Stops(refusal) => refusal.fault.number(),
    }
}

/// The standard's name of a kind of record in a file of this format. `None` if there is no kind, or if it has no name.
pub fn kind_name(format: Option<FileFormat>, kind: Option<u32>) -> Option<&'static str>
    ensures { option_map (λ name. name.now) result ≡ name_if format kind }
{
    match (format, kind) {
        (Some(format), Some(kind)) => record_name(format, kind),
        _ => None,
    }
}

/// The number of the record that the first fault lies in, if there is one.
pub(crate) fn record_of(playing: Playing) -> Option<u32>
    ensures { result ≡ record_if playing }
{
    match playing {
        Playing::Plays { .. } => None,
        Playing::Stops(refusal) => refusal.number,
    }
}
