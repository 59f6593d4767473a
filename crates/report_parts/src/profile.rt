//! The profile in a report, and what a file uses of what its rules allow.

ghost use Rattle.std.specs.Prelude.{◌≡◌, IfOk, OnOk};
ghost use Rattle.serde_json.specs.View.{members_view, view};
ghost use Rattle.report_parts.specs.Profile.{put_used, uses_data, with_allowed, with_profile};

use crate::members::{put_number, put_text};
use draw_ops::Rules;
use serde_json::{Map, Value, put};
use std::alloc::{AllocError, Global};

/// What a file uses of what its rules allow, by name, with how often. What isn't used is left out.
pub fn uses_value(alloc: Global, deletions: u32, emf_plus: u32) -> Result<Value, AllocError>
    ensures { IfOk result (λ value. view value ≡ uses_data deletions emf_plus) }
{
    let mut members = Map::new(alloc);
    put_if_used(&mut members, alloc, "held-deletion", deletions)?;
    put_if_used(&mut members, alloc, "emf-plus", emf_plus)?;
    Ok(Value::from(members))
}

/// Adds how often something is used, if it is.
fn put_if_used(
    map: &mut Map<String, Value>,
    alloc: Global,
    name: &str,
    count: u32,
) -> Result<(), AllocError>
    ensures { OnOk result (members_view map.new.entries ≡ put_used name.now count (members_view map.old.entries)) }
{
    if count == 0 {
        return Ok(());
    }
    put_number(map, alloc, name, u64::from(count))
}

/// Under the print profile, adds the profile's name.
pub fn put_profile(
    members: &mut Map<String, Value>,
    alloc: Global,
    rules: Rules,
) -> Result<(), AllocError>
    ensures { OnOk result (members_view members.new.entries ≡ with_profile rules (members_view members.old.entries)) }
{
    if !rules.is_print() {
        return Ok(());
    }
    put_text(members, alloc, "profile", "print")
}

/// Under the print profile, adds what a file uses of what the rules allow.
pub fn put_allowed(
    members: &mut Map<String, Value>,
    alloc: Global,
    rules: Rules,
    uses: Value,
) -> Result<(), AllocError>
    ensures { OnOk result (members_view members.new.entries ≡ with_allowed rules (view uses) (members_view members.old.entries)) }
{
    if !rules.is_print() {
        return Ok(());
    }
    put(members, alloc, "allowed", uses)
}
