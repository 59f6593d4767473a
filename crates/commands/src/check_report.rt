//! The report of a check, as JSON.

ghost use Rattle.std.specs.Prelude.{◌≡◌, IfOk, OnOk};
ghost use Rattle.serde_json.specs.Data.{object};
ghost use Rattle.serde_json.specs.View.{members_view, view};
ghost use Rattle.report_parts.specs.Parts.{report_text};
ghost use Rattle.commands.specs.CheckReport.{needs_data, rejected_members, with_used};
ghost use Rattle.commands.specs.ClearedFiles.{members_of};

use dc_stack::Needs;
use draw_ops::Rules;
use preflight_cert::{Cleared, Refusal, Uses};
use report_parts::{
    notes_value, pair_value, put_allowed, put_number, put_number_if, put_profile, put_text,
    report_text_of, uses_value,
};
use serde_json::{Map, Value, json, put};
use std::alloc::{AllocError, Global};

/// The text of the report for an accepted certificate.
pub(crate) fn accepted_report(alloc: Global, cleared: &Cleared<'_>) -> Result<Vec<u8>, AllocError>
    ensures { IfOk result (λ text. text.items ≡ report_text (object (members_of cleared.now))) }
{
    let members = accepted_members(alloc, cleared)?;
    report_text_of(alloc, &Value::from(members))
}

/// The members of the report for an accepted certificate.
pub(crate) fn accepted_members(
    alloc: Global,
    cleared: &Cleared<'_>,
) -> Result<Map<String, Value>, AllocError>
    ensures { IfOk result (λ members. members_view members.entries ≡ members_of cleared.now) }
{
    let certificate = cleared.certificate;
    let format = cleared.opened.format.name();
    let frame = pair_value(
        alloc,
        cleared.opened.frame.width,
        cleared.opened.frame.height,
    )?;
    let max = pair_value(alloc, certificate.max_width, certificate.max_height)?;
    let needs = needs_value(alloc, certificate.needs)?;
    let notes = notes_value(alloc, cleared.notes)?;
    let mut members = Map::new(alloc);
    put_number(&mut members, alloc, "writes", certificate.writes)?;
    put_number(&mut members, alloc, "records", u64::from(cleared.records))?;
    put(&mut members, alloc, "notes", notes)?;
    put(&mut members, alloc, "needs", needs)?;
    put(&mut members, alloc, "max", max)?;
    put(&mut members, alloc, "frame", frame)?;
    put_text(&mut members, alloc, "format", format)?;
    put_number(&mut members, alloc, "drawings", certificate.len() as u64)?;
    put(&mut members, alloc, "accepted", Value::from(true))?;
    put_used(&mut members, alloc, cleared.opened.rules, cleared.uses)?;
    Ok(members)
}

/// Under the print profile, adds the profile, and what a file uses of what the rules allow.
fn put_used(
    members: &mut Map<String, Value>,
    alloc: Global,
    rules: Rules,
    uses: Uses,
) -> Result<(), AllocError>
    ensures { OnOk result (members_view members.new.entries ≡ with_used rules uses (members_view members.old.entries)) }
{
    let used = uses_value(alloc, uses.held_deletion, uses.emf_plus)?;
    put_profile(members, alloc, rules)?;
    put_allowed(members, alloc, rules, used)
}

/// The needs, by name.
fn needs_value(alloc: Global, needs: Needs) -> Result<Value, AllocError>
    ensures { IfOk result (λ value. view value ≡ needs_data needs) }
{
    json!(in alloc; {
        "depth": needs.depth,
        "edges": needs.edges,
        "pieces": needs.pieces,
        "slots": needs.slots,
    })
}

/// The text of the report for a rejection.
pub(crate) fn rejected_report(alloc: Global, refusal: Refusal) -> Result<Vec<u8>, AllocError>
    ensures { IfOk result (λ text. text.items ≡ report_text (object (rejected_members refusal.number refusal.fault))) }
{
    let members = rejected_members(alloc, refusal)?;
    report_text_of(alloc, &Value::from(members))
}

/// The members of the report for a rejection.
pub(crate) fn rejected_members(
    alloc: Global,
    refusal: Refusal,
) -> Result<Map<String, Value>, AllocError>
    ensures { IfOk result (λ members. members_view members.entries ≡ rejected_members refusal.number refusal.fault) }
{
    let fault = refusal.fault;
    let mut members = Map::new(alloc);
    put_number_if(&mut members, alloc, "record", refusal.number)?;
    put_number_if(&mut members, alloc, "number", fault.number())?;
    put_text(&mut members, alloc, "fault", fault.name())?;
    put_number(&mut members, alloc, "code", u64::from(fault.code()))?;
    put(&mut members, alloc, "accepted", Value::from(false))?;
    Ok(members)
}
