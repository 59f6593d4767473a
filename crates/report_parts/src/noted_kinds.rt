//! Counts of notes.

ghost use Rattle.std.specs.Prelude.{◌≡◌, IfOk, OnOk};
ghost use Rattle.serde_json.specs.View.{members_view, view};
ghost use Rattle.report_parts.specs.Parts.{notes_data, with_kind};

use draw_ops::{Note, Notes};
use serde_json::{Map, Value, put};
use std::alloc::{AllocError, Global};

/// The kinds of notes that occurred, each with its count.
pub fn notes_value(alloc: Global, notes: Notes) -> Result<Value, AllocError>
    ensures { IfOk result (λ value. view value ≡ notes_data notes.counts) }
{
    let mut kinds = Map::new(alloc);
    put_kind(&mut kinds, alloc, Note::Skipped, notes)?;
    put_kind(&mut kinds, alloc, Note::EmfPlus, notes)?;
    put_kind(&mut kinds, alloc, Note::Isotropic, notes)?;
    put_kind(&mut kinds, alloc, Note::WidePen, notes)?;
    put_kind(&mut kinds, alloc, Note::DashedPen, notes)?;
    put_kind(&mut kinds, alloc, Note::AfterEnd, notes)?;
    put_kind(&mut kinds, alloc, Note::SizeField, notes)?;
    put_kind(&mut kinds, alloc, Note::PlaceableFields, notes)?;
    put_kind(&mut kinds, alloc, Note::PlaceableChecksum, notes)?;
    Ok(Value::from(kinds))
}

/// Adds the count of a kind under its name, if the kind occurred.
fn put_kind(
    kinds: &mut Map<String, Value>,
    alloc: Global,
    kind: Note,
    notes: Notes,
) -> Result<(), AllocError>
    ensures { OnOk result (members_view kinds.new.entries ≡ with_kind kind notes.counts (members_view kinds.old.entries)) }
{
    let count = notes.count(kind);
    if count == 0 {
        return Ok(());
    }
    put(kinds, alloc, kind.name(), Value::from(count))
}
