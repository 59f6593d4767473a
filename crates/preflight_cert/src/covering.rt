//! Comparing entries with drawings.

ghost use Rattle.std.specs.Prelude.{◌≡◌, ◌≤◌, IfOk, IfSome, List, OnOk};
ghost use Rattle.std.specs.Result.{result_err};
ghost use Rattle.mapping.specs.Boxes.{IsBoundingBox};
ghost use Rattle.mapping.specs.declared.geometry.Point.{Point};
ghost use Rattle.dc_stack.specs.Draws.{IsPlacedDraw};
ghost use Rattle.dc_stack.specs.MachineState.{HasNib};
ghost use Rattle.preflight_cert.specs.Drawings.{drawn_by};
ghost use Rattle.preflight_cert.specs.Entries.{covers, covers_nib, drawing_budget, entries_after, entry_fault};
ghost use Rattle.preflight_cert.specs.EntriesOf.{entries_of};

use crate::budget::drawing_budget;
use crate::certificate_entry::Entries;
use dc_stack::{Draw, Machine};
use draw_ops::RecordFault;
use mapping::{Nib, Rect};
use object_tables::Table;

/// Takes the entry for a record's drawing, if it draws, and returns the most pixels that its layers write. Fails with
/// `WrongEntry` if the next entry is for another record, or if there is none; with `BoxTooSmall` if its box lacks a
/// point; and with `NibTooSmall` if its nib has fewer columns or rows than the drawing's.
pub(crate) fn take_entry<'a, T: Table<'a>>(
    number: u32,
    drawn: &Option<Draw<'a>>,
    machine: &Machine<'a, T>,
    entries: &mut Entries<'_>,
) -> Result<u64, RecordFault>
    requires placed { IfSome drawn.now (IsPlacedDraw machine.now.surface machine.now.painted) }
    requires nib { IfSome drawn.now (HasNib machine.now.surface machine.now) }
    ensures fault { result_err result ≡ entry_fault number (drawn_by machine.now drawn.now) (entries_of entries.old) machine.now.surface }
    ensures budget { IfOk result
        (λ n. n ≡ drawing_budget (drawn_by machine.now drawn.now) (entries_of entries.old) machine.now.surface) }
    ensures few { IfOk result (λ n. n ≤ 134217728) }
    ensures after { OnOk result
        (entries_of entries.new ≡ entries_after (drawn_by machine.now drawn.now) (entries_of entries.old)) }
{
    let Some(drawn) = drawn else {
        return Ok(0);
    };
    let Some((entry, rest)) = entries.split_first() else {
        return Err(RecordFault::WrongEntry);
    };
    if entry.number != number {
        return Err(RecordFault::WrongEntry);
    }
    if !covers(entry.bounds, drawn.bounds) {
        return Err(RecordFault::BoxTooSmall);
    }
    if !covers_nib(entry.nib, drawn.nib) {
        return Err(RecordFault::NibTooSmall);
    }
    *entries = rest;
    Ok(drawing_budget(drawn, machine, &entry))
}

/// Whether a box of the plane contains all points with the bounding box `least`: it contains that box, or there is no
/// point.
#[tactic(auto, using(crate::proofs::CoverLemmas::covering))]
fn covers(bounds: Rect, least: Rect) -> bool
    ensures { (points : List Point) → IsBoundingBox least points → result ≡ covers bounds points }
{
    if least.r < least.l {
        return true;
    }
    bounds.contains(least)
}

/// Whether a nib has at least as many columns and rows as another.
fn covers_nib(nib: Nib, other: Nib) -> bool
    ensures { result ≡ covers_nib nib other }
{
    other.x <= nib.x && other.y <= nib.y
}
