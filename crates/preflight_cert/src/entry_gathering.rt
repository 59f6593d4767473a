//! Gathering the entries of a file's drawings.

ghost use Rattle.std.specs.Prelude.{◌≡◌, ◌≤◌, ◌⊎◌, ◌^◌, IfErr, IfOk, IfSome, OnOk, length};
ghost use Rattle.draw_ops.specs.Records.{record_limit};
ghost use Rattle.std.specs.List.{All};
ghost use Rattle.mapping.specs.Nibs.{IsNib};
ghost use Rattle.dc_stack.specs.Draws.{IsPlacedDraw};
ghost use Rattle.dc_stack.specs.MachineState.{HasNib};
ghost use Rattle.preflight_cert.specs.DraftOf.{Adds};
ghost use Rattle.preflight_cert.specs.Drawings.{drawn_by};
ghost use Rattle.preflight_cert.specs.Gathered.{Gathers, StopsGathering, entry_if_drawn, least_drawing_budget};
ghost use Rattle.preflight_cert.specs.Refusal.{IsWantOfMemory, ReportsNumber};
ghost use Rattle.preflight_cert.specs.TextLaws.{IsEntry};
ghost use Rattle.preflight_cert.specs.declared.version.Version.TheVariants.{Mpc2};

use crate::budget::drawing_budget;
use crate::certificate_entry::Entry;
use crate::draft::Draft;
use crate::emf_plus::EmfPlus;
use crate::entry_check::Totals;
use crate::refusal::Refusal;
use crate::stepping::play_next;
use dc_stack::{Draw, Machine};
use draw_ops::{Fault, Notes, OpSource, Rules, Step};
use mapping::{Nib, Rect, box_law};
use object_tables::Table;
use span_fill::OutOfMemory;

/// Appends the entries of a source's remaining steps to a draft, and returns the totals of these steps, added to the
/// given notes.
#[tactic(auto, using(crate::proofs::GatheredLemmas::gathered))]
pub(crate) fn gather<'a, S: OpSource<'a>, T: Table<'a>>(
    source: &mut S,
    machine: &mut Machine<'a, T>,
    noted: Notes,
    rules: Rules,
    draft: &mut Draft,
) -> Result<Totals, Refusal>
    requires rules { machine.old.state.rules ≡ rules }
    requires short { length (S.content source.old).steps ≤ record_limit }
    ensures gathers { IfOk result
        (λ totals. Gathers (S.content source.old) machine.old draft.old noted.counts totals machine.new draft.new) }
    ensures few { IfOk result (λ totals. totals.records ≤ 2 ^ 20) }
    ensures refusal { IfErr result (λ r. StopsGathering (S.content source.old) machine.old r ⊎ IsWantOfMemory r) }
    ensures number_reported { IfErr result ReportsNumber }
{
    let mut totals = Totals::start(noted);
    let mut emf_plus = EmfPlus::NONE;
    let mut step: Step<'a> = Step::without_effect();
    let mut drawn: Option<Draw<'a>> = None;
    loop {
        let is_played = match play_next(source, machine, totals.records, &mut step, &mut drawn) {
            Ok(is_played) => is_played,
            Err(refusal) => return Err(refusal),
        };
        if !is_played {
            totals.uses = match emf_plus.uses(rules, machine.held_deletions(), totals.records) {
                Ok(uses) => uses,
                Err(refusal) => return Err(refusal),
            };
            return Ok(totals);
        }
        match add_entry(step.number, &drawn, machine, draft) {
            Ok(more) => totals.writes += more,
            Err(OutOfMemory) => return Err(Refusal::of_file(Fault::OutOfMemory)),
        }
        emf_plus = emf_plus.with(step.notes, drawn.is_some());
        totals.notes = totals.notes.with_all(step.notes);
        totals.records += 1;
    }
}

/// Appends the entry for a record's drawing, if it draws, with its bounding box and its nib. Returns the most pixels
/// that a run writes for it.
fn add_entry<'a, T: Table<'a>>(
    number: u32,
    drawn: &Option<Draw<'a>>,
    machine: &Machine<'a, T>,
    draft: &mut Draft,
) -> Result<u64, OutOfMemory>
    requires placed { IfSome drawn.now (IsPlacedDraw machine.now.surface machine.now.painted) }
    requires nib { IfSome drawn.now (HasNib machine.now.surface machine.now) }
    ensures entries { OnOk result (Adds draft.old draft.new (entry_if_drawn number (drawn_by machine.now drawn.now) machine.now.surface)) }
    ensures fits { OnOk result (All (IsEntry Mpc2) (entry_if_drawn number (drawn_by machine.now drawn.now) machine.now.surface)) }
    ensures budget { IfOk result
        (λ n. n ≡ least_drawing_budget (drawn_by machine.now drawn.now) machine.now.surface) }
    ensures few { IfOk result (λ n. n ≤ 134217728) }
{
    let Some(drawn) = drawn else {
        return Ok(0);
    };
    box_law();
    let entry = entry_of(number, drawn.bounds, drawn.nib);
    match draft.push(entry) {
        Ok(()) => Ok(drawing_budget(drawn, machine, &entry)),
        Err(OutOfMemory) => Err(OutOfMemory),
    }
}

/// The entry for a record's drawing with this box and nib.
fn entry_of(number: u32, bounds: Rect, nib: Nib) -> Entry
    requires { IsNib nib }
    ensures parts { result ≡ record { number = number; bounds = bounds; nib = nib } }
    ensures fits { IsEntry Mpc2 result }
{
    Entry {
        number,
        bounds,
        nib,
    }
}
