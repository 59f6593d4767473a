//! Checking a certificate's entries against the records of a file.

ghost use Rattle.std.specs.Prelude.{◌≡◌, ◌≤◌, ◌⊎◌, IfErr, IfOk, length};
ghost use Rattle.draw_ops.specs.Records.{record_limit};
ghost use Rattle.preflight_cert.specs.Checks.{Checks, EndsCheck, StopsCheck};
ghost use Rattle.preflight_cert.specs.EntriesOf.{entries_of};
ghost use Rattle.preflight_cert.specs.Refusal.{IsWantOfMemory, ReportsNumber};

use crate::certificate_entry::Entries;
use crate::covering::take_entry;
use crate::emf_plus::EmfPlus;
use crate::refusal::Refusal;
use crate::stepping::play_next;
use crate::uses::Uses;
use dc_stack::{Draw, Machine};
use draw_ops::{Notes, OpSource, RecordFault, Rules, Step};
use object_tables::Table;

/// The totals of a file's records.
#[derive(Clone, Copy, Debug, PartialEq, Eq)]
pub struct Totals {
    /// The most pixels that the drawings write, by their entries.
    pub writes: u64,
    /// The number of records, including the end record.
    pub records: u32,
    /// The number of notes of each kind.
    pub notes: Notes,
    /// What the records use of what their rules can allow.
    pub uses: Uses,
}

impl Totals {
    /// The totals before the first record, with these notes of the headers.
    pub(crate) fn start(noted: Notes) -> Totals
        ensures writes { result.writes ≡ 0 }
        ensures records { result.records ≡ 0 }
        ensures notes { result.notes ≡ noted }
    {
        Totals {
            writes: 0,
            records: 0,
            notes: noted,
            uses: Uses::NONE,
        }
    }
}

/// Checks a source's remaining steps against entries, and returns their totals, added to the given notes. The error is
/// the first fault of a step or of an entry, with its record, or `OutOfMemory` without one.
#[tactic(auto, using(crate::proofs::BudgetLemmas::drawn))]
pub(crate) fn check_steps<'a, S: OpSource<'a>, T: Table<'a>>(
    source: &mut S,
    machine: &mut Machine<'a, T>,
    given: Entries<'_>,
    noted: Notes,
    rules: Rules,
) -> Result<Totals, Refusal>
    requires rules { machine.old.state.rules ≡ rules }
    requires short { length (S.content source.old).steps ≤ record_limit }
    ensures checked { IfOk result
        (λ totals. Checks (S.content source.old) machine.old (entries_of given.entry) noted.counts totals machine.new) }
    ensures refusal { IfErr result (λ r. StopsCheck (S.content source.old) machine.old (entries_of given.entry) r ⊎ IsWantOfMemory r) }
    ensures number_reported { IfErr result ReportsNumber }
{
    let mut entries = given;
    let mut totals = Totals::start(noted);
    let mut emf_plus = EmfPlus::NONE;
    let mut step: Step<'a> = Step::without_effect();
    let mut drawn: Option<Draw<'a>> = None;
    loop {
        let is_played = match play_next(source, machine, totals.records, &mut step, &mut drawn) {
            Ok(is_played) => is_played,
            Err(refusal) => return Err(refusal),
        };
        if !is_played {
            totals.uses = match emf_plus.uses(rules, machine.held_deletions(), totals.records) {
                Ok(uses) => uses,
                Err(refusal) => return Err(refusal),
            };
            return checked_end(entries, totals);
        }
        match take_entry(step.number, &drawn, machine, &mut entries) {
            Ok(more) => totals.writes += more,
            Err(fault) => return Err(Refusal::at(step.number, fault)),
        }
        emf_plus = emf_plus.with(step.notes, drawn.is_some());
        totals.notes = totals.notes.with_all(step.notes);
        totals.records += 1;
    }
}

/// After the last record no entry may remain.
fn checked_end(entries: Entries<'_>, totals: Totals) -> Result<Totals, Refusal>
    ensures end { EndsCheck totals.records (entries_of entries.entry) totals result }
    ensures number_reported { IfErr result ReportsNumber }
{
    if entries.is_empty() {
        return Ok(totals);
    }
    Err(Refusal::at(totals.records.saturating_sub(1), RecordFault::WrongEntry))
}
