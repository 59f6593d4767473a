//! Counts a file's records, notes and faults.

ghost use Rattle.std.specs.Prelude.{◌≡◌, IfOk, OnOk};
ghost use Rattle.draw_ops.specs.Results.{result_map};
ghost use Rattle.draw_ops.specs.StepOf.{step_value_of};
ghost use Rattle.meta_headers.specs.Opening.{framing_of, opened};
ghost use Rattle.listing.specs.DryRunState.{dry_run_state_of};
ghost use Rattle.file_info.specs.Counting.{AddsRecord, CountsNext, HasTotals, tally};
ghost use Rattle.file_info.specs.Totals.{start_totals, totals_in, totals_of};

use crate::fault_counts::FaultCounts;
use crate::totals::Totals;
use canvas::OutOfMemory;
use draw_ops::{Fault, Format, Notes, RecordFault, Rules, Step};
use emf_records::Emf;
use listing::{DryRun, RecordWalk, first_place, records_in, step_in};
use meta_headers::{FileFormat, open_file};
use std::alloc::Global;
use wmf_records::Wmf;

/// Counts the records of a file, the notes of its headers and records, and its faults: the headers' fault, the fault of
/// each record as a listing under these rules has it, and the one by which the records break.
pub fn count_records(alloc: Global, rules: Rules, file: &[u8]) -> Result<Totals, OutOfMemory>
    ensures { IfOk result (λ totals. HasTotals totals (totals_of rules file.now)) }
{
    let start = start(alloc, file)?;
    let mut dry_run = DryRun::new(alloc, rules, file)?;
    match FileFormat::of(file) {
        None => Ok(start),
        Some(FileFormat::Placeable) => {
            count_in::<Wmf>(FileFormat::Placeable, rules, file, &mut dry_run, start)
        }
        Some(FileFormat::Plain) => count_in::<Wmf>(
            FileFormat::Plain,
            rules,
            file,
            &mut dry_run,
            start,
        ),
        Some(FileFormat::Emf) => count_in::<Emf>(FileFormat::Emf, rules, file, &mut dry_run, start),
    }
}

/// What is counted before the first record: the notes of the headers, or their fault.
fn start(alloc: Global, file: &[u8]) -> Result<Totals, OutOfMemory>
    ensures { IfOk result (λ totals. HasTotals totals (start_totals (opened file.now))) }
{
    let mut faults = FaultCounts::new(alloc);
    match open_file(file) {
        Ok(opened) => Ok(Totals {
            records: 0,
            notes: Notes::of(opened.notes),
            faults,
        }),
        Err(fault) => {
            faults.add(fault)?;
            Ok(Totals {
                records: 0,
                notes: Notes::none(),
                faults,
            })
        }
    }
}

/// Counts the records of a file with this framing, under these rules.
fn count_in<'a, F: Format>(
    format: FileFormat,
    rules: Rules,
    file: &'a [u8],
    dry_run: &mut DryRun<'a>,
    mut totals: Totals,
) -> Result<Totals, OutOfMemory>
    requires framing { framing_of format ≡ F.framing }
    requires state { dry_run.old ≡ dry_run_state_of rules file.now }
    requires start { HasTotals totals (start_totals (opened file.now)) }
    ensures { IfOk result (λ totals. HasTotals totals (totals_in format rules file.now)) }
{
    let mut walk = RecordWalk::<F>::new(records_in(format, file), first_place(format));
    while count_next(format, &mut walk, dry_run, &mut totals)? {}
    Ok(totals)
}

/// Counts the next record, and returns true; or at the end of the records counts the fault by which they break, if they
/// do.
fn count_next<'a, F: Format>(
    format: FileFormat,
    walk: &mut RecordWalk<'a, F>,
    run: &mut DryRun<'a>,
    totals: &mut Totals,
) -> Result<bool, OutOfMemory>
    requires framing { framing_of format ≡ F.framing }
    ensures { IfOk result (CountsNext format (tally run.old walk.old totals.old) (tally run.new walk.new totals.new)) }
{
    match walk.next_record() {
        Ok(Some(given)) => {
            let decoded = step_in(format, given);
            let is_end = given.record.kind == F::end_kind();
            let fault = run.try_step(&decoded, is_end);
            totals.records = walk.number();
            add_record(totals, &decoded, fault)?;
            Ok(true)
        }
        Ok(None) => Ok(false),
        Err(fault) => {
            totals.faults.add(Fault::Record(fault))?;
            Ok(false)
        }
    }
}

/// Counts the notes of a decoded record, and the fault that is found in it, given the one that runs have.
fn add_record(
    totals: &mut Totals,
    decoded: &Result<Step<'_>, RecordFault>,
    run: Option<RecordFault>,
) -> Result<(), OutOfMemory>
    ensures { OnOk result (AddsRecord totals.old (result_map step_value_of decoded.now) run totals.new) }
{
    match decoded {
        Err(fault) => totals.faults.add(Fault::Record(*fault)),
        Ok(step) => {
            totals.notes = totals.notes.with_all(step.notes);
            match run {
                Some(fault) => totals.faults.add(Fault::Record(fault)),
                None => Ok(()),
            }
        }
    }
}
