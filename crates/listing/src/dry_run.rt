//! The faults that a file's records have in its runs, on surfaces of any size.

ghost use Rattle.std.specs.Prelude.{◌≡◌, ◌↔◌, Option, Some, None, IfErr, IfOk, OnErr, OnOk, IsTrue};
ghost use Rattle.std.specs.Option.{option_map};
ghost use Rattle.draw_ops.specs.OperationOf.{operation_of};
ghost use Rattle.draw_ops.specs.Results.{result_map};
ghost use Rattle.draw_ops.specs.StepOf.{step_value_of};
ghost use Rattle.draw_ops.specs.declared.fault.Fault.TheVariants.{Record};
ghost use Rattle.draw_ops.specs.declared.record_fault.RecordFault.{RecordFault as TheRecordFault};
ghost use Rattle.draw_ops.specs.declared.record_fault.RecordFault.TheVariants.{NibTooWide};
ghost use Rattle.meta_headers.specs.OpenedOf.{opened_of};
ghost use Rattle.mapping.specs.PlaceOf.{surface_of};
ghost use Rattle.dc_stack.specs.OperationFault.{fault_of};
ghost use Rattle.preflight_cert.specs.Reached.{Opens};
ghost use Rattle.listing.specs.DryRunState.{HasFault, after_played, after_record, after_step, end_fault, fault_in_runs, fault_met, dry_run_state_of};
ghost use Rattle.listing.specs.DryRunState.{run_fault, start_dry_run};

use crate::largest::{fault_met, is_painting, too_wide};
use canvas::OutOfMemory;
use dc_stack::{Draw, MAX_PIECES, MAX_SAVED_STATES, Machine, fault_law};
use draw_ops::{Fault, Op, RecordFault, Rules, Step};
use mapping::{MAX_SURFACE_SIDE, Place, nib_law};
use meta_headers::{Opened, open_file_by};
use object_tables::{FileTable, Table, full_slots};
use preflight_cert::{EmfPlus, need_law};
use std::alloc::Global;
use std::marker::Model;

/// A run on the smallest surface that no record has stopped yet, with enough memory for any file.
#[derive(Drop)]
struct SmallestRun<'a> {
    machine: Machine<'a, FileTable<'a>>,
    /// Whether the records so far contain EMF+, and whether they draw.
    found: EmfPlus,
    largest: Place,
}

impl<'a> Model for SmallestRun<'a> {
    ghost use Rattle.mapping.specs.PlaceOf.{surface_of};
    ghost use Rattle.listing.specs.DryRunState.{IsOnItsWay, DryRunState};

    ghost Value = { DryRunState };

    ghost view = { λ r. record { state = r.machine.state; found = r.found; smallest = r.machine.surface; largest = surface_of r.largest } };

    ghost invariant = { λ r. IsOnItsWay r.machine (surface_of r.largest) };
}

impl<'a> SmallestRun<'a> {
    /// The run of an opened file before its first record.
    fn new(alloc: Global, opened: &Opened<'a>) -> Result<SmallestRun<'a>, OutOfMemory>
        ensures { IfOk result (λ run. run ≡ start_dry_run (opened_of opened.now)) }
    {
        let smallest = Place::new(&opened.fine_frame, 1, 1);
        let largest = Place::new(&opened.fine_frame, MAX_SURFACE_SIDE, MAX_SURFACE_SIDE);
        let table = FileTable::new(alloc, opened.handles);
        let mut machine = Machine::new(alloc, opened, smallest, table);
        let slots = full_slots(opened.handles);
        match machine.reserve(MAX_SAVED_STATES, slots, MAX_PIECES) {
            Ok(()) => Ok(SmallestRun {
                machine,
                found: EmfPlus::NONE,
                largest,
            }),
            Err(_) => Err(OutOfMemory),
        }
    }

    /// Plays a step, and returns the fault that runs have in it only on the largest surface. Fails with the fault on the
    /// smallest surface, and then nothing has changed.
    fn play(&mut self, step: &Step<'a>) -> Result<Option<RecordFault>, Fault>
        ensures no_fault { OnOk result (fault_of (operation_of step.now.op) self.old.state self.old.smallest ≡ None) }
        ensures there { IfOk result (λ it. it ≡ fault_met (operation_of step.now.op) self.old.state self.old.largest) }
        ensures played { OnOk result (self.new ≡ after_played (step_value_of step.now) self.old) }
        ensures on_smallest { IfErr result (HasFault (operation_of step.now.op) self.old.state self.old.smallest) }
        ensures kept { OnErr result (self.new ≡ self.old) }
    {
        need_law();
        let mut drawn: Option<Draw<'a>> = None;
        match self.machine.step_into(&step.op, &mut drawn) {
            Ok(()) => {
                self.found = self.found.with(step.notes, drawn.is_some());
                Ok(fault_met(&self.machine, &step.op, &drawn, self.largest))
            }
            Err(fault) => Err(fault),
        }
    }

    /// The fault of the end record, if the records before it contain EMF+ and don't draw, unless the rules allow that.
    fn end_fault(&self, is_end: bool) -> Option<RecordFault>
        ensures { result ≡ end_fault is_end self.now.state.rules self.now.found }
    {
        let rules = self.machine.rules();
        if is_end && self.found.is_alone(rules) && !rules.allows_emf_plus() {
            return Some(RecordFault::EmfPlusAlone);
        }
        None
    }

    /// The fault that runs have on the largest surface in an operation that has this fault on the smallest. The run is
    /// over.
    fn stopped_by(&mut self, op: &Op<'a>, fault: Fault) -> Option<RecordFault>
        requires { HasFault (operation_of op.now) self.old.state self.old.smallest fault }
        ensures { result ≡ fault_met (operation_of op.now) self.old.state self.old.largest }
    {
        fault_law();
        nib_law();
        let largest = self.largest;
        let found = in_record(fault);
        if is_painting(op) {
            return found;
        }
        if is_too_wide(found) {
            Some(too_wide(&mut self.machine, op, largest))
        } else {
            found
        }
    }
}

/// Finds the fault that each record of a file has in its runs, record by record.
#[derive(Drop)]
pub struct DryRun<'a> {
    run: Option<SmallestRun<'a>>,
}

impl<'a> Model for DryRun<'a> {
    ghost use Rattle.std.specs.Prelude.{Option};
    ghost use Rattle.listing.specs.DryRunState.{DryRunState};

    ghost Value = { Option DryRunState };

    ghost view = { λ j. j.run };
}

impl<'a> DryRun<'a> {
    /// Finds the faults of a file's records under these rules from the first one on, and none if the file doesn't open.
    /// All memory is allocated here; its amount depends only on the file's headers.
    pub fn new(alloc: Global, rules: Rules, file: &'a [u8]) -> Result<DryRun<'a>, OutOfMemory>
        ensures start { IfOk result (λ dry_run. dry_run ≡ dry_run_state_of rules file.entry.now) }
        ensures opens { OnErr result (Opens file.entry.now) }
    {
        let opened = match open_file_by(rules, file) {
            Ok(opened) => opened,
            Err(_) => return Ok(DryRun { run: None }),
        };
        match SmallestRun::new(alloc, &opened) {
            Ok(run) => Ok(DryRun { run: Some(run) }),
            Err(fault) => Err(fault),
        }
    }

    /// The fault that the next record has in runs, by its decoded step, and by whether it is the end record.
    pub fn try_step(
        &mut self,
        decoded: &Result<Step<'a>, RecordFault>,
        is_end: bool,
    ) -> Option<RecordFault>
        ensures fault { result ≡ fault_in_runs is_end self.old (result_map step_value_of decoded.now) }
        ensures after { self.new ≡ after_record self.old (result_map step_value_of decoded.now) }
    {
        let Ok(step) = decoded else {
            self.run = None;
            return None;
        };
        self.dry_run_step(step, is_end)
    }

    /// The fault that the next record's step has in runs.
    fn dry_run_step(&mut self, step: &Step<'a>, is_end: bool) -> Option<RecordFault>
        ensures fault { result ≡ run_fault is_end self.old (step_value_of step.now) }
        ensures after { self.new ≡ after_step self.old (step_value_of step.now) }
    {
        let Some(run) = &mut self.run else {
            return None;
        };
        let end = run.end_fault(is_end);
        match run.play(step) {
            Ok(met) => met.or(end),
            Err(fault) => {
                let met = run.stopped_by(&step.op, fault);
                self.run = None;
                met.or(end)
            }
        }
    }
}

/// The fault, if it lies in a record.
fn in_record(fault: Fault) -> Option<RecordFault>
    ensures { (found : Option TheRecordFault) → option_map Record found ≡ Some fault → result ≡ found }
{
    match fault {
        Fault::Record(fault) => Some(fault),
        _ => None,
    }
}

/// Whether the fault is that of a nib that is too wide.
fn is_too_wide(found: Option<RecordFault>) -> bool
    ensures { IsTrue result ↔ found ≡ Some NibTooWide }
{
    match found {
        Some(RecordFault::NibTooWide) => true,
        _ => false,
    }
}
