//! Checking a certificate against a file.

ghost use Rattle.std.specs.Prelude.{◌≡◌, ◌⊎◌, Ok, IfErr, IfOk, IfSome, OnOk};
ghost use Rattle.draw_ops.specs.Fault.{IsInRecord};
ghost use Rattle.meta_headers.specs.File.{IsOpenedFrom};
ghost use Rattle.preflight_cert.specs.Answer.{IsAnswer, IsRejectedWith, accepted, are_within, rejects, total_fault};
ghost use Rattle.preflight_cert.specs.CertificateOf.{certificate_of};
ghost use Rattle.preflight_cert.specs.ClearedFacts.{CountsItsRecords, IsSoundFor};
ghost use Rattle.preflight_cert.specs.CertificateReading.{read_certificate, rules_in};
ghost use Rattle.preflight_cert.specs.OpenedRecords.{AnswersRecordsOf, CountsRecordsOf, RejectsRecordsOf};
ghost use Rattle.preflight_cert.specs.Reached.{OpensBoth};
ghost use Rattle.preflight_cert.specs.Refusal.{IsWantOfMemory, ReportsNumber};

use crate::certificate::Certificate;
use crate::cleared::Cleared;
use crate::entry_check::check_steps;
use crate::laws::answer_law;
use crate::refusal::Refusal;
use dc_stack::{Machine, Needs};
use draw_ops::{Fault, Notes, content_law};
use mapping::Place;
use meta_headers::{Opened, open_file, opening_law};
use object_tables::FileTable;
use std::alloc::Global;

/// Checks a certificate against a file, at its bound and under its rules. If it is accepted, a run on any surface within
/// that bound has no fault and writes no more pixels than certified. Otherwise returns the first of these faults:
///
/// - the file doesn't open, or else the certificate can't be read;
/// - a record has a fault at the bound, or its drawing no entry (`WrongEntry`), or one whose box lacks a point
///   (`BoxTooSmall`) or whose nib is smaller (`NibTooSmall`);
/// - an EMF file contains EMF+ and draws nothing (`EmfPlusAlone`);
/// - there is a surplus entry;
/// - a need, or else the number of writes, is too small.
///
/// Memory is allocated only after both were read.
pub fn check<'a>(
    alloc: Global,
    file: &'a [u8],
    certificate: &'a [u8],
) -> Result<Cleared<'a>, Refusal>
    ensures accepted { OnOk result (IsAnswer file.now certificate.now accepted) }
    ensures opened { IfOk result (λ c. IsOpenedFrom file.now c.opened) }
    ensures read { IfOk result (λ c. read_certificate certificate.now ≡ Ok (certificate_of c.certificate)) }
    ensures rules { IfOk result (λ c. c.opened.rules ≡ rules_in certificate.now) }
    ensures certificate_rules { IfOk result (λ c. c.certificate.rules ≡ rules_in certificate.now) }
    ensures counts { IfOk result CountsItsRecords }
    ensures sound { IfOk result (IsSoundFor file.now) }
    ensures refusal { IfErr result (λ r. IsRejectedWith file.now certificate.now r ⊎ IsWantOfMemory r) }
    ensures memory { IfErr result (λ r. r.fault ≡ Fault.OutOfMemory → OpensBoth file.now certificate.now) }
    ensures number_reported { IfErr result ReportsNumber }
{
    answer_law();
    opening_law();
    let opened = match open_file(file) {
        Ok(opened) => opened,
        Err(fault) => return Err(Refusal::of_file(fault)),
    };
    let certificate = match Certificate::read(certificate) {
        Ok(certificate) => certificate,
        Err(fault) => return Err(Refusal::of_file(fault)),
    };
    match check_opened(alloc, opened.by(certificate.rules), certificate) {
        Ok(cleared) => Ok(cleared),
        Err(refusal) => Err(refusal),
    }
}

/// The same for an opened file and a certificate that was read.
fn check_opened<'a>(
    alloc: Global,
    opened: Opened<'a>,
    certificate: Certificate<'a>,
) -> Result<Cleared<'a>, Refusal>
    requires ruled { certificate.rules ≡ opened.rules }
    ensures opened { IfOk result (λ c. c.opened ≡ opened.entry) }
    ensures certificate { IfOk result (λ c. c.certificate ≡ certificate.entry) }
    ensures counts { IfOk result (λ c. CountsRecordsOf opened.entry c.records c.notes.counts c.uses) }
    ensures accepted { OnOk result (AnswersRecordsOf opened.entry certificate.entry accepted) }
    ensures refusal { IfErr result (λ r. RejectsRecordsOf opened.entry certificate.entry r ⊎ IsWantOfMemory r) }
    ensures number_reported { IfErr result ReportsNumber }
{
    content_law();
    let place = Place::new(
        &opened.fine_frame,
        certificate.max_width,
        certificate.max_height,
    );
    let table = FileTable::new(alloc, opened.handles);
    let mut machine = Machine::new(alloc, &opened, place, table);
    let totals = match check_steps(
        &mut opened.source(),
        &mut machine,
        certificate.entries,
        Notes::of(opened.notes),
        opened.rules,
    ) {
        Ok(totals) => totals,
        Err(refusal) => return Err(refusal),
    };
    match total_fault(machine.needs(), totals.writes, &certificate) {
        None => Ok(Cleared {
            opened,
            certificate,
            records: totals.records,
            notes: totals.notes,
            uses: totals.uses,
        }),
        Some(fault) => Err(Refusal::of_file(fault)),
    }
}

/// The fault of the certificate's totals: a need that is too small, or else a number of writes that is.
fn total_fault(needs: Needs, budget: u64, certificate: &Certificate<'_>) -> Option<Fault>
    ensures fault { result ≡ total_fault needs budget (certificate_of certificate.now) }
    ensures in_no_record { IfSome result (λ fault. IsInRecord fault → ⊥) }
{
    if !are_within(needs, certificate.needs) {
        return Some(Fault::NeedTooSmall);
    }
    if budget <= certificate.writes {
        return None;
    }
    Some(Fault::BudgetTooSmall)
}

/// Whether needs are at most others.
fn are_within(needs: Needs, others: Needs) -> bool
    ensures { result ≡ are_within needs others }
{
    needs.depth <= others.depth
        && needs.slots <= others.slots
        && needs.edges <= others.edges
        && needs.pieces <= others.pieces
}
