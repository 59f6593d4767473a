//! A file with the certificate that was prepared for it.

ghost use Rattle.std.specs.Prelude.{◌≡◌, ◌⊎◌, Ok, IfErr, IfOk, IsOk, false};
ghost use Rattle.std.specs.Result.{ForOk};
ghost use Rattle.draw_ops.specs.RuleSets.{in_force};
ghost use Rattle.draw_ops.specs.declared.fault.Fault.TheVariants.{BadBound};
ghost use Rattle.meta_headers.specs.File.{IsOpenedFrom};
ghost use Rattle.meta_headers.specs.OpenedOf.{opened_of};
ghost use Rattle.preflight_cert.specs.Answer.{CountsRecords, IsAnswer, IsCleared, accepted};
ghost use Rattle.preflight_cert.specs.CertificateOf.{certificate_of};
ghost use Rattle.preflight_cert.specs.CertificateReading.{read_certificate, rules_in};
ghost use Rattle.preflight_cert.specs.ClearedFacts.{IsSoundWhereOpened};
ghost use Rattle.preflight_cert.specs.OpenedRecords.{CountsRecordsOf};
ghost use Rattle.preflight_cert.specs.Preparation.{IsForBound, Prepares, StopsPreparing, is_bound};
ghost use Rattle.preflight_cert.specs.Reached.{OpensAt};
ghost use Rattle.preflight_cert.specs.Refusal.{IsWantOfMemory, ReportsNumber};

use crate::certificate::Certificate;
use crate::certificate_reading::is_side;
use crate::cleared::Cleared;
use crate::laws::cleared_law;
use crate::preparing::prepare_opened;
use crate::refusal::Refusal;
use crate::uses::Uses;
use draw_ops::{Fault, Notes, Rules, content_law};
use meta_headers::{Opened, open_file_by, opening_law};
use std::alloc::Global;

/// A file that opened, the certificate that was prepared for it, and the totals of its records.
///
/// # Guarantees
///
/// - The certificate is accepted for the file's records, and the counts are those of the records.
/// - The file was opened under the certificate's rules.
#[derive(Drop)]
pub struct Prepared<'a> {
    pub opened: Opened<'a>,
    /// The certificate's bytes.
    pub text: Vec<u8>,
    /// The number of records in the file, including the end record.
    pub records: u32,
    /// The number of notes of each kind, of the file's headers and records.
    pub notes: Notes,
    /// How often the file uses what its rules can allow.
    pub uses: Uses,
    pub ghost ruled: { rules_in text.items ≡ opened.rules },
    pub ghost readable: { IsOk (read_certificate text.items) },
    pub ghost cleared: { ForOk (read_certificate text.items) (IsCleared (opened_of opened) opened.records.now) },
    pub ghost counted: { CountsRecords (opened_of opened) opened.records.now records notes.counts uses },
}

impl<'a> Prepared<'a> {
    /// Prepares the certificate of a file under rules, for surfaces of at most this size, as `prepare_by` does, with the
    /// same errors.
    pub fn new(
        alloc: Global,
        rules: Rules,
        file: &'a [u8],
        max_width: u32,
        max_height: u32,
    ) -> Result<Prepared<'a>, Refusal>
        ensures text { IfOk result (λ prepared. Prepares rules file.now max_width max_height prepared.text.items) }
        ensures accepted { IfOk result (λ prepared. IsAnswer file.now prepared.text.items accepted) }
        ensures opened { IfOk result (λ prepared. IsOpenedFrom file.now prepared.opened) }
        ensures rules { IfOk result (λ prepared. prepared.opened.rules ≡ in_force rules) }
        ensures sides { IfOk result (λ prepared. IsForBound max_width max_height prepared.text.items) }
        ensures written { IfOk result (λ prepared. rules_in prepared.text.items ≡ in_force rules) }
        ensures counts { IfOk result (λ p. CountsRecordsOf p.opened p.records p.notes.counts p.uses) }
        ensures refusal { IfErr result (λ r. StopsPreparing rules file.now max_width max_height r ⊎ IsWantOfMemory r) }
        ensures bound { IfErr result (λ r. is_bound max_width max_height ≡ false → r.fault ≡ BadBound) }
        ensures memory { IfErr result (λ r. r.fault ≡ Fault.OutOfMemory → OpensAt file.now max_width max_height) }
        ensures number_reported { IfErr result ReportsNumber }
    {
        if !(is_side(max_width) && is_side(max_height)) {
            return Err(Refusal::of_file(Fault::BadBound));
        }
        let opened = match open_file_by(rules, file) {
            Ok(opened) => opened,
            Err(fault) => return Err(Refusal::of_file(fault)),
        };
        content_law();
        opening_law();
        match prepare_opened(alloc, opened, max_width, max_height) {
            Ok((text, totals)) => Ok(Prepared {
                opened,
                text,
                records: totals.records,
                notes: totals.notes,
                uses: totals.uses,
            }),
            Err(refusal) => Err(refusal),
        }
    }

    /// The file and its certificate, as `check` would clear them. Nothing is checked again.
    pub fn clear(&self) -> Cleared<'_>
        ensures opened { result.opened ≡ self.now.opened }
        ensures read { read_certificate self.now.text.items ≡ Ok (certificate_of result.certificate) }
        ensures certificate_rules { result.certificate.rules ≡ rules_in self.now.text.items }
        ensures records { result.records ≡ self.now.records }
        ensures notes { result.notes ≡ self.now.notes }
        ensures uses { result.uses ≡ self.now.uses }
        ensures sound { IsSoundWhereOpened result }
    {
        cleared_law();
        match Certificate::read(&self.text[..]) {
            Ok(certificate) => Cleared {
                opened: self.opened,
                certificate,
                records: self.records,
                notes: self.notes,
                uses: self.uses,
            },
            Err(_) => unreachable!(),
        }
    }
}
