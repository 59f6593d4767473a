//! A file and a certificate that was accepted for it.

ghost use Rattle.std.specs.Prelude.{◌≡◌};
ghost use Rattle.meta_headers.specs.OpenedOf.{opened_of};
ghost use Rattle.preflight_cert.specs.Answer.{CountsRecords, IsCleared};
ghost use Rattle.preflight_cert.specs.CertificateOf.{certificate_of};

use crate::certificate::Certificate;
use crate::uses::Uses;
use draw_ops::Notes;
use meta_headers::Opened;

/// A file that opened, the certificate that was accepted for it, and the totals of its records.
///
/// # Guarantees
///
/// - The certificate fits the file's records, and the counts are those of the records (`cleared_law` says what
///   follows).
/// - The file was opened under the certificate's rules.
#[derive(Clone, Copy, Debug)]
pub struct Cleared<'a> {
    pub opened: Opened<'a>,
    pub certificate: Certificate<'a>,
    /// The number of records in the file, including the end record.
    pub records: u32,
    /// The number of notes of each kind, of the file's headers and records.
    pub notes: Notes,
    /// How often the file uses what its rules can allow.
    pub uses: Uses,
    pub ghost ruled: { certificate.rules ≡ opened.rules },
    pub ghost checked: { IsCleared (opened_of opened) opened.records.now (certificate_of certificate) },
    pub ghost counted: { CountsRecords (opened_of opened) opened.records.now records notes.counts uses },
}
