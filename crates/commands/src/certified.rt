//! The line about a file and a certificate that is accepted for it.

ghost use Rattle.std.specs.Prelude.{◌≡◌, IfOk, IfSome, Ok, true};
ghost use Rattle.draw_ops.specs.RuleSets.{in_force};
ghost use Rattle.meta_headers.specs.File.{IsOpenedFrom};
ghost use Rattle.preflight_cert.specs.Answer.{IsAnswer, accepted};
ghost use Rattle.preflight_cert.specs.CertificateOf.{certificate_of};
ghost use Rattle.preflight_cert.specs.CertificateReading.{read_certificate, rules_in};
ghost use Rattle.preflight_cert.specs.Preparation.{HasBound, IsForBound};
ghost use Rattle.commands.specs.Certifying.{IsLineFor, IsPlace};

use crate::certify_report::{LineFiles, certified_text, digest_text};
use crate::certifying::{Certifying, Place};
use crate::command_end::CommandEnd;
use crate::file_line::FileLine;
use crate::plain_file::read_plain;
use draw_ops::Fault;
use preflight_cert::{Certificate, Cleared, answer_law, check};
use std::alloc::{AllocError, Global};
use std::rt::Files;

/// The line about a file whose certificate is there already, if that is accepted for it under these rules and for this
/// bound. `None` for anything else that has the certificate's name.
pub(crate) fn kept_line<R: Files + AllocGlobal>(
    rt: &R,
    asked: Certifying<'_>,
    place: Place<'_>,
) -> Result<Option<FileLine>, AllocError>
    requires place { IsPlace asked place }
    ensures { IfOk result (λ line. IfSome line (IsLineFor asked.entry place.entry.name.now)) }
{
    let Ok(certificate) = read_plain(rt, place.path) else {
        return Ok(None);
    };
    let certificate = certificate.as_slice();
    match check(rt.alloc(), place.file, certificate) {
        Ok(cleared) if is_asked(asked, cleared.certificate) => {
            let line = certified_line(rt.alloc(), asked, place, certificate, &cleared)?;
            Ok(Some(line))
        }
        Ok(_) => Ok(None),
        Err(refusal) if refusal.fault == Fault::OutOfMemory => Err(AllocError),
        Err(_) => Ok(None),
    }
}

/// Whether a certificate is one under these rules and for this bound.
fn is_asked(asked: Certifying<'_>, certificate: Certificate<'_>) -> bool
    ensures rules { result ≡ true → certificate.entry.rules ≡ in_force asked.entry.rules }
    ensures bound { result ≡ true → HasBound asked.entry.width asked.entry.height (certificate_of certificate.entry) }
{
    let is_bound = certificate.max_width == asked.width && certificate.max_height == asked.height;
    is_bound && certificate.rules == asked.rules.in_force()
}

/// The line about a file, and a certificate with these bytes.
pub(crate) fn certified_line(
    alloc: Global,
    asked: Certifying<'_>,
    place: Place<'_>,
    certificate: &[u8],
    cleared: &Cleared<'_>,
) -> Result<FileLine, AllocError>
    requires place { IsPlace asked place }
    requires accepted { IsAnswer place.file.now certificate.now accepted }
    requires opened { IsOpenedFrom place.file.now cleared.now.opened }
    requires read { read_certificate certificate.now ≡ Ok (certificate_of cleared.now.certificate) }
    requires rules { cleared.now.certificate.rules ≡ rules_in certificate.now }
    requires under { rules_in certificate.now ≡ in_force asked.rules }
    requires bound { IsForBound asked.width asked.height certificate.now }
    ensures { IfOk result (IsLineFor asked.entry place.entry.name.now) }
{
    answer_law();
    let digest = digest_text(alloc, certificate)?;
    let files = LineFiles {
        name: place.name,
        path: Some(place.path),
        certificate_digest: Some(digest.as_str()),
        file_digest: Some(place.file_digest),
    };
    Ok(FileLine {
        text: certified_text(alloc, files, cleared)?,
        end: CommandEnd::Done,
    })
}
