//! Checking a certificate against a file.

ghost use Rattle.buffer_calls.specs.Checks.{EndsCheck};

use crate::outcome::{Outcome, outcome_of};
use preflight_cert::check;
use std::alloc::Global;

/// Checks a certificate against a file: `Done(0)` if it is accepted, and otherwise the first fault, in the order of
/// `preflight_cert::check`.
pub fn check_bytes(alloc: Global, file: &[u8], certificate: &[u8]) -> Outcome
    ensures { EndsCheck file.now certificate.now result }
{
    match check(alloc, file, certificate) {
        Ok(_) => Outcome::Done(0),
        Err(refusal) => outcome_of(refusal),
    }
}
