//! Checks a file's certificate before the file is played on a surface.

ghost use Rattle.std.specs.Prelude.{IfErr, IfOk, IsTrue};
ghost use Rattle.player.specs.Bounds.{IsAboveBound, IsWithinBound};
ghost use Rattle.buffer_calls.specs.Plays.{IsClearedFor, StopsPlaying};

use crate::outcome::{Outcome, outcome_of};
use draw_ops::Fault;
use preflight_cert::{Certificate, Cleared, Refusal, check};
use proportions::Sides;
use std::alloc::Global;

/// A file that is cleared for a surface. If it isn't, how a call that plays it ends; the first of these decides:
///
/// - `Rejected` with `BadBound` if the numbers of the call aren't valid;
/// - `Rejected` with the fault that `check_bytes` reports, or `OutOfMemory`;
/// - `Rejected` with `SurfaceTooLarge` if the surface exceeds the certificate's bound.
pub(crate) fn cleared_for<'a>(
    alloc: Global,
    file: &'a [u8],
    certificate: &'a [u8],
    surface: Sides,
    is_valid: bool,
) -> Result<Cleared<'a>, Outcome>
    ensures cleared { IfOk result (IsClearedFor is_valid file.now certificate.now surface.width surface.height) }
    ensures stopped { IfErr result (StopsPlaying is_valid file.now certificate.now surface.width surface.height) }
{
    if !is_valid {
        return Err(Outcome::Rejected(Refusal::of_file(Fault::BadBound)));
    }
    match check(alloc, file, certificate) {
        Ok(cleared) => {
            if !allows(&cleared.certificate, surface) {
                return Err(Outcome::Rejected(Refusal::of_file(Fault::SurfaceTooLarge)));
            }
            Ok(cleared)
        }
        Err(refusal) => Err(outcome_of(refusal)),
    }
}

/// Whether a certificate is for surfaces of this size.
fn allows(certificate: &Certificate<'_>, surface: Sides) -> bool
    ensures within { IsTrue result → IsWithinBound certificate.now surface.width surface.height }
    ensures above { (IsTrue result → ⊥) → IsAboveBound surface.width surface.height certificate.now }
{
    surface.width <= certificate.max_width && surface.height <= certificate.max_height
}
