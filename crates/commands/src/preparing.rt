//! Preparing a file's certificate for a surface.

ghost use Rattle.std.specs.Prelude.{◌≡◌, ◌⊎◌, IfErr, IfOk};
ghost use Rattle.draw_ops.specs.RuleSets.{in_force};
ghost use Rattle.mapping.specs.Limits.{IsSurfaceSide};
ghost use Rattle.meta_headers.specs.File.{IsOpenedFrom};
ghost use Rattle.preflight_cert.specs.Answer.{IsAnswer, accepted};
ghost use Rattle.preflight_cert.specs.Preparation.{IsForBound, Prepares};
ghost use Rattle.preflight_cert.specs.Reached.{Opens};
ghost use Rattle.preflight_cert.specs.Refusal.{IsWantOfMemory};
ghost use Rattle.preflight_cert.specs.Run.{Rejected};

use draw_ops::{Fault, Rules};
use preflight_cert::{Prepared, Refusal};
use std::alloc::Global;

/// Prepares a file's certificate under these rules for surfaces of at most this size. The size is valid, so any
/// rejection is a fault of the file's run.
pub(crate) fn prepare_file<'a>(
    alloc: Global,
    rules: Rules,
    file: &'a [u8],
    width: u32,
    height: u32,
) -> Result<Prepared<'a>, Refusal>
    requires wide { IsSurfaceSide width }
    requires high { IsSurfaceSide height }
    ensures text { IfOk result (λ prepared. Prepares rules file.now width height prepared.text.items) }
    ensures accepted { IfOk result (λ prepared. IsAnswer file.now prepared.text.items accepted) }
    ensures sides { IfOk result (λ prepared. IsForBound width height prepared.text.items) }
    ensures opened { IfOk result (λ prepared. IsOpenedFrom file.now prepared.opened) }
    ensures rules { IfOk result (λ prepared. prepared.opened.rules ≡ in_force rules) }
    ensures refusal { IfErr result (λ r. Rejected rules file.now width height r.number r.fault ⊎ IsWantOfMemory r) }
    ensures memory { IfErr result (λ r. r.fault ≡ Fault.OutOfMemory → Opens file.now) }
{
    match Prepared::new(alloc, rules, file, width, height) {
        Ok(prepared) => Ok(prepared),
        Err(refusal) => Err(refusal),
    }
}
