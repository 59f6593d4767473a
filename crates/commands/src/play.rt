//! The command `play`.

ghost use Rattle.std.specs.Prelude.{◌≡◌, ◌-◌, ◌^◌, ◌<◌, ◌≤◌, IfErr, IfSome, OnErr, OnOk, true};
ghost use Rattle.mapping.specs.Limits.{IsSurfaceSide};
ghost use Rattle.preflight_cert.specs.Reached.{OpensBoth};
ghost use Rattle.commands.specs.Ends.{Prints, Writes, WritesDone};
ghost use Rattle.commands.specs.Failures.{FailsWith};
ghost use Rattle.commands.specs.Tasks.{asked_play, play};

use crate::command_end::{CommandEnd, Completion};
use crate::failure::{Failure, ending, failure_of};
use crate::playing::{AskedSurface, write_played};
use canvas::FaultCount;
use preflight_cert::check;
use std::alloc::Global;

/// Checks a certificate against a file, plays the file on a white surface, in bands of the given number of rows or of a
/// number that the program chooses, and writes the image to `out` as P6 text. If the check rejects the pair, or else
/// the surface is too large (`SurfaceTooLarge`), one line goes to `err` and no byte to `out`. A fault of `err` doesn't
/// change the status.
#[inline(never)]
pub fn play_command<O: FaultCount, E: FaultCount>(
    alloc: Global,
    file: &[u8],
    certificate: &[u8],
    width: u32,
    height: u32,
    bands: Option<u32>,
    out: &mut O,
    err: &mut E,
) -> Completion
    requires wide { IsSurfaceSide width }
    requires high { IsSurfaceSide height }
    requires bands { IfSome bands (λ rows. 1 ≤ rows) }
    requires capacity_out { O.fault_count out.old < 2 ^ 64 - 1 }
    requires capacity_err { E.fault_count err.old < 2 ^ 64 - 1 }
    ensures written { Writes (play file.now certificate.now width height) result O.contents out.old out.new }
    ensures printed { Prints (play file.now certificate.now width height) result E.contents err.old err.new }
    ensures memory { result.end ≡ CommandEnd.OutOfMemory → OpensBoth file.now certificate.now }
    ensures cannot_write { result.end ≡ CommandEnd.CannotWrite → O.fault_count out.old < O.fault_count out.new }
    ensures unreported { OnErr result.printed (E.fault_count err.old < E.fault_count err.new) }
    ensures flushed { result.end ≡ CommandEnd.Done → O.is_flushed out.new ≡ true }
{
    let asked = AskedSurface {
        width,
        height,
        bands,
    };
    let done = play_checked(alloc, file, certificate, asked, out);
    ending(done, err)
}

/// Checks a certificate against a file, and plays the file on a white surface.
fn play_checked<O: FaultCount>(
    alloc: Global,
    file: &[u8],
    certificate: &[u8],
    asked: AskedSurface,
    out: &mut O,
) -> Result<(), Failure>
    requires bands { IfSome asked.bands (λ rows. 1 ≤ rows) }
    requires capacity { O.fault_count out.old < 2 ^ 64 - 1 }
    ensures done { OnOk result (WritesDone (asked_play file.now certificate.now asked) O.contents out.old out.new) }
    ensures failed { IfErr result (FailsWith (asked_play file.now certificate.now asked) O.contents out.old out.new) }
    ensures memory { IfErr result (λ failure. failure ≡ Failure.OutOfMemory → OpensBoth file.now certificate.now) }
    ensures fault { IfErr result (λ failure. failure ≡ Failure.CannotWrite → O.fault_count out.old < O.fault_count out.new) }
    ensures flushed { OnOk result (O.is_flushed out.new ≡ true) }
{
    let cleared = match check(alloc, file, certificate) {
        Ok(cleared) => cleared,
        Err(refusal) => return Err(failure_of(refusal)),
    };
    write_played(alloc, &cleared, asked, out)
}
