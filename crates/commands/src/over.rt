//! The command `over`.

ghost use Rattle.std.specs.Prelude.{◌≡◌, ◌-◌, ◌<◌, ◌≤◌, ◌⊎◌, ◌^◌, IfErr, IfOk, OnErr, OnOk, true};
ghost use Rattle.canvas.specs.CanvasState.{image_of};
ghost use Rattle.preflight_cert.specs.Reached.{OpensBoth};
ghost use Rattle.preflight_cert.specs.Refusal.{IsWantOfMemory};
ghost use Rattle.player.specs.Bounds.{IsWithinBound};
ghost use Rattle.commands.specs.ClearedFiles.{Leaves, RejectsSurface};
ghost use Rattle.commands.specs.Ends.{Prints, Writes, WritesDone};
ghost use Rattle.commands.specs.Failures.{FailsWith};
ghost use Rattle.commands.specs.Images.{IsPlayedOver, RejectsOver};
ghost use Rattle.commands.specs.Tasks.{over};

use crate::command_end::{CommandEnd, Completion};
use crate::failure::{Failure, ending, failure_of};
use crate::image_output::write_image;
use canvas::{Canvas, FaultCount, ImageError};
use draw_ops::Fault;
use player::play;
use preflight_cert::{Cleared, Refusal, check};
use std::alloc::Global;

/// Checks a certificate against a file, plays the file over an image at the image's size, and writes the result to
/// `out` as P6 text after the whole file has been played. If the check rejects the pair, or else the image is invalid
/// (`BadImage`), or else the surface is too large (`SurfaceTooLarge`), one line goes to `err`. A fault of `err` doesn't
/// change the status.
#[inline(never)]
pub fn over_command<O: FaultCount, E: FaultCount>(
    alloc: Global,
    file: &[u8],
    certificate: &[u8],
    image: &[u8],
    out: &mut O,
    err: &mut E,
) -> Completion
    requires capacity_out { O.fault_count out.old < 2 ^ 64 - 1 }
    requires capacity_err { E.fault_count err.old < 2 ^ 64 - 1 }
    ensures written { Writes (over file.now certificate.now image.now) result O.contents out.old out.new }
    ensures printed { Prints (over file.now certificate.now image.now) result E.contents err.old err.new }
    ensures memory { result.end ≡ CommandEnd.OutOfMemory → OpensBoth file.now certificate.now }
    ensures cannot_write { result.end ≡ CommandEnd.CannotWrite → O.fault_count out.old < O.fault_count out.new }
    ensures unreported { OnErr result.printed (E.fault_count err.old < E.fault_count err.new) }
    ensures flushed { result.end ≡ CommandEnd.Done → O.is_flushed out.new ≡ true }
{
    let done = write_over(alloc, file, certificate, image, out);
    ending(done, err)
}

/// Checks a certificate against a file, plays the file over an image, and writes the result.
fn write_over<O: FaultCount>(
    alloc: Global,
    file: &[u8],
    certificate: &[u8],
    image: &[u8],
    out: &mut O,
) -> Result<(), Failure>
    requires capacity { O.fault_count out.old < 2 ^ 64 - 1 }
    ensures done { OnOk result (WritesDone (over file.now certificate.now image.now) O.contents out.old out.new) }
    ensures failed { IfErr result (FailsWith (over file.now certificate.now image.now) O.contents out.old out.new) }
    ensures memory { IfErr result (λ failure. failure ≡ Failure.OutOfMemory → OpensBoth file.now certificate.now) }
    ensures fault { IfErr result (λ failure. failure ≡ Failure.CannotWrite → O.fault_count out.old < O.fault_count out.new) }
    ensures flushed { OnOk result (O.is_flushed out.new ≡ true) }
{
    let canvas = match over_file(alloc, file, certificate, image) {
        Ok(canvas) => canvas,
        Err(refusal) => return Err(failure_of(refusal)),
    };
    match write_image(&canvas, out) {
        Ok(()) => Ok(()),
        Err(_) => Err(Failure::CannotWrite),
    }
}

/// Checks a certificate against a file, and plays the file over an image.
fn over_file(
    alloc: Global,
    file: &[u8],
    certificate: &[u8],
    image: &[u8],
) -> Result<Canvas, Refusal>
    ensures image { IfOk result (λ canvas. IsPlayedOver file.now certificate.now image.now (image_of canvas)) }
    ensures refusal { IfErr result
        (λ r. RejectsOver file.now certificate.now image.now r.number r.fault ⊎ IsWantOfMemory r) }
    ensures memory { IfErr result (λ r. r.fault ≡ Fault.OutOfMemory → OpensBoth file.now certificate.now) }
{
    let cleared = match check(alloc, file, certificate) {
        Ok(cleared) => cleared,
        Err(refusal) => return Err(refusal),
    };
    let canvas = match Canvas::from_ppm(alloc, image) {
        Ok(canvas) => canvas,
        Err(ImageError::BadImage) => return Err(Refusal::of_file(Fault::BadImage)),
        Err(ImageError::OutOfMemory) => return Err(Refusal::of_file(Fault::OutOfMemory)),
    };
    match play_over(alloc, &cleared, canvas) {
        Ok(canvas) => Ok(canvas),
        Err(fault) => Err(Refusal::of_file(fault)),
    }
}

/// Plays a cleared file over the image on a canvas of a whole surface, and returns the canvas. Fails with
/// `SurfaceTooLarge` exactly if the surface exceeds the certificate's bound, or with `OutOfMemory`.
fn play_over(alloc: Global, cleared: &Cleared<'_>, mut canvas: Canvas) -> Result<Canvas, Fault>
    requires whole { canvas.first ≡ 0 }
    requires countable { canvas.writes ≤ 2 ^ 63 }
    ensures image { IfOk result
        (λ after. Leaves cleared.now canvas.width canvas.rows (image_of canvas) (image_of after)) }
    ensures within { IfOk result (λ _. IsWithinBound cleared.now.certificate canvas.width canvas.rows) }
    ensures refusal { IfErr result (RejectsSurface cleared.now.certificate canvas.width canvas.rows) }
{
    match play(alloc, cleared, &mut canvas) {
        Ok(_) => Ok(canvas),
        Err(fault) => Err(fault),
    }
}
