//! Playing a file into a buffer.

ghost use Rattle.std.specs.Prelude.{◌≡◌, ◌*◌, true};
ghost use Rattle.preflight_cert.specs.Preparation.{is_bound};
ghost use Rattle.player.specs.Bounds.{IsWithinBound};
ghost use Rattle.buffer_calls.specs.Plays.{EndsClearedPlay, EndsPlay};

use crate::clearing::cleared_for;
use crate::fitting::is_bound;
use crate::outcome::Outcome;
use crate::samples::play_samples;
use canvas::OutOfMemory;
use preflight_cert::Cleared;
use proportions::Sides;
use std::alloc::Global;

/// Checks a certificate against a file, plays the file on a white surface, and writes the image's samples to the start
/// of the buffer: red, green and blue of each pixel, from the left, row by row from the top. It needs 3 * width *
/// height bytes.
///
/// The first of these decides:
///
/// - `Rejected` with `BadBound` if the width or the height isn't from 1 to 8,192;
/// - `Rejected` with the fault that `check_bytes` reports, or `OutOfMemory`;
/// - `Rejected` with `SurfaceTooLarge` if the surface exceeds the certificate's bound;
/// - `TooShort` if the buffer is;
/// - `OutOfMemory` if an allocation for playing fails, before any byte is written;
/// - `Done`.
pub fn play_into(
    alloc: Global,
    file: &[u8],
    certificate: &[u8],
    surface: Sides,
    out: &mut [u8],
) -> Outcome
    ensures { EndsPlay file.now certificate.now surface.width surface.height out.old out.new result }
{
    match cleared_for(alloc, file, certificate, surface, is_bound(surface)) {
        Ok(cleared) => play_cleared(alloc, &cleared, surface, out),
        Err(outcome) => outcome,
    }
}

/// Plays a cleared file, in the same way.
fn play_cleared(alloc: Global, cleared: &Cleared<'_>, surface: Sides, out: &mut [u8]) -> Outcome
    requires bound { is_bound surface.width surface.height ≡ true }
    requires within { IsWithinBound cleared.now.certificate surface.width surface.height }
    ensures { EndsClearedPlay cleared.now surface.width surface.height out.old out.new result }
{
    let count = sample_count(surface);
    if out.len() < count {
        return Outcome::TooShort(count);
    }
    match play_samples(alloc, cleared, surface, &mut out[..count]) {
        Ok(()) => Outcome::Done(count),
        Err(OutOfMemory) => Outcome::OutOfMemory,
    }
}

/// The number of samples of a surface: three for each pixel.
pub(crate) fn sample_count(surface: Sides) -> usize
    requires { is_bound surface.width surface.height ≡ true }
    ensures count { result ≡ 3 * surface.width * surface.height }
{
    3 * surface.width as usize * surface.height as usize
}
