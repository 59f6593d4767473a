//! Playing a file over the image in a buffer.

ghost use Rattle.std.specs.Prelude.{◌≡◌, ◌≤◌, OnErr, OnOk, length, true};
ghost use Rattle.canvas.specs.Samples.{image_at};
ghost use Rattle.preflight_cert.specs.Preparation.{is_bound};
ghost use Rattle.player.specs.Bounds.{IsWithinBound};
ghost use Rattle.buffer_calls.specs.Plays.{EndsClearedOver, EndsOver, WritesOver, sample_count};

use crate::clearing::cleared_for;
use crate::fitting::is_bound;
use crate::outcome::Outcome;
use crate::playing::sample_count;
use canvas::{Canvas, OutOfMemory};
use player::play;
use preflight_cert::Cleared;
use proportions::Sides;
use std::alloc::Global;

/// Checks a certificate against a file, and plays the file over the image whose samples are at the start of the buffer:
/// red, green and blue of each pixel, from the left, row by row from the top. The buffer then has the samples of the
/// result. It needs 3 * width * height bytes.
///
/// The outcomes are those of `play_into`, in the same order. `OutOfMemory` can also mean that there is no memory for a
/// copy of the image.
pub fn over_into(
    alloc: Global,
    file: &[u8],
    certificate: &[u8],
    surface: Sides,
    image: &mut [u8],
) -> Outcome
    ensures { EndsOver file.now certificate.now surface.width surface.height image.old image.new result }
{
    match cleared_for(alloc, file, certificate, surface, is_bound(surface)) {
        Ok(cleared) => over_cleared(alloc, &cleared, surface, image),
        Err(outcome) => outcome,
    }
}

/// Plays a cleared file, in the same way.
fn over_cleared(alloc: Global, cleared: &Cleared<'_>, surface: Sides, image: &mut [u8]) -> Outcome
    requires bound { is_bound surface.width surface.height ≡ true }
    requires within { IsWithinBound cleared.now.certificate surface.width surface.height }
    ensures { EndsClearedOver cleared.now surface.width surface.height image.old image.new result }
{
    let count = sample_count(surface);
    if image.len() < count {
        return Outcome::TooShort(count);
    }
    match play_over(alloc, cleared, surface, image) {
        Ok(()) => Outcome::Done(count),
        Err(OutOfMemory) => Outcome::OutOfMemory,
    }
}

/// Plays a cleared file over an image, and replaces the image's samples.
fn play_over(
    alloc: Global,
    cleared: &Cleared<'_>,
    surface: Sides,
    image: &mut [u8],
) -> Result<(), OutOfMemory>
    requires bound { is_bound surface.width surface.height ≡ true }
    requires within { IsWithinBound cleared.now.certificate surface.width surface.height }
    requires capacity { sample_count surface.width surface.height ≤ length image.old }
    ensures done { OnOk result (WritesOver cleared.now surface.width surface.height image.old image.new) }
    ensures kept { OnErr result (image.new ≡ image.old) }
{
    let mut canvas = Canvas::from_samples(alloc, surface.width, surface.height, image)?;
    match play(alloc, cleared, &mut canvas) {
        Ok(_) => {
            let count = 3 * canvas.rows() as usize * canvas.width() as usize;
            canvas.copy_samples(&mut image[..count]);
            Ok(())
        }
        // The surface is within the bound, so an allocation failed.
        Err(_) => Err(OutOfMemory),
    }
}
