//! Plays a cleared file into a buffer of samples.

ghost use Rattle.std.specs.Prelude.{◌≡◌, ◌⊎◌, ◌+◌, ◌*◌, ◌^◌, ◌<◌, ◌≤◌, length, OnErr, OnOk};
ghost use Rattle.canvas.specs.Ppm.{header};
ghost use Rattle.preflight_cert.specs.Run.{white};
ghost use Rattle.player.specs.Bounds.{IsWithinBound};
ghost use Rattle.buffer_calls.specs.Plays.{HasClearedSamples};

use crate::header_length::header_length;
use crate::sample_writer::SampleWriter;
use crate::split::{HEADER_CAPACITY, Split};
use crate::target::Target;
use canvas::OutOfMemory;
use draw_ops::Fault;
use mapping::Colour;
use player::play_bands_to;
use preflight_cert::{Cleared, rows_law};
use proportions::Sides;
use std::alloc::Global;
use std::marker::{Brand, PhantomData};

/// The most pixels of a band. They take 3 MiB.
const BAND_PIXELS: u32 = 1 << 20;

/// The number of rows in a band.
pub(crate) fn band_rows(width: u32) -> u32
    requires { 1 ≤ width }
    ensures some { 1 ≤ result }
    ensures few { (result ≡ 1) ⊎ (result * width ≤ 2 ^ 20) }
    ensures most { 2 ^ 20 < (result + 1) * width }
{
    (BAND_PIXELS / width).max(1)
}

/// Plays a cleared file on a white surface, and writes the samples of the image to a buffer of exactly their length.
/// The surface must be within the certificate's bound.
pub(crate) fn play_samples(
    alloc: Global,
    cleared: &Cleared<'_>,
    surface: Sides,
    samples: &mut [u8],
) -> Result<(), OutOfMemory>
    requires wide { 1 ≤ surface.width }
    requires high { 1 ≤ surface.height }
    requires within { IsWithinBound cleared.now.certificate surface.width surface.height }
    requires size { length samples.old ≡ 3 * surface.width * surface.height }
    ensures done { OnOk result (HasClearedSamples cleared.now surface.width surface.height (white surface.width surface.height) samples.new) }
    ensures kept { OnErr result (samples.new ≡ samples.old) }
{
    write_samples::<Brand>(alloc, cleared, surface, samples)
}

/// The same, by a writer whose target is this buffer.
fn write_samples<T: Target>(
    alloc: Global,
    cleared: &Cleared<'_>,
    surface: Sides,
    samples: &mut [u8],
) -> Result<(), OutOfMemory>
    requires wide { 1 ≤ surface.width }
    requires high { 1 ≤ surface.height }
    requires within { IsWithinBound cleared.now.certificate surface.width surface.height }
    requires size { length samples.old ≡ 3 * surface.width * surface.height }
    requires start { samples.old ≡ T.start }
    requires header { length (header surface.width surface.height) ≡ T.header_length }
    ensures done { OnOk result (HasClearedSamples cleared.now surface.width surface.height (white surface.width surface.height) samples.new) }
    ensures kept { OnErr result (samples.new ≡ samples.old) }
{
    rows_law();
    let (width, height) = (surface.width, surface.height);
    let split = Split {
        header: [0; HEADER_CAPACITY],
        header_length: header_length(width, height),
        written: 0,
    };
    let mut writer = SampleWriter::<T> {
        samples,
        split,
        faults: 0,
        flushed: false,
        target: PhantomData,
    };
    let (rows, out) = (band_rows(width), &mut writer);
    match play_bands_to(alloc, cleared, width, height, Colour::WHITE, rows, out) {
        Ok(_) => Ok(()),
        Err(fault) => {
            // The writer fails only if it is full, and then it has all samples.
            if fault == Fault::WriteFault {
                return Ok(());
            }
            // The surface is within the bound, so an allocation failed.
            Err(OutOfMemory)
        }
    }
}
