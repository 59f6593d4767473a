//! Plays a file whose certificate was accepted, on white in bands, and writes the image.

ghost use Rattle.std.specs.Prelude.{◌≡◌, ◌⊎◌, ◌-◌, ◌*◌, ◌^◌, ◌<◌, ◌≤◌, IfErr, IfNone, IfSome, OnOk, true};
ghost use Rattle.commands.specs.ClearedFiles.{FailsToPlay, PlaysTo};

use crate::failure::{Failure, failure_of};
use canvas::{FaultCount, flush_sent};
use draw_ops::Fault;
use mapping::Colour;
use player::play_bands_to;
use preflight_cert::{Cleared, Refusal};
use std::alloc::Global;

/// The most pixels of a band, unless the fewest rows have more. They take 3 MiB.
const MOST_PIXELS: u64 = 1 << 20;

/// The most pixels of a band that mostly stays in the processor's cache.
const CACHED_PIXELS: u64 = 1 << 19;

/// The fewest pixels of a band, if the surface has that many.
const FEWEST_PIXELS: u64 = 1 << 16;

/// The fewest rows of a band.
const FEWEST_ROWS: u32 = 8;

/// Reading this many records and lines again, in all bands together, takes less time than the first access to 3 MiB of
/// memory.
const LITTLE_WORK: u64 = 1 << 12;

/// Reading this many again takes less time than bands save that stay in the cache.
const SOME_WORK: u64 = 1 << 19;

/// Going through this many bytes of a file takes no longer than one record.
const BYTES_A_RECORD: usize = 16;

/// The surface to play on.
///
/// # Guarantees
///
/// - The width and the height are at least 1.
#[derive(Clone, Copy, Debug)]
pub(crate) struct AskedSurface {
    /// The width in pixels.
    pub(crate) width: u32,
    /// The height in pixels.
    pub(crate) height: u32,
    /// The number of rows in a band, or `None` to let the program choose.
    pub(crate) bands: Option<u32>,
    pub(crate) ghost wide: { 1 ≤ width },
    pub(crate) ghost high: { 1 ≤ height },
}

/// The number of rows in a band. If the program chooses, it has at most 8 rows, or at most 2^20 pixels.
fn band_rows(asked: AskedSurface, cleared: &Cleared<'_>) -> u32
    requires { IfSome asked.bands (λ rows. 1 ≤ rows) }
    ensures some { 1 ≤ result }
    ensures given { IfSome asked.bands (λ rows. result ≡ rows) }
    ensures few { IfNone asked.bands (result ≤ 8 ⊎ result * asked.width ≤ 2 ^ 20) }
{
    match asked.bands {
        Some(rows) => rows,
        None => FEWEST_ROWS.max(band_pixels(asked, cleared) / asked.width),
    }
}

/// The number of pixels in a band. It is larger if reading the records again for each band is more work. A small band
/// stays in the processor's cache.
fn band_pixels(asked: AskedSurface, cleared: &Cleared<'_>) -> u32
    ensures { result ≤ 2 ^ 20 }
{
    let surface = u64::from(asked.width).saturating_mul(u64::from(asked.height));
    let lines = u64::from(cleared.certificate.needs.edges).saturating_add(1);
    let work = u64::from(cleared.records).saturating_mul(lines);
    let work = work.max((cleared.opened.records.len() / BYTES_A_RECORD) as u64);
    let share = surface.saturating_mul(work) / LITTLE_WORK;
    share.max(FEWEST_PIXELS).min(most_pixels(surface, work)) as u32
}

/// The most pixels of a band of this surface. Each band but the first reads the records again.
fn most_pixels(surface: u64, work: u64) -> u64
    ensures { result ≤ 2 ^ 20 }
{
    let again = surface.saturating_sub(1) / CACHED_PIXELS;
    if again.saturating_mul(work) <= SOME_WORK {
        CACHED_PIXELS
    } else {
        MOST_PIXELS
    }
}

/// Plays a cleared file on a white surface in bands, and writes the image's P6 text to `out`. Fails with
/// `SurfaceTooLarge` exactly if the surface exceeds the certificate's bound, before any memory is allocated.
pub(crate) fn write_played<O: FaultCount>(
    alloc: Global,
    cleared: &Cleared<'_>,
    asked: AskedSurface,
    out: &mut O,
) -> Result<(), Failure>
    requires bands { IfSome asked.bands (λ rows. 1 ≤ rows) }
    requires capacity { O.fault_count out.old < 2 ^ 64 - 1 }
    ensures done { OnOk result (PlaysTo cleared.now asked.width asked.height O.contents out.old out.new) }
    ensures failed { IfErr result (FailsToPlay cleared.now asked.width asked.height O.contents out.old out.new) }
    ensures fault { IfErr result (λ failure. failure ≡ Failure.CannotWrite → O.fault_count out.old < O.fault_count out.new) }
    ensures flushed { OnOk result (O.is_flushed out.new ≡ true) }
{
    let rows = band_rows(asked, cleared);
    let (width, height) = (asked.width, asked.height);
    match play_bands_to(alloc, cleared, width, height, Colour::WHITE, rows, out) {
        Ok(_) => match flush_sent(out) {
            Ok(()) => Ok(()),
            Err(_) => Err(Failure::CannotWrite),
        },
        Err(fault) => {
            if fault == Fault::WriteFault {
                return Err(Failure::CannotWrite);
            }
            Err(failure_of(Refusal::of_file(fault)))
        }
    }
}
