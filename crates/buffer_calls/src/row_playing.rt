//! Playing rows of a file into a buffer.

ghost use Rattle.std.specs.Prelude.{◌≡◌, ◌≤◌, true};
ghost use Rattle.player.specs.Bounds.{IsWithinBound};
ghost use Rattle.buffer_calls.specs.Plays.{EndsClearedRows, EndsRows, are_placed};

use crate::clearing::cleared_for;
use crate::outcome::Outcome;
use crate::placed_rows::{PlacedRows, are_placed, layout_size};
use crate::samples::band_rows;
use mapping::Colour;
use player::{BandPlan, play_rows};
use preflight_cert::Cleared;
use std::alloc::Global;

/// Checks a certificate against a file, plays the file on some rows of a white surface, and writes the samples of each
/// row to its place in the buffer: red, green and blue of each pixel, from the left. No other byte changes. The buffer
/// needs stride * (count - 1) + 3 * width bytes.
///
/// The outcomes are those of `play_into`, in the same order. `BadBound` also means that there is no row, that a row is
/// beyond the surface, or that the stride is below 3 * width.
pub fn play_rows_into(
    alloc: Global,
    file: &[u8],
    certificate: &[u8],
    rows: PlacedRows,
    out: &mut [u8],
) -> Outcome
    ensures { EndsRows file.now certificate.now rows out.old out.new result }
{
    match cleared_for(alloc, file, certificate, rows.surface, are_placed(rows)) {
        Ok(cleared) => play_cleared_rows(alloc, &cleared, rows, out),
        Err(outcome) => outcome,
    }
}

/// Plays rows of a cleared file, in the same way.
fn play_cleared_rows(
    alloc: Global,
    cleared: &Cleared<'_>,
    rows: PlacedRows,
    out: &mut [u8],
) -> Outcome
    requires placed { are_placed rows ≡ true }
    requires within { IsWithinBound cleared.now.certificate rows.surface.width rows.surface.height }
    ensures { EndsClearedRows cleared.now rows out.old out.new result }
{
    let count = layout_size(rows);
    if out.len() < count {
        return Outcome::TooShort(count);
    }
    let plan = BandPlan {
        width: rows.surface.width,
        height: rows.surface.height,
        start: Colour::WHITE,
        rows: even_rows(rows.surface.width, rows.layout.count),
    };
    match play_rows(alloc, cleared, plan, rows.layout, out) {
        Ok(()) => Outcome::Done(count),
        // The surface is within the bound, so an allocation failed.
        Err(_) => Outcome::OutOfMemory,
    }
}

/// The number of rows in a band, if so many rows are divided evenly into as few bands as there can be.
fn even_rows(width: u32, count: u32) -> u32
    requires wide { 1 ≤ width }
    requires some { 1 ≤ count }
    ensures { 1 ≤ result }
{
    let bands = count.div_ceil(band_rows(width));
    count.div_ceil(bands)
}
