//! Plays a cleared file in bands: the rows of the surface, band after band, on one canvas.

ghost use Rattle.std.specs.Prelude.{◌≡◌, ◌+◌, ◌-◌, ◌<◌, ◌≤◌, ◌^◌, Err, IfErr, IfOk, OnErr, OnOk};
ghost use Rattle.std.specs.Io.KnownBytes.{Keeps};
ghost use Rattle.player.specs.Bands.{CountsRows, IsWriteFault, WritesPrefixTo, WritesPlan, WritesPlanPrefix};
ghost use Rattle.player.specs.Bands.{WritesRows, WritesRowsPrefix, WritesRun};
ghost use Rattle.player.specs.Bounds.{IsBandFault, ReportsTooLarge};
ghost use Rattle.player.specs.ClearedPlay.{AreClearedWrites};
ghost use Rattle.player.specs.ReadyBands.{IsBlankBand, IsReadyForBands};

use crate::band_plan::BandPlan;
use crate::band_scratch::{BandScratch, band_scratch, begin_band, show_band};
use crate::part_writer::{Counted, PartWriter, Uncounted};
use canvas::{FaultCount, WriteFault};
use draw_ops::{Fault, content_law};
use mapping::Colour;
use preflight_cert::{Cleared, answer_law, rows_law, size_law};
use std::alloc::Global;
use std::io::Write;

/// Plays a cleared file over one colour on a surface of `width` by `height` pixels, and writes the image as P6 text
/// (ppm(5)). Returns the number of pixels written, which is at most the certified number.
///
/// Each band has `rows` rows; the last one has the rows that remain. The three numbers must be at least 1. All memory
/// is allocated before the first byte is written: as much as the certificate needs, and one band.
///
/// # Errors
///
/// - `SurfaceTooLarge` exactly if the surface exceeds the certificate's bound. Nothing was written.
/// - `OutOfMemory` if an allocation failed. Nothing was written.
/// - `WriteFault` if the writer failed or accepted no byte. A prefix of the text was written.
pub fn play_bands<W: Write>(
    alloc: Global,
    cleared: &Cleared<'_>,
    width: u32,
    height: u32,
    start: Colour,
    rows: u32,
    out: &mut W,
) -> Result<u64, Fault>
    requires wide { 1 ≤ width }
    requires high { 1 ≤ height }
    requires rows { 1 ≤ rows }
    ensures text { OnOk result (WritesRun cleared.now width height start (W.contents out.old) (W.contents out.new)) }
    ensures writes { IfOk result (AreClearedWrites cleared.now width height) }
    ensures few { IfOk result (λ writes. writes ≤ cleared.now.certificate.writes) }
    ensures too_large { ReportsTooLarge result width height cleared.now.certificate }
    ensures refusal { IfErr result IsBandFault }
    ensures unwritten { (IsWriteFault result → ⊥) → OnErr result (Keeps (W.contents out.old) (W.contents out.new)) }
    ensures prefix { IsWriteFault result → WritesPrefixTo cleared.now width height start W.contents out.old out.new }
{
    let plan = BandPlan {
        width,
        height,
        start,
        rows,
    };
    match band_scratch(alloc, cleared, plan, 0) {
        Ok(mut scratch) => write_image::<W, Uncounted>(cleared, &mut scratch, plan, out),
        Err(fault) => Err(fault),
    }
}

/// The same as `play_bands`, for a writer that counts its faults and can count at least one more. It returns
/// `WriteFault` only if that count rose.
pub fn play_bands_to<W: FaultCount>(
    alloc: Global,
    cleared: &Cleared<'_>,
    width: u32,
    height: u32,
    start: Colour,
    rows: u32,
    out: &mut W,
) -> Result<u64, Fault>
    requires wide { 1 ≤ width }
    requires high { 1 ≤ height }
    requires rows { 1 ≤ rows }
    requires capacity { W.fault_count out.old < 2 ^ 64 - 1 }
    ensures text { OnOk result (WritesRun cleared.now width height start (W.contents out.old) (W.contents out.new)) }
    ensures writes { IfOk result (AreClearedWrites cleared.now width height) }
    ensures few { IfOk result (λ writes. writes ≤ cleared.now.certificate.writes) }
    ensures too_large { ReportsTooLarge result width height cleared.now.certificate }
    ensures refusal { IfErr result IsBandFault }
    ensures unwritten { (IsWriteFault result → ⊥) → OnErr result (Keeps (W.contents out.old) (W.contents out.new)) }
    ensures prefix { IsWriteFault result → WritesPrefixTo cleared.now width height start W.contents out.old out.new }
    ensures fault { result ≡ Err Fault.WriteFault → W.fault_count out.old < W.fault_count out.new }
    ensures capacity { OnOk result (W.fault_count out.new < 2 ^ 64 - 1) }
    ensures count { W.fault_count out.old ≤ W.fault_count out.new }
{
    let plan = BandPlan {
        width,
        height,
        start,
        rows,
    };
    match band_scratch(alloc, cleared, plan, 0) {
        Ok(mut scratch) => write_image::<W, Counted>(cleared, &mut scratch, plan, out),
        Err(fault) => Err(fault),
    }
}

/// Plays and writes the image with memory that has been allocated, by any way to write. Only the writer can fail.
fn write_image<'a, W: Write, P: PartWriter<W>>(
    cleared: &Cleared<'a>,
    scratch: &mut BandScratch<'a>,
    plan: BandPlan,
    out: &mut W,
) -> Result<u64, Fault>
    requires ready { IsReadyForBands cleared.now plan scratch.old }
    requires unwritten { scratch.old.canvas.writes ≡ 0 }
    requires blank { IsBlankBand plan 0 scratch.old.canvas }
    requires capacity { P.faults out.old + P.counted < 2 ^ 64 }
    ensures text { OnOk result (WritesPlan cleared.now plan W.contents out.old out.new) }
    ensures writes { IfOk result (AreClearedWrites cleared.now plan.width plan.height) }
    ensures few { IfOk result (λ writes. writes ≤ cleared.now.certificate.writes) }
    ensures refusal { IfErr result (λ fault. fault ≡ Fault.WriteFault) }
    ensures prefix { OnErr result (WritesPlanPrefix cleared.now plan W.contents out.old out.new) }
    ensures fault { OnErr result (P.faults out.old + P.counted ≤ P.faults out.new) }
    ensures capacity { OnOk result (P.faults out.new + P.counted < 2 ^ 64) }
    ensures count { P.faults out.old ≤ P.faults out.new }
{
    answer_law();
    size_law();
    content_law();
    rows_law();
    match write_bands::<W, P>(cleared, scratch, plan, out) {
        Ok(()) => Ok(scratch.canvas.writes()),
        Err(_) => Err(Fault::WriteFault),
    }
}

/// Plays the bands and writes each one.
fn write_bands<'a, W: Write, P: PartWriter<W>>(
    cleared: &Cleared<'a>,
    scratch: &mut BandScratch<'a>,
    plan: BandPlan,
    out: &mut W,
) -> Result<(), WriteFault>
    requires ready { IsReadyForBands cleared.now plan scratch.old }
    requires unwritten { scratch.old.canvas.writes ≡ 0 }
    requires blank { IsBlankBand plan 0 scratch.old.canvas }
    requires capacity { P.faults out.old + P.counted < 2 ^ 64 }
    ensures text { OnOk result (WritesRows cleared.now plan plan.height W.contents out.old out.new) }
    ensures counted { OnOk result (CountsRows cleared.now plan plan.height scratch.new.canvas.writes) }
    ensures prefix { OnErr result (WritesRowsPrefix cleared.now plan W.contents out.old out.new) }
    ensures fault { OnErr result (P.faults out.old + P.counted ≤ P.faults out.new) }
    ensures capacity { OnOk result (P.faults out.new + P.counted < 2 ^ 64) }
    ensures count { P.faults out.old ≤ P.faults out.new }
{
    rows_law();
    P::write_header(out, plan.width, plan.height)?;
    let mut first: u32 = 0;
    while first < plan.height {
        let rows = show_band(cleared, scratch, plan, first);
        P::write_rows(out, &scratch.canvas)?;
        first += rows;
        begin_band(&mut scratch.canvas, plan, first, plan.height);
    }
    Ok(())
}
