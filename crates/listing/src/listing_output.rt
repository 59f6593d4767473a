//! Writing the listing of a file.

ghost use Rattle.std.specs.Prelude.{◌≡◌, ◌+◌, ◌-◌, ◌^◌, ◌<◌, ◌≤◌, IfOk, OnErr, OnOk, length};
ghost use Rattle.meta_headers.specs.Opening.{framing_of};
ghost use Rattle.listing.specs.Listing.{framed_records, listed_by, listed_of, listing_in, listing_with, no_format_line};
ghost use Rattle.listing.specs.Putting.{PutsNext, coming};
ghost use Rattle.listing.specs.Sent.{Sends, SendsPrefix};
ghost use Rattle.canvas.specs.Sending.{Sending};

use crate::dry_run::DryRun;
use crate::formats::{first_place, records_in};
use crate::line::{put_fault_line, put_line, put_no_metafile, step_in};
use crate::listing_end::ListingEnd;
use crate::record_walk::RecordWalk;
use crate::sender::{Counted, Sender, Uncounted};
use crate::text_buffer::{BUFFER_CAPACITY, TextBuffer};
use canvas::{FaultCount, WriteFault};
use draw_ops::Format;
use emf_records::Emf;
use meta_headers::FileFormat;
use std::io::Write;
use wmf_records::Wmf;

/// The capacity for a line, in bytes.
const LINE_CAPACITY: usize = 512;

/// Writes a line for each record of a file, from the first one on, and returns how they end. The dry run, which is at the
/// first record, finds the fault that runs of the file have in each, on surfaces of any size. That fault is on the
/// record's line, unless its meaning has a fault. The listing continues after a fault, and ends with a framing fault.
/// No memory is allocated, and nothing is flushed.
pub fn write_listing<'a, W: Write>(
    file: &'a [u8],
    mut dry_run: DryRun<'a>,
    out: &mut W,
) -> Result<ListingEnd, WriteFault>
    ensures listed { IfOk result (λ listed. listed ≡ listed_of file.now) }
    ensures ok { OnOk result (Sends W.contents out.old out.new (listing_with dry_run.entry file.now)) }
    ensures err { OnErr result (SendsPrefix W.contents out.old out.new (listing_with dry_run.entry file.now)) }
{
    write_by::<W, Uncounted>(file, &mut dry_run, out)
}

/// The same as `write_listing`, for a writer that counts its faults and can count at least one more. Returns
/// `WriteFault` only if the count rose.
pub fn write_listing_to<'a, W: FaultCount>(
    file: &'a [u8],
    mut dry_run: DryRun<'a>,
    out: &mut W,
) -> Result<ListingEnd, WriteFault>
    requires capacity { W.fault_count out.old < 2 ^ 64 - 1 }
    ensures listed { IfOk result (λ listed. listed ≡ listed_of file.now) }
    ensures ok { OnOk result (Sends W.contents out.old out.new (listing_with dry_run.entry file.now)) }
    ensures err { OnErr result (SendsPrefix W.contents out.old out.new (listing_with dry_run.entry file.now)) }
    ensures fault { OnErr result (W.fault_count out.old < W.fault_count out.new) }
    ensures capacity { OnOk result (W.fault_count out.new < 2 ^ 64 - 1) }
    ensures count { W.fault_count out.old ≤ W.fault_count out.new }
{
    write_by::<W, Counted>(file, &mut dry_run, out)
}

/// The same for any way to send bytes.
fn write_by<'a, W: Write, S: Sender<W>>(
    file: &'a [u8],
    dry_run: &mut DryRun<'a>,
    out: &mut W,
) -> Result<ListingEnd, WriteFault>
    requires capacity { S.faults out.old + S.counted < 2 ^ 64 }
    ensures listed { IfOk result (λ listed. listed ≡ listed_of file.now) }
    ensures ok { OnOk result (Sends W.contents out.old out.new (listing_with dry_run.old file.now)) }
    ensures err { OnErr result (SendsPrefix W.contents out.old out.new (listing_with dry_run.old file.now)) }
    ensures fault { OnErr result (S.faults out.old + S.counted ≤ S.faults out.new) }
    ensures capacity { OnOk result (S.faults out.new + S.counted < 2 ^ 64) }
    ensures count { S.faults out.old ≤ S.faults out.new }
{
    match FileFormat::of(file) {
        Some(format) => write_in::<W, S>(format, file, dry_run, out),
        None => write_none::<W, S>(out),
    }
}

/// Writes the line that says that a file doesn't begin like any metafile.
fn write_none<W: Write, S: Sender<W>>(out: &mut W) -> Result<ListingEnd, WriteFault>
    requires { S.faults out.old + S.counted < 2 ^ 64 }
    ensures listed { IfOk result (λ listed. listed ≡ ListingEnd.Broken) }
    ensures ok { OnOk result (Sends W.contents out.old out.new (no_format_line)) }
    ensures err { OnErr result (SendsPrefix W.contents out.old out.new (no_format_line)) }
    ensures fault { OnErr result (S.faults out.old + S.counted ≤ S.faults out.new) }
    ensures capacity { OnOk result (S.faults out.new + S.counted < 2 ^ 64) }
    ensures count { S.faults out.old ≤ S.faults out.new }
{
    let mut buffer = TextBuffer::new();
    put_no_metafile(&mut buffer);
    S::send(out, buffer.text())?;
    Ok(ListingEnd::Broken)
}

/// Writes a line for each record of a file of some format.
fn write_in<'a, W: Write, S: Sender<W>>(
    format: FileFormat,
    file: &'a [u8],
    dry_run: &mut DryRun<'a>,
    out: &mut W,
) -> Result<ListingEnd, WriteFault>
    requires capacity { S.faults out.old + S.counted < 2 ^ 64 }
    ensures listed { IfOk result (λ listed. listed ≡ listed_by (framed_records format file.now)) }
    ensures ok { OnOk result (Sends W.contents out.old out.new (listing_in format dry_run.old file.now)) }
    ensures err { OnErr result (SendsPrefix W.contents out.old out.new (listing_in format dry_run.old file.now)) }
    ensures fault { OnErr result (S.faults out.old + S.counted ≤ S.faults out.new) }
    ensures capacity { OnOk result (S.faults out.new + S.counted < 2 ^ 64) }
    ensures count { S.faults out.old ≤ S.faults out.new }
{
    match format {
        FileFormat::Placeable => write_lines::<Wmf, W, S>(format, file, dry_run, out),
        FileFormat::Plain => write_lines::<Wmf, W, S>(format, file, dry_run, out),
        FileFormat::Emf => write_lines::<Emf, W, S>(format, file, dry_run, out),
    }
}

/// Writes a line for each record of a file with this framing.
fn write_lines<'a, F: Format, W: Write, S: Sender<W>>(
    format: FileFormat,
    file: &'a [u8],
    dry_run: &mut DryRun<'a>,
    out: &mut W,
) -> Result<ListingEnd, WriteFault>
    requires framing { framing_of format ≡ F.framing }
    requires capacity { S.faults out.old + S.counted < 2 ^ 64 }
    ensures listed { IfOk result (λ listed. listed ≡ listed_by (framed_records format file.now)) }
    ensures ok { OnOk result (Sends W.contents out.old out.new (listing_in format dry_run.old file.now)) }
    ensures err { OnErr result (SendsPrefix W.contents out.old out.new (listing_in format dry_run.old file.now)) }
    ensures fault { OnErr result (S.faults out.old + S.counted ≤ S.faults out.new) }
    ensures capacity { OnOk result (S.faults out.new + S.counted < 2 ^ 64) }
    ensures count { S.faults out.old ≤ S.faults out.new }
{
    let records = records_in(format, file);
    let mut walk = RecordWalk::<F>::new(records, first_place(format));
    let mut buffer = TextBuffer::new();
    loop {
        ensure_capacity::<W, S>(&mut buffer, out)?;
        if let Some(listed) = put_next(&mut buffer, &mut walk, dry_run, format) {
            S::send(out, buffer.text())?;
            return Ok(listed);
        }
    }
}

/// Sends the buffer's text if there is no space for another line.
fn ensure_capacity<W: Write, S: Sender<W>>(
    buffer: &mut TextBuffer,
    out: &mut W,
) -> Result<(), WriteFault>
    requires { S.faults out.old + S.counted < 2 ^ 64 }
    ensures line { OnOk result (length buffer.new + 512 ≤ 8192) }
    ensures sent { OnOk result (Sending (W.contents out.old) (W.contents out.new) buffer.old buffer.new) }
    ensures err { OnErr result (SendsPrefix W.contents out.old out.new buffer.old) }
    ensures fault { OnErr result (S.faults out.old + S.counted ≤ S.faults out.new) }
    ensures capacity { OnOk result (S.faults out.new + S.counted < 2 ^ 64) }
    ensures count { S.faults out.old ≤ S.faults out.new }
{
    if buffer.len() + LINE_CAPACITY <= BUFFER_CAPACITY {
        return Ok(());
    }
    S::send(out, buffer.text())?;
    buffer.clear();
    Ok(())
}

/// Appends the line of the next record, or the last line at the end of the records.
fn put_next<'a, F: Format>(
    buffer: &mut TextBuffer,
    walk: &mut RecordWalk<'a, F>,
    dry_run: &mut DryRun<'a>,
    format: FileFormat,
) -> Option<ListingEnd>
    requires capacity { length buffer.old + 512 ≤ 8192 }
    requires framing { framing_of format ≡ F.framing }
    ensures { PutsNext format buffer.old (coming walk.old dry_run.old) result buffer.new (coming walk.new dry_run.new) }
{
    match walk.next_record() {
        Ok(Some(given)) => {
            let decoded = step_in(format, given);
            let is_end = given.record.kind == F::end_kind();
            let run = dry_run.try_step(&decoded, is_end);
            put_line(buffer, format, &given, run, &decoded);
            None
        }
        Ok(None) => Some(ListingEnd::Ended),
        Err(fault) => {
            put_fault_line(buffer, walk.number(), walk.place(), fault);
            Some(ListingEnd::Broken)
        }
    }
}
