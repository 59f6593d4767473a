//! How the parts of an image's text are sent to a writer.

ghost use Rattle.std.specs.Prelude.{ℕ, ◌+◌, ◌^◌, ◌<◌, ◌≤◌, OnErr, OnOk};
ghost use Rattle.canvas.specs.Ppm.{header, raster};
ghost use Rattle.player.specs.PartsWritten.{SendsPrefix, SendsText};

use canvas::{Canvas, FaultCount, WriteFault, write_header, write_header_to};
use std::io::Write;

/// A way to send the parts of an image's text to a writer. It lets the code that plays in bands be written once.
pub(crate) trait PartWriter<W: Write> {
    /// How many faults a writer has counted.
    ghost faults: { W → ℕ };

    /// How many faults a failing call counts. The counter must have room for them.
    ghost counted: { ℕ };

    /// Writes the header.
    fn write_header(out: &mut W, width: u32, height: u32) -> Result<(), WriteFault>
        requires capacity { faults out.old + counted < 2 ^ 64 }
        ensures ok { OnOk result (SendsText W.contents out.old out.new (header width height)) }
        ensures err { OnErr result (SendsPrefix W.contents out.old out.new (header width height)) }
        ensures fault { OnErr result (faults out.old + counted ≤ faults out.new) }
        ensures capacity { OnOk result (faults out.new + counted < 2 ^ 64) }
        ensures count { faults out.old ≤ faults out.new };

    /// Writes the samples of a canvas's rows.
    fn write_rows(out: &mut W, canvas: &Canvas) -> Result<(), WriteFault>
        requires capacity { faults out.old + counted < 2 ^ 64 }
        ensures ok { OnOk result (SendsText W.contents out.old out.new (raster canvas.now.colours)) }
        ensures err { OnErr result (SendsPrefix W.contents out.old out.new (raster canvas.now.colours)) }
        ensures fault { OnErr result (faults out.old + counted ≤ faults out.new) }
        ensures capacity { OnOk result (faults out.new + counted < 2 ^ 64) }
        ensures count { faults out.old ≤ faults out.new };
}

/// Sends bytes by `write` to any writer. Faults aren't counted.
pub(crate) struct Uncounted;

/// Sends bytes by `write_counted` only, to a writer that counts its faults.
pub(crate) struct Counted;

impl<W: Write> PartWriter<W> for Uncounted {
    ghost faults = { λ _. 0 };

    ghost counted = { 0 };

    fn write_header(out: &mut W, width: u32, height: u32) -> Result<(), WriteFault> {
        write_header(out, width, height)
    }

    fn write_rows(out: &mut W, canvas: &Canvas) -> Result<(), WriteFault> {
        canvas.write_rows(out)
    }
}

impl<W: FaultCount> PartWriter<W> for Counted {
    ghost faults = { λ out. W.fault_count out };

    ghost counted = { 1 };

    fn write_header(out: &mut W, width: u32, height: u32) -> Result<(), WriteFault> {
        write_header_to(out, width, height)
    }

    fn write_rows(out: &mut W, canvas: &Canvas) -> Result<(), WriteFault> {
        canvas.write_rows_to(out)
    }
}
