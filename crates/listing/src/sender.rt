//! Ways to send the text of a listing to a writer.

ghost use Rattle.std.specs.Prelude.{ℕ, ◌+◌, ◌^◌, ◌<◌, ◌≤◌, OnErr, OnOk};
ghost use Rattle.std.specs.Io.KnownBytes.{Appends};
ghost use Rattle.canvas.specs.Ppm.{AppendsPrefix};

use canvas::{FaultCount, WriteFault, send, send_counted};
use std::io::Write;

/// A way to send bytes to a writer. It lets the code that lists records be written once.
pub(crate) trait Sender<W: Write> {
    /// How many faults a writer has counted.
    ghost faults: { W → ℕ };

    /// How many faults a failing call counts. The counter must have room for them.
    ghost counted: { ℕ };

    /// Sends all of the bytes.
    fn send(out: &mut W, bytes: &[u8]) -> Result<(), WriteFault>
        requires capacity { faults out.old + counted < 2 ^ 64 }
        ensures ok { OnOk result (Appends (W.contents out.old) (W.contents out.new) bytes.now) }
        ensures err { OnErr result (AppendsPrefix (W.contents out.old) (W.contents out.new) bytes.now) }
        ensures fault { OnErr result (faults out.old + counted ≤ faults out.new) }
        ensures capacity { OnOk result (faults out.new + counted < 2 ^ 64) }
        ensures count { faults out.old ≤ faults out.new };
}

/// Sends bytes by `write` to any writer. Faults aren't counted.
pub(crate) struct Uncounted;

/// Sends bytes by `write_counted` only, to a writer that counts its faults.
pub(crate) struct Counted;

impl<W: Write> Sender<W> for Uncounted {
    ghost faults = { λ _. 0 };

    ghost counted = { 0 };

    fn send(out: &mut W, bytes: &[u8]) -> Result<(), WriteFault> {
        send(out, bytes)
    }
}

impl<W: FaultCount> Sender<W> for Counted {
    ghost faults = { λ out. W.fault_count out };

    ghost counted = { 1 };

    fn send(out: &mut W, bytes: &[u8]) -> Result<(), WriteFault> {
        send_counted(out, bytes)
    }
}
