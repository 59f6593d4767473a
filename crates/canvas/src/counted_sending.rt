//! Sending bytes to a writer that counts its faults.

ghost use Rattle.std.specs.Prelude.{◌≡◌, ◌-◌, ◌^◌, ◌<◌, ◌≤◌, OnOk, OnErr, true};
ghost use Rattle.std.specs.Io.KnownBytes.{Appends, Keeps};
ghost use Rattle.canvas.specs.Ppm.{AppendsPrefix};

use crate::canvas_error::WriteFault;
use crate::counting::FaultCount;
use std::io::ErrorKind;

/// Writes all of the bytes, as `send` does, to a writer that counts its faults and can count at least one more. Returns
/// `WriteFault` only if the count rose, so never with a writer that doesn't fail. An interrupted write is retried while
/// the count isn't full.
pub fn send_counted<W: FaultCount>(out: &mut W, bytes: &[u8]) -> Result<(), WriteFault>
    requires capacity { W.fault_count out.old < 2 ^ 64 - 1 }
    ensures ok { OnOk result (Appends (W.contents out.old) (W.contents out.new) bytes.now) }
    ensures err { OnErr result (AppendsPrefix (W.contents out.old) (W.contents out.new) bytes.now) }
    ensures fault { OnErr result (W.fault_count out.old < W.fault_count out.new) }
    ensures capacity { OnOk result (W.fault_count out.new < 2 ^ 64 - 1) }
    ensures count { W.fault_count out.old ≤ W.fault_count out.new }
{
    let mut rest = bytes;
    while !rest.is_empty() {
        match out.write_counted(rest) {
            Ok(0) => return Err(WriteFault),
            Ok(count) => rest = &rest[count..],
            Err(error) if error.kind() == ErrorKind::Interrupted && out.faults() < u64::MAX => {}
            Err(_) => return Err(WriteFault),
        }
    }
    Ok(())
}

/// Flushes a writer that counts its faults and can count at least one more. Returns `WriteFault` only if the count
/// rose.
pub fn flush_sent<W: FaultCount>(out: &mut W) -> Result<(), WriteFault>
    requires capacity { W.fault_count out.old < 2 ^ 64 - 1 }
    ensures bytes { Keeps (W.contents out.old) (W.contents out.new) }
    ensures flushed { OnOk result (W.is_flushed out.new ≡ true) }
    ensures fault { OnErr result (W.fault_count out.old < W.fault_count out.new) }
    ensures capacity { OnOk result (W.fault_count out.new < 2 ^ 64 - 1) }
    ensures count { W.fault_count out.old ≤ W.fault_count out.new }
{
    out.flush_counted().map_err(|_| WriteFault)
}

/// Writes all of a text, as `send_counted` does, and flushes the writer. So a finished text has been flushed.
pub fn send_finished<W: FaultCount>(out: &mut W, text: &[u8]) -> Result<(), WriteFault>
    requires capacity { W.fault_count out.old < 2 ^ 64 - 1 }
    ensures ok { OnOk result (Appends (W.contents out.old) (W.contents out.new) text.now) }
    ensures flushed { OnOk result (W.is_flushed out.new ≡ true) }
    ensures err { OnErr result (AppendsPrefix (W.contents out.old) (W.contents out.new) text.now) }
    ensures fault { OnErr result (W.fault_count out.old < W.fault_count out.new) }
    ensures capacity { OnOk result (W.fault_count out.new < 2 ^ 64 - 1) }
    ensures count { W.fault_count out.old ≤ W.fault_count out.new }
{
    send_counted(out, text)?;
    flush_sent(out)
}
