//! Sends the text that `clap` shows to a writer that counts its faults.

ghost use Rattle.std.specs.Prelude.{◌<◌, ◌≤◌, OnErr, OnOk};

use canvas::{FaultCount, WriteFault, send_counted};
use std::fmt;
use std::fmt::Write;

/// A formatter that sends its text to a writer directly, without allocating memory.
#[derive(Drop)]
struct Shown<'a, W: FaultCount> {
    out: &'a mut W,
}

impl<W: FaultCount> fmt::Write for Shown<'_, W> {
    fn write_str(&mut self, text: &str) -> fmt::Result {
        if self.out.faults() == u64::MAX {
            return Err(fmt::Error);
        }
        send_counted(self.out, text.as_bytes()).map_err(|_| fmt::Error)
    }
}

/// Shows an error of `clap` on a writer. Returns `WriteFault` exactly if the writer had a fault meanwhile.
pub(crate) fn show_error<W: FaultCount>(error: &clap::Error, out: &mut W) -> Result<(), WriteFault>
    ensures failed { OnErr result (W.fault_count out.old < W.fault_count out.new) }
    ensures shown { OnOk result (W.fault_count out.new ≤ W.fault_count out.old) }
{
    let before = out.faults();
    let _ = write!(Shown { out }, "{error}");
    if before < out.faults() {
        return Err(WriteFault);
    }
    Ok(())
}
