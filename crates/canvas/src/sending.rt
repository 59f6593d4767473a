//! Sending bytes to a writer.

ghost use Rattle.std.specs.Prelude.{OnOk, OnErr};
ghost use Rattle.std.specs.Io.KnownBytes.{Appends};
ghost use Rattle.canvas.specs.Ppm.{AppendsPrefix};

use crate::canvas_error::WriteFault;
use std::io::{ErrorKind, Write};

/// Writes all of the bytes, without flushing. An interrupted write is retried. Returns `WriteFault` at any other error,
/// or if the writer accepts no byte; then a prefix of the bytes was written.
pub fn send<W: Write>(out: &mut W, bytes: &[u8]) -> Result<(), WriteFault>
    ensures ok { OnOk result (Appends (W.contents out.old) (W.contents out.new) bytes.now) }
    ensures err { OnErr result (AppendsPrefix (W.contents out.old) (W.contents out.new) bytes.now) }
{
    let mut rest = bytes;
    for _ in 0..u64::MAX {
        if rest.is_empty() {
            return Ok(());
        }
        match out.write(rest) {
            Ok(0) => return Err(WriteFault),
            Ok(count) => rest = &rest[count..],
            Err(error) if error.kind() == ErrorKind::Interrupted => {}
            Err(_) => return Err(WriteFault),
        }
    }
    Err(WriteFault)
}
