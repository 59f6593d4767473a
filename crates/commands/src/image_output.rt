//! Writes an image to an output and flushes it.

ghost use Rattle.std.specs.Prelude.{◌≡◌, ◌-◌, ◌^◌, ◌<◌, OnErr, OnOk, true};
ghost use Rattle.std.specs.Io.KnownBytes.{Appends};
ghost use Rattle.canvas.specs.CanvasState.{image_of};
ghost use Rattle.canvas.specs.Ppm.{AppendsPrefix, ppm_text};

use canvas::{Canvas, FaultCount, WriteFault, flush_sent};

/// Writes an image and flushes the writer.
pub(crate) fn write_image<O: FaultCount>(canvas: &Canvas, out: &mut O) -> Result<(), WriteFault>
    requires capacity { O.fault_count out.old < 2 ^ 64 - 1 }
    ensures ok { OnOk result (Appends (O.contents out.old) (O.contents out.new) (ppm_text (image_of canvas.now))) }
    ensures flushed { OnOk result (O.is_flushed out.new ≡ true) }
    ensures err { OnErr result (AppendsPrefix (O.contents out.old) (O.contents out.new) (ppm_text (image_of canvas.now))) }
    ensures fault { OnErr result (O.fault_count out.old < O.fault_count out.new) }
{
    canvas.write_ppm_to(out)?;
    flush_sent(out)
}
