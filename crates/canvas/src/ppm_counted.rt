//! The P6 text, written to writers that count their faults.

ghost use Rattle.std.specs.Prelude.{◌≡◌, ◌+◌, ◌*◌, ◌-◌, ◌^◌, ◌<◌, ◌≤◌, ◌++◌, length, take, OnOk, OnErr};
ghost use Rattle.std.specs.Io.KnownBytes.{Appends};
ghost use Rattle.canvas.specs.CanvasState.{image_of};
ghost use Rattle.canvas.specs.Ppm.{AppendsPrefix, header, ppm_text, raster, rest};

use crate::canvas_error::WriteFault;
use crate::counted_sending::send_counted;
use crate::counting::FaultCount;
use crate::ppm::{HEADER_CAPACITY, PIECE_CAPACITY, PIECE_PIXELS, put_header};
use crate::surface::Canvas;

/// Writes the header of a P6 text, as `write_header` does, to a writer that counts its faults and can count at least
/// one more. Returns `WriteFault` only if the count rose.
pub fn write_header_to<W: FaultCount>(
    out: &mut W,
    width: u32,
    height: u32,
) -> Result<(), WriteFault>
    requires capacity { W.fault_count out.old < 2 ^ 64 - 1 }
    ensures ok { OnOk result (Appends (W.contents out.old) (W.contents out.new) (header width height)) }
    ensures err { OnErr result (AppendsPrefix (W.contents out.old) (W.contents out.new) (header width height)) }
    ensures fault { OnErr result (W.fault_count out.old < W.fault_count out.new) }
    ensures capacity { OnOk result (W.fault_count out.new < 2 ^ 64 - 1) }
    ensures count { W.fault_count out.old ≤ W.fault_count out.new }
{
    let mut text = [0u8; HEADER_CAPACITY];
    let length = put_header(&mut text, width, height);
    send_counted(out, &text[..length])
}

/// Writes the P6 text of the canvas's rows.
pub(crate) fn write_text_to<W: FaultCount>(out: &mut W, canvas: &Canvas) -> Result<(), WriteFault>
    requires capacity { W.fault_count out.old < 2 ^ 64 - 1 }
    ensures ok { OnOk result (Appends (W.contents out.old) (W.contents out.new) (ppm_text (image_of canvas.now))) }
    ensures err { OnErr result (AppendsPrefix (W.contents out.old) (W.contents out.new) (ppm_text (image_of canvas.now))) }
    ensures fault { OnErr result (W.fault_count out.old < W.fault_count out.new) }
    ensures capacity { OnOk result (W.fault_count out.new < 2 ^ 64 - 1) }
    ensures count { W.fault_count out.old ≤ W.fault_count out.new }
{
    let mut piece = [0u8; PIECE_CAPACITY];
    let ready = put_header(&mut piece, canvas.width(), canvas.rows());
    write_pieces_to(out, &mut piece, ready, canvas)
}

/// Writes the samples of the canvas's rows.
pub(crate) fn write_raster_to<W: FaultCount>(out: &mut W, canvas: &Canvas) -> Result<(), WriteFault>
    requires capacity { W.fault_count out.old < 2 ^ 64 - 1 }
    ensures ok { OnOk result (Appends (W.contents out.old) (W.contents out.new) (raster canvas.now.colours)) }
    ensures err { OnErr result (AppendsPrefix (W.contents out.old) (W.contents out.new) (raster canvas.now.colours)) }
    ensures fault { OnErr result (W.fault_count out.old < W.fault_count out.new) }
    ensures capacity { OnOk result (W.fault_count out.new < 2 ^ 64 - 1) }
    ensures count { W.fault_count out.old ≤ W.fault_count out.new }
{
    let mut piece = [0u8; PIECE_CAPACITY];
    write_pieces_to(out, &mut piece, 0, canvas)
}

/// Writes the bytes at the start of the buffer, and then the samples of the canvas's rows, piece by piece.
fn write_pieces_to<W: FaultCount>(
    out: &mut W,
    piece: &mut [u8],
    ready: usize,
    canvas: &Canvas,
) -> Result<(), WriteFault>
    requires capacity { W.fault_count out.old < 2 ^ 64 - 1 }
    requires long { 12320 ≤ length piece.old }
    requires few { ready ≤ 32 }
    ensures ok { OnOk result (Appends (W.contents out.old) (W.contents out.new) (rest ready piece.old canvas.now)) }
    ensures err { OnErr result (AppendsPrefix (W.contents out.old) (W.contents out.new) (rest ready piece.old canvas.now)) }
    ensures fault { OnErr result (W.fault_count out.old < W.fault_count out.new) }
    ensures capacity { OnOk result (W.fault_count out.new < 2 ^ 64 - 1) }
    ensures count { W.fault_count out.old ≤ W.fault_count out.new }
{
    let count = canvas.pixel_count();
    let mut filled = ready;
    let mut done = 0;
    while done < count {
        let end = done + PIECE_PIXELS.min(count - done);
        filled = canvas.put_samples(piece, filled, done, end);
        send_counted(out, &piece[..filled])?;
        filled = 0;
        done = end;
    }
    send_counted(out, &piece[..filled])
}
