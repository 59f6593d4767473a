//! The P6 text, written in pieces through a buffer on the stack.

ghost use Rattle.std.specs.Prelude.{◌≡◌, ◌+◌, ◌-◌, ◌*◌, ◌<◌, ◌≤◌, ◌++◌, length, take, drop, decimal, OnOk, OnErr};
ghost use Rattle.std.specs.Io.KnownBytes.{Appends};
ghost use Rattle.canvas.specs.CanvasState.{image_of};
ghost use Rattle.canvas.specs.Ppm.{AppendsPrefix, header, ppm_text, raster, rest};

use crate::canvas_error::WriteFault;
use crate::sending::send;
use crate::surface::Canvas;
use itoa::Buffer;
use mapping::Colour;
use std::io::Write;

/// The number of pixels in a piece. The first piece also has the header.
pub(crate) const PIECE_PIXELS: usize = 4096;

/// The capacity for the longest header, 29 bytes: its two numbers have at most ten digits each.
pub(crate) const HEADER_CAPACITY: usize = 32;

/// The capacity for a piece, with three bytes per pixel.
pub(crate) const PIECE_CAPACITY: usize = HEADER_CAPACITY + 3 * PIECE_PIXELS;

/// The number of pixels that are converted to bytes at once.
const GROUP_PIXELS: usize = 16;

/// Writes the header of a P6 text (ppm(5)), for an image of this size in pixels. The text of the image is this header,
/// followed by its rows. The writer isn't flushed. Returns `WriteFault` if the writer failed or accepted no byte; then
/// a prefix of the header was written.
pub fn write_header<W: Write>(out: &mut W, width: u32, height: u32) -> Result<(), WriteFault>
    ensures ok { OnOk result (Appends (W.contents out.old) (W.contents out.new) (header width height)) }
    ensures err { OnErr result (AppendsPrefix (W.contents out.old) (W.contents out.new) (header width height)) }
{
    let mut text = [0u8; HEADER_CAPACITY];
    let length = put_header(&mut text, width, height);
    send(out, &text[..length])
}

/// Writes the P6 text of the canvas's rows.
pub(crate) fn write_text<W: Write>(out: &mut W, canvas: &Canvas) -> Result<(), WriteFault>
    ensures ok { OnOk result (Appends (W.contents out.old) (W.contents out.new) (ppm_text (image_of canvas.now))) }
    ensures err { OnErr result (AppendsPrefix (W.contents out.old) (W.contents out.new) (ppm_text (image_of canvas.now))) }
{
    let mut piece = [0u8; PIECE_CAPACITY];
    let ready = put_header(&mut piece, canvas.width(), canvas.rows());
    write_pieces(out, &mut piece, ready, canvas)
}

/// Writes the samples of the canvas's rows.
pub(crate) fn write_raster<W: Write>(out: &mut W, canvas: &Canvas) -> Result<(), WriteFault>
    ensures ok { OnOk result (Appends (W.contents out.old) (W.contents out.new) (raster canvas.now.colours)) }
    ensures err { OnErr result (AppendsPrefix (W.contents out.old) (W.contents out.new) (raster canvas.now.colours)) }
{
    let mut piece = [0u8; PIECE_CAPACITY];
    write_pieces(out, &mut piece, 0, canvas)
}

/// Writes the bytes at the start of the buffer, and then the samples of the canvas's rows, piece by piece.
fn write_pieces<W: Write>(
    out: &mut W,
    piece: &mut [u8],
    ready: usize,
    canvas: &Canvas,
) -> Result<(), WriteFault>
    requires capacity { 12320 ≤ length piece.old }
    requires few { ready ≤ 32 }
    ensures ok { OnOk result (Appends (W.contents out.old) (W.contents out.new) (rest ready piece.old canvas.now)) }
    ensures err { OnErr result (AppendsPrefix (W.contents out.old) (W.contents out.new) (rest ready piece.old canvas.now)) }
{
    let count = canvas.pixel_count();
    let mut filled = ready;
    let mut done = 0;
    while done < count {
        let end = done + PIECE_PIXELS.min(count - done);
        filled = canvas.put_samples(piece, filled, done, end);
        send(out, &piece[..filled])?;
        filled = 0;
        done = end;
    }
    send(out, &piece[..filled])
}

/// Writes the header to the start of the buffer, and returns its length.
pub(crate) fn put_header(buffer: &mut [u8], width: u32, height: u32) -> usize
    requires { 32 ≤ length buffer.old }
    ensures text { take result buffer.new ≡ header width height }
    ensures short { result ≤ 32 }
{
    let end = put_text(buffer, 0, b"P6\n");
    let end = put_number(buffer, end, width);
    let end = put_text(buffer, end, b" ");
    let end = put_number(buffer, end, height);
    put_text(buffer, end, b"\n255\n")
}

/// Writes a number's decimal digits after the first `at` bytes, and returns where they end.
fn put_number(buffer: &mut [u8], at: usize, number: u32) -> usize
    requires { at + 10 ≤ length buffer.old }
    ensures text { take result buffer.new ≡ take at buffer.old ++ decimal number }
    ensures end { result ≡ at + length (decimal number) }
    ensures short { length (decimal number) ≤ 10 }
{
    let mut digits = Buffer::new();
    put_text(buffer, at, digits.format(number).as_bytes())
}

/// Writes a text after the first `at` bytes, and returns where it ends.
#[inline]
fn put_text(buffer: &mut [u8], at: usize, text: &[u8]) -> usize
    requires { at + length text.now ≤ length buffer.old }
    ensures text { take result buffer.new ≡ take at buffer.old ++ text.now }
    ensures end { result ≡ at + length text.now }
{
    let end = at + text.len();
    buffer[at..end].copy_from_slice(text);
    end
}

impl Canvas {
    /// The number of pixels of the canvas.
    pub(crate) fn pixel_count(&self) -> usize
        ensures { result ≡ length self.now.colours }
    {
        self.rows() as usize * self.width as usize
    }

    /// Writes the samples of pixels after the first `at` bytes, and returns where they end. The pixels are those from
    /// one to before another, counted row by row.
    pub(crate) fn put_samples(&self, buffer: &mut [u8], at: usize, from: usize, to: usize) -> usize
        requires order { from ≤ to }
        requires within { to ≤ length self.now.colours }
        requires capacity { at + 3 * (to - from) ≤ length buffer.old }
        ensures text { take result buffer.new ≡ take at buffer.old ++ raster (take (to - from) (drop from self.now.colours)) }
        ensures end { result ≡ at + 3 * (to - from) }
    {
        let (mut end, mut done) = (at, from);
        while done < to {
            let part = self.part_of_row(done, to);
            end = put_pixels(buffer, end, part);
            done += part.len();
        }
        end
    }

    /// The colours of such pixels in one row: from one to the end of its row, or to before another.
    fn part_of_row(&self, from: usize, to: usize) -> &[Colour]
        requires order { from < to }
        requires within { to ≤ length self.now.colours }
        ensures some { 1 ≤ length result.now }
        ensures most { length result.now ≤ to - from }
        ensures part { result.now ≡ take (length result.now) (drop from self.now.colours) }
    {
        let width = self.width as usize;
        let (row, column) = (from / width, from % width);
        let start = row * self.stride + column;
        let count = (width - column).min(to - from);
        &self.colours[start..start + count]
    }
}

/// Writes the samples of the colours after the first `at` bytes, and returns where they end. Groups of pixels are
/// converted separately and copied at once, because the compiler knows their size.
pub(crate) fn put_pixels(buffer: &mut [u8], at: usize, colours: &[Colour]) -> usize
    requires { at + 3 * length colours.now ≤ length buffer.old }
    ensures text { take result buffer.new ≡ take at buffer.old ++ raster colours.now }
    ensures end { result ≡ at + 3 * length colours.now }
{
    let (mut end, mut done) = (at, 0);
    while colours.len() - done >= GROUP_PIXELS {
        let mut samples = [0u8; 3 * GROUP_PIXELS];
        put_few(&mut samples, 0, &colours[done..done + GROUP_PIXELS]);
        end = put_text(buffer, end, &samples);
        done += GROUP_PIXELS;
    }
    put_few(buffer, end, &colours[done..])
}

/// The same, pixel by pixel.
#[inline]
fn put_few(buffer: &mut [u8], at: usize, colours: &[Colour]) -> usize
    requires { at + 3 * length colours.now ≤ length buffer.old }
    ensures text { take result buffer.new ≡ take at buffer.old ++ raster colours.now }
    ensures end { result ≡ at + 3 * length colours.now }
{
    let mut end = at;
    for colour in colours {
        buffer[end] = colour.r;
        buffer[end + 1] = colour.g;
        buffer[end + 2] = colour.b;
        end += 3;
    }
    end
}
