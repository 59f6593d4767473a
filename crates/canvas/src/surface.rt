//! The canvas: rows of a surface, with a colour for each pixel.

ghost use Rattle.std.specs.Prelude.{◌≡◌, ◌+◌, ◌-◌, ◌*◌, ◌<◌, ◌≤◌, ◌^◌, ◌↔◌, Some, None, IsTrue, IfOk, IfErr, OnOk, OnErr, length, slice_get, slice_set, vec_len};
ghost use Rattle.std.specs.Io.KnownBytes.{Appends};
ghost use Rattle.mapping.specs.Limits.{IsSurfaceSide, surface_side_limit};
ghost use Rattle.canvas.specs.CanvasState.{HasPixel, image_of, colour_index, made_of, showing, shown_again, unwritten};
ghost use Rattle.canvas.specs.Rows.{row_colours, row_stride};
ghost use Rattle.canvas.specs.Writing.{Repaints, is_at};
ghost use Rattle.canvas.specs.WritingLaws.{IsWhole};
ghost use Rattle.canvas.specs.Ppm.{AppendsPrefix, ppm_text, raster};
ghost use Rattle.canvas.specs.PpmReading.{read_ppm};
ghost use Rattle.canvas.specs.declared.canvas_error.ImageError.TheVariants.{BadImage};

use crate::canvas_error::{ImageError, OutOfMemory, WriteFault};
use crate::counting::FaultCount;
use crate::parts::fill_with;
use crate::ppm::{write_raster, write_text};
use crate::ppm_counted::{write_raster_to, write_text_to};
use crate::reading::read_head;
use crate::splat::{Splat, same_colours};
use mapping::Colour;
use std::alloc::Global;
use std::io::Write;
use std::marker::Model;

/// The rows of a surface from `first` on, and a count of the pixels that were written.
///
/// # Guarantees
///
/// - The width is from 1 to 8,192 pixels, and the rows are among 8,192.
/// - There is one colour for each pixel of these rows.
/// - The capacity is as many rows as the canvas was made for.
///
/// Rows are stored with padding (`stride_of`). No call shows the padding.
#[derive(Debug, Drop)]
pub struct Canvas {
    pub(crate) colours: Vec<Colour>,
    pub(crate) width: u32,
    pub(crate) stride: usize,
    pub(crate) first: u32,
    rows: u32,
    most: u32,
    pub(crate) writes: u64,
}

impl Model for Canvas {
    ghost use Rattle.mapping.specs.Limits.{IsSurfaceSide};
    ghost use Rattle.canvas.specs.CanvasState.{CanvasState};
    ghost use Rattle.canvas.specs.Rows.{row_colours};

    ghost Value = { CanvasState };

    ghost view = { λ a. record { width = a.width; first = a.first; rows = a.rows; colours = row_colours a.rows a.width a.stride a.colours.items; writes = a.writes; most = a.most } };

    ghost use Rattle.canvas.specs.Canvas.{IsCanvas};

    ghost invariant = { IsCanvas };
}

impl Canvas {
    /// A surface of `width` by `height` pixels in one colour. Fails with `OutOfMemory`.
    pub fn new(
        alloc: Global,
        width: u32,
        height: u32,
        colour: Colour,
    ) -> Result<Canvas, OutOfMemory>
        requires wide { IsSurfaceSide width }
        requires high { IsSurfaceSide height }
        ensures { IfOk result (λ canvas. canvas ≡ unwritten width 0 height colour) }
    {
        Canvas::band(alloc, width, 0, height, colour)
    }

    /// A band of a surface of `width` columns: `rows` rows from row `first` on, in one colour. Fails with
    /// `OutOfMemory`.
    pub fn band(
        alloc: Global,
        width: u32,
        first: u32,
        rows: u32,
        colour: Colour,
    ) -> Result<Canvas, OutOfMemory>
        requires wide { IsSurfaceSide width }
        requires high { 1 ≤ rows }
        requires within { first + rows ≤ surface_side_limit }
        ensures { IfOk result (λ canvas. canvas ≡ unwritten width first rows colour) }
    {
        let colours = same_colours(alloc, area(rows, stride_of(width)), colour)?;
        Ok(Canvas::of(colours, width, first, rows))
    }

    /// Resets the canvas to other rows in one colour: `rows` of them from row `first` on, at most as many as the canvas
    /// was made for. It keeps its count of writes, and allocates no memory.
    pub fn again(&mut self, first: u32, rows: u32, colour: Colour)
        requires high { 1 ≤ rows }
        requires within { first + rows ≤ surface_side_limit }
        requires most { rows ≤ self.old.most }
        ensures { self.new ≡ shown_again first rows colour self.old }
    {
        let count = area(rows, self.stride);
        let _ = self.colours.resize(count, colour);
        fill_with(&mut self.colours[..], &Splat::new(colour));
        (self.first, self.rows) = (first, rows);
    }

    /// The image of a P6 text (ppm(5)). Comments may be in its gaps and directly after a digit, and bytes after its
    /// raster are ignored. Fails with `BadImage` if the text isn't a P6 text with a width and height from 1 to 8,192
    /// and samples up to 255, or with `OutOfMemory`.
    pub fn from_ppm(alloc: Global, bytes: &[u8]) -> Result<Canvas, ImageError>
        ensures image { IfOk result (λ canvas. read_ppm bytes.now ≡ Some (image_of canvas)) }
        ensures shown { IfOk result (λ canvas. canvas ≡ showing (image_of canvas)) }
        ensures bad { IfErr result (λ error. error ≡ BadImage ↔ read_ppm bytes.now ≡ None) }
    {
        let Some(head) = read_head(bytes) else {
            return Err(ImageError::BadImage);
        };
        let samples = &bytes[head.start..];
        let width = head.width as usize;
        if samples.len() / 3 < area(head.height, width) {
            return Err(ImageError::BadImage);
        }
        match Canvas::from_samples(alloc, head.width, head.height, samples) {
            Ok(canvas) => Ok(canvas),
            Err(OutOfMemory) => Err(ImageError::OutOfMemory),
        }
    }

    /// The canvas with these colours, before anything is written.
    pub(crate) fn of(colours: Vec<Colour>, width: u32, first: u32, rows: u32) -> Canvas
        requires wide { IsSurfaceSide width }
        requires high { 1 ≤ rows }
        requires within { first + rows ≤ surface_side_limit }
        requires whole { vec_len colours ≡ rows * row_stride width }
        ensures { result ≡ made_of (row_colours rows width (row_stride width) colours.items) width first rows }
    {
        Canvas {
            colours,
            width,
            stride: stride_of(width),
            first,
            rows,
            most: rows,
            writes: 0,
        }
    }

    /// The width of the surface, in pixels.
    pub fn width(&self) -> u32
        ensures width { result ≡ self.now.width }
        ensures side { IsSurfaceSide self.now.width }
        ensures whole { IsWhole self.now }
    {
        self.width
    }

    /// The distance from the start of a row to the start of the next, in colours: at most 8,256.
    pub fn stride(&self) -> usize
        ensures stride { result ≡ row_stride self.now.width }
        ensures few { result ≤ 8256 }
    {
        self.stride
    }

    /// The number of the first row.
    pub fn first(&self) -> u32
        ensures { result ≡ self.now.first }
    {
        self.first
    }

    /// The number of rows. All of them are among 8,192.
    pub fn rows(&self) -> u32
        ensures rows { result ≡ self.now.rows }
        ensures side { IsSurfaceSide self.now.rows }
        ensures within { self.now.first + self.now.rows ≤ surface_side_limit }
    {
        self.rows
    }

    /// The number of rows that the canvas was made for, which is its capacity.
    pub fn most_rows(&self) -> u32
        ensures most { result ≡ self.now.most }
        ensures held { self.now.rows ≤ self.now.most }
    {
        self.most
    }

    /// The number of pixel writes since the canvas was made.
    pub fn writes(&self) -> u64
        ensures { result ≡ self.now.writes }
    {
        self.writes
    }

    /// Whether the canvas contains the surface's pixel `(x, y)`. There is a colour for each of its pixels.
    pub fn has_pixel(&self, x: u32, y: u32) -> bool
        ensures pixel { IsTrue result ↔ HasPixel self.now x y }
        ensures whole { length self.now.colours ≡ self.now.rows * self.now.width }
    {
        x < self.width && self.first <= y && y < self.first + self.rows
    }

    /// The colour of the surface's pixel `(x, y)`.
    pub fn colour(&self, x: u32, y: u32) -> Colour
        requires { HasPixel self.now x y }
        ensures { slice_get self.now.colours (colour_index self.now x y) ≡ Some result }
    {
        self.colours[place(self.stride, y - self.first, x)]
    }

    /// Writes the surface's pixel `(x, y)`.
    pub fn put(&mut self, x: u32, y: u32, colour: Colour)
        requires pixel { HasPixel self.old x y }
        requires countable { self.old.writes + 1 < 2 ^ 64 }
        ensures repaints { Repaints (is_at x y) (λ column row old. colour) self.old self.new }
        ensures pixel { self.new.colours ≡ slice_set self.old.colours (colour_index self.old x y) colour }
        ensures count { self.new.writes ≡ self.old.writes + 1 }
        ensures width { self.new.width ≡ self.old.width }
        ensures first { self.new.first ≡ self.old.first }
        ensures rows { self.new.rows ≡ self.old.rows }
    {
        let place = place(self.stride, y - self.first, x);
        self.colours[place] = colour;
        self.writes += 1;
    }

    /// Writes the P6 text (ppm(5)) of the canvas's rows, in pieces of 12 KiB, without flushing. An interrupted write is
    /// retried.
    ///
    /// After a `WriteFault`, a prefix of the text was written.
    pub fn write_ppm<W: Write>(&self, out: &mut W) -> Result<(), WriteFault>
        ensures ok { OnOk result (Appends (W.contents out.old) (W.contents out.new) (ppm_text (image_of self.now))) }
        ensures err { OnErr result (AppendsPrefix (W.contents out.old) (W.contents out.new) (ppm_text (image_of self.now))) }
    {
        write_text(out, self)
    }

    /// Writes the raster of the canvas's rows, without a header: red, green and blue of each pixel, row by row
    /// (ppm(5)). The writer isn't flushed. Returns `WriteFault` if the writer failed or accepted no byte; then a prefix
    /// of the raster was written.
    pub fn write_rows<W: Write>(&self, out: &mut W) -> Result<(), WriteFault>
        ensures ok { OnOk result (Appends (W.contents out.old) (W.contents out.new) (raster self.now.colours)) }
        ensures err { OnErr result (AppendsPrefix (W.contents out.old) (W.contents out.new) (raster self.now.colours)) }
    {
        write_raster(out, self)
    }

    /// The same as `write_ppm`, for a writer that counts its faults and can count at least one more. Returns
    /// `WriteFault` only if the count rose.
    pub fn write_ppm_to<W: FaultCount>(&self, out: &mut W) -> Result<(), WriteFault>
        requires capacity { W.fault_count out.old < 2 ^ 64 - 1 }
        ensures ok { OnOk result (Appends (W.contents out.old) (W.contents out.new) (ppm_text (image_of self.now))) }
        ensures err { OnErr result (AppendsPrefix (W.contents out.old) (W.contents out.new) (ppm_text (image_of self.now))) }
        ensures fault { OnErr result (W.fault_count out.old < W.fault_count out.new) }
        ensures capacity { OnOk result (W.fault_count out.new < 2 ^ 64 - 1) }
        ensures count { W.fault_count out.old ≤ W.fault_count out.new }
    {
        write_text_to(out, self)
    }

    /// The same as `write_rows`, for a writer that counts its faults and can count at least one more. Returns
    /// `WriteFault` only if the count rose.
    pub fn write_rows_to<W: FaultCount>(&self, out: &mut W) -> Result<(), WriteFault>
        requires capacity { W.fault_count out.old < 2 ^ 64 - 1 }
        ensures ok { OnOk result (Appends (W.contents out.old) (W.contents out.new) (raster self.now.colours)) }
        ensures err { OnErr result (AppendsPrefix (W.contents out.old) (W.contents out.new) (raster self.now.colours)) }
        ensures fault { OnErr result (W.fault_count out.old < W.fault_count out.new) }
        ensures capacity { OnOk result (W.fault_count out.new < 2 ^ 64 - 1) }
        ensures count { W.fault_count out.old ≤ W.fault_count out.new }
    {
        write_raster_to(out, self)
    }
}

/// The distance from the start of one row to the start of the next, in colours: the least odd multiple of 64 that is at
/// least the width. If it were the width, each row of 4,096 pixels would begin 12,288 bytes after the one above. Then
/// the pixels of a y-major line, one in each row, would share only a few sets of the processor's cache.
pub(crate) fn stride_of(width: u32) -> usize
    requires { width ≤ surface_side_limit }
    ensures { result ≡ row_stride width }
{
    (width as usize + 63) / 128 * 128 + 64
}

/// The number of colours in this many rows, including padding.
pub(crate) fn area(rows: u32, stride: usize) -> usize
    requires rows { rows ≤ surface_side_limit }
    requires stride { stride ≤ row_stride surface_side_limit }
    ensures { result ≡ rows * stride }
{
    rows as usize * stride
}

/// The index of a column in a row, counted from the first row.
pub(crate) fn place(stride: usize, row: u32, column: u32) -> usize
    requires stride { stride ≤ row_stride surface_side_limit }
    requires row { row < surface_side_limit }
    requires column { column ≤ stride }
    ensures { result ≡ row * stride + column }
{
    row as usize * stride + column as usize
}
