//! Pixels: a surface's rows of colours, a count of the pixels written, and the P6 text.
//!
//! # What is promised
//!
//! - A new canvas shows one colour and has counted no writes (`Canvas::new`, and `Canvas::band` for a band of rows).
//! - A canvas can be reset to other rows in one colour. It keeps its count and allocates no memory (`Canvas::again`).
//! - A write changes the named pixel and no other, and is counted once (`Canvas::put`).
//! - A call that writes a part of a row writes the named pixels, each in its colour, changes no other pixel and counts
//!   each write (`Canvas::put_span`, `put_swatch`, `put_stripes`, `put_row`, `mix_span`, `mix_row`,
//!   `mix_cells`, `mix`, by `Repaints`).
//! - Pixels that a source returns one by one, none twice, are written in one colour or changed by one mix, and each is
//!   counted once (`Canvas::put_each`, `Canvas::mix_each`, `PixelSource`).
//! - The same holds for the pixels of row spans that a source returns one by one, with no pixel in two of them
//!   (`Canvas::put_each_span`, `Canvas::mix_each_span`, `SpanSource`).
//! - Writes that share no pixel can be combined into one (`writing_law`).
//! - The output is the P6 text of the image, byte for byte, and after a failure a prefix of that text
//!   (`Canvas::write_ppm`, by `ppm_text`). Header and rows can be written separately (`write_header`,
//!   `Canvas::write_rows`), and the text of an image is its header followed by the rasters of its bands (`band_law`).
//! - Reading a P6 text returns exactly the image that the text describes, and fails exactly if it describes none
//!   (`Canvas::from_ppm`, by `read_ppm`). The text that is written for an image is read back as that image (`ppm_law`).
//! - The samples of all rows, or of one row, are copied to a buffer (`Canvas::copy_samples`, `Canvas::copy_row`). A canvas
//!   that is made of samples shows the image that they describe (`Canvas::from_samples`, by `image_at`).
//! - All bytes are sent, or a prefix of them if the writer fails, however many the writer accepts per call (`send`).
//! - With a writer that counts its faults, `WriteFault` is returned only if that count rose in the call, and so never
//!   if the writer didn't fail (`send_counted`, `write_header_to`, `Canvas::write_ppm_to`, `Canvas::write_rows_to`,
//!   `flush_sent`). `Counting` makes such a writer from any other. A text that such a writer accepted in full was
//!   flushed, and nothing was written after that (`send_finished`).
//!
//! Memory is allocated when a canvas is made: three bytes per pixel, and the padding between rows. No other call
//! allocates any. The contracts say this only through the canvas's capacity, but a test counts the allocations of the
//! built program.
#![tactic(auto)]

mod canvas_error;
mod counted_sending;
mod counting;
mod laws;
mod part_change;
mod parts;
mod pixel_change;
mod pixel_source;
mod ppm;
mod ppm_counted;
mod reading;
mod samples;
mod sending;
mod span_source;
mod splat;
mod stripes;
mod surface;
mod writing;

pub use canvas_error::{ImageError, OutOfMemory, WriteFault};
pub use counted_sending::{flush_sent, send_counted, send_finished};
pub use counting::{Counting, FaultCount};
pub use laws::{band_law, ppm_law, writing_law};
pub use pixel_source::{PixelAt, PixelSource, PixelStep};
pub use ppm::write_header;
pub use ppm_counted::write_header_to;
pub use sending::send;
pub use span_source::{RowSpan, SpanSource, SpanStep};
pub use splat::Splat;
pub use stripes::Stripes;
pub use surface::Canvas;
