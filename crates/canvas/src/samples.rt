//! The samples of a canvas in a buffer: red, green and blue of each pixel, as in the raster of a P6 text (ppm(5)).

ghost use Rattle.std.specs.Prelude.{◌≡◌, ◌*◌, ◌≤◌, IfOk, length};
ghost use Rattle.mapping.specs.Limits.{IsSurfaceSide};
ghost use Rattle.canvas.specs.CanvasState.{HasRow, showing};
ghost use Rattle.canvas.specs.Ppm.{raster};
ghost use Rattle.canvas.specs.Samples.{image_at, row_in};

use crate::canvas_error::OutOfMemory;
use crate::reading::read_rows;
use crate::surface::{Canvas, area, stride_of};
use mapping::Colour;
use std::alloc::Global;

impl Canvas {
    /// A surface of `width` by `height` pixels that shows the image with these samples. Samples after those of the last
    /// pixel are ignored. Fails with `OutOfMemory`.
    pub fn from_samples(
        alloc: Global,
        width: u32,
        height: u32,
        samples: &[u8],
    ) -> Result<Canvas, OutOfMemory>
        requires wide { IsSurfaceSide width }
        requires high { IsSurfaceSide height }
        requires whole { 3 * (height * width) ≤ length samples.now }
        ensures { IfOk result (λ canvas. canvas ≡ showing (image_at width height samples.now)) }
    {
        let stride = stride_of(width);
        let Ok(mut colours) = Vec::from_elem(alloc, Colour::WHITE, area(height, stride)) else {
            return Err(OutOfMemory);
        };
        read_rows(&mut colours, height, width as usize, stride, samples);
        Ok(Canvas::of(colours, width, 0, height))
    }

    /// Copies the samples of all rows to a buffer of exactly their length, three bytes per pixel.
    pub fn copy_samples(&self, out: &mut [u8])
        requires { length out.old ≡ 3 * length self.now.colours }
        ensures { out.new ≡ raster self.now.colours }
    {
        self.put_samples(out, 0, 0, self.pixel_count());
    }

    /// Copies the samples of row `y` to a buffer of exactly their length, three bytes per pixel.
    pub fn copy_row(&self, y: u32, out: &mut [u8])
        requires row { HasRow self.now y }
        requires size { length out.old ≡ 3 * self.now.width }
        ensures { out.new ≡ raster (row_in self.now y) }
    {
        let width = self.width() as usize;
        let from = (y - self.first) as usize * width;
        self.put_samples(out, 0, from, from + width);
    }
}
