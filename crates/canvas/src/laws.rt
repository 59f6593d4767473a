//! Laws of writing and of reading.

ghost use Rattle.canvas.specs.WritingLaws.{WritingLaws};
ghost use Rattle.canvas.specs.PpmLaws.{PpmLaws};
ghost use Rattle.canvas.specs.BandLaws.{BandLaws};

/// How writes are combined, for callers that don't use indexes: writing no pixel changes nothing, what is written
/// depends only on the pixels of the canvas, two writes that share no pixel are one write, and a span counts as many
/// writes as it has columns.
pub fn writing_law()
    ensures { WritingLaws }
{}

/// Reading a text returns exactly the image that it describes, and the text that is written for an image is read back
/// as that image.
pub fn ppm_law()
    ensures { PpmLaws }
{}

/// How a text that is written band by band is made up: the header of the whole image, and then the raster of each band
/// in order; and how the images of the bands make up the whole one.
pub fn band_law()
    ensures { BandLaws }
{}
