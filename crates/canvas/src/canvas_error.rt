//! Errors outside a canvas: an allocation fails, a writer fails, or a text isn't an image.

use std::error::Error;
use std::fmt;

/// Memory for the colours couldn't be allocated.
#[derive(Clone, Copy, Debug, PartialEq, Eq)]
pub struct OutOfMemory;

impl fmt::Display for OutOfMemory {
    ghost use Rattle.std.specs.Prelude.{Some, codes};

    ghost output = { λ fault. Some (codes "OutOfMemory") };

    /// The name.
    fn fmt<W: fmt::Write>(&self, f: &mut fmt::Formatter<W>) -> fmt::Result {
        write!(f, "OutOfMemory")
    }
}

impl Error for OutOfMemory {}

/// The writer failed, or accepted none of the bytes that it was given.
#[derive(Clone, Copy, Debug, PartialEq, Eq)]
pub struct WriteFault;

impl fmt::Display for WriteFault {
    ghost use Rattle.std.specs.Prelude.{Some, codes};

    ghost output = { λ fault. Some (codes "WriteFault") };

    /// The name.
    fn fmt<W: fmt::Write>(&self, f: &mut fmt::Formatter<W>) -> fmt::Result {
        write!(f, "WriteFault")
    }
}

impl Error for WriteFault {}

/// An image can't be read: the text isn't an image, or memory for its colours couldn't be allocated.
#[derive(Clone, Copy, Debug, PartialEq, Eq)]
pub enum ImageError {
    /// The text isn't a P6 text, or a canvas can't have its image.
    BadImage,
    /// An allocation failed.
    OutOfMemory,
}

impl fmt::Display for ImageError {
    ghost use Rattle.std.specs.Prelude.{Some};
    ghost use Rattle.canvas.specs.ImageErrors.{name_of};

    ghost output = { λ fault. Some (name_of fault) };

    /// The name.
    fn fmt<W: fmt::Write>(&self, f: &mut fmt::Formatter<W>) -> fmt::Result {
        match self {
            ImageError::BadImage => write!(f, "BadImage"),
            ImageError::OutOfMemory => write!(f, "OutOfMemory"),
        }
    }
}

impl Error for ImageError {}
