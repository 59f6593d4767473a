//! The error of a row buffer: a failed allocation.

use std::error::Error;
use std::fmt;

/// Memory for the lines of an outline couldn't be allocated.
#[derive(Clone, Copy, Debug, PartialEq, Eq)]
pub struct OutOfMemory;

impl fmt::Display for OutOfMemory {
    ghost use Rattle.std.specs.Prelude.{Some, codes};

    ghost output = { λ fault. Some (codes "OutOfMemory") };

    /// The name.
    fn fmt<W: fmt::Write>(&self, f: &mut fmt::Formatter<W>) -> fmt::Result {
        write!(f, "OutOfMemory")
    }
}

impl Error for OutOfMemory {}
