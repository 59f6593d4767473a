//! Why a change of a page map is rejected.

use std::error::Error;
use std::fmt;

/// A record tried to set an extent of 0, by which nothing can be scaled.
#[derive(Clone, Copy, Debug, PartialEq, Eq)]
pub struct ZeroExtent;

impl fmt::Display for ZeroExtent {
    ghost use Rattle.std.specs.Prelude.{Some, codes};

    ghost output = { λ fault. Some (codes "ZeroExtent") };

    /// The name.
    fn fmt<W: fmt::Write>(&self, f: &mut fmt::Formatter<W>) -> fmt::Result {
        write!(f, "ZeroExtent")
    }
}

impl Error for ZeroExtent {}

/// A record tried to move an origin so far that a coordinate doesn't fit 32 bits.
#[derive(Clone, Copy, Debug, PartialEq, Eq)]
pub struct OffPlane;

impl fmt::Display for OffPlane {
    ghost use Rattle.std.specs.Prelude.{Some, codes};

    ghost output = { λ fault. Some (codes "OffPlane") };

    /// The name.
    fn fmt<W: fmt::Write>(&self, f: &mut fmt::Formatter<W>) -> fmt::Result {
        write!(f, "OffPlane")
    }
}

impl Error for OffPlane {}
