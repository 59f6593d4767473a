//! What a writer of samples was given, for proofs alone.

ghost use Rattle.std.specs.Prelude.{ℕ, List, []};

use std::marker::Brand;

/// What a writer's buffer held at first, and how long the header is that the writer leaves out. These belong to the
/// writer's type, so that code which is generic over writers can't change them.
pub(crate) trait Target {
    /// What the buffer held at first.
    ghost start: { List ℕ };

    /// The length of the header.
    ghost header_length: { ℕ };
}

impl Target for Brand {
    ghost start = { [] };

    ghost header_length = { 0 };
}
