//! A law of numbers in bytes.

ghost use Rattle.point_views.specs.NumberLaws.{ReadsWithinPrefix};

/// A number that lies in a prefix of some bytes reads the same there as in all of them.
pub fn number_law()
    ensures { ReadsWithinPrefix }
{}
