//! The law of the largest sides in a frame's proportion.

ghost use Rattle.proportions.specs.FittingLaws.{FittingLaw};

/// The largest sides in a frame's proportion are at least 1 and at most those that are given, and one of them is what is
/// given.
pub fn fitting_law()
    ensures { FittingLaw }
{}
