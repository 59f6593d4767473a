//! How a listing ends.

/// How the records of a file end.
#[derive(Clone, Copy, Debug, PartialEq, Eq)]
pub enum ListingEnd {
    /// With an end record.
    Ended,
    /// With a framing fault.
    Broken,
}
