//! What is counted over a file's records.

use crate::fault_counts::FaultCounts;
use draw_ops::Notes;

/// What is counted over a file's records.
#[derive(Drop)]
pub struct Totals {
    /// The number of records, up to the end record or to where the records break.
    pub records: u32,
    /// The number of notes of each kind, of the headers and of the records without a fault of meaning.
    pub notes: Notes,
    /// How often each fault occurs, in the headers and the records.
    pub faults: FaultCounts,
}
