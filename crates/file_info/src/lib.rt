//! What is known of a metafile without a certificate, and the report about it.
//!
//! # What is promised
//!
//! - The information about a file has its format, the sizes and the text in its headers, the totals of its records, and
//!   how its run on the largest surface ends (`file_info`, by `IsInfoOf`). A file that plays there plays on every surface.
//! - The totals are the number of records, the notes of headers and records by kind, and how often each fault occurs:
//!   the fault of the headers, the one by which the records break, and for each record the fault that a listing gives
//!   it (`count_records`, by `totals_of`).
//! - The report about a file is one line of JSON with fixed names, in the order of the names (`info_text`, by
//!   `info_line`, and `unread_text`).
//! - An error is returned only if memory couldn't be allocated.
#![tactic(auto)]

mod counted_text;
mod counting;
mod description;
mod fault_count;
mod fault_counts;
mod gathering;
mod info;
mod info_report;
mod info_values;
mod paper;
mod playing;
mod playing_values;
mod sizing;
mod totals;

pub use counting::count_records;
pub use fault_count::FaultCount;
pub use fault_counts::FaultCounts;
pub use gathering::file_info;
pub use info::FileInfo;
pub use info_report::{info_text, unread_text};
pub use paper::{Axes, Sizes};
pub use playing::Playing;
pub use playing_values::kind_name;
pub use totals::Totals;
