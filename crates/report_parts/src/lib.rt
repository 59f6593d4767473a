//! What reports in JSON have in common.
//!
//! # What is promised
//!
//! - A number, a text or a pair is put under its name among the members of an object, in the order of the names
//!   (`put_number`, `put_number_if`, `put_text`, `put_text_if`, `pair_value`).
//! - The counts of notes are an object with the kinds that occurred, each with its count (`notes_value`, by
//!   `notes_data`).
//! - Under the print profile a report names the profile, and what a file uses of what its rules allow, with how often
//!   (`put_profile`, `put_allowed`, `uses_value`, by `with_profile`, `with_allowed` and `uses_data`). Under the core
//!   profile it has no such member (`core_report_law`).
//! - The text of a report is compact JSON and a line feed (`report_text_of`, by `report_text`).
//! - An error is returned only if memory couldn't be allocated.
#![tactic(auto)]

mod laws;
mod members;
mod noted_kinds;
mod profile;
mod report_text;

pub use laws::core_report_law;
pub use members::{pair_value, put_number, put_number_if, put_text, put_text_if};
pub use noted_kinds::notes_value;
pub use profile::{put_allowed, put_profile, uses_value};
pub use report_text::{compact_text_of, report_text_of};
