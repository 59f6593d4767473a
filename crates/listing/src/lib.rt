//! The listing of a metafile's records, one line per record, for people to read and for programs to split.
//!
//! # What is promised
//!
//! - A listing has one line for each record of the file, in order, and if the records break, a line with the framing
//!   fault (`write_listing`, by `listing_of`). If the writer fails, it has accepted a prefix of the listing. With a
//!   writer that counts its faults, a write error is returned only if that count rose (`write_listing_to`).
//! - A line has the record's number, its offset in the file, its size, its function or type in the format's own base,
//!   the standard's name, what the player does with it, and its operation or its fault (`line_of`).
//! - If a record has a fault in the file's runs, its line has that fault. This includes being off the plane, or having
//!   a nib that is too wide, on some surface only. The faults are found by playing the file on the smallest surface, up
//!   to the record that no surface accepts (`DryRun::new`, `DryRun::try_step`, by `fault_in_runs`).
//! - A path that is off the plane has that fault where its points are added, and not again where it is painted: no run
//!   gets that far on a surface where they don't land (`listing_law`).
//! - Wherever a run of the file stops in a record, on a surface of any size, the line with that number has the record's
//!   number, its offset and the same fault. The same holds where a certificate is rejected. If the records break, the
//!   line says where and by which fault (`listing_law`).
//! - Only if the fault is a nib that is too wide, the line may say instead that the record is off the plane, as it is
//!   on a larger surface. As many lines come before it as its number says, and none contains a line feed
//!   (`listing_law`).
//! - Under the core profile a listing is that of the file as it opens without rules (`core_listing_law`).
//! - A listing continues after a fault in a record's meaning, but ends with a framing fault. How the records end is
//!   returned.
//! - A walk returns the records of some bytes in order, each with its number and its offset, and then nothing or the
//!   fault at which they break (`RecordWalk::new`, `RecordWalk::next_record`, by `GivesNext`). A record is decoded
//!   separately (`PlacedRecord::step`, or `step_in` for a file's format).
//! - Where a file's records begin depends on its format (`records_in`).
//! - Each function of WMF and each type of EMF in the table of kinds has a name, and no others have (`function_name`,
//!   `wmf_names_law`, `type_name`, `emf_names_law`, and for a file's format `record_name`).
//! - Only `DryRun::new` gets an allocator.
#![tactic(auto)]

mod asked;
mod dry_run;
mod emf_names;
mod field_texts;
mod formats;
mod largest;
mod laws;
mod line;
mod listing_end;
mod listing_output;
mod noting;
mod object_texts;
mod record_names;
mod record_walk;
mod sender;
mod text_buffer;
mod wmf_names;

pub use dry_run::DryRun;
pub use emf_names::{emf_names_law, type_name};
pub use formats::{first_place, records_in};
pub use laws::{core_listing_law, listing_law};
pub use line::step_in;
pub use listing_end::ListingEnd;
pub use listing_output::{write_listing, write_listing_to};
pub use record_names::record_name;
pub use record_walk::{PlacedRecord, RecordWalk};
pub use wmf_names::{function_name, wmf_names_law};
