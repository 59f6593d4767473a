//! Opening a metafile: its format, its frame, its initial state, and its records.
//!
//! # What is promised
//!
//! - A file is opened as its first bytes say, or rejected with the first fault of its headers (`open_file`, by
//!   `opened`).
//! - Under other rules a file opens with the same faults, and its frame and first page map count the parts of units that
//!   these rules define (`open_file_by`, `Opened::by`, by `opened_by`). Under the core profile a unit is one part, and the
//!   file opens as without rules (`opening_law`).
//! - An opened file's source has what its records mean, from record 0 on (`Opened::source`, by `HasContentOf`).
//! - A file opens in only one way, and its records have only one content (`file_law`). The size of its frame, the parts of
//!   a unit and its handle count are within their limits (`opening_law`).
//! - A file's format is determined by its first bytes, and each format has a name (`FileFormat::of`,
//!   `FileFormat::name`).
//! - No call gets an allocator: the records are a part of the file.
#![tactic(auto)]

mod emf_header;
mod formats;
mod laws;
mod notes_where;
mod open;
mod opened;
mod placeable_header;
mod plain_header;
mod source;
mod standard_header;

pub use laws::{file_law, opening_law};
pub use open::{open_file, open_file_by};
pub use opened::{FileFormat, Opened};
pub use source::Source;
