//! What WMF records mean ([MS-WMF] 2.3), read in place.
//!
//! # What is promised
//!
//! - Over any bytes, a source returns what their records mean, in order, and then either nothing or their first fault
//!   (`WmfOps::new` and `next_op`, by `IsContent` of `wmf_framing` and `wmf_meaning`).
//! - Each record means one operation with its notes, or its first fault (`Wmf`, by `wmf_record`).
//! - The head of a record contains its size and its function (`framing_law`).
//! - No record is noted to contain EMF+ (`note_law`).
//! - Each function occurs only once in the table that says how records are treated (`kinds_law`).
//! - The extent that gives a plain file's size is the first usable one of its records (`first_extent`).
//! - A record with a bitmap has the bitmap's faults, whether its raster operation needs a source or not. A record whose
//!   bitmap is optional is without one at exactly one size (by `dib_bit_blt` and similar definitions).
//! - No call gets an allocator: points, counts, lists and bitmaps are parts of the file.
#![tactic(auto)]

mod bitmap_records;
mod drawing_records;
mod entry;
mod extent;
mod functions;
mod object_records;
mod state_records;
mod wmf;

pub use entry::kinds_law;
pub use extent::first_extent;
pub use wmf::{Wmf, WmfOps, framing_law, note_law};
