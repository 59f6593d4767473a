//! What EMF records mean ([MS-EMF] 2.3), read in place.
//!
//! # What is promised
//!
//! - Over any bytes, a source returns what their records mean, in order, and then either nothing or their first fault
//!   (`EmfOps::new` and `next_op`, by `IsContent` of `emf_framing` and `emf_meaning`).
//! - Each record means one operation with its notes, or its first fault (`Emf`, by `emf_record`).
//! - The head of a record contains its size and its type (`framing_law`).
//! - Each type occurs only once in the table that says how records are treated, and the types that the standard lacks
//!   are those without a row (`kinds_law`).
//! - A bitmap is two parts of its record, and neither extends beyond the record's end, whatever the offsets and sizes
//!   are. A blit whose bitmap has no header has no bitmap, and the bitmap's other fields are ignored (by `bit_blt` and
//!   similar definitions).
//! - No call gets an allocator: points, counts, lists and bitmaps are parts of the file.
#![tactic(auto)]

mod bitmap_records;
mod drawing_records;
mod emf;
mod entry;
mod object_records;
mod state_records;
mod transform_records;
mod types;

pub use emf::{Emf, EmfOps, framing_law};
pub use entry::kinds_law;
