//! What metafiles draw, and why they are rejected.
//!
//! # What is promised
//!
//! - Only rules of the print profile can allow deletions of selected objects. A file with EMF+ and no drawing is allowed
//!   under core, and under print if the rules say so (`Rules::allows_held_deletion`, `allows_emf_plus`, `in_force`).
//! - Each fault has one code and one name, as the table of faults says (`Fault::code`, `Fault::name`, `Fault::number`,
//!   by `fault_row` and `record_kind_of`).
//! - Each code and name in the tables of faults and notes is unique, and none is left out (`table_law`).
//! - A fault's text is its name, followed by the kind of record if the fault refers to one (`Display`, by `text_of`).
//! - A fault that lies in a record has its own type (`RecordFault`). It becomes a fault as that of its record
//!   (`Fault::Record`, and `From` for `?`).
//! - A setting, a raster operation or a hatch always has a value that the standard allows. Each is made from its code
//!   (`from_code`, by `raster_op_of` and similar definitions) and returns it (`code`).
//! - A record has each kind of note at most once (`NoteSet`), and a note is counted only under its kind
//!   (`Notes::count`, `Notes::with`, `Notes::with_all`, `Notes::plus`, `Notes::of`).
//! - A source returns its steps in order, each once, and then either nothing or one fault of a record. Every later call
//!   returns the same again (`OpSource::next_op`, `OpSource::next_into`, by `Gives`). `Listed` is such a source.
//! - What records of both formats share is decoded here: points, boxes, colours and lists (`rgb_at`, `xy_at`,
//!   `points_at` and similar calls), modes (`map_mode_meant` and similar calls), pens and brushes (`pen_meant` of
//!   `PenFields`, `brush_meant`, `pattern_brush_meant`), bitmaps (`dib_at` and similar calls) and blits (`blit_meant`).
//! - A source over a file's records has what these records mean, whatever their format (`RecordOps::new`, by
//!   `IsContent`).
//! - Bytes form records in only one way and have only one content, in which the step of record i has number i
//!   (`records_law`, `content_law`, `numbers_law`). Bytes that are cut short form none, if the head of a record
//!   contains its size and its kind (`prefix_law`).
//! - What a program does with any source can be proved from the contract alone: `count_steps` counts the steps of any
//!   source, or returns its fault.
#![tactic(auto)]

mod bitmap_parts;
mod blits;
mod brush_records;
mod counting;
mod fault;
mod fields;
mod format;
mod framing;
mod hatch;
mod laws;
mod listed;
mod modes;
mod note;
mod note_set;
mod notes;
mod objects;
mod operation;
mod pen_records;
mod point_lists;
mod raster_op;
mod record_fault;
mod record_ops;
mod rules;
mod settings;
mod source;
mod step;
mod ternary_op;

pub use bitmap_parts::{
    blit_meant, dib_at, pattern_brush_meant, rgb_dib_at, rgb_dib_in, source_as_stored,
    source_from_top,
};
pub use blits::{Blit, BlitSource, SourceRectangle};
pub use brush_records::brush_meant;
pub use counting::count_steps;
pub use fault::Fault;
pub use fields::{box_at, reversed_box_at, rgb_at, xy_at, yx_at};
pub use format::{Decoded, Format, RawRecord};
pub use framing::first_record;
pub use hatch::Hatch;
pub use laws::{content_law, numbers_law, prefix_law, records_law, table_law};
pub use listed::Listed;
pub use modes::{background_mode_decoded, fill_mode_decoded, map_mode_meant, raster_op_decoded};
pub use note::Note;
pub use note_set::NoteSet;
pub use notes::Notes;
pub use objects::{Brush, Handle, Object, Pen};
pub use operation::{Op, RectangleEdges, SavedState};
pub use pen_records::{PenFields, PenStyle, pen_meant};
pub use point_lists::{counts_at, points_at};
pub use raster_op::RasterOp;
pub use record_fault::RecordFault;
pub use record_ops::RecordOps;
pub use rules::{Allowances, Profile, Rules};
pub use settings::{BackgroundMode, FillMode};
pub use source::{HasContent, OpSource};
pub use step::Step;
pub use ternary_op::TernaryOp;
