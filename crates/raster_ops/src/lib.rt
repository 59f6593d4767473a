//! The colours of brushes and of blit sources, and the raster operations that combine them with the old colours.
//!
//! # What is promised
//!
//! - A binary raster operation combines each bit of the paint with the old bit as the standard's table says (`rop2`, by
//!   `mixed_colour`).
//! - It is also a ternary operation, with the paint as its pattern (`ternary_of`), and doesn't depend on the source
//!   (`binary_law`).
//! - A ternary raster operation combines the bits of the pattern, the source and the old colour as its table says
//!   (`rop3`, by `ternary_colour`). With a given pattern and source it is a mix (`ternary_mix`). `TernaryMixer::gather`
//!   writes the mixes of a row to slices, whose other elements are unchanged.
//! - SRCCOPY gives the source, PATCOPY the pattern, and R2_COPYPEN the pen's colour (`copy_law`).
//! - It is known exactly whether a ternary operation depends on the source and on the pattern. If it doesn't, its
//!   result is the same for all of them (`uses_source`, `uses_pattern`, `dependence_law`).
//! - The colour of a brush at each pixel of a surface, if it paints there, depends on its kind, the background mode and
//!   the background colour (`brush_at`, by `brush_paint`).
//! - A row of a brush has the brush's colours of that row (`brush_row`, by `row_paint`). `gather_pattern` writes them
//!   to a slice, whose other elements are unchanged.
//! - A blit has a readable source exactly if there is a bitmap, and the rectangle to read is not empty and lies inside
//!   the bitmap (`is_readable`, `SourceReader::new`).
//! - Each pixel of a blit's box reads the bitmap's pixel that contains its centre, mirrored if exactly one of the box's
//!   extent and the source's extent is negative (`source_at`, by `source_colour`). The row and the column to read are
//!   returned separately (`SourceReader::row_at`, `SourceReader::column_at`). `SourceReader::gather` writes the colours
//!   along a row to a slice, without a division per pixel, and its other elements are unchanged.
//! - Gathered colours have components that are bytes (`gather_pattern`, `SourceReader::gather`).
//! - Eight repeating colours are those of the cells and of the gaps (`pattern`).
//!
//! No call allocates memory. No contract says that, but a test counts the allocations of the built program.
#![tactic(auto)]

mod axes;
mod binary;
mod brushes;
mod gathering;
mod hatches;
mod patterns;
mod rectangles;
mod rows;
mod selector;
mod sources;
mod steps;
mod ternary;

pub use binary::{binary_law, rop2, ternary_of};
pub use brushes::{brush_at, brush_row, gap_colour, gather_pattern};
pub use hatches::hatch_cells;
pub use patterns::pattern;
pub use rectangles::is_readable;
pub use rows::{BrushRow, TileRow};
pub use sources::{AxisReading, SourceReader, source_at};
pub use ternary::{
    TernaryMixer, copy_law, dependence_law, rop3, ternary_mix, uses_pattern, uses_source,
};
