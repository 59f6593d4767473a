//! The pixels of a drawing, on rows of a surface.
//!
//! # What is promised
//!
//! - After a drawing, the rows of the canvas show the image that the drawing's layers define, and the count of writes
//!   includes every pixel that was written there (`draw`, by `DrawsDrawing`).
//! - With enough capacity for the drawing's lines, drawing allocates no memory (`draw`, with a `DrawingScratch`).
#![tactic(auto)]

mod blits;
mod dots;
mod drawing;
mod figure_outline;
mod fill_spans;
mod fill_style;
mod filling;
mod line_pixels;
mod line_steps;
mod list_lines;
mod lone_line;
mod mask_costs;
mod mask_stroking;
mod moves;
mod outline_rows;
mod path_moves;
mod piece_lines;
mod placed_lines;
mod reached_part;
mod rectangles;
mod region_spans;
mod regions;
mod row_op;
mod row_op_scratch;
mod row_painter;
mod scratch;
mod seen_columns;
mod source_rows;
mod strips;
mod stroke;
mod stroking;
mod uncut_pixels;
mod untaken_pixels;
mod visited_mask;
mod visiting;
mod wide_spans;
mod wide_stroking;
mod widening;

pub use drawing::draw;
pub use scratch::DrawingScratch;
