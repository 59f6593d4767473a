//! The pixels of polygons and lines.
//!
//! # What is promised
//!
//! - The spans of a row contain a pixel exactly if it is inside the polygons, by an integer inequality for that pixel
//!   alone. They are sorted, at least one pixel apart and within the interval (`RowBuf::next_fill`, `fill_row`, by
//!   `FillsRow`).
//! - If just two edges cross the next row of a fill, what is inside is one span, which is returned and isn't kept
//!   (`RowBuf::next_lone_span`).
//! - The spans of a row of lines contain a pixel exactly if the nib covers it as it moves along one of the lines. They
//!   are sorted, apart and within the interval too (`RowBuf::next_stroke`, `stroke_row`).
//! - The crossings of lines with the next row are found as a quotient and a remainder of the numbers in the definition,
//!   and nothing else changes (`RowBuf::find_crossings`, `RowBuf::crossings`).
//! - Within its capacity a row buffer allocates no memory, and after a failed allocation it is unchanged
//!   (`RowBuf::reserve`).
//! - The pixels of a line within a region are returned in order, each once, and no others, with their numbers on a grid
//!   too (`LineSteps::new`, `LineSteps::numbered`, `LineSteps::next`, `LineSteps::next_numbered`).
//! - What a nib covers as it moves along a line is returned row by row, as one span per row (`WideLine::new`,
//!   `WideLine::next`).
//! - What a nib covers in a region as it moves along many lines is returned span by span, each pixel once and no others
//!   (`StrokeMask::begin`, `StrokeMask::next_span`). What is cut out isn't returned (`StrokeMask::cut`).
//! - A line has one pixel for each step along its major axis (`line_law`).
//! - A nib covers what lies within its reach of a pixel of the line; a nib of one pixel covers the line itself
//!   (`wide_stroke_law`).
//! - Lines and polygons have no pixels above or below the rows of their lines (`row_law`), and all their pixels lie in
//!   each box that contains the lines (`line_box_law`).
//! - The part of a span between two numbers is a span with exactly these numbers (`Span::between`).
#![tactic(auto)]

mod active_edges;
mod axes;
mod bit_rows;
mod bit_words;
mod bounds;
mod clip;
mod column_table;
mod counted_row;
mod covered_columns;
mod crossed_rows;
mod crossing;
mod crossing_moves;
mod crossings;
mod division;
mod edge;
mod edge_list;
mod edge_start;
mod events;
mod fill_rule;
mod fixed_walk;
mod grid;
mod insertion;
mod joining;
mod laws;
mod line;
mod lone_pair;
mod major_line;
mod mask_cover;
mod mask_frame;
mod mask_marks;
mod mask_runs;
mod memory;
mod numbering;
mod outline;
mod pixel;
mod product;
mod reach;
mod row_buf;
mod row_error;
mod row_slope;
mod row_spans;
mod span;
mod stepper;
mod steps;
mod stroke_mask;
mod stroke_rows;
mod strokes;
mod sweep;
mod walk;
mod wide_edge;
mod wide_edge_rows;
mod wide_line;
mod winding;

pub use crossing::Crossing;
pub use fill_rule::FillRule;
pub use grid::Grid;
pub use laws::{line_box_law, line_law, row_law, wide_stroke_law};
pub use line::Line;
pub use outline::Outline;
pub use pixel::{NumberedPixel, Pixel};
pub use row_buf::RowBuf;
pub use row_error::OutOfMemory;
pub use span::{Region, Span};
pub use steps::LineSteps;
pub use stroke_mask::{RowSpan, StrokeMask};
pub use wide_line::{WideLine, WideRow};
