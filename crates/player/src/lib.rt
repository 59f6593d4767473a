//! The images that the records of a file draw.
//!
//! # What is promised
//!
//! - An accepted file plays over any image on a canvas within the certificate's bound. The canvas then shows the image
//!   of the file's run, and at most the certified number of pixels was written. The call fails only if the surface
//!   exceeds the bound or an allocation fails, and then the canvas is unchanged (`play`).
//! - An accepted file also plays over one colour in bands of any number of rows. The text of the run's image is
//!   written, and the run's number of writes is returned. If the surface exceeds the bound or an allocation fails,
//!   nothing was written. If the writer fails, a prefix of the text was written (`play_bands`). With a writer that
//!   counts its faults, a write error is returned only if that count rose (`play_bands_to`).
//! - It plays over one colour on some rows of a surface, whose samples are copied to a buffer. Each row has those of the
//!   run's image, and no byte between two rows is changed. If the surface exceeds the bound or an allocation fails, the
//!   buffer is unchanged (`play_rows`, by `CopiesRun`).
#![tactic(auto)]

mod band_plan;
mod band_scratch;
mod bands;
mod cleared_play;
mod part_writer;
mod play_scratch;
mod playing;
mod row_copying;
mod row_layout;

pub use band_plan::BandPlan;
pub use bands::{play_bands, play_bands_to};
pub use cleared_play::play;
pub use row_copying::play_rows;
pub use row_layout::RowLayout;
