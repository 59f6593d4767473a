//! Calls that take bytes and write to the caller's buffers: what the library for C offers.
//!
//! # What is promised
//!
//! - The answer to a file and a certificate is that of `preflight_cert::check` (`check_bytes`, by `EndsCheck`).
//! - The certificate that is prepared for a file is copied to the start of the buffer (`prepare_into`, by
//!   `EndsPrepare`).
//! - The samples of the image that the file's run makes on white are written to the start of the buffer, three bytes
//!   per pixel, row by row (`play_into`, by `EndsPlay`). The file is played in bands, so there is no second image in
//!   memory.
//! - Some rows of that image are written in the same way, each to its place in the buffer (`play_rows_into`, by
//!   `EndsRows`). A file is also played over the image in the buffer (`over_into`, by `EndsOver`).
//! - The sides that fit a file's frame are the largest ones in its proportion (`fitted_for`, by `fitted_result`).
//! - What a certificate says of every play is read without a file (`terms_of`, by `terms_result`).
//! - Each fault has its name by its code, and no other number has one (`fault_name`, `copy_fault_name`).
//! - A call that is done changes no other byte of the buffer. Every other call leaves the whole buffer unchanged. A
//!   buffer that is too short is answered with the length that is needed.
//! - A width or a height that isn't from 1 to 8,192 is rejected (`BadBound`) before anything is read. Memory is
//!   allocated only after the file was opened and the certificate was read.
#![tactic(auto)]

mod checking;
mod clearing;
mod copying;
mod fault_names;
mod fitting;
mod header_length;
mod outcome;
mod over;
mod placed_rows;
mod playing;
mod preparing;
mod row_playing;
mod sample_writer;
mod samples;
mod split;
mod target;
mod terms;

pub use checking::check_bytes;
pub use fault_names::{copy_fault_name, fault_name};
pub use fitting::fitted_for;
pub use outcome::Outcome;
pub use over::over_into;
pub use placed_rows::PlacedRows;
pub use playing::play_into;
pub use preparing::prepare_into;
pub use row_playing::play_rows_into;
pub use terms::{Terms, terms_of};
