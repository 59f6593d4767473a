//! What the crates of tests share: small files, and a writer that becomes full.
#![tactic(auto)]

mod full_writer;
mod sample_files;

pub use full_writer::{Full, limited};
pub use sample_files::{DOT, DOT_CERT, RED, TRI, TRI_CERT, changed};
