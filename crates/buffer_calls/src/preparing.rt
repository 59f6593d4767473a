//! Preparing a certificate in a buffer.

ghost use Rattle.buffer_calls.specs.Prepares.{EndsPrepare};

use crate::copying::copy_text;
use crate::outcome::{Outcome, outcome_of};
use draw_ops::Rules;
use preflight_cert::prepare_by;
use proportions::Sides;
use std::alloc::Global;

/// Prepares the certificate of a file under these rules for surfaces of at most this size, and copies it to the start of
/// the buffer. `check_bytes` accepts it. If the file isn't rejected but the buffer is too short, the outcome has the
/// certificate's length.
pub fn prepare_into(
    alloc: Global,
    rules: Rules,
    file: &[u8],
    bound: Sides,
    out: &mut [u8],
) -> Outcome
    ensures { EndsPrepare rules file.now bound.width bound.height out.old out.new result }
{
    match prepare_by(alloc, rules, file, bound.width, bound.height) {
        Ok(text) => copy_text(text.as_slice(), out),
        Err(refusal) => outcome_of(refusal),
    }
}
