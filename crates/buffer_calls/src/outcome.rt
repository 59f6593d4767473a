//! How a call ends.

ghost use Rattle.buffer_calls.specs.Outcomes.{IsOutcomeOf};

use draw_ops::Fault;
use preflight_cert::Refusal;

/// How a call ended.
#[derive(Clone, Copy, Debug, PartialEq, Eq)]
pub enum Outcome {
    /// It is done. This many bytes were written, at the start of the buffer.
    Done(usize),
    /// The buffer is too short: it must have this many bytes. Nothing was written.
    TooShort(usize),
    /// The file, the certificate or the size was rejected. Nothing was written.
    Rejected(Refusal),
    /// An allocation failed. Nothing was written.
    OutOfMemory,
}

/// The outcome for a rejection. `OutOfMemory` is an outcome of its own.
pub(crate) fn outcome_of(refusal: Refusal) -> Outcome
    ensures { IsOutcomeOf refusal result }
{
    if refusal.fault == Fault::OutOfMemory {
        return Outcome::OutOfMemory;
    }
    Outcome::Rejected(refusal)
}
