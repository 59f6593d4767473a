//! Why a command fails, and how it ends then.

ghost use Rattle.std.specs.Prelude.{◌≡◌, ◌-◌, ◌^◌, ◌<◌, OnErr};
ghost use Rattle.commands.specs.Failures.{IsFailureOf, PrintsEnding, ending_of};

use crate::command_end::{CommandEnd, Completion};
use crate::reporting::{report, report_refusal};
use canvas::FaultCount;
use draw_ops::Fault;
use preflight_cert::Refusal;

/// Why a command fails.
#[derive(Clone, Copy, Debug)]
pub(crate) enum Failure {
    /// The file, the certificate, the image or the surface was rejected.
    Rejected(Refusal),
    /// The output failed.
    CannotWrite,
    /// An allocation failed.
    OutOfMemory,
}

/// The failure for a rejection. `OutOfMemory` is a failure of its own.
pub(crate) fn failure_of(refusal: Refusal) -> Failure
    ensures { IsFailureOf refusal result }
{
    if refusal.fault == Fault::OutOfMemory {
        return Failure::OutOfMemory;
    }
    Failure::Rejected(refusal)
}

/// Ends a command. If it failed, one line about the failure goes to `err`. A fault of `err` doesn't change the status.
pub(crate) fn ending<E: FaultCount>(done: Result<(), Failure>, err: &mut E) -> Completion
    requires capacity { E.fault_count err.old < 2 ^ 64 - 1 }
    ensures end { result.end ≡ ending_of done }
    ensures printed { PrintsEnding done result.printed (E.contents err.old) (E.contents err.new) }
    ensures unreported { OnErr result.printed (E.fault_count err.old < E.fault_count err.new) }
{
    match done {
        Ok(()) => Completion {
            end: CommandEnd::Done,
            printed: Ok(()),
        },
        Err(Failure::Rejected(refusal)) => Completion {
            end: CommandEnd::Rejected,
            printed: report_refusal(err, refusal),
        },
        Err(Failure::CannotWrite) => Completion {
            end: CommandEnd::CannotWrite,
            printed: report(err, "cannot write"),
        },
        Err(Failure::OutOfMemory) => Completion {
            end: CommandEnd::OutOfMemory,
            printed: report(err, "OutOfMemory"),
        },
    }
}
