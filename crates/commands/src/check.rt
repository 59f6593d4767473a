//! The command `check`.

ghost use Rattle.std.specs.Prelude.{◌≡◌, ◌⊎◌, ◌-◌, ◌^◌, ◌<◌, IfOk, OnErr, true};
ghost use Rattle.commands.specs.Reported.{IsReportOf};
ghost use Rattle.commands.specs.Ends.{Prints, Writes};
ghost use Rattle.commands.specs.Tasks.{check};

use crate::check_report::{accepted_report, rejected_report};
use crate::command_end::{CommandEnd, Completion};
use crate::reporting::report;
use canvas::{FaultCount, send_finished};
use draw_ops::Fault;
use preflight_cert::{answer_law, check};
use std::alloc::{AllocError, Global};

/// Checks a certificate against a file, and writes a report to `out` as one line of JSON, whether the pair is accepted
/// or rejected. A rejection writes nothing to `err`, and a fault of `err` doesn't change the status.
#[inline(never)]
pub fn check_command<O: FaultCount, E: FaultCount>(
    alloc: Global,
    file: &[u8],
    certificate: &[u8],
    out: &mut O,
    err: &mut E,
) -> Completion
    requires capacity_out { O.fault_count out.old < 2 ^ 64 - 1 }
    requires capacity_err { E.fault_count err.old < 2 ^ 64 - 1 }
    ensures written { Writes (check file.now certificate.now) result O.contents out.old out.new }
    ensures printed { Prints (check file.now certificate.now) result E.contents err.old err.new }
    ensures cannot_write { result.end ≡ CommandEnd.CannotWrite → O.fault_count out.old < O.fault_count out.new }
    ensures unreported { OnErr result.printed (E.fault_count err.old < E.fault_count err.new) }
    ensures flushed { result.end ≡ CommandEnd.Done ⊎ result.end ≡ CommandEnd.Rejected → O.is_flushed out.new ≡ true }
{
    match report_check(alloc, file, certificate) {
        Ok(Report::Accepted(text)) => match send_finished(out, text.as_slice()) {
            Ok(()) => Completion {
                end: CommandEnd::Done,
                printed: Ok(()),
            },
            Err(_) => Completion {
                end: CommandEnd::CannotWrite,
                printed: report(err, "cannot write"),
            },
        },
        Ok(Report::Rejected(text)) => match send_finished(out, text.as_slice()) {
            Ok(()) => Completion {
                end: CommandEnd::Rejected,
                printed: Ok(()),
            },
            Err(_) => Completion {
                end: CommandEnd::CannotWrite,
                printed: report(err, "cannot write"),
            },
        },
        Err(AllocError) => Completion {
            end: CommandEnd::OutOfMemory,
            printed: report(err, "OutOfMemory"),
        },
    }
}

/// The text of a report.
#[derive(Drop)]
enum Report {
    /// For an accepted certificate.
    Accepted(Vec<u8>),
    /// For a rejection.
    Rejected(Vec<u8>),
}

/// Checks a certificate against a file, and makes the report.
fn report_check(alloc: Global, file: &[u8], certificate: &[u8]) -> Result<Report, AllocError>
    ensures { IfOk result (IsReportOf file.now certificate.now) }
{
    answer_law();
    match check(alloc, file, certificate) {
        Ok(cleared) => match accepted_report(alloc, &cleared) {
            Ok(text) => Ok(Report::Accepted(text)),
            Err(rejected) => Err(rejected),
        },
        Err(refusal) => {
            if refusal.fault == Fault::OutOfMemory {
                return Err(AllocError);
            }
            match rejected_report(alloc, refusal) {
                Ok(text) => Ok(Report::Rejected(text)),
                Err(rejected) => Err(rejected),
            }
        }
    }
}
