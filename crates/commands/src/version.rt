//! The version.

ghost use Rattle.std.specs.Prelude.{◌≡◌, ◌-◌, ◌^◌, ◌<◌, OnErr, true};
ghost use Rattle.commands.specs.VersionLines.{VersionPrints, VersionWrites};

use crate::command_end::{CommandEnd, Completion};
use crate::reporting::report;
use canvas::{FaultCount, send_finished};

/// Writes the line about the version.
pub(crate) fn version_command<O: FaultCount, E: FaultCount>(
    version: &str,
    out: &mut O,
    err: &mut E,
) -> Completion
    requires capacity_out { O.fault_count out.old < 2 ^ 64 - 1 }
    requires capacity_err { E.fault_count err.old < 2 ^ 64 - 1 }
    ensures written { VersionWrites result.end version.now (O.contents out.old) (O.contents out.new) }
    ensures printed { VersionPrints result.end result.printed (E.contents err.old) (E.contents err.new) }
    ensures cannot_write { result.end ≡ CommandEnd.CannotWrite → O.fault_count out.old < O.fault_count out.new }
    ensures flushed { result.end ≡ CommandEnd.Done → O.is_flushed out.new ≡ true }
    ensures unreported { OnErr result.printed (E.fault_count err.old < E.fault_count err.new) }
{
    match send_finished(out, version.as_bytes()) {
        Ok(()) => Completion {
            end: CommandEnd::Done,
            printed: Ok(()),
        },
        Err(_) => Completion {
            end: CommandEnd::CannotWrite,
            printed: report(err, "cannot write"),
        },
    }
}
