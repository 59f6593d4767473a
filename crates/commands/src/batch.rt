//! The commands on several files.

ghost use Rattle.std.specs.Prelude.{◌≡◌, ◌-◌, ◌^◌, ◌<◌, OnErr};
ghost use Rattle.command_lines.specs.BatchWords.{HasRightInputs, names_in};
ghost use Rattle.command_lines.specs.Dimensions.{HasTaskDimensions};
ghost use Rattle.commands.specs.BatchLines.{BatchPrints, FlushesBatch, PrintsBatch, WritesBatch};

use crate::batch_line::batch_line;
use crate::command_end::{CommandEnd, Completion};
use crate::reporting::report;
use canvas::{FaultCount, WriteFault, flush_sent, send_counted};
use command_lines::BatchTask;
use std::io::Read;
use std::rt::Files;

/// Does a task on files with these names, and writes one line of JSON about each to `out`, in the order of the names.
/// Files are read one at a time. The command ends as the worst of the files does: `Rejected` if one is rejected,
/// `CannotRead` if one can't be read, `CannotStore` if the certificate of one can't be stored, and `OutOfMemory` if there
/// isn't enough memory for one. Then the other files still have their lines, unless there is no memory even for a line.
#[inline(never)]
pub fn batch_command<R, I, O, E>(
    rt: &R,
    task: BatchTask<'_>,
    names: &[&str],
    input: &mut I,
    out: &mut O,
    err: &mut E,
) -> Completion
where
    R: Files + AllocGlobal,
    I: Read,
    O: FaultCount,
    E: FaultCount,
    requires inputs { HasRightInputs task (names_in names.now) }
    requires right { HasTaskDimensions task }
    requires capacity_out { O.fault_count out.old < 2 ^ 64 - 1 }
    requires capacity_err { E.fault_count err.old < 2 ^ 64 - 1 }
    ensures written { WritesBatch names.now task.entry (I.remaining input.old) result.end O.contents out.old out.new }
    ensures printed { PrintsBatch result.end result.printed E.contents err.old err.new }
    ensures cannot_write { result.end ≡ CommandEnd.CannotWrite → O.fault_count out.old < O.fault_count out.new }
    ensures flushed { FlushesBatch result.end O.is_flushed out.new }
    ensures unreported { OnErr result.printed (E.fault_count err.old < E.fault_count err.new) }
{
    let end = send_lines(rt, task, names, input, out);
    Completion {
        end,
        printed: report_end(end, err),
    }
}

/// Reports that not all files were read, not all certificates stored, or not all lines written.
fn report_end<E: FaultCount>(end: CommandEnd, err: &mut E) -> Result<(), WriteFault>
    requires capacity { E.fault_count err.old < 2 ^ 64 - 1 }
    ensures printed { BatchPrints end result (E.contents err.old) (E.contents err.new) }
    ensures unreported { OnErr result (E.fault_count err.old < E.fault_count err.new) }
{
    match end {
        CommandEnd::CannotRead => report(err, "cannot read"),
        CommandEnd::CannotWrite | CommandEnd::CannotStore => report(err, "cannot write"),
        CommandEnd::OutOfMemory => report(err, "OutOfMemory"),
        CommandEnd::Done | CommandEnd::Rejected => Ok(()),
        CommandEnd::WrongUsage | CommandEnd::Help | CommandEnd::OutIsFile => Ok(()),
    }
}

/// Writes the lines of the files and flushes the writer. Returns how the worst of them ends.
fn send_lines<R: Files + AllocGlobal, I: Read, O: FaultCount>(
    rt: &R,
    task: BatchTask<'_>,
    names: &[&str],
    input: &mut I,
    out: &mut O,
) -> CommandEnd
    requires inputs { HasRightInputs task (names_in names.now) }
    requires right { HasTaskDimensions task }
    requires capacity { O.fault_count out.old < 2 ^ 64 - 1 }
    ensures written { WritesBatch names.now task.entry (I.remaining input.old) result O.contents out.old out.new }
    ensures fault { result ≡ CommandEnd.CannotWrite → O.fault_count out.old < O.fault_count out.new }
    ensures flushed { FlushesBatch result O.is_flushed out.new }
{
    let mut end = CommandEnd::Done;
    for name in names {
        let Ok(line) = batch_line(rt, task, name, input) else {
            return CommandEnd::OutOfMemory;
        };
        let Ok(()) = send_counted(out, line.text.as_slice()) else {
            return CommandEnd::CannotWrite;
        };
        end = end.worse(line.end);
    }
    match flush_sent(out) {
        Ok(()) => end,
        Err(_) => CommandEnd::CannotWrite,
    }
}
