//! The line of a task on several files about one of them.

ghost use Rattle.std.specs.Prelude.{◌≢◌, IfOk, option_map};
ghost use Rattle.std.specs.Io.KnownBytes.{Keeps};
ghost use Rattle.command_lines.specs.Dimensions.{HasTaskDimensions};
ghost use Rattle.commands.specs.BatchLines.{IsLineBy, IsLineOf, IsMark, IsWrongNameLine};
ghost use Rattle.commands.specs.Inputs.{standard_input};

use crate::certify::certify_line;
use crate::certify_report::failed_text;
use crate::certifying::Certifying;
use crate::command_end::CommandEnd;
use crate::file_line::{FileLine, file_line};
use command_lines::BatchTask;
use file_info::unread_text;
use std::alloc::{AllocError, Global};
use std::io::Read;
use std::rt::Files;

/// Why no file with a name is opened that isn't UTF-8.
const WRONG_NAME: &str = "the name is not UTF-8";

/// Does a task on the file with this name, and makes the line about it. An error is returned only if there is no memory
/// for a line.
pub(crate) fn batch_line<R: Files + AllocGlobal, I: Read>(
    rt: &R,
    task: BatchTask<'_>,
    name: &str,
    input: &mut I,
) -> Result<FileLine, AllocError>
    requires right { HasTaskDimensions task }
    ensures line { IfOk result (λ it. IsLineBy it.end task.entry name.entry.now (I.remaining input.old) it.text.items) }
    ensures unread { name.entry.now ≢ standard_input → Keeps (I.remaining input.old) (I.remaining input.new) }
{
    match shown_if_marked(name) {
        Some(shown) => wrong_name(rt.alloc(), task, shown),
        None => line_of(rt, task, name, input),
    }
}

/// How a name is shown that has the mark of a word that isn't UTF-8.
fn shown_if_marked(name: &str) -> Option<&str>
    ensures { IsMark name.now (option_map (λ shown. shown.now) result) }
{
    name.strip_suffix("\0")
}

/// The line about a file whose name isn't UTF-8.
fn wrong_name(alloc: Global, task: BatchTask<'_>, shown: &str) -> Result<FileLine, AllocError>
    ensures { IfOk result (λ it. IsWrongNameLine it.end task.entry shown.now it.text.items) }
{
    match task {
        BatchTask::Info { rules } => Ok(FileLine {
            text: unread_text(alloc, rules, shown, WRONG_NAME)?,
            end: CommandEnd::CannotRead,
        }),
        BatchTask::Certify { .. } => Ok(FileLine {
            text: failed_text(alloc, shown, None, None, WRONG_NAME)?,
            end: CommandEnd::CannotRead,
        }),
    }
}

/// Does the task on a file whose name is UTF-8, or on standard input.
fn line_of<R: Files + AllocGlobal, I: Read>(
    rt: &R,
    task: BatchTask<'_>,
    name: &str,
    input: &mut I,
) -> Result<FileLine, AllocError>
    requires right { HasTaskDimensions task }
    ensures line { IfOk result (λ it. IsLineOf it.end task.entry name.entry.now (I.remaining input.old) it.text.items) }
    ensures unread { name.entry.now ≢ standard_input → Keeps (I.remaining input.old) (I.remaining input.new) }
{
    match task {
        BatchTask::Info { rules } => file_line(rt, rules, name, input),
        BatchTask::Certify {
            rules,
            width,
            height,
            folder,
            replace,
        } => {
            let asked = Certifying {
                rules,
                width,
                height,
                folder,
                replace,
            };
            certify_line(rt, asked, name)
        }
    }
}
