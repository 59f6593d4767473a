//! The line of `info` about a file.

ghost use Rattle.std.specs.Prelude.{◌≡◌, ◌≢◌, IfOk};
ghost use Rattle.std.specs.Io.KnownBytes.{Keeps};
ghost use Rattle.file_info.specs.Info.{is_playing};
ghost use Rattle.commands.specs.InfoLines.{IsInfoLine, IsLineOfBytes, IsUnreadLine, read_end};
ghost use Rattle.commands.specs.Inputs.{standard_input};

use crate::command_end::CommandEnd;
use crate::input::InputFault;
use crate::inputs::read_file;
use draw_ops::Rules;
use file_info::{Playing, file_info, info_text, unread_text};
use std::alloc::{AllocError, Global};
use std::io::Read;
use std::rt::Files;

/// The line about a file, and how the work on the file ends.
#[derive(Drop)]
pub(crate) struct FileLine {
    pub(crate) text: Vec<u8>,
    pub(crate) end: CommandEnd,
}

/// Reads a file, and makes the line about it. A file that can't be read has a line with the reason. An error is
/// returned only if there is no memory for that.
pub(crate) fn file_line<R: Files + AllocGlobal, I: Read>(
    rt: &R,
    rules: Rules,
    name: &str,
    input: &mut I,
) -> Result<FileLine, AllocError>
    ensures line { IfOk result (λ it. IsInfoLine it.end rules name.entry.now (I.remaining input.old) it.text.items) }
    ensures unread { name.entry.now ≢ standard_input → Keeps (I.remaining input.old) (I.remaining input.new) }
{
    match read_file(rt, name, input) {
        Ok(file) => line_of_bytes(rt.alloc(), rules, name, file.as_slice()),
        Err(fault) => unread(rt.alloc(), rules, name, fault),
    }
}

/// The line about a file with these bytes.
fn line_of_bytes(
    alloc: Global,
    rules: Rules,
    name: &str,
    file: &[u8],
) -> Result<FileLine, AllocError>
    ensures { IfOk result (λ line. IsLineOfBytes line.end rules name.now file.now line.text.items) }
{
    let Ok(info) = file_info(alloc, rules, file) else {
        return unread(alloc, rules, name, InputFault::OutOfMemory);
    };
    match info_text(alloc, name, &info) {
        Ok(text) => Ok(FileLine {
            text,
            end: end_of(info.playing),
        }),
        Err(_) => unread(alloc, rules, name, InputFault::OutOfMemory),
    }
}

/// How the work on a file ends that was read.
fn end_of(playing: Playing) -> CommandEnd
    ensures { result ≡ read_end (is_playing playing) }
{
    if playing.is_playing() {
        CommandEnd::Done
    } else {
        CommandEnd::Rejected
    }
}

/// The line about a file that wasn't read in full.
fn unread(
    alloc: Global,
    rules: Rules,
    name: &str,
    fault: InputFault,
) -> Result<FileLine, AllocError>
    ensures { IfOk result (λ line. IsUnreadLine rules name.now line.end line.text.items) }
{
    Ok(FileLine {
        text: unread_text(alloc, rules, name, fault.text())?,
        end: fault.end(),
    })
}
