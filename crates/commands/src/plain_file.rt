//! Reads a plain file. A FIFO or a device could hold up all files after it.

ghost use Rattle.std.specs.Prelude.{◌≡◌};
ghost use Rattle.commands.specs.PlainFiles.{plain_end, plain_text};

use crate::command_end::CommandEnd;
use crate::input::{InputFault, read_input};
use std::alloc::AllocError;
use std::fs;
use std::rt::Files;

/// Why a plain file wasn't read.
#[derive(Clone, Copy, Debug, PartialEq, Eq)]
pub(crate) enum PlainFault {
    /// It can't be opened, or reading it fails.
    CannotRead,
    /// It is a folder, a FIFO or a device.
    NotPlain,
    /// The memory for the bytes couldn't be allocated.
    OutOfMemory,
}

impl PlainFault {
    /// How the work on the file ends.
    pub(crate) fn end(self) -> CommandEnd
        ensures { result ≡ plain_end self }
    {
        match self {
            PlainFault::CannotRead | PlainFault::NotPlain => CommandEnd::CannotRead,
            PlainFault::OutOfMemory => CommandEnd::OutOfMemory,
        }
    }

    /// The reason, for the line about the file.
    pub(crate) fn text(self) -> &'static str
        ensures { result.now ≡ plain_text self }
    {
        match self {
            PlainFault::CannotRead => "cannot read",
            PlainFault::NotPlain => "not a plain file",
            PlainFault::OutOfMemory => "OutOfMemory",
        }
    }
}

impl From<InputFault> for PlainFault {
    fn from(fault: InputFault) -> PlainFault {
        match fault {
            InputFault::CannotRead => PlainFault::CannotRead,
            InputFault::OutOfMemory => PlainFault::OutOfMemory,
        }
    }
}

impl From<AllocError> for PlainFault {
    fn from(_error: AllocError) -> PlainFault {
        PlainFault::OutOfMemory
    }
}

/// Reads a plain file. A link is followed.
pub(crate) fn read_plain<R: Files + AllocGlobal>(
    rt: &R,
    name: &str,
) -> Result<Vec<u8>, PlainFault> {
    let metadata = fs::metadata(rt, name).map_err(InputFault::of)?;
    if !metadata.is_file() {
        return Err(PlainFault::NotPlain);
    }
    let mut opened = fs::open(rt, name).map_err(InputFault::of)?;
    let bytes = read_input(rt.alloc(), &mut opened)?;
    Ok(bytes)
}
