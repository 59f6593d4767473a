//! Reads an input to its end.

ghost use Rattle.std.specs.Prelude.{◌≡◌, ◌≤◌, ◌<◌, ◌↔◌, IfOk, IfSome, IsErr, OnOk, OnErr, length, vec_len};
ghost use Rattle.std.specs.IoError.{error_kind};
ghost use Rattle.std.specs.Io.KnownBytes.{IsAtEnd};
ghost use Rattle.commands.specs.Faults.{fault_text, input_end};
ghost use Rattle.commands.specs.Reading.{ConsumesPrefix, input_limit};

use crate::command_end::CommandEnd;
use std::alloc::Global;
use std::io;
use std::io::{ErrorKind, Read};
use thiserror::Error;

/// The longest input, in bytes.
const INPUT_LIMIT: usize = 268435456;

/// The number of bytes to ask for in one read. Their array is on the stack. With it a command takes less than the 128 KiB
/// of a stack that Linux gives every program when it starts, so no stack has to grow when memory is full.
const PIECE: usize = 65536;

/// Why an input wasn't read.
#[derive(Clone, Copy, Debug, PartialEq, Eq, Error)]
pub enum InputFault {
    /// The reader failed, or it has more than 268,435,456 bytes.
    #[error("{}", InputFault::CannotRead.text())]
    CannotRead,
    /// The memory for the bytes couldn't be allocated.
    #[error("{}", InputFault::OutOfMemory.text())]
    OutOfMemory,
}

impl InputFault {
    /// How a command ends if an input wasn't read.
    pub(crate) fn end(self) -> CommandEnd
        ensures { result ≡ input_end self }
    {
        match self {
            InputFault::CannotRead => CommandEnd::CannotRead,
            InputFault::OutOfMemory => CommandEnd::OutOfMemory,
        }
    }

    /// The text for standard error.
    pub fn text(self) -> &'static str
        ensures text { result.now ≡ fault_text self }
        ensures short { length result.now ≤ 117 }
    {
        match self {
            InputFault::CannotRead => "cannot read",
            InputFault::OutOfMemory => "OutOfMemory",
        }
    }

    /// The input fault for a system error, on opening a file or on reading the command line.
    pub(crate) fn of(error: io::Error) -> InputFault
        ensures { result ≡ InputFault.OutOfMemory ↔ error_kind error ≡ ErrorKind.OutOfMemory }
    {
        if error.kind() == ErrorKind::OutOfMemory {
            InputFault::OutOfMemory
        } else {
            InputFault::CannotRead
        }
    }
}

/// Reads all bytes of a reader. Any error of a read is `CannotRead`, whatever its kind, and so is an input of more than
/// 268,435,456 bytes. After an error, a prefix of the reader's bytes has been consumed. This isn't inlined, because
/// otherwise each input of a command would have an array of its own on the stack.
#[inline(never)]
#[tactic(auto, unfolding(crate::specs::Reading::input_limit))]
pub fn read_input<R: Read>(alloc: Global, input: &mut R) -> Result<Vec<u8>, InputFault>
    ensures bytes { IfOk result (λ bytes. IfSome (R.remaining input.old) (λ all. bytes.items ≡ all)) }
    ensures end { OnOk result (IsAtEnd (R.remaining input.new)) }
    ensures within { IfOk result (λ bytes. vec_len bytes ≤ input_limit) }
    ensures longer { IfSome (R.remaining input.old) (λ all. input_limit < length all → IsErr result) }
    ensures prefix { OnErr result (ConsumesPrefix (R.remaining input.old) (R.remaining input.new)) }
{
    let mut bytes = Vec::new(alloc);
    let mut piece = [0u8; PIECE];
    while bytes.len() <= INPUT_LIMIT {
        let Ok(count) = input.read(&mut piece) else {
            return Err(InputFault::CannotRead);
        };
        if count == 0 {
            return Ok(bytes);
        }
        if bytes.extend_from_slice(&piece[..count]).is_err() {
            return Err(InputFault::OutOfMemory);
        }
    }
    Err(InputFault::CannotRead)
}
