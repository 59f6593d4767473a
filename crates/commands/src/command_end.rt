//! How a command ends.

use canvas::WriteFault;

/// How a command ends. This determines the status.
#[derive(Clone, Copy, Debug, PartialEq, Eq)]
pub enum CommandEnd {
    /// The work is done.
    Done,
    /// The file, the certificate, the image or the surface was rejected.
    Rejected,
    /// The command line is wrong.
    WrongUsage,
    /// The command line asks for help.
    Help,
    /// The certificate would replace the metafile that it is prepared of.
    OutIsFile,
    /// An input can't be read.
    CannotRead,
    /// An output can't be written.
    CannotWrite,
    /// One of several certificates can't be written, or something else has its name.
    CannotStore,
    /// Out of memory.
    OutOfMemory,
}

impl CommandEnd {
    ghost use Rattle.std.specs.Prelude.{◌≡◌};
    ghost use Rattle.commands.specs.BatchLines.{worse};
    ghost use Rattle.commands.specs.Statuses.{status_of};

    /// The end with the higher status, or this one if both have the same.
    pub(crate) fn worse(self, other: CommandEnd) -> CommandEnd
        ensures { result ≡ worse self other }
    {
        if self.status() < other.status() {
            other
        } else {
            self
        }
    }

    /// The program's status, from 0 to 4.
    pub fn status(self) -> u8
        ensures { result ≡ status_of self }
    {
        match self {
            CommandEnd::Done => 0,
            CommandEnd::Rejected => 1,
            CommandEnd::WrongUsage | CommandEnd::Help | CommandEnd::OutIsFile => 2,
            CommandEnd::CannotRead | CommandEnd::CannotWrite | CommandEnd::CannotStore => 3,
            CommandEnd::OutOfMemory => 4,
        }
    }
}

/// How a command ended, and whether its message was written in full: the help on standard output, or what is on standard
/// error.
#[derive(Clone, Copy, Debug, PartialEq, Eq)]
pub struct Completion {
    pub end: CommandEnd,
    /// An error if the writer failed before the last byte of the message. Never an error if there was no message.
    pub printed: Result<(), WriteFault>,
}

impl Completion {
    ghost use Rattle.std.specs.Prelude.{◌≡◌};
    ghost use Rattle.commands.specs.Statuses.{status_of};

    /// The program's status, from 0 to 4.
    pub fn status(self) -> u8
        ensures { result ≡ status_of self.end }
    {
        self.end.status()
    }
}
