//! Stores a certificate.

ghost use Rattle.std.specs.Prelude.{◌≡◌, OnOk};
ghost use Rattle.commands.specs.Stored.{Stores};
ghost use Rattle.commands.specs.Storing.{store_text};

use crate::certifying::{Certifying, Place};
use crate::output::NamedOutput;
use crate::output_path::{Named, OutputPath, what_has_name};
use crate::same_file::are_of_one_file;
use std::io;
use std::rt::Files;

/// How a certificate is stored.
#[derive(Clone, Copy, Debug, PartialEq, Eq)]
pub(crate) enum Store {
    /// Nothing has its name.
    New,
    /// A plain file that has its name is replaced.
    Over,
    /// Something else has its name, and stays.
    Not,
}

/// Why a certificate isn't stored.
#[derive(Clone, Copy, Debug, PartialEq, Eq)]
pub(crate) enum StoreFault {
    /// Something else has its name.
    Taken,
    CannotWrite,
    OutOfMemory,
}

impl StoreFault {
    /// The reason, for the line about the file.
    pub(crate) fn text(self) -> &'static str
        ensures { result.now ≡ store_text self }
    {
        match self {
            StoreFault::Taken => "the certificate's name is taken",
            StoreFault::CannotWrite => "cannot write",
            StoreFault::OutOfMemory => "OutOfMemory",
        }
    }
}

/// How the certificate of a file is stored. No link, device or folder is replaced, and neither is the file itself.
pub(crate) fn how_to_store<R: Files>(rt: &R, asked: Certifying<'_>, place: Place<'_>) -> Store {
    match what_has_name(rt, place.path) {
        Ok(Named::Nothing) => Store::New,
        Ok(Named::PlainFile(_)) => {
            if asked.replace && !are_of_one_file(rt, place.name, place.path) {
                Store::Over
            } else {
                Store::Not
            }
        }
        Ok(Named::Other) | Err(_) => Store::Not,
    }
}

/// Stores a certificate at a path, or leaves what is there as it is.
pub(crate) fn store_text<R: Files + AllocGlobal>(
    rt: &R,
    path: &str,
    text: &[u8],
    store: Store,
) -> Result<(), StoreFault>
    ensures { OnOk result (Stores R.File.contents (λ it. it ≡ text.now)) }
{
    let Ok(output_path) = OutputPath::new(rt, path) else {
        return Err(StoreFault::OutOfMemory);
    };
    let opened = match store {
        Store::New => NamedOutput::open_new(rt, output_path),
        Store::Over => NamedOutput::open(rt, output_path),
        Store::Not => return Err(StoreFault::Taken),
    };
    let Ok(mut output) = opened else {
        return Err(StoreFault::CannotWrite);
    };
    let stored = output.store(text);
    output.remove_first_name();
    match stored {
        Ok(()) => Ok(()),
        Err(_) => Err(why_unstored(rt, path, store)),
    }
}

/// Why a certificate wasn't stored: another process may have taken its name by now.
fn why_unstored<R: Files>(rt: &R, path: &str, store: Store) -> StoreFault {
    match what_has_name(rt, path) {
        Ok(Named::Nothing) | Err(_) => StoreFault::CannotWrite,
        Ok(_) if store == Store::New => StoreFault::Taken,
        Ok(_) => StoreFault::CannotWrite,
    }
}
