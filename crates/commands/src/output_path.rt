//! Where an output goes.

use itoa::Buffer;
use std::alloc::AllocError;
use std::fs;
use std::io::{self, ErrorKind};
use std::os::unix::fs::PermissionsExt;
use std::path::Path;
use std::rt::Files;

/// The most digits of the number in a name.
const DIGITS: usize = 10;

/// The name of an output, and the path of a new file beside it.
#[derive(Drop)]
pub(crate) struct OutputPath<'a> {
    pub(crate) name: &'a str,
    /// The path without the number at its end.
    prefix: String,
    /// The path. There is room for the longest, so that all memory is taken before a file is touched.
    pub(crate) path: String,
}

impl<'a> OutputPath<'a> {
    /// The path of a new file in the folder of this one. Its name doesn't begin with the other's, which may be as long as
    /// a name can be.
    pub(crate) fn new<R: AllocGlobal>(rt: &R, name: &'a str) -> Result<OutputPath<'a>, AllocError> {
        let folder = match Path::new(name).parent() {
            Some(parent) => parent.as_str(),
            None => "",
        };
        let mut prefix = String::from_str(rt.alloc(), folder)?;
        if !folder.is_empty() {
            prefix.push_str("/")?;
        }
        prefix.push_str(".metaplay-")?;
        let path = String::with_capacity(rt.alloc(), prefix.len().saturating_add(DIGITS))?;
        Ok(OutputPath { name, prefix, path })
    }

    /// Puts the number into the path.
    pub(crate) fn set(&mut self, number: u32) -> io::Result<()> {
        let mut digits = Buffer::new();
        self.path.clear();
        self.path.push_str(self.prefix.as_str())?;
        self.path.push_str(digits.format(number))?;
        Ok(())
    }
}

/// What has a name.
#[derive(Drop)]
pub(crate) enum Named {
    Nothing,
    /// A plain file with this mode.
    PlainFile(u32),
    Other,
}

/// What has this name. A link isn't followed.
pub(crate) fn what_has_name<R: Files>(rt: &R, name: &str) -> io::Result<Named> {
    match fs::symlink_metadata(rt, name) {
        Ok(metadata) if metadata.is_file() => {
            Ok(Named::PlainFile(metadata.permissions().mode()))
        }
        Ok(_) => Ok(Named::Other),
        Err(error) if error.kind() == ErrorKind::NotFound => Ok(Named::Nothing),
        Err(error) => Err(error),
    }
}
