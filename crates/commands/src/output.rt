//! Output to a named file, which changes as a whole.

ghost use Rattle.std.specs.Prelude.{◌≡◌, OnOk, true};
ghost use Rattle.std.specs.Io.KnownBytes.{Appends, Keeps};

use crate::output_path::{Named, OutputPath, what_has_name};
use canvas::{WriteFault, send};
use std::fs::{self, OpenFile, OpenOptions, Permissions};
use std::io::{self, ErrorKind, Write};
use std::os::unix::fs::{OpenOptionsExt, PermissionsExt};
use std::rt::Files;

/// How many names are tried for a new file. Only a run that was killed leaves one of them behind.
const MOST_NAMES: u32 = 10_000;

/// The mode of a file that has no old one, before the umask.
const NEW_MODE: u32 = 0o666;

/// The mode of a new file until it gets the old one's: no other user can open it earlier.
const CLOSED_MODE: u32 = 0o600;

/// What a new file takes of an old one's mode. The new file belongs to whoever runs the program, so with a setuid or
/// setgid bit others could act as that user.
const ACCESS: u32 = 0o777;

/// Which file is written.
#[derive(Clone, Copy, Debug, PartialEq, Eq)]
pub(crate) enum Written {
    /// A new file beside the named one, which gets its name when it is whole.
    Beside,
    /// A new file, which gets its name when it is whole, unless something has that name by then.
    New,
    /// The named file itself, which is no plain file (a link, a device or a FIFO).
    InPlace,
}

/// What was done with a file since its last byte.
#[derive(Clone, Copy, Debug, PartialEq, Eq)]
pub(crate) struct Finish {
    pub(crate) flushed: bool,
    /// Whether it is on the disk.
    pub(crate) synced: bool,
    /// Whether it got the name.
    pub(crate) named: bool,
}

impl Finish {
    /// Nothing was done.
    const NONE: Finish = Finish {
        flushed: false,
        synced: false,
        named: false,
    };
}

/// An open file. Until a new one gets the name, a file of that name is unchanged.
#[derive(Drop)]
pub(crate) struct NamedOutput<'a, R: Files> {
    rt: &'a R,
    path: OutputPath<'a>,
    pub(crate) file: R::File,
    pub(crate) written: Written,
    pub(crate) finish: Finish,
}

impl<'a, R: Files> NamedOutput<'a, R> {
    ghost use Rattle.commands.specs.Stored.{IsFinished};

    /// Opens what is written. A plain file that isn't writable stays as it is. A new file gets the access that an old
    /// one allows. Its mode is set through the open file, because another file may have its path by now.
    pub(crate) fn open(rt: &'a R, path: OutputPath<'a>) -> io::Result<NamedOutput<'a, R>> {
        match what_has_name(rt, path.name)? {
            Named::Nothing => NamedOutput::beside(rt, path, NEW_MODE),
            Named::PlainFile(mode) => {
                OpenOptions::new().write(true).open(rt, path.name)?;
                let output = NamedOutput::beside(rt, path, CLOSED_MODE)?;
                match output
                    .file
                    .set_permissions(Permissions::from_mode(mode & ACCESS))
                {
                    Ok(()) => Ok(output),
                    Err(error) => {
                        output.remove_first_name();
                        Err(error)
                    }
                }
            }
            Named::Other => {
                let file = fs::create(rt, path.name)?;
                Ok(NamedOutput {
                    rt,
                    path,
                    file,
                    written: Written::InPlace,
                    finish: Finish::NONE,
                })
            }
        }
    }

    /// Creates a new file that gets its name only if nothing has it then.
    pub(crate) fn open_new(rt: &'a R, path: OutputPath<'a>) -> io::Result<NamedOutput<'a, R>> {
        let mut output = NamedOutput::beside(rt, path, NEW_MODE)?;
        output.written = Written::New;
        Ok(output)
    }

    /// Creates a new file with this mode in the same folder, under the first free name.
    fn beside(rt: &'a R, mut path: OutputPath<'a>, mode: u32) -> io::Result<NamedOutput<'a, R>> {
        let mut options = OpenOptions::new();
        options.write(true).create_new(true).mode(mode);
        for number in 0..MOST_NAMES {
            path.set(number)?;
            match options.open(rt, path.path.as_str()) {
                Ok(file) => {
                    return Ok(NamedOutput {
                        rt,
                        path,
                        file,
                        written: Written::Beside,
                        finish: Finish::NONE,
                    });
                }
                Err(error) if error.kind() == ErrorKind::AlreadyExists => {}
                Err(error) => return Err(error),
            }
        }
        Err(io::Error::from(ErrorKind::AlreadyExists))
    }

    /// Writes a text to the open file, and flushes it. A new file is then written to the disk, and gets its name: what
    /// can't be stored there is reported now, and the power may fail afterwards.
    pub(crate) fn store(&mut self, text: &[u8]) -> Result<(), WriteFault>
        ensures whole { OnOk result (Appends (R.File.contents self.old.file) (R.File.contents self.new.file) text.now) }
        ensures finished { OnOk result (IsFinished self.new.written self.new.finish) }
    {
        self.append(text)?;
        self.flush()?;
        if self.written == Written::InPlace {
            return Ok(());
        }
        self.sync()?;
        if self.written == Written::Beside {
            return self.rename();
        }
        self.link()
    }

    /// Writes a text to the open file.
    fn append(&mut self, text: &[u8]) -> Result<(), WriteFault>
        ensures { OnOk result (Appends (R.File.contents self.old.file) (R.File.contents self.new.file) text.now) }
    {
        self.finish = Finish::NONE;
        send(&mut self.file, text)
    }

    /// Flushes the file.
    fn flush(&mut self) -> Result<(), WriteFault>
        ensures bytes { Keeps (R.File.contents self.old.file) (R.File.contents self.new.file) }
        ensures done { OnOk result (self.new.finish.flushed ≡ true) }
    {
        self.file.flush().map_err(|_| WriteFault)?;
        self.finish.flushed = true;
        Ok(())
    }

    /// Has the flushed file written to the disk.
    fn sync(&mut self) -> Result<(), WriteFault>
        requires flushed { self.old.finish.flushed ≡ true }
        ensures file { self.new.file ≡ self.old.file }
        ensures done { OnOk result (self.new.finish ≡ record self.old.finish { synced = true }) }
    {
        self.file.sync_all().map_err(|_| WriteFault)?;
        self.finish.synced = true;
        Ok(())
    }

    /// Gives the new file, which is on the disk, its name.
    fn rename(&mut self) -> Result<(), WriteFault>
        requires synced { self.old.finish.synced ≡ true }
        ensures file { self.new.file ≡ self.old.file }
        ensures done { OnOk result (self.new.finish ≡ record self.old.finish { named = true }) }
    {
        let renamed = fs::rename(self.rt, self.path.path.as_str(), self.path.name);
        renamed.map_err(|_| WriteFault)?;
        self.finish.named = true;
        Ok(())
    }

    /// Gives the new file, which is on the disk, its name, unless something has that name. Where the file system has no
    /// links, nothing had the name a moment before.
    fn link(&mut self) -> Result<(), WriteFault>
        requires synced { self.old.finish.synced ≡ true }
        ensures file { self.new.file ≡ self.old.file }
        ensures done { OnOk result (self.new.finish ≡ record self.old.finish { named = true }) }
    {
        match fs::hard_link(self.rt, self.path.path.as_str(), self.path.name) {
            Ok(()) => {
                self.finish.named = true;
                Ok(())
            }
            Err(_) => match what_has_name(self.rt, self.path.name) {
                Ok(Named::Nothing) => {
                    self.written = Written::Beside;
                    self.rename()
                }
                Ok(_) | Err(_) => Err(WriteFault),
            },
        }
    }

    /// Removes the first name of a new file. A file that was renamed has no other.
    pub(crate) fn remove_first_name(&self) {
        let is_renamed = self.written == Written::Beside && self.finish.named;
        if self.written != Written::InPlace && !is_renamed {
            let _ = fs::remove_file(self.rt, self.path.path.as_str());
        }
    }
}
