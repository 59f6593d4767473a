//! Reads the inputs of a command, in the order of the command line.

ghost use Rattle.std.specs.Prelude.{◌≡◌, ◌≢◌, ◌≤◌, IfOk, option_map, vec_len};
ghost use Rattle.std.specs.Io.KnownBytes.{Keeps};
ghost use Rattle.commands.specs.Inputs.{IsInput, certificate_name, image_name, standard_input};
ghost use Rattle.commands.specs.Reading.{input_limit};
ghost use Rattle.command_lines.specs.Dimensions.{file_of};

use crate::input::{InputFault, read_input};
use command_lines::{CommandLine, STANDARD_INPUT};
use std::alloc::Global;
use std::fs;
use std::io::Read;
use std::rt::Files;

/// The bytes of a command's inputs.
#[derive(Drop)]
pub(crate) struct Inputs {
    pub(crate) file: Vec<u8>,
    /// Empty if the command takes no certificate.
    pub(crate) certificate: Vec<u8>,
    /// Empty if the command takes no image.
    pub(crate) image: Vec<u8>,
}

/// Reads the inputs that a command line names, in their order.
pub(crate) fn read_inputs<R: Files + AllocGlobal, I: Read>(
    rt: &R,
    line: CommandLine<'_>,
    input: &mut I,
) -> Result<Inputs, InputFault>
    ensures read { IfOk result (λ inputs. IsInput (file_of line.entry) (I.remaining input.old) inputs.file.items) }
    ensures unread { file_of line.entry ≢ standard_input → Keeps (I.remaining input.old) (I.remaining input.new) }
{
    let file = match read_file(rt, file_of(line), input) {
        Ok(file) => file,
        Err(fault) => return Err(fault),
    };
    let certificate = match certificate_of(line) {
        Some(name) => match read_named(rt, name) {
            Ok(certificate) => certificate,
            Err(fault) => return Err(fault),
        },
        None => Vec::new(rt.alloc()),
    };
    let image = match image_of(line) {
        Some(name) => match read_named(rt, name) {
            Ok(image) => image,
            Err(fault) => return Err(fault),
        },
        None => Vec::new(rt.alloc()),
    };
    Ok(Inputs {
        file,
        certificate,
        image,
    })
}

/// The name of the metafile on the command line.
fn file_of<'a>(line: CommandLine<'a>) -> &'a str
    ensures { result.now ≡ file_of line.entry }
{
    match line {
        CommandLine::Show { file, .. } => file,
        CommandLine::Prepare { file, .. } => file,
        CommandLine::Check { file, .. } => file,
        CommandLine::Play { file, .. } => file,
        CommandLine::Over { file, .. } => file,
        CommandLine::List { file, .. } => file,
    }
}

/// The name of the certificate on the command line, if there is one.
fn certificate_of<'a>(line: CommandLine<'a>) -> Option<&'a str>
    ensures { option_map (λ name. name.now) result ≡ certificate_name line.entry }
{
    match line {
        CommandLine::Check { certificate, .. } => Some(certificate),
        CommandLine::Play { certificate, .. } => Some(certificate),
        CommandLine::Over { certificate, .. } => Some(certificate),
        CommandLine::Show { .. } | CommandLine::Prepare { .. } | CommandLine::List { .. } => None,
    }
}

/// The name of the image on the command line, if there is one.
fn image_of<'a>(line: CommandLine<'a>) -> Option<&'a str>
    ensures { option_map (λ name. name.now) result ≡ image_name line.entry }
{
    match line {
        CommandLine::Over { image, .. } => Some(image),
        CommandLine::Show { .. } | CommandLine::Prepare { .. } | CommandLine::List { .. } => None,
        CommandLine::Check { .. } | CommandLine::Play { .. } => None,
    }
}

/// Reads a file, or standard input.
pub fn read_file<R: Files + AllocGlobal, I: Read>(
    rt: &R,
    file: &str,
    input: &mut I,
) -> Result<Vec<u8>, InputFault>
    ensures read { IfOk result (λ bytes. IsInput file.entry.now (I.remaining input.old) bytes.items) }
    ensures within { IfOk result (λ bytes. vec_len bytes ≤ input_limit) }
    ensures unread { file.entry.now ≢ standard_input → Keeps (I.remaining input.old) (I.remaining input.new) }
{
    if file == STANDARD_INPUT {
        return read_input(rt.alloc(), input);
    }
    read_named(rt, file)
}

/// Reads a file by its name.
fn read_named<R: Files + AllocGlobal>(rt: &R, name: &str) -> Result<Vec<u8>, InputFault>
    ensures { IfOk result (λ bytes. vec_len bytes ≤ input_limit) }
{
    let mut opened = fs::open(rt, name).map_err(InputFault::of)?;
    read_input(rt.alloc(), &mut opened)
}
