//! Whether a certificate would replace the metafile that it is prepared of.

ghost use Rattle.std.specs.Prelude.{◌≡◌, option_map, true};
ghost use Rattle.commands.specs.Lines.{PreparesNamedFile, prepared_names};

use command_lines::{CommandLine, STANDARD_INPUT};
use std::fs;
use std::os::unix::fs::MetadataExt;
use std::rt::Files;

/// A command line, with the answer to whether OUT is FILE.
#[derive(Clone, Copy)]
pub(crate) struct ComparedLine<'a> {
    pub(crate) line: CommandLine<'a>,
    pub(crate) out_is_file: bool,
}

/// Looks whether OUT is FILE. Standard input has no name, so it is never that.
pub(crate) fn compared<'a, R: Files>(rt: &R, line: CommandLine<'a>) -> ComparedLine<'a>
    ensures line { result.line ≡ line.entry }
    ensures named { result.out_is_file ≡ true → PreparesNamedFile result.line }
{
    let out_is_file = match prepared_names(line) {
        Some((file, output)) => are_of_one_file(rt, file, output),
        None => false,
    };
    ComparedLine { line, out_is_file }
}

/// The names of the metafile and of the certificate that is prepared of it, if the metafile has a name.
fn prepared_names<'a>(line: CommandLine<'a>) -> Option<(&'a str, &'a str)>
    ensures { option_map (λ names. (names.0.now, names.1.now)) result ≡ prepared_names line.entry }
{
    match line {
        CommandLine::Prepare { file, output, .. } if file != STANDARD_INPUT => Some((file, output)),
        _ => None,
    }
}

/// Whether both names lead to the same file: the names may differ, and one of them may be a link.
pub(crate) fn are_of_one_file<R: Files>(rt: &R, one: &str, other: &str) -> bool {
    match (fs::metadata(rt, one), fs::metadata(rt, other)) {
        (Ok(one), Ok(other)) => one.dev() == other.dev() && one.ino() == other.ino(),
        _ => false,
    }
}
