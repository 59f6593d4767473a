//! What a command line can ask for.

use draw_ops::Rules;

/// The word that stands for standard input.
pub const STANDARD_INPUT: &str = "stdin";

/// What a command line asks for.
#[derive(Drop)]
pub enum Asked<'a> {
    /// A command on one file.
    Command(CommandLine<'a>),
    /// A task on the files with these names.
    Batch {
        names: Vec<&'a str>,
        task: BatchTask<'a>,
    },
    /// The program's version.
    Version,
}

/// What is done with each of several files.
#[derive(Clone, Copy, Debug, PartialEq, Eq)]
pub enum BatchTask<'a> {
    /// A line about each file, by these rules. At most one of the names is the word `stdin`.
    Info {
        rules: Rules,
    },
    /// A certificate for each file, for surfaces of at most this size, in this folder. With `replace` it takes the
    /// place of a plain file there. No name is the word `stdin`.
    Certify {
        rules: Rules,
        width: u32,
        height: u32,
        folder: &'a str,
        replace: bool,
    },
}

/// A command with its arguments. A file name is the name of a file; FILE may also be the word `stdin`. The commands that
/// take no certificate are given the rules that they go by.
#[derive(Clone, Copy, Debug, PartialEq, Eq)]
pub enum CommandLine<'a> {
    /// Play a file on a surface of this size in pixels, or with `fit` on the largest one within it that has the
    /// proportion of the file's frame.
    Show {
        file: &'a str,
        rules: Rules,
        width: u32,
        height: u32,
        fit: bool,
    },
    /// Prepare a file's certificate for surfaces of at most this size, and write it to a file.
    Prepare {
        file: &'a str,
        rules: Rules,
        width: u32,
        height: u32,
        output: &'a str,
    },
    /// Check a certificate against a file.
    Check {
        file: &'a str,
        certificate: &'a str,
    },
    /// Play a file by its certificate on a surface of this size in pixels, with `fit` as for `Show`, and in bands of some
    /// number of rows if that is given.
    Play {
        file: &'a str,
        certificate: &'a str,
        width: u32,
        height: u32,
        bands: Option<u32>,
        fit: bool,
    },
    /// Play a file by its certificate over an image, at the image's size.
    Over {
        file: &'a str,
        certificate: &'a str,
        image: &'a str,
    },
    /// List a file's records.
    List {
        file: &'a str,
        rules: Rules,
    },
}
