//! The command line of `metaplay`.
//!
//! # What is promised
//!
//! - A parsed command line has surfaces from 1 to 8,192 pixels in width and height, and the files, sizes and rules that
//!   its words give, as `clap` reads them (`line`). The rules are those of the print profile only if `--profile print` is
//!   given, and then allow what `--allow` names. Else they are `Rules::CORE`.
//! - The right words for a command are parsed, unless an allocation fails. These are its name, then its file names and
//!   sizes in order, for `play` with or without bands, for `show` and `play` with or without `--fit`, and for `info` one
//!   or more file names. For `show`, `prepare`, `list` and `info` a profile may follow, and for print what is allowed.
//!   For `certify` the folder comes first, then `--replace` or not and the profile, and last the sizes and one or more
//!   file names (`line`).
//! - A profile or an allowance of another name, an allowance without `--profile print`, and a profile that is given twice
//!   are wrong usage, and so is either option for a command by a certificate (`line`).
//! - `--version` or `-V` alone asks for the version (`line`).
//! - An error is help only if help is among what `clap` may answer the words with (`line`).
//! - Standard input is read for at most one of the files of `info`, and for none of `certify` (`line`).
#![tactic(auto)]

mod arguments;
mod asked;
mod batch;
mod command_line;
mod declared;
mod declared_arguments;
mod rule_words;

pub use asked::{Asked, BatchTask, CommandLine, STANDARD_INPUT};
pub use command_line::line;
