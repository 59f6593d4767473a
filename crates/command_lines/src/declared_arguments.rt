//! The arguments of commands, as declared to `clap`.

ghost use Rattle.std.specs.Prelude.{◌≡◌, false};
ghost use Rattle.clap.specs.Words.{rule_of};
ghost use Rattle.command_lines.specs.CommandLine.{allow_rule, bands_rule, files_rule, fit_rule, folder_rule, name_rule, profile_rule, replace_rule, side_rule};

use clap::{Arg, ArgAction, value_parser};
use mapping::MAX_SURFACE_SIDE;
use std::alloc::Global;

/// The most rows that a band may have: as many as the largest surface.
const MOST_ROWS: u32 = MAX_SURFACE_SIDE;

/// A file's name.
pub(crate) fn name<'a>(alloc: Global, id: &'a str, help: &'a str) -> Arg<'a>
    ensures rule { rule_of result ≡ name_rule id.entry.now }
    ensures local { result.global ≡ false }
{
    Arg::new(alloc, id)
        .required(true)
        .action(ArgAction::Set)
        .help(help)
}

/// The names of one or more files.
pub(crate) fn files<'a>(alloc: Global, help: &'a str) -> Arg<'a>
    ensures rule { rule_of result ≡ files_rule }
    ensures local { result.global ≡ false }
{
    Arg::new(alloc, "FILE")
        .required(true)
        .num_args(1..)
        .action(ArgAction::Append)
        .help(help)
}

/// The option for the folder of the certificates.
pub(crate) fn folder<'a>(alloc: Global) -> Arg<'a>
    ensures rule { rule_of result ≡ folder_rule }
    ensures local { result.global ≡ false }
{
    name(alloc, "DIR", "The folder of the certificates").long("out-dir")
}

/// The option for certificates that take the place of plain files.
pub(crate) fn replace<'a>(alloc: Global) -> Arg<'a>
    ensures rule { rule_of result ≡ replace_rule }
    ensures local { result.global ≡ false }
{
    Arg::new(alloc, "replace")
        .long("replace")
        .action(ArgAction::SetTrue)
        .help("Replace a plain file that has a certificate's name")
}

/// The option for the number of rows in a band.
pub(crate) fn bands<'a>(alloc: Global) -> Arg<'a>
    ensures rule { rule_of result ≡ bands_rule }
    ensures local { result.global ≡ false }
{
    Arg::new(alloc, "ROWS")
        .long("bands")
        .action(ArgAction::Set)
        .value_parser(value_parser!(u32).range(1..=i64::from(MOST_ROWS)))
        .help("How many rows to play at a time; the image is the same")
}

/// The option for the proportion of the frame.
pub(crate) fn fit<'a>(alloc: Global) -> Arg<'a>
    ensures rule { rule_of result ≡ fit_rule }
    ensures local { result.global ≡ false }
{
    Arg::new(alloc, "fit")
        .long("fit")
        .action(ArgAction::SetTrue)
        .help("Keep the picture's proportion; W and H are then the most")
}

/// The option for the profile.
pub(crate) fn profile<'a>(alloc: Global) -> Arg<'a>
    ensures rule { rule_of result ≡ profile_rule }
    ensures local { result.global ≡ false }
{
    Arg::new(alloc, "PROFILE")
        .long("profile")
        .action(ArgAction::Set)
        .help("The rules: core (the default), or print for large surfaces")
}

/// The option for what the print profile allows.
pub(crate) fn allow<'a>(alloc: Global) -> Arg<'a>
    ensures rule { rule_of result ≡ allow_rule }
    ensures local { result.global ≡ false }
{
    Arg::new(alloc, "NAME")
        .long("allow")
        .action(ArgAction::Append)
        .help("With print: also accept held-deletion or emf-plus")
}

/// The width or the height of the surface.
pub(crate) fn side<'a>(alloc: Global, id: &'a str, help: &'a str) -> Arg<'a>
    ensures rule { rule_of result ≡ side_rule id.entry.now }
    ensures local { result.global ≡ false }
{
    Arg::new(alloc, id)
        .required(true)
        .action(ArgAction::Set)
        .value_parser(value_parser!(u32).range(1..=i64::from(MAX_SURFACE_SIDE)))
        .help(help)
}
