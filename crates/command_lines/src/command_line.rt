//! Parses the command line.

ghost use Rattle.std.specs.Prelude.{◌≡◌, ◌≤◌, ◌↔◌, IfErr, IfOk, IfSome, IsSome, Ok, codes, length, true};
ghost use Rattle.clap.specs.Lexer.{usize_max};
ghost use Rattle.clap.specs.Words.{found_of, kind_of, rows_of, subcommand_rows_of};
ghost use Rattle.command_lines.specs.Asked.{HasPlainWords, IsAskedFor, IsFound, IsValid};
ghost use Rattle.command_lines.specs.CommandLine.{AreRightArguments, GivesAll, HoldsWords, IsAskedBy, IsRightCommand, command_name, texts_of};
ghost use Rattle.command_lines.specs.CommandLine.{check_app, list_app, over_app, play_app, prepare_app, show_app};
ghost use Rattle.command_lines.specs.BatchWords.{AreAccepted, AreCommandWords, AsksRightCertify, AsksRightInfo, IsNoBatch};
ghost use Rattle.command_lines.specs.Dimensions.{HasDimensions};
ghost use Rattle.command_lines.specs.HelpWords.{AsksHelp};
ghost use Rattle.command_lines.specs.VersionWords.{AreVersionWords};
ghost use Rattle.command_lines.specs.WrongWords.{AreWrongWords};

use crate::arguments::{bands_of, dimensions_of, flag_of, name_of};
use crate::asked::{Asked, CommandLine};
use crate::batch::{asked_certify, asked_info};
use crate::declared::{command_named, metaplay};
use crate::rule_words::rules_of;
use clap::error::ErrorKind;
use clap::{ArgMatches, Error};
use std::alloc::{AllocError, Global};

/// Parses the words of a command line, the program's name first, with `clap`. The error contains the text to show to
/// the user; help is an error too. If the words are right for a command, or `clap` accepts them and what they give is
/// right, parsing can fail only because an allocation failed. Words that ask for the version can't fail: they are
/// compared here, and `clap` knows nothing of them.
pub fn line<'a>(alloc: Global, words: &'a [String]) -> Result<Asked<'a>, Error>
    ensures valid { IfOk result IsValid }
    ensures asked { IfOk result (IsAskedFor (texts_of words.entry.now)) }
    ensures plain { IfOk result (HasPlainWords (texts_of words.entry.now)) }
    ensures taken { IfErr result (λ e. AreCommandWords (texts_of words.entry.now) → kind_of e ≡ ErrorKind.OutOfMemory) }
    ensures accepted { IfErr result (λ e. AreAccepted (texts_of words.entry.now) → kind_of e ≡ ErrorKind.OutOfMemory) }
    ensures version { AreVersionWords (texts_of words.entry.now) → result ≡ Ok Asked.Version }
    ensures refused { IfOk result (λ _. AreWrongWords (texts_of words.entry.now) → ⊥) }
    ensures help { IfErr result (λ e. kind_of e ≡ ErrorKind.DisplayHelp → AsksHelp (texts_of words.entry.now)) }
{
    if asks_version(words) {
        return Ok(Asked::Version);
    }
    count_law(words);
    let mut command = metaplay(alloc)?;
    let matches = command.try_get_matches_from_mut(words)?;
    match asked(alloc, &matches)? {
        Some(asked) => Ok(asked),
        None => Err(wrong_usage(alloc, &matches)?),
    }
}

/// Whether the words ask for the version.
fn asks_version(words: &[String]) -> bool
    ensures { result ≡ true ↔ AreVersionWords (texts_of words.now) }
{
    words.len() == 2 && (words[1].as_str() == "--version" || words[1].as_str() == "-V")
}

/// `clap` counts words in a `usize`.
fn count_law(words: &[String])
    ensures { length words.now ≤ usize_max }
{
    let _ = words.len();
}

/// The error for what was found, with the usage of its command.
fn wrong_usage(alloc: Global, matches: &ArgMatches<'_>) -> Result<Error, AllocError>
    ensures { IfOk result (λ e. kind_of e ≡ ErrorKind.ArgumentConflict) }
{
    let name = matches.subcommand_name().unwrap_or("");
    let mut command = command_named(alloc, name)?;
    command.error(ErrorKind::ArgumentConflict, why_wrong(matches))
}

/// What is wrong with what was found: the arguments for its rules, or its names.
fn why_wrong(matches: &ArgMatches<'_>) -> &'static str {
    if let Some((name, given)) = matches.subcommand() {
        if let Err(wrong) = rules_of(given) {
            return wrong.text();
        }
        if name == "certify" {
            return "certify doesn't read standard input";
        }
    }
    "standard input was given more than once"
}

/// What was found, if its numbers are in range and its rules right, and if no more of its names are the word for
/// standard input than its command may read.
fn asked<'a>(alloc: Global, matches: &ArgMatches<'a>) -> Result<Option<Asked<'a>>, AllocError>
    ensures valid { IfOk result (λ asked. IfSome asked IsValid) }
    ensures asked { IfOk result (λ asked. IfSome asked (IsFound (subcommand_rows_of matches.now))) }
    ensures command_taken { IfOk result (λ asked. IsRightCommand (subcommand_rows_of matches.now) → IsNoBatch (subcommand_rows_of matches.now) → IsSome asked) }
    ensures info_taken { IfOk result (λ asked. AsksRightInfo (subcommand_rows_of matches.now) → IsSome asked) }
    ensures certify_taken { IfOk result (λ asked. AsksRightCertify (subcommand_rows_of matches.now) → IsSome asked) }
{
    if let Some(given) = matches.subcommand_matches("info") {
        return asked_info(alloc, given);
    }
    if let Some(given) = matches.subcommand_matches("certify") {
        return asked_certify(alloc, given);
    }
    Ok(asked_command(matches).map(Asked::Command))
}

/// The command on one file that was found, if its numbers are in range.
fn asked_command<'a>(matches: &ArgMatches<'a>) -> Option<CommandLine<'a>>
    ensures dimensions { IfSome result HasDimensions }
    ensures asked { IfSome result (IsAskedBy (subcommand_rows_of matches.now)) }
    ensures taken { IsRightCommand (subcommand_rows_of matches.now) → IsNoBatch (subcommand_rows_of matches.now) → IsSome result }
{
    if let Some(given) = matches.subcommand_matches("show") {
        return asked_show(given);
    }
    if let Some(given) = matches.subcommand_matches("prepare") {
        return asked_prepare(given);
    }
    if let Some(given) = matches.subcommand_matches("check") {
        return asked_check(given);
    }
    if let Some(given) = matches.subcommand_matches("play") {
        return asked_play(given);
    }
    if let Some(given) = matches.subcommand_matches("over") {
        return asked_over(given);
    }
    if let Some(given) = matches.subcommand_matches("list") {
        return asked_list(given);
    }
    None
}

/// The arguments of `show`.
fn asked_show<'a>(given: &ArgMatches<'a>) -> Option<CommandLine<'a>>
    ensures dimensions { IfSome result HasDimensions }
    ensures name { IfSome result (λ line. command_name line ≡ codes "show") }
    ensures gives { IfSome result (HoldsWords (rows_of (found_of given.now))) }
    ensures taken { AreRightArguments show_app.top (rows_of (found_of given.now)) → IsSome result }
{
    let Some(file) = name_of(given, "FILE") else {
        return None;
    };
    let Ok(rules) = rules_of(given) else {
        return None;
    };
    let Some((width, height)) = dimensions_of(given) else {
        return None;
    };
    Some(CommandLine::Show {
        file,
        rules,
        width,
        height,
        fit: flag_of(given, "fit"),
    })
}

/// The arguments of `prepare`.
fn asked_prepare<'a>(given: &ArgMatches<'a>) -> Option<CommandLine<'a>>
    ensures dimensions { IfSome result HasDimensions }
    ensures name { IfSome result (λ line. command_name line ≡ codes "prepare") }
    ensures gives { IfSome result (HoldsWords (rows_of (found_of given.now))) }
    ensures taken { AreRightArguments prepare_app.top (rows_of (found_of given.now)) → IsSome result }
{
    let Some(file) = name_of(given, "FILE") else {
        return None;
    };
    let Ok(rules) = rules_of(given) else {
        return None;
    };
    let Some((width, height)) = dimensions_of(given) else {
        return None;
    };
    let Some(output) = name_of(given, "OUT") else {
        return None;
    };
    Some(CommandLine::Prepare {
        file,
        rules,
        width,
        height,
        output,
    })
}

/// The arguments of `check`.
fn asked_check<'a>(given: &ArgMatches<'a>) -> Option<CommandLine<'a>>
    ensures dimensions { IfSome result HasDimensions }
    ensures name { IfSome result (λ line. command_name line ≡ codes "check") }
    ensures gives { IfSome result (HoldsWords (rows_of (found_of given.now))) }
    ensures taken { GivesAll check_app.top.rules (rows_of (found_of given.now)) → IsSome result }
{
    let Some(file) = name_of(given, "FILE") else {
        return None;
    };
    let Some(certificate) = name_of(given, "CERT") else {
        return None;
    };
    Some(CommandLine::Check { file, certificate })
}

/// The arguments of `play`.
fn asked_play<'a>(given: &ArgMatches<'a>) -> Option<CommandLine<'a>>
    ensures dimensions { IfSome result HasDimensions }
    ensures name { IfSome result (λ line. command_name line ≡ codes "play") }
    ensures gives { IfSome result (HoldsWords (rows_of (found_of given.now))) }
    ensures taken { GivesAll play_app.top.rules (rows_of (found_of given.now)) → IsSome result }
{
    let Some(file) = name_of(given, "FILE") else {
        return None;
    };
    let Some(certificate) = name_of(given, "CERT") else {
        return None;
    };
    let Some((width, height)) = dimensions_of(given) else {
        return None;
    };
    let Some(bands) = bands_of(given) else {
        return None;
    };
    Some(CommandLine::Play {
        file,
        certificate,
        width,
        height,
        bands,
        fit: flag_of(given, "fit"),
    })
}

/// The arguments of `over`.
fn asked_over<'a>(given: &ArgMatches<'a>) -> Option<CommandLine<'a>>
    ensures dimensions { IfSome result HasDimensions }
    ensures name { IfSome result (λ line. command_name line ≡ codes "over") }
    ensures gives { IfSome result (HoldsWords (rows_of (found_of given.now))) }
    ensures taken { GivesAll over_app.top.rules (rows_of (found_of given.now)) → IsSome result }
{
    let Some(file) = name_of(given, "FILE") else {
        return None;
    };
    let Some(certificate) = name_of(given, "CERT") else {
        return None;
    };
    let Some(image) = name_of(given, "IMAGE") else {
        return None;
    };
    Some(CommandLine::Over {
        file,
        certificate,
        image,
    })
}

/// The arguments of `list`.
fn asked_list<'a>(given: &ArgMatches<'a>) -> Option<CommandLine<'a>>
    ensures dimensions { IfSome result HasDimensions }
    ensures name { IfSome result (λ line. command_name line ≡ codes "list") }
    ensures gives { IfSome result (HoldsWords (rows_of (found_of given.now))) }
    ensures taken { AreRightArguments list_app.top (rows_of (found_of given.now)) → IsSome result }
{
    let Some(file) = name_of(given, "FILE") else {
        return None;
    };
    let Ok(rules) = rules_of(given) else {
        return None;
    };
    Some(CommandLine::List { file, rules })
}
