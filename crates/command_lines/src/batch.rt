//! What the commands on several files are asked for.

ghost use Rattle.std.specs.Prelude.{◌≡◌, IfOk, IfSome, IsSome, codes, count_by};
ghost use Rattle.std.specs.Str.{bytes_eq};
ghost use Rattle.clap.specs.Words.{found_of, rows_of};
ghost use Rattle.command_lines.specs.Asked.{HoldsNames, IsValid};
ghost use Rattle.command_lines.specs.BatchWords.{GivesFiles, GivesNames, HasInputs, HoldsBatch, IsRightCertify, IsRightInfo, batch_name, names_in};
ghost use Rattle.command_lines.specs.CommandLine.{AreRightArguments, certify_app};
ghost use Rattle.command_lines.specs.Dimensions.{HasTaskDimensions};

use crate::arguments::{dimensions_of, flag_of, name_of};
use crate::asked::{Asked, BatchTask, STANDARD_INPUT};
use crate::rule_words::rules_of;
use clap::ArgMatches;
use std::alloc::{AllocError, Global};

/// The names and the rules of `info`, if they are right.
pub(crate) fn asked_info<'a>(
    alloc: Global,
    given: &ArgMatches<'a>,
) -> Result<Option<Asked<'a>>, AllocError>
    ensures valid { IfOk result (λ asked. IfSome asked IsValid) }
    ensures gives { IfOk result (λ asked. IfSome asked (HoldsNames (codes "info") (rows_of (found_of given.now)))) }
    ensures taken { IfOk result (λ asked. IsRightInfo (rows_of (found_of given.now)) → IsSome asked) }
{
    let Ok(rules) = rules_of(given) else {
        return Ok(None);
    };
    let Some(names) = names_of(alloc, given, 1)? else {
        return Ok(None);
    };
    let task = BatchTask::Info { rules };
    Ok(Some(Asked::Batch { names, task }))
}

/// The names and the other arguments of `certify`, if they are right.
pub(crate) fn asked_certify<'a>(
    alloc: Global,
    given: &ArgMatches<'a>,
) -> Result<Option<Asked<'a>>, AllocError>
    ensures valid { IfOk result (λ asked. IfSome asked IsValid) }
    ensures gives { IfOk result (λ asked. IfSome asked (HoldsNames (codes "certify") (rows_of (found_of given.now)))) }
    ensures taken { IfOk result (λ asked. IsRightCertify (rows_of (found_of given.now)) → IsSome asked) }
{
    let Some(task) = certify_of(given) else {
        return Ok(None);
    };
    let Some(names) = names_of(alloc, given, 0)? else {
        return Ok(None);
    };
    Ok(Some(Asked::Batch { names, task }))
}

/// The arguments of `certify` beside the names, if they are right.
fn certify_of<'a>(given: &ArgMatches<'a>) -> Option<BatchTask<'a>>
    ensures certifies { IfSome result (λ task. batch_name task ≡ codes "certify") }
    ensures dimensions { IfSome result HasTaskDimensions }
    ensures gives { IfSome result (HoldsBatch (rows_of (found_of given.now))) }
    ensures taken { AreRightArguments certify_app.top (rows_of (found_of given.now)) → IsSome result }
{
    let Ok(rules) = rules_of(given) else {
        return None;
    };
    let Some((width, height)) = dimensions_of(given) else {
        return None;
    };
    let Some(folder) = name_of(given, "DIR") else {
        return None;
    };
    Some(BatchTask::Certify {
        rules,
        width,
        height,
        folder,
        replace: flag_of(given, "replace"),
    })
}

/// The files' names, if at most so many of them are the word for standard input.
fn names_of<'a>(
    alloc: Global,
    given: &ArgMatches<'a>,
    most: usize,
) -> Result<Option<Vec<&'a str>>, AllocError>
    ensures given { IfOk result (λ found. IfSome found (λ names. GivesFiles (rows_of (found_of given.now)) (names_in names.items))) }
    ensures inputs { IfOk result (λ found. IfSome found (λ names. HasInputs most (names_in names.items))) }
    ensures taken { IfOk result (λ found. GivesNames (rows_of (found_of given.now)) (HasInputs most) → IsSome found) }
{
    let Some(names) = given.get_strs("FILE") else {
        return Ok(None);
    };
    if inputs_in(names) > most {
        return Ok(None);
    }
    Ok(Some(names.to_vec(alloc)?))
}

/// How many of the names are the word for standard input.
fn inputs_in(names: &[&str]) -> usize
    ensures { result ≡ count_by (λ name. bytes_eq name (codes "stdin")) (names_in names.now) }
{
    names.iter().filter(|name| **name == STANDARD_INPUT).count()
}
