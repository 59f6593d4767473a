//! The command line, as declared to `clap`.

ghost use Rattle.std.specs.Prelude.{◌≡◌, IfOk};
ghost use Rattle.clap.specs.Words.{app_of};
ghost use Rattle.command_lines.specs.CommandLine.{certify_app, check_app, file_app, info_app, list_app, metaplay_app, over_app, play_app, prepare_app, show_app};
ghost use Rattle.command_lines.specs.Apps.{AddsDimensions, AddsRules, IsLocalApp};

use crate::declared_arguments::{allow, bands, files, fit, folder, name, profile, replace, side};
use clap::Command;
use std::alloc::{AllocError, Global};

/// The text above the list of commands in the help.
const ABOUT: &str = "Checks Windows metafiles (WMF, EMF) and plays them on a pixel surface.

The sender of a metafile prepares a certificate for it once; the receiver checks
both. If they are accepted, playing the file on any surface within the
certificate's bound misuses no object, overflows nowhere, and writes at most the
certified number of pixels.";

/// The text below the options in the help.
const GUIDE: &str = "Examples:
  metaplay show drawing.wmf 400 300 --fit > drawing.ppm
  metaplay prepare drawing.wmf 4096 4096 drawing.cert --profile print
  metaplay check drawing.wmf drawing.cert
  metaplay play drawing.wmf drawing.cert 400 300 > drawing.ppm
  metaplay over drawing.wmf drawing.cert page.ppm > printed.ppm
  metaplay list drawing.wmf
  metaplay info drawing.wmf other.emf
  metaplay certify --out-dir certs 4096 4096 drawing.wmf other.emf
  metaplay --version

FILE may be the word stdin, for standard input, but not for certify. Images are
P6 (ppm(5)). What check, info and certify write about a file is one line of JSON.
--version, or -V, prints the version and a checksum of the sources.

Exit status:
  0  done
  1  the file, the certificate or the image was rejected, or the surface is
     larger than the bound; or the records that list printed don't end properly;
     or a file of info doesn't play, or one of certify is rejected
  2  wrong usage, or help
  3  an input or an output failed, or an input is longer than 268,435,456 bytes
  4  out of memory

The fault is on standard error; check, list, info and certify print it on
standard output. FAULTS.md explains each fault and what to do about it.";

/// The program's command line.
pub(crate) fn metaplay<'a>(alloc: Global) -> Result<Command<'a>, AllocError>
    ensures { IfOk result (λ command. app_of command ≡ metaplay_app) }
{
    let show = show(alloc)?;
    let prepare = prepare(alloc)?;
    let check = check(alloc)?;
    let play = play(alloc)?;
    let over = over(alloc)?;
    let list = list(alloc)?;
    let info = info(alloc)?;
    let certify = certify(alloc)?;
    Command::new(alloc, "metaplay")
        .bin_name("metaplay")?
        .about(ABOUT)
        .after_help(GUIDE)
        .subcommand_required(true)
        .subcommand(show)?
        .subcommand(prepare)?
        .subcommand(check)?
        .subcommand(play)?
        .subcommand(over)?
        .subcommand(list)?
        .subcommand(info)?
        .subcommand(certify)
}

/// The command with this name by itself, or else the whole command line: an error of it shows its usage.
pub(crate) fn command_named<'a>(alloc: Global, name: &str) -> Result<Command<'a>, AllocError> {
    if name == "show" {
        return show(alloc)?.bin_name("metaplay show");
    }
    if name == "prepare" {
        return prepare(alloc)?.bin_name("metaplay prepare");
    }
    if name == "list" {
        return list(alloc)?.bin_name("metaplay list");
    }
    if name == "info" {
        return info(alloc)?.bin_name("metaplay info");
    }
    if name == "certify" {
        return certify(alloc)?.bin_name("metaplay certify");
    }
    metaplay(alloc)
}

/// The command `show`.
fn show<'a>(alloc: Global) -> Result<Command<'a>, AllocError>
    ensures { IfOk result (IsLocalApp show_app) }
{
    let about = "Plays a metafile on white and writes the image to standard output";
    let command = of_file(alloc, "show", about)?;
    let command = with_dimensions(alloc, command)?;
    let command = command.arg(fit(alloc))?;
    with_rules(alloc, command)
}

/// The command `prepare`.
fn prepare<'a>(alloc: Global) -> Result<Command<'a>, AllocError>
    ensures { IfOk result (IsLocalApp prepare_app) }
{
    let about = "Makes a certificate for a metafile, for surfaces of at most W by H";
    let command = of_file(alloc, "prepare", about)?;
    let command = with_dimensions(alloc, command)?;
    let command = command.arg(name(alloc, "OUT", "The file to write the certificate to"))?;
    with_rules(alloc, command)
}

/// The command `check`.
fn check<'a>(alloc: Global) -> Result<Command<'a>, AllocError>
    ensures { IfOk result (IsLocalApp check_app) }
{
    let about = "Checks a metafile and its certificate and writes a report in JSON";
    let command = of_file(alloc, "check", about)?;
    command.arg(name(alloc, "CERT", "The certificate"))
}

/// The command `play`.
fn play<'a>(alloc: Global) -> Result<Command<'a>, AllocError>
    ensures { IfOk result (IsLocalApp play_app) }
{
    let about = "Plays a metafile by its certificate on white and writes the image";
    let command = of_file(alloc, "play", about)?;
    let command = command.arg(name(alloc, "CERT", "The certificate"))?;
    let command = with_dimensions(alloc, command)?;
    let command = command.arg(bands(alloc))?;
    command.arg(fit(alloc))
}

/// The command `over`.
fn over<'a>(alloc: Global) -> Result<Command<'a>, AllocError>
    ensures { IfOk result (IsLocalApp over_app) }
{
    let about = "Plays a metafile by its certificate over an image; writes the result";
    let command = of_file(alloc, "over", about)?;
    let command = command.arg(name(alloc, "CERT", "The certificate"))?;
    command.arg(name(
        alloc,
        "IMAGE",
        "A P6 image (ppm(5)); the surface has its size",
    ))
}

/// The command `list`.
fn list<'a>(alloc: Global) -> Result<Command<'a>, AllocError>
    ensures { IfOk result (IsLocalApp list_app) }
{
    let about = "Writes one line for each record of a metafile";
    let command = of_file(alloc, "list", about)?;
    with_rules(alloc, command)
}

/// The command `info`.
fn info<'a>(alloc: Global) -> Result<Command<'a>, AllocError>
    ensures { IfOk result (IsLocalApp info_app) }
{
    let command = Command::new(alloc, "info")
        .about("Writes one line of JSON about each metafile")
        .arg(files(alloc, "The metafiles; one may be the word stdin"))?;
    with_rules(alloc, command)
}

/// The command `certify`.
fn certify<'a>(alloc: Global) -> Result<Command<'a>, AllocError>
    ensures { IfOk result (IsLocalApp certify_app) }
{
    let command = Command::new(alloc, "certify").about(
        "Writes a certificate for each metafile into a folder",
    );
    let command = with_dimensions(alloc, command)?;
    let command = command
        .arg(files(alloc, "The metafiles"))?
        .arg(folder(alloc))?
        .arg(replace(alloc))?;
    with_rules(alloc, command)
}

/// A command with a metafile.
fn of_file<'a>(alloc: Global, command: &'a str, about: &'a str) -> Result<Command<'a>, AllocError>
    ensures { IfOk result (IsLocalApp (file_app command.entry.now)) }
{
    let help = "The metafile, or the word stdin for standard input";
    Command::new(alloc, command)
        .about(about)
        .arg(name(alloc, "FILE", help))
}

/// Adds the width and height of a surface to a command.
fn with_dimensions<'a>(alloc: Global, command: Command<'a>) -> Result<Command<'a>, AllocError>
    ensures { IfOk result (AddsDimensions command.entry) }
{
    command
        .arg(side(alloc, "W", "The width of the surface in pixels"))?
        .arg(side(alloc, "H", "The height of the surface in pixels"))
}

/// Adds the options for the rules to a command.
fn with_rules<'a>(alloc: Global, command: Command<'a>) -> Result<Command<'a>, AllocError>
    ensures { IfOk result (AddsRules command.entry) }
{
    command.arg(profile(alloc))?.arg(allow(alloc))
}
