//! The certificate of one of several files.

ghost use Rattle.std.specs.Prelude.{◌≡◌, ◌≢◌, IfOk};
ghost use Rattle.commands.specs.Certifying.{HasSides, IsLineFor, IsPlace, IsRefusalFor, StoresIfDone};

use crate::certificate_path::certificate_path;
use crate::certified::{certified_line, kept_line};
use crate::certify_report::{LineFiles, digest_text, failed_text, rejected_text};
use crate::certifying::{Certifying, Place};
use crate::command_end::CommandEnd;
use crate::file_line::FileLine;
use crate::plain_file::{PlainFault, read_plain};
use crate::preparing::prepare_file;
use crate::storing::{Store, StoreFault, how_to_store, store_text};
use draw_ops::Fault;
use preflight_cert::Refusal;
use std::alloc::{AllocError, Global};
use std::rt::Files;

/// Reads a file, and makes the line about its certificate, which is kept, stored or missing. An error is returned only
/// if there is no memory for a line.
pub(crate) fn certify_line<R: Files + AllocGlobal>(
    rt: &R,
    asked: Certifying<'_>,
    name: &str,
) -> Result<FileLine, AllocError>
    requires sides { HasSides asked }
    ensures { IfOk result (IsLineFor asked.entry name.now) }
{
    match line_of_name(rt, asked, name) {
        Ok(line) => Ok(line),
        Err(fault) => Ok(FileLine {
            text: failed_text(rt.alloc(), name, None, None, fault.text())?,
            end: fault.end(),
        }),
    }
}

/// Reads a file, and makes the line about its certificate.
fn line_of_name<R: Files + AllocGlobal>(
    rt: &R,
    asked: Certifying<'_>,
    name: &str,
) -> Result<FileLine, PlainFault>
    requires sides { HasSides asked }
    ensures { IfOk result (IsLineFor asked.entry name.now) }
{
    let Some(path) = certificate_path(rt.alloc(), asked.folder, name)? else {
        return Err(PlainFault::NotPlain);
    };
    let file = read_plain(rt, name)?;
    let file_digest = digest_text(rt.alloc(), file.as_slice())?;
    let place = Place {
        name,
        path: path.as_str(),
        file: file.as_slice(),
        file_digest: file_digest.as_str(),
    };
    let line = line_of_file(rt, asked, place)?;
    Ok(line)
}

/// The line about a file that was read. A certificate that is there and is right is kept.
fn line_of_file<R: Files + AllocGlobal>(
    rt: &R,
    asked: Certifying<'_>,
    place: Place<'_>,
) -> Result<FileLine, AllocError>
    requires sides { HasSides asked }
    requires place { IsPlace asked place }
    ensures { IfOk result (IsLineFor asked.entry place.entry.name.now) }
{
    let store = how_to_store(rt, asked, place);
    if store != Store::New {
        if let Some(line) = kept_line(rt, asked, place)? {
            return Ok(line);
        }
    }
    prepared_line(rt, asked, place, store)
}

/// Prepares a file's certificate and stores it, and makes the line about it.
fn prepared_line<R: Files + AllocGlobal>(
    rt: &R,
    asked: Certifying<'_>,
    place: Place<'_>,
    store: Store,
) -> Result<FileLine, AllocError>
    requires sides { HasSides asked }
    requires place { IsPlace asked place }
    ensures line { IfOk result (IsLineFor asked.entry place.entry.name.now) }
    ensures stored { IfOk result (StoresIfDone R.File.contents asked.entry place.entry.file.now) }
{
    let alloc = rt.alloc();
    let prepared = match prepare_file(alloc, asked.rules, place.file, asked.width, asked.height) {
        Ok(prepared) => prepared,
        Err(refusal) => return rejected_line(alloc, asked, place, refusal),
    };
    let text = prepared.text.as_slice();
    match store_text(rt, place.path, text, store) {
        Ok(()) => certified_line(alloc, asked, place, text, &prepared.clear()),
        Err(fault) => unstored_line(alloc, asked, place, fault),
    }
}

/// The line about a file whose certificate can't be prepared.
fn rejected_line(
    alloc: Global,
    asked: Certifying<'_>,
    place: Place<'_>,
    refusal: Refusal,
) -> Result<FileLine, AllocError>
    requires place { IsPlace asked place }
    requires refusal { IsRefusalFor asked place.file.now refusal }
    ensures line { IfOk result (IsLineFor asked.entry place.entry.name.now) }
    ensures end { IfOk result (λ it. it.end ≡ CommandEnd.Rejected) }
{
    if refusal.fault == Fault::OutOfMemory {
        return Err(AllocError);
    }
    let files = LineFiles {
        name: place.name,
        path: None,
        certificate_digest: None,
        file_digest: Some(place.file_digest),
    };
    Ok(FileLine {
        text: rejected_text(alloc, files, place.file, refusal)?,
        end: CommandEnd::Rejected,
    })
}

/// The line about a file whose certificate isn't stored.
fn unstored_line(
    alloc: Global,
    asked: Certifying<'_>,
    place: Place<'_>,
    fault: StoreFault,
) -> Result<FileLine, AllocError>
    requires place { IsPlace asked place }
    ensures line { IfOk result (IsLineFor asked.entry place.entry.name.now) }
    ensures end { IfOk result (λ it. it.end ≢ CommandEnd.Done) }
{
    if fault == StoreFault::OutOfMemory {
        return Err(AllocError);
    }
    let digest = Some(place.file_digest);
    Ok(FileLine {
        text: failed_text(alloc, place.name, Some(place.path), digest, fault.text())?,
        end: CommandEnd::CannotStore,
    })
}
