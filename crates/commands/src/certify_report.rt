//! The lines of `certify`, as JSON.

ghost use Rattle.std.specs.Prelude.{◌≡◌, IfOk, OnOk, string_bytes};
ghost use Rattle.commands.specs.CertifyLines.{digest_text};
ghost use Rattle.commands.specs.CertifyReport.{PutsFiles, text_of_failure, text_of_members, text_of_refusal};
ghost use Rattle.commands.specs.ClearedFiles.{members_of};

use crate::check_report::{accepted_members, rejected_members};
use file_info::kind_name;
use meta_headers::FileFormat;
use preflight_cert::{Cleared, Refusal};
use report_parts::{put_text, put_text_if, report_text_of};
use serde_json::{Map, Value, put};
use sha2::{Digest, Sha256};
use std::alloc::{AllocError, Global};

/// What a line of `certify` says of files.
#[derive(Clone, Copy)]
pub(crate) struct LineFiles<'a> {
    /// The metafile's name.
    pub(crate) name: &'a str,
    /// The path of its certificate.
    pub(crate) path: Option<&'a str>,
    /// The digest of the certificate.
    pub(crate) certificate_digest: Option<&'a str>,
    /// The digest of the metafile.
    pub(crate) file_digest: Option<&'a str>,
}

/// The SHA-256 of bytes in hexadecimal digits.
pub(crate) fn digest_text(alloc: Global, bytes: &[u8]) -> Result<String, AllocError>
    ensures { IfOk result (λ text. string_bytes text ≡ digest_text bytes.now) }
{
    hex::encode(alloc, Sha256::digest(bytes))
}

/// The line about a file with an accepted certificate.
pub(crate) fn certified_text(
    alloc: Global,
    files: LineFiles<'_>,
    cleared: &Cleared<'_>,
) -> Result<Vec<u8>, AllocError>
    ensures { IfOk result (λ text. text.items ≡ text_of_members files.entry (members_of cleared.now)) }
{
    let mut members = accepted_members(alloc, cleared)?;
    put_files(&mut members, alloc, files, None)?;
    report_text_of(alloc, &Value::from(members))
}

/// The line about a rejected file with these bytes.
pub(crate) fn rejected_text(
    alloc: Global,
    files: LineFiles<'_>,
    file: &[u8],
    refusal: Refusal,
) -> Result<Vec<u8>, AllocError>
    ensures { IfOk result (λ text. text.items ≡ text_of_refusal files.entry file.now refusal) }
{
    let name = kind_name(FileFormat::of(file), refusal.fault.number());
    let mut members = rejected_members(alloc, refusal)?;
    put_text_if(&mut members, alloc, "record_name", name)?;
    put_files(&mut members, alloc, files, None)?;
    report_text_of(alloc, &Value::from(members))
}

/// The line about a file with neither a certificate nor a rejection.
pub(crate) fn failed_text(
    alloc: Global,
    name: &str,
    path: Option<&str>,
    file_digest: Option<&str>,
    error: &str,
) -> Result<Vec<u8>, AllocError>
    ensures { IfOk result (λ text. text.items ≡ text_of_failure name.now path.entry file_digest.entry error.now) }
{
    let files = LineFiles {
        name,
        path,
        certificate_digest: None,
        file_digest,
    };
    let mut members = Map::new(alloc);
    put(&mut members, alloc, "accepted", Value::Null)?;
    put_files(&mut members, alloc, files, Some(error))?;
    report_text_of(alloc, &Value::from(members))
}

/// Adds what the line says of files, and the error.
fn put_files(
    members: &mut Map<String, Value>,
    alloc: Global,
    files: LineFiles<'_>,
    error: Option<&str>,
) -> Result<(), AllocError>
    ensures { OnOk result (PutsFiles files.entry error.entry members.old.entries members.new.entries) }
{
    put_text_if(members, alloc, "file_sha256", files.file_digest)?;
    put_text(members, alloc, "file", files.name)?;
    put_text_if(members, alloc, "error", error)?;
    put_text_if(
        members,
        alloc,
        "certificate_sha256",
        files.certificate_digest,
    )?;
    put_text_if(members, alloc, "certificate", files.path)
}
