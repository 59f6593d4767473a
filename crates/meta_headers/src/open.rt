//! Opening a file by its first bytes.

ghost use Rattle.std.specs.Prelude.{◌≡◌, IfOk, IfErr};
ghost use Rattle.draw_ops.specs.Fault.{IsInRecord};
ghost use Rattle.draw_ops.specs.Results.{result_map};
ghost use Rattle.meta_headers.specs.OpeningRules.{opened_by};
ghost use Rattle.meta_headers.specs.Headers.{is_too_long};
ghost use Rattle.meta_headers.specs.OpenedOf.{opened_of};
ghost use Rattle.meta_headers.specs.Opening.{opened, record_bytes};

use crate::emf_header::{is_emf, open_emf};
use crate::opened::Opened;
use crate::placeable_header::{is_placeable, open_placeable};
use crate::plain_header::{is_plain, open_plain};
use draw_ops::{Fault, Rules};

/// The longest file, in bytes.
const FILE_LIMIT: usize = 67108864;

/// Opens a file, or returns the first fault of its headers: `TooLong`, `NotMetafile`, `ShortHeader`, `BadHeader` or
/// `NoFrame`.
#[tactic(auto, unfolding(crate::specs::Opening::opened))]
pub fn open_file(file: &[u8]) -> Result<Opened<'_>, Fault>
    ensures opened { opened file.entry.now ≡ result_map opened_of result }
    ensures records { IfOk result (λ o. o.records.now ≡ record_bytes o.format file.entry.now) }
    ensures in_no_record { IfErr result (λ fault. IsInRecord fault → ⊥) }
    ensures no_memory { IfErr result (λ fault. fault ≡ Fault.OutOfMemory → ⊥) }
{
    if is_too_long(file) {
        return Err(Fault::TooLong);
    }
    if is_placeable(file) {
        return open_placeable(file);
    }
    if is_emf(file) {
        return open_emf(file);
    }
    if is_plain(file) {
        return open_plain(file);
    }
    Err(Fault::NotMetafile)
}

/// Opens a file under these rules. The faults are the same under all.
pub fn open_file_by(rules: Rules, file: &[u8]) -> Result<Opened<'_>, Fault>
    ensures opened { opened_by rules file.entry.now ≡ result_map opened_of result }
    ensures records { IfOk result (λ o. o.records.now ≡ record_bytes o.format file.entry.now) }
    ensures in_no_record { IfErr result (λ fault. IsInRecord fault → ⊥) }
    ensures no_memory { IfErr result (λ fault. fault ≡ Fault.OutOfMemory → ⊥) }
{
    match open_file(file) {
        Ok(opened) => Ok(opened.by(rules)),
        Err(fault) => Err(fault),
    }
}

/// Whether the file is longer than 67,108,864 bytes.
#[tactic(auto, unfolding(crate::specs::Headers::file_limit))]
fn is_too_long(file: &[u8]) -> bool
    ensures { result ≡ is_too_long file.now }
{
    file.len() > FILE_LIMIT
}
