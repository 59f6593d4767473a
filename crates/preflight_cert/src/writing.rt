//! Writing the text of a certificate.

ghost use Rattle.std.specs.Prelude.{◌≡◌, ◌++◌, [], ◌∷◌, IfOk, OnOk};
ghost use Rattle.std.specs.Int.{cast_unsigned, to_le_bytes, w16, w32, w64};
ghost use Rattle.preflight_cert.specs.CertificateText.{entry_text, needs_text, nib_text, number_text};
ghost use Rattle.preflight_cert.specs.TextParts.{bound_text, head_text, head_value, signature_numbers, totals_text};

use crate::certificate_entry::Entry;
use crate::certificate_reading::{PRINT_HEAD_SIZE, PRINT_SIGNATURE};
use crate::version::Version;
use byteorder::{ByteOrder, LittleEndian};
use dc_stack::Needs;
use draw_ops::Rules;
use mapping::{Nib, Rect};
use span_fill::OutOfMemory;
use std::alloc::Global;

/// The most bytes to reserve at once.
const MOST_CAPACITY: usize = 1 << 20;

/// Appends a number in four bytes.
pub(crate) fn put_number(text: &mut Vec<u8>, number: u32) -> Result<(), OutOfMemory>
    ensures { OnOk result (text.new.items ≡ text.old.items ++ number_text number) }
{
    match text.extend_from_slice(&number.to_le_bytes()) {
        Ok(()) => Ok(()),
        Err(_) => Err(OutOfMemory),
    }
}

/// Appends a number in eight bytes.
pub(crate) fn put_long(text: &mut Vec<u8>, number: u64) -> Result<(), OutOfMemory>
    ensures { OnOk result (text.new.items ≡ text.old.items ++ to_le_bytes w64 number) }
{
    match text.extend_from_slice(&number.to_le_bytes()) {
        Ok(()) => Ok(()),
        Err(_) => Err(OutOfMemory),
    }
}

/// Appends a number in two bytes.
fn put_short(text: &mut Vec<u8>, number: u16) -> Result<(), OutOfMemory>
    ensures { OnOk result (text.new.items ≡ text.old.items ++ to_le_bytes w16 number) }
{
    match text.extend_from_slice(&number.to_le_bytes()) {
        Ok(()) => Ok(()),
        Err(_) => Err(OutOfMemory),
    }
}

/// Appends a nib, if entries have one.
fn put_nib(text: &mut Vec<u8>, version: Version, nib: Nib) -> Result<(), OutOfMemory>
    ensures { OnOk result (text.new.items ≡ text.old.items ++ nib_text version nib) }
{
    match version {
        Version::Mpc1 => Ok(()),
        Version::Mpc2 => {
            put_short(text, nib.x)?;
            put_short(text, nib.y)
        }
    }
}

/// A record's number and the edges of its box, all as unsigned numbers.
fn numbers(number: u32, bounds: Rect) -> [u32; 5]
    ensures { result ≡ number ∷ cast_unsigned w32 bounds.l ∷ cast_unsigned w32 bounds.t ∷ cast_unsigned w32 bounds.r ∷ cast_unsigned w32 bounds.b ∷ [] }
{
    [
        number,
        bounds.l.cast_unsigned(),
        bounds.t.cast_unsigned(),
        bounds.r.cast_unsigned(),
        bounds.b.cast_unsigned(),
    ]
}

/// Reserves memory for an entry if needed: as much again as there is, but at most 1 MiB, so that little of it stays
/// unused.
fn ensure_capacity(text: &mut Vec<u8>) -> Result<(), OutOfMemory>
    ensures { OnOk result (text.new.items ≡ text.old.items) }
{
    if 24 <= text.capacity() - text.len() {
        return Ok(());
    }
    match text.reserve_exact(text.len().min(MOST_CAPACITY)) {
        Ok(()) => Ok(()),
        Err(_) => Err(OutOfMemory),
    }
}

/// Appends an entry: its five numbers at once, followed by its nib.
pub(crate) fn put_entry(
    text: &mut Vec<u8>,
    version: Version,
    entry: Entry,
) -> Result<(), OutOfMemory>
    ensures { OnOk result (text.new.items ≡ text.old.items ++ entry_text version entry) }
{
    ensure_capacity(text)?;
    let mut bytes = [0; 20];
    LittleEndian::write_u32_into(&numbers(entry.number, entry.bounds), &mut bytes);
    match text.extend_from_slice(&bytes) {
        Ok(()) => put_nib(text, version, entry.nib),
        Err(_) => Err(OutOfMemory),
    }
}

/// Appends needs.
fn put_needs(text: &mut Vec<u8>, needs: Needs) -> Result<(), OutOfMemory>
    ensures { OnOk result (text.new.items ≡ text.old.items ++ needs_text needs []) }
{
    put_number(text, needs.depth)?;
    put_number(text, needs.slots)?;
    put_number(text, needs.edges)?;
    put_number(text, needs.pieces)
}

/// The contents of a certificate before its entries.
#[derive(Clone, Copy, Debug, PartialEq, Eq)]
pub struct Head {
    pub max_width: u32,
    pub max_height: u32,
    pub writes: u64,
    pub needs: Needs,
}

/// Appends the signature, and under the print profile what is allowed.
#[tactic(auto, unfolding(crate::specs::CertificateReading::print_signature))]
fn put_signature(text: &mut Vec<u8>, rules: Rules, version: Version) -> Result<(), OutOfMemory>
    ensures { OnOk result (text.new.items ≡ text.old.items ++ signature_numbers rules version) }
{
    if rules.is_print() {
        put_number(text, PRINT_SIGNATURE)?;
        put_number(text, rules.allowed.bits())
    } else {
        put_number(text, version.signature())
    }
}

/// Appends the signature, the width and the height.
fn put_bound(
    text: &mut Vec<u8>,
    rules: Rules,
    version: Version,
    max_width: u32,
    max_height: u32,
) -> Result<(), OutOfMemory>
    ensures { OnOk result (text.new.items ≡ text.old.items ++ bound_text rules version max_width max_height) }
{
    put_signature(text, rules, version)?;
    put_number(text, max_width)?;
    put_number(text, max_height)
}

/// Appends needs, and the count of entries.
fn put_counts(text: &mut Vec<u8>, needs: Needs, count: u32) -> Result<(), OutOfMemory>
    ensures { OnOk result (text.new.items ≡ text.old.items ++ (needs_text needs [] ++ number_text count)) }
{
    put_needs(text, needs)?;
    put_number(text, count)
}

/// Appends the writes, the needs, and the count of entries.
fn put_totals(text: &mut Vec<u8>, writes: u64, needs: Needs, count: u32) -> Result<(), OutOfMemory>
    ensures { OnOk result (text.new.items ≡ text.old.items ++ totals_text writes needs count) }
{
    put_long(text, writes)?;
    put_counts(text, needs, count)
}

/// The contents of a certificate under rules, of this version and with this many entries, before the entries.
pub(crate) fn head_text(
    alloc: Global,
    rules: Rules,
    version: Version,
    head: Head,
    count: u32,
) -> Result<Vec<u8>, OutOfMemory>
    ensures { IfOk result (λ text. text.items ≡ head_text rules version (head_value head) count) }
{
    let Ok(mut text) = Vec::with_capacity(alloc, PRINT_HEAD_SIZE) else {
        return Err(OutOfMemory);
    };
    put_bound(&mut text, rules, version, head.max_width, head.max_height)?;
    put_totals(&mut text, head.writes, head.needs, count)?;
    Ok(text)
}
