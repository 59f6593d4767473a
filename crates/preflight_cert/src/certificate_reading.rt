//! The parts of a certificate's bytes.

ghost use Rattle.std.specs.Prelude.{◌≡◌, ◌<◌, ◌≤◌, ◌+◌, ◌*◌, length, IfErr, IfOk, IsTrue, Some, nat_le};
ghost use Rattle.mapping.specs.Limits.{IsSurfaceSide, is_surface_side};
ghost use Rattle.point_views.specs.Numbers.{number_at};
ghost use Rattle.draw_ops.specs.Fault.{IsInRecord};
ghost use Rattle.draw_ops.specs.Results.{result_map};
ghost use Rattle.dc_stack.specs.Drawing.{edge_limit};
ghost use Rattle.dc_stack.specs.Path.{piece_limit};
ghost use Rattle.preflight_cert.specs.CertificateOf.{certificate_of};
ghost use Rattle.preflight_cert.specs.EntriesOf.{entries_of};
ghost use Rattle.preflight_cert.specs.CertificateReading.{are_bounded_needs, count_in, entry_limit, entry_size, have_nibs, head_size, is_bounded, needs_in, read_version, read_whole};

use crate::certificate::Certificate;
use crate::certificate_entry::Entries;
use crate::version::Version;
use byteorder::{ByteOrder, LittleEndian};
use dc_stack::{MAX_PIECES, MAX_SAVED_STATES, Needs};
use draw_ops::{Fault, Rules};
use mapping::MAX_SURFACE_SIDE;
use point_views::u32_at;

/// The number of bytes before the entries.
pub(crate) const HEAD_SIZE: usize = 40;

/// The number of bytes of a signature.
pub(crate) const SIGNATURE_SIZE: usize = 4;

/// The number of bytes before the entries of a certificate of the print profile.
pub(crate) const PRINT_HEAD_SIZE: usize = SIGNATURE_SIZE + HEAD_SIZE;

/// The signature of a certificate of the print profile, `MPC3`, as a number.
pub(crate) const PRINT_SIGNATURE: u32 = 0x3343_504d;

/// The most slots of objects in a certificate.
const MAX_NEEDED_SLOTS: u32 = 65_535;

/// The most points of one drawing in a certificate.
const MAX_NEEDED_EDGES: u32 = 1_048_576;

/// The most entries of a certificate.
const MAX_ENTRIES: u32 = 1_048_576;

/// Whether the numbers before the entries are within their limits.
pub(crate) fn is_bounded(bytes: &[u8]) -> bool
    requires { head_size ≤ length bytes.now }
    ensures test { result ≡ is_bounded bytes.now }
    ensures wide { IsTrue result → IsSurfaceSide (number_at bytes.now 4 4) }
    ensures high { IsTrue result → IsSurfaceSide (number_at bytes.now 8 4) }
{
    is_side(u32_at(bytes, 4))
        && is_side(u32_at(bytes, 8))
        && are_bounded_needs(needs_in(bytes))
        && has_few_entries(bytes)
}

/// Whether needs are within their limits.
fn are_bounded_needs(needs: Needs) -> bool
    ensures { result ≡ are_bounded_needs needs }
{
    needs.depth as usize <= MAX_SAVED_STATES
        && needs.slots <= MAX_NEEDED_SLOTS
        && are_few_edges(needs.edges)
        && are_few_pieces(needs.pieces)
}

/// Whether the number of points of one drawing is within its limit.
fn are_few_edges(edges: u32) -> bool
    ensures { result ≡ nat_le edges edge_limit }
{
    edges <= MAX_NEEDED_EDGES
}

/// Whether the number of pieces of a path is within its limit.
fn are_few_pieces(pieces: u32) -> bool
    ensures { result ≡ nat_le pieces piece_limit }
{
    pieces as usize <= MAX_PIECES
}

/// Whether the number of entries is within its limit.
#[tactic(auto, unfolding(crate::specs::CertificateReading::entry_limit))]
fn has_few_entries(bytes: &[u8]) -> bool
    requires { head_size ≤ length bytes.now }
    ensures { result ≡ nat_le (count_in bytes.now) entry_limit }
{
    u32_at(bytes, 36) <= MAX_ENTRIES
}

/// Whether a surface may have this width or height.
pub(crate) fn is_side(side: u32) -> bool
    ensures test { result ≡ is_surface_side side }
    ensures fact { IsTrue result → IsSurfaceSide side }
{
    1 <= side && side <= MAX_SURFACE_SIDE
}

/// The contents of a certificate of this version, or the first fault of the bytes after its signature.
pub(crate) fn read_version(
    version: Version,
    rules: Rules,
    bytes: &[u8],
) -> Result<Certificate<'_>, Fault>
    ensures value { read_version (Some version) bytes.now ≡ result_map certificate_of result }
    ensures rules { IfOk result (λ c. c.rules ≡ rules) }
    ensures in_no_record { IfErr result (λ fault. IsInRecord fault → ⊥) }
    ensures no_memory { IfErr result (λ fault. fault ≡ Fault.OutOfMemory → ⊥) }
{
    if bytes.len() < HEAD_SIZE {
        return Err(Fault::ShortCertificate);
    }
    if !is_bounded(bytes) {
        return Err(Fault::BadBound);
    }
    read_whole(version, rules, bytes)
}

/// The contents of a certificate, if its bytes end where the entries do and the entries' nibs are within their limits.
fn read_whole(version: Version, rules: Rules, bytes: &[u8]) -> Result<Certificate<'_>, Fault>
    requires head { head_size ≤ length bytes.now }
    requires wide { IsSurfaceSide (number_at bytes.now 4 4) }
    requires high { IsSurfaceSide (number_at bytes.now 8 4) }
    ensures value { read_whole version bytes.now ≡ result_map certificate_of result }
    ensures rules { IfOk result (λ c. c.rules ≡ rules) }
    ensures in_no_record { IfErr result (λ fault. IsInRecord fault → ⊥) }
    ensures no_memory { IfErr result (λ fault. fault ≡ Fault.OutOfMemory → ⊥) }
{
    let end = HEAD_SIZE + entries_size(version, u32_at(bytes, 36));
    if bytes.len() < end {
        return Err(Fault::ShortCertificate);
    }
    if end < bytes.len() {
        return Err(Fault::TrailingBytes);
    }
    let entries = Entries {
        bytes: &bytes[HEAD_SIZE..],
        version,
    };
    if !have_nibs(entries) {
        return Err(Fault::BadBound);
    }
    Ok(Certificate {
        rules,
        max_width: u32_at(bytes, 4),
        max_height: u32_at(bytes, 8),
        writes: u64_at(bytes, 12),
        needs: needs_in(bytes),
        entries,
    })
}

/// The number of bytes in this many entries.
fn entries_size(version: Version, count: u32) -> usize
    ensures product { result ≡ entry_size version * count }
    ensures few { result < 281474976710656 }
{
    version.entry_size() * count as usize
}

/// Whether each entry's nib is within its limits.
fn have_nibs(entries: Entries<'_>) -> bool
    ensures { result ≡ have_nibs (entries_of entries.entry) }
{
    match entries.version {
        Version::Mpc1 => true,
        Version::Mpc2 => are_nibs(entries),
    }
}

/// The same, entry by entry.
fn are_nibs(entries: Entries<'_>) -> bool
    ensures { result ≡ have_nibs (entries_of entries.entry) }
{
    let mut left = entries;
    while let Some((entry, rest)) = left.split_first() {
        if !entry.nib.is_allowed() {
            return false;
        }
        left = rest;
    }
    true
}

/// The needs.
fn needs_in(bytes: &[u8]) -> Needs
    requires { head_size ≤ length bytes.now }
    ensures { result ≡ needs_in bytes.now }
{
    Needs {
        depth: u32_at(bytes, 20),
        slots: u32_at(bytes, 24),
        edges: u32_at(bytes, 28),
        pieces: u32_at(bytes, 32),
    }
}

/// The number of eight bytes at an offset.
fn u64_at(bytes: &[u8], place: usize) -> u64
    requires { place + 8 ≤ length bytes.now }
    ensures { result ≡ number_at bytes.now place 8 }
{
    LittleEndian::read_u64(&bytes[place..])
}
