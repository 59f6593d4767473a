//! The entries of a certificate, read in place.

ghost use Rattle.std.specs.Prelude.{◌≡◌, ◌+◌, ◌<◌, ◌≤◌, ◌%◌, ◌∷◌, ◌↔◌, [], length, IsNone, IsTrue, IfSome, Some, slice_get};
ghost use Rattle.preflight_cert.specs.CertificateReading.{entry_size, first_entry, nib_in};
ghost use Rattle.preflight_cert.specs.WideNibs.{have_wide_nib, is_wide};

use crate::version::Version;
use mapping::{Nib, Rect};
use point_views::{i32_at, u16_at, u32_at};

/// An entry of a certificate: the number of a record that draws, a box of the plane that contains the points of its
/// drawing (right and bottom are inclusive), and a nib that is at least as large as the drawing's at the certificate's
/// bound.
#[derive(Clone, Copy, Debug, PartialEq, Eq)]
pub struct Entry {
    pub number: u32,
    pub bounds: Rect,
    pub nib: Nib,
}

/// Consecutive entries in a certificate's bytes.
///
/// # Guarantees
///
/// - `bytes` contains the entries and nothing else, so two views of the same version are equal exactly if their bytes
///   are.
#[derive(Clone, Copy, Debug, PartialEq, Eq)]
pub struct Entries<'a> {
    /// The entries' bytes.
    pub bytes: &'a [u8],
    pub version: Version,
    pub ghost whole: { length bytes.now % entry_size version ≡ 0 },
}

#[tactic(auto, using(crate::proofs::EntryLemmas::entries))]
impl<'a> Entries<'a> {
    ghost use Rattle.preflight_cert.specs.EntriesOf.{entries_of};

    /// The number of entries.
    pub fn len(self) -> usize
        ensures { result ≡ length (entries_of self.entry) }
    {
        self.bytes.len() / self.version.entry_size()
    }

    /// Whether there is no entry.
    pub fn is_empty(self) -> bool
        ensures { IsTrue result ↔ (entries_of self.entry ≡ []) }
    {
        self.len() == 0
    }

    /// The entry at an index.
    pub(crate) fn get(self, i: usize) -> Entry
        requires { i < length (entries_of self) }
        ensures { slice_get (entries_of self.entry) i ≡ Some result }
    {
        first_entry(self.version, &self.bytes[self.version.entry_size() * i..])
    }

    /// The first entry, and the entries after it. `None` exactly if there is no entry.
    pub fn split_first(self) -> Option<(Entry, Entries<'a>)>
        ensures none { IsNone result ↔ (entries_of self.entry ≡ []) }
        ensures entries { IfSome result (λ split. entries_of self.entry ≡ split.0 ∷ entries_of split.1) }
    {
        let size = self.version.entry_size();
        if self.bytes.len() < size {
            return None;
        }
        let rest = Entries {
            bytes: &self.bytes[size..],
            version: self.version,
        };
        Some((first_entry(self.version, self.bytes), rest))
    }

    /// Whether an entry has a nib of more than one pixel.
    pub(crate) fn have_wide_nib(self) -> bool
        ensures { result ≡ have_wide_nib (entries_of self.entry) }
    {
        match self.version {
            Version::Mpc1 => false,
            Version::Mpc2 => self.find_wide_nib(),
        }
    }

    /// The same, entry by entry.
    fn find_wide_nib(self) -> bool
        ensures { result ≡ have_wide_nib (entries_of self.entry) }
    {
        let mut left = self;
        while let Some((entry, rest)) = left.split_first() {
            if is_wide(entry.nib) {
                return true;
            }
            left = rest;
        }
        false
    }
}

/// Whether a nib has more than one column or row.
fn is_wide(nib: Nib) -> bool
    ensures { result ≡ is_wide nib }
{
    nib.x > 1 || nib.y > 1
}

/// The entry in the first bytes.
fn first_entry(version: Version, bytes: &[u8]) -> Entry
    requires { entry_size version ≤ length bytes.now }
    ensures { result ≡ first_entry version bytes.now }
{
    Entry {
        number: u32_at(bytes, 0),
        bounds: Rect {
            l: i32_at(bytes, 4),
            t: i32_at(bytes, 8),
            r: i32_at(bytes, 12),
            b: i32_at(bytes, 16),
        },
        nib: nib_in(version, bytes),
    }
}

/// The nib in an entry's bytes.
fn nib_in(version: Version, bytes: &[u8]) -> Nib
    requires { entry_size version ≤ length bytes.now }
    ensures { result ≡ nib_in version bytes.now }
{
    match version {
        Version::Mpc1 => Nib::ONE,
        Version::Mpc2 => Nib {
            x: u16_at(bytes, 20),
            y: u16_at(bytes, 22),
        },
    }
}
