//! Certificates, read in place.

ghost use Rattle.std.specs.Prelude.{◌≡◌, ◌<◌, ◌↔◌, length, IfErr, IfOk, IsTrue, Some, slice_get, true};
ghost use Rattle.mapping.specs.Limits.{IsSurfaceSide};

use crate::certificate_entry::{Entries, Entry};
use crate::certificate_reading::{PRINT_HEAD_SIZE, PRINT_SIGNATURE, SIGNATURE_SIZE, read_version};
use crate::version::Version;
use dc_stack::Needs;
use draw_ops::{Allowances, Fault, Rules};
use point_views::u32_at;

/// A certificate of a file, for surfaces of at most this size: the most pixels that playing it writes, the memory that
/// it needs, and an entry for each of its drawings.
///
/// # Guarantees
///
/// - The width and the height are from 1 to 8,192.
#[derive(Clone, Copy, Debug, PartialEq, Eq)]
pub struct Certificate<'a> {
    /// The rules by which it was made.
    pub rules: Rules,
    pub max_width: u32,
    pub max_height: u32,
    pub writes: u64,
    pub needs: Needs,
    pub entries: Entries<'a>,
    pub ghost wide: { IsSurfaceSide max_width },
    pub ghost high: { IsSurfaceSide max_height },
}

impl<'a> Certificate<'a> {
    ghost use Rattle.draw_ops.specs.Fault.{IsInRecord};
    ghost use Rattle.draw_ops.specs.Results.{result_map};
    ghost use Rattle.preflight_cert.specs.CertificateOf.{certificate_of};
    ghost use Rattle.preflight_cert.specs.CertificateReading.{is_by_print, read_certificate, read_print, rules_in};
    ghost use Rattle.preflight_cert.specs.EntriesOf.{entries_of};
    ghost use Rattle.preflight_cert.specs.WideNibs.{HasWideNib};

    /// Reads a certificate, or returns the first fault of its bytes:
    ///
    /// - `NotCertificate` if they don't begin with the signature of a version;
    /// - `ShortCertificate` if numbers are missing;
    /// - `BadBound` if a number exceeds its limit, or the width or height is 0;
    /// - `ShortCertificate` if entries are missing;
    /// - `TrailingBytes` if bytes follow the entries;
    /// - `BadBound` if the width or height of a nib isn't from 1 to 4,096.
    #[tactic(auto, unfolding(crate::specs::CertificateReading::print_signature))]
    pub fn read(bytes: &'a [u8]) -> Result<Certificate<'a>, Fault>
        ensures value { read_certificate bytes.now ≡ result_map certificate_of result }
        ensures rules { IfOk result (λ c. c.rules ≡ rules_in bytes.now) }
        ensures in_no_record { IfErr result (λ fault. IsInRecord fault → ⊥) }
        ensures no_memory { IfErr result (λ fault. fault ≡ Fault.OutOfMemory → ⊥) }
    {
        if bytes.len() < 4 {
            return Err(Fault::NotCertificate);
        }
        if u32_at(bytes, 0) == PRINT_SIGNATURE {
            return Certificate::read_print(bytes);
        }
        match Version::of_signature(u32_at(bytes, 0)) {
            Some(version) => read_version(version, Rules::CORE, bytes),
            None => Err(Fault::NotCertificate),
        }
    }

    /// The same for a certificate of the print profile. Four bytes say what it allows.
    #[tactic(auto, unfolding(crate::specs::CertificateReading::print_signature))]
    fn read_print(bytes: &'a [u8]) -> Result<Certificate<'a>, Fault>
        requires { is_by_print bytes.now ≡ true }
        ensures value { read_print bytes.now ≡ result_map certificate_of result }
        ensures rules { IfOk result (λ c. c.rules ≡ rules_in bytes.now) }
        ensures in_no_record { IfErr result (λ fault. IsInRecord fault → ⊥) }
        ensures no_memory { IfErr result (λ fault. fault ≡ Fault.OutOfMemory → ⊥) }
    {
        if bytes.len() < PRINT_HEAD_SIZE {
            return Err(Fault::ShortCertificate);
        }
        let Some(allowed) = Allowances::from_bits(u32_at(bytes, 4)) else {
            return Err(Fault::BadBound);
        };
        let (_, plain) = bytes.split_at(SIGNATURE_SIZE);
        read_version(Version::Mpc2, Rules::print(allowed), plain)
    }

    /// The number of entries.
    pub fn len(self) -> usize
        ensures { result ≡ length (entries_of self.entry.entries) }
    {
        self.entries.len()
    }

    /// Whether an entry has a nib of more than one pixel.
    pub fn has_wide_nib(self) -> bool
        ensures { IsTrue result ↔ HasWideNib (entries_of self.entry.entries) }
    {
        self.entries.have_wide_nib()
    }

    /// The entry at an index.
    pub fn entry(self, i: usize) -> Entry
        requires { i < length (entries_of self.entries) }
        ensures { slice_get (entries_of self.entry.entries) i ≡ Some result }
    {
        self.entries.get(i)
    }
}
