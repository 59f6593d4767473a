//! Writing a certificate, entry by entry.

ghost use Rattle.std.specs.Prelude.{◌≡◌, ◌≤◌, ◌<◌, ◌^◌, ◌&&◌, ◌==◌, [], ◌∷◌, ◌++◌, IfOk, OnOk, drop, length};
ghost use Rattle.preflight_cert.specs.DraftOf.{Adds, AwaitsEntry, Holds, IsFinished, Widens, space_for};
ghost use Rattle.preflight_cert.specs.Preparation.{version_for};
ghost use Rattle.preflight_cert.specs.TextParts.{head_value};
ghost use Rattle.preflight_cert.specs.declared.certificate_entry.Entry.{Entry};
ghost use Rattle.preflight_cert.specs.declared.version.Version.TheVariants.{Mpc2};

use crate::certificate_entry::Entry;
use crate::certificate_reading::{HEAD_SIZE, PRINT_HEAD_SIZE};
use crate::version::Version;
use crate::widening::put_nibs;
use crate::writing::{Head, head_text, put_entry};
use draw_ops::Rules;
use mapping::Nib;
use span_fill::OutOfMemory;
use std::alloc::Global;

/// A certificate that is being written. Each entry is encoded when it is added, so that entries are stored only once.
/// Space for the head is reserved at the start. Under the core profile the version is `MPC1` until an entry has a nib
/// other than one pixel.
#[derive(Drop)]
pub struct Draft {
    pub version: Version,
    pub text: Vec<u8>,
}

impl Draft {
    /// A draft without entries.
    pub(crate) fn new(alloc: Global, rules: Rules) -> Result<Draft, OutOfMemory>
        ensures { IfOk result (λ draft. Holds rules draft []) }
    {
        let mut text = Vec::new(alloc);
        match text.resize(space_for(rules), 0) {
            Ok(()) => Ok(Draft {
                version: first_version(rules),
                text,
            }),
            Err(_) => Err(OutOfMemory),
        }
    }

    /// Appends an entry.
    pub(crate) fn push(&mut self, entry: Entry) -> Result<(), OutOfMemory>
        ensures { OnOk result (Adds self.old self.new (entry ∷ [])) }
    {
        self.await_entry(entry)?;
        put_entry(&mut self.text, self.version, entry)
    }

    /// Makes the draft an `MPC2` if the next entry has a nib other than one pixel.
    fn await_entry(&mut self, entry: Entry) -> Result<(), OutOfMemory>
        ensures { OnOk result (AwaitsEntry self.old self.new entry) }
    {
        if is_one_pixel(entry.nib) {
            return Ok(());
        }
        self.widen()
    }

    /// Makes the draft an `MPC2`.
    fn widen(&mut self) -> Result<(), OutOfMemory>
        ensures version { OnOk result (self.new.version ≡ Mpc2) }
        ensures entries { OnOk result (Widens self.old self.new) }
    {
        match self.version {
            Version::Mpc1 => {
                self.version = Version::Mpc2;
                put_nibs(&mut self.text)
            }
            Version::Mpc2 => Ok(()),
        }
    }

    /// The text of the certificate under rules with this head.
    pub(crate) fn finish(
        self,
        alloc: Global,
        rules: Rules,
        head: Head,
    ) -> Result<Vec<u8>, OutOfMemory>
        requires capacity { space_for rules ≤ length self.text.items }
        requires short { length self.text.items < 2 ^ 32 }
        ensures { IfOk result (λ text. IsFinished rules self (head_value head) text.items) }
    {
        let Draft { version, mut text } = self;
        let count = (text.len() - space_for(rules)) / version.entry_size();
        let prefix = head_text(alloc, rules, version, head, count as u32)?;
        put_prefix(&mut text[..], &prefix[..]);
        Ok(text)
    }
}

/// Writes a head into the space reserved for it.
fn put_prefix(text: &mut [u8], prefix: &[u8])
    requires capacity { length prefix.now ≤ length text.old }
    ensures { text.new ≡ prefix.now ++ drop (length prefix.now) text.old }
{
    text[..prefix.len()].copy_from_slice(prefix);
}

/// The number of bytes before the entries.
fn space_for(rules: Rules) -> usize
    ensures { result ≡ space_for rules }
{
    if rules.is_print() {
        PRINT_HEAD_SIZE
    } else {
        HEAD_SIZE
    }
}

/// The version of a certificate without entries.
fn first_version(rules: Rules) -> Version
    ensures { result ≡ version_for rules [] }
{
    if rules.is_print() {
        Version::Mpc2
    } else {
        Version::Mpc1
    }
}

/// Whether a nib is one pixel.
fn is_one_pixel(nib: Nib) -> bool
    ensures { result ≡ (nib.x == 1 && nib.y == 1) }
{
    nib.x == 1 && nib.y == 1
}
