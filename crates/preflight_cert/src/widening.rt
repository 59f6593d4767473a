//! Adding nibs to the entries of a certificate.

ghost use Rattle.std.specs.Prelude.{◌≡◌, ◌+◌, ◌-◌, ◌*◌, ◌≤◌, ◌++◌, OnOk, drop, length, replicate, take};
ghost use Rattle.span_fill.specs.WideStrokes.{one_pixel};
ghost use Rattle.preflight_cert.specs.CertificateText.{nib_text};
ghost use Rattle.preflight_cert.specs.DraftOf.{PutsNibs, Spreads};
ghost use Rattle.preflight_cert.specs.declared.version.Version.TheVariants.{Mpc2};

use crate::certificate_reading::HEAD_SIZE;
use span_fill::OutOfMemory;

/// The number of bytes in an entry without its nib, and with it.
const PLAIN: usize = 20;

const WIDE: usize = 24;

/// Adds the nib of one pixel to each entry after the space for the head. This is done in place, since the entries may
/// take many bytes.
pub(crate) fn put_nibs(text: &mut Vec<u8>) -> Result<(), OutOfMemory>
    ensures { OnOk result (PutsNibs text.old.items text.new.items) }
{
    let count = text.len().saturating_sub(HEAD_SIZE) / PLAIN;
    lengthen(text, HEAD_SIZE + WIDE * count)?;
    spread(&mut text[HEAD_SIZE..], count);
    Ok(())
}

/// Extends a text to this length with zeros, without reserving more memory than that.
fn lengthen(text: &mut Vec<u8>, len: usize) -> Result<(), OutOfMemory>
    ensures { OnOk result (text.new.items ≡ take len text.old.items ++ replicate (len - length text.old.items) 0) }
{
    if text.reserve_exact(len.saturating_sub(text.len())).is_err() {
        return Err(OutOfMemory);
    }
    match text.resize(len, 0) {
        Ok(()) => Ok(()),
        Err(_) => Err(OutOfMemory),
    }
}

/// Moves this many entries apart, and adds a nib to each. It begins with the last one, which overwrites no other.
fn spread(bytes: &mut [u8], count: usize)
    requires { length bytes.old ≡ 24 * count }
    ensures len { length bytes.new ≡ length bytes.old }
    ensures entries { Spreads count bytes.old bytes.new }
{
    let mut left = count;
    while left > 0 {
        left -= 1;
        move_entry(bytes, left);
    }
}

/// Moves the entry at an index to its position among entries with nibs, and adds the nib of one pixel.
fn move_entry(bytes: &mut [u8], index: usize)
    requires { 24 * index + 24 ≤ length bytes.old }
    ensures len { length bytes.new ≡ length bytes.old }
    ensures prefix { take (20 * index) bytes.new ≡ take (20 * index) bytes.old }
    ensures after { drop (24 * index) bytes.new
        ≡ take 20 (drop (20 * index) bytes.old) ++ (nib_text Mpc2 one_pixel ++ drop (24 * index + 24) bytes.old) }
{
    let mut entry = [0; WIDE];
    entry[PLAIN..].copy_from_slice(&[1, 0, 1, 0]);
    entry[..PLAIN].copy_from_slice(&bytes[PLAIN * index..PLAIN * index + PLAIN]);
    bytes[WIDE * index..WIDE * index + WIDE].copy_from_slice(&entry);
}
