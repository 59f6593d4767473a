//! The extent that gives the size of a plain WMF file.

ghost use Rattle.std.specs.Prelude.{◌≡◌, ◌≢◌, pos, IfSome};
ghost use Rattle.draw_ops.specs.RecordOf.{record_of};
ghost use Rattle.wmf_records.specs.FirstExtent.{extent_in, first_extent};

use crate::functions::{META_EOF, META_SETWINDOWEXT};
use crate::wmf::Wmf;
use draw_ops::{RawRecord, first_record};
use point_views::i16_at;

/// The x and y of the first META_SETWINDOWEXT ([MS-WMF] 2.3.5.30) that has both, with neither of them 0, before the end
/// record or the first framing fault. `None` exactly if there is none. Only the heads of other records are read.
pub fn first_extent(bytes: &[u8]) -> Option<(i16, i16)>
    ensures value { result ≡ first_extent bytes.now }
    ensures wide { IfSome result (λ extent. extent.0 ≢ pos 0) }
    ensures high { IfSome result (λ extent. extent.1 ≢ pos 0) }
{
    let mut rest = bytes;
    let mut number = 0;
    loop {
        let Ok(leading) = first_record::<Wmf>(number, rest) else {
            return None;
        };
        let extent = extent_in(&leading);
        if extent.is_some() {
            return extent;
        }
        if leading.kind == META_EOF {
            return None;
        }
        rest = &rest[leading.bytes.len()..];
        number += 1;
    }
}

/// The x and y of META_SETWINDOWEXT, if the record is one and has both, and neither is 0.
fn extent_in(leading: &RawRecord<'_>) -> Option<(i16, i16)>
    ensures value { result ≡ extent_in (record_of leading.now) }
    ensures wide { IfSome result (λ extent. extent.0 ≢ pos 0) }
    ensures high { IfSome result (λ extent. extent.1 ≢ pos 0) }
{
    if leading.kind != META_SETWINDOWEXT || leading.bytes.len() < 10 {
        return None;
    }
    let y = i16_at(leading.bytes, 6);
    let x = i16_at(leading.bytes, 8);
    if y == 0 || x == 0 { None } else { Some((x, y)) }
}
