//! How records follow one another.

ghost use Rattle.std.specs.Prelude.{◌≡◌, ◌<◌, ◌≤◌, length, IfOk, OnOk};
ghost use Rattle.std.specs.Result.{result_err};
ghost use Rattle.draw_ops.specs.RecordOf.{record_of};
ghost use Rattle.draw_ops.specs.Records.{framing_fault, leading_of, record_limit, size_of};

use crate::format::{Format, RawRecord};
use crate::record_fault::RecordFault;

/// The most records of a file, including the end record.
const RECORD_LIMIT: u32 = 1048576;

/// The record at the start of the bytes, which has this number in the file, or its first framing fault:
/// `TooManyRecords`, `NoEnd`, `ShortRecord` or `PastEnd`.
#[tactic(auto, unfolding(crate::specs::Records::record_limit))]
pub fn first_record<F: Format>(number: u32, bytes: &[u8]) -> Result<RawRecord<'_>, RecordFault>
    ensures fault { framing_fault F.framing number bytes.entry.now ≡ result_err result }
    ensures leading { IfOk result (λ r. record_of r ≡ leading_of F.framing bytes.entry.now) }
    ensures size { IfOk result (λ r. length r.bytes.now ≡ size_of F.framing bytes.entry.now) }
    ensures head { OnOk result (F.framing.head_length ≤ length bytes.entry.now) }
    ensures within { OnOk result (size_of F.framing bytes.entry.now ≤ length bytes.entry.now) }
    ensures below_limit { OnOk result (number < record_limit) }
{
    if number >= RECORD_LIMIT {
        return Err(RecordFault::TooManyRecords);
    }
    if bytes.len() < F::head_length() {
        return Err(RecordFault::NoEnd);
    }
    let size = F::size(bytes);
    if !F::may_be_size(size) {
        return Err(RecordFault::ShortRecord);
    }
    if bytes.len() < size {
        return Err(RecordFault::PastEnd);
    }
    Ok(RawRecord {
        kind: F::kind(bytes),
        bytes: &bytes[..size],
    })
}
