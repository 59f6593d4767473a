//! Leading zeros of bytes.

ghost use Rattle.std.specs.Prelude.{◌≡◌, ◌≢◌, ℕ, ◌<◌, ◌≤◌, length, slice_index};

use byteorder::{ByteOrder, LittleEndian};

/// The number of bytes that are examined at once.
const WORD: usize = 8;

/// The number of leading zeros of the bytes.
pub(crate) fn zeros(bytes: &[u8]) -> usize
    ensures within { result ≤ length bytes.now }
    ensures zeros { (k : ℕ) → k < result → slice_index bytes.now k ≡ 0 }
    ensures next { result < length bytes.now → slice_index bytes.now result ≢ 0 }
{
    let mut count = zero_words(bytes);
    while count < bytes.len() && bytes[count] == 0 {
        count += 1;
    }
    count
}

/// The number of bytes in the leading words of zeros. Words are used because a file may have millions of zeros.
fn zero_words(bytes: &[u8]) -> usize
    ensures within { result ≤ length bytes.now }
    ensures zeros { (k : ℕ) → k < result → slice_index bytes.now k ≡ 0 }
{
    let mut count = 0;
    while WORD <= bytes.len() - count && LittleEndian::read_u64(&bytes[count..]) == 0 {
        count += WORD;
    }
    count
}
