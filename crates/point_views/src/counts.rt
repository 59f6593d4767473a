//! Lists of counts, read in place: the number of points in each of several lists.

ghost use Rattle.std.specs.Prelude.{◌≡◌, ◌+◌, ◌*◌, ◌%◌, ◌^◌, ◌<◌, ◌≤◌, ◌↔◌, [], length, take, drop, sum, IsTrue, IsSome, IfSome, Some, SomeIff, slice_get};
ghost use Rattle.point_views.specs.Numbers.{number_size};

use crate::numbers::{NumberWidth, unsigned_at};
use crate::zeros::zeros;

/// Counts, one after another in a file's bytes. They are unsigned.
///
/// # Guarantees
///
/// - `bytes` contains the counts and nothing else, so two views with the same width are equal exactly if their bytes
///   are.
#[derive(Clone, Copy, Debug, PartialEq, Eq)]
pub struct Counts<'a> {
    /// The counts' bytes.
    pub bytes: &'a [u8],
    /// The width of each count.
    pub width: NumberWidth,
    pub ghost whole: { length bytes.now % number_size width ≡ 0 },
}

#[tactic(auto, using(crate::proofs::CountLemmas::counts, crate::proofs::SplitLemmas::sums))]
impl<'a> Counts<'a> {
    ghost use Rattle.point_views.specs.Counts.{counts_in, counts_of};
    ghost use Rattle.point_views.specs.PassedOver.{after_zeros};

    /// The first `n` counts in the bytes, of 16 bits each. `None` exactly if there are fewer than `2 * n` bytes. Bytes
    /// after the counts don't matter.
    pub fn new16(bytes: &'a [u8], n: usize) -> Option<Counts<'a>>
        ensures enough { IsSome result ↔ (2 * n ≤ length bytes.now) }
        ensures counts { IfSome result (λ counts. counts_of counts ≡ counts_in NumberWidth.Short n bytes.now) }
    {
        if bytes.len() / 2 < n {
            return None;
        }
        Some(Counts {
            bytes: &bytes[..2 * n],
            width: NumberWidth::Short,
        })
    }

    /// The first `n` counts in the bytes, of 32 bits each. `None` exactly if there are fewer than `4 * n` bytes. Bytes
    /// after the counts don't matter.
    pub fn new32(bytes: &'a [u8], n: usize) -> Option<Counts<'a>>
        ensures enough { IsSome result ↔ (4 * n ≤ length bytes.now) }
        ensures counts { IfSome result (λ counts. counts_of counts ≡ counts_in NumberWidth.Long n bytes.now) }
    {
        if bytes.len() / 4 < n {
            return None;
        }
        Some(Counts {
            bytes: &bytes[..4 * n],
            width: NumberWidth::Long,
        })
    }

    /// No counts.
    pub(crate) fn empty() -> Counts<'a>
        ensures { counts_of result ≡ [] }
    {
        Counts {
            bytes: &[],
            width: NumberWidth::Short,
        }
    }

    /// The number of counts.
    pub fn len(self) -> usize
        ensures { result ≡ length (counts_of self.entry) }
    {
        match self.width {
            NumberWidth::Short => self.bytes.len() / 2,
            NumberWidth::Long => self.bytes.len() / 4,
        }
    }

    /// Whether there is no count.
    pub fn is_empty(self) -> bool
        ensures { IsTrue result ↔ (counts_of self.entry ≡ []) }
    {
        self.len() == 0
    }

    /// The count at an index.
    pub fn get(self, i: usize) -> u32
        requires { i < length (counts_of self) }
        ensures { slice_get (counts_of self.entry) i ≡ Some result }
    {
        unsigned_at(self.bytes, self.place(i), self.width)
    }

    /// The counts after the first.
    pub(crate) fn after_first(self) -> Counts<'a>
        requires { 0 < length (counts_of self) }
        ensures { counts_of result ≡ drop 1 (counts_of self.entry) }
    {
        Counts {
            bytes: &self.bytes[self.place(1)..],
            width: self.width,
        }
    }

    /// The counts from the first non-zero one on. Several zeros are skipped at a time.
    pub fn after_zeros(self) -> Counts<'a>
        ensures { counts_of result ≡ after_zeros (counts_of self.entry) }
    {
        let passed = self.width.held_in(zeros(self.bytes));
        Counts {
            bytes: &self.bytes[self.place(passed)..],
            width: self.width,
        }
    }

    /// The sum of the counts. `None` exactly if it is above `most`. Stops at the first count that exceeds it.
    pub fn sum_within(self, most: usize) -> Option<usize>
        ensures { SomeIff result (sum (counts_of self.entry) ≤ most) (sum (counts_of self.entry)) }
    {
        let mut left = most;
        for i in 0..self.len() {
            let count = self.get(i) as usize;
            if left < count {
                return None;
            }
            left -= count;
        }
        Some(most - left)
    }

    /// The sum of the first `k` counts.
    pub(crate) fn sum_before(self, k: usize) -> usize
        requires within { k ≤ length (counts_of self) }
        requires fits { sum (counts_of self) < 2 ^ 64 }
        ensures { result ≡ sum (take k (counts_of self.entry)) }
    {
        let mut before = 0;
        for i in 0..k {
            before += self.get(i) as usize;
        }
        before
    }

    /// The offset of a count's first byte, or the end of the bytes.
    fn place(self, i: usize) -> usize
        requires { i ≤ length (counts_of self) }
        ensures place { result ≡ number_size self.entry.width * i }
        ensures within { result ≤ length self.entry.bytes.now }
        ensures enough { i < length (counts_of self.entry)
            → result + number_size self.entry.width ≤ length self.entry.bytes.now }
    {
        match self.width {
            NumberWidth::Short => 2 * i,
            NumberWidth::Long => 4 * i,
        }
    }
}
