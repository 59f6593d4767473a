//! Bits of words, by their numbers: a word has 64 bits.

ghost use Rattle.std.specs.Prelude.{◌≡◌, ◌+◌, ◌*◌, ◌^◌, ◌<◌, ◌≤◌, ◌||◌, ◌&&◌, ℕ, bit_and, cond, length, nat_le, nat_lt, not, slice_index};
ghost use Rattle.std.specs.Int.{bit_not, w64};
ghost use Rattle.span_fill.specs.BitWords.{IsNextBit, in_both, joined_word, word_bit};

/// Writes a value to the words from `from` to before `to`.
pub(crate) fn fill_words(words: &mut [u64], from: usize, to: usize, value: u64)
    requires order { from ≤ to }
    requires within { to ≤ length words.old }
    ensures below { (k : ℕ) → k < from → slice_index words.new k ≡ slice_index words.old k }
    ensures filled { (k : ℕ) → from ≤ k → k < to → slice_index words.new k ≡ value }
    ensures above { (k : ℕ) → to ≤ k → slice_index words.new k ≡ slice_index words.old k }
{
    words[from..to].fill(value);
}

/// Sets the bits from number `from` to before `to`.
pub(crate) fn set_bits(words: &mut [u64], from: usize, to: usize)
    requires order { from ≤ to }
    requires within { to ≤ 64 * length words.old }
    ensures { (n : ℕ) → word_bit words.new n ≡ (word_bit words.old n || (nat_le from n && nat_lt n to)) }
{
    if from == to {
        return;
    }
    let (first, last) = (from / 64, (to - 1) / 64);
    // Some bits of the first word, some bits of the last one, and all bits between them.
    let head = u64::MAX << (from % 64);
    let tail = u64::MAX >> (63 - (to - 1) % 64);
    if first == last {
        words[first] |= head & tail;
        return;
    }
    words[first] |= head;
    fill_words(words, first + 1, last, u64::MAX);
    words[last] |= tail;
}

/// Sets up to 64 bits, from number `from` on.
#[inline]
pub(crate) fn set_run(words: &mut [u64], from: usize, count: u32)
    requires some { 1 ≤ count }
    requires limit { count ≤ 64 }
    requires within { from + count ≤ 64 * length words.old }
    ensures { (n : ℕ) → word_bit words.new n ≡ (word_bit words.old n || (nat_le from n && nat_lt n (from + count))) }
{
    let (word, bit) = (from / 64, (from % 64) as u32);
    let run = u64::MAX >> (64 - count);
    words[word] |= run << bit;
    if bit + count > 64 {
        words[word + 1] |= run >> (64 - bit);
    }
}

/// Clears the bits from number `from` to before `to`.
pub(crate) fn clear_bits(words: &mut [u64], from: usize, to: usize)
    requires order { from ≤ to }
    requires within { to ≤ 64 * length words.old }
    ensures { (n : ℕ) → word_bit words.new n ≡ (word_bit words.old n && not (nat_le from n && nat_lt n to)) }
{
    if from == to {
        return;
    }
    let (first, last) = (from / 64, (to - 1) / 64);
    // Some bits of the first word, some bits of the last one, and all bits between them.
    let head = u64::MAX << (from % 64);
    let tail = u64::MAX >> (63 - (to - 1) % 64);
    if first == last {
        words[first] &= !(head & tail);
        return;
    }
    words[first] &= !head;
    fill_words(words, first + 1, last, 0);
    words[last] &= !tail;
}

/// Keeps of each of some words, from `from` on, the bits that are set in one of as many words from `other` on too.
pub(crate) fn keep_common_bits(words: &mut [u64], from: usize, other: usize, count: usize)
    requires words { from + count ≤ length words.old }
    requires others { other + count ≤ length words.old }
    requires apart { other < from → other + count ≤ from }
    ensures both { (k : ℕ) → k < count → slice_index words.new (from + k) ≡ in_both words.old (from + k) (other + k) }
    ensures below { (k : ℕ) → k < from → slice_index words.new k ≡ slice_index words.old k }
    ensures above { (k : ℕ) → from + count ≤ k → slice_index words.new k ≡ slice_index words.old k }
{
    for at in 0..count {
        words[from + at] &= words[other + at];
    }
}

/// Joins to each of the first words the one that is `ahead` words further on.
pub(crate) fn join_words(words: &mut [u64], count: usize, ahead: usize)
    requires { count + ahead ≤ length words.old }
    ensures joined { (k : ℕ) → k < count → slice_index words.new k ≡ joined_word words.old ahead k }
    ensures others { (k : ℕ) → count ≤ k → slice_index words.new k ≡ slice_index words.old k }
{
    for at in 0..count {
        words[at] |= words[at + ahead];
    }
}

/// The first number from `from` to before `to` whose bit is `bit`, or `to` if there is none.
pub(crate) fn next_bit(words: &[u64], bit: bool, from: usize, to: usize) -> usize
    requires few { length words.now ≤ 2 ^ 32 }
    requires order { from ≤ to }
    requires within { to ≤ 64 * length words.now }
    ensures { IsNextBit words.now bit from to result }
{
    let mut at = from;
    while at < to {
        let rest = bits_that_are(bit, words[at / 64]) >> (at % 64);
        if rest != 0 {
            return to.min(at + rest.trailing_zeros() as usize);
        }
        at += 64 - at % 64;
    }
    to
}

/// The word whose bits are set where those of `word` are `bit`.
fn bits_that_are(bit: bool, word: u64) -> u64
    ensures { result ≡ cond bit word (bit_not w64 word) }
{
    if bit { word } else { !word }
}
