//! Rows of bits, in which many pixels can be marked at a time.

ghost use Rattle.std.specs.Prelude.{◌≡◌, ◌+◌, ◌*◌, ◌<◌, ◌≤◌, ◌≢◌, ℕ, IfOk, IsTrue, false, true};
ghost use Rattle.span_fill.specs.BitRows.{ClearsBits, HasSize, IsNext, JoinsRows, KeepsCommon, SetsBits, has_bit, has_capacity, word_limit};

use crate::bit_words::{
    clear_bits, fill_words, join_words, keep_common_bits, next_bit, set_bits, set_run,
};
use crate::row_error::OutOfMemory;
use std::alloc::Global;
use std::marker::Model;

/// The number of words, each of 64 bits.
const WORDS: usize = 32_768;

/// Rows of bits, with a bit for each column.
///
/// # Guarantees
///
/// - Only `new` allocates memory, whatever the rows.
#[derive(Drop)]
pub(crate) struct BitRows {
    /// The bits, row by row, with 64 columns per word, followed by remains of earlier rows.
    words: Vec<u64>,
    /// The number of words in a row.
    stride: usize,
    rows: u32,
    columns: u32,
}

impl Model for BitRows {
    ghost use Rattle.span_fill.specs.BitRows.{BitRowsState};

    ghost Value = { BitRowsState };

    ghost use Rattle.span_fill.specs.BitRowsInside.{IsBitRows, bit_rows_state};

    ghost view = { bit_rows_state };

    ghost invariant = { IsBitRows };
}

impl BitRows {
    /// Allocates memory for 2^21 bits: 256 KiB. There are no rows yet. Fails with `OutOfMemory`.
    pub(crate) fn new(alloc: Global) -> Result<BitRows, OutOfMemory>
        ensures { IfOk result (λ bits. HasSize bits 0 0) }
    {
        let Ok(words) = Vec::from_elem(alloc, 0, WORDS) else {
            return Err(OutOfMemory);
        };
        Ok(BitRows {
            words,
            stride: 0,
            rows: 0,
            columns: 0,
        })
    }

    /// The greatest number of rows of this many columns for which the memory is enough, if each has a word or more.
    pub(crate) fn room(&self, columns: u32) -> u32
        ensures capacity { IsTrue (has_capacity result columns) }
        ensures most { (rows : ℕ) → rows ≤ word_limit → IsTrue (has_capacity rows columns) → rows ≤ result }
        ensures many { columns ≤ 8192 → 256 ≤ result }
    {
        let stride = (columns as usize).div_ceil(64).max(1);
        (self.words.len() / stride) as u32
    }

    /// Starts with this many rows and columns, and no bit set.
    pub(crate) fn begin(&mut self, rows: u32, columns: u32)
        requires { IsTrue (has_capacity rows columns) }
        ensures size { HasSize self.new rows columns }
        ensures none { (x i : ℕ) → x < columns → i < rows → has_bit self.new x i ≡ false }
    {
        self.rows = rows;
        self.columns = columns;
        self.stride = (columns as usize).div_ceil(64);
        let count = rows as usize * self.stride;
        fill_words(&mut self.words[..], 0, count, 0);
    }

    /// Sets the bits of a row from column `from` to before `to`. (Apart, this leaves the registers to others.)
    #[inline(never)]
    pub(crate) fn set(&mut self, row: u32, from: u32, to: u32)
        requires row { row < self.old.rows }
        requires order { from ≤ to }
        requires columns { to ≤ self.old.columns }
        ensures size { HasSize self.new self.old.rows self.old.columns }
        ensures bits { SetsBits row from to self.old self.new }
    {
        let start = self.start(row);
        set_bits(
            &mut self.words[..],
            start + from as usize,
            start + to as usize,
        );
    }

    /// Sets up to 64 bits of a row, from column `from` on.
    #[inline]
    pub(crate) fn set_run(&mut self, row: u32, from: u32, count: u32)
        requires row { row < self.old.rows }
        requires some { 1 ≤ count }
        requires limit { count ≤ 64 }
        requires columns { from + count ≤ self.old.columns }
        ensures size { HasSize self.new self.old.rows self.old.columns }
        ensures bits { SetsBits row from (from + count) self.old self.new }
    {
        let start = self.start(row);
        set_run(&mut self.words[..], start + from as usize, count);
    }

    /// Clears the bits of a row from column `from` to before `to`.
    pub(crate) fn clear(&mut self, row: u32, from: u32, to: u32)
        requires row { row < self.old.rows }
        requires order { from ≤ to }
        requires columns { to ≤ self.old.columns }
        ensures size { HasSize self.new self.old.rows self.old.columns }
        ensures bits { ClearsBits row from to self.old self.new }
    {
        let start = self.start(row);
        clear_bits(
            &mut self.words[..],
            start + from as usize,
            start + to as usize,
        );
    }

    /// Keeps of a row's bits those that are set in another row too.
    pub(crate) fn keep_common(&mut self, row: u32, other: u32)
        requires row { row < self.old.rows }
        requires other { other < self.old.rows }
        requires apart { row ≢ other }
        ensures size { HasSize self.new self.old.rows self.old.columns }
        ensures bits { KeepsCommon row other self.old self.new }
    {
        let (from, to) = (row as usize * self.stride, other as usize * self.stride);
        keep_common_bits(&mut self.words[..], from, to, self.stride);
    }

    /// Joins to each of the first rows the row that is `distance` rows further on.
    pub(crate) fn join(&mut self, rows: u32, distance: u32)
        requires { rows + distance ≤ self.old.rows }
        ensures size { HasSize self.new self.old.rows self.old.columns }
        ensures rows { JoinsRows rows distance self.old self.new }
    {
        let (count, ahead) = (rows as usize * self.stride, distance as usize * self.stride);
        join_words(&mut self.words[..], count, ahead);
    }

    /// The first column from `from` to before `to` whose bit in the row is set, or `to` if there is none.
    pub(crate) fn next_set(&self, row: u32, from: u32, to: u32) -> u32
        requires row { row < self.now.rows }
        requires order { from ≤ to }
        requires columns { to ≤ self.now.columns }
        ensures { IsNext self.now true row from to result }
    {
        self.next(true, row, from, to)
    }

    /// The first column from `from` to before `to` whose bit in the row isn't set, or `to` if there is none.
    pub(crate) fn next_clear(&self, row: u32, from: u32, to: u32) -> u32
        requires row { row < self.now.rows }
        requires order { from ≤ to }
        requires columns { to ≤ self.now.columns }
        ensures { IsNext self.now false row from to result }
    {
        self.next(false, row, from, to)
    }

    /// The first column from `from` to before `to` whose bit in the row is `bit`, or `to` if there is none.
    fn next(&self, bit: bool, row: u32, from: u32, to: u32) -> u32
        requires row { row < self.now.rows }
        requires order { from ≤ to }
        requires columns { to ≤ self.now.columns }
        ensures { IsNext self.now bit row from to result }
    {
        let start = self.start(row);
        let next = next_bit(
            &self.words[..],
            bit,
            start + from as usize,
            start + to as usize,
        );
        (next - start) as u32
    }

    /// The number of a row's first bit.
    fn start(&self, row: u32) -> usize
        requires { row < self.now.rows }
        ensures { result ≡ 64 * (row * self.now.stride) }
    {
        64 * (row as usize * self.stride)
    }
}
