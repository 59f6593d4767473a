//! Bits that are selected by two others, eight at a time.

ghost use Rattle.std.specs.Prelude.{◌≡◌, ◌<◌, ◌≤◌, ℕ, ◌+◌, length, slice_index_or};
ghost use Rattle.std.specs.Int.{bit_at};
ghost use Rattle.mapping.specs.declared.geometry.Colour.{Colour};
ghost use Rattle.raster_ops.specs.Bytes.{HasBytes};
ghost use Rattle.raster_ops.specs.Gathered.{AreAt, AreKeptOutside, HaveBytes};

use mapping::Colour;

/// Selects a bit by a bit of a pattern and a bit of a source, for eight of them at a time. Each field is all ones or
/// all zeros.
#[derive(Clone, Copy, Debug, PartialEq, Eq)]
pub(crate) struct Selector {
    /// The bit selected by two 0 bits.
    pub fixed: u8,
    /// What a 1 in the source flips.
    pub by_source: u8,
    /// What a 1 in the pattern flips.
    pub by_pattern: u8,
    /// What a 1 in both flips in addition to the flips by each.
    pub by_both: u8,
}

impl Selector {
    ghost use Rattle.raster_ops.specs.Selectors.{AreSelectedFrom, IsSelector, selected, selected_at, selected_colour};

    /// The selector of the bits at the even positions of a table.
    #[inline]
    pub(crate) fn new(table: u8) -> Selector
        ensures { IsSelector result table }
    {
        let none = mask(table, 0);
        let source = mask(table, 2);
        let pattern = mask(table, 4);
        let both = mask(table, 6);
        Selector {
            fixed: none,
            by_source: none ^ source,
            by_pattern: none ^ pattern,
            by_both: none ^ source ^ (pattern ^ both),
        }
    }

    /// The bits selected by a pattern and a source.
    #[inline]
    pub(crate) fn select(self, pattern: u8, source: u8) -> u8
        ensures { result ≡ selected self pattern source }
    {
        self.fixed ^ source & self.by_source ^ pattern & (self.by_pattern ^ source & self.by_both)
    }

    /// The same for each component of a colour.
    #[inline]
    pub(crate) fn select_colour(self, pattern: Colour, source: Colour) -> Colour
        ensures colour { result ≡ selected_colour self pattern source }
        ensures parts { HasBytes result }
    {
        Colour {
            r: self.select(pattern.r, source.r),
            g: self.select(pattern.g, source.g),
            b: self.select(pattern.b, source.b),
        }
    }

    /// Writes the colours selected by the patterns and sources from one index to before another, each at its index.
    /// Most of them are handled eight at a time: the compiler knows that size and uses vector instructions. This takes
    /// a tenth of the time of one colour at a time.
    pub(crate) fn select_row(
        self,
        patterns: &[Colour],
        sources: &[Colour],
        from: u32,
        to: u32,
        chosen: &mut [Colour],
    )
        requires ordered { from ≤ to }
        requires patterns { to ≤ length patterns.now }
        requires sources { to ≤ length sources.now }
        requires capacity { to ≤ length chosen.old }
        ensures colours { AreAt (selected_at self patterns.now sources.now) from to chosen.new }
        ensures parts { HaveBytes from to chosen.new }
        ensures others { AreKeptOutside from to chosen.old chosen.new }
    {
        let done = self.select_eights(patterns, sources, from, to, chosen);
        for x in done as usize..to as usize {
            chosen[x] = self.select_colour(patterns[x], sources[x]);
        }
    }

    /// The same for whole groups of eight. Returns where the last group ends.
    fn select_eights(
        self,
        patterns: &[Colour],
        sources: &[Colour],
        from: u32,
        to: u32,
        chosen: &mut [Colour],
    ) -> u32
        requires ordered { from ≤ to }
        requires patterns { to ≤ length patterns.now }
        requires sources { to ≤ length sources.now }
        requires capacity { to ≤ length chosen.old }
        ensures from { from ≤ result }
        ensures within { result ≤ to }
        ensures colours { AreAt (selected_at self patterns.now sources.now) from result chosen.new }
        ensures parts { HaveBytes from result chosen.new }
        ensures others { AreKeptOutside from result chosen.old chosen.new }
    {
        let mut done = from;
        while to - done >= 8 {
            let eight = self.selected_eight(patterns, sources, done as usize);
            put_eight(chosen, done as usize, &eight);
            done += 8;
        }
        done
    }

    /// The colours selected by eight patterns and sources, from an index on.
    #[inline]
    fn selected_eight(self, patterns: &[Colour], sources: &[Colour], at: usize) -> [Colour; 8]
        requires patterns { at + 8 ≤ length patterns.now }
        requires sources { at + 8 ≤ length sources.now }
        ensures colours { AreSelectedFrom self patterns.now sources.now at result }
        ensures parts { (k : ℕ) (d : Colour) → k < 8 → HasBytes (slice_index_or result k d) }
    {
        let mut colours = [self.select_colour(patterns[at], sources[at]); 8];
        for k in 0..8 {
            colours[k] = self.select_colour(patterns[at + k], sources[at + k]);
        }
        colours
    }
}

/// Writes eight colours, from an index on.
#[inline]
fn put_eight(row: &mut [Colour], at: usize, colours: &[Colour; 8])
    requires { at + 8 ≤ length row.old }
    ensures here { (k : ℕ) (d : Colour) → k < 8 → slice_index_or row.new (at + k) d ≡ slice_index_or colours.now k d }
    ensures others { AreKeptOutside at (at + 8) row.old row.new }
{
    row[at..at + 8].copy_from_slice(colours);
}

/// Eight copies of a bit of a table.
#[inline]
fn mask(table: u8, index: u32) -> u8
    requires { index < 8 }
    ensures { (k : ℕ) → k < 8 → bit_at result k ≡ bit_at table index }
{
    (table >> index & 1) * 0xff
}
