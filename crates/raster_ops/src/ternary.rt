//! Ternary raster operations.

ghost use Rattle.std.specs.Prelude.{◌≡◌, ◌≤◌, ◌/◌, bit_xor, length};
ghost use Rattle.mapping.specs.Mixes.{mixed_by};
ghost use Rattle.mapping.specs.declared.geometry.Colour.{Colour};
ghost use Rattle.draw_ops.specs.declared.raster_op.RasterOp.TheVariants.{CopyPen};
ghost use Rattle.raster_ops.specs.Bytes.{HasBytes};
ghost use Rattle.raster_ops.specs.Gathered.{AreKeptOutside, AreMixesAt};
ghost use Rattle.raster_ops.specs.RasterOps.{mixed_colour};
ghost use Rattle.raster_ops.specs.Selectors.{IsSelector};
ghost use Rattle.raster_ops.specs.TernaryOps.{UnusedPatternIsUnseen, UnusedSourceIsUnseen, ternary_at, ternary_colour, uses_pattern, uses_source};

use crate::selector::Selector;
use draw_ops::TernaryOp;
use mapping::{Colour, Mix};

/// The result of a ternary raster operation on the pattern, the source and the old colour ([MS-WMF] 2.1.1.31).
pub fn rop3(op: TernaryOp, pattern: Colour, source: Colour, old: Colour) -> Colour
    ensures { result ≡ ternary_colour op.table pattern source old }
{
    ternary_mix(op, pattern, source).apply(old)
}

/// A ternary raster operation with its pattern and its source, as a mix, which can be applied to any old colour.
#[inline]
pub fn ternary_mix(op: TernaryOp, pattern: Colour, source: Colour) -> Mix
    ensures { (old : Colour) → mixed_by result old ≡ ternary_colour op.table pattern source old }
{
    TernaryMixer::new(op).mix(pattern, source)
}

/// A prepared ternary raster operation, for callers that apply it to many pixels.
#[derive(Clone, Copy, Debug, PartialEq, Eq)]
pub struct TernaryMixer {
    pub op: TernaryOp,
    /// Selects the bits to keep: those for which a 0 and a 1 give different results.
    keep: Selector,
    /// Selects the bits to flip afterwards: those for which a 0 gives a 1.
    flip: Selector,
    ghost keeps: { IsSelector keep (bit_xor (op.table / 2) op.table) },
    ghost flips: { IsSelector flip op.table },
}

impl TernaryMixer {
    /// Prepares the operation.
    #[inline]
    pub fn new(op: TernaryOp) -> TernaryMixer
        ensures { result.op ≡ op }
    {
        TernaryMixer {
            op,
            keep: Selector::new(op.table >> 1 ^ op.table),
            flip: Selector::new(op.table),
        }
    }

    /// The operation with its pattern and its source, as a mix.
    #[inline]
    pub fn mix(&self, pattern: Colour, source: Colour) -> Mix
        ensures { (old : Colour) → mixed_by result old ≡ ternary_colour self.now.op.table pattern source old }
    {
        Mix {
            keep: self.keep.select_colour(pattern, source),
            flip: self.flip.select_colour(pattern, source),
        }
    }

    /// Writes the operation with the patterns and sources from one index to before another as mixes: the bits that each
    /// keeps and flips, at its index. The other elements are unchanged.
    pub fn gather(
        &self,
        patterns: &[Colour],
        sources: &[Colour],
        from: u32,
        to: u32,
        keeps: &mut [Colour],
        flips: &mut [Colour],
    )
        requires ordered { from ≤ to }
        requires patterns { to ≤ length patterns.now }
        requires sources { to ≤ length sources.now }
        requires keeps { to ≤ length keeps.old }
        requires flips { to ≤ length flips.old }
        ensures mixes { AreMixesAt (ternary_at self.now.op.table patterns.now sources.now) from to keeps.new flips.new }
        ensures other_keeps { AreKeptOutside from to keeps.old keeps.new }
        ensures other_flips { AreKeptOutside from to flips.old flips.new }
    {
        self.keep.select_row(patterns, sources, from, to, keeps);
        self.flip.select_row(patterns, sources, from, to, flips);
    }
}

/// Whether an operation depends on the source: some bits of its table that are two positions apart differ.
pub fn uses_source(op: TernaryOp) -> bool
    ensures { result ≡ uses_source op.table }
{
    (op.table ^ op.table >> 2) & 0x33 != 0
}

/// Whether an operation depends on the pattern: some bits of its table that are four positions apart differ.
pub fn uses_pattern(op: TernaryOp) -> bool
    ensures { result ≡ uses_pattern op.table }
{
    (op.table ^ op.table >> 4) & 0x0f != 0
}

/// A law: an operation that doesn't depend on the source gives the same for every source, and similarly for the
/// pattern.
pub fn dependence_law()
    ensures source { UnusedSourceIsUnseen }
    ensures pattern { UnusedPatternIsUnseen }
{}

/// A law: SRCCOPY, with table 0xCC, gives the source, PATCOPY, with table 0xF0, the pattern, and R2_COPYPEN the pen's
/// colour ([MS-WMF] 2.1.1.31, 2.1.1.2).
pub fn copy_law()
    ensures source { (p s o : Colour) → HasBytes s → ternary_colour 0xcc p s o ≡ s }
    ensures pattern { (p s o : Colour) → HasBytes p → ternary_colour 0xf0 p s o ≡ p }
    ensures pen { (p o : Colour) → HasBytes p → mixed_colour CopyPen p o ≡ p }
{}
