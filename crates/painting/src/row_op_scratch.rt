//! Scratch buffers for one row of pixels. They are on the heap because the stack must not grow after a surface has its
//! memory.

use mapping::Colour;
use span_fill::OutOfMemory;
use std::alloc::Global;

/// A colour for values that are never read.
pub(crate) const BLACK: Colour = Colour { r: 0, g: 0, b: 0 };

/// The greatest width or height of a surface.
pub(crate) const MAX_SIDE: usize = 8192;

/// Scratch buffers for one row of pixels, indexed by column: the source colours, and the buffers for mixing.
#[derive(Drop)]
pub(crate) struct RowOpScratch {
    pub(crate) sources: Box<[Colour; MAX_SIDE]>,
    pub(crate) mixes: MixScratch,
}

/// Scratch buffers for mixing one row of pixels, indexed by column: the colours of a brush's pattern, and the bits that
/// each mix keeps and flips.
#[derive(Drop)]
pub(crate) struct MixScratch {
    pub(crate) patterns: Box<[Colour; MAX_SIDE]>,
    pub(crate) keeps: Box<[Colour; MAX_SIDE]>,
    pub(crate) flips: Box<[Colour; MAX_SIDE]>,
}

impl RowOpScratch {
    /// New buffers. Their contents don't matter.
    pub(crate) fn new(alloc: Global) -> Result<RowOpScratch, OutOfMemory> {
        let sources = colours(alloc)?;
        let patterns = colours(alloc)?;
        let keeps = colours(alloc)?;
        let flips = colours(alloc)?;
        Ok(RowOpScratch {
            sources,
            mixes: MixScratch {
                patterns,
                keeps,
                flips,
            },
        })
    }
}

/// One colour per column. This isn't inlined, because otherwise all four arrays would be on the stack at once.
#[inline(never)]
fn colours(alloc: Global) -> Result<Box<[Colour; MAX_SIDE]>, OutOfMemory> {
    match Box::new(alloc, [BLACK; MAX_SIDE]) {
        Ok(colours) => Ok(colours),
        Err(_) => Err(OutOfMemory),
    }
}
