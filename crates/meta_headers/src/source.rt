//! The source of an opened file's steps, in any format.

use draw_ops::{HasContent, OpSource, RecordFault, Step};
use emf_records::EmfOps;
use wmf_records::WmfOps;

/// A source over the records of a file.
#[derive(Debug, Drop)]
pub enum Source<'a> {
    /// For a placeable or a plain WMF file.
    Wmf(WmfOps<'a>),
    /// For an EMF file.
    Emf(EmfOps<'a>),
}

impl<'a> HasContent for Source<'a> {
    ghost use Rattle.meta_headers.specs.SourceContent.{source_content};

    ghost content = { source_content };
}

impl<'a> OpSource<'a> for Source<'a> {
    fn next_into(&mut self, step: &mut Step<'a>) -> Result<bool, RecordFault> {
        match self {
            Source::Wmf(ops) => ops.next_into(step),
            Source::Emf(ops) => ops.next_into(step),
        }
    }

    /// The next record's step, `None` after the end record, or the fault at which the records break.
    fn next_op(&mut self) -> Result<Option<Step<'a>>, RecordFault> {
        match self {
            Source::Wmf(ops) => ops.next_op(),
            Source::Emf(ops) => ops.next_op(),
        }
    }
}
