//! Sources of steps: the records of a file, or a list.

ghost use Rattle.draw_ops.specs.Content.{Content};
ghost use Rattle.draw_ops.specs.Gives.{Gives, KeepsPlace, put};

use crate::record_fault::RecordFault;
use crate::step::Step;

/// A value with remaining steps, and possibly a fault at their end.
pub trait HasContent {
    /// What remains.
    ghost content: { Self → Content };
}

/// A source of steps, one for each record of a file. The steps borrow parts of the file.
pub trait OpSource<'a>: HasContent {
    /// The next step, `None` after the last one, or the fault at which the records break. After the last step every
    /// call returns `None`, and after a fault every call returns that fault.
    fn next_op(&mut self) -> Result<Option<Step<'a>>, RecordFault>
        ensures gives { Gives (Self.content self.old) result (Self.content self.new) };

    /// The same, but the step is written to `step`, so that a loop over records doesn't move it. Returns false after
    /// the last step. `step` is unchanged unless a step is written.
    fn next_into(&mut self, step: &mut Step<'a>) -> Result<bool, RecordFault>
        ensures gives { Gives (Self.content self.old) (put result step.new) (Self.content self.new) }
        ensures kept { KeepsPlace result step.old step.new };
}
