//! Laws of operations: how faults depend on the surface, and deletions on the rules.

ghost use Rattle.dc_stack.specs.DeletionLaws.{DeletionLaws};
ghost use Rattle.dc_stack.specs.FaultLaws.{FaultLaws};

use mapping::{nib_law, placing_law};

/// Each fault of an operation lies in its record. Every fault except `OffPlane` and `NibTooWide` is the same on each
/// surface. An operation without a fault on a surface has none on any smaller surface. One with a fault has the same
/// fault on any larger surface, except that `NibTooWide` may become `OffPlane` there.
pub fn fault_law()
    ensures { FaultLaws }
{
    placing_law();
    nib_law();
}

/// A selected object can be deleted exactly if the rules allow that, which those of the core profile don't. Afterwards
/// nothing has its index selected, what was selected keeps its values, and the deletion is counted. A deletion of any
/// other object only takes it from the table.
pub fn deletion_law()
    ensures { DeletionLaws }
{}
