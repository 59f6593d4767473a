//! The interface of object tables.

ghost use Rattle.std.specs.Prelude.{◌≡◌, ◌<◌, ◌≤◌, ◌^◌, [], IfOk, IfErr, OnOk, OnErr};
ghost use Rattle.std.specs.Result.{result_err};
ghost use Rattle.draw_ops.specs.Objects.{index_of, object_value_of};
ghost use Rattle.draw_ops.specs.Results.{result_map};
ghost use Rattle.draw_ops.specs.declared.fault.Fault.TheVariants.{OutOfMemory};
ghost use Rattle.object_tables.specs.Slots.{IsInOrder, object_or_fault};
ghost use Rattle.object_tables.specs.Table.{HasMade, HasRemoved, RejectsCreate, TableState, remove_fault};

use draw_ops::{Fault, Handle, Object, RecordFault};

/// A value that contains objects by their indexes.
pub trait Contents: Drop {
    /// The objects, sorted by index; how a new one gets its index; and the index below which no memory is needed.
    ghost state: { Self → TableState };
}

/// A table of a file's objects. The objects borrow parts of the file.
pub trait Table<'a>: Contents {
    /// Adds an object and returns its index: the lowest free one (WMF), or `at` (EMF). Fails with `TableFull`,
    /// `NoSuchHandle`, `HandleTaken` or `OutOfMemory`, and then nothing has changed.
    fn create(&mut self, at: Option<Handle>, object: Object<'a>) -> Result<Handle, Fault>
        ensures created { IfOk result (HasMade at object.entry (Self.state self.old) (Self.state self.new)) }
        ensures short { IfOk result (λ h. h.0 < 2 ^ 16) }
        ensures rejected { IfErr result (RejectsCreate (index_of at) (Self.state self.old)) }
        ensures kept { OnErr result ((Self.state self.new).slots ≡ (Self.state self.old).slots) }
        ensures kind { (Self.state self.new).kind ≡ (Self.state self.old).kind }
        ensures capacity { (Self.state self.old).capacity ≤ (Self.state self.new).capacity };

    /// The object at an index, or `NoSuchHandle` if there is none.
    fn get(&self, handle: Handle) -> Result<Object<'a>, RecordFault>
        ensures object { result_map object_value_of result ≡ object_or_fault handle.0 (Self.state self.now).slots }
        ensures in_order { IsInOrder (Self.state self.now).slots };

    /// Removes the object at an index. Fails with `NoSuchHandle` if there is none.
    fn remove(&mut self, handle: Handle) -> Result<(), RecordFault>
        ensures fault { result_err result ≡ remove_fault handle.0 (Self.state self.old).slots }
        ensures removed { OnOk result (HasRemoved handle.0 (Self.state self.old) (Self.state self.new)) }
        ensures kept { OnErr result ((Self.state self.new).slots ≡ (Self.state self.old).slots) }
        ensures kind { (Self.state self.new).kind ≡ (Self.state self.old).kind }
        ensures capacity { (Self.state self.new).capacity ≡ (Self.state self.old).capacity };

    /// Removes all objects, and keeps the capacity.
    fn clear(&mut self)
        ensures slots { (Self.state self.new).slots ≡ [] }
        ensures kind { (Self.state self.new).kind ≡ (Self.state self.old).kind }
        ensures capacity { (Self.state self.new).capacity ≡ (Self.state self.old).capacity };

    /// Allocates memory for the indexes below this one. Fails with `OutOfMemory` if the allocation fails.
    fn reserve(&mut self, slots: usize) -> Result<(), Fault>
        ensures ok { OnOk result (slots ≤ (Self.state self.new).capacity) }
        ensures full { OnErr result ((Self.state self.old).capacity < slots) }
        ensures rejected { IfErr result (λ fault. fault ≡ OutOfMemory) }
        ensures slots { (Self.state self.new).slots ≡ (Self.state self.old).slots }
        ensures kind { (Self.state self.new).kind ≡ (Self.state self.old).kind }
        ensures capacity { (Self.state self.old).capacity ≤ (Self.state self.new).capacity };
}
