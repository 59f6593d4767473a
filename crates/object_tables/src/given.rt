//! The table of EMF: an object gets the index that its record names.

ghost use Rattle.std.specs.Prelude.{◌≡◌, []};
ghost use Rattle.object_tables.specs.Table.{by_given_index};

use crate::store::Store;
use crate::table::{Contents, Table};
use draw_ops::{Fault, Handle, Object, RecordFault};
use std::alloc::Global;
use std::marker::Model;

/// A table in which a new object gets the index that its record names ([MS-EMF] 3.1.1.1), from 1 to below the number of
/// indexes in the file's header.
#[derive(Debug, Drop)]
pub struct Given<'a> {
    store: Store<'a>,
    handles: u16,
}

impl<'a> Model for Given<'a> {
    ghost use Rattle.object_tables.specs.Table.{TableState, by_given_index};

    ghost Value = { TableState };

    ghost view = { λ table. record { slots = table.store.slots; kind = by_given_index table.handles; capacity = table.store.capacity } };
}

impl<'a> Given<'a> {
    /// A table without objects, whose indexes are below `handles`. Allocates no memory.
    pub fn new(alloc: Global, handles: u16) -> Given<'a>
        ensures slots { result.slots ≡ [] }
        ensures kind { result.kind ≡ by_given_index handles }
        ensures capacity { result.capacity ≡ 0 }
    {
        Given {
            store: Store::new(alloc),
            handles,
        }
    }
}

impl<'a> Contents for Given<'a> {
    ghost state = { λ table. table };
}

impl<'a> Table<'a> for Given<'a> {
    fn create(&mut self, at: Option<Handle>, object: Object<'a>) -> Result<Handle, Fault> {
        let limit = u32::from(self.handles);
        let Some(handle) = at else {
            return Err(Fault::Record(RecordFault::NoSuchHandle));
        };
        if handle.0 == 0 || handle.0 >= limit {
            return Err(Fault::Record(RecordFault::NoSuchHandle));
        }
        if self.store.is_taken(handle) {
            return Err(Fault::Record(RecordFault::HandleTaken));
        }
        self.store.put(handle.0, object)
    }

    fn get(&self, handle: Handle) -> Result<Object<'a>, RecordFault> {
        self.store.get(handle)
    }

    fn remove(&mut self, handle: Handle) -> Result<(), RecordFault> {
        self.store.remove(handle)
    }

    fn clear(&mut self) {
        self.store.clear();
    }

    fn reserve(&mut self, slots: usize) -> Result<(), Fault> {
        self.store.reserve(slots)
    }
}
