//! The table of WMF: an object gets the lowest free index.

ghost use Rattle.std.specs.Prelude.{◌≡◌, []};
ghost use Rattle.object_tables.specs.Table.{by_lowest_free};

use crate::store::Store;
use crate::table::{Contents, Table};
use draw_ops::{Fault, Handle, Object, RecordFault};
use std::alloc::Global;
use std::marker::Model;

/// The most objects that a WMF file has at a time.
pub const MAX_SLOTS: usize = 1024;

/// A table in which a new object gets the lowest free index ([MS-WMF] 3.1.4.1), whatever its record says. It has at
/// most 1,024 objects at a time.
#[derive(Debug, Drop)]
pub struct LowestFree<'a> {
    store: Store<'a>,
}

impl<'a> Model for LowestFree<'a> {
    ghost use Rattle.std.specs.Prelude.{◌≤◌};
    ghost use Rattle.object_tables.specs.Table.{TableState, by_lowest_free, lowest_free_limit};

    ghost Value = { TableState };

    ghost view = { λ table. record { slots = table.store.slots; kind = by_lowest_free; capacity = table.store.capacity } };

    ghost invariant = { λ table. table.store.places ≤ lowest_free_limit };
}

impl<'a> LowestFree<'a> {
    /// A table without objects. Allocates no memory.
    pub fn new(alloc: Global) -> LowestFree<'a>
        ensures slots { result.slots ≡ [] }
        ensures kind { result.kind ≡ by_lowest_free }
        ensures capacity { result.capacity ≡ 0 }
    {
        LowestFree {
            store: Store::new(alloc),
        }
    }
}

impl<'a> Contents for LowestFree<'a> {
    ghost state = { λ table. table };
}

impl<'a> Table<'a> for LowestFree<'a> {
    fn create(&mut self, at: Option<Handle>, object: Object<'a>) -> Result<Handle, Fault> {
        let index = self.store.lowest_free();
        if index >= MAX_SLOTS {
            return Err(Fault::Record(RecordFault::TableFull));
        }
        self.store.put(index as u32, object)
    }

    fn get(&self, handle: Handle) -> Result<Object<'a>, RecordFault> {
        self.store.get(handle)
    }

    fn remove(&mut self, handle: Handle) -> Result<(), RecordFault> {
        self.store.remove(handle)
    }

    fn clear(&mut self) {
        self.store.clear();
    }

    fn reserve(&mut self, slots: usize) -> Result<(), Fault> {
        self.store.reserve(slots)
    }
}
