//! The table of a file's objects, of the kind of its format.

ghost use Rattle.std.specs.Prelude.{◌≡◌, []};
ghost use Rattle.object_tables.specs.FileTable.{state_of};
ghost use Rattle.object_tables.specs.Table.{index_bound, table_kind_of};

use crate::given::Given;
use crate::lowest_free::{LowestFree, MAX_SLOTS};
use crate::table::{Contents, Table};
use draw_ops::{Fault, Handle, Object, RecordFault};
use std::alloc::Global;

/// The objects of a file. Having one type for all formats lets the compiler generate the code for reading and playing
/// records only once.
#[derive(Debug, Drop)]
pub enum FileTable<'a> {
    LowestFree(LowestFree<'a>),
    Given(Given<'a>),
}

impl<'a> FileTable<'a> {
    /// The table for a file that may use this many indexes, if it gives a number.
    pub fn new(alloc: Global, handles: Option<u16>) -> FileTable<'a>
        ensures slots { (state_of result).slots ≡ [] }
        ensures kind { (state_of result).kind ≡ table_kind_of handles }
        ensures capacity { (state_of result).capacity ≡ 0 }
    {
        match handles {
            None => FileTable::LowestFree(LowestFree::new(alloc)),
            Some(handles) => FileTable::Given(Given::new(alloc, handles)),
        }
    }
}

/// The most objects of a file with this many indexes.
pub fn full_slots(handles: Option<u16>) -> usize
    ensures { result ≡ index_bound (table_kind_of handles) }
{
    match handles {
        None => MAX_SLOTS,
        Some(handles) => usize::from(handles),
    }
}

impl<'a> Contents for FileTable<'a> {
    ghost state = { state_of };
}

impl<'a> Table<'a> for FileTable<'a> {
    fn create(&mut self, at: Option<Handle>, object: Object<'a>) -> Result<Handle, Fault> {
        match self {
            FileTable::LowestFree(table) => table.create(at, object),
            FileTable::Given(table) => table.create(at, object),
        }
    }

    fn get(&self, handle: Handle) -> Result<Object<'a>, RecordFault> {
        match self {
            FileTable::LowestFree(table) => table.get(handle),
            FileTable::Given(table) => table.get(handle),
        }
    }

    fn remove(&mut self, handle: Handle) -> Result<(), RecordFault> {
        match self {
            FileTable::LowestFree(table) => table.remove(handle),
            FileTable::Given(table) => table.remove(handle),
        }
    }

    fn clear(&mut self) {
        match self {
            FileTable::LowestFree(table) => table.clear(),
            FileTable::Given(table) => table.clear(),
        }
    }

    fn reserve(&mut self, slots: usize) -> Result<(), Fault> {
        match self {
            FileTable::LowestFree(table) => table.reserve(slots),
            FileTable::Given(table) => table.reserve(slots),
        }
    }
}
