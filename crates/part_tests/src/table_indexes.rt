//! Tables that grow object by object: each index is assigned, found, removed and assigned again, and if there is
//! memory, none fails.

use draw_ops::{Fault, Handle, Object, RecordFault};
use object_tables::{Given, LowestFree, Table};
use std::alloc::Global;

const FONT: Object<'static> = Object::Font;

/// The greatest indexes, above those that are tried one by one.
const GREATEST: [u32; 3] = [65532, 65533, 65534];

/// Whether a new object gets this index, the lowest free one, is found there, is removed, and gets it again.
fn is_made(table: &mut LowestFree<'static>, index: u32) -> bool {
    let at = Handle(index);
    table.create(None, FONT) == Ok(at)
        && table.get(at) == Ok(FONT)
        && table.remove(at) == Ok(())
        && table.get(at) == Err(RecordFault::NoSuchHandle)
        && table.create(None, FONT) == Ok(at)
}

/// Whether an object is put at an index, is found there, can't be put there twice, is removed, and is put there again.
fn is_put(table: &mut Given<'static>, index: u32) -> bool {
    let at = Handle(index);
    table.create(Some(at), FONT) == Ok(at)
        && table.get(at) == Ok(FONT)
        && table.create(Some(at), FONT) == Err(Fault::Record(RecordFault::HandleTaken))
        && table.remove(at) == Ok(())
        && table.create(Some(at), FONT) == Ok(at)
}

/// Whether the first object of a table for this many handles can be put at the last of them, and not at any index after
/// it.
fn is_last(alloc: Global, index: u32) -> bool {
    let handles = u16::try_from(index.wrapping_add(1)).unwrap_or(0);
    let mut table = Given::new(alloc, handles);
    let after = Some(Handle(index.wrapping_add(1)));
    table.create(after, FONT) == Err(Fault::Record(RecordFault::NoSuchHandle))
        && is_put(&mut table, index)
}

/// Whether the indexes from this one on are assigned again in order, after the objects there were removed.
fn is_made_again(table: &mut LowestFree<'static>, first: u32) -> bool {
    for index in first..1024 {
        if table.remove(Handle(index)) != Ok(()) {
            return false;
        }
    }
    for index in first..1024 {
        if table.create(None, FONT) != Ok(Handle(index)) {
            return false;
        }
    }
    true
}

#[test]
fn a_table_grows_to_each_index(rt: HostRuntime) {
    let mut table = LowestFree::new(rt.alloc());
    for index in 0..1024 {
        assert!(rt; is_made(&mut table, index), "{index}");
    }
    for _ in 0..3 {
        assert!(rt; table.create(None, FONT) == Err(Fault::Record(RecordFault::TableFull)));
    }
    for part in 0..32 {
        assert!(rt; is_made_again(&mut table, 32 * part), "from {part}");
    }
}

#[test]
fn an_object_is_put_at_each_index_in_order(rt: HostRuntime) {
    let mut table = Given::new(rt.alloc(), 65535);
    for index in 1..65535 {
        assert!(rt; is_put(&mut table, index), "{index}");
    }
    for index in 65535..66_000 {
        let rejected = Err(Fault::Record(RecordFault::NoSuchHandle));
        assert!(rt;
            table.create(Some(Handle(index)), FONT) == rejected,
            "{index}"
        );
    }
}

#[test]
fn the_first_object_is_put_at_each_index(rt: HostRuntime) {
    for index in 1..32770 {
        assert!(rt; is_last(rt.alloc(), index), "{index}");
    }
    for index in GREATEST {
        assert!(rt; is_last(rt.alloc(), index), "{index}");
    }
}
