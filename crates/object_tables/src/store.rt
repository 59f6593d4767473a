//! Objects in a list, each at its index.

ghost use Rattle.std.specs.Prelude.{◌≡◌, ◌≤◌, ◌<◌, ◌+◌, [], None, length, max, OnOk, OnErr, IfErr, IfOk, IsSome, IsTrue};
ghost use Rattle.std.specs.List.{position};
ghost use Rattle.std.specs.Option.{is_none, option_map};
ghost use Rattle.std.specs.Result.{result_err};
ghost use Rattle.draw_ops.specs.Objects.{object_value_of};
ghost use Rattle.draw_ops.specs.Results.{result_map};
ghost use Rattle.draw_ops.specs.declared.fault.Fault.TheVariants.{OutOfMemory};
ghost use Rattle.object_tables.specs.Slots.{IsInOrder, is_taken, lowest_free, object_at, object_or_fault, with_object, without_object};
ghost use Rattle.object_tables.specs.Store.{places_taken};
ghost use Rattle.object_tables.specs.Table.{remove_fault};

use draw_ops::{Fault, Handle, Object, RecordFault};
use std::alloc::Global;
use std::marker::Model;

/// Objects in a list, each at its index. The memory depends on the greatest index.
#[derive(Debug, Drop)]
pub(crate) struct Store<'a> {
    places: Vec<Option<Object<'a>>>,
}

impl<'a> Model for Store<'a> {
    ghost use Rattle.std.specs.Prelude.{length, vec_capacity};
    ghost use Rattle.object_tables.specs.Store.{StoreState, slots_from};

    ghost Value = { StoreState };

    ghost view = { λ s. record { slots = slots_from 0 s.places.items; places = length s.places.items; capacity = vec_capacity s.places } };
}

impl<'a> Store<'a> {
    /// A store without objects. Allocates no memory.
    pub(crate) fn new(alloc: Global) -> Store<'a>
        ensures slots { result.slots ≡ [] }
        ensures places { result.places ≡ 0 }
        ensures capacity { result.capacity ≡ 0 }
    {
        Store {
            places: Vec::new(alloc),
        }
    }

    /// The object at an index, if the list is long enough and there is one.
    fn at(&self, index: u32) -> Option<Object<'a>>
        ensures object { option_map object_value_of result ≡ object_at index self.now.slots }
        ensures place { IsSome result → index < self.now.places }
        ensures in_order { IsInOrder self.now.slots }
    {
        if (index as usize) < self.places.len() {
            self.places[index as usize]
        } else {
            None
        }
    }

    /// The object at an index, or `NoSuchHandle` if there is none.
    pub(crate) fn get(&self, handle: Handle) -> Result<Object<'a>, RecordFault>
        ensures object { result_map object_value_of result ≡ object_or_fault handle.0 self.now.slots }
        ensures in_order { IsInOrder self.now.slots }
    {
        match self.at(handle.0) {
            Some(object) => Ok(object),
            None => Err(RecordFault::NoSuchHandle),
        }
    }

    /// Whether an object has this index.
    pub(crate) fn is_taken(&self, handle: Handle) -> bool
        ensures taken { result ≡ is_taken handle.0 self.now.slots }
        ensures place { IsTrue result → handle.0 < self.now.places }
    {
        self.at(handle.0).is_some()
    }

    /// Puts an object at an index that is free.
    pub(crate) fn put(&mut self, index: u32, object: Object<'a>) -> Result<Handle, Fault>
        requires free { object_at index self.old.slots ≡ None }
        ensures index { IfOk result (λ handle. handle.0 ≡ index) }
        ensures put { OnOk result (self.new.slots ≡ with_object index (object_value_of object.entry) self.old.slots) }
        ensures places { OnOk result (self.new.places ≡ max (index + 1) self.old.places) }
        ensures kept { OnErr result (self.new.slots ≡ self.old.slots) }
        ensures same_places { OnErr result (self.new.places ≡ self.old.places) }
        ensures memory { IfErr result (λ fault. fault ≡ OutOfMemory) }
        ensures full { OnErr result (self.old.capacity ≤ index) }
        ensures capacity { self.old.capacity ≤ self.new.capacity }
    {
        self.reach(index)?;
        self.places[index as usize] = Some(object);
        Ok(Handle(index))
    }

    /// Extends the list so that it has a slot at this index.
    fn reach(&mut self, index: u32) -> Result<(), Fault>
        ensures places { OnOk result (self.new.places ≡ max (index + 1) self.old.places) }
        ensures same_places { OnErr result (self.new.places ≡ self.old.places) }
        ensures slots { self.new.slots ≡ self.old.slots }
        ensures memory { IfErr result (λ fault. fault ≡ OutOfMemory) }
        ensures full { OnErr result (self.old.capacity ≤ index) }
        ensures capacity { self.old.capacity ≤ self.new.capacity }
    {
        let place = index as usize;
        if place < self.places.len() {
            return Ok(());
        }
        match self.places.resize(place + 1, None) {
            Ok(()) => Ok(()),
            Err(_) => Err(Fault::OutOfMemory),
        }
    }

    /// Removes the object at an index. Fails with `NoSuchHandle` if there is none.
    pub(crate) fn remove(&mut self, handle: Handle) -> Result<(), RecordFault>
        ensures fault { result_err result ≡ remove_fault handle.0 self.old.slots }
        ensures removed { OnOk result (self.new.slots ≡ without_object handle.0 self.old.slots) }
        ensures kept { OnErr result (self.new.slots ≡ self.old.slots) }
        ensures places { self.new.places ≡ self.old.places }
        ensures capacity { self.new.capacity ≡ self.old.capacity }
    {
        if !self.is_taken(handle) {
            return Err(RecordFault::NoSuchHandle);
        }
        self.places[handle.0 as usize] = None;
        Ok(())
    }

    /// The lowest free index.
    pub(crate) fn lowest_free(&self) -> usize
        ensures value { result ≡ lowest_free self.now.slots }
        ensures free { object_at result self.now.slots ≡ None }
        ensures within { result ≤ self.now.places }
        ensures full { result ≡ self.now.places → length self.now.slots ≡ self.now.places }
        ensures not_full { result < self.now.places → length self.now.slots < self.now.places }
    {
        first_free_or_end(self.places.as_slice())
    }

    /// Removes all objects, and keeps the capacity.
    pub(crate) fn clear(&mut self)
        ensures slots { self.new.slots ≡ [] }
        ensures places { self.new.places ≡ 0 }
        ensures capacity { self.new.capacity ≡ self.old.capacity }
    {
        self.places.clear();
    }

    /// Allocates memory for the indexes below this one. Fails with `OutOfMemory` if the allocation fails.
    pub(crate) fn reserve(&mut self, places: usize) -> Result<(), Fault>
        ensures ok { OnOk result (places ≤ self.new.capacity) }
        ensures full { OnErr result (self.old.capacity < places) }
        ensures memory { IfErr result (λ fault. fault ≡ OutOfMemory) }
        ensures slots { self.new.slots ≡ self.old.slots }
        ensures places { self.new.places ≡ self.old.places }
        ensures capacity { self.old.capacity ≤ self.new.capacity }
    {
        if places <= self.places.capacity() {
            return Ok(());
        }
        match self.places.reserve(places - self.places.len()) {
            Ok(()) => Ok(()),
            Err(_) => Err(Fault::OutOfMemory),
        }
    }
}

/// The first free slot, if there is one.
fn first_free(places: &[Option<Object<'_>>]) -> Option<usize>
    ensures { result ≡ position (λ place. is_none place) places.now }
{
    places.iter().position(|place| place.is_none())
}

/// The first free slot, or the end.
fn first_free_or_end(places: &[Option<Object<'_>>]) -> usize
    ensures { result ≡ places_taken places.now }
{
    match first_free(places) {
        Some(place) => place,
        None => places.len(),
    }
}
