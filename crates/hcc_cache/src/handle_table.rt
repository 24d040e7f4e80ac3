//! A client's table of handles.
ghost use Rattle.std.specs.Prelude.{◌≡◌, ◌≢◌, ◌+◌, ◌≤◌, ◌<◌, Some, None, [], IfOk};
ghost use Rattle.std.specs.Option.{option_copied};
ghost use Rattle.slab.specs.Slab.{ContainsKey, HasRoomFor, Updates, get, slab_len};
ghost use Rattle.hcc_cache.specs.declared.handle_table.TheConstants.{VACANT};

use crate::holding::Hold;
use std::alloc::{AllocError, Global};
use std::marker::Model;

/// The serial of a place without a handle: no handle has it.
pub(crate) const VACANT: u64 = u64::MAX;

/// What a client keeps of its handles, each at an index of its own: what a `Slab` would be, which
/// contracts see. A place without a handle is told by its serial alone, so giving a handle and
/// letting go of it, which each hit does, test nothing twice and write no more than they must.
#[derive(Drop)]
pub(crate) struct HandleTable {
    places: Vec<Hold>,
    // The first place without a handle, or `places.len()`: such a place names the next by `shard`.
    next: usize,
}

impl Model for HandleTable {
    ghost use Rattle.std.specs.Prelude.{map, vec_capacity};
    ghost use Rattle.slab.specs.Entry.{value_of};
    ghost use Rattle.slab.specs.Slab.{Slab};
    ghost use Rattle.hcc_cache.specs.declared.holding.Hold.{Hold};
    ghost use Rattle.hcc_cache.specs.HandleTables.{IsLinked, entries_of};

    ghost Value = { Slab Hold };

    ghost view = { λ table. record {
      slots = map value_of (entries_of table.places.items);
      vacant_key = table.next;
      capacity = vec_capacity table.places;
    } };

    ghost invariant = { λ table. IsLinked table.places.items table.next };
}

impl HandleTable {
    /// A table without handles, with room for so many.
    pub(crate) fn with_capacity(alloc: Global, capacity: usize) -> Result<HandleTable, AllocError>
        ensures empty { IfOk result (λ table. table.slots ≡ []) }
        ensures first { IfOk result (λ table. table.vacant_key ≡ 0) }
        ensures capacity { IfOk result (λ table. capacity ≤ table.capacity) }
    {
        Ok(HandleTable {
            places: Vec::with_capacity(alloc, capacity)?,
            next: 0,
        })
    }

    /// What is kept of the handle at an index, if there is one.
    pub(crate) fn get(&self, index: usize) -> Option<&Hold>
        ensures { option_copied result ≡ get self.now index }
    {
        match self.places.get(index) {
            Some(hold) => {
                if hold.serial == VACANT {
                    None
                } else {
                    Some(hold)
                }
            }
            None => None,
        }
    }

    /// What is kept of the handle that is at an index.
    pub(crate) fn at(&self, index: usize) -> Hold
        requires { ContainsKey self.now index }
        ensures { get self.now index ≡ Some result }
    {
        self.places[index]
    }

    /// Keeps this of a handle, and returns its index.
    pub(crate) fn insert_reserved(&mut self, hold: Hold) -> usize
        requires room { HasRoomFor self.old 1 }
        requires serial { hold.serial ≢ VACANT }
        ensures was_vacant { get self.old result ≡ None }
        ensures updates { Updates self.old self.new result (Some hold) }
        ensures len { slab_len self.new ≡ slab_len self.old + 1 }
        ensures capacity { self.new.capacity ≡ self.old.capacity }
    {
        let index = self.next;
        if index == self.places.len() {
            self.places.push_reserved(hold);
            self.next = index + 1;
            return index;
        }
        let place = &mut self.places[index];
        self.next = place.shard;
        *place = hold;
        index
    }

    /// Lets go of the handle at an index, and returns what was kept of it.
    pub(crate) fn remove(&mut self, index: usize) -> Hold
        requires { ContainsKey self.old index }
        ensures value { get self.old index ≡ Some result }
        ensures updates { Updates self.old self.new index None }
        ensures len { slab_len self.new + 1 ≡ slab_len self.old }
        ensures capacity { self.new.capacity ≡ self.old.capacity }
    {
        let place = &mut self.places[index];
        let hold = *place;
        place.serial = VACANT;
        place.shard = self.next;
        self.next = index;
        hold
    }
}
