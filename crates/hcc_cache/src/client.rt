//! A client: a seat at each shard, its serials, and what it keeps of its handles.
ghost use Rattle.std.specs.Prelude.{◌≡◌, ◌↔◌, IfNone, IfSome, IsTrue};
ghost use Rattle.hcc_cache.specs.Clients.{Holds, held_by, hold_of};
ghost use Rattle.hcc_cache.specs.Handles.{handle_of, HoldsNone};

use crate::handle::{Handle, HandleParts};
use crate::handle_table::HandleTable;
use crate::holding::{Alone, Hold};
use crate::seeded::Seeded;
use hcc_shard::ShardSeat;
use slab::Slab;

/// One client of a cache. One thread works with it at a time; it may go from thread to thread.
#[derive(Drop)]
pub struct Client<T> {
    pub(crate) number: u32,
    /// The seed of its cache, beside what each call reads of a client.
    pub(crate) seed: u64,
    /// How many handles it holds, and how many it may hold.
    pub(crate) held: u32,
    pub(crate) most: u32,
    /// How many serials it used, and how many are left.
    pub(crate) used: u64,
    pub(crate) left: u64,
    /// Its seat at each shard.
    pub(crate) seats: Vec<ShardSeat<Seeded<T>>>,
    /// What it keeps of its handles, by their indices.
    pub(crate) handles: HandleTable,
    /// Its standalone entries.
    pub(crate) alone: Slab<Alone>,
}

impl<T> Client<T> {
    /// Its number among the cache's clients, from 0. It costs a copy.
    pub fn number(&self) -> u32
        ensures { result ≡ self.now.number }
    {
        self.number
    }

    /// How many handles it holds. It costs a copy.
    pub fn held(&self) -> u32
        ensures { result ≡ held_by self.now }
    {
        self.held
    }

    /// How many serials it has left. It costs a copy.
    pub fn serials_left(&self) -> u64
        ensures { result ≡ self.now.left }
    {
        self.left
    }

    /// Whether it holds this handle. It costs a look at the handle's index.
    pub fn holds(&self, handle: Handle) -> bool
        ensures { IsTrue result ↔ Holds self.now handle }
    {
        self.find(handle).is_some()
    }

    /// The handle of these parts, if it holds that. It costs a look at the handle's index.
    pub fn handle(&self, parts: HandleParts) -> Option<Handle>
        ensures some { IfSome result (λ handle. (handle ≡ handle_of parts)
            × Holds self.now handle) }
        ensures none { IfNone result (HoldsNone self.now parts) }
    {
        let handle = parts.handle();
        self.find(handle)?;
        Some(handle)
    }

    /// The handle at this index, if it holds one there. It costs a look at the index.
    pub fn handle_at(&self, index: usize) -> Option<Handle>
        ensures some { IfSome result (λ handle. (handle.index ≡ index) × Holds self.now handle) }
        ensures none { IfNone result ((handle : Handle) → handle.index ≡ index
            → ¬ Holds self.now handle) }
    {
        let hold = self.handles.get(index)?;
        Some(Handle {
            client: self.number,
            index,
            serial: hold.serial,
        })
    }

    /// What it keeps of a handle, if it holds it.
    pub(crate) fn find(&self, handle: Handle) -> Option<Hold>
        ensures { result ≡ hold_of self.now handle }
    {
        match self.handles.get(handle.index) {
            Some(hold) => {
                if handle.client == self.number && hold.serial == handle.serial {
                    Some(*hold)
                } else {
                    None
                }
            }
            None => None,
        }
    }
}
