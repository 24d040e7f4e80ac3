//! Walks over the slots of a cache of objects.
ghost use Rattle.std.specs.Prelude.{◌≡◌, ◌↔◌, ◌+◌, ◌<◌, IfNone, IfOk, IfSome, IsErrOf, None, Ok, OnErr};
ghost use Rattle.hcc_table.specs.AtSlots.{takes_one};
ghost use Rattle.hcc_table.specs.Steps.{freeing};
ghost use Rattle.hcc_cache.specs.Alones.{AreAlone};
ghost use Rattle.hcc_cache.specs.Calls.{CountsAt, HandsAt, TakesAtMost};
ghost use Rattle.hcc_cache.specs.Clients.{held_by};
ghost use Rattle.hcc_cache.specs.Known.{Knows};
ghost use Rattle.hcc_cache.specs.Objects.{KnowsObjects, is_word, shelf_of};
ghost use Rattle.hcc_cache.specs.Walked.{HoldsAt, IsSlotIn, PassesAt, shelf_in};

use crate::cache::Cache;
use crate::client::Client;
use crate::errors::LookupError;
use crate::gone::{GoneList, Objects};
use crate::handle::Handle;
use crate::lookups::pinned;
use crate::object_cache::{ObjectCache, ObjectClient};
use crate::objects::Object;
use crate::seeded::{SeededKey, key_from};
use hcc_rule::Key;

/// What a walk holds at a slot: a handle on the entry there, and what its insertion gave.
#[derive(Clone, Copy, Debug, PartialEq, Eq)]
pub struct HeldObject {
    pub handle: Handle,
    pub key: Key,
    pub object: Object,
    pub charge: u64,
}

impl ObjectCache {
    /// Holds the entry of a slot of a shard, where a look and then the acquire both find it
    /// visible, as a look-up of its key holds it: a program walks over a cache so, by one call a
    /// slot. None is held where there is no such shard or no such slot, either.
    ///
    /// Where the look finds a hidden entry that nobody holds, and the client's list has room, it
    /// tries once to free that entry, by one compare-exchange: where that wins the object is on the
    /// list.
    ///
    /// It is refused as `lookup` is, where there is such a slot. A handle uses a serial. It
    /// allocates nothing. It costs a load, and where the slot is visible an add and four loads;
    /// where it frees an entry what freeing the slot costs, a load and two subtractions.
    pub fn pin_at(
        &self,
        client: &mut ObjectClient,
        shard: u32,
        slot: u32,
    ) -> Result<Option<HeldObject>, LookupError>
        requires { KnowsObjects self.now client.old }
        ensures known { KnowsObjects self.now client.new }
        ensures outside { ¬ IsSlotIn self.now.cache shard slot
            → (result ≡ Ok None) × (client.new ≡ client.old) }
        ensures full { IsErrOf result LookupError.HandlesFull
            ↔ (IsSlotIn self.now.cache shard slot
            × (held_by client.old.client ≡ client.old.client.most)) }
        ensures spent { IsErrOf result LookupError.Spent
            ↔ (IsSlotIn self.now.cache shard slot
            × (held_by client.old.client < client.old.client.most)
            × (client.old.client.left ≡ 0)) }
        ensures refused { OnErr result (client.new ≡ client.old) }
        ensures held { IfOk result (λ o. IfSome o (λ held.
            HoldsAt self.now.cache shard slot held client.old.client client.new.client)) }
        ensures passed { IfOk result (λ o. IfNone o (IsSlotIn self.now.cache shard slot
            → PassesAt self.now.cache is_word shard slot (takes_one (shelf_of client.old))
            client.old.client client.new.client)) }
        ensures list { IfOk result (λ _. IsSlotIn self.now.cache shard slot
            → HandsAt self.now.cache (shelf_of client.old) (shelf_of client.new) shard
            client.old.client client.new.client) }
        ensures counts { IfOk result (λ _. IsSlotIn self.now.cache shard slot
            → CountsAt shard client.old.client client.new.client) }
        ensures steps { TakesAtMost (freeing self.now.cache.geometry.slots + 4)
            client.old.client client.new.client }
    {
        let cache = &self.cache;
        let shard = shard as usize;
        if shard >= cache.shards.len() || slot >= cache.geometry.slots {
            return Ok(None);
        }
        let ObjectClient { client, gone } = client;
        client.may_hold()?;
        Ok(cache.hold_at(client, shard, slot, gone))
    }
}

impl Cache<Objects> {
    /// The same at a slot that is there, where a handle may be given.
    fn hold_at(
        &self,
        client: &mut Client<Objects>,
        number: usize,
        slot: u32,
        list: &mut GoneList,
    ) -> Option<HeldObject>
        requires known { Knows self.now client.old }
        requires there { IsSlotIn self.now number slot }
        requires free { (held_by client.old < client.old.most) × (0 < client.old.left) }
        ensures known { Knows self.now client.new }
        ensures held { IfSome result (λ held.
            HoldsAt self.now number slot held client.old client.new) }
        ensures passed { IfNone result (PassesAt self.now is_word number slot
            (takes_one (shelf_in list.old)) client.old client.new) }
        ensures list { HandsAt self.now (shelf_in list.old) (shelf_in list.new) number
            client.old client.new }
        ensures counts { CountsAt number client.old client.new }
        ensures alone { AreAlone client.old client.new }
        ensures steps { TakesAtMost (freeing self.now.geometry.slots + 4) client.old client.new }
    {
        let shard = &self.shards[number];
        let serial = client.used;
        let seat = &mut client.seats[number];
        let pin = shard.pin_at(seat, slot, serial, list)?;
        let in_shard = shard.key(seat, pin);
        let word = shard.first_word(seat, pin);
        let charge = shard.charge(seat, pin);
        let key = key_from(client.seed, SeededKey { in_shard });
        Some(HeldObject {
            handle: client.keep(key, number, pinned(pin)),
            key,
            object: Object::of(word),
            charge,
        })
    }
}
