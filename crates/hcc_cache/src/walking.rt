//! Walks over the slots of a cache that runs.
ghost use Rattle.std.specs.Prelude.{◌≡◌, ◌↔◌, ◌<◌, false, IfNone, IfOk, IfSome, IsErrOf, None, Ok, OnErr};
ghost use Rattle.hcc_cache.specs.Calls.{CountsAt, TakesAtMost};
ghost use Rattle.hcc_cache.specs.Clients.{held_by};
ghost use Rattle.hcc_cache.specs.Known.{Knows};
ghost use Rattle.hcc_cache.specs.Stays.{Stays};
ghost use Rattle.hcc_cache.specs.Walked.{HoldsEntryAt, IsSlotIn, PassesAt};

use crate::cache::Cache;
use crate::client::Client;
use crate::errors::LookupError;
use crate::handle::Handle;
use crate::lookups::pinned;
use crate::seeded::{SeededKey, key_from};
use hcc_rule::{Key, Tag};
use hcc_table::NoList;
use hcc_word::releases;

/// What a walk holds at a slot: a handle on the entry there, and what its words say of it.
#[derive(Clone, Copy, Debug, PartialEq, Eq)]
pub struct HeldEntry {
    pub handle: Handle,
    pub key: Key,
    pub charge: u64,
    /// How many uses its meta word counts.
    pub uses: u32,
}

impl<T: Tag> Cache<T> {
    /// Holds the entry of a slot of a shard, where a look and then the acquire both find it
    /// visible, as a look-up of its key holds it: a program walks over a cache so, by one call a
    /// slot, and reads the value by the handle. None is held where there is no such shard or no
    /// such slot, either. An entry that stands visible there through the whole call is held
    /// (`laws::law_walks`).
    ///
    /// It makes and takes no entry, and shows and hides none. It marks nothing and counts no use,
    /// nor does a release that isn't useful. The uses that it tells are those that one load finds
    /// once the entry is held.
    ///
    /// It is refused as `lookup` is, where there is such a slot. A handle uses a serial. It
    /// allocates nothing. It costs a load, and where the slot is visible an add and four loads.
    pub fn pin_at(
        &self,
        client: &mut Client<T>,
        shard: u32,
        slot: u32,
    ) -> Result<Option<HeldEntry>, LookupError>
        requires { Knows self.now client.old }
        ensures known { Knows self.now client.new }
        ensures outside { ¬ IsSlotIn self.now shard slot
            → (result ≡ Ok None) × (client.new ≡ client.old) }
        ensures full { IsErrOf result LookupError.HandlesFull
            ↔ (IsSlotIn self.now shard slot × (held_by client.old ≡ client.old.most)) }
        ensures spent { IsErrOf result LookupError.Spent
            ↔ (IsSlotIn self.now shard slot × (held_by client.old < client.old.most)
            × (client.old.left ≡ 0)) }
        ensures refused { OnErr result (client.new ≡ client.old) }
        ensures held { IfOk result (λ o. IfSome o (λ held.
            HoldsEntryAt self.now T.fits shard slot held client.old client.new)) }
        ensures passed { IfOk result (λ o. IfNone o (IsSlotIn self.now shard slot
            → PassesAt self.now T.fits shard slot false client.old client.new)) }
        ensures stays { Stays self.now client.old client.new }
        ensures counts { IfOk result (λ _. IsSlotIn self.now shard slot
            → CountsAt shard client.old client.new) }
        ensures steps { TakesAtMost 7 client.old client.new }
    {
        let shard = shard as usize;
        if shard >= self.shards.len() || slot >= self.geometry.slots {
            return Ok(None);
        }
        client.may_hold()?;
        Ok(self.hold_slot(client, shard, slot))
    }

    /// The same at a slot that is there, where a handle may be given.
    fn hold_slot(&self, client: &mut Client<T>, number: usize, slot: u32) -> Option<HeldEntry>
        requires known { Knows self.now client.old }
        requires there { IsSlotIn self.now number slot }
        requires free { (held_by client.old < client.old.most) × (0 < client.old.left) }
        ensures known { Knows self.now client.new }
        ensures held { IfSome result (λ held.
            HoldsEntryAt self.now T.fits number slot held client.old client.new) }
        ensures passed { IfNone result
            (PassesAt self.now T.fits number slot false client.old client.new) }
        ensures stays { Stays self.now client.old client.new }
        ensures counts { CountsAt number client.old client.new }
        ensures steps { TakesAtMost 7 client.old client.new }
    {
        let shard = &self.shards[number];
        let serial = client.used;
        let seat = &mut client.seats[number];
        let Some(pin) = shard.pin_at(seat, slot, serial, &mut NoList) else {
            return None;
        };
        let word = shard.word(seat, slot);
        let in_shard = shard.key(seat, pin);
        let charge = shard.charge(seat, pin);
        let key = key_from(client.seed, SeededKey { in_shard });
        Some(HeldEntry {
            handle: client.keep(key, number, pinned(pin)),
            key,
            charge,
            uses: releases(word),
        })
    }
}
