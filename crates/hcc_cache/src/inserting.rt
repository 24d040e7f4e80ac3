//! Insertions.
ghost use Rattle.std.specs.Prelude.{◌≡◌, ◌+◌, ◌-◌, ◌*◌, ◌<◌, ◌≤◌, ◌^◌, ◌↔◌, true, Some, None, Ok, Err, IfOk, IfErr, IsErrOf, MatchResult, length, ℕ};
ghost use Rattle.slab.specs.Slab.{get, slab_len, HasRoomFor, Updates};
ghost use Rattle.hcc_cache.specs.declared.holding.Kept.TheVariants.{Standing};
ghost use Rattle.hcc_charge.specs.Evicted.{turn_room};
ghost use Rattle.hcc_shard.specs.Inserted.{inserting, inserting_between, inserting_listed, listed_between};
ghost use Rattle.hcc_cache.specs.Alones.{AreAlone, LeavesAlone};
ghost use Rattle.hcc_cache.specs.Calls.{HandsAt, OnlyAt, TakesAtMost, TakesFor, capacities_of, shard_in};
ghost use Rattle.hcc_cache.specs.Clients.{held_by};
ghost use Rattle.hcc_cache.specs.Inserts.{Inserts, InsertsAt, InsertsAtListed, InsertsListed, InsertsPinnedAt, InsertsPinnedAtListed, InsertsWith, InsertsWithListed, IsLate, LacksMemory, RefusesCopy, RefusesCopyAt, RefusesCopyAtListed, RefusesCopyListed, RefusesPinnedAt, RefusesWith, answer_of};
ghost use Rattle.hcc_cache.specs.Known.{Knows};
ghost use Rattle.hcc_cache.specs.Moments.{KnowsShown};

use crate::cache::Cache;
use crate::client::Client;
use crate::errors::{CopyError, InsertError, LookupError};
use crate::handle::Handle;
use crate::holding::{Alone, Kept, Lent, Standing, Value};
use crate::lookups::pinned;
use crate::priority::Priority;
use crate::seeded::Seeded;
use hcc_charge::Refused;
use hcc_rule::{Draft, Key, Tag};
use hcc_shard::Pinned;
use hcc_table::{FreedList, NoList};
use std::alloc::Global;

/// What came of an insertion.
#[derive(Clone, Copy, Debug, PartialEq, Eq)]
pub enum Inserted {
    /// The entry is in the table.
    Placed,
    /// It is as if the entry had been placed and evicted at once; only of insertions without a
    /// handle.
    Dropped,
    /// The entry is in no table: it goes with its last handle; only of insertions with a handle.
    Standalone,
}

impl From<Refused> for InsertError {
    ghost use Rattle.hcc_cache.specs.Inserts.{error_of};

    ghost from_gives = { λ why e. e ≡ error_of why };

    fn from(why: Refused) -> InsertError {
        match why {
            Refused::TooLarge => InsertError::TooLarge,
            Refused::CapacityFull => InsertError::CapacityFull,
            Refused::OccupancyFull => InsertError::OccupancyFull,
        }
    }
}

impl<T: Tag> Cache<T> {
    /// Inserts an entry of this key, value and charge, and keeps no handle on it. A place and the
    /// charge are reserved in the key's shard first, which may evict others.
    ///
    /// It is dropped only where the shard was full and no place was found, where an entry of the
    /// key was met first, or where as many slots as the shard has were seen taken. It is refused
    /// where all serials of the client are used, then where a strict shard's capacity is below the
    /// charge: nothing is changed then. It is refused under strict capacity where evictions freed
    /// too little, or no place: they stay made, and a serial is used. In a cache of one client it
    /// meets the entry that look-ups find, or is put before it (`laws::law_matches`), and where it
    /// evicts nothing, as where there is room, it changes no other slot (`laws::law_room`).
    /// `laws::law_kept_shown` says how long what was placed stays shown.
    ///
    /// The value fits the key by the tag and has at most [`Cache::room`] bytes, and the charge
    /// isn't 0. It allocates nothing. It costs a reservation, and each probe of the key as a
    /// look-up does, and a store for each word of the entry.
    pub fn insert(
        &self,
        client: &mut Client<T>,
        key: Key,
        value: &[u8],
        charge: u32,
        priority: Priority,
    ) -> Result<Inserted, InsertError>
        requires known { Knows self.now client.old }
        requires fits { T.fits self.now.tag key value.now }
        requires short { length value.now ≤ 8 * self.now.geometry.room }
        requires paid { 0 < charge }
        ensures known { Knows self.now client.new }
        ensures spent { IsErrOf result InsertError.Spent ↔ (client.old.left ≡ 0) }
        ensures large { IsErrOf result InsertError.TooLarge
            ↔ ((0 < client.old.left) × (self.now.strict ≡ true)
            × (self.now.capacity < charge)) }
        ensures inserted { Inserts self.now key charge priority value.now result
            client.old client.new }
        ensures evicts { InsertsAt self.now T.fits key charge priority result
            client.old client.new }
        ensures shown { self.now.geometry.clients ≡ 1 → result ≡ Ok Inserted.Placed
            → KnowsShown self.now key client.new }
        ensures others { OnlyAt (shard_in self.now key) client.old client.new }
        ensures frees { 0 < client.old.left
            → (self.now.strict ≡ true → charge ≤ self.now.capacity)
            → TakesFor self.now 7
            (inserting_between self.now.geometry.slots self.now.geometry.room)
            (shard_in self.now key) client.old client.new }
        ensures steps { TakesAtMost
            (inserting self.now.geometry.slots self.now.geometry.room)
            client.old client.new }
    {
        if client.left == 0 {
            return Err(InsertError::Spent);
        }
        if self.is_too_large(charge) {
            return Err(InsertError::TooLarge);
        }
        self.stored(client, key, value, charge, priority, &mut NoList)
    }

    /// The same, where a serial is left and the charge isn't too large. It puts on a list what its
    /// eviction frees.
    pub(crate) fn stored<L: FreedList<Seeded<T>>>(
        &self,
        client: &mut Client<T>,
        key: Key,
        value: &[u8],
        charge: u32,
        priority: Priority,
        list: &mut L,
    ) -> Result<Inserted, InsertError>
        requires known { Knows self.now client.old }
        requires fits { T.fits self.now.tag key value.now }
        requires short { length value.now ≤ 8 * self.now.geometry.room }
        requires paid { 0 < charge }
        requires some { 0 < client.old.left }
        requires small { self.now.strict ≡ true → charge ≤ self.now.capacity }
        ensures known { Knows self.now client.new }
        ensures list { HandsAt self.now (L.shelf list.old) (L.shelf list.new)
            (shard_in self.now key) client.old client.new }
        ensures inserted { InsertsListed self.now key charge priority value.now
            (turn_room (L.shelf list.old)) (turn_room (L.shelf list.new)) result
            client.old client.new }
        ensures evicts { InsertsAtListed self.now T.fits key charge priority
            (turn_room (L.shelf list.old)) (turn_room (L.shelf list.new)) result
            client.old client.new }
        ensures shown { self.now.geometry.clients ≡ 1 → result ≡ Ok Inserted.Placed
            → KnowsShown self.now key client.new }
        ensures no_spent { ¬ IsErrOf result InsertError.Spent }
        ensures no_large { ¬ IsErrOf result InsertError.TooLarge }
        ensures alone { AreAlone client.old client.new }
        ensures others { OnlyAt (shard_in self.now key) client.old client.new }
        ensures frees { TakesFor self.now 7
            (listed_between self.now.geometry.slots self.now.geometry.room L.loads)
            (shard_in self.now key) client.old client.new }
        ensures steps { TakesAtMost
            (inserting_listed self.now.geometry.slots self.now.geometry.room L.loads)
            client.old client.new }
    {
        let seeded = self.key_to(client, key);
        let shard = self.shard_number(seeded);
        let draft = Draft {
            key: seeded.in_shard,
            charge,
            serial: client.next_serial(),
            countdown: priority.countdown(),
            name: None,
        };
        let seat = &mut client.seats[shard];
        answered(self.shards[shard].insert(seat, draft, value, list))
    }

    /// Whether a charge is above the capacity of a shard, which is strict.
    pub(crate) fn is_too_large(&self, charge: u32) -> bool
        ensures yes { result ≡ true → (self.now.strict ≡ true) × (self.now.capacity < charge) }
        ensures no { (self.now.strict ≡ true) × (self.now.capacity < charge) → result ≡ true }
    {
        self.strict && self.capacity < charge as u64
    }
}

/// What a shard returned, as the caller gets it.
fn answered(told: Result<hcc_shard::Inserted, Refused>) -> Result<Inserted, InsertError>
    ensures { result ≡ answer_of told }
{
    match told {
        Ok(hcc_shard::Inserted::Placed) => Ok(Inserted::Placed),
        Ok(hcc_shard::Inserted::Dropped) => Ok(Inserted::Dropped),
        Err(why) => Err(InsertError::from(why)),
    }
}

impl<T> Client<T> {
    /// Uses a serial.
    fn next_serial(&mut self) -> u64
        requires { (0 < self.old.left) × (self.old.used + self.old.left < 2 ^ 64) }
        ensures serial { result ≡ self.old.used }
        ensures rest { self.new ≡ record self.old {
          used = self.old.used + 1;
          left = self.old.left - 1;
        } }
    {
        let serial = self.used;
        self.used += 1;
        self.left -= 1;
        serial
    }
}

impl<T: Tag> Cache<T> {
    /// Inserts an entry of this key, value and charge, and gives a handle on it. Where it isn't put
    /// into the table, for one of the reasons that `insert` has, it is standalone: look-ups don't
    /// find it, its charge is in the usage, and it goes with its last handle.
    ///
    /// It is refused where the client holds all the handles that it may, and then as `insert` is;
    /// the value is handed back.
    ///
    /// The value fits the key by the tag and has at most [`Cache::room`] bytes, and the charge
    /// isn't 0. It allocates nothing. It costs what `insert` does, and where no place was found two
    /// adds more.
    pub fn insert_pinned(
        &self,
        client: &mut Client<T>,
        key: Key,
        value: Vec<u8>,
        charge: u32,
        priority: Priority,
    ) -> Result<(Handle, Inserted), (InsertError, Vec<u8>)>
        requires known { Knows self.now client.old }
        requires fits { T.fits self.now.tag key value.items }
        requires short { length value.items ≤ 8 * self.now.geometry.room }
        requires paid { 0 < charge }
        ensures known { Knows self.now client.new }
        ensures back { IfErr result (λ e. e.1 ≡ value) }
        ensures full { IfErr result (λ e. (e.0 ≡ InsertError.HandlesFull)
            ↔ (held_by client.old ≡ client.old.most)) }
        ensures spent { IfErr result (λ e. (e.0 ≡ InsertError.Spent)
            ↔ ((held_by client.old < client.old.most) × (client.old.left ≡ 0))) }
        ensures large { IfErr result (λ e. (e.0 ≡ InsertError.TooLarge)
            ↔ ((held_by client.old < client.old.most) × (0 < client.old.left)
            × (self.now.strict ≡ true) × (self.now.capacity < charge))) }
        ensures may { IfOk result (λ _. (held_by client.old < client.old.most)
            × (0 < client.old.left)
            × (self.now.strict ≡ true → charge ≤ self.now.capacity)) }
        ensures inserted { MatchResult result
            (λ made. InsertsWith self.now key charge priority value.items made.0 made.1
            client.old client.new)
            (λ e. RefusesWith self.now key charge priority value.items e.0
            client.old client.new) }
        ensures evicts { MatchResult result
            (λ made. InsertsPinnedAt self.now T.fits key charge priority made.1
            client.old client.new)
            (λ e. RefusesPinnedAt self.now T.fits key charge priority e.0
            client.old client.new) }
        ensures shown { self.now.geometry.clients ≡ 1
            → IfOk result (λ made. made.1 ≡ Inserted.Placed
            → KnowsShown self.now key client.new) }
        ensures others { OnlyAt (shard_in self.now key) client.old client.new }
        ensures frees { held_by client.old < client.old.most → 0 < client.old.left
            → (self.now.strict ≡ true → charge ≤ self.now.capacity)
            → TakesFor self.now 7
            (inserting_between self.now.geometry.slots self.now.geometry.room)
            (shard_in self.now key) client.old client.new }
        ensures steps { TakesAtMost
            (inserting self.now.geometry.slots self.now.geometry.room)
            client.old client.new }
    {
        match client.may_hold() {
            Ok(()) => {}
            Err(LookupError::HandlesFull) => return Err((InsertError::HandlesFull, value)),
            Err(LookupError::Spent) => return Err((InsertError::Spent, value)),
        }
        if self.is_too_large(charge) {
            return Err((InsertError::TooLarge, value));
        }
        match self.stored_pinned(client, key, value, charge, priority, &mut NoList) {
            Ok(made) => Ok(made),
            Err((CopyError::Refused(why), value)) => Err((why, value)),
            Err((CopyError::OutOfMemory, _)) => unreachable!(),
        }
    }

    /// The same of a value that stays the caller's. It is copied only where it comes to stand
    /// alone, into memory that is asked for then: what is placed takes none.
    ///
    /// It is refused as `insert_pinned` is, and last where there is no such memory: evictions stay
    /// made, a serial is used, and the entry, which stood alone, was let go, so that charge and
    /// place are given back.
    ///
    /// It costs what `insert_pinned` does; where memory was refused two subtractions more.
    pub fn insert_pinned_copy(
        &self,
        alloc: Global,
        client: &mut Client<T>,
        key: Key,
        value: &[u8],
        charge: u32,
        priority: Priority,
    ) -> Result<(Handle, Inserted), CopyError>
        requires known { Knows self.now client.old }
        requires fits { T.fits self.now.tag key value.now }
        requires short { length value.now ≤ 8 * self.now.geometry.room }
        requires paid { 0 < charge }
        ensures known { Knows self.now client.new }
        ensures full { IsErrOf result (CopyError.Refused InsertError.HandlesFull)
            ↔ (held_by client.old ≡ client.old.most) }
        ensures spent { IsErrOf result (CopyError.Refused InsertError.Spent)
            ↔ ((held_by client.old < client.old.most) × (client.old.left ≡ 0)) }
        ensures large { IsErrOf result (CopyError.Refused InsertError.TooLarge)
            ↔ ((held_by client.old < client.old.most) × (0 < client.old.left)
            × (self.now.strict ≡ true) × (self.now.capacity < charge)) }
        ensures inserted { MatchResult result
            (λ made. InsertsWith self.now key charge priority value.now made.0 made.1
            client.old client.new)
            (λ why. RefusesCopy self.now key charge priority value.now why
            client.old client.new) }
        ensures evicts { MatchResult result
            (λ made. InsertsPinnedAt self.now T.fits key charge priority made.1
            client.old client.new)
            (λ why. RefusesCopyAt self.now T.fits key charge priority why
            client.old client.new) }
        ensures shown { self.now.geometry.clients ≡ 1
            → IfOk result (λ made. made.1 ≡ Inserted.Placed
            → KnowsShown self.now key client.new) }
        ensures others { OnlyAt (shard_in self.now key) client.old client.new }
        ensures frees { held_by client.old < client.old.most → 0 < client.old.left
            → (self.now.strict ≡ true → charge ≤ self.now.capacity)
            → ¬ IsErrOf result CopyError.OutOfMemory
            → TakesFor self.now 7
            (inserting_between self.now.geometry.slots self.now.geometry.room)
            (shard_in self.now key) client.old client.new }
        ensures held { ¬ IsErrOf result CopyError.OutOfMemory → TakesAtMost
            (inserting self.now.geometry.slots self.now.geometry.room)
            client.old client.new }
        ensures steps { TakesAtMost
            (inserting self.now.geometry.slots self.now.geometry.room + 2)
            client.old client.new }
    {
        match client.may_hold() {
            Ok(()) => {}
            Err(LookupError::HandlesFull) => {
                return Err(CopyError::Refused(InsertError::HandlesFull));
            }
            Err(LookupError::Spent) => return Err(CopyError::Refused(InsertError::Spent)),
        }
        if self.is_too_large(charge) {
            return Err(CopyError::Refused(InsertError::TooLarge));
        }
        let lent = Lent {
            bytes: value,
            alloc,
        };
        match self.stored_pinned(client, key, lent, charge, priority, &mut NoList) {
            Ok(made) => Ok(made),
            Err((why, _)) => Err(why),
        }
    }

    /// The same, where a handle may be given and the charge isn't too large. It puts on a list what
    /// its eviction frees.
    pub(crate) fn stored_pinned<L: FreedList<Seeded<T>>, V: Standing>(
        &self,
        client: &mut Client<T>,
        key: Key,
        value: V,
        charge: u32,
        priority: Priority,
        list: &mut L,
    ) -> Result<(Handle, Inserted), (CopyError, V)>
        requires known { Knows self.now client.old }
        requires fits { T.fits self.now.tag key (V.bytes value) }
        requires short { length (V.bytes value) ≤ 8 * self.now.geometry.room }
        requires paid { 0 < charge }
        requires free { (held_by client.old < client.old.most) × (0 < client.old.left) }
        requires small { self.now.strict ≡ true → charge ≤ self.now.capacity }
        ensures known { Knows self.now client.new }
        ensures back { IfErr result (λ e. e.1 ≡ value) }
        ensures late { IfErr result (λ e. IsLate e.0) }
        ensures memory { LacksMemory result → V.lacks }
        ensures list { HandsAt self.now (L.shelf list.old) (L.shelf list.new)
            (shard_in self.now key) client.old client.new }
        ensures inserted { MatchResult result
            (λ made. InsertsWithListed self.now key charge priority (V.bytes value)
            (turn_room (L.shelf list.old)) (turn_room (L.shelf list.new)) made.0 made.1
            client.old client.new)
            (λ e. RefusesCopyListed self.now key charge priority (V.bytes value)
            (turn_room (L.shelf list.old)) (turn_room (L.shelf list.new)) e.0
            client.old client.new) }
        ensures evicts { MatchResult result
            (λ made. InsertsPinnedAtListed self.now T.fits key charge priority
            (turn_room (L.shelf list.old)) (turn_room (L.shelf list.new)) made.1
            client.old client.new)
            (λ e. RefusesCopyAtListed self.now T.fits key charge priority
            (turn_room (L.shelf list.old)) (turn_room (L.shelf list.new)) e.0
            client.old client.new) }
        ensures alone { MatchResult result
            (λ made. LeavesAlone (V.stands value) made.1 client.old client.new)
            (λ e. AreAlone client.old client.new) }
        ensures shown { self.now.geometry.clients ≡ 1
            → IfOk result (λ made. made.1 ≡ Inserted.Placed
            → KnowsShown self.now key client.new) }
        ensures others { OnlyAt (shard_in self.now key) client.old client.new }
        ensures frees { ¬ LacksMemory result → TakesFor self.now 7
            (listed_between self.now.geometry.slots self.now.geometry.room L.loads)
            (shard_in self.now key) client.old client.new }
        ensures held { ¬ LacksMemory result → TakesAtMost
            (inserting_listed self.now.geometry.slots self.now.geometry.room L.loads)
            client.old client.new }
        ensures steps { TakesAtMost
            (inserting_listed self.now.geometry.slots self.now.geometry.room L.loads + 2)
            client.old client.new }
    {
        let seeded = self.key_to(client, key);
        let number = self.shard_number(seeded);
        let draft = Draft {
            key: seeded.in_shard,
            charge,
            serial: client.used,
            countdown: priority.countdown(),
            name: Some(client.used),
        };
        let seat = &mut client.seats[number];
        let shard = &self.shards[number];
        let bytes = value.as_bytes();
        match shard.insert_pinned(seat, draft, bytes, list) {
            Ok(Pinned::Placed { pin }) => {
                let handle = client.keep(key, number, pinned(pin));
                Ok((handle, Inserted::Placed))
            }
            Ok(Pinned::Standalone) => match value.into_value() {
                Ok(value) => {
                    let handle = client.keep_alone(key, number, charge, value);
                    Ok((handle, Inserted::Standalone))
                }
                Err(value) => {
                    shard.release_standalone(seat, draft.serial, charge);
                    client.next_serial();
                    Err((CopyError::OutOfMemory, value))
                }
            },
            Err(why) => {
                client.next_serial();
                Err((CopyError::Refused(InsertError::from(why)), value))
            }
        }
    }
}

impl<T> Client<T> {
    /// Gives a handle on a standalone entry, which is named by the next serial.
    fn keep_alone(&mut self, key: Key, shard: usize, charge: u32, value: Value) -> Handle
        requires room { HasRoomFor self.old.handles 1 × HasRoomFor self.old.alone 1 }
        requires held { self.old.held < self.old.most }
        requires serial { (0 < self.old.left) × (self.old.used + self.old.left < 2 ^ 64) }
        ensures client { result.client ≡ self.old.number }
        ensures serial { result.serial ≡ self.old.used }
        ensures kept { (index : ℕ) × (get self.old.alone index ≡ None)
            × Updates self.old.alone self.new.alone index (Some (record {
              name = self.old.used;
              charge = charge;
              references = 1;
              value = value;
            }))
            × (get self.old.handles result.index ≡ None)
            × Updates self.old.handles self.new.handles result.index (Some (record {
              serial = self.old.used;
              key = key;
              shard = shard;
              kept = Standing index;
            })) }
        ensures count { (slab_len self.new.handles ≡ slab_len self.old.handles + 1)
            × (slab_len self.new.alone ≡ slab_len self.old.alone + 1) }
        ensures capacities { capacities_of self.new ≡ capacities_of self.old }
        ensures rest { self.new ≡ record self.old {
          handles = self.new.handles;
          alone = self.new.alone;
          held = self.old.held + 1;
          used = self.old.used + 1;
          left = self.old.left - 1;
        } }
    {
        let index = self.alone.insert_reserved(Alone {
            name: self.used,
            charge,
            references: 1,
            value,
        });
        self.keep(key, shard, Kept::Standing { index })
    }
}
