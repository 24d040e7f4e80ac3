//! Insertions of objects.
ghost use Rattle.std.specs.Prelude.{◌≡◌, ◌⊎◌, ◌<◌, ◌≤◌, ◌^◌, ◌↔◌, true, IfErr, IfOk, IsErrOf, MatchResult, OnErr};
ghost use Rattle.hcc_word.specs.declared.objects.TheConstants.{ADDRESS_BITS};
ghost use Rattle.hcc_shard.specs.Inserted.{inserting_listed};
ghost use Rattle.hcc_cache.specs.Calls.{TakesAtMost};
ghost use Rattle.hcc_cache.specs.Clients.{held_by};
ghost use Rattle.hcc_cache.specs.ObjectInserts.{FailsObject, InsertsObject, IsUnfit, MayInsert, MayStand, PinsObject, answer_as, is_full, placed_as, refused_as};
ghost use Rattle.hcc_cache.specs.Objects.{KnowsObjects, alone_of, places_left};

use crate::errors::{CopyError, InsertError, LookupError, ObjectError};
use crate::handle::Handle;
use crate::inserting::Inserted;
use crate::object_cache::{ObjectCache, ObjectClient};
use crate::objects::Object;
use crate::priority::Priority;
use hcc_core::limits::SLOTS_PER_TURN;
use hcc_rule::Key;
use hcc_table::FreedList;
use hcc_word::ADDRESS_BITS;

/// What came of an insertion that wasn't refused, and whose the object is then.
///
/// `list_full` says that the client's list has no room for another turn of the hand, so that one
/// with an empty list may find a place.
#[derive(Clone, Copy, Debug, PartialEq, Eq)]
pub enum Placing {
    /// The entry is in the table: the object is the cache's.
    Placed,
    /// It is in no table, and the object stays the caller's; only of insertions without a handle.
    Dropped { list_full: bool },
    /// It is in no table: the object is the client's until its last handle is released; only of
    /// insertions with a handle.
    Standalone { list_full: bool },
}

impl ObjectCache {
    /// Inserts an object under this key with this charge, and keeps no handle on it, as
    /// `Cache::insert` does. The answer says whose it is then. What the insertion evicts is on the
    /// client's list then, after a refusal, too.
    ///
    /// It is refused where all serials of the client are used, then where the address is 2^48 or
    /// above, then where a strict shard's capacity is below the charge: nothing is changed then. A
    /// turn of the hand is made only where the list has room for what it may free, four entries.
    ///
    /// The charge isn't 0. It allocates nothing. Each entry that it evicts costs a load more than
    /// there.
    pub fn insert(
        &self,
        client: &mut ObjectClient,
        key: Key,
        object: Object,
        charge: u32,
        priority: Priority,
    ) -> Result<Placing, ObjectError>
        requires known { KnowsObjects self.now client.old }
        requires paid { 0 < charge }
        ensures known { KnowsObjects self.now client.new }
        ensures spent { IsErrOf result ObjectError.Spent ↔ (client.old.client.left ≡ 0) }
        ensures high { IsErrOf result ObjectError.TooHigh
            ↔ ((0 < client.old.client.left) × (2 ^ ADDRESS_BITS ≤ object.address)) }
        ensures large { IsErrOf result ObjectError.TooLarge
            ↔ ((0 < client.old.client.left) × (object.address < 2 ^ ADDRESS_BITS)
            × (self.now.cache.strict ≡ true) × (self.now.cache.capacity < charge)) }
        ensures early { ¬ ((0 < client.old.client.left) × MayInsert self.now object charge)
            → client.new ≡ client.old }
        ensures inserted { 0 < client.old.client.left → MayInsert self.now object charge
            → (told : _) × (result ≡ answer_as (is_full client.new) told)
            × InsertsObject self.now key object charge priority client.old client.new told }
        ensures steps { TakesAtMost
            (inserting_listed self.now.cache.geometry.slots self.now.cache.geometry.room 1)
            client.old.client client.new.client }
    {
        self.may_insert(client, object, charge)?;
        let value = object.word().to_le_bytes();
        let ObjectClient { client, gone } = client;
        let told = self
            .cache
            .stored(client, key, &value, charge, priority, gone);
        answer_of(told, !gone.has_room(SLOTS_PER_TURN as u32))
    }

    /// Whether an object may be inserted.
    fn may_insert(
        &self,
        client: &ObjectClient,
        object: Object,
        charge: u32,
    ) -> Result<(), ObjectError>
        ensures spent { IsErrOf result ObjectError.Spent ↔ (client.now.client.left ≡ 0) }
        ensures high { IsErrOf result ObjectError.TooHigh
            ↔ ((0 < client.now.client.left) × (2 ^ ADDRESS_BITS ≤ object.address)) }
        ensures large { IsErrOf result ObjectError.TooLarge
            ↔ ((0 < client.now.client.left) × (object.address < 2 ^ ADDRESS_BITS)
            × (self.now.cache.strict ≡ true) × (self.now.cache.capacity < charge)) }
        ensures may { IfOk result (λ _. (0 < client.now.client.left)
            × MayInsert self.now object charge) }
        ensures refused { OnErr result
            (¬ ((0 < client.now.client.left) × MayInsert self.now object charge)) }
    {
        if client.client.left == 0 {
            return Err(ObjectError::Spent);
        }
        self.may_be(object, charge)
    }

    /// Whether an object's address and charge may be.
    fn may_be(&self, object: Object, charge: u32) -> Result<(), ObjectError>
        ensures high { IsErrOf result ObjectError.TooHigh
            ↔ (2 ^ ADDRESS_BITS ≤ object.address) }
        ensures large { IsErrOf result ObjectError.TooLarge
            ↔ ((object.address < 2 ^ ADDRESS_BITS)
            × (self.now.cache.strict ≡ true) × (self.now.cache.capacity < charge)) }
        ensures may { IfOk result (λ _. MayInsert self.now object charge) }
        ensures refused { OnErr result (¬ MayInsert self.now object charge) }
        ensures only { IfErr result IsUnfit }
    {
        if object.address >= 1 << ADDRESS_BITS {
            return Err(ObjectError::TooHigh);
        }
        if self.cache.is_too_large(charge) {
            return Err(ObjectError::TooLarge);
        }
        Ok(())
    }
}

/// What a cache of bytes answers, as one of objects does.
fn answer_of(told: Result<Inserted, InsertError>, list_full: bool) -> Result<Placing, ObjectError>
    ensures { result ≡ answer_as list_full told }
{
    match told {
        Ok(made) => Ok(placed(made, list_full)),
        Err(why) => Err(refused(why, list_full)),
    }
}

fn placed(made: Inserted, list_full: bool) -> Placing
    ensures { result ≡ placed_as list_full made }
{
    match made {
        Inserted::Placed => Placing::Placed,
        Inserted::Dropped => Placing::Dropped { list_full },
        Inserted::Standalone => Placing::Standalone { list_full },
    }
}

fn refused(why: InsertError, list_full: bool) -> ObjectError
    ensures { result ≡ refused_as list_full why }
{
    match why {
        InsertError::HandlesFull => ObjectError::HandlesFull,
        InsertError::Spent => ObjectError::Spent,
        InsertError::TooLarge => ObjectError::TooLarge,
        InsertError::CapacityFull => ObjectError::CapacityFull { list_full },
        InsertError::OccupancyFull => ObjectError::OccupancyFull { list_full },
    }
}

impl ObjectCache {
    /// The same, and gives a handle on it. Where it isn't put into the table it stands alone, as
    /// after `Cache::insert_pinned`: it is the client's until its last handle is released, and on
    /// the client's list then, where there is a place for it.
    ///
    /// It is refused where the client holds all the handles that it may, then as `insert` is where
    /// all serials are used, then where what is on the list and the client's standalone entries
    /// fill the list's places, and then as `insert` is.
    ///
    /// The charge isn't 0. It allocates nothing. It costs what `insert` does, and where no place
    /// was found two adds more.
    pub fn insert_pinned(
        &self,
        client: &mut ObjectClient,
        key: Key,
        object: Object,
        charge: u32,
        priority: Priority,
    ) -> Result<(Handle, Placing), ObjectError>
        requires known { KnowsObjects self.now client.old }
        requires paid { 0 < charge }
        ensures known { KnowsObjects self.now client.new }
        ensures full { IsErrOf result ObjectError.HandlesFull
            ↔ (held_by client.old.client ≡ client.old.client.most) }
        ensures spent { IsErrOf result ObjectError.Spent
            ↔ ((held_by client.old.client < client.old.client.most)
            × (client.old.client.left ≡ 0)) }
        ensures gone { IsErrOf result ObjectError.GoneFull
            ↔ ((held_by client.old.client < client.old.client.most)
            × (0 < client.old.client.left) × (places_left client.old ≡ alone_of client.old)) }
        ensures high { IsErrOf result ObjectError.TooHigh
            ↔ (MayStand client.old × (2 ^ ADDRESS_BITS ≤ object.address)) }
        ensures large { IsErrOf result ObjectError.TooLarge
            ↔ (MayStand client.old × (object.address < 2 ^ ADDRESS_BITS)
            × (self.now.cache.strict ≡ true) × (self.now.cache.capacity < charge)) }
        ensures early { ¬ (MayStand client.old × MayInsert self.now object charge)
            → client.new ≡ client.old }
        ensures inserted { MayStand client.old → MayInsert self.now object charge
            → MatchResult result
            (λ made. (told : _) × (made.1 ≡ placed_as (is_full client.new) told)
            × PinsObject self.now key object charge priority client.old client.new made.0 told)
            (λ why. (told : _) × (why ≡ refused_as (is_full client.new) told)
            × FailsObject self.now key object charge priority client.old client.new told) }
        ensures steps { TakesAtMost
            (inserting_listed self.now.cache.geometry.slots self.now.cache.geometry.room 1)
            client.old.client client.new.client }
    {
        self.may_pin(client, object, charge)?;
        let value = object.word().to_le_bytes();
        let ObjectClient { client, gone } = client;
        let told = self
            .cache
            .stored_pinned(client, key, value, charge, priority, gone);
        let list_full = !gone.has_room(SLOTS_PER_TURN as u32);
        match told {
            Ok((handle, made)) => Ok((handle, placed(made, list_full))),
            Err((why, _)) => match why {
                CopyError::Refused(why) => Err(refused(why, list_full)),
                CopyError::OutOfMemory => unreachable!(),
            },
        }
    }

    /// Whether an object may be inserted with a handle: it may come to stand alone.
    fn may_pin(&self, client: &ObjectClient, object: Object, charge: u32) -> Result<(), ObjectError>
        requires { KnowsObjects self.now client.now }
        ensures full { IsErrOf result ObjectError.HandlesFull
            ↔ (held_by client.now.client ≡ client.now.client.most) }
        ensures spent { IsErrOf result ObjectError.Spent
            ↔ ((held_by client.now.client < client.now.client.most)
            × (client.now.client.left ≡ 0)) }
        ensures gone { IsErrOf result ObjectError.GoneFull
            ↔ ((held_by client.now.client < client.now.client.most)
            × (0 < client.now.client.left) × (places_left client.now ≡ alone_of client.now)) }
        ensures high { IsErrOf result ObjectError.TooHigh
            ↔ (MayStand client.now × (2 ^ ADDRESS_BITS ≤ object.address)) }
        ensures large { IsErrOf result ObjectError.TooLarge
            ↔ (MayStand client.now × (object.address < 2 ^ ADDRESS_BITS)
            × (self.now.cache.strict ≡ true) × (self.now.cache.capacity < charge)) }
        ensures may { IfOk result (λ _. MayStand client.now × MayInsert self.now object charge) }
        ensures refused { OnErr result
            (¬ (MayStand client.now × MayInsert self.now object charge)) }
    {
        match client.client.may_hold() {
            Ok(()) => {}
            Err(LookupError::HandlesFull) => return Err(ObjectError::HandlesFull),
            Err(LookupError::Spent) => return Err(ObjectError::Spent),
        }
        if client.gone.places_left() <= client.client.alone.len() {
            return Err(ObjectError::GoneFull);
        }
        self.may_be(object, charge)
    }
}
