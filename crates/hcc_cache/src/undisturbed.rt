//! What calls do exactly in a cache that clients share, where nobody else shows or takes anything
//! meanwhile.
//!
//! Others may do all else: search, read, use and release, be granted charge and places, and turn
//! the hand over entries that stay. No function here does anything when it runs: its contract is
//! the law. The entries with which the shards began keep their limits, as they do in each cache
//! that is opened.
ghost use Rattle.std.specs.Prelude.{◌≡◌, ◌≢◌, ℕ, ◌<◌, ◌↔◌, ◌++◌, Bool, List, Option, None, Some, Result, IsNone, IsSome, slice_get};
ghost use Rattle.std.specs.declared.alloc.Global.{Global};
ghost use Rattle.hcc_rule.specs.declared.key.Key.{Key};
ghost use Rattle.hcc_rule.specs.declared.view.Done.{Done};
ghost use Rattle.hcc_rule.specs.Acts.{past, IsAllowed};
ghost use Rattle.hcc_rule.specs.Callers.{plan_of, world_at};
ghost use Rattle.hcc_rule.specs.Seats.{SeatOf};
ghost use Rattle.hcc_charge.specs.declared.reserving.Refused.{Refused};
ghost use Rattle.hcc_table.specs.declared.optimistic.Got.{Got};
ghost use Rattle.hcc_table.specs.declared.optimistic.Got.TheVariants.{Miss};
ghost use Rattle.hcc_table.specs.Standing.{FindsFirst, HidesShown, ShowsKey};
ghost use Rattle.hcc_shard.specs.declared.inserting.Inserted.{Inserted as Stored};
ghost use Rattle.hcc_shard.specs.declared.inserting.Pinned.{Pinned};
ghost use Rattle.hcc_shard.specs.declared.shard.Shard.{Shard};
ghost use Rattle.hcc_cache.specs.declared.cache.Cache.{Cache};
ghost use Rattle.hcc_cache.specs.declared.client.Client.{Client};
ghost use Rattle.hcc_cache.specs.declared.config.Config.{Config};
ghost use Rattle.hcc_cache.specs.declared.handle.Handle.{Handle};
ghost use Rattle.hcc_cache.specs.declared.priority.Priority.{Priority};
ghost use Rattle.hcc_cache.specs.declared.seeded.Seeded.{Seeded};
ghost use Rattle.hcc_cache.specs.Calls.{shard_in, ErasesListed, OnlyAt, SearchesFor, SearchesReadingFor};
ghost use Rattle.hcc_cache.specs.Gets.{GetsAt};
ghost use Rattle.hcc_cache.specs.Inserts.{draft_of, PinsAt, ShowsAs, ShowsPinnedAs, StoresAt};
ghost use Rattle.hcc_cache.specs.Known.{Knows};
ghost use Rattle.hcc_cache.specs.Moments.{KnowsShown};
ghost use Rattle.hcc_cache.specs.Opened.{IsCacheOf};
ghost use Rattle.hcc_cache.specs.Room.{KeepsAs, KeepsPinnedAs, TurnsNone};
ghost use Rattle.hcc_cache.specs.Sharding.{key_to};
ghost use Rattle.hcc_cache.specs.Stays.{BeganEachWithin};
ghost use Rattle.hcc_cache.specs.Undisturbed.{IsUndisturbed, TriesPinnedUndisturbed, TriesUndisturbed};

use crate::seeded::Seeded;
use hcc_rule::Tag;
use hcc_table::laws::law_lasting;
use std::alloc::Global;

/// A look-up finds exactly what is shown.
pub fn law_undisturbed_lookups<T: Tag>()
    // It misses where the world that the client knows of the key's shard when the call begins shows
    // the key in no slot, else it finds the slot of the earliest probe that shows it.
    ensures first { (cache : Cache T) → BeganEachWithin cache T.fits → (key : Key)
        (found : Option Handle) (old new : Client T) → Knows cache old
        → (h : SearchesFor cache T.fits key found old new)
        → IsUndisturbed old.number h.was.seat h.is.seat
        → FindsFirst h.shard.table (key_to cache.seed key) (world_at h.shard.table h.was.seat)
        h.did.0 }

    // So it misses exactly where no slot of that world shows the key.
    ensures misses { (cache : Cache T) → BeganEachWithin cache T.fits → (key : Key)
        (found : Option Handle) (old new : Client T) → Knows cache old
        → (h : SearchesFor cache T.fits key found old new)
        → IsUndisturbed old.number h.was.seat h.is.seat
        → IsNone found ↔ ((slot : ℕ) → slot < cache.geometry.slots
        → ¬ ShowsKey (world_at h.shard.table h.was.seat) (key_to cache.seed key) slot) }

    // A read by a key misses exactly there, too.
    ensures unread { (cache : Cache T) → BeganEachWithin cache T.fits → (key : Key)
        (useful : Bool) (got : Got) (before after : List ℕ) (old new : Client T) → Knows cache old
        → (h : GetsAt cache T.fits key useful got before after old new)
        → IsUndisturbed old.number h.was.seat h.is.seat
        → (got ≡ Miss) ↔ ((slot : ℕ) → slot < cache.geometry.slots
        → ¬ ShowsKey (world_at h.shard.table h.was.seat) (key_to cache.seed key) slot) }

    // So it is of a look-up that reads on, as one of an object does.
    ensures first_read { (cache : Cache T) → BeganEachWithin cache T.fits → (key : Key)
        (found : Option Handle) (old new : Client T) → Knows cache old
        → (h : SearchesReadingFor cache T.fits key found old new)
        → IsUndisturbed old.number h.was.seat h.is.seat
        → FindsFirst h.shard.table (key_to cache.seed key) (world_at h.shard.table h.was.seat)
        h.did.0 }
    ensures misses_read { (cache : Cache T) → BeganEachWithin cache T.fits → (key : Key)
        (found : Option Handle) (old new : Client T) → Knows cache old
        → (h : SearchesReadingFor cache T.fits key found old new)
        → IsUndisturbed old.number h.was.seat h.is.seat
        → IsNone found ↔ ((slot : ℕ) → slot < cache.geometry.slots
        → ¬ ShowsKey (world_at h.shard.table h.was.seat) (key_to cache.seed key) slot) }

    // What the client knows to be there is found.
    ensures there { (cache : Cache T) → BeganEachWithin cache T.fits → (key : Key)
        (found : Option Handle) (old new : Client T) → Knows cache old
        → (h : SearchesFor cache T.fits key found old new)
        → IsUndisturbed old.number h.was.seat h.is.seat → KnowsShown cache key old
        → IsSome found }
{
    law_lasting::<Seeded<T>, Global>();
}

/// An erasure hides exactly what is shown of the key.
pub fn law_undisturbed_erasures<T: Tag>()
    // It answers how many slots show the key in the world that the client knows of the key's shard
    // when the call begins. In the one that it knows at the end none does, each of these shows
    // nothing, and each other slot shows what it showed.
    ensures { (cache : Cache T) → BeganEachWithin cache T.fits → (key : Key) (room : Bool)
        (hidden : ℕ) (old new : Client T) → Knows cache old
        → (h : ErasesListed cache T.fits key room hidden old new)
        → IsUndisturbed old.number h.was.seat h.is.seat
        → HidesShown cache.geometry.slots (key_to cache.seed key) hidden
        (world_at h.shard.table h.was.seat) (world_at h.shard.table h.is.seat) }
{}

/// An insertion meets the entry that look-ups find, or comes before it; and one that turns the hand
/// no further changes nothing of what is shown but the slot where its entry is placed.
pub fn law_undisturbed_insertions<T: Tag>()
    // Its tries, where nobody disturbed them, by the world that the client knew when its
    // reservation had ended, with its eviction. Placed: its slot showed nothing, and is an earlier
    // probe of the key than each that shows the key; then it shows it. Dropped, though a place was
    // reserved: it met the first probe that shows the key, or none does. All other slots show what
    // they showed.
    ensures tries { (cache : Cache T) → BeganEachWithin cache T.fits → (key : Key) (charge : ℕ)
        (priority : Priority) (answer : Result Stored Refused) (old new : Client T)
        → Knows cache new → (h : StoresAt cache T.fits key charge priority answer old new)
        → TriesUndisturbed new.number T.fits h.shard
        (draft_of cache key charge priority (λ c. None) old) answer h.was h.is h.did
        → ShowsAs T.fits h.shard (draft_of cache key charge priority (λ c. None) old) answer h.was
        h.is h.did }

    // The same of one that gives a handle, on a standalone entry where that is dropped.
    ensures tries_pinned { (cache : Cache T) → BeganEachWithin cache T.fits → (key : Key)
        (charge : ℕ) (priority : Priority) (answer : Result Pinned Refused) (old new : Client T)
        → Knows cache new → (h : PinsAt cache T.fits key charge priority answer old new)
        → TriesPinnedUndisturbed new.number T.fits h.shard
        (draft_of cache key charge priority (λ c. Some c.used) old) answer h.was h.is h.did
        → ShowsPinnedAs T.fits h.shard (draft_of cache key charge priority (λ c. Some c.used) old)
        answer h.was h.is h.did }

    // One that turns the hand no further evicts nothing. So it is from the world that the client
    // knows of the key's shard when the call begins to the one that it knows at the end. Where it
    // is dropped a place was reserved; refused is only a charge above a strict capacity, and
    // nothing was done.
    ensures stores { (cache : Cache T) → BeganEachWithin cache T.fits → (key : Key) (charge : ℕ)
        (priority : Priority) (answer : Result Stored Refused) (old new : Client T)
        → Knows cache old → (h : StoresAt cache T.fits key charge priority answer old new)
        → IsUndisturbed old.number h.was.seat h.is.seat → TurnsNone h.was h.is
        → KeepsAs h.shard (draft_of cache key charge priority (λ c. None) old) T.fits answer h.was
        h.is h.did }

    // The same of one that gives a handle, on a standalone entry where that is dropped.
    ensures pins { (cache : Cache T) → BeganEachWithin cache T.fits → (key : Key) (charge : ℕ)
        (priority : Priority) (answer : Result Pinned Refused) (old new : Client T)
        → Knows cache old → (h : PinsAt cache T.fits key charge priority answer old new)
        → IsUndisturbed old.number h.was.seat h.is.seat → TurnsNone h.was h.is
        → KeepsPinnedAs h.shard (draft_of cache key charge priority (λ c. Some c.used) old) T.fits
        answer h.was h.is h.did }

    // So each key that the client knew to be shown it knows so still,
    ensures kept { (cache : Cache T) → BeganEachWithin cache T.fits → (key : Key) (charge : ℕ)
        (priority : Priority) (answer : Result Stored Refused) (old new : Client T)
        → Knows cache old → (h : StoresAt cache T.fits key charge priority answer old new)
        → IsUndisturbed old.number h.was.seat h.is.seat → TurnsNone h.was h.is
        → OnlyAt (shard_in cache key) old new → (other : Key) → KnowsShown cache other old
        → KnowsShown cache other new }

    // and so it is behind one that gives a handle.
    ensures kept_pinned { (cache : Cache T) → BeganEachWithin cache T.fits → (key : Key)
        (charge : ℕ) (priority : Priority) (answer : Result Pinned Refused) (old new : Client T)
        → Knows cache old → (h : PinsAt cache T.fits key charge priority answer old new)
        → IsUndisturbed old.number h.was.seat h.is.seat → TurnsNone h.was h.is
        → OnlyAt (shard_in cache key) old new → (other : Key) → KnowsShown cache other old
        → KnowsShown cache other new }
{}

/// In a cache of one client no call is disturbed.
pub fn law_undisturbed_alone<T: Tag>()
    // All that the machine allows is of client 0, which is alone there.
    ensures { (config : Config) (tag : T) (cache : Cache T)
        → IsCacheOf config tag cache → config.clients ≡ 1 → (number : ℕ)
        (shard : Shard (Seeded T) Global) → slice_get cache.shards.items number ≡ Some shard
        → (old new : SeatOf (Seeded T)) (more : List Done) → past new ≡ past old ++ more
        → IsAllowed (plan_of shard.table) (past new) → IsUndisturbed 0 old new }
{}
