//! What calls do in a cache that clients share, whatever others do meanwhile.
//!
//! No function here does anything when it runs: its contract is the law.
ghost use Rattle.std.specs.Prelude.{◌≡◌, ◌⊎◌, ℕ, ◌-◌, ◌^◌, ◌<◌, ◌++◌, min, Bool, List, None, Result, Some};
ghost use Rattle.std.specs.declared.alloc.Global.{Global};
ghost use Rattle.hcc_core.specs.Sums.{total};
ghost use Rattle.hcc_core.specs.World.{standing_in};
ghost use Rattle.hcc_rule.specs.declared.key.Key.{Key};
ghost use Rattle.hcc_rule.specs.declared.view.Done.{Done};
ghost use Rattle.hcc_rule.specs.Callers.{slots_of, world_at};
ghost use Rattle.hcc_charge.specs.declared.reserving.Refused.{Refused};
ghost use Rattle.hcc_shard.specs.declared.inserting.Inserted.{Inserted as Stored};
ghost use Rattle.hcc_shard.specs.declared.inserting.Pinned.{Pinned};
ghost use Rattle.hcc_shard.specs.declared.seat.ShardSeat.{ShardSeat};
ghost use Rattle.hcc_shard.specs.declared.shard.Shard.{Shard};
ghost use Rattle.hcc_shard.specs.Counted.{CountsPinned};
ghost use Rattle.hcc_cache.specs.declared.cache.Cache.{Cache};
ghost use Rattle.hcc_cache.specs.declared.client.Client.{Client};
ghost use Rattle.hcc_cache.specs.declared.handle.Handle.{Handle};
ghost use Rattle.hcc_cache.specs.declared.priority.Priority.{Priority};
ghost use Rattle.hcc_cache.specs.declared.seeded.Seeded.{Seeded};
ghost use Rattle.hcc_cache.specs.Calls.{shard_in, ErasesListed, SearchesFor, SearchesReadingFor};
ghost use Rattle.hcc_cache.specs.Following.{OnlyLoads};
ghost use Rattle.hcc_cache.specs.Inserts.{draft_of, PinsAtListed, StoresAtListed};
ghost use Rattle.hcc_cache.specs.Keys.{fits_seeded};
ghost use Rattle.hcc_cache.specs.Known.{Knows};
ghost use Rattle.hcc_cache.specs.Met.{MetAs, MetPinnedAs, ShortAs, ShortPinnedAs};
ghost use Rattle.hcc_cache.specs.Moments.{KnowsHeld, KnowsShown};
ghost use Rattle.hcc_cache.specs.Room.{TurnsNone};
ghost use Rattle.hcc_cache.specs.Sharding.{key_to};
ghost use Rattle.hcc_cache.specs.Since.{GoesOnAt, IsHeldThrough, IsLostBehind, IsTakenBetween};
ghost use Rattle.hcc_cache.specs.Stays.{BeganEachWithin};
ghost use Rattle.hcc_cache.specs.Totals.{occupancy_in, usage_in, KnowsEach, LoadsEachOccupancy, LoadsEachUsage};
ghost use Rattle.hcc_cache.specs.Within.{LacksWithin};

use crate::seeded::Seeded;
use hcc_rule::Tag;
use hcc_table::laws::law_lasting;
use std::alloc::Global;

/// Totals are those of a moment: what a load finds at a shard is that of the world right behind it.
pub fn law_loaded<T: Tag>()
    // The usage is the sum, over all shards, of the charges of all entries there, hidden ones too,
    // and of what stands for clients: what was granted to them, what they need still or freed, and
    // their standalone entries. So it is in the world that the client knows of each shard at the
    // end, where its own load was the last step. Where the capacity is strict each shard counts as
    // at most its part.
    ensures usage { (cache : Cache T) (result : ℕ) (old new : Client T)
        → LoadsEachUsage cache result old new → (counts : List ℕ)
        × KnowsEach cache usage_in counts new
        × (result ≡ min (total (λ n. n) counts) (2 ^ 64 - 1)) }

    // The occupancy is the number of all entries there, hidden ones too, with the places and the
    // freed slots that clients have in hand.
    ensures occupancy { (cache : Cache T) (result : ℕ) (old new : Client T)
        → LoadsEachOccupancy cache result old new → (counts : List ℕ)
        × KnowsEach cache occupancy_in counts new × (result ≡ total (λ n. n) counts) }

    // The count of what is held begins at each shard with a load of what stands there alone: the
    // charges of all clients' standalone entries.
    ensures standing { (shard : Shard (Seeded T) Global) (found : ℕ)
        (was is : ShardSeat (Seeded T)) (h : CountsPinned (fits_seeded T.fits) shard found was is)
        → h.standing ≡ standing_in (world_at shard.table h.loaded) }
{}

/// What a look-up finds its client knows to be shown, and holds.
pub fn law_found<T: Tag>()
    // At the end of the call it knows the key to be shown in the slot where it holds a reference,
    // by the serial that the call used; or another client took away what the look-up found, behind
    // the moment of the call at which it was shown.
    ensures held { (cache : Cache T) → BeganEachWithin cache T.fits → (key : Key)
        (handle : Handle) (old new : Client T) → Knows cache old
        → SearchesFor cache T.fits key (Some handle) old new
        → KnowsHeld cache key old.used new ⊎ IsLostBehind cache key old new }

    // So it is of one that reads what it found, as in a cache of objects.
    ensures held_read { (cache : Cache T) → BeganEachWithin cache T.fits → (key : Key)
        (handle : Handle) (old new : Client T) → Knows cache old
        → SearchesReadingFor cache T.fits key (Some handle) old new
        → KnowsHeld cache key old.used new ⊎ IsLostBehind cache key old new }
{
    law_lasting::<Seeded<T>, Global>();
}

/// What a client holds it holds through all that others do until its own next step.
pub fn law_held_through<T: Tag>()
    // The client held a reference where it knew a key to be shown, and its next step was that of
    // following a witness. Another one knew the same slot to show the key at a moment between, and
    // some events behind that, which the client knew in the end: through these the reference was
    // held.
    ensures { (cache : Cache T) → BeganEachWithin cache T.fits → (key : Key) (name : ℕ)
        (old new : Client T) → Knows cache old → (k : KnowsHeld cache key name old)
        → OnlyLoads cache (shard_in cache key) old new
        → (other : Client T) (m : KnowsShown cache key other) → m.slot ≡ k.shown.slot
        → GoesOnAt (shard_in cache key) old other
        → (h : GoesOnAt (shard_in cache key) other new) (more later : List Done)
        → h.more ≡ more ++ later → IsHeldThrough cache key other m more }
{}

/// An erasure takes away what stands through it.
///
/// Another client may insert the key behind it: so at the end a slot may show another entry of it.
pub fn law_erased<T: Tag>()
    // Each slot of the key's shard lacks the key at some moment of the call.
    ensures lacks { (cache : Cache T) (key : Key) (room : Bool) (hidden : ℕ) (old new : Client T)
        (h : ErasesListed cache T.fits key room hidden old new) (slot : ℕ)
        → slot < slots_of h.shard.table
        → LacksWithin h.shard.table h.was.seat h.is.seat (key_to cache.seed key) slot }

    // An entry of the key that the client knew to be shown when the call began was taken away until
    // it ended, by this client or another one, and its slot doesn't show it at the end.
    ensures taken { (cache : Cache T) → BeganEachWithin cache T.fits → (key : Key) (room : Bool)
        (hidden : ℕ) (old new : Client T) → Knows cache old
        → ErasesListed cache T.fits key room hidden old new → (k : KnowsShown cache key old)
        → IsTakenBetween cache key old new k }
{}

/// An insertion meets what stands through its tries.
pub fn law_met<T: Tag>()
    // At moments of the tries, which begin once its reservation has ended. Placed: each slot of an
    // earlier probe lacked the key. Dropped, though a place was reserved: where it met an entry of
    // the key, the slot where it did so showed that, and each slot of an earlier probe lacked the
    // key; else each slot of the shard lacked it, and was taken. Dropped without a place, or
    // refused for a place: none was left right before it asked for one. Refused for capacity: its
    // charge didn't fit right before it was added.
    ensures stores { (cache : Cache T) (key : Key) (charge : ℕ) (priority : Priority)
        (had has : Bool) (answer : Result Stored Refused) (old new : Client T)
        (h : StoresAtListed cache T.fits key charge priority had has answer old new)
        → MetAs T.fits h.shard (draft_of cache key charge priority (λ c. None) old) had has answer
        h.was h.is h.did }

    // The same of one that gives a handle, on a standalone entry where that is dropped.
    ensures pins { (cache : Cache T) (key : Key) (charge : ℕ) (priority : Priority)
        (had has : Bool) (answer : Result Pinned Refused) (old new : Client T)
        (h : PinsAtListed cache T.fits key charge priority had has answer old new)
        → MetPinnedAs T.fits h.shard (draft_of cache key charge priority (λ c. Some c.used) old)
        had has answer h.was h.is h.did }
{}

/// An insertion evicts only where it found no room. Of one that is refused, or gets no place,
/// `law_met` says the same.
///
/// What others have in hand takes room, too. So where all entries would leave room for one more, an
/// insertion may evict for what others are about to insert, or have just freed.
pub fn law_turned<T: Tag>()
    // It turned the hand no further; or no place was left in the world right before it asked for
    // one; or its charge didn't fit beside the usage in the world right before it found that: as it
    // added the charge where the capacity is strict, else as it loaded the usage.
    ensures stores { (cache : Cache T) (key : Key) (charge : ℕ) (priority : Priority)
        (had has : Bool) (answer : Result Stored Refused) (old new : Client T)
        (h : StoresAtListed cache T.fits key charge priority had has answer old new)
        → TurnsNone h.was h.is
        ⊎ ShortAs T.fits h.shard (draft_of cache key charge priority (λ c. None) old) had has answer
        h.was h.is h.did }

    // The same of one that gives a handle.
    ensures pins { (cache : Cache T) (key : Key) (charge : ℕ) (priority : Priority)
        (had has : Bool) (answer : Result Pinned Refused) (old new : Client T)
        (h : PinsAtListed cache T.fits key charge priority had has answer old new)
        → TurnsNone h.was h.is
        ⊎ ShortPinnedAs T.fits h.shard (draft_of cache key charge priority (λ c. Some c.used) old)
        had has answer h.was h.is h.did }
{}
