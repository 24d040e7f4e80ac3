//! What holds of each shard of a cache between any two atomic steps of any threads, and of handles.
//!
//! No function here does anything when it runs: its contract is the law. `m.holds.world` is the
//! lawful world that the shard's words and what its clients know show.
ghost use Rattle.std.specs.Prelude.{◌≡◌, ◌≢◌, ◌⊎◌, ℕ, ◌+◌, ◌-◌, ◌*◌, ◌/◌, ◌^◌, ◌<◌, ◌≤◌, ◌↔◌, ◌++◌, min, Bool, true, false, List, Option, None, Some, Ok, Result, IsNone, IsOk, IsSome, IsSomeAnd, slice_get};
ghost use Rattle.hcc_core.specs.declared.limits.TheConstants.{OCCUPANCY_PERCENT};
ghost use Rattle.std.specs.List.{list_any};
ghost use Rattle.hcc_core.specs.declared.slot.Entry.{Entry};
ghost use Rattle.hcc_core.specs.declared.slot.Stamp.{Stamp};
ghost use Rattle.hcc_core.specs.Lawful.{real_in, taken_in};
ghost use Rattle.hcc_core.specs.Runs.{entry_at, held_at, takes_away};
ghost use Rattle.hcc_core.specs.Sums.{total};
ghost use Rattle.hcc_rule.specs.declared.layout.TheConstants.{OCCUPANCY};
ghost use Rattle.hcc_rule.specs.declared.key.Key.{Key};
ghost use Rattle.hcc_rule.specs.declared.view.Done.{Done};
ghost use Rattle.hcc_rule.specs.declared.view.Logged.{Logged};
ghost use Rattle.hcc_rule.specs.declared.view.Record.{Record};
ghost use Rattle.hcc_rule.specs.declared.view.View.{View};
ghost use Rattle.hcc_rule.specs.Acts.{events_of, IsFront, IsKnown, IsRun};
ghost use Rattle.hcc_rule.specs.Callers.{world_at};
ghost use Rattle.hcc_rule.specs.Laws.{LoggedStateOf, StateOf, has_entry, ledger_word, references_counted, references_held, AreMade, AreOfMade, AreTaken, HasWordsOfRecords, HoldsNothingTaken, IsMade};
ghost use Rattle.hcc_rule.specs.Logs.{HoldsLogged};
ghost use Rattle.hcc_rule.specs.Opening.{begun_world};
ghost use Rattle.hcc_rule.specs.Records.{record_in};
ghost use Rattle.hcc_rule.specs.Seats.{view};
ghost use Rattle.hcc_rule.specs.Views.{is_seated};
ghost use Rattle.hcc_charge.specs.declared.reserving.Refused.{Refused};
ghost use Rattle.hcc_charge.specs.declared.reserving.Reservation.TheVariants.{Reserved};
ghost use Rattle.hcc_table.specs.declared.optimistic.Got.{Got};
ghost use Rattle.hcc_table.specs.declared.optimistic.Got.TheVariants.{Miss};
ghost use Rattle.hcc_shard.specs.declared.inserting.Inserted.{Inserted as Stored};
ghost use Rattle.hcc_shard.specs.declared.inserting.Inserted.TheVariants as stored;
ghost use Rattle.hcc_shard.specs.declared.inserting.Pinned.{Pinned};
ghost use Rattle.hcc_shard.specs.declared.inserting.Pinned.TheVariants as pinned;
ghost use Rattle.hcc_table.specs.AtSlots.{PinsLasting, ShowsNoneOnce};
ghost use Rattle.hcc_table.specs.Standing.{shown_at, FindsFirst, FindsLasting, HidesShown, ShowsKey, ShowsOnce};
ghost use Rattle.hcc_cache.specs.declared.cache.Cache.{Cache};
ghost use Rattle.hcc_cache.specs.declared.client.Client.{Client};
ghost use Rattle.hcc_cache.specs.declared.config.Config.{Config};
ghost use Rattle.hcc_cache.specs.declared.errors.InsertError.{InsertError};
ghost use Rattle.hcc_cache.specs.declared.handle.Handle.{Handle};
ghost use Rattle.hcc_cache.specs.declared.inserting.Inserted.{Inserted};
ghost use Rattle.hcc_cache.specs.declared.inserting.Inserted.TheVariants.{Placed};
ghost use Rattle.hcc_cache.specs.declared.priority.Priority.{Priority};
ghost use Rattle.hcc_cache.specs.declared.seeded.Seeded.{Seeded};
ghost use Rattle.hcc_cache.specs.declared.walking.HeldEntry.{HeldEntry};
ghost use Rattle.hcc_cache.specs.declared.holding.Hold.{Hold};
ghost use Rattle.hcc_cache.specs.Calls.{shard_in, ErasesFor, Gains, OnlyAt, SearchesFor, SearchesReadingFor};
ghost use Rattle.hcc_cache.specs.Clients.{view_at, Held, Holds};
ghost use Rattle.hcc_cache.specs.Configs.{shard_capacity};
ghost use Rattle.hcc_shard.specs.Gets.{GotLasting};
ghost use Rattle.hcc_cache.specs.Gets.{GetsAt};
ghost use Rattle.hcc_cache.specs.Images.{Visible};
ghost use Rattle.hcc_cache.specs.Inserts.{draft_of, InsertsAt, InsertsAtListed, InsertsPinnedAtListed, PinsAt, ShowsAs, ShowsPinnedAs, StoresAt};
ghost use Rattle.hcc_cache.specs.Keys.{fits_seeded};
ghost use Rattle.hcc_cache.specs.Known.{Knows};
ghost use Rattle.hcc_cache.specs.Moments.{plan_in, HoldsAsShown, IsAsShown, IsMoment, IsRunning, KnowsShown};
ghost use Rattle.hcc_cache.specs.Opened.{IsCacheOf};
ghost use Rattle.hcc_cache.specs.Reopened.{IsReopened};
ghost use Rattle.hcc_cache.specs.Room.{HasRoom, HasRoomBeside, KeepsAs, KeepsPinnedAs, TurnsNone};
ghost use Rattle.hcc_cache.specs.Sharding.{key_to, shard_of};
ghost use Rattle.hcc_cache.specs.Since.{is_hide, GoesOnAt, IsHeldThrough, IsHiddenByOther, IsTakenByOther, IsTakenSince};
ghost use Rattle.hcc_cache.specs.Stays.{BeganEachWithin, ReleasesIn, ReleasesPin, Stays, StaysWhereStanding};
ghost use Rattle.hcc_cache.specs.Taken.{split_of};
ghost use Rattle.hcc_cache.specs.Totals.{occupancy_in, usage_in, KnowsEach, LoadsEachOccupancy, LoadsEachUsage};
ghost use Rattle.hcc_cache.specs.Walked.{HoldsEntryAt, PassesAt};

use crate::seeded::Seeded;
use hcc_rule::Tag;
use hcc_rule::laws::{law_ledgers, law_made, law_run, law_slots};
use hcc_table::laws::{
    law_found_alone, law_hidden_alone, law_inserted_alone, law_lasting, law_room_alone,
    law_told_alone,
};
use std::alloc::Global;

/// The limits that each shard of a cache keeps at every moment, by what the cache was made with.
pub fn law_limits<T: Tag>()
    // Under strict capacity the charges of all entries, with what clients were granted, what they
    // freed and their standalone entries, are within the shard's part of the capacity: an equal
    // part, rounded up.
    ensures capacity { (config : Config) (tag : T) (s : StateOf (Seeded T))
        (m : IsMoment T.fits config tag s) → config.strict ≡ true
        → real_in m.holds.world.slots m.holds.world.clients ≤ shard_capacity config }

    // The entries, with the places that were granted and the slots that were freed, are at most 84
    // of 100 slots, rounded down.
    ensures places { (config : Config) (tag : T) (s : StateOf (Seeded T))
        (m : IsMoment T.fits config tag s)
        → taken_in m.holds.world.slots m.holds.world.clients
        ≤ config.slots * OCCUPANCY_PERCENT / 100 }

    // The occupancy word is at most one more for each client.
    ensures occupancy { (config : Config) (tag : T) (s : StateOf (Seeded T))
        (m : IsMoment T.fits config tag s)
        → ledger_word (plan_in m) s OCCUPANCY
        ≤ config.slots * OCCUPANCY_PERCENT / 100 + config.clients }
{
    law_ledgers::<Seeded<T>>();
}

/// One insertion: what each shard's slots hold, and what clients hold there.
pub fn law_insertions<T: Tag>()
    // In each slot with an entry stands one insertion, whoever holds it: its key, its value, its
    // charge and its serial are a member of its maker's list. No two slots have the same. Each
    // member of such a list stands in one slot and nobody took it, or one client took it once and
    // it stands in none.
    ensures slots { (config : Config) (tag : T) (s : StateOf (Seeded T))
        (m : IsMoment T.fits config tag s) → AreMade (fits_seeded T.fits) (plan_in m) s }

    // Its key is one of that shard, whichever client made it.
    ensures homes { (config : Config) (tag : T) (s : StateOf (Seeded T))
        (m : IsMoment T.fits config tag s) (slot : ℕ) (stamp : Stamp)
        (made : IsMade (fits_seeded T.fits) (plan_in m) s slot stamp)
        → shard_of made.kept.made.key config.shards ≡ m.number }

    // So is the entry of each reference, whichever client made it, and however it was come by.
    ensures records { (config : Config) (tag : T) (s : StateOf (Seeded T))
        (m : IsMoment T.fits config tag s) (number : ℕ) (v : View (Seeded T))
        → slice_get s.views number ≡ Some v → AreOfMade (fits_seeded T.fits) (plan_in m) s v }

    // So is each entry that a client took to free its slot, and it took as many as it counts.
    ensures taken { (config : Config) (tag : T) (s : StateOf (Seeded T))
        (m : IsMoment T.fits config tag s) (number : ℕ) (v : View (Seeded T))
        → slice_get s.views number ≡ Some v → AreTaken s v }

    // Nobody took what anyone holds.
    ensures held { (config : Config) (tag : T) (s : StateOf (Seeded T))
        (m : IsMoment T.fits config tag s) (number : ℕ) (v : View (Seeded T))
        → slice_get s.views number ≡ Some v → HoldsNothingTaken s v }
{
    law_made::<Seeded<T>>();
}

/// References, and the entries that they keep.
pub fn law_references<T: Tag>()
    // In a slot with an entry, acquires less releases are the references that clients hold there.
    ensures counted { (config : Config) (tag : T) (s : StateOf (Seeded T))
        (m : IsMoment T.fits config tag s) (slot : ℕ) → slot < config.slots
        → has_entry (plan_in m) s slot ≡ true
        → references_counted (plan_in m) s slot ≡ references_held (plan_in m) s slot }

    // The words of a slot are those of the entry of each reference there: while a client holds an
    // entry, its slot has that entry.
    ensures entries { (config : Config) (tag : T) (s : StateOf (Seeded T))
        (m : IsMoment T.fits config tag s) (slot number : ℕ) (v : View (Seeded T))
        → slice_get s.views number ≡ Some v → HasWordsOfRecords (plan_in m) s slot v }
{
    law_slots::<Seeded<T>>();
}

/// The events of each shard of a cache: its words show, between any two steps of any threads, the
/// world to which a run of the protocol's machine leads.
pub fn law_history<T: Tag>()
    // The machine allows the events of the history one after another, each with the reply that
    // stands there, from the world that the shard began with to the world that its words show.
    ensures run { (config : Config) (tag : T) (s : LoggedStateOf (Seeded T))
        (m : IsRunning T.fits config tag s)
        → IsRun (begun_world (plan_in m.moment)) m.holds.history m.holds.rule.world }

    // Each seat knows a front of it, behind which come only steps of other clients, with starts and
    // ends,
    ensures fronts { (config : Config) (tag : T) (s : LoggedStateOf (Seeded T))
        (m : IsRunning T.fits config tag s) (number : ℕ) (l : Logged (Seeded T))
        → slice_get s.views number ≡ Some l
        → IsFront (plan_in m.moment).geometry.clients m.holds.history l }

    // and some seat knows all of it except starts and ends that came since.
    ensures known { (config : Config) (tag : T) (s : LoggedStateOf (Seeded T))
        (m : IsRunning T.fits config tag s) → IsKnown m.holds.history s.views }

    // Each entry is what its maker's show of its stamp gave.
    ensures entries { (config : Config) (tag : T) (s : LoggedStateOf (Seeded T))
        (m : IsRunning T.fits config tag s) (slot : ℕ) (entry : Entry)
        → entry_at m.holds.rule.world slot ≡ Some entry
        → IsAsShown (plan_in m.moment) m.holds.history entry }

    // What a client holds at one moment it holds at each later one, on that slot and entry, unless
    // an event of its own between them gave or used the reference, or freed its slot, by its name.
    ensures kept { (config : Config) (tag : T) (s t : LoggedStateOf (Seeded T))
        (m : IsRunning T.fits config tag s)
        (later : HoldsLogged (fits_seeded T.fits) (plan_in m.moment) t) (since : List Done)
        → later.history ≡ m.holds.history ++ since → (number : ℕ) (l : Logged (Seeded T))
        → slice_get s.views number ≡ Some l → is_seated l.known ≡ true
        → (name : ℕ) (r : Record) → record_in name l.known.records ≡ Some r
        → list_any (takes_away l.known.client name) (events_of since) ≡ false
        → held_at later.rule.world l.known.client name r.slot ≡ Some r.entry }
{
    law_run::<Seeded<T>>();
}

/// A look-up finds what stands, whatever other clients do meanwhile.
pub fn law_lookups<T: Tag>()
    // One that misses: each slot of the key's shard lacks a visible entry of the key at some moment
    // of the call, right behind one of its own steps. So none stood visible in one slot through the
    // whole call. One that finds an entry: at some moment the very entry that the client holds
    // under the handle's serial was visible in its slot, and each slot of an earlier probe lacked
    // one at some.
    ensures lasting { (cache : Cache T) (key : Key) (found : Option Handle) (old new : Client T)
        (h : SearchesFor cache T.fits key found old new)
        → FindsLasting h.shard.table (key_to cache.seed key) old.used h.did.0 h.was.seat
        h.is.seat }

    // So it is of a read by a key, of the entry whose value it read: whether it held a reference
    // meanwhile or not.
    ensures gets { (cache : Cache T) (key : Key) (useful : Bool) (got : Got)
        (before after : List ℕ) (old new : Client T)
        (h : GetsAt cache T.fits key useful got before after old new)
        → GotLasting h.shard (key_to cache.seed key) got before after h.was h.is }

    // What it finds is what its maker showed: that show is in what the client knows.
    ensures made { (cache : Cache T) (key : Key) (handle : Handle) (old new : Client T)
        (h : SearchesFor cache T.fits key (Some handle) old new)
        → HoldsAsShown h.shard (key_to cache.seed key) old.used h.is }

    // One that misses what its client knew to be shown: another client hid that entry, or freed its
    // slot, and until then the slot showed it. The entries with which the shards began kept their
    // limits, as they do in each cache that is opened.
    ensures taken { (cache : Cache T) → BeganEachWithin cache T.fits → (key : Key)
        (old new : Client T) → Knows cache old → SearchesFor cache T.fits key None old new
        → (k : KnowsShown cache key old) → IsTakenByOther cache key old new k }

    // So it is of a read by a key that misses.
    ensures untold { (cache : Cache T) → BeganEachWithin cache T.fits → (key : Key)
        (useful : Bool) (before after : List ℕ) (old new : Client T) → Knows cache old
        → GetsAt cache T.fits key useful Miss before after old new
        → (k : KnowsShown cache key old) → IsTakenByOther cache key old new k }

    // What somebody holds is found, unless it is hidden. One that misses what its client knew to be
    // shown, where somebody, this client or another one, held a reference on that slot and gave it
    // back by none of the events that came meanwhile: another client hid the entry. No eviction
    // and no release takes it.
    ensures pinned { (cache : Cache T) → BeganEachWithin cache T.fits → (key : Key)
        (old new : Client T) → Knows cache old → SearchesFor cache T.fits key None old new
        → (k : KnowsShown cache key old) (g : GoesOnAt (shard_in cache key) old new)
        → IsHeldThrough cache key old k g.more → IsHiddenByOther cache key old new k }

    // So it is of a read by a key that misses.
    ensures pinned_unread { (cache : Cache T) → BeganEachWithin cache T.fits → (key : Key)
        (useful : Bool) (before after : List ℕ) (old new : Client T) → Knows cache old
        → GetsAt cache T.fits key useful Miss before after old new
        → (k : KnowsShown cache key old) (g : GoesOnAt (shard_in cache key) old new)
        → IsHeldThrough cache key old k g.more → IsHiddenByOther cache key old new k }

    // A look-up that reads on, as one of an object does, finds what stands until it reads,
    ensures lasting_read { (cache : Cache T) (key : Key) (found : Option Handle)
        (old new : Client T) (h : SearchesReadingFor cache T.fits key found old new)
        → FindsLasting h.shard.table (key_to cache.seed key) old.used h.did.0 h.was.seat
        h.did.1.seat }

    // and what it misses was taken, or hidden, as above.
    ensures taken_read { (cache : Cache T) → BeganEachWithin cache T.fits → (key : Key)
        (old new : Client T) → Knows cache old
        → SearchesReadingFor cache T.fits key None old new
        → (k : KnowsShown cache key old) → IsTakenByOther cache key old new k }
    ensures pinned_read { (cache : Cache T) → BeganEachWithin cache T.fits → (key : Key)
        (old new : Client T) → Knows cache old
        → SearchesReadingFor cache T.fits key None old new
        → (k : KnowsShown cache key old) (g : GoesOnAt (shard_in cache key) old new)
        → IsHeldThrough cache key old k g.more → IsHiddenByOther cache key old new k }

    // In a cache of one client a look-up misses where the world that the client knows of the shard
    // when the call begins shows the key in no slot, else it finds the slot of the earliest probe
    // that shows it.
    ensures first { (config : Config) (tag : T) (cache : Cache T)
        → IsCacheOf config tag cache → config.clients ≡ 1
        → (key : Key) (found : Option Handle) (old new : Client T)
        (h : SearchesFor cache T.fits key found old new)
        → FindsFirst h.shard.table (key_to cache.seed key) (world_at h.shard.table h.was.seat)
        h.did.0 }

    // So it misses exactly where no slot of that world shows the key.
    ensures misses { (config : Config) (tag : T) (cache : Cache T)
        → IsCacheOf config tag cache → config.clients ≡ 1
        → (key : Key) (found : Option Handle) (old new : Client T)
        (h : SearchesFor cache T.fits key found old new)
        → IsNone found ↔ ((slot : ℕ) → slot < config.slots
        → ¬ ShowsKey (world_at h.shard.table h.was.seat) (key_to cache.seed key) slot) }

    // A read by a key misses exactly there, too.
    ensures unread { (config : Config) (tag : T) (cache : Cache T)
        → IsCacheOf config tag cache → config.clients ≡ 1
        → (key : Key) (useful : Bool) (got : Got) (before after : List ℕ) (old new : Client T)
        (h : GetsAt cache T.fits key useful got before after old new)
        → (got ≡ Miss) ↔ ((slot : ℕ) → slot < config.slots
        → ¬ ShowsKey (world_at h.shard.table h.was.seat) (key_to cache.seed key) slot) }

    // What the client knows to be there is found.
    ensures there { (config : Config) (tag : T) (cache : Cache T)
        → IsCacheOf config tag cache → config.clients ≡ 1
        → (key : Key) (found : Option Handle) (old new : Client T)
        → SearchesFor cache T.fits key found old new → KnowsShown cache key old → IsSome found }
{
    law_lasting::<Seeded<T>, Global>();
    law_found_alone::<Seeded<T>, Global>();
}

/// A walk that comes to a slot holds what stands there, whatever other clients do meanwhile.
pub fn law_walks<T: Tag>()
    // One that holds nothing, and keeps no list: the slot showed nothing at some moment of the
    // call, right behind one of its own steps. So no entry stood visible there through the whole
    // call.
    ensures passed { (cache : Cache T) (shard slot : ℕ) (old new : Client T)
        (h : PassesAt cache T.fits shard slot false old new)
        → ShowsNoneOnce h.walks.shard.table slot h.walks.was.seat h.walks.is.seat }

    // One that holds the entry: at some moment the very entry that the client holds under the
    // handle's serial was visible there.
    ensures held { (cache : Cache T) (shard slot : ℕ) (held : HeldEntry) (old new : Client T)
        (h : HoldsEntryAt cache T.fits shard slot held old new)
        → IsSomeAnd (record_in old.used (view h.walks.did.held.seat).records)
        (λ r. ShowsOnce h.walks.shard.table slot r.entry h.walks.was.seat
        h.walks.did.held.seat) }

    // One that holds nothing, and has a list, as one over objects: so it is where it freed nothing.
    // Where it freed an entry, the slot showed nothing at some moment, and then that entry was
    // taken, on which no client held a reference.
    ensures listed { (cache : Cache T) (shard slot : ℕ) (takes : Bool) (old new : Client T)
        (h : PassesAt cache T.fits shard slot takes old new)
        → PinsLasting h.walks.shard.table slot old.used h.walks.did.done h.walks.was.seat
        h.walks.did.mid }
{}

/// What a client knows to be shown, with any number of clients: it stays shown until an event hides
/// it, or frees its slot.
///
/// The entries with which the shards began keep their limits, as they do in each cache that is
/// opened, new or with an image.
pub fn law_shown_since<T: Tag>()
    // What the client knows of the key's shard goes on by events, its own and those of others: it
    // knows the same slot to show the key still, or one of these events took the entry away.
    ensures since { (cache : Cache T) → BeganEachWithin cache T.fits → (key : Key)
        (old new : Client T) (g : GoesOnAt (shard_in cache key) old new)
        (k : KnowsShown cache key old)
        → ((now : KnowsShown cache key new) × (now.slot ≡ k.slot))
        ⊎ IsTakenSince cache key old k g.more }

    // What was taken away so its slot doesn't show again.
    ensures gone { (cache : Cache T) → BeganEachWithin cache T.fits → (key : Key)
        (old new : Client T) (g : GoesOnAt (shard_in cache key) old new)
        (k : KnowsShown cache key old) (t : IsTakenSince cache key old k g.more)
        → shown_at (world_at k.shard.table g.is.seat) k.slot ≢ Some t.entry }

    // Where somebody held a reference on the slot through these events, it was hidden.
    ensures held { (cache : Cache T) → BeganEachWithin cache T.fits → (key : Key)
        (old : Client T) (k : KnowsShown cache key old) (more : List Done)
        (t : IsTakenSince cache key old k more) → IsHeldThrough cache key old k more
        → is_hide t.taken.done.event ≡ true }

    // After a call that makes and takes no entry, and shows and hides none, as those that
    // `law_kept_shown` names, that event is another client's.
    ensures stays { (cache : Cache T) → BeganEachWithin cache T.fits → (key : Key)
        (old new : Client T) → Knows cache old → Stays cache old new
        → (k : KnowsShown cache key old)
        → KnowsShown cache key new ⊎ IsTakenByOther cache key old new k }

    // What an insertion placed is known to be shown,
    ensures placed { (cache : Cache T) → BeganEachWithin cache T.fits → (key : Key)
        (charge : ℕ) (priority : Priority) (had has : Bool) (old new : Client T)
        → Knows cache old
        → InsertsAtListed cache T.fits key charge priority had has (Ok Placed) old new
        → KnowsShown cache key new }

    // and so is that of one that gives a handle.
    ensures placed_pinned { (cache : Cache T) → BeganEachWithin cache T.fits → (key : Key)
        (charge : ℕ) (priority : Priority) (had has : Bool) (old new : Client T)
        → Knows cache old
        → InsertsPinnedAtListed cache T.fits key charge priority had has Placed old new
        → KnowsShown cache key new }

    // What a cache took of an image is known to be shown, to each client that begins with it.
    ensures reopened { (config : Config) (tag : T) (image : List Visible) (cache : Cache T)
        (clients : List (Client T)) → IsReopened T.fits config tag image cache clients
        → (index : ℕ) (e : Visible) → slice_get (split_of config image).taken index ≡ Some e
        → (number : ℕ) (client : Client T) → slice_get clients number ≡ Some client
        → KnowsShown cache e.key client }
{}

/// In a cache of one client an erasure hides exactly what is shown of the key.
pub fn law_erasures<T: Tag>()
    // It answers how many slots show the key in the world that the client knows of the key's shard
    // when the call begins. In the one that it knows at the end none does, each of these shows
    // nothing, and each other slot shows what it showed.
    ensures { (config : Config) (tag : T) (cache : Cache T)
        → IsCacheOf config tag cache → config.clients ≡ 1
        → (key : Key) (hidden : ℕ) (old new : Client T)
        (h : ErasesFor cache T.fits key hidden old new)
        → HidesShown config.slots (key_to cache.seed key) hidden
        (world_at h.shard.table h.was.seat) (world_at h.shard.table h.is.seat) }
{
    law_hidden_alone::<Seeded<T>, Global>();
}

/// In a cache of one client an insertion meets the entry that look-ups find, or comes before it.
pub fn law_matches<T: Tag>()
    // By the world that the client knows of the key's shard once the insertion's eviction has
    // ended. Placed: its slot showed nothing, and is an earlier probe of the key than each that
    // shows the key; then it shows it. Dropped, though a place was reserved: it met the first probe
    // that shows the key, or none does. All other slots show what they showed.
    ensures stores { (config : Config) (tag : T) (cache : Cache T)
        → IsCacheOf config tag cache → config.clients ≡ 1
        → (key : Key) (charge : ℕ) (priority : Priority) (answer : Result Stored Refused)
        (old new : Client T) (h : StoresAt cache T.fits key charge priority answer old new)
        → ShowsAs T.fits h.shard (draft_of cache key charge priority (λ c. None) old) answer h.was
        h.is h.did }

    // The same of one that gives a handle, on a standalone entry where that is dropped.
    ensures pins { (config : Config) (tag : T) (cache : Cache T)
        → IsCacheOf config tag cache → config.clients ≡ 1
        → (key : Key) (charge : ℕ) (priority : Priority) (answer : Result Pinned Refused)
        (old new : Client T) (h : PinsAt cache T.fits key charge priority answer old new)
        → ShowsPinnedAs T.fits h.shard (draft_of cache key charge priority (λ c. Some c.used) old)
        answer h.was h.is h.did }

    // Where the shards began with no entries, or with entries that keep their limits, a shard is
    // never out of slots: so an entry for which a place was reserved is dropped only where the key
    // was met,
    ensures met { (config : Config) (tag : T) (cache : Cache T)
        → IsCacheOf config tag cache → config.clients ≡ 1 → BeganEachWithin cache T.fits
        → (key : Key) (charge : ℕ) (priority : Priority) (old new : Client T)
        (h : StoresAt cache T.fits key charge priority (Ok stored.Dropped) old new)
        → h.did.told ≡ Reserved → h.did.matched ≡ true }

    // and stands alone only there, too.
    ensures met_pinned { (config : Config) (tag : T) (cache : Cache T)
        → IsCacheOf config tag cache → config.clients ≡ 1 → BeganEachWithin cache T.fits
        → (key : Key) (charge : ℕ) (priority : Priority) (old new : Client T)
        (h : PinsAt cache T.fits key charge priority (Ok pinned.Standalone) old new)
        → h.did.told ≡ Reserved → h.did.matched ≡ true }
{
    law_inserted_alone::<Seeded<T>, Global>();
    law_room_alone::<Seeded<T>, Global>();
}

/// In a cache of one client an insertion that evicts nothing changes nothing of what is shown but
/// the slot where its entry is placed.
pub fn law_room<T: Tag>()
    // There is room where, in the world that the client knows of the key's shard when the call
    // begins, a place is left and the charge is within the shard's capacity beside the usage. Then
    // the insertion isn't refused, and turns the hand no further.
    ensures room { (config : Config) (tag : T) (cache : Cache T)
        → IsCacheOf config tag cache → config.clients ≡ 1
        → (key : Key) (charge : ℕ) (priority : Priority) (answer : Result Stored Refused)
        (old new : Client T) (h : StoresAt cache T.fits key charge priority answer old new)
        → HasRoom config charge (world_at h.shard.table h.was.seat)
        → IsOk answer × TurnsNone h.was h.is }

    // So it is of one that gives a handle.
    ensures room_pinned { (config : Config) (tag : T) (cache : Cache T)
        → IsCacheOf config tag cache → config.clients ≡ 1
        → (key : Key) (charge : ℕ) (priority : Priority) (answer : Result Pinned Refused)
        (old new : Client T) (h : PinsAt cache T.fits key charge priority answer old new)
        → HasRoom config charge (world_at h.shard.table h.was.seat)
        → IsOk answer × TurnsNone h.was h.is }

    // So it is, whatever became of what the client made at the key's shard, where those entries
    // that it didn't take leave a place, and the charges of all that it made there, with those of
    // its standalone entries, leave room for the charge.
    ensures fits { (config : Config) (tag : T) (cache : Cache T)
        → IsCacheOf config tag cache → config.clients ≡ 1
        → (key : Key) (charge : ℕ) (priority : Priority) (answer : Result Stored Refused)
        (old new : Client T) (h : StoresAt cache T.fits key charge priority answer old new)
        → HasRoomBeside config charge (view h.was.seat) → IsOk answer × TurnsNone h.was h.is }

    // And so it is of one that gives a handle.
    ensures fits_pinned { (config : Config) (tag : T) (cache : Cache T)
        → IsCacheOf config tag cache → config.clients ≡ 1
        → (key : Key) (charge : ℕ) (priority : Priority) (answer : Result Pinned Refused)
        (old new : Client T) (h : PinsAt cache T.fits key charge priority answer old new)
        → HasRoomBeside config charge (view h.was.seat) → IsOk answer × TurnsNone h.was h.is }

    // One that turns the hand no further evicts nothing. From the world that the client knows of
    // the shard when the call begins to the one that it knows at the end: Placed: its slot showed
    // nothing, and is an earlier probe of the key than each that shows the key; then it shows it.
    // Dropped: a place was reserved, and it met the first probe that shows the key, or none does.
    // All other slots show what they showed. Refused is only a charge above a strict capacity, and
    // nothing was done.
    ensures stores { (config : Config) (tag : T) (cache : Cache T)
        → IsCacheOf config tag cache → config.clients ≡ 1
        → (key : Key) (charge : ℕ) (priority : Priority) (answer : Result Stored Refused)
        (old new : Client T) (h : StoresAt cache T.fits key charge priority answer old new)
        → TurnsNone h.was h.is
        → KeepsAs h.shard (draft_of cache key charge priority (λ c. None) old) T.fits answer h.was
        h.is h.did }

    // The same of one that gives a handle, on a standalone entry where that is dropped.
    ensures pins { (config : Config) (tag : T) (cache : Cache T)
        → IsCacheOf config tag cache → config.clients ≡ 1
        → (key : Key) (charge : ℕ) (priority : Priority) (answer : Result Pinned Refused)
        (old new : Client T) (h : PinsAt cache T.fits key charge priority answer old new)
        → TurnsNone h.was h.is
        → KeepsPinnedAs h.shard (draft_of cache key charge priority (λ c. Some c.used) old) T.fits
        answer h.was h.is h.did }

    // So each key that the client knew to be shown it knows so still,
    ensures kept { (config : Config) (tag : T) (cache : Cache T)
        → IsCacheOf config tag cache → config.clients ≡ 1
        → (key : Key) (charge : ℕ) (priority : Priority) (answer : Result Stored Refused)
        (old new : Client T) (h : StoresAt cache T.fits key charge priority answer old new)
        → TurnsNone h.was h.is → OnlyAt (shard_in cache key) old new → (other : Key)
        → KnowsShown cache other old → KnowsShown cache other new }

    // and so it is behind one that gives a handle.
    ensures kept_pinned { (config : Config) (tag : T) (cache : Cache T)
        → IsCacheOf config tag cache → config.clients ≡ 1
        → (key : Key) (charge : ℕ) (priority : Priority) (answer : Result Pinned Refused)
        (old new : Client T) (h : PinsAt cache T.fits key charge priority answer old new)
        → TurnsNone h.was h.is → OnlyAt (shard_in cache key) old new → (other : Key)
        → KnowsShown cache other old → KnowsShown cache other new }

    // And so it is, by the call's answer, where there is room beside all that the client made at
    // the key's shard.
    ensures inserted { (config : Config) (tag : T) (cache : Cache T)
        → IsCacheOf config tag cache → config.clients ≡ 1
        → (key : Key) (charge : ℕ) (priority : Priority) (answer : Result Inserted InsertError)
        (old new : Client T) → InsertsAt cache T.fits key charge priority answer old new
        → HasRoomBeside config charge (view_at (shard_in cache key) old)
        → OnlyAt (shard_in cache key) old new → (other : Key)
        → KnowsShown cache other old → KnowsShown cache other new }
{
    law_inserted_alone::<Seeded<T>, Global>();
}

/// In a cache of one client what is shown stays so until an insertion into its shard that evicts
/// (`law_room`), an erasure of its key, or a release that asks to erase it.
pub fn law_kept_shown<T: Tag>()
    // A key that the client knows to be shown it knows so after each call that makes and takes no
    // entry, and shows and hides none: a look-up, a reading, one handle more, a count of what is
    // held, a load of a slot's words, a release that freed nothing, and one of a handle on a
    // standalone entry.
    ensures stays { (config : Config) (tag : T) (cache : Cache T)
        → IsCacheOf config tag cache → config.clients ≡ 1 → (key : Key) (old new : Client T)
        → Stays cache old new → KnowsShown cache key old → KnowsShown cache key new }

    // Loads of the usage and of the occupancy are such calls.
    ensures usage { (cache : Cache T) (result : ℕ) (old new : Client T)
        → LoadsEachUsage cache result old new → Stays cache old new }
    ensures occupancy { (cache : Cache T) (result : ℕ) (old new : Client T)
        → LoadsEachOccupancy cache result old new → Stays cache old new }

    // A release that freed an entry takes away what was shown in the slot of its reference, and
    // nothing else.
    ensures releases { (config : Config) (tag : T) (cache : Cache T)
        → IsCacheOf config tag cache → config.clients ≡ 1 → (hold : Hold) (slot : ℕ)
        (used erase freed : Bool) (key : Key) (old new : Client T)
        → ReleasesPin cache hold slot true used erase freed old new → (k : KnowsShown cache key old)
        → (shard_in cache key ≡ hold.shard → k.slot ≡ slot → freed ≡ false)
        → KnowsShown cache key new }

    // One that doesn't ask to erase takes nothing away, whether or not it freed an entry: what it
    // frees is hidden.
    ensures unerased { (config : Config) (tag : T) (cache : Cache T)
        → IsCacheOf config tag cache → config.clients ≡ 1 → (handle : Handle)
        (useful freed : Bool) (key : Key) (old new : Client T) → Holds old handle
        → ReleasesIn cache handle useful false freed old new
        → StaysWhereStanding cache handle old new → KnowsShown cache key old
        → KnowsShown cache key new }
{}

/// In a cache of one client totals are exact.
pub fn law_totals<T: Tag>()
    // The usage is the sum, over all shards, of the charges of all entries there, hidden ones too,
    // with what stands for the client, as its standalone entries: in the worlds that it knows of
    // the shards when the call begins. Where the capacity is strict each shard counts as at most
    // its part.
    ensures usage { (config : Config) (tag : T) (cache : Cache T)
        → IsCacheOf config tag cache → config.clients ≡ 1 → (result : ℕ)
        (old new : Client T) → LoadsEachUsage cache result old new → (counts : List ℕ)
        × KnowsEach cache usage_in counts old
        × (result ≡ min (total (λ n. n) counts) (2 ^ 64 - 1)) }

    // The occupancy is the number of all entries there, hidden ones too, with what the client has
    // in hand, which between calls is nothing.
    ensures occupancy { (config : Config) (tag : T) (cache : Cache T)
        → IsCacheOf config tag cache → config.clients ≡ 1 → (result : ℕ)
        (old new : Client T) → LoadsEachOccupancy cache result old new → (counts : List ℕ)
        × KnowsEach cache occupancy_in counts old × (result ≡ total (λ n. n) counts) }
{
    law_told_alone::<Seeded<T>, Global>();
}

/// No handle comes back.
pub fn law_handles<T: Tag>()
    // A handle that a client holds has the client's number, and one of the serials that it used.
    ensures held { (cache : Cache T) (client : Client T) → Knows cache client → (handle : Handle)
        → Holds client handle
        → (handle.client ≡ client.number) × (handle.serial < client.used) }

    // One that a call gives it is another than each with a serial that was used before.
    ensures fresh { (cache : Cache T) (held : Held) (old new : Client T) (more handle : Handle)
        → Gains cache more held old new → handle.serial < old.used → ¬ (more ≡ handle) }
{}
