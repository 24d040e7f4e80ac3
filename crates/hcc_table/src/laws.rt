//! What follows of what calls found.
//!
//! No function here does anything when it runs: its contract is the law.
ghost use Rattle.std.specs.Prelude.{◌≡◌, ℕ, ◌<◌, ◌↔◌, Bool, false, Option, Some, None, IsNone};
ghost use Rattle.hcc_rule.specs.declared.key.Key.{Key};
ghost use Rattle.hcc_rule.specs.declared.table.RuleTable.{RuleTable};
ghost use Rattle.hcc_core.specs.World.{occupancy_of, usage_of};
ghost use Rattle.hcc_rule.specs.Callers.{clients_of, slots_of, IsEvent, world_at};
ghost use Rattle.hcc_rule.specs.Events.{occupancy_done, usage_done};
ghost use Rattle.hcc_rule.specs.Seats.{SeatOf, view};
ghost use Rattle.hcc_table.specs.declared.efforts.Effort.{Effort};
ghost use Rattle.hcc_table.specs.declared.hiding.Erased.{Erased};
ghost use Rattle.hcc_table.specs.declared.inserting.Insertion.{Insertion};
ghost use Rattle.hcc_table.specs.declared.inserting.Insertion.TheVariants.{NoSlot};
ghost use Rattle.hcc_table.specs.declared.keeping.AtSlot.{AtSlot};
ghost use Rattle.hcc_table.specs.declared.pins.Pin.{Pin};
ghost use Rattle.hcc_table.specs.AtSlots.{IsShownBy, PinsAt, PinsLasting};
ghost use Rattle.hcc_table.specs.Hides.{HidesAll};
ghost use Rattle.hcc_table.specs.Probed.{Searches};
ghost use Rattle.hcc_table.specs.Seeking.{is_settling, GoesOnBy, Seeks};
ghost use Rattle.hcc_table.specs.Still.{BeganWithin, GoesOnStill, ReleasesBy, ShowsBut};
ghost use Rattle.hcc_table.specs.Tries.{Inserts};
ghost use Rattle.hcc_table.specs.Standing.{FindsFirst, FindsLasting, HidesShown, InsertsShown, ShowsKey, ShowsSame, shown_at};

use hcc_rule::Tag;
use std::alloc::Allocator;

/// A search finds what stands, whatever other clients do meanwhile.
pub fn law_lasting<T: Tag, A: Allocator>()
    // A search that misses: each slot lacks a visible entry of the key at some moment of the call.
    // So none stood visible in one slot through the whole call. One that finds an entry: at some
    // moment that very entry was visible in its slot, and each slot of an earlier probe lacked one
    // at some.
    ensures { (table : RuleTable T A) (key : Key) (name : ℕ) (marks : Bool) (answer : Option Pin)
        (before after : Effort) (old new : SeatOf T)
        → Searches T.fits table key name marks answer before after old new
        → FindsLasting table key name answer old new }
{}

/// In a shard of one client a search finds exactly what the shard has.
pub fn law_found_alone<T: Tag, A: Allocator>()
    // It misses where the world that the seat knows when the call begins shows the key in no slot,
    // else it finds the slot of the earliest probe that shows it.
    ensures first { (table : RuleTable T A) (key : Key) (name : ℕ) (marks : Bool)
        (answer : Option Pin) (before after : Effort) (old new : SeatOf T) → clients_of table ≡ 1
        → Searches T.fits table key name marks answer before after old new
        → FindsFirst table key (world_at table old) answer }

    // So it misses exactly where no slot of that world shows the key.
    ensures misses { (table : RuleTable T A) (key : Key) (name : ℕ) (marks : Bool)
        (answer : Option Pin) (before after : Effort) (old new : SeatOf T) → clients_of table ≡ 1
        → Searches T.fits table key name marks answer before after old new
        → IsNone answer ↔ ((slot : ℕ) → slot < slots_of table
        → ¬ ShowsKey (world_at table old) key slot) }
{}

/// A walk that comes to a slot holds what stands there, whatever other clients do meanwhile.
pub fn law_pinned_lasting<T: Tag, A: Allocator>()
    // Where it holds nothing, the slot showed nothing at some moment of the call: so no entry stood
    // visible there through the whole call. Where it holds the entry, that very entry was visible
    // there at some moment. Where it freed one, the slot showed nothing at some moment, and then an
    // entry was taken there on which no client held a reference.
    ensures { (table : RuleTable T A) (name slot : ℕ) (room : Bool) (done : AtSlot)
        (before after : Effort) (old new : SeatOf T)
        → PinsAt T.fits table name slot room done before after old new
        → PinsLasting table slot name done old new }
{}

/// In a shard of one client a walk that comes to a slot holds exactly what the shard shows there.
pub fn law_pinned_alone<T: Tag, A: Allocator>()
    // It holds an entry where the slot shows one in the world that the seat knows when the call
    // begins: that very entry. Else the slot shows nothing there.
    ensures shown { (table : RuleTable T A) (name slot : ℕ) (room : Bool) (done : AtSlot)
        (before after : Effort) (old new : SeatOf T) → clients_of table ≡ 1
        → PinsAt T.fits table name slot room done before after old new
        → IsShownBy (shown_at (world_at table old) slot) name done (view new) }

    // In the world that the seat knows at the end each slot shows what it showed, also where an
    // entry was freed.
    ensures stays { (table : RuleTable T A) (name slot : ℕ) (room : Bool) (done : AtSlot)
        (before after : Effort) (old new : SeatOf T) → clients_of table ≡ 1
        → PinsAt T.fits table name slot room done before after old new
        → ShowsSame (world_at table old) (world_at table new) }
{}

/// In a shard of one client hiding a key hides exactly what the shard shows of it.
pub fn law_hidden_alone<T: Tag, A: Allocator>()
    // As many slots are hidden as show the key in the world that the seat knows when the call
    // begins. In the one that it knows at the end none does: those show nothing, and each other
    // slot shows what it showed.
    ensures hides { (table : RuleTable T A) (key : Key) (name : ℕ) (room : Bool) (all : Erased)
        (before after : Effort) (old new : SeatOf T) → clients_of table ≡ 1
        → HidesAll T.fits table key name room all before after old new
        → HidesShown (slots_of table) key all.hidden (world_at table old) (world_at table new) }

    // To settle what was freed changes nothing of what is shown.
    ensures settles { (table : RuleTable T A) (old new : SeatOf T) → clients_of table ≡ 1
        → GoesOnBy table is_settling old new → (slot : ℕ)
        → shown_at (world_at table new) slot ≡ shown_at (world_at table old) slot }
{}

/// In a shard of one client an insertion meets the entry that look-ups find, or comes before it.
pub fn law_inserted_alone<T: Tag, A: Allocator>()
    // Placed: its slot is an earlier probe than each that shows the key in the world that the seat
    // knows when the insertion begins; then it shows the key. Matched: some probe shows the key
    // there, and the insertion ended at the first that does. No slot: none shows it. All other
    // slots show what they showed.
    ensures { (table : RuleTable T A) (key : Key) (name weight : ℕ) (answer : Insertion)
        (before after : Effort) (old new : SeatOf T) → clients_of table ≡ 1
        → Inserts T.fits table key name weight answer before after old new
        → InsertsShown (slots_of table) key answer (world_at table old) (world_at table new) }
{}

/// A shard of one client is never out of slots.
pub fn law_room_alone<T: Tag, A: Allocator>()
    // An insertion finds an empty slot, or meets an entry of its key: not all slots have entries at
    // once. The shard began with no entry, or with entries that keep their limits.
    ensures { (table : RuleTable T A) (key : Key) (name weight : ℕ) (before after : Effort)
        (old new : SeatOf T) → clients_of table ≡ 1 → BeganWithin table T.fits
        → ¬ Inserts T.fits table key name weight NoSlot before after old new }
{}

/// In a shard of one client only what is placed, hidden or taken changes what the shard shows.
pub fn law_still_alone<T: Tag, A: Allocator>()
    // A call by whose events no entry is made, taken, shown or hidden: each slot shows what it
    // showed.
    ensures still { (table : RuleTable T A) (old new : SeatOf T) → clients_of table ≡ 1
        → GoesOnStill table old new → ShowsSame (world_at table old) (world_at table new) }

    // So it is of each call that only seeks: one more reference, what is read by one, and loads;
    ensures seeks { (table : RuleTable T A) (old new : SeatOf T) → clients_of table ≡ 1
        → Seeks table old new → ShowsSame (world_at table old) (world_at table new) }

    // and of a search, whatever it finds.
    ensures searches { (table : RuleTable T A) (key : Key) (name : ℕ) (marks : Bool)
        (answer : Option Pin) (before after : Effort) (old new : SeatOf T) → clients_of table ≡ 1
        → Searches T.fits table key name marks answer before after old new
        → ShowsSame (world_at table old) (world_at table new) }

    // A release: each slot but that of its reference shows what it showed. That one does so too
    // where nothing was freed, else it shows nothing.
    ensures releases { (table : RuleTable T A) (slot name : ℕ) (room used erase : Bool)
        (freed : Option ℕ) (old new : SeatOf T) → clients_of table ≡ 1
        → ReleasesBy table slot name room used erase freed old new
        → ShowsBut slot freed (world_at table old) (world_at table new) }

    // One that doesn't ask to erase, and that freed an entry all the same: its slot showed nothing.
    // So none takes away what is shown.
    ensures unerased { (table : RuleTable T A) (slot name charge : ℕ) (room used : Bool)
        (old new : SeatOf T) → clients_of table ≡ 1
        → ReleasesBy table slot name room used false (Some charge) old new
        → shown_at (world_at table old) slot ≡ None }
{}

/// In a shard of one client totals are those of what the shard has.
pub fn law_told_alone<T: Tag, A: Allocator>()
    // A load of the usage finds that of the world that the seat knows: the charges of all entries
    // in slots, hidden ones too, and what stands for the client, as its standalone entries.
    ensures usage { (table : RuleTable T A) (used : ℕ) (old new : SeatOf T)
        → clients_of table ≡ 1 → IsEvent table (usage_done used (view old)) old new
        → used ≡ usage_of (world_at table old) }

    // One of the occupancy finds how many entries are in slots, hidden ones too, with the place and
    // the freed slots that the client has in hand.
    ensures occupancy { (table : RuleTable T A) (count : ℕ) (old new : SeatOf T)
        → clients_of table ≡ 1 → IsEvent table (occupancy_done count (view old)) old new
        → count ≡ occupancy_of (world_at table old) }
{}
