//! The insertion of an entry: at each probe of its key in turn, until a slot is found that is
//! empty, or one that shows an entry of the key.
ghost use Rattle.std.specs.Prelude.{◌≡◌, ◌+◌, ◌<◌, ◌≤◌, true, false, None, [], ℕ};
ghost use Rattle.hcc_table.specs.declared.inserting.Insertion.TheVariants.{Placed, Matched};
ghost use Rattle.hcc_rule.specs.ToldOwners.{first_word};
ghost use Rattle.hcc_word.specs.Word.{is_empty};
ghost use Rattle.hcc_core.specs.declared.limits.TheConstants.{MOST_WEIGHT, REFERENCES_PER_CLIENT};
ghost use Rattle.hcc_rule.specs.Callers.{plan_of, slots_of, IsSeatAt, room_of, IsSlotAt};
ghost use Rattle.hcc_rule.specs.Addresses.{address_of_meta};
ghost use Rattle.hcc_rule.specs.Probes.{trail_to};
ghost use Rattle.hcc_rule.specs.Seats.{IsSameSeat, view, atomic};
ghost use Rattle.hcc_rule.specs.ToldReferences.{may_reach};
ghost use Rattle.hcc_rule.specs.Views.{load_of};
ghost use Rattle.hcc_rule.specs.Records.{record_in};
ghost use Rattle.hcc_table.specs.Efforts.{Took};
ghost use Rattle.hcc_table.specs.Inserted.{CountsTaken, InsertedBy, MayInsert, Meets, TriedAt};
ghost use Rattle.hcc_table.specs.Probed.{PassesEntry};
ghost use Rattle.hcc_table.specs.Searched.{Sought, Buried};
ghost use Rattle.hcc_table.specs.Steps.{Adds, Ends, MakesAtMost, MakesFor, UsesUp, trying};
ghost use Rattle.hcc_table.specs.Tries.{Inserts, TriesAt, UsesEntry};

use crate::acquire::reach;
use crate::build::build;
use crate::efforts::Effort;
use crate::freeing::take_back;
use crate::releasing::let_go;
use crate::search::matches;
use crate::walk::Walk;
use crate::words::{has_entry, is_counting, is_shown};
use hcc_rule::{Draft, Key, RuleSeat, RuleTable, SlotAt, Tag};
use hcc_word::layout::EMPTY;
use hcc_word::state;
use std::alloc::Allocator;

/// What came of the insertion of an entry.
#[derive(Clone, Copy, Debug, PartialEq, Eq)]
pub enum Insertion {
    /// The entry was put into this slot, and is shown.
    Placed { slot: u32 },
    /// A visible entry of the key was met first, and used where references there count.
    Matched,
    /// No slot was empty.
    NoSlot,
}

/// Puts an entry of a key into the table. At each probe of the key in turn the occupied bit of the
/// slot is set. The first slot that was empty is the client's: it writes the words of the entry
/// there and shows it. Where a slot before it shows an entry of the key, none is placed: as many
/// references as the draft's countdown says are acquired on that one, under this name, and released
/// as uses where they count. Each slot is tried once, and no entry is freed.
///
/// The client, which is `client`, has its place and its charge granted, nothing needed, no slot and
/// no trail, room for three more references and for one more entry. The countdown is 1 to 3, and
/// the value is right for the key. The name is none that the client holds; the reference that it
/// keeps of the entry that it shows, if the draft asks for one, has that name, and counts.
///
/// Placed: the entry is the newest that the client made, behind the trail to its slot, and its
/// place and its charge are spent. Each slot of the trail was taken, and each entry of the key that
/// the client holds there is dead to it. Matched, or no slot: the client has what it had. In each
/// case it may have looked at slots, seen entries dead and met keys, and counted slots that weren't
/// empty: so many as the trail is long, at least one, or all of them.
///
/// Each slot that was passed was found taken, and not visible, by the step that set its bit or by
/// the add, or with an entry of another key. The effort counts the slots that were found taken, and
/// one more where the entry was placed.
///
/// It allocates nothing. Each probe costs an or, an add to the displacement word where another
/// probe follows, and where the slot shows an entry an add, a load of each half of the key and a
/// subtraction, with a compare-exchange where references don't count. An entry that is placed costs
/// a store for each of its words and one more; else each slot that was passed costs a subtraction.
pub fn insert<T: Tag, A: Allocator>(
    table: &RuleTable<T, A>,
    seat: &mut RuleSeat<T>,
    draft: Draft,
    value: &[u8],
    client: u32,
    name: u64,
    effort: &mut Effort,
) -> Insertion
    requires seat { IsSeatAt table.now seat.old }
    requires may { MayInsert T.fits (plan_of table.now) draft value.now client name
        (view seat.old) }
    requires trail { (view seat.old).work.trail ≡ [] }
    ensures seat { IsSameSeat seat.old seat.new }
    ensures effort { Took 1 (slots_of table.now) (slots_of table.now) effort.old effort.new }
    ensures view { InsertedBy (slots_of table.now) draft value.now result
        (view seat.old) (view seat.new) }
    ensures placed { (slot : ℕ) → result ≡ Placed slot → Ends (atomic
        (address_of_meta table.now slot) (first_word draft) 0 (first_word draft))
        seat.old seat.new }
    ensures matched { result ≡ Matched → (slot : ℕ) × (slot < slots_of table.now)
        × UsesUp (address_of_meta table.now slot) draft.countdown seat.old seat.new }
    ensures inserts { Inserts T.fits table.now draft.key name draft.countdown result
        effort.old effort.new seat.old seat.new }
    ensures probes { CountsTaken result (view seat.old) (view seat.new) effort.old effort.new }
    ensures steps { MakesFor 7 (slots_of table.now + room_of table.now) (slots_of table.now)
        effort.old effort.new seat.old seat.new }
{
    let slots = table.geometry().slots;
    let mut walk = Walk::begin(draft.key, slots);
    let mut passed = 0;
    loop {
        let slot = walk.slot();
        let data = table.data_of(slot);
        let at = SlotAt { slot, data };
        effort.probes(1);
        match insert_at(table, seat, at, draft, value, client, name, effort) {
            Insertion::Placed { slot } => return Insertion::Placed { slot },
            Insertion::Matched => {
                take_back(table, seat, slot, draft.key);
                return Insertion::Matched;
            }
            Insertion::NoSlot => {}
        }
        if passed + 1 == slots {
            take_back(table, seat, slot, draft.key);
            return Insertion::NoSlot;
        }
        table.pass_at(seat, at);
        walk = walk.next();
        passed += 1;
    }
}

/// Puts the entry into this slot, if it is empty. No slot: it is neither empty nor shows an entry
/// of the key.
fn insert_at<T: Tag, A: Allocator>(
    table: &RuleTable<T, A>,
    seat: &mut RuleSeat<T>,
    at: SlotAt,
    draft: Draft,
    value: &[u8],
    client: u32,
    name: u64,
    effort: &mut Effort,
) -> Insertion
    requires seat { IsSeatAt table.now seat.old }
    requires at { IsSlotAt table.now at }
    requires may { MayInsert T.fits (plan_of table.now) draft value.now client name
        (view seat.old) }
    requires trail { (view seat.old).work.trail ≡ trail_to (slots_of table.now) draft.key at.slot }
    ensures seat { IsSameSeat seat.old seat.new }
    ensures effort { Took 0 0 1 effort.old effort.new }
    ensures view { TriedAt at.slot draft value.now result (view seat.old) (view seat.new) }
    ensures placed { (at : ℕ) → result ≡ Placed at → Ends (atomic
        (address_of_meta table.now at) (first_word draft) 0 (first_word draft))
        seat.old seat.new }
    ensures matched { result ≡ Matched
        → UsesUp (address_of_meta table.now at.slot) draft.countdown seat.old seat.new }
    ensures tries { TriesAt T.fits table.now draft.key name draft.countdown at.slot result
        effort.old effort.new seat.old seat.new }
    ensures adds { Adds seat.old seat.new }
    ensures steps { MakesAtMost (trying (room_of table.now) result) seat.old seat.new }
{
    let found = table.occupy_at(seat, at);
    if is_free(found) {
        build(table, seat, at, draft, value, client);
        return Insertion::Placed { slot: at.slot };
    }
    let (key, weight) = (draft.key, draft.countdown);
    if is_shown(found) && meet(table, seat, at, key, weight, name, effort) {
        return Insertion::Matched;
    }
    Insertion::NoSlot
}

/// Whether it is the word of an empty slot.
fn is_free(word: u64) -> bool
    ensures { result ≡ is_empty word }
{
    state(word) == EMPTY
}

/// Whether the slot, which was looked at, shows an entry of the key. References of this weight are
/// acquired there; on an entry of the key they are released as uses, where they count.
fn meet<T: Tag, A: Allocator>(
    table: &RuleTable<T, A>,
    seat: &mut RuleSeat<T>,
    at: SlotAt,
    key: Key,
    weight: u32,
    name: u64,
    effort: &mut Effort,
) -> bool
    requires seat { IsSeatAt table.now seat.old }
    requires at { IsSlotAt table.now at }
    requires weight { (0 < weight) × (weight ≤ MOST_WEIGHT) }
    requires fresh { record_in name (view seat.old).records ≡ None }
    requires reach { may_reach at.slot (view seat.old) ≡ true }
    requires load { load_of (view seat.old).records + weight ≤ REFERENCES_PER_CLIENT }
    ensures seat { IsSameSeat seat.old seat.new }
    ensures effort { Took 0 0 1 effort.old effort.new }
    ensures view { Sought (view seat.old) (view seat.new) }
    ensures met { result ≡ true → Meets key (view seat.old) (view seat.new) }
    ensures dead { result ≡ false → Buried key (λ s. s ≡ at.slot) (view seat.old) (view seat.new) }
    ensures matched { result ≡ true
        → UsesUp (address_of_meta table.now at.slot) weight seat.old seat.new }
    ensures uses { result ≡ true → (word : ℕ) × UsesEntry T.fits table.now key name weight at.slot
        word effort.old effort.new seat.old seat.new }
    ensures passes { result ≡ false → (word : ℕ) × PassesEntry T.fits table.now key name at.slot
        weight word effort.old effort.new seat.old seat.new }
    ensures adds { Adds seat.old seat.new }
    ensures steps { MakesAtMost 5 seat.old seat.new }
{
    let found = reach(table, seat, at, weight, name, effort);
    if !has_entry(found) {
        return false;
    }
    if matches(table, seat, at, key, name, found) {
        let_go(table, seat, at, weight, name, is_counting(found));
        return true;
    }
    table.give_at(seat, at, weight, name);
    false
}
