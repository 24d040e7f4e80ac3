//! Taking an entry to free it.
ghost use Rattle.std.specs.Prelude.{◌≡◌, ◌∷◌, ◌+◌, ◌^◌, ◌<◌, ◌≤◌, [], true, Some, IfSome, IfNone, is_some, length, slice_index};
ghost use Rattle.hcc_word.specs.Word.{is_shareable};
ghost use Rattle.hcc_rule.specs.declared.layout.TheConstants.{CHARGE, PAYLOAD};
ghost use Rattle.hcc_core.specs.Lawful.{owned_slot};
ghost use Rattle.hcc_rule.specs.Callers.{slots_of, room_of, IsNoEvent, IsSeatAt, IsSlotOf, IsSlotAt};
ghost use Rattle.hcc_rule.specs.Addresses.{address_of_meta};
ghost use Rattle.hcc_rule.specs.Between.{MayFree};
ghost use Rattle.hcc_rule.specs.Probes.{trail_to};
ghost use Rattle.hcc_rule.specs.Seats.{IsSameSeat, view};
ghost use Rattle.hcc_rule.specs.ToldOwners.{IsLast, records_left};
ghost use Rattle.hcc_table.specs.Efforts.{Lost};
ghost use Rattle.hcc_table.specs.Freed.{HasTaken, HasWord, IsFreed, TakenAt, TakesBy, emptied, owned_freed, owned_key};
ghost use Rattle.hcc_table.specs.Lists.{Hands, Puts, has_room};
ghost use Rattle.hcc_table.specs.Searched.{Sought};
ghost use Rattle.hcc_table.specs.Seeking.{is_unpass, Empties, GoesOnBy};
ghost use Rattle.hcc_table.specs.Steps.{Adds, MakesAtMost, TriesToTake, freeing};

use crate::efforts::Effort;
use crate::lists::{Freed, FreedList, NoList};
use crate::walk::Walk;
use hcc_rule::layout::{CHARGE, KEY0, KEY1, PAYLOAD};
use hcc_rule::{Key, RuleSeat, RuleTable, SlotAt, Tag};
use std::alloc::Allocator;

/// Frees the slot whose entry the client took: takes back the displacements of the key's probes
/// before the slot, and empties it. It returns the entry's charge, which the client has to settle
/// with its place.
///
/// It allocates nothing. It costs three loads, a subtraction for each slot of its trail, a store.
pub fn free_taken<T: Tag, A: Allocator>(
    table: &RuleTable<T, A>,
    seat: &mut RuleSeat<T>,
    slot: u32,
) -> u64
    requires seat { IsSeatAt table.now seat.old }
    requires slot { IsSlotOf table.now slot }
    requires taken { HasTaken (slots_of table.now) slot (view seat.old) }
    ensures seat { IsSameSeat seat.old seat.new }
    ensures charge { result ≡ slice_index (view seat.old).written CHARGE }
    ensures view { view seat.new ≡ emptied (view seat.old) }
    ensures past { Empties table.now (view seat.old).client seat.old seat.new }
    ensures adds { Adds seat.old seat.new }
    ensures steps { MakesAtMost (length (view seat.old).work.trail + 4) seat.old seat.new }
{
    let data = table.data_of(slot);
    free_taken_at(table, seat, SlotAt { slot, data }, &mut NoList)
}

/// The same, with the slot's address, and puts the entry on a list before the slot is emptied.
fn free_taken_at<T: Tag, A: Allocator, L: FreedList<T>>(
    table: &RuleTable<T, A>,
    seat: &mut RuleSeat<T>,
    at: SlotAt,
    list: &mut L,
) -> u64
    requires seat { IsSeatAt table.now seat.old }
    requires at { IsSlotAt table.now at }
    requires taken { HasTaken (slots_of table.now) at.slot (view seat.old) }
    requires room { has_room 1 (L.shelf list.old) ≡ true }
    requires has { is_some (L.shelf list.old) ≡ true → HasWord (room_of table.now) (view seat.old) }
    ensures seat { IsSameSeat seat.old seat.new }
    ensures charge { result ≡ slice_index (view seat.old).written CHARGE }
    ensures list { Puts (owned_freed (view seat.old) ∷ []) (L.shelf list.old) (L.shelf list.new) }
    ensures view { view seat.new ≡ emptied (view seat.old) }
    ensures past { Empties table.now (view seat.old).client seat.old seat.new }
    ensures adds { Adds seat.old seat.new }
    ensures steps { MakesAtMost (length (view seat.old).work.trail + 4 + L.loads)
        seat.old seat.new }
{
    let key = Key {
        w0: table.read_own_at(seat, at, KEY0),
        w1: table.read_own_at(seat, at, KEY1),
    };
    let charge = table.read_own_at(seat, at, CHARGE);
    put_own(table, seat, at, key, list);
    take_back(table, seat, at.slot, key);
    table.empty_at(seat, at);
    charge
}

/// Puts the entry whose slot the client owns on the list, if there is one.
#[inline(always)]
fn put_own<T: Tag, A: Allocator, L: FreedList<T>>(
    table: &RuleTable<T, A>,
    seat: &mut RuleSeat<T>,
    at: SlotAt,
    key: Key,
    list: &mut L,
)
    requires seat { IsSeatAt table.now seat.old }
    requires at { IsSlotAt table.now at }
    requires key { key ≡ owned_key (view seat.old) }
    requires room { has_room 1 (L.shelf list.old) ≡ true }
    requires owned { owned_slot (view seat.old).work.owned ≡ Some at.slot }
    requires has { is_some (L.shelf list.old) ≡ true → HasWord (room_of table.now) (view seat.old) }
    ensures seat { IsSameSeat seat.old seat.new }
    ensures list { Puts (owned_freed (view seat.old) ∷ []) (L.shelf list.old) (L.shelf list.new) }
    ensures view { view seat.new ≡ view seat.old }
    ensures past { IsNoEvent seat.old seat.new }
    ensures adds { Adds seat.old seat.new }
    ensures steps { MakesAtMost L.loads seat.old seat.new }
{
    if list.is_kept() {
        let word = table.read_own_at(seat, at, PAYLOAD);
        list.put(Freed { key, word });
    }
}

/// Takes back the displacements of a key's probes before the slot.
pub(crate) fn take_back<T: Tag, A: Allocator>(
    table: &RuleTable<T, A>,
    seat: &mut RuleSeat<T>,
    slot: u32,
    key: Key,
)
    requires seat { IsSeatAt table.now seat.old }
    requires trail { (view seat.old).work.trail ≡ trail_to (slots_of table.now) key slot }
    ensures seat { IsSameSeat seat.old seat.new }
    ensures view { view seat.new
        ≡ record (view seat.old) { work = record (view seat.old).work { trail = [] } } }
    ensures past { GoesOnBy table.now is_unpass seat.old seat.new }
    ensures adds { Adds seat.old seat.new }
    ensures steps { MakesAtMost (length (view seat.old).work.trail) seat.old seat.new }
{
    let slots = table.geometry().slots;
    let mut walk = Walk::begin(key, slots);
    for _ in 0..slots {
        let passed = walk.slot();
        if passed == slot {
            return;
        }
        table.unpass(seat, passed);
        walk = walk.next();
    }
}

/// Tries once to take the entry of a slot whose word was `word`, with no reference or with the
/// client's last one, frees it, and puts it on the list. It returns its charge; none where the
/// compare-exchange lost.
pub(crate) fn try_free<T: Tag, A: Allocator, L: FreedList<T>>(
    table: &RuleTable<T, A>,
    seat: &mut RuleSeat<T>,
    at: SlotAt,
    word: u64,
    name: Option<u64>,
    list: &mut L,
    effort: &mut Effort,
) -> Option<u64>
    requires seat { IsSeatAt table.now seat.old }
    requires at { IsSlotAt table.now at }
    requires entry { is_shareable word ≡ true }
    requires last { IsLast at.slot word name (view seat.old) }
    requires may { MayFree (view seat.old) }
    requires room { has_room 1 (L.shelf list.old) ≡ true }
    ensures seat { IsSameSeat seat.old seat.new }
    ensures list { Hands (L.shelf list.old) (L.shelf list.new) (view seat.old) (view seat.new) }
    ensures lost { IfNone result (Sought (view seat.old) (view seat.new)
        × ((view seat.new).met ≡ (view seat.old).met) × Lost 1 1 effort.old effort.new) }
    ensures still { IfNone result ((view seat.new).glimpse ≡ (view seat.old).glimpse) }
    ensures won { IfSome result (λ _. effort.new ≡ effort.old) }
    ensures taken { IfSome result (λ charge. TakenAt T.fits (slots_of table.now) (room_of table.now)
        at.slot word name charge (view seat.old) (view seat.new)) }
    ensures freed { IfSome result (λ charge.
        IsFreed T.fits (room_of table.now) word name charge (view seat.old) (view seat.new)
        × ((view seat.new).records ≡ records_left name (view seat.old).records)
        × ((view seat.new).work.looked ≡ (view seat.old).work.looked)) }
    ensures tried { TriesToTake (address_of_meta table.now at.slot) word result seat.old seat.new }
    ensures by { TakesBy table.now at.slot word name result seat.old seat.new }
    ensures steps { MakesAtMost (freeing (slots_of table.now) + L.loads) seat.old seat.new }
{
    if table.free_at(seat, at, word, name) != word {
        effort.lose();
        return None;
    }
    Some(free_taken_at(table, seat, at, list))
}
