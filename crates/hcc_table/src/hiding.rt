//! Hiding the entries of a key.
ghost use Rattle.std.specs.Prelude.{◌≡◌, ◌+◌, ◌-◌, ◌*◌, ◌^◌, ◌<◌, ◌≤◌, ◌&&◌, [], true, Option, None, Some, IfSome, IfNone, IsSomeAnd, replicate, ℕ};
ghost use Rattle.hcc_core.specs.declared.limits.TheConstants.{REFERENCES_PER_CLIENT};
ghost use Rattle.hcc_core.specs.declared.slot.Stamp.{Stamp};
ghost use Rattle.hcc_core.specs.Lawful.{is_in};
ghost use Rattle.hcc_core.specs.Outcomes.{dropped};
ghost use Rattle.hcc_rule.specs.Callers.{slots_of, IsSeatAt, IsSlotOf};
ghost use Rattle.hcc_rule.specs.Addresses.{address_of_meta};
ghost use Rattle.hcc_rule.specs.Seats.{IsSameSeat, view};
ghost use Rattle.hcc_rule.specs.Views.{is_called, load_of};
ghost use Rattle.hcc_rule.specs.Records.{record_in};
ghost use Rattle.hcc_rule.specs.Words.{key_of};
ghost use Rattle.hcc_table.specs.Efforts.{Lost, Took};
ghost use Rattle.hcc_table.specs.Erased.{Erases, IsAtRest, IsErased};
ghost use Rattle.hcc_table.specs.Freed.{TakesByWhereDue, TriedWhereDue};
ghost use Rattle.hcc_table.specs.Hides.{HidesAll, HidesHeld, PassesOrHides, is_alone};
ghost use Rattle.hcc_table.specs.Lists.{Hands, has_room};
ghost use Rattle.hcc_table.specs.Searched.{Sought, Buried, AllDead};
ghost use Rattle.hcc_table.specs.Steps.{MakesFor, freeing, MakesAtMost};

use crate::efforts::Effort;
use crate::freeing::try_free;
use crate::lists::FreedList;
use crate::search::acquire_at;
use crate::walk::Walk;
use crate::words::{has_entry, is_shown};
use hcc_rule::{Key, RuleSeat, RuleTable, SlotAt, Tag};
use hcc_word::layout::HIDING_MASK;
use hcc_word::refs;
use std::alloc::Allocator;

/// What hiding the entries of a key did.
#[derive(Clone, Copy, Debug, PartialEq, Eq)]
pub struct Erased {
    /// How many visible entries it hid.
    pub hidden: u32,
    /// How many entries it freed: so many places are the client's to settle.
    pub slots: u32,
    /// Their charges in sum, which are the client's to settle too.
    pub charge: u64,
}

impl Erased {
    /// Nothing was hidden.
    const NOTHING: Erased = Erased {
        hidden: 0,
        slots: 0,
        charge: 0,
    };

    /// Both in sum.
    fn with(&self, other: Erased) -> Erased
        requires hidden { self.now.hidden + other.hidden < 2 ^ 32 }
        requires slots { self.now.slots + other.slots < 2 ^ 32 }
        requires charge { self.now.charge + other.charge < 2 ^ 64 }
        ensures hidden { result.hidden ≡ self.now.hidden + other.hidden }
        ensures slots { result.slots ≡ self.now.slots + other.slots }
        ensures charge { result.charge ≡ self.now.charge + other.charge }
    {
        Erased {
            hidden: self.hidden + other.hidden,
            slots: self.slots + other.slots,
            charge: self.charge + other.charge,
        }
    }
}

/// Hides each visible entry of the key: look-ups find none of them from then on. Each probe of the
/// key in turn is looked at, as in a search that doesn't stop at a match. An entry that only this
/// call holds then is taken by one compare-exchange, freed, and put on the list; where that loses,
/// or the list has no room, it stays hidden.
///
/// The name is one that the client doesn't hold, and there is room for one more reference. The
/// client owns no slot, has an empty trail, and no freed charge to settle. Each entry of the key
/// that it holds has been seen dead afterwards, and so has each that it hid, held or not. It frees
/// no more entries than it met of the key, each of a charge below 2^32.
///
/// At least one slot is visited. Each that was found visible with an entry of the key was hidden,
/// and each other one was found not visible, by its load or by the add, or with another key. It
/// ends where the displacement word of the last slot is 0, or after all slots. To take an entry is
/// tried exactly where this call's reference is the only one once it is hidden, and the list has
/// room.
///
/// It allocates nothing. Each probe costs what it costs a search; each match an atomic and, a
/// compare-exchange where nobody else holds the entry, and the freeing where that wins, else a
/// subtraction.
pub fn hide<T: Tag, A: Allocator, L: FreedList<T>>(
    table: &RuleTable<T, A>,
    seat: &mut RuleSeat<T>,
    key: Key,
    name: u64,
    list: &mut L,
    effort: &mut Effort,
) -> Erased
    requires seat { IsSeatAt table.now seat.old }
    requires fresh { record_in name (view seat.old).records ≡ None }
    requires load { load_of (view seat.old).records + 1 ≤ REFERENCES_PER_CLIENT }
    requires idle { IsAtRest (view seat.old) }
    requires settled { (view seat.old).work.freed ≡ 0 }
    ensures seat { IsSameSeat seat.old seat.new }
    ensures list { Hands (L.shelf list.old) (L.shelf list.new) (view seat.old) (view seat.new) }
    ensures effort { Took 1 (slots_of table.now) (2 * slots_of table.now) effort.old effort.new }
    ensures view { IsErased key result.hidden result.slots result.charge
        (view seat.old) (view seat.new) }
    ensures dead { AllDead key (view seat.old) (view seat.new) }
    ensures few { (result.hidden ≤ slots_of table.now) × (result.slots ≤ slots_of table.now) }
    ensures charge { result.charge ≤ result.slots * (2 ^ 32 - 1) }
    ensures hides { HidesAll T.fits table.now key name (has_room 1 (L.shelf list.new)) result
        effort.old effort.new seat.old seat.new }
    ensures frees { MakesFor 9
        ((slots_of table.now + 4 + L.loads) * result.slots) (slots_of table.now)
        effort.old effort.new seat.old seat.new }
    ensures steps { MakesFor (freeing (slots_of table.now) + L.loads + 9) 0 (slots_of table.now)
        effort.old effort.new seat.old seat.new }
{
    let slots = table.geometry().slots;
    let mut walk = Walk::begin(key, slots);
    let mut all = Erased::NOTHING;
    for _ in 0..slots {
        let slot = walk.slot();
        effort.probes(1);
        let here = hide_at(table, seat, slot, key, name, list, effort);
        all = all.with(here);
        let data = table.data_of(slot);
        if table.count_at(seat, SlotAt { slot, data }) == 0 {
            return all;
        }
        walk = walk.next();
    }
    all
}

/// Hides the slot's entry, where it shows one of this key, and frees it where nobody else holds it.
fn hide_at<T: Tag, A: Allocator, L: FreedList<T>>(
    table: &RuleTable<T, A>,
    seat: &mut RuleSeat<T>,
    slot: u32,
    key: Key,
    name: u64,
    list: &mut L,
    effort: &mut Effort,
) -> Erased
    requires seat { IsSeatAt table.now seat.old }
    requires slot { IsSlotOf table.now slot }
    requires fresh { record_in name (view seat.old).records ≡ None }
    requires load { load_of (view seat.old).records + 1 ≤ REFERENCES_PER_CLIENT }
    requires idle { IsAtRest (view seat.old) }
    requires space { (view seat.old).work.freed + 2 ^ 32 ≤ 2 ^ 49 }
    ensures seat { IsSameSeat seat.old seat.new }
    ensures list { Hands (L.shelf list.old) (L.shelf list.new) (view seat.old) (view seat.new) }
    ensures effort { Took 0 0 2 effort.old effort.new }
    ensures view { IsErased key result.hidden result.slots result.charge
        (view seat.old) (view seat.new) }
    ensures dead { Buried key (λ s. s ≡ slot) (view seat.old) (view seat.new) }
    ensures few { (result.hidden ≤ 1) × (result.slots ≤ 1)
        × (result.charge ≤ result.slots * (2 ^ 32 - 1)) }
    ensures does { (word : ℕ) × (caught : Option Stamp)
        × PassesOrHides T.fits table.now key name (has_room 1 (L.shelf list.old)) slot word caught
        result effort.old effort.new seat.old seat.new
        × IfSome caught (λ stamp. is_in stamp (view seat.new).work.dead ≡ true) }
    ensures steps { MakesAtMost ((slots_of table.now + 4 + L.loads) * result.slots + 8)
        seat.old seat.new }
{
    let data = table.data_of(slot);
    match acquire_at(table, seat, SlotAt { slot, data }, key, name, effort) {
        Some(_) => hide_held(table, seat, slot, name, list, effort),
        None => Erased::NOTHING,
    }
}

/// Hides the entry that the record of this name is on, and gives the reference back, or frees the
/// entry where it's the last one.
fn hide_held<T: Tag, A: Allocator, L: FreedList<T>>(
    table: &RuleTable<T, A>,
    seat: &mut RuleSeat<T>,
    slot: u32,
    name: u64,
    list: &mut L,
    effort: &mut Effort,
) -> Erased
    requires seat { IsSeatAt table.now seat.old }
    requires slot { IsSlotOf table.now slot }
    requires holds { IsSomeAnd (record_in name (view seat.old).records)
        (λ r. (r.slot ≡ slot) × (r.weight ≡ 1)) }
    requires idle { IsAtRest (view seat.old) }
    requires space { (view seat.old).work.freed + 2 ^ 32 ≤ 2 ^ 49 }
    ensures seat { IsSameSeat seat.old seat.new }
    ensures list { Hands (L.shelf list.old) (L.shelf list.new) (view seat.old) (view seat.new) }
    ensures effort { Lost 0 1 effort.old effort.new }
    ensures view { IsSomeAnd (record_in name (view seat.old).records) (λ r.
        Erases (replicate result.hidden (key_of r.entry)) result.slots result.charge
        (view seat.old) (view seat.new)
        × (is_in r.entry.stamp (view seat.new).work.dead ≡ true)) }
    ensures records { (view seat.new).records ≡ dropped (is_called name) (view seat.old).records }
    ensures few { (result.hidden ≤ 1) × (result.slots ≤ 1)
        × (result.charge ≤ result.slots * (2 ^ 32 - 1)) }
    ensures hides { HidesHeld table.now slot name (has_room 1 (L.shelf list.old)) result
        effort.old effort.new seat.old seat.new }
    ensures steps { MakesAtMost ((slots_of table.now + 4 + L.loads) * result.slots + 3)
        seat.old seat.new }
{
    let found = table.hide(seat, slot, name);
    let left = found & HIDING_MASK;
    let hidden = u32::from(is_shown(found));
    match free_last(table, seat, slot, name, left, list, effort) {
        Some(charge) => Erased {
            hidden,
            slots: 1,
            charge,
        },
        None => {
            let data = table.data_of(slot);
            table.give_at(seat, SlotAt { slot, data }, 1, name);
            Erased {
                hidden,
                slots: 0,
                charge: 0,
            }
        }
    }
}

/// Tries to take the entry whose word is `word`, where it's hidden and has one reference: the
/// client's, which has this name, and the list has room.
fn free_last<T: Tag, A: Allocator, L: FreedList<T>>(
    table: &RuleTable<T, A>,
    seat: &mut RuleSeat<T>,
    slot: u32,
    name: u64,
    word: u64,
    list: &mut L,
    effort: &mut Effort,
) -> Option<u64>
    requires seat { IsSeatAt table.now seat.old }
    requires slot { IsSlotOf table.now slot }
    requires holds { IsSomeAnd (record_in name (view seat.old).records)
        (λ r. (r.slot ≡ slot) × (r.weight ≡ 1)) }
    requires idle { IsAtRest (view seat.old) }
    requires space { (view seat.old).work.freed + 2 ^ 32 ≤ 2 ^ 49 }
    ensures seat { IsSameSeat seat.old seat.new }
    ensures list { Hands (L.shelf list.old) (L.shelf list.new) (view seat.old) (view seat.new) }
    ensures effort { Lost 0 1 effort.old effort.new }
    ensures lost { IfNone result (Sought (view seat.old) (view seat.new)) }
    ensures freed { IfSome result (λ charge. (charge < 2 ^ 32)
        × Erases [] 1 charge (view seat.old) (view seat.new)
        × ((view seat.new).records ≡ dropped (is_called name) (view seat.old).records)) }
    ensures tried { TriedWhereDue (address_of_meta table.now slot) word
        (has_room 1 (L.shelf list.old) && is_alone word) result effort.old effort.new
        seat.old seat.new }
    ensures by { TakesByWhereDue table.now slot word (Some name)
        (has_room 1 (L.shelf list.old) && is_alone word) result seat.old seat.new }
    ensures steps { MakesAtMost (freeing (slots_of table.now) + L.loads) seat.old seat.new }
    ensures fewer { IfNone result (MakesAtMost 1 seat.old seat.new) }
{
    if list.has_room(1) && has_entry(word) && !is_shown(word) && refs(word) == 1 {
        let data = table.data_of(slot);
        let at = SlotAt { slot, data };
        try_free(table, seat, at, word, Some(name), list, effort)
    } else {
        None
    }
}
