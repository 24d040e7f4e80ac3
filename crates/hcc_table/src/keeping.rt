//! Holding the entry of a slot, for walks over all slots.
ghost use Rattle.std.specs.Prelude.{◌≡◌, ◌+◌, ◌^◌, ◌<◌, ◌≤◌, [], true, false, None, IfSome, IfNone};
ghost use Rattle.hcc_word.specs.Word.{is_visible};
ghost use Rattle.hcc_core.specs.declared.limits.TheConstants.{REFERENCES_PER_CLIENT};
ghost use Rattle.hcc_rule.specs.declared.view.Record.{Record};
ghost use Rattle.hcc_rule.specs.Callers.{slots_of, room_of, IsSeatAt, IsSlotAt, IsSlotOf};
ghost use Rattle.hcc_rule.specs.Records.{record_in};
ghost use Rattle.hcc_rule.specs.Seats.{IsSameSeat, view};
ghost use Rattle.hcc_rule.specs.ToldReferences.{may_reach};
ghost use Rattle.hcc_rule.specs.Views.{load_of};
ghost use Rattle.hcc_table.specs.AtSlots.{Frees, HoldsShown, IsKeptBy, PinsAt, freed_there, keeping, takes_one};
ghost use Rattle.hcc_table.specs.Efforts.{Lost, Took};
ghost use Rattle.hcc_table.specs.Erased.{Erases, IsAtRest};
ghost use Rattle.hcc_table.specs.Lists.{Hands};
ghost use Rattle.hcc_table.specs.Pins.{IsOf};
ghost use Rattle.hcc_table.specs.Searched.{Sought, IsFoundOn};
ghost use Rattle.hcc_table.specs.Seeking.{Seeks};
ghost use Rattle.hcc_table.specs.Steps.{AddsUnmarked, MakesAtMost, freeing};

use crate::acquire::reach;
use crate::efforts::Effort;
use crate::freeing::try_free;
use crate::lists::FreedList;
use crate::pins::Pin;
use crate::words::{has_entry, is_counting, is_shown};
use hcc_rule::{RuleSeat, RuleTable, SlotAt, Tag};
use hcc_word::refs;
use std::alloc::Allocator;

/// What a walk did at a slot.
#[derive(Clone, Copy, Debug, PartialEq, Eq)]
pub enum AtSlot {
    /// It holds nothing there, and freed nothing.
    Nothing,
    /// It holds one reference on the entry there.
    Held(Pin),
    /// It freed the entry there, of this charge: its place and the charge are the client's to
    /// settle.
    Freed(u64),
}

/// Acquires a reference on the entry of a slot under this name, where a look and then the acquire
/// both find it visible: the client hasn't seen it dead. One that the acquire finds hidden is given
/// back. Where the look finds a hidden entry that nobody holds, and the list is kept and has room,
/// it tries once to take that entry, by one compare-exchange: where it wins, it puts the entry on
/// the list and frees it.
///
/// The name is one that the client doesn't hold, and there is room for one more reference. The
/// client owns no slot, has an empty trail, and freed at most 2^49 - 2^32 that it hasn't settled.
///
/// Where it holds the entry, the client has one record more, behind its others, with a value that
/// fits the entry's key. Where it frees one, that is of a charge below 2^32, and the client held
/// nothing there. Else the client holds what it held. An entry that stands visible in the slot
/// through the whole call is held (`law_pinned_lasting`).
///
/// It allocates nothing and sets no hit bit. It costs a load, and where the slot is visible an add,
/// with a compare-exchange where the reference doesn't count, and a subtraction where it was hidden
/// meanwhile. To free an entry costs a compare-exchange and what `free_taken` costs.
pub fn pin_at<T: Tag, A: Allocator, L: FreedList<T>>(
    table: &RuleTable<T, A>,
    seat: &mut RuleSeat<T>,
    slot: u32,
    name: u64,
    list: &mut L,
    effort: &mut Effort,
) -> AtSlot
    requires seat { IsSeatAt table.now seat.old }
    requires slot { IsSlotOf table.now slot }
    requires fresh { record_in name (view seat.old).records ≡ None }
    requires load { load_of (view seat.old).records + 1 ≤ REFERENCES_PER_CLIENT }
    requires idle { IsAtRest (view seat.old) }
    requires space { (view seat.old).work.freed + 2 ^ 32 ≤ 2 ^ 49 }
    ensures seat { IsSameSeat seat.old seat.new }
    ensures list { Hands (L.shelf list.old) (L.shelf list.new) (view seat.old) (view seat.new) }
    ensures effort { Took 0 0 1 effort.old effort.new }
    ensures view { IsKeptBy T.fits (room_of table.now) slot name result
        (view seat.old) (view seat.new) }
    ensures pins { PinsAt T.fits table.now name slot (takes_one (L.shelf list.old)) result
        effort.old effort.new seat.old seat.new }
    ensures unmarked { IfNone (freed_there result) (AddsUnmarked seat.old seat.new) }
    ensures seeks { IfNone (freed_there result) (Seeks table.now seat.old seat.new) }
    ensures steps { MakesAtMost (keeping (slots_of table.now) L.loads result) seat.old seat.new }
{
    let data = table.data_of(slot);
    let at = SlotAt { slot, data };
    let seen = table.look_at(seat, at);
    if is_shown(seen) {
        return match hold_shown(table, seat, at, name, effort) {
            Some(pin) => AtSlot::Held(pin),
            None => AtSlot::Nothing,
        };
    }
    match free_hidden(table, seat, at, seen, list, effort) {
        Some(charge) => AtSlot::Freed(charge),
        None => AtSlot::Nothing,
    }
}

/// A reference on the slot's entry, where the acquire finds it visible. One that it finds hidden is
/// given back.
fn hold_shown<T: Tag, A: Allocator>(
    table: &RuleTable<T, A>,
    seat: &mut RuleSeat<T>,
    at: SlotAt,
    name: u64,
    effort: &mut Effort,
) -> Option<Pin>
    requires seat { IsSeatAt table.now seat.old }
    requires at { IsSlotAt table.now at }
    requires fresh { record_in name (view seat.old).records ≡ None }
    requires reach { may_reach at.slot (view seat.old) ≡ true }
    requires load { load_of (view seat.old).records + 1 ≤ REFERENCES_PER_CLIENT }
    ensures seat { IsSameSeat seat.old seat.new }
    ensures effort { Took 0 0 1 effort.old effort.new }
    ensures none { IfNone result (Sought (view seat.old) (view seat.new)) }
    ensures found { IfSome result (λ pin. (r : Record)
        × IsFoundOn T.fits (room_of table.now) at.slot name (view seat.old) (view seat.new) r
        × IsOf pin r) }
    ensures pin { IfSome result (λ pin. (pin.slot ≡ at.slot) × (pin.name ≡ name)) }
    ensures holds { HoldsShown T.fits table.now name at.slot result effort.old effort.new
        seat.old seat.new }
    ensures adds { AddsUnmarked seat.old seat.new }
    ensures steps { MakesAtMost 3 seat.old seat.new }
    ensures fewer { IfSome result (λ _. MakesAtMost 2 seat.old seat.new) }
{
    let found = reach(table, seat, at, 1, name, effort);
    if !has_entry(found) {
        return None;
    }
    if !is_shown(found) {
        table.give_at(seat, at, 1, name);
        return None;
    }
    Some(Pin {
        slot: at.slot,
        name,
        counting: is_counting(found),
    })
}

/// Tries to take the slot's entry, where its word says that it's hidden and that nobody holds it,
/// and the list is kept and has room.
fn free_hidden<T: Tag, A: Allocator, L: FreedList<T>>(
    table: &RuleTable<T, A>,
    seat: &mut RuleSeat<T>,
    at: SlotAt,
    word: u64,
    list: &mut L,
    effort: &mut Effort,
) -> Option<u64>
    requires seat { IsSeatAt table.now seat.old }
    requires at { IsSlotAt table.now at }
    requires hidden { is_visible word ≡ false }
    requires idle { IsAtRest (view seat.old) }
    requires space { (view seat.old).work.freed + 2 ^ 32 ≤ 2 ^ 49 }
    ensures seat { IsSameSeat seat.old seat.new }
    ensures list { Hands (L.shelf list.old) (L.shelf list.new) (view seat.old) (view seat.new) }
    ensures effort { Lost 0 1 effort.old effort.new }
    ensures lost { IfNone result (Sought (view seat.old) (view seat.new)) }
    ensures freed { IfSome result (λ charge. (charge < 2 ^ 32)
        × Erases [] 1 charge (view seat.old) (view seat.new)
        × ((view seat.new).records ≡ (view seat.old).records)) }
    ensures tries { Frees table.now at.slot word (takes_one (L.shelf list.old)) result
        effort.old effort.new seat.old seat.new }
    ensures steps { MakesAtMost (freeing (slots_of table.now) + L.loads) seat.old seat.new }
    ensures fewer { IfNone result (MakesAtMost 1 seat.old seat.new) }
{
    if list.is_kept() && list.has_room(1) && has_entry(word) && refs(word) == 0 {
        try_free(table, seat, at, word, None, list, effort)
    } else {
        None
    }
}
