//! The search for a key's entry.
ghost use Rattle.std.specs.Prelude.{◌≡◌, ◌⊎◌, ◌+◌, ◌%◌, ◌^◌, ◌<◌, ◌≤◌, true, false, None, IfSome, IfNone, ℕ};
ghost use Rattle.hcc_word.specs.declared.layout.TheConstants.{HIT_BIT};
ghost use Rattle.hcc_word.specs.Word.{is_counting, is_visible, hit_of};
ghost use Rattle.hcc_core.specs.declared.limits.TheConstants.{REFERENCES_PER_CLIENT};
ghost use Rattle.hcc_rule.specs.declared.view.Record.{Record};
ghost use Rattle.hcc_rule.specs.Callers.{slots_of, room_of, IsEvent, IsSeatAt, IsSlotOf, HasOn, IsSlotAt};
ghost use Rattle.hcc_rule.specs.Addresses.{address_of_meta};
ghost use Rattle.hcc_rule.specs.Events.{mark_done};
ghost use Rattle.hcc_rule.specs.Seats.{IsSameSeat, view, Makes, atomic};
ghost use Rattle.hcc_rule.specs.ToldOwners.{with_met};
ghost use Rattle.hcc_rule.specs.Views.{load_of};
ghost use Rattle.hcc_rule.specs.Records.{record_in};
ghost use Rattle.hcc_rule.specs.Words.{key_of};
ghost use Rattle.hcc_table.specs.Efforts.{Took};
ghost use Rattle.hcc_table.specs.Pins.{pin_of, IsPinAt};
ghost use Rattle.hcc_table.specs.Probed.{Catches, LoadsKey, LoadsOther, Looks, Passes, Searches};
ghost use Rattle.hcc_table.specs.Searched.{Sought, IsFound, IsMissed, Buried};
ghost use Rattle.hcc_table.specs.Seeking.{Seeks};
ghost use Rattle.hcc_table.specs.Steps.{AddsUnmarked, Among, MakesAtMost, MakesFor, MakesNone, Marks};

use crate::acquire::reach;
use crate::efforts::Effort;
use crate::pins::{Pin, PinAt};
use crate::walk::Walk;
use crate::words::{has_entry, is_counting, is_shown};
use hcc_rule::layout::{KEY0, KEY1};
use hcc_rule::{Key, RuleSeat, RuleTable, SlotAt, Tag};
use hcc_word::hit;
use std::alloc::Allocator;

/// Finds a visible entry of the key, and acquires a reference on it under this name, which the
/// client doesn't hold; it has room for one more. With `marks` the entry's hit bit is set. Each
/// probe of the key in turn is looked at; the search ends where no trail goes on, or after all
/// probes.
///
/// Where it finds one, the client has one record more, behind its others: of an entry of this key,
/// with a value that fits it, which the client hadn't seen dead. Where it finds none, it holds what
/// it held, and has seen dead each entry of the key that it holds. In both the rest of what it has
/// stays, except the slot that it looked at last, entries that it saw dead, and keys that it met.
///
/// It allocates nothing. Each probe costs a load and one of the displacement word, and where the
/// slot is visible an add, a load of each half of the key that is compared, and a subtraction. A
/// hit at the first probe is one load, one add and two loads, and an or where marks are asked for
/// and the word lacks it. A reference that doesn't count costs one compare-exchange more.
///
/// It misses only what it didn't find: at least one slot is visited, and each slot that was passed
/// was found not visible, by its load or by the add, or with an entry of another key. It ends where
/// the displacement word of the last slot is 0, or after all slots. So an entry of the key that
/// stands visible in its slot through the whole call is found, whatever other clients do
/// (`law_lasting`).
#[inline(always)]
pub fn find<T: Tag, A: Allocator>(
    table: &RuleTable<T, A>,
    seat: &mut RuleSeat<T>,
    key: Key,
    name: u64,
    marks: bool,
    effort: &mut Effort,
) -> Option<PinAt>
    requires seat { IsSeatAt table.now seat.old }
    requires fresh { record_in name (view seat.old).records ≡ None }
    requires load { load_of (view seat.old).records + 1 ≤ REFERENCES_PER_CLIENT }
    ensures seat { IsSameSeat seat.old seat.new }
    ensures effort { Took 1 (slots_of table.now) (slots_of table.now) effort.old effort.new }
    ensures pin { IfSome (pin_of result) (λ pin. (pin.slot < slots_of table.now)
        × (pin.name ≡ name)) }
    ensures held { IfSome result (λ held. IsPinAt table.now held) }
    ensures found { IfSome (pin_of result) (λ pin. (r : Record)
        × IsFound T.fits (room_of table.now) pin.slot name key (view seat.old) (view seat.new) r
        × (r.counting ≡ pin.counting)) }
    ensures missed { IfNone result (IsMissed key (view seat.old) (view seat.new)) }
    ensures searches { Searches T.fits table.now key name marks (pin_of result) effort.old
        effort.new seat.old seat.new }
    ensures acquired { IfSome (pin_of result) (λ pin. (found : ℕ) × (is_visible found ≡ true)
        × (pin.counting ≡ is_counting found)
        × Among (atomic (address_of_meta table.now pin.slot) 1 0 found) seat.old seat.new) }
    ensures marked { marks ≡ true → IfSome (pin_of result) (λ pin.
        Marks (address_of_meta table.now pin.slot) seat.old seat.new) }
    ensures unmarked { marks ≡ false → AddsUnmarked seat.old seat.new }
    ensures steps { MakesFor 7 0 (slots_of table.now) effort.old effort.new seat.old seat.new }
{
    let slots = table.geometry().slots;
    let mut walk = Walk::begin(key, slots);
    // Most searches end at the first probe: before the loop it costs nothing of what others need.
    let home = walk.slot();
    let data = table.data_of(home);
    let at = SlotAt { slot: home, data };
    if let Some(found) = acquire_at(table, seat, at, key, name, effort) {
        mark_if(table, seat, home, name, marks, found);
        effort.probes(1);
        let pin = Pin {
            slot: home,
            name,
            counting: is_counting(found),
        };
        return Some(PinAt { pin, data });
    }
    if table.count_at(seat, at) == 0 {
        effort.probes(1);
        return None;
    }
    walk.probe = beyond(walk.probe, walk.stride);
    for probe in 1..slots {
        let slot = walk.slot();
        let data = table.data_of(slot);
        let at = SlotAt { slot, data };
        if let Some(found) = acquire_at(table, seat, at, key, name, effort) {
            mark_if(table, seat, slot, name, marks, found);
            effort.probes(probe as u64 + 1);
            let pin = Pin {
                slot,
                name,
                counting: is_counting(found),
            };
            return Some(PinAt { pin, data });
        }
        if table.count_at(seat, at) == 0 {
            effort.probes(probe as u64 + 1);
            return None;
        }
        walk = walk.next();
    }
    effort.probes(slots as u64);
    None
}

/// The second probe. It is cold, so that compilers keep what the loop behind it needs out of the
/// way of the first.
#[cold]
#[inline(never)]
fn beyond(probe: u64, stride: u64) -> u64
    ensures { result ≡ (probe + stride) % 2 ^ 64 }
{
    probe.wrapping_add(stride)
}

/// A reference on the slot's entry, where the slot shows one of this key: the word that was found.
#[inline(always)]
pub(crate) fn acquire_at<T: Tag, A: Allocator>(
    table: &RuleTable<T, A>,
    seat: &mut RuleSeat<T>,
    at: SlotAt,
    key: Key,
    name: u64,
    effort: &mut Effort,
) -> Option<u64>
    requires seat { IsSeatAt table.now seat.old }
    requires at { IsSlotAt table.now at }
    requires fresh { record_in name (view seat.old).records ≡ None }
    requires load { load_of (view seat.old).records + 1 ≤ REFERENCES_PER_CLIENT }
    ensures seat { IsSameSeat seat.old seat.new }
    ensures effort { Took 0 0 1 effort.old effort.new }
    ensures found { IfSome result (λ word. (r : Record)
        × IsFound T.fits (room_of table.now) at.slot name key (view seat.old) (view seat.new) r
        × (r.counting ≡ is_counting word)) }
    ensures missed { IfNone result (Sought (view seat.old) (view seat.new)
        × Buried key (λ s. s ≡ at.slot) (view seat.old) (view seat.new)) }
    ensures passes { IfNone result ((word : ℕ) × Passes T.fits table.now key name
        (Looks table.now at.slot) at.slot 1 word effort.old effort.new seat.old seat.new) }
    ensures catches { IfSome result (λ word. Catches T.fits table.now key name
        (Looks table.now at.slot) at.slot 1 word effort.old effort.new seat.old seat.new) }
    ensures acquired { IfSome result (λ word.
        Among (atomic (address_of_meta table.now at.slot) 1 0 word) seat.old seat.new) }
    ensures adds { AddsUnmarked seat.old seat.new }
    ensures steps { MakesAtMost 6 seat.old seat.new }
    ensures fewer { IfSome result (λ _. MakesAtMost 5 seat.old seat.new) }
{
    let seen = table.look_at(seat, at);
    if !is_shown(seen) {
        return None;
    }
    let found = reach(table, seat, at, 1, name, effort);
    if matches(table, seat, at, key, name, found) {
        return Some(found);
    }
    if !has_entry(found) {
        return None;
    }
    table.give_at(seat, at, 1, name);
    None
}

/// Whether the word that was found is that of a visible entry, and the record's entry has this key.
/// Where it isn't, nothing is read.
#[inline(always)]
pub(crate) fn matches<T: Tag, A: Allocator>(
    table: &RuleTable<T, A>,
    seat: &mut RuleSeat<T>,
    at: SlotAt,
    key: Key,
    name: u64,
    found: u64,
) -> bool
    requires seat { IsSeatAt table.now seat.old }
    requires at { IsSlotAt table.now at }
    requires holds { is_visible found ≡ true → HasOn at.slot name (view seat.old) }
    ensures seat { IsSameSeat seat.old seat.new }
    ensures unshown { is_visible found ≡ false → seat.new ≡ seat.old }
    ensures view { Sought (view seat.old) (view seat.new) }
    ensures shown { result ≡ true → is_visible found ≡ true }
    ensures equal { result ≡ true
        → IfSome (record_in name (view seat.old).records) (λ r. key_of r.entry ≡ key) }
    ensures other { result ≡ false → is_visible found ≡ true
        → IfSome (record_in name (view seat.old).records) (λ r. ¬ (key_of r.entry ≡ key)) }
    ensures met { result ≡ true → (view seat.new).met
        ≡ with_met (record_in name (view seat.old).records) (view seat.old).met }
    ensures loads { result ≡ true → LoadsKey table.now key at.slot seat.old seat.new }
    ensures differs { result ≡ false → is_visible found ≡ true
        → LoadsOther table.now key at.slot seat.old seat.new }
    ensures seeks { Seeks table.now seat.old seat.new }
    ensures adds { AddsUnmarked seat.old seat.new }
    ensures steps { MakesAtMost 2 seat.old seat.new }
{
    is_shown(found) && has_key(table, seat, at, key, name)
}

/// Whether the entry that the record of this name is on has this key. Where the first halves differ
/// the second isn't read.
#[inline(always)]
fn has_key<T: Tag, A: Allocator>(
    table: &RuleTable<T, A>,
    seat: &mut RuleSeat<T>,
    at: SlotAt,
    key: Key,
    name: u64,
) -> bool
    requires seat { IsSeatAt table.now seat.old }
    requires at { IsSlotAt table.now at }
    requires holds { HasOn at.slot name (view seat.old) }
    ensures seat { IsSameSeat seat.old seat.new }
    ensures view { Sought (view seat.old) (view seat.new) }
    ensures equal { result ≡ true
        → IfSome (record_in name (view seat.old).records) (λ r. key_of r.entry ≡ key) }
    ensures other { result ≡ false
        → IfSome (record_in name (view seat.old).records) (λ r. ¬ (key_of r.entry ≡ key)) }
    ensures met { result ≡ true → (view seat.new).met
        ≡ with_met (record_in name (view seat.old).records) (view seat.old).met }
    ensures loads { result ≡ true → LoadsKey table.now key at.slot seat.old seat.new }
    ensures differs { result ≡ false → LoadsOther table.now key at.slot seat.old seat.new }
    ensures seeks { Seeks table.now seat.old seat.new }
    ensures adds { AddsUnmarked seat.old seat.new }
    ensures steps { MakesAtMost 2 seat.old seat.new }
{
    table.read_at(seat, at, KEY0, name) == key.w0 && table.read_at(seat, at, KEY1, name) == key.w1
}

/// Marks the entry that the record of this name is on, where that is asked for and the word that
/// was found lacks the mark.
fn mark_if<T: Tag, A: Allocator>(
    table: &RuleTable<T, A>,
    seat: &mut RuleSeat<T>,
    slot: u32,
    name: u64,
    marks: bool,
    found: u64,
)
    requires seat { IsSeatAt table.now seat.old }
    requires slot { IsSlotOf table.now slot }
    requires holds { HasOn slot name (view seat.old) }
    ensures seat { IsSameSeat seat.old seat.new }
    ensures view { Sought (view seat.old) (view seat.new) }
    ensures marked { marks ≡ true → hit_of found ≡ false → (other : ℕ)
        × Makes (address_of_meta table.now slot) HIT_BIT 0 other seat.old seat.new }
    ensures unmarked { hit_of found ≡ true → MakesNone seat.old seat.new }
    ensures unasked { marks ≡ false → MakesNone seat.old seat.new }
    ensures by { (seat.new ≡ seat.old)
        ⊎ IsEvent table.now (mark_done name (view seat.old)) seat.old seat.new }
    ensures steps { MakesAtMost 1 seat.old seat.new }
{
    if marks && !hit(found) {
        table.mark(seat, slot, name);
    }
}
