//! One more reference on an entry, and the one try to take its counters back.
ghost use Rattle.std.specs.Prelude.{◌≡◌, ◌⊎◌, ◌+◌, ◌++◌, ◌∷◌, ◌<◌, ◌≤◌, [], false, true, None, IfSome, IsSomeAnd, ℕ};
ghost use Rattle.hcc_word.specs.Changes.{IsCorrectable, corrected_word};
ghost use Rattle.hcc_word.specs.Word.{is_counting};
ghost use Rattle.hcc_core.specs.declared.limits.TheConstants.{MOST_WEIGHT, REFERENCES_PER_CLIENT};
ghost use Rattle.hcc_rule.specs.declared.view.Record.{Record};
ghost use Rattle.hcc_rule.specs.Callers.{room_of, IsEvent, IsSeatAt, IsSlotOf, IsSlotAt};
ghost use Rattle.hcc_rule.specs.Addresses.{address_of_meta};
ghost use Rattle.hcc_rule.specs.Events.{correct_done};
ghost use Rattle.hcc_rule.specs.Seats.{IsSameSeat, view, Makes};
ghost use Rattle.hcc_rule.specs.ToldReferences.{may_reach};
ghost use Rattle.hcc_rule.specs.Views.{load_of};
ghost use Rattle.hcc_rule.specs.Records.{record_in};
ghost use Rattle.hcc_table.specs.Efforts.{Corrected, Lost, Took};
ghost use Rattle.hcc_table.specs.Pins.{IsOf, IsPinned};
ghost use Rattle.hcc_table.specs.Searched.{Searched, Sought, Reached};
ghost use Rattle.hcc_table.specs.Seeking.{ReachesBy};
ghost use Rattle.hcc_table.specs.Steps.{Acquires, AddsUnmarked, Corrects, MakesAtMost, MakesNone};

use crate::efforts::Effort;
use crate::pins::Pin;
use crate::words::{has_entry, is_counting};
use hcc_rule::{RuleSeat, RuleTable, SlotAt, Tag};
use hcc_word::corrected;
use std::alloc::Allocator;

/// Acquires one more reference on the entry of a pin that the client holds, under this name, which
/// it doesn't hold; it has room for one more. It returns the pin of it.
///
/// The record of it is behind the client's others, on the very same entry. It allocates nothing. It
/// costs one atomic add, and a compare-exchange where the reference doesn't count.
pub fn again<T: Tag, A: Allocator>(
    table: &RuleTable<T, A>,
    seat: &mut RuleSeat<T>,
    pin: Pin,
    name: u64,
    effort: &mut Effort,
) -> Pin
    requires seat { IsSeatAt table.now seat.old }
    requires slot { IsSlotOf table.now pin.slot }
    requires holds { IsPinned pin (view seat.old) }
    requires fresh { record_in name (view seat.old).records ≡ None }
    requires load { load_of (view seat.old).records + 1 ≤ REFERENCES_PER_CLIENT }
    ensures seat { IsSameSeat seat.old seat.new }
    ensures effort { Took 0 0 1 effort.old effort.new }
    ensures view { Searched (view seat.old) (view seat.new) }
    ensures pin { (result.slot ≡ pin.slot) × (result.name ≡ name) }
    ensures record { (r : Record) × ((view seat.new).records ≡ (view seat.old).records ++ r ∷ [])
        × IsOf result r × (r.name ≡ name)
        × IfSome (record_in pin.name (view seat.old).records) (λ q. r.entry ≡ q.entry) }
    ensures acquires { (found : ℕ) × (result.counting ≡ is_counting found)
        × Acquires (address_of_meta table.now pin.slot) 1 found seat.old seat.new
        × Corrects (address_of_meta table.now pin.slot) 1 found effort.old effort.new
        seat.old seat.new }
    ensures by { (found : ℕ) × (result.counting ≡ is_counting found)
        × ReachesBy table.now pin.slot 1 name found seat.old seat.new }
    ensures steps { MakesAtMost 2 seat.old seat.new }
{
    let (slot, data) = (pin.slot, table.data_of(pin.slot));
    let at = SlotAt { slot, data };
    let found = reach(table, seat, at, 1, name, effort);
    Pin {
        slot: pin.slot,
        name,
        counting: is_counting(found),
    }
}

/// Acquires references of this weight on a slot, and where they don't count, tries once to take
/// both counters of the slot back.
#[inline(always)]
pub(crate) fn reach<T: Tag, A: Allocator>(
    table: &RuleTable<T, A>,
    seat: &mut RuleSeat<T>,
    at: SlotAt,
    weight: u32,
    name: u64,
    effort: &mut Effort,
) -> u64
    requires seat { IsSeatAt table.now seat.old }
    requires at { IsSlotAt table.now at }
    requires weight { (0 < weight) × (weight ≤ MOST_WEIGHT) }
    requires fresh { record_in name (view seat.old).records ≡ None }
    requires reach { may_reach at.slot (view seat.old) ≡ true }
    requires load { load_of (view seat.old).records + weight ≤ REFERENCES_PER_CLIENT }
    ensures seat { IsSameSeat seat.old seat.new }
    ensures effort { Took 0 0 1 effort.old effort.new }
    ensures view { Reached T.fits (room_of table.now) at.slot weight name result
        (view seat.old) (view seat.new) }
    ensures acquires { Acquires (address_of_meta table.now at.slot) weight result
        seat.old seat.new }
    ensures corrects { Corrects (address_of_meta table.now at.slot) weight result
        effort.old effort.new seat.old seat.new }
    ensures by { ReachesBy table.now at.slot weight name result seat.old seat.new }
    ensures adds { AddsUnmarked seat.old seat.new }
    ensures steps { MakesAtMost 2 seat.old seat.new }
{
    let found = table.acquire_at(seat, at, weight, name);
    if !is_counting(found) && has_entry(found) {
        relieve(
            table,
            seat,
            at.slot,
            name,
            found.wrapping_add(weight as u64),
            effort,
        );
    }
    found
}

/// Tries to take both counters of a slot near its end back, if `word` still stands there. It comes
/// once in 2^29 uses of a slot, so it stays out of the way of hits.
#[cold]
fn relieve<T: Tag, A: Allocator>(
    table: &RuleTable<T, A>,
    seat: &mut RuleSeat<T>,
    slot: u32,
    name: u64,
    word: u64,
    effort: &mut Effort,
)
    requires seat { IsSeatAt table.now seat.old }
    requires slot { IsSlotOf table.now slot }
    requires holds { IsSomeAnd (record_in name (view seat.old).records)
        (λ r. (r.slot ≡ slot) × (r.counting ≡ false)) }
    ensures seat { IsSameSeat seat.old seat.new }
    ensures effort { Took 0 0 1 effort.old effort.new }
    ensures view { Sought (view seat.old) (view seat.new) }
    ensures corrects { IsCorrectable word → (other : ℕ)
        × Makes (address_of_meta table.now slot) word (corrected_word word) other
        seat.old seat.new × (other ≡ word → Corrected effort.old effort.new)
        × (¬ (other ≡ word) → Lost 1 1 effort.old effort.new) }
    ensures passes { ¬ (IsCorrectable word)
        → MakesNone seat.old seat.new × (effort.new ≡ effort.old) }
    ensures tries { (seat.new ≡ seat.old) ⊎ ((other : ℕ)
        × IsEvent table.now (correct_done slot name word other (view seat.old))
        seat.old seat.new) }
    ensures adds { AddsUnmarked seat.old seat.new }
    ensures steps { MakesAtMost 1 seat.old seat.new }
{
    let Some(next) = corrected(word) else {
        return;
    };
    if table.correct(seat, slot, name, word, next) == word {
        effort.correct();
    } else {
        effort.lose();
    }
}
