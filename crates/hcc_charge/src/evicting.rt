//! Eviction: the shard's hand goes round, and entries that nobody holds and that have no uses left
//! go.
ghost use Rattle.std.specs.Prelude.{◌≡◌, ◌+◌, ◌*◌, ◌%◌, ◌^◌, ◌<◌, ◌≤◌, true, false};
ghost use Rattle.hcc_core.specs.declared.limits.TheConstants.{MOST_SLOTS};
ghost use Rattle.hcc_rule.specs.Callers.{slots_of, IsSeatAt, IsSlotOf};
ghost use Rattle.hcc_rule.specs.Seats.{IsSameSeat, view};
ghost use Rattle.hcc_table.specs.Efforts.{Lost};
ghost use Rattle.hcc_table.specs.Erased.{IsAtRest};
ghost use Rattle.hcc_table.specs.Lists.{has_room, Hands};
ghost use Rattle.hcc_table.specs.Steps.{MakesAtMost};
ghost use Rattle.hcc_charge.specs.Evicted.{has_ended, is_enough, most_turns, sweeping, turn_room, Evicts, Sweeps, Turned, VisitedBy};
ghost use Rattle.hcc_charge.specs.Swept.{nothing_swept, IsModest, Tallied};

use crate::swept::Swept;
use crate::tally::Tally;
use hcc_core::limits::SLOTS_PER_TURN;
use hcc_rule::{RuleSeat, RuleTable, Tag};
use hcc_table::{Effort, FreedList, visit};
use std::alloc::Allocator;

/// How many visits of entries that are held it takes, for each slot that was freed and one more, to
/// end an eviction.
pub const PINNED_PER_SLOT: u64 = 30;

/// Frees entries, until as much charge is freed as is asked for. Each turn moves the hand of the
/// shard on by four slots and visits these four, as the clock does: an entry that nobody holds is
/// counted down, and once its countdown is 0 freed and put on the list. After each turn the
/// eviction ends where the freed charge is at least `ask`, where the visits that found an entry
/// with references are at least 30 for each slot that was freed and one more, or where `3·L/4 + 1`
/// turns were made in a table of L slots. It counts only its own turns and visits. No turn is made,
/// the first neither, where the list has room for fewer than four entries.
///
/// The client owns no slot, has an empty trail and no freed charge to settle; it asks for less than
/// `2^34`. The places and the charges of what it freed are its to settle. None of the entries had
/// uses left. It may have looked at slots and seen entries dead; the rest of what it has stays.
/// What it did is added to the tally, and compare-exchanges that lost to the effort.
///
/// It allocates nothing. Each turn costs at most nine steps, an atomic add and a load with a
/// compare-exchange for each of four slots; and each slot that is freed L + 4 more.
pub fn evict<T: Tag, A: Allocator, L: FreedList<T>>(
    table: &RuleTable<T, A>,
    seat: &mut RuleSeat<T>,
    ask: u64,
    list: &mut L,
    tally: &mut Tally,
    effort: &mut Effort,
) -> Swept
    requires seat { IsSeatAt table.now seat.old }
    requires rest { IsAtRest (view seat.old) }
    requires settled { (view seat.old).work.freed ≡ 0 }
    requires ask { ask < 2 ^ 34 }
    ensures seat { IsSameSeat seat.old seat.new }
    ensures view { Sweeps result.turns result.slots result.charge (view seat.old) (view seat.new) }
    ensures list { Hands (L.shelf list.old) (L.shelf list.new) (view seat.old) (view seat.new) }
    ensures evicts { turn_room (L.shelf list.old) ≡ true
        → Evicts T.fits table.now (turn_room (L.shelf list.new)) ask result seat.old seat.new }
    ensures full { turn_room (L.shelf list.old) ≡ false
        → (result ≡ nothing_swept) × (seat.new ≡ seat.old) }
    ensures turns { (turn_room (L.shelf list.old) ≡ true → 1 ≤ result.turns)
        × (result.turns ≤ most_turns (slots_of table.now)) }
    ensures charge { result.charge ≤ ask + 4 * 2 ^ 32 }
    ensures modest { IsModest (4 * result.turns) result }
    ensures tally { Tallied result tally.old tally.new }
    ensures effort { Lost result.lost result.lost effort.old effort.new }
    ensures steps { MakesAtMost (sweeping (slots_of table.now + L.loads) result.turns result.slots)
        seat.old seat.new }
{
    let slots = table.geometry().slots;
    let mut all = Swept::NOTHING;
    while list.has_room(SLOTS_PER_TURN as u32) {
        let here = turn(table, seat, list, effort);
        all = all.with(here);
        if has_ended(slots, ask, all) {
            tally.add(all);
            return all;
        }
    }
    tally.add(all);
    all
}

/// Moves the hand on by one turn, and visits the four slots from where it was.
fn turn<T: Tag, A: Allocator, L: FreedList<T>>(
    table: &RuleTable<T, A>,
    seat: &mut RuleSeat<T>,
    list: &mut L,
    effort: &mut Effort,
) -> Swept
    requires seat { IsSeatAt table.now seat.old }
    requires rest { IsAtRest (view seat.old) }
    requires space { (view seat.old).work.freed + 4 * 2 ^ 32 ≤ 2 ^ 49 }
    requires room { turn_room (L.shelf list.old) ≡ true }
    ensures seat { IsSameSeat seat.old seat.new }
    ensures list { Hands (L.shelf list.old) (L.shelf list.new) (view seat.old) (view seat.new) }
    ensures view { Sweeps 1 result.slots result.charge (view seat.old) (view seat.new) }
    ensures turned { Turned T.fits table.now result seat.old seat.new }
    ensures turns { result.turns ≡ 1 }
    ensures modest { IsModest 4 result }
    ensures effort { Lost result.lost result.lost effort.old effort.new }
    ensures steps { MakesAtMost (sweeping (slots_of table.now + L.loads) 1 result.slots)
        seat.old seat.new }
{
    let slots = table.geometry().slots;
    let hand = table.turn(seat);
    let from = slot_of(slots, hand) as u64;
    let mut all = Swept::TURN;
    for k in 0..SLOTS_PER_TURN {
        let slot = slot_of(slots, from + k);
        let here = visit_slot(table, seat, slot, list, effort);
        all = all.with(here);
    }
    all
}

/// The slot of a number in the hand's order. The slots are a power of two, so it costs a mask.
#[inline(always)]
fn slot_of(slots: u32, number: u64) -> u32
    requires some { 0 < slots }
    requires power { MOST_SLOTS % slots ≡ 0 }
    ensures { result ≡ number % slots }
{
    (number & (slots as u64 - 1)) as u32
}

/// Visits one slot.
fn visit_slot<T: Tag, A: Allocator, L: FreedList<T>>(
    table: &RuleTable<T, A>,
    seat: &mut RuleSeat<T>,
    slot: u32,
    list: &mut L,
    effort: &mut Effort,
) -> Swept
    requires seat { IsSeatAt table.now seat.old }
    requires slot { IsSlotOf table.now slot }
    requires rest { IsAtRest (view seat.old) }
    requires space { (view seat.old).work.freed + 2 ^ 32 ≤ 2 ^ 49 }
    requires room { has_room 1 (L.shelf list.old) ≡ true }
    ensures seat { IsSameSeat seat.old seat.new }
    ensures list { Hands (L.shelf list.old) (L.shelf list.new) (view seat.old) (view seat.new) }
    ensures view { Sweeps 0 result.slots result.charge (view seat.old) (view seat.new) }
    ensures visited { VisitedBy T.fits table.now slot result seat.old seat.new }
    ensures turns { result.turns ≡ 0 }
    ensures modest { IsModest 1 result }
    ensures effort { Lost result.lost result.lost effort.old effort.new }
    ensures steps { MakesAtMost (2 + (slots_of table.now + L.loads + 4) * result.slots)
        seat.old seat.new }
{
    Swept::of(visit(table, seat, slot, list, effort))
}

/// Whether an eviction that asked for this much charge ends, in a table of so many slots.
fn has_ended(slots: u32, ask: u64, all: Swept) -> bool
    requires slots { slots ≤ MOST_SLOTS }
    requires low { all.slots < 2 ^ 32 }
    ensures { result ≡ has_ended slots ask all }
{
    is_enough(ask, all) || all.turns == most_turns(slots)
}

/// Whether as much charge was freed as was asked for, or too many of the visits found an entry that
/// is held.
fn is_enough(ask: u64, all: Swept) -> bool
    requires { all.slots < 2 ^ 32 }
    ensures { result ≡ is_enough ask all }
{
    all.charge >= ask || (all.slots + 1) * PINNED_PER_SLOT <= all.pinned
}

/// How many turns an eviction makes at most, in a table of so many slots.
fn most_turns(slots: u32) -> u64
    requires { slots ≤ MOST_SLOTS }
    ensures { result ≡ most_turns slots }
{
    3 * slots as u64 / 4 + 1
}
