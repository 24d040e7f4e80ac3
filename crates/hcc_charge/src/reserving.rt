//! Reserving a place and a charge for an entry.
ghost use Rattle.std.specs.Prelude.{◌≡◌, ◌≢◌, ℕ, ◌+◌, ◌*◌, ◌^◌, ◌<◌, ◌≤◌, false, true, length, Ok, Err};
ghost use Rattle.hcc_core.specs.declared.client.Place.TheVariants.{Absent};
ghost use Rattle.hcc_core.specs.World.{is_placed, occupied_by};
ghost use Rattle.hcc_rule.specs.Callers.{capacity_of, clients_of, is_strict, plan_of, slots_of, IsEvent, IsSeatAt};
ghost use Rattle.hcc_rule.specs.Between.{IsBetweenCalls};
ghost use Rattle.hcc_rule.specs.Events.{enter_done};
ghost use Rattle.hcc_rule.specs.Rule.{setup_of};
ghost use Rattle.hcc_rule.specs.Seats.{IsSameSeat, view};
ghost use Rattle.hcc_rule.specs.ToldLedgers.{waived};
ghost use Rattle.hcc_table.specs.Efforts.{Lost};
ghost use Rattle.hcc_table.specs.Erased.{IsAtRest};
ghost use Rattle.hcc_charge.specs.declared.reserving.Refused.TheVariants.{TooLarge};
ghost use Rattle.hcc_charge.specs.Asked.{is_full, Enters, EvictsBy, GivesAllBack};
ghost use Rattle.hcc_charge.specs.Evicted.{asking, most_turns, sweeping, turn_room, EvictsFor, IsSweptFor, Sweeps};
ghost use Rattle.hcc_charge.specs.Reserved.{entered, settled_as, sweeping_between, ReservedBy};
ghost use Rattle.hcc_charge.specs.Swept.{Tallied};
ghost use Rattle.hcc_table.specs.Lists.{Hands};
ghost use Rattle.hcc_table.specs.Seeking.{is_booking, GoesOnBy};
ghost use Rattle.hcc_table.specs.Steps.{MakesAtMost};
ghost use Rattle.hcc_table.specs.Still.{GoesOnStill};

use crate::asking::{ask, at_least_one, needed};
use crate::evicting::evict;
use crate::settling::{give_charge, give_slots, settle};
use crate::swept::Swept;
use crate::tally::Tally;
use hcc_core::limits::OCCUPANCY_PERCENT;
use hcc_rule::{RuleSeat, RuleTable, Tag};
use hcc_table::{Effort, FreedList};
use std::alloc::Allocator;

/// What came of a reservation.
#[derive(Clone, Copy, Debug, PartialEq, Eq)]
pub enum Reservation {
    /// A place and the charge are granted.
    Reserved,
    /// There was no place left, and an eviction freed no slot. Nothing is granted.
    NoPlace,
}

/// Why nothing was reserved, under strict capacity.
#[derive(Clone, Copy, Debug, PartialEq, Eq)]
pub enum Refused {
    /// The charge is above the capacity. No step was made.
    TooLarge,
    /// An eviction freed less charge than was needed.
    CapacityFull,
    /// There was no place left, and an eviction freed no slot.
    OccupancyFull,
}

/// Reserves a place and a charge for an entry, and evicts others where there is not enough left.
///
/// A charge above a strict capacity is TooLarge at once, and no step is made. Else one is added to
/// the occupancy: a place has to be freed where 84 of a hundred slots, rounded down, were taken
/// already. Under strict capacity the charge is added to the usage; as much as the usage before
/// left of the capacity is granted, and the rest has to be freed. Without it the usage is loaded.
/// Nothing is asked for where the charge fits, or where it is more than all that is used; else the
/// charge is, with the least of itself and a 1024th of the capacity, and one more, where the usage
/// is above the capacity already. At least 1 is asked for where a place has to be freed. An
/// eviction follows where something is asked for.
///
/// Reserved: the client has a granted place and the charge granted, and what it freed is settled.
/// Not strict, and no place found: nothing is granted or charged. Under strict capacity, where less
/// charge was freed than needed, or no place was found: the place, the charge and what was freed
/// are given back. It evicts exactly where the shard was full, where the charge didn't fit, or
/// where under strict capacity not all of it was granted at once; but no turn is made where the
/// list has room for fewer than four entries. So CapacityFull, OccupancyFull and NoPlace come after
/// an eviction that has ended, or that had no more room, and the last two only where it freed
/// nothing.
///
/// The eviction is for exactly what is asked for, by the words that the first two steps found:
/// before its last turn less than that was freed, and the last turn frees at most four entries
/// more. The steps behind it settle or give back exactly what it freed. In a shard of one client
/// only the eviction changes what is shown. There the places found taken are as many as the entries
/// that the client made and didn't take, and the usage found is at most the charges of all that it
/// made, with what stands for it.
///
/// The client has nothing in hand but its references and standalone entries, and the charge isn't
/// 0. What the eviction did is added to the tally, and compare-exchanges that lost to the effort.
/// It allocates nothing. It costs at most five steps beside those of its eviction. Where nothing is
/// evicted it costs an atomic add, and a load with an atomic add, or under strict capacity one more
/// atomic add.
pub fn reserve<T: Tag, A: Allocator, L: FreedList<T>>(
    table: &RuleTable<T, A>,
    seat: &mut RuleSeat<T>,
    charge: u32,
    list: &mut L,
    tally: &mut Tally,
    effort: &mut Effort,
) -> Result<Reservation, Refused>
    requires seat { IsSeatAt table.now seat.old }
    requires idle { IsBetweenCalls (view seat.old).work }
    requires some { 0 < charge }
    ensures seat { IsSameSeat seat.old seat.new }
    ensures list { Hands (L.shelf list.old) (L.shelf list.new) (view seat.old) (view seat.new) }
    ensures view { ReservedBy (turn_room (L.shelf list.old)) (turn_room (L.shelf list.new))
        (slots_of table.now) (capacity_of table.now) (is_strict table.now)
        charge result (view seat.old) (view seat.new) }
    ensures large { is_strict table.now ≡ true → capacity_of table.now < charge
        → result ≡ Err TooLarge }
    ensures evicts { EvictsBy T.fits table.now charge
        (turn_room (L.shelf list.old)) (turn_room (L.shelf list.new))
        result tally.old tally.new effort.old effort.new seat.old seat.new }
    ensures still { (view seat.new).turns ≡ (view seat.old).turns
        → GoesOnStill table.now seat.old seat.new }
    ensures effort { Lost 0 (4 * most_turns (slots_of table.now)) effort.old effort.new }
    ensures steps { MakesAtMost (asking
        + sweeping_between (slots_of table.now + L.loads) (view seat.old) (view seat.new))
        seat.old seat.new }
{
    if !table.strict() {
        return Ok(reserve_lax(table, seat, charge, list, tally, effort));
    }
    if charge as u64 > table.capacity() {
        return Err(Refused::TooLarge);
    }
    reserve_strict(table, seat, charge, list, tally, effort)
}

/// Reserves where the capacity may be passed.
fn reserve_lax<T: Tag, A: Allocator, L: FreedList<T>>(
    table: &RuleTable<T, A>,
    seat: &mut RuleSeat<T>,
    charge: u32,
    list: &mut L,
    tally: &mut Tally,
    effort: &mut Effort,
) -> Reservation
    requires seat { IsSeatAt table.now seat.old }
    requires idle { IsBetweenCalls (view seat.old).work }
    requires lax { is_strict table.now ≡ false }
    requires some { 0 < charge }
    ensures seat { IsSameSeat seat.old seat.new }
    ensures list { Hands (L.shelf list.old) (L.shelf list.new) (view seat.old) (view seat.new) }
    ensures view { ReservedBy (turn_room (L.shelf list.old)) (turn_room (L.shelf list.new))
        (slots_of table.now) (capacity_of table.now) false
        charge (Ok result) (view seat.old) (view seat.new) }
    ensures evicts { EvictsBy T.fits table.now charge
        (turn_room (L.shelf list.old)) (turn_room (L.shelf list.new))
        (Ok result) tally.old tally.new effort.old effort.new seat.old seat.new }
    ensures effort { Lost 0 (4 * most_turns (slots_of table.now)) effort.old effort.new }
    ensures steps { MakesAtMost (asking
        + sweeping_between (slots_of table.now + L.loads) (view seat.old) (view seat.new))
        seat.old seat.new }
{
    let full = enter(table, seat);
    let used = table.usage(seat);
    let least = at_least_one(ask(table.capacity(), used, charge), full);
    let swept = evict_for(table, seat, least, list, tally, effort);
    if full && swept.slots == 0 {
        table.quit(seat, 1);
        return Reservation::NoPlace;
    }
    give_slots(table, seat, swept.slots);
    table.charge(seat, charge);
    give_charge(table, seat, swept.charge);
    Reservation::Reserved
}

/// Reserves where the capacity must be kept, a charge that is within it.
fn reserve_strict<T: Tag, A: Allocator, L: FreedList<T>>(
    table: &RuleTable<T, A>,
    seat: &mut RuleSeat<T>,
    charge: u32,
    list: &mut L,
    tally: &mut Tally,
    effort: &mut Effort,
) -> Result<Reservation, Refused>
    requires seat { IsSeatAt table.now seat.old }
    requires idle { IsBetweenCalls (view seat.old).work }
    requires strict { is_strict table.now ≡ true }
    requires some { 0 < charge }
    ensures seat { IsSameSeat seat.old seat.new }
    ensures list { Hands (L.shelf list.old) (L.shelf list.new) (view seat.old) (view seat.new) }
    ensures view { ReservedBy (turn_room (L.shelf list.old)) (turn_room (L.shelf list.new))
        (slots_of table.now) (capacity_of table.now) true
        charge result (view seat.old) (view seat.new) }
    ensures not_large { result ≢ Err TooLarge }
    ensures evicts { EvictsBy T.fits table.now charge
        (turn_room (L.shelf list.old)) (turn_room (L.shelf list.new))
        result tally.old tally.new effort.old effort.new seat.old seat.new }
    ensures effort { Lost 0 (4 * most_turns (slots_of table.now)) effort.old effort.new }
    ensures steps { MakesAtMost (asking
        + sweeping_between (slots_of table.now + L.loads) (view seat.old) (view seat.new))
        seat.old seat.new }
{
    let full = enter(table, seat);
    let used = table.charge(seat, charge);
    let needed = needed(table.capacity(), used, charge);
    let swept = evict_for(table, seat, at_least_one(needed, full), list, tally, effort);
    if swept.charge < needed {
        refuse(table, seat, charge, swept);
        return Err(Refused::CapacityFull);
    }
    if full && swept.slots == 0 {
        refuse(table, seat, charge, swept);
        return Err(Refused::OccupancyFull);
    }
    settle(table, seat, swept.slots, swept.charge);
    Ok(Reservation::Reserved)
}

/// Asks for a place. It returns whether one has to be freed first.
fn enter<T: Tag, A: Allocator>(table: &RuleTable<T, A>, seat: &mut RuleSeat<T>) -> bool
    requires seat { IsSeatAt table.now seat.old }
    requires absent { (view seat.old).work.place ≡ Absent }
    ensures seat { IsSameSeat seat.old seat.new }
    ensures view { view seat.new ≡ entered result (view seat.old) }
    ensures enters { (taken : ℕ) × (result ≡ is_full table.now taken)
        × Enters table.now taken seat.old seat.new
        × IsEvent table.now (enter_done (setup_of (plan_of table.now)) taken (view seat.old))
        seat.old seat.new
        × (clients_of table.now ≡ 1
        → taken + (view seat.old).takings
        ≡ length (view seat.old).made + occupied_by (view seat.old).work) }
{
    let limit = table.geometry().slots as u64 * OCCUPANCY_PERCENT / 100;
    table.enter(seat) >= limit
}

/// Evicts where something is asked for.
#[inline(always)]
fn evict_for<T: Tag, A: Allocator, L: FreedList<T>>(
    table: &RuleTable<T, A>,
    seat: &mut RuleSeat<T>,
    ask: u64,
    list: &mut L,
    tally: &mut Tally,
    effort: &mut Effort,
) -> Swept
    requires seat { IsSeatAt table.now seat.old }
    requires rest { IsAtRest (view seat.old) }
    requires settled { (view seat.old).work.freed ≡ 0 }
    requires ask { ask < 2 ^ 34 }
    ensures seat { IsSameSeat seat.old seat.new }
    ensures view { Sweeps result.turns result.slots result.charge (view seat.old) (view seat.new) }
    ensures list { Hands (L.shelf list.old) (L.shelf list.new) (view seat.old) (view seat.new) }
    ensures swept { IsSweptFor (turn_room (L.shelf list.old)) (turn_room (L.shelf list.new))
        (slots_of table.now) ask result }
    ensures evicts { EvictsFor T.fits table.now
        (turn_room (L.shelf list.old)) (turn_room (L.shelf list.new))
        ask result seat.old seat.new }
    ensures tally { Tallied result tally.old tally.new }
    ensures effort { Lost result.lost result.lost effort.old effort.new }
    ensures steps { MakesAtMost (sweeping (slots_of table.now + L.loads) result.turns result.slots)
        seat.old seat.new }
{
    if ask == 0 {
        return Swept::NOTHING;
    }
    evict(table, seat, ask, list, tally, effort)
}

/// Gives back the place and the charge that were asked for, with what was freed.
fn refuse<T: Tag, A: Allocator>(
    table: &RuleTable<T, A>,
    seat: &mut RuleSeat<T>,
    charge: u32,
    swept: Swept,
)
    requires seat { IsSeatAt table.now seat.old }
    requires placed { is_placed (view seat.old).work.place ≡ true }
    requires slots { ((view seat.old).work.freed_slots ≡ swept.slots) × (swept.slots < 2 ^ 32) }
    requires charge { (waived (view seat.old).work ≡ charge + swept.charge)
        × (swept.charge < 2 ^ 63) }
    requires some { 0 < charge }
    ensures seat { IsSameSeat seat.old seat.new }
    ensures view { view seat.new ≡ settled_as Absent 0 (view seat.old) }
    ensures gives { GivesAllBack table.now charge swept seat.old seat.new }
    ensures by { GoesOnBy table.now is_booking seat.old seat.new }
    ensures steps { MakesAtMost 2 seat.old seat.new }
{
    table.quit(seat, 1 + swept.slots);
    table.waive(seat, charge as u64 + swept.charge);
}
