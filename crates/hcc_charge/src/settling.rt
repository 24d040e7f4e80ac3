//! What a client freed, or reserved and doesn't use, is given back.
ghost use Rattle.std.specs.Prelude.{◌≡◌, ◌<◌, ◌≤◌, true};
ghost use Rattle.hcc_core.specs.World.{is_placed};
ghost use Rattle.hcc_rule.specs.Callers.{IsEvent, IsSeatAt};
ghost use Rattle.hcc_rule.specs.Events.{quit_done};
ghost use Rattle.hcc_rule.specs.Seats.{IsSameSeat, view};
ghost use Rattle.hcc_rule.specs.declared.layout.TheConstants.{OCCUPANCY, USAGE};
ghost use Rattle.hcc_charge.specs.Settled.{paid, placed_anew, settled, without_place, GivesUp, HasFreedNothing, Settles, TakesOff};
ghost use Rattle.hcc_table.specs.Seeking.{is_settling, GoesOnBy};
ghost use Rattle.hcc_table.specs.Steps.{Adds, MakesAtMost};

use hcc_rule::{RuleSeat, RuleTable, Tag};
use std::alloc::Allocator;

/// Settles what the client freed: so many slots, and this charge, which is at least what it still
/// needed. Nothing of either is left, what was needed is granted, and an open place is granted
/// where a slot was freed. A word is not touched where nothing is to be taken from it.
///
/// It allocates nothing. It costs at most two atomic subtractions.
pub fn settle<T: Tag, A: Allocator>(
    table: &RuleTable<T, A>,
    seat: &mut RuleSeat<T>,
    slots: u64,
    charge: u64,
)
    requires seat { IsSeatAt table.now seat.old }
    requires slots { (view seat.old).work.freed_slots ≡ slots }
    requires charge { (view seat.old).work.freed ≡ charge }
    requires covered { (view seat.old).work.needed ≤ charge }
    ensures seat { IsSameSeat seat.old seat.new }
    ensures view { view seat.new ≡ settled (view seat.old) }
    ensures settles { Settles table.now slots charge seat.old seat.new }
    ensures by { GoesOnBy table.now is_settling seat.old seat.new }
    ensures adds { Adds seat.old seat.new }
    ensures steps { MakesAtMost 2 seat.old seat.new }
{
    give_slots(table, seat, slots);
    give_charge(table, seat, charge);
}

/// Gives up what was reserved, the place and the charge, which isn't 0.
///
/// It allocates nothing. It costs two atomic subtractions.
pub fn give_up<T: Tag, A: Allocator>(table: &RuleTable<T, A>, seat: &mut RuleSeat<T>, charge: u32)
    requires seat { IsSeatAt table.now seat.old }
    requires placed { is_placed (view seat.old).work.place ≡ true }
    requires granted { (view seat.old).work.granted ≡ charge }
    requires none { HasFreedNothing (view seat.old) }
    requires some { 0 < charge }
    ensures seat { IsSameSeat seat.old seat.new }
    ensures view { view seat.new ≡ without_place 0 (view seat.old) }
    ensures by { GivesUp table.now seat.old seat.new }
    ensures adds { Adds seat.old seat.new }
    ensures steps { MakesAtMost 2 seat.old seat.new }
{
    keep_charge(table, seat);
    table.waive(seat, charge as u64);
}

/// Gives up the place that was reserved, and keeps the charge.
///
/// It allocates nothing. It costs one atomic subtraction.
pub fn keep_charge<T: Tag, A: Allocator>(table: &RuleTable<T, A>, seat: &mut RuleSeat<T>)
    requires seat { IsSeatAt table.now seat.old }
    requires placed { is_placed (view seat.old).work.place ≡ true }
    requires none { (view seat.old).work.freed_slots ≡ 0 }
    ensures seat { IsSameSeat seat.old seat.new }
    ensures view { view seat.new ≡ without_place (view seat.old).work.granted (view seat.old) }
    ensures by { IsEvent table.now (quit_done (view seat.old)) seat.old seat.new }
    ensures adds { Adds seat.old seat.new }
    ensures steps { MakesAtMost 1 seat.old seat.new }
{
    table.quit(seat, 1);
}

/// Takes the slots that the client freed from the occupancy, if there are any: they make an open
/// place a granted one.
pub(crate) fn give_slots<T: Tag, A: Allocator>(
    table: &RuleTable<T, A>,
    seat: &mut RuleSeat<T>,
    slots: u64,
)
    requires seat { IsSeatAt table.now seat.old }
    requires slots { (view seat.old).work.freed_slots ≡ slots }
    ensures seat { IsSameSeat seat.old seat.new }
    ensures view { view seat.new ≡ placed_anew (view seat.old) }
    ensures takes { TakesOff table.now OCCUPANCY slots seat.old seat.new }
    ensures by { GoesOnBy table.now is_settling seat.old seat.new }
    ensures adds { Adds seat.old seat.new }
    ensures steps { MakesAtMost 1 seat.old seat.new }
{
    if slots > 0 {
        table.return_slots(seat, slots);
    }
}

/// Takes the charge that the client freed from the usage, if there is any. What it needed is
/// granted then.
pub(crate) fn give_charge<T: Tag, A: Allocator>(
    table: &RuleTable<T, A>,
    seat: &mut RuleSeat<T>,
    charge: u64,
)
    requires seat { IsSeatAt table.now seat.old }
    requires charge { (view seat.old).work.freed ≡ charge }
    requires covered { (view seat.old).work.needed ≤ charge }
    ensures seat { IsSameSeat seat.old seat.new }
    ensures view { view seat.new ≡ paid (view seat.old) }
    ensures takes { TakesOff table.now USAGE charge seat.old seat.new }
    ensures by { GoesOnBy table.now is_settling seat.old seat.new }
    ensures adds { Adds seat.old seat.new }
    ensures steps { MakesAtMost 1 seat.old seat.new }
{
    if charge > 0 {
        table.settle(seat, charge);
    }
}
