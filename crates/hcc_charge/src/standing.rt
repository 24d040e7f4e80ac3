//! Standalone entries: their charge is in the usage, and they have no slot.
ghost use Rattle.std.specs.Prelude.{◌≡◌, ◌<◌, ◌≤◌, false, Some, length, if◌then◌else◌};
ghost use Rattle.std.specs.List.{find, list_any};
ghost use Rattle.hcc_core.specs.declared.client.Place.TheVariants.{Absent};
ghost use Rattle.hcc_core.specs.declared.limits.TheConstants.{MOST_HANDLES};
ghost use Rattle.hcc_core.specs.Ledgers.{is_standing};
ghost use Rattle.hcc_rule.specs.Callers.{is_strict, IsSeatAt};
ghost use Rattle.hcc_rule.specs.Seats.{IsSameSeat, view};
ghost use Rattle.hcc_charge.specs.Settled.{fallen, stood, StandsBy};
ghost use Rattle.hcc_table.specs.Steps.{Adds, MakesAtMost};
ghost use Rattle.hcc_table.specs.Still.{GoesOnStill};

use crate::settling::give_charge;
use hcc_rule::{RuleSeat, RuleTable, Tag};
use std::alloc::Allocator;

/// Makes a standalone entry of this name and charge. Where the charge isn't granted yet it is added
/// to the usage first, and nothing is evicted for it: under strict capacity it must be granted.
///
/// The client has no place, nothing needed, this charge granted or nothing, fewer than 16,384
/// standalone entries, and none of this name. It allocates nothing. It costs one atomic add, or
/// two.
pub fn standalone_in<T: Tag, A: Allocator>(
    table: &RuleTable<T, A>,
    seat: &mut RuleSeat<T>,
    name: u64,
    charge: u32,
    granted: bool,
)
    requires seat { IsSeatAt table.now seat.old }
    requires absent { (view seat.old).work.place ≡ Absent }
    requires granted { (view seat.old).work.granted ≡ (if granted then charge else 0) }
    requires needed { (view seat.old).work.needed ≡ 0 }
    requires lax { granted ≡ false → is_strict table.now ≡ false }
    requires fresh { list_any (is_standing name) (view seat.old).work.standalones ≡ false }
    requires few { length (view seat.old).work.standalones < MOST_HANDLES }
    ensures seat { IsSameSeat seat.old seat.new }
    ensures view { view seat.new ≡ stood name charge (view seat.old) }
    ensures by { StandsBy table.now granted name charge seat.old seat.new }
    ensures adds { Adds seat.old seat.new }
    ensures steps { MakesAtMost 2 seat.old seat.new }
{
    if !granted {
        table.charge(seat, charge);
    }
    table.stand(seat, name, charge);
}

/// Lets go of the standalone entry of this name, whose charge this is, and subtracts the charge
/// from the usage.
///
/// The client has nothing needed and no freed charge to settle. It allocates nothing. It costs two
/// atomic subtractions.
pub fn standalone_out<T: Tag, A: Allocator>(
    table: &RuleTable<T, A>,
    seat: &mut RuleSeat<T>,
    name: u64,
    charge: u32,
)
    requires seat { IsSeatAt table.now seat.old }
    requires stands { find (is_standing name) (view seat.old).work.standalones
        ≡ Some (record { name = name; charge = charge }) }
    requires needed { (view seat.old).work.needed ≡ 0 }
    requires settled { (view seat.old).work.freed ≡ 0 }
    ensures seat { IsSameSeat seat.old seat.new }
    ensures view { view seat.new ≡ fallen name (view seat.old) }
    ensures still { GoesOnStill table.now seat.old seat.new }
    ensures steps { MakesAtMost 2 seat.old seat.new }
{
    table.fall(seat, name, charge as u64);
    give_charge(table, seat, charge as u64);
}
