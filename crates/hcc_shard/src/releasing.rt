//! References that are given back.
ghost use Rattle.std.specs.Prelude.{◌≡◌, ◌+◌, ◌<◌, ◌&&◌, true, Some};
ghost use Rattle.std.specs.List.{find};
ghost use Rattle.hcc_core.specs.Ledgers.{is_standing};
ghost use Rattle.hcc_rule.specs.Callers.{slots_of, IsSlotOf};
ghost use Rattle.hcc_rule.specs.Seats.{view};
ghost use Rattle.hcc_table.specs.Efforts.{Lost};
ghost use Rattle.hcc_table.specs.Lists.{has_room, Hands};
ghost use Rattle.hcc_table.specs.Pins.{IsPinned, erases, is_useful};
ghost use Rattle.hcc_table.specs.Steps.{MakesAtMost, freeing};
ghost use Rattle.hcc_charge.specs.Settled.{fallen};
ghost use Rattle.hcc_shard.specs.Callers.{GivesBackAt};
ghost use Rattle.hcc_shard.specs.Counted.{SameCounts, SameEvictions};
ghost use Rattle.hcc_shard.specs.Referred.{IsReleased};
ghost use Rattle.hcc_shard.specs.Seated.{Rests};
ghost use Rattle.hcc_shard.specs.Stays.{ReleasesAt, StaysAt};

use crate::seat::ShardSeat;
use crate::shard::Shard;
use hcc_charge::{settle, standalone_out};
use hcc_rule::Tag;
use hcc_table::{FreedList, IfLast, Pin, Use, release};
use std::alloc::Allocator;

impl<T: Tag, A: Allocator> Shard<T, A> {
    /// Gives the reference of a pin that the client holds back: as a use, where it is useful and
    /// counts. Where no reference is left then, and the entry is hidden or `last` asks for it,
    /// taking the entry is tried once, and it is freed and put on the list; but where that has no
    /// room it is left to the clock. It returns whether this call freed an entry: maybe another
    /// one, that came into the slot meanwhile.
    ///
    /// The record of the pin is gone afterwards, and no other. It allocates nothing. It costs one
    /// atomic add or subtraction; where nobody holds the entry and it may go a compare-exchange,
    /// and where that wins what freeing the slot costs and two subtractions.
    #[inline(always)]
    pub fn release<L: FreedList<T>>(
        &self,
        seat: &mut ShardSeat<T>,
        pin: Pin,
        as_use: Use,
        last: IfLast,
        list: &mut L,
    ) -> bool
        requires seat { Rests self.now seat.old }
        requires slot { IsSlotOf self.now.table pin.slot }
        requires holds { IsPinned pin (view seat.old.seat) }
        ensures seat { Rests self.now seat.new }
        ensures list { Hands (L.shelf list.old) (L.shelf list.new)
            (view seat.old.seat) (view seat.new.seat) }
        ensures view { IsReleased pin.name (erases last) result
            (view seat.old.seat) (view seat.new.seat) }
        ensures gives { GivesBackAt self.now pin.slot (has_room 1 (L.shelf list.old))
            (is_useful as_use && pin.counting) (erases last) result seat.old seat.new }
        ensures by { ReleasesAt self.now pin.slot pin.name (has_room 1 (L.shelf list.old))
            (is_useful as_use && pin.counting) (erases last) result seat.old seat.new }
        ensures effort { Lost 0 1 seat.old.effort seat.new.effort }
        ensures counts { SameEvictions seat.old seat.new }
        ensures steps { MakesAtMost (freeing (slots_of self.now.table) + L.loads + 3)
            seat.old.seat seat.new.seat }
    {
        match release(
            &self.table,
            &mut seat.seat,
            pin,
            as_use,
            last,
            list,
            &mut seat.effort,
        ) {
            Some(charge) => {
                settle(&self.table, &mut seat.seat, 1, charge);
                true
            }
            None => false,
        }
    }

    /// Lets go of a standalone entry of the client, whose charge this is: its last reference is
    /// gone.
    ///
    /// It allocates nothing. It costs two atomic subtractions.
    pub fn release_standalone(&self, seat: &mut ShardSeat<T>, name: u64, charge: u32)
        requires seat { Rests self.now seat.old }
        requires stands { find (is_standing name) (view seat.old.seat).work.standalones
            ≡ Some (record { name = name; charge = charge }) }
        ensures seat { Rests self.now seat.new }
        ensures view { view seat.new.seat ≡ fallen name (view seat.old.seat) }
        ensures stays { StaysAt self.now seat.old seat.new }
        ensures counts { SameCounts seat.old seat.new }
        ensures steps { MakesAtMost 2 seat.old.seat seat.new.seat }
    {
        standalone_out(&self.table, &mut seat.seat, name, charge);
    }
}
