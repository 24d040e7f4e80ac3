//! Walks over the slots of a shard.
ghost use Rattle.std.specs.Prelude.{◌≡◌, ◌+◌, ◌<◌, IfSome, IfNone, length};
ghost use Rattle.hcc_core.specs.declared.limits.TheConstants.{MOST_HANDLES};
ghost use Rattle.hcc_rule.specs.declared.view.Record.{Record};
ghost use Rattle.hcc_rule.specs.Callers.{room_of, slots_of, IsSlotOf};
ghost use Rattle.hcc_rule.specs.Seats.{view};
ghost use Rattle.hcc_table.specs.AtSlots.{takes_one};
ghost use Rattle.hcc_table.specs.Efforts.{Took};
ghost use Rattle.hcc_table.specs.Lists.{Hands};
ghost use Rattle.hcc_table.specs.Pins.{IsOf};
ghost use Rattle.hcc_table.specs.Searched.{IsFoundOn};
ghost use Rattle.hcc_table.specs.Steps.{MakesAtMost, freeing};
ghost use Rattle.hcc_shard.specs.Counted.{SameEvictions};
ghost use Rattle.hcc_shard.specs.Kept.{IsPassed, WalksAt};
ghost use Rattle.hcc_shard.specs.Seated.{IsNext, Rests};
ghost use Rattle.hcc_shard.specs.Stays.{SeeksAt};

use crate::seat::ShardSeat;
use crate::shard::Shard;
use hcc_charge::settle;
use hcc_rule::Tag;
use hcc_table::{AtSlot, FreedList, Pin, pin_at};
use std::alloc::Allocator;

impl<T: Tag, A: Allocator> Shard<T, A> {
    /// A reference on the entry of a slot, named by the serial that the call is handed, where a
    /// look and then the acquire both find the entry visible. The serial is above the names that
    /// the client has, which holds fewer than 16,384 references.
    ///
    /// Where it gives one, the client has one record more, behind its others: of an entry with a
    /// value that fits its key, which the client hadn't seen dead. Else it holds what it held.
    /// Where the look finds a hidden entry that nobody holds, and the list is kept and has room, it
    /// tries once to take that entry, by one compare-exchange: where that wins the entry is put on
    /// the list, and its place and its charge are given back. For a list that isn't kept it doesn't
    /// try.
    ///
    /// It marks nothing and allocates nothing. It costs a load, and where the slot is visible an
    /// add, with a compare-exchange where the reference doesn't count, and a subtraction where the
    /// entry was hidden meanwhile. Where it frees an entry, it makes at most L + 8 steps in a shard
    /// of L slots, and a load more for the list.
    pub fn pin_at<L: FreedList<T>>(
        &self,
        seat: &mut ShardSeat<T>,
        slot: u32,
        serial: u64,
        list: &mut L,
    ) -> Option<Pin>
        requires seat { Rests self.now seat.old }
        requires slot { IsSlotOf self.now.table slot }
        requires serial { IsNext serial (view seat.old.seat) }
        requires few { length (view seat.old.seat).records < MOST_HANDLES }
        ensures seat { Rests self.now seat.new }
        ensures list { Hands (L.shelf list.old) (L.shelf list.new)
            (view seat.old.seat) (view seat.new.seat) }
        ensures held { IfSome result (λ pin. (pin.slot ≡ slot) × (pin.name ≡ serial)
            × (r : Record) × IsFoundOn T.fits (room_of self.now.table) slot serial
            (view seat.old.seat) (view seat.new.seat) r
            × IsOf pin r) }
        ensures unheld { IfNone result (IsPassed slot (view seat.old.seat) (view seat.new.seat)) }
        ensures walks { WalksAt T.fits self.now serial slot (takes_one (L.shelf list.old)) result
            seat.old seat.new }
        ensures seeks { IfSome result (λ pin. SeeksAt self.now seat.old seat.new) }
        ensures effort { Took 0 0 1 seat.old.effort seat.new.effort }
        ensures counts { SameEvictions seat.old seat.new }
        ensures steps { MakesAtMost (freeing (slots_of self.now.table) + L.loads + 3)
            seat.old.seat seat.new.seat }
        ensures fewer { IfSome result (λ pin. MakesAtMost 3 seat.old.seat seat.new.seat) }
    {
        match pin_at(
            &self.table,
            &mut seat.seat,
            slot,
            serial,
            list,
            &mut seat.effort,
        ) {
            AtSlot::Nothing => None,
            AtSlot::Held(pin) => Some(pin),
            AtSlot::Freed(charge) => {
                settle(&self.table, &mut seat.seat, 1, charge);
                None
            }
        }
    }
}
