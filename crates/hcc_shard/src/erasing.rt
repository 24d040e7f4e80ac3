//! Erasures.
ghost use Rattle.std.specs.Prelude.{◌*◌, ◌+◌, ◌-◌};
ghost use Rattle.hcc_rule.specs.Callers.{slots_of};
ghost use Rattle.hcc_rule.specs.Seats.{view};
ghost use Rattle.hcc_table.specs.Efforts.{Took};
ghost use Rattle.hcc_table.specs.Lists.{has_room, Hands};
ghost use Rattle.hcc_table.specs.Searched.{AllDead};
ghost use Rattle.hcc_table.specs.Steps.{MakesFor, freeing};
ghost use Rattle.hcc_shard.specs.Callers.{ErasesAt};
ghost use Rattle.hcc_shard.specs.Counted.{SameEvictions};
ghost use Rattle.hcc_shard.specs.Referred.{IsErasedAll};
ghost use Rattle.hcc_shard.specs.Seated.{Rests};

use crate::seat::ShardSeat;
use crate::shard::Shard;
use hcc_charge::settle;
use hcc_rule::{Key, Tag};
use hcc_table::{FreedList, hide};
use std::alloc::Allocator;

/// The name of references that no call keeps: no serial is so high.
pub const IN_FLIGHT: u64 = u64::MAX;

impl<T: Tag, A: Allocator> Shard<T, A> {
    /// Hides each visible entry of the key: look-ups find none of them from then on. Those that
    /// nobody holds, this client neither, are freed and put on the list, where that has room and
    /// the one compare-exchange for it wins. It returns how many were hidden. Each slot that was
    /// visited and found visible with the key was hidden, at least one was visited, and the last
    /// has a displacement of 0, or all were.
    ///
    /// Each entry of the key that the client holds has been seen dead afterwards, and so has each
    /// that it hid, held or not. It allocates nothing. Each probe costs what it costs a look-up;
    /// each match an atomic and, a compare-exchange where nobody holds the entry, and the freeing
    /// where that wins, else a subtraction. Two subtractions follow where any was freed. In a shard
    /// of L slots that is at most 9 steps a probe, L + 4 for each entry that is freed, and 2.
    pub fn erase<L: FreedList<T>>(&self, seat: &mut ShardSeat<T>, key: Key, list: &mut L) -> u32
        requires seat { Rests self.now seat.old }
        ensures seat { Rests self.now seat.new }
        ensures list { Hands (L.shelf list.old) (L.shelf list.new)
            (view seat.old.seat) (view seat.new.seat) }
        ensures view { IsErasedAll key result (view seat.old.seat) (view seat.new.seat) }
        ensures dead { AllDead key (view seat.old.seat) (view seat.new.seat) }
        ensures effort { Took 1 (slots_of self.now.table) (2 * slots_of self.now.table)
            seat.old.effort seat.new.effort }
        ensures counts { SameEvictions seat.old seat.new }
        ensures erases { ErasesAt T.fits self.now key (has_room 1 (L.shelf list.new)) result
            seat.old seat.new }
        ensures frees { MakesFor 9 ((slots_of self.now.table + 4 + L.loads)
            * ((view seat.new.seat).takings - (view seat.old.seat).takings) + 2)
            (slots_of self.now.table) seat.old.effort seat.new.effort
            seat.old.seat seat.new.seat }
        ensures steps { MakesFor (freeing (slots_of self.now.table) + L.loads + 9) 2
            (slots_of self.now.table) seat.old.effort seat.new.effort
            seat.old.seat seat.new.seat }
    {
        let erased = hide(
            &self.table,
            &mut seat.seat,
            key,
            IN_FLIGHT,
            list,
            &mut seat.effort,
        );
        settle(
            &self.table,
            &mut seat.seat,
            erased.slots as u64,
            erased.charge,
        );
        erased.hidden
    }
}
