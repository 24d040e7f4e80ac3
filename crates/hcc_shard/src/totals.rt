//! Totals of a shard.
ghost use Rattle.std.specs.Prelude.{◌≡◌, ◌+◌, ◌*◌, ◌<◌, ◌≤◌, ◌^◌, true, length};
ghost use Rattle.hcc_core.specs.World.{limit_of, standing_of};
ghost use Rattle.hcc_rule.specs.Callers.{capacity_of, clients_of, is_strict, plan_of, slots_of};
ghost use Rattle.hcc_rule.specs.Rule.{setup_of};
ghost use Rattle.hcc_rule.specs.Seats.{view};
ghost use Rattle.hcc_rule.specs.Records.{charge_held, different};
ghost use Rattle.hcc_table.specs.Efforts.{Took};
ghost use Rattle.hcc_table.specs.Searched.{Sought};
ghost use Rattle.hcc_table.specs.Steps.{MakesAtMost};
ghost use Rattle.hcc_shard.specs.Callers.{LoadsOccupancy};
ghost use Rattle.hcc_shard.specs.Counted.{CountsPinned, LoadsUsage, SameCounts, SameEvictions};
ghost use Rattle.hcc_shard.specs.Seated.{Rests};
ghost use Rattle.hcc_shard.specs.Stays.{StaysAt};

use crate::erasing::IN_FLIGHT;
use crate::seat::ShardSeat;
use crate::shard::Shard;
use hcc_rule::Tag;
use hcc_table::pinned_charge;
use std::alloc::Allocator;

impl<T: Tag, A: Allocator> Shard<T, A> {
    /// How many entries the shard has, as one load finds it, with the places and the freed slots
    /// that other clients have in hand: at least the entries that the client holds, each once, and
    /// at most the limit, with an open place for each client. In a shard of one client it is exact:
    /// those that it made, less those that it took.
    ///
    /// It refuses nothing and allocates nothing. It costs one load.
    pub fn occupancy(&self, seat: &mut ShardSeat<T>) -> u64
        requires seat { Rests self.now seat.old }
        ensures seat { Rests self.now seat.new }
        ensures view { view seat.new.seat ≡ view seat.old.seat }
        ensures entries { length (different (view seat.old.seat).records) ≤ result }
        ensures low { result ≤ limit_of (setup_of (plan_of self.now.table))
            + clients_of self.now.table }
        ensures alone { clients_of self.now.table ≡ 1
            → result + (view seat.old.seat).takings ≡ length (view seat.old.seat).made }
        ensures loads { LoadsOccupancy self.now result seat.old seat.new }
        ensures counts { SameCounts seat.old seat.new }
        ensures steps { MakesAtMost 1 seat.old.seat seat.new.seat }
    {
        self.table.occupancy(&mut seat.seat)
    }

    /// What is charged in the shard: the usage that is loaded, or the capacity where that is strict
    /// and less. It is at least the charges of the entries that the client holds, each once, and of
    /// its standalone entries. The usage that was loaded joins the client's seen list.
    ///
    /// It refuses nothing and allocates nothing. It costs one load.
    pub fn usage(&self, seat: &mut ShardSeat<T>) -> u64
        requires seat { Rests self.now seat.old }
        ensures seat { Rests self.now seat.new }
        ensures view { LoadsUsage self.now result seat.old seat.new }
        ensures entries { standing_of (view seat.old.seat).work
            + charge_held (view seat.old.seat).records ≤ result }
        ensures strict { is_strict self.now.table ≡ true → result ≤ capacity_of self.now.table }
        ensures low { result < 2 ^ 60 }
        ensures counts { SameCounts seat.old seat.new }
        ensures steps { MakesAtMost 1 seat.old.seat seat.new.seat }
    {
        let used = self.table.usage(&mut seat.seat);
        if self.table.strict() {
            used.min(self.table.capacity())
        } else {
            used
        }
    }

    /// What is charged for entries that are held, and for standalone ones: slot by slot, where a
    /// look and then an acquire find that the slot's entry is held. It is at least the charges of
    /// the entries that the client holds, each once, and of its standalone entries; in a shard of
    /// one client it is these. Each slot is looked at once, in turn, and what is acquired there is
    /// given back, not as a use.
    ///
    /// It refuses nothing and allocates nothing. It costs a load, and one for each slot; where that
    /// finds an entry held an add, a load and a subtraction more, with a compare-exchange where the
    /// reference doesn't count.
    pub fn pinned_usage(&self, seat: &mut ShardSeat<T>) -> u64
        requires seat { Rests self.now seat.old }
        ensures seat { Rests self.now seat.new }
        ensures view { Sought (view seat.old.seat) (view seat.new.seat) }
        ensures entries { standing_of (view seat.old.seat).work
            + charge_held (view seat.old.seat).records ≤ result }
        ensures alone { clients_of self.now.table ≡ 1
            → result ≡ standing_of (view seat.old.seat).work
            + charge_held (view seat.old.seat).records }
        ensures loads { CountsPinned T.fits self.now result seat.old seat.new }
        ensures stays { StaysAt self.now seat.old seat.new }
        ensures effort { Took 0 0 (slots_of self.now.table) seat.old.effort seat.new.effort }
        ensures counts { SameEvictions seat.old seat.new }
        ensures steps { MakesAtMost (5 * slots_of self.now.table + 1) seat.old.seat seat.new.seat }
    {
        let mut sum = self.table.standing(&mut seat.seat);
        for slot in 0..self.table.geometry().slots {
            sum += pinned_charge(
                &self.table,
                &mut seat.seat,
                slot,
                IN_FLIGHT,
                &mut seat.effort,
            );
        }
        sum
    }
}
