//! Closing a shard.
ghost use Rattle.std.specs.Prelude.{◌≡◌, ◌≤◌};
ghost use Rattle.hcc_rule.specs.Acts.{IsAllowed, longer, world_of};
ghost use Rattle.hcc_rule.specs.Callers.{capacity_of, clients_of, geometry_of, is_strict, plan_of};
ghost use Rattle.hcc_rule.specs.Closing.{Closes, IsWithin, words_of};
ghost use Rattle.hcc_rule.specs.Ending.{ShowsWorld};
ghost use Rattle.hcc_rule.specs.Passing.{joined_view};
ghost use Rattle.hcc_rule.specs.Seats.{view};
ghost use Rattle.hcc_rule.specs.Views.{named_by};
ghost use Rattle.hcc_shard.specs.Closed.{AreBack, HoldsNothing, together};
ghost use Rattle.hcc_shard.specs.Ended.{past_of, past_together};
ghost use Rattle.hcc_shard.specs.Imaged.{GivesFitting};
ghost use Rattle.hcc_shard.specs.Left.{GivesValues};

use crate::entries::ClosedShard;
use crate::seat::ShardSeat;
use crate::shard::Shard;
use hcc_rule::Tag;
use std::alloc::Allocator;

impl<T: Tag, A: Allocator> Shard<T, A> {
    /// Ends the shard, once the seats of all its clients are back, each at rest and with nothing
    /// held. The words that are left are only those of the entries: the usage, the occupancy and
    /// the displacements are sums over them. Each entry is one that its maker made, in no two
    /// slots, and nobody holds it; they are as many as were made less those that were taken. The
    /// value that is left of it is the one that it was made with. Where the capacity is strict, the
    /// charges are within it in sum; so `reopen` accepts the image that the closed shard gives, for
    /// a shard of the same sizes and capacity and the same tag, and refuses it only for memory.
    ///
    /// The words are those of the world to which all leads that the clients know, that is the one
    /// that knows most: closing hides nothing, ages nothing and frees nothing.
    ///
    /// It refuses nothing and allocates nothing. It costs a load for each seat.
    pub fn close<B: Allocator>(self, seats: Vec<ShardSeat<T>, B>) -> ClosedShard<A>
        requires back { AreBack self seats.items }
        ensures size { result.table.geometry ≡ geometry_of self.table }
        ensures closes { Closes T.fits (plan_of self.table).tag (geometry_of self.table)
            (words_of result.table) (together seats.items) }
        ensures left { ShowsWorld T.fits (plan_of self.table).tag (geometry_of self.table)
            (words_of result.table) (together seats.items)
            (world_of (plan_of self.table) (past_together seats.items)) }
        ensures allowed { IsAllowed (plan_of self.table) (past_together seats.items) }
        ensures values { GivesValues T.fits (plan_of self.table).tag (geometry_of self.table).room
            (words_of result.table) (together seats.items) }
        ensures within { IsWithin (geometry_of self.table) (capacity_of self.table)
            (is_strict self.table) (words_of result.table) }
        ensures fitting { GivesFitting result.table T.fits (plan_of self.table).tag }
    {
        let mut seats = seats;
        let mut last = seats.remove(0).seat;
        for seat in seats {
            self.table.join(&mut last, seat.seat);
        }
        ClosedShard {
            table: self.table.close(last),
        }
    }

    /// Joins another seat to a seat: the first names the clients of both from now on, and knows of
    /// the shard what the one or the other did, whichever is more. Both are at rest, and their
    /// clients hold nothing. The counts of the other's calls go.
    ///
    /// It refuses nothing and allocates nothing. It costs a load.
    pub fn join(&self, seat: &mut ShardSeat<T>, other: ShardSeat<T>)
        requires seat { HoldsNothing self.now seat.old }
        requires other { HoldsNothing self.now other }
        ensures seat { HoldsNothing self.now seat.new }
        ensures view { view seat.new.seat ≡ joined_view (view seat.old.seat) (view other.seat) }
        ensures past { past_of seat.new ≡ longer (past_of seat.old) (past_of other) }
    {
        self.table.join(&mut seat.seat, other.seat);
    }

    /// Ends the shard as `close` does, by the one seat to which those of all other clients were
    /// joined.
    ///
    /// It refuses nothing and allocates nothing. It costs nothing.
    pub fn close_joined(self, last: ShardSeat<T>) -> ClosedShard<A>
        requires back { HoldsNothing self last }
        requires all { clients_of self.table ≤ named_by (view last.seat) }
        ensures size { result.table.geometry ≡ geometry_of self.table }
        ensures closes { Closes T.fits (plan_of self.table).tag (geometry_of self.table)
            (words_of result.table) (view last.seat) }
        ensures left { ShowsWorld T.fits (plan_of self.table).tag (geometry_of self.table)
            (words_of result.table) (view last.seat)
            (world_of (plan_of self.table) (past_of last)) }
        ensures allowed { IsAllowed (plan_of self.table) (past_of last) }
        ensures values { GivesValues T.fits (plan_of self.table).tag (geometry_of self.table).room
            (words_of result.table) (view last.seat) }
        ensures within { IsWithin (geometry_of self.table) (capacity_of self.table)
            (is_strict self.table) (words_of result.table) }
        ensures fitting { GivesFitting result.table T.fits (plan_of self.table).tag }
    {
        ClosedShard {
            table: self.table.close(last.seat),
        }
    }
}
