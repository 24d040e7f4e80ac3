//! What one client knows of a shard, told to another.
ghost use Rattle.std.specs.Prelude.{◌≡◌, ◌++◌, List, ℕ};
ghost use Rattle.hcc_rule.specs.declared.view.Done.{Done};
ghost use Rattle.hcc_rule.specs.Seats.{view};
ghost use Rattle.hcc_table.specs.Steps.{MakesAtMost};
ghost use Rattle.hcc_shard.specs.Callers.{LoadsOccupancy};
ghost use Rattle.hcc_shard.specs.Counted.{SameCounts};
ghost use Rattle.hcc_shard.specs.Ended.{past_of};
ghost use Rattle.hcc_shard.specs.Following.{told_by, IsWitnessOf};
ghost use Rattle.hcc_shard.specs.Seated.{Rests};

use crate::seat::ShardSeat;
use crate::shard::Shard;
use hcc_rule::{RuleSeat, Tag};
use std::alloc::Allocator;

/// What a client knew of a shard when it gave this, for another client to follow. It has no bytes.
#[derive(Drop)]
pub struct ShardWitness<T> {
    pub(crate) seat: RuleSeat<T>,
}

impl<T: Tag, A: Allocator> Shard<T, A> {
    /// A witness of all that the client knows of the shard. Nothing changes by it.
    ///
    /// It refuses nothing and allocates nothing. It costs one load.
    pub fn witness(&self, seat: &mut ShardSeat<T>) -> ShardWitness<T>
        requires { Rests self.now seat.old }
        ensures same { seat.new ≡ seat.old }
        ensures witness { IsWitnessOf self.now result }
        ensures told { told_by result ≡ past_of seat.old }
    {
        ShardWitness {
            seat: self.table.witness(&mut seat.seat),
        }
    }

    /// Follows a witness: what the client knows of the shard goes on from all that the witness's
    /// giver knew of it. The step that it makes is a load of the occupancy.
    ///
    /// It refuses nothing and allocates nothing. It costs two loads.
    pub fn follow(&self, seat: &mut ShardSeat<T>, witness: ShardWitness<T>)
        requires seat { Rests self.now seat.old }
        requires witness { IsWitnessOf self.now witness }
        ensures seat { Rests self.now seat.new }
        ensures view { view seat.new.seat ≡ view seat.old.seat }
        ensures loads { (count : ℕ) × LoadsOccupancy self.now count seat.old seat.new }
        ensures follows { (more : List Done) × (past_of seat.new ≡ told_by witness ++ more) }
        ensures counts { SameCounts seat.old seat.new }
        ensures steps { MakesAtMost 1 seat.old.seat seat.new.seat }
    {
        self.table.follow(&mut seat.seat, witness.seat);
    }
}
