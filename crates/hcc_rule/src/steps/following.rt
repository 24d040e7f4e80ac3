//! What one client knows of the shard's history, told to another.
ghost use Rattle.std.specs.Prelude.{◌≡◌, ◌++◌, List, ℕ};
ghost use Rattle.hcc_rule.specs.declared.layout.TheConstants.{OCCUPANCY};
ghost use Rattle.hcc_rule.specs.declared.view.Done.{Done};
ghost use Rattle.hcc_rule.specs.Acts.{heard, past};
ghost use Rattle.hcc_rule.specs.Addresses.{address_of_ledger};
ghost use Rattle.hcc_rule.specs.Callers.{IsEvent, IsSeatAt, IsWitnessAt};
ghost use Rattle.hcc_rule.specs.Events.{occupancy_done};
ghost use Rattle.hcc_rule.specs.Seats.{IsSameSeat, Makes, view};

use crate::key::Tag;
use crate::table::{RuleSeat, RuleTable};
use std::alloc::Allocator;

impl<T: Tag, A: Allocator> RuleTable<T, A> {
    /// Follows a witness: what the seat knows of the history from then on goes on from all that the
    /// witness's giver knew. The step that it makes is a load of the occupancy.
    ///
    /// It allocates nothing. It costs two loads.
    pub fn follow(&self, seat: &mut RuleSeat<T>, witness: RuleSeat<T>)
        requires seat { IsSeatAt self.now seat.old }
        requires witness { IsWitnessAt self.now witness }
        ensures seat { IsSameSeat seat.old seat.new }
        ensures view { view seat.new ≡ view seat.old }
        ensures event { (occupancy : ℕ)
            × Makes (address_of_ledger self.now OCCUPANCY) 0 0 occupancy seat.old seat.new
            × IsEvent self.now (occupancy_done occupancy (view seat.old)) seat.old seat.new }
        ensures follows { (more : List Done) × (past seat.new ≡ heard witness ++ more) }
    {
        self.hear(seat, witness);
        self.occupancy(seat);
    }
}
