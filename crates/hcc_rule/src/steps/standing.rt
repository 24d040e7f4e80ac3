//! Steps on the word of standalone charges.
ghost use Rattle.std.specs.Prelude.{◌≡◌, ◌+◌, ◌<◌, ◌≤◌, ◌^◌, true, false, Some, find, length};
ghost use Rattle.std.specs.List.{list_any};
ghost use Rattle.hcc_core.specs.declared.client.Place.TheVariants.{Absent};
ghost use Rattle.hcc_core.specs.World.{standing_of};
ghost use Rattle.hcc_core.specs.Ledgers.{is_standing};
ghost use Rattle.hcc_core.specs.declared.limits.TheConstants.{MOST_HANDLES};
ghost use Rattle.hcc_rule.specs.declared.layout.TheConstants.{STANDING};
ghost use Rattle.hcc_rule.specs.Callers.{capacity_of, clients_of, is_strict, plan_of, IsEvent, IsSeatAt};
ghost use Rattle.hcc_rule.specs.Addresses.{address_of_ledger};
ghost use Rattle.hcc_rule.specs.Events.{fall_done, stand_done, standing_done};
ghost use Rattle.hcc_rule.specs.Rule.{setup_of};
ghost use Rattle.hcc_rule.specs.Seats.{IsSameSeat, Makes, MakesSome, view};
ghost use Rattle.hcc_rule.specs.ToldLedgers.{after_stand, after_fall};
ghost use Rattle.hcc_rule.specs.Records.{charge_held};

use crate::key::Tag;
use crate::layout::STANDING;
use crate::table::{RuleSeat, RuleTable};
use std::alloc::Allocator;
use std::marker::Brand;

impl<T: Tag, A: Allocator> RuleTable<T, A> {
    /// Loads the charges of all standalone entries, the client's own among them: below 2^60. In a
    /// shard of one client the answer is just these. Under strict capacity it is at most the
    /// capacity, with what the client was granted and freed and the entries that it holds, each
    /// once.
    ///
    /// It allocates nothing. It costs one load.
    pub fn standing(&self, seat: &mut RuleSeat<T>) -> u64
        requires seat { IsSeatAt self.now seat.old }
        ensures seat { IsSameSeat seat.old seat.new }
        ensures view { view seat.new ≡ view seat.old }
        ensures own { standing_of (view seat.old).work ≤ result }
        ensures low { result < 2 ^ 60 }
        ensures alone { clients_of self.now ≡ 1 → result ≡ standing_of (view seat.old).work }
        ensures real { is_strict self.now ≡ true
            → result + (view seat.old).work.granted + (view seat.old).work.freed
            + charge_held (view seat.old).records ≤ capacity_of self.now }
        ensures step { Makes (address_of_ledger self.now STANDING) 0 0 result seat.old seat.new }
        ensures event { IsEvent self.now (standing_done result (view seat.old))
            seat.old seat.new }
    {
        self.load::<Brand, _>(seat, self.ledger(STANDING), ())
    }

    /// Makes a standalone entry of this name, with a charge that the client was granted. The client
    /// has no place, fewer than 16,384 standalone entries, and none of this name.
    ///
    /// It allocates nothing. It costs one atomic add.
    pub fn stand(&self, seat: &mut RuleSeat<T>, name: u64, charge: u32)
        requires seat { IsSeatAt self.now seat.old }
        requires absent { (view seat.old).work.place ≡ Absent }
        requires granted { charge ≤ (view seat.old).work.granted }
        requires fresh { list_any (is_standing name) (view seat.old).work.standalones ≡ false }
        requires few { length (view seat.old).work.standalones < MOST_HANDLES }
        ensures seat { IsSameSeat seat.old seat.new }
        ensures view { view seat.new ≡ after_stand name charge (view seat.old) }
        ensures step { MakesSome (address_of_ledger self.now STANDING) charge 0 seat.old seat.new }
        ensures event { IsEvent self.now (stand_done name charge (view seat.old))
            seat.old seat.new }
    {
        self.fetch_add::<Brand, _>(seat, self.ledger(STANDING), charge as u64, name);
    }

    /// Lets go of the standalone entry of this name, whose charge this is. The charge is freed
    /// then; what the client has freed stays below 2^49.
    ///
    /// It allocates nothing. It costs one atomic subtraction.
    pub fn fall(&self, seat: &mut RuleSeat<T>, name: u64, charge: u64)
        requires seat { IsSeatAt self.now seat.old }
        requires stood { find (is_standing name) (view seat.old).work.standalones
            ≡ Some (record { name = name; charge = charge }) }
        requires room { (view seat.old).work.freed + charge < 2 ^ 49 }
        ensures seat { IsSameSeat seat.old seat.new }
        ensures view { view seat.new ≡ after_fall name charge (view seat.old) }
        ensures step { MakesSome (address_of_ledger self.now STANDING) charge 0 seat.old seat.new }
        ensures event { IsEvent self.now (fall_done name (view seat.old))
            seat.old seat.new }
    {
        self.fetch_sub::<Brand, _>(seat, self.ledger(STANDING), charge, name);
    }
}
