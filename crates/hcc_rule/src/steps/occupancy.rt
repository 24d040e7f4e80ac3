//! Steps on the occupancy word.
ghost use Rattle.std.specs.Prelude.{◌≡◌, ◌+◌, ◌<◌, ◌≤◌, ◌++◌, List, true, length};
ghost use Rattle.hcc_core.specs.declared.client.Place.TheVariants.{Absent};
ghost use Rattle.hcc_core.specs.World.{occupied_by, is_placed, limit_of};
ghost use Rattle.hcc_rule.specs.declared.layout.TheConstants.{OCCUPANCY};
ghost use Rattle.hcc_rule.specs.declared.view.Done.{Done};
ghost use Rattle.hcc_rule.specs.Acts.{heard, past};
ghost use Rattle.hcc_rule.specs.Callers.{plan_of, IsEvent, IsSeatAt};
ghost use Rattle.hcc_rule.specs.Addresses.{address_of_ledger};
ghost use Rattle.hcc_rule.specs.Events.{enter_done, occupancy_done, quit_done, slots_done};
ghost use Rattle.hcc_rule.specs.Rule.{setup_of};
ghost use Rattle.hcc_rule.specs.Seats.{IsSameSeat, Makes, MakesSome, view};
ghost use Rattle.hcc_rule.specs.ToldLedgers.{after_enter, after_slots, after_quit};
ghost use Rattle.hcc_rule.specs.Records.{different};

use crate::key::Tag;
use crate::layout::OCCUPANCY;
use crate::steps::does::Does;
use crate::table::{RuleSeat, RuleTable};
use crate::view::View;
use std::alloc::Allocator;
use std::marker::Brand;

/// What a subtraction of the freed slots shows.
pub struct GiveSlots;

impl<T: Tag> Does<View<T>> for GiveSlots {
    ghost use Rattle.hcc_rule.specs.ToldLedgers.{gives_slots};

    ghost then = { gives_slots };
}

/// What a subtraction of a place and of the freed slots shows.
pub struct Quit;

impl<T: Tag> Does<View<T>> for Quit {
    ghost use Rattle.hcc_rule.specs.ToldLedgers.{quits};

    ghost then = { quits };
}

impl<T: Tag, A: Allocator> RuleTable<T, A> {
    /// Loads the occupancy: the entries, the places that clients asked for, and the slots that they
    /// freed and haven't given back. The client's own place and freed slots are among them, with
    /// the entries that it holds references on, each once. It is at most the limit, with an open
    /// place for each client. Where the shard has one client it is exact: what the client showed
    /// and didn't take, with what it has in hand. What the seat knows of the history goes on from
    /// what the witness told it that it followed last.
    ///
    /// It allocates nothing. It costs one load.
    pub fn occupancy(&self, seat: &mut RuleSeat<T>) -> u64
        requires seat { IsSeatAt self.now seat.old }
        ensures seat { IsSameSeat seat.old seat.new }
        ensures view { view seat.new ≡ view seat.old }
        ensures own { occupied_by (view seat.old).work ≤ result }
        ensures entries { occupied_by (view seat.old).work
            + length (different (view seat.old).records) ≤ result }
        ensures low { result ≤ limit_of (setup_of (plan_of self.now)) + self.now.geometry.clients }
        ensures alone { self.now.geometry.clients ≡ 1
            → result + (view seat.old).takings
            ≡ length (view seat.old).made + occupied_by (view seat.old).work }
        ensures step { Makes (address_of_ledger self.now OCCUPANCY) 0 0 result seat.old seat.new }
        ensures event { IsEvent self.now (occupancy_done result (view seat.old))
            seat.old seat.new }
        ensures heard { (more : List Done) × (past seat.new ≡ heard seat.old ++ more) }
    {
        self.load::<Brand, _>(seat, self.ledger(OCCUPANCY), ())
    }

    /// Asks for a place in the table, for a client that has none. It is granted where the found
    /// occupancy is below 84 of a hundred slots, rounded down; else it is open, and the view counts
    /// one more open place.
    ///
    /// It returns the occupancy before: below the limit with an open place for each client, and at
    /// least the client's freed slots with the entries that it holds references on, each once.
    /// Where the shard has one client it is exact, as a load is. It allocates nothing. It costs one
    /// atomic add.
    pub fn enter(&self, seat: &mut RuleSeat<T>) -> u64
        requires seat { IsSeatAt self.now seat.old }
        requires absent { (view seat.old).work.place ≡ Absent }
        ensures seat { IsSameSeat seat.old seat.new }
        ensures view { view seat.new ≡ after_enter (setup_of (plan_of self.now)) result
            (view seat.old) }
        ensures entries { occupied_by (view seat.old).work
            + length (different (view seat.old).records) ≤ result }
        ensures low { result < limit_of (setup_of (plan_of self.now)) + self.now.geometry.clients }
        ensures alone { self.now.geometry.clients ≡ 1
            → result + (view seat.old).takings
            ≡ length (view seat.old).made + occupied_by (view seat.old).work }
        ensures step { Makes (address_of_ledger self.now OCCUPANCY) 1 0 result seat.old seat.new }
        ensures event { IsEvent self.now (enter_done (setup_of (plan_of self.now)) result
            (view seat.old)) seat.old seat.new }
    {
        self.fetch_add::<Brand, _>(seat, self.ledger(OCCUPANCY), 1, ())
    }

    /// Gives back the slots that the client freed, `count` of them, at least one. An open place of
    /// the client is granted then.
    ///
    /// It allocates nothing. It costs one atomic subtraction.
    pub fn return_slots(&self, seat: &mut RuleSeat<T>, count: u64)
        requires seat { IsSeatAt self.now seat.old }
        requires count { ((view seat.old).work.freed_slots ≡ count) × (0 < count) }
        ensures seat { IsSameSeat seat.old seat.new }
        ensures view { view seat.new ≡ after_slots (view seat.old) }
        ensures step { MakesSome (address_of_ledger self.now OCCUPANCY) count 0 seat.old seat.new }
        ensures event { IsEvent self.now (slots_done (view seat.old))
            seat.old seat.new }
    {
        self.fetch_sub::<GiveSlots, _>(seat, self.ledger(OCCUPANCY), count, ());
    }

    /// Gives back the place of the client, granted or open, with the slots that it freed: `count`
    /// is one more than these.
    ///
    /// It allocates nothing. It costs one atomic subtraction.
    pub fn quit(&self, seat: &mut RuleSeat<T>, count: u64)
        requires seat { IsSeatAt self.now seat.old }
        requires placed { is_placed (view seat.old).work.place ≡ true }
        requires count { 1 + (view seat.old).work.freed_slots ≡ count }
        ensures seat { IsSameSeat seat.old seat.new }
        ensures view { view seat.new ≡ after_quit (view seat.old) }
        ensures step { MakesSome (address_of_ledger self.now OCCUPANCY) count 0 seat.old seat.new }
        ensures event { IsEvent self.now (quit_done (view seat.old))
            seat.old seat.new }
    {
        self.fetch_sub::<Quit, _>(seat, self.ledger(OCCUPANCY), count, ());
    }
}
