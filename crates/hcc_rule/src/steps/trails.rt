//! Steps on displacement words.
ghost use Rattle.std.specs.Prelude.{◌≡◌, ◌+◌, ◌-◌, ◌*◌, ◌<◌, ◌≤◌, true, length};
ghost use Rattle.std.specs.List.{list_any};
ghost use Rattle.hcc_core.specs.World.{times, limit_of};
ghost use Rattle.hcc_core.specs.Trails.{is_slot};
ghost use Rattle.hcc_rule.specs.declared.view.Record.{Record};
ghost use Rattle.hcc_rule.specs.Callers.{clients_of, plan_of, slots_of, IsEvent, IsSeatAt, IsSlotAt};
ghost use Rattle.hcc_rule.specs.Addresses.{address_of_displacement};
ghost use Rattle.hcc_rule.specs.Probes.{trail_to};
ghost use Rattle.hcc_rule.specs.Events.{count_done, pass_done, unpass_done};
ghost use Rattle.hcc_rule.specs.Rule.{setup_of};
ghost use Rattle.hcc_rule.specs.Seats.{IsSameSeat, Makes, MakesSome, view};
ghost use Rattle.hcc_rule.specs.ToldTrails.{after_pass, after_unpass, passed_held, Passed};
ghost use Rattle.hcc_rule.specs.Views.{Each};
ghost use Rattle.hcc_rule.specs.Records.{different};
ghost use Rattle.hcc_rule.specs.Words.{key_of};

use crate::addresses::SlotAt;
use crate::key::Tag;
use crate::layout::DISPLACEMENT;
use crate::table::{RuleSeat, RuleTable};
use std::alloc::Allocator;
use std::marker::Brand;

impl<T: Tag, A: Allocator> RuleTable<T, A> {
    /// Loads how often a slot stands in the trails of entries and clients. The client's own trail
    /// is among them, and so is that of each entry that it holds a reference on: where the answer
    /// is 0, none of them was put beyond this slot. All that it holds is on slots of the table. Any
    /// other entry has the slot in its trail once at most, and any other client as often as there
    /// are slots; in a shard of one client the other entries are those that it showed and did not
    /// take, so the answer is exact where it holds all of these.
    ///
    /// It allocates nothing. It costs one load.
    pub fn count_at(&self, seat: &mut RuleSeat<T>, at: SlotAt) -> u64
        requires seat { IsSeatAt self.now seat.old }
        requires at { IsSlotAt self.now at }
        ensures seat { IsSameSeat seat.old seat.new }
        ensures view { view seat.new ≡ view seat.old }
        ensures own { times at.slot (view seat.old).work.trail ≤ result }
        ensures entries { times at.slot (view seat.old).work.trail
            + passed_held (slots_of self.now) at.slot (view seat.old).records ≤ result }
        ensures most { result + length (different (view seat.old).records)
            ≤ times at.slot (view seat.old).work.trail
            + passed_held (slots_of self.now) at.slot (view seat.old).records
            + limit_of (setup_of (plan_of self.now))
            + slots_of self.now * (clients_of self.now - 1) }
        ensures alone { clients_of self.now ≡ 1
            → result + (view seat.old).takings + length (different (view seat.old).records)
            ≤ times at.slot (view seat.old).work.trail
            + passed_held (slots_of self.now) at.slot (view seat.old).records
            + length (view seat.old).made }
        ensures held { Each (λ (r : Record). times at.slot
            (trail_to self.now.geometry.slots (key_of r.entry) r.slot) ≤ result)
            (view seat.old).records }
        ensures within { Each (λ (r : Record). r.slot < self.now.geometry.slots)
            (view seat.old).records }
        ensures step { Makes (address_of_displacement self.now at.slot) 0 0 result
            seat.old seat.new }
        ensures event { IsEvent self.now (count_done at.slot result (view seat.old))
            seat.old seat.new }
    {
        self.load::<Brand, _>(seat, self.head_address(at, DISPLACEMENT), at.slot)
    }

    /// Adds 1 to a slot's displacement word: the slot joins the client's trail, which has fewer
    /// members than the shard has slots.
    ///
    /// It allocates nothing. It costs one atomic add.
    pub fn pass_at(&self, seat: &mut RuleSeat<T>, at: SlotAt)
        requires seat { IsSeatAt self.now seat.old }
        requires at { IsSlotAt self.now at }
        requires room { length (view seat.old).work.trail < self.now.geometry.slots }
        ensures seat { IsSameSeat seat.old seat.new }
        ensures view { view seat.new ≡ after_pass at.slot (view seat.old) }
        ensures step { MakesSome (address_of_displacement self.now at.slot) 1 0 seat.old seat.new }
        ensures event { IsEvent self.now (pass_done at.slot (view seat.old))
            seat.old seat.new }
    {
        self.fetch_add::<Brand, _>(seat, self.head_address(at, DISPLACEMENT), 1, at.slot);
    }

    /// Subtracts 1 from the displacement word of a slot in the client's trail: the slot leaves the
    /// trail once.
    ///
    /// It allocates nothing. It costs one atomic subtraction.
    pub fn unpass(&self, seat: &mut RuleSeat<T>, slot: u32)
        requires seat { IsSeatAt self.now seat.old }
        requires slot { slot < self.now.geometry.slots }
        requires passed { list_any (is_slot slot) (view seat.old).work.trail ≡ true }
        ensures seat { IsSameSeat seat.old seat.new }
        ensures view { view seat.new ≡ after_unpass slot (view seat.old) }
        ensures step { MakesSome (address_of_displacement self.now slot) 1 0 seat.old seat.new }
        ensures event { IsEvent self.now (unpass_done slot (view seat.old))
            seat.old seat.new }
    {
        self.fetch_sub::<Brand, _>(seat, self.address(slot, DISPLACEMENT), 1, slot);
    }
}
