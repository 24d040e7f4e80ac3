//! Loads of meta words.
ghost use Rattle.std.specs.Prelude.{◌≡◌};
ghost use Rattle.hcc_rule.specs.Callers.{plan_of, IsEvent, IsSeatAt, IsSlotAt};
ghost use Rattle.hcc_rule.specs.Addresses.{address_of_meta};
ghost use Rattle.hcc_rule.specs.Events.{look_done};
ghost use Rattle.hcc_rule.specs.Rule.{setup_of};
ghost use Rattle.hcc_rule.specs.Seats.{IsSameSeat, Makes, view};
ghost use Rattle.hcc_rule.specs.Looked.{after_look, HoldsAll, Backs};

use crate::addresses::SlotAt;
use crate::key::Tag;
use crate::layout::META;
use crate::table::{RuleSeat, RuleTable};
use std::alloc::Allocator;
use std::marker::Brand;

impl<T: Tag, A: Allocator> RuleTable<T, A> {
    /// Loads a slot's meta word. The client looks at the slot, and may acquire there next, where
    /// the word is that of an entry; where the entry is hidden and the client holds a reference on
    /// it, the client has seen it dead. Where the client holds references on the slot, the word is
    /// that of an entry with at least these, and they all are on that entry; where the shard has
    /// one client, with just these.
    ///
    /// It allocates nothing. It costs one load.
    pub fn look_at(&self, seat: &mut RuleSeat<T>, at: SlotAt) -> u64
        requires seat { IsSeatAt self.now seat.old }
        requires at { IsSlotAt self.now at }
        ensures seat { IsSameSeat seat.old seat.new }
        ensures view { view seat.new ≡ after_look at.slot result (view seat.old) }
        ensures backs { Backs at.slot result (view seat.old) }
        ensures alone { HoldsAll (setup_of (plan_of self.now)) at.slot result (view seat.old) }
        ensures step { Makes (address_of_meta self.now at.slot) 0 0 result seat.old seat.new }
        ensures event { IsEvent self.now (look_done at.slot result (view seat.old))
            seat.old seat.new }
    {
        self.load::<Brand, _>(seat, self.head_address(at, META), at.slot)
    }
}
