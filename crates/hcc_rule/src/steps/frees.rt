//! The compare-exchange that takes an entry to free it.
ghost use Rattle.std.specs.Prelude.{◌≡◌, ◌+◌, ◌-◌, ◌^◌, ◌≤◌, [], true};
ghost use Rattle.hcc_word.specs.declared.layout.TheConstants.{CONSTRUCTION_WORD};
ghost use Rattle.hcc_word.specs.Word.{is_shareable};
ghost use Rattle.hcc_core.specs.World.{owns_nothing};
ghost use Rattle.hcc_rule.specs.Callers.{IsEvent, IsSeatAt, IsSlotAt};
ghost use Rattle.hcc_rule.specs.Addresses.{address_of_meta};
ghost use Rattle.hcc_rule.specs.Events.{free_done};
ghost use Rattle.hcc_rule.specs.Seats.{IsSameSeat, Makes, view};
ghost use Rattle.hcc_rule.specs.ToldOwners.{IsLast, Freed};

use crate::addresses::SlotAt;
use crate::key::Tag;
use crate::layout::META;
use crate::table::{RuleSeat, RuleTable};
use hcc_word::layout::CONSTRUCTION_WORD;
use std::alloc::Allocator;
use std::marker::Brand;

impl<T: Tag, A: Allocator> RuleTable<T, A> {
    /// Tries to take the entry of a slot to free it: `old` is its word, with no reference, or with
    /// the client's own last one, of weight 1, which has the name. It returns the slot's meta word
    /// as it was before. Where it is `old`, the entry is gone, with that reference: the client owns
    /// the slot, has its trail to take back and its charge and its place to settle, and knows its
    /// words. Else the step was a look.
    ///
    /// The client owns no slot, has an empty trail, and has freed at most `2^49 - 2^32` that isn't
    /// settled. It allocates nothing. It costs one compare-exchange.
    pub fn free_at(&self, seat: &mut RuleSeat<T>, at: SlotAt, old: u64, name: Option<u64>) -> u64
        requires seat { IsSeatAt self.now seat.old }
        requires at { IsSlotAt self.now at }
        requires entry { is_shareable old ≡ true }
        requires last { IsLast at.slot old name (view seat.old) }
        requires idle { (owns_nothing (view seat.old).work.owned ≡ true)
            × ((view seat.old).work.trail ≡ []) }
        requires space { (view seat.old).work.freed + 2 ^ 32 ≤ 2 ^ 49 }
        ensures seat { IsSameSeat seat.old seat.new }
        ensures view { Freed T.fits self.now.geometry.slots self.now.geometry.room at.slot old
            result name (view seat.old) (view seat.new) }
        ensures step { Makes (address_of_meta self.now at.slot) old CONSTRUCTION_WORD result
            seat.old seat.new }
        ensures event { IsEvent self.now (free_done at.slot name old result
            ((view seat.new).work.freed - (view seat.old).work.freed) (view seat.old))
            seat.old seat.new }
    {
        let address = self.head_address(at, META);
        self.compare_exchange::<Brand, _>(seat, address, old, CONSTRUCTION_WORD, (at.slot, name))
    }
}
