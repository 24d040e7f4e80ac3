//! Steps on the counters of a meta word by compare-exchange: the clock's, and corrections.
ghost use Rattle.std.specs.Prelude.{◌≡◌, ◌<◌, false, IsSomeAnd};
ghost use Rattle.hcc_word.specs.Changes.{IsClockable, clocked_word, IsCorrectable, corrected_word};
ghost use Rattle.hcc_rule.specs.Callers.{IsEvent, IsSeatAt, IsSlotAt};
ghost use Rattle.hcc_rule.specs.Addresses.{address_of_meta};
ghost use Rattle.hcc_rule.specs.Events.{clock_done, correct_done};
ghost use Rattle.hcc_rule.specs.Seats.{IsSameSeat, Makes, view};
ghost use Rattle.hcc_rule.specs.Records.{record_in};
ghost use Rattle.hcc_rule.specs.ToldReferences.{after_clock, after_correct};

use crate::addresses::SlotAt;
use crate::key::Tag;
use crate::layout::META;
use crate::table::{RuleSeat, RuleTable};
use std::alloc::Allocator;
use std::marker::Brand;

impl<T: Tag, A: Allocator> RuleTable<T, A> {
    /// Tries to count a visible entry with no references and a countdown above 0 down by one, and
    /// to 2 at most: `old` is the word of such an entry, and `new` what the clock puts in its
    /// place. It returns the slot's meta word as it was before. Where it is `old`, the
    /// compare-exchange was made, and the client knows what it knew. Else the step was a look.
    ///
    /// It allocates nothing. It costs one compare-exchange.
    pub fn clock_at(&self, seat: &mut RuleSeat<T>, at: SlotAt, old: u64, new: u64) -> u64
        requires seat { IsSeatAt self.now seat.old }
        requires at { IsSlotAt self.now at }
        requires clockable { IsClockable old }
        requires clocked { new ≡ clocked_word old }
        ensures seat { IsSameSeat seat.old seat.new }
        ensures view { view seat.new ≡ after_clock at.slot old result (view seat.old) }
        ensures step { Makes (address_of_meta self.now at.slot) old new result seat.old seat.new }
        ensures event { IsEvent self.now (clock_done at.slot old new result (view seat.old))
            seat.old seat.new }
    {
        let address = self.head_address(at, META);
        self.compare_exchange::<Brand, _>(seat, address, old, new, at.slot)
    }

    /// Tries to subtract 2^29 from both counters of a slot near its end, on which the client has a
    /// record of this name that doesn't count: `old` is a word near its end, and `new` what a
    /// correction puts in its place. It returns the slot's meta word as it was before. Where it is
    /// `old`, the compare-exchange was made, and where the entry is hidden, the client has seen it
    /// dead. Else the step was a look.
    ///
    /// It allocates nothing. It costs one compare-exchange.
    pub fn correct(&self, seat: &mut RuleSeat<T>, slot: u32, name: u64, old: u64, new: u64) -> u64
        requires seat { IsSeatAt self.now seat.old }
        requires slot { slot < self.now.geometry.slots }
        requires holds { IsSomeAnd (record_in name (view seat.old).records)
            (λ r. (r.slot ≡ slot) × (r.counting ≡ false)) }
        requires correctable { IsCorrectable old }
        requires corrected { new ≡ corrected_word old }
        ensures seat { IsSameSeat seat.old seat.new }
        ensures view { view seat.new ≡ after_correct slot old result (view seat.old) }
        ensures step { Makes (address_of_meta self.now slot) old new result seat.old seat.new }
        ensures event { IsEvent self.now (correct_done slot name old result (view seat.old))
            seat.old seat.new }
    {
        self.compare_exchange::<Brand, _>(seat, self.address(slot, META), old, new, (slot, name))
    }
}
