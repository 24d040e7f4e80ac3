//! Steps on the bits of a meta word: an entry is hidden, and marked as hit.
ghost use Rattle.std.specs.Prelude.{◌≡◌, ◌<◌, true, IsSomeAnd};
ghost use Rattle.hcc_word.specs.declared.layout.TheConstants.{HIDING_MASK, HIT_BIT};
ghost use Rattle.hcc_word.specs.Word.{is_shareable};
ghost use Rattle.hcc_rule.specs.Callers.{IsEvent, IsSeatAt};
ghost use Rattle.hcc_rule.specs.Addresses.{address_of_meta};
ghost use Rattle.hcc_rule.specs.Events.{hide_done, mark_done};
ghost use Rattle.hcc_rule.specs.Seats.{IsSameSeat, Makes, view};
ghost use Rattle.hcc_rule.specs.Looked.{noticing};
ghost use Rattle.hcc_rule.specs.Records.{record_in};
ghost use Rattle.hcc_rule.specs.ToldReferences.{after_hide};

use crate::key::Tag;
use crate::layout::META;
use crate::table::{RuleSeat, RuleTable};
use hcc_word::layout::{HIDING_MASK, HIT_BIT};
use std::alloc::Allocator;
use std::marker::Brand;

impl<T: Tag, A: Allocator> RuleTable<T, A> {
    /// Hides the entry on which the client has a record of this name, on this slot: no look-up
    /// finds it from then on. It returns the slot's meta word as it was before, that of an entry.
    /// The client has seen the entry dead, and where the word was visible, the entry's key joins
    /// the keys that it hid.
    ///
    /// It allocates nothing. It costs one atomic and.
    pub fn hide(&self, seat: &mut RuleSeat<T>, slot: u32, name: u64) -> u64
        requires seat { IsSeatAt self.now seat.old }
        requires slot { slot < self.now.geometry.slots }
        requires holds { IsSomeAnd (record_in name (view seat.old).records) (λ r. r.slot ≡ slot) }
        ensures seat { IsSameSeat seat.old seat.new }
        ensures view { view seat.new ≡ after_hide name result (view seat.old) }
        ensures entry { is_shareable result ≡ true }
        ensures step { Makes (address_of_meta self.now slot) HIDING_MASK 0 result
            seat.old seat.new }
        ensures event { IsEvent self.now (hide_done name result (view seat.old))
            seat.old seat.new }
    {
        self.fetch_and::<Brand, _>(seat, self.address(slot, META), HIDING_MASK, name)
    }

    /// Sets the hit bit of the entry on which the client has a record of this name, on this slot.
    /// It returns the slot's meta word as it was before, that of an entry. Where the entry is
    /// hidden, the client has seen it dead.
    ///
    /// It allocates nothing. It costs one atomic or.
    pub fn mark(&self, seat: &mut RuleSeat<T>, slot: u32, name: u64) -> u64
        requires seat { IsSeatAt self.now seat.old }
        requires slot { slot < self.now.geometry.slots }
        requires holds { IsSomeAnd (record_in name (view seat.old).records) (λ r. r.slot ≡ slot) }
        ensures seat { IsSameSeat seat.old seat.new }
        ensures view { view seat.new ≡ noticing slot result (view seat.old) }
        ensures entry { is_shareable result ≡ true }
        ensures step { Makes (address_of_meta self.now slot) HIT_BIT 0 result seat.old seat.new }
        ensures event { IsEvent self.now (mark_done name (view seat.old))
            seat.old seat.new }
    {
        self.fetch_or::<Brand, _>(seat, self.address(slot, META), HIT_BIT, (slot, name))
    }
}
