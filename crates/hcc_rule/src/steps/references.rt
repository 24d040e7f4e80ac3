//! References: a client acquires them, gives them back, or releases them as uses.
ghost use Rattle.std.specs.Prelude.{◌≡◌, ◌+◌, ◌*◌, ◌<◌, ◌≤◌, true, None, IsSomeAnd};
ghost use Rattle.hcc_word.specs.declared.layout.TheConstants.{ONE_RELEASE};
ghost use Rattle.hcc_word.specs.Word.{refs_of, is_shareable};
ghost use Rattle.hcc_core.specs.declared.limits.TheConstants.{MOST_WEIGHT, REFERENCES_PER_CLIENT};
ghost use Rattle.hcc_rule.specs.Callers.{IsEvent, IsSeatAt, IsSlotAt};
ghost use Rattle.hcc_rule.specs.Addresses.{address_of_meta};
ghost use Rattle.hcc_rule.specs.Events.{acquire_done, give_done, spend_done};
ghost use Rattle.hcc_rule.specs.Seats.{IsSameSeat, Makes, view};
ghost use Rattle.hcc_rule.specs.Views.{load_of};
ghost use Rattle.hcc_rule.specs.Records.{record_in};
ghost use Rattle.hcc_rule.specs.ToldReferences.{may_reach, Acquired, after_give};

use crate::addresses::SlotAt;
use crate::key::Tag;
use crate::layout::META;
use crate::table::{RuleSeat, RuleTable};
use hcc_word::layout::ONE_RELEASE;
use std::alloc::Allocator;
use std::marker::Brand;

impl<T: Tag, A: Allocator> RuleTable<T, A> {
    /// Acquires references on a slot, under a name that the client doesn't hold: their weight, 1 to
    /// 3, is added to the slot's meta word, which is returned as it was before. The client looked
    /// at the slot, or holds a reference there, and all its references weigh at most
    /// `REFERENCES_PER_CLIENT` then. The look is spent.
    ///
    /// Where the word that is found is that of an entry, the client has a record of the references,
    /// behind its others. They count where the word is counting. The entry's value is right for its
    /// key and fits the slot's room. A visible one is none that the client saw dead, a hidden one
    /// it has seen dead now. It is the entry of each record that the client had there. Where the
    /// word is no entry's, the acquires stray and no record is made; the client holds nothing there
    /// then.
    ///
    /// It allocates nothing. It costs one atomic add.
    pub fn acquire_at(&self, seat: &mut RuleSeat<T>, at: SlotAt, weight: u32, name: u64) -> u64
        requires seat { IsSeatAt self.now seat.old }
        requires at { IsSlotAt self.now at }
        requires weight { (0 < weight) × (weight ≤ MOST_WEIGHT) }
        requires fresh { record_in name (view seat.old).records ≡ None }
        requires reach { may_reach at.slot (view seat.old) ≡ true }
        requires load { load_of (view seat.old).records + weight ≤ REFERENCES_PER_CLIENT }
        ensures seat { IsSameSeat seat.old seat.new }
        ensures view { Acquired T.fits self.now.geometry.room at.slot weight name result
            (view seat.old) (view seat.new) }
        ensures step { Makes (address_of_meta self.now at.slot) weight 0 result seat.old seat.new }
        ensures event { IsEvent self.now (acquire_done at.slot weight name result (view seat.old))
            seat.old seat.new }
    {
        let address = self.head_address(at, META);
        self.fetch_add::<Brand, _>(seat, address, weight as u64, (at.slot, name))
    }

    /// Gives the references of this name back: their weight is subtracted from the acquires of the
    /// slot's meta word, which is returned as it was before. The client needs a record of that
    /// name, on this slot and of this weight, and it goes. Where the entry is hidden, the client
    /// has seen it dead.
    ///
    /// The word that is found is that of an entry, with at least these references. It allocates
    /// nothing. It costs one atomic subtraction.
    pub fn give_at(&self, seat: &mut RuleSeat<T>, at: SlotAt, weight: u32, name: u64) -> u64
        requires seat { IsSeatAt self.now seat.old }
        requires at { IsSlotAt self.now at }
        requires holds { IsSomeAnd (record_in name (view seat.old).records)
            (λ r. (r.slot ≡ at.slot) × (r.weight ≡ weight)) }
        ensures seat { IsSameSeat seat.old seat.new }
        ensures view { view seat.new ≡ after_give at.slot name result (view seat.old) }
        ensures entry { is_shareable result ≡ true }
        ensures references { weight ≤ refs_of result }
        ensures step { Makes (address_of_meta self.now at.slot) weight 0 result seat.old seat.new }
        ensures event { IsEvent self.now (give_done weight name result (view seat.old))
            seat.old seat.new }
    {
        let address = self.head_address(at, META);
        self.fetch_sub::<Brand, _>(seat, address, weight as u64, (at.slot, name))
    }

    /// Releases the references of this name as uses: their weight is added to the releases of the
    /// slot's meta word, which is returned as it was before. The client needs a record of that
    /// name, on this slot, of this weight and counting, and it goes. Where the entry is hidden, the
    /// client has seen it dead.
    ///
    /// The word that is found is that of an entry, with at least these references. It allocates
    /// nothing. It costs one atomic add.
    pub fn spend_at(&self, seat: &mut RuleSeat<T>, at: SlotAt, weight: u32, name: u64) -> u64
        requires seat { IsSeatAt self.now seat.old }
        requires at { IsSlotAt self.now at }
        requires holds { IsSomeAnd (record_in name (view seat.old).records)
            (λ r. (r.slot ≡ at.slot) × (r.weight ≡ weight) × (r.counting ≡ true)) }
        ensures seat { IsSameSeat seat.old seat.new }
        ensures view { view seat.new ≡ after_give at.slot name result (view seat.old) }
        ensures entry { is_shareable result ≡ true }
        ensures references { weight ≤ refs_of result }
        ensures step { Makes (address_of_meta self.now at.slot) (weight * ONE_RELEASE) 0 result
            seat.old seat.new }
        ensures event { IsEvent self.now (spend_done weight name result (view seat.old))
            seat.old seat.new }
    {
        self.fetch_add::<Brand, _>(
            seat,
            self.head_address(at, META),
            weight as u64 * ONE_RELEASE,
            (at.slot, name),
        )
    }
}
