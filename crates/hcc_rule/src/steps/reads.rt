//! Loads of data words.
ghost use Rattle.std.specs.Prelude.{◌≡◌, ◌+◌, ◌<◌, Some, IfSome, IsSomeAnd, length, slice_index};
ghost use Rattle.hcc_core.specs.Lawful.{owned_slot};
ghost use Rattle.hcc_rule.specs.declared.layout.TheConstants.{PAYLOAD};
ghost use Rattle.hcc_rule.specs.Callers.{HasOn, IsEvent, IsNoEvent, IsSeatAt, IsSlotAt};
ghost use Rattle.hcc_rule.specs.Addresses.{address_of_data};
ghost use Rattle.hcc_rule.specs.Events.{read_done};
ghost use Rattle.hcc_rule.specs.Seats.{IsSameSeat, Makes, view};
ghost use Rattle.hcc_rule.specs.ToldOwners.{IsDataWord, after_read};
ghost use Rattle.hcc_rule.specs.Records.{record_in};

use crate::addresses::SlotAt;
use crate::key::Tag;
use crate::table::{RuleSeat, RuleTable};
use std::alloc::Allocator;
use std::marker::Brand;

impl<T: Tag, A: Allocator> RuleTable<T, A> {
    /// Loads a data word of the entry that the record of a name is on: of the key, the charge, the
    /// length and the value. Of the word that has the maker's serial nothing is said.
    ///
    /// The record is of that slot. Once the second key word of an entry was read that was got as
    /// Shown, its key joins the met keys. It allocates nothing. It costs one load.
    pub fn read_at(&self, seat: &mut RuleSeat<T>, at: SlotAt, index: usize, name: u64) -> u64
        requires seat { IsSeatAt self.now seat.old }
        requires at { IsSlotAt self.now at }
        requires within { index < PAYLOAD + self.now.geometry.room }
        requires holds { HasOn at.slot name (view seat.old) }
        ensures seat { IsSameSeat seat.old seat.new }
        ensures view { view seat.new ≡ after_read name index (view seat.old) }
        ensures word { IfSome (record_in name (view seat.old).records)
            (λ r. IsDataWord r.entry index result) }
        ensures step { Makes (address_of_data self.now at.slot index) 0 0 result seat.old seat.new }
        ensures event { IfSome (record_in name (view seat.old).records)
            (λ r. IsEvent self.now (read_done name r.entry (view seat.old)) seat.old seat.new) }
    {
        self.load::<Brand, _>(seat, self.data_address(at, index), (name, index))
    }

    /// Loads a data word of the slot that the client owns: one that it wrote, or one of the entry
    /// that it took to free.
    ///
    /// It allocates nothing. It costs one load.
    pub fn read_own_at(&self, seat: &mut RuleSeat<T>, at: SlotAt, index: usize) -> u64
        requires seat { IsSeatAt self.now seat.old }
        requires at { IsSlotAt self.now at }
        requires within { index < PAYLOAD + self.now.geometry.room }
        requires owned { owned_slot (view seat.old).work.owned ≡ Some at.slot }
        ensures seat { IsSameSeat seat.old seat.new }
        ensures view { view seat.new ≡ view seat.old }
        ensures word { index < length (view seat.old).written
            → result ≡ slice_index (view seat.old).written index }
        ensures step { Makes (address_of_data self.now at.slot index) 0 0 result seat.old seat.new }
        ensures event { IsNoEvent seat.old seat.new }
    {
        self.load::<Brand, _>(seat, self.data_address(at, index), index)
    }
}
