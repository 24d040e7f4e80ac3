//! Loads of a client that reads an entry without a reference on it: it may be freed meanwhile, and
//! the client sees that.
//!
//! A stamp word never stands in a slot twice. So if the client looked at the slot and found an
//! entry, and then finds the slot's stamp word (`glimpse_at`), twice a visible meta word
//! (`glance_at`), and the same stamp word again (`recheck_at`), one entry stood there from the
//! first glance to the last, and what it loaded between them (`peek_at`) are this entry's words.
ghost use Rattle.std.specs.Prelude.{◌≡◌, ◌≢◌, ◌+◌, ◌<◌, List, Option, Some, IfSome, IsSomeAnd};
ghost use Rattle.hcc_core.specs.declared.event.Event.{Event};
ghost use Rattle.hcc_core.specs.declared.slot.Stamp.{Stamp};
ghost use Rattle.hcc_core.specs.Runs.{StandsBetween, entry_at};
ghost use Rattle.hcc_rule.specs.declared.layout.TheConstants.{PAYLOAD, STAMP};
ghost use Rattle.hcc_rule.specs.declared.view.Record.{Record};
ghost use Rattle.hcc_rule.specs.declared.view.Stood.TheVariants.{Another};
ghost use Rattle.hcc_rule.specs.Callers.{IsEvent, IsSeatAt, IsSlotAt, plan_of, world_at};
ghost use Rattle.hcc_rule.specs.Addresses.{address_of_data, address_of_meta};
ghost use Rattle.hcc_rule.specs.Events.{peek_done};
ghost use Rattle.hcc_rule.specs.Seats.{IsSameSeat, Makes, view};
ghost use Rattle.hcc_rule.specs.ToldGlimpses.{Glanced, IsRightEntry, after_glimpse};
ghost use Rattle.hcc_rule.specs.ToldOwners.{IsDataWord};
ghost use Rattle.hcc_rule.specs.Views.{Each};

use crate::addresses::SlotAt;
use crate::key::Tag;
use crate::layout::{META, STAMP};
use crate::table::{RuleSeat, RuleTable};
use std::alloc::Allocator;
use std::marker::Brand;

impl<T: Tag, A: Allocator> RuleTable<T, A> {
    /// Loads the stamp word of a slot at which the client looked, and found an entry there.
    ///
    /// It allocates nothing. It costs one load.
    pub fn glimpse_at(&self, seat: &mut RuleSeat<T>, at: SlotAt) -> u64
        requires seat { IsSeatAt self.now seat.old }
        requires at { IsSlotAt self.now at }
        requires looked { (view seat.old).work.looked ≡ Some at.slot }
        ensures seat { IsSameSeat seat.old seat.new }
        ensures view { view seat.new ≡ after_glimpse at.slot result (view seat.old) }
        ensures step { Makes (address_of_data self.now at.slot STAMP) 0 0 result seat.old seat.new }
        ensures event { (stamp : Option Stamp)
            × IsEvent self.now (peek_done at.slot stamp (view seat.old)) seat.old seat.new }
    {
        let address = self.data_address(at, STAMP);
        self.load::<Brand, _>(seat, address, at.slot)
    }

    /// Loads the meta word of the slot whose stamp word the client loaded last. Where it is
    /// visible, an entry is shown there, which the client didn't see dead; the view tells whether
    /// each entry that was found so is this one, and has that stamp word. An entry that stands
    /// there is as an insertion made it, and if it stands there later, it does so all along.
    ///
    /// It allocates nothing. It costs one load.
    pub fn glance_at(&self, seat: &mut RuleSeat<T>, at: SlotAt) -> u64
        requires seat { IsSeatAt self.now seat.old }
        requires at { IsSlotAt self.now at }
        requires glimpse { IsSomeAnd (view seat.old).glimpse (λ g. g.slot ≡ at.slot) }
        ensures seat { IsSameSeat seat.old seat.new }
        ensures step { Makes (address_of_meta self.now at.slot) 0 0 result seat.old seat.new }
        ensures event { (stamp : Option Stamp)
            × IfSome (view seat.old).glimpse
            (λ g. Glanced result stamp g (view seat.old) (view seat.new))
            × IsEvent self.now (peek_done at.slot stamp (view seat.old)) seat.old seat.new }
        ensures right { IfSome (entry_at (world_at self.now seat.new) at.slot)
            (IsRightEntry T.fits (plan_of self.now).tag self.now.geometry.room) }
        ensures between { (events : List Event)
            → StandsBetween (world_at self.now seat.new) events }
    {
        self.load::<Brand, _>(seat, self.head_address(at, META), at.slot)
    }

    /// Loads the stamp word again. It is another one, if another entry was found there since.
    ///
    /// It allocates nothing. It costs one load.
    pub fn recheck_at(&self, seat: &mut RuleSeat<T>, at: SlotAt) -> u64
        requires seat { IsSeatAt self.now seat.old }
        requires at { IsSlotAt self.now at }
        requires glimpse { IsSomeAnd (view seat.old).glimpse (λ g. g.slot ≡ at.slot) }
        ensures seat { IsSameSeat seat.old seat.new }
        ensures view { view seat.new ≡ view seat.old }
        ensures apart { IfSome (view seat.old).glimpse
            (λ g. g.stood ≡ Another → result ≢ g.word) }
        ensures step { Makes (address_of_data self.now at.slot STAMP) 0 0 result seat.old seat.new }
        ensures event { (stamp : Option Stamp)
            × IsEvent self.now (peek_done at.slot stamp (view seat.old)) seat.old seat.new }
    {
        self.load::<Brand, _>(seat, self.data_address(at, STAMP), at.slot)
    }

    /// Loads a data word of a slot on which the client may hold no reference. Where an entry stands
    /// in the slot at that moment, it is that entry's: of the key, the charge, the length and the
    /// value; so it is of the entry that the client holds there, if it holds one. Of the word that
    /// has the maker's serial nothing is said.
    ///
    /// It allocates nothing. It costs one load.
    pub fn peek_at(&self, seat: &mut RuleSeat<T>, at: SlotAt, index: usize) -> u64
        requires seat { IsSeatAt self.now seat.old }
        requires at { IsSlotAt self.now at }
        requires within { index < PAYLOAD + self.now.geometry.room }
        ensures seat { IsSameSeat seat.old seat.new }
        ensures view { view seat.new ≡ view seat.old }
        ensures word { IfSome (entry_at (world_at self.now seat.new) at.slot)
            (λ entry. IsDataWord entry index result) }
        ensures held { Each (λ (r : Record). r.slot ≡ at.slot → IsDataWord r.entry index result)
            (view seat.old).records }
        ensures step { Makes (address_of_data self.now at.slot index) 0 0 result seat.old seat.new }
        ensures event { (stamp : Option Stamp)
            × IsEvent self.now (peek_done at.slot stamp (view seat.old)) seat.old seat.new }
    {
        self.load::<Brand, _>(seat, self.data_address(at, index), (at.slot, index))
    }
}
