//! A client at a table. Between the calls of a worker its client has nothing in hand and holds no
//! reference. Each call makes a few single steps and answers the words that they found.
ghost use Rattle.std.specs.Prelude.{◌≡◌, ◌<◌, ◌∷◌, ◌++◌, Some, length, true};
ghost use Rattle.hcc_word.specs.Word.{is_shareable};
ghost use Rattle.hcc_rule.specs.Callers.{plan_of, IsSeatAt};
ghost use Rattle.hcc_rule_tests.specs.Benches.{IsBench, IsReady, above_prop};
ghost use Rattle.hcc_rule.specs.Passing.{as_other};
ghost use Rattle.hcc_rule.specs.Rule.{IsAbove};
ghost use Rattle.hcc_rule.specs.Seats.{view};

use crate::any::AnyBytes;
use hcc_rule::{RuleSeat, RuleTable, SlotAt};
use std::alloc::Global;

/// A table for tests: of 8 slots, 2 payload words for each, and not strict.
pub(super) type Bench = RuleTable<AnyBytes, Global>;

/// The places that such a table grants.
pub(super) const LIMIT: u64 = 6;

/// The value of each entry, and its payload words.
pub(super) const VALUE: [u8; 16] = [0, 1, 2, 3, 4, 5, 6, 7, 8, 9, 10, 11, 12, 13, 14, 15];

pub(super) const PAYLOAD_WORDS: [u64; 2] = [0x0706_0504_0302_0100, 0x0f0e_0d0c_0b0a_0908];

/// The name of a reference that is held within a call.
pub(super) const NAME: u64 = 7;

/// A seat of a table.
#[derive(Drop)]
pub(super) struct Worker<'a> {
    pub(super) table: &'a Bench,
    pub(super) seat: RuleSeat<AnyBytes>,
    pub(super) client: u32,
    /// How many entries the client showed. It is above their serials.
    pub(super) shown: u64,
    ghost bench: { IsBench (plan_of table.now) },
    ghost seated: { IsSeatAt table.now seat },
    ghost numbered: { (view seat).client ≡ client },
    ghost counted: { length (view seat).made ≡ shown },
    ghost above: { IsAbove shown (view seat).made } by { above_prop shown (view seat).made },
}

impl Worker<'_> {
    /// A slot's word.
    pub(super) fn look(&mut self, slot: u32) -> u64
        requires ready { IsReady (view self.old.seat) }
        requires slot { slot < 8 }
        ensures same { (self.new.table ≡ self.old.table) × (self.new.client ≡ self.old.client)
            × (self.new.shown ≡ self.old.shown)
            × ((view self.new.seat).others ≡ (view self.old.seat).others) }
        ensures ready { IsReady (view self.new.seat) }
        ensures looked { is_shareable result ≡ true
            → (view self.new.seat).work.looked ≡ Some slot }
    {
        let data = self.table.data_of(slot);
        let at = SlotAt { slot, data };
        self.table.look_at(&mut self.seat, at)
    }

    /// How often a slot stands in trails.
    pub(super) fn count(&mut self, slot: u32) -> u64
        requires ready { IsReady (view self.old.seat) }
        requires slot { slot < 8 }
        ensures same { (self.new.table ≡ self.old.table) × (self.new.client ≡ self.old.client)
            × (self.new.shown ≡ self.old.shown)
            × ((view self.new.seat).others ≡ (view self.old.seat).others) }
        ensures ready { IsReady (view self.new.seat) }
    {
        let data = self.table.data_of(slot);
        let at = SlotAt { slot, data };
        self.table.count_at(&mut self.seat, at)
    }

    /// The usage, the occupancy and what stands.
    pub(super) fn totals(&mut self) -> [u64; 3]
        requires ready { IsReady (view self.old.seat) }
        ensures same { (self.new.table ≡ self.old.table) × (self.new.client ≡ self.old.client)
            × (self.new.shown ≡ self.old.shown)
            × ((view self.new.seat).others ≡ (view self.old.seat).others) }
        ensures ready { IsReady (view self.new.seat) }
    {
        let usage = self.table.usage(&mut self.seat);
        let occupancy = self.table.occupancy(&mut self.seat);
        [usage, occupancy, self.table.standing(&mut self.seat)]
    }

    /// Where the hand was at each of two turns.
    pub(super) fn turn_twice(&mut self) -> [u64; 2]
        requires ready { IsReady (view self.old.seat) }
        ensures same { (self.new.table ≡ self.old.table) × (self.new.client ≡ self.old.client)
            × (self.new.shown ≡ self.old.shown)
            × ((view self.new.seat).others ≡ (view self.old.seat).others) }
        ensures ready { IsReady (view self.new.seat) }
    {
        let first = self.table.turn(&mut self.seat);
        [first, self.table.turn(&mut self.seat)]
    }

    /// Ends another client of the table.
    pub(super) fn end(&mut self, other: Worker<'_>)
        requires ready { IsReady (view self.old.seat) }
        requires other { IsReady (view other.seat) }
        requires table { other.table.now ≡ self.old.table.now }
        ensures same { (self.new.table ≡ self.old.table) × (self.new.client ≡ self.old.client)
            × (self.new.shown ≡ self.old.shown) }
        ensures ready { IsReady (view self.new.seat) }
        ensures others { (view self.new.seat).others
            ≡ (view self.old.seat).others
            ++ as_other (view other.entry.seat) ∷ (view other.entry.seat).others }
    {
        self.table.join(&mut self.seat, other.seat);
    }
}
