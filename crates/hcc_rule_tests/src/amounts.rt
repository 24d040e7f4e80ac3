//! Amounts that a worker asks for and gives back.
ghost use Rattle.std.specs.Prelude.{◌≡◌, ◌<◌};
ghost use Rattle.hcc_rule_tests.specs.Benches.{IsReady};
ghost use Rattle.hcc_rule.specs.Seats.{view};

use super::worker::{LIMIT, NAME, Worker};
use hcc_rule::SlotAt;
use std::process::Abort;

impl Worker<'_> {
    /// An insertion that is given up: the occupancy and the usage before, the slot's count while it
    /// is passed and after, and the usage and the occupancy at most.
    pub(super) fn give_up(&mut self, rt: &impl Abort, slot: u32, charge: u32) -> [u64; 6]
        requires ready { IsReady (view self.old.seat) }
        requires slot { slot < 8 }
        requires some { 0 < charge }
        ensures same { (self.new.table ≡ self.old.table) × (self.new.client ≡ self.old.client)
            × (self.new.shown ≡ self.old.shown)
            × ((view self.new.seat).others ≡ (view self.old.seat).others) }
        ensures ready { IsReady (view self.new.seat) }
    {
        let occupancy = self.table.enter(&mut self.seat);
        assert!(rt; occupancy < LIMIT, "the table is full");
        let usage = self.table.charge(&mut self.seat, charge);
        let data = self.table.data_of(slot);
        let at = SlotAt { slot, data };
        self.table.pass_at(&mut self.seat, at);
        let passed = self.table.count_at(&mut self.seat, at);
        self.table.unpass(&mut self.seat, slot);
        let left = self.table.count_at(&mut self.seat, at);
        let charged = self.table.usage(&mut self.seat);
        let entered = self.table.occupancy(&mut self.seat);
        self.table.waive(&mut self.seat, charge as u64);
        self.table.quit(&mut self.seat, 1);
        [occupancy, usage, passed, left, charged, entered]
    }

    /// A standalone entry: the usage before it and with it, and what stands with it and after it.
    pub(super) fn stand(&mut self, charge: u32) -> [u64; 4]
        requires ready { IsReady (view self.old.seat) }
        requires some { 0 < charge }
        ensures same { (self.new.table ≡ self.old.table) × (self.new.client ≡ self.old.client)
            × (self.new.shown ≡ self.old.shown)
            × ((view self.new.seat).others ≡ (view self.old.seat).others) }
        ensures ready { IsReady (view self.new.seat) }
    {
        let usage = self.table.charge(&mut self.seat, charge);
        self.table.stand(&mut self.seat, NAME, charge);
        let charged = self.table.usage(&mut self.seat);
        let standing = self.table.standing(&mut self.seat);
        self.table.fall(&mut self.seat, NAME, charge as u64);
        let fallen = self.table.standing(&mut self.seat);
        self.table.settle(&mut self.seat, charge as u64);
        [usage, charged, standing, fallen]
    }

    /// Gives an insertion up, has an entry that stands alone, turns the hand twice and loads what
    /// all clients have, so often.
    pub(super) fn come_and_go(&mut self, rt: &impl Abort, times: u32)
        requires ready { IsReady (view self.old.seat) }
        ensures same { (self.new.table ≡ self.old.table) × (self.new.client ≡ self.old.client)
            × (self.new.shown ≡ self.old.shown)
            × ((view self.new.seat).others ≡ (view self.old.seat).others) }
        ensures ready { IsReady (view self.new.seat) }
    {
        for _ in 0..times {
            self.give_up(rt, 4, 50);
            self.stand(70);
            self.turn_twice();
            self.totals();
        }
    }
}
