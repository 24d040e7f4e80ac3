//! How a worker wears an entry out, and takes its counters back.
ghost use Rattle.std.specs.Prelude.{◌≡◌, ◌<◌};
ghost use Rattle.hcc_rule_tests.specs.Benches.{IsReady};
ghost use Rattle.hcc_rule.specs.Seats.{view};

use super::hired::{bench, hired};
use super::inserts::FIRST;
use super::worker::{NAME, Worker};
use hcc_rule::SlotAt;
use hcc_word::layout::{INVISIBLE, NEAR};
use hcc_word::{corrected, releases, state};
use std::alloc::AllocError;
use std::process::Abort;

impl Worker<'_> {
    /// Uses the entry of a slot three times at once, so often.
    fn wear(&mut self, rt: &impl Abort, slot: u32, times: u32)
        requires ready { IsReady (view self.old.seat) }
        requires slot { slot < 8 }
        ensures same { (self.new.table ≡ self.old.table) × (self.new.client ≡ self.old.client)
            × (self.new.shown ≡ self.old.shown)
            × ((view self.new.seat).others ≡ (view self.old.seat).others) }
        ensures ready { IsReady (view self.new.seat) }
    {
        for _ in 0..times {
            self.use_often(rt, slot);
        }
    }

    /// Uses the entry of a slot three times at once.
    fn use_often(&mut self, rt: &impl Abort, slot: u32)
        requires ready { IsReady (view self.old.seat) }
        requires slot { slot < 8 }
        ensures same { (self.new.table ≡ self.old.table) × (self.new.client ≡ self.old.client)
            × (self.new.shown ≡ self.old.shown)
            × ((view self.new.seat).others ≡ (view self.old.seat).others) }
        ensures ready { IsReady (view self.new.seat) }
    {
        self.reach(rt, slot, 3);
        let data = self.table.data_of(slot);
        let at = SlotAt { slot, data };
        self.table.spend_at(&mut self.seat, at, 3, NAME);
    }

    /// A look-up near the end of the counters, which takes them back. The words are those that the
    /// acquire and the correction found, and those after the correction and after the give.
    pub(super) fn correct(&mut self, rt: &impl Abort, slot: u32) -> [u64; 4]
        requires ready { IsReady (view self.old.seat) }
        requires slot { slot < 8 }
        ensures same { (self.new.table ≡ self.old.table) × (self.new.client ≡ self.old.client)
            × (self.new.shown ≡ self.old.shown)
            × ((view self.new.seat).others ≡ (view self.old.seat).others) }
        ensures ready { IsReady (view self.new.seat) }
    {
        let data = self.table.data_of(slot);
        let at = SlotAt { slot, data };
        let seen = self.table.look_at(&mut self.seat, at);
        assert!(rt; state(seen) >= INVISIBLE, "slot {slot} has no entry");
        let found = self.table.acquire_at(&mut self.seat, at, 1, NAME);
        assert!(rt; state(found) >= INVISIBLE, "slot {slot} lost its entry");
        assert!(rt; releases(found) >= NEAR, "slot {slot} is not near its end");
        let old = found.wrapping_add(1);
        let new = corrected(old).expect(rt, "the counters can't be taken back");
        let met = self.table.correct(&mut self.seat, slot, NAME, old, new);
        let left = self.table.look_at(&mut self.seat, at);
        self.table.give_at(&mut self.seat, at, 1, NAME);
        [found, met, left, self.table.look_at(&mut self.seat, at)]
    }
}

/// 2^29 + 4 uses are near the end: a reference got there doesn't count, and takes 2^29 from both
/// counters. The countdown of 2 and 3·178,956,972 uses are 2^29 + 6.
#[test]
fn a_correction_takes_from_both_counters(rt: HostRuntime) -> Result<(), AllocError> {
    let (table, mut seats) = bench(rt.alloc(), 1)?;
    let mut me = hired(&rt, &table, &mut seats);
    let low = me.draft(FIRST, 200, 2, None);
    assert_eq!(rt; me.insert(&rt, 1, low, None), [0, 0, 0]);
    me.wear(&rt, 1, 178_956_972);
    let near = 0xe800_0001_a000_0006;
    assert_eq!(rt;
        me.correct(&rt, 1),
        [near, near + 1, 0xe000_0001_8000_0007, 0xe000_0001_8000_0006]
    );
    Ok(())
}
