//! How a caller wears an entry out.
ghost use Rattle.std.specs.Prelude.{◌≡◌, ◌<◌};
ghost use Rattle.hcc_rule_tests.specs.Benches.{IsReady};
ghost use Rattle.hcc_rule.specs.Seats.{view};

use super::caller::{Caller, NAME};
use hcc_rule::SlotAt;
use hcc_word::layout::{INVISIBLE, NEAR};
use hcc_word::{releases, state};
use std::process::Abort;

impl Caller<'_> {
    /// Uses the entry of a slot three times at once, so often.
    pub(super) fn wear(&mut self, rt: &impl Abort, slot: u32, times: u32)
        requires ready { IsReady (view self.old.seat) }
        requires slot { slot < 8 }
        ensures same { self.new.table ≡ self.old.table }
        ensures ready { IsReady (view self.new.seat) }
    {
        for _ in 0..times {
            self.use_often(rt, slot);
        }
    }

    /// Uses the entry of a slot three times at once.
    fn use_often(&mut self, rt: &impl Abort, slot: u32)
        requires ready { IsReady (view self.old.seat) }
        requires slot { slot < 8 }
        ensures same { self.new.table ≡ self.old.table }
        ensures ready { IsReady (view self.new.seat) }
    {
        let data = self.table.data_of(slot);
        let at = SlotAt { slot, data };
        let seen = self.table.look_at(&mut self.seat, at);
        assert!(rt; state(seen) >= INVISIBLE, "slot {slot} has no entry");
        let found = self.table.acquire_at(&mut self.seat, at, 3, NAME);
        assert!(rt; state(found) >= INVISIBLE, "slot {slot} lost its entry");
        assert!(rt; releases(found) < NEAR, "slot {slot} is near its end");
        self.table.spend_at(&mut self.seat, at, 3, NAME);
    }
}
