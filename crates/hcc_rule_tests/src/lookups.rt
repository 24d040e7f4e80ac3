//! How a worker looks an entry up, and counts it down.
ghost use Rattle.std.specs.Prelude.{◌≡◌, ◌<◌, ◌≤◌, [], ◌∷◌, true, Some, IsSomeAnd};
ghost use Rattle.hcc_core.specs.declared.limits.TheConstants.{MOST_WEIGHT};
ghost use Rattle.hcc_core.specs.declared.slot.Entry.{Entry};
ghost use Rattle.hcc_core.specs.Opening.{new_client};
ghost use Rattle.hcc_word.specs.Word.{is_counting};
ghost use Rattle.hcc_rule.specs.Work.{Carries};
ghost use Rattle.hcc_rule_tests.specs.Benches.{IsReady};
ghost use Rattle.hcc_rule.specs.Seats.{view};
ghost use Rattle.hcc_rule.specs.ToldReferences.{record_of};
ghost use Rattle.hcc_rule.specs.Records.{record_in};

use super::worker::{NAME, Worker};
use hcc_rule::SlotAt;
use hcc_rule::layout::{CHARGE, KEY0, KEY1, LENGTH, PAYLOAD, STAMP};
use hcc_word::layout::{INVISIBLE, NEAR};
use hcc_word::{clocked, refs, releases, state};
use std::process::Abort;

impl Worker<'_> {
    /// Looks at a slot and takes references of this weight on its entry. The words are those that
    /// both found.
    pub(super) fn reach(&mut self, rt: &impl Abort, slot: u32, weight: u32) -> (u64, u64)
        requires ready { IsReady (view self.old.seat) }
        requires slot { slot < 8 }
        requires weight { (0 < weight) × (weight ≤ MOST_WEIGHT) }
        ensures same { (self.new.table ≡ self.old.table) × (self.new.client ≡ self.old.client)
            × (self.new.shown ≡ self.old.shown)
            × ((view self.new.seat).others ≡ (view self.old.seat).others) }
        ensures holds { (entry : Entry) × Carries new_client
            (record_of slot weight NAME result.1 entry ∷ []) (view self.new.seat) }
        ensures counting { is_counting result.1 ≡ true }
    {
        let seen = self.look(slot);
        assert!(rt; state(seen) >= INVISIBLE, "slot {slot} has no entry");
        (seen, self.acquire(rt, slot, weight))
    }

    /// Takes references of this weight on the entry of the slot that it looked at. The word is that
    /// which it found.
    pub(super) fn acquire(&mut self, rt: &impl Abort, slot: u32, weight: u32) -> u64
        requires ready { IsReady (view self.old.seat) }
        requires looked { (view self.old.seat).work.looked ≡ Some slot }
        requires slot { slot < 8 }
        requires weight { (0 < weight) × (weight ≤ MOST_WEIGHT) }
        ensures same { (self.new.table ≡ self.old.table) × (self.new.client ≡ self.old.client)
            × (self.new.shown ≡ self.old.shown)
            × ((view self.new.seat).others ≡ (view self.old.seat).others) }
        ensures holds { (entry : Entry) × Carries new_client
            (record_of slot weight NAME result entry ∷ []) (view self.new.seat) }
        ensures counting { is_counting result ≡ true }
    {
        let data = self.table.data_of(slot);
        let at = SlotAt { slot, data };
        let found = self.table.acquire_at(&mut self.seat, at, weight, NAME);
        assert!(rt; state(found) >= INVISIBLE, "slot {slot} lost its entry");
        assert!(rt; releases(found) < NEAR, "slot {slot} is near its end");
        found
    }

    /// The data words of the entry that the client holds a reference on.
    fn read_all(&mut self, slot: u32) -> [u64; 7]
        requires slot { slot < 8 }
        requires holds { IsSomeAnd (record_in NAME (view self.old.seat).records)
            (λ r. r.slot ≡ slot) }
        ensures same { (self.new.table ≡ self.old.table) × (self.new.client ≡ self.old.client)
            × (self.new.shown ≡ self.old.shown)
            × ((view self.new.seat).others ≡ (view self.old.seat).others) }
        ensures view { view self.new.seat
            ≡ record (view self.old.seat) { met = (view self.new.seat).met } }
    {
        let data = self.table.data_of(slot);
        let at = SlotAt { slot, data };
        let key0 = self.table.read_at(&mut self.seat, at, KEY0, NAME);
        let key1 = self.table.read_at(&mut self.seat, at, KEY1, NAME);
        let charge = self.table.read_at(&mut self.seat, at, CHARGE, NAME);
        let stamp = self.table.read_at(&mut self.seat, at, STAMP, NAME);
        let length = self.table.read_at(&mut self.seat, at, LENGTH, NAME);
        let payload0 = self.table.read_at(&mut self.seat, at, PAYLOAD, NAME);
        let payload1 = self.table.read_at(&mut self.seat, at, PAYLOAD + 1, NAME);
        [key0, key1, charge, stamp, length, payload0, payload1]
    }

    /// Data words of the entry that stands in a slot, on which the client holds no reference.
    pub(super) fn peek(&mut self, slot: u32) -> [u64; 4]
        requires ready { IsReady (view self.old.seat) }
        requires slot { slot < 8 }
        ensures same { (self.new.table ≡ self.old.table) × (self.new.client ≡ self.old.client)
            × (self.new.shown ≡ self.old.shown)
            × ((view self.new.seat).others ≡ (view self.old.seat).others) }
        ensures ready { IsReady (view self.new.seat) }
    {
        let data = self.table.data_of(slot);
        let at = SlotAt { slot, data };
        let key = self.table.peek_at(&mut self.seat, at, KEY1);
        let length = self.table.peek_at(&mut self.seat, at, LENGTH);
        let payload0 = self.table.peek_at(&mut self.seat, at, PAYLOAD);
        let payload1 = self.table.peek_at(&mut self.seat, at, PAYLOAD + 1);
        [key, length, payload0, payload1]
    }

    /// A look-up that is a use, and that marks the entry. The words are those that the look, the
    /// acquire, the mark and the release found, and the word after them; and the data words.
    pub(super) fn hit(&mut self, rt: &impl Abort, slot: u32) -> ([u64; 5], [u64; 7])
        requires ready { IsReady (view self.old.seat) }
        requires slot { slot < 8 }
        ensures same { (self.new.table ≡ self.old.table) × (self.new.client ≡ self.old.client)
            × (self.new.shown ≡ self.old.shown)
            × ((view self.new.seat).others ≡ (view self.old.seat).others) }
        ensures ready { IsReady (view self.new.seat) }
    {
        let (seen, found) = self.reach(rt, slot, 1);
        let words = self.read_all(slot);
        let marked = self.table.mark(&mut self.seat, slot, NAME);
        let data = self.table.data_of(slot);
        let at = SlotAt { slot, data };
        let released = self.table.spend_at(&mut self.seat, at, 1, NAME);
        let left = self.table.look_at(&mut self.seat, at);
        ([seen, found, marked, released, left], words)
    }

    /// A look-up that is no use: the words of the look, the acquire and the give, and the word
    /// after them.
    pub(super) fn miss(&mut self, rt: &impl Abort, slot: u32, weight: u32) -> [u64; 4]
        requires ready { IsReady (view self.old.seat) }
        requires slot { slot < 8 }
        requires weight { (0 < weight) × (weight ≤ MOST_WEIGHT) }
        ensures same { (self.new.table ≡ self.old.table) × (self.new.client ≡ self.old.client)
            × (self.new.shown ≡ self.old.shown)
            × ((view self.new.seat).others ≡ (view self.old.seat).others) }
        ensures ready { IsReady (view self.new.seat) }
    {
        let (seen, found) = self.reach(rt, slot, weight);
        let data = self.table.data_of(slot);
        let at = SlotAt { slot, data };
        let given = self.table.give_at(&mut self.seat, at, weight, NAME);
        let left = self.table.look_at(&mut self.seat, at);
        [seen, found, given, left]
    }

    /// A try to take a slot that has an entry, with references of this weight that are released as
    /// uses.
    pub(super) fn matched(&mut self, rt: &impl Abort, slot: u32, weight: u32) -> [u64; 4]
        requires ready { IsReady (view self.old.seat) }
        requires slot { slot < 8 }
        requires weight { (0 < weight) × (weight ≤ MOST_WEIGHT) }
        ensures same { (self.new.table ≡ self.old.table) × (self.new.client ≡ self.old.client)
            × (self.new.shown ≡ self.old.shown)
            × ((view self.new.seat).others ≡ (view self.old.seat).others) }
        ensures ready { IsReady (view self.new.seat) }
    {
        let data = self.table.data_of(slot);
        let at = SlotAt { slot, data };
        let tried = self.table.occupy_at(&mut self.seat, at);
        assert!(rt; state(tried) >= INVISIBLE, "slot {slot} has no entry");
        let found = self.table.acquire_at(&mut self.seat, at, weight, NAME);
        assert!(rt; state(found) >= INVISIBLE, "slot {slot} lost its entry");
        assert!(rt; releases(found) < NEAR, "slot {slot} is near its end");
        let released = self.table.spend_at(&mut self.seat, at, weight, NAME);
        let left = self.table.look_at(&mut self.seat, at);
        [tried, found, released, left]
    }

    /// A look-up that takes a reference where there is an entry, and gives it back.
    pub(super) fn glance(&mut self, slot: u32)
        requires ready { IsReady (view self.old.seat) }
        requires slot { slot < 8 }
        ensures same { (self.new.table ≡ self.old.table) × (self.new.client ≡ self.old.client)
            × (self.new.shown ≡ self.old.shown)
            × ((view self.new.seat).others ≡ (view self.old.seat).others) }
        ensures ready { IsReady (view self.new.seat) }
    {
        let data = self.table.data_of(slot);
        let at = SlotAt { slot, data };
        if state(self.table.look_at(&mut self.seat, at)) < INVISIBLE {
            return;
        }
        if state(self.table.acquire_at(&mut self.seat, at, 1, NAME)) < INVISIBLE {
            return;
        }
        self.table.give_at(&mut self.seat, at, 1, NAME);
    }

    /// A visit of the clock: the word that it finds, and the one after it.
    pub(super) fn visit(&mut self, slot: u32) -> [u64; 2]
        requires ready { IsReady (view self.old.seat) }
        requires slot { slot < 8 }
        ensures same { (self.new.table ≡ self.old.table) × (self.new.client ≡ self.old.client)
            × (self.new.shown ≡ self.old.shown)
            × ((view self.new.seat).others ≡ (view self.old.seat).others) }
        ensures ready { IsReady (view self.new.seat) }
    {
        let data = self.table.data_of(slot);
        let at = SlotAt { slot, data };
        let seen = self.table.look_at(&mut self.seat, at);
        if let Some(next) = clocked(seen) {
            self.table.clock_at(&mut self.seat, at, seen, next);
        }
        [seen, self.table.look_at(&mut self.seat, at)]
    }

    /// Exchanges of the clock and of a free that come too late. The words are the slot's before,
    /// those that both found, and the one after them.
    pub(super) fn late(&mut self, rt: &impl Abort, slot: u32) -> [u64; 4]
        requires ready { IsReady (view self.old.seat) }
        requires slot { slot < 8 }
        ensures same { (self.new.table ≡ self.old.table) × (self.new.client ≡ self.old.client)
            × (self.new.shown ≡ self.old.shown)
            × ((view self.new.seat).others ≡ (view self.old.seat).others) }
        ensures ready { IsReady (view self.new.seat) }
    {
        let seen = self.look(slot);
        assert!(rt; state(seen) >= INVISIBLE, "slot {slot} has no entry");
        assert!(rt; refs(seen) == 0, "slot {slot} is held");
        let next = clocked(seen).expect(rt, "the clock passes over the slot");
        self.matched(rt, slot, 1);
        let data = self.table.data_of(slot);
        let at = SlotAt { slot, data };
        let counted = self.table.clock_at(&mut self.seat, at, seen, next);
        let freed = self.table.free_at(&mut self.seat, at, seen, None);
        assert!(rt; freed != seen, "slot {slot} was taken");
        [seen, counted, freed, self.table.look_at(&mut self.seat, at)]
    }
}
