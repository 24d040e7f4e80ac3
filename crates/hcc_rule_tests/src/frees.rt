//! How a worker frees an entry.
ghost use Rattle.std.specs.Prelude.{◌≡◌, ◌<◌, [], IfSome, option_to_list};
ghost use Rattle.hcc_core.specs.declared.client.Owned.TheVariants.{ForFreeing};
ghost use Rattle.hcc_core.specs.declared.slot.Stamp.{Stamp};
ghost use Rattle.hcc_core.specs.Opening.{new_client};
ghost use Rattle.hcc_rule.specs.declared.view.Made.{Made};
ghost use Rattle.hcc_rule.specs.Work.{Carries};
ghost use Rattle.hcc_rule_tests.specs.Benches.{IsReady};
ghost use Rattle.hcc_rule.specs.Probes.{trail_to};
ghost use Rattle.hcc_rule.specs.Seats.{view};
ghost use Rattle.hcc_rule.specs.Words.{made_words};

use super::worker::{NAME, Worker};
use hcc_rule::layout::{CHARGE, KEY0, KEY1};
use hcc_rule::{Key, SlotAt};
use hcc_word::layout::INVISIBLE;
use hcc_word::{refs, state};
use std::process::Abort;

impl Worker<'_> {
    /// Takes the slot that was passed back, if there is one.
    fn take_trail(&mut self, passed: Option<u32>)
        requires trail { (view self.old.seat).work.trail ≡ option_to_list passed }
        requires within { IfSome passed (λ s. s < 8) }
        ensures same { (self.new.table ≡ self.old.table) × (self.new.client ≡ self.old.client)
            × (self.new.shown ≡ self.old.shown)
            × ((view self.new.seat).others ≡ (view self.old.seat).others) }
        ensures view { view self.new.seat
            ≡ record (view self.old.seat) {
              work = record (view self.old.seat).work { trail = [] };
            } }
    {
        if let Some(place) = passed {
            self.table.unpass(&mut self.seat, place);
        }
    }

    /// The charge of the entry that was taken, which has this key.
    fn taken_charge(&mut self, rt: &impl Abort, slot: u32, key: Key) -> u64
        requires slot { slot < 8 }
        requires took { (stamp : Stamp) × (made : Made)
            × Carries (record new_client {
              owned = ForFreeing slot;
              trail = trail_to 8 made.key slot;
              freed =
                  made.charge;
              freed_slots = 1;
            }) [] (view self.old.seat)
            × ((view self.old.seat).written ≡ made_words stamp.client made) }
        ensures same { (self.new.table ≡ self.old.table) × (self.new.client ≡ self.old.client)
            × (self.new.shown ≡ self.old.shown)
            × ((view self.new.seat).others ≡ (view self.old.seat).others) }
        ensures takes { Carries (record new_client {
          owned = ForFreeing slot;
          trail = trail_to 8 key slot;
          freed = result;
          freed_slots =
              1;
        }) [] (view self.new.seat) }
        ensures some { 0 < result }
    {
        let data = self.table.data_of(slot);
        let at = SlotAt { slot, data };
        let key0 = self.table.read_own_at(&mut self.seat, at, KEY0);
        let key1 = self.table.read_own_at(&mut self.seat, at, KEY1);
        let charge = self.table.read_own_at(&mut self.seat, at, CHARGE);
        assert!(rt;
            key0 == key.w0 && key1 == key.w1,
            "slot {slot} has another key"
        );
        assert!(rt; charge > 0, "no charge");
        charge
    }

    /// Takes the trail, the slot, its place and its charge back.
    fn take_back(&mut self, slot: u32, passed: Option<u32>, charge: u64)
        requires slot { slot < 8 }
        requires took { Carries (record new_client {
          owned = ForFreeing slot;
          trail = option_to_list passed;
          freed = charge;
          freed_slots =
              1;
        }) [] (view self.old.seat) }
        requires some { 0 < charge }
        requires within { IfSome passed (λ s. s < 8) }
        ensures same { (self.new.table ≡ self.old.table) × (self.new.client ≡ self.old.client)
            × (self.new.shown ≡ self.old.shown)
            × ((view self.new.seat).others ≡ (view self.old.seat).others) }
        ensures ready { IsReady (view self.new.seat) }
    {
        self.take_trail(passed);
        let data = self.table.data_of(slot);
        let at = SlotAt { slot, data };
        self.table.empty_at(&mut self.seat, at);
        self.table.return_slots(&mut self.seat, 1);
        self.table.settle(&mut self.seat, charge);
    }

    /// Frees the entry of a slot without references. The words are the slot's before, while it is
    /// taken and after, and the charge.
    pub(super) fn evict(
        &mut self,
        rt: &impl Abort,
        slot: u32,
        key: Key,
        passed: Option<u32>,
    ) -> [u64; 4]
        requires ready { IsReady (view self.old.seat) }
        requires slot { slot < 8 }
        requires trail { trail_to 8 key slot ≡ option_to_list passed }
        requires within { IfSome passed (λ s. s < 8) }
        ensures same { (self.new.table ≡ self.old.table) × (self.new.client ≡ self.old.client)
            × (self.new.shown ≡ self.old.shown)
            × ((view self.new.seat).others ≡ (view self.old.seat).others) }
        ensures ready { IsReady (view self.new.seat) }
    {
        let seen = self.look(slot);
        let [taken, left, charge] = self.evict_seen(rt, slot, seen, key, passed);
        [seen, taken, left, charge]
    }

    /// The same, where the slot's word was seen before.
    pub(super) fn evict_seen(
        &mut self,
        rt: &impl Abort,
        slot: u32,
        seen: u64,
        key: Key,
        passed: Option<u32>,
    ) -> [u64; 3]
        requires ready { IsReady (view self.old.seat) }
        requires slot { slot < 8 }
        requires trail { trail_to 8 key slot ≡ option_to_list passed }
        requires within { IfSome passed (λ s. s < 8) }
        ensures same { (self.new.table ≡ self.old.table) × (self.new.client ≡ self.old.client)
            × (self.new.shown ≡ self.old.shown)
            × ((view self.new.seat).others ≡ (view self.old.seat).others) }
        ensures ready { IsReady (view self.new.seat) }
    {
        assert!(rt; state(seen) >= INVISIBLE, "slot {slot} has no entry");
        assert!(rt; refs(seen) == 0, "slot {slot} is held");
        let data = self.table.data_of(slot);
        let at = SlotAt { slot, data };
        let found = self.table.free_at(&mut self.seat, at, seen, None);
        assert!(rt; found == seen, "slot {slot} was not taken");
        let charge = self.taken_charge(rt, slot, key);
        let taken = self.table.look_at(&mut self.seat, at);
        self.take_back(slot, passed, charge);
        [taken, self.table.look_at(&mut self.seat, at), charge]
    }

    /// Frees the entry of a slot without references, while an acquire goes astray there. The words
    /// are that which the acquire found, the one after it, and the one at the end.
    pub(super) fn evict_astray(&mut self, rt: &impl Abort, slot: u32, key: Key) -> [u64; 3]
        requires ready { IsReady (view self.old.seat) }
        requires slot { slot < 8 }
        requires trail { trail_to 8 key slot ≡ [] }
        ensures same { (self.new.table ≡ self.old.table) × (self.new.client ≡ self.old.client)
            × (self.new.shown ≡ self.old.shown)
            × ((view self.new.seat).others ≡ (view self.old.seat).others) }
        ensures ready { IsReady (view self.new.seat) }
    {
        let data = self.table.data_of(slot);
        let at = SlotAt { slot, data };
        let seen = self.table.look_at(&mut self.seat, at);
        assert!(rt; state(seen) >= INVISIBLE, "slot {slot} has no entry");
        assert!(rt; refs(seen) == 0, "slot {slot} is held");
        let found = self.table.free_at(&mut self.seat, at, seen, None);
        assert!(rt; found == seen, "slot {slot} was not taken");
        let stray = self.table.acquire_at(&mut self.seat, at, 1, NAME);
        assert!(rt; state(stray) < INVISIBLE, "slot {slot} has an entry");
        let charge = self.taken_charge(rt, slot, key);
        let strayed = self.table.look_at(&mut self.seat, at);
        self.take_back(slot, None, charge);
        [stray, strayed, self.table.look_at(&mut self.seat, at)]
    }

    /// Hides the entry of a slot, and frees it with the last reference. The words are those that
    /// the look and the hiding found, the hidden one and the one at the end, and the charge.
    pub(super) fn erase(
        &mut self,
        rt: &impl Abort,
        slot: u32,
        key: Key,
        passed: Option<u32>,
    ) -> [u64; 5]
        requires ready { IsReady (view self.old.seat) }
        requires slot { slot < 8 }
        requires trail { trail_to 8 key slot ≡ option_to_list passed }
        requires within { IfSome passed (λ s. s < 8) }
        ensures same { (self.new.table ≡ self.old.table) × (self.new.client ≡ self.old.client)
            × (self.new.shown ≡ self.old.shown)
            × ((view self.new.seat).others ≡ (view self.old.seat).others) }
        ensures ready { IsReady (view self.new.seat) }
    {
        let (seen, _) = self.reach(rt, slot, 1);
        let shown = self.table.hide(&mut self.seat, slot, NAME);
        let data = self.table.data_of(slot);
        let at = SlotAt { slot, data };
        let hidden = self.table.look_at(&mut self.seat, at);
        assert!(rt; state(hidden) >= INVISIBLE, "slot {slot} lost its entry");
        assert!(rt; refs(hidden) == 1, "slot {slot} is held by others");
        let found = self.table.free_at(&mut self.seat, at, hidden, Some(NAME));
        assert!(rt; found == hidden, "slot {slot} was not taken");
        let charge = self.taken_charge(rt, slot, key);
        self.take_back(slot, passed, charge);
        [
            seen,
            shown,
            hidden,
            self.table.look_at(&mut self.seat, at),
            charge,
        ]
    }
}
