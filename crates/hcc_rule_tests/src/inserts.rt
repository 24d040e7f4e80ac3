//! How a worker shows an entry.
ghost use Rattle.std.specs.Prelude.{◌≡◌, ◌+◌, ◌^◌, ◌<◌, ◌≤◌, [], Some, None, IfSome, length};
ghost use Rattle.std.specs.Prelude.{option_to_list, slice_index};
ghost use Rattle.hcc_core.specs.declared.limits.TheConstants.{STAMPS_PER_CLIENT};
ghost use Rattle.hcc_core.specs.declared.slot.Entry.{Entry};
ghost use Rattle.hcc_core.specs.declared.client.Owned.TheVariants.{ForBuilding};
ghost use Rattle.hcc_core.specs.declared.client.Place.TheVariants.{Granted};
ghost use Rattle.hcc_core.specs.Opening.{new_client};
ghost use Rattle.hcc_rule.specs.Work.{Carries};
ghost use Rattle.hcc_rule_tests.specs.Benches.{IsReady};
ghost use Rattle.hcc_rule.specs.declared.layout.TheConstants.{STAMP};
ghost use Rattle.hcc_rule.specs.Probes.{trail_to};
ghost use Rattle.hcc_rule.specs.Rule.{IsNextStamp};
ghost use Rattle.hcc_rule.specs.Seats.{view};
ghost use Rattle.hcc_rule.specs.ToldOwners.{after_write, first_records, made_of};
ghost use Rattle.hcc_rule.specs.Words.{made_words};

use super::worker::{LIMIT, NAME, PAYLOAD_WORDS, VALUE, Worker};
use hcc_core::limits::STAMPS_PER_CLIENT;
use hcc_rule::layout::{CHARGE, KEY0, KEY1, LENGTH, PAYLOAD, STAMP};
use hcc_rule::{Draft, Key, SlotAt};
use hcc_word::layout::EMPTY;
use hcc_word::state;
use std::process::Abort;

/// Keys whose first places are slots 1, 2 and 3, and go on one by one.
pub(super) const FIRST: Key = Key { w0: 0, w1: 1 };

pub(super) const SECOND: Key = Key { w0: 0, w1: 2 };

pub(super) const THIRD: Key = Key { w0: 0, w1: 3 };

impl Worker<'_> {
    /// How the next entry of the client is shown.
    pub(super) fn draft(&self, key: Key, charge: u32, countdown: u32, name: Option<u64>) -> Draft
        ensures key { result.key ≡ key }
        ensures charge { result.charge ≡ charge }
        ensures serial { result.serial ≡ self.now.shown }
        ensures countdown { result.countdown ≡ countdown }
        ensures name { result.name ≡ name }
    {
        Draft {
            key,
            charge,
            serial: self.shown,
            countdown,
            name,
        }
    }

    /// The data words of the entry that a draft shows.
    fn words(&self, draft: Draft) -> [u64; 7]
        requires client { self.now.client < 1024 }
        requires serial { draft.serial < STAMPS_PER_CLIENT }
        ensures { result ≡ made_words self.now.client (made_of draft VALUE) }
    {
        [
            draft.key.w0,
            draft.key.w1,
            draft.charge as u64,
            self.client as u64 * STAMPS_PER_CLIENT + draft.serial,
            16,
            PAYLOAD_WORDS[0],
            PAYLOAD_WORDS[1],
        ]
    }

    /// Asks for a place and a charge, and takes an empty slot. The words are the occupancy, the
    /// usage and the slot's word as they were before.
    pub(super) fn reserve(&mut self, rt: &impl Abort, slot: u32, charge: u32) -> [u64; 3]
        requires ready { IsReady (view self.old.seat) }
        requires slot { slot < 8 }
        ensures same { (self.new.table ≡ self.old.table) × (self.new.client ≡ self.old.client)
            × (self.new.shown ≡ self.old.shown)
            × ((view self.new.seat).others ≡ (view self.old.seat).others) }
        ensures builds { Carries (record new_client
            { place = Granted; granted = charge; owned = ForBuilding slot }) []
            (view self.new.seat) }
        ensures written { (view self.new.seat).written ≡ [] }
    {
        let occupancy = self.table.enter(&mut self.seat);
        assert!(rt; occupancy < LIMIT, "the table is full");
        let usage = self.table.charge(&mut self.seat, charge);
        let data = self.table.data_of(slot);
        let at = SlotAt { slot, data };
        let found = self.table.occupy_at(&mut self.seat, at);
        assert!(rt; state(found) == EMPTY, "slot {slot} is not empty");
        [occupancy, usage, found]
    }

    /// Passes a slot, if there is one to pass.
    fn pass_over(&mut self, passed: Option<u32>)
        requires trail { (view self.old.seat).work.trail ≡ [] }
        requires within { IfSome passed (λ s. s < 8) }
        ensures same { (self.new.table ≡ self.old.table) × (self.new.client ≡ self.old.client)
            × (self.new.shown ≡ self.old.shown)
            × ((view self.new.seat).others ≡ (view self.old.seat).others) }
        ensures view { view self.new.seat
            ≡ record (view self.old.seat)
            { work = record (view self.old.seat).work { trail = option_to_list passed } } }
    {
        if let Some(place) = passed {
            let data = self.table.data_of(place);
            let at = SlotAt { slot: place, data };
            self.table.pass_at(&mut self.seat, at);
        }
    }

    /// Writes all words of an entry into the slot that the client builds.
    pub(super) fn write_all(&mut self, slot: u32, words: [u64; 7])
        requires slot { slot < 8 }
        requires owned { (view self.old.seat).work.owned ≡ ForBuilding slot }
        requires none { (view self.old.seat).written ≡ [] }
        requires stamp { IsNextStamp (slice_index words STAMP) (view self.old.seat) }
        ensures same { (self.new.table ≡ self.old.table) × (self.new.client ≡ self.old.client)
            × (self.new.shown ≡ self.old.shown)
            × ((view self.new.seat).others ≡ (view self.old.seat).others) }
        ensures view { view self.new.seat ≡ record (view self.old.seat) { written = words } }
    {
        let [key0, key1, charge, stamp, length, first, second] = words;
        self.write_next(slot, KEY0, key0);
        self.write_next(slot, KEY1, key1);
        self.write_next(slot, CHARGE, charge);
        self.write_next(slot, STAMP, stamp);
        self.write_next(slot, LENGTH, length);
        self.write_next(slot, PAYLOAD, first);
        self.write_next(slot, PAYLOAD + 1, second);
    }

    /// Writes the next word.
    pub(super) fn write_next(&mut self, slot: u32, index: usize, word: u64)
        requires slot { slot < 8 }
        requires owned { (view self.old.seat).work.owned ≡ ForBuilding slot }
        requires next { (index ≡ length (view self.old.seat).written) × (index < 7) }
        requires stamp { index ≡ STAMP → IsNextStamp word (view self.old.seat) }
        ensures same { (self.new.table ≡ self.old.table) × (self.new.client ≡ self.old.client)
            × (self.new.shown ≡ self.old.shown)
            × ((view self.new.seat).others ≡ (view self.old.seat).others) }
        ensures view { view self.new.seat ≡ after_write word (view self.old.seat) }
    {
        let data = self.table.data_of(slot);
        let at = SlotAt { slot, data };
        self.table.write_at(&mut self.seat, at, index, word);
    }

    /// Shows an entry in an empty slot, once the slot of its trail was passed.
    fn show_all(
        &mut self,
        rt: &impl Abort,
        slot: u32,
        draft: Draft,
        passed: Option<u32>,
    ) -> [u64; 3]
        requires ready { IsReady (view self.old.seat) }
        requires slot { slot < 8 }
        requires client { self.old.client < 1024 }
        requires serial { (draft.serial ≡ self.old.shown) × (draft.serial < STAMPS_PER_CLIENT) }
        requires charge { 0 < draft.charge }
        requires countdown { (1 ≤ draft.countdown) × (draft.countdown ≤ 3) }
        requires trail { trail_to 8 draft.key slot ≡ option_to_list passed }
        requires within { IfSome passed (λ s. s < 8) }
        requires named { IfSome draft.name (λ x. x < 2 ^ 64) }
        ensures same { (self.new.table ≡ self.old.table) × (self.new.client ≡ self.old.client)
            × (self.new.shown ≡ self.old.shown + 1)
            × ((view self.new.seat).others ≡ (view self.old.seat).others) }
        ensures holds { (entry : Entry) × Carries new_client (first_records slot draft.name entry)
            (view self.new.seat) }
    {
        let found = self.reserve(rt, slot, draft.charge);
        self.pass_over(passed);
        let words = self.words(draft);
        self.write_all(slot, words);
        let data = self.table.data_of(slot);
        let at = SlotAt { slot, data };
        self.table.show_at(&mut self.seat, at, draft, &VALUE);
        self.shown += 1;
        found
    }

    /// Shows an entry and keeps no reference. The words are the occupancy, the usage and the slot's
    /// word as they were before.
    pub(super) fn insert(
        &mut self,
        rt: &impl Abort,
        slot: u32,
        draft: Draft,
        passed: Option<u32>,
    ) -> [u64; 3]
        requires ready { IsReady (view self.old.seat) }
        requires slot { slot < 8 }
        requires client { self.old.client < 1024 }
        requires serial { (draft.serial ≡ self.old.shown) × (draft.serial < STAMPS_PER_CLIENT) }
        requires charge { 0 < draft.charge }
        requires countdown { (1 ≤ draft.countdown) × (draft.countdown ≤ 3) }
        requires trail { trail_to 8 draft.key slot ≡ option_to_list passed }
        requires within { IfSome passed (λ s. s < 8) }
        requires nameless { draft.name ≡ None }
        ensures same { (self.new.table ≡ self.old.table) × (self.new.client ≡ self.old.client)
            × (self.new.shown ≡ self.old.shown + 1)
            × ((view self.new.seat).others ≡ (view self.old.seat).others) }
        ensures ready { IsReady (view self.new.seat) }
    {
        self.show_all(rt, slot, draft, passed)
    }

    /// Shows an entry and keeps a reference, which is released as a use. The words are the slot's,
    /// as it is shown and after the release.
    pub(super) fn pin(
        &mut self,
        rt: &impl Abort,
        slot: u32,
        draft: Draft,
        passed: Option<u32>,
    ) -> [u64; 2]
        requires ready { IsReady (view self.old.seat) }
        requires slot { slot < 8 }
        requires client { self.old.client < 1024 }
        requires serial { (draft.serial ≡ self.old.shown) × (draft.serial < STAMPS_PER_CLIENT) }
        requires charge { 0 < draft.charge }
        requires countdown { (1 ≤ draft.countdown) × (draft.countdown ≤ 3) }
        requires trail { trail_to 8 draft.key slot ≡ option_to_list passed }
        requires within { IfSome passed (λ s. s < 8) }
        requires named { draft.name ≡ Some NAME }
        ensures same { (self.new.table ≡ self.old.table) × (self.new.client ≡ self.old.client)
            × (self.new.shown ≡ self.old.shown + 1)
            × ((view self.new.seat).others ≡ (view self.old.seat).others) }
        ensures ready { IsReady (view self.new.seat) }
    {
        self.show_all(rt, slot, draft, passed);
        let data = self.table.data_of(slot);
        let at = SlotAt { slot, data };
        let shown = self.table.spend_at(&mut self.seat, at, 1, NAME);
        [shown, self.table.look_at(&mut self.seat, at)]
    }

    /// Shows an entry, hides it by the reference that is kept, and releases this as a use. The
    /// words are those that the hiding and the release found, and the one after them.
    pub(super) fn pin_hidden(
        &mut self,
        rt: &impl Abort,
        slot: u32,
        draft: Draft,
        passed: Option<u32>,
    ) -> [u64; 3]
        requires ready { IsReady (view self.old.seat) }
        requires slot { slot < 8 }
        requires client { self.old.client < 1024 }
        requires serial { (draft.serial ≡ self.old.shown) × (draft.serial < STAMPS_PER_CLIENT) }
        requires charge { 0 < draft.charge }
        requires countdown { (1 ≤ draft.countdown) × (draft.countdown ≤ 3) }
        requires trail { trail_to 8 draft.key slot ≡ option_to_list passed }
        requires within { IfSome passed (λ s. s < 8) }
        requires named { draft.name ≡ Some NAME }
        ensures same { (self.new.table ≡ self.old.table) × (self.new.client ≡ self.old.client)
            × (self.new.shown ≡ self.old.shown + 1)
            × ((view self.new.seat).others ≡ (view self.old.seat).others) }
        ensures ready { IsReady (view self.new.seat) }
    {
        self.show_all(rt, slot, draft, passed);
        let shown = self.table.hide(&mut self.seat, slot, NAME);
        let data = self.table.data_of(slot);
        let at = SlotAt { slot, data };
        let hidden = self.table.spend_at(&mut self.seat, at, 1, NAME);
        [shown, hidden, self.table.look_at(&mut self.seat, at)]
    }

    /// Asks for a place and a charge, and takes slot 1 or, where that is another's, passes it and
    /// takes slot 2. It answers which.
    fn reserve_either(&mut self, rt: &impl Abort, charge: u32) -> u32
        requires ready { IsReady (view self.old.seat) }
        ensures same { (self.new.table ≡ self.old.table) × (self.new.client ≡ self.old.client)
            × (self.new.shown ≡ self.old.shown)
            × ((view self.new.seat).others ≡ (view self.old.seat).others) }
        ensures builds { Carries (record new_client {
          place = Granted;
          granted = charge;
          owned = ForBuilding result;
          trail =
              trail_to 8 FIRST result;
        }) [] (view self.new.seat) }
        ensures written { (view self.new.seat).written ≡ [] }
        ensures slot { result < 8 }
    {
        let occupancy = self.table.enter(&mut self.seat);
        assert!(rt; occupancy < LIMIT, "the table is full");
        self.table.charge(&mut self.seat, charge);
        let data = self.table.data_of(1);
        let at = SlotAt { slot: 1, data };
        if state(self.table.occupy_at(&mut self.seat, at)) == EMPTY {
            return 1;
        }
        self.table.pass_at(&mut self.seat, at);
        let data = self.table.data_of(2);
        let at = SlotAt { slot: 2, data };
        let found = self.table.occupy_at(&mut self.seat, at);
        assert!(rt; state(found) == EMPTY, "slot 2 is not empty");
        2
    }

    /// Shows an entry of the first key in slot 1 or, where another client was faster, in slot 2. It
    /// answers which.
    pub(super) fn race(&mut self, rt: &impl Abort, draft: Draft) -> u32
        requires ready { IsReady (view self.old.seat) }
        requires client { self.old.client < 1024 }
        requires serial { (draft.serial ≡ self.old.shown) × (draft.serial < STAMPS_PER_CLIENT) }
        requires charge { 0 < draft.charge }
        requires countdown { (1 ≤ draft.countdown) × (draft.countdown ≤ 3) }
        requires nameless { draft.name ≡ None }
        requires key { draft.key ≡ FIRST }
        ensures same { (self.new.table ≡ self.old.table) × (self.new.client ≡ self.old.client)
            × (self.new.shown ≡ self.old.shown + 1)
            × ((view self.new.seat).others ≡ (view self.old.seat).others) }
        ensures ready { IsReady (view self.new.seat) }
        ensures slot { result < 8 }
    {
        let slot = self.reserve_either(rt, draft.charge);
        let words = self.words(draft);
        self.write_all(slot, words);
        let data = self.table.data_of(slot);
        let at = SlotAt { slot, data };
        self.table.show_at(&mut self.seat, at, draft, &VALUE);
        self.shown += 1;
        slot
    }
}
