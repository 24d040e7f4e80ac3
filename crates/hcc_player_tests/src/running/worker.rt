//! A client at work at a shard, and how it shows an entry.
ghost use Rattle.std.specs.Prelude.{◌≡◌, ◌^◌, ◌<◌, ◌≤◌, [], ◌∷◌, Some, true, IfOk, IfSome, OnOk};
ghost use Rattle.std.specs.Prelude.{length, option_to_list, slice_index};
ghost use Rattle.hcc_core.specs.declared.limits.TheConstants.{MOST_WEIGHT, STAMPS_PER_CLIENT};
ghost use Rattle.hcc_core.specs.declared.slot.Entry.{Entry};
ghost use Rattle.hcc_core.specs.declared.client.Owned.TheVariants.{ForBuilding};
ghost use Rattle.hcc_core.specs.declared.client.Place.TheVariants.{Granted};
ghost use Rattle.hcc_core.specs.Opening.{new_client};
ghost use Rattle.hcc_rule.specs.Callers.{plan_of, IsSeatAt};
ghost use Rattle.hcc_rule.specs.declared.layout.TheConstants.{STAMP};
ghost use Rattle.hcc_rule.specs.Probes.{trail_to};
ghost use Rattle.hcc_rule.specs.Rule.{IsAbove, IsNextStamp};
ghost use Rattle.hcc_rule.specs.Seats.{view};
ghost use Rattle.hcc_rule.specs.ToldOwners.{after_write, first_records, made_of};
ghost use Rattle.hcc_rule.specs.ToldReferences.{record_of};
ghost use Rattle.hcc_rule.specs.Work.{Carries};
ghost use Rattle.hcc_rule.specs.Words.{made_words};
ghost use Rattle.hcc_word.specs.Word.{is_counting};
ghost use Rattle.hcc_rule_tests.specs.Benches.{IsBench, IsReady, above_prop};

use super::tape::Tape;
use hcc_core::limits::STAMPS_PER_CLIENT;
use hcc_rule::layout::{CHARGE, KEY0, KEY1, LENGTH, PAYLOAD, STAMP};
use hcc_rule::{Draft, Key, RuleSeat, RuleTable, SlotAt, Tag};
use hcc_word::layout::{CONSTRUCTION, EMPTY, INVISIBLE, NEAR};
use hcc_word::{releases, state};
use std::alloc::{AllocError, Global};
use std::process::Abort;

/// The tag that every value fits.
#[derive(Drop)]
pub(super) struct AnyBytes;

impl Tag for AnyBytes {
    ghost fits = { λ tag key value. Unit {0} };
}

/// A shard of 8 slots, with 2 payload words for each, that is not strict.
pub(super) type Bench = RuleTable<AnyBytes, Global>;

/// The places that it grants.
pub(super) const LIMIT: u64 = 6;

/// Keys whose first places are slots 1 and 3, and go on one by one.
pub(super) const FIRST: Key = Key { w0: 0, w1: 1 };

pub(super) const THIRD: Key = Key { w0: 0, w1: 3 };

/// The name of a reference that the maker of an entry keeps.
pub(super) const KEPT: u64 = 7;

/// The name of a reference that a client acquires.
pub(super) const HELD: u64 = 4;

/// The value of each entry, and its payload words.
const VALUE: [u8; 16] = [0, 1, 2, 3, 4, 5, 6, 7, 8, 9, 10, 11, 12, 13, 14, 15];

const PAYLOAD_WORDS: [u64; 2] = [0x0706_0504_0302_0100, 0x0f0e_0d0c_0b0a_0908];

/// The value as a script has it.
const VALUE_TEXT: &str = "000102030405060708090a0b0c0d0e0f";

/// The seat of a client, and how many entries the client showed, which is above their serials.
#[derive(Drop)]
pub(super) struct Worker<'a> {
    pub(super) table: &'a Bench,
    pub(super) seat: RuleSeat<AnyBytes>,
    pub(super) client: u32,
    pub(super) shown: u64,
    ghost bench: { IsBench (plan_of table.now) },
    ghost seated: { IsSeatAt table.now seat },
    ghost numbered: { (view seat).client ≡ client },
    ghost counted: { length (view seat).made ≡ shown },
    ghost above: { IsAbove shown (view seat).made } by { above_prop shown (view seat).made },
}

impl Worker<'_> {
    /// A slot's meta word, and its displacement word.
    pub(super) fn finds(&mut self, slot: u32) -> (u64, u64)
        requires slot { slot < 8 }
    {
        let data = self.table.data_of(slot);
        let at = SlotAt { slot, data };
        let word = self.table.look_at(&mut self.seat, at);
        (word, self.table.count_at(&mut self.seat, at))
    }

    /// The usage, the occupancy and the standalone charges.
    pub(super) fn totals(&mut self) -> [u64; 3] {
        let usage = self.table.usage(&mut self.seat);
        let occupancy = self.table.occupancy(&mut self.seat);
        [usage, occupancy, self.table.standing(&mut self.seat)]
    }

    /// Looks at a slot, and acquires references of this weight on its entry.
    pub(super) fn reaches(
        &mut self,
        rt: &impl Abort,
        tape: &mut Tape<'_>,
        slot: u32,
        weight: u32,
    ) -> Result<u64, AllocError>
        requires ready { IsReady (view self.old.seat) }
        requires slot { slot < 8 }
        requires weight { (0 < weight) × (weight ≤ MOST_WEIGHT) }
        ensures holds { IfOk result (λ found. (entry : Entry) × Carries new_client
            (record_of slot weight HELD found entry ∷ []) (view self.new.seat)) }
        ensures counting { IfOk result (λ found. is_counting found ≡ true) }
    {
        let client = self.client;
        let data = self.table.data_of(slot);
        let at = SlotAt { slot, data };
        let seen = self.table.look_at(&mut self.seat, at);
        assert!(rt; state(seen) >= INVISIBLE, "slot {slot} has no entry");
        tape.add(&format!(in tape.alloc; "look {client} {slot}")?)?;
        let found = self.table.acquire_at(&mut self.seat, at, weight, HELD);
        assert!(rt; state(found) >= INVISIBLE, "slot {slot} lost its entry");
        assert!(rt; releases(found) < NEAR, "slot {slot} is near its end");
        tape.add(&format!(in tape.alloc; "acquire {client} {slot} {weight} {HELD}")?)?;
        Ok(found)
    }

    /// Shows an entry of low priority in an empty slot, once the slot of its trail was passed, and
    /// keeps a reference on it. The other client looks at the slot meanwhile.
    pub(super) fn shows(
        &mut self,
        rt: &impl Abort,
        other: &mut Worker<'_>,
        tape: &mut Tape<'_>,
        slot: u32,
        key: Key,
        passed: Option<u32>,
    ) -> Result<(), AllocError>
        requires ready { IsReady (view self.old.seat) × IsReady (view other.old.seat) }
        requires slot { slot < 8 }
        requires trail { trail_to 8 key slot ≡ option_to_list passed }
        requires within { IfSome passed (λ s. s < 8) }
        ensures holds { OnOk result ((entry : Entry)
            × Carries new_client (first_records slot (Some KEPT) entry) (view self.new.seat)) }
        ensures other { OnOk result (IsReady (view other.new.seat)) }
    {
        let (client, charge) = (self.client, 200);
        assert!(rt; client < 1024 && self.shown < STAMPS_PER_CLIENT);
        let draft = Draft {
            key,
            charge,
            serial: self.shown,
            countdown: 2,
            name: Some(KEPT),
        };
        self.reserves(rt, tape, slot, charge)?;
        other.meets(rt, tape, slot)?;
        self.passes(tape, passed)?;
        let words = self.words(draft);
        self.writes(tape, slot, words)?;
        self.show(slot, draft);
        let (w0, w1) = (key.w0, key.w1);
        let entry = format!(in tape.alloc; "{w0} {w1} {charge} 2 {KEPT} {VALUE_TEXT}")?;
        tape.add(&format!(in tape.alloc; "show {client} {entry}")?)
    }

    /// Shows the entry whose words were written.
    fn show(&mut self, slot: u32, draft: Draft)
        requires slot { slot < 8 }
        requires builds { Carries (record new_client {
          place = Granted;
          granted = draft.charge;
          owned = ForBuilding slot;
          trail = trail_to 8 draft.key slot;
        }) [] (view self.old.seat) }
        requires written { (view self.old.seat).written
            ≡ made_words self.old.client (made_of draft VALUE) }
        requires serial { (draft.serial ≡ self.old.shown) × (draft.serial < STAMPS_PER_CLIENT) }
        requires charge { 0 < draft.charge }
        requires countdown { (1 ≤ draft.countdown) × (draft.countdown ≤ 3) }
        requires named { IfSome draft.name (λ x. x < 2 ^ 64) }
        ensures holds { (entry : Entry)
            × Carries new_client (first_records slot draft.name entry) (view self.new.seat) }
    {
        let data = self.table.data_of(slot);
        let at = SlotAt { slot, data };
        self.table.show_at(&mut self.seat, at, draft, &VALUE);
        self.shown += 1;
    }

    /// Asks for a place and a charge, and takes an empty slot.
    fn reserves(
        &mut self,
        rt: &impl Abort,
        tape: &mut Tape<'_>,
        slot: u32,
        charge: u32,
    ) -> Result<(), AllocError>
        requires ready { IsReady (view self.old.seat) }
        requires slot { slot < 8 }
        ensures same { (self.new.table ≡ self.old.table) × (self.new.client ≡ self.old.client)
            × (self.new.shown ≡ self.old.shown) }
        ensures builds { OnOk result (Carries (record new_client
            { place = Granted; granted = charge; owned = ForBuilding slot }) []
            (view self.new.seat)) }
        ensures written { OnOk result ((view self.new.seat).written ≡ []) }
    {
        let client = self.client;
        let occupancy = self.table.enter(&mut self.seat);
        assert!(rt; occupancy < LIMIT, "the shard is full");
        tape.add(&format!(in tape.alloc; "enter {client}")?)?;
        self.table.charge(&mut self.seat, charge);
        tape.add(&format!(in tape.alloc; "charge {client} {charge}")?)?;
        let data = self.table.data_of(slot);
        let at = SlotAt { slot, data };
        let found = self.table.occupy_at(&mut self.seat, at);
        assert!(rt; state(found) == EMPTY, "slot {slot} is not empty");
        tape.add(&format!(in tape.alloc; "occupy {client} {slot}")?)
    }

    /// Tries to take a slot that another client builds.
    fn meets(&mut self, rt: &impl Abort, tape: &mut Tape<'_>, slot: u32) -> Result<(), AllocError>
        requires ready { IsReady (view self.old.seat) }
        requires slot { slot < 8 }
        ensures ready { OnOk result (IsReady (view self.new.seat)) }
    {
        let client = self.client;
        let data = self.table.data_of(slot);
        let at = SlotAt { slot, data };
        let found = self.table.occupy_at(&mut self.seat, at);
        assert!(rt; state(found) == CONSTRUCTION, "nobody builds slot {slot}");
        tape.add(&format!(in tape.alloc; "occupy {client} {slot}")?)
    }

    /// Passes a slot, if there is one to pass.
    fn passes(&mut self, tape: &mut Tape<'_>, passed: Option<u32>) -> Result<(), AllocError>
        requires trail { (view self.old.seat).work.trail ≡ [] }
        requires within { IfSome passed (λ s. s < 8) }
        ensures same { (self.new.table ≡ self.old.table) × (self.new.client ≡ self.old.client)
            × (self.new.shown ≡ self.old.shown) }
        ensures view { OnOk result (view self.new.seat
            ≡ record (view self.old.seat)
            { work = record (view self.old.seat).work { trail = option_to_list passed } }) }
    {
        let client = self.client;
        if let Some(place) = passed {
            let data = self.table.data_of(place);
            let at = SlotAt { slot: place, data };
            self.table.pass_at(&mut self.seat, at);
            tape.add(&format!(in tape.alloc; "pass {client} {place}")?)?;
        }
        Ok(())
    }

    /// The data words of the entry that a draft shows.
    fn words(&self, draft: Draft) -> [u64; 7]
        requires client { self.now.client < 1024 }
        requires serial { draft.serial < STAMPS_PER_CLIENT }
        ensures { result ≡ made_words self.now.client (made_of draft VALUE) }
    {
        [
            draft.key.w0,
            draft.key.w1,
            draft.charge as u64,
            self.client as u64 * STAMPS_PER_CLIENT + draft.serial,
            16,
            PAYLOAD_WORDS[0],
            PAYLOAD_WORDS[1],
        ]
    }

    /// Writes all words of an entry into the slot that the client builds.
    fn writes(&mut self, tape: &mut Tape<'_>, slot: u32, words: [u64; 7]) -> Result<(), AllocError>
        requires slot { slot < 8 }
        requires owned { (view self.old.seat).work.owned ≡ ForBuilding slot }
        requires none { (view self.old.seat).written ≡ [] }
        requires stamp { IsNextStamp (slice_index words STAMP) (view self.old.seat) }
        ensures same { (self.new.table ≡ self.old.table) × (self.new.client ≡ self.old.client)
            × (self.new.shown ≡ self.old.shown) }
        ensures view { OnOk result
            (view self.new.seat ≡ record (view self.old.seat) { written = words }) }
    {
        let [key0, key1, charge, stamp, length, first, second] = words;
        self.writes_next(tape, slot, KEY0, key0)?;
        self.writes_next(tape, slot, KEY1, key1)?;
        self.writes_next(tape, slot, CHARGE, charge)?;
        self.writes_next(tape, slot, STAMP, stamp)?;
        self.writes_next(tape, slot, LENGTH, length)?;
        self.writes_next(tape, slot, PAYLOAD, first)?;
        self.writes_next(tape, slot, PAYLOAD + 1, second)
    }

    /// Writes the next word.
    fn writes_next(
        &mut self,
        tape: &mut Tape<'_>,
        slot: u32,
        index: usize,
        word: u64,
    ) -> Result<(), AllocError>
        requires slot { slot < 8 }
        requires owned { (view self.old.seat).work.owned ≡ ForBuilding slot }
        requires next { (index ≡ length (view self.old.seat).written) × (index < 7) }
        requires stamp { index ≡ STAMP → IsNextStamp word (view self.old.seat) }
        ensures same { (self.new.table ≡ self.old.table) × (self.new.client ≡ self.old.client)
            × (self.new.shown ≡ self.old.shown) }
        ensures view { OnOk result (view self.new.seat ≡ after_write word (view self.old.seat)) }
    {
        let client = self.client;
        let data = self.table.data_of(slot);
        let at = SlotAt { slot, data };
        self.table.write_at(&mut self.seat, at, index, word);
        tape.add(&format!(in tape.alloc; "write {client}")?)
    }
}
