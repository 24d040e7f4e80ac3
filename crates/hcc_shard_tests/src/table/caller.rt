//! A client that makes calls at a table, and settles what a call freed. Between the calls here it
//! has one handle, or none, and nothing else in hand.
ghost use Rattle.std.specs.Prelude.{◌≡◌, ◌<◌, ◌≤◌, [], IfSome, IfNone, length};
ghost use Rattle.hcc_core.specs.declared.client.Place.TheVariants.{Granted};
ghost use Rattle.hcc_core.specs.declared.limits.TheConstants.{MOST_CLIENTS};
ghost use Rattle.hcc_core.specs.Opening.{new_client};
ghost use Rattle.hcc_core.specs.World.{limit_of};
ghost use Rattle.hcc_rule.specs.Callers.{plan_of, slots_of, IsSeatAt};
ghost use Rattle.hcc_rule.specs.Rule.{IsAbove, setup_of};
ghost use Rattle.hcc_rule.specs.Work.{Carries};
ghost use Rattle.hcc_rule_tests.specs.Benches.{IsReady, above_prop};
ghost use Rattle.hcc_rule.specs.Seats.{view};
ghost use Rattle.hcc_shard_tests.specs.Handles.{HoldsOne, IsPin, IsSmall};

use crate::any::AnyBytes;
use hcc_rule::{Draft, Key, RuleSeat, RuleTable};
use hcc_table::{
    ClockVisit, Effort, Erased, IfLast, Insertion, NoList, Pin, Use, displacement, find, hide,
    insert, release, visit, word,
};
use std::alloc::Global;
use std::process::Abort;

/// A table for tests: of at least 8 slots, 2 payload words for each, and not strict.
pub(super) type Bench = RuleTable<AnyBytes, Global>;

/// The name of the handle.
pub(super) const NAME: u64 = 7;

/// The seat of a client at a table.
#[derive(Drop)]
pub(super) struct Caller<'a> {
    pub(super) table: &'a Bench,
    pub(super) seat: RuleSeat<AnyBytes>,
    pub(super) client: u32,
    /// How many places the table grants.
    pub(super) limit: u64,
    /// How many entries the client showed. It is above their serials.
    pub(super) shown: u64,
    /// What its calls took.
    pub(super) effort: Effort,
    ghost bench: { IsSmall (plan_of table.now) },
    ghost seated: { IsSeatAt table.now seat },
    ghost numbered: { ((view seat).client ≡ client) × (client < MOST_CLIENTS) },
    ghost limited: { limit ≡ limit_of (setup_of (plan_of table.now)) },
    ghost counted: { length (view seat).made ≡ shown },
    ghost above: { IsAbove shown (view seat).made } by { above_prop shown (view seat).made },
}

impl Caller<'_> {
    /// A slot's word.
    pub(super) fn word(&mut self, slot: u32) -> u64
        requires ready { IsReady (view self.old.seat) }
        requires slot { slot < 8 }
        ensures same { self.new.table ≡ self.old.table }
        ensures ready { IsReady (view self.new.seat) }
    {
        word(self.table, &mut self.seat, slot)
    }

    /// How often a slot stands in trails.
    pub(super) fn displacement(&mut self, slot: u32) -> u64
        requires ready { IsReady (view self.old.seat) }
        requires slot { slot < 8 }
        ensures same { self.new.table ≡ self.old.table }
        ensures ready { IsReady (view self.new.seat) }
    {
        displacement(self.table, &mut self.seat, slot)
    }

    /// The usage and the occupancy.
    pub(super) fn totals(&mut self) -> [u64; 2]
        requires ready { IsReady (view self.old.seat) }
        ensures same { self.new.table ≡ self.old.table }
        ensures ready { IsReady (view self.new.seat) }
    {
        let usage = self.table.usage(&mut self.seat);
        [usage, self.table.occupancy(&mut self.seat)]
    }

    /// How the next entry of the client is shown.
    pub(super) fn draft(&self, key: Key, charge: u32, countdown: u32, name: Option<u64>) -> Draft
        ensures key { result.key ≡ key }
        ensures charge { result.charge ≡ charge }
        ensures serial { result.serial ≡ self.now.shown }
        ensures countdown { result.countdown ≡ countdown }
        ensures name { result.name ≡ name }
    {
        Draft {
            key,
            charge,
            serial: self.shown,
            countdown,
            name,
        }
    }

    /// Asks for a place and a charge.
    pub(super) fn reserve(&mut self, rt: &impl Abort, charge: u32)
        requires ready { IsReady (view self.old.seat) }
        ensures same { (self.new.table ≡ self.old.table) × (self.new.shown ≡ self.old.shown) }
        ensures reserved { Carries (record new_client { place = Granted; granted = charge }) []
            (view self.new.seat) }
    {
        let occupancy = self.table.enter(&mut self.seat);
        assert!(rt; occupancy < self.limit, "the table is full");
        self.table.charge(&mut self.seat, charge);
    }

    /// Inserts an entry, and keeps no handle.
    pub(super) fn insert(
        &mut self,
        rt: &impl Abort,
        key: Key,
        charge: u32,
        countdown: u32,
        value: &[u8],
    ) -> Insertion
        requires ready { IsReady (view self.old.seat) }
        requires charge { 0 < charge }
        requires countdown { (1 ≤ countdown) × (countdown ≤ 3) }
        requires short { length value.now ≤ 16 }
        ensures same { self.new.table ≡ self.old.table }
        ensures ready { IsReady (view self.new.seat) }
    {
        assert!(rt; self.shown < 100, "too many entries");
        let draft = self.draft(key, charge, countdown, None);
        self.reserve(rt, charge);
        let insertion = insert(
            self.table,
            &mut self.seat,
            draft,
            value,
            self.client,
            NAME,
            &mut self.effort,
        );
        if let Insertion::Placed { .. } = insertion {
            self.shown += 1;
            return insertion;
        }
        self.table.waive(&mut self.seat, charge as u64);
        self.table.quit(&mut self.seat, 1);
        insertion
    }

    /// Takes what was freed from the occupancy and the usage.
    pub(super) fn settle(&mut self, slots: u64, charge: u64)
        requires freed { Carries (record new_client { freed = charge; freed_slots = slots }) []
            (view self.old.seat) }
        ensures same { self.new.table ≡ self.old.table }
        ensures ready { IsReady (view self.new.seat) }
    {
        if slots > 0 {
            self.table.return_slots(&mut self.seat, slots);
        }
        if charge > 0 {
            self.table.settle(&mut self.seat, charge);
        }
    }

    /// Finds an entry, and holds it.
    pub(super) fn find(&mut self, key: Key, marks: bool) -> Option<Pin>
        requires ready { IsReady (view self.old.seat) }
        ensures same { self.new.table ≡ self.old.table }
        ensures pin { IfSome result (λ found. IsPin (slots_of self.new.table.now) NAME found) }
        ensures holds { IfSome result (λ found. HoldsOne found (view self.new.seat)) }
        ensures ready { IfNone result (IsReady (view self.new.seat)) }
    {
        match find(
            self.table,
            &mut self.seat,
            key,
            NAME,
            marks,
            &mut self.effort,
        ) {
            Some(found) => Some(found.pin),
            None => None,
        }
    }

    /// Releases a handle.
    pub(super) fn release(&mut self, found: Pin, as_use: Use, last: IfLast) -> Option<u64>
        requires pin { IsPin (slots_of self.old.table.now) NAME found }
        requires holds { HoldsOne found (view self.old.seat) }
        ensures same { self.new.table ≡ self.old.table }
        ensures ready { IsReady (view self.new.seat) }
    {
        let freed = release(
            self.table,
            &mut self.seat,
            found,
            as_use,
            last,
            &mut NoList,
            &mut self.effort,
        );
        if let Some(charge) = freed {
            self.settle(1, charge);
        }
        freed
    }

    /// Hides the entries of a key.
    pub(super) fn hide(&mut self, key: Key) -> Erased
        requires ready { IsReady (view self.old.seat) }
        ensures same { self.new.table ≡ self.old.table }
        ensures ready { IsReady (view self.new.seat) }
    {
        let erased = hide(
            self.table,
            &mut self.seat,
            key,
            NAME,
            &mut NoList,
            &mut self.effort,
        );
        self.settle(erased.slots as u64, erased.charge);
        erased
    }

    /// A visit of the clock.
    pub(super) fn visit(&mut self, slot: u32) -> ClockVisit
        requires ready { IsReady (view self.old.seat) }
        requires slot { slot < 8 }
        ensures same { self.new.table ≡ self.old.table }
        ensures ready { IsReady (view self.new.seat) }
    {
        let done = visit(
            self.table,
            &mut self.seat,
            slot,
            &mut NoList,
            &mut self.effort,
        );
        if let ClockVisit::Freed { charge, .. } = done {
            self.settle(1, charge);
        }
        done
    }

    /// The word of the slot of a handle.
    pub(super) fn word_held(&mut self, found: Pin) -> u64
        requires pin { IsPin (slots_of self.old.table.now) NAME found }
        requires holds { HoldsOne found (view self.old.seat) }
        ensures same { self.new.table ≡ self.old.table }
        ensures pin { IsPin (slots_of self.new.table.now) NAME found }
        ensures holds { HoldsOne found (view self.new.seat) }
    {
        word(self.table, &mut self.seat, found.slot)
    }
}
