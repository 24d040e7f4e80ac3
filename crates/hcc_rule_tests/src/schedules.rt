//! Single steps of two clients, in an order in which another call frees an entry than one expects.
ghost use Rattle.std.specs.Prelude.{◌≡◌, ◌<◌, ◌∷◌, [], true};
ghost use Rattle.hcc_core.specs.declared.slot.Entry.{Entry};
ghost use Rattle.hcc_core.specs.Opening.{new_client};
ghost use Rattle.hcc_word.specs.Word.{is_counting};
ghost use Rattle.hcc_rule.specs.Seats.{view};
ghost use Rattle.hcc_rule.specs.ToldReferences.{record_of};
ghost use Rattle.hcc_rule.specs.Work.{Carries};
ghost use Rattle.hcc_rule_tests.specs.Benches.{IsReady};

use super::hired::{bench, hired};
use super::inserts::FIRST;
use super::worker::{NAME, Worker};
use hcc_rule::{Key, SlotAt};
use hcc_word::layout::{HIDING_MASK, INVISIBLE, VISIBLE};
use hcc_word::{refs, state};
use std::alloc::AllocError;
use std::process::Abort;

/// Another key whose first place is slot 1.
const NEXT: Key = Key { w0: 4, w1: 1 };

impl Worker<'_> {
    /// Hides the entry of a slot by a reference that it keeps. The words are that which the acquire
    /// found, and the hidden one.
    fn hides(&mut self, rt: &impl Abort, slot: u32) -> (u64, u64)
        requires ready { IsReady (view self.old.seat) }
        requires slot { slot < 8 }
        ensures same { (self.new.table ≡ self.old.table) × (self.new.client ≡ self.old.client)
            × (self.new.shown ≡ self.old.shown)
            × ((view self.new.seat).others ≡ (view self.old.seat).others) }
        ensures holds { (entry : Entry) × Carries new_client
            (record_of slot 1 NAME result.0 entry ∷ []) (view self.new.seat) }
        ensures counting { is_counting result.0 ≡ true }
    {
        let (_, found) = self.reach(rt, slot, 1);
        let shown = self.table.hide(&mut self.seat, slot, NAME);
        assert!(rt; state(shown) == VISIBLE, "slot {slot} is hidden already");
        (found, shown & HIDING_MASK)
    }

    /// Tries to free the entry by the reference that it has, as the last one, and gives it back.
    /// The word is that which the try found.
    fn frees_late(&mut self, rt: &impl Abort, slot: u32, last: u64) -> u64
        requires slot { slot < 8 }
        requires holds { (found : _) × (entry : Entry) × (is_counting found ≡ true)
            × Carries new_client (record_of slot 1 NAME found entry ∷ []) (view self.old.seat) }
        ensures same { (self.new.table ≡ self.old.table) × (self.new.client ≡ self.old.client)
            × (self.new.shown ≡ self.old.shown)
            × ((view self.new.seat).others ≡ (view self.old.seat).others) }
        ensures ready { IsReady (view self.new.seat) }
    {
        assert!(rt; state(last) == INVISIBLE, "the entry isn't hidden");
        assert!(rt; refs(last) == 1, "it isn't the last reference");
        let data = self.table.data_of(slot);
        let at = SlotAt { slot, data };
        let found = self.table.free_at(&mut self.seat, at, last, Some(NAME));
        assert!(rt; found != last, "slot {slot} was taken");
        self.table.give_at(&mut self.seat, at, 1, NAME);
        found
    }

    /// Gives the reference back that it has on a slot's entry.
    fn gives(&mut self, slot: u32)
        requires slot { slot < 8 }
        requires holds { (found : _) × (entry : Entry) × (is_counting found ≡ true)
            × Carries new_client (record_of slot 1 NAME found entry ∷ []) (view self.old.seat) }
        ensures same { (self.new.table ≡ self.old.table) × (self.new.client ≡ self.old.client)
            × (self.new.shown ≡ self.old.shown)
            × ((view self.new.seat).others ≡ (view self.old.seat).others) }
        ensures ready { IsReady (view self.new.seat) }
    {
        let data = self.table.data_of(slot);
        let at = SlotAt { slot, data };
        self.table.give_at(&mut self.seat, at, 1, NAME);
    }
}

/// Between the two steps of a release another client frees the entry, and shows one in its slot
/// whose word is the same: the exchange takes that one.
#[test]
fn a_release_may_free_another_entry(rt: HostRuntime) -> Result<(), AllocError> {
    let (table, mut seats) = bench(rt.alloc(), 2)?;
    let mut other = hired(&rt, &table, &mut seats);
    let mut me = hired(&rt, &table, &mut seats);
    let first = other.draft(FIRST, 200, 2, None);
    other.insert(&rt, 1, first, None);
    let [_, _, _, left] = me.miss(&rt, 1, 1);
    other.evict(&rt, 1, FIRST, None);
    let next = other.draft(NEXT, 30, 2, None);
    other.insert(&rt, 1, next, None);
    let [_, _, charge] = me.evict_seen(&rt, 1, left, NEXT, None);
    assert_eq!(rt; charge, 30);
    Ok(())
}

/// A look-up has a reference while the erasure tries to free the entry, and gives it back last,
/// which tries nothing: the entry stays hidden, held by nobody, until the clock comes by.
#[test]
fn an_erased_entry_may_be_left_to_the_clock(rt: HostRuntime) -> Result<(), AllocError> {
    let (table, mut seats) = bench(rt.alloc(), 2)?;
    let mut other = hired(&rt, &table, &mut seats);
    let mut me = hired(&rt, &table, &mut seats);
    let first = other.draft(FIRST, 200, 2, None);
    other.insert(&rt, 1, first, None);
    let seen = me.look(1);
    assert!(rt; state(seen) == VISIBLE, "slot 1 shows no entry");
    let (_, hidden) = other.hides(&rt, 1);
    let found = me.acquire(&rt, 1, 1);
    assert_eq!(rt; found, hidden);
    let met = other.frees_late(&rt, 1, hidden);
    assert_eq!(rt; refs(met), 2);
    me.gives(1);
    let left = me.look(1);
    assert_eq!(rt; (state(left), refs(left)), (INVISIBLE, 0));
    me.evict(&rt, 1, FIRST, None);
    Ok(())
}
