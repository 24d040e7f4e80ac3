//! What a caller does that holds a handle, and how it gets one.
ghost use Rattle.std.specs.Prelude.{◌≡◌, ◌<◌, ◌≤◌, true, length};
ghost use Rattle.hcc_rule_tests.specs.Benches.{IsReady};
ghost use Rattle.hcc_rule.specs.Callers.{slots_of};
ghost use Rattle.hcc_rule.specs.Seats.{view};
ghost use Rattle.hcc_shard_tests.specs.Handles.{HoldsOne, IsPin};

use super::caller::{Caller, NAME};
use hcc_rule::{Key, SlotAt};
use hcc_table::{
    IfLast, Insertion, NoList, Pin, PinAt, Use, again, find, free_taken, insert, pinned_charge,
    read_bytes, read_key, read_len, release, word,
};
use hcc_word::layout::INVISIBLE;
use hcc_word::{refs, state};
use std::process::Abort;

/// The name of a second reference on the entry of the handle.
pub(super) const OTHER: u64 = 9;

/// What a buffer has where nothing was read into it.
pub(super) const UNREAD: u8 = 0xee;

impl Caller<'_> {
    /// Inserts an entry that is placed, and keeps a handle.
    pub(super) fn keep(
        &mut self,
        rt: &impl Abort,
        key: Key,
        charge: u32,
        countdown: u32,
        value: &[u8],
    ) -> Pin
        requires ready { IsReady (view self.old.seat) }
        requires charge { 0 < charge }
        requires countdown { (1 ≤ countdown) × (countdown ≤ 3) }
        requires short { length value.now ≤ 16 }
        ensures same { self.new.table ≡ self.old.table }
        ensures pin { IsPin (slots_of self.new.table.now) NAME result }
        ensures holds { HoldsOne result (view self.new.seat) }
    {
        assert!(rt; self.shown < 100, "too many entries");
        let draft = self.draft(key, charge, countdown, Some(NAME));
        self.reserve(rt, charge);
        let insertion = insert(
            self.table,
            &mut self.seat,
            draft,
            value,
            self.client,
            NAME,
            &mut self.effort,
        );
        let Insertion::Placed { slot } = insertion else {
            panic!(rt; "the entry isn't placed")
        };
        self.shown += 1;
        Pin {
            slot,
            name: NAME,
            counting: true,
        }
    }

    /// Whether no entry of the key is found while the handle is held.
    pub(super) fn misses_held(&mut self, held: Pin, key: Key) -> bool
        requires pin { IsPin (slots_of self.old.table.now) NAME held }
        requires holds { HoldsOne held (view self.old.seat) }
        ensures same { self.new.table ≡ self.old.table }
        ensures holds { result ≡ true → HoldsOne held (view self.new.seat) }
    {
        find(
            self.table,
            &mut self.seat,
            key,
            OTHER,
            false,
            &mut self.effort,
        )
        .is_none()
    }

    /// The key, the value's length and the buffer that it was read into.
    pub(super) fn read(&mut self, found: Pin) -> (Key, usize, usize, [u8; 20])
        requires pin { IsPin (slots_of self.old.table.now) NAME found }
        requires holds { HoldsOne found (view self.old.seat) }
        ensures same { self.new.table ≡ self.old.table }
        ensures pin { IsPin (slots_of self.new.table.now) NAME found }
        ensures holds { HoldsOne found (view self.new.seat) }
    {
        let key = read_key(self.table, &mut self.seat, found);
        let data = self.table.data_of(found.slot);
        let held = PinAt { pin: found, data };
        let length = read_len(self.table, &mut self.seat, held);
        let mut buffer = [UNREAD; 20];
        let count = read_bytes(self.table, &mut self.seat, found, &mut buffer);
        (key, length, count, buffer)
    }

    /// The charge that is pinned on a slot, while the handle is held.
    pub(super) fn pinned(&mut self, held: Pin, slot: u32) -> u64
        requires slot { slot < 8 }
        requires pin { IsPin (slots_of self.old.table.now) NAME held }
        requires holds { HoldsOne held (view self.old.seat) }
        ensures same { self.new.table ≡ self.old.table }
        ensures pin { IsPin (slots_of self.new.table.now) NAME held }
        ensures holds { HoldsOne held (view self.new.seat) }
    {
        pinned_charge(self.table, &mut self.seat, slot, OTHER, &mut self.effort)
    }

    /// Holds the entry of the handle once more, and releases both references. The words are those
    /// with both and after each was released.
    pub(super) fn hold_twice(&mut self, rt: &impl Abort, found: Pin) -> [u64; 3]
        requires pin { IsPin (slots_of self.old.table.now) NAME found }
        requires holds { HoldsOne found (view self.old.seat) }
        ensures same { self.new.table ≡ self.old.table }
        ensures ready { IsReady (view self.new.seat) }
    {
        let other = again(self.table, &mut self.seat, found, OTHER, &mut self.effort);
        let both = word(self.table, &mut self.seat, found.slot);
        let freed = release(
            self.table,
            &mut self.seat,
            other,
            Use::Useful,
            IfLast::Keep,
            &mut NoList,
            &mut self.effort,
        );
        assert!(rt; freed == None, "the entry is held");
        let one = self.word_held(found);
        let freed = self.release(found, Use::Useful, IfLast::Keep);
        assert!(rt; freed == None, "the entry is visible");
        let none = word(self.table, &mut self.seat, found.slot);
        [both, one, none]
    }

    /// Takes the entry of a slot without references, and frees it. It answers the charge.
    pub(super) fn evict(&mut self, rt: &impl Abort, slot: u32) -> u64
        requires ready { IsReady (view self.old.seat) }
        requires slot { slot < 8 }
        ensures same { self.new.table ≡ self.old.table }
        ensures ready { IsReady (view self.new.seat) }
    {
        let seen = word(self.table, &mut self.seat, slot);
        assert!(rt; state(seen) >= INVISIBLE, "slot {slot} has no entry");
        assert!(rt; refs(seen) == 0, "slot {slot} is held");
        let data = self.table.data_of(slot);
        let at = SlotAt { slot, data };
        let found = self.table.free_at(&mut self.seat, at, seen, None);
        assert!(rt; found == seen, "slot {slot} was not taken");
        let charge = free_taken(self.table, &mut self.seat, slot);
        self.settle(1, charge);
        charge
    }
}
