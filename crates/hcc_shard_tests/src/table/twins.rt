//! What a caller does that holds two handles: on an entry that is hidden, and on another of its
//! key.
ghost use Rattle.std.specs.Prelude.{◌≡◌, ◌<◌, ◌≤◌, [], ◌∷◌, length};
ghost use Rattle.hcc_core.specs.declared.client.Place.TheVariants.{Granted};
ghost use Rattle.hcc_core.specs.Opening.{new_client};
ghost use Rattle.hcc_rule.specs.declared.view.Record.{Record};
ghost use Rattle.hcc_rule.specs.Callers.{slots_of};
ghost use Rattle.hcc_rule.specs.Work.{Carries};
ghost use Rattle.hcc_rule.specs.Seats.{view};
ghost use Rattle.hcc_shard_tests.specs.Handles.{HoldsOne, HoldsTwo, IsHandle, IsPin};

use super::caller::{Caller, NAME};
use super::held::OTHER;
use hcc_rule::Key;
use hcc_table::{
    ClockVisit, Erased, IfLast, Insertion, NoList, Pin, Use, find, hide, insert, read_bytes,
    release, visit, word,
};
use std::process::Abort;

/// The name of a third reference.
const THIRD: u64 = 11;

impl Caller<'_> {
    /// Hides the entries of a key, while the handle is held.
    pub(super) fn hide_held(&mut self, rt: &impl Abort, found: Pin, key: Key) -> Erased
        requires pin { IsPin (slots_of self.old.table.now) NAME found }
        requires holds { HoldsOne found (view self.old.seat) }
        ensures same { self.new.table ≡ self.old.table }
        ensures pin { IsPin (slots_of self.new.table.now) NAME found }
        ensures holds { HoldsOne found (view self.new.seat) }
    {
        let erased = hide(
            self.table,
            &mut self.seat,
            key,
            OTHER,
            &mut NoList,
            &mut self.effort,
        );
        assert!(rt;
            erased.slots == 0 && erased.charge == 0,
            "an entry was freed"
        );
        erased
    }

    /// A visit of the clock that sees the handle.
    pub(super) fn visit_held(&mut self, rt: &impl Abort, found: Pin) -> ClockVisit
        requires pin { IsPin (slots_of self.old.table.now) NAME found }
        requires holds { HoldsOne found (view self.old.seat) }
        ensures same { self.new.table ≡ self.old.table }
        ensures pin { IsPin (slots_of self.new.table.now) NAME found }
        ensures holds { HoldsOne found (view self.new.seat) }
    {
        let done = visit(
            self.table,
            &mut self.seat,
            found.slot,
            &mut NoList,
            &mut self.effort,
        );
        assert!(rt;
            done == ClockVisit::Pinned,
            "the clock didn't see the handle"
        );
        done
    }

    /// Asks for a place and a charge, while the handle is held.
    fn reserve_held(&mut self, rt: &impl Abort, found: Pin, charge: u32)
        requires pin { IsPin (slots_of self.old.table.now) NAME found }
        requires holds { HoldsOne found (view self.old.seat) }
        ensures same { (self.new.table ≡ self.old.table) × (self.new.shown ≡ self.old.shown) }
        ensures reserved { (r : Record) × IsHandle found r
            × Carries (record new_client { place = Granted; granted = charge }) (r ∷ [])
            (view self.new.seat) }
    {
        let occupancy = self.table.enter(&mut self.seat);
        assert!(rt; occupancy < self.limit, "the table is full");
        self.table.charge(&mut self.seat, charge);
    }

    /// Tries to insert another entry while the handle is held.
    pub(super) fn insert_held(
        &mut self,
        rt: &impl Abort,
        found: Pin,
        key: Key,
        charge: u32,
        countdown: u32,
        value: &[u8],
    ) -> Insertion
        requires pin { IsPin (slots_of self.old.table.now) NAME found }
        requires holds { HoldsOne found (view self.old.seat) }
        requires charge { 0 < charge }
        requires countdown { (1 ≤ countdown) × (countdown ≤ 3) }
        requires short { length value.now ≤ 16 }
        ensures same { self.new.table ≡ self.old.table }
        ensures pin { IsPin (slots_of self.new.table.now) NAME found }
        ensures holds { HoldsOne found (view self.new.seat) }
    {
        assert!(rt; self.shown < 100, "too many entries");
        let draft = self.draft(key, charge, countdown, None);
        self.reserve_held(rt, found, charge);
        let insertion = insert(
            self.table,
            &mut self.seat,
            draft,
            value,
            self.client,
            OTHER,
            &mut self.effort,
        );
        if let Insertion::Placed { .. } = insertion {
            self.shown += 1;
            return insertion;
        }
        self.table.waive(&mut self.seat, charge as u64);
        self.table.quit(&mut self.seat, 1);
        insertion
    }

    /// Inserts another entry, and keeps a second handle.
    pub(super) fn keep_other(
        &mut self,
        rt: &impl Abort,
        found: Pin,
        key: Key,
        charge: u32,
        countdown: u32,
        value: &[u8],
    ) -> Pin
        requires charge { 0 < charge }
        requires countdown { (1 ≤ countdown) × (countdown ≤ 3) }
        requires pin { IsPin (slots_of self.old.table.now) NAME found }
        requires holds { HoldsOne found (view self.old.seat) }
        requires short { length value.now ≤ 16 }
        ensures same { self.new.table ≡ self.old.table }
        ensures pins { IsPin (slots_of self.new.table.now) NAME found
            × IsPin (slots_of self.new.table.now) OTHER result }
        ensures holds { HoldsTwo found result (view self.new.seat) }
    {
        assert!(rt; self.shown < 100, "too many entries");
        let draft = self.draft(key, charge, countdown, Some(OTHER));
        self.reserve_held(rt, found, charge);
        let insertion = insert(
            self.table,
            &mut self.seat,
            draft,
            value,
            self.client,
            OTHER,
            &mut self.effort,
        );
        let Insertion::Placed { slot } = insertion else {
            panic!(rt; "the entry isn't placed")
        };
        self.shown += 1;
        Pin {
            slot,
            name: OTHER,
            counting: true,
        }
    }

    /// The first byte of the value of the entry that a handle is on.
    fn first_byte(&mut self, one: Pin, two: Pin, second: bool) -> u8
        requires pins { IsPin (slots_of self.old.table.now) NAME one
            × IsPin (slots_of self.old.table.now) OTHER two }
        requires holds { HoldsTwo one two (view self.old.seat) }
        ensures same { self.new.table ≡ self.old.table }
        ensures pins { IsPin (slots_of self.new.table.now) NAME one
            × IsPin (slots_of self.new.table.now) OTHER two }
        ensures holds { HoldsTwo one two (view self.new.seat) }
    {
        let mut buffer = [0; 16];
        if second {
            read_bytes(self.table, &mut self.seat, two, &mut buffer);
        } else {
            read_bytes(self.table, &mut self.seat, one, &mut buffer);
        }
        buffer[0]
    }

    /// Finds an entry while both handles are held, and releases it. The answer is its slot, that
    /// slot's word, and the first byte of its value.
    fn peek(&mut self, rt: &impl Abort, one: Pin, two: Pin, key: Key) -> (u32, u64, u8)
        requires pins { IsPin (slots_of self.old.table.now) NAME one
            × IsPin (slots_of self.old.table.now) OTHER two }
        requires holds { HoldsTwo one two (view self.old.seat) }
        ensures same { self.new.table ≡ self.old.table }
        ensures pins { IsPin (slots_of self.new.table.now) NAME one
            × IsPin (slots_of self.new.table.now) OTHER two }
        ensures holds { HoldsTwo one two (view self.new.seat) }
    {
        let third = find(
            self.table,
            &mut self.seat,
            key,
            THIRD,
            false,
            &mut self.effort,
        )
        .expect(rt, "not found")
        .pin;
        let held = word(self.table, &mut self.seat, third.slot);
        let mut buffer = [0; 16];
        read_bytes(self.table, &mut self.seat, third, &mut buffer);
        let freed = release(
            self.table,
            &mut self.seat,
            third,
            Use::NotUseful,
            IfLast::Keep,
            &mut NoList,
            &mut self.effort,
        );
        assert!(rt; freed == None, "the entry is held");
        (third.slot, held, buffer[0])
    }

    /// What the handles read, with that of an entry that is found between.
    pub(super) fn read_three(
        &mut self,
        rt: &impl Abort,
        one: Pin,
        two: Pin,
        key: Key,
    ) -> (u8, u8, (u32, u64, u8))
        requires pins { IsPin (slots_of self.old.table.now) NAME one
            × IsPin (slots_of self.old.table.now) OTHER two }
        requires holds { HoldsTwo one two (view self.old.seat) }
        ensures same { self.new.table ≡ self.old.table }
        ensures pins { IsPin (slots_of self.new.table.now) NAME one
            × IsPin (slots_of self.new.table.now) OTHER two }
        ensures holds { HoldsTwo one two (view self.new.seat) }
    {
        let first = self.first_byte(one, two, false);
        let peeked = self.peek(rt, one, two, key);
        (first, self.first_byte(one, two, true), peeked)
    }

    /// Releases the second handle, whose entry stays.
    pub(super) fn release_other(
        &mut self,
        rt: &impl Abort,
        one: Pin,
        two: Pin,
        as_use: Use,
        last: IfLast,
    )
        requires pins { IsPin (slots_of self.old.table.now) NAME one
            × IsPin (slots_of self.old.table.now) OTHER two }
        requires holds { HoldsTwo one two (view self.old.seat) }
        ensures same { self.new.table ≡ self.old.table }
        ensures pin { IsPin (slots_of self.new.table.now) NAME one }
        ensures holds { HoldsOne one (view self.new.seat) }
    {
        let freed = release(
            self.table,
            &mut self.seat,
            two,
            as_use,
            last,
            &mut NoList,
            &mut self.effort,
        );
        assert!(rt; freed == None, "the entry was freed");
    }
}
