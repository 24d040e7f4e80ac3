//! An entry that is read without a reference, load by load, while another client frees it and
//! builds another one in its slot: the read ends without an answer, or with one entry's bytes.
ghost use Rattle.std.specs.Prelude.{◌≡◌, ◌+◌, ◌<◌, ◌≤◌, [], true};
ghost use Rattle.hcc_core.specs.declared.limits.TheConstants.{STAMPS_PER_CLIENT};
ghost use Rattle.hcc_word.specs.Word.{is_shareable};
ghost use Rattle.hcc_rule.specs.Probes.{trail_to};
ghost use Rattle.hcc_rule.specs.Seats.{view};
ghost use Rattle.hcc_rule.specs.ToldOwners.{made_of};
ghost use Rattle.hcc_rule.specs.Words.{made_words};
ghost use Rattle.hcc_rule_tests.specs.Benches.{IsReading, IsReady};

use self::Meanwhile::{Built, Emptied, Hidden, Replaced, Taken, Used};
use self::Next::{Same, Word0, Word1};
use self::Stage::{Begun, Nothing, Stamped, Written};
use super::hired::{bench, hired};
use super::inserts::FIRST;
use super::worker::{NAME, PAYLOAD_WORDS, Worker};
use hcc_core::limits::STAMPS_PER_CLIENT;
use hcc_rule::layout::{CHARGE, KEY0, KEY1, LENGTH, PAYLOAD, STAMP};
use hcc_rule::{Draft, Key, SlotAt};
use hcc_word::layout::{INVISIBLE, VISIBLE};
use hcc_word::{refs, state};
use std::alloc::{AllocError, Global};
use std::process::Abort;

/// The loads of a read: the meta word, the stamp word, the meta word, the key's two words, the
/// length, two payload words, the meta word and the stamp word.
const LOADS: u32 = 10;

/// A read that made all its loads, by the bytes that it got: those of the entry that was there, of
/// the one that was built after it, or neither's.
const OLD: u32 = 10;

const NEW: u32 = 11;

const TORN: u32 = 12;

/// The value of the entry that is built after the first one, and its payload words.
const NEXT_VALUE: [u8; 12] = [16, 17, 18, 19, 20, 21, 22, 23, 24, 25, 26, 27];

const NEXT_WORDS: [u64; 2] = [0x1716_1514_1312_1110, 0x0000_0000_1b1a_1918];

/// What the other client does with the entry.
#[derive(Clone, Copy)]
enum Meanwhile {
    /// It uses and marks it.
    Used,
    Hidden,
    /// It takes it to free it.
    Taken,
    /// It frees it.
    Emptied,
    /// It frees it, and begins to build one of this key in its slot.
    Built(Stage, Next),
    /// It frees it, and shows one of this key in its slot.
    Replaced(Next),
}

/// How far an entry is built.
#[derive(Clone, Copy, PartialEq, Eq)]
enum Stage {
    Nothing,
    /// All words before the stamp word.
    Begun,
    /// The stamp word too.
    Stamped,
    /// All words.
    Written,
}

/// The key of the entry that is built: the first one's, or one that differs in this word.
#[derive(Clone, Copy)]
enum Next {
    Same,
    Word0,
    Word1,
}

impl Next {
    fn key(self) -> Key
        ensures trail { trail_to 8 result 1 ≡ [] }
    {
        match self {
            Same => FIRST,
            Word0 => Key { w0: 4, w1: 1 },
            Word1 => Key { w0: 0, w1: 9 },
        }
    }
}

/// Whether a read goes on after the load of this number, of which the stamp word was the second.
fn goes_on(number: u32, word: u64, stamp: u64) -> bool
    ensures entry { result ≡ true → number ≡ 0 → is_shareable word ≡ true }
{
    match number {
        0 | 2 | 8 => state(word) == VISIBLE,
        3 => word == FIRST.w0,
        4 => word == FIRST.w1,
        9 => word == stamp,
        _ => true,
    }
}

/// Whose length and payload words these are.
fn answer(words: &[u64; 10]) -> u32 {
    let value = [words[5], words[6], words[7]];
    if value == [16, PAYLOAD_WORDS[0], PAYLOAD_WORDS[1]] {
        OLD
    } else if value == [12, NEXT_WORDS[0], NEXT_WORDS[1]] {
        NEW
    } else {
        TORN
    }
}

impl Worker<'_> {
    /// The load of this number of a read of slot 1.
    fn load(&mut self, number: u32) -> u64
        requires number { number < 10 }
        requires reading { IsReading number (view self.old.seat) }
        ensures reading { (number ≡ 0 → is_shareable result ≡ true)
            → IsReading (number + 1) (view self.new.seat) }
    {
        let data = self.table.data_of(1);
        let at = SlotAt { slot: 1, data };
        match number {
            0 => self.table.look_at(&mut self.seat, at),
            1 => self.table.glimpse_at(&mut self.seat, at),
            2 | 8 => self.table.glance_at(&mut self.seat, at),
            3 => self.table.peek_at(&mut self.seat, at, KEY0),
            4 => self.table.peek_at(&mut self.seat, at, KEY1),
            5 => self.table.peek_at(&mut self.seat, at, LENGTH),
            6 => self.table.peek_at(&mut self.seat, at, PAYLOAD),
            7 => self.table.peek_at(&mut self.seat, at, PAYLOAD + 1),
            _ => self.table.recheck_at(&mut self.seat, at),
        }
    }

    /// The loads of a read of slot 1 from this number on, before that one. It answers the number of
    /// the load that ended the read, or the last one's and one more.
    fn loads(&mut self, from: u32, to: u32, words: &mut [u64; 10]) -> u32
        requires bounds { (from ≤ to) × (to ≤ 10) }
        requires reading { IsReading from (view self.old.seat) }
        ensures reading { result ≡ to → IsReading to (view self.new.seat) }
    {
        for number in from..to {
            let word = self.load(number);
            words[number as usize] = word;
            if !goes_on(number, word, words[1]) {
                return number;
            }
        }
        to
    }

    /// Frees the entry of slot 1, but leaves the slot taken.
    fn take(&mut self, rt: &impl Abort)
        requires ready { IsReady (view self.old.seat) }
    {
        let data = self.table.data_of(1);
        let at = SlotAt { slot: 1, data };
        let seen = self.table.look_at(&mut self.seat, at);
        assert!(rt; state(seen) >= INVISIBLE, "slot 1 has no entry");
        assert!(rt; refs(seen) == 0, "slot 1 is held");
        let found = self.table.free_at(&mut self.seat, at, seen, None);
        assert!(rt; found == seen, "slot 1 was not taken");
    }

    /// Hides the entry of slot 1.
    fn hide(&mut self, rt: &impl Abort)
        requires ready { IsReady (view self.old.seat) }
    {
        self.reach(rt, 1, 1);
        self.table.hide(&mut self.seat, 1, NAME);
        let data = self.table.data_of(1);
        let at = SlotAt { slot: 1, data };
        self.table.give_at(&mut self.seat, at, 1, NAME);
    }

    /// The data words of an entry with the next value.
    fn next_words(&self, draft: Draft) -> [u64; 7]
        requires client { self.now.client < 1024 }
        requires serial { draft.serial < STAMPS_PER_CLIENT }
        ensures { result ≡ made_words self.now.client (made_of draft NEXT_VALUE) }
    {
        [
            draft.key.w0,
            draft.key.w1,
            draft.charge as u64,
            self.client as u64 * STAMPS_PER_CLIENT + draft.serial,
            12,
            NEXT_WORDS[0],
            NEXT_WORDS[1],
        ]
    }

    /// Begins to build an entry of this key in slot 1, and shows none.
    fn build(&mut self, rt: &impl Abort, stage: Stage, key: Key)
        requires ready { IsReady (view self.old.seat) }
        requires client { self.old.client < 1024 }
        requires serial { self.old.shown < STAMPS_PER_CLIENT }
    {
        let draft = self.draft(key, 100, 2, None);
        self.reserve(rt, 1, draft.charge);
        if stage == Nothing {
            return;
        }
        let [key0, key1, charge, stamp, length, first, second] = self.next_words(draft);
        self.write_next(1, KEY0, key0);
        self.write_next(1, KEY1, key1);
        self.write_next(1, CHARGE, charge);
        if stage == Begun {
            return;
        }
        self.write_next(1, STAMP, stamp);
        if stage == Stamped {
            return;
        }
        self.write_next(1, LENGTH, length);
        self.write_next(1, PAYLOAD, first);
        self.write_next(1, PAYLOAD + 1, second);
    }

    /// Shows an entry of this key in slot 1.
    fn replace(&mut self, rt: &impl Abort, key: Key)
        requires ready { IsReady (view self.old.seat) }
        requires client { self.old.client < 1024 }
        requires serial { self.old.shown < STAMPS_PER_CLIENT }
        requires trail { trail_to 8 key 1 ≡ [] }
    {
        let draft = self.draft(key, 100, 2, None);
        self.reserve(rt, 1, draft.charge);
        let words = self.next_words(draft);
        self.write_all(1, words);
        let data = self.table.data_of(1);
        let at = SlotAt { slot: 1, data };
        self.table.show_at(&mut self.seat, at, draft, &NEXT_VALUE);
        self.shown += 1;
    }

    /// Does this with the entry of the first key in slot 1.
    fn does(&mut self, rt: &impl Abort, what: Meanwhile)
        requires ready { IsReady (view self.old.seat) }
        requires client { self.old.client < 1024 }
        requires serial { self.old.shown < STAMPS_PER_CLIENT }
    {
        match what {
            Used => {
                self.hit(rt, 1);
            }
            Hidden => self.hide(rt),
            Taken => self.take(rt),
            Emptied => {
                self.evict(rt, 1, FIRST, None);
            }
            Built(stage, next) => {
                self.evict(rt, 1, FIRST, None);
                self.build(rt, stage, next.key());
            }
            Replaced(next) => {
                self.evict(rt, 1, FIRST, None);
                self.replace(rt, next.key());
            }
        }
    }
}

/// How a read of the first key ends, of which so many loads were made before the other client did
/// this: at the load of that number, or with a value.
fn read_while(
    rt: &impl Abort,
    alloc: Global,
    what: Meanwhile,
    before: u32,
) -> Result<u32, AllocError>
    requires few { before ≤ 10 }
{
    let (table, mut seats) = bench(alloc, 2)?;
    let mut other = hired(rt, &table, &mut seats);
    let mut me = hired(rt, &table, &mut seats);
    let entry = other.draft(FIRST, 200, 2, None);
    other.insert(rt, 1, entry, None);
    let mut words = [0; 10];
    let made = me.loads(0, before, &mut words);
    assert!(rt; made == before, "the read ended at load {made}");
    other.does(rt, what);
    let made = me.loads(before, LOADS, &mut words);
    Ok(if made == LOADS { answer(&words) } else { made })
}

/// How a read ends where no entry is shown from then on, by the loads before that.
const GONE: [u32; 11] = [0, 2, 2, 8, 8, 8, 8, 8, 8, OLD, OLD];

/// The other client's steps come before the first load of a read, between any two and after the
/// last one.
#[test]
fn a_read_without_a_reference_has_one_entry_or_none(rt: HostRuntime) -> Result<(), AllocError> {
    for (what, ends) in [
        (Used, [OLD; 11]),
        (Hidden, GONE),
        (Taken, GONE),
        (Emptied, GONE),
        (Built(Nothing, Same), GONE),
        (Built(Begun, Same), GONE),
        (Built(Begun, Word0), [0, 2, 2, 3, 8, 8, 8, 8, 8, OLD, OLD]),
        (Built(Begun, Word1), [0, 2, 2, 4, 4, 8, 8, 8, 8, OLD, OLD]),
        (Built(Stamped, Same), [0, 2, 2, 8, 8, 8, 8, 8, 8, 9, OLD]),
        (Built(Stamped, Word0), [0, 2, 2, 3, 8, 8, 8, 8, 8, 9, OLD]),
        (Built(Stamped, Word1), [0, 2, 2, 4, 4, 8, 8, 8, 8, 9, OLD]),
        (Built(Written, Same), [0, 2, 2, 8, 8, 8, 8, 8, 8, 9, OLD]),
        (Built(Written, Word0), [0, 2, 2, 3, 8, 8, 8, 8, 8, 9, OLD]),
        (Built(Written, Word1), [0, 2, 2, 4, 4, 8, 8, 8, 8, 9, OLD]),
        (Replaced(Same), [NEW, NEW, 9, 9, 9, 9, 9, 9, 9, 9, OLD]),
        (Replaced(Word0), [3, 3, 3, 3, 9, 9, 9, 9, 9, 9, OLD]),
        (Replaced(Word1), [4, 4, 4, 4, 4, 9, 9, 9, 9, 9, OLD]),
    ] {
        for before in 0..11 {
            let end = read_while(&rt, rt.alloc(), what, before)?;
            assert_eq!(rt; end, ends[before as usize], "{before} loads before");
        }
    }
    Ok(())
}
