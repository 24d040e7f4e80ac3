//! Calls as data, each with the answer that is wanted.
ghost use Rattle.std.specs.Prelude.{◌≡◌, ◌<◌, ◌≤◌, length};
ghost use Rattle.hcc_rule_tests.specs.Benches.{IsReady};
ghost use Rattle.hcc_rule.specs.Callers.{slots_of};
ghost use Rattle.hcc_rule.specs.Seats.{view};
ghost use Rattle.hcc_shard_tests.specs.Handles.{first_name, second_name, Holds, HoldsOne, HoldsTwo, IsPin};

use super::caller::Caller;
use hcc_rule::Key;
use hcc_table::{ClockVisit, Effort, Erased, IfLast, Insertion, Pin, Use};
use hcc_word::refs;
use std::process::Abort;

/// A call of a client, which holds up to two handles.
#[derive(Clone, Copy)]
pub(super) enum Call<'v> {
    /// Of the key, with the charge, the countdown and the value.
    Insert(Key, u32, u32, &'v [u8]),
    /// The same with a handle.
    Keep(Key, u32, u32, &'v [u8]),
    /// Of the key, and whether it marks.
    Find(Key, bool),
    /// Of the newer handle.
    Release(Use, IfLast),
    /// Of the handle.
    Read,
    Word,
    /// One handle more on its entry. Then both are given back.
    Twice,
    /// Of both handles and, between them, of a third one on an entry of the key.
    Three(Key),
    /// Of the key.
    Hide(Key),
    /// Of a slot.
    Visit(u32),
    Pinned(u32),
    Slot(u32),
    /// Takes an entry without references, and frees it.
    Evict(u32),
    /// Uses an entry three times at once, so often.
    Wear(u32, u32),
    Totals,
    /// What all calls took.
    Took,
}

/// What a call answers.
#[derive(Clone, Copy, Debug, PartialEq, Eq)]
pub(super) enum Answer {
    Inserted(Insertion),
    /// The new handle.
    Held(Pin),
    /// No entry is found.
    Missing,
    /// The charge of the entry that was freed.
    Freed(Option<u64>),
    /// The key, how long the value is, how much was read, and the buffer.
    Entry(Key, usize, usize, [u8; 20]),
    /// The word, and the references in it.
    Word(u64, u32),
    /// The words with both handles, with one and with none.
    Twice([u64; 3]),
    /// The first bytes of both values. Of the entry that is found: the slot, its word, and the
    /// first byte.
    Three(u8, u8, (u32, u64, u8)),
    Erased(Erased),
    Visited(ClockVisit),
    /// A charge.
    Charge(u64),
    /// The word, and how often the slot stands in trails.
    Slot(u64, u64),
    Worn,
    /// The usage and the occupancy.
    Totals([u64; 2]),
    Took(Effort),
}

/// What came of a call, and the handles that are held then.
#[derive(Drop)]
struct Done {
    answer: Answer,
    one: Option<Pin>,
    two: Option<Pin>,
}

/// Plays the calls in order. No handle is held before and after them.
pub(super) fn plays(rt: &impl Abort, me: &mut Caller, calls: &[(Call, Answer)])
    requires ready { IsReady (view me.old.seat) }
    ensures same { me.new.table ≡ me.old.table }
    ensures ready { IsReady (view me.new.seat) }
{
    let mut one: Option<Pin> = None;
    let mut two: Option<Pin> = None;
    let mut count = 0u32;
    for step in calls {
        let (call, wanted) = *step;
        let done = answers(rt, me, one, two, call);
        assert_eq!(rt; done.answer, wanted, "at call {count}");
        one = done.one;
        two = done.two;
        count = count.saturating_add(1);
    }
    if let Some(pin) = one {
        panic!(rt; "a handle is held: {pin:?}");
    }
}

/// Makes a call.
fn answers(rt: &impl Abort, me: &mut Caller, one: Option<Pin>, two: Option<Pin>, call: Call) -> Done
    requires holds { Holds (slots_of me.old.table.now) one two (view me.old.seat) }
    ensures same { me.new.table ≡ me.old.table }
    ensures holds { Holds (slots_of me.new.table.now) result.one result.two (view me.new.seat) }
{
    if let Call::Took = call {
        let answer = Answer::Took(me.effort);
        return Done { answer, one, two };
    }
    match one {
        None => free(rt, me, call),
        Some(pin) => match two {
            None => holding(rt, me, pin, call),
            Some(other) => both(rt, me, pin, other, call),
        },
    }
}

/// Makes a call where no handle is held.
fn free(rt: &impl Abort, me: &mut Caller, call: Call) -> Done
    requires ready { IsReady (view me.old.seat) }
    ensures same { me.new.table ≡ me.old.table }
    ensures holds { Holds (slots_of me.new.table.now) result.one result.two (view me.new.seat) }
{
    match call {
        Call::Keep(key, charge, countdown, value) => {
            allows(rt, charge, countdown, value);
            let pin = me.keep(rt, key, charge, countdown, value);
            Done {
                answer: Answer::Held(pin),
                one: Some(pin),
                two: None,
            }
        }
        Call::Find(key, marks) => match me.find(key, marks) {
            Some(pin) => Done {
                answer: Answer::Held(pin),
                one: Some(pin),
                two: None,
            },
            None => Done {
                answer: Answer::Missing,
                one: None,
                two: None,
            },
        },
        _ => Done {
            answer: keeps_none(rt, me, call),
            one: None,
            two: None,
        },
    }
}

/// Sees that an entry may be inserted.
fn allows(rt: &impl Abort, charge: u32, countdown: u32, value: &[u8])
    ensures charge { 0 < charge }
    ensures countdown { (1 ≤ countdown) × (countdown ≤ 3) }
    ensures short { length value.now ≤ 16 }
{
    assert!(rt; charge > 0, "no charge");
    assert!(rt; countdown > 0, "no countdown");
    assert!(rt; countdown <= 3, "the countdown is too long");
    assert!(rt; value.len() <= 16, "the value is too long");
}

/// Makes a call before and after which no handle is held.
fn keeps_none(rt: &impl Abort, me: &mut Caller, call: Call) -> Answer
    requires ready { IsReady (view me.old.seat) }
    ensures same { me.new.table ≡ me.old.table }
    ensures ready { IsReady (view me.new.seat) }
{
    match call {
        Call::Insert(key, charge, countdown, value) => {
            allows(rt, charge, countdown, value);
            Answer::Inserted(me.insert(rt, key, charge, countdown, value))
        }
        Call::Hide(key) => Answer::Erased(me.hide(key)),
        Call::Totals => Answer::Totals(me.totals()),
        Call::Visit(slot) => {
            assert!(rt; slot < 8, "no such slot");
            Answer::Visited(me.visit(slot))
        }
        Call::Slot(slot) => {
            assert!(rt; slot < 8, "no such slot");
            Answer::Slot(me.word(slot), me.displacement(slot))
        }
        Call::Evict(slot) => {
            assert!(rt; slot < 8, "no such slot");
            Answer::Charge(me.evict(rt, slot))
        }
        Call::Wear(slot, times) => {
            assert!(rt; slot < 8, "no such slot");
            me.wear(rt, slot, times);
            Answer::Worn
        }
        _ => panic!(rt; "no handle is held"),
    }
}

/// Makes a call where a handle is held.
fn holding(rt: &impl Abort, me: &mut Caller, pin: Pin, call: Call) -> Done
    requires pin { IsPin (slots_of me.old.table.now) first_name pin }
    requires holds { HoldsOne pin (view me.old.seat) }
    ensures same { me.new.table ≡ me.old.table }
    ensures holds { Holds (slots_of me.new.table.now) result.one result.two (view me.new.seat) }
{
    match call {
        Call::Keep(key, charge, countdown, value) => {
            allows(rt, charge, countdown, value);
            let other = me.keep_other(rt, pin, key, charge, countdown, value);
            Done {
                answer: Answer::Held(other),
                one: Some(pin),
                two: Some(other),
            }
        }
        Call::Release(as_use, last) => Done {
            answer: Answer::Freed(me.release(pin, as_use, last)),
            one: None,
            two: None,
        },
        Call::Twice => Done {
            answer: Answer::Twice(me.hold_twice(rt, pin)),
            one: None,
            two: None,
        },
        _ => Done {
            answer: keeps_one(rt, me, pin, call),
            one: Some(pin),
            two: None,
        },
    }
}

/// Makes a call before and after which a handle is held.
fn keeps_one(rt: &impl Abort, me: &mut Caller, pin: Pin, call: Call) -> Answer
    requires pin { IsPin (slots_of me.old.table.now) first_name pin }
    requires holds { HoldsOne pin (view me.old.seat) }
    ensures same { me.new.table ≡ me.old.table }
    ensures pin { IsPin (slots_of me.new.table.now) first_name pin }
    ensures holds { HoldsOne pin (view me.new.seat) }
{
    match call {
        Call::Insert(key, charge, countdown, value) => {
            allows(rt, charge, countdown, value);
            Answer::Inserted(me.insert_held(rt, pin, key, charge, countdown, value))
        }
        Call::Find(key, _) => {
            assert!(rt; me.misses_held(pin, key), "the key has another entry");
            Answer::Missing
        }
        Call::Read => {
            let (key, length, count, buffer) = me.read(pin);
            Answer::Entry(key, length, count, buffer)
        }
        Call::Word => {
            let word = me.word_held(pin);
            Answer::Word(word, refs(word))
        }
        Call::Hide(key) => Answer::Erased(me.hide_held(rt, pin, key)),
        Call::Visit(slot) => {
            assert!(rt; slot == pin.slot, "the handle is on another slot");
            Answer::Visited(me.visit_held(rt, pin))
        }
        Call::Pinned(slot) => {
            assert!(rt; slot < 8, "no such slot");
            Answer::Charge(me.pinned(pin, slot))
        }
        _ => panic!(rt; "a handle is held"),
    }
}

/// Makes a call where two handles are held.
fn both(rt: &impl Abort, me: &mut Caller, pin: Pin, other: Pin, call: Call) -> Done
    requires pins { IsPin (slots_of me.old.table.now) first_name pin
        × IsPin (slots_of me.old.table.now) second_name other }
    requires holds { HoldsTwo pin other (view me.old.seat) }
    ensures same { me.new.table ≡ me.old.table }
    ensures holds { Holds (slots_of me.new.table.now) result.one result.two (view me.new.seat) }
{
    match call {
        Call::Three(key) => {
            let (first, second, found) = me.read_three(rt, pin, other, key);
            Done {
                answer: Answer::Three(first, second, found),
                one: Some(pin),
                two: Some(other),
            }
        }
        Call::Release(as_use, last) => {
            me.release_other(rt, pin, other, as_use, last);
            Done {
                answer: Answer::Freed(None),
                one: Some(pin),
                two: None,
            }
        }
        _ => panic!(rt; "two handles are held"),
    }
}
