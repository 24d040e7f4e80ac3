//! One client's calls in order: what each answers, and the words and totals that stand after it.

use super::calls::{Answer, Call, plays, values_of};
use super::stage::{SMALL, closes, opened};
use hcc_cache::Inserted::{Dropped, Placed, Standalone};
use hcc_cache::Priority::{Bottom, High, Low};
use hcc_cache::{Closed, Config, InsertError, LookupError, NewError};
use std::alloc::Global;
use std::process::Abort;
use std::test::Fail;

/// A step of a row.
type Step = (Call<'static>, Answer);

/// The client of a new cache makes calls, and the cache is closed.
pub(super) fn row(
    rt: &impl Abort,
    alloc: Global,
    config: Config,
    calls: &[(Call, Answer)],
) -> Result<Closed, NewError> {
    let Ok(values) = values_of(alloc, calls) else {
        return Err(NewError::OutOfMemory);
    };
    let mut stage = opened(alloc, config, values)?;
    plays(rt, &mut stage, 0, calls);
    Ok(closes(rt, stage))
}

/// A slot's word that is left, and how often the slot stands in trails.
fn left_in(rt: &impl Abort, closed: &Closed, slot: u32) -> [u64; 2] {
    assert!(rt; closed.shards() > 0, "no shard is left");
    assert!(rt; slot < closed.slots(0), "no such slot");
    [closed.word(0, slot), closed.displacement(0, slot)]
}

/// The key, the charge, the length of the value and the word of the entry that is left in a slot.
fn left_at(rt: &impl Abort, closed: &Closed, slot: u32) -> [u64; 5] {
    assert!(rt; closed.shards() > 0, "no shard is left");
    assert!(rt; slot < closed.slots(0), "no such slot");
    let entry = closed.entry(0, slot).expect(rt, "no entry is left");
    [
        entry.key.w0,
        entry.key.w1,
        entry.charge,
        entry.len as u64,
        entry.word,
    ]
}

/// The value of the entry that is left in a slot: how long it is, and its bytes with 0xee behind
/// them.
fn value_in(rt: &impl Abort, closed: &Closed, slot: u32) -> (usize, [u8; 16]) {
    assert!(rt; closed.shards() > 0, "no shard is left");
    assert!(rt; slot < closed.slots(0), "no such slot");
    let entry = closed.entry(0, slot).expect(rt, "no entry is left");
    assert!(rt; entry.len <= 16, "the value is too long");
    let mut bytes = [0xee; 16];
    let length = closed.value(0, slot, &mut bytes);
    (length, bytes)
}

/// Where the hand of the first shard is left.
fn hand(rt: &impl Abort, closed: &Closed) -> u64 {
    assert!(rt; closed.shards() > 0, "no shard is left");
    closed.hand(0)
}

/// An entry is placed in its key's first slot, with its countdown in its word. A new cache has
/// none, closed too.
const OF_LOW: [Step; 4] = [
    (Call::Totals, Answer::Totals(0, 0, 0)),
    (Call::Insert(0, 1, 200, Low, &[]), Answer::Stored(Placed)),
    (Call::Slot(0, 1), Answer::Slot(0xe000_0000_8000_0002, 0)),
    (Call::Totals, Answer::Totals(200, 1, 0)),
];

const OF_HIGH: [Step; 2] = [
    (Call::Insert(0, 1, 200, High, &[]), Answer::Stored(Placed)),
    (Call::Slot(0, 1), Answer::Slot(0xe000_0000_c000_0003, 0)),
];

const OF_BOTTOM: [Step; 2] = [
    (Call::Insert(0, 1, 200, Bottom, &[]), Answer::Stored(Placed)),
    (Call::Slot(0, 1), Answer::Slot(0xe000_0000_4000_0001, 0)),
];

const OF_PINNED: [Step; 4] = [
    (Call::Pin(0, 1, 200, Low, &[], 0), Answer::Stored(Placed)),
    (Call::Slot(0, 1), Answer::Slot(0xe000_0000_4000_0002, 0)),
    (Call::Totals, Answer::Totals(200, 1, 200)),
    (Call::Has, Answer::Has(1, 18_014_398_509_481_983)),
];

#[test]
fn new_entries(rt: HostRuntime) -> Result<(), Fail> {
    let closed = row(&rt, rt.alloc(), SMALL, &[])?;
    assert_eq!(rt; [closed.usage(), closed.occupied()], [0, 0]);
    assert_eq!(rt; [closed.slot_charges(), closed.slot_count()], [0, 0]);
    assert_eq!(rt; hand(&rt, &closed), 0);
    let closed = row(&rt, rt.alloc(), SMALL, &OF_LOW)?;
    assert_eq!(rt; [closed.usage(), closed.occupied()], [200, 1]);
    assert_eq!(rt;
        left_at(&rt, &closed, 1),
        [0, 1, 200, 0, 0xe000_0000_8000_0002]
    );
    row(&rt, rt.alloc(), SMALL, &OF_HIGH)?;
    row(&rt, rt.alloc(), SMALL, &OF_BOTTOM)?;
    let closed = row(&rt, rt.alloc(), SMALL, &OF_PINNED)?;
    assert_eq!(rt; left_in(&rt, &closed, 1), [0xe000_0000_4000_0001, 0]);
    Ok(())
}

/// A release is a use only where it is useful.
const USED: [Step; 9] = [
    (Call::Insert(0, 1, 200, Low, &[]), Answer::Stored(Placed)),
    (Call::Look(0, 1, 0), Answer::Found),
    (Call::Slot(0, 1), Answer::Slot(0xe000_0000_8000_0003, 0)),
    (Call::Release(0, false, false), Answer::Freed(false)),
    (Call::Slot(0, 1), Answer::Slot(0xe000_0000_8000_0002, 0)),
    (Call::Look(0, 1, 0), Answer::Found),
    (Call::Release(0, true, false), Answer::Freed(false)),
    (Call::Slot(0, 1), Answer::Slot(0xe000_0000_c000_0003, 0)),
    (Call::Did, Answer::Did([3, 0, 0, 0, 0, 0])),
];

/// Look-ups set the mark where the cache marks. An evicted entry that had it is counted.
const MARKED: [Step; 7] = [
    (Call::Insert(0, 1, 500, Low, &[]), Answer::Stored(Placed)),
    (Call::Look(0, 1, 0), Answer::Found),
    (Call::Slot(0, 1), Answer::Slot(0xf000_0000_8000_0003, 0)),
    (Call::Release(0, true, false), Answer::Freed(false)),
    (Call::Slot(0, 1), Answer::Slot(0xf000_0000_c000_0003, 0)),
    (Call::Insert(0, 2, 200, Low, &[]), Answer::Stored(Placed)),
    (Call::Did, Answer::Did([3, 0, 1, 1, 500, 7])),
];

/// A hidden entry isn't found, and goes with its last reference, useful or not.
const HIDDEN: [Step; 10] = [
    (Call::Pin(0, 1, 200, Low, &[], 0), Answer::Stored(Placed)),
    (Call::Erase(0, 1), Answer::Hidden(1)),
    (Call::Look(0, 1, 1), Answer::Missed),
    (Call::Release(0, true, false), Answer::Freed(true)),
    (Call::Slot(0, 1), Answer::Slot(0, 0)),
    (Call::Totals, Answer::Totals(0, 0, 0)),
    (Call::Pin(0, 1, 200, Low, &[], 0), Answer::Stored(Placed)),
    (Call::Erase(0, 1), Answer::Hidden(1)),
    (Call::Erase(0, 1), Answer::Hidden(0)),
    (Call::Release(0, false, false), Answer::Freed(true)),
];

/// The last of two handles erases where it is asked to.
const ERASED_LAST: [Step; 9] = [
    (Call::Insert(0, 1, 200, Low, &[]), Answer::Stored(Placed)),
    (Call::Look(0, 1, 0), Answer::Found),
    (Call::Release(0, false, true), Answer::Freed(true)),
    (Call::Totals, Answer::Totals(0, 0, 0)),
    (Call::Insert(0, 1, 200, Low, &[]), Answer::Stored(Placed)),
    (Call::Look(0, 1, 0), Answer::Found),
    (Call::Again(0, 1), Answer::Found),
    (Call::Release(0, false, true), Answer::Freed(false)),
    (Call::Release(1, false, true), Answer::Freed(true)),
];

#[test]
fn handles_are_given_back(rt: HostRuntime) -> Result<(), Fail> {
    row(&rt, rt.alloc(), SMALL, &USED)?;
    let marking = Config {
        marks: true,
        ..SMALL
    };
    row(&rt, rt.alloc(), marking, &MARKED)?;
    row(&rt, rt.alloc(), SMALL, &HIDDEN)?;
    let closed = row(&rt, rt.alloc(), SMALL, &ERASED_LAST)?;
    assert_eq!(rt; closed.usage(), 0);
    Ok(())
}

/// Each slot that an entry passed counts it until the entry is erased, and a search ends at a slot
/// that counts none.
const PASSED: [Step; 11] = [
    (Call::Insert(0, 1, 10, Low, &[]), Answer::Stored(Placed)),
    (Call::Insert(2, 1, 10, Low, &[]), Answer::Stored(Placed)),
    (Call::Slot(0, 1), Answer::Slot(0xe000_0000_8000_0002, 1)),
    (Call::Slot(0, 4), Answer::Slot(0xe000_0000_8000_0002, 0)),
    (Call::Look(2, 9, 0), Answer::Missed),
    (Call::Slot(0, 1), Answer::Slot(0xe000_0000_8000_0002, 1)),
    (Call::Slot(0, 4), Answer::Slot(0xe000_0000_8000_0002, 0)),
    (Call::Erase(2, 1), Answer::Hidden(1)),
    (Call::Slot(0, 1), Answer::Slot(0xe000_0000_8000_0002, 0)),
    (Call::Look(2, 9, 0), Answer::Missed),
    (Call::Did, Answer::Did([8, 0, 0, 0, 0, 0])),
];

/// Three entries in a row of slots, of which the middle one goes.
const CROSSED: [Step; 8] = [
    (Call::Insert(0, 1, 10, Low, &[]), Answer::Stored(Placed)),
    (Call::Insert(2, 1, 10, Low, &[]), Answer::Stored(Placed)),
    (Call::Insert(4, 1, 10, Low, &[]), Answer::Stored(Placed)),
    (Call::Slot(0, 1), Answer::Slot(0xe000_0000_8000_0002, 2)),
    (Call::Slot(0, 4), Answer::Slot(0xe000_0000_8000_0002, 0)),
    (Call::Slot(0, 6), Answer::Slot(0xe000_0000_8000_0002, 0)),
    (Call::Erase(2, 1), Answer::Hidden(1)),
    (Call::Slot(0, 1), Answer::Slot(0xe000_0000_8000_0002, 1)),
];

#[test]
fn trails_are_counted(rt: HostRuntime) -> Result<(), Fail> {
    row(&rt, rt.alloc(), SMALL, &PASSED)?;
    let closed = row(&rt, rt.alloc(), SMALL, &CROSSED)?;
    for (slot, left) in [
        (0, [0, 0]),
        (1, [0xe000_0000_8000_0002, 1]),
        (4, [0, 0]),
        (6, [0xe000_0000_8000_0002, 0]),
    ] {
        assert_eq!(rt; left_in(&rt, &closed, slot), left, "at {slot}");
    }
    Ok(())
}

/// An insertion that meets its key drops the new entry, and uses the old one.
const MET: [Step; 5] = [
    (Call::Insert(0, 1, 200, Low, &[]), Answer::Stored(Placed)),
    (Call::Insert(0, 1, 200, Low, &[]), Answer::Stored(Dropped)),
    (Call::Slot(0, 1), Answer::Slot(0xe000_0001_0000_0004, 0)),
    (Call::Totals, Answer::Totals(200, 1, 0)),
    (Call::Did, Answer::Did([2, 1, 0, 0, 0, 0])),
];

const OLD: [u8; 16] = [
    0xaa, 0xee, 0xee, 0xee, 0xee, 0xee, 0xee, 0xee, 0xee, 0xee, 0xee, 0xee, 0xee, 0xee, 0xee, 0xee,
];

const NEW: [u8; 16] = [
    0xbb, 0xee, 0xee, 0xee, 0xee, 0xee, 0xee, 0xee, 0xee, 0xee, 0xee, 0xee, 0xee, 0xee, 0xee, 0xee,
];

/// With a handle the new entry stands alone, and goes with its last handle.
const ALONE: [Step; 12] = [
    (
        Call::Insert(0, 1, 200, Low, &[0xaa]),
        Answer::Stored(Placed),
    ),
    (
        Call::Pin(0, 1, 200, Low, &[0xbb], 0),
        Answer::Stored(Standalone),
    ),
    (Call::Slot(0, 1), Answer::Slot(0xe000_0001_0000_0004, 0)),
    (Call::Totals, Answer::Totals(400, 1, 200)),
    (Call::Look(0, 1, 1), Answer::Found),
    (Call::Read(1), Answer::Entry(0, 1, 1, OLD)),
    (Call::Release(1, false, false), Answer::Freed(false)),
    (Call::Read(0), Answer::Entry(0, 1, 1, NEW)),
    (Call::Again(0, 1), Answer::Found),
    (Call::Release(0, false, false), Answer::Freed(false)),
    (Call::Release(1, false, false), Answer::Freed(true)),
    (Call::Totals, Answer::Totals(200, 1, 0)),
];

/// A hidden entry isn't met: its handle reads its value still, beside the new one of its key.
const ANEW: [Step; 11] = [
    (
        Call::Pin(0, 1, 200, Low, &[0xaa], 0),
        Answer::Stored(Placed),
    ),
    (Call::Erase(0, 1), Answer::Hidden(1)),
    (Call::Slot(0, 1), Answer::Slot(0xc000_0000_4000_0002, 0)),
    (
        Call::Pin(0, 1, 200, Low, &[0xbb], 1),
        Answer::Stored(Placed),
    ),
    (Call::Slot(0, 1), Answer::Slot(0xc000_0000_4000_0002, 1)),
    (Call::Look(0, 1, 2), Answer::Found),
    (Call::Slot(0, 2), Answer::Slot(0xe000_0000_4000_0003, 0)),
    (Call::Read(0), Answer::Entry(0, 1, 1, OLD)),
    (Call::Read(1), Answer::Entry(0, 1, 1, NEW)),
    (Call::Read(2), Answer::Entry(0, 1, 1, NEW)),
    (Call::Has, Answer::Has(3, 18_014_398_509_481_981)),
];

#[test]
fn a_key_has_one_visible_entry(rt: HostRuntime) -> Result<(), Fail> {
    row(&rt, rt.alloc(), SMALL, &MET)?;
    row(&rt, rt.alloc(), SMALL, &ALONE)?;
    row(&rt, rt.alloc(), SMALL, &ANEW)?;
    Ok(())
}

/// A walk holds the visible entry of a slot, and tells its countdown. It visits no slot for a key,
/// and where its handle is given back as no use the word is what it was.
const WALKED: [Step; 12] = [
    (
        Call::Insert(0, 1, 200, Low, &[0xaa]),
        Answer::Stored(Placed),
    ),
    (Call::Insert(0, 1, 200, Low, &[]), Answer::Stored(Dropped)),
    (Call::Walk(0, 1, 0), Answer::Held(0, 1, 200, 4)),
    (Call::Slot(0, 1), Answer::Slot(0xe000_0001_0000_0005, 0)),
    (Call::Read(0), Answer::Entry(0, 1, 1, OLD)),
    (Call::Release(0, false, false), Answer::Freed(false)),
    (Call::Slot(0, 1), Answer::Slot(0xe000_0001_0000_0004, 0)),
    (Call::Walk(0, 2, 0), Answer::Missed),
    (Call::Walk(0, 8, 0), Answer::Missed),
    (Call::Walk(1, 1, 0), Answer::Missed),
    (Call::Did, Answer::Did([2, 1, 0, 0, 0, 0])),
    (Call::Has, Answer::Has(0, 18_014_398_509_481_981)),
];

/// One handle is held at a time. What was erased isn't held.
const WALKED_ON: [Step; 9] = [
    (Call::Insert(0, 1, 200, Low, &[]), Answer::Stored(Placed)),
    (Call::Insert(0, 2, 100, High, &[]), Answer::Stored(Placed)),
    (Call::Walk(0, 1, 0), Answer::Held(0, 1, 200, 2)),
    (
        Call::Walk(0, 2, 1),
        Answer::NoHandle(LookupError::HandlesFull),
    ),
    (Call::Walk(0, 8, 1), Answer::Missed),
    (Call::Erase(0, 1), Answer::Hidden(1)),
    (Call::Release(0, false, false), Answer::Freed(true)),
    (Call::Walk(0, 1, 0), Answer::Missed),
    (Call::Walk(0, 2, 0), Answer::Held(0, 2, 100, 3)),
];

#[test]
fn walks_hold_what_is_visible(rt: HostRuntime) -> Result<(), Fail> {
    row(&rt, rt.alloc(), SMALL, &WALKED)?;
    let one = Config {
        handles: 1,
        ..SMALL
    };
    row(&rt, rt.alloc(), one, &WALKED_ON)?;
    Ok(())
}

/// Values of no bytes and of as many as fit are read back.
const FILLED: [u8; 16] = [0, 1, 2, 3, 4, 5, 6, 7, 8, 9, 10, 11, 12, 13, 14, 15];

const VALUES: [Step; 6] = [
    (Call::Insert(0, 1, 200, Low, &[]), Answer::Stored(Placed)),
    (
        Call::Insert(0, 2, 200, Low, &FILLED),
        Answer::Stored(Placed),
    ),
    (Call::Look(0, 1, 0), Answer::Found),
    (Call::Read(0), Answer::Entry(0, 1, 0, [0xee; 16])),
    (Call::Look(0, 2, 1), Answer::Found),
    (Call::Read(1), Answer::Entry(0, 2, 16, FILLED)),
];

#[test]
fn values_are_read_back(rt: HostRuntime) -> Result<(), Fail> {
    let closed = row(&rt, rt.alloc(), SMALL, &VALUES)?;
    assert_eq!(rt;
        left_at(&rt, &closed, 1),
        [0, 1, 200, 0, 0xe000_0000_8000_0002]
    );
    assert_eq!(rt;
        left_at(&rt, &closed, 2),
        [0, 2, 200, 16, 0xe000_0000_8000_0002]
    );
    assert_eq!(rt; value_in(&rt, &closed, 1), (0, [0xee; 16]));
    assert_eq!(rt; value_in(&rt, &closed, 2), (16, FILLED));
    Ok(())
}

/// An insertion evicts until as much was freed as it asked for: three countdowns of 2 fall in turns
/// 1 and 3, and turn 5 frees all three.
const EVICTED: [Step; 7] = [
    (Call::Insert(0, 0, 200, Low, &[]), Answer::Stored(Placed)),
    (Call::Insert(0, 1, 200, Low, &[]), Answer::Stored(Placed)),
    (Call::Insert(0, 2, 200, Low, &[]), Answer::Stored(Placed)),
    (Call::Insert(0, 3, 200, Low, &[]), Answer::Stored(Placed)),
    (Call::Slot(0, 3), Answer::Slot(0xe000_0000_8000_0002, 0)),
    (Call::Totals, Answer::Totals(200, 1, 0)),
    (Call::Did, Answer::Did([4, 0, 3, 0, 600, 5])),
];

/// A charge above all that is used evicts nothing. One below it asks for a little more than itself
/// where the usage is past the capacity.
const OVER: [Step; 6] = [
    (Call::Insert(0, 0, 90, Bottom, &[]), Answer::Stored(Placed)),
    (Call::Insert(0, 1, 95, Bottom, &[]), Answer::Stored(Placed)),
    (Call::Totals, Answer::Totals(185, 2, 0)),
    (Call::Insert(0, 2, 50, Bottom, &[]), Answer::Stored(Placed)),
    (Call::Totals, Answer::Totals(50, 1, 0)),
    (Call::Did, Answer::Did([3, 0, 2, 0, 185, 3])),
];

#[test]
fn insertions_evict(rt: HostRuntime) -> Result<(), Fail> {
    let closed = row(&rt, rt.alloc(), SMALL, &EVICTED)?;
    assert_eq!(rt; hand(&rt, &closed), 20);
    let narrow = Config {
        capacity: 100,
        ..SMALL
    };
    row(&rt, rt.alloc(), narrow, &OVER)?;
    Ok(())
}

/// Under strict capacity what isn't granted has to be freed.
const NOT_FREED: [Step; 5] = [
    (Call::Pin(0, 1, 60, Low, &[], 0), Answer::Stored(Placed)),
    (
        Call::Insert(0, 2, 60, Low, &[]),
        Answer::Refused(InsertError::CapacityFull),
    ),
    (Call::Totals, Answer::Totals(60, 1, 60)),
    (Call::Did, Answer::Did([1, 0, 0, 0, 0, 7])),
    (Call::Has, Answer::Has(1, 18_014_398_509_481_982)),
];

/// A charge above the capacity is too large: it uses no serial, and its value comes back.
const TOO_LARGE: [Step; 8] = [
    (
        Call::Insert(0, 1, 101, Low, &[]),
        Answer::Refused(InsertError::TooLarge),
    ),
    (
        Call::Pin(0, 1, 101, Low, &[7], 0),
        Answer::Refused(InsertError::TooLarge),
    ),
    (Call::Has, Answer::Has(0, 18_014_398_509_481_984)),
    (Call::Insert(0, 1, 100, Low, &[]), Answer::Stored(Placed)),
    (Call::Insert(0, 2, 100, Low, &[]), Answer::Stored(Placed)),
    (Call::Totals, Answer::Totals(100, 1, 0)),
    (Call::Did, Answer::Did([2, 0, 1, 0, 100, 5])),
    (Call::Has, Answer::Has(0, 18_014_398_509_481_982)),
];

#[test]
fn strict_capacity_is_kept(rt: HostRuntime) -> Result<(), Fail> {
    let strict = Config {
        capacity: 100,
        strict: true,
        ..SMALL
    };
    let closed = row(&rt, rt.alloc(), strict, &NOT_FREED)?;
    assert_eq!(rt; hand(&rt, &closed), 28);
    row(&rt, rt.alloc(), strict, &TOO_LARGE)?;
    Ok(())
}

/// A client that holds all the handles that it may is given none. Nothing is changed, and a value
/// comes back.
const FULL: [Step; 8] = [
    (Call::Insert(0, 1, 200, Low, &[]), Answer::Stored(Placed)),
    (Call::Look(0, 1, 0), Answer::Found),
    (
        Call::Look(0, 1, 1),
        Answer::NoHandle(LookupError::HandlesFull),
    ),
    (
        Call::Look(0, 9, 1),
        Answer::NoHandle(LookupError::HandlesFull),
    ),
    (
        Call::Again(0, 1),
        Answer::NoHandle(LookupError::HandlesFull),
    ),
    (
        Call::Pin(0, 2, 10, Low, &[7], 1),
        Answer::Refused(InsertError::HandlesFull),
    ),
    (Call::Slot(0, 1), Answer::Slot(0xe000_0000_8000_0003, 0)),
    (Call::Has, Answer::Has(1, 18_014_398_509_481_982)),
];

/// So is one that has used all its serials, whether or not the key is there.
const SPENT: [Step; 8] = [
    (Call::Has, Answer::Has(0, 1)),
    (Call::Insert(0, 1, 200, Low, &[]), Answer::Stored(Placed)),
    (Call::Look(0, 1, 0), Answer::NoHandle(LookupError::Spent)),
    (Call::Look(0, 9, 0), Answer::NoHandle(LookupError::Spent)),
    (
        Call::Insert(0, 2, 200, Low, &[]),
        Answer::Refused(InsertError::Spent),
    ),
    (
        Call::Pin(0, 2, 200, Low, &[7], 0),
        Answer::Refused(InsertError::Spent),
    ),
    (Call::Has, Answer::Has(0, 0)),
    (Call::Totals, Answer::Totals(200, 1, 0)),
];

#[test]
fn handles_and_serials_end(rt: HostRuntime) -> Result<(), Fail> {
    let one_handle = Config {
        handles: 1,
        ..SMALL
    };
    row(&rt, rt.alloc(), one_handle, &FULL)?;
    let one_serial = Config {
        serials: 1,
        ..SMALL
    };
    row(&rt, rt.alloc(), one_serial, &SPENT)?;
    Ok(())
}

/// The shard is that of the upper half of the seeded key's first word.
const SHARDED: [Step; 3] = [
    (
        Call::Insert(0x5_0000_0000, 1, 251, Low, &[]),
        Answer::Stored(Placed),
    ),
    (Call::Slot(1, 1), Answer::Slot(0xe000_0000_8000_0002, 0)),
    (
        Call::Insert(0, 1, 252, Low, &[]),
        Answer::Refused(InsertError::TooLarge),
    ),
];

/// Each shard has a part of the capacity, a clock and a hand of its own.
const APART: [Step; 5] = [
    (Call::Insert(0, 1, 200, Low, &[]), Answer::Stored(Placed)),
    (
        Call::Insert(0x1_0000_0000, 1, 200, Low, &[]),
        Answer::Stored(Placed),
    ),
    (Call::Insert(0, 2, 200, Low, &[]), Answer::Stored(Placed)),
    (Call::Totals, Answer::Totals(400, 2, 0)),
    (Call::Slot(1, 1), Answer::Slot(0xe000_0000_8000_0002, 0)),
];

#[test]
fn shards_stand_apart(rt: HostRuntime) -> Result<(), Fail> {
    let four = Config {
        shards: 4,
        capacity: 1_001,
        strict: true,
        ..SMALL
    };
    row(&rt, rt.alloc(), four, &SHARDED)?;
    let two = Config { shards: 2, ..SMALL };
    let closed = row(&rt, rt.alloc(), two, &APART)?;
    assert!(rt; closed.shards() == 2, "a shard is missing");
    assert_eq!(rt; [closed.hand(0), closed.hand(1)], [20, 0]);
    assert_eq!(rt; [closed.usage(), closed.occupied()], [400, 2]);
    Ok(())
}

/// A seed moves a key to another slot. What is told is the caller's key.
const SEEDED: [Step; 5] = [
    (Call::Insert(0, 1, 200, Low, &[]), Answer::Stored(Placed)),
    (Call::Slot(0, 5), Answer::Slot(0xe000_0000_8000_0002, 0)),
    (Call::Look(0, 1, 0), Answer::Found),
    (Call::Read(0), Answer::Entry(0, 1, 0, [0xee; 16])),
    (Call::Has, Answer::Has(1, 18_014_398_509_481_982)),
];

#[test]
fn keys_are_seeded(rt: HostRuntime) -> Result<(), Fail> {
    let seeded = Config { seed: 1, ..SMALL };
    let closed = row(&rt, rt.alloc(), seeded, &SEEDED)?;
    assert_eq!(rt;
        left_at(&rt, &closed, 5),
        [0, 1, 200, 0, 0xe000_0000_8000_0002]
    );
    Ok(())
}
