//! One client's calls in order: what each answers, and the words and totals that stand after it.
use super::calls::{Answer, Call, plays};
use super::visit::{Start, closes, comes, leaves, opened};
use hcc_charge::Refused::{CapacityFull, OccupancyFull, TooLarge};
use hcc_rule::Key;
use hcc_shard::ClosedShard;
use hcc_table::IfLast::{Erase, Keep};
use hcc_table::Use::{NotUseful, Useful};
use std::alloc::{AllocError, Global};
use std::process::Abort;

/// Calls in order, with their answers. The first probe of a key whose upper word is 0 is the slot
/// of the lower.
pub(super) type Row = &'static [(Call<'static>, Answer)];

/// The word of an entry with a countdown of 1, 2 or 3, and of one with a countdown of 2 that its
/// maker holds.
pub(super) const BOTTOM: u64 = 0xe000_0000_4000_0001;

pub(super) const LOW: u64 = 0xe000_0000_8000_0002;

pub(super) const HIGH: u64 = 0xe000_0000_c000_0003;

const KEPT: u64 = 0xe000_0000_4000_0002;

/// Values in a buffer of 16 bytes: one byte, and as many as fit.
const AA: [u8; 16] = [0xaa, 0, 0, 0, 0, 0, 0, 0, 0, 0, 0, 0, 0, 0, 0, 0];

const BB: [u8; 16] = [0xbb, 0, 0, 0, 0, 0, 0, 0, 0, 0, 0, 0, 0, 0, 0, 0];

pub(super) const FULL: [u8; 16] = [0, 1, 2, 3, 4, 5, 6, 7, 8, 9, 10, 11, 12, 13, 14, 15];

/// A shard of 8 slots with this capacity.
pub(super) fn of(capacity: u32, strict: bool) -> Start {
    Start {
        large: false,
        capacity,
        strict,
        marks: false,
    }
}

/// A shard of one client, who makes calls, after it kept the entries of the first keys with a
/// charge of 1 each. What is left of it.
pub(super) fn row(
    rt: &impl Abort,
    alloc: Global,
    start: Start,
    kept: u32,
    calls: &[(Call, Answer)],
) -> Result<ClosedShard<Global>, AllocError> {
    let (shard, mut seats, sizes) = opened(alloc, start, 1)?;
    let mut me = comes(rt, alloc, &shard, sizes, &mut seats);
    for slot in 0..kept {
        let pin = Call::Pin(0, slot as u64, 1, 2, &[]);
        plays(rt, &mut me, &[(pin, Answer::At(slot))])?;
    }
    plays(rt, &mut me, calls)?;
    let mut back = Vec::new(alloc);
    leaves(rt, me, &mut back)?;
    Ok(closes(rt, shard, sizes, back))
}

/// A slot's word that is left, and how often it stands in trails.
fn left_in(rt: &impl Abort, closed: &ClosedShard<Global>, slot: u32) -> [u64; 2] {
    assert!(rt; slot < closed.geometry().slots, "no such slot");
    [closed.word(slot), closed.displacement(slot)]
}

/// The key, the charge and the length of a slot's entry that is left, and a buffer with its value.
fn left_at(
    rt: &impl Abort,
    closed: &ClosedShard<Global>,
    slot: u32,
) -> (Key, u64, usize, [u8; 16]) {
    assert!(rt; slot < closed.geometry().slots, "no such slot");
    let entry = closed.entry(slot).expect(rt, "no entry is left");
    assert!(rt; entry.len <= 16, "the value is too long");
    let mut buffer = [0xee; 16];
    let length = closed.value(slot, &mut buffer);
    (entry.key, entry.charge, length, buffer)
}

/// An entry is placed in its key's first slot, with its countdown in its word.
pub(super) const PLACED: Row = &[
    (Call::Totals, Answer::Totals([0, 0, 0])),
    (Call::Insert(0, 1, 200, 2, &[]), Answer::Placed),
    (Call::Slot(1), Answer::Slot(LOW, 0)),
    (Call::Totals, Answer::Totals([200, 1, 0])),
    (Call::Insert(0, 2, 200, 3, &[]), Answer::Placed),
    (Call::Slot(2), Answer::Slot(HIGH, 0)),
    (Call::Insert(0, 3, 200, 1, &[]), Answer::Placed),
    (Call::Slot(3), Answer::Slot(BOTTOM, 0)),
    (Call::Totals, Answer::Totals([600, 3, 0])),
];

/// It is found, hidden and freed without being held.
const ERASED: Row = &[
    (Call::Insert(0, 1, 200, 2, &[]), Answer::Placed),
    (Call::Look(0, 1), Answer::At(1)),
    (Call::Release(1, NotUseful, Keep), Answer::Freed(false)),
    (Call::Erase(0, 1), Answer::Hidden(1)),
    (Call::Slot(1), Answer::Slot(0, 0)),
    (Call::Look(0, 1), Answer::Missing),
    (Call::Totals, Answer::Totals([0, 0, 0])),
];

#[test]
fn entries_are_placed_and_erased(rt: HostRuntime) -> Result<(), AllocError> {
    let closed = row(&rt, rt.alloc(), of(600, false), 0, &[])?;
    assert_eq!(rt;
        [closed.usage(), closed.occupied(), closed.hand()],
        [0, 0, 0]
    );
    let closed = row(&rt, rt.alloc(), of(600, false), 0, PLACED)?;
    assert_eq!(rt;
        [closed.usage(), closed.occupied(), closed.hand()],
        [600, 3, 0]
    );
    assert_eq!(rt; left_in(&rt, &closed, 2), [HIGH, 0]);
    row(&rt, rt.alloc(), of(600, false), 0, ERASED)?;
    Ok(())
}

/// A release is a use only where it is useful. The last of two releases erases where it is asked
/// to.
const USED: Row = &[
    (Call::Insert(0, 1, 200, 2, &[]), Answer::Placed),
    (Call::Look(0, 1), Answer::At(1)),
    (Call::Slot(1), Answer::Slot(0xe000_0000_8000_0003, 0)),
    (Call::Release(1, NotUseful, Keep), Answer::Freed(false)),
    (Call::Slot(1), Answer::Slot(LOW, 0)),
    (Call::Look(0, 1), Answer::At(1)),
    (Call::Release(2, Useful, Keep), Answer::Freed(false)),
    (Call::Slot(1), Answer::Slot(HIGH, 0)),
    (Call::Look(0, 1), Answer::At(1)),
    (Call::Again(3), Answer::At(1)),
    (Call::Release(3, NotUseful, Erase), Answer::Freed(false)),
    (Call::Release(4, NotUseful, Erase), Answer::Freed(true)),
    (Call::Insert(0, 2, 200, 2, &[]), Answer::Placed),
    (Call::Look(0, 2), Answer::At(2)),
    (Call::Release(6, NotUseful, Erase), Answer::Freed(true)),
    (Call::Totals, Answer::Totals([0, 0, 0])),
];

/// Look-ups of a shard that marks set the hit bit, and no other call does.
const MARKED: Row = &[
    (Call::Pin(0, 1, 200, 2, &[]), Answer::At(1)),
    (Call::Slot(1), Answer::Slot(KEPT, 0)),
    (Call::Totals, Answer::Totals([200, 1, 200])),
    (Call::Release(0, Useful, Keep), Answer::Freed(false)),
    (Call::Slot(1), Answer::Slot(LOW, 0)),
    (Call::Look(0, 1), Answer::At(1)),
    (Call::Release(1, Useful, Keep), Answer::Freed(false)),
    (Call::Slot(1), Answer::Slot(0xf000_0000_c000_0003, 0)),
];

/// A hidden entry goes with its last reference, useful or not. It is hidden once.
const HIDDEN: Row = &[
    (Call::Pin(0, 1, 200, 2, &[]), Answer::At(1)),
    (Call::Erase(0, 1), Answer::Hidden(1)),
    (Call::Look(0, 1), Answer::Missing),
    (Call::Release(0, Useful, Keep), Answer::Freed(true)),
    (Call::Slot(1), Answer::Slot(0, 0)),
    (Call::Totals, Answer::Totals([0, 0, 0])),
    (Call::Pin(0, 1, 200, 2, &[]), Answer::At(1)),
    (Call::Erase(0, 1), Answer::Hidden(1)),
    (Call::Erase(0, 1), Answer::Hidden(0)),
    (Call::Release(2, NotUseful, Keep), Answer::Freed(true)),
];

#[test]
fn references_are_given_back(rt: HostRuntime) -> Result<(), AllocError> {
    row(&rt, rt.alloc(), of(600, false), 0, USED)?;
    row(&rt, rt.alloc(), of(600, false), 0, HIDDEN)?;
    let mut start = of(600, false);
    start.marks = true;
    row(&rt, rt.alloc(), start, 0, MARKED)?;
    Ok(())
}

/// Each slot that an entry passed counts it until it is erased. A search ends at a slot that counts
/// none.
const PASSED: Row = &[
    (Call::Insert(0, 1, 10, 2, &[]), Answer::Placed),
    (Call::Insert(2, 1, 10, 2, &[]), Answer::Placed),
    (Call::Slot(1), Answer::Slot(LOW, 1)),
    (Call::Look(2, 9), Answer::Missing),
    (Call::Slot(1), Answer::Slot(LOW, 1)),
    (Call::Slot(4), Answer::Slot(LOW, 0)),
    (Call::Erase(2, 1), Answer::Hidden(1)),
    (Call::Slot(1), Answer::Slot(LOW, 0)),
    (Call::Look(2, 9), Answer::Missing),
    (Call::Work, Answer::Did([8, 0, 0, 0, 0, 0, 0, 0])),
];

/// Two entries passed one slot.
const PASSED_TWICE: Row = &[
    (Call::Insert(0, 1, 10, 2, &[]), Answer::Placed),
    (Call::Insert(2, 1, 10, 2, &[]), Answer::Placed),
    (Call::Insert(4, 1, 10, 2, &[]), Answer::Placed),
    (Call::Slot(1), Answer::Slot(LOW, 2)),
    (Call::Slot(4), Answer::Slot(LOW, 0)),
    (Call::Slot(6), Answer::Slot(LOW, 0)),
    (Call::Erase(2, 1), Answer::Hidden(1)),
    (Call::Slot(1), Answer::Slot(LOW, 1)),
];

#[test]
fn trails_are_counted(rt: HostRuntime) -> Result<(), AllocError> {
    row(&rt, rt.alloc(), of(600, false), 0, PASSED)?;
    let closed = row(&rt, rt.alloc(), of(600, false), 0, PASSED_TWICE)?;
    assert_eq!(rt; left_in(&rt, &closed, 1), [LOW, 1]);
    assert_eq!(rt; left_in(&rt, &closed, 4), [0, 0]);
    assert_eq!(rt; left_in(&rt, &closed, 6), [LOW, 0]);
    Ok(())
}

/// An insertion that meets its key drops the new entry, and uses the old one.
const DROPPED: Row = &[
    (Call::Insert(0, 1, 200, 2, &[]), Answer::Placed),
    (Call::Insert(0, 1, 200, 2, &[]), Answer::Dropped),
    (Call::Slot(1), Answer::Slot(0xe000_0001_0000_0004, 0)),
    (Call::Totals, Answer::Totals([200, 1, 0])),
    (Call::Work, Answer::Did([2, 1, 0, 0, 0, 0, 0, 0])),
];

/// One that keeps a reference keeps the new entry alone.
const ALONE: Row = &[
    (Call::Insert(0, 1, 200, 2, &[0xaa]), Answer::Placed),
    (Call::Pin(0, 1, 200, 2, &[0xbb]), Answer::Standalone),
    (Call::Slot(1), Answer::Slot(0xe000_0001_0000_0004, 0)),
    (Call::Totals, Answer::Totals([400, 1, 200])),
    (Call::Look(0, 1), Answer::At(1)),
    (Call::Read(2), Answer::Entry(0, 1, 1, AA)),
    (Call::Release(2, NotUseful, Keep), Answer::Freed(false)),
    (Call::Fall(1), Answer::Gone),
    (Call::Totals, Answer::Totals([200, 1, 0])),
];

/// A hidden entry isn't met, and its references read its value still.
const NEWER: Row = &[
    (Call::Pin(0, 1, 200, 2, &[0xaa]), Answer::At(1)),
    (Call::Erase(0, 1), Answer::Hidden(1)),
    (Call::Slot(1), Answer::Slot(0xc000_0000_4000_0002, 0)),
    (Call::Pin(0, 1, 200, 2, &[0xbb]), Answer::At(2)),
    (Call::Slot(1), Answer::Slot(0xc000_0000_4000_0002, 1)),
    (Call::Look(0, 1), Answer::At(2)),
    (Call::Slot(2), Answer::Slot(0xe000_0000_4000_0003, 0)),
    (Call::Read(0), Answer::Entry(0, 1, 1, AA)),
    (Call::Read(1), Answer::Entry(0, 1, 1, BB)),
    (Call::Read(2), Answer::Entry(0, 1, 1, BB)),
];

#[test]
fn a_key_has_one_entry(rt: HostRuntime) -> Result<(), AllocError> {
    row(&rt, rt.alloc(), of(600, false), 0, DROPPED)?;
    row(&rt, rt.alloc(), of(600, false), 0, ALONE)?;
    row(&rt, rt.alloc(), of(600, false), 0, NEWER)?;
    Ok(())
}

/// Values of no bytes and of as many as fit are read back.
const READ: Row = &[
    (Call::Insert(0, 1, 200, 2, &[]), Answer::Placed),
    (Call::Insert(0, 2, 100, 2, &FULL), Answer::Placed),
    (Call::Look(0, 1), Answer::At(1)),
    (Call::Look(0, 2), Answer::At(2)),
    (Call::Read(2), Answer::Entry(0, 1, 0, [0; 16])),
    (Call::Read(3), Answer::Entry(0, 2, 16, FULL)),
];

#[test]
fn values_are_read_back(rt: HostRuntime) -> Result<(), AllocError> {
    let closed = row(&rt, rt.alloc(), of(600, false), 0, READ)?;
    let (one, two) = (Key { w0: 0, w1: 1 }, Key { w0: 0, w1: 2 });
    assert_eq!(rt; left_at(&rt, &closed, 1), (one, 200, 0, [0xee; 16]));
    assert_eq!(rt; left_at(&rt, &closed, 2), (two, 100, 16, FULL));
    assert_eq!(rt; left_in(&rt, &closed, 3), [0, 0]);
    Ok(())
}

/// Without strict capacity an insertion evicts until as much was freed as it asked for.
const EVICTED: Row = &[
    (Call::Insert(0, 0, 200, 2, &[]), Answer::Placed),
    (Call::Insert(0, 1, 200, 2, &[]), Answer::Placed),
    (Call::Insert(0, 2, 200, 2, &[]), Answer::Placed),
    (Call::Insert(0, 3, 200, 2, &[]), Answer::Placed),
    (Call::Slot(3), Answer::Slot(LOW, 0)),
    (Call::Totals, Answer::Totals([200, 1, 0])),
    (Call::Work, Answer::Did([4, 0, 3, 0, 600, 5, 0, 0])),
];

/// One with a charge above all that is used evicts nothing.
const ABOVE: Row = &[
    (Call::Insert(0, 0, 90, 1, &[]), Answer::Placed),
    (Call::Insert(0, 1, 95, 1, &[]), Answer::Placed),
    (Call::Totals, Answer::Totals([185, 2, 0])),
    (Call::Insert(0, 2, 50, 1, &[]), Answer::Placed),
    (Call::Totals, Answer::Totals([50, 1, 0])),
    (Call::Work, Answer::Did([3, 0, 2, 0, 185, 3, 0, 0])),
];

#[test]
fn insertions_evict(rt: HostRuntime) -> Result<(), AllocError> {
    let closed = row(&rt, rt.alloc(), of(600, false), 0, EVICTED)?;
    assert_eq!(rt; closed.hand(), 20);
    row(&rt, rt.alloc(), of(100, false), 0, ABOVE)?;
    Ok(())
}

/// Under strict capacity what isn't granted has to be freed.
const REFUSED: Row = &[
    (Call::Pin(0, 1, 60, 2, &[]), Answer::At(1)),
    (
        Call::Insert(0, 2, 60, 2, &[]),
        Answer::Refused(CapacityFull),
    ),
    (Call::Totals, Answer::Totals([60, 1, 60])),
    (Call::Work, Answer::Did([1, 0, 0, 0, 0, 7, 0, 0])),
];

/// A charge above it is too large.
const LARGE: Row = &[
    (Call::Insert(0, 1, 101, 2, &[]), Answer::Refused(TooLarge)),
    (Call::Insert(0, 1, 100, 2, &[]), Answer::Placed),
    (Call::Insert(0, 2, 100, 2, &[]), Answer::Placed),
    (Call::Totals, Answer::Totals([100, 1, 0])),
    (Call::Work, Answer::Did([2, 0, 1, 0, 100, 5, 0, 0])),
];

#[test]
fn strict_capacity_is_kept(rt: HostRuntime) -> Result<(), AllocError> {
    let closed = row(&rt, rt.alloc(), of(100, true), 0, REFUSED)?;
    assert_eq!(rt; closed.hand(), 28);
    row(&rt, rt.alloc(), of(100, true), 0, LARGE)?;
    Ok(())
}

/// Where all places are taken by entries that are held, an insertion gives up: after 7 turns with 8
/// slots. It keeps the entry alone,
const SIX_HELD: Row = &[
    (Call::Pin(0, 6, 1, 2, &[]), Answer::Standalone),
    (Call::Totals, Answer::Totals([7, 6, 7])),
    (Call::Work, Answer::Did([6, 0, 0, 0, 0, 7, 0, 0])),
];

/// or drops it,
const SIX_HELD_DROPPED: Row = &[
    (Call::Insert(0, 6, 1, 2, &[]), Answer::Dropped),
    (Call::Totals, Answer::Totals([6, 6, 6])),
];

/// and under strict capacity it is refused.
const SIX_HELD_STRICT: Row = &[
    (
        Call::Insert(0, 6, 1, 2, &[]),
        Answer::Refused(OccupancyFull),
    ),
    (Call::Totals, Answer::Totals([6, 6, 6])),
];

/// With 64 slots it gives up after 8 turns, in which 32 entries were held.
const MANY_HELD: Row = &[
    (Call::Pin(0, 53, 1, 2, &[]), Answer::Standalone),
    (Call::Totals, Answer::Totals([54, 53, 54])),
    (Call::Work, Answer::Did([53, 0, 0, 0, 0, 8, 0, 0])),
];

const MANY_HELD_DROPPED: Row = &[
    (Call::Insert(0, 53, 1, 2, &[]), Answer::Dropped),
    (Call::Totals, Answer::Totals([53, 53, 53])),
];

const MANY_HELD_STRICT: Row = &[
    (
        Call::Insert(0, 53, 1, 2, &[]),
        Answer::Refused(OccupancyFull),
    ),
    (Call::Totals, Answer::Totals([53, 53, 53])),
    (Call::Work, Answer::Did([53, 0, 0, 0, 0, 8, 0, 0])),
];

/// One that isn't held, and wasn't reached, changes nothing.
const ONE_FREE: Row = &[
    (Call::Insert(0, 52, 1, 1, &[]), Answer::Placed),
    (Call::Pin(0, 53, 1, 2, &[]), Answer::Standalone),
    (Call::Totals, Answer::Totals([54, 53, 53])),
    (Call::Work, Answer::Did([53, 0, 0, 0, 0, 8, 0, 0])),
];

#[test]
fn held_entries_leave_no_place(rt: HostRuntime) -> Result<(), AllocError> {
    row(&rt, rt.alloc(), of(600, false), 6, SIX_HELD)?;
    row(&rt, rt.alloc(), of(600, false), 6, SIX_HELD_DROPPED)?;
    row(&rt, rt.alloc(), of(600, true), 6, SIX_HELD_STRICT)?;
    let mut start = of(600, false);
    start.large = true;
    let closed = row(&rt, rt.alloc(), start, 53, MANY_HELD)?;
    assert_eq!(rt; closed.hand(), 32);
    row(&rt, rt.alloc(), start, 53, MANY_HELD_DROPPED)?;
    row(&rt, rt.alloc(), start, 52, ONE_FREE)?;
    start.strict = true;
    row(&rt, rt.alloc(), start, 53, MANY_HELD_STRICT)?;
    Ok(())
}

/// Two clients move one hand: this one begins where the client before it stopped.
const NEXT: Row = &[
    (Call::Insert(0, 4, 200, 2, &[]), Answer::Placed),
    (Call::Insert(0, 5, 200, 2, &[]), Answer::Placed),
    (Call::Insert(0, 6, 200, 2, &[]), Answer::Placed),
    (Call::Totals, Answer::Totals([400, 2, 0])),
    (Call::Slot(3), Answer::Slot(0xe000_0000_0000_0000, 0)),
    (Call::Work, Answer::Did([3, 0, 2, 0, 400, 5, 0, 0])),
];

#[test]
fn clients_share_the_hand(rt: HostRuntime) -> Result<(), AllocError> {
    let (shard, mut seats, sizes) = opened(rt.alloc(), of(600, false), 2)?;
    let mut second = comes(&rt, rt.alloc(), &shard, sizes, &mut seats);
    let mut first = comes(&rt, rt.alloc(), &shard, sizes, &mut seats);
    plays(&rt, &mut first, EVICTED)?;
    plays(&rt, &mut second, NEXT)?;
    let mut back = Vec::new(rt.alloc());
    leaves(&rt, first, &mut back)?;
    leaves(&rt, second, &mut back)?;
    assert_eq!(rt; closes(&rt, shard, sizes, back).hand(), 40);
    Ok(())
}
