//! One client's calls in order: what each answers, and the words and totals that stand after it. A
//! meta word is `acquires + releases·2^30 + hit·2^60 + state·2^61`.
use super::caller::NAME;
use super::calls::{Answer, Call, plays};
use super::held::{OTHER, UNREAD};
use super::hired::{bench, hired};
use hcc_rule::Key;
use hcc_table::IfLast::{Erase, Keep};
use hcc_table::Insertion::{Matched, Placed};
use hcc_table::Use::{NotUseful, Useful};
use hcc_table::{ClockVisit, Effort, Erased, Pin};
use std::alloc::{AllocError, Global};
use std::process::Abort;

/// Calls in order, with their answers.
type Row = &'static [(Call<'static>, Answer)];

/// Keys whose first probe is slot 1. The others' next one is slot 4 and slot 6.
const FIRST: Key = Key { w0: 0, w1: 1 };

const SECOND: Key = Key { w0: 2, w1: 1 };

const THIRD: Key = Key { w0: 4, w1: 1 };

/// A key that no test inserts, whose first probe is slot 1 and whose next one is slot 4.
const ABSENT: Key = Key { w0: 2, w1: 9 };

/// The words of an entry that nobody holds, with a countdown of 1, 2 or 3.
const BOTTOM: u64 = 0xe000_0000_4000_0001;

const LOW: u64 = 0xe000_0000_8000_0002;

const HIGH: u64 = 0xe000_0000_c000_0003;

/// What an insertion answers that is placed in slot 1, without a handle and with one.
const AT_1: Answer = Answer::Inserted(Placed { slot: 1 });

const HELD: Answer = Answer::Held(Pin {
    slot: 1,
    name: NAME,
    counting: true,
});

/// The same of the second handle, in slot 2, of the first in slot 4, and of a reference that
/// doesn't count.
const HELD_TOO: Answer = Answer::Held(Pin {
    slot: 2,
    name: OTHER,
    counting: true,
});

const HELD_AT_4: Answer = Answer::Held(Pin {
    slot: 4,
    name: NAME,
    counting: true,
});

const UNCOUNTED: Answer = Answer::Held(Pin {
    slot: 1,
    name: NAME,
    counting: false,
});

/// What comes of hiding an entry of charge 10 that nobody holds, and of hiding one that is held.
const GONE: Answer = Answer::Erased(Erased {
    hidden: 1,
    slots: 1,
    charge: 10,
});

const HIDDEN: Answer = Answer::Erased(Erased {
    hidden: 1,
    slots: 0,
    charge: 0,
});

/// What a visit answers that counts an entry down.
const COUNTED: Answer = Answer::Visited(ClockVisit::Counted);

/// What a visit answers that frees an entry of charge 200 which no look-up marked, and one of
/// charge 10 that was marked.
const UNMARKED: Answer = Answer::Visited(ClockVisit::Freed {
    charge: 200,
    hit: false,
});

const MARKED: Answer = Answer::Visited(ClockVisit::Freed {
    charge: 10,
    hit: true,
});

/// What calls took: of three insertions, two hidings and two searches, and of an insertion and a
/// search that corrected.
const PROBED: Answer = Answer::Took(Effort {
    probes: 12,
    corrections: 0,
    lost: 0,
});

const CORRECTED: Answer = Answer::Took(Effort {
    probes: 2,
    corrections: 1,
    lost: 0,
});

/// The client of a new shard makes calls.
fn row(rt: &impl Abort, alloc: Global, calls: &[(Call, Answer)]) -> Result<(), AllocError> {
    let (table, mut seats) = bench(alloc, false)?;
    let mut me = hired(rt, &table, &mut seats);
    plays(rt, &mut me, calls);
    Ok(())
}

/// A new entry's uses are its countdown, less one where its maker keeps a handle, until that is
/// released as a use. Whoever takes the entry frees its slot.
const NEW: Row = &[
    (Call::Insert(FIRST, 200, 1, &[]), AT_1),
    (Call::Slot(1), Answer::Slot(BOTTOM, 0)),
    (Call::Totals, Answer::Totals([200, 1])),
    (Call::Evict(1), Answer::Charge(200)),
    (Call::Slot(1), Answer::Slot(0, 0)),
    (Call::Keep(FIRST, 200, 1, &[]), HELD),
    (Call::Word, Answer::Word(0xe000_0000_0000_0001, 1)),
    (Call::Release(Useful, Keep), Answer::Freed(None)),
    (Call::Slot(1), Answer::Slot(BOTTOM, 0)),
    (Call::Evict(1), Answer::Charge(200)),
    (Call::Totals, Answer::Totals([0, 0])),
    (Call::Insert(FIRST, 200, 2, &[]), AT_1),
    (Call::Slot(1), Answer::Slot(LOW, 0)),
    (Call::Totals, Answer::Totals([200, 1])),
    (Call::Evict(1), Answer::Charge(200)),
    (Call::Slot(1), Answer::Slot(0, 0)),
    (Call::Keep(FIRST, 200, 2, &[]), HELD),
    (Call::Word, Answer::Word(0xe000_0000_4000_0002, 1)),
    (Call::Release(Useful, Keep), Answer::Freed(None)),
    (Call::Slot(1), Answer::Slot(LOW, 0)),
    (Call::Evict(1), Answer::Charge(200)),
    (Call::Totals, Answer::Totals([0, 0])),
    (Call::Insert(FIRST, 200, 3, &[]), AT_1),
    (Call::Slot(1), Answer::Slot(HIGH, 0)),
    (Call::Totals, Answer::Totals([200, 1])),
    (Call::Evict(1), Answer::Charge(200)),
    (Call::Slot(1), Answer::Slot(0, 0)),
    (Call::Keep(FIRST, 200, 3, &[]), HELD),
    (Call::Word, Answer::Word(0xe000_0000_8000_0003, 1)),
    (Call::Release(Useful, Keep), Answer::Freed(None)),
    (Call::Slot(1), Answer::Slot(HIGH, 0)),
    (Call::Evict(1), Answer::Charge(200)),
    (Call::Totals, Answer::Totals([0, 0])),
];

#[test]
fn a_new_word_tells_the_countdown(rt: HostRuntime) -> Result<(), AllocError> {
    row(&rt, rt.alloc(), NEW)
}

/// A find holds the entry; its release is a use or not, and a mark stays.
const FOUND: Row = &[
    (Call::Insert(FIRST, 200, 2, &[]), AT_1),
    (Call::Find(FIRST, false), HELD),
    (Call::Word, Answer::Word(0xe000_0000_8000_0003, 1)),
    (Call::Release(Useful, Keep), Answer::Freed(None)),
    (Call::Slot(1), Answer::Slot(0xe000_0000_c000_0003, 0)),
    (Call::Evict(1), Answer::Charge(200)),
    (Call::Insert(FIRST, 200, 2, &[]), AT_1),
    (Call::Find(FIRST, false), HELD),
    (Call::Word, Answer::Word(0xe000_0000_8000_0003, 1)),
    (Call::Release(NotUseful, Keep), Answer::Freed(None)),
    (Call::Slot(1), Answer::Slot(0xe000_0000_8000_0002, 0)),
    (Call::Evict(1), Answer::Charge(200)),
    (Call::Insert(FIRST, 200, 2, &[]), AT_1),
    (Call::Find(FIRST, true), HELD),
    (Call::Word, Answer::Word(0xf000_0000_8000_0003, 1)),
    (Call::Release(Useful, Keep), Answer::Freed(None)),
    (Call::Slot(1), Answer::Slot(0xf000_0000_c000_0003, 0)),
    (Call::Evict(1), Answer::Charge(200)),
];

#[test]
fn a_find_is_a_use_where_its_release_is_useful(rt: HostRuntime) -> Result<(), AllocError> {
    row(&rt, rt.alloc(), FOUND)
}

/// Trails of several keys meet in one slot, and each is counted while its entry stands. Another key
/// of the same probes is not found, and nothing is changed by that. The three insertions probe one
/// slot, two and two, a hiding two, and the search of the absent key two and then one.
const TRAILS: Row = &[
    (Call::Insert(FIRST, 10, 2, &[]), AT_1),
    (Call::Slot(1), Answer::Slot(LOW, 0)),
    (
        Call::Insert(SECOND, 10, 2, &[]),
        Answer::Inserted(Placed { slot: 4 }),
    ),
    (Call::Slot(1), Answer::Slot(LOW, 1)),
    (
        Call::Insert(THIRD, 10, 2, &[]),
        Answer::Inserted(Placed { slot: 6 }),
    ),
    (Call::Slot(1), Answer::Slot(LOW, 2)),
    (Call::Slot(0), Answer::Slot(0, 0)),
    (Call::Slot(1), Answer::Slot(LOW, 2)),
    (Call::Slot(2), Answer::Slot(0, 0)),
    (Call::Slot(3), Answer::Slot(0, 0)),
    (Call::Slot(4), Answer::Slot(LOW, 0)),
    (Call::Slot(5), Answer::Slot(0, 0)),
    (Call::Slot(6), Answer::Slot(LOW, 0)),
    (Call::Slot(7), Answer::Slot(0, 0)),
    (Call::Find(ABSENT, false), Answer::Missing),
    (Call::Slot(1), Answer::Slot(LOW, 2)),
    (Call::Slot(4), Answer::Slot(LOW, 0)),
    (Call::Hide(SECOND), GONE),
    (Call::Slot(1), Answer::Slot(LOW, 1)),
    (Call::Hide(THIRD), GONE),
    (Call::Slot(1), Answer::Slot(LOW, 0)),
    (Call::Find(ABSENT, false), Answer::Missing),
    (Call::Slot(1), Answer::Slot(LOW, 0)),
    (Call::Slot(4), Answer::Slot(0, 0)),
    (Call::Totals, Answer::Totals([10, 1])),
    (Call::Took, PROBED),
];

#[test]
fn a_slot_counts_each_trail(rt: HostRuntime) -> Result<(), AllocError> {
    row(&rt, rt.alloc(), TRAILS)
}

/// A second entry of a key isn't placed, and the first is used as often as its countdown. The clock
/// counts it down and frees it then.
const COUNTED_DOWN: Row = &[
    (Call::Insert(FIRST, 200, 2, &[]), AT_1),
    (Call::Insert(FIRST, 200, 2, &[]), Answer::Inserted(Matched)),
    (Call::Slot(1), Answer::Slot(0xe000_0001_0000_0004, 0)),
    (Call::Totals, Answer::Totals([200, 1])),
    (Call::Visit(1), COUNTED),
    (Call::Slot(1), Answer::Slot(LOW, 0)),
    (Call::Visit(1), COUNTED),
    (Call::Slot(1), Answer::Slot(BOTTOM, 0)),
    (Call::Visit(1), COUNTED),
    (Call::Slot(1), Answer::Slot(0xe000_0000_0000_0000, 0)),
    (Call::Visit(1), UNMARKED),
    (Call::Slot(1), Answer::Slot(0, 0)),
    (Call::Visit(1), Answer::Visited(ClockVisit::Passed)),
    (Call::Slot(1), Answer::Slot(0, 0)),
    (Call::Totals, Answer::Totals([0, 0])),
];

#[test]
fn the_clock_counts_down_and_frees(rt: HostRuntime) -> Result<(), AllocError> {
    row(&rt, rt.alloc(), COUNTED_DOWN)
}

/// A hidden entry is read by its handle while another of its key stands and is found.
const SUCCEEDED: Row = &[
    (Call::Keep(FIRST, 10, 2, &[0xaa]), HELD),
    (Call::Hide(FIRST), HIDDEN),
    (Call::Word, Answer::Word(0xc000_0000_4000_0002, 1)),
    (Call::Keep(FIRST, 10, 2, &[0xbb]), HELD_TOO),
    (
        Call::Three(FIRST),
        Answer::Three(0xaa, 0xbb, (2, 0xe000_0000_4000_0003, 0xbb)),
    ),
    (Call::Release(Useful, Keep), Answer::Freed(None)),
    (Call::Release(Useful, Keep), Answer::Freed(Some(10))),
    (Call::Slot(1), Answer::Slot(0, 1)),
    (Call::Slot(2), Answer::Slot(LOW, 0)),
    (Call::Totals, Answer::Totals([10, 1])),
];

#[test]
fn a_hidden_entry_and_its_successor_are_both_read(rt: HostRuntime) -> Result<(), AllocError> {
    row(&rt, rt.alloc(), SUCCEEDED)
}

/// A hidden entry is freed with its last handle, whether that was of use or not.
const LET_GO: Row = &[
    (Call::Keep(FIRST, 200, 2, &[]), HELD),
    (Call::Hide(FIRST), HIDDEN),
    (Call::Find(FIRST, false), Answer::Missing),
    (Call::Release(Useful, Keep), Answer::Freed(Some(200))),
    (Call::Slot(1), Answer::Slot(0, 0)),
    (Call::Totals, Answer::Totals([0, 0])),
    (Call::Keep(FIRST, 200, 2, &[]), HELD),
    (Call::Hide(FIRST), HIDDEN),
    (Call::Find(FIRST, false), Answer::Missing),
    (Call::Release(NotUseful, Keep), Answer::Freed(Some(200))),
    (Call::Slot(1), Answer::Slot(0, 0)),
    (Call::Totals, Answer::Totals([0, 0])),
];

#[test]
fn a_hidden_entry_goes_with_its_last_handle(rt: HostRuntime) -> Result<(), AllocError> {
    row(&rt, rt.alloc(), LET_GO)
}

/// An entry at countdown 0 that nobody holds is found and marked. It is hidden and freed, or a
/// visit frees it and tells of the mark.
const AT_0: Row = &[
    (Call::Insert(FIRST, 10, 1, &[]), AT_1),
    (Call::Visit(1), COUNTED),
    (Call::Slot(1), Answer::Slot(0xe000_0000_0000_0000, 0)),
    (Call::Find(FIRST, true), HELD),
    (Call::Word, Answer::Word(0xf000_0000_0000_0001, 1)),
    (Call::Release(NotUseful, Keep), Answer::Freed(None)),
    (Call::Slot(1), Answer::Slot(0xf000_0000_0000_0000, 0)),
    (Call::Hide(FIRST), GONE),
    (Call::Slot(1), Answer::Slot(0, 0)),
    (Call::Totals, Answer::Totals([0, 0])),
    (Call::Insert(FIRST, 10, 1, &[]), AT_1),
    (Call::Visit(1), COUNTED),
    (Call::Slot(1), Answer::Slot(0xe000_0000_0000_0000, 0)),
    (Call::Find(FIRST, true), HELD),
    (Call::Word, Answer::Word(0xf000_0000_0000_0001, 1)),
    (Call::Release(NotUseful, Keep), Answer::Freed(None)),
    (Call::Slot(1), Answer::Slot(0xf000_0000_0000_0000, 0)),
    (Call::Visit(1), MARKED),
    (Call::Slot(1), Answer::Slot(0, 0)),
    (Call::Totals, Answer::Totals([0, 0])),
];

#[test]
fn an_entry_at_countdown_0_is_found_and_freed(rt: HostRuntime) -> Result<(), AllocError> {
    row(&rt, rt.alloc(), AT_0)
}

/// A reference near the end of the counters doesn't count, and they are taken back once. It is
/// given back and not spent, and frees the entry where that is asked for. The countdown of 2 and
/// 3·178,956,972 uses are 2^29 + 6.
const WORN: Row = &[
    (Call::Insert(FIRST, 200, 2, &[]), AT_1),
    (Call::Wear(1, 178_956_972), Answer::Worn),
    (Call::Slot(1), Answer::Slot(0xe800_0001_a000_0006, 0)),
    (Call::Find(FIRST, false), UNCOUNTED),
    (Call::Word, Answer::Word(0xe000_0001_8000_0007, 1)),
    (Call::Took, CORRECTED),
    (Call::Release(Useful, Erase), Answer::Freed(Some(200))),
    (Call::Slot(1), Answer::Slot(0, 0)),
    (Call::Took, CORRECTED),
    (Call::Totals, Answer::Totals([0, 0])),
];

#[test]
fn a_worn_entry_is_corrected_and_erased(rt: HostRuntime) -> Result<(), AllocError> {
    row(&rt, rt.alloc(), WORN)
}

/// A value of as many bytes as fit, and a buffer that it was read into.
const FULL: [u8; 16] = [0, 1, 2, 3, 4, 5, 6, 7, 8, 9, 10, 11, 12, 13, 14, 15];

const BUFFER: [u8; 20] = [
    0, 1, 2, 3, 4, 5, 6, 7, 8, 9, 10, 11, 12, 13, 14, 15, UNREAD, UNREAD, UNREAD, UNREAD,
];

/// Values of no bytes and of as many as fit are read, and the rest of the buffer stays.
const READ: Row = &[
    (Call::Keep(FIRST, 10, 2, &[]), HELD),
    (Call::Read, Answer::Entry(FIRST, 0, 0, [UNREAD; 20])),
    (Call::Release(Useful, Keep), Answer::Freed(None)),
    (Call::Keep(SECOND, 10, 2, &FULL), HELD_AT_4),
    (Call::Read, Answer::Entry(SECOND, 16, 16, BUFFER)),
    (Call::Release(Useful, Keep), Answer::Freed(None)),
];

#[test]
fn a_value_is_read_as_it_was_written(rt: HostRuntime) -> Result<(), AllocError> {
    row(&rt, rt.alloc(), READ)
}

/// While an entry is held, no second one of its key is placed, the clock leaves it, and its charge
/// is told as pinned, with none in another slot. Its last handle frees it where that is asked for.
/// Held twice, each of its references is a use in the end.
const STAYING: Row = &[
    (Call::Keep(FIRST, 200, 1, &[]), HELD),
    (Call::Insert(FIRST, 200, 2, &[]), Answer::Inserted(Matched)),
    (Call::Word, Answer::Word(0xe000_0000_8000_0003, 1)),
    (Call::Release(NotUseful, Keep), Answer::Freed(None)),
    (Call::Totals, Answer::Totals([200, 1])),
    (Call::Evict(1), Answer::Charge(200)),
    (Call::Keep(FIRST, 200, 2, &[]), HELD),
    (Call::Visit(1), Answer::Visited(ClockVisit::Pinned)),
    (Call::Pinned(1), Answer::Charge(200)),
    (Call::Pinned(2), Answer::Charge(0)),
    (Call::Word, Answer::Word(0xe000_0000_4000_0002, 1)),
    (Call::Release(Useful, Erase), Answer::Freed(Some(200))),
    (Call::Slot(1), Answer::Slot(0, 0)),
    (Call::Totals, Answer::Totals([0, 0])),
    (Call::Keep(FIRST, 200, 2, &[]), HELD),
    (
        Call::Twice,
        Answer::Twice([0xe000_0000_4000_0003, 0xe000_0000_8000_0003, HIGH]),
    ),
];

#[test]
fn a_held_entry_stays_until_its_last_handle_goes(rt: HostRuntime) -> Result<(), AllocError> {
    row(&rt, rt.alloc(), STAYING)
}
