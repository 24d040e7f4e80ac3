//! Caches whose entries are all held, and caches of many clients and shards.

use super::calls::{Answer, Call, plays, values_of};
use super::stage::{SMALL, closes, opened};
use hcc_cache::Inserted::{Dropped, Placed, Standalone};
use hcc_cache::Priority::{Bottom, Low};
use hcc_cache::{Closed, Config, InsertError, NewError};
use std::alloc::{AllocError, Global};
use std::process::Abort;
use std::test::Fail;

/// A step of a row.
type Step = (Call<'static>, Answer);

/// A cache of 64 slots, and a client that may hold as many handles.
const LARGE: Config = Config {
    slots: 64,
    handles: 64,
    ..SMALL
};

/// The client keeps the entries of so many keys with a charge of 1 each, and then makes calls. How
/// far the hand moved.
fn full(
    rt: &impl Abort,
    alloc: Global,
    config: Config,
    kept: u32,
    calls: &[(Call, Answer)],
) -> Result<u64, NewError> {
    let Ok(values) = with_empty(alloc, kept, calls) else {
        return Err(NewError::OutOfMemory);
    };
    let mut stage = opened(alloc, config, values)?;
    for slot in 0..kept {
        let pin = Call::Pin(0, slot as u64, 1, Low, &[], slot as usize);
        plays(rt, &mut stage, 0, &[(pin, Answer::Stored(Placed))]);
    }
    plays(rt, &mut stage, 0, calls);
    let closed = closes(rt, stage);
    assert!(rt; closed.shards() > 0, "no shard is left");
    Ok(closed.hand(0))
}

/// The values of the insertions with a handle, after so many empty ones, the first one last.
fn with_empty(
    alloc: Global,
    count: u32,
    calls: &[(Call, Answer)],
) -> Result<Vec<Vec<u8>>, AllocError> {
    let mut values = values_of(alloc, calls)?;
    for _ in 0..count {
        values.push(Vec::new(alloc))?;
    }
    Ok(values)
}

/// Where all places are taken by entries that are held, an insertion gives up after 7 turns.
const ALONE: [Step; 3] = [
    (Call::Pin(0, 6, 1, Low, &[], 6), Answer::Stored(Standalone)),
    (Call::Totals, Answer::Totals(7, 6, 7)),
    (Call::Did, Answer::Did([6, 0, 0, 0, 0, 7])),
];

const DROPPED: [Step; 3] = [
    (Call::Insert(0, 6, 1, Low, &[]), Answer::Stored(Dropped)),
    (Call::Totals, Answer::Totals(6, 6, 6)),
    (Call::Did, Answer::Did([6, 0, 0, 0, 0, 7])),
];

const REFUSED: [Step; 3] = [
    (
        Call::Insert(0, 6, 1, Low, &[]),
        Answer::Refused(InsertError::OccupancyFull),
    ),
    (Call::Totals, Answer::Totals(6, 6, 6)),
    (Call::Did, Answer::Did([6, 0, 0, 0, 0, 7])),
];

#[test]
fn held_entries_leave_no_place(rt: HostRuntime) -> Result<(), Fail> {
    let strict = Config {
        strict: true,
        ..SMALL
    };
    for (config, calls) in [(SMALL, &ALONE), (SMALL, &DROPPED), (strict, &REFUSED)] {
        assert_eq!(rt; full(&rt, rt.alloc(), config, 6, calls)?, 28);
    }
    Ok(())
}

/// With 64 slots it gives up after 8 turns, in which 32 entries were held and none was freed. One
/// that isn't held, and wasn't reached, changes nothing.
const ALONE_OF_64: [Step; 3] = [
    (
        Call::Pin(0, 53, 1, Low, &[], 53),
        Answer::Stored(Standalone),
    ),
    (Call::Totals, Answer::Totals(54, 53, 54)),
    (Call::Did, Answer::Did([53, 0, 0, 0, 0, 8])),
];

const DROPPED_OF_64: [Step; 3] = [
    (Call::Insert(0, 53, 1, Low, &[]), Answer::Stored(Dropped)),
    (Call::Totals, Answer::Totals(53, 53, 53)),
    (Call::Did, Answer::Did([53, 0, 0, 0, 0, 8])),
];

const REFUSED_OF_64: [Step; 3] = [
    (
        Call::Insert(0, 53, 1, Low, &[]),
        Answer::Refused(InsertError::OccupancyFull),
    ),
    (Call::Totals, Answer::Totals(53, 53, 53)),
    (Call::Did, Answer::Did([53, 0, 0, 0, 0, 8])),
];

const NOT_REACHED: [Step; 4] = [
    (Call::Insert(0, 52, 1, Bottom, &[]), Answer::Stored(Placed)),
    (
        Call::Pin(0, 53, 1, Low, &[], 53),
        Answer::Stored(Standalone),
    ),
    (Call::Totals, Answer::Totals(54, 53, 53)),
    (Call::Did, Answer::Did([53, 0, 0, 0, 0, 8])),
];

#[test]
fn eviction_ends_where_most_is_held(rt: HostRuntime) -> Result<(), Fail> {
    let strict = Config {
        strict: true,
        ..LARGE
    };
    for (config, calls) in [
        (LARGE, &ALONE_OF_64),
        (LARGE, &DROPPED_OF_64),
        (strict, &REFUSED_OF_64),
    ] {
        assert_eq!(rt; full(&rt, rt.alloc(), config, 53, calls)?, 32);
    }
    assert_eq!(rt; full(&rt, rt.alloc(), LARGE, 52, &NOT_REACHED)?, 32);
    Ok(())
}
