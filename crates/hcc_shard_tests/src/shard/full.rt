//! Full shards whose entries nobody holds: an insertion evicts just what it asks for, and one that
//! is refused or dropped may be tried again.
use super::calls::{Answer, Call, plays};
use super::rows::{BOTTOM, HIGH, LOW, Row, of};
use super::visit::{Start, closes, comes, leaves, opened};
use hcc_charge::Refused::{CapacityFull, OccupancyFull};
use std::alloc::{AllocError, Global};
use std::process::Abort;

/// Entries that nobody holds, in slots one behind the other.
#[derive(Clone, Copy)]
struct Unheld {
    from: u32,
    count: u32,
    /// Of each.
    charge: u32,
    countdown: u32,
}

/// A shard of one client, who inserts such entries and then makes calls. The hand that is left.
fn hand_after(
    rt: &impl Abort,
    alloc: Global,
    start: Start,
    filled: Unheld,
    calls: Row,
) -> Result<u64, AllocError> {
    assert!(rt; filled.from < 64, "no such slot");
    assert!(rt; filled.count <= 64, "there are too many");
    let (shard, mut seats, sizes) = opened(alloc, start, 1)?;
    let mut me = comes(rt, alloc, &shard, sizes, &mut seats);
    for k in 0..filled.count {
        let slot = (filled.from + k) as u64;
        let insert = Call::Insert(0, slot, filled.charge, filled.countdown, &[]);
        plays(rt, &mut me, &[(insert, Answer::Placed)])?;
    }
    plays(rt, &mut me, calls)?;
    let mut back = Vec::new(alloc);
    leaves(rt, me, &mut back)?;
    Ok(closes(rt, shard, sizes, back).hand())
}

/// Of six entries in 8 slots the first four have a countdown of 1, the last two of 2. In three
/// turns the first four are counted down and freed, and the last two are counted down once.
const SIX_FREE: Row = &[
    (Call::Insert(0, 4, 1, 2, &[]), Answer::Placed),
    (Call::Insert(0, 5, 1, 2, &[]), Answer::Placed),
    (Call::Totals, Answer::Totals([6, 6, 0])),
    (Call::Insert(0, 6, 1, 3, &[]), Answer::Placed),
    (Call::Totals, Answer::Totals([3, 3, 0])),
    (Call::Slot(0), Answer::Slot(0, 0)),
    (Call::Slot(3), Answer::Slot(0, 0)),
    (Call::Slot(4), Answer::Slot(BOTTOM, 0)),
    (Call::Slot(5), Answer::Slot(BOTTOM, 0)),
    (Call::Slot(6), Answer::Slot(HIGH, 0)),
    (Call::Work, Answer::Did([7, 0, 4, 0, 4, 3, 0, 0])),
];

#[test]
fn a_full_shard_frees_what_it_asks_for(rt: HostRuntime) -> Result<(), AllocError> {
    let four = Unheld {
        from: 0,
        count: 4,
        charge: 1,
        countdown: 1,
    };
    let hand = hand_after(&rt, rt.alloc(), of(600, false), four, SIX_FREE)?;
    assert_eq!(rt; hand, 12);
    let hand = hand_after(&rt, rt.alloc(), of(600, true), four, SIX_FREE)?;
    assert_eq!(rt; hand, 12);
    Ok(())
}

/// Forty entries with a countdown of 3 in the first slots of 64: three rounds count them down, and
/// the one turn that is left frees four. The next try begins there.
const FORTY_FREE: Row = &[
    (
        Call::Insert(0, 50, 100, 2, &[]),
        Answer::Refused(CapacityFull),
    ),
    (Call::Totals, Answer::Totals([360, 36, 0])),
    (Call::Work, Answer::Did([40, 0, 4, 0, 40, 49, 0, 0])),
    (Call::Insert(0, 50, 100, 2, &[]), Answer::Placed),
    (Call::Totals, Answer::Totals([380, 29, 0])),
    (Call::Slot(50), Answer::Slot(LOW, 0)),
    (Call::Work, Answer::Did([41, 0, 12, 0, 120, 51, 0, 0])),
];

/// All 53 places are taken by entries with a countdown of 3, and the last turn meets none of them.
const NONE_REACHED: Row = &[
    (Call::Insert(0, 60, 1, 2, &[]), Answer::Dropped),
    (Call::Totals, Answer::Totals([53, 53, 0])),
    (Call::Work, Answer::Did([53, 0, 0, 0, 0, 49, 0, 0])),
    (Call::Insert(0, 60, 1, 2, &[]), Answer::Placed),
    (Call::Totals, Answer::Totals([50, 50, 0])),
    (Call::Work, Answer::Did([54, 0, 4, 0, 4, 50, 0, 0])),
];

const NONE_REACHED_STRICT: Row = &[
    (
        Call::Insert(0, 60, 1, 2, &[]),
        Answer::Refused(OccupancyFull),
    ),
    (Call::Totals, Answer::Totals([53, 53, 0])),
    (Call::Insert(0, 60, 1, 2, &[]), Answer::Placed),
    (Call::Work, Answer::Did([54, 0, 4, 0, 4, 50, 0, 0])),
];

#[test]
fn the_next_try_is_placed(rt: HostRuntime) -> Result<(), AllocError> {
    let mut start = of(400, true);
    start.large = true;
    let forty = Unheld {
        from: 0,
        count: 40,
        charge: 10,
        countdown: 3,
    };
    let hand = hand_after(&rt, rt.alloc(), start, forty, FORTY_FREE)?;
    assert_eq!(rt; hand, 204);
    let many = Unheld {
        from: 4,
        count: 53,
        charge: 1,
        countdown: 3,
    };
    let hand = hand_after(&rt, rt.alloc(), start, many, NONE_REACHED_STRICT)?;
    assert_eq!(rt; hand, 200);
    start.strict = false;
    let hand = hand_after(&rt, rt.alloc(), start, many, NONE_REACHED)?;
    assert_eq!(rt; hand, 200);
    Ok(())
}
