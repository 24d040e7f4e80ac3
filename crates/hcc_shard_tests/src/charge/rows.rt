//! Worked rows: what each insertion answers, and what stands after it.
ghost use Rattle.std.specs.Prelude.{◌≡◌, ◌%◌, ◌≤◌};
ghost use Rattle.hcc_core.specs.declared.client.Place.TheVariants.{Absent};
ghost use Rattle.hcc_core.specs.declared.limits.TheConstants.{MOST_SLOTS};
ghost use Rattle.hcc_shard_tests.specs.ChargeGuests.{IsGuest};

use super::guest::{Answer, Guest};
use crate::any::AnyBytes;
use hcc_charge::{
    Reservation, Tally, evict, keep_charge, reserve, settle, standalone_in, standalone_out,
};
use hcc_rule::{Geometry, Key, RuleTable};
use hcc_table::{Effort, NoList};
use std::alloc::{AllocError, Global};
use std::process::Abort;

/// An insertion: the number of the key, whose first probe is that slot; the charge; the countdown;
/// whether a reference is kept; the answer. And what stands after it: the usage and the occupancy,
/// the turns that were made in all, the entries that were evicted, and their charge.
type Step = (u64, u32, u32, bool, Answer, [u64; 5]);

/// The word of an entry with a countdown of 1 or of 2, and of one with a countdown of 2 that its
/// maker holds.
const BOTTOM: u64 = 0xe000_0000_4000_0001;

const LOW: u64 = 0xe000_0000_8000_0002;

const KEPT: u64 = 0xe000_0000_4000_0002;

/// A shard of so many slots with this capacity, in which the entries of the first keys are kept, so
/// many with a charge of 1 each.
#[derive(Clone, Copy)]
struct Start {
    slots: u32,
    capacity: u32,
    strict: bool,
    kept: u64,
}

impl Start {
    /// Of 8 slots, with nothing in it.
    fn lax(capacity: u32) -> Start
        ensures { result.slots ≡ 8 }
    {
        Start {
            slots: 8,
            capacity,
            strict: false,
            kept: 0,
        }
    }

    /// The same, under strict capacity.
    fn strict(capacity: u32) -> Start
        ensures { result.slots ≡ 8 }
    {
        Start {
            slots: 8,
            capacity,
            strict: true,
            kept: 0,
        }
    }
}

/// Plays the steps. At the end the first four slots have these words, and the hand has moved by
/// four slots for each turn.
fn plays(
    rt: &impl Abort,
    alloc: Global,
    start: Start,
    steps: &[Step],
    words: [u64; 4],
) -> Result<(), AllocError>
    requires some { 8 ≤ start.slots }
    requires few { start.slots ≤ 64 }
    requires power { MOST_SLOTS % start.slots ≡ 0 }
{
    let sizes = Geometry {
        slots: start.slots,
        room: 1,
        clients: 1,
    };
    let capacity = start.capacity as u64;
    let (table, mut seats) = RuleTable::<AnyBytes, Global>::new(
        alloc,
        sizes,
        capacity,
        start.strict,
        AnyBytes,
    )?;
    let seat = seats.pop().expect(rt, "no seat is left");
    let mut me = Guest {
        table: &table,
        seat,
        client: 0,
        shown: 0,
        tally: Tally::NONE,
        effort: Effort::NONE,
    };
    for number in 0..start.kept {
        let key = Key { w0: 0, w1: number };
        assert_eq!(rt; me.insert(rt, key, 1, 2, true), Answer::Placed);
    }
    for step in steps {
        let (number, charge, countdown, keep, answer, stands) = *step;
        assert!(rt; charge > 0, "no charge");
        assert!(rt; countdown > 0, "no countdown");
        assert!(rt; countdown < 4, "the countdown is too long");
        let key = Key { w0: 0, w1: number };
        assert_eq!(rt; me.insert(rt, key, charge, countdown, keep), answer);
        assert_eq!(rt; me.stands(), stands);
    }
    let Guest { seat, tally, .. } = me;
    let closed = table.close(seat);
    assert_eq!(rt; closed.hand(), tally.turns.wrapping_mul(4));
    let left = [
        closed.meta(0),
        closed.meta(1),
        closed.meta(2),
        closed.meta(3),
    ];
    assert_eq!(rt; left, words);
    Ok(())
}

/// Without strict capacity an eviction makes room where the charge doesn't fit, and ends once as
/// much was freed as was asked for. A charge that is more than all that is used evicts nothing.
#[test]
fn room_is_made(rt: HostRuntime) -> Result<(), AllocError> {
    let steps = [
        (0, 200, 2, false, Answer::Placed, [200, 1, 0, 0, 0]),
        (1, 200, 2, false, Answer::Placed, [400, 2, 0, 0, 0]),
        (2, 200, 2, false, Answer::Placed, [600, 3, 0, 0, 0]),
        (3, 200, 2, false, Answer::Placed, [200, 1, 5, 3, 600]),
    ];
    plays(&rt, rt.alloc(), Start::lax(600), &steps, [0, 0, 0, LOW])?;
    let steps = [
        (0, 90, 1, false, Answer::Placed, [90, 1, 0, 0, 0]),
        (1, 95, 1, false, Answer::Placed, [185, 2, 0, 0, 0]),
        (2, 50, 1, false, Answer::Placed, [50, 1, 3, 2, 185]),
        (3, 50, 1, false, Answer::Placed, [100, 2, 3, 2, 185]),
        (4, 101, 1, false, Answer::Placed, [201, 3, 3, 2, 185]),
    ];
    plays(
        &rt,
        rt.alloc(),
        Start::lax(100),
        &steps,
        [0, 0, BOTTOM, BOTTOM],
    )?;
    let steps = [
        (0, 1, 1, false, Answer::Placed, [1, 1, 0, 0, 0]),
        (1, 1, 1, false, Answer::Placed, [1, 1, 7, 1, 1]),
    ];
    plays(&rt, rt.alloc(), Start::lax(0), &steps, [0, BOTTOM, 0, 0])
}

/// Under strict capacity a charge above it is too large. What isn't granted at once has to be
/// freed, or nothing is reserved.
#[test]
fn strict_capacity_is_kept(rt: HostRuntime) -> Result<(), AllocError> {
    let steps = [
        (1, 60, 2, true, Answer::Placed, [60, 1, 0, 0, 0]),
        (2, 60, 2, false, Answer::CapacityFull, [60, 1, 7, 0, 0]),
    ];
    plays(&rt, rt.alloc(), Start::strict(100), &steps, [0, KEPT, 0, 0])?;
    let steps = [
        (1, 101, 2, false, Answer::TooLarge, [0, 0, 0, 0, 0]),
        (1, 100, 2, false, Answer::Placed, [100, 1, 0, 0, 0]),
        (2, 100, 2, false, Answer::Placed, [100, 1, 5, 1, 100]),
    ];
    plays(&rt, rt.alloc(), Start::strict(100), &steps, [0, 0, LOW, 0])?;
    let steps = [(0, 1, 1, false, Answer::TooLarge, [0, 0, 0, 0, 0])];
    plays(&rt, rt.alloc(), Start::strict(0), &steps, [0, 0, 0, 0])
}

/// Where the places are taken and all entries are held, an eviction ends after 7 turns with 8
/// slots, and with 64 after 8 turns, in which it visits 32 that are held: one that isn't held, and
/// wasn't reached, changes nothing.
#[test]
fn held_entries_end_an_eviction(rt: HostRuntime) -> Result<(), AllocError> {
    let held = [KEPT, KEPT, KEPT, KEPT];
    for strict in [false, true] {
        let answer = if strict {
            Answer::OccupancyFull
        } else {
            Answer::NoPlace
        };
        let start = Start {
            slots: 8,
            capacity: 600,
            strict,
            kept: 6,
        };
        let steps = [(6, 1, 2, true, answer, [6, 6, 7, 0, 0])];
        plays(&rt, rt.alloc(), start, &steps, held)?;
        let start = Start {
            slots: 64,
            capacity: 600,
            strict,
            kept: 53,
        };
        let steps = [(53, 1, 2, true, answer, [53, 53, 8, 0, 0])];
        plays(&rt, rt.alloc(), start, &steps, held)?;
    }
    let start = Start {
        slots: 64,
        capacity: 600,
        strict: false,
        kept: 52,
    };
    let steps = [
        (52, 1, 1, false, Answer::Placed, [53, 53, 0, 0, 0]),
        (53, 1, 2, true, Answer::NoPlace, [53, 53, 8, 0, 0]),
    ];
    plays(&rt, rt.alloc(), start, &steps, held)
}

/// A charge that was reserved without being used for a slot becomes a standalone entry's; so does
/// one that wasn't, where the capacity isn't strict. It goes with the entry.
#[test]
fn standalone_entries_come_and_go(rt: HostRuntime) -> Result<(), AllocError> {
    let sizes = Geometry {
        slots: 8,
        room: 1,
        clients: 1,
    };
    let (table, mut seats) = RuleTable::<AnyBytes, Global>::new(
        rt.alloc(),
        sizes,
        600,
        false,
        AnyBytes,
    )?;
    let mut seat = seats.pop().expect(&rt, "no seat is left");
    let (mut tally, mut effort) = (Tally::NONE, Effort::NONE);
    let reserved = reserve(&table, &mut seat, 40, &mut NoList, &mut tally, &mut effort);
    if reserved != Ok(Reservation::Reserved) {
        panic!(&rt; "there is room");
    }
    assert_eq!(rt;
        [table.usage(&mut seat), table.occupancy(&mut seat)],
        [40, 1]
    );
    keep_charge(&table, &mut seat);
    standalone_in(&table, &mut seat, 7, 40, true);
    standalone_in(&table, &mut seat, 8, 30, false);
    assert_eq!(rt;
        [table.usage(&mut seat), table.occupancy(&mut seat)],
        [70, 0]
    );
    assert_eq!(rt; table.standing(&mut seat), 70);
    standalone_out(&table, &mut seat, 7, 40);
    standalone_out(&table, &mut seat, 8, 30);
    assert_eq!(rt; [table.usage(&mut seat), table.standing(&mut seat)], [0, 0]);
    let swept = evict(&table, &mut seat, 1, &mut NoList, &mut tally, &mut effort);
    assert_eq!(rt;
        [swept.turns, swept.slots, swept.charge, tally.turns],
        [7, 0, 0, 7]
    );
    settle(&table, &mut seat, swept.slots, swept.charge);
    Ok(())
}
