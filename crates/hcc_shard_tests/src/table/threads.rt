//! Two clients on two threads: in every order of their steps all entries are inserted and found.
ghost use Rattle.std.specs.Prelude.{◌≡◌, ◌<◌, ◌≤◌, length};
ghost use Rattle.std.specs.Thread.{IsSync};
ghost use Rattle.hcc_core.specs.declared.limits.TheConstants.{MOST_CLIENTS};
ghost use Rattle.hcc_rule_tests.specs.Benches.{IsReady, IsReadySeatAt};
ghost use Rattle.hcc_rule.specs.Callers.{plan_of, IsSeatAt};
ghost use Rattle.hcc_rule.specs.Beginnings.{AreSeatsAt};
ghost use Rattle.hcc_rule.specs.Seats.{view};
ghost use Rattle.hcc_shard_tests.specs.Handles.{IsSmall};

use super::caller::{Bench, Caller, NAME};
use super::calls::{Answer, Call, plays};
use super::held::UNREAD;
use super::hired::{Seats, bench, hired};
use crate::any::AnyBytes;
use hcc_core::limits::OCCUPANCY_PERCENT;
use hcc_rule::{Key, RuleSeat};
use hcc_table::{Effort, IfLast, Insertion, Pin, Use};
use std::alloc::AllocError;
use std::process::Abort;
use std::thread::{Threads, join};

/// The word of a slot whose entry has a countdown of 2 and no reference, and was used twice.
const USED: u64 = 0xe000_0001_0000_0004;

/// What a client does.
#[derive(Clone, Copy)]
enum Work {
    /// Inserts the entries of four keys, from this number on, each at its key's first probe.
    Inserts(u8),
    /// Finds and reads the entries of all eight keys.
    Finds,
    /// Tries to insert second entries of all eight keys.
    Meets,
}

/// The calls of a client on the key of a number, whose first probe is the slot of that number.
fn on_key(rt: &impl Abort, me: &mut Caller, work: Work, number: u8)
    requires ready { IsReady (view me.old.seat) }
    ensures same { me.new.table ≡ me.old.table }
    ensures ready { IsReady (view me.new.seat) }
{
    let slot = number as u32;
    let key = Key {
        w0: 0,
        w1: number as u64,
    };
    let insert = Call::Insert(key, 1, 2, &[number]);
    let pin = Pin {
        slot,
        name: NAME,
        counting: true,
    };
    let mut buffer = [UNREAD; 20];
    buffer[0] = number;
    match work {
        Work::Inserts(_) => {
            let placed = Answer::Inserted(Insertion::Placed { slot });
            plays(rt, me, &[(insert, placed)]);
        }
        Work::Finds => {
            let find = (Call::Find(key, false), Answer::Held(pin));
            let read = (Call::Read, Answer::Entry(key, 1, 1, buffer));
            let release = Call::Release(Use::NotUseful, IfLast::Keep);
            plays(rt, me, &[find, read, (release, Answer::Freed(None))]);
        }
        Work::Meets => plays(rt, me, &[(insert, Answer::Inserted(Insertion::Matched))]),
    }
}

/// A client between its works, apart from its table.
#[derive(Drop)]
struct Away {
    seat: RuleSeat<AnyBytes>,
    client: u32,
    shown: u64,
}

/// The client of the last seat.
fn seated(rt: &impl Abort, table: &Bench, seats: &mut Seats) -> Away
    requires new { AreSeatsAt table.now 0 seats.old.items }
    requires small { IsSmall (plan_of table.now) }
    requires few { length seats.old.items ≤ 2 }
    ensures rest { AreSeatsAt table.now 0 seats.new.items }
    ensures few { length seats.new.items ≤ 2 }
    ensures client { result.client < MOST_CLIENTS }
    ensures ready { IsReadySeatAt table.now result.client result.shown result.seat }
{
    let me = hired(rt, table, seats);
    Away {
        client: me.client,
        shown: me.shown,
        seat: me.seat,
    }
}

/// A client does its work.
fn works(rt: &impl Abort, table: &Bench, at: Away, work: Work) -> Away
    requires small { IsSmall (plan_of table.now) }
    requires client { at.client < MOST_CLIENTS }
    requires ready { IsReadySeatAt table.now at.client at.shown at.seat }
    ensures client { result.client < MOST_CLIENTS }
    ensures ready { IsReadySeatAt table.now result.client result.shown result.seat }
{
    let mut me = Caller {
        table,
        seat: at.seat,
        client: at.client,
        limit: table.geometry().slots as u64 * OCCUPANCY_PERCENT / 100,
        shown: at.shown,
        effort: Effort::NONE,
    };
    for number in 0..8 {
        let is_own = match work {
            Work::Inserts(first) => number / 4 == first / 4,
            _ => true,
        };
        if is_own {
            on_key(rt, &mut me, work, number);
        }
    }
    Away {
        client: me.client,
        shown: me.shown,
        seat: me.seat,
    }
}

/// Two clients of a table work at once.
fn at_once<R: Abort + Threads + Sync>(
    rt: &R,
    table: &Bench,
    first: Away,
    second: Away,
    work: Work,
    other: Work,
) -> (Away, Away)
    requires small { IsSmall (plan_of table.now) }
    requires first { (first.client < MOST_CLIENTS)
        × IsReadySeatAt table.now first.client first.shown first.seat }
    requires second { (second.client < MOST_CLIENTS)
        × IsReadySeatAt table.now second.client second.shown second.seat }
    ensures first { (result.0.client < MOST_CLIENTS)
        × IsReadySeatAt table.now result.0.client result.0.shown result.0.seat }
    ensures second { (result.1.client < MOST_CLIENTS)
        × IsReadySeatAt table.now result.1.client result.1.shown result.1.seat }
{
    join(
        rt,
        move ||
            requires { IsSync R.row × IsSmall (plan_of table.now) × (first.client < MOST_CLIENTS)
                × IsReadySeatAt table.now first.client first.shown first.seat }
            ensures { (result.client < MOST_CLIENTS)
                × IsReadySeatAt table.entry.now result.client result.shown result.seat }
        { works(rt, table, first, work) },
        move ||
            requires { IsSync R.row × IsSmall (plan_of table.now) × (second.client < MOST_CLIENTS)
                × IsReadySeatAt table.now second.client second.shown second.seat }
            ensures { (result.client < MOST_CLIENTS)
                × IsReadySeatAt table.entry.now result.client result.shown result.seat }
        { works(rt, table, second, other) },
    )
}

/// Ends the second client. The seat that is left names both.
fn end_both(table: &Bench, first: Away, second: Away) -> RuleSeat<AnyBytes>
    requires first { IsReadySeatAt table.now first.client first.shown first.seat }
    requires second { IsReadySeatAt table.now second.client second.shown second.seat }
    ensures { IsSeatAt table.now result }
{
    let mut seat = first.seat;
    table.join(&mut seat, second.seat);
    seat
}

/// The two clients insert eight entries at once, each at its key's first probe, and both find all
/// of them at once. Then one finds them and the other one, whose every insertion of a second entry
/// is answered by the first one, uses each twice. No other reference is a use, so that is what the
/// words tell.
#[test]
fn two_threads_insert_and_find_entries(rt: HostRuntime) -> Result<(), AllocError> {
    let (table, mut seats) = bench(rt.alloc(), true)?;
    let second = seated(&rt, &table, &mut seats);
    let first = seated(&rt, &table, &mut seats);
    let inserts = (Work::Inserts(0), Work::Inserts(4));
    let (first, second) = at_once(&rt, &table, first, second, inserts.0, inserts.1);
    let (first, second) = at_once(&rt, &table, first, second, Work::Finds, Work::Finds);
    let (first, second) = at_once(&rt, &table, first, second, Work::Finds, Work::Meets);
    let last = end_both(&table, first, second);
    let closed = table.close(last);
    for slot in 0..16 {
        let want = if slot < 8 { USED } else { 0 };
        assert_eq!(rt; closed.meta(slot), want, "the word of slot {slot}");
        assert_eq!(rt;
            closed.displacement(slot),
            0,
            "the displacement of slot {slot}"
        );
    }
    let totals = [closed.usage(), closed.occupancy(), closed.standing()];
    assert_eq!(rt; totals, [8, 8, 0]);
    Ok(())
}
