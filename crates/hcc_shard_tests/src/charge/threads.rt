//! Two clients on two threads that reserve, evict and give up at once: after the close the sums are
//! those of the entries that are left.
ghost use Rattle.std.specs.Prelude.{◌≡◌, ◌<◌};
ghost use Rattle.std.specs.Thread.{IsSync};
ghost use Rattle.hcc_core.specs.declared.client.Place.TheVariants.{Absent};
ghost use Rattle.hcc_rule.specs.Callers.{slots_of, IsSeatAt};
ghost use Rattle.hcc_rule.specs.Seats.{view};
ghost use Rattle.hcc_shard_tests.specs.ChargeGuests.{IsGuest};

use super::guest::{Guest, Shard};
use crate::any::AnyBytes;
use hcc_charge::Tally;
use hcc_rule::layout::CHARGE;
use hcc_rule::{ClosedTable, Geometry, Key, RuleSeat, RuleTable};
use hcc_table::Effort;
use hcc_word::state;
use std::alloc::{AllocError, Global};
use std::process::Abort;
use std::thread::{Threads, join};

/// The slots of the shard, and how often each client reserves.
const SLOTS: u32 = 16;

const ROUNDS: u64 = 10_000;

/// A client inserts entries of many keys, and reserves and gives up.
fn works(
    rt: &impl Abort,
    table: &Shard,
    seat: RuleSeat<AnyBytes>,
    client: u32,
) -> RuleSeat<AnyBytes>
    requires client { client < 1024 }
    requires seat { IsSeatAt table.now seat }
    requires idle { IsGuest Absent 0 client 0 (view seat) }
    ensures seat { IsSeatAt table.now result }
{
    let mut me = Guest {
        table,
        seat,
        client,
        shown: 0,
        tally: Tally::NONE,
        effort: Effort::NONE,
    };
    for round in 0..ROUNDS {
        let key = Key {
            w0: 0,
            w1: round % 100,
        };
        me.insert(rt, key, 60, 1, false);
        me.come_and_go(60);
    }
    me.seat
}

/// Clients 0 and 1 work at once.
fn both<R: Abort + Threads + Sync>(
    rt: &R,
    table: &Shard,
    first: RuleSeat<AnyBytes>,
    second: RuleSeat<AnyBytes>,
) -> RuleSeat<AnyBytes>
    requires seats { IsSeatAt table.now first × IsSeatAt table.now second }
    requires first { IsGuest Absent 0 0 0 (view first) }
    requires second { IsGuest Absent 0 1 0 (view second) }
    ensures { IsSeatAt table.now result }
{
    let (first, _) = join(
        rt,
        move ||
            requires { IsSync R.row × IsSeatAt table.now first × IsGuest Absent 0 0 0 (view first) }
            ensures { IsSeatAt table.entry.now result }
        { works(rt, table, first, 0) },
        move ||
            requires { IsSync R.row × IsSeatAt table.now second
                × IsGuest Absent 0 1 0 (view second) }
            ensures { IsSeatAt table.entry.now result }
        { works(rt, table, second, 1) },
    );
    first
}

/// The charges of the entries that are left, and how many there are.
fn sums(closed: &ClosedTable<Global>) -> [u64; 2]
    requires { closed.now.geometry.slots ≡ SLOTS }
{
    let mut sums = [0u64, 0];
    for slot in 0..SLOTS {
        if state(closed.meta(slot)) >= 6 {
            sums[0] = sums[0].wrapping_add(closed.data(slot, CHARGE));
            sums[1] = sums[1].wrapping_add(1);
        }
    }
    sums
}

#[test]
fn two_threads_reserve_and_give_up(rt: HostRuntime) -> Result<(), AllocError> {
    let sizes = Geometry {
        slots: SLOTS,
        room: 1,
        clients: 2,
    };
    let (table, mut seats) = RuleTable::<AnyBytes, Global>::new(
        rt.alloc(),
        sizes,
        600,
        false,
        AnyBytes,
    )?;
    let second = seats.pop().expect(&rt, "no seat is left");
    let first = seats.pop().expect(&rt, "no seat is left");
    let last = both(&rt, &table, first, second);
    let closed = table.close(last);
    assert_eq!(rt; [closed.usage(), closed.occupancy()], sums(&closed));
    assert_eq!(rt; closed.standing(), 0);
    assert!(rt; closed.hand() > 0);
    Ok(())
}
