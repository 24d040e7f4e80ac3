//! Two clients on two threads: in every order of their steps the table is the same at the end.
ghost use Rattle.std.specs.Prelude.{◌≡◌, ◌+◌, ◌<◌, []};
ghost use Rattle.std.specs.Thread.{IsSync};
ghost use Rattle.hcc_rule.specs.Callers.{plan_of, IsSeatAt};
ghost use Rattle.hcc_rule_tests.specs.Benches.{IsBench, IsReadySeatAt};
ghost use Rattle.hcc_rule.specs.Seats.{view};

use super::hired::{bench, hired, restarted};
use super::inserts::{FIRST, THIRD};
use super::worker::{Bench, PAYLOAD_WORDS, Worker};
use crate::any::AnyBytes;
use hcc_rule::RuleSeat;
use hcc_rule::layout::CHARGE;
use std::alloc::AllocError;
use std::process::Abort;
use std::thread::{Threads, join};

/// How often each client looks its own entry up.
const ROUNDS: u32 = 10_000;

/// How often each client gives an insertion up, has an entry that stands alone, and turns the hand
/// twice.
const TURNS: u32 = 1_000;

/// Shows an entry, and looks it up and the other client's. Then amounts come and go, and the hand
/// turns.
fn works(
    rt: &impl Abort,
    table: &Bench,
    seat: RuleSeat<AnyBytes>,
    client: u32,
) -> RuleSeat<AnyBytes>
    requires bench { IsBench (plan_of table.now) }
    requires client { client < 1024 }
    requires ready { IsReadySeatAt table.now client 0 seat }
    ensures ready { IsReadySeatAt table.now client 1 result }
    ensures others { (view result).others ≡ (view seat).others }
{
    let mut me = Worker {
        table,
        seat,
        client,
        shown: 0,
    };
    let low = me.draft(FIRST, 200, 2, None);
    let slot = me.race(rt, low);
    for _ in 0..ROUNDS {
        me.hit(rt, slot);
        me.glance(1);
        me.glance(2);
    }
    me.come_and_go(rt, TURNS);
    me.seat
}

/// Clients 0 and 1 work at once.
fn both<R: Abort + Threads + Sync>(
    rt: &R,
    table: &Bench,
    first: RuleSeat<AnyBytes>,
    second: RuleSeat<AnyBytes>,
) -> (RuleSeat<AnyBytes>, RuleSeat<AnyBytes>)
    requires bench { IsBench (plan_of table.now) }
    requires first { IsReadySeatAt table.now 0 0 first }
    requires second { IsReadySeatAt table.now 1 0 second }
    ensures first { IsReadySeatAt table.now 0 1 result.0
        × ((view result.0).others ≡ (view first).others) }
    ensures second { IsReadySeatAt table.now 1 1 result.1
        × ((view result.1).others ≡ (view second).others) }
{
    join(
        rt,
        move ||
            requires { IsSync R.row × IsBench (plan_of table.now)
                × IsReadySeatAt table.now 0 0 first }
            ensures { IsReadySeatAt table.entry.now 0 1 result
                × ((view result).others ≡ (view first).others) }
        { works(rt, table, first, 0) },
        move ||
            requires { IsSync R.row × IsBench (plan_of table.now)
                × IsReadySeatAt table.now 1 0 second }
            ensures { IsReadySeatAt table.entry.now 1 1 result
                × ((view result).others ≡ (view second).others) }
        { works(rt, table, second, 1) },
    )
}

/// Looks at both entries, ends client 1 and starts it again, and shows an entry of its own in slot
/// 3. The seat that is left names both clients.
fn end_both(
    rt: &impl Abort,
    table: &Bench,
    first: RuleSeat<AnyBytes>,
    second: RuleSeat<AnyBytes>,
) -> RuleSeat<AnyBytes>
    requires bench { IsBench (plan_of table.now) }
    requires first { IsReadySeatAt table.now 0 1 first × ((view first).others ≡ []) }
    requires second { IsReadySeatAt table.now 1 1 second × ((view second).others ≡ []) }
    ensures { IsSeatAt table.now result }
{
    let mut first = Worker {
        table,
        seat: first,
        client: 0,
        shown: 1,
    };
    let second = Worker {
        table,
        seat: second,
        client: 1,
        shown: 1,
    };
    let mut second = restarted(&mut first, second);
    let word = 0xf000_09c4_8000_2712;
    assert_eq!(rt; [first.look(1), second.look(2)], [word, word]);
    assert_eq!(rt; [first.count(1), second.count(2)], [1, 0]);
    assert_eq!(rt; first.totals(), [400, 2, 0]);
    let third = second.draft(THIRD, 10, 1, None);
    assert_eq!(rt; second.insert(rt, 3, third, None), [2, 400, 0]);
    let stamp = 0x0040_0000_0000_0001;
    let (_, data) = second.hit(rt, 3);
    let value = PAYLOAD_WORDS;
    assert_eq!(rt; data, [0, 3, 10, stamp, 16, value[0], value[1]]);
    first.end(second);
    assert_eq!(rt; first.totals(), [410, 3, 0]);
    first.seat
}

/// Both clients want slot 1. Whoever is late passes it and takes slot 2. Each entry has a countdown
/// of 2 and 10,000 uses at the end, and is marked. Once both clients are back the table is closed,
/// and its sums are those of its three entries.
#[test]
fn two_threads_show_and_find_entries(rt: HostRuntime) -> Result<(), AllocError> {
    let (table, mut seats) = bench(rt.alloc(), 2)?;
    let second = hired(&rt, &table, &mut seats).seat;
    let first = hired(&rt, &table, &mut seats).seat;
    let (first, second) = both(&rt, &table, first, second);
    let last = end_both(&rt, &table, first, second);
    let closed = table.close(last);
    let (usage, occupancy, standing) = (closed.usage(), closed.occupancy(), closed.standing());
    assert_eq!(rt; [usage, occupancy, standing], [410, 3, 0]);
    assert!(rt; closed.hand() == 16_000);
    let charges = [
        closed.data(1, CHARGE),
        closed.data(2, CHARGE),
        closed.data(3, CHARGE),
    ];
    assert_eq!(rt; charges, [200, 200, 10]);
    let passed = [
        closed.displacement(1),
        closed.displacement(2),
        closed.displacement(3),
    ];
    assert_eq!(rt; passed, [1, 0, 0]);
    Ok(())
}
