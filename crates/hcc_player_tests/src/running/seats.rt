//! A shard for two clients and one that only looks, and their seats.
ghost use Rattle.std.specs.Prelude.{◌≡◌, ◌+◌, ◌≤◌, [], IfOk, OnOk, length};
ghost use Rattle.hcc_rule.specs.Callers.{plan_of};
ghost use Rattle.hcc_rule.specs.Beginnings.{AreSeatsAt};
ghost use Rattle.hcc_rule.specs.Seats.{view};
ghost use Rattle.hcc_rule_tests.specs.Benches.{IsBench, IsReady};

use super::tape::Tape;
use super::worker::{AnyBytes, Bench, Worker};
use hcc_rule::{Geometry, RuleSeat, RuleTable};
use std::alloc::{AllocError, Global};
use std::process::Abort;

/// The charge that the shard is meant to hold.
pub(super) const CAPACITY: u64 = 600;

/// A shard and its seats.
pub(super) fn bench(alloc: Global) -> Result<(Bench, Vec<RuleSeat<AnyBytes>, Global>), AllocError>
    ensures bench { IfOk result (λ made. IsBench (plan_of made.0)) }
    ensures count { IfOk result (λ made. length made.1.items ≡ 3) }
    ensures seats { IfOk result (λ made. AreSeatsAt made.0 0 made.1.items) }
{
    let sizes = Geometry {
        slots: 8,
        room: 2,
        clients: 3,
    };
    RuleTable::<AnyBytes, Global>::new(alloc, sizes, CAPACITY, false, AnyBytes)
}

/// The worker of the last seat.
pub(super) fn hired<'a>(
    rt: &impl Abort,
    table: &'a Bench,
    seats: &mut Vec<RuleSeat<AnyBytes>, Global>,
) -> Worker<'a>
    requires new { AreSeatsAt table.now 0 seats.old.items }
    requires bench { IsBench (plan_of table.now) }
    requires few { length seats.old.items ≤ 3 }
    ensures rest { AreSeatsAt table.now 0 seats.new.items }
    ensures count { length seats.new.items + 1 ≡ length seats.old.items }
    ensures worker { (result.table ≡ table.entry) × (result.client ≡ length seats.new.items) }
    ensures ready { IsReady (view result.seat) }
    ensures alone { (view result.seat).others ≡ [] }
{
    let seat = seats.pop().expect(rt, "no seat is left");
    Worker {
        table,
        seat,
        client: seats.len() as u32,
        shown: 0,
    }
}

/// Ends the other client, which is client 1, and starts it again.
pub(super) fn restarted<'a>(
    zero: &mut Worker<'a>,
    one: Worker<'a>,
    tape: &mut Tape<'_>,
) -> Result<Worker<'a>, AllocError>
    requires ready { IsReady (view zero.old.seat) × IsReady (view one.seat) }
    requires table { one.table.now ≡ zero.old.table.now }
    requires alone { ((view zero.old.seat).others ≡ []) × ((view one.seat).others ≡ []) }
    ensures zero { OnOk result (IsReady (view zero.new.seat)) }
    ensures one { IfOk result (λ one. IsReady (view one.seat)) }
{
    let (table, client, shown) = (one.table, one.client, one.shown);
    zero.table.join(&mut zero.seat, one.seat);
    tape.add("end 1")?;
    let seat = zero.table.split(&mut zero.seat);
    tape.add("start 1")?;
    Ok(Worker {
        table,
        seat,
        client,
        shown,
    })
}
