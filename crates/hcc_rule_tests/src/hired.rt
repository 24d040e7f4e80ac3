//! Tables for tests, and the workers of their seats.
ghost use Rattle.std.specs.Prelude.{◌≡◌, ◌+◌, ◌≤◌, [], IfOk, length};
ghost use Rattle.hcc_rule.specs.Callers.{plan_of};
ghost use Rattle.hcc_rule.specs.Beginnings.{AreSeatsAt};
ghost use Rattle.hcc_rule_tests.specs.Benches.{IsBench, IsReady};
ghost use Rattle.hcc_rule.specs.Seats.{view};

use super::worker::{Bench, Worker};
use crate::any::AnyBytes;
use hcc_rule::{Geometry, RuleSeat, RuleTable};
use std::alloc::{AllocError, Global};
use std::process::Abort;

/// A table for so many clients, and their seats.
pub(super) fn bench(
    alloc: Global,
    clients: u32,
) -> Result<(Bench, Vec<RuleSeat<AnyBytes>, Global>), AllocError>
    requires clients { (1 ≤ clients) × (clients ≤ 1024) }
    ensures bench { IfOk result (λ made. IsBench (plan_of made.0)) }
    ensures count { IfOk result (λ made. length made.1.items ≡ clients) }
    ensures seats { IfOk result (λ made. AreSeatsAt made.0 0 made.1.items) }
{
    let sizes = Geometry {
        slots: 8,
        room: 2,
        clients,
    };
    RuleTable::<AnyBytes, Global>::new(alloc, sizes, 600, false, AnyBytes)
}

/// The worker of the last seat.
pub(super) fn hired<'a>(
    rt: &impl Abort,
    table: &'a Bench,
    seats: &mut Vec<RuleSeat<AnyBytes>, Global>,
) -> Worker<'a>
    requires new { AreSeatsAt table.now 0 seats.old.items }
    requires bench { IsBench (plan_of table.now) }
    requires few { length seats.old.items ≤ 1024 }
    ensures rest { AreSeatsAt table.now 0 seats.new.items }
    ensures count { length seats.new.items + 1 ≡ length seats.old.items }
    ensures worker { (result.table ≡ table.entry) × (result.client ≡ length seats.new.items)
        × (result.shown ≡ 0) }
    ensures ready { IsReady (view result.seat) }
    ensures alone { (view result.seat).others ≡ [] }
{
    let seat = seats.pop().expect(rt, "no seat is left");
    Worker {
        table,
        seat,
        client: seats.len() as u32,
        shown: 0,
    }
}

/// Ends the client of another worker of the table, and starts it again.
pub(super) fn restarted<'a>(first: &mut Worker<'a>, second: Worker<'a>) -> Worker<'a>
    requires ready { IsReady (view first.old.seat) × IsReady (view second.seat) }
    requires table { second.table.now ≡ first.old.table.now }
    requires alone { ((view first.old.seat).others ≡ []) × ((view second.seat).others ≡ []) }
    ensures same { (first.new.table ≡ first.old.table) × (first.new.client ≡ first.old.client)
        × (first.new.shown ≡ first.old.shown) }
    ensures worker { (result.table ≡ first.new.table) × (result.client ≡ second.entry.client)
        × (result.shown ≡ second.entry.shown) }
    ensures ready { IsReady (view first.new.seat) × IsReady (view result.seat) }
    ensures alone { ((view first.new.seat).others ≡ []) × ((view result.seat).others ≡ []) }
{
    let (client, shown) = (second.client, second.shown);
    first.end(second);
    let table = first.table;
    Worker {
        table,
        seat: table.split(&mut first.seat),
        client,
        shown,
    }
}
