//! A shard for tests, and the callers of its seats.
ghost use Rattle.std.specs.Prelude.{◌≡◌, ◌+◌, ◌≤◌, true, IfOk, length};
ghost use Rattle.hcc_rule.specs.Callers.{plan_of, slots_of};
ghost use Rattle.hcc_rule.specs.Beginnings.{AreSeatsAt};
ghost use Rattle.hcc_rule_tests.specs.Benches.{IsReady};
ghost use Rattle.hcc_rule.specs.Seats.{view};
ghost use Rattle.hcc_shard_tests.specs.Handles.{IsSmall};

use super::caller::{Bench, Caller};
use crate::any::AnyBytes;
use hcc_core::limits::OCCUPANCY_PERCENT;
use hcc_rule::{Geometry, RuleSeat, RuleTable};
use hcc_table::Effort;
use std::alloc::{AllocError, Global};
use std::process::Abort;

/// The seats of a table's clients.
pub(super) type Seats = Vec<RuleSeat<AnyBytes>, Global>;

/// A table for one client with 8 slots, or for two with 16, and their seats.
pub(super) fn bench(alloc: Global, two: bool) -> Result<(Bench, Seats), AllocError>
    ensures bench { IfOk result (λ made. IsSmall (plan_of made.0)) }
    ensures seats { IfOk result (λ made. AreSeatsAt made.0 0 made.1.items) }
    ensures few { IfOk result (λ made. length made.1.items ≤ 2) }
    ensures slots { IfOk result (λ made. two ≡ true → slots_of made.0 ≡ 16) }
{
    let sizes = Geometry {
        slots: if two { 16 } else { 8 },
        room: 2,
        clients: if two { 2 } else { 1 },
    };
    RuleTable::<AnyBytes, Global>::new(alloc, sizes, 600, false, AnyBytes)
}

/// The caller of the last seat.
pub(super) fn hired<'a>(rt: &impl Abort, table: &'a Bench, seats: &mut Seats) -> Caller<'a>
    requires new { AreSeatsAt table.now 0 seats.old.items }
    requires bench { IsSmall (plan_of table.now) }
    requires few { length seats.old.items ≤ 2 }
    ensures rest { AreSeatsAt table.now 0 seats.new.items }
    ensures few { length seats.new.items ≤ 2 }
    ensures table { result.table ≡ table.entry }
    ensures ready { IsReady (view result.seat) }
{
    let seat = seats.pop().expect(rt, "no seat is left");
    Caller {
        table,
        seat,
        client: seats.len() as u32,
        limit: table.geometry().slots as u64 * OCCUPANCY_PERCENT / 100,
        shown: 0,
        effort: Effort::NONE,
    }
}
