//! What is charged for entries that are held.
ghost use Rattle.std.specs.Prelude.{◌≡◌, ◌+◌, ◌<◌, ◌≤◌, ◌^◌, None};
ghost use Rattle.hcc_core.specs.declared.limits.TheConstants.{REFERENCES_PER_CLIENT};
ghost use Rattle.hcc_rule.specs.declared.view.Record.{Record};
ghost use Rattle.hcc_rule.specs.Callers.{clients_of, IsSeatAt, IsSlotOf};
ghost use Rattle.hcc_rule.specs.Seats.{IsSameSeat, view};
ghost use Rattle.hcc_rule.specs.Views.{Each, load_of};
ghost use Rattle.hcc_rule.specs.Records.{record_in, weight_on};
ghost use Rattle.hcc_table.specs.Efforts.{Took};
ghost use Rattle.hcc_table.specs.Pinned.{CountsHeld};
ghost use Rattle.hcc_table.specs.Searched.{Sought};
ghost use Rattle.hcc_table.specs.Seeking.{Seeks};
ghost use Rattle.hcc_table.specs.Steps.{MakesAtMost};

use crate::acquire::reach;
use crate::efforts::Effort;
use crate::words::has_entry;
use hcc_rule::layout::CHARGE;
use hcc_rule::{RuleSeat, RuleTable, SlotAt, Tag};
use hcc_word::refs;
use std::alloc::Allocator;

/// The charge of the slot's entry, where a look and then an acquire of one reference both find that
/// it is held; 0 otherwise. The reference is given back, and nothing is freed.
///
/// Where the client holds a reference there, it is the charge of that entry. In a shard of one
/// client there is none elsewhere. The name is one that the client doesn't hold, and there is room
/// for one more reference. What the client has stays, as a search leaves it. It allocates nothing.
/// It costs a load, and where that finds the entry held an add, a load and a subtraction, with a
/// compare-exchange where the reference doesn't count.
pub fn pinned_charge<T: Tag, A: Allocator>(
    table: &RuleTable<T, A>,
    seat: &mut RuleSeat<T>,
    slot: u32,
    name: u64,
    effort: &mut Effort,
) -> u64
    requires seat { IsSeatAt table.now seat.old }
    requires slot { IsSlotOf table.now slot }
    requires fresh { record_in name (view seat.old).records ≡ None }
    requires load { load_of (view seat.old).records + 1 ≤ REFERENCES_PER_CLIENT }
    ensures seat { IsSameSeat seat.old seat.new }
    ensures effort { Took 0 0 1 effort.old effort.new }
    ensures view { Sought (view seat.old) (view seat.new) }
    ensures held { 0 < weight_on slot (view seat.old).records
        → Each (λ (r : Record). r.slot ≡ slot → result ≡ r.entry.charge) (view seat.old).records }
    ensures alone { clients_of table.now ≡ 1
        → weight_on slot (view seat.old).records ≡ 0 → result ≡ 0 }
    ensures counts { CountsHeld T.fits table.now name slot result effort.old effort.new
        seat.old seat.new }
    ensures small { result < 2 ^ 32 }
    ensures seeks { Seeks table.now seat.old seat.new }
    ensures steps { MakesAtMost 5 seat.old seat.new }
{
    let data = table.data_of(slot);
    let at = SlotAt { slot, data };
    let word = table.look_at(seat, at);
    if !has_entry(word) || refs(word) == 0 {
        return 0;
    }
    let found = reach(table, seat, at, 1, name, effort);
    if !has_entry(found) {
        return 0;
    }
    let charge = table.read_at(seat, at, CHARGE, name);
    table.give_at(seat, at, 1, name);
    if refs(found) == 0 {
        return 0;
    }
    charge
}
