//! What the two clients do: each call of the shard, with its line of the script.
ghost use Rattle.std.specs.Prelude.{◌≡◌, ◌<◌, [], ◌∷◌, Some, OnOk};
ghost use Rattle.hcc_core.specs.declared.client.Owned.TheVariants.{ForFreeing};
ghost use Rattle.hcc_core.specs.declared.slot.Entry.{Entry};
ghost use Rattle.hcc_core.specs.declared.slot.Stamp.{Stamp};
ghost use Rattle.hcc_core.specs.Opening.{new_client};
ghost use Rattle.hcc_rule.specs.declared.view.Made.{Made};
ghost use Rattle.hcc_rule.specs.Probes.{trail_to};
ghost use Rattle.hcc_rule.specs.Seats.{view};
ghost use Rattle.hcc_rule.specs.ToldOwners.{first_records};
ghost use Rattle.hcc_rule.specs.Work.{Carries};
ghost use Rattle.hcc_rule.specs.Words.{made_words};
ghost use Rattle.hcc_rule_tests.specs.Benches.{IsReady};

use super::tape::Tape;
use super::worker::{FIRST, HELD, KEPT, LIMIT, THIRD, Worker};
use hcc_rule::layout::{CHARGE, KEY0, KEY1};
use hcc_rule::{Key, SlotAt};
use hcc_word::layout::{INVISIBLE, VISIBLE};
use hcc_word::{clocked, refs, state};
use std::alloc::AllocError;
use std::process::Abort;

/// Client 0 asks for a place and a charge, passes a slot, and gives all back; and turns the hand.
pub(super) fn comes_to_nothing(
    rt: &impl Abort,
    zero: &mut Worker<'_>,
    tape: &mut Tape<'_>,
) -> Result<(), AllocError>
    requires ready { IsReady (view zero.old.seat) }
    ensures ready { OnOk result (IsReady (view zero.new.seat)) }
{
    let occupancy = zero.table.enter(&mut zero.seat);
    assert!(rt; occupancy < LIMIT, "the shard is full");
    tape.add("enter 0")?;
    zero.table.charge(&mut zero.seat, 50);
    tape.add("charge 0 50")?;
    let data = zero.table.data_of(3);
    zero.table.pass_at(&mut zero.seat, SlotAt { slot: 3, data });
    tape.add("pass 0 3")?;
    zero.table.unpass(&mut zero.seat, 3);
    tape.add("unpass 0 3")?;
    zero.table.waive(&mut zero.seat, 50);
    tape.add("waive 0")?;
    zero.table.quit(&mut zero.seat, 1);
    tape.add("quit 0")?;
    let hand = zero.table.turn(&mut zero.seat);
    tape.hand = hand.wrapping_add(4);
    tape.add("turn 0")
}

/// Client 1 has an entry that stands alone, for a time.
pub(super) fn stands(one: &mut Worker<'_>, tape: &mut Tape<'_>) -> Result<(), AllocError>
    requires ready { IsReady (view one.old.seat) }
    ensures ready { OnOk result (IsReady (view one.new.seat)) }
{
    one.table.charge(&mut one.seat, 70);
    tape.add("charge 1 70")?;
    one.table.stand(&mut one.seat, 5, 70);
    tape.add("stand 1 70 5")?;
    one.table.fall(&mut one.seat, 5, 70);
    tape.add("fall 1 5")?;
    one.table.settle(&mut one.seat, 70);
    tape.add("settle 1")
}

/// Client 1 finds the entry in slot 2, reads its key, marks it and uses it; and acquires it three
/// times over and gives it back.
pub(super) fn uses(
    rt: &impl Abort,
    one: &mut Worker<'_>,
    tape: &mut Tape<'_>,
) -> Result<(), AllocError>
    requires ready { IsReady (view one.old.seat) }
    ensures ready { OnOk result (IsReady (view one.new.seat)) }
{
    one.reaches(rt, tape, 2, 1)?;
    let data = one.table.data_of(2);
    let at = SlotAt { slot: 2, data };
    let word = one.table.read_at(&mut one.seat, at, KEY1, HELD);
    assert!(rt; word == FIRST.w1, "slot 2 has another key");
    tape.add("read 1 4")?;
    one.table.mark(&mut one.seat, 2, HELD);
    tape.add("mark 1 4")?;
    one.table.spend_at(&mut one.seat, at, 1, HELD);
    tape.add("use 1 4")?;
    one.reaches(rt, tape, 2, 3)?;
    let data = one.table.data_of(2);
    let at = SlotAt { slot: 2, data };
    one.table.give_at(&mut one.seat, at, 3, HELD);
    tape.add("give 1 4")
}

/// Client 0 hides the entry in slot 2 by the reference that it kept, and gives this back.
pub(super) fn hides(zero: &mut Worker<'_>, tape: &mut Tape<'_>) -> Result<(), AllocError>
    requires holds { (entry : Entry)
        × Carries new_client (first_records 2 (Some KEPT) entry) (view zero.old.seat) }
    ensures ready { OnOk result (IsReady (view zero.new.seat)) }
{
    zero.table.hide(&mut zero.seat, 2, KEPT);
    tape.add("hide 0 7")?;
    let data = zero.table.data_of(2);
    let at = SlotAt { slot: 2, data };
    zero.table.give_at(&mut zero.seat, at, 1, KEPT);
    tape.add("give 0 7")
}

/// Client 0 frees the entry in slot 2, which nobody holds, while an acquire of client 1 goes astray
/// there.
pub(super) fn frees(
    rt: &impl Abort,
    zero: &mut Worker<'_>,
    one: &mut Worker<'_>,
    tape: &mut Tape<'_>,
) -> Result<(), AllocError>
    requires ready { IsReady (view zero.old.seat) × IsReady (view one.old.seat) }
    ensures zero { OnOk result (IsReady (view zero.new.seat)) }
    ensures one { OnOk result (IsReady (view one.new.seat)) }
{
    let data = one.table.data_of(2);
    let seen = one.table.look_at(&mut one.seat, SlotAt { slot: 2, data });
    assert!(rt; state(seen) >= INVISIBLE, "slot 2 has no entry");
    tape.add("look 1 2")?;
    assert!(rt; refs(seen) == 0, "slot 2 is held");
    let data = zero.table.data_of(2);
    let at = SlotAt { slot: 2, data };
    let found = zero.table.free_at(&mut zero.seat, at, seen, None);
    assert!(rt; found == seen, "slot 2 was not taken");
    tape.add("free 0 2 -")?;
    let data = one.table.data_of(2);
    let at = SlotAt { slot: 2, data };
    let stray = one.table.acquire_at(&mut one.seat, at, 1, HELD);
    assert!(rt; state(stray) < INVISIBLE, "slot 2 has an entry");
    tape.add("acquire 1 2 1 4")?;
    let charge = taken_charge(rt, zero, 2, FIRST);
    zero.table.unpass(&mut zero.seat, 1);
    tape.add("unpass 0 1")?;
    let data = zero.table.data_of(2);
    let at = SlotAt { slot: 2, data };
    zero.table.empty_at(&mut zero.seat, at);
    tape.add("empty 0")?;
    zero.table.return_slots(&mut zero.seat, 1);
    tape.add("slots 0")?;
    zero.table.settle(&mut zero.seat, charge);
    tape.add("settle 0")
}

/// The charge of the entry that a worker took, which has this key. These loads are no events.
fn taken_charge(rt: &impl Abort, worker: &mut Worker<'_>, slot: u32, key: Key) -> u64
    requires slot { slot < 8 }
    requires took { (stamp : Stamp) × (made : Made) × Carries (record new_client {
      owned = ForFreeing slot;
      trail = trail_to 8 made.key slot;
      freed = made.charge;
      freed_slots = 1;
    }) [] (view worker.old.seat)
        × ((view worker.old.seat).written ≡ made_words stamp.client made) }
    ensures takes { Carries (record new_client {
      owned = ForFreeing slot;
      trail = trail_to 8 key slot;
      freed = result;
      freed_slots = 1;
    }) [] (view worker.new.seat) }
    ensures some { 0 < result }
{
    let data = worker.table.data_of(slot);
    let at = SlotAt { slot, data };
    let key0 = worker.table.read_own_at(&mut worker.seat, at, KEY0);
    let key1 = worker.table.read_own_at(&mut worker.seat, at, KEY1);
    let charge = worker.table.read_own_at(&mut worker.seat, at, CHARGE);
    assert!(rt;
        key0 == key.w0 && key1 == key.w1,
        "slot {slot} has another key"
    );
    assert!(rt; charge > 0, "no charge");
    charge
}

/// Client 1 uses the reference that it kept in slot 3, and client 0 counts the entry down.
pub(super) fn counts_down(
    rt: &impl Abort,
    zero: &mut Worker<'_>,
    one: &mut Worker<'_>,
    tape: &mut Tape<'_>,
) -> Result<(), AllocError>
    requires ready { IsReady (view zero.old.seat) }
    requires holds { (entry : Entry)
        × Carries new_client (first_records 3 (Some KEPT) entry) (view one.old.seat) }
    ensures zero { OnOk result (IsReady (view zero.new.seat)) }
    ensures one { OnOk result (IsReady (view one.new.seat)) }
{
    let data = one.table.data_of(3);
    let at = SlotAt { slot: 3, data };
    one.table.spend_at(&mut one.seat, at, 1, KEPT);
    tape.add("use 1 7")?;
    let data = zero.table.data_of(3);
    let at = SlotAt { slot: 3, data };
    let seen = zero.table.look_at(&mut zero.seat, at);
    tape.add("look 0 3")?;
    let next = clocked(seen).expect(rt, "the clock passes over slot 3");
    let found = zero.table.clock_at(&mut zero.seat, at, seen, next);
    assert!(rt; found == seen, "slot 3 was not counted down");
    tape.add("clock 0 3")
}

/// Client 1 hides the entry in slot 3, and frees it with the last reference.
pub(super) fn erases(
    rt: &impl Abort,
    one: &mut Worker<'_>,
    tape: &mut Tape<'_>,
) -> Result<(), AllocError>
    requires ready { IsReady (view one.old.seat) }
    ensures ready { OnOk result (IsReady (view one.new.seat)) }
{
    let word = one.reaches(rt, tape, 3, 1)?;
    assert!(rt; state(word) == VISIBLE, "slot 3 is hidden");
    one.table.hide(&mut one.seat, 3, HELD);
    tape.add("hide 1 4")?;
    let data = one.table.data_of(3);
    let at = SlotAt { slot: 3, data };
    let hidden = one.table.look_at(&mut one.seat, at);
    tape.add("look 1 3")?;
    assert!(rt;
        state(hidden) >= INVISIBLE && refs(hidden) == 1,
        "slot 3 is held"
    );
    let found = one.table.free_at(&mut one.seat, at, hidden, Some(HELD));
    assert!(rt; found == hidden, "slot 3 was not taken");
    tape.add("free 1 3 4")?;
    let charge = taken_charge(rt, one, 3, THIRD);
    let data = one.table.data_of(3);
    one.table.empty_at(&mut one.seat, SlotAt { slot: 3, data });
    tape.add("empty 1")?;
    one.table.return_slots(&mut one.seat, 1);
    tape.add("slots 1")?;
    one.table.settle(&mut one.seat, charge);
    tape.add("settle 1")
}
