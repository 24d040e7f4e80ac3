//! The words of a new entry: the owner of an empty slot writes them, and shows the entry.
ghost use Rattle.std.specs.Prelude.{◌≡◌, ◌+◌, ◌*◌, ◌<◌, ◌≤◌, [], ◌∷◌, ◌++◌, drop, length, take};
ghost use Rattle.std.specs.Int.{from_le_bytes};
ghost use mir.Syntax.{w64};
ghost use Rattle.hcc_core.specs.declared.limits.TheConstants.{MOST_CLIENTS, STAMPS_PER_CLIENT};
ghost use Rattle.hcc_core.specs.declared.client.Owned.TheVariants.{ForBuilding};
ghost use Rattle.hcc_rule.specs.declared.layout.TheConstants.{PAYLOAD};
ghost use Rattle.hcc_rule.specs.Callers.{plan_of, room_of, IsSeatAt, IsSlotAt};
ghost use Rattle.hcc_rule.specs.Addresses.{address_of_meta};
ghost use Rattle.hcc_rule.specs.Rule.{IsAbove};
ghost use Rattle.hcc_rule.specs.Seats.{IsSameSeat, view, atomic};
ghost use Rattle.hcc_rule.specs.ToldOwners.{MayShow, after_show, made_of, first_word};
ghost use Rattle.hcc_rule.specs.Words.{made_words, payload, stamp_word};
ghost use Rattle.hcc_table.specs.Inserted.{with_words};
ghost use Rattle.hcc_table.specs.Seeking.{is_write, Builds, GoesOnBy};
ghost use Rattle.hcc_table.specs.Steps.{Adds, Ends, MakesAtMost};

use hcc_core::limits::STAMPS_PER_CLIENT;
use hcc_rule::layout::{CHARGE, KEY0, KEY1, LENGTH, PAYLOAD, STAMP};
use hcc_rule::packing::word_at;
use hcc_rule::{Draft, RuleSeat, RuleTable, SlotAt, Tag};
use std::alloc::Allocator;

/// Writes the words of the draft's entry into an empty slot that the client builds, and shows it.
pub(crate) fn build<T: Tag, A: Allocator>(
    table: &RuleTable<T, A>,
    seat: &mut RuleSeat<T>,
    at: SlotAt,
    draft: Draft,
    value: &[u8],
    client: u32,
)
    requires seat { IsSeatAt table.now seat.old }
    requires at { IsSlotAt table.now at }
    requires none { (view seat.old).written ≡ [] }
    requires client { client < MOST_CLIENTS }
    requires may { MayShow T.fits (plan_of table.now) at.slot draft.countdown draft.name
        (made_of draft value.now)
        (with_words (made_words client (made_of draft value.now)) (view seat.old)) }
    requires own { client ≡ (view seat.old).client }
    requires above { IsAbove draft.serial (view seat.old).made }
    ensures seat { IsSameSeat seat.old seat.new }
    ensures view { view seat.new
        ≡ after_show at.slot draft.name (made_of draft value.now) (view seat.old) }
    ensures shown { Ends (atomic (address_of_meta table.now at.slot) (first_word draft) 0
        (first_word draft)) seat.old seat.new }
    ensures builds { Builds table.now draft.countdown draft.name (made_of draft value.now)
        seat.old seat.new }
    ensures steps { MakesAtMost (room_of table.now + 6) seat.old seat.new }
{
    write_head(table, seat, at, draft, value.len() as u64, client);
    write_payload(table, seat, at, value);
    table.show_at(seat, at, draft, value);
}

/// Writes the five words before the payload.
fn write_head<T: Tag, A: Allocator>(
    table: &RuleTable<T, A>,
    seat: &mut RuleSeat<T>,
    at: SlotAt,
    draft: Draft,
    bytes: u64,
    client: u32,
)
    requires seat { IsSeatAt table.now seat.old }
    requires at { IsSlotAt table.now at }
    requires owned { (view seat.old).work.owned ≡ ForBuilding at.slot }
    requires none { (view seat.old).written ≡ [] }
    requires client { client < MOST_CLIENTS }
    requires own { client ≡ (view seat.old).client }
    requires serial { draft.serial < STAMPS_PER_CLIENT }
    requires above { IsAbove draft.serial (view seat.old).made }
    ensures seat { IsSameSeat seat.old seat.new }
    ensures view { view seat.new ≡ with_words (draft.key.w0 ∷ draft.key.w1 ∷ draft.charge
        ∷ stamp_word client draft.serial ∷ bytes ∷ []) (view seat.old) }
    ensures by { GoesOnBy table.now is_write seat.old seat.new }
    ensures adds { Adds seat.old seat.new }
    ensures steps { MakesAtMost 5 seat.old seat.new }
{
    table.write_at(seat, at, KEY0, draft.key.w0);
    table.write_at(seat, at, KEY1, draft.key.w1);
    table.write_at(seat, at, CHARGE, draft.charge as u64);
    let stamp = client as u64 * STAMPS_PER_CLIENT + draft.serial;
    table.write_at(seat, at, STAMP, stamp);
    table.write_at(seat, at, LENGTH, bytes);
}

/// Writes the words of the payload, behind the five words that were written.
fn write_payload<T: Tag, A: Allocator>(
    table: &RuleTable<T, A>,
    seat: &mut RuleSeat<T>,
    at: SlotAt,
    value: &[u8],
)
    requires seat { IsSeatAt table.now seat.old }
    requires at { IsSlotAt table.now at }
    requires owned { (view seat.old).work.owned ≡ ForBuilding at.slot }
    requires head { length (view seat.old).written ≡ PAYLOAD }
    requires short { length value.now ≤ 8 * (room_of table.now) }
    ensures seat { IsSameSeat seat.old seat.new }
    ensures view { view seat.new
        ≡ with_words ((view seat.old).written ++ payload value.now) (view seat.old) }
    ensures by { GoesOnBy table.now is_write seat.old seat.new }
    ensures adds { Adds seat.old seat.new }
    ensures steps { MakesAtMost (room_of table.now) seat.old seat.new }
{
    let whole = value.len() / 8;
    for k in 0..whole {
        table.write_at(seat, at, PAYLOAD + k, whole_word(value, 8 * k));
    }
    if value.len() % 8 > 0 {
        table.write_at(seat, at, PAYLOAD + whole, word_at(value, 8 * whole));
    }
}

/// The word of the eight bytes from an offset on, the first lowest.
#[inline(always)]
fn whole_word(value: &[u8], offset: usize) -> u64
    requires { offset + 8 ≤ length value.now }
    ensures { result ≡ from_le_bytes w64 (take 8 (drop offset value.now)) }
{
    let mut bytes = [0u8; 8];
    bytes.copy_from_slice(&value[offset..offset + 8]);
    u64::from_le_bytes(bytes)
}
