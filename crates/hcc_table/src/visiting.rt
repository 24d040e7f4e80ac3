//! The clock's visit of a slot.
ghost use Rattle.std.specs.Prelude.{◌≡◌, ◌+◌, ◌^◌, ◌≤◌, [], true};
ghost use Rattle.hcc_word.specs.Changes.{IsClockable, clocked_word};
ghost use Rattle.hcc_word.specs.Word.{is_shareable, refs_of};
ghost use Rattle.hcc_rule.specs.Callers.{slots_of, room_of, IsSeatAt, IsSlotOf, IsSlotAt};
ghost use Rattle.hcc_rule.specs.Addresses.{address_of_meta};
ghost use Rattle.hcc_rule.specs.Between.{MayFree};
ghost use Rattle.hcc_rule.specs.Seats.{IsSameSeat, view};
ghost use Rattle.hcc_table.specs.Lists.{Hands, has_room};
ghost use Rattle.hcc_table.specs.Visited.{LostBy, Visited, CountedDown, Swept};
ghost use Rattle.hcc_table.specs.Steps.{MakesAtMost, freeing};

use crate::efforts::Effort;
use crate::freeing::try_free;
use crate::lists::FreedList;
use crate::words::has_entry;
use hcc_rule::{RuleSeat, RuleTable, SlotAt, Tag};
use hcc_word::{clocked, hit, refs};
use std::alloc::Allocator;

/// What a visit of the clock did to a slot.
#[derive(Clone, Copy, Debug, PartialEq, Eq)]
pub enum ClockVisit {
    /// It has no entry.
    Passed,
    /// It has an entry with references, and stays as it is.
    Pinned,
    /// Its countdown is one less, and at most 2.
    Counted,
    /// Another step came between the load and the compare-exchange.
    Lost,
    /// Its entry was freed: its charge and its place are the client's to settle. `hit` says whether
    /// a look-up had marked it.
    Freed { charge: u64, hit: bool },
}

/// Visits a slot as the clock does: a visible entry with no references and a countdown above 0 is
/// counted down by one compare-exchange; one with countdown 0, or a hidden one, is taken by one
/// compare-exchange and freed.
///
/// The client may free an entry, and the list has room for it. It allocates nothing. It costs a
/// load, a compare-exchange where the entry has no references, and where it frees what `free_taken`
/// costs.
pub fn visit<T: Tag, A: Allocator, L: FreedList<T>>(
    table: &RuleTable<T, A>,
    seat: &mut RuleSeat<T>,
    slot: u32,
    list: &mut L,
    effort: &mut Effort,
) -> ClockVisit
    requires seat { IsSeatAt table.now seat.old }
    requires slot { IsSlotOf table.now slot }
    requires may { MayFree (view seat.old) }
    requires room { has_room 1 (L.shelf list.old) ≡ true }
    ensures seat { IsSameSeat seat.old seat.new }
    ensures list { Hands (L.shelf list.old) (L.shelf list.new) (view seat.old) (view seat.new) }
    ensures effort { LostBy result effort.old effort.new }
    ensures visit { Visited T.fits (slots_of table.now) (room_of table.now)
        (address_of_meta table.now slot) slot result seat.old seat.new }
    ensures steps { MakesAtMost (freeing (slots_of table.now) + L.loads + 1) seat.old seat.new }
{
    let data = table.data_of(slot);
    let at = SlotAt { slot, data };
    let word = table.look_at(seat, at);
    if !has_entry(word) {
        return ClockVisit::Passed;
    }
    if refs(word) != 0 {
        return ClockVisit::Pinned;
    }
    match clocked(word) {
        Some(next) => count_down(table, seat, at, word, next, effort),
        None => sweep(table, seat, at, word, list, effort),
    }
}

/// Counts an entry down, if its word is still the one that was found.
fn count_down<T: Tag, A: Allocator>(
    table: &RuleTable<T, A>,
    seat: &mut RuleSeat<T>,
    at: SlotAt,
    word: u64,
    next: u64,
    effort: &mut Effort,
) -> ClockVisit
    requires seat { IsSeatAt table.now seat.old }
    requires at { IsSlotAt table.now at }
    requires clockable { IsClockable word }
    requires clocked { next ≡ clocked_word word }
    ensures seat { IsSameSeat seat.old seat.new }
    ensures effort { LostBy result effort.old effort.new }
    ensures visit { CountedDown (address_of_meta table.now at.slot) word result seat.old seat.new }
    ensures steps { MakesAtMost 1 seat.old seat.new }
{
    if table.clock_at(seat, at, word, next) == word {
        return ClockVisit::Counted;
    }
    effort.lose();
    ClockVisit::Lost
}

/// Frees an entry that nobody holds, if its word is still the one that was found.
fn sweep<T: Tag, A: Allocator, L: FreedList<T>>(
    table: &RuleTable<T, A>,
    seat: &mut RuleSeat<T>,
    at: SlotAt,
    word: u64,
    list: &mut L,
    effort: &mut Effort,
) -> ClockVisit
    requires seat { IsSeatAt table.now seat.old }
    requires at { IsSlotAt table.now at }
    requires entry { is_shareable word ≡ true }
    requires unheld { refs_of word ≡ 0 }
    requires may { MayFree (view seat.old) }
    requires room { has_room 1 (L.shelf list.old) ≡ true }
    ensures seat { IsSameSeat seat.old seat.new }
    ensures list { Hands (L.shelf list.old) (L.shelf list.new) (view seat.old) (view seat.new) }
    ensures effort { LostBy result effort.old effort.new }
    ensures visit { Swept T.fits (slots_of table.now) (room_of table.now)
        (address_of_meta table.now at.slot) at.slot word result seat.old seat.new }
    ensures steps { MakesAtMost (freeing (slots_of table.now) + L.loads) seat.old seat.new }
{
    match try_free(table, seat, at, word, None, list, effort) {
        Some(charge) => ClockVisit::Freed {
            charge,
            hit: hit(word),
        },
        None => ClockVisit::Lost,
    }
}
