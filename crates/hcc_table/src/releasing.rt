//! References that are given back.
ghost use Rattle.std.specs.Prelude.{◌≡◌, ◌+◌, ◌^◌, ◌≤◌, true, false, ◌&&◌, ◌||◌, ◌==◌, not, None, IfSome, IfNone, IsSomeAnd, ℕ};
ghost use Rattle.hcc_word.specs.declared.layout.TheConstants.{CONSTRUCTION_WORD};
ghost use Rattle.hcc_word.specs.Word.{is_shareable, is_visible, refs_of};
ghost use Rattle.hcc_core.specs.Outcomes.{dropped};
ghost use Rattle.hcc_rule.specs.Callers.{room_of, IsSeatAt, IsSlotOf, slots_of, IsSlotAt};
ghost use Rattle.hcc_rule.specs.Addresses.{address_of_meta};
ghost use Rattle.hcc_rule.specs.Between.{MayFree};
ghost use Rattle.hcc_rule.specs.Seats.{IsSameSeat, view, SeatOf, atomic};
ghost use Rattle.hcc_rule.specs.Views.{is_called};
ghost use Rattle.hcc_rule.specs.Records.{record_in};
ghost use Rattle.hcc_table.specs.Efforts.{Lost};
ghost use Rattle.hcc_table.specs.Freed.{GivesOnce, IsFreed, IsLeft, IsLeftBy, TakesByWhereDue, TriedWhereDue, is_due};
ghost use Rattle.hcc_table.specs.Lists.{Hands, has_room};
ghost use Rattle.hcc_table.specs.Pins.{IsPinned, erases, is_useful, IsPinAt};
ghost use Rattle.hcc_table.specs.Searched.{Searched};
ghost use Rattle.hcc_table.specs.Steps.{Among, MakesAtMost, freeing};

use crate::efforts::Effort;
use crate::freeing::try_free;
use crate::lists::FreedList;
use crate::pins::{IfLast, Pin, PinAt, Use};
use crate::words::{has_entry, is_shown};
use hcc_rule::{RuleSeat, RuleTable, SlotAt, Tag};
use hcc_word::{given_back, refs, released};
use std::alloc::Allocator;

/// Gives the reference of a pin back: as a use, where it is useful and counts, else by taking it
/// from the acquires. Where no reference is left then, and the entry is hidden or `last` asks for
/// it, taking the entry is tried once, and its slot is freed; but where the list has no room, that
/// is left to the clock. It returns the charge of the entry that was freed, and puts that on the
/// list; the charge and a place are the client's to settle. Another entry that came into the slot
/// meanwhile may be the one that goes.
///
/// The client holds the pin's reference, and may free an entry. Its record is gone afterwards, and
/// no other. A visible entry is taken only where `last` asks for it. It allocates nothing. It costs
/// one atomic add or subtraction; where nobody holds the entry and it may go a compare-exchange,
/// and where that wins what `free_taken` costs.
#[inline(always)]
pub fn release<T: Tag, A: Allocator, L: FreedList<T>>(
    table: &RuleTable<T, A>,
    seat: &mut RuleSeat<T>,
    pin: Pin,
    as_use: Use,
    last: IfLast,
    list: &mut L,
    effort: &mut Effort,
) -> Option<u64>
    requires seat { IsSeatAt table.now seat.old }
    requires slot { IsSlotOf table.now pin.slot }
    requires holds { IsPinned pin (view seat.old) }
    requires may { MayFree (view seat.old) }
    ensures seat { IsSameSeat seat.old seat.new }
    ensures list { Hands (L.shelf list.old) (L.shelf list.new) (view seat.old) (view seat.new) }
    ensures effort { Lost 0 1 effort.old effort.new }
    ensures records { (view seat.new).records
        ≡ dropped (is_called pin.name) (view seat.old).records }
    ensures kept { IfNone result (Searched (view seat.old) (view seat.new)
        × ((view seat.new).met ≡ (view seat.old).met)) }
    ensures freed { IfSome result (λ charge. (word : ℕ)
        × Among (atomic (address_of_meta table.now pin.slot) word CONSTRUCTION_WORD word)
        seat.old seat.new
        × IsFreed T.fits (room_of table.now) word None charge (view seat.old) (view seat.new)
        × (erases last ≡ false → is_visible word ≡ false)
        × ((view seat.new).work.looked ≡ (view seat.old).work.looked)) }
    ensures tried { (left : ℕ) × (between : SeatOf T)
        × IsLeft (address_of_meta table.now pin.slot) pin.slot 1 pin.name
        (is_useful as_use && pin.counting) left seat.old between
        × TriedWhereDue (address_of_meta table.now pin.slot) left
        (has_room 1 (L.shelf list.old) && is_due (erases last) left) result
        effort.old effort.new between seat.new
        × IsLeftBy table.now pin.slot 1 pin.name (is_useful as_use && pin.counting) left
        seat.old between
        × TakesByWhereDue table.now pin.slot left None
        (has_room 1 (L.shelf list.old) && is_due (erases last) left) result between seat.new }
    ensures steps { MakesAtMost (freeing (slots_of table.now) + L.loads + 1) seat.old seat.new }
{
    let used = as_use.is_use(pin.counting);
    let (slot, data) = (pin.slot, table.data_of(pin.slot));
    let at = SlotAt { slot, data };
    let left = let_go(table, seat, at, 1, pin.name, used);
    if is_free_to_go(left, last.erases(), list.has_room(1)) {
        try_free(table, seat, at, left, None, list, effort)
    } else {
        None
    }
}

/// Gives the reference of a pin back, as a use where it is useful and counts, and frees nothing: an
/// erased entry that nobody holds then stays until the clock comes by.
///
/// The client holds the pin's reference. Its record is gone afterwards, and no other. It allocates
/// nothing. It costs one atomic add or subtraction.
#[inline(always)]
pub fn give_back<T: Tag, A: Allocator>(
    table: &RuleTable<T, A>,
    seat: &mut RuleSeat<T>,
    held: PinAt,
    as_use: Use,
)
    requires seat { IsSeatAt table.now seat.old }
    requires held { IsPinAt table.now held }
    requires holds { IsPinned held.pin (view seat.old) }
    ensures seat { IsSameSeat seat.old seat.new }
    ensures gives { GivesOnce table.now held.pin (is_useful as_use) seat.old seat.new }
    ensures steps { MakesAtMost 1 seat.old seat.new }
{
    let used = as_use.is_use(held.pin.counting);
    let (slot, data) = (held.pin.slot, held.data);
    let_go(table, seat, SlotAt { slot, data }, 1, held.pin.name, used);
}

/// Gives the references of this name back, as uses or not, and returns the word that is left.
#[inline(always)]
pub(crate) fn let_go<T: Tag, A: Allocator>(
    table: &RuleTable<T, A>,
    seat: &mut RuleSeat<T>,
    at: SlotAt,
    weight: u32,
    name: u64,
    used: bool,
) -> u64
    requires seat { IsSeatAt table.now seat.old }
    requires at { IsSlotAt table.now at }
    requires holds { IsSomeAnd (record_in name (view seat.old).records)
        (λ r. (r.slot ≡ at.slot) × (r.weight ≡ weight) × (used ≡ true → r.counting ≡ true)) }
    ensures seat { IsSameSeat seat.old seat.new }
    ensures left { IsLeft (address_of_meta table.now at.slot) at.slot weight name used result
        seat.old seat.new }
    ensures by { IsLeftBy table.now at.slot weight name used result seat.old seat.new }
    ensures steps { MakesAtMost 1 seat.old seat.new }
{
    if used {
        released(table.spend_at(seat, at, weight, name), weight)
    } else {
        given_back(table.give_at(seat, at, weight, name), weight)
    }
}

/// Whether it is the word of an entry that nobody holds, and that is hidden or is to be erased,
/// where there is room for it.
fn is_free_to_go(word: u64, erase: bool, room: bool) -> bool
    ensures { result ≡ (room && is_due erase word) }
{
    // Most releases leave a visible entry, so that is tested first.
    (erase || !is_shown(word)) && is_unheld(word) && room
}

/// Whether it is the word of an entry that nobody holds. It is cold, so that compilers don't make
/// one test of it and the one before it.
#[cold]
#[inline(never)]
fn is_unheld(word: u64) -> bool
    ensures { result ≡ (is_shareable word && (refs_of word == 0)) }
{
    has_entry(word) && refs(word) == 0
}
