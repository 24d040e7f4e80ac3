//! Values that are read without a reference: by loads alone, so that threads that read don't take
//! each other's cache lines.
ghost use Rattle.std.specs.Prelude.{◌≡◌, ◌+◌, ◌*◌, ◌<◌, ◌≤◌, true, false, ℕ, IfSome, IfNone, length, slice_index};
ghost use Rattle.hcc_rule.specs.declared.view.Record.{Record};
ghost use Rattle.hcc_rule.specs.Callers.{room_of, slots_of, IsSeatAt, IsSlotAt};
ghost use Rattle.hcc_rule.specs.Seats.{IsSameSeat, view};
ghost use Rattle.hcc_rule.specs.Views.{Each};
ghost use Rattle.hcc_rule.specs.Words.{key_of, payload_word, words_for};
ghost use Rattle.hcc_table.specs.Efforts.{Took};
ghost use Rattle.hcc_table.specs.Optimistic.{IsSpare, OnlyLoads, PeeksKey, PeeksOnce, Reads, ReadsAt, ReadsOptimistic};
ghost use Rattle.hcc_table.specs.Pins.{is_useful};
ghost use Rattle.hcc_table.specs.Searched.{Buried, Sought};
ghost use Rattle.hcc_table.specs.Standing.{LacksOnce};
ghost use Rattle.hcc_table.specs.Steps.{MakesAtMost, MakesFor};

use crate::efforts::Effort;
use crate::pins::Use;
use crate::unpacking::unpack;
use crate::walk::Walk;
use crate::words::is_shown;
use hcc_rule::layout::{KEY0, KEY1, LENGTH, PAYLOAD};
use hcc_rule::{Key, RuleSeat, RuleTable, SlotAt, Tag};
use hcc_word::layout::GREATEST_CLOCKED;
use hcc_word::{hit, releases};
use std::alloc::Allocator;

/// The most words of a value that is read so: they wait until it is known that they are of one
/// entry.
const MOST_WAITING: usize = 32;

const FEW_WAITING: usize = 2;

/// What came of reading the value of a key.
#[derive(Clone, Copy, Debug, PartialEq, Eq)]
pub enum Got {
    /// No visible entry of the key was found.
    Miss,
    /// The value has so many bytes, which are at the front of the buffer.
    Hit(usize),
    /// The value has so many bytes, and the buffer has fewer.
    Short(usize),
}

/// Copies the value of a visible entry of the key to the front of a buffer, as a reading by a
/// reference does, but by loads alone.
///
/// It declines (None) where the clock or the mark of a hit would see the use, where the value has
/// more than 256 bytes, and where the entry went meanwhile; then it has changed nothing, and its
/// probes aren't counted. With `as_use` the reading stands for a use, which the clock can't see
/// where the entry has 3 and more; with `marks` for a hit, where the hit bit is set.
///
/// It refuses nothing and allocates nothing. Each probe costs a load and one of the displacement
/// word, and where the slot is visible a load of half the key; a hit costs eight loads more, and
/// one for each eight bytes.
#[inline(always)]
pub fn read_optimistic<T: Tag, A: Allocator>(
    table: &RuleTable<T, A>,
    seat: &mut RuleSeat<T>,
    key: Key,
    as_use: Use,
    marks: bool,
    buffer: &mut [u8],
    effort: &mut Effort,
) -> Option<Got>
    requires seat { IsSeatAt table.now seat.old }
    ensures seat { IsSameSeat seat.old seat.new }
    ensures view { Sought (view seat.old) (view seat.new) }
    ensures loads { OnlyLoads table.now seat.old seat.new }
    ensures reads { IfSome result (λ got. ReadsOptimistic T.fits table.now key (is_useful as_use)
        marks got buffer.old buffer.new seat.old seat.new) }
    ensures effort { IfSome result (λ _. Took 1 (slots_of table.now) 0 effort.old effort.new) }
    ensures steps { IfSome result (λ _. MakesFor 4 (room_of table.now + 6) (slots_of table.now)
        effort.old effort.new seat.old seat.new) }
    ensures declined { IfNone result ((buffer.new ≡ buffer.old) × (effort.new ≡ effort.old)) }
    ensures few { MakesAtMost (4 * slots_of table.now + (room_of table.now + 6))
        seat.old seat.new }
{
    let slots = table.geometry().slots;
    let mut walk = Walk::begin(key, slots);
    for probe in 0..slots {
        let slot = walk.slot();
        let data = table.data_of(slot);
        let at = SlotAt { slot, data };
        if let Some(count) = hint_at(table, seat, at, key) {
            let got = read_hinted(table, seat, at, key, as_use, marks, count, buffer)?;
            effort.probes(probe as u64 + 1);
            return Some(got);
        }
        if table.count_at(seat, at) == 0 {
            effort.probes(probe as u64 + 1);
            return Some(Got::Miss);
        }
        walk = walk.next();
    }
    effort.probes(slots as u64);
    Some(Got::Miss)
}

/// How many bytes the value has that is in the slot, where that shows an entry which may be of the
/// key. This is a hint: what is read is loaded again.
#[inline(always)]
fn hint_at<T: Tag, A: Allocator>(
    table: &RuleTable<T, A>,
    seat: &mut RuleSeat<T>,
    at: SlotAt,
    key: Key,
) -> Option<u64>
    requires seat { IsSeatAt table.now seat.old }
    requires at { IsSlotAt table.now at }
    ensures seat { IsSameSeat seat.old seat.new }
    ensures by { Reads table.now seat.old seat.new }
    ensures looked { IfSome result (λ _. (view seat.new).work.looked ≡ Some at.slot) }
    ensures other { IfNone result (Buried key (λ s. s ≡ at.slot) (view seat.old) (view seat.new)
        × LacksOnce table.now key at.slot seat.old seat.new) }
    ensures steps { MakesAtMost 3 seat.old seat.new }
{
    let seen = table.look_at(seat, at);
    if !is_shown(seen) {
        return None;
    }
    if table.peek_at(seat, at, KEY0) != key.w0 {
        return None;
    }
    Some(table.peek_at(seat, at, LENGTH))
}

/// Reads a value of so many bytes, as it was found, where it needn't be held for it.
#[inline(always)]
fn read_hinted<T: Tag, A: Allocator>(
    table: &RuleTable<T, A>,
    seat: &mut RuleSeat<T>,
    at: SlotAt,
    key: Key,
    as_use: Use,
    marks: bool,
    count: u64,
    buffer: &mut [u8],
) -> Option<Got>
    requires seat { IsSeatAt table.now seat.old }
    requires at { IsSlotAt table.now at }
    requires looked { (view seat.old).work.looked ≡ Some at.slot }
    ensures seat { IsSameSeat seat.old seat.new }
    ensures by { Reads table.now seat.old seat.new }
    ensures reads { ReadsAt T.fits table.now key (is_useful as_use) marks at.slot result
        buffer.old buffer.new seat.old seat.new }
{
    if count <= 8 * FEW_WAITING as u64 {
        return read_waiting::<_, _, FEW_WAITING>(table, seat, at, key, as_use, marks, buffer);
    }
    if count > 8 * MOST_WAITING as u64 {
        return None;
    }
    read_waiting::<_, _, MOST_WAITING>(table, seat, at, key, as_use, marks, buffer)
}

/// Reads a value of at most so many words, 32 at most, which wait in an array: few of them in
/// registers. It is made by few instructions, since this function begins with it.
#[inline(always)]
fn read_waiting<T: Tag, A: Allocator, const WORDS: usize>(
    table: &RuleTable<T, A>,
    seat: &mut RuleSeat<T>,
    at: SlotAt,
    key: Key,
    as_use: Use,
    marks: bool,
    buffer: &mut [u8],
) -> Option<Got>
    requires few { WORDS ≤ 32 }
    requires seat { IsSeatAt table.now seat.old }
    requires at { IsSlotAt table.now at }
    requires looked { (view seat.old).work.looked ≡ Some at.slot }
    ensures seat { IsSameSeat seat.old seat.new }
    ensures by { Reads table.now seat.old seat.new }
    ensures reads { ReadsAt T.fits table.now key (is_useful as_use) marks at.slot result
        buffer.old buffer.new seat.old seat.new }
{
    let mut words = [0; WORDS];
    read_there(table, seat, at, key, as_use, marks, &mut words, buffer)
}

/// Reads the value of the entry in a slot at which the client looked, where one entry stands there
/// from its first glance to its last. Its words wait in these.
#[inline(always)]
fn read_there<T: Tag, A: Allocator>(
    table: &RuleTable<T, A>,
    seat: &mut RuleSeat<T>,
    at: SlotAt,
    key: Key,
    as_use: Use,
    marks: bool,
    words: &mut [u64],
    buffer: &mut [u8],
) -> Option<Got>
    requires seat { IsSeatAt table.now seat.old }
    requires at { IsSlotAt table.now at }
    requires looked { (view seat.old).work.looked ≡ Some at.slot }
    ensures seat { IsSameSeat seat.old seat.new }
    ensures by { Reads table.now seat.old seat.new }
    ensures reads { ReadsAt T.fits table.now key (is_useful as_use) marks at.slot result
        buffer.old buffer.new seat.old seat.new }
{
    let stamp = table.glimpse_at(seat, at);
    let word = table.glance_at(seat, at);
    if !is_shown(word) || !is_spare(word, as_use, marks) {
        return None;
    }
    if !shows_key(table, seat, at, key) {
        return None;
    }
    let Some(count) = load_value(table, seat, at, words) else {
        return None;
    };
    let last = table.glance_at(seat, at);
    if table.recheck_at(seat, at) != stamp || !is_shown(last) {
        return None;
    }
    Some(unpack(words, count, buffer))
}

/// Whether one more use of an entry with this meta word, and one more hit, leave what they find.
#[inline(always)]
fn is_spare(word: u64, as_use: Use, marks: bool) -> bool
    ensures { result ≡ true → IsSpare (is_useful as_use) marks word }
{
    let unseen = match as_use {
        Use::Useful => releases(word) > GREATEST_CLOCKED,
        Use::NotUseful => true,
    };
    unseen && (!marks || hit(word))
}

/// Whether the slot's entry has this key, half by half, as far as loads without a reference show.
#[inline(always)]
fn shows_key<T: Tag, A: Allocator>(
    table: &RuleTable<T, A>,
    seat: &mut RuleSeat<T>,
    at: SlotAt,
    key: Key,
) -> bool
    requires seat { IsSeatAt table.now seat.old }
    requires at { IsSlotAt table.now at }
    ensures seat { IsSameSeat seat.old seat.new }
    ensures view { view seat.new ≡ view seat.old }
    ensures loads { OnlyLoads table.now seat.old seat.new }
    ensures equal { result ≡ true → PeeksKey table.now key at.slot seat.old seat.new }
    ensures other { result ≡ false → LacksOnce table.now key at.slot seat.old seat.new
        × Each (λ (r : Record). r.slot ≡ at.slot → ¬ (key_of r.entry ≡ key))
        (view seat.old).records }
    ensures steps { MakesAtMost 2 seat.old seat.new }
{
    table.peek_at(seat, at, KEY0) == key.w0 && table.peek_at(seat, at, KEY1) == key.w1
}

/// Loads the length of the value of the slot's entry, and where the words have room for it, its
/// words. It returns how many bytes it has.
#[inline(always)]
fn load_value<T: Tag, A: Allocator>(
    table: &RuleTable<T, A>,
    seat: &mut RuleSeat<T>,
    at: SlotAt,
    words: &mut [u64],
) -> Option<usize>
    requires seat { IsSeatAt table.now seat.old }
    requires at { IsSlotAt table.now at }
    ensures seat { IsSameSeat seat.old seat.new }
    ensures view { view seat.new ≡ view seat.old }
    ensures loads { OnlyLoads table.now seat.old seat.new }
    ensures length { IfSome result (λ count.
        PeeksOnce table.now at.slot (λ e. count ≡ length e.value) seat.old seat.new) }
    ensures words { IfSome result (λ count. (j : ℕ) → j < words_for count
        → PeeksOnce table.now at.slot
        (λ e. 8 * j < length e.value → slice_index words.new j ≡ payload_word e.value j)
        seat.old seat.new) }
    ensures fits { IfSome result (λ count. (count ≤ 8 * length words.new)
        × (words_for count ≤ room_of table.now)
        × MakesAtMost (1 + words_for count) seat.old seat.new) }
    ensures short { IfNone result (MakesAtMost 1 seat.old seat.new) }
{
    let count = table.peek_at(seat, at, LENGTH);
    let most = words.len().min(table.geometry().room as usize);
    if count > 8 * most as u64 {
        return None;
    }
    let count = count as usize;
    let all = count.div_ceil(8);
    let fours = all / 4;
    for four in 0..fours {
        // These are unrolled.
        for part in 0..4 {
            words[4 * four + part] = table.peek_at(seat, at, PAYLOAD + (4 * four + part));
        }
    }
    for index in 4 * fours..all {
        words[index] = table.peek_at(seat, at, PAYLOAD + index);
    }
    Some(count)
}
