//! What a client reads of slots and of the entries that it holds.
ghost use Rattle.std.specs.Prelude.{◌≡◌, ◌+◌, ◌-◌, ◌*◌, ◌<◌, ◌≤◌, ◌++◌, IfSome, IsSomeAnd, length, take, drop};
ghost use Rattle.std.specs.Int.{to_le_bytes};
ghost use mir.Syntax.{w64};
ghost use Rattle.hcc_core.specs.World.{limit_of, times};
ghost use Rattle.hcc_rule.specs.declared.layout.TheConstants.{KEY1};
ghost use Rattle.hcc_rule.specs.declared.view.Record.{Record};
ghost use Rattle.hcc_rule.specs.Callers.{clients_of, plan_of, slots_of, room_of, IsEvent, IsSeatAt, IsSlotOf, HasOn};
ghost use Rattle.hcc_rule.specs.Events.{count_done, look_done};
ghost use Rattle.hcc_rule.specs.Addresses.{address_of_displacement, address_of_meta};
ghost use Rattle.hcc_rule.specs.Probes.{trail_to};
ghost use Rattle.hcc_rule.specs.Rule.{setup_of};
ghost use Rattle.hcc_rule.specs.Seats.{IsSameSeat, Makes, view};
ghost use Rattle.hcc_rule.specs.Looked.{after_look, HoldsAll, Backs};
ghost use Rattle.hcc_rule.specs.ToldOwners.{after_read};
ghost use Rattle.hcc_rule.specs.ToldTrails.{passed_held};
ghost use Rattle.hcc_rule.specs.Views.{Each};
ghost use Rattle.hcc_rule.specs.Records.{different, record_in};
ghost use Rattle.hcc_rule.specs.Words.{key_of, payload_word, words_for};
ghost use Rattle.hcc_table.specs.Pins.{IsPinned, IsPinAt};
ghost use Rattle.hcc_table.specs.Readings.{part_in, put_in, put_turn, IsReadable};
ghost use Rattle.hcc_table.specs.Seeking.{Seeks};
ghost use Rattle.hcc_table.specs.Steps.{MakesAtMost};

use crate::pins::{Pin, PinAt};
use hcc_rule::layout::{CHARGE, KEY0, KEY1, LENGTH, PAYLOAD};
use hcc_rule::{Key, RuleSeat, RuleTable, SlotAt, Tag};
use std::alloc::Allocator;

/// The meta word of a slot, as its load found it. `hcc_word` reads its fields.
///
/// Where the client holds references on the slot, the word is that of an entry with at least these,
/// and they all are on that entry; in a shard of one client, with just these. The client has looked
/// at the slot where the word is an entry's, and has seen an entry dead that it holds and that is
/// hidden; the rest of what it has stays. It refuses nothing and allocates nothing. It costs one
/// load.
pub fn word<T: Tag, A: Allocator>(table: &RuleTable<T, A>, seat: &mut RuleSeat<T>, slot: u32) -> u64
    requires seat { IsSeatAt table.now seat.old }
    requires slot { IsSlotOf table.now slot }
    ensures seat { IsSameSeat seat.old seat.new }
    ensures view { view seat.new ≡ after_look slot result (view seat.old) }
    ensures loads { Makes (address_of_meta table.now slot) 0 0 result seat.old seat.new }
    ensures backs { Backs slot result (view seat.old) }
    ensures alone { HoldsAll (setup_of (plan_of table.now)) slot result (view seat.old) }
    ensures event { IsEvent table.now (look_done slot result (view seat.old)) seat.old seat.new }
    ensures steps { MakesAtMost 1 seat.old seat.new }
{
    let data = table.data_of(slot);
    table.look_at(seat, SlotAt { slot, data })
}

/// How often a slot stands in the trails of entries and of clients, as a load of its displacement
/// word found it.
///
/// The client's own trail is among them, and so is that of each entry that it holds a reference on;
/// each of these is on a slot of the table. Any other entry has the slot in its trail once at most,
/// and any other client as often as there are slots. In a shard of one client the other entries are
/// those that it showed and did not take: so the answer is exact where it holds all of these. What
/// the client has stays. It refuses nothing and allocates nothing. It costs one load.
pub fn displacement<T: Tag, A: Allocator>(
    table: &RuleTable<T, A>,
    seat: &mut RuleSeat<T>,
    slot: u32,
) -> u64
    requires seat { IsSeatAt table.now seat.old }
    requires slot { IsSlotOf table.now slot }
    ensures seat { IsSameSeat seat.old seat.new }
    ensures view { view seat.new ≡ view seat.old }
    ensures loads { Makes (address_of_displacement table.now slot) 0 0 result seat.old seat.new }
    ensures own { times slot (view seat.old).work.trail ≤ result }
    ensures held { Each (λ (r : Record).
        times slot (trail_to (slots_of table.now) (key_of r.entry) r.slot) ≤ result)
        (view seat.old).records }
    ensures within { Each (λ (r : Record). r.slot < slots_of table.now) (view seat.old).records }
    ensures entries { times slot (view seat.old).work.trail
        + passed_held (slots_of table.now) slot (view seat.old).records ≤ result }
    ensures most { result + length (different (view seat.old).records)
        ≤ times slot (view seat.old).work.trail
        + passed_held (slots_of table.now) slot (view seat.old).records
        + limit_of (setup_of (plan_of table.now))
        + slots_of table.now * (clients_of table.now - 1) }
    ensures alone { clients_of table.now ≡ 1
        → result + (view seat.old).takings + length (different (view seat.old).records)
        ≤ times slot (view seat.old).work.trail
        + passed_held (slots_of table.now) slot (view seat.old).records
        + length (view seat.old).made }
    ensures event { IsEvent table.now (count_done slot result (view seat.old)) seat.old seat.new }
    ensures steps { MakesAtMost 1 seat.old seat.new }
{
    let data = table.data_of(slot);
    table.count_at(seat, SlotAt { slot, data })
}

/// How many bytes the value has of the entry of a pin.
///
/// The client holds the pin's reference. What the client has stays. It refuses nothing and
/// allocates nothing. It costs one load.
#[inline(always)]
pub fn read_len<T: Tag, A: Allocator>(
    table: &RuleTable<T, A>,
    seat: &mut RuleSeat<T>,
    held: PinAt,
) -> usize
    requires seat { IsSeatAt table.now seat.old }
    requires held { IsPinAt table.now held }
    requires holds { IsPinned held.pin (view seat.old) }
    ensures seat { IsSameSeat seat.old seat.new }
    ensures view { view seat.new ≡ view seat.old }
    ensures exact { IfSome (record_in held.pin.name (view seat.old).records)
        (λ r. result ≡ length r.entry.value) }
    ensures seeks { Seeks table.now seat.old seat.new }
    ensures steps { MakesAtMost 1 seat.old seat.new }
{
    let (slot, data) = (held.pin.slot, held.data);
    table.read_at(seat, SlotAt { slot, data }, LENGTH, held.pin.name) as usize
}

/// The charge of the entry of a pin.
///
/// The client holds the pin's reference. What the client has stays. It refuses nothing and
/// allocates nothing. It costs one load.
pub fn read_charge<T: Tag, A: Allocator>(
    table: &RuleTable<T, A>,
    seat: &mut RuleSeat<T>,
    held: PinAt,
) -> u64
    requires seat { IsSeatAt table.now seat.old }
    requires held { IsPinAt table.now held }
    requires holds { IsPinned held.pin (view seat.old) }
    ensures seat { IsSameSeat seat.old seat.new }
    ensures view { view seat.new ≡ view seat.old }
    ensures exact { IfSome (record_in held.pin.name (view seat.old).records)
        (λ r. result ≡ r.entry.charge) }
    ensures seeks { Seeks table.now seat.old seat.new }
    ensures steps { MakesAtMost 1 seat.old seat.new }
{
    let (slot, data) = (held.pin.slot, held.data);
    table.read_at(seat, SlotAt { slot, data }, CHARGE, held.pin.name)
}

/// The key of the entry of a pin.
///
/// The client holds the pin's reference. Where it got the entry as Shown, the key joins the keys
/// that it met; the rest of what it has stays. It refuses nothing and allocates nothing. It costs
/// two loads.
pub fn read_key<T: Tag, A: Allocator>(
    table: &RuleTable<T, A>,
    seat: &mut RuleSeat<T>,
    pin: Pin,
) -> Key
    requires seat { IsSeatAt table.now seat.old }
    requires slot { IsSlotOf table.now pin.slot }
    requires holds { IsPinned pin (view seat.old) }
    ensures seat { IsSameSeat seat.old seat.new }
    ensures view { view seat.new ≡ after_read pin.name KEY1 (view seat.old) }
    ensures exact { IfSome (record_in pin.name (view seat.old).records)
        (λ r. result ≡ key_of r.entry) }
    ensures seeks { Seeks table.now seat.old seat.new }
    ensures steps { MakesAtMost 2 seat.old seat.new }
{
    let (slot, data) = (pin.slot, table.data_of(pin.slot));
    let at = SlotAt { slot, data };
    Key {
        w0: table.read_at(seat, at, KEY0, pin.name),
        w1: table.read_at(seat, at, KEY1, pin.name),
    }
}

/// Copies the value of the entry of a pin to the front of a buffer. It returns how many bytes it
/// has. The rest of the buffer stays as it is.
///
/// The client holds the pin's reference, on an entry whose value fits its slot and is of bytes, and
/// the buffer has room for the value. What the client has stays. It refuses nothing and allocates
/// nothing. It costs one load for the length, and one for each eight bytes, the last ones too.
pub fn read_bytes<T: Tag, A: Allocator>(
    table: &RuleTable<T, A>,
    seat: &mut RuleSeat<T>,
    pin: Pin,
    buffer: &mut [u8],
) -> usize
    requires seat { IsSeatAt table.now seat.old }
    requires slot { IsSlotOf table.now pin.slot }
    requires holds { IsPinned pin (view seat.old) }
    requires readable { IfSome (record_in pin.name (view seat.old).records)
        (λ r. IsReadable (room_of table.now) r) }
    requires space { IfSome (record_in pin.name (view seat.old).records)
        (λ r. length r.entry.value ≤ length buffer.old) }
    ensures seat { IsSameSeat seat.old seat.new }
    ensures view { view seat.new ≡ view seat.old }
    ensures length { IfSome (record_in pin.name (view seat.old).records)
        (λ r. result ≡ length r.entry.value) }
    ensures bytes { IfSome (record_in pin.name (view seat.old).records)
        (λ r. buffer.new ≡ r.entry.value ++ drop (length r.entry.value) buffer.old) }
    ensures seeks { Seeks table.now seat.old seat.new }
    ensures steps { MakesAtMost (words_for result + 1) seat.old seat.new }
{
    let data = table.data_of(pin.slot);
    let held = PinAt { pin, data };
    let length = read_len(table, seat, held);
    copy_bytes(table, seat, held, length, buffer);
    length
}

/// The same, once `read_len` returned how many bytes it has.
#[inline(always)]
pub fn copy_bytes<T: Tag, A: Allocator>(
    table: &RuleTable<T, A>,
    seat: &mut RuleSeat<T>,
    held: PinAt,
    count: usize,
    buffer: &mut [u8],
)
    requires seat { IsSeatAt table.now seat.old }
    requires held { IsPinAt table.now held }
    requires holds { IsPinned held.pin (view seat.old) }
    requires readable { IfSome (record_in held.pin.name (view seat.old).records)
        (λ r. IsReadable (room_of table.now) r) }
    requires exact { IfSome (record_in held.pin.name (view seat.old).records)
        (λ r. count ≡ length r.entry.value) }
    requires space { count ≤ length buffer.old }
    ensures seat { IsSameSeat seat.old seat.new }
    ensures view { view seat.new ≡ view seat.old }
    ensures bytes { IfSome (record_in held.pin.name (view seat.old).records)
        (λ r. buffer.new ≡ r.entry.value ++ drop (length r.entry.value) buffer.old) }
    ensures seeks { Seeks table.now seat.old seat.new }
    ensures steps { MakesAtMost (words_for count) seat.old seat.new }
{
    copy_from(table, seat, held, 0, count, buffer);
}

/// Copies bytes of the value from the first one of a word on, by the word's index.
#[inline(always)]
pub(crate) fn copy_from<T: Tag, A: Allocator>(
    table: &RuleTable<T, A>,
    seat: &mut RuleSeat<T>,
    held: PinAt,
    first: usize,
    count: usize,
    buffer: &mut [u8],
)
    requires seat { IsSeatAt table.now seat.old }
    requires held { IsPinAt table.now held }
    requires holds { IsPinned held.pin (view seat.old) }
    requires readable { IfSome (record_in held.pin.name (view seat.old).records)
        (λ r. IsReadable (room_of table.now) r) }
    requires within { IfSome (record_in held.pin.name (view seat.old).records)
        (λ r. 8 * first + count ≤ length r.entry.value) }
    requires space { count ≤ length buffer.old }
    ensures seat { IsSameSeat seat.old seat.new }
    ensures view { view seat.new ≡ view seat.old }
    ensures bytes { IfSome (record_in held.pin.name (view seat.old).records)
        (λ r. buffer.new ≡ part_in (8 * first) count r.entry.value buffer.old) }
    ensures seeks { Seeks table.now seat.old seat.new }
    ensures steps { MakesAtMost (words_for count) seat.old seat.new }
{
    let whole = count / 8;
    let blocks = whole / 32;
    for block in 0..blocks {
        copy_lines(table, seat, held, first, 32 * block, buffer);
    }
    let fours = whole / 4;
    for four in 8 * blocks..fours {
        // These are unrolled; of more the compiler reckons each address anew.
        for part in 0..4 {
            copy_word(table, seat, held, first, 4 * four + part, 8, buffer);
        }
    }
    for index in 4 * fours..whole {
        copy_word(table, seat, held, first, index, 8, buffer);
    }
    let rest = count % 8;
    if rest > 0 {
        copy_word(table, seat, held, first, whole, rest, buffer);
    }
}

/// Copies 32 words of the value, from the word of an index on, to their place in a buffer: of each
/// of four lines of eight words the first, then of each the second, and so on. So cache lines are
/// fetched at once, and not one after the other. The index counts from the first word copied.
#[inline(always)]
fn copy_lines<T: Tag, A: Allocator>(
    table: &RuleTable<T, A>,
    seat: &mut RuleSeat<T>,
    held: PinAt,
    first: usize,
    from: usize,
    buffer: &mut [u8],
)
    requires seat { IsSeatAt table.now seat.old }
    requires held { IsPinAt table.now held }
    requires within { first + (from + 32) ≤ room_of table.now }
    requires space { 8 * from + 256 ≤ length buffer.old }
    requires holds { IsSomeAnd (record_in held.pin.name (view seat.old).records)
        (λ r. (r.slot ≡ held.pin.slot) × IsReadable (room_of table.now) r
        × (8 * (first + from) + 256 ≤ length r.entry.value)) }
    ensures seat { IsSameSeat seat.old seat.new }
    ensures view { view seat.new ≡ view seat.old }
    ensures bytes { IfSome (record_in held.pin.name (view seat.old).records)
        (λ r. buffer.new ≡ put_in (8 * from) 256 (drop (8 * first) r.entry.value) buffer.old) }
    ensures seeks { Seeks table.now seat.old seat.new }
    ensures steps { MakesAtMost 32 seat.old seat.new }
{
    // The compiler leaves a loop of this length as it is.
    copy_turn(table, seat, held, first, from, buffer);
    copy_turn(table, seat, held, first, from + 1, buffer);
    copy_turn(table, seat, held, first, from + 2, buffer);
    copy_turn(table, seat, held, first, from + 3, buffer);
    copy_turn(table, seat, held, first, from + 4, buffer);
    copy_turn(table, seat, held, first, from + 5, buffer);
    copy_turn(table, seat, held, first, from + 6, buffer);
    copy_turn(table, seat, held, first, from + 7, buffer);
}

/// Copies four words of the value, the first by its index and each eight words behind the one
/// before, to their places in a buffer.
#[inline(always)]
fn copy_turn<T: Tag, A: Allocator>(
    table: &RuleTable<T, A>,
    seat: &mut RuleSeat<T>,
    held: PinAt,
    first: usize,
    at: usize,
    buffer: &mut [u8],
)
    requires seat { IsSeatAt table.now seat.old }
    requires held { IsPinAt table.now held }
    requires within { first + (at + 24) < room_of table.now }
    requires space { 8 * (at + 24) + 8 ≤ length buffer.old }
    requires holds { IsSomeAnd (record_in held.pin.name (view seat.old).records)
        (λ r. (r.slot ≡ held.pin.slot) × IsReadable (room_of table.now) r
        × (8 * (first + (at + 24)) + 8 ≤ length r.entry.value)) }
    ensures seat { IsSameSeat seat.old seat.new }
    ensures view { view seat.new ≡ view seat.old }
    ensures bytes { IfSome (record_in held.pin.name (view seat.old).records)
        (λ r. buffer.new ≡ put_turn at (drop (8 * first) r.entry.value) buffer.old) }
    ensures seeks { Seeks table.now seat.old seat.new }
    ensures steps { MakesAtMost 4 seat.old seat.new }
{
    copy_word(table, seat, held, first, at, 8, buffer);
    copy_word(table, seat, held, first, at + 8, 8, buffer);
    copy_word(table, seat, held, first, at + 16, 8, buffer);
    copy_word(table, seat, held, first, at + 24, 8, buffer);
}

/// Copies the first bytes of a word of the value, by its index, to their place in a buffer.
#[inline(always)]
fn copy_word<T: Tag, A: Allocator>(
    table: &RuleTable<T, A>,
    seat: &mut RuleSeat<T>,
    held: PinAt,
    first: usize,
    index: usize,
    count: usize,
    buffer: &mut [u8],
)
    requires seat { IsSeatAt table.now seat.old }
    requires held { IsPinAt table.now held }
    requires within { first + index < room_of table.now }
    requires some { 0 < count }
    requires few { count ≤ 8 }
    requires space { 8 * index + count ≤ length buffer.old }
    requires holds { IsSomeAnd (record_in held.pin.name (view seat.old).records)
        (λ r. (r.slot ≡ held.pin.slot) × IsReadable (room_of table.now) r
        × (8 * (first + index) + count ≤ length r.entry.value)) }
    ensures seat { IsSameSeat seat.old seat.new }
    ensures view { view seat.new ≡ view seat.old }
    ensures bytes { IfSome (record_in held.pin.name (view seat.old).records)
        (λ r. buffer.new ≡ put_in (8 * index) count (drop (8 * first) r.entry.value) buffer.old) }
    ensures seeks { Seeks table.now seat.old seat.new }
    ensures steps { MakesAtMost 1 seat.old seat.new }
{
    let word = read_word(table, seat, held, first + index);
    put(buffer, 8 * index, count, word);
}

/// A word of the value, by its index, of the entry of a pin: the bytes from eight times the index
/// on, the lowest first. Behind the value it may be any.
///
/// The client holds the pin's reference. What the client has stays. It refuses nothing and
/// allocates nothing. It costs one load.
#[inline(always)]
pub fn read_word<T: Tag, A: Allocator>(
    table: &RuleTable<T, A>,
    seat: &mut RuleSeat<T>,
    held: PinAt,
    index: usize,
) -> u64
    requires seat { IsSeatAt table.now seat.old }
    requires held { IsPinAt table.now held }
    requires within { index < room_of table.now }
    requires holds { HasOn held.pin.slot held.pin.name (view seat.old) }
    ensures seat { IsSameSeat seat.old seat.new }
    ensures view { view seat.new ≡ view seat.old }
    ensures word { IfSome (record_in held.pin.name (view seat.old).records)
        (λ r. 8 * index < length r.entry.value → result ≡ payload_word r.entry.value index) }
    ensures seeks { Seeks table.now seat.old seat.new }
    ensures steps { MakesAtMost 1 seat.old seat.new }
{
    let (slot, data) = (held.pin.slot, held.data);
    table.read_at(seat, SlotAt { slot, data }, PAYLOAD + index, held.pin.name)
}

/// Puts the first bytes of a word into a buffer, the lowest first.
pub(crate) fn put(buffer: &mut [u8], at: usize, count: usize, word: u64)
    requires few { count ≤ 8 }
    requires space { at + count ≤ length buffer.old }
    ensures { buffer.new ≡ take at buffer.old
        ++ (take count (to_le_bytes w64 word) ++ drop (at + count) buffer.old) }
{
    let bytes = word.to_le_bytes();
    if count == 8 {
        buffer[at..at + 8].copy_from_slice(&bytes);
    } else {
        buffer[at..at + count].copy_from_slice(&bytes[..count]);
    }
}
