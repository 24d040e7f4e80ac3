//! Parts of the values of entries that a client holds: bytes from an offset on.
ghost use Rattle.std.specs.Prelude.{◌≡◌, ◌+◌, ◌-◌, ◌%◌, ◌≤◌, ◌++◌, IfSome, length, min, take, drop};
ghost use Rattle.std.specs.Int.{to_le_bytes};
ghost use mir.Syntax.{w64};
ghost use Rattle.hcc_rule.specs.Callers.{room_of, IsSeatAt, IsSlotOf};
ghost use Rattle.hcc_rule.specs.Seats.{IsSameSeat, view};
ghost use Rattle.hcc_rule.specs.Records.{record_in};
ghost use Rattle.hcc_table.specs.Pins.{IsPinned, IsPinAt};
ghost use Rattle.hcc_table.specs.Readings.{part_in, words_across, IsReadable};
ghost use Rattle.hcc_table.specs.Seeking.{Seeks};
ghost use Rattle.hcc_table.specs.Steps.{MakesAtMost};

use crate::pins::{Pin, PinAt};
use crate::readings::{copy_from, read_len, read_word};
use hcc_rule::{RuleSeat, RuleTable, Tag};
use std::alloc::Allocator;

/// What a reading of a part of a value gave.
#[derive(Clone, Copy, Debug, PartialEq, Eq)]
pub struct Part {
    /// How many bytes are at the front of the buffer.
    pub given: usize,
    /// How many bytes the whole value has.
    pub length: usize,
}

/// Copies bytes of the value of the entry of a pin, from an offset on, to the front of a buffer: as
/// many as there are, and as it has room for. It returns how many these are, and how many the
/// whole value has. The rest of the buffer stays as it is; where the offset is at the value's end,
/// or past it, all of it.
///
/// The client holds the pin's reference, on an entry whose value fits its slot and is of bytes.
/// What the client has stays. It refuses nothing and allocates nothing. It costs one load for the
/// length, and one for each word of eight bytes that has some of these.
pub fn read_part<T: Tag, A: Allocator>(
    table: &RuleTable<T, A>,
    seat: &mut RuleSeat<T>,
    pin: Pin,
    offset: usize,
    buffer: &mut [u8],
) -> Part
    requires seat { IsSeatAt table.now seat.old }
    requires slot { IsSlotOf table.now pin.slot }
    requires holds { IsPinned pin (view seat.old) }
    requires readable { IfSome (record_in pin.name (view seat.old).records)
        (λ r. IsReadable (room_of table.now) r) }
    ensures seat { IsSameSeat seat.old seat.new }
    ensures view { view seat.new ≡ view seat.old }
    ensures length { IfSome (record_in pin.name (view seat.old).records)
        (λ r. result.length ≡ length r.entry.value) }
    ensures given { result.given ≡ min (result.length - offset) (length buffer.old) }
    ensures bytes { IfSome (record_in pin.name (view seat.old).records)
        (λ r. buffer.new ≡ part_in offset result.given r.entry.value buffer.old) }
    ensures seeks { Seeks table.now seat.old seat.new }
    ensures steps { MakesAtMost (words_across offset result.given + 1) seat.old seat.new }
{
    let data = table.data_of(pin.slot);
    let held = PinAt { pin, data };
    let length = read_len(table, seat, held);
    let given = copy_part(table, seat, held, length, offset, buffer);
    Part { given, length }
}

/// The same, once `read_len` returned how many bytes the value has. It returns how many it copied.
fn copy_part<T: Tag, A: Allocator>(
    table: &RuleTable<T, A>,
    seat: &mut RuleSeat<T>,
    held: PinAt,
    whole: usize,
    offset: usize,
    buffer: &mut [u8],
) -> usize
    requires seat { IsSeatAt table.now seat.old }
    requires held { IsPinAt table.now held }
    requires holds { IsPinned held.pin (view seat.old) }
    requires readable { IfSome (record_in held.pin.name (view seat.old).records)
        (λ r. IsReadable (room_of table.now) r) }
    requires exact { IfSome (record_in held.pin.name (view seat.old).records)
        (λ r. whole ≡ length r.entry.value) }
    ensures seat { IsSameSeat seat.old seat.new }
    ensures view { view seat.new ≡ view seat.old }
    ensures given { result ≡ min (whole - offset) (length buffer.old) }
    ensures bytes { IfSome (record_in held.pin.name (view seat.old).records)
        (λ r. buffer.new ≡ part_in offset result r.entry.value buffer.old) }
    ensures seeks { Seeks table.now seat.old seat.new }
    ensures steps { MakesAtMost (words_across offset result) seat.old seat.new }
{
    let count = whole.saturating_sub(offset).min(buffer.len());
    let front = copy_front(table, seat, held, offset, count, buffer);
    if front < count {
        let first = (offset + front) / 8;
        copy_from(
            table,
            seat,
            held,
            first,
            count - front,
            &mut buffer[front..count],
        );
    }
    count
}

/// Copies bytes of the value from an offset on, up to the end of its word; none where that is a
/// word's first byte. It returns how many it copied.
fn copy_front<T: Tag, A: Allocator>(
    table: &RuleTable<T, A>,
    seat: &mut RuleSeat<T>,
    held: PinAt,
    offset: usize,
    count: usize,
    buffer: &mut [u8],
) -> usize
    requires seat { IsSeatAt table.now seat.old }
    requires held { IsPinAt table.now held }
    requires holds { IsPinned held.pin (view seat.old) }
    requires readable { IfSome (record_in held.pin.name (view seat.old).records)
        (λ r. IsReadable (room_of table.now) r) }
    requires space { count ≤ length buffer.old }
    requires within { IfSome (record_in held.pin.name (view seat.old).records)
        (λ r. count ≤ length r.entry.value - offset) }
    ensures seat { IsSameSeat seat.old seat.new }
    ensures view { view seat.new ≡ view seat.old }
    ensures front { result ≡ min count ((8 - offset % 8) % 8) }
    ensures bytes { IfSome (record_in held.pin.name (view seat.old).records)
        (λ r. buffer.new ≡ part_in offset result r.entry.value buffer.old) }
    ensures seeks { Seeks table.now seat.old seat.new }
    ensures steps { MakesAtMost (min result 1) seat.old seat.new }
{
    let skip = offset % 8;
    let front = count.min((8 - skip) % 8);
    if front > 0 {
        let word = read_word(table, seat, held, offset / 8);
        put_end(buffer, skip, front, word);
    }
    front
}

/// Puts bytes of a word to the front of a buffer, from one of them on, the lowest first.
fn put_end(buffer: &mut [u8], from: usize, count: usize, word: u64)
    requires few { from + count ≤ 8 }
    requires space { count ≤ length buffer.old }
    ensures { buffer.new ≡ take count (drop from (to_le_bytes w64 word)) ++ drop count buffer.old }
{
    let bytes = word.to_le_bytes();
    buffer[..count].copy_from_slice(&bytes[from..from + count]);
}
