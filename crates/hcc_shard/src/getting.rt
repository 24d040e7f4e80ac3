//! Values that are read by their keys.
ghost use Rattle.std.specs.Prelude.{◌≡◌, ◌+◌, ◌*◌, false, IfSome, IsSomeAnd};
ghost use Rattle.hcc_rule.specs.Callers.{room_of, slots_of, IsSeatAt};
ghost use Rattle.hcc_rule.specs.Records.{record_in};
ghost use Rattle.hcc_rule.specs.Seats.{IsSameSeat, view};
ghost use Rattle.hcc_table.specs.Efforts.{Took};
ghost use Rattle.hcc_table.specs.Pins.{IsPinned, is_useful, IsPinAt};
ghost use Rattle.hcc_table.specs.Readings.{CopiesOut, IsReadable, loads_of};
ghost use Rattle.hcc_table.specs.Searched.{Sought};
ghost use Rattle.hcc_table.specs.Seeking.{Seeks};
ghost use Rattle.hcc_table.specs.Steps.{MakesAtMost, MakesFor};
ghost use Rattle.hcc_shard.specs.Counted.{SameEvictions};
ghost use Rattle.hcc_shard.specs.Gets.{Gets, GetsHeld};
ghost use Rattle.hcc_shard.specs.Seated.{Rests};
ghost use Rattle.hcc_shard.specs.Stays.{SeeksAt, StaysAt};

use crate::erasing::IN_FLIGHT;
use crate::seat::ShardSeat;
use crate::shard::Shard;
use hcc_rule::{Key, RuleSeat, RuleTable, Tag};
use hcc_table::{Got, PinAt, Use, copy_bytes, find, give_back, read_len, read_optimistic};
use std::alloc::Allocator;

impl<T: Tag, A: Allocator> Shard<T, A> {
    /// Copies the value of a visible entry of the key to the front of a buffer, where that has room
    /// for it, and returns how many bytes it has. The rest of the buffer stays, and all of it where
    /// nothing is copied.
    ///
    /// It finds what a look-up would. First it reads by loads alone, and changes no word: where the
    /// entry's uses are 3 and more (one more is one that the clock can't see, since a visit leaves
    /// at most 2) or the caller says that it is no use, where the shard doesn't mark or the hit bit
    /// is set, and where the value has at most 256 bytes. Else, and where the entry goes meanwhile,
    /// it begins anew: it finds the entry again, holds it for the time of the call, and gives the
    /// reference back, as a use where it is useful and counts.
    ///
    /// It keeps no reference, uses no serial, and frees nothing: an entry that was erased
    /// meanwhile, and that nobody holds then, stays until the clock comes by. What the client holds
    /// stays. It refuses nothing and allocates nothing. By loads alone each probe costs one and one
    /// of the displacement word, and where the slot is visible one of half the key; a hit costs
    /// eight more, and one for each eight bytes. By a reference it costs a look-up, a load for the
    /// length, one for each eight bytes, and an add or a subtraction. Both ways together make at
    /// most 11·L + 2·W + 8 steps, in a shard of L slots with room for values of W words. Where the
    /// loads alone were given up their probes aren't counted.
    #[inline(always)]
    pub fn get(&self, seat: &mut ShardSeat<T>, key: Key, buffer: &mut [u8], as_use: Use) -> Got
        requires seat { Rests self.now seat.old }
        ensures seat { Rests self.now seat.new }
        ensures view { Sought (view seat.old.seat) (view seat.new.seat) }
        ensures gets { Gets T.fits self.now key (is_useful as_use) result buffer.old buffer.new
            seat.old seat.new }
        ensures stays { StaysAt self.now seat.old seat.new }
        ensures unused { is_useful as_use ≡ false → SeeksAt self.now seat.old seat.new }
        ensures effort { Took 1 (slots_of self.now.table) (slots_of self.now.table)
            seat.old.effort seat.new.effort }
        ensures counts { SameEvictions seat.old seat.new }
        ensures steps { MakesFor 7
            (4 * slots_of self.now.table + (2 * room_of self.now.table + 8))
            (slots_of self.now.table) seat.old.effort seat.new.effort
            seat.old.seat seat.new.seat }
    {
        if let Some(got) = read_optimistic(
            &self.table,
            &mut seat.seat,
            key,
            as_use,
            self.marks,
            buffer,
            &mut seat.effort,
        ) {
            return got;
        }
        self.get_held(seat, key, buffer, as_use)
    }

    /// The same by a reference, which it holds while it reads.
    #[inline(always)]
    fn get_held(&self, seat: &mut ShardSeat<T>, key: Key, buffer: &mut [u8], as_use: Use) -> Got
        requires seat { Rests self.now seat.old }
        ensures seat { Rests self.now seat.new }
        ensures view { Sought (view seat.old.seat) (view seat.new.seat) }
        ensures gets { GetsHeld T.fits self.now key (is_useful as_use) result buffer.old buffer.new
            seat.old seat.new }
        ensures stays { StaysAt self.now seat.old seat.new }
        ensures unused { is_useful as_use ≡ false → SeeksAt self.now seat.old seat.new }
        ensures effort { Took 1 (slots_of self.now.table) (slots_of self.now.table)
            seat.old.effort seat.new.effort }
        ensures counts { SameEvictions seat.old seat.new }
        ensures steps { MakesFor 7 (room_of self.now.table + 2) (slots_of self.now.table)
            seat.old.effort seat.new.effort seat.old.seat seat.new.seat }
    {
        match find(
            &self.table,
            &mut seat.seat,
            key,
            IN_FLIGHT,
            self.marks,
            &mut seat.effort,
        ) {
            Some(held) => {
                let got = copy_out(&self.table, &mut seat.seat, held, buffer);
                give_back(&self.table, &mut seat.seat, held, as_use);
                got
            }
            None => Got::Miss,
        }
    }
}

/// Reads the value of the entry of a pin into a buffer, where that has room for it.
#[inline(always)]
fn copy_out<T: Tag, A: Allocator>(
    table: &RuleTable<T, A>,
    seat: &mut RuleSeat<T>,
    held: PinAt,
    buffer: &mut [u8],
) -> Got
    requires seat { IsSeatAt table.now seat.old }
    requires held { IsPinAt table.now held }
    requires holds { IsPinned held.pin (view seat.old) }
    requires readable { IfSome (record_in held.pin.name (view seat.old).records)
        (λ r. IsReadable (room_of table.now) r) }
    ensures seat { IsSameSeat seat.old seat.new }
    ensures view { view seat.new ≡ view seat.old }
    ensures copies { IsSomeAnd (record_in held.pin.name (view seat.old).records)
        (λ r. CopiesOut result r.entry.value buffer.old buffer.new) }
    ensures seeks { Seeks table.now seat.old seat.new }
    ensures steps { MakesAtMost (loads_of result) seat.old seat.new }
{
    let count = read_len(table, seat, held);
    if count > buffer.len() {
        return Got::Short(count);
    }
    copy_bytes(table, seat, held, count, buffer);
    Got::Hit(count)
}
