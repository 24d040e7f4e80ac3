//! What a client reads of slots and of the entries that it holds.
ghost use Rattle.std.specs.Prelude.{◌≡◌, ◌+◌, ◌-◌, ◌*◌, ◌<◌, ◌≤◌, ◌++◌, IfErr, IfOk, IfSome, length, min, drop};
ghost use Rattle.hcc_core.specs.World.{limit_of};
ghost use Rattle.hcc_rule.specs.declared.layout.TheConstants.{KEY1};
ghost use Rattle.hcc_rule.specs.Callers.{clients_of, plan_of, slots_of, IsSlotOf};
ghost use Rattle.hcc_rule.specs.Rule.{setup_of};
ghost use Rattle.hcc_rule.specs.Seats.{view};
ghost use Rattle.hcc_rule.specs.Looked.{after_look, HoldsAll, Backs};
ghost use Rattle.hcc_rule.specs.ToldOwners.{after_read};
ghost use Rattle.hcc_rule.specs.ToldTrails.{passed_held};
ghost use Rattle.hcc_rule.specs.Records.{different, record_in};
ghost use Rattle.hcc_rule.specs.Words.{key_of, payload_word, words_for};
ghost use Rattle.hcc_table.specs.Pins.{IsPinned};
ghost use Rattle.hcc_table.specs.Readings.{part_in, words_across};
ghost use Rattle.hcc_table.specs.Steps.{MakesAtMost};
ghost use Rattle.hcc_shard.specs.Callers.{LoadsDisplacement, LoadsWord};
ghost use Rattle.hcc_shard.specs.Counted.{SameCounts};
ghost use Rattle.hcc_shard.specs.Seated.{Rests};
ghost use Rattle.hcc_shard.specs.Stays.{CountsBy, LooksBy, SeeksAt};

use crate::seat::ShardSeat;
use crate::shard::Shard;
use hcc_rule::{Key, Tag};
use hcc_table::{
    Part, Pin, PinAt, copy_bytes, displacement, read_bytes, read_charge, read_key, read_len,
    read_part, read_word, word,
};
use std::alloc::Allocator;

impl<T: Tag, A: Allocator> Shard<T, A> {
    /// The meta word of a slot, as its load found it. `hcc_word` reads its fields.
    ///
    /// Where the client holds references on the slot, the word is that of an entry with at least
    /// these; in a shard of one client, with just these. It refuses nothing and allocates nothing.
    /// It costs one load.
    pub fn word(&self, seat: &mut ShardSeat<T>, slot: u32) -> u64
        requires seat { Rests self.now seat.old }
        requires slot { IsSlotOf self.now.table slot }
        ensures seat { Rests self.now seat.new }
        ensures view { view seat.new.seat ≡ after_look slot result (view seat.old.seat) }
        ensures loads { LoadsWord self.now slot result seat.old seat.new }
        ensures backs { Backs slot result (view seat.old.seat) }
        ensures alone { HoldsAll (setup_of (plan_of self.now.table)) slot result
            (view seat.old.seat) }
        ensures by { LooksBy self.now slot result seat.old seat.new }
        ensures counts { SameCounts seat.old seat.new }
        ensures steps { MakesAtMost 1 seat.old.seat seat.new.seat }
    {
        word(&self.table, &mut seat.seat, slot)
    }

    /// How often a slot stands in the trails of entries and of clients, as a load of its
    /// displacement word found it.
    ///
    /// It is at least the number of entries that the client holds, each once, whose trail has the
    /// slot. Any other entry has the slot in its trail once at most, and any other client as often
    /// as there are slots. In a shard of one client the others are those that it made and did not
    /// take: so it is exact where the client holds all of these. It refuses nothing and allocates
    /// nothing. It costs one load.
    pub fn displacement(&self, seat: &mut ShardSeat<T>, slot: u32) -> u64
        requires seat { Rests self.now seat.old }
        requires slot { IsSlotOf self.now.table slot }
        ensures seat { Rests self.now seat.new }
        ensures view { view seat.new.seat ≡ view seat.old.seat }
        ensures loads { LoadsDisplacement self.now slot result seat.old seat.new }
        ensures entries { passed_held (slots_of self.now.table) slot (view seat.old.seat).records
            ≤ result }
        ensures most { result + length (different (view seat.old.seat).records)
            ≤ passed_held (slots_of self.now.table) slot (view seat.old.seat).records
            + limit_of (setup_of (plan_of self.now.table))
            + slots_of self.now.table * (clients_of self.now.table - 1) }
        ensures alone { clients_of self.now.table ≡ 1
            → result + (view seat.old.seat).takings
            + length (different (view seat.old.seat).records)
            ≤ passed_held (slots_of self.now.table) slot (view seat.old.seat).records
            + length (view seat.old.seat).made }
        ensures by { CountsBy self.now slot result seat.old seat.new }
        ensures counts { SameCounts seat.old seat.new }
        ensures steps { MakesAtMost 1 seat.old.seat seat.new.seat }
    {
        displacement(&self.table, &mut seat.seat, slot)
    }

    /// The key of the entry of a pin that the client holds.
    ///
    /// It refuses nothing and allocates nothing. It costs two loads.
    pub fn key(&self, seat: &mut ShardSeat<T>, pin: Pin) -> Key
        requires seat { Rests self.now seat.old }
        requires slot { IsSlotOf self.now.table pin.slot }
        requires holds { IsPinned pin (view seat.old.seat) }
        ensures seat { Rests self.now seat.new }
        ensures view { view seat.new.seat ≡ after_read pin.name KEY1 (view seat.old.seat) }
        ensures exact { IfSome (record_in pin.name (view seat.old.seat).records)
            (λ r. result ≡ key_of r.entry) }
        ensures seeks { SeeksAt self.now seat.old seat.new }
        ensures counts { SameCounts seat.old seat.new }
        ensures steps { MakesAtMost 2 seat.old.seat seat.new.seat }
    {
        read_key(&self.table, &mut seat.seat, pin)
    }

    /// How many bytes the value has of the entry of a pin that the client holds.
    ///
    /// It refuses nothing and allocates nothing. It costs one load.
    pub fn value_len(&self, seat: &mut ShardSeat<T>, pin: Pin) -> usize
        requires seat { Rests self.now seat.old }
        requires slot { IsSlotOf self.now.table pin.slot }
        requires holds { IsPinned pin (view seat.old.seat) }
        ensures seat { Rests self.now seat.new }
        ensures view { view seat.new.seat ≡ view seat.old.seat }
        ensures exact { IfSome (record_in pin.name (view seat.old.seat).records)
            (λ r. result ≡ length r.entry.value) }
        ensures seeks { SeeksAt self.now seat.old seat.new }
        ensures counts { SameCounts seat.old seat.new }
        ensures steps { MakesAtMost 1 seat.old.seat seat.new.seat }
    {
        let data = self.table.data_of(pin.slot);
        let held = PinAt { pin, data };
        read_len(&self.table, &mut seat.seat, held)
    }

    /// The first eight bytes of the value of the entry of a pin that the client holds, the lowest
    /// first.
    ///
    /// The value isn't empty. It refuses nothing and allocates nothing. It costs one load.
    pub fn first_word(&self, seat: &mut ShardSeat<T>, pin: Pin) -> u64
        requires seat { Rests self.now seat.old }
        requires slot { IsSlotOf self.now.table pin.slot }
        requires holds { IsPinned pin (view seat.old.seat) }
        ensures seat { Rests self.now seat.new }
        ensures view { view seat.new.seat ≡ view seat.old.seat }
        ensures exact { IfSome (record_in pin.name (view seat.old.seat).records)
            (λ r. 0 < length r.entry.value → result ≡ payload_word r.entry.value 0) }
        ensures seeks { SeeksAt self.now seat.old seat.new }
        ensures counts { SameCounts seat.old seat.new }
        ensures steps { MakesAtMost 1 seat.old.seat seat.new.seat }
    {
        let data = self.table.data_of(pin.slot);
        read_word(&self.table, &mut seat.seat, PinAt { pin, data }, 0)
    }

    /// What is charged for the entry of a pin that the client holds.
    ///
    /// It refuses nothing and allocates nothing. It costs one load.
    pub fn charge(&self, seat: &mut ShardSeat<T>, pin: Pin) -> u64
        requires seat { Rests self.now seat.old }
        requires slot { IsSlotOf self.now.table pin.slot }
        requires holds { IsPinned pin (view seat.old.seat) }
        ensures seat { Rests self.now seat.new }
        ensures view { view seat.new.seat ≡ view seat.old.seat }
        ensures exact { IfSome (record_in pin.name (view seat.old.seat).records)
            (λ r. result ≡ r.entry.charge) }
        ensures seeks { SeeksAt self.now seat.old seat.new }
        ensures counts { SameCounts seat.old seat.new }
        ensures steps { MakesAtMost 1 seat.old.seat seat.new.seat }
    {
        let data = self.table.data_of(pin.slot);
        read_charge(&self.table, &mut seat.seat, PinAt { pin, data })
    }

    /// Copies the value of the entry of a pin that the client holds to the front of a buffer, which
    /// has room for it. It returns how many bytes it has. The rest of the buffer stays.
    ///
    /// It refuses nothing and allocates nothing. It costs a load for the length, and one for each
    /// eight bytes, the last ones too.
    pub fn read_value(&self, seat: &mut ShardSeat<T>, pin: Pin, buffer: &mut [u8]) -> usize
        requires seat { Rests self.now seat.old }
        requires slot { IsSlotOf self.now.table pin.slot }
        requires holds { IsPinned pin (view seat.old.seat) }
        requires space { IfSome (record_in pin.name (view seat.old.seat).records)
            (λ r. length r.entry.value ≤ length buffer.old) }
        ensures seat { Rests self.now seat.new }
        ensures view { view seat.new.seat ≡ view seat.old.seat }
        ensures length { IfSome (record_in pin.name (view seat.old.seat).records)
            (λ r. result ≡ length r.entry.value) }
        ensures bytes { IfSome (record_in pin.name (view seat.old.seat).records)
            (λ r. buffer.new ≡ r.entry.value ++ drop (length r.entry.value) buffer.old) }
        ensures seeks { SeeksAt self.now seat.old seat.new }
        ensures counts { SameCounts seat.old seat.new }
        ensures steps { MakesAtMost (words_for result + 1) seat.old.seat seat.new.seat }
    {
        read_bytes(&self.table, &mut seat.seat, pin, buffer)
    }

    /// The same, into any buffer. It returns how many bytes the value has, as an error where the
    /// buffer has fewer; then nothing is copied.
    ///
    /// It allocates nothing. It costs a load for the length, and one for each eight bytes that are
    /// copied, the last ones too.
    pub fn try_read(
        &self,
        seat: &mut ShardSeat<T>,
        pin: Pin,
        buffer: &mut [u8],
    ) -> Result<usize, usize>
        requires seat { Rests self.now seat.old }
        requires slot { IsSlotOf self.now.table pin.slot }
        requires holds { IsPinned pin (view seat.old.seat) }
        ensures seat { Rests self.now seat.new }
        ensures view { view seat.new.seat ≡ view seat.old.seat }
        ensures read { IfOk result (λ len. IfSome (record_in pin.name (view seat.old.seat).records)
            (λ r. (len ≡ length r.entry.value)
            × (buffer.new ≡ r.entry.value ++ drop len buffer.old))) }
        ensures short { IfErr result (λ len.
            IfSome (record_in pin.name (view seat.old.seat).records)
            (λ r. len ≡ length r.entry.value)
            × (length buffer.old < len) × (buffer.new ≡ buffer.old)) }
        ensures seeks { SeeksAt self.now seat.old seat.new }
        ensures counts { SameCounts seat.old seat.new }
        ensures steps { IfOk result (λ len.
            MakesAtMost (words_for len + 1) seat.old.seat seat.new.seat) }
        ensures few { IfErr result (λ _. MakesAtMost 1 seat.old.seat seat.new.seat) }
    {
        let data = self.table.data_of(pin.slot);
        let held = PinAt { pin, data };
        let count = read_len(&self.table, &mut seat.seat, held);
        if buffer.len() < count {
            return Err(count);
        }
        copy_bytes(&self.table, &mut seat.seat, held, count, buffer);
        Ok(count)
    }

    /// Copies bytes of the value of the entry of a pin that the client holds, from an offset on, to
    /// the front of a buffer: as many as there are, and as it has room for. It returns how many
    /// these are, and how many the whole value has. The rest of the buffer stays; where the offset
    /// is at the value's end, or past it, all of it.
    ///
    /// It refuses nothing and allocates nothing. It costs a load for the length, and one for each
    /// word of eight bytes that has some of these.
    pub fn read_part(
        &self,
        seat: &mut ShardSeat<T>,
        pin: Pin,
        offset: usize,
        buffer: &mut [u8],
    ) -> Part
        requires seat { Rests self.now seat.old }
        requires slot { IsSlotOf self.now.table pin.slot }
        requires holds { IsPinned pin (view seat.old.seat) }
        ensures seat { Rests self.now seat.new }
        ensures view { view seat.new.seat ≡ view seat.old.seat }
        ensures length { IfSome (record_in pin.name (view seat.old.seat).records)
            (λ r. result.length ≡ length r.entry.value) }
        ensures given { result.given ≡ min (result.length - offset) (length buffer.old) }
        ensures bytes { IfSome (record_in pin.name (view seat.old.seat).records)
            (λ r. buffer.new ≡ part_in offset result.given r.entry.value buffer.old) }
        ensures seeks { SeeksAt self.now seat.old seat.new }
        ensures counts { SameCounts seat.old seat.new }
        ensures steps { MakesAtMost (words_across offset result.given + 1)
            seat.old.seat seat.new.seat }
    {
        read_part(&self.table, &mut seat.seat, pin, offset, buffer)
    }
}
