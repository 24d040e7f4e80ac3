//! What is left of a shard that was closed.
ghost use Rattle.std.specs.Prelude.{◌≡◌, ◌+◌, ◌*◌, ◌^◌, ◌<◌, ◌≤◌, ◌++◌, true, length, take, drop, slice_index};
ghost use Rattle.std.specs.Int.{to_le_bytes};
ghost use mir.Syntax.{w64};
ghost use Rattle.hcc_rule.specs.declared.layout.TheConstants.{CHARGE, DISPLACEMENT, HAND, OCCUPANCY, PAYLOAD, USAGE};
ghost use Rattle.hcc_core.specs.Sums.{when};
ghost use Rattle.hcc_rule.specs.Closing.{data_at, has_entry, meta_at, words_of};
ghost use Rattle.hcc_rule.specs.Words.{field_at, ledger_at};
ghost use Rattle.hcc_word.specs.Word.{is_shareable};
ghost use Rattle.hcc_shard.specs.Left.{AreLeft, EntryAt, charges_left, length_at, passed_left, slots_left, value_at};

use hcc_rule::layout::{CHARGE, KEY0, KEY1, LENGTH, PAYLOAD};
use hcc_rule::{ClosedTable, Geometry, Key};
use hcc_word::layout::INVISIBLE;
use hcc_word::state;
use std::alloc::Allocator;

/// What is left of a shard that was closed: its words, which change no more. They are those of its
/// entries only. Dropping it gives their memory back.
#[derive(Drop)]
pub struct ClosedShard<A: Allocator> {
    pub(crate) table: ClosedTable<A>,
    ghost left: { AreLeft table.geometry.slots table.geometry.room (words_of table) },
}

/// What a slot of a closed shard says of its entry.
#[derive(Clone, Copy, Debug, PartialEq, Eq)]
pub struct ClosedEntry {
    pub key: Key,
    /// Below 2^32.
    pub charge: u64,
    /// How many bytes its value has.
    pub len: u64,
    /// The meta word of its slot.
    pub word: u64,
}

impl<A: Allocator> ClosedShard<A> {
    /// The size of the shard. It costs a copy.
    pub fn geometry(&self) -> Geometry
        ensures { result ≡ self.now.table.geometry }
    {
        self.table.geometry()
    }

    /// What the usage word says: the charges of the entries in sum. It costs one load.
    pub fn usage(&self) -> u64
        ensures sum { result ≡ charges_left self.now.table }
        ensures word { result ≡ slice_index (words_of self.now.table)
            (ledger_at self.now.table.geometry.slots self.now.table.geometry.room USAGE) }
    {
        self.table.usage()
    }

    /// What the occupancy word says: how many entries there are. It costs one load.
    pub fn occupied(&self) -> u64
        ensures sum { result ≡ slots_left self.now.table }
        ensures word { result ≡ slice_index (words_of self.now.table)
            (ledger_at self.now.table.geometry.slots self.now.table.geometry.room OCCUPANCY) }
    {
        self.table.occupancy()
    }

    /// Where the hand of the clock stands. It costs one load.
    pub fn hand(&self) -> u64
        ensures { result ≡ slice_index (words_of self.now.table)
            (ledger_at self.now.table.geometry.slots self.now.table.geometry.room HAND) }
    {
        self.table.hand()
    }

    /// A slot's meta word. It costs one load.
    pub fn word(&self, slot: u32) -> u64
        requires { slot < self.now.table.geometry.slots }
        ensures { result ≡ meta_at self.now.table.geometry.room (words_of self.now.table) slot }
    {
        self.table.meta(slot)
    }

    /// How often a slot stands in the trails of the entries that are left. It costs one load.
    pub fn displacement(&self, slot: u32) -> u64
        requires { slot < self.now.table.geometry.slots }
        ensures sum { result ≡ passed_left self.now.table slot }
        ensures word { result ≡ slice_index (words_of self.now.table)
            (field_at self.now.table.geometry.room slot DISPLACEMENT) }
    {
        self.table.displacement(slot)
    }

    /// The entry of a slot, if it has one. It costs five loads.
    pub fn entry(&self, slot: u32) -> Option<ClosedEntry>
        requires { slot < self.now.table.geometry.slots }
        ensures { EntryAt self.now.table slot result }
    {
        let word = self.table.meta(slot);
        if !is_entry(word) {
            return None;
        }
        let key = Key {
            w0: self.table.data(slot, KEY0),
            w1: self.table.data(slot, KEY1),
        };
        Some(ClosedEntry {
            key,
            charge: self.table.data(slot, CHARGE),
            len: self.table.data(slot, LENGTH),
            word,
        })
    }

    /// Copies the value of a slot's entry to the front of a buffer that has room for it. It returns
    /// how many bytes it has. The rest of the buffer stays.
    ///
    /// It refuses nothing and allocates nothing. It costs a load for the length, and one for each
    /// eight bytes, the last ones too.
    pub fn value(&self, slot: u32, buffer: &mut [u8]) -> usize
        requires slot { slot < self.now.table.geometry.slots }
        requires entry { has_entry self.now.table.geometry.room (words_of self.now.table) slot
            ≡ true }
        requires space { length_at self.now.table.geometry.room (words_of self.now.table) slot
            ≤ length buffer.old }
        ensures length { result
            ≡ length_at self.now.table.geometry.room (words_of self.now.table) slot }
        ensures bytes { buffer.new
            ≡ value_at self.now.table.geometry.room (words_of self.now.table) slot
            ++ drop result buffer.old }
    {
        let length = self.table.data(slot, LENGTH) as usize;
        let whole = length / 8;
        for index in 0..whole {
            self.copy_word(slot, index, 8, buffer);
        }
        let rest = length % 8;
        if rest > 0 {
            self.copy_word(slot, whole, rest, buffer);
        }
        length
    }

    /// How many entries there are, slot by slot. It costs a load for each slot.
    pub fn slot_count(&self) -> u64
        ensures { result ≡ slots_left self.now.table }
    {
        let mut count = 0;
        for slot in 0..self.table.geometry().slots {
            count += self.entries_at(slot);
        }
        count
    }

    /// The charges of all entries in sum, slot by slot. It costs a load for each slot, and one more
    /// for each entry.
    pub fn slot_charges(&self) -> u64
        ensures { result ≡ charges_left self.now.table }
    {
        let mut sum = 0;
        for slot in 0..self.table.geometry().slots {
            sum += self.charge_at(slot);
        }
        sum
    }

    /// Copies the first bytes of a word of a slot's value, by its index, to their place in a
    /// buffer.
    fn copy_word(&self, slot: u32, index: usize, count: usize, buffer: &mut [u8])
        requires slot { slot < self.now.table.geometry.slots }
        requires within { index < self.now.table.geometry.room }
        requires few { count ≤ 8 }
        requires space { 8 * index + count ≤ length buffer.old }
        ensures { buffer.new ≡ take (8 * index) buffer.old
            ++ (take count (to_le_bytes w64 (data_at self.now.table.geometry.room
            (words_of self.now.table) slot (PAYLOAD + index)))
            ++ drop (8 * index + count) buffer.old) }
    {
        let bytes = self.table.data(slot, PAYLOAD + index).to_le_bytes();
        buffer[8 * index..8 * index + count].copy_from_slice(&bytes[..count]);
    }

    /// 1 for a slot with an entry.
    fn entries_at(&self, slot: u32) -> u64
        requires { slot < self.now.table.geometry.slots }
        ensures value { result ≡ when (has_entry self.now.table.geometry.room
            (words_of self.now.table) slot) 1 }
        ensures low { result ≤ 1 }
    {
        if is_entry(self.table.meta(slot)) {
            1
        } else {
            0
        }
    }

    /// The charge of a slot's entry, or 0.
    fn charge_at(&self, slot: u32) -> u64
        requires { slot < self.now.table.geometry.slots }
        ensures value { result ≡ when (has_entry self.now.table.geometry.room
            (words_of self.now.table) slot)
            (data_at self.now.table.geometry.room (words_of self.now.table) slot CHARGE) }
        ensures low { result ≤ 2 ^ 32 }
    {
        if is_entry(self.table.meta(slot)) {
            self.table.data(slot, CHARGE)
        } else {
            0
        }
    }
}

/// Whether it is the word of an entry, visible or hidden.
fn is_entry(word: u64) -> bool
    ensures { result ≡ is_shareable word }
{
    state(word) >= INVISIBLE
}
