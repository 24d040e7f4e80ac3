//! What is left of a cache that all clients gave back.
ghost use Rattle.std.specs.Prelude.{◌≡◌, ◌<◌, ◌≤◌, ◌^◌, ◌++◌, Some, length, drop, slice_get};
ghost use Rattle.hcc_rule.specs.declared.layout.TheConstants.{DISPLACEMENT, HAND, META, OCCUPANCY, USAGE};
ghost use Rattle.hcc_shard.specs.Left.{charges_left, slots_left};
ghost use Rattle.hcc_cache.specs.Left.{AreWhole, HasRoomFor, InShard, TellsEntry, at_shard, field_of, ledger_of, length_of, over_shards, passed_over, slots_at, value_of};

use crate::seeded::{SeededKey, key_from};
use arrayvec::ArrayVec;
use hcc_shard::{ClosedEntry, ClosedShard};
use std::alloc::Global;

/// What is left of a cache once it is closed: its shards, in order. Their words change no more.
/// Dropping it gives their memory back.
#[derive(Drop)]
pub struct Closed {
    pub(crate) seed: u64,
    // They stand in the value itself, so that closing allocates nothing.
    pub(crate) shards: ArrayVec<Option<ClosedShard<Global>>, 64>,
    ghost whole: { AreWhole shards.items },
}

impl Closed {
    /// How many shards there are: 1 to 64. It costs a copy.
    pub fn shards(&self) -> usize
        ensures { result ≡ length self.now.shards.items }
    {
        self.shards.len()
    }

    /// How many slots a shard has. It costs a copy.
    pub fn slots(&self, shard: usize) -> u32
        requires { shard < length self.now.shards.items }
        ensures { result ≡ slots_at self.now.shards.items shard }
    {
        self.shard(shard).geometry().slots
    }

    /// What the usage words of all shards say: the charges of all entries in sum. It costs a load
    /// for each shard.
    pub fn usage(&self) -> u64
        ensures sum { result
            ≡ over_shards self.now.shards.items (λ left. charges_left left.table) }
        ensures words { result ≡ over_shards self.now.shards.items (ledger_of USAGE) }
    {
        let mut sum = 0;
        for shard in 0..self.shards() {
            sum += self.shard(shard).usage();
        }
        sum
    }

    /// What the occupancy words of all shards say: how many entries there are. It costs a load for
    /// each shard.
    pub fn occupied(&self) -> u64
        ensures sum { result ≡ over_shards self.now.shards.items (λ left. slots_left left.table) }
        ensures words { result ≡ over_shards self.now.shards.items (ledger_of OCCUPANCY) }
    {
        let mut sum = 0;
        for shard in 0..self.shards() {
            sum += self.shard(shard).occupied();
        }
        sum
    }

    /// The charges of all entries in sum, slot by slot. It costs a load for each slot, and one more
    /// for each entry.
    pub fn slot_charges(&self) -> u64
        ensures { result ≡ over_shards self.now.shards.items (λ left. charges_left left.table) }
    {
        let mut sum = 0;
        for shard in 0..self.shards() {
            sum += self.shard(shard).slot_charges();
        }
        sum
    }

    /// How many entries there are, slot by slot. It costs a load for each slot.
    pub fn slot_count(&self) -> u64
        ensures { result ≡ over_shards self.now.shards.items (λ left. slots_left left.table) }
    {
        let mut sum = 0;
        for shard in 0..self.shards() {
            sum += self.shard(shard).slot_count();
        }
        sum
    }

    /// The entry of a slot, if it has one, with the caller's key. It costs five loads.
    pub fn entry(&self, shard: usize, slot: u32) -> Option<ClosedEntry>
        requires { slot < slots_at self.now.shards.items shard }
        ensures { InShard self.now.shards.items shard (TellsEntry self.now.seed slot result) }
    {
        let entry = self.shard(shard).entry(slot)?;
        let seeded = SeededKey {
            in_shard: entry.key,
        };
        Some(ClosedEntry {
            key: key_from(self.seed, seeded),
            charge: entry.charge,
            len: entry.len,
            word: entry.word,
        })
    }

    /// Copies the value of a slot's entry to the front of a buffer that has room for it. It returns
    /// how many bytes it has. The rest of the buffer stays.
    ///
    /// It costs a load for the length, and one for each eight bytes, the last ones too.
    pub fn value(&self, shard: usize, slot: u32, buffer: &mut [u8]) -> usize
        requires slot { slot < slots_at self.now.shards.items shard }
        requires entry { InShard self.now.shards.items shard (HasRoomFor slot buffer.old) }
        ensures { InShard self.now.shards.items shard (λ left.
            (result ≡ length_of slot left)
            × (buffer.new ≡ value_of slot left ++ drop result buffer.old)) }
    {
        self.shard(shard).value(slot, buffer)
    }

    /// A slot's meta word. It costs one load.
    pub fn word(&self, shard: usize, slot: u32) -> u64
        requires { slot < slots_at self.now.shards.items shard }
        ensures { result ≡ at_shard self.now.shards.items shard (field_of slot META) }
    {
        self.shard(shard).word(slot)
    }

    /// How often a slot stands in the trails of the shard's entries. It costs one load.
    pub fn displacement(&self, shard: usize, slot: u32) -> u64
        requires { slot < slots_at self.now.shards.items shard }
        ensures sum { result ≡ at_shard self.now.shards.items shard (passed_over slot) }
        ensures word { result ≡ at_shard self.now.shards.items shard (field_of slot DISPLACEMENT) }
    {
        self.shard(shard).displacement(slot)
    }

    /// Where the hand of a shard's clock stands. It costs one load.
    pub fn hand(&self, shard: usize) -> u64
        requires { shard < length self.now.shards.items }
        ensures { result ≡ at_shard self.now.shards.items shard (ledger_of HAND) }
    {
        self.shard(shard).hand()
    }

    /// The shard of this number.
    pub(crate) fn shard(&self, shard: usize) -> &ClosedShard<Global>
        requires { shard < length self.now.shards.items }
        ensures { slice_get self.now.shards.items shard ≡ Some (Some result.now) }
    {
        self.shards[shard].as_ref().unwrap()
    }
}
