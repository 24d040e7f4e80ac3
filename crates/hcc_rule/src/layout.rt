//! Where the words of a shard stand.
//!
//! Slot by slot there stand the meta word, the displacement word, five data words and the payload
//! words. Behind all slots stand the ledger words.

/// How many words a slot has before its payload.
pub const SLOT_HEAD: usize = 7;

/// The word of a slot's state and counters.
pub const META: usize = 0;

/// The word of a slot that counts the trails it stands in.
pub const DISPLACEMENT: usize = 1;

/// The first data word of a slot.
pub const DATA: usize = 2;

/// Among the data words: the two words of the key.
pub const KEY0: usize = 0;

pub const KEY1: usize = 1;

/// Among the data words: the charge.
pub const CHARGE: usize = 2;

/// Among the data words: the client that made the entry, and its serial.
pub const STAMP: usize = 3;

/// Among the data words: how many bytes the value has.
pub const LENGTH: usize = 4;

/// Among the data words: the first of the payload.
pub const PAYLOAD: usize = 5;

/// How many ledger words stand behind all slots.
pub const LEDGER_WORDS: usize = 4;

/// Among the ledger words: the usage, the occupancy, the charges of standalone entries, and the
/// hand.
pub const USAGE: usize = 0;

pub const OCCUPANCY: usize = 1;

pub const STANDING: usize = 2;

pub const HAND: usize = 3;

/// The fewest slots of a shard.
pub const FEWEST_SLOTS: u32 = 8;

/// The most payload words of one slot.
pub const MOST_ROOM: u32 = 512;

/// The greatest capacity, `2^40`.
pub const MOST_CAPACITY: u64 = 1_099_511_627_776;
