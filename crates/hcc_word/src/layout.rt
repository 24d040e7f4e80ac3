//! Where the fields of a meta word are, and the numbers that its rules name.
//!
//! From the low bits: the acquire counter, the release counter, the hit bit, the state. The state
//! has three bits: visible (the lowest), shareable and occupied.

/// Bits of each of the two counters. The release counter begins at the bit of this number.
pub const COUNTER_BITS: u32 = 30;

/// The place of the hit bit.
pub const HIT_PLACE: u32 = 60;

/// The place of the lowest of the three bits of the state.
pub const STATE_PLACE: u32 = 61;

/// What one release adds to a word. One acquire adds 1.
pub const ONE_RELEASE: u64 = 1 << COUNTER_BITS;

/// All bits of a counter.
pub const COUNTER_MASK: u64 = ONE_RELEASE - 1;

/// Set in the word of an entry that a look-up marked.
pub const HIT_BIT: u64 = 1 << HIT_PLACE;

/// The bit of the state that only a visible slot has.
pub const VISIBLE_BIT: u64 = 1 << STATE_PLACE;

/// All bits but the visible one: `and` with it hides an entry.
pub const HIDING_MASK: u64 = !VISIBLE_BIT;

/// The bit of the state that every slot has that is not empty.
pub const OCCUPIED_BIT: u64 = 1 << 63;

/// The word that is put in place of an entry's, to free its slot: no acquire has strayed there yet.
pub const CONSTRUCTION_WORD: u64 = OCCUPIED_BIT;

/// The word of an empty slot, as it is stored when an entry was freed.
pub const EMPTY_WORD: u64 = 0;

/// The state of a slot that is free.
pub const EMPTY: u8 = 0b000;

/// The state of a slot that one client fills or clears.
pub const CONSTRUCTION: u8 = 0b100;

/// The state of a slot whose entry was erased and may still be held.
pub const INVISIBLE: u8 = 0b110;

/// The state of a slot whose entry look-ups find.
pub const VISIBLE: u8 = 0b111;

/// The greatest countdown that an entry starts with.
pub const GREATEST_START: u32 = 3;

/// The greatest countdown that the clock leaves.
pub const GREATEST_CLOCKED: u32 = 2;

/// What a correction subtracts from both counters.
pub const CORRECTION: u32 = 1 << 29;

/// A release counter from here on is near overflow: references got there are not counting.
pub const NEAR: u32 = CORRECTION + 4;
