//! The fields of a meta word.

ghost use Rattle.std.specs.Prelude.{◌≡◌, ◌^◌, ◌<◌};
ghost use Rattle.hcc_word.specs.Word.{acquires_of, releases_of, refs_of, hit_of, state_of};

use crate::layout::{COUNTER_BITS, COUNTER_MASK, HIT_BIT, STATE_PLACE};

/// The acquire counter, bits 0 to 29: below 2^30.
#[tactic(auto, using(crate::proofs::Bits::masks), unfolding(crate::specs::Word::acquires_of))]
pub fn acquires(word: u64) -> u32
    ensures field { result ≡ acquires_of word }
    ensures in_range { result < 2 ^ COUNTER_BITS }
{
    (word & COUNTER_MASK) as u32
}

/// The release counter, bits 30 to 59: below 2^30.
#[tactic(auto, using(crate::proofs::Bits::masks), unfolding(crate::specs::Word::releases_of))]
pub fn releases(word: u64) -> u32
    ensures field { result ≡ releases_of word }
    ensures in_range { result < 2 ^ COUNTER_BITS }
{
    (word >> COUNTER_BITS & COUNTER_MASK) as u32
}

/// Acquires less releases, modulo 2^30: the references on a shareable slot.
///
/// If there are none, both counters are the entry's countdown.
pub fn refs(word: u64) -> u32
    ensures field { result ≡ refs_of word }
    ensures in_range { result < 2 ^ COUNTER_BITS }
{
    acquires(word).wrapping_sub(releases(word)) & COUNTER_MASK as u32
}

/// The hit bit, bit 60: whether a look-up marked the entry.
pub fn hit(word: u64) -> bool
    ensures { result ≡ hit_of word }
{
    word & HIT_BIT != 0
}

/// The state, bits 61 to 63: on a slot's word one of [`EMPTY`], [`CONSTRUCTION`], [`INVISIBLE`] and
/// [`VISIBLE`] of the layout.
#[tactic(auto, unfolding(crate::specs::Word::state_of))]
pub fn state(word: u64) -> u8
    ensures field { result ≡ state_of word }
    ensures in_range { result < 8 }
{
    (word >> STATE_PLACE) as u8
}
