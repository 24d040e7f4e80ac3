//! The words that steps leave of the one that they found, or put in its place.

ghost use Rattle.std.specs.Prelude.{◌≡◌, ◌+◌, ◌-◌, ◌*◌, ◌%◌, ◌^◌, ◌<◌, ◌≤◌, true, false};
ghost use Rattle.std.specs.Option.{SomeIff};
ghost use Rattle.std.specs.Int.{from_bool};
ghost use Rattle.hcc_word.specs.Word.{acquires_of, releases_of, word_of};
ghost use Rattle.hcc_word.specs.Code.{code_of_shareable};
ghost use Rattle.hcc_word.specs.Changes.{SetsAcquires, SetsReleases, IsClockable, clocked_word};
ghost use Rattle.hcc_word.specs.Changes.{IsCorrectable, corrected_word};

use crate::fields::{acquires, hit, refs, releases, state};
use crate::layout::{
    CORRECTION, COUNTER_BITS, GREATEST_CLOCKED, GREATEST_START, HIT_PLACE, NEAR, ONE_RELEASE,
    STATE_PLACE, VISIBLE,
};

/// The word that an acquire of `n` leaves of this one.
///
/// It carries into no other field while the acquire counter stays below 2^30.
pub fn acquired(word: u64, n: u32) -> u64
    ensures sum { result ≡ (word + n) % 2 ^ 64 }
    ensures no_carry { acquires_of word + n < 2 ^ COUNTER_BITS
        → SetsAcquires word result (acquires_of word + n) }
{
    word.wrapping_add(u64::from(n))
}

/// The word that giving `n` references back leaves of this one: they are subtracted from acquires.
///
/// It borrows from no other field if the word has as many.
pub fn given_back(word: u64, n: u32) -> u64
    ensures difference { result ≡ (word + (2 ^ 64 - n)) % 2 ^ 64 }
    ensures no_borrow { n ≤ acquires_of word → SetsAcquires word result (acquires_of word - n) }
{
    word.wrapping_sub(u64::from(n))
}

/// The word that a useful release of `n` leaves of this one: they are added to releases.
///
/// It carries into no other field while the release counter stays below 2^30.
pub fn released(word: u64, n: u32) -> u64
    ensures sum { result ≡ (word + n * ONE_RELEASE) % 2 ^ 64 }
    ensures no_carry { releases_of word + n < 2 ^ COUNTER_BITS
        → SetsReleases word result (releases_of word + n) }
{
    word.wrapping_add(u64::from(n) * ONE_RELEASE)
}

/// The word of a new visible entry with this countdown, 1 to 3. Its maker keeps a reference or not.
///
/// Acquires begin at the countdown. So do releases, or one below it where a reference is kept.
pub fn started(countdown: u32, keep: bool) -> u64
    requires some { 0 < countdown }
    requires in_range { countdown ≤ GREATEST_START }
    ensures fields { result ≡ word_of countdown (countdown - from_bool keep) false VISIBLE }
    ensures entry { result
        ≡ code_of_shareable (countdown - from_bool keep) (from_bool keep) false true }
{
    packed(countdown, countdown - u32::from(keep), false, VISIBLE)
}

/// The word of a visible entry without references and without the hit bit, with so many uses, below
/// 2^30.
pub fn unreferenced(uses: u32) -> u64
    requires { uses < 2 ^ COUNTER_BITS }
    ensures fields { result ≡ word_of uses uses false VISIBLE }
    ensures entry { result ≡ code_of_shareable uses 0 false true }
{
    packed(uses, uses, false, VISIBLE)
}

/// What the clock puts in place of this word: the countdown is one less, and at most 2. The hit bit
/// is kept.
///
/// `None` exactly if the clock does not count: a slot that is not visible, or is referenced, or has
/// countdown 0.
pub fn clocked(word: u64) -> Option<u64>
    ensures { SomeIff result (IsClockable word) (clocked_word word) }
{
    let countdown = releases(word);
    if state(word) != VISIBLE || refs(word) != 0 || countdown == 0 {
        return None;
    }
    let left = (countdown - 1).min(GREATEST_CLOCKED);
    Some(packed(left, left, hit(word), VISIBLE))
}

/// What a correction puts in place of this word: 2^29 less in both counters, which are near
/// overflow. The references stay the same.
///
/// `None` exactly if releases are below [`NEAR`] or acquires below 2^29.
pub fn corrected(word: u64) -> Option<u64>
    ensures { SomeIff result (IsCorrectable word) (corrected_word word) }
{
    let (acquires, releases) = (acquires(word), releases(word));
    if releases < NEAR || acquires < CORRECTION {
        return None;
    }
    Some(packed(
        acquires - CORRECTION,
        releases - CORRECTION,
        hit(word),
        state(word),
    ))
}

/// The word with these four fields.
fn packed(acquires: u32, releases: u32, hit: bool, state: u8) -> u64
    requires acquires_fit { acquires < 2 ^ COUNTER_BITS }
    requires releases_fit { releases < 2 ^ COUNTER_BITS }
    requires state_fits { state < 8 }
    ensures { result ≡ word_of acquires releases hit state }
{
    u64::from(state) << STATE_PLACE
        | u64::from(hit) << HIT_PLACE
        | u64::from(releases) << COUNTER_BITS
        | u64::from(acquires)
}
