//! The words with which a shard begins.
ghost use Rattle.std.specs.Prelude.{◌≡◌, ◌≢◌, ℕ, ◌+◌, ◌*◌, ◌%◌, ◌^◌, ◌<◌, ◌≤◌, [], IfOk, length, slice_index};
ghost use Rattle.hcc_core.specs.World.{times};
ghost use Rattle.hcc_core.specs.declared.limits.TheConstants.{MOST_SLOTS, STAMPS_PER_CLIENT};
ghost use Rattle.hcc_rule.specs.declared.layout.TheConstants.{DATA, DISPLACEMENT, MOST_ROOM, PAYLOAD};
ghost use Rattle.hcc_rule.specs.Images.{BeginsWith, made_of_entry};
ghost use Rattle.hcc_rule.specs.ImageLimits.{AreRising, IsSized};
ghost use Rattle.hcc_rule.specs.Puttings.{HaveSpace, Puts};
ghost use Rattle.hcc_rule.specs.Probes.{trail_to};
ghost use Rattle.hcc_rule.specs.Views.{Each};
ghost use Rattle.hcc_rule.specs.Words.{Lies, field_at, made_words, payload, word_count, words_for};

use crate::geometry::Geometry;
use crate::image::ImageEntry;
use crate::layout::{
    CHARGE, DATA, DISPLACEMENT, KEY0, KEY1, LEDGER_WORDS, LENGTH, META, OCCUPANCY, PAYLOAD,
    SLOT_HEAD, STAMP, USAGE,
};
use crate::packing::word_at;
use hcc_word::unreferenced;
use std::alloc::{AllocError, Allocator};

/// The words of a shard that begins with these entries, which client 0 made in their order: each is
/// shown, with its uses and with no references, and the sums are theirs.
pub(crate) fn words_with<A: Allocator>(
    alloc: A,
    geometry: Geometry,
    image: &[ImageEntry],
) -> Result<Vec<u64, A>, AllocError>
    requires slots { geometry.slots ≤ MOST_SLOTS }
    requires power { MOST_SLOTS % geometry.slots ≡ 0 }
    requires room { geometry.room ≤ MOST_ROOM }
    requires rising { AreRising 0 geometry.slots image.now }
    requires sized { Each (IsSized geometry.room) image.now }
    requires few { length image.now ≤ geometry.slots }
    ensures begins { IfOk result (λ words.
        BeginsWith geometry.slots geometry.room image.now words.items) }
    ensures count { IfOk result (λ words.
        length words.items ≡ word_count geometry.slots geometry.room) }
{
    let stride = geometry.room as usize + SLOT_HEAD;
    let count = geometry.slots as usize * stride + LEDGER_WORDS;
    let mut words = Vec::from_elem(alloc, 0u64, count)?;
    put_all(words.as_mut_slice(), geometry, image);
    Ok(words)
}

/// Puts all entries into words of 0, each under its number.
fn put_all(words: &mut [u64], geometry: Geometry, image: &[ImageEntry])
    requires slots { geometry.slots ≤ MOST_SLOTS }
    requires power { MOST_SLOTS % geometry.slots ≡ 0 }
    requires room { geometry.room ≤ MOST_ROOM }
    requires rising { AreRising 0 geometry.slots image.now }
    requires sized { Each (IsSized geometry.room) image.now }
    requires few { length image.now ≤ geometry.slots }
    requires none { BeginsWith geometry.slots geometry.room [] words.old }
    ensures { BeginsWith geometry.slots geometry.room image.now words.new }
{
    for number in 0..image.len() {
        put(words, geometry, number as u64, &image[number]);
    }
}

/// Puts an entry into the words, under a number of client 0.
fn put(words: &mut [u64], geometry: Geometry, number: u64, entry: &ImageEntry)
    requires slots { geometry.slots ≤ MOST_SLOTS }
    requires power { MOST_SLOTS % geometry.slots ≡ 0 }
    requires room { geometry.room ≤ MOST_ROOM }
    requires slot { entry.now.slot < geometry.slots }
    requires sized { IsSized geometry.room entry.now }
    requires space { HaveSpace geometry.slots geometry.room words.old }
    ensures { Puts geometry.slots geometry.room number entry.now words.old words.new }
{
    let stride = geometry.room as usize + SLOT_HEAD;
    let first = entry.slot as usize * stride;
    let ledgers = geometry.slots as usize * stride;
    words[first + META] = unreferenced(entry.uses);
    write_data(words, first + DATA, number, entry);
    pass_trail(words, geometry, entry);
    words[ledgers + USAGE] += entry.charge as u64;
    words[ledgers + OCCUPANCY] += 1;
}

/// Writes the data words of an entry, from this address on.
fn write_data(words: &mut [u64], first: usize, number: u64, entry: &ImageEntry)
    requires space { first + PAYLOAD + words_for (length entry.now.value.items)
        ≤ length words.old }
    requires low { length words.old < 2 ^ 32 }
    ensures entry { Lies words.new first (made_words 0 (made_of_entry number entry.now)) }
    ensures before { (a : ℕ) → a < first → slice_index words.new a ≡ slice_index words.old a }
    ensures behind { (a : ℕ) → first + PAYLOAD + words_for (length entry.now.value.items) ≤ a
        → slice_index words.new a ≡ slice_index words.old a }
{
    words[first + KEY0] = entry.key.w0;
    words[first + KEY1] = entry.key.w1;
    words[first + CHARGE] = entry.charge as u64;
    // Client 0 is nothing but the serial.
    words[first + STAMP] = number;
    let value = entry.value.as_slice();
    words[first + LENGTH] = value.len() as u64;
    write_payload(words, first + PAYLOAD, value);
}

/// Writes the payload words of a value, from this address on.
fn write_payload(words: &mut [u64], first: usize, value: &[u8])
    requires space { first + words_for (length value.now) ≤ length words.old }
    requires low { length words.old < 2 ^ 32 }
    ensures value { Lies words.new first (payload value.now) }
    ensures before { (a : ℕ) → a < first → slice_index words.new a ≡ slice_index words.old a }
    ensures behind { (a : ℕ) → first + words_for (length value.now) ≤ a
        → slice_index words.new a ≡ slice_index words.old a }
{
    for index in 0..(value.len() + 7) / 8 {
        words[first + index] = word_at(value, 8 * index);
    }
}

/// Counts an entry at each slot that was passed on the way to its own.
fn pass_trail(words: &mut [u64], geometry: Geometry, entry: &ImageEntry)
    requires slots { geometry.slots ≤ MOST_SLOTS }
    requires power { MOST_SLOTS % geometry.slots ≡ 0 }
    requires room { geometry.room ≤ MOST_ROOM }
    requires slot { entry.now.slot < geometry.slots }
    requires wide { length words.old ≡ word_count geometry.slots geometry.room }
    requires space { (s : ℕ) → s < geometry.slots
        → slice_index words.old (field_at geometry.room s DISPLACEMENT) < 2 ^ 63 }
    ensures passed { (s : ℕ) → s < geometry.slots
        → slice_index words.new (field_at geometry.room s DISPLACEMENT)
        ≡ slice_index words.old (field_at geometry.room s DISPLACEMENT)
        + times s (trail_to geometry.slots entry.now.key entry.now.slot) }
    ensures others { (a : ℕ)
        → ((s : ℕ) → s < geometry.slots → field_at geometry.room s DISPLACEMENT ≢ a)
        → slice_index words.new a ≡ slice_index words.old a }
{
    let stride = geometry.room as usize + SLOT_HEAD;
    let mask = (geometry.slots - 1) as u64;
    let mut probe = entry.key.w1;
    for _ in 0..geometry.slots {
        let slot = (probe & mask) as u32;
        if slot == entry.slot {
            return;
        }
        words[slot as usize * stride + DISPLACEMENT] += 1;
        probe = probe.wrapping_add(entry.key.w0 | 1);
    }
}
