//! What crosses to C by value or by reference, in C's layout.
ghost use Rattle.std.specs.Prelude.{◌≡◌, ◌^◌, ◌<◌, Ok};
ghost use Rattle.hcc_cache.specs.Totals.{with_count};
ghost use Rattle.hcc_c.specs.Counts.{counted_get, counted_insert, counted_pinned, no_counts, one_hit, one_miss};
ghost use Rattle.hcc_c.specs.Shapes.{config_of, entry_of, key_of, c_handle_of, c_held_entry_of, parts_in, stats_of, words_of};

use hcc_cache::{
    ClosedEntry, Config, CopyError, Got, Handle, HandleParts, HeldEntry, InsertError, Inserted,
    Part,
};
use hcc_word::layout::VISIBLE;
use hcc_word::{hit, releases, state};
use std::mem::size_of;

// The sizes that C has.
const _: () = prove!(size_of::<Key>() == 16);

const _: () = prove!(size_of::<CHandle>() == 24);

const _: () = prove!(size_of::<CHeldEntry>() == 56);

const _: () = prove!(size_of::<CPart>() == 16);

const _: () = prove!(size_of::<CConfig>() == 48);

const _: () = prove!(size_of::<Stats>() == 64);

const _: () = prove!(size_of::<Counts>() == 48);

const _: () = prove!(size_of::<Totals>() == 32);

const _: () = prove!(size_of::<Entry>() == 40);

/// A key of 16 bytes, as two words.
#[derive(Clone, Copy, Debug, PartialEq, Eq)]
#[repr(C)]
pub struct Key {
    pub w0: u64,
    pub w1: u64,
}

impl Key {
    /// The cache's key of these words.
    pub(crate) fn key(&self) -> hcc_cache::Key
        ensures { result ≡ key_of self.now }
    {
        hcc_cache::Key {
            w0: self.w0,
            w1: self.w1,
        }
    }

    /// The words of a cache's key.
    pub(crate) fn words(key: hcc_cache::Key) -> Key
        ensures { result ≡ words_of key }
    {
        Key {
            w0: key.w0,
            w1: key.w1,
        }
    }
}

/// A handle's numbers, as C keeps them.
#[derive(Clone, Copy, Debug, PartialEq, Eq)]
#[repr(C)]
pub struct CHandle {
    pub index: usize,
    pub serial: u64,
    pub client: u32,
    /// The number of its cache.
    pub cache: u32,
}

impl CHandle {
    /// Those of a handle of the cache of this number.
    pub(crate) fn of(cache: u32, handle: Handle) -> CHandle
        ensures { result ≡ c_handle_of cache handle }
    {
        let HandleParts {
            client,
            index,
            serial,
        } = handle.parts();
        CHandle {
            index,
            serial,
            client,
            cache,
        }
    }

    /// The cache's numbers of a handle.
    pub(crate) fn parts(&self) -> HandleParts
        ensures { result ≡ parts_in self.now }
    {
        HandleParts {
            client: self.client,
            index: self.index,
            serial: self.serial,
        }
    }
}

/// What a walk holds at a slot, as C keeps it: a handle on the entry there, and what its words say
/// of it.
#[derive(Clone, Copy, Debug, PartialEq, Eq)]
#[repr(C)]
pub struct CHeldEntry {
    pub handle: CHandle,
    pub key: Key,
    pub charge: u64,
    /// Its countdown.
    pub uses: u32,
}

impl CHeldEntry {
    /// That of what the cache of this number holds.
    pub(crate) fn of(cache: u32, held: HeldEntry) -> CHeldEntry
        ensures { result ≡ c_held_entry_of cache held }
    {
        CHeldEntry {
            handle: CHandle::of(cache, held.handle),
            key: Key::words(held.key),
            charge: held.charge,
            uses: held.uses,
        }
    }
}

/// What a reading of a part of a value gave, as C has it.
#[derive(Clone, Copy, Debug, PartialEq, Eq)]
#[repr(C)]
pub struct CPart {
    pub given: usize,
    pub length: usize,
}

impl CPart {
    /// That of what the cache gave.
    pub(crate) fn of(part: Part) -> CPart
        ensures given { result.given ≡ part.given }
        ensures length { result.length ≡ part.length }
    {
        CPart {
            given: part.given,
            length: part.length,
        }
    }
}

/// How large a cache is, and how it behaves: the fields of the cache's configuration.
#[derive(Clone, Copy, Debug, PartialEq, Eq)]
#[repr(C)]
pub struct CConfig {
    pub slots: u32,
    pub room: u32,
    pub clients: u32,
    pub handles: u32,
    pub shards: u32,
    pub strict: bool,
    pub marks: bool,
    pub capacity: u64,
    pub serials: u64,
    pub seed: u64,
}

impl CConfig {
    /// The cache's configuration of these numbers.
    pub(crate) fn config(&self) -> Config
        ensures { result ≡ config_of self.now }
    {
        Config {
            slots: self.slots,
            room: self.room,
            clients: self.clients,
            handles: self.handles,
            shards: self.shards,
            capacity: self.capacity,
            strict: self.strict,
            marks: self.marks,
            serials: self.serials,
            seed: self.seed,
        }
    }
}

/// What a client's calls did on all shards.
#[derive(Clone, Copy, Debug, PartialEq, Eq)]
#[repr(C)]
pub struct Stats {
    pub probes: u64,
    pub boosts: u64,
    pub evicted: u64,
    pub evicted_hit: u64,
    pub freed: u64,
    pub turns: u64,
    pub corrections: u64,
    pub lost: u64,
}

impl Stats {
    /// The cache's counts.
    pub(crate) fn counts(stats: hcc_cache::Stats) -> Stats
        ensures { result ≡ stats_of stats }
    {
        Stats {
            probes: stats.probes,
            boosts: stats.boosts,
            evicted: stats.evicted,
            evicted_hit: stats.evicted_hit,
            freed: stats.freed,
            turns: stats.turns,
            corrections: stats.corrections,
            lost: stats.lost,
        }
    }
}

/// What a client's look-ups and insertions came to. Counts saturate.
#[derive(Clone, Copy, Debug, PartialEq, Eq)]
#[repr(C)]
pub struct Counts {
    /// Of look-ups and of readings by a key.
    pub hits: u64,
    pub misses: u64,
    /// Of insertions.
    pub placed: u64,
    pub dropped: u64,
    pub standalone: u64,
    pub refused: u64,
}

impl Counts {
    /// None yet.
    pub(crate) fn none() -> Counts
        ensures { result ≡ no_counts }
    {
        Counts {
            hits: 0,
            misses: 0,
            placed: 0,
            dropped: 0,
            standalone: 0,
            refused: 0,
        }
    }

    pub(crate) fn hit(&mut self)
        ensures { self.new ≡ one_hit self.old }
    {
        one_more(&mut self.hits);
    }

    pub(crate) fn miss(&mut self)
        ensures { self.new ≡ one_miss self.old }
    {
        one_more(&mut self.misses);
    }

    /// Counts a reading by a key, and returns what came of it.
    pub(crate) fn get(&mut self, got: Got) -> Got
        ensures counted { self.new ≡ counted_get got self.old }
        ensures same { result ≡ got }
    {
        // Built anew in each arm, so that the caller's match on it costs no test of its own.
        match got {
            Got::Hit(count) => {
                self.hit();
                Got::Hit(count)
            }
            Got::Short(count) => Got::Short(count),
            Got::Miss => {
                self.miss();
                Got::Miss
            }
        }
    }

    /// Counts an insertion, and one with a handle.
    pub(crate) fn insert(&mut self, answer: Result<Inserted, InsertError>)
        ensures { self.new ≡ counted_insert (Ok answer) self.old }
    {
        match answer {
            Ok(Inserted::Placed) => one_more(&mut self.placed),
            Ok(Inserted::Dropped) => one_more(&mut self.dropped),
            Ok(Inserted::Standalone) => one_more(&mut self.standalone),
            Err(_) => one_more(&mut self.refused),
        }
    }

    pub(crate) fn insert_pinned(&mut self, answer: Result<(CHandle, Inserted), CopyError>)
        ensures { self.new ≡ counted_pinned (Ok answer) self.old }
    {
        match answer {
            Ok((_, inserted)) => self.insert(Ok(inserted)),
            Err(_) => one_more(&mut self.refused),
        }
    }
}

/// Counts one more, up to the greatest number.
#[inline(always)]
pub(crate) fn one_more(count: &mut u64)
    ensures { count.new ≡ with_count count.old 1 }
{
    if let Some(more) = count.checked_add(1) {
        *count = more;
    }
}

/// What is left of a cache that was closed: the charges and the number of its entries, by the
/// ledger words and slot by slot.
#[derive(Clone, Copy, Debug, PartialEq, Eq)]
#[repr(C)]
pub struct Totals {
    pub usage: u64,
    pub occupied: u64,
    pub slot_charges: u64,
    pub slot_count: u64,
}

/// An entry that was left of a cache that was closed.
#[derive(Clone, Copy, Debug, PartialEq, Eq)]
#[repr(C)]
pub struct Entry {
    pub key: Key,
    /// How many bytes its value has.
    pub length: usize,
    pub charge: u32,
    /// Its countdown.
    pub uses: u32,
    /// Whether look-ups found it: it wasn't erased.
    pub visible: bool,
    /// Whether a look-up marked it.
    pub hit: bool,
}

impl Entry {
    /// What a slot says of it, with the fields of its word.
    pub(crate) fn of(left: ClosedEntry) -> Entry
        requires { left.charge < 2 ^ 32 }
        ensures { result ≡ entry_of left }
    {
        Entry {
            key: Key::words(left.key),
            length: left.len as usize,
            charge: left.charge as u32,
            uses: releases(left.word),
            visible: state(left.word) == VISIBLE,
            hit: hit(left.word),
        }
    }
}
