//! Calls of a cache as data, each with the answer that is wanted.
ghost use Rattle.std.specs.Prelude.{◌≡◌};
ghost use Rattle.hcc_cache.specs.Known.{Knows};
ghost use Rattle.hcc_cache_tests.specs.Staged.{AllKnown, IsSized};

use super::stage::{Hand, Stage, Store};
use hcc_cache::{
    AnyBytes, Client, Config, Handle, InsertError, Inserted, Key, LookupError, Priority,
};
use std::alloc::{AllocError, Global};
use std::process::Abort;

/// A call of a client. Keys are told by their two words, handles by their numbers.
#[derive(Clone, Copy)]
pub(super) enum Call<'v> {
    /// Of the key, with the charge, the priority and the value.
    Insert(u64, u64, u32, Priority, &'v [u8]),
    /// The same with a handle, which gets a number.
    Pin(u64, u64, u32, Priority, &'v [u8], usize),
    /// The handle that it gives gets a number.
    Look(u64, u64, usize),
    /// Of a shard and a slot; the handle that it gives gets a number.
    Walk(u32, u32, usize),
    /// One more handle on the entry of a handle, and its number.
    Again(usize, usize),
    /// Whether it is useful, and whether the last one erases.
    Release(usize, bool, bool),
    Erase(u64, u64),
    Read(usize),
    /// Of a shard.
    Slot(u32, u32),
    Totals,
    /// What the client did, and what it has left.
    Did,
    Has,
}

/// What a call answers.
#[derive(Clone, Copy, Debug, PartialEq, Eq)]
pub(super) enum Answer {
    Stored(Inserted),
    Refused(InsertError),
    /// A handle was given, or none was for want of an entry.
    Found,
    Missed,
    /// A walk holds the entry of this key, with its charge and its uses.
    Held(u64, u64, u64, u32),
    NoHandle(LookupError),
    /// Whether an entry was freed.
    Freed(bool),
    /// How many entries were hidden.
    Hidden(u32),
    /// The key, how long the value is, and its bytes with 0xee behind them.
    Entry(u64, u64, usize, [u8; 16]),
    /// The word, and how often the slot stands in trails.
    Slot(u64, u64),
    /// The usage, the occupancy and the pinned usage.
    Totals(u64, u64, u64),
    /// Slots visited, keys met, entries evicted, those of them that were marked, their charge, and
    /// turns of the clock. Nothing was corrected or lost.
    Did([u64; 6]),
    /// How many handles it holds, and how many serials it has left.
    Has(u32, u64),
}

/// The values of the insertions with a handle, the first one last.
pub(super) fn values_of(
    alloc: Global,
    calls: &[(Call, Answer)],
) -> Result<Vec<Vec<u8>>, AllocError> {
    let mut values = Vec::new(alloc);
    for step in calls {
        if let Call::Pin(_, _, _, _, value, _) = step.0 {
            values.push(Vec::from_slice(alloc, value)?)?;
        }
    }
    values.reverse();
    Ok(values)
}

/// A client makes calls in order. They take no memory.
pub(super) fn plays(rt: &impl Abort, stage: &mut Stage, number: usize, calls: &[(Call, Answer)])
    requires { AllKnown stage.old.cache stage.old.clients.items }
    ensures same { stage.new.cache ≡ stage.old.cache }
    ensures known { AllKnown stage.new.cache stage.new.clients.items }
{
    assert!(rt; number < stage.clients.len(), "no such client");
    let client = &mut stage.clients[number];
    makes(
        rt,
        &stage.cache,
        stage.config,
        client,
        &mut stage.hand,
        calls,
    );
}

/// The same, of this client.
fn makes(
    rt: &impl Abort,
    cache: &Store,
    config: Config,
    client: &mut Client<AnyBytes>,
    hand: &mut Hand,
    calls: &[(Call, Answer)],
)
    requires sized { IsSized cache.now config }
    requires known { Knows cache.now client.old }
    ensures { Knows cache.now client.new }
{
    let mut count = 0u32;
    for step in calls {
        let (call, wanted) = *step;
        let answer = answers(rt, cache, config, client, hand, call);
        assert_eq!(rt; answer, wanted, "at call {count}");
        count = count.saturating_add(1);
    }
}

/// Makes a call.
fn answers(
    rt: &impl Abort,
    cache: &Store,
    config: Config,
    client: &mut Client<AnyBytes>,
    hand: &mut Hand,
    call: Call,
) -> Answer
    requires sized { IsSized cache.now config }
    requires known { Knows cache.now client.old }
    ensures { Knows cache.now client.new }
{
    match call {
        Call::Insert(w0, w1, charge, priority, value) => {
            let key = Key { w0, w1 };
            stores(rt, cache, client, key, value, charge, priority)
        }
        Call::Pin(w0, w1, charge, priority, bytes, number) => {
            let key = Key { w0, w1 };
            let value = hand.value(rt, bytes);
            let made = pins(rt, cache, client, key, value, charge, priority);
            match made {
                Ok((handle, inserted)) => {
                    hand.keep(rt, number, handle);
                    Answer::Stored(inserted)
                }
                Err((why, value)) => {
                    assert!(rt; value.as_slice() == bytes, "another value came back");
                    Answer::Refused(why)
                }
            }
        }
        Call::Look(w0, w1, number) => match cache.lookup(client, Key { w0, w1 }) {
            Ok(Some(handle)) => {
                hand.keep(rt, number, handle);
                Answer::Found
            }
            Ok(None) => Answer::Missed,
            Err(why) => Answer::NoHandle(why),
        },
        Call::Walk(shard, slot, number) => { walks(rt, cache, client, hand, (shard, slot), number) }
        _ => by_handle(rt, cache, config, client, hand, call),
    }
}

/// Holds the entry of a slot of a shard.
fn walks(
    rt: &impl Abort,
    cache: &Store,
    client: &mut Client<AnyBytes>,
    hand: &mut Hand,
    at: (u32, u32),
    number: usize,
) -> Answer
    requires { Knows cache.now client.old }
    ensures { Knows cache.now client.new }
{
    match cache.pin_at(client, at.0, at.1) {
        Ok(Some(held)) => {
            hand.keep(rt, number, held.handle);
            Answer::Held(held.key.w0, held.key.w1, held.charge, held.uses)
        }
        Ok(None) => Answer::Missed,
        Err(why) => Answer::NoHandle(why),
    }
}

/// Inserts an entry.
pub(super) fn stores(
    rt: &impl Abort,
    cache: &Store,
    client: &mut Client<AnyBytes>,
    key: Key,
    value: &[u8],
    charge: u32,
    priority: Priority,
) -> Answer
    requires { Knows cache.now client.old }
    ensures { Knows cache.now client.new }
{
    assert!(rt; charge > 0, "no charge");
    assert!(rt; value.len() <= cache.room(), "the value is too long");
    match cache.insert(client, key, value, charge, priority) {
        Ok(inserted) => Answer::Stored(inserted),
        Err(why) => Answer::Refused(why),
    }
}

/// Inserts an entry with a handle.
pub(super) fn pins(
    rt: &impl Abort,
    cache: &Store,
    client: &mut Client<AnyBytes>,
    key: Key,
    value: Vec<u8>,
    charge: u32,
    priority: Priority,
) -> Result<(Handle, Inserted), (InsertError, Vec<u8>)>
    requires { Knows cache.now client.old }
    ensures { Knows cache.now client.new }
{
    assert!(rt; charge > 0, "no charge");
    assert!(rt; value.len() <= cache.room(), "the value is too long");
    cache.insert_pinned(client, key, value, charge, priority)
}

/// Makes a call of a handle.
fn by_handle(
    rt: &impl Abort,
    cache: &Store,
    config: Config,
    client: &mut Client<AnyBytes>,
    hand: &mut Hand,
    call: Call,
) -> Answer
    requires sized { IsSized cache.now config }
    requires known { Knows cache.now client.old }
    ensures { Knows cache.now client.new }
{
    match call {
        Call::Again(old, new) => {
            let handle = hand.handle(rt, old);
            assert!(rt; client.holds(handle), "the handle isn't held");
            match cache.reref(client, handle) {
                Ok(handle) => {
                    hand.keep(rt, new, handle);
                    Answer::Found
                }
                Err(why) => Answer::NoHandle(why),
            }
        }
        Call::Release(number, useful, erase_if_last) => {
            let handle = hand.handle(rt, number);
            assert!(rt; client.holds(handle), "the handle isn't held");
            let freed = cache.release(client, handle, useful, erase_if_last);
            assert!(rt; !client.holds(handle), "the handle is held still");
            Answer::Freed(freed)
        }
        Call::Read(number) => {
            let handle = hand.handle(rt, number);
            let (key, length, bytes) = reads(rt, cache, client, handle);
            Answer::Entry(key.w0, key.w1, length, bytes)
        }
        _ => tells(rt, cache, config, client, call),
    }
}

/// The key of a handle's entry, how long its value is, and its bytes with 0xee behind them.
pub(super) fn reads(
    rt: &impl Abort,
    cache: &Store,
    client: &mut Client<AnyBytes>,
    handle: Handle,
) -> (Key, usize, [u8; 16])
    requires { Knows cache.now client.old }
    ensures { Knows cache.now client.new }
{
    assert!(rt; client.holds(handle), "the handle isn't held");
    let mut bytes = [0xee; 16];
    let key = cache.key(client, handle);
    let length = cache.value_len(client, handle);
    assert!(rt; length <= 16, "the value is too long");
    assert!(rt; client.holds(handle), "the handle isn't held");
    assert_eq!(rt; cache.read_value(client, handle, &mut bytes), length);
    (key, length, bytes)
}

/// Makes a call of no handle, which changes no entry but by an erasure.
fn tells(
    rt: &impl Abort,
    cache: &Store,
    config: Config,
    client: &mut Client<AnyBytes>,
    call: Call,
) -> Answer
    requires sized { IsSized cache.now config }
    requires known { Knows cache.now client.old }
    ensures { Knows cache.now client.new }
{
    match call {
        Call::Erase(w0, w1) => Answer::Hidden(cache.erase(client, Key { w0, w1 })),
        Call::Slot(shard, slot) => {
            assert!(rt; shard < config.shards, "no such shard");
            assert!(rt; slot < config.slots, "no such slot");
            let word = cache.word(client, shard, slot);
            Answer::Slot(word, cache.displacement(client, shard, slot))
        }
        Call::Totals => {
            let usage = cache.usage(client);
            let occupancy = cache.occupancy(client);
            Answer::Totals(usage, occupancy, cache.pinned_usage(client))
        }
        Call::Did => Answer::Did(did(rt, client)),
        Call::Has => Answer::Has(client.held(), client.serials_left()),
        _ => panic!(rt; "another call"),
    }
}

/// What a client did, which corrected and lost nothing.
fn did(rt: &impl Abort, client: &Client<AnyBytes>) -> [u64; 6] {
    let done = client.stats();
    assert_eq!(rt; [done.corrections, done.lost], [0, 0]);
    [
        done.probes,
        done.boosts,
        done.evicted,
        done.evicted_hit,
        done.freed,
        done.turns,
    ]
}
