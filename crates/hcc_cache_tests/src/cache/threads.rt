//! Clients on threads of their own: what holds in every order of their steps.
ghost use Rattle.std.specs.Prelude.{◌≡◌, IfOk};
ghost use Rattle.std.specs.Thread.{IsSync};
ghost use Rattle.hcc_rule.specs.Views.{Each};
ghost use Rattle.hcc_cache.specs.Known.{Knows};
ghost use Rattle.hcc_cache_tests.specs.Staged.{AllKnown};

use super::calls::{Answer, pins, reads, stores};
use super::stage::{SMALL, Store};
use hcc_cache::Inserted::Placed;
use hcc_cache::Priority::{Bottom, Low};
use hcc_cache::{AnyBytes, Cache, Client, Closed, Config, Handle, Inserted, Key, NewError};
use std::alloc::{AllocError, Global};
use std::process::Abort;
use std::test::Fail;
use std::thread::{Threads, map_vec};

/// What a client does.
#[derive(Clone, Copy, Debug, PartialEq, Eq)]
enum Work {
    /// Inserts 1,000 keys of its own, with a charge of 30 each.
    Fills,
    /// Inserts a key with a handle, by its number as the value, and reads it.
    Pins,
    /// Client 0 inserts and erases a key 10,000 times, the others look for it as often.
    Meets,
    /// Inserts and erases four keys whose trails cross, 1,000 times each.
    Passes,
    /// Reads 40 blocks of 16 bytes in turn, 2,000 in all, through the cache.
    Blocks,
}

/// The one key that clients share.
const KEY: Key = Key { w0: 0, w1: 1 };

/// A client after its work.
#[derive(Drop)]
struct Done {
    client: Client<AnyBytes>,
    handle: Option<Handle>,
    placed: bool,
}

/// All clients of a new cache work at once, each on a thread of its own, and the cache is closed.
/// The usage, the occupancy and the pinned usage after their work, how many placed an entry that
/// they hold, and what is left.
fn at_once<R: Abort + Threads + Sync>(
    rt: &R,
    alloc: Global,
    config: Config,
    work: Work,
) -> Result<([u64; 4], Closed), Fail> {
    let (cache, clients) = opened(alloc, config)?;
    let mut back = Vec::with_capacity(alloc, clients.len())?;
    let mut after = [0, 0, 0, 0];
    for done in all_work(rt, alloc, &cache, clients, work)? {
        after = ends(rt, &cache, done, work, after, &mut back)?;
    }
    match cache.close(back) {
        Ok(closed) => {
            assert_eq!(rt; closed.usage(), closed.slot_charges());
            assert_eq!(rt; closed.occupied(), closed.slot_count());
            Ok((after, closed))
        }
        Err((why, _, _)) => panic!(rt; "the cache isn't closed: {why:?}"),
    }
}

/// A new cache and its clients.
#[tactic(auto, using(crate::proofs::Staged::each_known))]
fn opened(alloc: Global, config: Config) -> Result<(Store, Vec<Client<AnyBytes>>), NewError>
    ensures { IfOk result (λ made. Each (λ c. Knows made.0 c) made.1.items) }
{
    let (cache, clients) = Cache::new(alloc, config, AnyBytes)?;
    Ok((cache, clients))
}

/// All clients work, each on a thread.
fn all_work<R: Abort + Threads + Sync>(
    rt: &R,
    alloc: Global,
    cache: &Store,
    clients: Vec<Client<AnyBytes>>,
    work: Work,
) -> Result<Vec<Result<Done, AllocError>>, AllocError>
    requires each { Each (λ c. Knows cache.now c) clients.items }
    ensures each { IfOk result (λ all.
        Each (λ r. IfOk r (λ d. Knows cache.now d.client)) all.items) }
{
    map_vec(
        rt,
        clients,
        &move |client|
            requires { IsSync R.row × Knows cache.now client }
            ensures { IfOk result (λ d. Knows cache.entry.now d.client) }
        { works(rt, alloc, cache, client, work) },
    )
}

/// A client does its work.
fn works(
    rt: &impl Abort,
    alloc: Global,
    cache: &Store,
    mut client: Client<AnyBytes>,
    work: Work,
) -> Result<Done, AllocError>
    requires { Knows cache.now client }
    ensures { IfOk result (λ d. Knows cache.now d.client) }
{
    let value = Vec::from_slice(alloc, &client.number().to_le_bytes()[..1])?;
    let (handle, placed) = does(rt, cache, &mut client, value, work);
    Ok(Done {
        client,
        handle,
        placed,
    })
}

/// The same, with a value that it may insert: a handle that it keeps, and whether it placed an
/// entry with it.
fn does(
    rt: &impl Abort,
    cache: &Store,
    client: &mut Client<AnyBytes>,
    value: Vec<u8>,
    work: Work,
) -> (Option<Handle>, bool)
    requires { Knows cache.now client.old }
    ensures { Knows cache.now client.new }
{
    match work {
        Work::Fills => fills(rt, cache, client),
        Work::Pins => {
            let (handle, inserted) = pins_own(rt, cache, client, value);
            return (Some(handle), inserted == Placed);
        }
        Work::Meets => {
            if client.number() == 0 {
                shows(rt, cache, client)
            } else {
                looks(rt, cache, client)
            }
        }
        Work::Passes => passes(rt, cache, client),
        Work::Blocks => blocks(rt, cache, client),
    }
    (None, false)
}

/// Inserts 1,000 keys of its own.
fn fills(rt: &impl Abort, cache: &Store, client: &mut Client<AnyBytes>)
    requires { Knows cache.now client.old }
    ensures { Knows cache.now client.new }
{
    let w0 = client.number() as u64;
    for w1 in 0..1_000 {
        stores(rt, cache, client, Key { w0, w1 }, &[], 30, Bottom);
    }
}

/// Inserts the key with a handle, by the client's number as the value, and reads it.
fn pins_own(
    rt: &impl Abort,
    cache: &Store,
    client: &mut Client<AnyBytes>,
    value: Vec<u8>,
) -> (Handle, Inserted)
    requires { Knows cache.now client.old }
    ensures { Knows cache.now client.new }
{
    let number = client.number().to_le_bytes()[0];
    let Ok((handle, inserted)) = pins(rt, cache, client, KEY, value, 1, Low) else {
        panic!(rt; "the entry isn't inserted");
    };
    let (key, length, bytes) = reads(rt, cache, client, handle);
    assert_eq!(rt; (key, length, bytes[0]), (KEY, 1, number));
    (handle, inserted)
}

/// Inserts and erases the key 10,000 times. The value is the round twice.
fn shows(rt: &impl Abort, cache: &Store, client: &mut Client<AnyBytes>)
    requires { Knows cache.now client.old }
    ensures { Knows cache.now client.new }
{
    for round in 0..10_000u64 {
        let [a, b, c, d, e, f, g, h] = round.to_be_bytes();
        let value = [a, b, c, d, e, f, g, h, a, b, c, d, e, f, g, h];
        stores(rt, cache, client, KEY, &value, 1, Bottom);
        cache.erase(client, KEY);
    }
}

/// Looks for the key 10,000 times. Both halves of each value that is found are one round, and no
/// round comes after a later one.
fn looks(rt: &impl Abort, cache: &Store, client: &mut Client<AnyBytes>)
    requires { Knows cache.now client.old }
    ensures { Knows cache.now client.new }
{
    let mut last = 0;
    for time in 0..10_000 {
        last = look_once(rt, cache, client, last);
    }
}

/// Looks for the key once, after this round was seen: the round that has been seen then.
fn look_once(rt: &impl Abort, cache: &Store, client: &mut Client<AnyBytes>, last: u64) -> u64
    requires { Knows cache.now client.old }
    ensures { Knows cache.now client.new }
{
    let Some(handle) = finds(rt, cache, client, KEY) else {
        return last;
    };
    let (_, length, bytes) = takes(rt, cache, client, handle);
    assert_eq!(rt; length, 16);
    let [a, b, c, d, e, f, g, h, i, j, k, l, m, n, o, p] = bytes;
    let round = u64::from_be_bytes([a, b, c, d, e, f, g, h]);
    assert_eq!(rt; round, u64::from_be_bytes([i, j, k, l, m, n, o, p]));
    assert!(rt; last <= round, "an old entry was found after a new one");
    round
}

/// The handle that a look-up gives.
fn finds(rt: &impl Abort, cache: &Store, client: &mut Client<AnyBytes>, key: Key) -> Option<Handle>
    requires { Knows cache.now client.old }
    ensures { Knows cache.now client.new }
{
    cache.lookup(client, key).expect(rt, "no handle is given")
}

/// What a handle reads, once it is given back.
fn takes(
    rt: &impl Abort,
    cache: &Store,
    client: &mut Client<AnyBytes>,
    handle: Handle,
) -> (Key, usize, [u8; 16])
    requires { Knows cache.now client.old }
    ensures { Knows cache.now client.new }
{
    let (key, length, bytes) = reads(rt, cache, client, handle);
    assert!(rt; client.holds(handle), "the handle isn't held");
    cache.release(client, handle, true, false);
    (key, length, bytes)
}

/// Inserts and erases four keys in turn, 1,000 times each.
fn passes(rt: &impl Abort, cache: &Store, client: &mut Client<AnyBytes>)
    requires { Knows cache.now client.old }
    ensures { Knows cache.now client.new }
{
    for round in 0..4_000u64 {
        let key = Key {
            w0: round % 4 * 2,
            w1: 1,
        };
        stores(rt, cache, client, key, &[], 10, Low);
        cache.erase(client, key);
    }
}

/// Reads 2,000 blocks, each from the cache or, where it isn't there, from its file: the byte at p
/// is p modulo 251. The sum of all bytes is the same in every order.
fn blocks(rt: &impl Abort, cache: &Store, client: &mut Client<AnyBytes>)
    requires { Knows cache.now client.old }
    ensures { Knows cache.now client.new }
{
    let mut sum = 0u64;
    for time in 0..2_000u64 {
        let bytes = block_through(rt, cache, client, time % 1_000 * 7 % 40);
        sum = sum.saturating_add(sum_of(&bytes));
    }
    assert_eq!(rt; sum, 3_610_150);
}

/// A block, from the cache or from the file.
fn block_through(
    rt: &impl Abort,
    cache: &Store,
    client: &mut Client<AnyBytes>,
    index: u64,
) -> [u8; 16]
    requires { Knows cache.now client.old }
    ensures { Knows cache.now client.new }
{
    let key = Key {
        w0: index << 32,
        w1: index,
    };
    let bytes = block(index);
    if let Some(handle) = finds(rt, cache, client, key) {
        let (found, length, read) = takes(rt, cache, client, handle);
        assert_eq!(rt; found, key);
        assert_eq!(rt; length, 16);
        assert_eq!(rt; read, bytes);
        return read;
    }
    stores(rt, cache, client, key, &bytes, 16, Low);
    bytes
}

/// The sum of a block's bytes.
fn sum_of(bytes: &[u8; 16]) -> u64 {
    let mut sum = 0u64;
    for byte in bytes {
        sum = sum.saturating_add(*byte as u64);
    }
    sum
}

/// A block of the file.
fn block(index: u64) -> [u8; 16] {
    let mut bytes = [0; 16];
    for (place, byte) in (0u64..).zip(&mut bytes) {
        *byte = (index.saturating_mul(16).saturating_add(place) % 251) as u8;
    }
    bytes
}

/// A client whose work is done comes back. The first one tells the totals.
fn ends(
    rt: &impl Abort,
    cache: &Store,
    done: Result<Done, AllocError>,
    work: Work,
    before: [u64; 4],
    back: &mut Vec<Client<AnyBytes>>,
) -> Result<[u64; 4], AllocError>
    requires done { IfOk done (λ d. Knows cache.now d.client) }
    requires back { AllKnown cache.now back.old.items }
    ensures back { IfOk result (λ _. AllKnown cache.now back.new.items) }
{
    let Done {
        mut client,
        handle,
        placed,
    } = done?;
    let mut after = before;
    if back.is_empty() {
        after = totals(cache, &mut client);
    }
    after[3] = after[3].saturating_add(placed as u64);
    leaves(rt, cache, &mut client, handle, work);
    back.push(client)?;
    Ok(after)
}

/// The usage, the occupancy and the pinned usage.
fn totals(cache: &Store, client: &mut Client<AnyBytes>) -> [u64; 4]
    requires { Knows cache.now client.old }
    ensures { Knows cache.now client.new }
{
    let usage = cache.usage(client);
    let occupancy = cache.occupancy(client);
    [usage, occupancy, cache.pinned_usage(client), 0]
}

/// A client gives its handle back, or erases the keys that it erased once more.
fn leaves(
    rt: &impl Abort,
    cache: &Store,
    client: &mut Client<AnyBytes>,
    handle: Option<Handle>,
    work: Work,
)
    requires { Knows cache.now client.old }
    ensures { Knows cache.now client.new }
{
    if work == Work::Passes {
        for w0 in [0, 2, 4, 6] {
            cache.erase(client, Key { w0, w1: 1 });
        }
    }
    if let Some(handle) = handle {
        assert!(rt; client.holds(handle), "the handle isn't held");
        cache.release(client, handle, false, false);
    }
}

/// A cache of so many clients.
fn of(clients: u32) -> Config {
    Config { clients, ..SMALL }
}

/// Where four clients fill a strict cache, the charges are those of its entries, within the
/// capacity.
#[test]
fn strict_capacity_is_kept_by_four(rt: HostRuntime) -> Result<(), Fail> {
    let config = Config {
        capacity: 100,
        strict: true,
        ..of(4)
    };
    let (after, closed) = at_once(&rt, rt.alloc(), config, Work::Fills)?;
    assert_eq!(rt; after[0], after[1].wrapping_mul(30));
    assert!(rt; after[0] <= 90);
    assert_eq!(rt; closed.usage(), after[0]);
    Ok(())
}

/// Of eight clients that insert one key and hold it, at least one places it, and as many as there
/// are places at most; the others' entries stand alone. Each reads its own value.
#[test]
fn eight_hold_one_key(rt: HostRuntime) -> Result<(), Fail> {
    let (after, _) = at_once(&rt, rt.alloc(), of(8), Work::Pins)?;
    let placed = after[3];
    assert_eq!(rt; after, [8, placed, 8, placed]);
    assert!(rt; placed > 0);
    assert!(rt; placed <= 6);
    Ok(())
}

/// A client that looks for a key finds whole values alone, and never an old one after a new one. Of
/// what was erased while it was looked at some may be left, held by nobody.
#[test]
fn one_shows_and_one_looks(rt: HostRuntime) -> Result<(), Fail> {
    let (after, closed) = at_once(&rt, rt.alloc(), of(2), Work::Meets)?;
    let hidden = closed.occupied();
    assert_eq!(rt; after, [hidden, hidden, 0, 0]);
    assert!(rt; hidden <= 6);
    Ok(())
}

/// Where two clients placed and erased keys whose trails cross, each slot counts the entries that
/// are left and passed it.
#[test]
fn trails_are_counted_by_two(rt: HostRuntime) -> Result<(), Fail> {
    let (_, closed) = at_once(&rt, rt.alloc(), of(2), Work::Passes)?;
    assert_eq!(rt; closed.usage(), closed.occupied().wrapping_mul(10));
    assert!(rt; closed.shards() > 0, "no shard is left");
    for slot in 0..8 {
        assert!(rt; slot < closed.slots(0), "no such slot");
        let counted = closed.displacement(0, slot);
        assert_eq!(rt; counted, passed(&rt, &closed, slot), "at {slot}");
    }
    Ok(())
}

/// How many entries are left that passed a slot, of 8.
fn passed(rt: &impl Abort, closed: &Closed, slot: u32) -> u64 {
    assert!(rt; closed.shards() > 0, "no shard is left");
    let mut count = 0u64;
    for at in 0..8 {
        assert!(rt; at < closed.slots(0), "no such slot");
        if let Some(entry) = closed.entry(0, at) {
            assert!(rt; entry.word >> 61 == 6, "an erased entry is seen");
            if is_before(entry.key, slot, at) {
                count = count.saturating_add(1);
            }
        }
    }
    count
}

/// Whether a search for the key visits one slot of 8 before another.
fn is_before(key: Key, slot: u32, at: u32) -> bool {
    let mut place = key.w1 % 8;
    for probe in 0..8 {
        if place == at as u64 {
            return false;
        }
        if place == slot as u64 {
            return true;
        }
        place = place.wrapping_add(key.w0 | 1) % 8;
    }
    false
}

/// Two clients read blocks through one cache, of one shard or four, under a seed or none.
#[test]
fn blocks_are_read_by_two(rt: HostRuntime) -> Result<(), Fail> {
    for (shards, seed) in [(1, 0), (1, 1), (4, 0)] {
        let config = Config {
            shards,
            seed,
            ..of(2)
        };
        let (after, closed) = at_once(&rt, rt.alloc(), config, Work::Blocks)?;
        assert_eq!(rt; [closed.usage(), closed.occupied(), 0, 0], after);
        assert_eq!(rt; closed.usage(), closed.occupied().wrapping_mul(16));
    }
    Ok(())
}
