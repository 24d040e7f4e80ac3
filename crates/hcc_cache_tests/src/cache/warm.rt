//! Caches that begin with what was visible in one that was closed.
ghost use Rattle.std.specs.Prelude.{◌≡◌, ℕ, ◌<◌, ◌≤◌, ◌↔◌, true, IsNone, List, Option, Some, slice_get};
ghost use Rattle.std.specs.declared.alloc.Global.{Global};
ghost use Rattle.hcc_core.specs.Lawful.{real_in};
ghost use Rattle.hcc_rule.specs.declared.key.Key.{Key};
ghost use Rattle.hcc_rule.specs.Callers.{world_at};
ghost use Rattle.hcc_rule.specs.Laws.{StateOf};
ghost use Rattle.hcc_rule.specs.Rule.{Holds};
ghost use Rattle.hcc_shard.specs.declared.shard.Shard.{Shard};
ghost use Rattle.hcc_shard.specs.Callers.{plan_of};
ghost use Rattle.hcc_table.specs.Standing.{ShowsKey};
ghost use Rattle.hcc_cache.specs.declared.cache.Cache.{Cache};
ghost use Rattle.hcc_cache.specs.declared.client.Client.{Client};
ghost use Rattle.hcc_cache.specs.declared.config.Config.{Config};
ghost use Rattle.hcc_cache.specs.declared.handle.Handle.{Handle};
ghost use Rattle.hcc_cache.specs.declared.seeded.Seeded.{Seeded};
ghost use Rattle.hcc_cache.specs.Calls.{SearchesFor};
ghost use Rattle.hcc_cache.specs.Configs.{shard_capacity};
ghost use Rattle.hcc_cache.specs.Images.{Visible};
ghost use Rattle.hcc_cache.specs.Keys.{fits_seeded};
ghost use Rattle.hcc_cache.specs.Known.{Knows};
ghost use Rattle.hcc_cache.specs.Reopened.{IsReopened};
ghost use Rattle.hcc_cache.specs.Sharding.{key_to};
ghost use Rattle.hcc_cache_tests.specs.Staged.{AllKnown};

use super::stage::{SMALL, Store};
use hcc_cache::laws::{law_limits, law_lookups};
use hcc_cache::{AnyBytes, Cache, Client, Closed, Config, Got, Inserted, Key, Priority, Saved};
use hcc_rule::Tag;
use std::process::Abort;
use std::test::Fail;

/// How many entries are inserted, and which of them is erased.
const MANY: u8 = 4;

const ERASED: u8 = 2;

/// A cache that shares no size with [`SMALL`].
const OTHER: Config = Config {
    slots: 16,
    room: 3,
    clients: 2,
    handles: 1,
    shards: 4,
    capacity: 28,
    strict: true,
    marks: true,
    serials: 5,
    seed: 77,
};

/// The key of a number.
fn key_of(number: u8) -> Key {
    Key {
        w0: 0,
        w1: u64::from(number),
    }
}

/// A client inserts all entries, and erases one.
fn fills(rt: &impl Abort, cache: &Store, client: &mut Client<AnyBytes>)
    requires { Knows cache.now client.old }
    ensures { Knows cache.now client.new }
{
    for number in 0..MANY {
        let charge = u32::from(number) + 1;
        assert!(rt; cache.room() >= 16, "a value is too long");
        let stored = cache.insert(client, key_of(number), &[number; 16], charge, Priority::Low);
        assert_eq!(rt; stored, Ok(Inserted::Placed));
    }
    assert_eq!(rt; cache.erase(client, key_of(ERASED)), 1);
}

/// Whether a client reads the value that was inserted.
fn reads(cache: &Store, client: &mut Client<AnyBytes>, number: u8) -> bool
    requires { Knows cache.now client.old }
    ensures { Knows cache.now client.new }
{
    let mut buffer = [0xff; 16];
    match cache.get(client, key_of(number), &mut buffer, false) {
        Got::Hit(len) => len == 16 && buffer == [number; 16],
        _ => false,
    }
}

/// A client reads all entries but the one that was erased.
fn reads_all(rt: &impl Abort, cache: &Store, client: &mut Client<AnyBytes>)
    requires { Knows cache.now client.old }
    ensures { Knows cache.now client.new }
{
    for number in 0..MANY {
        assert_eq!(rt;
            reads(cache, client, number),
            number != ERASED,
            "of {number}"
        );
    }
}

/// Closes a cache, once its first client has read all entries, which it inserts first where the
/// cache is new.
fn closes(rt: &impl Abort, cache: Store, mut clients: Vec<Client<AnyBytes>>, is_new: bool) -> Closed
    requires { AllKnown cache clients.items }
{
    assert!(rt; clients.len() > 0, "no client");
    let client = &mut clients[0];
    if is_new {
        fills(rt, &cache, client);
    }
    reads_all(rt, &cache, client);
    match cache.close(clients) {
        Ok(closed) => closed,
        Err((why, _, _)) => panic!(rt; "the cache isn't closed: {why:?}"),
    }
}

/// Sees that these are the entries that were inserted, but for the one that was erased.
fn are_all(rt: &impl Abort, image: &[Saved]) {
    assert_eq!(rt; image.len(), 3);
    for entry in image {
        let number = entry.key.w1;
        assert!(rt; number < 4, "another key");
        let number = number as u8;
        assert_eq!(rt; entry.key, key_of(number));
        assert!(rt;
            entry.value.as_slice() == [number; 16].as_slice(),
            "another value of {number}"
        );
        assert_eq!(rt; entry.charge, u32::from(number) + 1, "of {number}");
        assert_eq!(rt; entry.uses, 2, "of {number}");
    }
}

/// The laws of caches hold of one that began with an image. It does nothing.
fn laws_hold<T: Tag>()
    // With one client a look-up misses exactly where the client knows the key to be shown nowhere.
    ensures misses { (config : Config) (tag : T) (image : List Visible) (cache : Cache T)
        (clients : List (Client T)) → IsReopened T.fits config tag image cache clients
        → config.clients ≡ 1 → (key : Key) (found : Option Handle) (old new : Client T)
        (h : SearchesFor cache T.fits key found old new)
        → IsNone found ↔ ((slot : ℕ) → slot < config.slots
        → ¬ ShowsKey (world_at h.shard.table h.was.seat) (key_to cache.seed key) slot) }

    // Under strict capacity each shard is within its part at every moment.
    ensures capacity { (config : Config) (tag : T) (image : List Visible) (cache : Cache T)
        (clients : List (Client T)) → IsReopened T.fits config tag image cache clients
        → config.strict ≡ true → (number : ℕ) (shard : Shard (Seeded T) Global)
        → slice_get cache.shards.items number ≡ Some shard → (s : StateOf (Seeded T))
        (holds : Holds (fits_seeded T.fits) (plan_of shard) s)
        → real_in holds.world.slots holds.world.clients ≤ shard_capacity config }
{
    law_lookups::<T>();
    law_limits::<T>();
}

#[test]
fn a_closed_cache_is_opened_again(rt: HostRuntime) -> Result<(), Fail> {
    for config in [SMALL, OTHER] {
        let (cache, clients) = Cache::new(rt.alloc(), SMALL, AnyBytes)?;
        let image = closes(&rt, cache, clients, true).image(rt.alloc())?;
        are_all(&rt, image.as_slice());
        let (cache, clients, left) = Cache::reopen(rt.alloc(), config, AnyBytes, image)?;
        assert_eq!(rt; left.len(), 0);
        let image = closes(&rt, cache, clients, false).image(rt.alloc())?;
        are_all(&rt, image.as_slice());
    }
    laws_hold::<AnyBytes>();
    Ok(())
}

#[test]
fn entries_that_have_no_room_are_handed_back(rt: HostRuntime) -> Result<(), Fail> {
    for (config, want) in [
        (Config { room: 1, ..SMALL }, 3),
        (
            Config {
                capacity: 6,
                strict: true,
                ..SMALL
            },
            1,
        ),
        (
            Config {
                capacity: 6,
                ..SMALL
            },
            0,
        ),
    ] {
        let (cache, clients) = Cache::new(rt.alloc(), SMALL, AnyBytes)?;
        let image = closes(&rt, cache, clients, true).image(rt.alloc())?;
        let (_, clients, left) = Cache::reopen(rt.alloc(), config, AnyBytes, image)?;
        assert_eq!(rt; left.len(), want);
        for client in clients.iter() {
            let used = 3 - want as u64;
            assert_eq!(rt; client.serials_left(), SMALL.serials - used);
        }
    }
    Ok(())
}
