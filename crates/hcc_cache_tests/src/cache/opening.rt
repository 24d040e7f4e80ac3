//! New caches, and those that are refused.

use hcc_cache::{AnyBytes, Cache, Config, NewError};
use std::test::Fail;

/// A small cache of two shards and three clients.
const SMALL: Config = Config {
    slots: 8,
    room: 2,
    clients: 3,
    handles: 4,
    shards: 2,
    capacity: 601,
    strict: false,
    marks: false,
    serials: 1_000,
    seed: 1,
};

#[test]
fn a_new_cache_has_its_clients(rt: HostRuntime) -> Result<(), Fail> {
    let (cache, clients) = Cache::new(rt.alloc(), SMALL, AnyBytes)?;
    assert_eq!(rt; cache.room(), 16);
    assert_eq!(rt; clients.len(), 3);
    for (client, number) in clients.iter().zip(0u32..3) {
        assert_eq!(rt; client.number(), number);
        assert_eq!(rt; client.held(), 0, "of client {number}");
        assert_eq!(rt; client.serials_left(), 1_000, "of client {number}");
    }
    Ok(())
}

#[test]
fn a_cache_is_refused_as_its_config_is(rt: HostRuntime) {
    for (config, want) in [
        (Config { slots: 12, ..SMALL }, NewError::BadSlots),
        (Config { room: 0, ..SMALL }, NewError::BadRoom),
        (
            Config {
                clients: 0,
                ..SMALL
            },
            NewError::BadClients,
        ),
        (
            Config {
                handles: 0,
                ..SMALL
            },
            NewError::BadHandles,
        ),
        (Config { shards: 3, ..SMALL }, NewError::BadShards),
        (
            Config {
                capacity: 1_099_511_627_777,
                ..SMALL
            },
            NewError::BadCapacity,
        ),
        (
            Config {
                serials: 0,
                ..SMALL
            },
            NewError::BadSerials,
        ),
    ] {
        assert_eq!(rt; config.check(), Err(want), "at {config:?}");
        match Cache::new(rt.alloc(), config, AnyBytes) {
            Ok(_) => panic!(rt; "a cache was made of {config:?}"),
            Err(error) => assert_eq!(rt; error, want, "at {config:?}"),
        }
    }
}
