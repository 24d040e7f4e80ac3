//! Which numbers a cache may have, and which fault is told first.

use super::calls::{Answer, Call};
use super::rows::row;
use super::stage::SMALL;
use hcc_cache::Inserted::Placed;
use hcc_cache::Priority::Low;
use hcc_cache::{Config, InsertError, NewError};
use std::test::Fail;

#[test]
fn ends_of_ranges_pass(rt: HostRuntime) {
    for config in [
        SMALL,
        Config {
            slots: 65_536,
            ..SMALL
        },
        Config { room: 1, ..SMALL },
        Config { room: 512, ..SMALL },
        Config {
            clients: 1_024,
            handles: 16_384,
            ..SMALL
        },
        Config {
            handles: 1,
            ..SMALL
        },
        Config {
            shards: 64,
            ..SMALL
        },
        Config {
            capacity: 0,
            ..SMALL
        },
        Config {
            capacity: 1_099_511_627_776,
            ..SMALL
        },
        Config {
            serials: 1,
            ..SMALL
        },
        Config {
            seed: 0xffff_ffff_ffff_ffff,
            ..SMALL
        },
    ] {
        assert_eq!(rt; config.check(), Ok(()), "at {config:?}");
    }
}

#[test]
fn numbers_past_their_ends_are_told(rt: HostRuntime) {
    for (config, error) in [
        (Config { slots: 0, ..SMALL }, NewError::BadSlots),
        (Config { slots: 4, ..SMALL }, NewError::BadSlots),
        (Config { slots: 12, ..SMALL }, NewError::BadSlots),
        (
            Config {
                slots: 131_072,
                ..SMALL
            },
            NewError::BadSlots,
        ),
        (Config { room: 0, ..SMALL }, NewError::BadRoom),
        (Config { room: 513, ..SMALL }, NewError::BadRoom),
        (
            Config {
                clients: 0,
                ..SMALL
            },
            NewError::BadClients,
        ),
        (
            Config {
                clients: 1_025,
                ..SMALL
            },
            NewError::BadClients,
        ),
        (
            Config {
                handles: 0,
                ..SMALL
            },
            NewError::BadHandles,
        ),
        (
            Config {
                handles: 16_385,
                ..SMALL
            },
            NewError::BadHandles,
        ),
        (Config { shards: 0, ..SMALL }, NewError::BadShards),
        (Config { shards: 3, ..SMALL }, NewError::BadShards),
        (
            Config {
                shards: 128,
                ..SMALL
            },
            NewError::BadShards,
        ),
        (
            Config {
                capacity: 1_099_511_627_777,
                ..SMALL
            },
            NewError::BadCapacity,
        ),
        (
            Config {
                serials: 0,
                ..SMALL
            },
            NewError::BadSerials,
        ),
        (
            Config {
                serials: 18_014_398_509_481_985,
                ..SMALL
            },
            NewError::BadSerials,
        ),
    ] {
        assert_eq!(rt; config.check(), Err(error), "at {config:?}");
    }
}

/// Each number is wrong from some field on: the first of these is told.
#[test]
fn the_first_fault_is_told(rt: HostRuntime) {
    let serials = Config {
        serials: 0,
        ..SMALL
    };
    let capacity = Config {
        capacity: 1_099_511_627_777,
        ..serials
    };
    let shards = Config {
        shards: 3,
        ..capacity
    };
    let handles = Config {
        handles: 0,
        ..shards
    };
    let clients = Config {
        clients: 0,
        ..handles
    };
    let room = Config { room: 0, ..clients };
    let slots = Config { slots: 12, ..room };
    for (config, error) in [
        (capacity, NewError::BadCapacity),
        (shards, NewError::BadShards),
        (handles, NewError::BadHandles),
        (clients, NewError::BadClients),
        (room, NewError::BadRoom),
        (slots, NewError::BadSlots),
    ] {
        assert_eq!(rt; config.check(), Err(error), "at {config:?}");
    }
}

/// Four shards of a cache of 1,001 have 251 each: the greatest charge that a strict one takes.
#[test]
fn a_shard_has_its_part_rounded_up(rt: HostRuntime) -> Result<(), Fail> {
    for (capacity, shards, part) in [(600, 1, 600), (600, 2, 300), (1_001, 4, 251), (0, 64, 0)] {
        let config = Config {
            capacity,
            shards,
            strict: true,
            ..SMALL
        };
        assert_eq!(rt; config.check(), Ok(()));
        let above = [(
            Call::Insert(0, 1, u32::saturating_add(part, 1), Low, &[]),
            Answer::Refused(InsertError::TooLarge),
        )];
        row(&rt, rt.alloc(), config, &above)?;
        if part > 0 {
            let whole = [(Call::Insert(0, 1, part, Low, &[]), Answer::Stored(Placed))];
            row(&rt, rt.alloc(), config, &whole)?;
        }
    }
    Ok(())
}
