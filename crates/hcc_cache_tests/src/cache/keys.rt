//! Seeded keys and their shards, and the countdowns of priorities, by the entries that a new cache
//! has of them.

use super::calls::{Answer, Call};
use super::rows::row;
use super::stage::SMALL;
use hcc_cache::Inserted::Placed;
use hcc_cache::Priority::Low;
use hcc_cache::{Config, Key, Priority};
use hcc_word::{seeded, unseeded};
use std::test::Fail;

/// An entry stands in the shard and the slot of its seeded key, by the upper half of the first word
/// and by the second word. What is told of it, held or left, is the caller's key.
#[test]
fn keys_are_seeded_and_come_back(rt: HostRuntime) -> Result<(), Fail> {
    let key = Key { w0: 0, w1: 1 };
    let under_one = Key {
        w0: 0xab16_9eb8_aeae_59a4,
        w1: 0x9e37_79b9_e17d_05ad,
    };
    for (seed, words, shards, slots, shard, slot) in [
        (0, key, 64, 8, 0, 1),
        (0, key, 1, 65_536, 0, 1),
        (1, under_one, 64, 8, 56, 5),
        (1, under_one, 1, 65_536, 0, 0x05ad),
    ] {
        assert_eq!(rt; seeded(seed, key.w0, key.w1), (words.w0, words.w1));
        assert_eq!(rt; unseeded(seed, words.w0, words.w1), (key.w0, key.w1));
        let config = Config {
            seed,
            shards,
            slots,
            ..SMALL
        };
        let calls = [
            (Call::Insert(0, 1, 1, Low, &[]), Answer::Stored(Placed)),
            (
                Call::Slot(shard, slot),
                Answer::Slot(0xe000_0000_8000_0002, 0),
            ),
            (Call::Look(0, 1, 0), Answer::Found),
            (Call::Read(0), Answer::Entry(0, 1, 0, [0xee; 16])),
            (Call::Totals, Answer::Totals(1, 1, 1)),
        ];
        let closed = row(&rt, rt.alloc(), config, &calls)?;
        let shard = shard as usize;
        assert!(rt; shard < closed.shards(), "no such shard");
        assert!(rt; slot < closed.slots(shard), "no such slot");
        let entry = closed.entry(shard, slot).expect(&rt, "no entry is left");
        assert_eq!(rt; entry.key, key);
    }
    Ok(())
}

#[test]
fn a_shard_is_chosen_by_the_upper_half_of_word_0(rt: HostRuntime) -> Result<(), Fail> {
    for (w0, shards, shard) in [
        (0, 4, 0),
        (3, 4, 0),
        (5 << 32, 4, 1),
        (1 << 32, 2, 1),
        (0xffff_ffff_0000_0000, 64, 63),
        (0xffff_ffff_ffff_ffff, 1, 0),
    ] {
        let config = Config { shards, ..SMALL };
        let calls = [
            (Call::Insert(w0, 1, 1, Low, &[]), Answer::Stored(Placed)),
            (Call::Slot(shard, 1), Answer::Slot(0xe000_0000_8000_0002, 0)),
            (Call::Totals, Answer::Totals(1, 1, 0)),
        ];
        row(&rt, rt.alloc(), config, &calls)?;
    }
    Ok(())
}

/// Both counters of a new entry's word are its countdown.
#[test]
fn countdowns_begin_by_priority(rt: HostRuntime) -> Result<(), Fail> {
    for (priority, countdown) in [
        (Priority::High, 3),
        (Priority::Low, 2),
        (Priority::Bottom, 1),
    ] {
        let word = 0xe000_0000_0000_0000 | countdown << 30 | countdown;
        let calls = [
            (Call::Insert(0, 1, 1, priority, &[]), Answer::Stored(Placed)),
            (Call::Slot(0, 1), Answer::Slot(word, 0)),
        ];
        row(&rt, rt.alloc(), SMALL, &calls)?;
    }
    Ok(())
}
