//! Meta words of a slot's life, and words at the edges of the fields.

use hcc_word::layout::{CONSTRUCTION, EMPTY, HIT_BIT, INVISIBLE, VISIBLE};
use hcc_word::{
    acquired, acquires, clocked, corrected, given_back, hit, refs, released, releases, seeded,
    started, state, unseeded,
};

#[test]
fn fields_are_read(rt: HostRuntime) {
    for (word, fields) in [
        (0, (0, 0, 0, false, EMPTY)),
        (
            0x0000_0000_3fff_ffff,
            (1_073_741_823, 0, 1_073_741_823, false, EMPTY),
        ),
        (0x0fff_ffff_c000_0000, (0, 1_073_741_823, 1, false, EMPTY)),
        (0x1000_0000_0000_0000, (0, 0, 0, true, EMPTY)),
        (0xe000_0000_0000_0000, (0, 0, 0, false, VISIBLE)),
        (
            0xffff_ffff_ffff_ffff,
            (1_073_741_823, 1_073_741_823, 0, true, VISIBLE),
        ),
        (0x8000_0000_0000_0000, (0, 0, 0, false, CONSTRUCTION)),
        (0x8000_0000_0000_0003, (3, 0, 3, false, CONSTRUCTION)),
        // A new entry, one that is looked up, one that is marked, one that was erased.
        (0xe000_0000_8000_0002, (2, 2, 0, false, VISIBLE)),
        (0xe000_0000_8000_0003, (3, 2, 1, false, VISIBLE)),
        (0xf000_0000_c000_0003, (3, 3, 0, true, VISIBLE)),
        (0xc000_0000_4000_0002, (2, 1, 1, false, INVISIBLE)),
        // Uses at NEAR - 1, at NEAR, and at NEAR and 16,780,288 more.
        (
            0xe800_0000_e000_0003,
            (536_870_915, 536_870_915, 0, false, VISIBLE),
        ),
        (
            0xe800_0001_2000_0004,
            (536_870_916, 536_870_916, 0, false, VISIBLE),
        ),
        (
            0xe840_0301_2100_0c04,
            (553_651_204, 553_651_204, 0, false, VISIBLE),
        ),
    ] {
        let read = (
            acquires(word),
            releases(word),
            refs(word),
            hit(word),
            state(word),
        );
        assert_eq!(rt; read, fields, "at {word:#x}");
    }
}

#[test]
fn entries_start(rt: HostRuntime) {
    for (countdown, keep, word) in [
        (3, false, 0xe000_0000_c000_0003),
        (2, false, 0xe000_0000_8000_0002),
        (1, false, 0xe000_0000_4000_0001),
        (2, true, 0xe000_0000_4000_0002),
        (1, true, 0xe000_0000_0000_0001),
    ] {
        assert_eq!(rt; started(countdown, keep), word, "at {countdown}");
    }
}

#[test]
fn references_come_and_go(rt: HostRuntime) {
    let new = 0xe000_0000_8000_0002;
    let held = acquired(new, 1);
    assert_eq!(rt; held, 0xe000_0000_8000_0003);
    assert_eq!(rt; given_back(held, 1), new);
    assert_eq!(rt; released(held, 1), 0xe000_0000_c000_0003);
    assert_eq!(rt; released(held | HIT_BIT, 1), 0xf000_0000_c000_0003);

    // An insertion that meets its key adds its countdown to the entry's.
    assert_eq!(rt; released(acquired(new, 2), 2), 0xe000_0001_0000_0004);

    // The lookup that finds NEAR corrects, and its useful release gives back.
    let near = released(acquired(0xe800_0000_e000_0003, 1), 1);
    assert_eq!(rt; near, 0xe800_0001_2000_0004);
    let corrected = corrected(acquired(near, 1));
    assert_eq!(rt; corrected, Some(0xe000_0001_0000_0005));
    assert_eq!(rt;
        corrected.map(|word| given_back(word, 1)),
        Some(0xe000_0001_0000_0004)
    );
}

#[test]
fn the_clock_and_corrections_count(rt: HostRuntime) {
    for (word, next) in [
        (0xe000_0001_0000_0004, Some(0xe000_0000_8000_0002)),
        (0xe000_0000_8000_0002, Some(0xe000_0000_4000_0001)),
        (0xe000_0000_4000_0001, Some(0xe000_0000_0000_0000)),
        (0xe000_0000_0000_0000, None),
        (0xe000_0000_8000_0003, None),
        (0xf000_0000_c000_0003, Some(0xf000_0000_8000_0002)),
        (0xc000_0000_8000_0002, None),
        (0x8000_0000_0000_0000, None),
        (0, None),
        (0xffff_ffff_ffff_ffff, Some(0xf000_0000_8000_0002)),
    ] {
        assert_eq!(rt; clocked(word), next, "at {word:#x}");
    }
    for (word, next) in [
        (0xe800_0001_2000_0005, Some(0xe000_0001_0000_0005)),
        (0xe800_0000_e000_0004, None),
        (0xe800_0001_1fff_ffff, None),
        (0xe801_0031_2004_00c5, Some(0xe001_0031_0004_00c5)),
        (0xe840_0301_2100_0c04, Some(0xe040_0301_0100_0c04)),
        (0, None),
    ] {
        assert_eq!(rt; corrected(word), next, "at {word:#x}");
    }
}

#[test]
fn keys_are_seeded(rt: HostRuntime) {
    assert_eq!(rt;
        seeded(1, 0, 1),
        (0xab16_9eb8_aeae_59a4, 0x9e37_79b9_e17d_05ad)
    );
    for seed in [0, 1, u64::MAX] {
        for k0 in [0, 1, u64::MAX] {
            for k1 in [0, 1, u64::MAX] {
                let (h0, h1) = seeded(seed, k0, k1);
                assert_eq!(rt; unseeded(seed, h0, h1), (k0, k1), "under {seed}");
                assert!(rt; seed > 0 || (h0, h1) == (k0, k1));
            }
        }
    }
}
