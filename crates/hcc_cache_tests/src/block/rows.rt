//! Reads as rows: what each answers, and what the reader counted and the cache has at the end.

use super::played::{Read, Row, plays};
use crate::cache::stage::SMALL;
use hcc_block::ReadError::{NoSuchBlock, SourceFault};
use hcc_cache::Config;
use std::test::Fail;

/// A client can make one insertion or handle.
const BRIEF: Config = Config {
    serials: 1,
    ..SMALL
};

/// No whole block may be inserted.
const TIGHT: Config = Config {
    capacity: 10,
    strict: true,
    ..SMALL
};

/// Two clients share the cache.
const PAIR: Config = Config {
    clients: 2,
    ..SMALL
};

/// More reads than any row has.
const NEVER: u64 = 1_000;

/// The last block is shorter. The second read of a block is a hit, which is a use of its entry.
const TWICE: [Read; 5] = [
    (0, 0, 0, Ok((16, 120))),
    (0, 0, 0, Ok((16, 120))),
    (0, 0, 2, Ok((8, 284))),
    (0, 0, 3, Err(NoSuchBlock)),
    (0, 1, 0, Err(NoSuchBlock)),
];

/// The same where the second read of the source fails: nothing is inserted.
const FAULT: [Read; 5] = [
    (0, 0, 0, Ok((16, 120))),
    (0, 0, 0, Ok((16, 120))),
    (0, 0, 2, Err(SourceFault)),
    (0, 0, 3, Err(NoSuchBlock)),
    (0, 1, 0, Err(NoSuchBlock)),
];

/// A block is right after a fault.
const AGAIN: [Read; 3] = [
    (0, 0, 2, Err(SourceFault)),
    (0, 0, 2, Ok((8, 284))),
    (0, 0, 2, Ok((8, 284))),
];

/// The third read of the source fails, and no other.
const LATE: [Read; 4] = [
    (0, 0, 0, Ok((16, 120))),
    (0, 0, 1, Ok((16, 376))),
    (0, 0, 2, Err(SourceFault)),
    (0, 0, 2, Ok((8, 284))),
];

/// Files of a block, of nothing, of a byte, and of two blocks and a half; files and blocks whose
/// numbers are past all; and an index whose first byte would be 0 in 32 bits.
const ENDS: [Read; 12] = [
    (0, 0, 0, Ok((16, 120))),
    (0, 0, 1, Err(NoSuchBlock)),
    (0, 1, 0, Err(NoSuchBlock)),
    (0, 2, 0, Ok((1, 2))),
    (0, 2, 1, Err(NoSuchBlock)),
    (0, 3, 1, Ok((16, 424))),
    (0, 3, 2, Ok((8, 308))),
    (0, 3, 3, Err(NoSuchBlock)),
    (0, 4, 0, Err(NoSuchBlock)),
    (0, 0, 0x1000_0000, Err(NoSuchBlock)),
    (0, 0, 0xffff_ffff, Err(NoSuchBlock)),
    (0, 0xffff_ffff, 0, Err(NoSuchBlock)),
];

/// A file and a block whose numbers change places, through two clients.
const CROSSED: [Read; 4] = [
    (0, 0, 1, Ok((16, 376))),
    (0, 1, 0, Ok((16, 136))),
    (1, 0, 1, Ok((16, 376))),
    (1, 1, 0, Ok((16, 136))),
];

/// Look-ups or insertions are refused.
const REFUSED: [Read; 4] = [
    (0, 0, 0, Ok((16, 120))),
    (0, 0, 0, Ok((16, 120))),
    (0, 0, 2, Ok((8, 284))),
    (0, 0, 2, Ok((8, 284))),
];

#[test]
fn blocks_are_read(rt: HostRuntime) -> Result<(), Fail> {
    for row in [
        Row {
            name: "twice",
            config: SMALL,
            files: &[40],
            fails: NEVER,
            reads: &TWICE,
            counts: [1, 2, 0],
            left: [24, 2],
            word: 0xe000_0000_c000_0003,
        },
        Row {
            name: "fault",
            config: SMALL,
            files: &[40],
            fails: 1,
            reads: &FAULT,
            counts: [1, 2, 1],
            left: [16, 1],
            word: 0xe000_0000_c000_0003,
        },
        Row {
            name: "again",
            config: SMALL,
            files: &[40],
            fails: 0,
            reads: &AGAIN,
            counts: [1, 2, 1],
            left: [8, 1],
            word: 0,
        },
        Row {
            name: "late",
            config: SMALL,
            files: &[40],
            fails: 2,
            reads: &LATE,
            counts: [0, 4, 1],
            left: [40, 3],
            word: 0xe000_0000_8000_0002,
        },
        Row {
            name: "ends",
            config: SMALL,
            files: &[16, 0, 1, 40],
            fails: NEVER,
            reads: &ENDS,
            counts: [0, 4, 0],
            left: [41, 4],
            word: 0xe000_0000_8000_0002,
        },
        Row {
            name: "crossed",
            config: PAIR,
            files: &[40, 40],
            fails: NEVER,
            reads: &CROSSED,
            counts: [2, 2, 0],
            left: [32, 2],
            word: 0xe000_0000_c000_0003,
        },
        Row {
            name: "spent",
            config: BRIEF,
            files: &[40],
            fails: NEVER,
            reads: &REFUSED,
            counts: [0, 4, 0],
            left: [16, 1],
            word: 0xe000_0000_8000_0002,
        },
        Row {
            name: "too large",
            config: TIGHT,
            files: &[40],
            fails: NEVER,
            reads: &REFUSED,
            counts: [1, 3, 0],
            left: [8, 1],
            word: 0,
        },
    ] {
        for seed in [0, 1, 0xffff_ffff_ffff_ffff] {
            plays(&rt, rt.alloc(), &row, seed)?;
        }
    }
    Ok(())
}
