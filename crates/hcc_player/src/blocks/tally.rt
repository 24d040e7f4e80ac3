//! What the reads of a client come to.
ghost use Rattle.std.specs.Prelude.{◌≡◌, ◌+◌, ◌%◌, ◌^◌, sum};
ghost use Rattle.hcc_player.specs.Tally.{nothing};

/// What reads came to, whatever the cache kept.
#[derive(Clone, Copy, Debug, PartialEq, Eq)]
pub struct BlockTally {
    /// How many reads were answered with a block.
    pub blocks: u64,
    /// How many reads the source failed.
    pub faults: u64,
    /// How many reads were of blocks that aren't there.
    pub missing: u64,
    /// The sum of the bytes of all blocks that were read, modulo 2^64.
    pub sum: u64,
}

impl BlockTally {
    /// What no reads come to.
    pub fn new() -> BlockTally
        ensures { result ≡ nothing }
    {
        BlockTally {
            blocks: 0,
            faults: 0,
            missing: 0,
            sum: 0,
        }
    }
}

/// A sum with these bytes added, modulo 2^64.
pub fn with_bytes(start: u64, bytes: &[u8]) -> u64
    ensures { result ≡ (start + sum bytes.now) % 2 ^ 64 }
{
    let mut total = start;
    for byte in bytes {
        total = total.wrapping_add(u64::from(*byte));
    }
    total
}

/// What a client's reads came to, with what its reader counted.
#[derive(Clone, Copy, Debug, PartialEq, Eq)]
pub struct ClientReport {
    pub tally: BlockTally,
    /// How many blocks the cache had.
    pub hits: u64,
    /// How many it didn't have, or couldn't look for.
    pub misses: u64,
}
