//! Keys under a seed. The shards know seeded keys only, and values by a tag that has the seed, and
//! says which shard it is of.
ghost use Rattle.std.specs.Prelude.{◌≡◌, ◌%◌, ◌<◌, ◌≤◌};
ghost use Rattle.hcc_cache.specs.declared.limits.TheConstants.{MOST_SHARDS};
ghost use Rattle.hcc_cache.specs.Keys.{key_from};
ghost use Rattle.hcc_cache.specs.Sharding.{key_to, shard_of};

use hcc_rule::{Key, Tag};
use hcc_word::{seeded, unseeded};

/// The caller's tag with the seed, as one of a cache's shards has it: a value fits a seeded key
/// exactly if it fits the caller's key, and the key is one of that shard.
#[derive(Clone, Copy, Debug, PartialEq, Eq)]
pub(crate) struct Seeded<T> {
    pub(crate) tag: T,
    pub(crate) seed: u64,
    /// Of how many shards it is the tag of which one.
    pub(crate) shards: u32,
    pub(crate) number: u32,
}

impl<T: Tag> Tag for Seeded<T> {
    ghost use Rattle.hcc_cache.specs.Keys.{fits_seeded};

    ghost fits = { fits_seeded T.fits };
}

/// A key under the seed, which is none of the caller's.
#[derive(Clone, Copy, Debug, PartialEq, Eq)]
pub(crate) struct SeededKey {
    /// The same as its shard gets and gives it.
    pub(crate) in_shard: Key,
}

/// The seeded key of the caller's key.
pub(crate) fn key_to(seed: u64, key: Key) -> SeededKey
    ensures words { result.in_shard ≡ key_to seed key }
    ensures undone { key_from seed result.in_shard ≡ key }
{
    let (w0, w1) = seeded(seed, key.w0, key.w1);
    SeededKey {
        in_shard: Key { w0, w1 },
    }
}

/// The caller's key of a seeded key.
pub(crate) fn key_from(seed: u64, key: SeededKey) -> Key
    ensures words { result ≡ key_from seed key.in_shard }
    ensures undone { key_to seed result ≡ key.in_shard }
{
    let (w0, w1) = unseeded(seed, key.in_shard.w0, key.in_shard.w1);
    Key { w0, w1 }
}

/// The shard of a seeded key, of so many shards, a power of two: by the upper half of its first
/// word, which no shard's slots depend on so much as on its lower half.
#[tactic(auto, using(crate::proofs::Basics::ShardMasks::masked_shards))]
pub(crate) fn shard_of(key: SeededKey, shards: u32) -> u32
    requires some { 1 ≤ shards }
    requires power { MOST_SHARDS % shards ≡ 0 }
    ensures exact { result ≡ shard_of key.in_shard shards }
    ensures within { result < shards }
{
    (key.in_shard.w0 >> 32) as u32 & (shards - 1)
}
