//! What follows of what reads do.
//!
//! No function here does anything when it runs: its contract is the law.
ghost use Rattle.std.specs.Prelude.{◌≡◌, ℕ, List, Option, Ok, length};
ghost use Rattle.hcc_rule.specs.declared.key.Key.{Key};
ghost use Rattle.hcc_cache.specs.declared.cache.Cache.{Cache};
ghost use Rattle.hcc_cache.specs.declared.client.Client.{Client};
ghost use Rattle.hcc_cache.specs.declared.config.Config.{Config};
ghost use Rattle.hcc_cache.specs.declared.inserting.Inserted.TheVariants.{Placed};
ghost use Rattle.hcc_cache.specs.Calls.{shard_in};
ghost use Rattle.hcc_cache.specs.Clients.{view_at};
ghost use Rattle.hcc_cache.specs.Moments.{KnowsShown};
ghost use Rattle.hcc_cache.specs.Opened.{IsCacheOf};
ghost use Rattle.hcc_cache.specs.Room.{HasRoomBeside};
ghost use Rattle.hcc_block.specs.declared.reader.BlockReader.{BlockReader};
ghost use Rattle.hcc_block.specs.Reads.{Copies, CountsHit, GoesThrough, IsRefused, Lacks, Loads};

use crate::source::BlockSource;
use hcc_cache::laws::{law_kept_shown, law_lookups, law_room};
use hcc_rule::Tag;

/// A block that the cache has is read from it.
pub fn law_reads<S: BlockSource, T: Tag>()
    // In a cache of one client, where the client knows the block's key to be shown when the call
    // begins, a read whose look-up isn't refused is a hit.
    ensures hits { (config : Config) (tag : T) (cache : Cache T)
        → IsCacheOf config tag cache → config.clients ≡ 1
        → (key : Key) (block : Option (List ℕ)) (count : ℕ) (before after : BlockReader S)
        (old new : Client T)
        → GoesThrough T.fits cache key block (Ok count) before after old new
        → ¬ IsRefused old → KnowsShown cache key old → CountsHit before after }

    // It knows so of a block that a miss placed.
    ensures placed { (config : Config) (tag : T) (cache : Cache T)
        → IsCacheOf config tag cache → config.clients ≡ 1
        → (key : Key) (block : Option (List ℕ)) (old new : Client T)
        (h : Loads cache key T.fits block old new) → h.hands.answer ≡ Ok Placed
        → KnowsShown cache key new }

    // What it knows to be shown it knows so after a hit: its release takes nothing away,
    ensures kept { (config : Config) (tag : T) (cache : Cache T)
        → IsCacheOf config tag cache → config.clients ≡ 1 → (key other : Key) (old new : Client T)
        → Copies cache key T.fits old new → KnowsShown cache other old
        → KnowsShown cache other new }

    // after a look-up that found nothing,
    ensures missed { (config : Config) (tag : T) (cache : Cache T)
        → IsCacheOf config tag cache → config.clients ≡ 1 → (key other : Key) (old new : Client T)
        → Lacks cache key T.fits old new → KnowsShown cache other old
        → KnowsShown cache other new }

    // and after a miss, where the shard of the block's key had room for it beside all that the
    // client made there.
    ensures filled { (config : Config) (tag : T) (cache : Cache T)
        → IsCacheOf config tag cache → config.clients ≡ 1 → (key other : Key)
        (block : Option (List ℕ)) (old new : Client T) (h : Loads cache key T.fits block old new)
        → HasRoomBeside config (length h.value) (view_at (shard_in cache key) h.looked)
        → KnowsShown cache other old → KnowsShown cache other new }
{
    law_lookups::<T>();
    law_kept_shown::<T>();
    law_room::<T>();
}
