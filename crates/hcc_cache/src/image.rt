//! The image of a closed cache.
ghost use Rattle.std.specs.Prelude.{◌≡◌, ℕ, ◌<◌, ◌++◌, IfOk, List, [], OnOk, Some, length, map, slice_get};
ghost use Rattle.hcc_core.specs.Sums.{total};
ghost use Rattle.hcc_cache.specs.declared.cache.Cache.{Cache};
ghost use Rattle.hcc_cache.specs.declared.client.Client.{Client};
ghost use Rattle.hcc_cache.specs.declared.config.Config.{Config};
ghost use Rattle.hcc_cache.specs.Closings.{AreBack, IsClosed};
ghost use Rattle.hcc_cache.specs.Ended.{LeavesWorlds};
ghost use Rattle.hcc_cache.specs.Images.{AreRight, Visible, visible_of, visible_from, visible_entries};
ghost use Rattle.hcc_cache.specs.Opened.{IsCacheOf};
ghost use Rattle.hcc_cache.specs.Reopened.{IsReopened};
ghost use Rattle.hcc_cache.specs.Taken.{split_of};

use crate::closed::Closed;
use crate::seeded::{SeededKey, key_from};
use hcc_rule::{ImageEntry, Key, Tag};
use std::alloc::{AllocError, Global};

/// An entry of a closed cache, as another cache may begin with it.
#[derive(Drop)]
pub struct Saved {
    /// The caller's key.
    pub key: Key,
    pub value: Vec<u8>,
    pub charge: u32,
    /// How many uses its meta word counts.
    pub uses: u32,
}

impl Closed {
    /// The entries that are visible, and no others, each once, with the callers' keys: shard by
    /// shard, and in each in the order of their slots. Hidden entries and marks are left out.
    ///
    /// It fails only if it can't allocate the list and each value. It costs a load for each slot,
    /// and for each entry five more and one for each eight bytes.
    pub fn image(&self, alloc: Global) -> Result<Vec<Saved>, AllocError>
        ensures { IfOk result (λ image.
            map visible_of image.items ≡ visible_entries self.now.seed self.now.shards.items) }
    {
        let mut image = Vec::new(alloc);
        for shard in 0..self.shards() {
            let entries = self.shard(shard).image(alloc)?;
            save(&mut image, self.seed, entries)?;
        }
        Ok(image)
    }
}

/// Adds the entries of a shard, with the callers' keys.
fn save(image: &mut Vec<Saved>, seed: u64, entries: Vec<ImageEntry>) -> Result<(), AllocError>
    ensures { OnOk result (map visible_of image.new.items
        ≡ map visible_of image.old.items ++ map (visible_from seed) entries.items) }
{
    for entry in entries {
        let seeded = SeededKey {
            in_shard: entry.key,
        };
        image.push(Saved {
            key: key_from(seed, seeded),
            value: entry.value,
            charge: entry.charge,
            uses: entry.uses,
        })?;
    }
    Ok(())
}

/// What is visible in a closed cache is right by the cache's tag.
pub fn law_images<T: Tag>()
    ensures { (cache : Cache T) (clients : List (Client T)) (closed : Closed)
        → IsClosed T.fits cache clients closed
        → AreRight T.fits cache.tag (visible_entries closed.seed closed.shards.items) }
{}

/// A cache of the same sizes, capacity, strictness and seed as a closed one takes all that is
/// visible in that: `reopen` leaves out none of its image.
pub fn law_whole<T: Tag>()
    ensures { (config : Config) (tag : T) (cache : Cache T) (clients : List (Client T))
        (closed : Closed) → IsCacheOf config tag cache → AreBack cache clients
        → IsClosed T.fits cache clients closed
        → split_of config (visible_entries closed.seed closed.shards.items)
        ≡ record { taken = visible_entries closed.seed closed.shards.items; left = [] } }
{}

/// A warm start keeps what was visible.
pub fn law_again<T: Tag>()
    // A cache is closed; another one of the same sizes, capacity, strictness and seed begins with
    // its image, and is closed before any call. What is visible in it then is what was visible in
    // the first one: whatever is counted of the entries, with their keys, values, charges and uses,
    // is the same in sum. So each is there as often as it was.
    ensures { (config : Config) (tag : T) (cache next : Cache T) (clients started : List (Client T))
        (closed last : Closed) → IsCacheOf config tag cache → AreBack cache clients
        → IsClosed T.fits cache clients closed
        → IsReopened T.fits config tag (visible_entries closed.seed closed.shards.items) next
        started
        → IsClosed T.fits next started last → LeavesWorlds T.fits next started last
        → (f : Visible → ℕ) → total f (visible_entries last.seed last.shards.items)
        ≡ total f (visible_entries closed.seed closed.shards.items) }
{}
