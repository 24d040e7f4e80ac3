//! Shards as they are filled with the entries of an image.
ghost use Rattle.std.specs.Prelude.{◌≡◌, ◌%◌, ◌^◌, ◌<◌, IfOk, None, Some, length, map, slice_get};
ghost use Rattle.hcc_core.specs.declared.limits.TheConstants.{MOST_SLOTS};
ghost use Rattle.hcc_cache.specs.Configs.{IsAllowed};
ghost use Rattle.hcc_cache.specs.Drafts.{AreDrafts, HasFree, IsBlank, IsFilled, Puts, standing, takes};
ghost use Rattle.hcc_cache.specs.Images.{visible_of};
ghost use Rattle.hcc_cache.specs.Sharding.{IsReached};
ghost use Rattle.hcc_cache.specs.Taken.{split_of};

use crate::config::Config;
use crate::image::Saved;
use crate::seeded::{SeededKey, key_to, shard_of};
use hcc_core::limits::{MOST_USES, OCCUPANCY_PERCENT};
use hcc_rule::ImageEntry;
use std::alloc::{AllocError, Global};

/// What is to stand in the slots of a shard.
#[derive(Drop)]
pub(crate) struct Draft {
    pub(crate) places: Vec<Option<ImageEntry>>,
    /// How many entries there are, and their charges in sum.
    pub(crate) count: u32,
    pub(crate) charge: u64,
}

/// A draft of each shard with the entries of an image that it takes, and those that are left out.
pub(crate) fn drafted(
    alloc: Global,
    config: Config,
    image: Vec<Saved>,
) -> Result<(Vec<Draft>, Vec<Saved>), AllocError>
    requires { IsAllowed config }
    ensures drafts { IfOk result (λ made.
        AreDrafts config (split_of config (map visible_of image.items)).taken made.0.items) }
    ensures left { IfOk result (λ made.
        map visible_of made.1.items ≡ (split_of config (map visible_of image.items)).left) }
{
    let mut drafts = blank(alloc, config)?;
    let mut left = Vec::new(alloc);
    for saved in image {
        let seeded = key_to(config.seed, saved.key);
        let shard = shard_of(seeded, config.shards) as usize;
        let draft = &mut drafts[shard];
        if draft.takes(config, saved.charge, saved.value.len()) {
            draft.put(seeded, saved);
        } else {
            left.push(saved)?;
        }
    }
    Ok((drafts, left))
}

/// A draft of each shard, with no entries.
fn blank(alloc: Global, config: Config) -> Result<Vec<Draft>, AllocError>
    ensures count { IfOk result (λ drafts. length drafts.items ≡ config.shards) }
    ensures each { IfOk result (λ drafts. (shard : _) (d : _)
        → slice_get drafts.items shard ≡ Some d → IsBlank config.slots d) }
{
    let mut drafts = Vec::new(alloc);
    for _ in 0..config.shards {
        drafts.push(Draft::new(alloc, config.slots)?)?;
    }
    Ok(drafts)
}

impl Draft {
    /// The draft of a shard with no entries.
    fn new(alloc: Global, slots: u32) -> Result<Draft, AllocError>
        ensures { IfOk result (IsBlank slots) }
    {
        let mut places = Vec::new(alloc);
        for _ in 0..slots {
            places.push(None)?;
        }
        Ok(Draft {
            places,
            count: 0,
            charge: 0,
        })
    }

    /// Whether there's a place for an entry of this charge, with a value of this length.
    fn takes(&self, config: Config, charge: u32, len: usize) -> bool
        requires allowed { IsAllowed config }
        requires low { self.now.charge < 2 ^ 63 }
        ensures exact { result ≡ takes config self.now charge len }
        ensures small { charge < 2 ^ 32 }
    {
        let most = config.slots as u64 * OCCUPANCY_PERCENT / 100;
        let sum = self.charge + charge as u64;
        charge > 0
            && len <= 8 * config.room as usize
            && (self.count as u64) < most
            && (!config.strict || sum <= config.shard_capacity())
    }

    /// Puts an entry into the first slot of its probes that is free.
    fn put(&mut self, seeded: SeededKey, saved: Saved)
        requires power { MOST_SLOTS % length self.old.places.items ≡ 0 }
        requires free { HasFree self.old.places.items }
        requires count { self.old.count < MOST_SLOTS }
        requires low { self.old.charge < 2 ^ 63 }
        ensures { Puts seeded.in_shard saved self.old self.new }
    {
        let slot = free_slot(self.places.as_slice(), seeded);
        self.count += 1;
        self.charge += saved.charge as u64;
        self.places[slot as usize] = Some(ImageEntry {
            slot,
            key: seeded.in_shard,
            value: saved.value,
            charge: saved.charge,
            uses: (saved.uses as u64).min(MOST_USES) as u32,
        });
    }

    /// The entries, in the order of their slots.
    pub(crate) fn entries(self, alloc: Global) -> Result<Vec<ImageEntry>, AllocError>
        ensures { IfOk result (λ entries. entries.items ≡ standing self.places.items) }
    {
        let mut entries = Vec::with_capacity(alloc, self.count as usize)?;
        for place in self.places {
            if let Some(entry) = place {
                entries.push(entry)?;
            }
        }
        Ok(entries)
    }
}

/// The first slot of a key's probes that is free.
fn free_slot(places: &[Option<ImageEntry>], seeded: SeededKey) -> u32
    requires power { MOST_SLOTS % length places.now ≡ 0 }
    requires free { HasFree places.now }
    ensures free { slice_get places.now result ≡ Some None }
    ensures reached { IsReached (length places.now) seeded.in_shard (IsFilled places.now) result }
{
    let mask = places.len() as u64 - 1;
    let mut probe = seeded.in_shard.w1;
    for _ in 0..places.len() {
        let slot = (probe & mask) as u32;
        if places[slot as usize].is_none() {
            return slot;
        }
        probe = probe.wrapping_add(seeded.in_shard.w0 | 1);
    }
    unreachable!()
}
