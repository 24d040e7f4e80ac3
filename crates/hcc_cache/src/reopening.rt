//! A cache that begins with an image.
ghost use Rattle.std.specs.Prelude.{◌≡◌, ◌≤◌, [], List, Err, IfErr, IfOk, IsOkUnless, None, OnOk, length, map, min};
ghost use Rattle.hcc_core.specs.declared.limits.TheConstants.{MOST_SLOTS};
ghost use Rattle.hcc_shard.specs.Reopened.{AreFitting, refusal_of};
ghost use Rattle.hcc_shard.specs.Seated.{AreBegun};
ghost use Rattle.hcc_shard.specs.Stays.{BeganWithinLimits, KnowNoEvent};
ghost use Rattle.hcc_cache.specs.Configs.{IsAllowed, checked, shard_capacity, shard_geometry};
ghost use Rattle.hcc_cache.specs.Images.{AreRight, Visible, visible_of};
ghost use Rattle.hcc_cache.specs.Keys.{fits_seeded};
ghost use Rattle.hcc_cache.specs.Opened.{IsConfigured, tag_in};
ghost use Rattle.hcc_cache.specs.Reopened.{IsReopened, Starts, image_of};
ghost use Rattle.hcc_cache.specs.declared.config.Config.{Config};
ghost use Rattle.hcc_cache.specs.Taken.{IsRoomyFor, split_of};

use crate::cache::Cache;
use crate::client::Client;
use crate::config::Config;
use crate::drafting::drafted;
use crate::errors::NewError;
use crate::image::Saved;
use crate::limits::STAMPS_PER_CLIENT;
use crate::opening::{deal, unseated};
use crate::seeded::Seeded;
use hcc_rule::{ImageEntry, Tag};
use hcc_shard::{ReopenError, Shard, ShardSeat};
use std::alloc::{AllocError, Global};

impl<T: Tag + Copy> Cache<T> {
    /// A cache that begins with the entries of an image, its clients, and the entries that are left
    /// out. Its look-ups answer what a key named when the image was made, so keys have to name what
    /// never changes: a file's number in one process doesn't.
    ///
    /// The image may be of a cache of other sizes or another seed: each entry goes where its key
    /// belongs, that is into its shard, and there into the first slot of its probes that is free.
    /// In their order those come in for which their shard has a place, of 84 for each hundred
    /// slots, and under strict capacity room for their charge; an entry whose value is too long for
    /// a slot, or whose charge is 0, doesn't. Each comes in once, as it was saved, but with
    /// 553,651,204 uses at most.
    ///
    /// Client 0 made the entries, and used as many serials as the shard with the most entries has;
    /// it may have fewer left than the others, where these and its own pass 2^54. Beyond that each
    /// client is as in a new cache.
    ///
    /// The values are right for their keys. It refuses what [`Config::check`] refuses, and else
    /// only where memory is refused; nothing remains then. It allocates what `new` does, and for a
    /// time the places of all slots and, shard by shard, the words once more. It costs what `new`
    /// does, for each entry a look at each probe up to its slot, and two stores for each of its
    /// words.
    pub fn reopen(
        alloc: Global,
        config: Config,
        tag: T,
        image: Vec<Saved>,
    ) -> Result<(Cache<T>, Vec<Client<T>>, Vec<Saved>), NewError>
        requires right { AreRight T.fits tag (map visible_of image.items) }
        ensures made { IfOk result (λ made.
            IsReopened T.fits config tag (map visible_of image.items) made.0 made.1.items) }
        ensures left { IfOk result (λ made.
            map visible_of made.2.items ≡ (split_of config (map visible_of image.items)).left) }
        ensures refused { IfErr (checked config) (λ e. result ≡ Err e) }
        ensures memory { OnOk (checked config) (IsOkUnless result NewError.OutOfMemory) }
    {
        config.check()?;
        match Cache::begun(alloc, config, tag, image) {
            Ok(made) => Ok(made),
            Err(_) => Err(NewError::OutOfMemory),
        }
    }

    /// The same, where the numbers are within their ranges.
    fn begun(
        alloc: Global,
        config: Config,
        tag: T,
        image: Vec<Saved>,
    ) -> Result<(Cache<T>, Vec<Client<T>>, Vec<Saved>), AllocError>
        requires allowed { IsAllowed config }
        requires right { AreRight T.fits tag (map visible_of image.items) }
        ensures made { IfOk result (λ made.
            IsReopened T.fits config tag (map visible_of image.items) made.0 made.1.items) }
        ensures left { IfOk result (λ made.
            map visible_of made.2.items ≡ (split_of config (map visible_of image.items)).left) }
    {
        let (drafts, left) = drafted(alloc, config, image)?;
        let mut clients = unseated(alloc, config)?;
        let mut shards = Vec::with_capacity(alloc, config.shards as usize)?;
        let mut most = 0u64;
        for draft in drafts {
            let entries = draft.entries(alloc)?;
            most = most.max(entries.len() as u64);
            let number = shards.len();
            let (shard, seats) = reopened(alloc, config, tag, number as u32, &entries)?;
            deal(&mut clients, seats)?;
            shards.push(shard)?;
        }
        start(&mut clients[0], config, most);
        let cache = Cache {
            tag,
            seed: config.seed,
            geometry: config.shard_geometry(),
            capacity: config.shard_capacity(),
            strict: config.strict,
            shards,
        };
        Ok((cache, clients, left))
    }
}

/// Where each shard has places for the entries that belong there, and grants their charges, all of
/// them come in, and none is left out.
pub fn law_all_taken()
    ensures { (config : Config) (image : List Visible) → IsRoomyFor config image
        → split_of config image ≡ record { taken = image; left = [] } }
{}

/// The shard of this number, which begins with these entries, and the seats of all clients.
fn reopened<T: Tag + Copy>(
    alloc: Global,
    config: Config,
    tag: T,
    number: u32,
    entries: &Vec<ImageEntry>,
) -> Result<(Shard<Seeded<T>, Global>, Vec<ShardSeat<Seeded<T>>>), AllocError>
    requires allowed { IsAllowed config }
    requires fitting { AreFitting (fits_seeded T.fits) (tag_in config tag number)
        entries.now.items }
    requires taken { refusal_of (shard_geometry config) (shard_capacity config) config.strict
        entries.now.items ≡ None }
    ensures shard { IfOk result (λ made. IsConfigured config tag number made.0) }
    ensures image { IfOk result (λ made. image_of made.0 ≡ entries.now.items) }
    ensures count { IfOk result (λ made. length made.1.items ≡ config.clients) }
    ensures seats { IfOk result (λ made. AreBegun made.0 entries.now.items made.1.items) }
    ensures began { IfOk result (λ made. BeganWithinLimits made.0 (fits_seeded T.fits)) }
    ensures past { IfOk result (λ made. KnowNoEvent made.1.items) }
{
    let tag = Seeded {
        tag,
        seed: config.seed,
        shards: config.shards,
        number,
    };
    let made = Shard::reopen(
        alloc,
        config.shard_geometry(),
        config.shard_capacity(),
        config.strict,
        config.marks,
        entries,
        tag,
    );
    match made {
        Ok(made) => Ok(made),
        Err(ReopenError::OutOfMemory) => Err(AllocError),
        Err(_) => unreachable!(),
    }
}

/// Client 0 used so many serials.
fn start<T>(client: &mut Client<T>, config: Config, used: u64)
    requires { used ≤ MOST_SLOTS }
    ensures { Starts config used client.old client.new }
{
    client.used = used;
    client.left = config.serials.min(STAMPS_PER_CLIENT - used);
}
