//! A new cache of objects.
ghost use Rattle.std.specs.Prelude.{◌≡◌, ◌≤◌, Err, IfErr, IfOk, IsOkUnless, OnOk};
ghost use Rattle.hcc_cache.specs.Configs.{IsAllowed, checked};
ghost use Rattle.hcc_cache.specs.ObjectConfigs.{AllowsGone, checked_objects, plain};
ghost use Rattle.hcc_cache.specs.ObjectsClosed.{places_in};
ghost use Rattle.hcc_cache.specs.ObjectsOpened.{AreListed, IsOpenedFor};

use crate::cache::Cache;
use crate::client::Client;
use crate::config::Config;
use crate::errors::{NewError, ObjectNewError};
use crate::gone::{GoneList, Objects};
use crate::limits::{FEWEST_GONE, MOST_GONE};
use crate::object_cache::{ClosingRoom, ObjectCache, ObjectClient};
use std::alloc::{AllocError, Global};

/// How large a cache of objects is, and how it behaves: the numbers of [`Config`] but the room, and
/// how many entries a client's list has places for.
#[derive(Clone, Copy, Debug, PartialEq, Eq)]
pub struct ObjectConfig {
    pub slots: u32,
    pub clients: u32,
    pub handles: u32,
    /// How many entries a client's list takes of what its calls free: 4 to 65,536. It has places
    /// for as many more as the client may hold handles.
    pub gone: u32,
    pub shards: u32,
    pub capacity: u64,
    pub strict: bool,
    pub marks: bool,
    pub serials: u64,
    pub seed: u64,
}

impl ObjectConfig {
    /// Whether a cache can be made so: each number is in its range. Else the first at fault is
    /// returned: as [`Config::check`] does of the numbers that it has, then of `gone`.
    ///
    /// It allocates nothing, and costs a few comparisons.
    pub fn check(&self) -> Result<(), ObjectNewError>
        ensures exact { result ≡ checked_objects self.now }
        ensures allowed { OnOk result (IsAllowed (plain self.now)) }
        ensures gone { OnOk result (AllowsGone self.now) }
    {
        match self.plain().check() {
            Ok(()) => {}
            Err(why) => return Err(ObjectNewError::Bad(why)),
        }
        if self.gone < FEWEST_GONE || self.gone > MOST_GONE {
            return Err(ObjectNewError::BadGone);
        }
        Ok(())
    }

    /// The same of a cache of bytes, whose slots have one word.
    fn plain(&self) -> Config
        ensures { result ≡ plain self.now }
    {
        Config {
            slots: self.slots,
            room: 1,
            clients: self.clients,
            handles: self.handles,
            shards: self.shards,
            capacity: self.capacity,
            strict: self.strict,
            marks: self.marks,
            serials: self.serials,
            seed: self.seed,
        }
    }
}

impl ObjectCache {
    /// A cache with no entries, and its clients, in order of their numbers, as `Cache::new` makes
    /// them. Nothing is on a client's list.
    ///
    /// It refuses what [`ObjectConfig::check`] refuses, and else only where memory is refused;
    /// nothing remains then. Of the cache's calls it alone allocates memory: beside what
    /// `Cache::new` does for each client the places of its list, 24 bytes each, and room for it
    /// where closing gathers the clients: that room is returned, too.
    pub fn new(
        alloc: Global,
        config: ObjectConfig,
    ) -> Result<(ObjectCache, Vec<ObjectClient>, ClosingRoom), ObjectNewError>
        ensures made { IfOk result (λ made. IsOpenedFor config made.0 made.1.items) }
        ensures room { IfOk result (λ made. made.0.cache.geometry.clients ≤ places_in made.2) }
        ensures refused { IfErr (checked_objects config) (λ e. result ≡ Err e) }
        ensures memory { OnOk (checked_objects config)
            (IsOkUnless result (ObjectNewError.Bad NewError.OutOfMemory)) }
    {
        config.check()?;
        match ObjectCache::opened(alloc, config) {
            Ok(made) => Ok(made),
            Err(_) => Err(ObjectNewError::Bad(NewError::OutOfMemory)),
        }
    }

    /// The same, where the numbers are within their ranges.
    fn opened(
        alloc: Global,
        config: ObjectConfig,
    ) -> Result<(ObjectCache, Vec<ObjectClient>, ClosingRoom), AllocError>
        requires allowed { IsAllowed (plain config) }
        requires gone { AllowsGone config }
        ensures made { IfOk result (λ made. IsOpenedFor config made.0 made.1.items) }
        ensures room { IfOk result (λ made. made.0.cache.geometry.clients ≤ places_in made.2) }
    {
        let (cache, clients) = Cache::opened(alloc, config.plain(), Objects)?;
        let room = ClosingRoom::open(alloc, config.clients)?;
        let clients = listed(alloc, clients, config)?;
        Ok((ObjectCache { cache }, clients, room))
    }
}

/// Clients, each with an empty list.
fn listed(
    alloc: Global,
    clients: Vec<Client<Objects>>,
    config: ObjectConfig,
) -> Result<Vec<ObjectClient>, AllocError>
    ensures { IfOk result (λ listed. AreListed config clients.items listed.items) }
{
    let mut listed = Vec::with_capacity(alloc, clients.len())?;
    for client in clients {
        let gone = GoneList::open(alloc, config.gone, config.handles)?;
        listed.push(ObjectClient { client, gone })?;
    }
    Ok(listed)
}
