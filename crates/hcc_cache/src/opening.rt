//! A new cache, whose clients are dealt a seat at each shard.
ghost use Rattle.std.specs.Prelude.{◌≡◌, [], Err, IfOk, IfErr, IsOkUnless, OnOk, length};
ghost use Rattle.hcc_shard.specs.Seated.{AreNew};
ghost use Rattle.hcc_shard.specs.Stays.{BeganWithinLimits, KnowNoEvent};
ghost use Rattle.hcc_cache.specs.Configs.{checked, IsAllowed};
ghost use Rattle.hcc_cache.specs.Ended.{KnowNothing};
ghost use Rattle.hcc_cache.specs.Keys.{fits_seeded};
ghost use Rattle.hcc_cache.specs.Opened.{AreGiven, AreUnseated, IsConfigured, IsOpened};
ghost use Rattle.hcc_cache.specs.Reopened.{image_of};
ghost use Rattle.hcc_cache.specs.Stays.{BeganEachWithin};

use crate::cache::Cache;
use crate::client::Client;
use crate::config::Config;
use crate::errors::NewError;
use crate::handle_table::HandleTable;
use crate::seeded::Seeded;
use hcc_rule::Tag;
use hcc_shard::{Shard, ShardSeat};
use slab::Slab;
use std::alloc::{AllocError, Global};

impl<T: Tag + Copy> Cache<T> {
    /// A cache with no entries, and its clients, in order of their numbers. Each client holds
    /// nothing, has made nothing, knows of nothing that was done, and has all its serials left.
    ///
    /// It refuses what [`Config::check`] refuses, and else only where memory is refused; nothing
    /// remains then. Of a cache's calls it and `reopen` alone allocate memory: for the words of all
    /// shards, and for each client its seats, and room for its handles and standalone entries. It
    /// costs as many stores as there are words, and a load for each client and shard.
    pub fn new(
        alloc: Global,
        config: Config,
        tag: T,
    ) -> Result<(Cache<T>, Vec<Client<T>>), NewError>
        ensures made { IfOk result (λ made. IsOpened config tag made.0 made.1.items) }
        ensures began { IfOk result (λ made. BeganEachWithin made.0 T.fits) }
        ensures past { IfOk result (λ made. KnowNothing made.1.items) }
        ensures refused { IfErr (checked config) (λ e. result ≡ Err e) }
        ensures memory { OnOk (checked config) (IsOkUnless result NewError.OutOfMemory) }
    {
        config.check()?;
        match Cache::opened(alloc, config, tag) {
            Ok(made) => Ok(made),
            Err(_) => Err(NewError::OutOfMemory),
        }
    }

    /// The same, where the numbers are within their ranges.
    pub(crate) fn opened(
        alloc: Global,
        config: Config,
        tag: T,
    ) -> Result<(Cache<T>, Vec<Client<T>>), AllocError>
        requires { IsAllowed config }
        ensures made { IfOk result (λ made. IsOpened config tag made.0 made.1.items) }
        ensures began { IfOk result (λ made. BeganEachWithin made.0 T.fits) }
        ensures past { IfOk result (λ made. KnowNothing made.1.items) }
    {
        let mut clients = unseated(alloc, config)?;
        let mut shards = Vec::with_capacity(alloc, config.shards as usize)?;
        for number in 0..config.shards {
            let (shard, seats) = configured(alloc, config, tag, number)?;
            deal(&mut clients, seats)?;
            shards.push(shard)?;
        }
        let cache = Cache {
            tag,
            seed: config.seed,
            geometry: config.shard_geometry(),
            capacity: config.shard_capacity(),
            strict: config.strict,
            shards,
        };
        Ok((cache, clients))
    }
}

/// The shard of this number, and the new seats of all clients.
fn configured<T: Tag + Copy>(
    alloc: Global,
    config: Config,
    tag: T,
    number: u32,
) -> Result<(Shard<Seeded<T>, Global>, Vec<ShardSeat<Seeded<T>>>), AllocError>
    requires { IsAllowed config }
    ensures shard { IfOk result (λ made. IsConfigured config tag number made.0) }
    ensures image { IfOk result (λ made. image_of made.0 ≡ []) }
    ensures count { IfOk result (λ made. length made.1.items ≡ config.clients) }
    ensures seats { IfOk result (λ made. AreNew made.0 0 made.1.items) }
    ensures began { IfOk result (λ made. BeganWithinLimits made.0 (fits_seeded T.fits)) }
    ensures past { IfOk result (λ made. KnowNoEvent made.1.items) }
{
    let tag = Seeded {
        tag,
        seed: config.seed,
        shards: config.shards,
        number,
    };
    Shard::new(
        alloc,
        config.shard_geometry(),
        config.shard_capacity(),
        config.strict,
        config.marks,
        tag,
    )
}

/// All clients, with no seats yet.
pub(crate) fn unseated<T>(alloc: Global, config: Config) -> Result<Vec<Client<T>>, AllocError>
    requires { IsAllowed config }
    ensures { IfOk result (λ clients. AreUnseated config clients.items) }
{
    let mut clients = Vec::with_capacity(alloc, config.clients as usize)?;
    let seed = config.seed;
    for number in 0..config.clients {
        clients.push(Client {
            number,
            seed,
            held: 0,
            most: config.handles,
            used: 0,
            left: config.serials,
            seats: Vec::with_capacity(alloc, config.shards as usize)?,
            handles: HandleTable::with_capacity(alloc, config.handles as usize)?,
            alone: Slab::with_capacity(alloc, config.handles as usize)?,
        })?;
    }
    Ok(clients)
}

/// Gives each client the seat of its number.
pub(crate) fn deal<T>(
    clients: &mut Vec<Client<T>>,
    mut seats: Vec<ShardSeat<Seeded<T>>>,
) -> Result<(), AllocError>
    requires { length seats.items ≡ length clients.old.items }
    ensures { OnOk result (AreGiven 0 clients.old.items seats.items clients.new.items) }
{
    while let Some(seat) = seats.pop() {
        let client = &mut clients[seats.len()];
        client.seats.push(seat)?;
    }
    Ok(())
}
