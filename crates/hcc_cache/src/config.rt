//! How large a cache is, and how it behaves.
ghost use Rattle.std.specs.Prelude.{◌≡◌, OnOk};
ghost use Rattle.hcc_rule.specs.Seats.{IsPlanned};
ghost use Rattle.hcc_cache.specs.Configs.{IsAllowed, checked, is_power_within, is_within, shard_capacity, shard_geometry};

use crate::errors::NewError;
use crate::limits::{
    FEWEST_SLOTS, MOST_CAPACITY, MOST_CLIENTS, MOST_HANDLES, MOST_ROOM, MOST_SHARDS, MOST_SLOTS,
    STAMPS_PER_CLIENT,
};
use hcc_rule::Geometry;

/// How large a cache is, and how it behaves.
#[derive(Clone, Copy, Debug, PartialEq, Eq)]
pub struct Config {
    /// How many slots each shard has: a power of two, 8 to 65,536.
    pub slots: u32,
    /// How many payload words each slot has: 1 to 512. A value has at most eight times as many
    /// bytes.
    pub room: u32,
    /// How many clients there are: 1 to 1,024.
    pub clients: u32,
    /// How many handles a client may hold at once: 1 to 16,384.
    pub handles: u32,
    /// How many shards there are: a power of two, 1 to 64.
    pub shards: u32,
    /// The charge that the cache is meant to hold: at most 2^40. Each shard has an equal part,
    /// rounded up.
    pub capacity: u64,
    /// Whether a charge is granted only within a shard's capacity.
    pub strict: bool,
    /// Whether look-ups mark the entries that they find.
    pub marks: bool,
    /// How many serials each client has: 1 to 2^54. An insertion uses one, and so does each handle
    /// that a look-up or another reference gives.
    pub serials: u64,
    /// The seed of the keys: any number. Under 0 each key is its own seeded key.
    pub seed: u64,
}

impl Config {
    /// Whether a cache can be made so: each number is in its range. Else the first field at fault
    /// is returned, in the order of [`NewError`].
    ///
    /// It allocates nothing, and costs a few comparisons.
    pub fn check(&self) -> Result<(), NewError>
        ensures exact { result ≡ checked self.now }
        ensures allowed { OnOk result (IsAllowed self.now) }
    {
        if !is_power_within(FEWEST_SLOTS, MOST_SLOTS, self.slots) {
            return Err(NewError::BadSlots);
        }
        if !is_within(1, MOST_ROOM, self.room) {
            return Err(NewError::BadRoom);
        }
        if !is_within(1, MOST_CLIENTS, self.clients) {
            return Err(NewError::BadClients);
        }
        if !is_within(1, MOST_HANDLES, self.handles) {
            return Err(NewError::BadHandles);
        }
        if !is_power_within(1, MOST_SHARDS, self.shards) {
            return Err(NewError::BadShards);
        }
        if self.capacity > MOST_CAPACITY {
            return Err(NewError::BadCapacity);
        }
        if self.serials < 1 || self.serials > STAMPS_PER_CLIENT {
            return Err(NewError::BadSerials);
        }
        Ok(())
    }

    /// The size of each shard.
    pub(crate) fn shard_geometry(&self) -> Geometry
        ensures { result ≡ shard_geometry self.now }
    {
        Geometry {
            slots: self.slots,
            room: self.room,
            clients: self.clients,
        }
    }

    /// The capacity of each shard: an equal part of the whole, rounded up.
    pub(crate) fn shard_capacity(&self) -> u64
        requires { IsAllowed self.now }
        ensures exact { result ≡ shard_capacity self.now }
        ensures planned { IsPlanned (shard_geometry self.now) result }
    {
        let shards = u64::from(self.shards);
        (self.capacity + shards - 1) / shards
    }
}

/// Whether a number is in this range.
fn is_within(least: u32, most: u32, number: u32) -> bool
    ensures { result ≡ is_within least most number }
{
    least <= number && number <= most
}

/// Whether a number is a power of two in this range.
fn is_power_within(least: u32, most: u32, number: u32) -> bool
    ensures { result ≡ is_power_within least most number }
{
    is_within(least, most, number) && number.is_power_of_two()
}
