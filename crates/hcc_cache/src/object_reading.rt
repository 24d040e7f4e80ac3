//! What clients read in a cache of objects.
ghost use Rattle.std.specs.Prelude.{◌≡◌, ◌+◌, ◌*◌, ◌/◌, ◌≤◌, true, IfSome, Some, length, slice_get};
ghost use Rattle.hcc_core.specs.declared.limits.TheConstants.{OCCUPANCY_PERCENT};
ghost use Rattle.hcc_shard.specs.Counted.{stats_of};
ghost use Rattle.hcc_cache.specs.Calls.{CountsNone, KeepsAll, Reads, TakesAtMost, shard_in};
ghost use Rattle.hcc_cache.specs.Clients.{Holds, held_of};
ghost use Rattle.hcc_cache.specs.Objects.{KnowsObjects, is_word};
ghost use Rattle.hcc_cache.specs.Stays.{Stays};
ghost use Rattle.hcc_cache.specs.Totals.{CountsEach, LoadsEachOccupancy, LoadsEachUsage, LoadsUsages, SearchesAll, charge_by, entries_by, made_by, taken_by};

use crate::handle::Handle;
use crate::object_cache::{ObjectCache, ObjectClient};
use hcc_rule::Key;
use hcc_shard::Stats;

impl ObjectCache {
    /// The key of the entry that a handle is on, as its insertion gave it.
    ///
    /// It refuses nothing, allocates nothing and makes no atomic step. It costs a look at the
    /// handle's index.
    pub fn key(&self, client: &ObjectClient, handle: Handle) -> Key
        requires known { KnowsObjects self.now client.now }
        requires holds { Holds client.now.client handle }
        ensures exact { IfSome (held_of self.now.cache client.now.client handle) (λ held.
            result ≡ held.insertion.key) }
    {
        client.client.hold(handle).key
    }

    /// What is charged for the entry that a handle is on, as its insertion said.
    ///
    /// It refuses nothing and allocates nothing. It costs one load; of a standalone entry none.
    pub fn charge(&self, client: &mut ObjectClient, handle: Handle) -> u64
        requires known { KnowsObjects self.now client.old }
        requires holds { Holds client.old.client handle }
        ensures known { KnowsObjects self.now client.new }
        ensures reads { Reads self.now.cache client.old.client client.new.client }
        ensures stays { Stays self.now.cache client.old.client client.new.client }
        ensures exact { IfSome (held_of self.now.cache client.old.client handle) (λ held.
            result ≡ held.insertion.charge) }
        ensures list { client.new.gone ≡ client.old.gone }
        ensures steps { TakesAtMost 1 client.old.client client.new.client }
    {
        let client = &mut client.client;
        let hold = client.hold(handle);
        self.cache.charge_of(client, handle, hold)
    }

    /// What is charged in all shards, as `Cache::usage` tells it.
    pub fn usage(&self, client: &mut ObjectClient) -> u64
        requires { KnowsObjects self.now client.old }
        ensures known { KnowsObjects self.now client.new }
        ensures keeps { KeepsAll self.now.cache client.old.client client.new.client }
        ensures views { LoadsUsages client.old.client client.new.client }
        ensures loads { LoadsEachUsage self.now.cache result client.old.client client.new.client }
        ensures entries { charge_by client.old.client ≤ result }
        ensures strict { self.now.cache.strict ≡ true
            → result ≤ length self.now.cache.shards.items * self.now.cache.capacity }
        ensures counts { CountsNone client.old.client client.new.client }
        ensures list { client.new.gone ≡ client.old.gone }
        ensures steps { TakesAtMost (length self.now.cache.shards.items) client.old.client
            client.new.client }
    {
        self.cache.usage(&mut client.client)
    }

    /// What is charged for entries that are held and for standalone ones, as `Cache::pinned_usage`
    /// tells it.
    pub fn pinned_usage(&self, client: &mut ObjectClient) -> u64
        requires { KnowsObjects self.now client.old }
        ensures known { KnowsObjects self.now client.new }
        ensures keeps { KeepsAll self.now.cache client.old.client client.new.client }
        ensures views { SearchesAll client.old.client client.new.client }
        ensures entries { charge_by client.old.client ≤ result }
        ensures alone { self.now.cache.geometry.clients ≡ 1
            → result ≡ charge_by client.old.client }
        ensures loads { CountsEach self.now.cache is_word result client.old.client
            client.new.client }
        ensures stays { Stays self.now.cache client.old.client client.new.client }
        ensures list { client.new.gone ≡ client.old.gone }
        ensures steps { TakesAtMost
            (length self.now.cache.shards.items * (5 * self.now.cache.geometry.slots + 1))
            client.old.client client.new.client }
    {
        self.cache.pinned_usage(&mut client.client)
    }

    /// How many entries all shards have, as `Cache::occupancy` tells it.
    pub fn occupancy(&self, client: &mut ObjectClient) -> u64
        requires { KnowsObjects self.now client.old }
        ensures known { KnowsObjects self.now client.new }
        ensures reads { Reads self.now.cache client.old.client client.new.client }
        ensures entries { entries_by client.old.client ≤ result }
        ensures alone { self.now.cache.geometry.clients ≡ 1
            → result + taken_by client.old.client ≡ made_by client.old.client }
        ensures high { result ≤ length self.now.cache.shards.items
            * (self.now.cache.geometry.slots * OCCUPANCY_PERCENT / 100
            + self.now.cache.geometry.clients) }
        ensures loads { LoadsEachOccupancy self.now.cache result client.old.client
            client.new.client }
        ensures list { client.new.gone ≡ client.old.gone }
        ensures steps { TakesAtMost (length self.now.cache.shards.items) client.old.client
            client.new.client }
    {
        self.cache.occupancy(&mut client.client)
    }

    /// What a client's calls did on the shard where a key belongs, as `Cache::stats_at` tells it.
    pub fn stats_at(&self, client: &ObjectClient, key: Key) -> Stats
        requires { KnowsObjects self.now client.now }
        ensures { (seat : _)
            × (slice_get client.now.client.seats.items (shard_in self.now.cache key) ≡ Some seat)
            × (result ≡ stats_of seat) }
    {
        self.cache.stats_at(&client.client, key)
    }
}
