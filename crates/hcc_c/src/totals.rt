//! Totals, and words of the cache's shards.
ghost use Rattle.std.specs.Prelude.{◌≡◌, true, false};
ghost use Rattle.hcc_cache.specs.Clients.{held_by};
ghost use Rattle.hcc_cache.specs.Totals.{no_stats, stats_over};
ghost use Rattle.hcc_c.specs.Calls.{TellsDisplacement, TellsOccupancy, TellsPinned, TellsStats, TellsUsage, TellsWord};
ghost use Rattle.hcc_c.specs.Sessions.{IsHandle, IsNone, IsWhole};
ghost use Rattle.hcc_c.specs.Shapes.{stats_of};

use crate::session::Session;
use crate::shapes::{CHandle, Counts, Stats};

impl Session {
    /// What is charged in all shards.
    pub fn usage(&mut self) -> u64
        requires { IsWhole self.old }
        ensures whole { IsWhole self.new }
        ensures tells { TellsUsage result self.old self.new }
    {
        self.cache.usage(&mut self.client)
    }

    /// What is charged for entries that are held, and for standalone ones.
    pub fn pinned_usage(&mut self) -> u64
        requires { IsWhole self.old }
        ensures whole { IsWhole self.new }
        ensures tells { TellsPinned result self.old self.new }
    {
        self.cache.pinned_usage(&mut self.client)
    }

    /// How many entries all shards have.
    pub fn occupancy(&mut self) -> u64
        requires { IsWhole self.old }
        ensures whole { IsWhole self.new }
        ensures tells { TellsOccupancy result self.old self.new }
    {
        self.cache.occupancy(&mut self.client)
    }

    /// The meta word of a slot of a shard; none where a number is out of range.
    pub fn word(&mut self, shard: u32, slot: u32) -> Option<u64>
        requires { IsWhole self.old }
        ensures whole { IsWhole self.new }
        ensures tells { TellsWord shard slot result self.old self.new }
    {
        if shard < self.shards && slot < self.slots {
            Some(self.cache.word(&mut self.client, shard, slot))
        } else {
            None
        }
    }

    /// How often a slot of a shard stands in trails; none where a number is out of range.
    pub fn displacement(&mut self, shard: u32, slot: u32) -> Option<u64>
        requires { IsWhole self.old }
        ensures whole { IsWhole self.new }
        ensures tells { TellsDisplacement shard slot result self.old self.new }
    {
        if shard < self.shards && slot < self.slots {
            Some(self.cache.displacement(&mut self.client, shard, slot))
        } else {
            None
        }
    }

    /// The client's number among the cache's clients.
    pub fn number(&self) -> u32
        ensures { result ≡ self.now.client.number }
    {
        self.client.number()
    }

    /// How many handles it holds.
    pub fn held(&self) -> u32
        ensures { result ≡ held_by self.now.client }
    {
        self.client.held()
    }

    /// How many serials it has left.
    pub fn serials_left(&self) -> u64
        ensures { result ≡ self.now.client.left }
    {
        self.client.serials_left()
    }

    /// Whether these are the numbers of a handle that it holds.
    pub fn holds(&self, c_handle: CHandle) -> bool
        ensures held { result ≡ true → (handle : _) × IsHandle self.now c_handle handle }
        ensures yes { (handle : _) → IsHandle self.now c_handle handle → result ≡ true }
        ensures no { IsNone self.now c_handle → result ≡ false }
    {
        match self.parts(c_handle) {
            Some(parts) => self.client.handle(parts).is_some(),
            None => false,
        }
    }

    /// What its calls did on all shards.
    pub fn stats(&self) -> Stats
        ensures { result ≡ stats_of (stats_over no_stats self.now.client.seats.items) }
    {
        Stats::counts(self.client.stats())
    }

    /// What its calls did on the shard where a key belongs.
    pub fn stats_at(&self, key: hcc_cache::Key) -> Stats
        requires { IsWhole self.now }
        ensures { TellsStats key result self.now }
    {
        Stats::counts(self.cache.stats_at(&self.client, key))
    }

    /// What its look-ups and insertions came to.
    pub fn counts(&self) -> Counts
        ensures { result ≡ self.now.counts }
    {
        self.counts
    }
}
