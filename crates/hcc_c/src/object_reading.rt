//! What a client of a cache of objects reads.
ghost use Rattle.hcc_c.specs.ObjectCalls.{TellsCharge, TellsKey, TellsOccupancy, TellsPinned, TellsStats, TellsUsage};
ghost use Rattle.hcc_c.specs.ObjectSessions.{IsWhole};

use crate::object_session::ObjectSession;
use crate::shapes::{CHandle, Stats};
use hcc_cache::Key;

impl ObjectSession {
    /// The key of the entry that a handle is on; none where the client holds no handle of these
    /// numbers.
    pub fn key(&self, c_handle: CHandle) -> Option<Key>
        requires { IsWhole self.now }
        ensures { TellsKey c_handle result self.now }
    {
        let handle = self.handle(c_handle)?;
        Some(self.cache.key(&self.client, handle))
    }

    /// What is charged for the entry that a handle is on; none where the client holds no handle of
    /// these numbers.
    pub fn charge(&mut self, c_handle: CHandle) -> Option<u64>
        requires { IsWhole self.old }
        ensures whole { IsWhole self.new }
        ensures tells { TellsCharge c_handle result self.old self.new }
    {
        let handle = self.handle(c_handle)?;
        Some(self.cache.charge(&mut self.client, handle))
    }

    /// What is charged in all shards.
    pub fn usage(&mut self) -> u64
        requires { IsWhole self.old }
        ensures whole { IsWhole self.new }
        ensures tells { TellsUsage result self.old self.new }
    {
        self.cache.usage(&mut self.client)
    }

    /// What is charged for entries that are held, and for standalone ones.
    pub fn pinned_usage(&mut self) -> u64
        requires { IsWhole self.old }
        ensures whole { IsWhole self.new }
        ensures tells { TellsPinned result self.old self.new }
    {
        self.cache.pinned_usage(&mut self.client)
    }

    /// How many entries all shards have.
    pub fn occupancy(&mut self) -> u64
        requires { IsWhole self.old }
        ensures whole { IsWhole self.new }
        ensures tells { TellsOccupancy result self.old self.new }
    {
        self.cache.occupancy(&mut self.client)
    }

    /// What its calls did on the shard where a key belongs.
    pub fn stats_at(&self, key: Key) -> Stats
        requires { IsWhole self.now }
        ensures { TellsStats key result self.now }
    {
        Stats::counts(self.cache.stats_at(&self.client, key))
    }
}
