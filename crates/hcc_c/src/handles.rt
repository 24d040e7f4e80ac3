//! Handles that are given by their parts, and given back.
ghost use Rattle.hcc_c.specs.Calls.{GivesBack, Hides, LooksUp, PinsAt, RefersAgain, TellsHandle};
ghost use Rattle.hcc_c.specs.Sessions.{IsWhole};

use crate::session::Session;
use crate::shapes::{CHandle, CHeldEntry};
use hcc_cache::{Key, LookupError};

impl Session {
    /// Looks for a visible entry of the key, as the cache does. The handle that it gives is named
    /// by its parts.
    pub fn lookup(&mut self, key: Key) -> Result<Option<CHandle>, LookupError>
        requires { IsWhole self.old }
        ensures whole { IsWhole self.new }
        ensures looks { LooksUp key result self.old self.new }
    {
        match self.cache.lookup(&mut self.client, key)? {
            Some(handle) => {
                self.counts.hit();
                Ok(Some(CHandle::of(self.cache_number, handle)))
            }
            None => {
                self.counts.miss();
                Ok(None)
            }
        }
    }

    /// Holds the entry of a slot of a shard, as the cache does; none where there is no such slot.
    /// It is no look-up: neither a hit nor a miss is counted.
    pub fn pin_at(&mut self, shard: u32, slot: u32) -> Result<Option<CHeldEntry>, LookupError>
        requires { IsWhole self.old }
        ensures whole { IsWhole self.new }
        ensures pins { PinsAt shard slot result self.old self.new }
    {
        match self.cache.pin_at(&mut self.client, shard, slot)? {
            Some(held) => Ok(Some(CHeldEntry::of(self.cache_number, held))),
            None => Ok(None),
        }
    }

    /// One handle more on the very entry that a handle is on; none where the client holds no
    /// handle of these parts.
    pub fn reref(&mut self, c_handle: CHandle) -> Option<Result<CHandle, LookupError>>
        requires { IsWhole self.old }
        ensures whole { IsWhole self.new }
        ensures again { RefersAgain c_handle result self.old self.new }
    {
        let parts = self.parts(c_handle)?;
        let handle = self.client.handle(parts)?;
        match self.cache.reref(&mut self.client, handle) {
            Ok(more) => Some(Ok(CHandle::of(self.cache_number, more))),
            Err(why) => Some(Err(why)),
        }
    }

    /// Gives a handle back, as the cache does: whether an entry was freed. None where the client
    /// holds no handle of these parts.
    pub fn release(&mut self, c_handle: CHandle, useful: bool, erase_if_last: bool) -> Option<bool>
        requires { IsWhole self.old }
        ensures whole { IsWhole self.new }
        ensures released { GivesBack c_handle useful erase_if_last result self.old self.new }
    {
        let parts = self.parts(c_handle)?;
        self.cache
            .try_release(&mut self.client, parts, useful, erase_if_last)
    }

    /// The handle at an index, by its parts, if the client holds one there.
    pub fn handle_at(&self, index: usize) -> Option<CHandle>
        ensures { TellsHandle index result self.now }
    {
        let handle = self.client.handle_at(index)?;
        Some(CHandle::of(self.cache_number, handle))
    }

    /// Hides each visible entry of the key, as the cache does: how many it hid.
    pub fn erase(&mut self, key: Key) -> u32
        requires { IsWhole self.old }
        ensures whole { IsWhole self.new }
        ensures hides { Hides key result self.old self.new }
    {
        self.cache.erase(&mut self.client, key)
    }
}
