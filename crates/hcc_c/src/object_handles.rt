//! Handles on objects, which are given by their numbers, and given back; and objects that are
//! handed back.
ghost use Rattle.hcc_c.specs.ObjectCalls.{Charges, GivesBack, Hides, PinsAt, RefersAgain, TakesGone};
ghost use Rattle.hcc_c.specs.ObjectSessions.{IsWhole};

use crate::object_session::ObjectSession;
use crate::object_shapes::CHeldObject;
use crate::shapes::CHandle;
use hcc_cache::{HeldObject, Key, LookupError, Object};

impl ObjectSession {
    /// Looks for a visible entry of the key, as the cache does. The handle that it gives is named
    /// by its numbers, and the object and the charge are those of its entry.
    pub fn hold(&mut self, key: Key) -> Result<Option<CHeldObject>, LookupError>
        requires { IsWhole self.old }
        ensures whole { IsWhole self.new }
        ensures charges { Charges key result self.old self.new }
    {
        let Some((handle, object)) = self.cache.lookup(&mut self.client, key)? else {
            self.counts.miss();
            return Ok(None);
        };
        self.counts.hit();
        let charge = self.cache.charge(&mut self.client, handle);
        let held = HeldObject {
            handle,
            key,
            object,
            charge,
        };
        Ok(Some(CHeldObject::of(self.cache_number, held)))
    }

    /// Holds the entry of a slot of a shard, as the cache does; none where there is no such slot.
    pub fn pin_at(&mut self, shard: u32, slot: u32) -> Result<Option<CHeldObject>, LookupError>
        requires { IsWhole self.old }
        ensures whole { IsWhole self.new }
        ensures pins { PinsAt shard slot result self.old self.new }
    {
        match self.cache.pin_at(&mut self.client, shard, slot)? {
            Some(held) => Ok(Some(CHeldObject::of(self.cache_number, held))),
            None => Ok(None),
        }
    }

    /// One handle more on the very entry that a handle is on; none where the client holds no
    /// handle of these numbers.
    pub fn reref(&mut self, c_handle: CHandle) -> Option<Result<CHandle, LookupError>>
        requires { IsWhole self.old }
        ensures whole { IsWhole self.new }
        ensures again { RefersAgain c_handle result self.old self.new }
    {
        let handle = self.handle(c_handle)?;
        match self.cache.reref(&mut self.client, handle) {
            Ok(more) => Some(Ok(CHandle::of(self.cache_number, more))),
            Err(why) => Some(Err(why)),
        }
    }

    /// Gives a handle back, as the cache does: whether an entry was freed, whose object is on the
    /// client's list then. None where the client holds no handle of these numbers.
    pub fn release(&mut self, c_handle: CHandle, useful: bool, erase_if_last: bool) -> Option<bool>
        requires { IsWhole self.old }
        ensures whole { IsWhole self.new }
        ensures released { GivesBack c_handle useful erase_if_last result self.old self.new }
    {
        let handle = self.handle(c_handle)?;
        let client = &mut self.client;
        Some(self.cache.release(client, handle, useful, erase_if_last))
    }

    /// Hides each visible entry of the key, as the cache does: how many it hid. What it frees is on
    /// the client's list then.
    pub fn erase(&mut self, key: Key) -> u32
        requires { IsWhole self.old }
        ensures whole { IsWhole self.new }
        ensures hides { Hides key result self.old self.new }
    {
        self.cache.erase(&mut self.client, key)
    }

    /// Takes one object off the client's list, the newest, with the key of its insertion; none
    /// where nothing is on it.
    pub fn take_gone(&mut self) -> Option<(Key, Object)>
        requires { IsWhole self.old }
        ensures whole { IsWhole self.new }
        ensures takes { TakesGone result self.old self.new }
    {
        let gone = self.cache.take_gone(&mut self.client)?;
        Some(gone.take())
    }
}
