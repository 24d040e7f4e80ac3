//! Insertions, whose charge and length are judged first.
ghost use Rattle.std.specs.Prelude.{◌≡◌};
ghost use Rattle.hcc_c.specs.Calls.{Puts, PutsPinned};
ghost use Rattle.hcc_c.specs.Sessions.{IsWhole, judged};

use crate::session::Session;
use crate::shapes::CHandle;
use hcc_cache::{CopyError, InsertError, Inserted, Key, Priority};
use std::alloc::Global;

/// Why the cache isn't asked to insert a value.
#[derive(Clone, Copy, Debug, PartialEq, Eq)]
pub enum Unfit {
    /// The charge is 0.
    NoCharge,
    /// The value has more bytes than a slot has room for.
    TooLong,
}

impl Session {
    /// Inserts an entry of this key, value and charge, as the cache does, and keeps no handle on
    /// it. A charge of 0 and then a value that is too long are refused first.
    pub fn insert(
        &mut self,
        key: Key,
        value: &[u8],
        charge: u32,
        priority: Priority,
    ) -> Result<Result<Inserted, InsertError>, Unfit>
        requires { IsWhole self.old }
        ensures whole { IsWhole self.new }
        ensures puts { Puts key charge priority value.now result self.old self.new }
    {
        judge(self.cache.room(), value.len(), charge)?;
        let answer = self
            .cache
            .insert(&mut self.client, key, value, charge, priority);
        self.counts.insert(answer);
        Ok(answer)
    }

    /// The same with a handle on what was inserted, which is given by its numbers. The value is
    /// copied where it comes to stand alone.
    pub fn insert_copied(
        &mut self,
        alloc: Global,
        key: Key,
        value: &[u8],
        charge: u32,
        priority: Priority,
    ) -> Result<Result<(CHandle, Inserted), CopyError>, Unfit>
        requires { IsWhole self.old }
        ensures whole { IsWhole self.new }
        ensures puts { PutsPinned key charge priority value.now result self.old self.new }
    {
        judge(self.cache.room(), value.len(), charge)?;
        let answer = self
            .cache
            .insert_pinned_copy(alloc, &mut self.client, key, value, charge, priority);
        let told = match answer {
            Ok((handle, inserted)) => Ok((CHandle::of(self.cache_number, handle), inserted)),
            Err(why) => Err(why),
        };
        self.counts.insert_pinned(told);
        Ok(told)
    }
}

/// Whether the cache may be asked to insert a value of so many bytes.
fn judge(room: usize, len: usize, charge: u32) -> Result<(), Unfit>
    ensures { result ≡ judged room len charge }
{
    if charge == 0 {
        return Err(Unfit::NoCharge);
    }
    if len <= room {
        Ok(())
    } else {
        Err(Unfit::TooLong)
    }
}
