//! Insertions of objects, whose charge is judged first.
ghost use Rattle.std.specs.Prelude.{◌≡◌};
ghost use Rattle.hcc_c.specs.ObjectCalls.{Puts, PutsPinned};
ghost use Rattle.hcc_c.specs.ObjectSessions.{IsWhole, judged};

use crate::inserting::Unfit;
use crate::object_session::ObjectSession;
use crate::shapes::CHandle;
use hcc_cache::{Key, Object, ObjectError, Placing, Priority};

impl ObjectSession {
    /// Inserts an object under this key with this charge, as the cache does, and keeps no handle on
    /// it. A charge of 0 is refused first.
    pub fn insert(
        &mut self,
        key: Key,
        object: Object,
        charge: u32,
        priority: Priority,
    ) -> Result<Result<Placing, ObjectError>, Unfit>
        requires { IsWhole self.old }
        ensures whole { IsWhole self.new }
        ensures puts { Puts key object charge priority result self.old self.new }
    {
        judge(charge)?;
        let client = &mut self.client;
        let answer = self.cache.insert(client, key, object, charge, priority);
        self.counts.put(answer);
        Ok(answer)
    }

    /// The same with a handle on what was inserted, which is given by its numbers.
    pub fn insert_pinned(
        &mut self,
        key: Key,
        object: Object,
        charge: u32,
        priority: Priority,
    ) -> Result<Result<(CHandle, Placing), ObjectError>, Unfit>
        requires { IsWhole self.old }
        ensures whole { IsWhole self.new }
        ensures puts { PutsPinned key object charge priority result self.old self.new }
    {
        judge(charge)?;
        let client = &mut self.client;
        let answer = self
            .cache
            .insert_pinned(client, key, object, charge, priority);
        let told = match answer {
            Ok((handle, placing)) => Ok((CHandle::of(self.cache_number, handle), placing)),
            Err(why) => Err(why),
        };
        self.counts.put_pinned(told);
        Ok(told)
    }
}

/// Whether the cache may be asked to insert something of this charge.
fn judge(charge: u32) -> Result<(), Unfit>
    ensures { result ≡ judged charge }
{
    if charge == 0 {
        Err(Unfit::NoCharge)
    } else {
        Ok(())
    }
}
