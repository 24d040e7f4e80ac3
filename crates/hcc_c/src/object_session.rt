//! A client of a cache of objects in the hands of C, with the cache that it works on.
ghost use Rattle.std.specs.Prelude.{IfNone, IfSome};
ghost use Rattle.hcc_c.specs.ObjectSessions.{IsHandle, IsNone};

use crate::shapes::{CHandle, Counts};
use hcc_cache::{Handle, ObjectCache, ObjectClient};
use std::alloc::Global;
use std::sync::Arc;

/// A client of a cache of objects, with the cache that it works on.
#[derive(Drop)]
pub struct ObjectSession {
    pub(crate) cache: Arc<ObjectCache, Global>,
    pub(crate) client: ObjectClient,
    /// The number of its cache, among those that are open.
    pub(crate) cache_number: u32,
    /// What its look-ups and insertions came to.
    pub(crate) counts: Counts,
}

impl ObjectSession {
    /// The handle of these numbers; none where the client holds no such handle.
    pub(crate) fn handle(&self, c_handle: CHandle) -> Option<Handle>
        ensures some { IfSome result (IsHandle self.now c_handle) }
        ensures none { IfNone result (IsNone self.now c_handle) }
    {
        if c_handle.cache == self.cache_number {
            self.client.client().handle(c_handle.parts())
        } else {
            None
        }
    }
}
