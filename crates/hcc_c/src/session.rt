//! A client in the hands of C, with the cache that it works on.
ghost use Rattle.std.specs.Prelude.{◌≡◌, IfNone, IfSome};
ghost use Rattle.hcc_c.specs.Shapes.{parts_in};

use crate::shapes::{CHandle, Counts};
use hcc_cache::{AnyBytes, Cache, Client, HandleParts};
use std::alloc::Global;
use std::sync::Arc;

/// A client, with the cache that it works on.
#[derive(Drop)]
pub struct Session {
    pub(crate) cache: Arc<Cache<AnyBytes>, Global>,
    pub(crate) client: Client<AnyBytes>,
    /// The number of its cache, among those that are open.
    pub(crate) cache_number: u32,
    /// How many shards the cache has, and how many slots each of them.
    pub(crate) shards: u32,
    pub(crate) slots: u32,
    /// What its look-ups and insertions came to.
    pub(crate) counts: Counts,
}

impl Session {
    /// The parts of a handle of its cache; none where it is another cache's.
    pub(crate) fn parts(&self, c_handle: CHandle) -> Option<HandleParts>
        ensures some { IfSome result (λ parts. (parts ≡ parts_in c_handle)
            × (c_handle.cache ≡ self.now.cache_number)) }
        ensures none { IfNone result (¬ (c_handle.cache ≡ self.now.cache_number)) }
    {
        if c_handle.cache == self.cache_number {
            Some(c_handle.parts())
        } else {
            None
        }
    }
}
