//! The cache that threads share.
ghost use Rattle.std.specs.Prelude.{◌≡◌, ◌*◌};
ghost use Rattle.hcc_rule.specs.Seats.{IsPlanned};

use crate::seeded::Seeded;
use hcc_rule::{Geometry, Tag};
use hcc_shard::Shard;
use std::alloc::Global;

/// A block cache. Threads share it by reference, and each works through a client of its own.
#[derive(Drop)]
pub struct Cache<T: Tag> {
    pub(crate) tag: T,
    pub(crate) seed: u64,
    /// The size of each shard, its capacity, and whether it is strict.
    pub(crate) geometry: Geometry,
    pub(crate) capacity: u64,
    pub(crate) strict: bool,
    pub(crate) shards: Vec<Shard<Seeded<T>, Global>>,
    ghost limits: { IsPlanned geometry capacity },
}

impl<T: Tag> Cache<T> {
    /// The most bytes of a value. It makes no atomic step, and costs a multiplication.
    pub fn room(&self) -> usize
        ensures { result ≡ 8 * self.now.geometry.room }
    {
        8 * self.geometry.room as usize
    }
}
