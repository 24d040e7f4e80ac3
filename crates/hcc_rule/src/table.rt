//! The table of a shard.
ghost use Rattle.std.specs.Prelude.{◌≡◌, ◌+◌};
ghost use Rattle.hcc_rule.specs.declared.layout.TheConstants.{SLOT_HEAD};
ghost use Rattle.hcc_rule.specs.Seats.{IsPlanned};
ghost use Rattle.hcc_rule.specs.Words.{word_count};

use crate::geometry::Geometry;
use crate::key::Tag;
use crate::view::Logged;
use crate::words::Words;
use atomic_table::Seat;
use std::alloc::Allocator;

/// The words of a shard, which change only by the steps of its seats.
#[derive(Drop)]
pub struct RuleTable<T: Tag, A: Allocator> {
    pub(crate) words: Words<T, A>,
    pub(crate) geometry: Geometry,
    /// How many words a slot has.
    pub(crate) stride: usize,
    pub(crate) capacity: u64,
    pub(crate) strict: bool,
    ghost sized: { words.table.shared.table_id.words ≡ word_count geometry.slots geometry.room },
    ghost strided: { stride ≡ geometry.room + SLOT_HEAD },
    ghost slotless: { words.table.shared.table_id.slots ≡ 0 },
    ghost planned: { (words.table.shared.key.geometry ≡ geometry)
        × (words.table.shared.key.capacity ≡ capacity) × (words.table.shared.key.strict ≡ strict) },
    ghost limits: { IsPlanned geometry capacity },
}

/// What one client knows of a shard, and which atomic steps it made there. It has no bytes.
pub type RuleSeat<T> = Seat<(), Logged<T>>;

impl<T: Tag, A: Allocator> RuleTable<T, A> {
    /// The size of the shard. It costs a copy.
    pub fn geometry(&self) -> Geometry
        ensures { result ≡ self.now.geometry }
    {
        self.geometry
    }

    /// How much charge the shard's entries may have. It costs a copy.
    pub fn capacity(&self) -> u64
        ensures { result ≡ self.now.capacity }
    {
        self.capacity
    }

    /// Whether the capacity is kept at every moment. It costs a copy.
    pub fn strict(&self) -> bool
        ensures { result ≡ self.now.strict }
    {
        self.strict
    }
}
