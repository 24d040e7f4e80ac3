//! A shard that no thread shares any more.
ghost use Rattle.std.specs.Prelude.{◌≡◌};
ghost use Rattle.std.specs.Slots.{slots_len, IsFull};
ghost use Rattle.hcc_rule.specs.Words.{word_count};

use crate::geometry::Geometry;
use atomic_table::Closed;
use std::alloc::Allocator;

/// The words of a shard that was closed. They change no more. Dropping it gives their memory back.
pub struct ClosedTable<A: Allocator> {
    pub(crate) closed: Closed<(), A>,
    pub(crate) geometry: Geometry,
    ghost full: { IsFull closed.words },
    ghost counted: { slots_len closed.words ≡ word_count geometry.slots geometry.room },
    ghost slotless: { slots_len closed.slots ≡ 0 },
}

impl<A: Allocator> ClosedTable<A> {
    /// The closed shard of these words.
    pub(crate) fn of(closed: Closed<(), A>, geometry: Geometry) -> ClosedTable<A>
        requires full { IsFull closed.words }
        requires counted { slots_len closed.words ≡ word_count geometry.slots geometry.room }
        requires slotless { slots_len closed.slots ≡ 0 }
        ensures closed { result.closed ≡ closed }
        ensures size { result.geometry ≡ geometry }
    {
        ClosedTable { closed, geometry }
    }

    /// The size of the shard. It costs a copy.
    pub fn geometry(&self) -> Geometry
        ensures { result ≡ self.now.geometry }
    {
        self.geometry
    }
}

impl<A: Allocator> Drop for ClosedTable<A> {
    fn drop(self) {
        let ClosedTable {
            closed,
            geometry: _,
        } = self;
        closed.free();
    }
}
