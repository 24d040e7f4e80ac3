//! What a client's evictions did in all.
ghost use Rattle.hcc_charge.specs.Swept.{Tallied};

use crate::swept::Swept;

/// What a client's evictions did in all, for statistics. A count that has come to its end stays
/// there. Compare-exchanges that lost are counted by `hcc_table`'s `Effort`.
#[derive(Clone, Copy, Debug, PartialEq, Eq)]
pub struct Tally {
    /// Turns of the hand.
    pub turns: u64,
    /// Entries that were freed.
    pub evicted: u64,
    /// Those of them that a look-up had marked.
    pub evicted_hit: u64,
    /// Their charges in sum.
    pub freed: u64,
}

impl Tally {
    /// No eviction yet.
    pub const NONE: Tally = Tally {
        turns: 0,
        evicted: 0,
        evicted_hit: 0,
        freed: 0,
    };

    /// An eviction more.
    pub(crate) fn add(&mut self, swept: Swept)
        ensures { Tallied swept self.old self.new }
    {
        self.turns = self.turns.saturating_add(swept.turns);
        self.evicted = self.evicted.saturating_add(swept.slots);
        self.evicted_hit = self.evicted_hit.saturating_add(swept.hits);
        self.freed = self.freed.saturating_add(swept.charge);
    }
}
