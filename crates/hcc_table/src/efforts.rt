//! Counts of what calls took.
ghost use Rattle.std.specs.Prelude.{◌≡◌};
ghost use Rattle.hcc_table.specs.Rises.{Rose};

/// What calls took, for statistics. A count that has come to its end stays there.
#[derive(Clone, Copy, Debug, PartialEq, Eq)]
pub struct Effort {
    /// Slots that calls visited for a key: in a call each once, with the one where it ended.
    pub probes: u64,
    /// Corrections of counters that were made.
    pub corrections: u64,
    /// Compare-exchanges that lost: of the clock, to free an entry, and of corrections.
    pub lost: u64,
}

impl Effort {
    /// Nothing was counted.
    pub const NONE: Effort = Effort {
        probes: 0,
        corrections: 0,
        lost: 0,
    };

    /// So many slots were visited.
    #[inline(always)]
    pub(crate) fn probes(&mut self, slots: u64)
        ensures probes { Rose slots slots self.old.probes self.new.probes }
        ensures corrections { self.new.corrections ≡ self.old.corrections }
        ensures lost { self.new.lost ≡ self.old.lost }
    {
        self.probes = self.probes.saturating_add(slots);
    }

    /// A correction was made.
    pub(crate) fn correct(&mut self)
        ensures corrections { Rose 1 1 self.old.corrections self.new.corrections }
        ensures probes { self.new.probes ≡ self.old.probes }
        ensures lost { self.new.lost ≡ self.old.lost }
    {
        self.corrections = self.corrections.saturating_add(1);
    }

    /// A compare-exchange lost.
    pub(crate) fn lose(&mut self)
        ensures lost { Rose 1 1 self.old.lost self.new.lost }
        ensures probes { self.new.probes ≡ self.old.probes }
        ensures corrections { self.new.corrections ≡ self.old.corrections }
    {
        self.lost = self.lost.saturating_add(1);
    }
}
