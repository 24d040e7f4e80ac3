//! What an eviction did.
ghost use Rattle.std.specs.Prelude.{◌≡◌, ◌+◌, ◌<◌, ◌^◌};
ghost use Rattle.hcc_charge.specs.Swept.{both, swept_of};

use hcc_table::ClockVisit;

/// What turns of the hand did.
#[derive(Clone, Copy, Debug, PartialEq, Eq)]
pub struct Swept {
    /// Turns of the hand.
    pub turns: u64,
    /// Entries that were freed: so many slots are the client's to settle.
    pub slots: u64,
    /// Their charges in sum, which are the client's to settle too.
    pub charge: u64,
    /// Those of them that a look-up had marked.
    pub hits: u64,
    /// Visits that found an entry with references.
    pub pinned: u64,
    /// Visits whose compare-exchange lost.
    pub lost: u64,
}

impl Swept {
    /// No turn was made.
    pub const NOTHING: Swept = Swept {
        turns: 0,
        slots: 0,
        charge: 0,
        hits: 0,
        pinned: 0,
        lost: 0,
    };

    /// A turn that visited nothing yet.
    pub(crate) const TURN: Swept = Swept {
        turns: 1,
        slots: 0,
        charge: 0,
        hits: 0,
        pinned: 0,
        lost: 0,
    };

    /// What one visit did.
    pub(crate) fn of(visit: ClockVisit) -> Swept
        ensures { result ≡ swept_of visit }
    {
        match visit {
            ClockVisit::Passed | ClockVisit::Counted => Swept::NOTHING,
            ClockVisit::Pinned => Swept {
                pinned: 1,
                ..Swept::NOTHING
            },
            ClockVisit::Lost => Swept {
                lost: 1,
                ..Swept::NOTHING
            },
            ClockVisit::Freed { charge, hit } => Swept {
                slots: 1,
                charge,
                hits: u64::from(hit),
                ..Swept::NOTHING
            },
        }
    }

    /// Both in sum.
    pub(crate) fn with(self, other: Swept) -> Swept
        requires turns { self.turns + other.turns < 2 ^ 64 }
        requires slots { self.slots + other.slots < 2 ^ 64 }
        requires charge { self.charge + other.charge < 2 ^ 64 }
        requires hits { self.hits + other.hits < 2 ^ 64 }
        requires pinned { self.pinned + other.pinned < 2 ^ 64 }
        requires lost { self.lost + other.lost < 2 ^ 64 }
        ensures { result ≡ both self other }
    {
        Swept {
            turns: self.turns + other.turns,
            slots: self.slots + other.slots,
            charge: self.charge + other.charge,
            hits: self.hits + other.hits,
            pinned: self.pinned + other.pinned,
            lost: self.lost + other.lost,
        }
    }
}
