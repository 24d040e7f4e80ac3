//! What is left of a closed cache, in sums.
ghost use Rattle.std.specs.Prelude.{◌≡◌};
ghost use Rattle.hcc_player.specs.Sums.{AreSumsOf};

use hcc_cache::Closed;

/// What the slots of a closed cache say in sum, and what its ledger words say.
#[derive(Clone, Copy, Debug, PartialEq, Eq)]
pub(crate) struct Sums {
    /// The charges of the entries, slot by slot.
    pub(crate) charges: u64,
    /// What the occupancy words say.
    pub(crate) occupied: u64,
    /// How many slots have an entry.
    pub(crate) slots: u64,
    /// What the usage words say.
    pub(crate) usage: u64,
}

/// The sums of a closed cache: each is read of its own words.
pub(crate) fn sums_of(closed: &Closed) -> Sums
    ensures read { AreSumsOf closed.now result }
    ensures charged { result.charges ≡ result.usage }
    ensures occupies { result.slots ≡ result.occupied }
{
    Sums {
        charges: closed.slot_charges(),
        occupied: closed.occupied(),
        slots: closed.slot_count(),
        usage: closed.usage(),
    }
}
