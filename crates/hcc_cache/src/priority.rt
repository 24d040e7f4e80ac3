//! How long the clock keeps an entry that nobody looks up.
ghost use Rattle.std.specs.Prelude.{◌≡◌, ◌≤◌};
ghost use Rattle.hcc_core.specs.declared.limits.TheConstants.{MOST_COUNTDOWN};
ghost use Rattle.hcc_cache.specs.Priorities.{countdown_of};

/// How long the clock keeps a new entry that nobody looks up.
#[derive(Clone, Copy, Debug, PartialEq, Eq)]
pub enum Priority {
    /// Its countdown begins at 3.
    High,
    /// Its countdown begins at 2.
    Low,
    /// Its countdown begins at 1.
    Bottom,
}

impl Priority {
    /// The first countdown of an entry: how many visits of the clock it outlives.
    pub(crate) fn countdown(self) -> u32
        ensures exact { result ≡ countdown_of self }
        ensures within { (1 ≤ result) × (result ≤ MOST_COUNTDOWN) }
    {
        match self {
            Priority::High => 3,
            Priority::Low => 2,
            Priority::Bottom => 1,
        }
    }
}
