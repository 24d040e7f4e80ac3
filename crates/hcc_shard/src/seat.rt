//! What a client has of a shard.
ghost use Rattle.std.specs.Prelude.{◌≡◌};
ghost use Rattle.hcc_shard.specs.Counted.{CountsNothing, stats_of};

use hcc_charge::Tally;
use hcc_rule::RuleSeat;
use hcc_table::Effort;

/// What the calls of one client did on a shard, in all. A count that has come to its end stays
/// there.
#[derive(Clone, Copy, Debug, PartialEq, Eq)]
pub struct Stats {
    /// Slots that look-ups, insertions and erasures visited for a key.
    pub probes: u64,
    /// How often an insertion met an entry of its key.
    pub boosts: u64,
    /// Entries that evictions freed.
    pub evicted: u64,
    /// Those of them that a look-up had marked.
    pub evicted_hit: u64,
    /// The charges of these entries in sum.
    pub freed: u64,
    /// Turns of the hand that evictions made.
    pub turns: u64,
    /// Corrections of counters that were made.
    pub corrections: u64,
    /// Compare-exchanges that lost.
    pub lost: u64,
}

/// The seat of a client at a shard, with the counts of its calls there.
#[derive(Drop)]
pub struct ShardSeat<T> {
    pub(crate) seat: RuleSeat<T>,
    pub(crate) client: u32,
    pub(crate) effort: Effort,
    pub(crate) tally: Tally,
    pub(crate) boosts: u64,
}

impl<T> ShardSeat<T> {
    /// The seat of a client, with all counts 0.
    pub(crate) fn new(seat: RuleSeat<T>, client: u32) -> ShardSeat<T>
        ensures seat { result.seat ≡ seat }
        ensures client { result.client ≡ client }
        ensures no_counts { CountsNothing result }
    {
        ShardSeat {
            seat,
            client,
            effort: Effort::NONE,
            tally: Tally::NONE,
            boosts: 0,
        }
    }

    /// The number of the client. It costs a copy.
    pub fn number(&self) -> u32
        ensures { result ≡ self.now.client }
    {
        self.client
    }

    /// What the client's calls did on the shard. It makes no atomic step, and costs a copy.
    pub fn stats(&self) -> Stats
        ensures { result ≡ stats_of self.now }
    {
        Stats {
            probes: self.effort.probes,
            boosts: self.boosts,
            evicted: self.tally.evicted,
            evicted_hit: self.tally.evicted_hit,
            freed: self.tally.freed,
            turns: self.tally.turns,
            corrections: self.effort.corrections,
            lost: self.effort.lost,
        }
    }
}
