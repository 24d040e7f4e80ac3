//! Totals of a cache, and words of its shards.
ghost use Rattle.std.specs.Prelude.{◌≡◌, ◌+◌, ◌-◌, ◌*◌, ◌/◌, ◌^◌, ◌<◌, ◌≤◌, true, ℕ, Some, length, slice_get};
ghost use Rattle.hcc_core.specs.declared.limits.TheConstants.{OCCUPANCY_PERCENT};
ghost use Rattle.hcc_rule.specs.Looked.{after_look, Backs};
ghost use Rattle.hcc_rule.specs.ToldTrails.{passed_held};
ghost use Rattle.hcc_shard.specs.Callers.{LoadsDisplacement, LoadsOccupancy, LoadsWord};
ghost use Rattle.hcc_shard.specs.Counted.{stats_of, LoadsUsage};
ghost use Rattle.hcc_shard.specs.declared.seat.ShardSeat.{ShardSeat};
ghost use Rattle.hcc_cache.specs.Alones.{AreAlone};
ghost use Rattle.hcc_cache.specs.declared.seeded.Seeded.{Seeded};
ghost use Rattle.hcc_cache.specs.Calls.{shard_in, AtShard, CountsNone, KeepsAll, OnlyAt, Reads, TakesAtMost, Works};
ghost use Rattle.hcc_cache.specs.Clients.{view_at};
ghost use Rattle.hcc_cache.specs.Known.{Knows};
ghost use Rattle.hcc_cache.specs.Stays.{Stays};
ghost use Rattle.hcc_cache.specs.Totals.{charge_by, charge_in, entries_by, made_by, no_stats, stats_over, stats_with, taken_by, CountsEach, CountsHeldAt, LoadsEachOccupancy, LoadsEachUsage, LoadsUsages, SearchesAll};
ghost use Rattle.hcc_rule.specs.ToldLedgers.{after_usage};
ghost use Rattle.hcc_rule.specs.Records.{different};
ghost use Rattle.hcc_table.specs.Searched.{Sought};

use crate::cache::Cache;
use crate::client::Client;
use hcc_rule::{Key, Tag};
use hcc_shard::Stats;

impl<T: Tag> Cache<T> {
    /// What is charged in all shards: the sum of their usage words, each loaded once, in turn, and
    /// counted as at most the shard's capacity where that is strict. It is at least the charges of
    /// the different entries that the client holds, with its standalone ones; in a cache of one
    /// client it is exact (`laws::law_totals`). A sum above 2^64 - 1 is 2^64 - 1.
    ///
    /// It refuses nothing and allocates nothing. It costs a load for each shard.
    pub fn usage(&self, client: &mut Client<T>) -> u64
        requires { Knows self.now client.old }
        ensures known { Knows self.now client.new }
        ensures keeps { KeepsAll self.now client.old client.new }
        ensures views { LoadsUsages client.old client.new }
        ensures loads { LoadsEachUsage self.now result client.old client.new }
        ensures entries { charge_by client.old ≤ result }
        ensures strict { self.now.strict ≡ true
            → result ≤ length self.now.shards.items * self.now.capacity }
        ensures counts { CountsNone client.old client.new }
        ensures standing { AreAlone client.old client.new }
        ensures steps { TakesAtMost (length self.now.shards.items) client.old client.new }
    {
        let mut sum: u64 = 0;
        for shard in 0..self.shards.len() {
            sum = sum.saturating_add(self.usage_at(client, shard));
        }
        sum
    }

    /// The same, at one shard.
    fn usage_at(&self, client: &mut Client<T>, shard: usize) -> u64
        requires known { Knows self.now client.old }
        requires within { shard < length self.now.shards.items }
        ensures known { Knows self.now client.new }
        ensures keeps { KeepsAll self.now client.old client.new }
        ensures view { (used : ℕ) × Works shard client.old client.new (view_at shard client.old)
            (after_usage used (view_at shard client.old)) }
        ensures entries { charge_in (view_at shard client.old) ≤ result }
        ensures strict { self.now.strict ≡ true → result ≤ self.now.capacity }
        ensures counts { CountsNone client.old client.new }
        ensures loads { AtShard self.now (λ at was is. LoadsUsage at result was is) shard
            client.old client.new }
        ensures others { OnlyAt shard client.old client.new }
        ensures standing { AreAlone client.old client.new }
        ensures steps { TakesAtMost 1 client.old client.new }
    {
        let seat = &mut client.seats[shard];
        self.shards[shard].usage(seat)
    }

    /// What is charged for entries that are held and for standalone ones, in all shards, one after
    /// the other. It is at least the charges of the different entries that the client holds; in a
    /// cache of one client it is these. Above 2^64 - 1 it says that.
    ///
    /// It refuses nothing and allocates nothing. It costs a load for each shard and for each slot;
    /// where that finds an entry held an add, a load and a subtraction more.
    pub fn pinned_usage(&self, client: &mut Client<T>) -> u64
        requires { Knows self.now client.old }
        ensures known { Knows self.now client.new }
        ensures keeps { KeepsAll self.now client.old client.new }
        ensures views { SearchesAll client.old client.new }
        ensures entries { charge_by client.old ≤ result }
        ensures alone { self.now.geometry.clients ≡ 1
            → result ≡ charge_by client.old }
        ensures loads { CountsEach self.now T.fits result client.old client.new }
        ensures stays { Stays self.now client.old client.new }
        ensures standing { AreAlone client.old client.new }
        ensures steps { TakesAtMost
            (length self.now.shards.items * (5 * self.now.geometry.slots + 1))
            client.old client.new }
    {
        let mut sum: u64 = 0;
        for shard in 0..self.shards.len() {
            sum = sum.saturating_add(self.pinned_at(client, shard));
        }
        sum
    }

    /// The same, at one shard.
    fn pinned_at(&self, client: &mut Client<T>, shard: usize) -> u64
        requires known { Knows self.now client.old }
        requires within { shard < length self.now.shards.items }
        ensures known { Knows self.now client.new }
        ensures keeps { KeepsAll self.now client.old client.new }
        ensures view { Works shard client.old client.new (view_at shard client.old)
            (view_at shard client.new) }
        ensures sought { Sought (view_at shard client.old) (view_at shard client.new) }
        ensures entries { charge_in (view_at shard client.old) ≤ result }
        ensures alone { self.now.geometry.clients ≡ 1
            → result ≡ charge_in (view_at shard client.old) }
        ensures loads { AtShard self.now (λ at was is. CountsHeldAt T.fits at result was is)
            shard client.old client.new }
        ensures stays { Stays self.now client.old client.new }
        ensures others { OnlyAt shard client.old client.new }
        ensures standing { AreAlone client.old client.new }
        ensures steps { TakesAtMost (5 * self.now.geometry.slots + 1) client.old client.new }
    {
        let seat = &mut client.seats[shard];
        self.shards[shard].pinned_usage(seat)
    }

    /// How many entries all shards have, with the places and the freed slots that other clients
    /// have in hand: the sum of their occupancy words, each loaded once, in turn. It is at least
    /// the different entries that the client holds, and at most 84 of 100 slots of each shard, with
    /// one more there for each client. In a cache of one client it is exact: those that it made,
    /// less those that it took.
    ///
    /// It refuses nothing and allocates nothing. It costs a load for each shard.
    pub fn occupancy(&self, client: &mut Client<T>) -> u64
        requires { Knows self.now client.old }
        ensures known { Knows self.now client.new }
        ensures reads { Reads self.now client.old client.new }
        ensures entries { entries_by client.old ≤ result }
        ensures alone { self.now.geometry.clients ≡ 1
            → result + taken_by client.old ≡ made_by client.old }
        ensures high { result ≤ length self.now.shards.items
            * (self.now.geometry.slots * OCCUPANCY_PERCENT / 100 + self.now.geometry.clients) }
        ensures loads { LoadsEachOccupancy self.now result client.old client.new }
        ensures standing { AreAlone client.old client.new }
        ensures steps { TakesAtMost (length self.now.shards.items) client.old client.new }
    {
        let mut sum: u64 = 0;
        for shard in 0..self.shards.len() {
            sum += self.occupancy_at(client, shard);
        }
        sum
    }

    /// The same, at one shard.
    fn occupancy_at(&self, client: &mut Client<T>, shard: usize) -> u64
        requires known { Knows self.now client.old }
        requires within { shard < length self.now.shards.items }
        ensures known { Knows self.now client.new }
        ensures reads { Reads self.now client.old client.new }
        ensures entries { length (different (view_at shard client.old).records) ≤ result }
        ensures low { result < 2 ^ 33 }
        ensures high { result ≤ self.now.geometry.slots * OCCUPANCY_PERCENT / 100
            + self.now.geometry.clients }
        ensures alone { self.now.geometry.clients ≡ 1
            → result + (view_at shard client.old).takings
            ≡ length (view_at shard client.old).made }
        ensures loads { AtShard self.now (λ at was is. LoadsOccupancy at result was is) shard
            client.old client.new }
        ensures others { OnlyAt shard client.old client.new }
        ensures standing { AreAlone client.old client.new }
        ensures steps { TakesAtMost 1 client.old client.new }
    {
        let seat = &mut client.seats[shard];
        self.shards[shard].occupancy(seat)
    }

    /// The meta word of a slot of a shard, as one load found it.
    ///
    /// Where the client holds references on the slot, the word is that of an entry with at least
    /// these. Both numbers are in range. It refuses nothing and allocates nothing. It costs one
    /// load.
    pub fn word(&self, client: &mut Client<T>, shard: u32, slot: u32) -> u64
        requires known { Knows self.now client.old }
        requires shard { shard < length self.now.shards.items }
        requires slot { slot < self.now.geometry.slots }
        ensures known { Knows self.now client.new }
        ensures keeps { KeepsAll self.now client.old client.new }
        ensures view { Works shard client.old client.new (view_at shard client.old)
            (after_look slot result (view_at shard client.old)) }
        ensures backs { Backs slot result (view_at shard client.old) }
        ensures loads { AtShard self.now (λ at was is. LoadsWord at slot result was is) shard
            client.old client.new }
        ensures stays { Stays self.now client.old client.new }
        ensures counts { CountsNone client.old client.new }
        ensures steps { TakesAtMost 1 client.old client.new }
    {
        let shard = shard as usize;
        let seat = &mut client.seats[shard];
        self.shards[shard].word(seat, slot)
    }

    /// How often a slot of a shard stands in the trails of entries and of clients, as one load
    /// found it: at least the number of entries that the client holds, each once, whose trail has
    /// the slot.
    ///
    /// Both numbers are in range. It refuses nothing and allocates nothing. It costs one load.
    pub fn displacement(&self, client: &mut Client<T>, shard: u32, slot: u32) -> u64
        requires known { Knows self.now client.old }
        requires shard { shard < length self.now.shards.items }
        requires slot { slot < self.now.geometry.slots }
        ensures known { Knows self.now client.new }
        ensures reads { Reads self.now client.old client.new }
        ensures entries { passed_held self.now.geometry.slots slot
            (view_at shard client.old).records ≤ result }
        ensures loads { AtShard self.now (λ at was is. LoadsDisplacement at slot result was is)
            shard
            client.old client.new }
        ensures stays { Stays self.now client.old client.new }
        ensures steps { TakesAtMost 1 client.old client.new }
    {
        let shard = shard as usize;
        let seat = &mut client.seats[shard];
        self.shards[shard].displacement(seat, slot)
    }

    /// What a client's calls did on the shard where a key belongs.
    ///
    /// It refuses nothing, allocates nothing and makes no atomic step. It costs what finding the
    /// key's shard costs.
    pub fn stats_at(&self, client: &Client<T>, key: Key) -> Stats
        requires { Knows self.now client.now }
        ensures { (seat : ShardSeat (Seeded T))
            × (slice_get client.now.seats.items (shard_in self.now key) ≡ Some seat)
            × (result ≡ stats_of seat) }
    {
        let shard = self.shard_number(self.key_to(client, key));
        client.seats[shard].stats()
    }
}

impl<T> Client<T> {
    /// What its calls did on all shards. It makes no atomic step. It costs a few additions for each
    /// shard.
    pub fn stats(&self) -> Stats
        ensures { result ≡ stats_over no_stats self.now.seats.items }
    {
        let mut sum = NO_STATS;
        for seat in &self.seats {
            sum = with_stats(sum, seat.stats());
        }
        sum
    }
}

/// Counts of no shard.
const NO_STATS: Stats = Stats {
    probes: 0,
    boosts: 0,
    evicted: 0,
    evicted_hit: 0,
    freed: 0,
    turns: 0,
    corrections: 0,
    lost: 0,
};

/// The counts of two shards.
fn with_stats(a: Stats, b: Stats) -> Stats
    ensures { result ≡ stats_with a b }
{
    Stats {
        probes: a.probes.saturating_add(b.probes),
        boosts: a.boosts.saturating_add(b.boosts),
        evicted: a.evicted.saturating_add(b.evicted),
        evicted_hit: a.evicted_hit.saturating_add(b.evicted_hit),
        freed: a.freed.saturating_add(b.freed),
        turns: a.turns.saturating_add(b.turns),
        corrections: a.corrections.saturating_add(b.corrections),
        lost: a.lost.saturating_add(b.lost),
    }
}
