//! What one client knows, told to another.
ghost use Rattle.std.specs.Prelude.{◌≡◌};
ghost use Rattle.hcc_cache.specs.Alones.{AreAlone};
ghost use Rattle.hcc_cache.specs.Calls.{shard_in, Reads, TakesAtMost};
ghost use Rattle.hcc_cache.specs.Following.{Follows, IsWitnessIn, OnlyLoads, Tells};
ghost use Rattle.hcc_cache.specs.Known.{Knows};
ghost use Rattle.hcc_cache.specs.Since.{GoesOnAt};
ghost use Rattle.hcc_cache.specs.Stays.{Stays};

use crate::cache::Cache;
use crate::client::Client;
use crate::seeded::Seeded;
use hcc_rule::{Key, Tag};
use hcc_shard::ShardWitness;

/// What a client knew of the shard of a key when it gave this, for another client to follow. What
/// the giver had inserted there and knew to be shown, whoever follows it finds, unless somebody hid
/// or freed that since (`law_told`, with `laws::law_shown_since` and `laws::law_lookups`). It goes
/// from thread to thread as the program likes, and dropping it does no harm.
#[derive(Drop)]
pub struct Witness<T> {
    pub(crate) shard: usize,
    pub(crate) told: ShardWitness<Seeded<T>>,
}

impl<T: Tag> Cache<T> {
    /// A witness of all that the client knows of the key's shard. Nothing changes by it, and it is
    /// no step of the client.
    ///
    /// It refuses nothing and allocates nothing. It costs one load, whose word nobody looks at.
    pub fn witness(&self, client: &mut Client<T>, key: Key) -> Witness<T>
        requires { Knows self.now client.old }
        ensures same { client.new ≡ client.old }
        ensures witness { IsWitnessIn self.now result }
        ensures tells { Tells self.now key client.old result }
    {
        let shard = self.shard_number(self.key_to(client, key));
        let seat = &mut client.seats[shard];
        let told = self.shards[shard].witness(seat);
        Witness { shard, told }
    }

    /// Follows a witness that a client of this cache gave: what the client knows of the witness's
    /// shard goes on from all that its giver knew. Handles, and what the client knows of other
    /// shards, stay.
    ///
    /// It refuses nothing and allocates nothing. It costs two loads, of which one is a step.
    pub fn follow(&self, client: &mut Client<T>, witness: Witness<T>)
        requires known { Knows self.now client.old }
        requires witness { IsWitnessIn self.now witness }
        ensures known { Knows self.now client.new }
        ensures reads { Reads self.now client.old client.new }
        ensures stays { Stays self.now client.old client.new }
        ensures follows { Follows witness client.new }
        ensures loads { OnlyLoads self.now witness.shard client.old client.new }
        ensures standing { AreAlone client.old client.new }
        ensures steps { TakesAtMost 1 client.old client.new }
    {
        let Witness { shard, told } = witness;
        let seat = &mut client.seats[shard];
        self.shards[shard].follow(seat, told);
    }
}

/// What a client knows that followed a witness goes on from what its giver knew of the key's shard.
/// So what the giver knew to be shown there the client knows to be shown, unless it was taken away
/// in between (`laws::law_shown_since`).
pub fn law_told<T: Tag>()
    ensures { (cache : Cache T) (key : Key) (giver client : Client T) (witness : Witness T)
        → Tells cache key giver witness → Follows witness client
        → GoesOnAt (shard_in cache key) giver client }
{}
