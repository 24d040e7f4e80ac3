//! What one client of a cache of objects knows, told to another.
ghost use Rattle.std.specs.Prelude.{◌≡◌};
ghost use Rattle.hcc_cache.specs.Calls.{Reads, TakesAtMost};
ghost use Rattle.hcc_cache.specs.Following.{Follows, IsWitnessIn, OnlyLoads, Tells};
ghost use Rattle.hcc_cache.specs.Objects.{KnowsObjects};
ghost use Rattle.hcc_cache.specs.Stays.{Stays};

use crate::following::Witness;
use crate::gone::Objects;
use crate::object_cache::{ObjectCache, ObjectClient};
use hcc_rule::Key;

impl ObjectCache {
    /// A witness of all that the client knows of the key's shard, as `Cache::witness` gives it.
    pub fn witness(&self, client: &mut ObjectClient, key: Key) -> Witness<Objects>
        requires { KnowsObjects self.now client.old }
        ensures same { client.new ≡ client.old }
        ensures witness { IsWitnessIn self.now.cache result }
        ensures tells { Tells self.now.cache key client.old.client result }
    {
        self.cache.witness(&mut client.client, key)
    }

    /// Follows a witness that a client of this cache gave, as `Cache::follow` does.
    pub fn follow(&self, client: &mut ObjectClient, witness: Witness<Objects>)
        requires known { KnowsObjects self.now client.old }
        requires witness { IsWitnessIn self.now.cache witness }
        ensures known { KnowsObjects self.now client.new }
        ensures reads { Reads self.now.cache client.old.client client.new.client }
        ensures stays { Stays self.now.cache client.old.client client.new.client }
        ensures follows { Follows witness client.new.client }
        ensures loads { OnlyLoads self.now.cache witness.shard client.old.client client.new.client }
        ensures list { client.new.gone ≡ client.old.gone }
        ensures steps { TakesAtMost 1 client.old.client client.new.client }
    {
        self.cache.follow(&mut client.client, witness);
    }
}
