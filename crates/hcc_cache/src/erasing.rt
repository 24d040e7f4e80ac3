//! Erasures.
ghost use Rattle.std.specs.Prelude.{◌≡◌, ◌+◌, ◌-◌, ◌*◌};
ghost use Rattle.hcc_table.specs.Lists.{has_room};
ghost use Rattle.hcc_table.specs.Steps.{freeing};
ghost use Rattle.hcc_cache.specs.Calls.{CountsAt, Erases, ErasesFor, ErasesListed, HandsAt, TakesAtMost, TakesFor, shard_in};
ghost use Rattle.hcc_cache.specs.Known.{Knows};

use crate::cache::Cache;
use crate::client::Client;
use crate::seeded::Seeded;
use hcc_rule::{Key, Tag};
use hcc_table::{FreedList, NoList};

impl<T: Tag> Cache<T> {
    /// Hides each visible entry of the key: look-ups find none of them from then on. Those on which
    /// there is no handle, this client's neither, are freed, where the one compare-exchange for it
    /// wins. It returns how many were hidden. Each slot that was visited and found visible with the
    /// key was hidden, and the search ended as a miss does. In a cache of one client it hides just
    /// what is shown of the key (`laws::law_erasures`).
    ///
    /// Each entry of the key that the client holds has been seen dead afterwards, and so has each
    /// that it hid, held or not: no look-up of this client finds that one again. Its handles show
    /// what they showed. It refuses nothing and allocates nothing. Each probe costs what it costs a
    /// look-up; each match an atomic and, a compare-exchange where nobody holds the entry, and the
    /// freeing where that wins, else a subtraction. Two subtractions follow where any was freed.
    pub fn erase(&self, client: &mut Client<T>, key: Key) -> u32
        requires { Knows self.now client.old }
        ensures known { Knows self.now client.new }
        ensures erased { Erases self.now key result client.old client.new }
        ensures searched { ErasesFor self.now T.fits key result client.old client.new }
        ensures counts { CountsAt (shard_in self.now key) client.old client.new }
        ensures frees { TakesFor self.now 9
            (λ v w. (self.now.geometry.slots + 4) * (w.takings - v.takings) + 2)
            (shard_in self.now key) client.old client.new }
        ensures steps { TakesAtMost
            ((freeing self.now.geometry.slots + 9) * self.now.geometry.slots + 2)
            client.old client.new }
    {
        self.erase_listed(client, key, &mut NoList)
    }

    /// The same, and puts what it frees on a list, where that has room; else it leaves the freeing
    /// to the clock.
    pub(crate) fn erase_listed<L: FreedList<Seeded<T>>>(
        &self,
        client: &mut Client<T>,
        key: Key,
        list: &mut L,
    ) -> u32
        requires { Knows self.now client.old }
        ensures known { Knows self.now client.new }
        ensures erased { Erases self.now key result client.old client.new }
        ensures list { HandsAt self.now (L.shelf list.old) (L.shelf list.new)
            (shard_in self.now key) client.old client.new }
        ensures searched { ErasesListed self.now T.fits key (has_room 1 (L.shelf list.new)) result
            client.old client.new }
        ensures counts { CountsAt (shard_in self.now key) client.old client.new }
        ensures frees { TakesFor self.now 9
            (λ v w. (self.now.geometry.slots + 4 + L.loads) * (w.takings - v.takings) + 2)
            (shard_in self.now key) client.old client.new }
        ensures steps { TakesAtMost
            ((freeing self.now.geometry.slots + L.loads + 9) * self.now.geometry.slots + 2)
            client.old client.new }
        ensures rest { client.new ≡ record client.old { seats = client.new.seats } }
    {
        let seeded = self.key_to(client, key);
        let shard = self.shard_number(seeded);
        let seat = &mut client.seats[shard];
        self.shards[shard].erase(seat, seeded.in_shard, list)
    }
}
