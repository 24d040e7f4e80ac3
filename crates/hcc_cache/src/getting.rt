//! Values that are read by their keys, with no handle.
ghost use Rattle.std.specs.Prelude.{◌≡◌, ◌+◌, ◌*◌, ◌<◌, length};
ghost use Rattle.hcc_cache.specs.Calls.{CountsAt, KeepsAll, TakesFor, shard_in};
ghost use Rattle.hcc_cache.specs.Gets.{GetsAt, GetsFor, SeeksAt};
ghost use Rattle.hcc_cache.specs.Keys.{key_from};
ghost use Rattle.hcc_cache.specs.Known.{Knows};
ghost use Rattle.hcc_cache.specs.Sharding.{key_to};
ghost use Rattle.hcc_cache.specs.Stays.{Stays};

use crate::cache::Cache;
use crate::client::Client;
use crate::seeded::SeededKey;
use hcc_rule::{Key, Tag};
use hcc_shard::Got;
use hcc_table::Use;

impl<T: Tag> Cache<T> {
    /// Copies the value of a visible entry of the key to the front of a buffer, where that has room
    /// for it, and returns how many bytes it has: what a look-up, a reading and a release do
    /// together, in one call and with no handle. The rest of the buffer stays, and all of it where
    /// nothing is copied.
    ///
    /// It finds what a look-up would: an entry that the client hadn't seen erased, with a value
    /// that fits the key. First it reads by loads alone, and changes no word of the shard, so that
    /// threads that read one key don't take each other's cache lines. It does so where the entry's
    /// uses are 3 and more (one more is one that the clock can't see, since a visit leaves at most
    /// 2) or the caller says that the read is no use, where the cache doesn't mark or the hit bit
    /// is set, and where the value has at most 256 bytes. Else, and where the entry goes meanwhile,
    /// it begins anew: it holds the entry for the time of the call, and gives the reference back,
    /// as a use where that is useful.
    ///
    /// It uses no serial, and needs no handle to be free. The client's handles stand for what they
    /// stood for. It frees nothing: an entry that was erased meanwhile, and that nobody holds then,
    /// stays until the clock comes by.
    ///
    /// It refuses nothing and allocates nothing. By loads alone each probe costs one and one of the
    /// displacement word, and where the slot is visible one of half the key; a hit costs eight
    /// more, and one for each eight bytes. By a reference it costs a look-up, a load for the
    /// length, one for each eight bytes, and an add or a subtraction. Both ways together make at
    /// most 11·L + 2·W + 8 steps, for L slots of a shard and values of W words. Where the loads
    /// alone were given up their probes aren't counted.
    #[inline]
    pub fn get(&self, client: &mut Client<T>, key: Key, buffer: &mut [u8], useful: bool) -> Got
        requires { Knows self.now client.old }
        ensures known { Knows self.now client.new }
        ensures keeps { KeepsAll self.now client.old client.new }
        ensures seeks { SeeksAt (shard_in self.now key) client.old client.new }
        ensures got { GetsFor self.now T.fits key result buffer.old buffer.new
            client.old client.new }
        ensures gets { GetsAt self.now T.fits key useful result buffer.old buffer.new
            client.old client.new }
        ensures stays { Stays self.now client.old client.new }
        ensures counts { CountsAt (shard_in self.now key) client.old client.new }
        ensures steps { TakesFor self.now 7
            (λ v w. 4 * self.now.geometry.slots + (2 * self.now.geometry.room + 8))
            (shard_in self.now key) client.old client.new }
    {
        let seeded = self.key_to(client, key);
        if self.shards.len() == 1 {
            // The only shard's place doesn't wait for the seeded key.
            return self.get_at(client, key, seeded, 0, buffer, useful);
        }
        let shard = self.shard_number(seeded);
        self.get_at(client, key, seeded, shard, buffer, useful)
    }

    /// The same, once it is known which shard the key is in, and how it is seeded.
    #[inline(always)]
    fn get_at(
        &self,
        client: &mut Client<T>,
        key: Key,
        seeded: SeededKey,
        shard: usize,
        buffer: &mut [u8],
        useful: bool,
    ) -> Got
        requires known { Knows self.now client.old }
        requires words { seeded.in_shard ≡ key_to self.now.seed key }
        requires undone { key_from self.now.seed seeded.in_shard ≡ key }
        requires there { shard ≡ shard_in self.now key }
        requires inside { shard < length self.now.shards.items }
        ensures known { Knows self.now client.new }
        ensures keeps { KeepsAll self.now client.old client.new }
        ensures seeks { SeeksAt (shard_in self.now key) client.old client.new }
        ensures got { GetsFor self.now T.fits key result buffer.old buffer.new
            client.old client.new }
        ensures gets { GetsAt self.now T.fits key useful result buffer.old buffer.new
            client.old client.new }
        ensures stays { Stays self.now client.old client.new }
        ensures counts { CountsAt (shard_in self.now key) client.old client.new }
        ensures steps { TakesFor self.now 7
            (λ v w. 4 * self.now.geometry.slots + (2 * self.now.geometry.room + 8))
            (shard_in self.now key) client.old client.new }
    {
        let seat = &mut client.seats[shard];
        self.shards[shard].get(seat, seeded.in_shard, buffer, Use::of(useful))
    }
}
