//! What clients do in a cache of objects.
ghost use Rattle.std.specs.Prelude.{◌≡◌, ◌+◌, ◌*◌, ◌<◌, ◌↔◌, ◌&&◌, false, true, IfNone, IfOk, IfSome, IsErrOf, OnErr, option_map};
ghost use Rattle.hcc_cache.specs.declared.holding.Kept.TheVariants.{Standing};
ghost use Rattle.hcc_cache.specs.Calls.{AcquiresFor, CountsAt, CountsBy, CountsNone, ErasesListed, Erases, Finds, GivesUpWith, HandsAt, Misses, Releases, Rerefs, SearchesReadingFor, TakesAtMost, TakesFor, shard_in};
ghost use Rattle.hcc_cache.specs.Clients.{Holds, held_by, hold_of};
ghost use Rattle.hcc_cache.specs.Objects.{HandsBack, KnowsObjects, is_word, object_bytes, shelf_of};
ghost use Rattle.hcc_cache.specs.Stays.{ReleasesWith, Stays, StaysWhereStanding};
ghost use Rattle.hcc_table.specs.Lists.{has_room};
ghost use Rattle.hcc_table.specs.Steps.{freeing};

use crate::errors::LookupError;
use crate::handle::Handle;
use crate::holding::Hold;
use crate::object_cache::{ObjectCache, ObjectClient};
use crate::objects::Object;
use hcc_rule::Key;
use hcc_table::Freed;

impl ObjectCache {
    /// Looks for a visible entry of the key, as `Cache::lookup` does. Where it finds one, the
    /// client has a handle on it, and the object is as it was inserted: nobody is handed it back
    /// before the handle is released.
    ///
    /// It is refused as `Cache::lookup` is. It allocates nothing. It costs a load more.
    pub fn lookup(
        &self,
        client: &mut ObjectClient,
        key: Key,
    ) -> Result<Option<(Handle, Object)>, LookupError>
        requires { KnowsObjects self.now client.old }
        ensures known { KnowsObjects self.now client.new }
        ensures full { IsErrOf result LookupError.HandlesFull
            ↔ (held_by client.old.client ≡ client.old.client.most) }
        ensures spent { IsErrOf result LookupError.Spent
            ↔ ((held_by client.old.client < client.old.client.most)
            × (client.old.client.left ≡ 0)) }
        ensures refused { OnErr result (client.new ≡ client.old) }
        ensures found { IfOk result (λ o. IfSome o (λ found.
            (finds : Finds self.now.cache is_word key found.0 client.old.client client.new.client)
            × (finds.found.entry.value ≡ object_bytes found.1))) }
        ensures missed { IfOk result (λ o. IfNone o
            (Misses self.now.cache key client.old.client client.new.client)) }
        ensures searched { IfOk result (λ o. SearchesReadingFor self.now.cache is_word key
            (option_map (λ found. found.0) o) client.old.client client.new.client) }
        ensures stays { Stays self.now.cache client.old.client client.new.client }
        ensures counts { IfOk result (λ _. CountsAt (shard_in self.now.cache key)
            client.old.client client.new.client) }
        ensures visits { IfOk result (λ _. TakesFor self.now.cache 7 (λ v w. 1)
            (shard_in self.now.cache key) client.old.client client.new.client) }
        ensures list { client.new.gone ≡ client.old.gone }
        ensures steps { TakesAtMost (7 * self.now.cache.geometry.slots + 1)
            client.old.client client.new.client }
    {
        match self.cache.lookup_word(&mut client.client, key)? {
            Some((handle, word)) => Ok(Some((handle, Object::of(word)))),
            None => Ok(None),
        }
    }

    /// One handle more on the very entry that a handle is on, as `Cache::reref` gives it.
    pub fn reref(&self, client: &mut ObjectClient, handle: Handle) -> Result<Handle, LookupError>
        requires known { KnowsObjects self.now client.old }
        requires holds { Holds client.old.client handle }
        ensures known { KnowsObjects self.now client.new }
        ensures full { IsErrOf result LookupError.HandlesFull
            ↔ (held_by client.old.client ≡ client.old.client.most) }
        ensures spent { IsErrOf result LookupError.Spent
            ↔ ((held_by client.old.client < client.old.client.most)
            × (client.old.client.left ≡ 0)) }
        ensures refused { OnErr result (client.new ≡ client.old) }
        ensures again { IfOk result (λ more.
            Rerefs self.now.cache handle more client.old.client client.new.client) }
        ensures acquires { IfOk result (λ _. AcquiresFor self.now.cache handle
            client.old.client client.new.client) }
        ensures stays { Stays self.now.cache client.old.client client.new.client }
        ensures counts { IfOk result (λ _. CountsBy handle client.old.client client.new.client) }
        ensures list { client.new.gone ≡ client.old.gone }
        ensures steps { TakesAtMost 2 client.old.client client.new.client }
    {
        let client = &mut client.client;
        client.may_hold()?;
        let hold = client.hold(handle);
        Ok(self.cache.again(client, handle, hold))
    }

    /// Gives a handle back, as `Cache::release` does. What it frees is on the client's list then:
    /// of a slot whatever entry stood there when it was freed, so not always the handle's; and an
    /// object that stood alone, with its last handle.
    ///
    /// Where the list has no room for one more, freeing an entry of the table isn't tried, and the
    /// answer is false: it is left to the clock. It refuses nothing and allocates nothing.
    pub fn release(
        &self,
        client: &mut ObjectClient,
        handle: Handle,
        useful: bool,
        erase_if_last: bool,
    ) -> bool
        requires known { KnowsObjects self.now client.old }
        requires holds { Holds client.old.client handle }
        ensures known { KnowsObjects self.now client.new }
        ensures released { Releases self.now.cache handle erase_if_last result client.old.client
            client.new.client }
        ensures list { HandsBack self.now handle result client.old client.new }
        ensures gives { GivesUpWith self.now.cache (has_room 1 (shelf_of client.old)) handle useful
            erase_if_last result client.old.client client.new.client }
        ensures by { ReleasesWith self.now.cache (has_room 1 (shelf_of client.old)) handle useful
            erase_if_last result client.old.client client.new.client }
        ensures stays { result ≡ false
            → Stays self.now.cache client.old.client client.new.client }
        ensures standing { StaysWhereStanding self.now.cache handle client.old.client
            client.new.client }
        ensures counts { CountsBy handle client.old.client client.new.client }
        ensures steps { TakesAtMost (freeing self.now.cache.geometry.slots + 4)
            client.old.client client.new.client }
    {
        let hold = client.client.hold(handle);
        match hold.pin() {
            Ok(pin) => {
                let ObjectClient { client, gone } = client;
                let cache = &self.cache;
                cache.release_pin(client, handle, hold, pin, useful, erase_if_last, gone)
            }
            Err(index) => self.release_alone(client, handle, hold, index),
        }
    }

    /// The same, of an object that stands alone.
    fn release_alone(
        &self,
        client: &mut ObjectClient,
        handle: Handle,
        hold: Hold,
        index: usize,
    ) -> bool
        requires known { KnowsObjects self.now client.old }
        requires held { hold_of client.old.client handle ≡ Some hold }
        requires kept { hold.kept ≡ Standing index }
        ensures known { KnowsObjects self.now client.new }
        ensures released { (erase : _) → Releases self.now.cache handle erase result
            client.old.client client.new.client }
        ensures list { HandsBack self.now handle result client.old client.new }
        ensures stays { Stays self.now.cache client.old.client client.new.client }
        ensures counts { CountsNone client.old.client client.new.client }
        ensures steps { TakesAtMost 2 client.old.client client.new.client }
    {
        let alone = &client.client.alone[index];
        if alone.references == 1 {
            let word = alone.value.word();
            let key = self.cache.key_to(&client.client, hold.key).in_shard;
            client.gone.add(Freed { key, word });
        }
        self.cache
            .release_standing(&mut client.client, handle, hold, index)
    }

    /// Hides each visible entry of the key, as `Cache::erase` does. What it frees is on the
    /// client's list then. Where the list has no room for one more, an entry is hidden and left to
    /// the clock.
    ///
    /// It refuses nothing and allocates nothing. An entry that is freed costs a load more.
    pub fn erase(&self, client: &mut ObjectClient, key: Key) -> u32
        requires { KnowsObjects self.now client.old }
        ensures known { KnowsObjects self.now client.new }
        ensures erased { Erases self.now.cache key result client.old.client client.new.client }
        ensures list { HandsAt self.now.cache (shelf_of client.old) (shelf_of client.new)
            (shard_in self.now.cache key) client.old.client client.new.client }
        ensures searched { ErasesListed self.now.cache is_word key
            (has_room 1 (shelf_of client.new)) result client.old.client client.new.client }
        ensures counts { CountsAt (shard_in self.now.cache key) client.old.client
            client.new.client }
        ensures steps { TakesAtMost
            ((freeing self.now.cache.geometry.slots + 10) * self.now.cache.geometry.slots + 2)
            client.old.client client.new.client }
    {
        let ObjectClient { client, gone } = client;
        self.cache.erase_listed(client, key, gone)
    }
}
