//! Look-ups, and more handles on what is held.
ghost use Rattle.std.specs.Prelude.{◌≡◌, ◌+◌, ◌*◌, ◌<◌, ◌≤◌, ◌↔◌, ℕ, List, IfSome, IfNone, IfOk, OnErr, IsErrOf, Some, length, option_map};
ghost use Rattle.hcc_rule.specs.declared.key.Key.{Key};
ghost use Rattle.hcc_rule.specs.Words.{payload_word};
ghost use Rattle.hcc_shard.specs.Callers.{AcquiresAt};
ghost use Rattle.hcc_cache.specs.declared.holding.Kept.TheVariants.{Pinned, Standing};
ghost use Rattle.hcc_cache.specs.Calls.{AcquiresFor, AtShard, CountsAt, CountsBy, CountsNone, Finds, Misses, Rerefs, SearchesFor, SearchesReadingFor, TakesAtMost, TakesFor, shard_in};
ghost use Rattle.hcc_cache.specs.Alones.{AreAlone};
ghost use Rattle.hcc_cache.specs.Clients.{held_by, hold_of, Holds, IsPinOf};
ghost use Rattle.hcc_cache.specs.Keys.{key_from};
ghost use Rattle.hcc_cache.specs.Sharding.{key_to, shard_of};
ghost use Rattle.hcc_cache.specs.Known.{AreAlike, Knows};
ghost use Rattle.hcc_cache.specs.Stays.{Stays};

use crate::cache::Cache;
use crate::client::Client;
use crate::errors::LookupError;
use crate::handle::Handle;
use crate::holding::{Hold, Kept};
use crate::seeded::{SeededKey, key_to, shard_of};
use hcc_rule::{Key, Tag};
use hcc_table::Pin;

impl<T: Tag> Cache<T> {
    /// Looks for a visible entry of the key. Where it finds one, the client has a handle on it: an
    /// entry that it hadn't seen erased, with a value that fits the key. Where it finds none, the
    /// client holds what it held, and has seen dead each entry of the key that it holds.
    ///
    /// A miss is a miss: each slot that it passed, at least one, was found not visible or with
    /// another key, and it ended where no entry's trail went on, or after all slots. So if all that
    /// it found is what the shard was at one moment, the key was in no slot then.
    ///
    /// It is refused where the client holds all the handles that it may, then where it has used all
    /// its serials; nothing is changed then. A handle uses a serial. It allocates nothing. It costs
    /// what a look-up in the key's shard costs: a hit at the first probe a load, an add, two loads.
    pub fn lookup(&self, client: &mut Client<T>, key: Key) -> Result<Option<Handle>, LookupError>
        requires { Knows self.now client.old }
        ensures known { Knows self.now client.new }
        ensures full { IsErrOf result LookupError.HandlesFull
            ↔ (held_by client.old ≡ client.old.most) }
        ensures spent { IsErrOf result LookupError.Spent
            ↔ ((held_by client.old < client.old.most) × (client.old.left ≡ 0)) }
        ensures refused { OnErr result (client.new ≡ client.old) }
        ensures found { IfOk result (λ o. IfSome o (λ handle.
            Finds self.now T.fits key handle client.old client.new)) }
        ensures missed { IfOk result (λ o. IfNone o
            (Misses self.now key client.old client.new)) }
        ensures searched { IfOk result (λ found.
            SearchesFor self.now T.fits key found client.old client.new) }
        ensures stays { Stays self.now client.old client.new }
        ensures counts { IfOk result (λ _. CountsAt (shard_in self.now key)
            client.old client.new) }
        ensures visits { IfOk result (λ _. TakesFor self.now 7 (λ v w. 0)
            (shard_in self.now key) client.old client.new) }
        ensures steps { TakesAtMost (7 * self.now.geometry.slots) client.old client.new }
    {
        client.may_hold()?; // Before anything is changed.
        Ok(self.search(client, key))
    }

    /// The same, where a handle may be given.
    fn search(&self, client: &mut Client<T>, key: Key) -> Option<Handle>
        requires known { Knows self.now client.old }
        requires free { (held_by client.old < client.old.most) × (0 < client.old.left) }
        ensures known { Knows self.now client.new }
        ensures found { IfSome result (λ handle.
            Finds self.now T.fits key handle client.old client.new) }
        ensures missed { IfNone result (Misses self.now key client.old client.new) }
        ensures searched { SearchesFor self.now T.fits key result client.old client.new }
        ensures stays { Stays self.now client.old client.new }
        ensures counts { CountsAt (shard_in self.now key) client.old client.new }
        ensures visits { TakesFor self.now 7 (λ v w. 0) (shard_in self.now key)
            client.old client.new }
        ensures steps { TakesAtMost (7 * self.now.geometry.slots) client.old client.new }
    {
        let seeded = self.key_to(client, key);
        let shard = self.shard_number(seeded);
        let serial = client.used;
        let seat = &mut client.seats[shard];
        let pin = self.shards[shard].lookup(seat, seeded.in_shard, serial)?;
        Some(client.keep(key, shard, pinned(pin)))
    }

    /// The same as `lookup`, with the first word of the value, where each value of the tag has one.
    pub(crate) fn lookup_word(
        &self,
        client: &mut Client<T>,
        key: Key,
    ) -> Result<Option<(Handle, u64)>, LookupError>
        requires known { Knows self.now client.old }
        requires words { (k : Key) (value : List ℕ) → T.fits self.now.tag k value
            → 0 < length value }
        ensures known { Knows self.now client.new }
        ensures full { IsErrOf result LookupError.HandlesFull
            ↔ (held_by client.old ≡ client.old.most) }
        ensures spent { IsErrOf result LookupError.Spent
            ↔ ((held_by client.old < client.old.most) × (client.old.left ≡ 0)) }
        ensures refused { OnErr result (client.new ≡ client.old) }
        ensures found { IfOk result (λ o. IfSome o (λ found.
            (finds : Finds self.now T.fits key found.0 client.old client.new)
            × (found.1 ≡ payload_word finds.found.entry.value 0))) }
        ensures missed { IfOk result (λ o. IfNone o
            (Misses self.now key client.old client.new)) }
        ensures searched { IfOk result (λ o. SearchesReadingFor self.now T.fits key
            (option_map (λ found. found.0) o) client.old client.new) }
        ensures stays { Stays self.now client.old client.new }
        ensures counts { IfOk result (λ _. CountsAt (shard_in self.now key)
            client.old client.new) }
        ensures visits { IfOk result (λ _. TakesFor self.now 7 (λ v w. 1)
            (shard_in self.now key) client.old client.new) }
        ensures alone { AreAlone client.old client.new }
        ensures steps { TakesAtMost (7 * self.now.geometry.slots + 1) client.old client.new }
    {
        client.may_hold()?;
        let seeded = self.key_to(client, key);
        let number = self.shard_number(seeded);
        let shard = &self.shards[number];
        let serial = client.used;
        let seat = &mut client.seats[number];
        let Some((pin, word)) = shard.lookup_word(seat, seeded.in_shard, serial) else {
            return Ok(None);
        };
        Ok(Some((client.keep(key, number, pinned(pin)), word)))
    }

    /// A key under the cache's seed, which each call has from its client: the cache lies further.
    #[inline(always)]
    pub(crate) fn key_to(&self, client: &Client<T>, key: Key) -> SeededKey
        requires { client.now.seed ≡ self.now.seed }
        ensures words { result.in_shard ≡ key_to self.now.seed key }
        ensures undone { key_from self.now.seed result.in_shard ≡ key }
    {
        key_to(client.seed, key)
    }

    /// The number of the shard of a seeded key.
    pub(crate) fn shard_number(&self, key: SeededKey) -> usize
        requires { AreAlike self.now }
        ensures value { result ≡ shard_of key.in_shard (length self.now.shards.items) }
        ensures inside { result < length self.now.shards.items }
    {
        shard_of(key, self.shards.len() as u32) as usize
    }

    /// One handle more on the very entry that a handle is on, a standalone one too.
    ///
    /// It is refused as a look-up is. It uses a serial. It allocates nothing. It costs an atomic
    /// add, and a compare-exchange where the reference doesn't count; a standalone entry costs no
    /// atomic step.
    pub fn reref(&self, client: &mut Client<T>, handle: Handle) -> Result<Handle, LookupError>
        requires known { Knows self.now client.old }
        requires holds { Holds client.old handle }
        ensures known { Knows self.now client.new }
        ensures full { IsErrOf result LookupError.HandlesFull
            ↔ (held_by client.old ≡ client.old.most) }
        ensures spent { IsErrOf result LookupError.Spent
            ↔ ((held_by client.old < client.old.most) × (client.old.left ≡ 0)) }
        ensures refused { OnErr result (client.new ≡ client.old) }
        ensures again { IfOk result (λ more. Rerefs self.now handle more client.old client.new) }
        ensures acquires { IfOk result (λ _. AcquiresFor self.now handle client.old client.new) }
        ensures stays { Stays self.now client.old client.new }
        ensures counts { IfOk result (λ _. CountsBy handle client.old client.new) }
        ensures steps { TakesAtMost 2 client.old client.new }
    {
        let hold = client.hold(handle);
        client.may_hold()?;
        Ok(self.again(client, handle, hold))
    }

    /// The same, where a handle may be given.
    pub(crate) fn again(&self, client: &mut Client<T>, handle: Handle, hold: Hold) -> Handle
        requires known { Knows self.now client.old }
        requires held { hold_of client.old handle ≡ Some hold }
        requires free { (held_by client.old < client.old.most) × (0 < client.old.left) }
        ensures known { Knows self.now client.new }
        ensures again { Rerefs self.now handle result client.old client.new }
        ensures acquires { AcquiresFor self.now handle client.old client.new }
        ensures stays { Stays self.now client.old client.new }
        ensures counts { CountsBy handle client.old client.new }
        ensures alone { AreAlone client.old client.new }
        ensures steps { TakesAtMost 2 client.old client.new }
    {
        match hold.pin() {
            Ok(pin) => self.pinned_again(client, handle, hold, pin),
            Err(index) => self.standing_again(client, handle, hold, index),
        }
    }

    /// One handle more on an entry of the table.
    fn pinned_again(&self, client: &mut Client<T>, handle: Handle, hold: Hold, pin: Pin) -> Handle
        requires known { Knows self.now client.old }
        requires held { hold_of client.old handle ≡ Some hold }
        requires pinned { IsPinOf hold pin }
        requires free { (held_by client.old < client.old.most) × (0 < client.old.left) }
        ensures known { Knows self.now client.new }
        ensures again { Rerefs self.now handle result client.old client.new }
        ensures acquires { AtShard self.now (λ shard was is. (counts : _)
            × AcquiresAt shard pin.slot counts was is) hold.shard client.old client.new }
        ensures stays { Stays self.now client.old client.new }
        ensures counts { CountsAt hold.shard client.old client.new }
        ensures alone { AreAlone client.old client.new }
        ensures steps { TakesAtMost 2 client.old client.new }
    {
        let serial = client.used;
        let seat = &mut client.seats[hold.shard];
        let pin = self.shards[hold.shard].reref(seat, pin, serial);
        client.keep(hold.key, hold.shard, pinned(pin))
    }

    /// One handle more on a standalone entry.
    fn standing_again(
        &self,
        client: &mut Client<T>,
        handle: Handle,
        hold: Hold,
        index: usize,
    ) -> Handle
        requires known { Knows self.now client.old }
        requires held { hold_of client.old handle ≡ Some hold }
        requires kept { hold.kept ≡ Standing index }
        requires free { (held_by client.old < client.old.most) × (0 < client.old.left) }
        ensures known { Knows self.now client.new }
        ensures again { Rerefs self.now handle result client.old client.new }
        ensures stays { Stays self.now client.old client.new }
        ensures counts { CountsNone client.old client.new }
        ensures alone { AreAlone client.old client.new }
        ensures steps { TakesAtMost 0 client.old client.new }
    {
        client.alone[index].references += 1;
        client.keep(hold.key, hold.shard, hold.kept)
    }
}

/// What is kept of a pin.
pub(crate) fn pinned(pin: Pin) -> Kept
    ensures { result ≡ Pinned pin.slot pin.counting }
{
    Kept::Pinned {
        slot: pin.slot,
        counting: pin.counting,
    }
}
