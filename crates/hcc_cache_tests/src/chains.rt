//! Chains of three calls of two clients, from a new cache on: what a client learns by them, in each
//! order of all threads' steps. The clauses of the calls give each promise, by the laws of the
//! cache.
//!
//! A promise speaks of what one client knows. So it holds whatever the other one does, and where it
//! says that another client took an entry away, that may be any of them.
ghost use Rattle.std.specs.Prelude.{◌≡◌, ◌⊎◌, ℕ, ◌-◌, ◌^◌, ◌≤◌, min, List, Option, None, Ok, Err, Some, IfOk, map, slice_get, vec_len};
ghost use Rattle.hcc_core.specs.Sums.{total};
ghost use Rattle.hcc_charge.specs.declared.reserving.Refused.TheVariants as refused;
ghost use Rattle.hcc_shard.specs.declared.inserting.Inserted.TheVariants as stored;
ghost use Rattle.hcc_cache.specs.declared.handle.Handle.{Handle};
ghost use Rattle.hcc_cache.specs.Images.{AreRight, Visible, visible_of};
ghost use Rattle.hcc_cache.specs.Known.{Knows};
ghost use Rattle.hcc_cache.specs.Moments.{KnowsShown};
ghost use Rattle.hcc_cache.specs.Stays.{BeganEachWithin};
ghost use Rattle.hcc_cache.specs.Taken.{split_of};
ghost use Rattle.hcc_cache.specs.Totals.{usage_in, KnowsEach};
ghost use Rattle.hcc_cache_tests.specs.Chains.{ErasedInQuiet, ErasedOnce, FoundAsShown, FoundInQuiet, HasMet, HasTurned, IsGone, IsHiddenFrom, IsLost, IsLostOnTheWay, IsLostOrHidden, IsStorable, IsTakenOnTheWay, KeptInQuiet, ReadOnce};

use hcc_cache::laws::{law_lookups, law_shown_since};
use hcc_cache::shared::{law_erased, law_found, law_held_through, law_loaded, law_met, law_turned};
use hcc_cache::undisturbed::{
    law_undisturbed_erasures, law_undisturbed_insertions, law_undisturbed_lookups,
};
use hcc_cache::{
    Cache, Client, Config, Got, Handle, InsertError, Inserted, Key, LookupError, NewError,
    Priority, Saved, Tag, law_told,
};
use std::alloc::Global;

/// What an insertion answers, and a look-up.
type Stored = Result<Inserted, InsertError>;

type Found = Result<Option<Handle>, LookupError>;

/// The first two of a cache's clients.
fn two<T: Tag + Copy>(mut clients: Vec<Client<T>>) -> (Client<T>, Client<T>)
    requires { 2 ≤ vec_len clients }
    ensures first { slice_get clients.items 0 ≡ Some result.0 }
    ensures second { slice_get clients.items 1 ≡ Some result.1 }
{
    let second = clients.remove(1);
    let first = clients.remove(0);
    (first, second)
}

/// Opens a cache, and lets its first client insert an entry: both clients, and the answer. What was
/// placed is known to be shown.
fn begun<T: Tag + Copy>(
    alloc: Global,
    config: Config,
    tag: T,
    key: Key,
    value: &[u8],
    charge: u32,
) -> Result<(Cache<T>, Client<T>, Client<T>, Stored), NewError>
    requires { IsStorable T.fits config tag key value.now charge }
    ensures began { IfOk result (λ b. BeganEachWithin b.0 T.fits) }
    ensures first { IfOk result (λ b. Knows b.0 b.1) }
    ensures second { IfOk result (λ b. Knows b.0 b.2) }
    ensures shown { IfOk result (λ b. b.3 ≡ Ok Inserted.Placed → KnowsShown b.0 key b.1) }
    ensures tag { IfOk result (λ b. b.0.tag ≡ tag) }
    ensures room { IfOk result (λ b. b.0.geometry.room ≡ config.room) }
{
    let (cache, clients) = Cache::new(alloc, config, tag)?;
    let (mut first, second) = two(clients);
    let stored = cache.insert(&mut first, key, value, charge, Priority::Low);
    law_shown_since::<T>();
    Ok((cache, first, second, stored))
}

/// What a client placed it knows to be shown, until another client takes it away.
pub fn stays_shown<T: Tag + Copy>(
    alloc: Global,
    config: Config,
    tag: T,
    key: Key,
    value: &[u8],
    charge: u32,
) -> Result<(Cache<T>, Client<T>, Stored), NewError>
    requires { IsStorable T.fits config tag key value.now charge }
    ensures { IfOk result (λ end. end.2 ≡ Ok Inserted.Placed
        → KnowsShown end.0 key end.1 ⊎ IsLost end.0 key end.1) }
{
    let (cache, mut client, mut second, stored) = begun(alloc, config, tag, key, value, charge)?;
    cache.erase(&mut second, key);
    cache.pinned_usage(&mut client);
    law_shown_since::<T>();
    Ok((cache, client, stored))
}

/// What a client placed it knows to be shown behind its own insertions, too, unless it was taken
/// away: it follows its own witness.
pub fn stays_shown_through_insertions<T: Tag + Copy>(
    alloc: Global,
    config: Config,
    tag: T,
    key: Key,
    other: Key,
    value: &[u8],
    charge: u32,
) -> Result<(Cache<T>, Client<T>, Stored), NewError>
    requires first { IsStorable T.fits config tag key value.now charge }
    requires second { IsStorable T.fits config tag other value.now charge }
    ensures { IfOk result (λ end. end.2 ≡ Ok Inserted.Placed
        → KnowsShown end.0 key end.1 ⊎ IsTakenOnTheWay end.0 key end.1) }
{
    let (cache, mut client, _, stored) = begun(alloc, config, tag, key, value, charge)?;
    let witness = cache.witness(&mut client, key);
    let _ = cache.insert(&mut client, other, value, charge, Priority::Low);
    cache.follow(&mut client, witness);
    law_told::<T>();
    law_shown_since::<T>();
    Ok((cache, client, stored))
}

/// What a client placed it finds, until another client takes it away: by a hide, if somebody holds
/// it all the while.
pub fn finds_its_own<T: Tag + Copy>(
    alloc: Global,
    config: Config,
    tag: T,
    key: Key,
    value: &[u8],
    charge: u32,
) -> Result<(Cache<T>, Client<T>, Stored, Found), NewError>
    requires { IsStorable T.fits config tag key value.now charge }
    ensures { IfOk result (λ end. end.2 ≡ Ok Inserted.Placed → end.3 ≡ Ok None
        → IsLostOrHidden end.0 key end.1) }
{
    let (cache, mut client, mut second, stored) = begun(alloc, config, tag, key, value, charge)?;
    cache.erase(&mut second, key);
    let found = cache.lookup(&mut client, key);
    law_lookups::<T>();
    law_shown_since::<T>();
    Ok((cache, client, stored, found))
}

/// What a client placed another client finds that it told, until somebody takes it away.
pub fn finds_what_it_was_told<T: Tag + Copy>(
    alloc: Global,
    config: Config,
    tag: T,
    key: Key,
    value: &[u8],
    charge: u32,
) -> Result<(Cache<T>, Client<T>, Client<T>, Stored, Found), NewError>
    requires { IsStorable T.fits config tag key value.now charge }
    ensures { IfOk result (λ end. end.3 ≡ Ok Inserted.Placed → end.4 ≡ Ok None
        → IsLostOnTheWay end.0 key end.2 end.1) }
{
    let (cache, mut first, mut second, stored) = begun(alloc, config, tag, key, value, charge)?;
    let witness = cache.witness(&mut first, key);
    cache.follow(&mut second, witness);
    let found = cache.lookup(&mut second, key);
    law_told::<T>();
    law_lookups::<T>();
    law_shown_since::<T>();
    Ok((cache, first, second, stored, found))
}

/// What a client found, and holds, another client finds that it told, until somebody hides it.
pub fn finds_what_another_holds<T: Tag + Copy>(
    alloc: Global,
    config: Config,
    tag: T,
    key: Key,
    value: &[u8],
    charge: u32,
) -> Result<(Cache<T>, Client<T>, Found, Found), NewError>
    requires { IsStorable T.fits config tag key value.now charge }
    ensures { IfOk result (λ end. (handle : Handle) → end.2 ≡ Ok (Some handle)
        → end.3 ≡ Ok None → IsHiddenFrom end.0 key end.1) }
{
    let (cache, mut first, mut second, _) = begun(alloc, config, tag, key, value, charge)?;
    let held = cache.lookup(&mut second, key);
    let of_second = cache.witness(&mut second, key);
    cache.follow(&mut first, of_second);
    let found = cache.lookup(&mut first, key);
    let of_first = cache.witness(&mut first, key);
    cache.follow(&mut second, of_first);
    law_told::<T>();
    law_found::<T>();
    law_held_through::<T>();
    law_lookups::<T>();
    law_shown_since::<T>();
    Ok((cache, first, held, found))
}

/// What a client placed it reads by its key, until another client takes it away. What it reads was
/// shown at a moment of the call.
pub fn reads_its_own<T: Tag + Copy>(
    alloc: Global,
    config: Config,
    tag: T,
    key: Key,
    value: &[u8],
    charge: u32,
    buffer: &mut [u8],
) -> Result<(Cache<T>, Client<T>, Stored, Got), NewError>
    requires { IsStorable T.fits config tag key value.now charge }
    ensures lost { IfOk result (λ end. end.2 ≡ Ok Inserted.Placed → end.3 ≡ Got.Miss
        → IsLost end.0 key end.1) }
    ensures read { IfOk result (λ end.
        ReadOnce T.fits end.0 key end.1 end.3 buffer.old buffer.new) }
{
    let (cache, mut client, mut second, stored) = begun(alloc, config, tag, key, value, charge)?;
    cache.erase(&mut second, key);
    let got = cache.get(&mut client, key, buffer, true);
    law_lookups::<T>();
    law_shown_since::<T>();
    Ok((cache, client, stored, got))
}

/// What a client placed, and erases, is gone from its slot, whoever took it away.
pub fn erases_its_own<T: Tag + Copy>(
    alloc: Global,
    config: Config,
    tag: T,
    key: Key,
    value: &[u8],
    charge: u32,
) -> Result<(Cache<T>, Client<T>, Stored), NewError>
    requires { IsStorable T.fits config tag key value.now charge }
    ensures { IfOk result (λ end. end.2 ≡ Ok Inserted.Placed → IsGone end.0 key end.1) }
{
    let (cache, mut client, mut second, stored) = begun(alloc, config, tag, key, value, charge)?;
    let _ = cache.lookup(&mut second, key);
    cache.erase(&mut client, key);
    law_erased::<T>();
    Ok((cache, client, stored))
}

/// An erasure leaves no entry of its key that stands through it: each slot of the key's shard lacks
/// the key at a moment of the call.
pub fn erases_what_stands<T: Tag + Copy>(
    alloc: Global,
    config: Config,
    tag: T,
    key: Key,
    value: &[u8],
    charge: u32,
) -> Result<(Cache<T>, Client<T>, u32), NewError>
    requires { IsStorable T.fits config tag key value.now charge }
    ensures { IfOk result (λ end. ErasedOnce T.fits end.0 key end.1 end.2) }
{
    let (cache, mut first, mut client, _) = begun(alloc, config, tag, key, value, charge)?;
    let _ = cache.lookup(&mut first, key);
    let hidden = cache.erase(&mut client, key);
    law_erased::<T>();
    Ok((cache, client, hidden))
}

/// What a client finds is what its maker showed, whoever that is.
pub fn finds_as_shown<T: Tag + Copy>(
    alloc: Global,
    config: Config,
    tag: T,
    key: Key,
    value: &[u8],
    charge: u32,
) -> Result<(Cache<T>, Client<T>, Found), NewError>
    requires { IsStorable T.fits config tag key value.now charge }
    ensures { IfOk result (λ end. (handle : Handle) → end.2 ≡ Ok (Some handle)
        → FoundAsShown T.fits end.0 key end.1 handle) }
{
    let (cache, mut first, mut client, _) = begun(alloc, config, tag, key, value, charge)?;
    cache.usage(&mut first);
    let found = cache.lookup(&mut client, key);
    law_lookups::<T>();
    Ok((cache, client, found))
}

/// A usage is that of moments: at each shard that of the world right behind the load there.
pub fn counts_moments<T: Tag + Copy>(
    alloc: Global,
    config: Config,
    tag: T,
    key: Key,
    value: &[u8],
    charge: u32,
) -> Result<(Cache<T>, Client<T>, u64), NewError>
    requires { IsStorable T.fits config tag key value.now charge }
    ensures { IfOk result (λ end. (counts : List ℕ) × KnowsEach end.0 usage_in counts end.1
        × (end.2 ≡ min (total (λ n. n) counts) (2 ^ 64 - 1))) }
{
    let (cache, mut first, mut client, _) = begun(alloc, config, tag, key, value, charge)?;
    cache.erase(&mut first, key);
    let usage = cache.usage(&mut client);
    law_loaded::<T>();
    Ok((cache, client, usage))
}

/// An insertion that is dropped met an entry of its key, or all slots taken, or no place left; one
/// that is refused met a usage beside which its charge didn't fit.
pub fn meets_what_stands<T: Tag + Copy>(
    alloc: Global,
    config: Config,
    tag: T,
    key: Key,
    value: &[u8],
    charge: u32,
) -> Result<(Cache<T>, Client<T>, Stored), NewError>
    requires { IsStorable T.fits config tag key value.now charge }
    ensures dropped { IfOk result (λ end. end.2 ≡ Ok Inserted.Dropped
        → HasMet T.fits end.0 key end.1 charge Priority.Low (Ok stored.Dropped)) }
    ensures tight { IfOk result (λ end. end.2 ≡ Err InsertError.CapacityFull
        → HasMet T.fits end.0 key end.1 charge Priority.Low (Err refused.CapacityFull)) }
{
    let (cache, mut first, mut client, _) = begun(alloc, config, tag, key, value, charge)?;
    let _ = cache.lookup(&mut first, key);
    let stored = cache.insert(&mut client, key, value, charge, Priority::Low);
    law_met::<T>();
    Ok((cache, client, stored))
}

/// An insertion that is placed turned the hand only where it found no room.
pub fn evicts_for_room<T: Tag + Copy>(
    alloc: Global,
    config: Config,
    tag: T,
    key: Key,
    value: &[u8],
    charge: u32,
) -> Result<(Cache<T>, Client<T>, Stored), NewError>
    requires { IsStorable T.fits config tag key value.now charge }
    ensures { IfOk result (λ end. end.2 ≡ Ok Inserted.Placed
        → HasTurned T.fits end.0 key end.1 charge Priority.Low (Ok stored.Placed)) }
{
    let (cache, mut first, mut client, _) = begun(alloc, config, tag, key, value, charge)?;
    cache.erase(&mut first, key);
    let stored = cache.insert(&mut client, key, value, charge, Priority::Low);
    law_turned::<T>();
    Ok((cache, client, stored))
}

/// What a client placed it finds, if nobody else shows or takes anything; and a look-up misses
/// exactly where no slot shows the key then.
pub fn finds_in_quiet<T: Tag + Copy>(
    alloc: Global,
    config: Config,
    tag: T,
    key: Key,
    value: &[u8],
    charge: u32,
) -> Result<(Cache<T>, Client<T>, Stored, Found), NewError>
    requires { IsStorable T.fits config tag key value.now charge }
    ensures { IfOk result (λ end. end.2 ≡ Ok Inserted.Placed → (found : Option Handle)
        → end.3 ≡ Ok found → FoundInQuiet T.fits end.0 key end.1 found) }
{
    let (cache, mut client, mut second, stored) = begun(alloc, config, tag, key, value, charge)?;
    let _ = cache.lookup(&mut second, key);
    let found = cache.lookup(&mut client, key);
    law_undisturbed_lookups::<T>();
    Ok((cache, client, stored, found))
}

/// An erasure hides exactly what is shown of the key, if nobody else shows or takes anything.
pub fn erases_in_quiet<T: Tag + Copy>(
    alloc: Global,
    config: Config,
    tag: T,
    key: Key,
    value: &[u8],
    charge: u32,
) -> Result<(Cache<T>, Client<T>, u32), NewError>
    requires { IsStorable T.fits config tag key value.now charge }
    ensures { IfOk result (λ end. ErasedInQuiet T.fits end.0 key end.1 end.2) }
{
    let (cache, mut client, mut second, _) = begun(alloc, config, tag, key, value, charge)?;
    let _ = cache.lookup(&mut second, key);
    let hidden = cache.erase(&mut client, key);
    law_undisturbed_erasures::<T>();
    Ok((cache, client, hidden))
}

/// What a client placed stays shown when it places another entry and turns the hand no further, if
/// nobody else shows or takes anything.
pub fn inserts_in_quiet<T: Tag + Copy>(
    alloc: Global,
    config: Config,
    tag: T,
    key: Key,
    other: Key,
    value: &[u8],
    charge: u32,
) -> Result<(Cache<T>, Client<T>, Stored, Stored), NewError>
    requires storable { IsStorable T.fits config tag key value.now charge }
    requires right { T.fits tag other value.now }
    ensures { IfOk result (λ end. end.2 ≡ Ok Inserted.Placed → end.3 ≡ Ok Inserted.Placed
        → KeptInQuiet T.fits end.0 other end.1 charge Priority.Low (Ok stored.Placed) key) }
{
    let (cache, mut client, mut second, stored) = begun(alloc, config, tag, key, value, charge)?;
    let _ = cache.lookup(&mut second, key);
    let more = cache.insert(&mut client, other, value, charge, Priority::Low);
    law_undisturbed_insertions::<T>();
    Ok((cache, client, stored, more))
}

/// An entry that a cache took of an image is found, until another client takes it away.
pub fn finds_what_was_saved<T: Tag + Copy>(
    alloc: Global,
    config: Config,
    tag: T,
    image: Vec<Saved>,
    key: Key,
) -> Result<(Cache<T>, Client<T>, Found), NewError>
    requires clients { 2 ≤ config.clients }
    requires right { AreRight T.fits tag (map visible_of image.items) }
    ensures { IfOk result (λ end. end.2 ≡ Ok None → (index : ℕ) (saved : Visible)
        → slice_get (split_of config (map visible_of image.items)).taken index ≡ Some saved
        → saved.key ≡ key → IsLost end.0 key end.1) }
{
    let (cache, clients, _) = Cache::reopen(alloc, config, tag, image)?;
    let (mut client, mut second) = two(clients);
    cache.erase(&mut second, key);
    let found = cache.lookup(&mut client, key);
    law_shown_since::<T>();
    law_lookups::<T>();
    Ok((cache, client, found))
}
