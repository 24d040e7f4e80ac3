//! What the calls of a trace do: each on a client and its registers.
ghost use Rattle.std.specs.Prelude.{◌≡◌, ◌*◌, ◌<◌, ◌≤◌, ℕ, List, None, IfOk, length};
ghost use Rattle.hcc_rule.specs.declared.key.Key.{Key};
ghost use Rattle.hcc_cache.specs.Clients.{held_by};
ghost use Rattle.hcc_cache.specs.Known.{Knows};
ghost use Rattle.hcc_player.specs.declared.run.registers.Filled.{Filled};
ghost use Rattle.hcc_player.specs.Registers.{CanPlay, Goes};
ghost use Rattle.hcc_player.specs.RunCalls.{Does};
ghost use Rattle.hcc_player.specs.RunAnswers.{placed_answer, refusal_of, PutsIn};
ghost use Rattle.hcc_player.specs.RunLine.{IsSoundCall};
ghost use Rattle.hcc_player.specs.Runs.{LetsGo};

use crate::run::answer::Answer;
use crate::run::bytes::Bytes;
use crate::run::call::Call;
use crate::run::registers::Registers;
use hcc_cache::{Cache, Client, InsertError, Inserted, Key, LookupError, Priority, Tag};
use std::alloc::{AllocError, Global};

/// Makes a call, whose values fit their keys, and answers it. It allocates memory for a register
/// that may be filled, before the call is made, and for a value that is read.
pub(crate) fn answer<T: Tag>(
    alloc: Global,
    cache: &Cache<T>,
    client: &mut Client<T>,
    registers: &mut Registers,
    call: Call,
) -> Result<Answer, AllocError>
    requires can { CanPlay T.fits cache.now client.old registers.old.filled.items }
    requires sound { IsSoundCall cache.now.geometry.room (length cache.now.shards.items)
        cache.now.geometry.slots call }
    requires fits { (key : Key) (value : List ℕ) → PutsIn call key value
        → T.fits cache.now.tag key value }
    ensures goes { IfOk result (λ answer. Goes T.fits cache.now call answer client.old client.new
        registers.old.filled.items registers.new.filled.items) }
    ensures did { IfOk result (λ answer. Does T.fits cache.now call answer client.old client.new
        registers.old.filled.items registers.new.filled.items) }
{
    match call {
        Call::Insert {
            key,
            charge,
            priority,
            value,
        } => Ok(insert(cache, client, key, value.as_slice(), charge, priority)),
        Call::Pin {
            register,
            key,
            charge,
            priority,
            value,
        } => pin(
            cache,
            client,
            registers,
            register as usize,
            key,
            value,
            charge,
            priority,
        ),
        Call::Lookup { register, key } => lookup(cache, client, registers, register as usize, key),
        Call::Reref { register, from } => reref(
            cache,
            client,
            registers,
            register as usize,
            from as usize,
        ),
        Call::Release {
            register,
            useful,
            erase,
        } => Ok(release(cache, client, registers, register as usize, useful, erase)),
        Call::Value { register } => value(alloc, cache, client, registers, register as usize),
        Call::Erase { key } => Ok(Answer::Erased(cache.erase(client, key))),
        Call::Totals => Ok(totals(cache, client)),
        Call::Word { shard, slot } => Ok(word(cache, client, shard, slot)),
        Call::Stats => Ok(Answer::Stats(client.stats())),
    }
}

/// Inserts an entry.
fn insert<T: Tag>(
    cache: &Cache<T>,
    client: &mut Client<T>,
    key: Key,
    value: &[u8],
    charge: u32,
    priority: Priority,
) -> Answer
    requires known { Knows cache.now client.old }
    requires fits { T.fits cache.now.tag key value.now }
    requires short { length value.now ≤ 8 * cache.now.geometry.room }
    requires paid { 0 < charge }
    ensures goes { (handles : List Filled) → Goes T.fits cache.now
        (Call.Insert key charge priority value.now) result client.old client.new handles handles }
    ensures did { (handles : List Filled) → Does T.fits cache.now
        (Call.Insert key charge priority value.now) result client.old client.new handles handles }
{
    match cache.insert(client, key, value, charge, priority) {
        Ok(inserted) => placed(inserted),
        Err(error) => Answer::Refused(error),
    }
}

/// What an insertion is answered that was not refused.
fn placed(inserted: Inserted) -> Answer
    ensures { result ≡ placed_answer inserted }
{
    match inserted {
        Inserted::Placed => Answer::Placed,
        Inserted::Dropped => Answer::Dropped,
        Inserted::Standalone => Answer::Standalone,
    }
}

/// Inserts an entry, and fills a register with a handle on it.
fn pin<T: Tag>(
    cache: &Cache<T>,
    client: &mut Client<T>,
    registers: &mut Registers,
    register: usize,
    key: Key,
    value: Bytes,
    charge: u32,
    priority: Priority,
) -> Result<Answer, AllocError>
    requires can { CanPlay T.fits cache.now client.old registers.old.filled.items }
    requires fits { T.fits cache.now.tag key value }
    requires short { length value ≤ 8 * cache.now.geometry.room }
    requires paid { 0 < charge }
    ensures goes { IfOk result (λ answer. Goes T.fits cache.now
        (Call.Pin register key charge priority value) answer client.old client.new
        registers.old.filled.items registers.new.filled.items) }
    ensures did { IfOk result (λ answer. Does T.fits cache.now
        (Call.Pin register key charge priority value) answer client.old client.new
        registers.old.filled.items registers.new.filled.items) }
{
    if registers.get(register).is_some() {
        return Ok(Answer::Busy);
    }
    registers.reserve()?;
    match cache.insert_pinned(client, key, value.into_vec(), charge, priority) {
        Ok((handle, inserted)) => {
            registers.fill(register, handle);
            Ok(placed(inserted))
        }
        Err((error, _)) => Ok(Answer::Refused(error)),
    }
}

/// Looks a key up into a register.
fn lookup<T: Tag>(
    cache: &Cache<T>,
    client: &mut Client<T>,
    registers: &mut Registers,
    register: usize,
    key: Key,
) -> Result<Answer, AllocError>
    requires { CanPlay T.fits cache.now client.old registers.old.filled.items }
    ensures goes { IfOk result (λ answer. Goes T.fits cache.now (Call.Lookup register key) answer
        client.old client.new registers.old.filled.items registers.new.filled.items) }
    ensures did { IfOk result (λ answer. Does T.fits cache.now (Call.Lookup register key) answer
        client.old client.new registers.old.filled.items registers.new.filled.items) }
{
    if registers.get(register).is_some() {
        return Ok(Answer::Busy);
    }
    registers.reserve()?;
    match cache.lookup(client, key) {
        Ok(Some(handle)) => {
            registers.fill(register, handle);
            Ok(Answer::Hit)
        }
        Ok(None) => Ok(Answer::Miss),
        Err(error) => Ok(Answer::Refused(refusal(error))),
    }
}

/// Fills a register with one handle more on what another holds.
fn reref<T: Tag>(
    cache: &Cache<T>,
    client: &mut Client<T>,
    registers: &mut Registers,
    register: usize,
    from: usize,
) -> Result<Answer, AllocError>
    requires { CanPlay T.fits cache.now client.old registers.old.filled.items }
    ensures goes { IfOk result (λ answer. Goes T.fits cache.now (Call.Reref register from) answer
        client.old client.new registers.old.filled.items registers.new.filled.items) }
    ensures did { IfOk result (λ answer. Does T.fits cache.now (Call.Reref register from) answer
        client.old client.new registers.old.filled.items registers.new.filled.items) }
{
    if registers.get(register).is_some() {
        return Ok(Answer::Busy);
    }
    let Some(held) = registers.get(from) else {
        return Ok(Answer::Nothing);
    };
    registers.reserve()?;
    match cache.reref(client, held) {
        Ok(handle) => {
            registers.fill(register, handle);
            Ok(Answer::Held)
        }
        Err(error) => Ok(Answer::Refused(refusal(error))),
    }
}

/// Why a handle isn't given, as insertions tell it.
fn refusal(error: LookupError) -> InsertError
    ensures { result ≡ refusal_of error }
{
    match error {
        LookupError::HandlesFull => InsertError::HandlesFull,
        LookupError::Spent => InsertError::Spent,
    }
}

/// Releases what a register holds, and empties it.
fn release<T: Tag>(
    cache: &Cache<T>,
    client: &mut Client<T>,
    registers: &mut Registers,
    register: usize,
    useful: bool,
    erase: bool,
) -> Answer
    requires { CanPlay T.fits cache.now client.old registers.old.filled.items }
    ensures goes { Goes T.fits cache.now (Call.Release register useful erase) result
        client.old client.new registers.old.filled.items registers.new.filled.items }
    ensures did { Does T.fits cache.now (Call.Release register useful erase) result
        client.old client.new registers.old.filled.items registers.new.filled.items }
{
    let Some(handle) = registers.get(register) else {
        return Answer::Nothing;
    };
    registers.empty(register);
    if cache.release(client, handle, useful, erase) {
        Answer::Freed
    } else {
        Answer::Kept
    }
}

/// Reads the value of what a register holds.
fn value<T: Tag>(
    alloc: Global,
    cache: &Cache<T>,
    client: &mut Client<T>,
    registers: &Registers,
    register: usize,
) -> Result<Answer, AllocError>
    requires { CanPlay T.fits cache.now client.old registers.now.filled.items }
    ensures goes { IfOk result (λ answer. Goes T.fits cache.now (Call.Value register) answer
        client.old client.new registers.now.filled.items registers.now.filled.items) }
    ensures did { IfOk result (λ answer. Does T.fits cache.now (Call.Value register) answer
        client.old client.new registers.now.filled.items registers.now.filled.items) }
{
    let Some(handle) = registers.get(register) else {
        return Ok(Answer::Nothing);
    };
    let len = cache.value_len(client, handle);
    let mut bytes = vec![in alloc; 0u8; len]?;
    cache.read_value(client, handle, &mut bytes);
    Ok(Answer::Value(Bytes::from_vec(bytes)))
}

/// The three totals.
fn totals<T: Tag>(cache: &Cache<T>, client: &mut Client<T>) -> Answer
    requires { Knows cache.now client.old }
    ensures goes { (handles : List Filled) → Goes T.fits cache.now Call.Totals result
        client.old client.new handles handles }
    ensures did { (handles : List Filled) → Does T.fits cache.now Call.Totals result
        client.old client.new handles handles }
{
    let usage = cache.usage(client);
    let pinned = cache.pinned_usage(client);
    let occupancy = cache.occupancy(client);
    Answer::Totals {
        usage,
        pinned,
        occupancy,
    }
}

/// A slot's meta word, and its displacement.
fn word<T: Tag>(cache: &Cache<T>, client: &mut Client<T>, shard: u32, slot: u32) -> Answer
    requires known { Knows cache.now client.old }
    requires shard { shard < length cache.now.shards.items }
    requires slot { slot < cache.now.geometry.slots }
    ensures goes { (handles : List Filled) → Goes T.fits cache.now
        (Call.Word shard slot) result client.old client.new handles handles }
    ensures did { (handles : List Filled) → Does T.fits cache.now
        (Call.Word shard slot) result client.old client.new handles handles }
{
    let word = cache.word(client, shard, slot);
    let displaced = cache.displacement(client, shard, slot);
    Answer::Word { word, displaced }
}

/// Releases all that a client's registers hold, in the order in which they were filled.
pub(crate) fn let_go<T: Tag>(cache: &Cache<T>, client: &mut Client<T>, registers: &Registers)
    requires { CanPlay T.fits cache.now client.old registers.now.filled.items }
    ensures known { Knows cache.now client.new }
    ensures none { held_by client.new ≡ 0 }
    ensures did { LetsGo T.fits cache.now registers.now.filled.items client.old client.new }
{
    for filled in registers.filled.iter() {
        cache.release(client, filled.handle, false, false);
    }
}
