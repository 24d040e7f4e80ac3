//! The calls of a client, as C has them. Each says by its status and its outputs what the call of
//! the session behind the pointer answered, and comes to what that call comes to.
ghost use Rattle.std.specs.Prelude.{◌≡◌, None, IfSome, true, false};
ghost use Rattle.hcc_cache.specs.Clients.{held_by};
ghost use Rattle.hcc_cache.specs.Totals.{no_stats, stats_over};
ghost use Rattle.hcc_c.specs.Answers.{found_or, handle_of_pinned, inserted_of, inserted_of_pinned, key_or, length_got, length_of, more_of, status_of, status_of_got, status_of_insert, status_of_look, status_of_pinned, status_of_read, status_of_reref, value_or};
ghost use Rattle.hcc_c.specs.Calls.{GetsValue, GivesBack, Hides, LooksUp, PinsAt, Puts, PutsPinned, ReadsPart, ReadsValue, RefersAgain, TellsDisplacement, TellsHandle, TellsKey, TellsLength, TellsOccupancy, TellsPinned, TellsStats, TellsUsage, TellsWord};
ghost use Rattle.hcc_c.specs.Lending.{IsThere};
ghost use Rattle.hcc_c.specs.Refusals.{code_of, priority_of};
ghost use Rattle.hcc_c.specs.Sessions.{IsHandle, IsNone, IsWhole};
ghost use Rattle.hcc_c.specs.Shapes.{key_of, stats_of};

use crate::answers::{
    DONE, told, told_got, told_insert, told_key, told_look, told_pinned, told_read, told_reref,
};
use crate::objects::ClientObject;
use crate::refusal::{Refusal, priority_of};
use crate::shapes::{CHandle, CHeldEntry, CPart, Counts, Key, Stats};
use std::alloc::Global;

#[unsafe(no_mangle)]
pub extern "C" fn ferretgold_raw_lookup(
    client: &mut ClientObject,
    key: &Key,
    handle: &mut CHandle,
) -> u32
    requires { IsWhole client.old.value }
    ensures there { IsThere client.old client.new }
    ensures whole { IsWhole client.new.value }
    ensures looks { (answer : _)
        × LooksUp (key_of key.now) answer client.old.value client.new.value
        × (result ≡ status_of_look answer) × (handle.new ≡ found_or answer handle.old) }
{
    let answer = client.session().lookup(key.key());
    told_look(answer, handle)
}

/// Holds the entry of a slot of a shard, where it is visible: so a program walks over a cache.
#[unsafe(no_mangle)]
pub extern "C" fn ferretgold_raw_pin_at(
    client: &mut ClientObject,
    shard: u32,
    slot: u32,
    held: &mut CHeldEntry,
) -> u32
    requires { IsWhole client.old.value }
    ensures there { IsThere client.old client.new }
    ensures whole { IsWhole client.new.value }
    ensures pins { (answer : _) × PinsAt shard slot answer client.old.value client.new.value
        × (result ≡ status_of_look answer) × (held.new ≡ found_or answer held.old) }
{
    let answer = client.session().pin_at(shard, slot);
    told_look(answer, held)
}

#[unsafe(no_mangle)]
pub extern "C" fn ferretgold_raw_get(
    client: &mut ClientObject,
    key: &Key,
    buffer: &mut [u8],
    useful: bool,
    length: &mut usize,
) -> u32
    requires { IsWhole client.old.value }
    ensures there { IsThere client.old client.new }
    ensures whole { IsWhole client.new.value }
    ensures gets { (answer : _) × GetsValue (key_of key.now) useful answer buffer.old buffer.new
        client.old.value client.new.value
        × (result ≡ status_of_got answer) × (length.new ≡ length_got answer length.old) }
{
    let answer = client.session().get(key.key(), buffer, useful);
    told_got(answer, length)
}

#[unsafe(no_mangle)]
pub extern "C" fn ferretgold_raw_reref(
    client: &mut ClientObject,
    handle: &CHandle,
    more: &mut CHandle,
) -> u32
    requires { IsWhole client.old.value }
    ensures there { IsThere client.old client.new }
    ensures whole { IsWhole client.new.value }
    ensures again { (answer : _)
        × RefersAgain handle.now answer client.old.value client.new.value
        × (result ≡ status_of_reref answer) × (more.new ≡ more_of answer more.old) }
{
    let answer = client.session().reref(*handle);
    told_reref(answer, more)
}

#[unsafe(no_mangle)]
pub extern "C" fn ferretgold_raw_release(
    client: &mut ClientObject,
    handle: &CHandle,
    useful: bool,
    erase_if_last: bool,
    freed: &mut bool,
) -> u32
    requires { IsWhole client.old.value }
    ensures there { IsThere client.old client.new }
    ensures whole { IsWhole client.new.value }
    ensures released { (answer : _)
        × GivesBack handle.now useful erase_if_last answer client.old.value client.new.value
        × (result ≡ status_of answer Refusal.NoHandle) × (freed.new ≡ value_or answer freed.old) }
{
    let answer = client.session().release(*handle, useful, erase_if_last);
    told(answer, Refusal::NoHandle, freed)
}

#[unsafe(no_mangle)]
pub extern "C" fn ferretgold_raw_insert(
    client: &mut ClientObject,
    key: &Key,
    value: &[u8],
    charge: u32,
    priority: u32,
    inserted: &mut u32,
) -> u32
    requires { IsWhole client.old.value }
    ensures there { IsThere client.old client.new }
    ensures whole { IsWhole client.new.value }
    ensures bad { priority_of priority ≡ None → (result ≡ code_of Refusal.BadPriority)
        × (client.new.value ≡ client.old.value) × (inserted.new ≡ inserted.old) }
    ensures puts { IfSome (priority_of priority) (λ known. (answer : _)
        × Puts (key_of key.now) charge known value.now answer client.old.value client.new.value
        × (result ≡ status_of_insert answer) × (inserted.new ≡ inserted_of answer inserted.old)) }
{
    let Some(priority) = priority_of(priority) else {
        return Refusal::BadPriority.code();
    };
    let answer = client.session().insert(key.key(), value, charge, priority);
    told_insert(answer, inserted)
}

#[unsafe(no_mangle)]
pub extern "C" fn ferretgold_raw_insert_pinned(
    alloc: Global,
    client: &mut ClientObject,
    key: &Key,
    value: &[u8],
    charge: u32,
    priority: u32,
    inserted: &mut u32,
    handle: &mut CHandle,
) -> u32
    requires { IsWhole client.old.value }
    ensures there { IsThere client.old client.new }
    ensures whole { IsWhole client.new.value }
    ensures bad { priority_of priority ≡ None → (result ≡ code_of Refusal.BadPriority)
        × (client.new.value ≡ client.old.value) × (inserted.new ≡ inserted.old)
        × (handle.new ≡ handle.old) }
    ensures puts { IfSome (priority_of priority) (λ known. (answer : _)
        × PutsPinned (key_of key.now) charge known value.now answer
        client.old.value client.new.value
        × (result ≡ status_of_pinned answer)
        × (inserted.new ≡ inserted_of_pinned answer inserted.old)
        × (handle.new ≡ handle_of_pinned answer handle.old)) }
{
    let Some(priority) = priority_of(priority) else {
        return Refusal::BadPriority.code();
    };
    let session = client.session();
    let answer = session.insert_copied(alloc, key.key(), value, charge, priority);
    told_pinned(answer, inserted, handle)
}

#[unsafe(no_mangle)]
pub extern "C" fn ferretgold_raw_erase(
    client: &mut ClientObject,
    key: &Key,
    hidden: &mut u32,
) -> u32
    requires { IsWhole client.old.value }
    ensures there { IsThere client.old client.new }
    ensures whole { IsWhole client.new.value }
    ensures hides { Hides (key_of key.now) hidden.new client.old.value client.new.value }
    ensures done { result ≡ 0 }
{
    *hidden = client.session().erase(key.key());
    DONE
}

#[unsafe(no_mangle)]
pub extern "C" fn ferretgold_raw_key(
    client: &mut ClientObject,
    handle: &CHandle,
    key: &mut Key,
) -> u32
    requires { IsWhole client.old.value }
    ensures there { IsThere client.old client.new }
    ensures tells { (answer : _) × TellsKey handle.now answer client.old.value client.new.value
        × (result ≡ status_of answer Refusal.NoHandle) × (key.new ≡ key_or answer key.old) }
{
    let answer = client.session().key(*handle);
    told_key(answer, key)
}

#[unsafe(no_mangle)]
pub extern "C" fn ferretgold_raw_value_len(
    client: &mut ClientObject,
    handle: &CHandle,
    length: &mut usize,
) -> u32
    requires { IsWhole client.old.value }
    ensures there { IsThere client.old client.new }
    ensures whole { IsWhole client.new.value }
    ensures tells { (answer : _) × TellsLength handle.now answer client.old.value client.new.value
        × (result ≡ status_of answer Refusal.NoHandle)
        × (length.new ≡ value_or answer length.old) }
{
    let answer = client.session().value_len(*handle);
    told(answer, Refusal::NoHandle, length)
}

#[unsafe(no_mangle)]
pub extern "C" fn ferretgold_raw_read_value(
    client: &mut ClientObject,
    handle: &CHandle,
    buffer: &mut [u8],
    length: &mut usize,
) -> u32
    requires { IsWhole client.old.value }
    ensures there { IsThere client.old client.new }
    ensures whole { IsWhole client.new.value }
    ensures reads { (answer : _)
        × ReadsValue handle.now answer buffer.old buffer.new client.old.value client.new.value
        × (result ≡ status_of_read answer) × (length.new ≡ length_of answer length.old) }
{
    let answer = client.session().read_value(*handle, buffer);
    told_read(answer, length)
}

#[unsafe(no_mangle)]
pub extern "C" fn ferretgold_raw_read_part(
    client: &mut ClientObject,
    handle: &CHandle,
    offset: usize,
    buffer: &mut [u8],
    part: &mut CPart,
) -> u32
    requires { IsWhole client.old.value }
    ensures there { IsThere client.old client.new }
    ensures whole { IsWhole client.new.value }
    ensures reads { (answer : _)
        × ReadsPart handle.now offset answer buffer.old buffer.new client.old.value
        client.new.value
        × (result ≡ status_of answer Refusal.NoHandle) × (part.new ≡ value_or answer part.old) }
{
    let answer = client.session().read_part(*handle, offset, buffer);
    told(answer, Refusal::NoHandle, part)
}

#[unsafe(no_mangle)]
pub extern "C" fn ferretgold_raw_usage(client: &mut ClientObject) -> u64
    requires { IsWhole client.old.value }
    ensures there { IsThere client.old client.new }
    ensures whole { IsWhole client.new.value }
    ensures tells { TellsUsage result client.old.value client.new.value }
{
    client.session().usage()
}

#[unsafe(no_mangle)]
pub extern "C" fn ferretgold_raw_pinned_usage(client: &mut ClientObject) -> u64
    requires { IsWhole client.old.value }
    ensures there { IsThere client.old client.new }
    ensures whole { IsWhole client.new.value }
    ensures tells { TellsPinned result client.old.value client.new.value }
{
    client.session().pinned_usage()
}

#[unsafe(no_mangle)]
pub extern "C" fn ferretgold_raw_occupancy(client: &mut ClientObject) -> u64
    requires { IsWhole client.old.value }
    ensures there { IsThere client.old client.new }
    ensures whole { IsWhole client.new.value }
    ensures tells { TellsOccupancy result client.old.value client.new.value }
{
    client.session().occupancy()
}

#[unsafe(no_mangle)]
pub extern "C" fn ferretgold_raw_word(
    client: &mut ClientObject,
    shard: u32,
    slot: u32,
    word: &mut u64,
) -> u32
    requires { IsWhole client.old.value }
    ensures there { IsThere client.old client.new }
    ensures whole { IsWhole client.new.value }
    ensures tells { (answer : _) × TellsWord shard slot answer client.old.value client.new.value
        × (result ≡ status_of answer Refusal.OutOfRange) × (word.new ≡ value_or answer word.old) }
{
    let answer = client.session().word(shard, slot);
    told(answer, Refusal::OutOfRange, word)
}

#[unsafe(no_mangle)]
pub extern "C" fn ferretgold_raw_displacement(
    client: &mut ClientObject,
    shard: u32,
    slot: u32,
    displacement: &mut u64,
) -> u32
    requires { IsWhole client.old.value }
    ensures there { IsThere client.old client.new }
    ensures whole { IsWhole client.new.value }
    ensures tells { (answer : _)
        × TellsDisplacement shard slot answer client.old.value client.new.value
        × (result ≡ status_of answer Refusal.OutOfRange)
        × (displacement.new ≡ value_or answer displacement.old) }
{
    let answer = client.session().displacement(shard, slot);
    told(answer, Refusal::OutOfRange, displacement)
}

#[unsafe(no_mangle)]
pub extern "C" fn ferretgold_raw_handle_at(
    client: &mut ClientObject,
    index: usize,
    handle: &mut CHandle,
) -> u32
    ensures there { IsThere client.old client.new }
    ensures same { client.new.value ≡ client.old.value }
    ensures tells { (answer : _) × TellsHandle index answer client.old.value
        × (result ≡ status_of answer Refusal.NoHandle) × (handle.new ≡ value_or answer handle.old) }
{
    let answer = client.session().handle_at(index);
    told(answer, Refusal::NoHandle, handle)
}

#[unsafe(no_mangle)]
pub extern "C" fn ferretgold_raw_number(client: &mut ClientObject) -> u32
    ensures there { IsThere client.old client.new }
    ensures same { client.new.value ≡ client.old.value }
    ensures number { result ≡ client.old.value.client.number }
{
    client.session().number()
}

#[unsafe(no_mangle)]
pub extern "C" fn ferretgold_raw_held(client: &mut ClientObject) -> u32
    ensures there { IsThere client.old client.new }
    ensures same { client.new.value ≡ client.old.value }
    ensures held { result ≡ held_by client.old.value.client }
{
    client.session().held()
}

#[unsafe(no_mangle)]
pub extern "C" fn ferretgold_raw_serials_left(client: &mut ClientObject) -> u64
    ensures there { IsThere client.old client.new }
    ensures same { client.new.value ≡ client.old.value }
    ensures left { result ≡ client.old.value.client.left }
{
    client.session().serials_left()
}

#[unsafe(no_mangle)]
pub extern "C" fn ferretgold_raw_holds(client: &mut ClientObject, handle: &CHandle) -> bool
    ensures there { IsThere client.old client.new }
    ensures same { client.new.value ≡ client.old.value }
    ensures held { result ≡ true → (it : _) × IsHandle client.old.value handle.now it }
    ensures yes { (it : _) → IsHandle client.old.value handle.now it → result ≡ true }
    ensures no { IsNone client.old.value handle.now → result ≡ false }
{
    client.session().holds(*handle)
}

#[unsafe(no_mangle)]
pub extern "C" fn ferretgold_raw_stats(client: &mut ClientObject, stats: &mut Stats)
    ensures there { IsThere client.old client.new }
    ensures same { client.new.value ≡ client.old.value }
    ensures stats { stats.new ≡ stats_of (stats_over no_stats client.old.value.client.seats.items) }
{
    *stats = client.session().stats();
}

#[unsafe(no_mangle)]
pub extern "C" fn ferretgold_raw_stats_at(client: &mut ClientObject, key: &Key, stats: &mut Stats)
    requires { IsWhole client.old.value }
    ensures there { IsThere client.old client.new }
    ensures same { client.new.value ≡ client.old.value }
    ensures stats { TellsStats (key_of key.now) stats.new client.old.value }
{
    *stats = client.session().stats_at(key.key());
}

#[unsafe(no_mangle)]
pub extern "C" fn ferretgold_raw_counts(client: &mut ClientObject, counts: &mut Counts)
    ensures there { IsThere client.old client.new }
    ensures same { client.new.value ≡ client.old.value }
    ensures counts { counts.new ≡ client.old.value.counts }
{
    *counts = client.session().counts();
}
