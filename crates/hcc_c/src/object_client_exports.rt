//! The calls of a client of a cache of objects, as C has them. Each says by its status and its
//! outputs what the call of the session behind the pointer answered, and comes to what that call
//! comes to.
ghost use Rattle.std.specs.Prelude.{◌≡◌, None, IfSome};
ghost use Rattle.hcc_cache.specs.ObjectsClosed.{untaken_of};
ghost use Rattle.hcc_c.specs.Answers.{found_or, key_or, more_of, status_of, status_of_look, status_of_reref, value_or};
ghost use Rattle.hcc_c.specs.ObjectAnswers.{full_of, full_of_pinned, gone_key_or, gone_object_or, handle_of_pinned, placing_of, placing_of_pinned, status_of_gone, status_of_pinned, status_of_put};
ghost use Rattle.hcc_c.specs.ObjectCalls.{Charges, GivesBack, Hides, PinsAt, Puts, PutsPinned, RefersAgain, TakesGone, TellsCharge, TellsKey, TellsOccupancy, TellsPinned, TellsStats, TellsUsage};
ghost use Rattle.hcc_c.specs.ObjectLending.{IsThere};
ghost use Rattle.hcc_c.specs.ObjectSessions.{IsWhole};
ghost use Rattle.hcc_c.specs.ObjectShapes.{object_of};
ghost use Rattle.hcc_c.specs.Refusals.{code_of, priority_of};
ghost use Rattle.hcc_c.specs.Shapes.{key_of};

use crate::answers::{DONE, told, told_key, told_look, told_reref};
use crate::object_answers::{told_gone, told_put, told_put_pinned};
use crate::object_holders::ObjectClientAt;
use crate::object_shapes::{CHeldObject, CObject};
use crate::refusal::{Refusal, priority_of};
use crate::shapes::{CHandle, Key, Stats};

/// Looks for an entry of the key in `held`, and gives the rest: the charge, too.
#[unsafe(no_mangle)]
pub extern "C" fn ferretgold_raw_object_hold(
    client: &mut ObjectClientAt,
    held: &mut CHeldObject,
) -> u32
    requires { IsWhole client.old.value }
    ensures there { IsThere client.old client.new }
    ensures whole { IsWhole client.new.value }
    ensures charges { (answer : _)
        × Charges (key_of held.old.key) answer client.old.value client.new.value
        × (result ≡ status_of_look answer) × (held.new ≡ found_or answer held.old) }
{
    let answer = client.session().hold(held.key.key());
    told_look(answer, held)
}

/// Holds the entry of a slot of a shard, where it is visible: so a program walks over a cache.
#[unsafe(no_mangle)]
pub extern "C" fn ferretgold_raw_object_pin_at(
    client: &mut ObjectClientAt,
    shard: u32,
    slot: u32,
    held: &mut CHeldObject,
) -> u32
    requires { IsWhole client.old.value }
    ensures there { IsThere client.old client.new }
    ensures whole { IsWhole client.new.value }
    ensures pins { (answer : _) × PinsAt shard slot answer client.old.value client.new.value
        × (result ≡ status_of_look answer) × (held.new ≡ found_or answer held.old) }
{
    let answer = client.session().pin_at(shard, slot);
    told_look(answer, held)
}

#[unsafe(no_mangle)]
pub extern "C" fn ferretgold_raw_object_reref(
    client: &mut ObjectClientAt,
    handle: &CHandle,
    more: &mut CHandle,
) -> u32
    requires { IsWhole client.old.value }
    ensures there { IsThere client.old client.new }
    ensures whole { IsWhole client.new.value }
    ensures again { (answer : _)
        × RefersAgain handle.now answer client.old.value client.new.value
        × (result ≡ status_of_reref answer) × (more.new ≡ more_of answer more.old) }
{
    let answer = client.session().reref(*handle);
    told_reref(answer, more)
}

/// Gives a handle back, and tells whether an entry was freed, whose object is to be taken then.
#[unsafe(no_mangle)]
pub extern "C" fn ferretgold_raw_object_release(
    client: &mut ObjectClientAt,
    handle: &CHandle,
    useful: bool,
    erase_if_last: bool,
    freed: &mut bool,
) -> u32
    requires { IsWhole client.old.value }
    ensures there { IsThere client.old client.new }
    ensures whole { IsWhole client.new.value }
    ensures released { (answer : _)
        × GivesBack handle.now useful erase_if_last answer client.old.value client.new.value
        × (result ≡ status_of answer Refusal.NoHandle) × (freed.new ≡ value_or answer freed.old) }
{
    let answer = client.session().release(*handle, useful, erase_if_last);
    told(answer, Refusal::NoHandle, freed)
}

#[unsafe(no_mangle)]
pub extern "C" fn ferretgold_raw_object_erase(
    client: &mut ObjectClientAt,
    key: &Key,
    hidden: &mut u32,
) -> u32
    requires { IsWhole client.old.value }
    ensures there { IsThere client.old client.new }
    ensures whole { IsWhole client.new.value }
    ensures hides { Hides (key_of key.now) hidden.new client.old.value client.new.value }
    ensures done { result ≡ 0 }
{
    *hidden = client.session().erase(key.key());
    DONE
}

/// Inserts an object, and tells whose it is then, and whether the client's list is full.
#[unsafe(no_mangle)]
pub extern "C" fn ferretgold_raw_object_insert(
    client: &mut ObjectClientAt,
    key: &Key,
    object: &CObject,
    charge: u32,
    priority: u32,
    placing: &mut u32,
    list_full: &mut bool,
) -> u32
    requires { IsWhole client.old.value }
    ensures there { IsThere client.old client.new }
    ensures whole { IsWhole client.new.value }
    ensures bad { priority_of priority ≡ None → (result ≡ code_of Refusal.BadPriority)
        × (client.new.value ≡ client.old.value) × (placing.new ≡ placing.old)
        × (list_full.new ≡ list_full.old) }
    ensures puts { IfSome (priority_of priority) (λ known. (answer : _)
        × Puts (key_of key.now) (object_of object.now) charge known answer
        client.old.value client.new.value
        × (result ≡ status_of_put answer) × (placing.new ≡ placing_of answer placing.old)
        × (list_full.new ≡ full_of answer list_full.old)) }
{
    let Some(priority) = priority_of(priority) else {
        return Refusal::BadPriority.code();
    };
    let session = client.session();
    let answer = session.insert(key.key(), object.object(), charge, priority);
    told_put(answer, placing, list_full)
}

/// The same with a handle on what was inserted.
#[unsafe(no_mangle)]
pub extern "C" fn ferretgold_raw_object_insert_pinned(
    client: &mut ObjectClientAt,
    key: &Key,
    object: &CObject,
    charge: u32,
    priority: u32,
    placing: &mut u32,
    list_full: &mut bool,
    handle: &mut CHandle,
) -> u32
    requires { IsWhole client.old.value }
    ensures there { IsThere client.old client.new }
    ensures whole { IsWhole client.new.value }
    ensures bad { priority_of priority ≡ None → (result ≡ code_of Refusal.BadPriority)
        × (client.new.value ≡ client.old.value) × (placing.new ≡ placing.old)
        × (list_full.new ≡ list_full.old) × (handle.new ≡ handle.old) }
    ensures puts { IfSome (priority_of priority) (λ known. (answer : _)
        × PutsPinned (key_of key.now) (object_of object.now) charge known answer
        client.old.value client.new.value
        × (result ≡ status_of_pinned answer)
        × (placing.new ≡ placing_of_pinned answer placing.old)
        × (list_full.new ≡ full_of_pinned answer list_full.old)
        × (handle.new ≡ handle_of_pinned answer handle.old)) }
{
    let Some(priority) = priority_of(priority) else {
        return Refusal::BadPriority.code();
    };
    let session = client.session();
    let answer = session.insert_pinned(key.key(), object.object(), charge, priority);
    told_put_pinned(answer, placing, list_full, handle)
}

/// Takes one object off the client's list, with the key of its insertion: its entry was freed. It
/// says how many are left there.
#[unsafe(no_mangle)]
pub extern "C" fn ferretgold_raw_object_take_gone(
    client: &mut ObjectClientAt,
    key: &mut Key,
    object: &mut CObject,
    left: &mut usize,
) -> u32
    requires { IsWhole client.old.value }
    ensures there { IsThere client.old client.new }
    ensures whole { IsWhole client.new.value }
    ensures left { left.new ≡ untaken_of client.new.value.client }
    ensures takes { (answer : _) × TakesGone answer client.old.value client.new.value
        × (result ≡ status_of_gone answer) × (key.new ≡ gone_key_or answer key.old)
        × (object.new ≡ gone_object_or answer object.old) }
{
    let session = client.session();
    let answer = session.take_gone();
    *left = session.client.untaken();
    told_gone(answer, key, object)
}

#[unsafe(no_mangle)]
pub extern "C" fn ferretgold_raw_object_key(
    client: &mut ObjectClientAt,
    handle: &CHandle,
    key: &mut Key,
) -> u32
    requires { IsWhole client.old.value }
    ensures there { IsThere client.old client.new }
    ensures same { client.new.value ≡ client.old.value }
    ensures tells { (answer : _) × TellsKey handle.now answer client.old.value
        × (result ≡ status_of answer Refusal.NoHandle) × (key.new ≡ key_or answer key.old) }
{
    let answer = client.session().key(*handle);
    told_key(answer, key)
}

#[unsafe(no_mangle)]
pub extern "C" fn ferretgold_raw_object_charge(
    client: &mut ObjectClientAt,
    handle: &CHandle,
    charge: &mut u64,
) -> u32
    requires { IsWhole client.old.value }
    ensures there { IsThere client.old client.new }
    ensures whole { IsWhole client.new.value }
    ensures tells { (answer : _)
        × TellsCharge handle.now answer client.old.value client.new.value
        × (result ≡ status_of answer Refusal.NoHandle)
        × (charge.new ≡ value_or answer charge.old) }
{
    let answer = client.session().charge(*handle);
    told(answer, Refusal::NoHandle, charge)
}

#[unsafe(no_mangle)]
pub extern "C" fn ferretgold_raw_object_usage(client: &mut ObjectClientAt) -> u64
    requires { IsWhole client.old.value }
    ensures there { IsThere client.old client.new }
    ensures whole { IsWhole client.new.value }
    ensures tells { TellsUsage result client.old.value client.new.value }
{
    client.session().usage()
}

#[unsafe(no_mangle)]
pub extern "C" fn ferretgold_raw_object_pinned_usage(client: &mut ObjectClientAt) -> u64
    requires { IsWhole client.old.value }
    ensures there { IsThere client.old client.new }
    ensures whole { IsWhole client.new.value }
    ensures tells { TellsPinned result client.old.value client.new.value }
{
    client.session().pinned_usage()
}

#[unsafe(no_mangle)]
pub extern "C" fn ferretgold_raw_object_occupancy(client: &mut ObjectClientAt) -> u64
    requires { IsWhole client.old.value }
    ensures there { IsThere client.old client.new }
    ensures whole { IsWhole client.new.value }
    ensures tells { TellsOccupancy result client.old.value client.new.value }
{
    client.session().occupancy()
}

#[unsafe(no_mangle)]
pub extern "C" fn ferretgold_raw_object_stats_at(
    client: &mut ObjectClientAt,
    key: &Key,
    stats: &mut Stats,
)
    requires { IsWhole client.old.value }
    ensures there { IsThere client.old client.new }
    ensures same { client.new.value ≡ client.old.value }
    ensures stats { TellsStats (key_of key.now) stats.new client.old.value }
{
    *stats = client.session().stats_at(key.key());
}
