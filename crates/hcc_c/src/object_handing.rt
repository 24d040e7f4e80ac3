//! Clients of a cache of objects are handed over to the places that C has for them, and taken back
//! from there.
ghost use Rattle.std.specs.Prelude.{◌≡◌, ◌≤◌, ◌+◌, ◌++◌, Some, None, IsSome, IsSomeAnd, IfOk, IsOkUnless, length, map, vec_capacity};
ghost use Rattle.std.specs.Arc.{arc_value};
ghost use Rattle.hcc_rule.specs.Views.{Each};
ghost use Rattle.hcc_c.specs.ObjectPools.{AreNew, IsBack, IsEmpty, IsNew, clients_in, held_in, judged_back, judged_each};

use crate::object_holders::ObjectClientPlace;
use crate::object_session::ObjectSession;
use crate::objects::Loose;
use crate::refusal::Refusal;
use crate::shapes::Counts;
use hcc_cache::{ObjectCache, ObjectClient};
use std::alloc::Global;
use std::mem;
use std::sync::Arc;

/// A session of each client, in order, which knows its cache by this number. It is refused only
/// where memory is.
pub(crate) fn new_sessions(
    alloc: Global,
    cache: &Arc<ObjectCache, Global>,
    clients: Vec<ObjectClient>,
    number: u32,
) -> Result<Vec<Box<ObjectSession>>, Refusal>
    requires back { Each (IsBack (arc_value cache.now)) clients.items }
    ensures memory { IsOkUnless result Refusal.OutOfMemory }
    ensures made { IfOk result (λ sessions.
        AreNew (arc_value cache.now) number clients.items sessions.items) }
{
    let Ok(mut sessions) = Vec::with_capacity(alloc, clients.len()) else {
        return Err(Refusal::OutOfMemory);
    };
    for client in clients {
        match new_session(alloc, cache, client, number) {
            Ok(session) => sessions.push_reserved(session),
            Err(why) => return Err(why),
        }
    }
    Ok(sessions)
}

fn new_session(
    alloc: Global,
    cache: &Arc<ObjectCache, Global>,
    client: ObjectClient,
    number: u32,
) -> Result<Box<ObjectSession>, Refusal>
    requires back { IsBack (arc_value cache.now) client }
    ensures memory { IsOkUnless result Refusal.OutOfMemory }
    ensures client { IfOk result (λ session. session.value.client ≡ client) }
    ensures made { IfOk result (λ session. IsNew (arc_value cache.now) number session.value) }
{
    let Ok(cache) = Arc::try_clone(cache) else {
        return Err(Refusal::OutOfMemory);
    };
    let session = ObjectSession {
        cache,
        client,
        cache_number: number,
        counts: Counts::none(),
    };
    match Box::new(alloc, session) {
        Ok(session) => Ok(session),
        Err(_) => Err(Refusal::OutOfMemory),
    }
}

/// Puts each session into the place of its number.
pub(crate) fn give_each(mut sessions: Vec<Box<ObjectSession>>, places: &mut [ObjectClientPlace])
    requires { length sessions.items ≡ length places.old }
    ensures { held_in places.new ≡ map (λ session. Some session.value) sessions.items }
{
    while let Some(session) = sessions.pop() {
        let k = sessions.len();
        places[k] = ObjectClientPlace::of(Loose::of(session));
    }
}

/// Judges the clients in order: why the first that isn't taken back isn't. All stay where they are.
pub(crate) fn judge_each(
    alloc: Global,
    places: &mut [ObjectClientPlace],
    number: u32,
) -> Result<(), Refusal>
    requires { Each IsSome (held_in places.old) }
    ensures judged { result ≡ judged_each number (held_in places.old) }
    ensures same { held_in places.new ≡ held_in places.old }
{
    for k in 0..places.len() {
        match judge_in_place(alloc, &mut places[k], number) {
            Ok(()) => {}
            Err(why) => return Err(why),
        }
    }
    Ok(())
}

/// Judges one that stays in its place.
fn judge_in_place(alloc: Global, place: &mut ObjectClientPlace, number: u32) -> Result<(), Refusal>
    requires { IsSome place.old.value }
    ensures judged { IsSomeAnd place.old.value (λ session. result ≡ judged_back number session) }
    ensures same { place.new.value ≡ place.old.value }
{
    let session = mem::replace(place, ObjectClientPlace::none()).whole(alloc);
    let answer = judged(&session, number);
    *place = ObjectClientPlace::of(Loose::of(session));
    answer
}

fn judged(session: &ObjectSession, number: u32) -> Result<(), Refusal>
    ensures { result ≡ judged_back number session.now }
{
    if session.cache_number != number {
        return Err(Refusal::OtherCache);
    }
    if session.client.client().held() != 0 {
        return Err(Refusal::HandlesOut);
    }
    if session.client.untaken() != 0 {
        return Err(Refusal::Untaken);
    }
    Ok(())
}

/// Takes all clients out of their places, in order, behind those that are back.
pub(crate) fn take_each(
    alloc: Global,
    places: &mut [ObjectClientPlace],
    back: &mut Vec<ObjectClient>,
)
    requires some { Each IsSome (held_in places.old) }
    requires room { length back.old.items + length places.old ≤ vec_capacity back.old }
    ensures back { back.new.items ≡ back.old.items ++ clients_in (held_in places.old) }
    ensures room { vec_capacity back.new ≡ vec_capacity back.old }
    ensures none { Each IsEmpty (held_in places.new) }
{
    for k in 0..places.len() {
        let client = take(alloc, &mut places[k]);
        back.push_reserved(client);
    }
}

fn take(alloc: Global, place: &mut ObjectClientPlace) -> ObjectClient
    requires { IsSome place.old.value }
    ensures taken { IsSomeAnd place.old.value (λ session. result ≡ session.client) }
    ensures none { place.new.value ≡ None }
{
    let session = mem::replace(place, ObjectClientPlace::none()).whole(alloc);
    let ObjectSession { client, .. } = Box::into_inner(session);
    client
}
