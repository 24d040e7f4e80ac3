//! The calls of a cache of objects, as C has them, and of what is left of it. Each says by its
//! status and its outputs what the call behind the pointer answered, and comes to what that comes
//! to.
ghost use Rattle.std.specs.Prelude.{◌≡◌, None, Some, IfOk, IsOkUnless, OnErr, OnOk, length};
ghost use Rattle.hcc_cache.specs.ObjectConfigs.{checked_objects};
ghost use Rattle.hcc_rule.specs.Views.{Each};
ghost use Rattle.hcc_c.specs.Answers.{placed, status_of_given};
ghost use Rattle.hcc_c.specs.ObjectAnswers.{gone_key_or, gone_object_or, status_of_checked, status_of_gone};
ghost use Rattle.hcc_c.specs.ObjectLending.{IsKeptThere};
ghost use Rattle.hcc_c.specs.ObjectPools.{AreFit, EndsKept, IsEmpty, IsWholePool, OpensAs, held_in};
ghost use Rattle.hcc_c.specs.ObjectShapes.{config_of};
ghost use Rattle.hcc_c.specs.ObjectsKept.{EndsWalk, GivesNext};

use crate::answers::{DONE, told_done};
use crate::kept_objects::KeptObjects;
use crate::object_answers::{told_gone, told_kept, told_pool};
use crate::object_holders::{
    KeptObjectsAt, KeptObjectsPlace, ObjectCacheAt, ObjectCachePlace, ObjectClientPlace,
};
use crate::object_pool::ObjectPool;
use crate::object_shapes::{CObject, CObjectConfig};
use crate::objects::Loose;
use crate::refusal::Refusal;
use crate::shapes::Key;
use std::alloc::Global;

/// What `ferretgold_raw_object_open` refuses of these sizes, whatever memory there is.
#[unsafe(no_mangle)]
pub extern "C" fn ferretgold_raw_object_config_check(setup: &CObjectConfig) -> u32
    ensures { result ≡ status_of_checked (checked_objects (config_of setup.now)) }
{
    match setup.config().check() {
        Ok(()) => DONE,
        Err(why) => Refusal::opening_objects(why).code(),
    }
}

/// Opens a cache of objects, and gives all its clients: each goes to the place of its number.
#[unsafe(no_mangle)]
pub extern "C" fn ferretgold_raw_object_open(
    alloc: Global,
    setup: &CObjectConfig,
    number: u32,
    clients: &mut [ObjectClientPlace],
    cache: &mut ObjectCachePlace,
) -> u32
    requires cache { cache.old.value ≡ None }
    requires clients { Each IsEmpty (held_in clients.old) }
    requires count { length clients.old ≡ setup.now.clients }
    ensures opens { (answer : _)
        × OpensAs (config_of setup.now) number answer clients.old clients.new
        × (result ≡ status_of_given answer) × (cache.new.value ≡ placed answer) }
{
    let answer = ObjectPool::open(alloc, setup.config(), number, clients);
    told_pool(answer, cache)
}

/// Gives a place for what is left of a cache of objects.
#[unsafe(no_mangle)]
pub extern "C" fn ferretgold_raw_objects_open(alloc: Global, kept: &mut KeptObjectsPlace) -> u32
    requires { kept.old.value ≡ None }
    ensures opens { (answer : _) × IsOkUnless answer Refusal.OutOfMemory
        × IfOk answer (λ made. made.value.left ≡ None)
        × (result ≡ status_of_given answer) × (kept.new.value ≡ placed answer) }
{
    let answer = KeptObjects::open(alloc);
    told_kept(answer, kept)
}

/// Takes all clients back and ends the cache, and keeps what is left of it. No two caches that are
/// open have one number: so a client that has this cache's number is one of it. Where the cache
/// isn't ended, `kept` has it; if a client is the reason, or one is missing, all are in their
/// places still.
#[unsafe(no_mangle)]
pub extern "C" fn ferretgold_raw_object_close(
    alloc: Global,
    cache: ObjectCacheAt,
    clients: &mut [ObjectClientPlace],
    left: &mut KeptObjectsAt,
    kept: &mut ObjectCachePlace,
) -> u32
    requires cache { IsWholePool cache.value }
    requires clients { AreFit cache.value (held_in clients.old) }
    requires empty { left.old.value.left ≡ None }
    requires kept { kept.old.value ≡ None }
    ensures there { IsKeptThere left.old left.new }
    ensures ends { (answer : _) × (pool : _)
        × EndsKept answer cache.value pool (held_in clients.old) (held_in clients.new)
        left.old.value left.new.value
        × (result ≡ status_of_given answer)
        × OnErr answer (kept.new.value ≡ Some pool)
        × OnOk answer (kept.new.value ≡ None) }
{
    let mut cache = cache.cache(alloc);
    let answer = cache.close(alloc, clients, left.kept());
    if answer.is_err() {
        *kept = ObjectCachePlace::of(Loose::of(cache));
    }
    told_done(answer)
}

/// Hands out the next object that is left, with the key of its insertion.
#[unsafe(no_mangle)]
pub extern "C" fn ferretgold_raw_objects_next(
    left: &mut KeptObjectsAt,
    key: &mut Key,
    object: &mut CObject,
) -> u32
    ensures there { IsKeptThere left.old left.new }
    ensures gives { (answer : _) × GivesNext answer left.old.value.left left.new.value.left
        × (result ≡ status_of_gone answer) × (key.new ≡ gone_key_or answer key.old)
        × (object.new ≡ gone_object_or answer object.old) }
{
    let answer = left.kept().next();
    told_gone(answer, key, object)
}

/// Frees what is left of a cache, once `ferretgold_raw_objects_next` has said that nothing is left.
/// Else `kept` has it, as it was.
#[unsafe(no_mangle)]
pub extern "C" fn ferretgold_raw_objects_end(
    alloc: Global,
    left: KeptObjectsAt,
    kept: &mut KeptObjectsPlace,
) -> u32
    requires { kept.old.value ≡ None }
    ensures ends { (answer : _) × EndsWalk answer left.value.left
        × (result ≡ status_of_given answer)
        × OnErr answer (kept.new.value ≡ Some left.value)
        × OnOk answer (kept.new.value ≡ None) }
{
    let mut left = left.whole(alloc);
    let answer = left.end();
    if answer.is_err() {
        *kept = KeptObjectsPlace::of(Loose::of(left));
    }
    told_done(answer)
}
