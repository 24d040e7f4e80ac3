//! The calls of a cache, as C has them. Each says by its status and its outputs what the call of
//! the cache behind the pointer answered, and comes to what that call comes to.
ghost use Rattle.std.specs.Prelude.{◌≡◌, None, Some, OnErr, OnOk, length};
ghost use Rattle.hcc_cache.specs.Configs.{checked};
ghost use Rattle.hcc_rule.specs.Views.{Each};
ghost use Rattle.hcc_c.specs.Answers.{given_or, placed, status_of_checked, status_of_given};
ghost use Rattle.hcc_c.specs.Pools.{AreFit, EndsAs, IsEmpty, IsWholePool, OpensAs, held_in};
ghost use Rattle.hcc_c.specs.Shapes.{config_of};

use crate::answers::{DONE, told_cache, told_given};
use crate::objects::{CacheObject, CachePlace, ClientPlace, Loose};
use crate::pool::Pool;
use crate::refusal::Refusal;
use crate::shapes::{CConfig, Totals};
use std::alloc::Global;

/// What `ferretgold_raw_open` refuses of these sizes, whatever memory there is.
#[unsafe(no_mangle)]
pub extern "C" fn ferretgold_raw_config_check(setup: &CConfig) -> u32
    ensures { result ≡ status_of_checked (checked (config_of setup.now)) }
{
    match setup.config().check() {
        Ok(()) => DONE,
        Err(why) => Refusal::opening(why).code(),
    }
}

/// Opens a cache, and gives all its clients: each goes to the place of its number.
#[unsafe(no_mangle)]
pub extern "C" fn ferretgold_raw_open(
    alloc: Global,
    setup: &CConfig,
    number: u32,
    clients: &mut [ClientPlace],
    cache: &mut CachePlace,
) -> u32
    requires cache { cache.old.value ≡ None }
    requires clients { Each IsEmpty (held_in clients.old) }
    requires count { length clients.old ≡ setup.now.clients }
    ensures opens { (answer : _)
        × OpensAs (config_of setup.now) number answer clients.old clients.new
        × (result ≡ status_of_given answer) × (cache.new.value ≡ placed answer) }
{
    let answer = Pool::open(alloc, setup.config(), number, clients);
    told_cache(answer, cache)
}

/// Takes all clients back and ends the cache. No two caches that are open have one number: so a
/// client that has this cache's number is one of it. Where the cache isn't ended, `kept` has it; if
/// a client is the reason, or one is missing, all are in their places still.
#[unsafe(no_mangle)]
pub extern "C" fn ferretgold_raw_close(
    alloc: Global,
    cache: CacheObject,
    clients: &mut [ClientPlace],
    totals: &mut Totals,
    kept: &mut CachePlace,
) -> u32
    requires cache { IsWholePool cache.value }
    requires clients { AreFit cache.value (held_in clients.old) }
    requires kept { kept.old.value ≡ None }
    ensures ends { (answer : _) × (left : _)
        × EndsAs answer cache.value left (held_in clients.old) (held_in clients.new)
        × (result ≡ status_of_given answer) × (totals.new ≡ given_or answer totals.old)
        × OnErr answer (kept.new.value ≡ Some left)
        × OnOk answer (kept.new.value ≡ None) }
{
    let mut cache = cache.cache(alloc);
    let answer = cache.close(alloc, clients);
    if answer.is_err() {
        *kept = CachePlace::of(Loose::of(cache));
    }
    told_given(answer, totals)
}
