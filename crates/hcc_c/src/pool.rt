//! A cache in the hands of C, which has all its clients from the opening to the closing.
ghost use Rattle.std.specs.Prelude.{◌≡◌, ◌≤◌, IfOk, IfErr, IsOkUnless, OnErr, length};
ghost use Rattle.hcc_cache.specs.Closings.{AreBack, IsClosed};
ghost use Rattle.hcc_cache.specs.Ended.{LeavesWorlds};
ghost use Rattle.hcc_rule.specs.Views.{Each};
ghost use Rattle.hcc_c.specs.Pools.{AreFit, BeginsWith, Closes, EndsAs, EndsKept, EndsWith, IsBack, IsSized, IsWholePool, OpensAs, held_in};
ghost use Rattle.hcc_c.specs.Sessions.{any};

use crate::closed::{Left, totals};
use crate::handing::{give_each, judge_each, new_sessions, take_each};
use crate::objects::ClientPlace;
use crate::refusal::Refusal;
use crate::shapes::Totals;
use hcc_cache::{AnyBytes, Cache, Client, Closed, Config};
use std::alloc::Global;
use std::mem;
use std::sync::Arc;

/// A cache whose clients C has.
#[derive(Drop)]
pub struct Pool {
    /// There from the opening to the closing.
    pub(crate) cache: Option<Arc<Cache<AnyBytes>, Global>>,
    /// The clients that are back: room for all, so that closing allocates nothing.
    pub(crate) back: Vec<Client<AnyBytes>>,
    pub(crate) config: Config,
    /// The cache's number, among those that are open.
    pub(crate) number: u32,
}

impl Pool {
    /// A new cache of this number, whose clients go to the places, in order of their numbers. It
    /// refuses what the cache's `new` does, and where memory is refused; nothing is changed then.
    pub fn open(
        alloc: Global,
        config: Config,
        number: u32,
        clients: &mut [ClientPlace],
    ) -> Result<Box<Pool>, Refusal>
        requires { length clients.old ≡ config.clients }
        ensures opens { OpensAs config number result clients.old clients.new }
    {
        let (cache, made) = match Cache::new(alloc, config, AnyBytes) {
            Ok(made) => made,
            Err(why) => return Err(Refusal::opening(why)),
        };
        match Pool::of(alloc, cache, made, config, number, clients) {
            Ok(pool) => Ok(pool),
            Err(why) => Err(why),
        }
    }

    /// The same, of a cache and its clients.
    pub(crate) fn of(
        alloc: Global,
        cache: Cache<AnyBytes>,
        made: Vec<Client<AnyBytes>>,
        config: Config,
        number: u32,
        clients: &mut [ClientPlace],
    ) -> Result<Box<Pool>, Refusal>
        requires sized { IsSized cache config }
        requires back { Each (IsBack cache) made.items }
        requires count { length made.items ≡ length clients.old }
        ensures memory { IsOkUnless result Refusal.OutOfMemory }
        ensures nothing { OnErr result (clients.new ≡ clients.old) }
        ensures begins { IfOk result (λ pool.
            BeginsWith cache made.items config number pool.value clients.new) }
        ensures whole { IfOk result (λ pool. IsWholePool pool.value) }
    {
        let Ok(cache) = Arc::new(alloc, cache) else {
            return Err(Refusal::OutOfMemory);
        };
        let Ok(back) = Vec::with_capacity(alloc, config.clients as usize) else {
            return Err(Refusal::OutOfMemory);
        };
        let sessions = match new_sessions(alloc, &cache, made, config, number) {
            Ok(sessions) => sessions,
            Err(why) => return Err(why),
        };
        let pool = Pool {
            cache: Some(cache),
            back,
            config,
            number,
        };
        let Ok(pool) = Box::new(alloc, pool) else {
            return Err(Refusal::OutOfMemory);
        };
        give_each(sessions, clients);
        Ok(pool)
    }

    /// Takes all clients back, ends the cache, and tells what is left of it in sum.
    ///
    /// It is refused by the first client whose cache has another number, or which holds a handle;
    /// then where clients of the cache are missing. Nothing is changed then.
    pub fn close(&mut self, alloc: Global, clients: &mut [ClientPlace]) -> Result<Totals, Refusal>
        requires whole { IsWholePool self.old }
        requires clients { AreFit self.old (held_in clients.old) }
        ensures ends { EndsAs result self.old self.new
            (held_in clients.old) (held_in clients.new) }
    {
        match self.end(alloc, clients) {
            Ok(closed) => Ok(totals(&closed)),
            Err(why) => Err(why),
        }
    }

    /// The same, and what is left of it is kept.
    pub fn close_keeping(
        &mut self,
        alloc: Global,
        clients: &mut [ClientPlace],
        left: &mut Left,
    ) -> Result<(), Refusal>
        requires whole { IsWholePool self.old }
        requires clients { AreFit self.old (held_in clients.old) }
        ensures ends { EndsKept result self.old self.new
            (held_in clients.old) (held_in clients.new) left.old left.new }
    {
        match self.end(alloc, clients) {
            Ok(closed) => {
                left.closed = Some(closed);
                Ok(())
            }
            Err(why) => Err(why),
        }
    }

    /// The same, and what is left of it is returned.
    fn end(&mut self, alloc: Global, clients: &mut [ClientPlace]) -> Result<Closed, Refusal>
        requires whole { IsWholePool self.old }
        requires clients { AreFit self.old (held_in clients.old) }
        ensures ends { EndsWith result self.old self.new
            (held_in clients.old) (held_in clients.new) }
    {
        match judge_each(alloc, clients, self.number) {
            Ok(()) => {}
            Err(why) => return Err(why),
        }
        if self.back.len() + clients.len() != self.config.clients as usize {
            return Err(Refusal::ClientsOut);
        }
        take_each(alloc, clients, &mut self.back);
        self.end_alone(alloc)
    }

    /// Ends the cache, once all its clients are back. Else it stays as it was.
    fn end_alone(&mut self, alloc: Global) -> Result<Closed, Refusal>
        requires whole { IsWholePool self.old }
        requires all { self.old.config.clients ≤ length self.old.back.items }
        ensures shared { IfErr result (λ e. (e ≡ Refusal.Shared) × (self.new ≡ self.old)) }
        ensures closed { IfOk result (λ closed. Closes closed self.old self.old.back.items) }
    {
        let Some(cache) = self.cache.take() else {
            unreachable!()
        };
        match Arc::try_unwrap(cache) {
            Ok(cache) => {
                let back = mem::replace(&mut self.back, Vec::new(alloc));
                Ok(closed(cache, back))
            }
            Err(cache) => {
                self.cache = Some(cache);
                Err(Refusal::Shared)
            }
        }
    }
}

/// What is left of a cache whose clients are back, with no handle.
fn closed(cache: Cache<AnyBytes>, back: Vec<Client<AnyBytes>>) -> Closed
    requires { AreBack cache back.items }
    ensures closes { IsClosed any cache back.items result }
    ensures left { LeavesWorlds any cache back.items result }
{
    match cache.close(back) {
        Ok(closed) => closed,
        Err(_) => unreachable!(),
    }
}
