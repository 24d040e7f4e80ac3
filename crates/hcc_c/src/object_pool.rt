//! A cache of objects in the hands of C, which has all its clients from the opening to the closing.
ghost use Rattle.std.specs.Prelude.{◌≡◌, ◌≤◌, IfErr, IfOk, IsOkUnless, None, OnErr, length};
ghost use Rattle.hcc_cache.specs.ObjectsClosed.{AreAllBack, LeavesObjects, places_in};
ghost use Rattle.hcc_rule.specs.Views.{Each};
ghost use Rattle.hcc_c.specs.ObjectPools.{AreFit, BeginsWith, Closes, EndsKept, EndsWith, IsBack, IsSized, IsWholePool, OpensAs, held_in};

use crate::kept_objects::KeptObjects;
use crate::object_handing::{give_each, judge_each, new_sessions, take_each};
use crate::object_holders::ObjectClientPlace;
use crate::refusal::Refusal;
use hcc_cache::{ClosingRoom, ObjectCache, ObjectClient, ObjectConfig, ObjectsLeft};
use std::alloc::Global;
use std::mem;
use std::sync::Arc;

/// A cache of objects whose clients C has.
#[derive(Drop)]
pub struct ObjectPool {
    /// There from the opening to the closing.
    pub(crate) cache: Option<Arc<ObjectCache, Global>>,
    /// The clients that are back: room for all, so that closing allocates nothing.
    pub(crate) back: Vec<ObjectClient>,
    /// What the cache's own closing needs.
    pub(crate) room: ClosingRoom,
    pub(crate) config: ObjectConfig,
    /// The cache's number, among those that are open.
    pub(crate) number: u32,
}

impl ObjectPool {
    /// A new cache of this number, whose clients go to the places, in order of their numbers. It
    /// refuses what the cache's `new` does, and where memory is refused; nothing is changed then.
    pub fn open(
        alloc: Global,
        config: ObjectConfig,
        number: u32,
        clients: &mut [ObjectClientPlace],
    ) -> Result<Box<ObjectPool>, Refusal>
        requires { length clients.old ≡ config.clients }
        ensures opens { OpensAs config number result clients.old clients.new }
    {
        let (cache, made, room) = match ObjectCache::new(alloc, config) {
            Ok(made) => made,
            Err(why) => return Err(Refusal::opening_objects(why)),
        };
        match ObjectPool::of(alloc, cache, made, room, config, number, clients) {
            Ok(pool) => Ok(pool),
            Err(why) => Err(why),
        }
    }

    /// The same, of a cache and its clients.
    fn of(
        alloc: Global,
        cache: ObjectCache,
        made: Vec<ObjectClient>,
        room: ClosingRoom,
        config: ObjectConfig,
        number: u32,
        clients: &mut [ObjectClientPlace],
    ) -> Result<Box<ObjectPool>, Refusal>
        requires sized { IsSized cache config }
        requires room { config.clients ≤ places_in room }
        requires back { Each (IsBack cache) made.items }
        requires count { length made.items ≡ length clients.old }
        ensures memory { IsOkUnless result Refusal.OutOfMemory }
        ensures nothing { OnErr result (clients.new ≡ clients.old) }
        ensures begins { IfOk result (λ pool.
            BeginsWith cache made.items config number pool.value clients.new) }
        ensures whole { IfOk result (λ pool. IsWholePool pool.value) }
    {
        let Ok(cache) = Arc::new(alloc, cache) else {
            return Err(Refusal::OutOfMemory);
        };
        let Ok(back) = Vec::with_capacity(alloc, config.clients as usize) else {
            return Err(Refusal::OutOfMemory);
        };
        let sessions = match new_sessions(alloc, &cache, made, number) {
            Ok(sessions) => sessions,
            Err(why) => return Err(why),
        };
        let pool = ObjectPool {
            cache: Some(cache),
            back,
            room,
            config,
            number,
        };
        let Ok(pool) = Box::new(alloc, pool) else {
            return Err(Refusal::OutOfMemory);
        };
        give_each(sessions, clients);
        Ok(pool)
    }

    /// Takes all clients back, ends the cache, and keeps what is left of it.
    ///
    /// It is refused by the first client whose cache has another number, or which holds a handle,
    /// or on whose list something is; then where clients of the cache are missing. Nothing is
    /// changed then.
    pub fn close(
        &mut self,
        alloc: Global,
        clients: &mut [ObjectClientPlace],
        kept: &mut KeptObjects,
    ) -> Result<(), Refusal>
        requires whole { IsWholePool self.old }
        requires clients { AreFit self.old (held_in clients.old) }
        requires empty { kept.old.left ≡ None }
        ensures ends { EndsKept result self.old self.new
            (held_in clients.old) (held_in clients.new) kept.old kept.new }
    {
        match self.end(alloc, clients) {
            Ok(left) => {
                *kept = KeptObjects { left: Some(left) };
                Ok(())
            }
            Err(why) => Err(why),
        }
    }

    /// The same, and what is left of it is returned.
    fn end(
        &mut self,
        alloc: Global,
        clients: &mut [ObjectClientPlace],
    ) -> Result<ObjectsLeft, Refusal>
        requires whole { IsWholePool self.old }
        requires clients { AreFit self.old (held_in clients.old) }
        ensures ends { EndsWith result self.old self.new
            (held_in clients.old) (held_in clients.new) }
    {
        match judge_each(alloc, clients, self.number) {
            Ok(()) => {}
            Err(why) => return Err(why),
        }
        if self.back.len() + clients.len() != self.config.clients as usize {
            return Err(Refusal::ClientsOut);
        }
        take_each(alloc, clients, &mut self.back);
        self.end_alone(alloc)
    }

    /// Ends the cache, once all its clients are back. Else it stays as it was.
    fn end_alone(&mut self, alloc: Global) -> Result<ObjectsLeft, Refusal>
        requires whole { IsWholePool self.old }
        requires all { length self.old.back.items ≡ self.old.config.clients }
        ensures shared { IfErr result (λ e. (e ≡ Refusal.Shared) × (self.new ≡ self.old)) }
        ensures closed { IfOk result (λ left. Closes left self.old self.old.back.items) }
    {
        let Some(cache) = self.cache.take() else {
            unreachable!()
        };
        match Arc::try_unwrap(cache) {
            Ok(cache) => {
                let back = mem::replace(&mut self.back, Vec::new(alloc));
                let room = mem::replace(&mut self.room, ClosingRoom::none(alloc));
                Ok(closed(cache, back, room))
            }
            Err(cache) => {
                self.cache = Some(cache);
                Err(Refusal::Shared)
            }
        }
    }
}

/// What is left of a cache whose clients are back, with no handle and nothing on a list.
fn closed(cache: ObjectCache, back: Vec<ObjectClient>, room: ClosingRoom) -> ObjectsLeft
    requires back { AreAllBack cache back.items }
    requires room { cache.cache.geometry.clients ≤ places_in room }
    ensures { LeavesObjects cache back.items result }
{
    match cache.close(back, room) {
        Ok(left) => left,
        Err(_) => unreachable!(),
    }
}
