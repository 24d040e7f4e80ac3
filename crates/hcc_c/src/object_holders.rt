//! The opaque objects of a cache of objects: it, a client or what is left of it behind a pointer
//! that C keeps.
ghost use Rattle.std.specs.Prelude.{◌≡◌, Option, Some, None, IsSome};
ghost use Rattle.std.specs.Borrow.{sem};
ghost use Rattle.std_alloc.specs.Box.Ownership.{box_owns};
ghost use Rattle.std_heap.specs.contracts.GlobalAllocator.TheImpl as heap;
ghost use Rattle.std.specs.Global.{Global};
ghost use Rattle.hcc_c.specs.declared.kept_objects.KeptObjects.{KeptObjects};
ghost use Rattle.hcc_c.specs.declared.object_pool.ObjectPool.{ObjectPool};
ghost use Rattle.hcc_c.specs.declared.object_session.ObjectSession.{ObjectSession};
ghost use Rattle.hcc_c.specs.contracts.kept_objects.KeptObjects.{the_row as kept_row};
ghost use Rattle.hcc_c.specs.contracts.object_pool.ObjectPool.{the_row as pool_row};
ghost use Rattle.hcc_c.specs.contracts.object_session.ObjectSession.{the_row as session_row};
ghost use Rattle.hcc_c.specs.Places.{owns_if};

use crate::kept_objects::KeptObjects;
use crate::object_pool::ObjectPool;
use crate::object_session::ObjectSession;
use crate::objects::Loose;
use std::alloc::Global;
use std::marker::Model;

/// A client behind a pointer.
#[repr(C)]
pub struct ObjectClientAt {
    at: *mut u8,
    ghost alloc: { Global },
    ghost value: { ObjectSession },
}

impl Model for ObjectClientAt {
    ghost also_owns = { λ o.
        box_owns (heap.ghosts.dealloc_token o.alloc) session_row o.at o.value };
}

impl ObjectClientAt {
    ghost use Rattle.hcc_c.specs.ObjectLending.{LendsSession};

    /// The session behind the pointer, for one call.
    pub(crate) fn session(&mut self) -> &mut ObjectSession
        ensures* lends { sem 𝓛 (LendsSession self.entry result) }
        ensures value { result.now ≡ self.old.value }
    {
        unsafe { &mut *(self.at as *mut ObjectSession) }
    }
}

unsafe impl Send for ObjectClientAt {}

/// A cache behind a pointer.
#[repr(C)]
pub struct ObjectCacheAt {
    at: *mut u8,
    ghost alloc: { Global },
    ghost value: { ObjectPool },
}

impl Model for ObjectCacheAt {
    ghost also_owns = { λ o.
        box_owns (heap.ghosts.dealloc_token o.alloc) pool_row o.at o.value };
}

impl ObjectCacheAt {
    /// The cache itself, which C has no more.
    pub(crate) fn cache(self, alloc: Global) -> Box<ObjectPool>
        ensures { result.value ≡ self.value }
    {
        let ObjectCacheAt { at } = self;
        unsafe { Box::from_raw(alloc, at as *mut ObjectPool) }
    }
}

unsafe impl Send for ObjectCacheAt {}

/// What is left of a cache, behind a pointer. It stays on the thread that closed the cache.
#[repr(C)]
pub struct KeptObjectsAt {
    at: *mut u8,
    ghost alloc: { Global },
    ghost value: { KeptObjects },
}

impl Model for KeptObjectsAt {
    ghost also_owns = { λ o.
        box_owns (heap.ghosts.dealloc_token o.alloc) kept_row o.at o.value };
}

impl KeptObjectsAt {
    ghost use Rattle.hcc_c.specs.ObjectLending.{LendsKept};

    /// What is behind the pointer, for one call.
    pub(crate) fn kept(&mut self) -> &mut KeptObjects
        ensures* lends { sem 𝓛 (LendsKept self.entry result) }
        ensures value { result.now ≡ self.old.value }
    {
        unsafe { &mut *(self.at as *mut KeptObjects) }
    }

    /// What is left itself, which C has no more.
    pub(crate) fn whole(self, alloc: Global) -> Box<KeptObjects>
        ensures { result.value ≡ self.value }
    {
        let KeptObjectsAt { at } = self;
        unsafe { Box::from_raw(alloc, at as *mut KeptObjects) }
    }
}

/// A place for a client that C gets or keeps: none, or one behind a pointer, which is an
/// [`ObjectClientAt`] of it from then on.
#[repr(C)]
#[derive(Drop)]
pub struct ObjectClientPlace {
    at: *mut u8,
    ghost alloc: { Global },
    ghost value: { Option ObjectSession },
}

impl Model for ObjectClientPlace {
    ghost also_owns = { λ p.
        owns_if (heap.ghosts.dealloc_token p.alloc) session_row p.at p.value };
}

impl ObjectClientPlace {
    pub(crate) fn of(client: Loose<ObjectSession>) -> ObjectClientPlace
        ensures { result.value ≡ Some client.value }
    {
        let Loose { at } = client;
        ObjectClientPlace { at: at as *mut u8 }
    }

    pub(crate) fn none() -> ObjectClientPlace
        ensures { result.value ≡ None }
    {
        ObjectClientPlace {
            at: std::ptr::null_mut(),
        }
    }

    /// The client that it has, which C has no more.
    pub(crate) fn whole(self, alloc: Global) -> Box<ObjectSession>
        requires { IsSome self.value }
        ensures { self.value ≡ Some result.value }
    {
        let ObjectClientPlace { at } = self;
        unsafe { Box::from_raw(alloc, at as *mut ObjectSession) }
    }
}

/// The same for a cache.
#[repr(C)]
#[derive(Drop)]
pub struct ObjectCachePlace {
    at: *mut u8,
    ghost alloc: { Global },
    ghost value: { Option ObjectPool },
}

impl Model for ObjectCachePlace {
    ghost also_owns = { λ p.
        owns_if (heap.ghosts.dealloc_token p.alloc) pool_row p.at p.value };
}

impl ObjectCachePlace {
    pub(crate) fn of(cache: Loose<ObjectPool>) -> ObjectCachePlace
        ensures { result.value ≡ Some cache.value }
    {
        let Loose { at } = cache;
        ObjectCachePlace { at: at as *mut u8 }
    }
}

/// The same for what is left of one.
#[repr(C)]
#[derive(Drop)]
pub struct KeptObjectsPlace {
    at: *mut u8,
    ghost alloc: { Global },
    ghost value: { Option KeptObjects },
}

impl Model for KeptObjectsPlace {
    ghost also_owns = { λ p.
        owns_if (heap.ghosts.dealloc_token p.alloc) kept_row p.at p.value };
}

impl KeptObjectsPlace {
    pub(crate) fn of(kept: Loose<KeptObjects>) -> KeptObjectsPlace
        ensures { result.value ≡ Some kept.value }
    {
        let Loose { at } = kept;
        KeptObjectsPlace { at: at as *mut u8 }
    }
}

fn crosses<T: Send>(_x: &T) {}

/// A cache and a client may go to other threads. Nothing calls this: the compiler judges it.
pub fn holders_cross(cache: &ObjectCacheAt, client: &ObjectClientAt) {
    crosses(cache);
    crosses(client);
}
