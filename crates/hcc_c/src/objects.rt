//! The opaque objects: a cache or a client behind a pointer that C keeps.
ghost use Rattle.std.specs.Prelude.{◌≡◌, Option, Some, None, IsSome};
ghost use Rattle.std.specs.Borrow.{sem};
ghost use Rattle.std_alloc.specs.Box.Ownership.{box_owns};
ghost use Rattle.std_heap.specs.contracts.GlobalAllocator.TheImpl as heap;
ghost use Rattle.std.specs.Global.{Global};
ghost use Rattle.hcc_c.specs.declared.closed.Left.{Left};
ghost use Rattle.hcc_c.specs.declared.image.Image.{Image};
ghost use Rattle.hcc_c.specs.declared.pool.Pool.{Pool};
ghost use Rattle.hcc_c.specs.declared.session.Session.{Session};
ghost use Rattle.hcc_c.specs.contracts.closed.Left.{the_row as left_row};
ghost use Rattle.hcc_c.specs.contracts.image.Image.{the_row as image_row};
ghost use Rattle.hcc_c.specs.contracts.pool.Pool.{the_row as pool_row};
ghost use Rattle.hcc_c.specs.contracts.session.Session.{the_row as session_row};
ghost use Rattle.hcc_c.specs.Places.{owns_if};

use crate::closed::Left;
use crate::image::Image;
use crate::pool::Pool;
use crate::session::Session;
use std::alloc::Global;
use std::marker::Model;

/// A client behind a pointer.
#[repr(C)]
pub struct ClientObject {
    at: *mut u8,
    ghost alloc: { Global },
    ghost value: { Session },
}

impl Model for ClientObject {
    ghost also_owns = { λ o.
        box_owns (heap.ghosts.dealloc_token o.alloc) session_row o.at o.value };
}

impl ClientObject {
    ghost use Rattle.hcc_c.specs.Lending.{LendsSession};

    /// The session behind the pointer, for one call.
    pub(crate) fn session(&mut self) -> &mut Session
        ensures* lends { sem 𝓛 (LendsSession self.entry result) }
        ensures value { result.now ≡ self.old.value }
    {
        unsafe { &mut *(self.at as *mut Session) }
    }
}

unsafe impl Send for ClientObject {}

/// A cache behind a pointer.
#[repr(C)]
pub struct CacheObject {
    at: *mut u8,
    ghost alloc: { Global },
    ghost value: { Pool },
}

impl Model for CacheObject {
    ghost also_owns = { λ o.
        box_owns (heap.ghosts.dealloc_token o.alloc) pool_row o.at o.value };
}

impl CacheObject {
    /// The cache itself, which C has no more.
    pub(crate) fn cache(self, alloc: Global) -> Box<Pool>
        ensures { result.value ≡ self.value }
    {
        let CacheObject { at } = self;
        unsafe { Box::from_raw(alloc, at as *mut Pool) }
    }
}

unsafe impl Send for CacheObject {}

/// What is left of a cache, behind a pointer. It stays on the thread that closed the cache.
#[repr(C)]
pub struct ClosedObject {
    at: *mut u8,
    ghost alloc: { Global },
    ghost value: { Left },
}

impl Model for ClosedObject {
    ghost also_owns = { λ o.
        box_owns (heap.ghosts.dealloc_token o.alloc) left_row o.at o.value };
}

impl ClosedObject {
    ghost use Rattle.hcc_c.specs.Lending.{LendsLeft};

    /// What is behind the pointer, for one call.
    pub(crate) fn left(&mut self) -> &mut Left
        ensures* lends { sem 𝓛 (LendsLeft self.entry result) }
        ensures value { result.now ≡ self.old.value }
    {
        unsafe { &mut *(self.at as *mut Left) }
    }

    /// What is left itself, which C has no more.
    pub(crate) fn whole(self, alloc: Global) -> Box<Left>
        ensures { result.value ≡ self.value }
    {
        let ClosedObject { at } = self;
        unsafe { Box::from_raw(alloc, at as *mut Left) }
    }
}

/// Entries behind a pointer. They stay on the thread that opened them.
#[repr(C)]
pub struct ImageObject {
    at: *mut u8,
    ghost alloc: { Global },
    ghost value: { Image },
}

impl Model for ImageObject {
    ghost also_owns = { λ o.
        box_owns (heap.ghosts.dealloc_token o.alloc) image_row o.at o.value };
}

impl ImageObject {
    ghost use Rattle.hcc_c.specs.Lending.{LendsImage};

    /// The entries behind the pointer, for one call.
    pub(crate) fn image(&mut self) -> &mut Image
        ensures* lends { sem 𝓛 (LendsImage self.entry result) }
        ensures value { result.now ≡ self.old.value }
    {
        unsafe { &mut *(self.at as *mut Image) }
    }

    /// The entries themselves, which C has no more.
    pub(crate) fn whole(self, alloc: Global) -> Box<Image>
        ensures { result.value ≡ self.value }
    {
        let ImageObject { at } = self;
        unsafe { Box::from_raw(alloc, at as *mut Image) }
    }
}

/// A box as its pointer.
pub(crate) struct Loose<T> {
    pub(crate) at: *mut T,
    ghost alloc: { Global },
    ghost value: { T },
}

impl<T> Model for Loose<T> {
    ghost also_owns = { λ l.
        box_owns (heap.ghosts.dealloc_token l.alloc) T.row l.at l.value };
}

impl<T: Drop> Loose<T> {
    pub(crate) fn of(value: Box<T>) -> Loose<T>
        ensures { result.value ≡ value.value }
    {
        let at = Box::into_raw(value);
        Loose { at }
    }
}

/// A place for a client that C gets or keeps: none, or one behind a pointer, which is a
/// [`ClientObject`] of it from then on.
#[repr(C)]
#[derive(Drop)]
pub struct ClientPlace {
    at: *mut u8,
    ghost alloc: { Global },
    ghost value: { Option Session },
}

impl Model for ClientPlace {
    ghost also_owns = { λ p.
        owns_if (heap.ghosts.dealloc_token p.alloc) session_row p.at p.value };
}

impl ClientPlace {
    pub(crate) fn of(client: Loose<Session>) -> ClientPlace
        ensures { result.value ≡ Some client.value }
    {
        let Loose { at } = client;
        ClientPlace { at: at as *mut u8 }
    }

    pub(crate) fn none() -> ClientPlace
        ensures { result.value ≡ None }
    {
        ClientPlace {
            at: std::ptr::null_mut(),
        }
    }

    /// The client that it has, which C has no more.
    pub(crate) fn whole(self, alloc: Global) -> Box<Session>
        requires { IsSome self.value }
        ensures { self.value ≡ Some result.value }
    {
        let ClientPlace { at } = self;
        unsafe { Box::from_raw(alloc, at as *mut Session) }
    }
}

/// The same for a cache.
#[repr(C)]
#[derive(Drop)]
pub struct CachePlace {
    at: *mut u8,
    ghost alloc: { Global },
    ghost value: { Option Pool },
}

impl Model for CachePlace {
    ghost also_owns = { λ p.
        owns_if (heap.ghosts.dealloc_token p.alloc) pool_row p.at p.value };
}

impl CachePlace {
    pub(crate) fn of(cache: Loose<Pool>) -> CachePlace
        ensures { result.value ≡ Some cache.value }
    {
        let Loose { at } = cache;
        CachePlace { at: at as *mut u8 }
    }
}

/// The same for what is left of one.
#[repr(C)]
#[derive(Drop)]
pub struct ClosedPlace {
    at: *mut u8,
    ghost alloc: { Global },
    ghost value: { Option Left },
}

impl Model for ClosedPlace {
    ghost also_owns = { λ p.
        owns_if (heap.ghosts.dealloc_token p.alloc) left_row p.at p.value };
}

impl ClosedPlace {
    pub(crate) fn of(left: Loose<Left>) -> ClosedPlace
        ensures { result.value ≡ Some left.value }
    {
        let Loose { at } = left;
        ClosedPlace { at: at as *mut u8 }
    }
}

/// The same for entries.
#[repr(C)]
#[derive(Drop)]
pub struct ImagePlace {
    at: *mut u8,
    ghost alloc: { Global },
    ghost value: { Option Image },
}

impl Model for ImagePlace {
    ghost also_owns = { λ p.
        owns_if (heap.ghosts.dealloc_token p.alloc) image_row p.at p.value };
}

impl ImagePlace {
    pub(crate) fn of(image: Loose<Image>) -> ImagePlace
        ensures { result.value ≡ Some image.value }
    {
        let Loose { at } = image;
        ImagePlace { at: at as *mut u8 }
    }
}

fn crosses<T: Send>(_x: &T) {}

/// A cache and a client may go to other threads. Nothing calls this: the compiler judges it.
pub fn objects_cross(cache: &CacheObject, client: &ClientObject) {
    crosses(cache);
    crosses(client);
}
