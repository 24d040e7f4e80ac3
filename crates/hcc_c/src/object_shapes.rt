//! What crosses to C of a cache of objects, in C's layout.
ghost use Rattle.std.specs.Prelude.{◌≡◌, Ok};
ghost use Rattle.hcc_c.specs.ObjectCounts.{counted_pinned, counted_put};
ghost use Rattle.hcc_c.specs.ObjectShapes.{c_held_of, c_object_of, config_of, object_of};

use crate::shapes::{CHandle, Counts, Key, one_more};
use hcc_cache::{HeldObject, Object, ObjectConfig, ObjectError, Placing};
use std::mem::size_of;

// The sizes that C has.
const _: () = prove!(size_of::<CObject>() == 16);

const _: () = prove!(size_of::<CHeldObject>() == 64);

const _: () = prove!(size_of::<CObjectConfig>() == 48);

/// What an entry stands for, as C keeps it: where it lies, and of which kind it is.
#[derive(Clone, Copy, Debug, PartialEq, Eq)]
#[repr(C)]
pub struct CObject {
    pub address: u64,
    pub kind: u16,
}

impl CObject {
    /// That of an object of the cache.
    pub(crate) fn of(object: Object) -> CObject
        ensures { result ≡ c_object_of object }
    {
        CObject {
            address: object.address,
            kind: object.kind,
        }
    }

    /// The cache's object of it.
    pub(crate) fn object(&self) -> Object
        ensures { result ≡ object_of self.now }
    {
        Object {
            address: self.address,
            kind: self.kind,
        }
    }
}

/// What a walk holds at a slot, as C keeps it: a handle on the entry there, and what its insertion
/// gave.
#[derive(Clone, Copy, Debug, PartialEq, Eq)]
#[repr(C)]
pub struct CHeldObject {
    pub handle: CHandle,
    pub key: Key,
    pub object: CObject,
    pub charge: u64,
}

impl CHeldObject {
    /// That of what the cache of this number holds.
    pub(crate) fn of(cache: u32, held: HeldObject) -> CHeldObject
        ensures { result ≡ c_held_of cache held }
    {
        CHeldObject {
            handle: CHandle::of(cache, held.handle),
            key: Key::words(held.key),
            object: CObject::of(held.object),
            charge: held.charge,
        }
    }
}

/// How large a cache of objects is, and how it behaves: the fields of its configuration.
#[derive(Clone, Copy, Debug, PartialEq, Eq)]
#[repr(C)]
pub struct CObjectConfig {
    pub slots: u32,
    pub clients: u32,
    pub handles: u32,
    /// How many entries a client's list takes of what its calls free.
    pub gone: u32,
    pub shards: u32,
    pub strict: bool,
    pub marks: bool,
    pub capacity: u64,
    pub serials: u64,
    pub seed: u64,
}

impl CObjectConfig {
    /// The cache's configuration of these numbers.
    pub(crate) fn config(&self) -> ObjectConfig
        ensures { result ≡ config_of self.now }
    {
        ObjectConfig {
            slots: self.slots,
            clients: self.clients,
            handles: self.handles,
            gone: self.gone,
            shards: self.shards,
            capacity: self.capacity,
            strict: self.strict,
            marks: self.marks,
            serials: self.serials,
            seed: self.seed,
        }
    }
}

impl Counts {
    /// Counts an insertion of an object, and one with a handle.
    pub(crate) fn put(&mut self, answer: Result<Placing, ObjectError>)
        ensures { self.new ≡ counted_put (Ok answer) self.old }
    {
        match answer {
            Ok(Placing::Placed) => one_more(&mut self.placed),
            Ok(Placing::Dropped { .. }) => one_more(&mut self.dropped),
            Ok(Placing::Standalone { .. }) => one_more(&mut self.standalone),
            Err(_) => one_more(&mut self.refused),
        }
    }

    pub(crate) fn put_pinned(&mut self, answer: Result<(CHandle, Placing), ObjectError>)
        ensures { self.new ≡ counted_pinned (Ok answer) self.old }
    {
        match answer {
            Ok((_, placing)) => self.put(Ok(placing)),
            Err(why) => self.put(Err(why)),
        }
    }
}
