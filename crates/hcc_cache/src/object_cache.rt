//! The cache of objects that threads share, its clients, and the room that its closing needs.
ghost use Rattle.std.specs.Prelude.{◌≡◌, ◌≤◌, [], IfOk, vec_capacity};

use crate::cache::Cache;
use crate::client::Client;
use crate::gone::{GoneList, Objects};
use std::alloc::{AllocError, Global};

/// A cache of objects. Threads share it by reference, and each works through a client of its own.
///
/// What its slots have when it is dropped in place of being closed is lost to the program.
#[derive(Drop)]
pub struct ObjectCache {
    pub(crate) cache: Cache<Objects>,
}

/// A client of a cache of objects, with the list of what its calls freed. One thread works with it
/// at a time; it may go from thread to thread.
///
/// What is on the list of a client that is dropped is lost to the program.
#[derive(Drop)]
pub struct ObjectClient {
    pub(crate) client: Client<Objects>,
    pub(crate) gone: GoneList,
}

/// Room in which closing gathers a cache's clients, so that it takes no memory. It is no part of
/// the cache, since threads can't share what may have clients in it.
#[derive(Drop)]
pub struct ClosingRoom {
    pub(crate) back: Vec<Client<Objects>>,
    ghost empty: { back.items ≡ [] },
}

impl ClosingRoom {
    /// Room for so many clients.
    pub(crate) fn open(alloc: Global, clients: u32) -> Result<ClosingRoom, AllocError>
        ensures { IfOk result (λ room. clients ≤ vec_capacity room.back) }
    {
        let back = Vec::with_capacity(alloc, clients as usize)?;
        Ok(ClosingRoom { back })
    }

    /// Room for none, in place of one that a closing takes. It takes no memory.
    pub fn none(alloc: Global) -> ClosingRoom {
        ClosingRoom {
            back: Vec::new(alloc),
        }
    }
}
