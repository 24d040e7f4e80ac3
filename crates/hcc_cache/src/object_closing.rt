//! A cache of objects is closed, by all its clients.
ghost use Rattle.std.specs.Prelude.{◌≡◌, ◌≤◌, MatchResult, IfErr, IfNone, IfSome, OnOk, slice_get, Some};
ghost use Rattle.hcc_cache.specs.Closings.{with_holder};
ghost use Rattle.hcc_cache.specs.Objects.{KnowsObjects};
ghost use Rattle.hcc_cache.specs.ObjectsClosed.{AreAllBack, IsLeastWith, LeavesObjects, NoneWith, RefusesObjects, handles_of, places_in, untaken_of};

use crate::errors::ObjectCloseError;
use crate::object_cache::{ClosingRoom, ObjectCache, ObjectClient};
use crate::objects_left::ObjectsLeft;

/// A cache of objects that wasn't closed, and why: all is handed back.
#[derive(Drop)]
pub struct StaysOpen {
    pub why: ObjectCloseError,
    pub cache: ObjectCache,
    pub clients: Vec<ObjectClient>,
    pub room: ClosingRoom,
}

impl ObjectCache {
    /// Ends the cache, once all its clients are back, none holds a handle and nothing is on a list.
    /// The objects that its table has left are handed out by what it gives, each once.
    ///
    /// It is refused where not as many clients come as the cache has, then where one of them holds
    /// a handle, then where something is on the list of one; of these the least number is returned.
    /// Nothing is changed then, and all is handed back. A client that was dropped makes each close
    /// Missing. It allocates nothing. It costs a load for each client and shard, and two looks at
    /// each client.
    pub fn close(
        self,
        clients: Vec<ObjectClient>,
        room: ClosingRoom,
    ) -> Result<ObjectsLeft, StaysOpen>
        requires known { (k : _) (client : ObjectClient) → slice_get clients.items k ≡ Some client
            → KnowsObjects self client }
        requires room { self.cache.geometry.clients ≤ places_in room }
        ensures { MatchResult result
            (λ left. AreAllBack self clients.items × LeavesObjects self clients.items left)
            (λ it. RefusesObjects it.why self clients.items
            × (it.cache ≡ self) × (it.clients ≡ clients) × (it.room ≡ room)) }
    {
        match self.may_close(&clients) {
            Ok(()) => Ok(self.closed(clients, room)),
            Err(why) => Err(StaysOpen {
                why,
                cache: self,
                clients,
                room,
            }),
        }
    }

    /// Whether it may be closed by these clients.
    fn may_close(&self, clients: &[ObjectClient]) -> Result<(), ObjectCloseError>
        requires { (k : _) (client : ObjectClient) → slice_get clients.now k ≡ Some client
            → KnowsObjects self.now client }
        ensures may { OnOk result (AreAllBack self.now clients.now) }
        ensures refused { IfErr result (λ why. RefusesObjects why self.now clients.now) }
    {
        let have = clients.len();
        let want = self.cache.geometry.clients as usize;
        if have != want {
            return Err(ObjectCloseError::Missing { have, want });
        }
        if let Some(client) = least_holder(clients) {
            return Err(ObjectCloseError::HandlesOut { client });
        }
        if let Some(client) = least_untaken(clients) {
            return Err(ObjectCloseError::Untaken { client });
        }
        Ok(())
    }

    /// The same, where all came back with no handle and with nothing on a list.
    fn closed(self, clients: Vec<ObjectClient>, room: ClosingRoom) -> ObjectsLeft
        requires back { AreAllBack self clients.items }
        requires room { self.cache.geometry.clients ≤ places_in room }
        ensures { LeavesObjects self clients.items result }
    {
        let ObjectCache { cache } = self;
        let ClosingRoom { mut back } = room;
        for ObjectClient { client, gone: _ } in clients {
            back.push_reserved(client);
        }
        ObjectsLeft {
            closed: cache.closed(back),
            shard: 0,
            slot: 0,
        }
    }
}

/// The least number of a client that holds a handle.
fn least_holder(clients: &[ObjectClient]) -> Option<u32>
    ensures found { IfSome result (IsLeastWith handles_of clients.now) }
    ensures none { IfNone result (NoneWith handles_of clients.now) }
{
    let mut least = None;
    for it in clients {
        least = lower(it.client.held() as usize, it.client.number, least);
    }
    least
}

/// The least number of a client with something on its list.
fn least_untaken(clients: &[ObjectClient]) -> Option<u32>
    ensures found { IfSome result (IsLeastWith untaken_of clients.now) }
    ensures none { IfNone result (NoneWith untaken_of clients.now) }
{
    let mut least = None;
    for it in clients {
        least = lower(it.gone.len(), it.client.number, least);
    }
    least
}

/// The least number so far of a client that has some, where one more client is looked at.
fn lower(many: usize, number: u32, least: Option<u32>) -> Option<u32>
    ensures { result ≡ with_holder many number least }
{
    if many == 0 {
        return least;
    }
    match least {
        Some(least) => Some(least.min(number)),
        None => Some(number),
    }
}
