//! A cache is closed, by all its clients.
ghost use Rattle.std.specs.Prelude.{◌≡◌, ◌+◌, ◌-◌, ◌<◌, ◌≤◌, ◌∷◌, ℕ, [], Some, is_some, take, MatchResult, IfOk, IfSome, IfNone, length, slice_get};
ghost use Rattle.std.specs.declared.alloc.Global.{Global};
ghost use Rattle.hcc_word.specs.Word.{is_visible};
ghost use Rattle.hcc_rule.specs.Callers.{world_at};
ghost use Rattle.hcc_rule.specs.Closing.{meta_at, words_of};
ghost use Rattle.hcc_rule.specs.Ending.{ShowsWorld};
ghost use Rattle.hcc_table.specs.Standing.{shown_at};
ghost use Rattle.hcc_shard.specs.declared.entries.ClosedShard.{ClosedShard};
ghost use Rattle.hcc_shard.specs.declared.seat.ShardSeat.{ShardSeat};
ghost use Rattle.hcc_shard.specs.declared.shard.Shard.{Shard};
ghost use Rattle.hcc_shard.specs.Callers.{view_of};
ghost use Rattle.hcc_shard.specs.Closed.{HoldsNothing};
ghost use Rattle.hcc_shard.specs.Ended.{past_of};
ghost use Rattle.hcc_cache.specs.declared.cache.Cache.{Cache};
ghost use Rattle.hcc_cache.specs.declared.client.Client.{Client};
ghost use Rattle.hcc_cache.specs.declared.closed.Closed.{Closed};
ghost use Rattle.hcc_cache.specs.declared.seeded.Seeded.{Seeded};
ghost use Rattle.hcc_cache.specs.Clients.{held_by};
ghost use Rattle.hcc_cache.specs.Closings.{all_joined, views_at, with_holder, AreBack, HasLast, IsClosed, IsLeastHolder, KeepsFront, Refuses};
ghost use Rattle.hcc_cache.specs.Ended.{IsMostKnown, LeavesWorlds};
ghost use Rattle.hcc_cache.specs.Keys.{fits_seeded, tag_at};
ghost use Rattle.hcc_cache.specs.Known.{Knows};

use crate::cache::Cache;
use crate::client::Client;
use crate::closed::Closed;
use crate::errors::CloseError;
use crate::seeded::Seeded;
use arrayvec::ArrayVec;
use hcc_rule::Tag;
use hcc_shard::{Shard, ShardSeat};
use std::alloc::Global;

impl<T: Tag + Copy> Cache<T> {
    /// Ends the cache, once all its clients are back and none holds a handle: the entries that are
    /// left are read from what it gives. They are those of the worlds to which all led that clients
    /// did: closing hides nothing, ages nothing and frees nothing.
    ///
    /// It is refused where fewer clients come than the cache has, then where one of them holds a
    /// handle, of which the least number is returned. Nothing is changed then, and all is handed
    /// back. A client that was dropped makes each close Missing. It allocates nothing. It costs a
    /// load for each client and shard.
    pub fn close(
        self,
        clients: Vec<Client<T>>,
    ) -> Result<Closed, (CloseError, Cache<T>, Vec<Client<T>>)>
        requires { (k : ℕ) (client : _) → slice_get clients.items k ≡ Some client
            → Knows self client }
        ensures closes { MatchResult result
            (λ closed. AreBack self clients.items × IsClosed T.fits self clients.items closed)
            (λ refused. Refuses refused.0 self clients.items
            × (refused.1 ≡ self) × (refused.2 ≡ clients)) }
        ensures left { IfOk result (LeavesWorlds T.fits self clients.items) }
    {
        let have = clients.len();
        let want = self.geometry.clients;
        if have < want as usize {
            let have = have as u32;
            return Err((CloseError::Missing { have, want }, self, clients));
        }
        if let Some(client) = least_holder(&clients) {
            return Err((CloseError::HandlesOut { client }, self, clients));
        }
        Ok(self.closed(clients))
    }

    /// The same, where all came back with no handle.
    pub(crate) fn closed(self, mut clients: Vec<Client<T>>) -> Closed
        requires { AreBack self clients.items }
        ensures closes { IsClosed T.fits self clients.items result }
        ensures left { LeavesWorlds T.fits self clients.items result }
    {
        let Cache {
            tag: _,
            seed,
            geometry: _,
            capacity: _,
            strict: _,
            mut shards,
        } = self;
        let mut closed = ArrayVec::new();
        while let Some(shard) = shards.pop() {
            let seat = joined(&shard, shards.len(), &mut clients);
            closed.push(Some(shard.close_joined(seat)));
        }
        closed.reverse();
        Closed {
            seed,
            shards: closed,
        }
    }
}

/// The least number of a client that holds a handle.
fn least_holder<T>(clients: &[Client<T>]) -> Option<u32>
    ensures found { IfSome result (IsLeastHolder clients.now) }
    ensures none { IfNone result ((k : ℕ) (client : _) → slice_get clients.now k ≡ Some client
        → held_by client ≡ 0) }
{
    let mut least = None;
    for client in clients {
        least = with_one(client, least);
    }
    least
}

/// The least number of a holder so far, where one more client is looked at.
fn with_one<T>(client: &Client<T>, least: Option<u32>) -> Option<u32>
    ensures { result ≡ with_holder (held_by client.now) client.now.number least }
{
    if client.held() == 0 {
        return least;
    }
    match least {
        Some(least) => Some(least.min(client.number)),
        None => Some(client.number),
    }
}

/// The last seats of all clients, joined to one.
fn joined<T: Tag>(
    shard: &Shard<Seeded<T>, Global>,
    at: usize,
    clients: &mut Vec<Client<T>>,
) -> ShardSeat<Seeded<T>>
    requires some { 1 ≤ length clients.old.items }
    requires last { (k : ℕ) (client : _) → slice_get clients.old.items k ≡ Some client
        → HasLast shard.now at client }
    ensures seat { HoldsNothing shard.now result }
    ensures view { view_of result ≡ all_joined (views_at at clients.old.items) }
    ensures known { IsMostKnown at clients.old.items (length clients.old.items) (past_of result) }
    ensures count { length clients.new.items ≡ length clients.old.items }
    ensures left { (k : ℕ) (client : _) → slice_get clients.new.items k ≡ Some client
        → (was : _) × (slice_get clients.old.items k ≡ Some was) × KeepsFront at was client }
{
    let mut seat = taken(&mut clients[0]);
    for k in 1..clients.len() {
        let other = taken(&mut clients[k]);
        shard.join(&mut seat, other);
    }
    seat
}

/// The last seat of a client.
fn taken<T>(client: &mut Client<T>) -> ShardSeat<Seeded<T>>
    requires { 0 < length client.old.seats.items }
    ensures last { slice_get client.old.seats.items (length client.old.seats.items - 1)
        ≡ Some result }
    ensures left { client.new.seats.items
        ≡ take (length client.old.seats.items - 1) client.old.seats.items }
    ensures rest { client.new ≡ record client.old { seats = client.new.seats } }
{
    client.seats.pop().unwrap()
}

/// What is left of a cache of one client.
pub fn law_closed<T: Tag>()
    // The words of each shard are those of the world that the client knew of it: its slots, their
    // entries, hidden ones too, with uses and marks, the sums over them, and the hand.
    ensures worlds { (cache : Cache T) (client : Client T) (closed : Closed)
        → LeavesWorlds T.fits cache (client ∷ []) closed
        → (s : ℕ) (shard : Shard (Seeded T) Global) (seat : ShardSeat (Seeded T))
        (left : ClosedShard Global) → slice_get cache.shards.items s ≡ Some shard
        → slice_get client.seats.items s ≡ Some seat
        → slice_get closed.shards.items s ≡ Some (Some left)
        → ShowsWorld (fits_seeded T.fits) (tag_at cache s) cache.geometry (words_of left.table)
        (view_of seat) (world_at shard.table seat.seat) }

    // So a slot is visible exactly where that world shows an entry in it.
    ensures shown { (cache : Cache T) (client : Client T) (closed : Closed)
        → LeavesWorlds T.fits cache (client ∷ []) closed
        → (s : ℕ) (shard : Shard (Seeded T) Global) (seat : ShardSeat (Seeded T))
        (left : ClosedShard Global) → slice_get cache.shards.items s ≡ Some shard
        → slice_get client.seats.items s ≡ Some seat
        → slice_get closed.shards.items s ≡ Some (Some left)
        → (slot : ℕ) → slot < cache.geometry.slots
        → is_visible (meta_at cache.geometry.room (words_of left.table) slot)
        ≡ is_some (shown_at (world_at shard.table seat.seat) slot) }
{}
