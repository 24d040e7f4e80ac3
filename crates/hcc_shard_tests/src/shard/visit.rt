//! How clients come to a new shard, and leave it before it is closed.
ghost use Rattle.std.specs.Prelude.{◌≡◌, ◌≤◌, IfOk, if◌then◌else◌};
ghost use Rattle.hcc_shard_tests.specs.ShardGuests.{AreHome, IsGuest};
ghost use Rattle.hcc_shard.specs.Callers.{geometry_of};
ghost use Rattle.hcc_shard.specs.Seated.{AreBegun, AreNew};

use super::guest::{Guest, Store};
use crate::any::AnyBytes;
use hcc_rule::{Geometry, ImageEntry};
use hcc_shard::{ClosedShard, ReopenError, Shard, ShardSeat};
use hcc_table::{IfLast, Use};
use std::alloc::{AllocError, Global};
use std::process::Abort;

/// What a shard is made of.
#[derive(Clone, Copy)]
pub(super) struct Start {
    /// Whether it has 64 slots, in place of 8.
    pub(super) large: bool,
    pub(super) capacity: u32,
    pub(super) strict: bool,
    pub(super) marks: bool,
}

/// The seats of a shard's clients.
pub(super) type Seats = Vec<ShardSeat<AnyBytes>, Global>;

/// A new shard of so many clients, with values of at most 16 bytes, the clients' seats, and its
/// sizes.
pub(super) fn opened(
    alloc: Global,
    start: Start,
    clients: u32,
) -> Result<(Store, Seats, Geometry), AllocError>
    requires clients { (1 ≤ clients) × (clients ≤ 64) }
    ensures seats { IfOk result (λ made. AreNew made.0 0 made.1.items) }
    ensures sizes { IfOk result (λ made. made.2 ≡ geometry_of made.0) }
{
    let sizes = sizes(start, clients);
    let capacity = start.capacity as u64;
    let (shard, seats) = Shard::new(alloc, sizes, capacity, start.strict, start.marks, AnyBytes)?;
    Ok((shard, seats, sizes))
}

/// A shard of one client that begins with an image, the client's seat, and the shard's sizes.
pub(super) fn reopened(
    alloc: Global,
    start: Start,
    image: &Vec<ImageEntry>,
) -> Result<(Store, Seats, Geometry), ReopenError>
    ensures seats { IfOk result (λ made. AreBegun made.0 image.now.items made.1.items) }
    ensures sizes { IfOk result (λ made. made.2 ≡ geometry_of made.0) }
{
    let sizes = sizes(start, 1);
    let capacity = start.capacity as u64;
    let (strict, marks) = (start.strict, start.marks);
    let (shard, seats) = Shard::reopen(alloc, sizes, capacity, strict, marks, image, AnyBytes)?;
    Ok((shard, seats, sizes))
}

/// The sizes of a shard.
fn sizes(start: Start, clients: u32) -> Geometry
    ensures { result ≡ record {
      slots = if start.large then 64 else 8;
      room = 2;
      clients = clients;
    } }
{
    Geometry {
        slots: if start.large { 64 } else { 8 },
        room: 2,
        clients,
    }
}

/// The client of the last seat, at its shard.
pub(super) fn comes<'a>(
    rt: &impl Abort,
    alloc: Global,
    shard: &'a Store,
    sizes: Geometry,
    seats: &mut Seats,
) -> Guest<'a>
    requires sizes { sizes ≡ geometry_of shard.now }
    requires new { AreNew shard.now 0 seats.old.items }
    ensures new { AreNew shard.now 0 seats.new.items }
    ensures shard { result.shard ≡ shard.entry }
    ensures keeps { IsGuest result.shard.now result.seat result.pins.items result.standing.items
        result.next }
{
    let seat = seats.pop().expect(rt, "no seat is left");
    let pins = Vec::new(alloc);
    let standing = Vec::new(alloc);
    Guest {
        shard,
        sizes,
        seat,
        pins,
        standing,
        next: 0,
    }
}

/// The only client of a shard that begins with an image, at its shard. Its next serial is the
/// number of entries.
pub(super) fn comes_back<'a>(
    rt: &impl Abort,
    alloc: Global,
    shard: &'a Store,
    sizes: Geometry,
    seats: &mut Seats,
    image: &Vec<ImageEntry>,
) -> Guest<'a>
    requires sizes { sizes ≡ geometry_of shard.now }
    requires begun { AreBegun shard.now image.now.items seats.old.items }
    ensures shard { result.shard ≡ shard.entry }
    ensures keeps { IsGuest result.shard.now result.seat result.pins.items result.standing.items
        result.next }
{
    assert!(rt; !seats.is_empty(), "no seat is left");
    let seat = seats.remove(0);
    let pins = Vec::new(alloc);
    let standing = Vec::new(alloc);
    Guest {
        shard,
        sizes,
        seat,
        pins,
        standing,
        next: image.len() as u64,
    }
}

/// A client lets go of what it holds, and its seat joins those that are back.
pub(super) fn leaves(rt: &impl Abort, me: Guest, back: &mut Seats) -> Result<(), AllocError>
    requires keeps { IsGuest me.shard.now me.seat me.pins.items me.standing.items me.next }
    requires back { AreHome me.shard.now back.old.items }
    ensures back { IfOk result (λ _. AreHome me.entry.shard.now back.new.items) }
{
    let mut me = me;
    for pin in 0..me.pins.len() {
        assert!(rt; !me.pins.is_empty());
        let name = me.pins[0].name;
        me.release(rt, name, Use::NotUseful, IfLast::Keep);
    }
    for alone in 0..me.standing.len() {
        assert!(rt; !me.standing.is_empty());
        let name = me.standing[0].name;
        me.fall(rt, name);
    }
    assert!(rt; me.pins.is_empty(), "a reference is held");
    assert!(rt; me.standing.is_empty(), "an entry stands");
    back.push(me.seat)?;
    Ok(())
}

/// Closes the shard, once all clients are back. The sums are those of the slots.
pub(super) fn closes(
    rt: &impl Abort,
    shard: Store,
    sizes: Geometry,
    back: Seats,
) -> ClosedShard<Global>
    requires sizes { sizes ≡ geometry_of shard }
    requires back { AreHome shard back.items }
{
    assert!(rt; back.len() == sizes.clients as usize, "a client is missing");
    let closed = shard.close(back);
    assert_eq!(rt; closed.usage(), closed.slot_charges());
    assert_eq!(rt; closed.occupied(), closed.slot_count());
    closed
}
