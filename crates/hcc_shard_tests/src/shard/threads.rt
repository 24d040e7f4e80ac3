//! Clients on threads of their own: what holds in every order of their steps.
ghost use Rattle.std.specs.Prelude.{◌≡◌, ◌≤◌, IfOk};
ghost use Rattle.std.specs.Thread.{IsSync};
ghost use Rattle.hcc_rule.specs.Views.{Each};
ghost use Rattle.hcc_shard_tests.specs.ShardGuests.{AreHome, IsGuest};
ghost use Rattle.hcc_shard.specs.Callers.{geometry_of};
ghost use Rattle.hcc_shard.specs.Seated.{AreNew};

use super::guest::{Guest, Store};
use super::visit::{Seats, Start, closes, comes, leaves, opened};
use hcc_rule::{Geometry, Key};
use hcc_shard::ClosedShard;
use hcc_table::{IfLast, Use};
use std::alloc::{AllocError, Global};
use std::process::Abort;
use std::thread::{Threads, map_vec};

/// What a client does.
#[derive(Clone, Copy, Debug, PartialEq, Eq)]
enum Work {
    /// Inserts 1,000 keys of its own, with a charge of 30 each.
    Fills,
    /// Inserts and erases four keys whose trails cross, 1,000 times each.
    Passes,
    /// Inserts a key with a reference, by its number as the value, and reads it.
    Pins,
    /// Client 0 inserts and erases a key 10,000 times, the others look for it as often.
    Meets,
}

/// The one key that clients share.
const KEY: Key = Key { w0: 0, w1: 1 };

/// All clients of a shard work at once, each on a thread of its own, and then leave. The usage, the
/// occupancy and the pinned usage after their work, and how many references they held.
fn at_once<'a, R: Abort + Threads + Sync>(
    rt: &R,
    alloc: Global,
    shard: &'a Store,
    sizes: Geometry,
    seats: &mut Seats,
    work: Work,
    back: &mut Seats,
) -> Result<[u64; 4], AllocError>
    requires sizes { sizes ≡ geometry_of shard.now }
    requires new { AreNew shard.now 0 seats.old.items }
    requires back { AreHome shard.now back.old.items }
    ensures back { IfOk result (λ _. AreHome shard.now back.new.items) }
{
    let guests = all_come(rt, alloc, shard, sizes, seats)?;
    let mut after = [0, 0, 0, 0];
    for done in all_work(rt, shard, guests, work)? {
        after = ends(rt, shard, done, work, after, back)?;
    }
    Ok(after)
}

/// A client whose work is done leaves. The first one tells the totals. Those that erased keys do so
/// once more.
fn ends(
    rt: &impl Abort,
    shard: &Store,
    done: Result<Guest, AllocError>,
    work: Work,
    before: [u64; 4],
    back: &mut Seats,
) -> Result<[u64; 4], AllocError>
    requires done { IfOk done (λ me. (me.shard.now ≡ shard.now)
        × IsGuest me.shard.now me.seat me.pins.items me.standing.items me.next) }
    requires back { AreHome shard.now back.old.items }
    ensures back { IfOk result (λ _. AreHome shard.now back.new.items) }
{
    let mut me = done?;
    let held = me.pins.len() as u64;
    let mut after = before;
    if back.is_empty() {
        let [usage, occupancy, pinned] = me.totals();
        after = [usage, occupancy, pinned, 0];
    }
    after[3] = after[3].saturating_add(held);
    clears(&mut me, work);
    leaves(rt, me, back)?;
    Ok(after)
}

/// Erases the keys that it erased in its work.
fn clears(me: &mut Guest, work: Work)
    requires keeps { IsGuest me.old.shard.now me.old.seat me.old.pins.items me.old.standing.items
        me.old.next }
    ensures same { me.new.shard ≡ me.old.shard }
    ensures keeps { IsGuest me.new.shard.now me.new.seat me.new.pins.items me.new.standing.items
        me.new.next }
{
    if work == Work::Passes {
        me.erase(crossing(0));
        me.erase(crossing(1));
        me.erase(crossing(2));
        me.erase(crossing(3));
    }
}

/// The clients of all seats.
fn all_come<'a>(
    rt: &impl Abort,
    alloc: Global,
    shard: &'a Store,
    sizes: Geometry,
    seats: &mut Seats,
) -> Result<Vec<Guest<'a>, Global>, AllocError>
    requires sizes { sizes ≡ geometry_of shard.now }
    requires new { AreNew shard.now 0 seats.old.items }
    ensures each { IfOk result (λ all. Each (λ g. (g.shard.now ≡ shard.now)
        × IsGuest g.shard.now g.seat g.pins.items g.standing.items g.next) all.items) }
{
    let mut all = Vec::new(alloc);
    for number in 0..seats.len() {
        let guest = comes(rt, alloc, shard, sizes, seats);
        all.push(guest)?;
    }
    Ok(all)
}

/// All clients work, each on a thread.
fn all_work<'a, R: Abort + Threads + Sync>(
    rt: &R,
    shard: &'a Store,
    guests: Vec<Guest<'a>, Global>,
    work: Work,
) -> Result<Vec<Result<Guest<'a>, AllocError>, Global>, AllocError>
    requires each { Each (λ g. (g.shard.now ≡ shard.now)
        × IsGuest g.shard.now g.seat g.pins.items g.standing.items g.next) guests.items }
    ensures each { IfOk result (λ all. Each (λ r. IfOk r (λ g. (g.shard.now ≡ shard.now)
        × IsGuest g.shard.now g.seat g.pins.items g.standing.items g.next)) all.items) }
{
    map_vec(
        rt,
        guests,
        &move |me|
            requires { IsSync R.row × (me.shard.now ≡ shard.now)
                × IsGuest me.shard.now me.seat me.pins.items me.standing.items me.next }
            ensures { IfOk result (λ g. (g.shard.now ≡ shard.entry.now)
                × IsGuest g.shard.now g.seat g.pins.items g.standing.items g.next) }
        {
            let _ = &shard;
            works(rt, me, work)
        },
    )
}

/// A client does its work.
fn works<'a>(rt: &impl Abort, me: Guest<'a>, work: Work) -> Result<Guest<'a>, AllocError>
    requires keeps { IsGuest me.shard.now me.seat me.pins.items me.standing.items me.next }
    ensures keeps { IfOk result (λ done. (done.shard ≡ me.entry.shard)
        × IsGuest done.shard.now done.seat done.pins.items done.standing.items done.next) }
{
    let mut me = me;
    match work {
        Work::Fills => fills(rt, &mut me),
        Work::Passes => passes(rt, &mut me),
        Work::Pins => pins(rt, &mut me)?,
        Work::Meets => {
            if me.seat.number() == 0 {
                shows(rt, &mut me)
            } else {
                looks(rt, &mut me)?
            }
        }
    }
    Ok(me)
}

/// Inserts 1,000 keys of its own.
fn fills(rt: &impl Abort, me: &mut Guest)
    requires keeps { IsGuest me.old.shard.now me.old.seat me.old.pins.items me.old.standing.items
        me.old.next }
    ensures same { me.new.shard ≡ me.old.shard }
    ensures keeps { IsGuest me.new.shard.now me.new.seat me.new.pins.items me.new.standing.items
        me.new.next }
{
    let number = me.seat.number() as u64;
    for round in 0..1000 {
        let key = Key {
            w0: number,
            w1: round,
        };
        let _placed = me.insert(rt, key, 30, 1, &[]).is_ok();
    }
}

/// Inserts and erases four keys in turn, 1,000 times each.
fn passes(rt: &impl Abort, me: &mut Guest)
    requires keeps { IsGuest me.old.shard.now me.old.seat me.old.pins.items me.old.standing.items
        me.old.next }
    ensures same { me.new.shard ≡ me.old.shard }
    ensures keeps { IsGuest me.new.shard.now me.new.seat me.new.pins.items me.new.standing.items
        me.new.next }
{
    for round in 0..4000 {
        let key = crossing(round);
        let _placed = me.insert(rt, key, 10, 1, &[]).is_ok();
        me.erase(key);
    }
}

/// One of four keys. Its first probe is slot 1, and the others follow 1, 3, 5 or 7 slots on.
fn crossing(round: u64) -> Key {
    Key {
        w0: round % 4 * 2,
        w1: 1,
    }
}

/// How many of the entries that are left, whose keys are among these four, passed the slot.
fn passed(rt: &impl Abort, closed: &ClosedShard<Global>, passed: u64) -> u64 {
    assert!(rt; closed.geometry().slots == 8, "the shard has other slots");
    let mut count: u64 = 0;
    for slot in 0..8u32 {
        if let Some(entry) = closed.entry(slot) {
            let step = entry.key.w0 | 1;
            for probe in 0..8u64 {
                let at = probe.wrapping_mul(step).wrapping_add(1) % 8;
                if at == slot as u64 {
                    break;
                }
                if at == passed {
                    count = count.wrapping_add(1);
                }
            }
        }
    }
    count
}

/// Inserts the key with a reference. Where it is placed, it reads its own number.
fn pins(rt: &impl Abort, me: &mut Guest) -> Result<(), AllocError>
    requires keeps { IsGuest me.old.shard.now me.old.seat me.old.pins.items me.old.standing.items
        me.old.next }
    ensures same { me.new.shard ≡ me.old.shard }
    ensures keeps { IsGuest me.new.shard.now me.new.seat me.new.pins.items me.new.standing.items
        me.new.next }
{
    let number = me.seat.number().to_le_bytes()[0];
    let pinned = me.insert_pinned(rt, KEY, 1, 2, &[number])?;
    if let Some(pin) = pinned.expect(rt, "nothing is refused") {
        let (key, length, bytes) = me.read(rt, pin.name);
        assert_eq!(rt; (key, length, bytes[0]), (KEY, 1, number));
    }
    Ok(())
}

/// Inserts and erases the key 10,000 times. The value is the round twice.
fn shows(rt: &impl Abort, me: &mut Guest)
    requires keeps { IsGuest me.old.shard.now me.old.seat me.old.pins.items me.old.standing.items
        me.old.next }
    ensures same { me.new.shard ≡ me.old.shard }
    ensures keeps { IsGuest me.new.shard.now me.new.seat me.new.pins.items me.new.standing.items
        me.new.next }
{
    for round in 0..10_000u64 {
        let [a, b, c, d, e, f, g, h] = round.to_be_bytes();
        let value = [a, b, c, d, e, f, g, h, a, b, c, d, e, f, g, h];
        let _placed = me.insert(rt, KEY, 1, 1, &value).is_ok();
        me.erase(KEY);
    }
}

/// Looks for the key 10,000 times. Both halves of each value that is found are one round, and no
/// round comes after a later one.
fn looks(rt: &impl Abort, me: &mut Guest) -> Result<(), AllocError>
    requires keeps { IsGuest me.old.shard.now me.old.seat me.old.pins.items me.old.standing.items
        me.old.next }
    ensures same { me.new.shard ≡ me.old.shard }
    ensures keeps { IsGuest me.new.shard.now me.new.seat me.new.pins.items me.new.standing.items
        me.new.next }
{
    let mut last = 0;
    for time in 0..10_000 {
        if let Some(pin) = me.look(rt, KEY)? {
            let (_, length, bytes) = me.read(rt, pin.name);
            assert_eq!(rt; length, 16);
            let [a, b, c, d, e, f, g, h, i, j, k, l, m, n, o, p] = bytes;
            let round = u64::from_be_bytes([a, b, c, d, e, f, g, h]);
            assert_eq!(rt; round, u64::from_be_bytes([i, j, k, l, m, n, o, p]));
            assert!(rt; last <= round, "an old entry was found after a new one");
            last = round;
            me.release(rt, pin.name, Use::NotUseful, IfLast::Keep);
        }
    }
    Ok(())
}

/// A shard of 8 slots and a capacity of 600, in which so many clients worked at once: what stood
/// after their work, and what is left.
fn worked<R: Abort + Threads + Sync>(
    rt: &R,
    alloc: Global,
    strict: bool,
    capacity: u32,
    clients: u32,
    work: Work,
) -> Result<([u64; 4], ClosedShard<Global>), AllocError>
    requires clients { (1 ≤ clients) × (clients ≤ 64) }
{
    let start = Start {
        large: false,
        capacity,
        strict,
        marks: false,
    };
    let (shard, mut seats, sizes) = opened(alloc, start, clients)?;
    let mut back = Vec::new(alloc);
    let after = at_once(rt, alloc, &shard, sizes, &mut seats, work, &mut back)?;
    Ok((after, closes(rt, shard, sizes, back)))
}

/// Under strict capacity the usage is the charges of the entries, and within it.
#[test]
fn strict_capacity_is_kept_by_four(rt: HostRuntime) -> Result<(), AllocError> {
    let (after, closed) = worked(&rt, rt.alloc(), true, 100, 4, Work::Fills)?;
    assert_eq!(rt; after[0], after[1].wrapping_mul(30));
    assert!(rt; after[0] <= 90);
    assert_eq!(rt; closed.usage(), after[0]);
    Ok(())
}

/// Where two clients placed and erased keys whose trails cross, each slot counts the trails of the
/// entries that are left, and no other.
#[test]
fn trails_are_taken_back_by_two(rt: HostRuntime) -> Result<(), AllocError> {
    let (_, closed) = worked(&rt, rt.alloc(), false, 600, 2, Work::Passes)?;
    for slot in 0..8u32 {
        assert!(rt; slot < closed.geometry().slots, "no such slot");
        assert_eq!(rt;
            closed.displacement(slot),
            passed(&rt, &closed, slot as u64)
        );
    }
    Ok(())
}

/// Of eight clients that insert one key and hold it, at least one places it, and as many as there
/// are places at most; the others' entries stand alone. Each reads its own value.
#[test]
fn eight_hold_one_key(rt: HostRuntime) -> Result<(), AllocError> {
    let (after, _) = worked(&rt, rt.alloc(), false, 600, 8, Work::Pins)?;
    let placed = after[3];
    assert_eq!(rt; after, [8, placed, 8, placed]);
    assert!(rt; placed > 0);
    assert!(rt; placed <= 6);
    Ok(())
}

/// A client that looks for a key finds whole values alone, and never an old one after a new one.
#[test]
fn one_shows_and_one_looks(rt: HostRuntime) -> Result<(), AllocError> {
    let (after, _) = worked(&rt, rt.alloc(), false, 600, 2, Work::Meets)?;
    assert_eq!(rt; [after[2], after[3]], [0, 0]);
    Ok(())
}
