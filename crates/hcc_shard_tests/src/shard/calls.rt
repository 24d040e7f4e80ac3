//! Calls as data, each with the answer that is wanted.
ghost use Rattle.std.specs.Prelude.{◌≡◌};
ghost use Rattle.hcc_shard_tests.specs.ShardGuests.{IsGuest};

use super::guest::Guest;
use hcc_charge::Refused;
use hcc_rule::Key;
use hcc_shard::{Inserted, Stats};
use hcc_table::{IfLast, Use};
use std::alloc::AllocError;
use std::process::Abort;

/// A call of a client. Each insertion, look-up and further reference has the next number from 0 on:
/// that is the name of the pin, or of the standalone entry.
#[derive(Clone, Copy)]
pub(super) enum Call<'v> {
    /// Of the key, as two words, with the charge, the countdown and the value.
    Insert(u64, u64, u32, u32, &'v [u8]),
    /// The same with a reference.
    Pin(u64, u64, u32, u32, &'v [u8]),
    /// Of the key.
    Look(u64, u64),
    /// By the name of a pin, as the next two.
    Again(u64),
    Release(u64, Use, IfLast),
    Read(u64),
    /// Of the value of a pin's entry, from an offset on, for so many bytes of room.
    Part(u64, usize, usize),
    /// By the name of a standalone entry.
    Fall(u64),
    /// Of the key.
    Erase(u64, u64),
    /// Of a slot.
    Slot(u32),
    Totals,
    /// What the client did.
    Work,
}

/// What a call answers.
#[derive(Clone, Copy, Debug, PartialEq, Eq)]
pub(super) enum Answer {
    /// Placed without a reference.
    Placed,
    Dropped,
    Standalone,
    Refused(Refused),
    /// The slot of a pin.
    At(u32),
    /// No entry is found.
    Missing,
    /// Whether an entry was freed.
    Freed(bool),
    /// The standalone entry is gone.
    Gone,
    /// How many entries were hidden.
    Hidden(u32),
    /// The key, how long the value is, and its bytes with 0 behind them.
    Entry(u64, u64, usize, [u8; 16]),
    /// How many bytes were given of how many, and the buffer, of which no other byte changed.
    Part(usize, usize, [u8; 24]),
    /// The word, and how often the slot stands in trails.
    Slot(u64, u64),
    /// The usage, the occupancy and the pinned usage.
    Totals([u64; 3]),
    /// Slots that were visited, keys that were met, entries that were evicted, those of them that
    /// were marked, their charge, turns, corrections, lost exchanges.
    Did([u64; 8]),
}

/// Plays the calls, in order.
pub(super) fn plays(
    rt: &impl Abort,
    me: &mut Guest,
    calls: &[(Call, Answer)],
) -> Result<(), AllocError>
    requires keeps { IsGuest me.old.shard.now me.old.seat me.old.pins.items me.old.standing.items
        me.old.next }
    ensures same { me.new.shard ≡ me.old.shard }
    ensures keeps { IsGuest me.new.shard.now me.new.seat me.new.pins.items me.new.standing.items
        me.new.next }
{
    for step in calls {
        let (call, wanted) = *step;
        let answer = answers(rt, me, call)?;
        assert_eq!(rt; answer, wanted);
    }
    Ok(())
}

/// Makes a call.
fn answers(rt: &impl Abort, me: &mut Guest, call: Call) -> Result<Answer, AllocError>
    requires keeps { IsGuest me.old.shard.now me.old.seat me.old.pins.items me.old.standing.items
        me.old.next }
    ensures same { me.new.shard ≡ me.old.shard }
    ensures keeps { IsGuest me.new.shard.now me.new.seat me.new.pins.items me.new.standing.items
        me.new.next }
{
    let answer = match call {
        Call::Insert(w0, w1, charge, countdown, value) => {
            let key = Key { w0, w1 };
            match me.insert(rt, key, charge, countdown, value) {
                Ok(Inserted::Placed) => Answer::Placed,
                Ok(Inserted::Dropped) => Answer::Dropped,
                Err(why) => Answer::Refused(why),
            }
        }
        Call::Pin(w0, w1, charge, countdown, value) => {
            let key = Key { w0, w1 };
            match me.insert_pinned(rt, key, charge, countdown, value)? {
                Ok(Some(pin)) => Answer::At(pin.slot),
                Ok(None) => Answer::Standalone,
                Err(why) => Answer::Refused(why),
            }
        }
        Call::Look(w0, w1) => match me.look(rt, Key { w0, w1 })? {
            Some(pin) => Answer::At(pin.slot),
            None => Answer::Missing,
        },
        Call::Again(name) => Answer::At(me.again(rt, name)?.slot),
        Call::Release(name, as_use, last) => Answer::Freed(me.release(rt, name, as_use, last)),
        Call::Read(name) => {
            let (key, length, bytes) = me.read(rt, name);
            Answer::Entry(key.w0, key.w1, length, bytes)
        }
        Call::Part(name, offset, room) => {
            let (part, bytes) = me.part(rt, name, offset, room);
            Answer::Part(part.given, part.length, bytes)
        }
        Call::Fall(name) => {
            me.fall(rt, name);
            Answer::Gone
        }
        Call::Erase(w0, w1) => Answer::Hidden(me.erase(Key { w0, w1 })),
        Call::Slot(slot) => {
            let (word, passed) = me.slot(rt, slot);
            Answer::Slot(word, passed)
        }
        Call::Totals => Answer::Totals(me.totals()),
        Call::Work => Answer::Did(did(me.seat.stats())),
    };
    Ok(answer)
}

/// The counts, in order.
fn did(stats: Stats) -> [u64; 8] {
    [
        stats.probes,
        stats.boosts,
        stats.evicted,
        stats.evicted_hit,
        stats.freed,
        stats.turns,
        stats.corrections,
        stats.lost,
    ]
}
