//! A client of a shard, with what it holds there.
ghost use Rattle.std.specs.Prelude.{◌≡◌, ◌+◌, ◌<◌, ◌≤◌, [], None, Some, IfSome, length, find, position, option_copied};
ghost use Rattle.hcc_core.specs.Ledgers.{is_standing};
ghost use Rattle.hcc_rule.specs.Callers.{IsSlotOf, plan_of};
ghost use Rattle.hcc_rule.specs.Seats.{view};
ghost use Rattle.hcc_shard_tests.specs.ShardGuests.{IsDrafted, IsGuest, is_pin};
ghost use Rattle.hcc_shard.specs.Callers.{geometry_of};
ghost use Rattle.hcc_shard.specs.Seated.{IsNext};
ghost use Rattle.hcc_table.specs.Pins.{IsPinned};

use crate::any::AnyBytes;
use hcc_charge::Refused;
use hcc_core::client::Standalone;
use hcc_rule::{Draft, Geometry, Key};
use hcc_shard::{Inserted, Part, Pinned, Shard, ShardSeat};
use hcc_table::{IfLast, NoList, Pin, Use};
use std::alloc::{AllocError, Global};
use std::process::Abort;

/// A shard for tests.
pub(super) type Store = Shard<AnyBytes, Global>;

/// How many calls a guest makes at most.
const MOST: u64 = 1_000_000;

/// The bytes of a buffer before a part is read into it.
pub(super) const BEHIND: u8 = 0xee;

/// The seat of a client at a shard.
#[derive(Drop)]
pub(super) struct Guest<'a> {
    pub(super) shard: &'a Store,
    /// The shard's sizes.
    pub(super) sizes: Geometry,
    pub(super) seat: ShardSeat<AnyBytes>,
    /// The references that it holds.
    pub(super) pins: Vec<Pin, Global>,
    /// Its standalone entries.
    pub(super) standing: Vec<Standalone, Global>,
    /// The serial that its next call is handed.
    pub(super) next: u64,
    ghost sized: { sizes ≡ geometry_of shard.now },
}

impl Guest<'_> {
    /// Inserts an entry, and keeps no reference on it.
    pub(super) fn insert(
        &mut self,
        rt: &impl Abort,
        key: Key,
        charge: u32,
        countdown: u32,
        value: &[u8],
    ) -> Result<Inserted, Refused>
        requires keeps { IsGuest self.old.shard.now self.old.seat self.old.pins.items
            self.old.standing.items self.old.next }
        ensures same { self.new.shard ≡ self.old.shard }
        ensures keeps { IsGuest self.new.shard.now self.new.seat self.new.pins.items
            self.new.standing.items self.new.next }
    {
        let mut draft = self.draft(rt, key, charge, countdown, value);
        draft.name = None;
        let answer = self.shard.insert(&mut self.seat, draft, value, &mut NoList);
        self.next += 1;
        answer
    }

    /// Inserts an entry, and keeps a reference on it. None where it stands alone.
    pub(super) fn insert_pinned(
        &mut self,
        rt: &impl Abort,
        key: Key,
        charge: u32,
        countdown: u32,
        value: &[u8],
    ) -> Result<Result<Option<Pin>, Refused>, AllocError>
        requires keeps { IsGuest self.old.shard.now self.old.seat self.old.pins.items
            self.old.standing.items self.old.next }
        ensures same { self.new.shard ≡ self.old.shard }
        ensures keeps { IsGuest self.new.shard.now self.new.seat self.new.pins.items
            self.new.standing.items self.new.next }
    {
        self.pins.reserve(1)?;
        self.standing.reserve(1)?;
        let draft = self.draft(rt, key, charge, countdown, value);
        let answer = self
            .shard
            .insert_pinned(&mut self.seat, draft, value, &mut NoList);
        self.next += 1;
        match answer {
            Ok(pinned) => match pinned {
                Pinned::Placed { pin } => {
                    let Ok(()) = self.pins.push(pin) else {
                        unreachable!()
                    };
                    Ok(Ok(Some(pin)))
                }
                Pinned::Standalone => {
                    let alone = Standalone {
                        name: draft.serial,
                        charge: charge as u64,
                    };
                    let Ok(()) = self.standing.push(alone) else {
                        unreachable!()
                    };
                    Ok(Ok(None))
                }
            },
            Err(why) => Ok(Err(why)),
        }
    }

    /// Looks for an entry of the key.
    pub(super) fn look(&mut self, rt: &impl Abort, key: Key) -> Result<Option<Pin>, AllocError>
        requires keeps { IsGuest self.old.shard.now self.old.seat self.old.pins.items
            self.old.standing.items self.old.next }
        ensures same { self.new.shard ≡ self.old.shard }
        ensures keeps { IsGuest self.new.shard.now self.new.seat self.new.pins.items
            self.new.standing.items self.new.next }
    {
        self.pins.reserve(1)?;
        self.has_room(rt);
        let found = self.shard.lookup(&mut self.seat, key, self.next);
        self.next += 1;
        match found {
            Some(pin) => {
                let Ok(()) = self.pins.push(pin) else {
                    unreachable!()
                };
                Ok(Some(pin))
            }
            None => Ok(None),
        }
    }

    /// Takes one reference more on an entry, by the name of a pin.
    pub(super) fn again(&mut self, rt: &impl Abort, name: u64) -> Result<Pin, AllocError>
        requires keeps { IsGuest self.old.shard.now self.old.seat self.old.pins.items
            self.old.standing.items self.old.next }
        ensures same { self.new.shard ≡ self.old.shard }
        ensures keeps { IsGuest self.new.shard.now self.new.seat self.new.pins.items
            self.new.standing.items self.new.next }
    {
        self.pins.reserve(1)?;
        self.has_room(rt);
        let pin = self.pin(rt, name);
        let new = self.shard.reref(&mut self.seat, pin, self.next);
        let Ok(()) = self.pins.push(new) else {
            unreachable!()
        };
        self.next += 1;
        Ok(new)
    }

    /// Gives a reference back, by its name.
    pub(super) fn release(&mut self, rt: &impl Abort, name: u64, as_use: Use, last: IfLast) -> bool
        requires keeps { IsGuest self.old.shard.now self.old.seat self.old.pins.items
            self.old.standing.items self.old.next }
        ensures same { self.new.shard ≡ self.old.shard }
        ensures keeps { IsGuest self.new.shard.now self.new.seat self.new.pins.items
            self.new.standing.items self.new.next }
    {
        let pin = self.pin(rt, name);
        let place = place_of(&self.pins, name).expect(rt, "no such pin");
        self.pins.remove(place);
        self.shard
            .release(&mut self.seat, pin, as_use, last, &mut NoList)
    }

    /// Lets a standalone entry go, by its name.
    pub(super) fn fall(&mut self, rt: &impl Abort, name: u64)
        requires keeps { IsGuest self.old.shard.now self.old.seat self.old.pins.items
            self.old.standing.items self.old.next }
        ensures same { self.new.shard ≡ self.old.shard }
        ensures keeps { IsGuest self.new.shard.now self.new.seat self.new.pins.items
            self.new.standing.items self.new.next }
    {
        let alone = *alone_of(&self.standing, name).expect(rt, "no such standalone entry");
        let place = place_alone(&self.standing, name).expect(rt, "no such standalone entry");
        assert!(rt; alone.charge < 0x1_0000_0000, "the charge is too high");
        self.standing.remove(place);
        self.shard
            .release_standalone(&mut self.seat, name, alone.charge as u32);
    }

    /// Erases the key.
    pub(super) fn erase(&mut self, key: Key) -> u32
        requires keeps { IsGuest self.old.shard.now self.old.seat self.old.pins.items
            self.old.standing.items self.old.next }
        ensures same { self.new.shard ≡ self.old.shard }
        ensures keeps { IsGuest self.new.shard.now self.new.seat self.new.pins.items
            self.new.standing.items self.new.next }
    {
        self.shard.erase(&mut self.seat, key, &mut NoList)
    }

    /// The key of a pin's entry, how long its value is, and its bytes with 0 behind them.
    pub(super) fn read(&mut self, rt: &impl Abort, name: u64) -> (Key, usize, [u8; 16])
        requires keeps { IsGuest self.old.shard.now self.old.seat self.old.pins.items
            self.old.standing.items self.old.next }
        ensures same { self.new.shard ≡ self.old.shard }
        ensures keeps { IsGuest self.new.shard.now self.new.seat self.new.pins.items
            self.new.standing.items self.new.next }
    {
        assert!(rt; self.sizes.room <= 2, "values are too long");
        let pin = self.pin(rt, name);
        let mut bytes = [0; 16];
        let key = self.shard.key(&mut self.seat, pin);
        let length = self.shard.value_len(&mut self.seat, pin);
        let count = self.shard.read_value(&mut self.seat, pin, &mut bytes);
        assert_eq!(rt; count, length);
        (key, length, bytes)
    }

    /// A part of the value of a pin's entry, read into the front of a buffer that is longer.
    pub(super) fn part(
        &mut self,
        rt: &impl Abort,
        name: u64,
        offset: usize,
        room: usize,
    ) -> (Part, [u8; 24])
        requires keeps { IsGuest self.old.shard.now self.old.seat self.old.pins.items
            self.old.standing.items self.old.next }
        ensures same { self.new.shard ≡ self.old.shard }
        ensures keeps { IsGuest self.new.shard.now self.new.seat self.new.pins.items
            self.new.standing.items self.new.next }
    {
        assert!(rt; room <= 24, "there is no such room");
        let pin = self.pin(rt, name);
        let mut bytes = [BEHIND; 24];
        let part = self
            .shard
            .read_part(&mut self.seat, pin, offset, &mut bytes[..room]);
        (part, bytes)
    }

    /// The usage, the occupancy and the pinned usage.
    pub(super) fn totals(&mut self) -> [u64; 3]
        requires keeps { IsGuest self.old.shard.now self.old.seat self.old.pins.items
            self.old.standing.items self.old.next }
        ensures same { self.new.shard ≡ self.old.shard }
        ensures keeps { IsGuest self.new.shard.now self.new.seat self.new.pins.items
            self.new.standing.items self.new.next }
    {
        let usage = self.shard.usage(&mut self.seat);
        let occupancy = self.shard.occupancy(&mut self.seat);
        let pinned = self.shard.pinned_usage(&mut self.seat);
        [usage, occupancy, pinned]
    }

    /// A slot's word, and how often it stands in trails.
    pub(super) fn slot(&mut self, rt: &impl Abort, slot: u32) -> (u64, u64)
        requires keeps { IsGuest self.old.shard.now self.old.seat self.old.pins.items
            self.old.standing.items self.old.next }
        ensures same { self.new.shard ≡ self.old.shard }
        ensures keeps { IsGuest self.new.shard.now self.new.seat self.new.pins.items
            self.new.standing.items self.new.next }
    {
        assert!(rt; slot < self.sizes.slots, "no such slot");
        let word = self.shard.word(&mut self.seat, slot);
        (word, self.shard.displacement(&mut self.seat, slot))
    }

    /// A draft of the entry, by the next serial, which is its name too.
    fn draft(&self, rt: &impl Abort, key: Key, charge: u32, countdown: u32, value: &[u8]) -> Draft
        requires keeps { IsGuest self.now.shard.now self.now.seat self.now.pins.items
            self.now.standing.items self.now.next }
        ensures may { IsDrafted (plan_of self.now.shard.now.table).geometry.room result
            (length value.now) (view self.now.seat.seat) }
        ensures serial { result.serial ≡ self.now.next }
        ensures charge { result.charge ≡ charge }
        ensures name { result.name ≡ Some result.serial }
        ensures few { length (view self.now.seat.seat).records < 16384 }
        ensures alone { length (view self.now.seat.seat).work.standalones < 16384 }
        ensures low { result.serial < 1000000 }
    {
        self.has_room(rt);
        assert!(rt; charge > 0, "no charge");
        assert!(rt; countdown > 0, "no countdown");
        assert!(rt; countdown < 4, "the countdown is too long");
        let room = self.sizes.room as usize;
        assert!(rt; value.len() <= 8 * room, "the value is too long");
        Draft {
            key,
            charge,
            serial: self.next,
            countdown,
            name: Some(self.next),
        }
    }

    /// Sees that the client may make a call more.
    fn has_room(&self, rt: &impl Abort)
        requires keeps { IsGuest self.now.shard.now self.now.seat self.now.pins.items
            self.now.standing.items self.now.next }
        ensures next { IsNext self.now.next (view self.now.seat.seat) }
        ensures low { self.now.next < 1000000 }
        ensures few { length (view self.now.seat.seat).records < 16384 }
        ensures alone { length (view self.now.seat.seat).work.standalones < 16384 }
    {
        assert!(rt; self.next < MOST, "too many calls");
        assert!(rt; self.pins.len() < 16_384, "too many references");
        assert!(rt; self.standing.len() < 16_384, "too many standalone entries");
    }

    /// The pin of a name.
    fn pin(&self, rt: &impl Abort, name: u64) -> Pin
        requires keeps { IsGuest self.now.shard.now self.now.seat self.now.pins.items
            self.now.standing.items self.now.next }
        ensures { IsSlotOf self.now.shard.now.table result.slot × (result.name ≡ name)
            × IsPinned result (view self.now.seat.seat) }
    {
        *pin_of(&self.pins, name).expect(rt, "no such pin")
    }
}

fn pin_of(pins: &[Pin], name: u64) -> Option<&Pin>
    ensures { option_copied result ≡ find (is_pin name) pins.now }
{
    pins.iter().find(|pin| pin.name == name)
}

fn place_of(pins: &[Pin], name: u64) -> Option<usize>
    ensures first { result ≡ position (is_pin name) pins.now }
    ensures within { IfSome result (λ place. place < length pins.now) }
{
    pins.iter().position(|pin| pin.name == name)
}

fn alone_of(standing: &[Standalone], name: u64) -> Option<&Standalone>
    ensures { option_copied result ≡ find (is_standing name) standing.now }
{
    standing.iter().find(|alone| alone.name == name)
}

fn place_alone(standing: &[Standalone], name: u64) -> Option<usize>
    ensures first { result ≡ position (is_standing name) standing.now }
    ensures within { IfSome result (λ place. place < length standing.now) }
{
    standing.iter().position(|alone| alone.name == name)
}
