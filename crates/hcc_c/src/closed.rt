//! What C reads of a cache that was closed. Each reading is refused where none was closed yet, then
//! where there is no such shard or slot.
ghost use Rattle.std.specs.Prelude.{◌≡◌, ◌<◌, None, Some, Err, IfErr, IfOk, IsOk, IsOkUnless, OnOk};
ghost use Rattle.hcc_rule.specs.declared.layout.TheConstants.{DISPLACEMENT, META};
ghost use Rattle.hcc_cache.specs.Left.{slots_at};
ghost use Rattle.hcc_c.specs.Left.{ReadsLeft, TellsLeft, field_left, hand_left, judged_slot, totals_left, totals_of};

use crate::refusal::Refusal;
use crate::shapes::{Entry, Totals};
use hcc_cache::{Closed, Got};
use std::alloc::Global;

/// What is left of a cache, in the hands of C: none until one is closed.
#[derive(Drop)]
pub struct Left {
    pub(crate) closed: Option<Closed>,
}

impl Left {
    /// One with nothing yet.
    pub fn open(alloc: Global) -> Result<Box<Left>, Refusal>
        ensures memory { IsOkUnless result Refusal.OutOfMemory }
        ensures empty { IfOk result (λ left. left.value.closed ≡ None) }
    {
        match Box::new(alloc, Left { closed: None }) {
            Ok(left) => Ok(left),
            Err(_) => Err(Refusal::OutOfMemory),
        }
    }

    /// The charges and the number of its entries in sum. It costs what the sums of the closed cache
    /// do: two loads for each slot.
    pub fn totals(&self) -> Result<Totals, Refusal>
        ensures { result ≡ totals_left self.now.closed }
    {
        match &self.closed {
            Some(closed) => Ok(totals(closed)),
            None => Err(Refusal::ClientsOut),
        }
    }

    /// The entry of a slot, if it has one. It costs five loads.
    pub fn entry(&self, shard: u32, slot: u32) -> Result<Option<Entry>, Refusal>
        ensures { TellsLeft shard slot result self.now.closed }
    {
        let closed = self.with_slot(shard, slot)?;
        match closed.entry(shard as usize, slot) {
            Some(left) => Ok(Some(Entry::of(left))),
            None => Ok(None),
        }
    }

    /// Copies the value of a slot's entry, if it has one, to the front of the buffer: how many
    /// bytes it has, and whether the buffer has room for them. It costs six loads, and one for each
    /// eight bytes.
    pub fn value(&self, shard: u32, slot: u32, buffer: &mut [u8]) -> Result<Got, Refusal>
        ensures { ReadsLeft shard slot result buffer.old buffer.new self.now.closed }
    {
        let closed = self.with_slot(shard, slot)?;
        let Some(left) = closed.entry(shard as usize, slot) else {
            return Ok(Got::Miss);
        };
        let length = left.len as usize;
        if buffer.len() < length {
            return Ok(Got::Short(length));
        }
        Ok(Got::Hit(closed.value(shard as usize, slot, buffer)))
    }

    /// The meta word of a slot. It costs a load.
    pub fn word(&self, shard: u32, slot: u32) -> Result<u64, Refusal>
        ensures { result ≡ field_left shard slot META self.now.closed }
    {
        let closed = self.with_slot(shard, slot)?;
        Ok(closed.word(shard as usize, slot))
    }

    /// How often a slot stands in the trails of its shard's entries. It costs a load.
    pub fn displacement(&self, shard: u32, slot: u32) -> Result<u64, Refusal>
        ensures { result ≡ field_left shard slot DISPLACEMENT self.now.closed }
    {
        let closed = self.with_slot(shard, slot)?;
        Ok(closed.displacement(shard as usize, slot))
    }

    /// Where the hand of a shard's clock stands. It costs a load.
    pub fn hand(&self, shard: u32) -> Result<u64, Refusal>
        ensures { result ≡ hand_left shard self.now.closed }
    {
        let Some(closed) = &self.closed else {
            return Err(Refusal::ClientsOut);
        };
        if (shard as usize) < closed.shards() {
            Ok(closed.hand(shard as usize))
        } else {
            Err(Refusal::OutOfRange)
        }
    }

    /// The closed cache, if it has this slot.
    fn with_slot(&self, shard: u32, slot: u32) -> Result<&Closed, Refusal>
        ensures refused { IfErr (judged_slot shard slot self.now.closed) (λ why.
            result ≡ Err why) }
        ensures told { OnOk (judged_slot shard slot self.now.closed) (IsOk result) }
        ensures its { IfOk result (λ closed. (self.now.closed ≡ Some closed.now)
            × (slot < slots_at closed.now.shards.items shard)) }
    {
        let Some(closed) = &self.closed else {
            return Err(Refusal::ClientsOut);
        };
        if (shard as usize) < closed.shards() && slot < closed.slots(shard as usize) {
            Ok(closed)
        } else {
            Err(Refusal::OutOfRange)
        }
    }
}

/// The sums over the entries of a closed cache, by the books and slot by slot.
pub(crate) fn totals(closed: &Closed) -> Totals
    ensures { result ≡ totals_of closed.now }
{
    Totals {
        usage: closed.usage(),
        occupied: closed.occupied(),
        slot_charges: closed.slot_charges(),
        slot_count: closed.slot_count(),
    }
}
