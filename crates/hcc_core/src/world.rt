//! The world, its step and its readers.
ghost use Rattle.std.specs.Prelude.{◌≡◌, ◌≤◌, IfOk, IfErr, length, slice_get};
ghost use Rattle.std.specs.Option.{option_copied};
ghost use Rattle.hcc_core.specs.declared.event.CoreError.TheVariants.{OutOfMemory};
ghost use Rattle.hcc_core.specs.World.{usage_of, occupancy_of, standing_in, passed_at};
ghost use Rattle.hcc_core.specs.Steps.{Follows, takes_memory, outcome_of};
ghost use Rattle.hcc_core.specs.Opening.{opening_of, CanOpen};

use crate::event::{CoreError, Event, Reply};
use crate::limits::MOST_SLOTS;
use crate::machine::Machine;
use crate::setup::Setup;
use crate::slot::Slot;
use crate::sums;
use std::alloc::{AllocError, Global};
use std::marker::Model;

/// A lawful world. Contracts see it as its setup, its slots, its clients and its hand.
#[derive(Drop)]
pub struct World {
    machine: Machine,
}

impl Model for World {
    ghost use Rattle.hcc_core.specs.World.{State};
    ghost use Rattle.hcc_core.specs.Lawful.{IsLawful};

    ghost Value = { State };

    ghost view = { λ w. w.machine };

    ghost invariant = { λ w. IsLawful w.machine };
}

impl From<AllocError> for CoreError {
    ghost from_gives = { λ _ e. e ≡ OutOfMemory };

    fn from(_error: AllocError) -> CoreError {
        CoreError::OutOfMemory
    }
}

impl World {
    /// A new world: all slots are empty, and no client is live.
    ///
    /// It keeps the allocator, and allocates the slots and clients. The setup has 1 to
    /// 65,536 slots and 1 to 1,024 clients.
    pub fn opening(alloc: Global, setup: Setup) -> Result<World, CoreError>
        requires { CanOpen setup }
        ensures ok { IfOk result (λ world. world ≡ opening_of setup) }
        ensures err { IfErr result (λ error. error ≡ CoreError.OutOfMemory) }
    {
        let machine = Machine::opening(alloc, setup)?;
        Ok(World { machine })
    }

    /// Makes one step, or refuses it by the first name that is due: `NoSuchSlot`,
    /// `NoSuchClient`, `NotAllowed`. The world is unchanged after each refusal, and after
    /// `OutOfMemory` too, which only events that may allocate return: `Look`, `Acquire`,
    /// `Give`, `Use`, `Occupy`, `Hide`, `Read`, `Mark`, `Correct`, `Stand` and `Pass`, and with a
    /// name `Show` and `Free`.
    ///
    /// It costs at most a pass over the slots, their references and the clients, and of its own
    /// client over the trail, the standalone entries and the dead list. That list is copied if an
    /// entry joins it, and `Read` copies the value.
    pub fn step(&mut self, event: Event) -> Result<Reply, CoreError>
        ensures { Follows (outcome_of self.old event) (takes_memory event)
            self.old result self.new }
    {
        self.machine.step(event)
    }

    /// The slot of this number, or `None` if there is none. Its contract also says how many slots
    /// there are at most.
    pub fn slot(&self, slot: u32) -> Option<&Slot>
        ensures slot { option_copied result ≡ slice_get self.now.slots slot }
        ensures few { length self.now.slots ≤ MOST_SLOTS }
    {
        self.machine.slots.get(slot as usize)
    }

    /// The charges of all entries, and all that clients were granted, need, freed or keep in
    /// standalone entries. A pass over the slots and clients.
    pub fn usage(&self) -> u64
        ensures { result ≡ usage_of self.now }
    {
        self.machine.usage()
    }

    /// The entries, and what clients hold of places and freed slots. A pass over the slots and
    /// clients.
    pub fn occupancy(&self) -> u64
        ensures { result ≡ occupancy_of self.now }
    {
        self.machine.occupancy()
    }

    /// The charges of all standalone entries. A pass over the clients.
    pub fn standing(&self) -> u64
        ensures { result ≡ standing_in self.now }
    {
        self.machine.standing()
    }

    /// The hand.
    pub fn hand(&self) -> u64
        ensures { result ≡ self.now.hand }
    {
        self.machine.hand
    }

    /// How often the slot of this number stands in trails, or 0 if there is none. A pass
    /// over all trails.
    pub fn passed(&self, slot: u32) -> u64
        ensures { result ≡ passed_at self.now slot }
    {
        self.machine.passed(slot)
    }
}
