//! The slots and clients of a world, what is read of them, and how a step finds its own.
//!
//! The steps are in the modules below, by what they are about.
ghost use Rattle.std.specs.Prelude.{◌≡◌, ◌<◌, IfOk, MatchResult, length, replicate, slice_get};
ghost use Rattle.std.specs.Prelude.{true};
ghost use Rattle.hcc_core.specs.declared.event.CoreError.TheVariants.{NoSuchSlot, NoSuchClient};
ghost use Rattle.hcc_core.specs.declared.event.CoreError.TheVariants.{NotAllowed};
ghost use Rattle.hcc_core.specs.World.{usage_of, occupancy_of, standing_in, passed_at};
ghost use Rattle.hcc_core.specs.World.{slot_holding};
ghost use Rattle.hcc_core.specs.Outcomes.{why_not_live};
ghost use Rattle.hcc_core.specs.Steps.{Follows, takes_memory, outcome_of, fits, name_fits};
ghost use Rattle.hcc_core.specs.Opening.{opening_of, new_slot, new_client};
ghost use Rattle.std.specs.List.{list_all};
ghost use Rattle.hcc_core.specs.Lawful.{IsLawful};

use crate::client::{Client, Owned, Place};
use crate::event::{CoreError, Event, Reply};
use crate::listed::Listed;
use crate::setup::Setup;
use crate::slot::{Slot, slot_holding};
use crate::sums;
use std::alloc::{AllocError, Global};
use std::marker::Model;

mod entries;
mod ledgers;
mod references;
mod trails;
mod uses;

/// The parts of a world. Steps that compute require that the world is lawful.
#[derive(Drop)]
pub(crate) struct Machine {
    pub(crate) alloc: Global,
    pub(crate) setup: Setup,
    pub(crate) slots: Vec<Slot>,
    pub(crate) clients: Vec<Client>,
    pub(crate) hand: u64,
}

impl Model for Machine {
    ghost use Rattle.hcc_core.specs.World.{State};

    ghost Value = { State };

    ghost view = { λ m. record {
      setup = m.setup;
      slots = m.slots.items;
      clients = m.clients.items;
      hand = m.hand;
    } };
}

impl Machine {
    /// The machine of an opening world.
    pub(crate) fn opening(alloc: Global, setup: Setup) -> Result<Machine, AllocError>
        ensures { IfOk result (λ machine. machine ≡ opening_of setup) }
    {
        let slots = new_slots(alloc, setup.slots as usize)?;
        let clients = new_clients(alloc, setup.clients as usize)?;
        Ok(Machine {
            alloc,
            setup,
            slots,
            clients,
            hand: 0,
        })
    }

    /// The step of this event.
    #[tactic(auto, unfolding(crate::specs::Steps::outcome_of))]
    pub(crate) fn step(&mut self, event: Event) -> Result<Reply, CoreError>
        requires { IsLawful self.old }
        ensures { Follows (outcome_of self.old event) (takes_memory event)
            self.old result self.new }
    {
        match event {
            Event::Start { client } => self.start(client),
            Event::Look { client, slot } => self.look(client, slot),
            Event::Acquire {
                client,
                slot,
                weight,
                name,
            } => self.acquire(client, slot, weight, name),
            Event::Give { client, name } => self.give(client, name),
            Event::Use { client, name } => self.spend(client, name),
            Event::Occupy { client, slot } => self.occupy(client, slot),
            Event::Show {
                client,
                key0,
                key1,
                charge,
                countdown,
                name,
                value,
            } => {
                name_fits(name);
                bytes_fit(value.as_slice());
                self.show(client, (key0, key1), charge, countdown, name, value)
            }
            Event::Hide { client, name } => self.hide(client, name),
            Event::Free { client, slot, name } => {
                name_fits(name);
                self.free(client, slot, name)
            }
            Event::Empty { client } => self.empty(client),
            Event::Write { client } => self.write(client),
            Event::Read { client, name } => self.read(client, name),
            Event::Enter { client } => self.enter(client),
            Event::Charge { client, charge } => self.charge(client, charge),
            Event::Slots { client } => self.slots(client),
            Event::Settle { client } => self.settle(client),
            Event::End { client } => self.end(client),
            Event::Clock { client, slot } => self.clock(client, slot),
            Event::Mark { client, name } => self.mark(client, name),
            Event::Correct { client, name } => self.correct(client, name),
            Event::Waive { client } => self.waive(client),
            Event::Quit { client } => self.quit(client),
            Event::Usage { client } => self.tell_usage(client),
            Event::Occupancy { client } => self.tell_occupancy(client),
            Event::Standing { client } => self.tell_standing(client),
            Event::Stand {
                client,
                charge,
                name,
            } => self.stand(client, charge, name),
            Event::Fall { client, name } => self.fall(client, name),
            Event::Count { client, slot } => self.count(client, slot),
            Event::Pass { client, slot } => self.pass(client, slot),
            Event::Unpass { client, slot } => self.unpass(client, slot),
            Event::Turn { client } => self.turn(client),
            Event::Peek { client, slot } => self.peek(client, slot),
        }
    }

    pub(crate) fn usage(&self) -> u64
        requires { IsLawful self.now }
        ensures { result ≡ usage_of self.now }
    {
        sums::usage(&self.slots, &self.clients)
    }

    pub(crate) fn occupancy(&self) -> u64
        requires { IsLawful self.now }
        ensures { result ≡ occupancy_of self.now }
    {
        sums::occupancy(&self.slots, &self.clients)
    }

    pub(crate) fn standing(&self) -> u64
        requires { IsLawful self.now }
        ensures { result ≡ standing_in self.now }
    {
        sums::standing(&self.clients)
    }

    pub(crate) fn passed(&self, slot: u32) -> u64
        requires { IsLawful self.now }
        ensures { result ≡ passed_at self.now slot }
    {
        if slot as usize >= self.slots.len() {
            return 0;
        }
        sums::passed(&self.slots, &self.clients, slot)
    }
}

/// The slot of this number.
fn slot_at(slots: &[Slot], slot: u32) -> Result<&Slot, CoreError>
    ensures within { IfOk result (λ _. slot < length slots.now) }
    ensures found { MatchResult result (λ found. slice_get slots.now slot ≡ Some found.now)
        (λ error. (slice_get slots.now slot ≡ None) × (error ≡ CoreError.NoSuchSlot)) }
{
    slots.get(slot as usize).ok_or(CoreError::NoSuchSlot)
}

/// The client of this number.
fn client_at(clients: &[Client], client: u32) -> Result<&Client, CoreError>
    ensures within { IfOk result (λ _. client < length clients.now) }
    ensures found { MatchResult result (λ found. slice_get clients.now client ≡ Some found.now)
        (λ error. (slice_get clients.now client ≡ None) × (error ≡ CoreError.NoSuchClient)) }
{
    clients.get(client as usize).ok_or(CoreError::NoSuchClient)
}

/// The client of this number, which is live.
fn live_at(clients: &[Client], client: u32) -> Result<&Client, CoreError>
    ensures within { IfOk result (λ _. client < length clients.now) }
    ensures found { MatchResult result
        (λ found. (slice_get clients.now client ≡ Some found.now) × (found.now.live ≡ true))
        (λ error. why_not_live clients.now client ≡ Some error) }
{
    let found = client_at(clients, client)?;
    if !found.live {
        return Err(CoreError::NotAllowed);
    }
    Ok(found)
}

/// The number of the slot on which this client holds this name.
fn holding(slots: &[Slot], client: u32, name: u64) -> Result<usize, CoreError>
    ensures within { IfOk result (λ slot. slot < length slots.now) }
    ensures found { MatchResult result (λ slot. slot_holding slots.now client name ≡ Some slot)
        (λ error. (slot_holding slots.now client name ≡ None) × (error ≡ CoreError.NotAllowed)) }
{
    slot_holding(slots, client, name).ok_or(CoreError::NotAllowed)
}

fn new_slots(alloc: Global, count: usize) -> Result<Vec<Slot>, AllocError>
    ensures { IfOk result (λ slots. slots.items ≡ replicate count new_slot) }
{
    let mut slots = Vec::new(alloc);
    for _ in 0..count {
        slots.push(Slot::Empty { strays: 0 })?;
    }
    Ok(slots)
}

fn new_clients(alloc: Global, count: usize) -> Result<Vec<Client>, AllocError>
    ensures { IfOk result (λ clients. clients.items ≡ replicate count new_client) }
{
    let mut clients = Vec::new(alloc);
    for _ in 0..count {
        clients.push(new_client(alloc))?;
    }
    Ok(clients)
}

fn new_client(alloc: Global) -> Client
    ensures { result ≡ new_client }
{
    Client {
        live: false,
        looked: None,
        owned: Owned::Nothing,
        trail: Listed::new(alloc),
        place: Place::Absent,
        granted: 0,
        needed: 0,
        freed: 0,
        freed_slots: 0,
        standalones: Listed::new(alloc),
        stamps: 0,
        dead: Listed::new(alloc),
    }
}

/// A name that was given is in its range. It only lets contracts know what the type says.
fn name_fits(name: Option<u64>)
    ensures { name_fits name ≡ true }
{
    if let Some(_name) = name {}
}

/// The bytes of a value are bytes. It only lets contracts know what the type says.
fn bytes_fit(bytes: &[u8])
    ensures { list_all (fits 8) bytes.now ≡ true }
{
    let _bytes = bytes;
}
