//! The steps that move entries: occupy, write, show, read, hide, free and empty.
ghost use Rattle.std.specs.Prelude.{◌≡◌, ◌<◌, ◌≤◌, IfOk, IfErr, is_some, true, false};
ghost use Rattle.hcc_core.specs.World.{references_of};
ghost use Rattle.hcc_core.specs.Entries.{occupy_of, strays_if_empty, show_of, is_fresh, may_show};
ghost use Rattle.hcc_core.specs.Entries.{AllowsShow, client_shown, first_references, first_uses};
ghost use Rattle.hcc_core.specs.Entries.{write_of, peek_of, read_of, hide_of, free_of, may_free, empty_of};
ghost use Rattle.hcc_core.specs.Steps.{Follows};
ghost use Rattle.hcc_core.specs.Lawful.{IsLawful};

use crate::client::{Client, Owned, Place};
use crate::event::{CoreError, Reply};
use crate::limits::{MOST_COUNTDOWN, STAMPS_PER_CLIENT};
use crate::listed::Listed;
use crate::machine::{Machine, holding, live_at, slot_at};
use crate::slot::{Entry, Reference, Resident, Slot, Stamp, slot_holding};
use std::alloc::{AllocError, Global};
use std::mem;

impl Machine {
    pub(crate) fn occupy(&mut self, client: u32, slot: u32) -> Result<Reply, CoreError>
        ensures { Follows (occupy_of self.old client slot) true self.old result self.new }
    {
        let empty = strays_if_empty(slot_at(&self.slots, slot)?);
        if !live_at(&self.clients, client)?.owned.is_nothing() {
            return Err(CoreError::NotAllowed);
        }
        match empty {
            None => self.look(client, slot),
            Some(strays) => {
                self.clients[client as usize].owned = Owned::ForBuilding(slot);
                self.slots[slot as usize] = Slot::Building { client, strays };
                Ok(Reply::Taken)
            }
        }
    }

    pub(crate) fn write(&mut self, client: u32) -> Result<Reply, CoreError>
        ensures { Follows (write_of self.old client) false self.old result self.new }
    {
        if !live_at(&self.clients, client)?.owned.is_building() {
            return Err(CoreError::NotAllowed);
        }
        Ok(Reply::Ok)
    }

    #[tactic(auto, unfolding(crate::specs::Entries::show_of))]
    pub(crate) fn show(
        &mut self,
        client: u32,
        key: (u64, u64),
        charge: u32,
        countdown: u64,
        name: Option<u64>,
        value: Listed<u8>,
    ) -> Result<Reply, CoreError>
        requires { IsLawful self.old }
        ensures { Follows (show_of self.old client key.0 key.1 charge countdown name value)
            (is_some name) self.old result self.new }
    {
        let found = live_at(&self.clients, client)?;
        let Some(slot) = found.owned.built() else {
            return Err(CoreError::NotAllowed);
        };
        if !may_show(&self.slots, client, found, charge, countdown, name) {
            return Err(CoreError::NotAllowed);
        }
        let references = first_references(self.alloc, client, name)?;
        let number = found.stamps;
        let charge = charge as u64;
        let trail = hand_over(&mut self.clients[client as usize], self.alloc, charge);
        let entry = Entry {
            key0: key.0,
            key1: key.1,
            stamp: Stamp { client, number },
            value,
            charge,
        };
        self.slots[slot as usize] = Slot::Shareable(Resident {
            shown: true,
            entry,
            trail,
            references,
            uses: first_uses(countdown, name),
            hit: false,
        });
        Ok(Reply::Ok)
    }

    #[tactic(auto, unfolding(crate::specs::Entries::read_of))]
    pub(crate) fn read(&mut self, client: u32, name: u64) -> Result<Reply, CoreError>
        ensures { Follows (read_of self.old client name) true self.old result self.new }
    {
        live_at(&self.clients, client)?;
        let slot = holding(&self.slots, client, name)?;
        self.slots[slot].read(self.alloc)
    }

    #[tactic(auto, unfolding(crate::specs::Entries::peek_of))]
    pub(crate) fn peek(&mut self, client: u32, slot: u32) -> Result<Reply, CoreError>
        ensures { Follows (peek_of self.old client slot) false self.old result self.new }
    {
        let there = slot_at(&self.slots, slot)?;
        let stamp = if there.is_shown() {
            there.stamp()
        } else {
            None
        };
        live_at(&self.clients, client)?;
        Ok(Reply::Shows(stamp))
    }

    #[tactic(auto, unfolding(crate::specs::Entries::hide_of))]
    pub(crate) fn hide(&mut self, client: u32, name: u64) -> Result<Reply, CoreError>
        ensures { Follows (hide_of self.old client name) true self.old result self.new }
    {
        let found = live_at(&self.clients, client)?;
        let slot = holding(&self.slots, client, name)?;
        let seen = &self.slots[slot];
        let reply = if seen.is_shown() {
            Reply::Hid
        } else {
            Reply::Again
        };
        let dead = found.with_dead(self.alloc, seen.stamp())?;
        self.clients[client as usize].note(dead);
        self.slots[slot].hide();
        Ok(reply)
    }

    #[tactic(auto, unfolding(crate::specs::Entries::free_of))]
    pub(crate) fn free(
        &mut self,
        client: u32,
        slot: u32,
        name: Option<u64>,
    ) -> Result<Reply, CoreError>
        requires { IsLawful self.old }
        ensures { Follows (free_of self.old client slot name) (is_some name)
            self.old result self.new }
    {
        let seen = slot_at(&self.slots, slot)?;
        let found = live_at(&self.clients, client)?;
        if !may_free(client, found, seen, name) {
            return Err(CoreError::NotAllowed);
        }
        let charge = seen.charge();
        let freed = found.freed + charge;
        let freed_slots = found.freed_slots + 1;
        let dead = found.with_dead(self.alloc, seen.dead_to(client))?;
        let building = Slot::Building { client, strays: 0 };
        let taken = mem::replace(&mut self.slots[slot as usize], building);
        let found = &mut self.clients[client as usize];
        found.owned = Owned::ForFreeing(slot);
        found.trail = taken.into_trail(self.alloc);
        found.freed = freed;
        found.freed_slots = freed_slots;
        found.note(dead);
        Ok(Reply::Freed { charge })
    }

    #[tactic(auto, unfolding(crate::specs::Entries::empty_of))]
    pub(crate) fn empty(&mut self, client: u32) -> Result<Reply, CoreError>
        requires { IsLawful self.old }
        ensures { Follows (empty_of self.old client) false self.old result self.new }
    {
        let found = live_at(&self.clients, client)?;
        let Some(slot) = found.owned.freed() else {
            return Err(CoreError::NotAllowed);
        };
        if !found.trail.is_empty() {
            return Err(CoreError::NotAllowed);
        }
        self.clients[client as usize].owned = Owned::Nothing;
        self.slots[slot as usize] = Slot::Empty { strays: 0 };
        Ok(Reply::Ok)
    }
}

/// The strays of an empty slot.
fn strays_if_empty(slot: &Slot) -> Option<u64>
    ensures { result ≡ strays_if_empty slot.now }
{
    match slot {
        Slot::Empty { strays } => Some(*strays),
        Slot::Building { .. } => None,
        Slot::Shareable(_) => None,
    }
}

/// Whether no reference of this client has the name.
fn is_fresh(slots: &[Slot], client: u32, name: Option<u64>) -> bool
    ensures { result ≡ is_fresh slots.now client name }
{
    match name {
        None => true,
        Some(name) => slot_holding(slots, client, name).is_none(),
    }
}

/// Whether a client that is live may show an entry in the slot that it builds.
#[tactic(auto, unfolding(crate::specs::Entries::may_show))]
fn may_show(
    slots: &[Slot],
    client: u32,
    found: &Client,
    charge: u32,
    countdown: u64,
    name: Option<u64>,
) -> bool
    ensures test { result ≡ may_show slots.now client found.now charge countdown name }
    ensures allowed { result ≡ true → AllowsShow found.now charge countdown }
{
    found.place.is_granted()
        && found.needed == 0
        && charge as u64 <= found.granted
        && 1 <= countdown
        && countdown <= MOST_COUNTDOWN
        && is_fresh(slots, client, name)
        && found.stamps < STAMPS_PER_CLIENT
}

/// What a show leaves of its client. The trail that it had goes to the slot.
fn hand_over(found: &mut Client, alloc: Global, charge: u64) -> Listed<u32>
    requires granted { charge ≤ found.old.granted }
    requires stamps { found.old.stamps < STAMPS_PER_CLIENT }
    ensures after { found.new ≡ client_shown charge found.old }
    ensures trail { result ≡ found.old.trail }
{
    found.stamps += 1;
    found.granted -= charge;
    found.place = Place::Absent;
    found.owned = Owned::Nothing;
    mem::replace(&mut found.trail, Listed::new(alloc))
}

fn first_references(
    alloc: Global,
    client: u32,
    name: Option<u64>,
) -> Result<Listed<Reference>, AllocError>
    ensures ok { IfOk result (λ references. references ≡ first_references client name) }
    ensures err { IfErr result (λ _. is_some name ≡ true) }
{
    let mut references = Listed::new(alloc);
    if let Some(name) = name {
        references.push(Reference {
            client,
            name,
            weight: 1,
            counting: true,
        })?;
    }
    Ok(references)
}

fn first_uses(countdown: u64, name: Option<u64>) -> u64
    requires { 1 ≤ countdown }
    ensures { result ≡ first_uses countdown name }
{
    match name {
        None => countdown,
        Some(_) => countdown - 1,
    }
}

/// Whether a client that is live may take the slot to free it.
fn may_free(client: u32, found: &Client, seen: &Slot, name: Option<u64>) -> bool
    ensures { result ≡ may_free client found.now seen.now name }
{
    found.owned.is_nothing()
        && found.trail.is_empty()
        && seen.is_shareable()
        && seen.is_free_for(client, name)
}
