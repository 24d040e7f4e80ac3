//! The steps on clients and references: start, end, look, acquire, give and use.
ghost use Rattle.std.specs.Prelude.{◌≡◌, ◌<◌, ◌^◌, ◌&&◌, true, false};
ghost use Rattle.std.specs.List.{list_any};
ghost use Rattle.hcc_core.specs.World.{weight_of, has_client};
ghost use Rattle.hcc_core.specs.References.{start_of, end_of, is_idle, holds_nothing, look_of};
ghost use Rattle.hcc_core.specs.References.{acquire_of, may_acquire, give_of, use_of};
ghost use Rattle.hcc_core.specs.Steps.{Follows};
ghost use Rattle.hcc_core.specs.Lawful.{IsLawful};

use crate::client::Client;
use crate::event::{CoreError, Reply};
use crate::limits::{MOST_WEIGHT, REFERENCES_PER_CLIENT};
use crate::machine::{Machine, client_at, holding, live_at, slot_at};
use crate::setup::Setup;
use crate::slot::{Reference, Slot, slot_holding};

impl Machine {
    pub(crate) fn start(&mut self, client: u32) -> Result<Reply, CoreError>
        ensures { Follows (start_of self.old client) false self.old result self.new }
    {
        if client_at(&self.clients, client)?.live {
            return Err(CoreError::NotAllowed);
        }
        self.clients[client as usize].live = true;
        Ok(Reply::Ok)
    }

    #[tactic(auto, unfolding(crate::specs::References::end_of))]
    pub(crate) fn end(&mut self, client: u32) -> Result<Reply, CoreError>
        ensures { Follows (end_of self.old client) false self.old result self.new }
    {
        let found = live_at(&self.clients, client)?;
        if !may_end(found, &self.slots, client) {
            return Err(CoreError::NotAllowed);
        }
        let found = &mut self.clients[client as usize];
        found.live = false;
        found.looked = None;
        Ok(Reply::Ok)
    }

    pub(crate) fn look(&mut self, client: u32, slot: u32) -> Result<Reply, CoreError>
        ensures { Follows (look_of self.old client slot) true self.old result self.new }
    {
        let seen = slot_at(&self.slots, slot)?;
        let found = live_at(&self.clients, client)?;
        let phase = seen.phase();
        let looked = if seen.is_shareable() {
            Some(slot)
        } else {
            None
        };
        let dead = found.with_dead(self.alloc, seen.dead_to(client))?;
        let found = &mut self.clients[client as usize];
        found.looked = looked;
        found.note(dead);
        Ok(Reply::Saw(phase))
    }

    #[tactic(auto, unfolding(crate::specs::References::acquire_of))]
    pub(crate) fn acquire(
        &mut self,
        client: u32,
        slot: u32,
        weight: u64,
        name: u64,
    ) -> Result<Reply, CoreError>
        requires { IsLawful self.old }
        ensures { Follows (acquire_of self.old client slot weight name) true
            self.old result self.new }
    {
        let seen = slot_at(&self.slots, slot)?;
        let found = live_at(&self.clients, client)?;
        if !may_acquire(
            &self.setup,
            &self.slots,
            client,
            found,
            slot,
            seen,
            weight,
            name,
        ) {
            return Err(CoreError::NotAllowed);
        }
        let counting = seen.counts();
        let reply = seen.acquired(counting);
        let dead = found.with_dead(self.alloc, seen.hidden_stamp())?;
        self.slots[slot as usize].acquire(Reference {
            client,
            name,
            weight,
            counting,
        })?;
        let found = &mut self.clients[client as usize];
        found.looked = None;
        found.note(dead);
        Ok(reply)
    }

    #[tactic(auto, unfolding(crate::specs::References::give_of))]
    pub(crate) fn give(&mut self, client: u32, name: u64) -> Result<Reply, CoreError>
        requires { IsLawful self.old }
        ensures { Follows (give_of self.old client name) true self.old result self.new }
    {
        let found = live_at(&self.clients, client)?;
        let slot = holding(&self.slots, client, name)?;
        let dead = found.with_dead(self.alloc, self.slots[slot].dead_to(client))?;
        self.clients[client as usize].note(dead);
        let left = &mut self.slots[slot];
        left.give(client, name);
        Ok(left.left())
    }

    #[tactic(auto, unfolding(crate::specs::References::use_of))]
    pub(crate) fn spend(&mut self, client: u32, name: u64) -> Result<Reply, CoreError>
        requires { IsLawful self.old }
        ensures { Follows (use_of self.old client name) true self.old result self.new }
    {
        let found = live_at(&self.clients, client)?;
        let slot = holding(&self.slots, client, name)?;
        let seen = &self.slots[slot];
        let Some(reference) = seen.counting_reference(client, name) else {
            return Err(CoreError::NotAllowed);
        };
        let dead = found.with_dead(self.alloc, seen.dead_to(client))?;
        self.clients[client as usize].note(dead);
        let left = &mut self.slots[slot];
        left.spend(client, name, reference);
        Ok(left.left())
    }
}

/// Whether a client that is live has nothing in hand.
fn may_end(found: &Client, slots: &[Slot], client: u32) -> bool
    ensures { result ≡ (is_idle found.now && holds_nothing slots.now client) }
{
    found.is_idle() && !is_any_held(slots, client)
}

/// Whether a slot has a reference of this client.
fn is_any_held(slots: &[Slot], client: u32) -> bool
    ensures { result ≡ list_any (has_client client) slots.now }
{
    slots.iter().any(|slot| slot.has_client(client))
}

/// Whether a client that is live may acquire a reference on the slot.
#[tactic(auto, unfolding(crate::specs::References::may_acquire))]
fn may_acquire(
    setup: &Setup,
    slots: &[Slot],
    client: u32,
    found: &Client,
    slot: u32,
    seen: &Slot,
    weight: u64,
    name: u64,
) -> bool
    requires { weight_of seen.now < 2 ^ 63 }
    ensures { result ≡ may_acquire setup.now slots.now client found.now slot seen.now weight name }
{
    1 <= weight
        && weight <= MOST_WEIGHT
        && slot_holding(slots, client, name).is_none()
        && (found.looked == Some(slot) || seen.has_client(client))
        && seen.weight() + weight <= setup.clients as u64 * REFERENCES_PER_CLIENT
}
