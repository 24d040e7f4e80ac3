//! The steps on the ledgers: enter, quit, slots, charge, settle, waive, stand and fall, and the
//! loads.
ghost use Rattle.std.specs.Prelude.{◌≡◌, ◌<◌, ◌≤◌, ◌+◌, ◌^◌, true, false};
ghost use Rattle.hcc_core.specs.Ledgers.{enter_of, slots_of, charge_by, grant_of, may_charge};
ghost use Rattle.hcc_core.specs.Ledgers.{settle_of, may_settle, waive_of, may_waive, quit_of};
ghost use Rattle.hcc_core.specs.Ledgers.{usage_told, occupancy_told, standing_told, stand_of};
ghost use Rattle.hcc_core.specs.Ledgers.{fall_of};
ghost use Rattle.hcc_core.specs.Steps.{Follows};
ghost use Rattle.hcc_core.specs.Lawful.{IsLawful};

use crate::client::{Client, Place, Standalone};
use crate::event::{CoreError, Reply};
use crate::limits::{MOST_USAGE, OCCUPANCY_PERCENT};
use crate::machine::{Machine, live_at};
use crate::setup::Setup;

impl Machine {
    #[tactic(auto, unfolding(crate::specs::Ledgers::enter_of))]
    pub(crate) fn enter(&mut self, client: u32) -> Result<Reply, CoreError>
        requires { IsLawful self.old }
        ensures { Follows (enter_of self.old client) false self.old result self.new }
    {
        if !live_at(&self.clients, client)?.place.is_absent() {
            return Err(CoreError::NotAllowed);
        }
        let limit = self.setup.slots as u64 * OCCUPANCY_PERCENT / 100;
        let room = self.occupancy() < limit;
        let place = if room { Place::Granted } else { Place::Open };
        self.clients[client as usize].place = place;
        Ok(if room { Reply::Granted } else { Reply::Open })
    }

    #[tactic(auto, unfolding(crate::specs::Ledgers::slots_of))]
    pub(crate) fn slots(&mut self, client: u32) -> Result<Reply, CoreError>
        ensures { Follows (slots_of self.old client) false self.old result self.new }
    {
        let found = live_at(&self.clients, client)?;
        if found.freed_slots == 0 {
            return Err(CoreError::NotAllowed);
        }
        let place = found.place.with_slot();
        let found = &mut self.clients[client as usize];
        found.freed_slots = 0;
        found.place = place;
        Ok(Reply::Ok)
    }

    #[tactic(auto, unfolding(crate::specs::Ledgers::charge_by))]
    pub(crate) fn charge(&mut self, client: u32, charge: u32) -> Result<Reply, CoreError>
        requires { IsLawful self.old }
        ensures { Follows (charge_by self.old client charge) false self.old result self.new }
    {
        let found = live_at(&self.clients, client)?;
        let usage = self.usage();
        let charge = charge as u64;
        if !may_charge(found, usage, charge) {
            return Err(CoreError::NotAllowed);
        }
        let granted = grant(&self.setup, usage, charge);
        let needed = charge - granted;
        let found = &mut self.clients[client as usize];
        found.granted = granted;
        found.needed = needed;
        Ok(Reply::Split { granted, needed })
    }

    #[tactic(auto, unfolding(crate::specs::Ledgers::settle_of))]
    pub(crate) fn settle(&mut self, client: u32) -> Result<Reply, CoreError>
        requires { IsLawful self.old }
        ensures { Follows (settle_of self.old client) false self.old result self.new }
    {
        let found = live_at(&self.clients, client)?;
        if !may_settle(found) {
            return Err(CoreError::NotAllowed);
        }
        let granted = found.granted + found.needed;
        let found = &mut self.clients[client as usize];
        found.granted = granted;
        found.needed = 0;
        found.freed = 0;
        Ok(Reply::Ok)
    }

    #[tactic(auto, unfolding(crate::specs::Ledgers::waive_of))]
    pub(crate) fn waive(&mut self, client: u32) -> Result<Reply, CoreError>
        ensures { Follows (waive_of self.old client) false self.old result self.new }
    {
        if !may_waive(live_at(&self.clients, client)?) {
            return Err(CoreError::NotAllowed);
        }
        let found = &mut self.clients[client as usize];
        found.granted = 0;
        found.needed = 0;
        found.freed = 0;
        Ok(Reply::Ok)
    }

    #[tactic(auto, unfolding(crate::specs::Ledgers::quit_of))]
    pub(crate) fn quit(&mut self, client: u32) -> Result<Reply, CoreError>
        ensures { Follows (quit_of self.old client) false self.old result self.new }
    {
        if !live_at(&self.clients, client)?.place.is_placed() {
            return Err(CoreError::NotAllowed);
        }
        self.clients[client as usize].leave();
        Ok(Reply::Ok)
    }

    #[tactic(auto, unfolding(crate::specs::Ledgers::usage_told))]
    pub(crate) fn tell_usage(&mut self, client: u32) -> Result<Reply, CoreError>
        requires { IsLawful self.old }
        ensures { Follows (usage_told self.old client) false self.old result self.new }
    {
        live_at(&self.clients, client)?;
        Ok(Reply::Count(self.usage()))
    }

    #[tactic(auto, unfolding(crate::specs::Ledgers::occupancy_told))]
    pub(crate) fn tell_occupancy(&mut self, client: u32) -> Result<Reply, CoreError>
        requires { IsLawful self.old }
        ensures { Follows (occupancy_told self.old client) false self.old result self.new }
    {
        live_at(&self.clients, client)?;
        Ok(Reply::Count(self.occupancy()))
    }

    #[tactic(auto, unfolding(crate::specs::Ledgers::standing_told))]
    pub(crate) fn tell_standing(&mut self, client: u32) -> Result<Reply, CoreError>
        requires { IsLawful self.old }
        ensures { Follows (standing_told self.old client) false self.old result self.new }
    {
        live_at(&self.clients, client)?;
        Ok(Reply::Count(self.standing()))
    }

    #[tactic(auto, unfolding(crate::specs::Ledgers::stand_of))]
    pub(crate) fn stand(&mut self, client: u32, charge: u32, name: u64) -> Result<Reply, CoreError>
        ensures { Follows (stand_of self.old client charge name) true self.old result self.new }
    {
        let charge = charge as u64;
        let found = live_at(&self.clients, client)?;
        if !found.may_stand(charge, name) {
            return Err(CoreError::NotAllowed);
        }
        let granted = found.granted - charge;
        let found = &mut self.clients[client as usize];
        found.standalones.push(Standalone { name, charge })?;
        found.granted = granted;
        Ok(Reply::Ok)
    }

    #[tactic(auto, unfolding(crate::specs::Ledgers::fall_of))]
    pub(crate) fn fall(&mut self, client: u32, name: u64) -> Result<Reply, CoreError>
        requires { IsLawful self.old }
        ensures { Follows (fall_of self.old client name) false self.old result self.new }
    {
        let found = live_at(&self.clients, client)?;
        let Some(gone) = found.standalone(name) else {
            return Err(CoreError::NotAllowed);
        };
        let freed = found.freed + gone.charge;
        let found = &mut self.clients[client as usize];
        found.freed = freed;
        found.fell(name);
        Ok(Reply::Ok)
    }
}

/// What a charge is given at once.
fn grant(setup: &Setup, usage: u64, charge: u64) -> u64
    ensures is { result ≡ grant_of setup.now usage charge }
    ensures within { result ≤ charge }
{
    if setup.strict {
        charge.min(setup.capacity - usage.min(setup.capacity))
    } else {
        charge
    }
}

/// Whether a client that is live may ask for this charge.
fn may_charge(found: &Client, usage: u64, charge: u64) -> bool
    requires { usage + charge < 2 ^ 64 }
    ensures { result ≡ may_charge found.now usage charge }
{
    found.granted == 0 && found.needed == 0 && usage + charge <= MOST_USAGE
}

/// Whether a client that is live may spend what it freed.
fn may_settle(found: &Client) -> bool
    ensures { result ≡ may_settle found.now }
{
    0 < found.freed && found.needed <= found.freed
}

/// Whether a client that is live has amounts to give up.
fn may_waive(found: &Client) -> bool
    ensures { result ≡ may_waive found.now }
{
    0 < found.granted || 0 < found.needed || 0 < found.freed
}
