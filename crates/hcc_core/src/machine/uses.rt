//! The steps on uses and marks: clock, mark and correct.
ghost use Rattle.std.specs.Prelude.{◌≡◌, true, false};
ghost use Rattle.hcc_core.specs.Uses.{clock_of, clocked, mark_of, correct_of};
ghost use Rattle.hcc_core.specs.Steps.{Follows};

use crate::event::{CoreError, Reply};
use crate::limits::{CORRECTION, MOST_CLOCKED};
use crate::machine::{Machine, holding, live_at, slot_at};

impl Machine {
    #[tactic(auto, unfolding(crate::specs::Uses::clock_of))]
    pub(crate) fn clock(&mut self, client: u32, slot: u32) -> Result<Reply, CoreError>
        ensures { Follows (clock_of self.old client slot) false self.old result self.new }
    {
        let seen = slot_at(&self.slots, slot)?;
        live_at(&self.clients, client)?;
        if !seen.may_clock() {
            return Err(CoreError::NotAllowed);
        }
        let uses = clocked(seen.uses());
        self.slots[slot as usize].set_uses(uses);
        Ok(Reply::Uses(uses))
    }

    #[tactic(auto, unfolding(crate::specs::Uses::mark_of))]
    pub(crate) fn mark(&mut self, client: u32, name: u64) -> Result<Reply, CoreError>
        ensures { Follows (mark_of self.old client name) true self.old result self.new }
    {
        let found = live_at(&self.clients, client)?;
        let slot = holding(&self.slots, client, name)?;
        let dead = found.with_dead(self.alloc, self.slots[slot].dead_to(client))?;
        self.clients[client as usize].note(dead);
        self.slots[slot].mark();
        Ok(Reply::Ok)
    }

    #[tactic(auto, unfolding(crate::specs::Uses::correct_of))]
    pub(crate) fn correct(&mut self, client: u32, name: u64) -> Result<Reply, CoreError>
        ensures { Follows (correct_of self.old client name) true self.old result self.new }
    {
        let found = live_at(&self.clients, client)?;
        let slot = holding(&self.slots, client, name)?;
        let seen = &self.slots[slot];
        if !seen.may_correct(client, name) {
            return Err(CoreError::NotAllowed);
        }
        let uses = seen.uses().saturating_sub(CORRECTION);
        let dead = found.with_dead(self.alloc, seen.dead_to(client))?;
        self.clients[client as usize].note(dead);
        self.slots[slot].set_uses(uses);
        Ok(Reply::Ok)
    }
}

/// What a clock visit makes of the uses.
fn clocked(uses: u64) -> u64
    ensures { result ≡ clocked uses }
{
    uses.saturating_sub(1).min(MOST_CLOCKED)
}
