//! The steps on trails and the hand: count, pass, unpass and turn.
ghost use Rattle.std.specs.Prelude.{◌≡◌, true, false};
ghost use Rattle.hcc_core.specs.Trails.{count_of, pass_of, unpass_of, turn_of};
ghost use Rattle.hcc_core.specs.Steps.{Follows};
ghost use Rattle.hcc_core.specs.Lawful.{IsLawful};

use crate::event::{CoreError, Reply};
use crate::limits::SLOTS_PER_TURN;
use crate::machine::{Machine, live_at, slot_at};

impl Machine {
    #[tactic(auto, unfolding(crate::specs::Trails::count_of))]
    pub(crate) fn count(&mut self, client: u32, slot: u32) -> Result<Reply, CoreError>
        requires { IsLawful self.old }
        ensures { Follows (count_of self.old client slot) false self.old result self.new }
    {
        slot_at(&self.slots, slot)?;
        live_at(&self.clients, client)?;
        Ok(Reply::Count(self.passed(slot)))
    }

    #[tactic(auto, unfolding(crate::specs::Trails::pass_of))]
    pub(crate) fn pass(&mut self, client: u32, slot: u32) -> Result<Reply, CoreError>
        ensures { Follows (pass_of self.old client slot) true self.old result self.new }
    {
        slot_at(&self.slots, slot)?;
        let found = live_at(&self.clients, client)?;
        if found.trail.len() >= self.setup.slots as usize {
            return Err(CoreError::NotAllowed);
        }
        self.clients[client as usize].trail.push(slot)?;
        Ok(Reply::Ok)
    }

    #[tactic(auto, unfolding(crate::specs::Trails::unpass_of))]
    pub(crate) fn unpass(&mut self, client: u32, slot: u32) -> Result<Reply, CoreError>
        ensures { Follows (unpass_of self.old client slot) false self.old result self.new }
    {
        slot_at(&self.slots, slot)?;
        if !live_at(&self.clients, client)?.has_passed(slot) {
            return Err(CoreError::NotAllowed);
        }
        self.clients[client as usize].unpass(slot);
        Ok(Reply::Ok)
    }

    #[tactic(auto, unfolding(crate::specs::Trails::turn_of))]
    pub(crate) fn turn(&mut self, client: u32) -> Result<Reply, CoreError>
        ensures { Follows (turn_of self.old client) false self.old result self.new }
    {
        live_at(&self.clients, client)?;
        let hand = self.hand;
        self.hand = hand.wrapping_add(SLOTS_PER_TURN);
        Ok(Reply::Count(hand))
    }
}
