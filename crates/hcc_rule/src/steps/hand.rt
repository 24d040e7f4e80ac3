//! Turns of the hand.
ghost use Rattle.std.specs.Prelude.{◌≡◌};
ghost use Rattle.hcc_core.specs.declared.limits.TheConstants.{SLOTS_PER_TURN};
ghost use Rattle.hcc_rule.specs.declared.layout.TheConstants.{HAND};
ghost use Rattle.hcc_rule.specs.Callers.{IsEvent, IsSeatAt};
ghost use Rattle.hcc_rule.specs.Addresses.{address_of_ledger};
ghost use Rattle.hcc_rule.specs.Events.{turn_done};
ghost use Rattle.hcc_rule.specs.Seats.{IsSameSeat, Makes, view};
ghost use Rattle.hcc_rule.specs.ToldLedgers.{after_turn};

use crate::key::Tag;
use crate::layout::HAND;
use crate::steps::does::Does;
use crate::table::{RuleSeat, RuleTable};
use crate::view::View;
use hcc_core::limits::SLOTS_PER_TURN;
use std::alloc::Allocator;

/// What a turn of the hand shows.
pub struct Turn;

impl<T: Tag> Does<View<T>> for Turn {
    ghost use Rattle.hcc_rule.specs.ToldLedgers.{turns};

    ghost then = { turns };
}

impl<T: Tag, A: Allocator> RuleTable<T, A> {
    /// Moves the hand on by four slots, modulo 2^64. The view counts one more turn. The rule says
    /// that the hand has moved by four slots for each turn that the views count: no other move
    /// keeps it.
    ///
    /// It returns where the hand was. It allocates nothing. It costs one atomic add.
    pub fn turn(&self, seat: &mut RuleSeat<T>) -> u64
        requires seat { IsSeatAt self.now seat.old }
        ensures seat { IsSameSeat seat.old seat.new }
        ensures view { view seat.new ≡ after_turn (view seat.old) }
        ensures step { Makes (address_of_ledger self.now HAND) SLOTS_PER_TURN 0 result
            seat.old seat.new }
        ensures event { IsEvent self.now (turn_done result (view seat.old))
            seat.old seat.new }
    {
        self.fetch_add::<Turn, _>(seat, self.ledger(HAND), SLOTS_PER_TURN, ())
    }
}
