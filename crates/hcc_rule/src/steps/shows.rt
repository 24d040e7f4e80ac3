//! The store that shows an entry.
ghost use Rattle.std.specs.Prelude.{◌≡◌};
ghost use Rattle.hcc_rule.specs.Callers.{plan_of, IsEvent, IsSeatAt, IsSlotAt};
ghost use Rattle.hcc_rule.specs.Addresses.{address_of_meta};
ghost use Rattle.hcc_rule.specs.Events.{show_done};
ghost use Rattle.hcc_rule.specs.Seats.{IsSameSeat, Makes, view};
ghost use Rattle.hcc_rule.specs.ToldOwners.{MayShow, after_show, first_word, made_of};

use crate::addresses::SlotAt;
use crate::key::{Key, Tag};
use crate::layout::META;
use crate::table::{RuleSeat, RuleTable};
use hcc_word::started;
use std::alloc::Allocator;
use std::marker::Brand;

/// How an entry is shown, beside its value.
#[derive(Clone, Copy, Debug, PartialEq, Eq)]
pub struct Draft {
    pub key: Key,
    /// The charge, above 0, which the client has granted.
    pub charge: u32,
    /// The serial that its maker gives it, below `2^54`.
    pub serial: u64,
    /// 1 to 3: how often the clock passes before it frees the entry.
    pub countdown: u32,
    /// The name of the reference that the client keeps, if any.
    pub name: Option<u64>,
}

impl<T: Tag, A: Allocator> RuleTable<T, A> {
    /// Shows the entry whose words the client wrote into the slot that it builds: look-ups find it
    /// from now on. The client keeps a reference on it where the draft has a name for one.
    ///
    /// The draft and the value say which entry it is; its words were all written. Its place and its
    /// charge were granted, and nothing is needed. The client's trail is the probes of the key
    /// before the slot, and becomes the entry's. It allocates nothing. It costs one atomic store.
    pub fn show_at(&self, seat: &mut RuleSeat<T>, at: SlotAt, draft: Draft, value: &[u8])
        requires seat { IsSeatAt self.now seat.old }
        requires at { IsSlotAt self.now at }
        requires may { MayShow T.fits (plan_of self.now) at.slot draft.countdown draft.name
            (made_of draft value.now) (view seat.old) }
        ensures seat { IsSameSeat seat.old seat.new }
        ensures view { view seat.new ≡ after_show at.slot draft.name (made_of draft value.now)
            (view seat.old) }
        ensures step { Makes (address_of_meta self.now at.slot) (first_word draft) 0
            (first_word draft) seat.old seat.new }
        ensures event { IsEvent self.now (show_done draft.countdown draft.name
            (made_of draft value.now) (view seat.old))
            seat.old seat.new }
    {
        let word = started(draft.countdown, draft.name.is_some());
        let address = self.head_address(at, META);
        self.store::<Brand, _>(seat, address, word, (at.slot, draft, value));
    }
}
