//! Steps by which a client takes a slot, writes it and gives it back.
ghost use Rattle.std.specs.Prelude.{◌≡◌, ◌+◌, ◌<◌, [], true, length};
ghost use Rattle.hcc_word.specs.declared.layout.TheConstants.{EMPTY_WORD, OCCUPIED_BIT};
ghost use Rattle.hcc_core.specs.declared.client.Owned.TheVariants.{ForBuilding, ForFreeing};
ghost use Rattle.hcc_core.specs.World.{owns_nothing};
ghost use Rattle.hcc_rule.specs.declared.layout.TheConstants.{PAYLOAD, STAMP};
ghost use Rattle.hcc_rule.specs.Callers.{IsEvent, IsSeatAt, IsSlotAt};
ghost use Rattle.hcc_rule.specs.Addresses.{address_of_data, address_of_meta};
ghost use Rattle.hcc_rule.specs.Events.{empty_done, occupy_done, write_done};
ghost use Rattle.hcc_rule.specs.Rule.{IsNextStamp};
ghost use Rattle.hcc_rule.specs.Seats.{IsSameSeat, Makes, view};
ghost use Rattle.hcc_rule.specs.Looked.{Backs};
ghost use Rattle.hcc_rule.specs.ToldOwners.{after_occupy, after_empty, after_write};

use crate::addresses::SlotAt;
use crate::key::Tag;
use crate::layout::META;
use crate::steps::does::Does;
use crate::table::{RuleSeat, RuleTable};
use crate::view::View;
use hcc_word::layout::{EMPTY_WORD, OCCUPIED_BIT};
use std::alloc::Allocator;
use std::marker::Brand;

/// What a store of a data word shows.
pub struct Write;

impl<T: Tag> Does<View<T>> for Write {
    ghost use Rattle.hcc_rule.specs.ToldOwners.{writes};

    ghost then = { writes };
}

/// What the store that empties a slot shows.
pub struct Empty;

impl<T: Tag> Does<View<T>> for Empty {
    ghost use Rattle.hcc_rule.specs.ToldOwners.{empties};

    ghost then = { empties };
}

impl<T: Tag, A: Allocator> RuleTable<T, A> {
    /// Sets the occupied bit of a slot's meta word. A slot whose word was an empty one's is the
    /// client's to build from now on; any other was looked at, and its word stays.
    ///
    /// The client owns no slot. Where it holds references on the slot, the word is that of an entry
    /// with at least these. It allocates nothing. It costs one atomic or.
    pub fn occupy_at(&self, seat: &mut RuleSeat<T>, at: SlotAt) -> u64
        requires seat { IsSeatAt self.now seat.old }
        requires at { IsSlotAt self.now at }
        requires idle { owns_nothing (view seat.old).work.owned ≡ true }
        ensures seat { IsSameSeat seat.old seat.new }
        ensures view { view seat.new ≡ after_occupy at.slot result (view seat.old) }
        ensures backs { Backs at.slot result (view seat.old) }
        ensures step { Makes (address_of_meta self.now at.slot) OCCUPIED_BIT 0 result
            seat.old seat.new }
        ensures event { IsEvent self.now (occupy_done at.slot result (view seat.old))
            seat.old seat.new }
    {
        let address = self.head_address(at, META);
        self.fetch_or::<Brand, _>(seat, address, OCCUPIED_BIT, at.slot)
    }

    /// Stores the next data word of the slot that the client builds: the one behind those that it
    /// wrote.
    ///
    /// `index` is how many it wrote, below the five words before the payload and the payload words
    /// of a slot. The stamp word has a serial above those of all entries that the client showed: so
    /// no slot has a stamp word twice. It allocates nothing. It costs one atomic store.
    pub fn write_at(&self, seat: &mut RuleSeat<T>, at: SlotAt, index: usize, word: u64)
        requires seat { IsSeatAt self.now seat.old }
        requires at { IsSlotAt self.now at }
        requires owned { (view seat.old).work.owned ≡ ForBuilding at.slot }
        requires next { (index ≡ length (view seat.old).written)
            × (index < PAYLOAD + self.now.geometry.room) }
        requires stamp { index ≡ STAMP → IsNextStamp word (view seat.old) }
        ensures seat { IsSameSeat seat.old seat.new }
        ensures view { view seat.new ≡ after_write word (view seat.old) }
        ensures step { Makes (address_of_data self.now at.slot index) word 0 word
            seat.old seat.new }
        ensures event { IsEvent self.now (write_done (view seat.old))
            seat.old seat.new }
    {
        self.store::<Write, _>(seat, self.data_address(at, index), word, ());
    }

    /// Empties the slot that the client took to free, once its trail was taken back.
    ///
    /// It allocates nothing. It costs one atomic store.
    pub fn empty_at(&self, seat: &mut RuleSeat<T>, at: SlotAt)
        requires seat { IsSeatAt self.now seat.old }
        requires at { IsSlotAt self.now at }
        requires owned { (view seat.old).work.owned ≡ ForFreeing at.slot }
        requires back { (view seat.old).work.trail ≡ [] }
        ensures seat { IsSameSeat seat.old seat.new }
        ensures view { view seat.new ≡ after_empty (view seat.old) }
        ensures step { Makes (address_of_meta self.now at.slot) EMPTY_WORD 0 EMPTY_WORD
            seat.old seat.new }
        ensures event { IsEvent self.now (empty_done (view seat.old))
            seat.old seat.new }
    {
        self.store::<Empty, _>(seat, self.head_address(at, META), EMPTY_WORD, ());
    }
}
