//! Closing a shard, and loads of the words that are left.
ghost use Rattle.std.specs.Prelude.{◌≡◌, ◌+◌, ◌<◌, ◌≤◌, slice_index};
ghost use Rattle.hcc_rule.specs.declared.layout.TheConstants.{SLOT_HEAD, LEDGER_WORDS, DISPLACEMENT, PAYLOAD, USAGE, OCCUPANCY, STANDING, HAND};
ghost use Rattle.hcc_rule.specs.Acts.{IsAllowed, past, world_of};
ghost use Rattle.hcc_rule.specs.Closing.{words_of, meta_at, data_at, Shown, IsBack, IsWithin, Closes};
ghost use Rattle.hcc_rule.specs.Callers.{plan_of, IsSeatAt};
ghost use Rattle.hcc_rule.specs.Ending.{ShowsWorld};
ghost use Rattle.hcc_rule.specs.Images.{BeginsWith, entries_in};
ghost use Rattle.hcc_rule.specs.Seats.{moves, view};
ghost use Rattle.hcc_rule.specs.Views.{named_by};
ghost use Rattle.hcc_rule.specs.Words.{field_at, ledger_at, word_count};

use crate::closed::ClosedTable;
use crate::key::Tag;
use crate::layout::{DATA, DISPLACEMENT, HAND, META, OCCUPANCY, SLOT_HEAD, STANDING, USAGE};
use crate::table::{RuleSeat, RuleTable};
use std::alloc::Allocator;

impl<T: Tag, A: Allocator> RuleTable<T, A> {
    /// Ends the shard, by any of its seats. The words that are left are those of a state that meets
    /// the rule and has the seat's view, which names at most as many clients as the shard has.
    /// Where that view names every client and its own has nothing in hand, they tell more: the
    /// ledger words and the displacement words are only those of the entries, each entry is one of
    /// the made lists and no two are the same, a slot without an entry has at most strays, each
    /// member of the made lists stands in one slot or was taken, once, and the hand is where all
    /// turns left it. Uses and places are within the limits of an image, and under strict capacity
    /// so are the charges.
    ///
    /// They are then the words of one world: the one to which the events lead that the seat knows,
    /// from the world that the shard began with. The machine allows these events. Each meta word,
    /// entry, displacement and ledger word is that world's, and so is the hand: closing hides
    /// nothing, ages nothing and frees nothing. Where the seat knows no event, that is the world
    /// that the shard began with. Where neither the seat nor any that it took in made a step, the
    /// words are those with which it began.
    ///
    /// It refuses nothing and allocates nothing. It costs no pass over the words.
    pub fn close(self, seat: RuleSeat<T>) -> ClosedTable<A>
        requires seat { IsSeatAt self seat }
        ensures size { result.geometry ≡ self.geometry }
        ensures shown { Shown T.fits (plan_of self) (words_of result) (view seat) }
        ensures few { named_by (view seat) ≤ self.geometry.clients }
        ensures closes { IsBack self.geometry.clients (view seat)
            → Closes T.fits (plan_of self).tag self.geometry (words_of result) (view seat) }
        ensures within { IsBack self.geometry.clients (view seat)
            → IsWithin self.geometry self.capacity self.strict (words_of result) }
        ensures begins { IsBack self.geometry.clients (view seat) → moves seat ≡ 0
            → BeginsWith self.geometry.slots self.geometry.room
            (entries_in (plan_of self).image) (words_of result) }
        ensures left { IsBack self.geometry.clients (view seat)
            → ShowsWorld T.fits (plan_of self).tag self.geometry (words_of result) (view seat)
            (world_of (plan_of self) (past seat)) }
        ensures allowed { IsAllowed (plan_of self) (past seat) }
    {
        let RuleTable {
            words,
            geometry,
            stride: _,
            capacity: _,
            strict: _,
        } = self;
        ClosedTable::of(words.close(seat), geometry)
    }
}

impl<A: Allocator> ClosedTable<A> {
    fn word(&self, address: usize) -> u64
        requires { address < word_count self.now.geometry.slots self.now.geometry.room }
        ensures { result ≡ slice_index (words_of self.now) address }
    {
        self.closed.word(address)
    }

    fn field(&self, slot: u32, field: usize) -> u64
        requires slot { slot < self.now.geometry.slots }
        requires field { field < self.now.geometry.room + SLOT_HEAD }
        ensures { result ≡ slice_index (words_of self.now)
            (field_at self.now.geometry.room slot field) }
    {
        self.word(slot as usize * (self.geometry.room as usize + SLOT_HEAD) + field)
    }

    fn ledger(&self, ledger: usize) -> u64
        requires { ledger < LEDGER_WORDS }
        ensures { result ≡ slice_index (words_of self.now)
            (ledger_at self.now.geometry.slots self.now.geometry.room ledger) }
    {
        self.word(self.geometry.slots as usize * (self.geometry.room as usize + SLOT_HEAD) + ledger)
    }

    /// A slot's meta word. It costs one load.
    pub fn meta(&self, slot: u32) -> u64
        requires { slot < self.now.geometry.slots }
        ensures { result ≡ meta_at self.now.geometry.room (words_of self.now) slot }
    {
        self.field(slot, META)
    }

    /// A slot's displacement word. It costs one load.
    pub fn displacement(&self, slot: u32) -> u64
        requires { slot < self.now.geometry.slots }
        ensures { result ≡ slice_index (words_of self.now)
            (field_at self.now.geometry.room slot DISPLACEMENT) }
    {
        self.field(slot, DISPLACEMENT)
    }

    /// A data word of a slot: the five before the payload, and then the payload words. It costs one
    /// load.
    pub fn data(&self, slot: u32, index: usize) -> u64
        requires slot { slot < self.now.geometry.slots }
        requires index { index < PAYLOAD + self.now.geometry.room }
        ensures { result ≡ data_at self.now.geometry.room (words_of self.now) slot index }
    {
        self.field(slot, DATA + index)
    }

    /// The usage word. It costs one load.
    pub fn usage(&self) -> u64
        ensures { result ≡ slice_index (words_of self.now)
            (ledger_at self.now.geometry.slots self.now.geometry.room USAGE) }
    {
        self.ledger(USAGE)
    }

    /// The occupancy word. It costs one load.
    pub fn occupancy(&self) -> u64
        ensures { result ≡ slice_index (words_of self.now)
            (ledger_at self.now.geometry.slots self.now.geometry.room OCCUPANCY) }
    {
        self.ledger(OCCUPANCY)
    }

    /// The word of what stands for standalone entries. It costs one load.
    pub fn standing(&self) -> u64
        ensures { result ≡ slice_index (words_of self.now)
            (ledger_at self.now.geometry.slots self.now.geometry.room STANDING) }
    {
        self.ledger(STANDING)
    }

    /// The word of the hand. It costs one load.
    pub fn hand(&self) -> u64
        ensures { result ≡ slice_index (words_of self.now)
            (ledger_at self.now.geometry.slots self.now.geometry.room HAND) }
    {
        self.ledger(HAND)
    }
}
