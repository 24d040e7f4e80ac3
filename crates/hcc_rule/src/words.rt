//! The words of a shard, and all that reaches them while threads share them. No other file can: a
//! load that no log has changes nothing that a contract could tell of, so it could stand only here.
//! A step makes one atomic operation, which its seat's log then has; a split or a join of seats
//! loads a word and drops it.
//!
//! What is said to a step is only for its proof: of which slot it is, by which name, and the like.
//! It is no part of the program that runs.
ghost use Rattle.std.specs.Prelude.{◌≡◌, ◌+◌, ◌-◌, ◌∷◌, ◌%◌, ◌^◌, ◌==◌, [], IfOk, List, bit_and, bit_or, length};
ghost use Rattle.std.specs.Slots.{slots_items, slots_len, IsFull};
ghost use Rattle.atomic_table.specs.Table.{opening, Final, Seen};
ghost use prog.Atomic.{either};
ghost use Rattle.hcc_rule.specs.declared.view.Other.{Other};
ghost use Rattle.hcc_rule.specs.Acts.{heard, longer, past, told};
ghost use Rattle.hcc_rule.specs.Callers.{plan_of, IsSeatAt, IsWitnessAt};
ghost use Rattle.hcc_rule.specs.Logs.{Hears, HoldsLogged, Sees, first_logged};
ghost use Rattle.hcc_rule.specs.Passing.{IsIdle, joined_view, left_view, right_view};
ghost use Rattle.hcc_rule.specs.Said.{tells, May, Did};
ghost use Rattle.hcc_rule.specs.Seats.{IsSameSeat, moves, steps, view};

use crate::key::Tag;
use crate::rule::{Plan, ShardRule};
use crate::steps::{Does, End, Hear, Start, Tell};
use crate::table::{RuleSeat, RuleTable};
use crate::view::{Logged, View};
use atomic_table::{Closed, Table};
use std::alloc::{AllocError, Allocator};
use std::marker::Brand;

/// The words, as the threads of a shard share them.
#[derive(Drop)]
pub(crate) struct Words<T: Tag, A: Allocator> {
    table: Table<(), Logged<T>, Plan<T>, ShardRule<T>, A>,
}

impl<T: Tag, A: Allocator> Words<T, A> {
    /// The words that a shard of this plan begins with, and the seat of client 0.
    pub(crate) fn new(
        alloc: A,
        words: &[u64],
        plan: &Plan<T>,
    ) -> Result<(Words<T, A>, RuleSeat<T>), AllocError>
        requires { HoldsLogged T.fits plan.now (opening words.now [] (first_logged plan.now)) }
        ensures plan { IfOk result (λ made. made.0.table.shared.key ≡ plan.now) }
        ensures size { IfOk result (λ made. (made.0.table.shared.table_id.slots ≡ 0)
            × (made.0.table.shared.table_id.words ≡ length words.now)) }
        ensures seat { IfOk result (λ made. (made.1.table_id ≡ made.0.table.shared.table_id)
            × (made.1.me ≡ (first_logged plan.now, []))) }
    {
        let (table, seat) = Table::of_words(alloc, words, plan)?;
        Ok((Words { table }, seat))
    }

    /// The words that are left. They are those of a state that has the seat's view.
    pub(crate) fn close(self, seat: RuleSeat<T>) -> Closed<(), A>
        requires { seat.table_id ≡ self.table.shared.table_id }
        ensures size { (slots_len result.slots ≡ self.table.shared.table_id.slots)
            × (slots_len result.words ≡ self.table.shared.table_id.words) }
        ensures full { IsFull result.words × IsFull result.slots }
        ensures last { Final (Seen (HoldsLogged T.fits self.table.shared.key) seat.id seat.me.0)
            (slots_items result.words) (slots_items result.slots) }
    {
        self.table.close_with(seat)
    }
}

impl<T: Tag, A: Allocator> RuleTable<T, A> {
    #[inline(always)]
    pub(crate) fn load<J: Does<View<T>>, S: Copy>(
        &self,
        seat: &mut RuleSeat<T>,
        address: usize,
        _said: S,
    ) -> u64
        requires { May T.fits self.now seat.old address (λ n. n)
            (tells J.then self.now seat.old address 0 0) }
        ensures does { Did J.then self.now address 0 0 result seat.old seat.new }
        ensures sees { Sees T.fits (plan_of self.now) address result seat.old.me.0 seat.new.me.0 }
        ensures hears { Hears seat.old.me.0 seat.new.me.0 }
    {
        self.words.table.shared.load::<Brand>(seat, address)
    }

    #[inline(always)]
    pub(crate) fn store<J: Does<View<T>>, S: Copy>(
        &self,
        seat: &mut RuleSeat<T>,
        address: usize,
        word: u64,
        _said: S,
    )
        requires { May T.fits self.now seat.old address (λ n. word)
            (λ n. tells J.then self.now seat.old address word 0 word) }
        ensures { Did J.then self.now address word 0 word seat.old seat.new }
    {
        self.words.table.shared.store::<Brand>(seat, address, word);
    }

    #[inline(always)]
    pub(crate) fn fetch_add<J: Does<View<T>>, S: Copy>(
        &self,
        seat: &mut RuleSeat<T>,
        address: usize,
        amount: u64,
        _said: S,
    ) -> u64
        requires { May T.fits self.now seat.old address (λ n. (n + amount) % 2 ^ 64)
            (tells J.then self.now seat.old address amount 0) }
        ensures { Did J.then self.now address amount 0 result seat.old seat.new }
    {
        self.words
            .table
            .shared
            .fetch_add::<Brand>(seat, address, amount)
    }

    #[inline(always)]
    pub(crate) fn fetch_sub<J: Does<View<T>>, S: Copy>(
        &self,
        seat: &mut RuleSeat<T>,
        address: usize,
        amount: u64,
        _said: S,
    ) -> u64
        requires { May T.fits self.now seat.old address (λ n. (n + (2 ^ 64 - amount)) % 2 ^ 64)
            (tells J.then self.now seat.old address amount 0) }
        ensures { Did J.then self.now address amount 0 result seat.old seat.new }
    {
        self.words
            .table
            .shared
            .fetch_sub::<Brand>(seat, address, amount)
    }

    #[inline(always)]
    pub(crate) fn fetch_and<J: Does<View<T>>, S: Copy>(
        &self,
        seat: &mut RuleSeat<T>,
        address: usize,
        mask: u64,
        _said: S,
    ) -> u64
        requires { May T.fits self.now seat.old address (λ n. bit_and n mask)
            (tells J.then self.now seat.old address mask 0) }
        ensures { Did J.then self.now address mask 0 result seat.old seat.new }
    {
        self.words
            .table
            .shared
            .fetch_and::<Brand>(seat, address, mask)
    }

    #[inline(always)]
    pub(crate) fn fetch_or<J: Does<View<T>>, S: Copy>(
        &self,
        seat: &mut RuleSeat<T>,
        address: usize,
        bits: u64,
        _said: S,
    ) -> u64
        requires { May T.fits self.now seat.old address (λ n. bit_or n bits)
            (tells J.then self.now seat.old address bits 0) }
        ensures { Did J.then self.now address bits 0 result seat.old seat.new }
    {
        self.words
            .table
            .shared
            .fetch_or::<Brand>(seat, address, bits)
    }

    #[inline(always)]
    pub(crate) fn compare_exchange<J: Does<View<T>>, S: Copy>(
        &self,
        seat: &mut RuleSeat<T>,
        address: usize,
        old: u64,
        new: u64,
        _said: S,
    ) -> u64
        requires { May T.fits self.now seat.old address (λ n. either (n == old) new n)
            (tells J.then self.now seat.old address old new) }
        ensures { Did J.then self.now address old new result seat.old seat.new }
    {
        self.words
            .table
            .shared
            .compare_exchange::<Brand>(seat, address, old, new)
    }

    /// Starts the first of the clients that a seat names beside its own: the seat of that client.
    /// It has nothing in hand; its made list and its dead list are those it had when it last ended.
    /// The seat that is split keeps its steps, and the new one has made none. Both know as much of
    /// the shard's history as the one did.
    ///
    /// It allocates nothing. It costs one load.
    pub fn split(&self, seat: &mut RuleSeat<T>) -> RuleSeat<T>
        requires seat { IsSeatAt self.now seat.old }
        requires another { (o : Other) × (os : List Other) × ((view seat.old).others ≡ o ∷ os) }
        ensures seat { IsSameSeat seat.old seat.new }
        ensures left { view seat.new ≡ left_view (view seat.old) }
        ensures new { IsSeatAt self.now result }
        ensures right { view result ≡ right_view (view seat.old) }
        ensures kept { steps seat.new ≡ steps seat.old }
        ensures none { steps result ≡ [] }
        ensures moves { (moves seat.new ≡ moves seat.old) × (moves result ≡ 0) }
        ensures past { (past seat.new ≡ past seat.old) × (past result ≡ past seat.old) }
    {
        self.words.table.shared.split_seat::<Start>(seat)
    }

    /// Ends the client of another seat, which has nothing in hand and holds no reference. The seat
    /// that is left names that client from then on, with all that the other one named, and takes
    /// over its hidden keys, its met keys, its answers and its counts. Its steps stay its own; how
    /// many the other one made is counted beside them. Of the shard's history it knows what the one
    /// or the other did, whichever is more.
    ///
    /// It allocates nothing. It costs one load.
    pub fn join(&self, seat: &mut RuleSeat<T>, other: RuleSeat<T>)
        requires seat { IsSeatAt self.now seat.old }
        requires other { IsSeatAt self.now other }
        requires idle { IsIdle (view other).work × ((view other).records ≡ []) }
        ensures seat { IsSameSeat seat.old seat.new }
        ensures both { view seat.new ≡ joined_view (view seat.old) (view other) }
        ensures kept { steps seat.new ≡ steps seat.old }
        ensures moves { moves seat.new ≡ moves seat.old + moves other }
        ensures past { past seat.new ≡ longer (past seat.old) (past other) }
    {
        self.words.table.shared.join_seat::<End>(seat, other)
    }

    /// A witness of all that the seat knows of the shard's history, for another client's seat to
    /// follow. It stands for no client. The seat stays as it is, and a witness that nobody follows
    /// does no harm.
    ///
    /// It allocates nothing. It costs one load.
    pub fn witness(&self, seat: &mut RuleSeat<T>) -> RuleSeat<T>
        requires { IsSeatAt self.now seat.old }
        ensures same { seat.new ≡ seat.old }
        ensures witness { IsWitnessAt self.now result }
        ensures told { heard result ≡ past seat.old }
    {
        self.words.table.shared.split_seat::<Tell>(seat)
    }

    /// Tells a seat what a witness knows: what the seat knows after its next load that is an event
    /// goes on from that. It costs one load.
    pub(crate) fn hear(&self, seat: &mut RuleSeat<T>, witness: RuleSeat<T>)
        requires seat { IsSeatAt self.now seat.old }
        requires witness { IsWitnessAt self.now witness }
        ensures { seat.new ≡ told (heard witness) seat.old }
    {
        self.words.table.shared.join_seat::<Hear>(seat, witness)
    }
}
