//! Insertions.
ghost use Rattle.std.specs.Prelude.{◌≡◌, ◌+◌, ◌*◌, ◌<◌, Bool, false, true, ℕ, None, Some, Ok, Err, IfSome, IfNone, [], length};
ghost use Rattle.std.specs.List.{list_any};
ghost use Rattle.hcc_core.specs.declared.client.Place.TheVariants.{Granted};
ghost use Rattle.hcc_core.specs.declared.limits.TheConstants.{MOST_HANDLES};
ghost use Rattle.hcc_core.specs.Ledgers.{is_standing};
ghost use Rattle.hcc_core.specs.Sums.{when};
ghost use Rattle.hcc_rule.specs.Callers.{capacity_of, clients_of, is_strict, plan_of, room_of, slots_of, IsSeatAt};
ghost use Rattle.hcc_rule.specs.Addresses.{address_of_meta};
ghost use Rattle.hcc_rule.specs.Seats.{atomic, IsSameSeat, view};
ghost use Rattle.hcc_rule.specs.ToldOwners.{first_word};
ghost use Rattle.hcc_table.specs.declared.inserting.Insertion.TheVariants.{Placed};
ghost use Rattle.hcc_table.specs.Efforts.{Took};
ghost use Rattle.hcc_table.specs.Lists.{Hands};
ghost use Rattle.hcc_table.specs.Rises.{Rose};
ghost use Rattle.hcc_table.specs.Inserted.{MayInsert};
ghost use Rattle.hcc_table.specs.Steps.{Adds, Ends, MakesAtMost, MakesFor};
ghost use Rattle.hcc_charge.specs.declared.reserving.Refused.TheVariants.{TooLarge};
ghost use Rattle.hcc_charge.specs.declared.reserving.Reservation.TheVariants.{Reserved};
ghost use Rattle.hcc_charge.specs.Evicted.{most_turns, turn_room};
ghost use Rattle.hcc_charge.specs.Settled.{HasFreedNothing, KeepsAlone, stood, without_place};
ghost use Rattle.hcc_shard.specs.Inserted.{InsertedBy, IsInsertable, PinnedBy, PutBy, inserting_listed, listed_between};
ghost use Rattle.hcc_shard.specs.Reserving.{InsertedAs, IsLeftFor, PinnedAs, TriesEach, left_out};
ghost use Rattle.hcc_shard.specs.Seated.{Rests};
ghost use Rattle.hcc_shard.specs.Stays.{ShowsIn};
ghost use Rattle.hcc_shard.specs.declared.inserting.Inserted.TheVariants as inserted;
ghost use Rattle.hcc_shard.specs.declared.inserting.Pinned.TheVariants as pinned;

use crate::seat::ShardSeat;
use crate::shard::Shard;
use hcc_charge::{Refused, Reservation, give_up, keep_charge, reserve, standalone_in};
use hcc_rule::{Draft, RuleSeat, RuleTable, Tag};
use hcc_table::{FreedList, Insertion, Pin, insert};
use std::alloc::Allocator;

/// What came of an insertion that keeps no reference.
#[derive(Clone, Copy, Debug, PartialEq, Eq)]
pub enum Inserted {
    /// The entry is shown.
    Placed,
    /// It is as if it had been placed and evicted at once.
    Dropped,
}

/// What came of an insertion that keeps a reference.
#[derive(Clone, Copy, Debug, PartialEq, Eq)]
pub enum Pinned {
    /// The entry is shown, and this is the reference on it.
    Placed { pin: Pin },
    /// It is a standalone entry, named by its serial, whose value the caller keeps.
    Standalone,
}

impl<T: Tag, A: Allocator> Shard<T, A> {
    /// Inserts an entry and keeps no reference on it. A place and the charge are reserved first,
    /// which may evict others; that is refused only under strict capacity. Then it is put into the
    /// first slot of its key that is empty.
    ///
    /// It is dropped only where the shard was full and no place was found, where an entry of the
    /// key was met first, or where as many slots as the shard has were seen taken. A refusal leaves
    /// the client what it held and made, with nothing in hand, and evictions stay made. TooLarge
    /// makes no step.
    ///
    /// It evicts only where the reservation asks for something, and for just that: before the
    /// eviction's last turn less than that was freed, and the last turn frees at most four entries
    /// more. CapacityFull says that less charge was freed than the reservation lacked; where an
    /// entry is refused or dropped for lack of a place, no slot was freed. Only an entry of the key
    /// that was met is counted among the boosts, and each exchange that its eviction lost is
    /// counted once.
    ///
    /// What the eviction frees is put on the list. No turn of the hand is made where that has room
    /// for fewer than four entries.
    ///
    /// The draft has no name, and its serial is above those before. It allocates nothing. It costs
    /// a reservation, and where that is granted each probe of the key as a search does, a store for
    /// each word of the entry, and two subtractions where it is dropped. With L slots and values of
    /// W words that is at most 9 steps a turn, L + 4 for each slot that turns free, 7 a probe, and
    /// L + W + 8.
    pub fn insert<L: FreedList<T>>(
        &self,
        seat: &mut ShardSeat<T>,
        draft: Draft,
        value: &[u8],
        list: &mut L,
    ) -> Result<Inserted, Refused>
        requires seat { Rests self.now seat.old }
        requires may { IsInsertable T.fits (plan_of self.now.table) draft value.now
            (view seat.old.seat) }
        requires unnamed { draft.name ≡ None }
        ensures seat { Rests self.now seat.new }
        ensures list { Hands (L.shelf list.old) (L.shelf list.new)
            (view seat.old.seat) (view seat.new.seat) }
        ensures view { InsertedBy (turn_room (L.shelf list.old)) (turn_room (L.shelf list.new))
            (slots_of self.now.table) (capacity_of self.now.table)
            (is_strict self.now.table) draft value.now result
            (view seat.old.seat) (view seat.new.seat) }
        ensures large { is_strict self.now.table ≡ true → capacity_of self.now.table < draft.charge
            → result ≡ Err TooLarge }
        ensures effort { Took 0 (slots_of self.now.table)
            (4 * most_turns (slots_of self.now.table) + slots_of self.now.table)
            seat.old.effort seat.new.effort }
        ensures evicts { InsertedAs T.fits self.now draft
            (turn_room (L.shelf list.old)) (turn_room (L.shelf list.new))
            result seat.old seat.new }
        ensures shown { clients_of self.now.table ≡ 1 → result ≡ Ok inserted.Placed
            → (slot : ℕ) × ShowsIn self.now draft.key slot seat.new }
        ensures frees { MakesFor 7 (listed_between (slots_of self.now.table)
            (room_of self.now.table) L.loads (view seat.old.seat) (view seat.new.seat))
            (slots_of self.now.table) seat.old.effort seat.new.effort
            seat.old.seat seat.new.seat }
        ensures steps { MakesAtMost (inserting_listed (slots_of self.now.table)
            (room_of self.now.table) L.loads) seat.old.seat seat.new.seat }
    {
        let reserved = reserve(
            &self.table,
            &mut seat.seat,
            draft.charge,
            list,
            &mut seat.tally,
            &mut seat.effort,
        )?;
        match reserved {
            Reservation::Reserved => match self.put(seat, draft, value) {
                Some(_) => Ok(Inserted::Placed),
                None => {
                    give_up(&self.table, &mut seat.seat, draft.charge);
                    Ok(Inserted::Dropped)
                }
            },
            Reservation::NoPlace => Ok(Inserted::Dropped),
        }
    }

    /// Inserts an entry and keeps a reference on it, named by the draft's serial. Where it isn't
    /// put into the table, for one of the reasons that `insert` has, it is a standalone entry of
    /// that name: its charge is in the usage, and the caller keeps its value.
    ///
    /// The draft's name is its serial, which is above those before. The client holds fewer than
    /// 16,384 references, and has fewer standalone entries. It allocates nothing. It costs what
    /// `insert` does, and where no place was found two adds more.
    pub fn insert_pinned<L: FreedList<T>>(
        &self,
        seat: &mut ShardSeat<T>,
        draft: Draft,
        value: &[u8],
        list: &mut L,
    ) -> Result<Pinned, Refused>
        requires seat { Rests self.now seat.old }
        requires may { IsInsertable T.fits (plan_of self.now.table) draft value.now
            (view seat.old.seat) }
        requires named { draft.name ≡ Some draft.serial }
        requires few { length (view seat.old.seat).records < MOST_HANDLES }
        requires alone { length (view seat.old.seat).work.standalones < MOST_HANDLES }
        ensures seat { Rests self.now seat.new }
        ensures list { Hands (L.shelf list.old) (L.shelf list.new)
            (view seat.old.seat) (view seat.new.seat) }
        ensures view { PinnedBy (turn_room (L.shelf list.old)) (turn_room (L.shelf list.new))
            (slots_of self.now.table) (capacity_of self.now.table)
            (is_strict self.now.table) draft value.now result
            (view seat.old.seat) (view seat.new.seat) }
        ensures large { is_strict self.now.table ≡ true → capacity_of self.now.table < draft.charge
            → result ≡ Err TooLarge }
        ensures effort { Took 0 (slots_of self.now.table)
            (4 * most_turns (slots_of self.now.table) + slots_of self.now.table)
            seat.old.effort seat.new.effort }
        ensures evicts { PinnedAs T.fits self.now draft
            (turn_room (L.shelf list.old)) (turn_room (L.shelf list.new))
            result seat.old seat.new }
        ensures shown { clients_of self.now.table ≡ 1 → (pin : Pin)
            → result ≡ Ok (pinned.Placed pin) → ShowsIn self.now draft.key pin.slot seat.new }
        ensures frees { MakesFor 7 (listed_between (slots_of self.now.table)
            (room_of self.now.table) L.loads (view seat.old.seat) (view seat.new.seat))
            (slots_of self.now.table) seat.old.effort seat.new.effort
            seat.old.seat seat.new.seat }
        ensures steps { MakesAtMost (inserting_listed (slots_of self.now.table)
            (room_of self.now.table) L.loads) seat.old.seat seat.new.seat }
    {
        let reserved = reserve(
            &self.table,
            &mut seat.seat,
            draft.charge,
            list,
            &mut seat.tally,
            &mut seat.effort,
        )?;
        match reserved {
            Reservation::Reserved => match self.put(seat, draft, value) {
                Some(slot) => Ok(Pinned::Placed {
                    pin: Pin {
                        name: draft.serial,
                        slot,
                        counting: true,
                    },
                }),
                None => {
                    stand(&self.table, &mut seat.seat, draft.serial, draft.charge);
                    Ok(Pinned::Standalone)
                }
            },
            Reservation::NoPlace => {
                standalone_in(
                    &self.table,
                    &mut seat.seat,
                    draft.serial,
                    draft.charge,
                    false,
                );
                Ok(Pinned::Standalone)
            }
        }
    }

    /// Puts an entry into the table whose place and charge are granted. It returns its slot; where
    /// there is none, they are granted still.
    #[inline(always)]
    fn put(&self, seat: &mut ShardSeat<T>, draft: Draft, value: &[u8]) -> Option<u32>
        requires seat { IsSeatAt self.now.table seat.old.seat }
        requires may { MayInsert T.fits (plan_of self.now.table) draft value.now seat.old.client
            draft.serial (view seat.old.seat) }
        requires trail { (view seat.old.seat).work.trail ≡ [] }
        ensures seat { IsSameSeat seat.old.seat seat.new.seat }
        ensures client { seat.new.client ≡ seat.old.client }
        ensures view { PutBy (slots_of self.now.table) draft value.now result
            (view seat.old.seat) (view seat.new.seat) }
        ensures effort { Took 1 (slots_of self.now.table) (slots_of self.now.table)
            seat.old.effort seat.new.effort }
        ensures tally { seat.new.tally ≡ seat.old.tally }
        ensures placed { IfSome result (λ slot. (seat.new.boosts ≡ seat.old.boosts)
            × Ends (atomic (address_of_meta self.now.table slot) (first_word draft) 0
            (first_word draft)) seat.old.seat seat.new.seat
            × TriesEach T.fits self.now draft (Placed slot) seat.old seat.new) }
        ensures left { IfNone result ((matched : Bool)
            × IsLeftFor self.now draft Reserved matched seat.old seat.new
            × Rose (when matched 1) (when matched 1) seat.old.boosts seat.new.boosts
            × TriesEach T.fits self.now draft (left_out matched) seat.old seat.new) }
        ensures adds { (view seat.new.seat).saw < (view seat.old.seat).saw + slots_of self.now.table
            → Adds seat.old.seat seat.new.seat }
        ensures steps { MakesFor 7 (slots_of self.now.table + room_of self.now.table)
            (slots_of self.now.table) seat.old.effort seat.new.effort
            seat.old.seat seat.new.seat }
    {
        let insertion = insert(
            &self.table,
            &mut seat.seat,
            draft,
            value,
            seat.client,
            draft.serial,
            &mut seat.effort,
        );
        match insertion {
            Insertion::Placed { slot } => Some(slot),
            Insertion::Matched => {
                seat.boosts = seat.boosts.saturating_add(1);
                None
            }
            Insertion::NoSlot => None,
        }
    }
}

/// Makes a standalone entry of what was reserved, and gives the place up.
fn stand<T: Tag, A: Allocator>(
    table: &RuleTable<T, A>,
    seat: &mut RuleSeat<T>,
    name: u64,
    charge: u32,
)
    requires seat { IsSeatAt table.now seat.old }
    requires placed { (view seat.old).work.place ≡ Granted }
    requires granted { (view seat.old).work.granted ≡ charge }
    requires none { HasFreedNothing (view seat.old) }
    requires fresh { list_any (is_standing name) (view seat.old).work.standalones ≡ false }
    requires few { length (view seat.old).work.standalones < MOST_HANDLES }
    ensures seat { IsSameSeat seat.old seat.new }
    ensures view { view seat.new ≡ stood name charge (without_place charge (view seat.old)) }
    ensures by { KeepsAlone table.now name charge seat.old seat.new }
    ensures adds { Adds seat.old seat.new }
    ensures steps { MakesAtMost 3 seat.old seat.new }
{
    keep_charge(table, seat);
    standalone_in(table, seat, name, charge, true);
}
