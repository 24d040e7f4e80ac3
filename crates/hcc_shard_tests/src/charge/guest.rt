//! A client that reserves, inserts and keeps references. Between its calls it has nothing in hand
//! but these and standalone entries.
ghost use Rattle.std.specs.Prelude.{◌≡◌, ◌+◌, ◌<◌, ◌≤◌};
ghost use Rattle.hcc_core.specs.declared.client.Place.TheVariants.{Absent, Granted};
ghost use Rattle.hcc_rule.specs.Callers.{IsSeatAt};
ghost use Rattle.hcc_rule.specs.Seats.{view};
ghost use Rattle.hcc_shard_tests.specs.ChargeGuests.{IsDrafted, IsGuest};
ghost use Rattle.hcc_shard_tests.specs.declared.charge.guest.TheConstants.{MOST};

use crate::any::AnyBytes;
use hcc_charge::{Refused, Reservation, Tally, give_up, reserve};
use hcc_rule::{Draft, Key, RuleSeat, RuleTable};
use hcc_table::{Effort, Insertion, NoList, insert};
use std::alloc::Global;
use std::process::Abort;

/// A shard for tests.
pub(super) type Shard = RuleTable<AnyBytes, Global>;

/// How many entries a guest makes at most.
pub(super) const MOST: u64 = 10_000;

/// What came of an insertion.
#[derive(Clone, Copy, Debug, PartialEq, Eq)]
pub(super) enum Answer {
    Placed,
    Dropped,
    NoPlace,
    TooLarge,
    CapacityFull,
    OccupancyFull,
}

/// The seat of a client of a shard.
#[derive(Drop)]
pub(super) struct Guest<'a> {
    pub(super) table: &'a Shard,
    pub(super) seat: RuleSeat<AnyBytes>,
    pub(super) client: u32,
    /// How many entries the client made.
    pub(super) shown: u64,
    /// What its evictions did.
    pub(super) tally: Tally,
    pub(super) effort: Effort,
    ghost seated: { IsSeatAt table.now seat },
    ghost known: { client < 1024 },
}

impl Guest<'_> {
    /// Reserves, inserts an entry with no bytes where a place and the charge are granted, and gives
    /// both up where it wasn't placed. It keeps a reference where that is asked for.
    pub(super) fn insert(
        &mut self,
        rt: &impl Abort,
        key: Key,
        charge: u32,
        countdown: u32,
        keep: bool,
    ) -> Answer
        requires idle { IsGuest Absent 0 self.old.client self.old.shown (view self.old.seat) }
        requires charge { 0 < charge }
        requires countdown { (1 ≤ countdown) × (countdown ≤ 3) }
        ensures same { (self.new.table ≡ self.old.table) × (self.new.client ≡ self.old.client) }
        ensures idle { IsGuest Absent 0 self.new.client self.new.shown (view self.new.seat) }
    {
        assert!(rt; self.shown < MOST, "too many entries");
        let name = if keep { Some(self.shown) } else { None };
        let draft = Draft {
            key,
            charge,
            serial: self.shown,
            countdown,
            name,
        };
        let reserved = reserve(
            self.table,
            &mut self.seat,
            charge,
            &mut NoList,
            &mut self.tally,
            &mut self.effort,
        );
        match reserved {
            Ok(Reservation::Reserved) => self.place(draft),
            Ok(Reservation::NoPlace) => Answer::NoPlace,
            Err(Refused::TooLarge) => Answer::TooLarge,
            Err(Refused::CapacityFull) => Answer::CapacityFull,
            Err(Refused::OccupancyFull) => Answer::OccupancyFull,
        }
    }

    /// Reserves a place and a charge, and gives both up where they are granted.
    pub(super) fn come_and_go(&mut self, charge: u32)
        requires idle { IsGuest Absent 0 self.old.client self.old.shown (view self.old.seat) }
        requires charge { 0 < charge }
        ensures same { (self.new.table ≡ self.old.table) × (self.new.client ≡ self.old.client)
            × (self.new.shown ≡ self.old.shown) }
        ensures idle { IsGuest Absent 0 self.new.client self.new.shown (view self.new.seat) }
    {
        let reserved = reserve(
            self.table,
            &mut self.seat,
            charge,
            &mut NoList,
            &mut self.tally,
            &mut self.effort,
        );
        match reserved {
            Ok(Reservation::Reserved) => give_up(self.table, &mut self.seat, charge),
            Ok(Reservation::NoPlace) => {}
            Err(Refused::TooLarge) => {}
            Err(Refused::CapacityFull) => {}
            Err(Refused::OccupancyFull) => {}
        }
    }

    /// The usage and the occupancy; the turns of its evictions, the entries that they freed, and
    /// the charge of these.
    pub(super) fn stands(&mut self) -> [u64; 5]
        requires idle { IsGuest Absent 0 self.old.client self.old.shown (view self.old.seat) }
        ensures same { (self.new.table ≡ self.old.table) × (self.new.client ≡ self.old.client)
            × (self.new.shown ≡ self.old.shown) }
        ensures idle { IsGuest Absent 0 self.new.client self.new.shown (view self.new.seat) }
    {
        let usage = self.table.usage(&mut self.seat);
        let occupancy = self.table.occupancy(&mut self.seat);
        let done = self.tally;
        [usage, occupancy, done.turns, done.evicted, done.freed]
    }

    /// Inserts an entry whose place and charge are granted.
    fn place(&mut self, draft: Draft) -> Answer
        requires granted { IsGuest Granted draft.charge self.old.client self.old.shown
            (view self.old.seat) }
        requires draft { IsDrafted self.old.shown draft }
        requires few { self.old.shown < MOST }
        ensures same { (self.new.table ≡ self.old.table) × (self.new.client ≡ self.old.client) }
        ensures idle { IsGuest Absent 0 self.new.client self.new.shown (view self.new.seat) }
    {
        let insertion = insert(
            self.table,
            &mut self.seat,
            draft,
            &[],
            self.client,
            self.shown,
            &mut self.effort,
        );
        match insertion {
            Insertion::Placed { .. } => {
                self.shown += 1;
                Answer::Placed
            }
            Insertion::Matched | Insertion::NoSlot => {
                give_up(self.table, &mut self.seat, draft.charge);
                Answer::Dropped
            }
        }
    }
}
