//! A client with what it has in hand: what a step reads of it, and what it leaves of it.
ghost use Rattle.std.specs.Prelude.{◌≡◌, ◌<◌, ◌^◌, IfOk, IfErr, is_some, true, unwrap_or, sum_by};
ghost use Rattle.std.specs.Prelude.{IfSome, length, position};
ghost use Rattle.std.specs.List.{find, list_any};
ghost use Rattle.std.specs.Option.{option_copied};
ghost use Rattle.hcc_core.specs.World.{standing_of, is_placed, is_granted, owns_nothing, is_absent};
ghost use Rattle.hcc_core.specs.Outcomes.{dropped};
ghost use Rattle.hcc_core.specs.References.{is_stamp, joined, is_idle};
ghost use Rattle.hcc_core.specs.Entries.{built_by, freed_by, is_building};
ghost use Rattle.hcc_core.specs.Ledgers.{place_granted, may_stand, is_standing};
ghost use Rattle.hcc_core.specs.Trails.{is_slot};

use crate::listed::Listed;
use crate::slot::Stamp;
use std::alloc::{AllocError, Global};

/// What a client has in hand.
#[derive(Drop)]
pub struct Client {
    pub live: bool,
    /// The slot that its last look found shareable, until it acquires.
    pub looked: Option<u32>,
    pub owned: Owned,
    /// The slots that it passed.
    pub trail: Listed<u32>,
    pub place: Place,
    /// The charge that it may spend on entries.
    pub granted: u64,
    /// The charge that it has to free first.
    pub needed: u64,
    /// The charge that it freed and hasn't settled.
    pub freed: u64,
    /// How many slots it freed and hasn't given back.
    pub freed_slots: u64,
    pub standalones: Listed<Standalone>,
    /// How many entries it has shown.
    pub stamps: u64,
    /// The entries that it has seen hidden while it held a reference there, or hid itself, each
    /// once.
    pub dead: Listed<Stamp>,
}

impl Client {
    /// The charges of its standalone entries.
    pub(crate) fn standing(&self) -> u64
        requires { standing_of self.now < 2 ^ 64 }
        ensures { result ≡ standing_of self.now }
    {
        charges(self.standalones.as_slice())
    }

    /// Whether it has nothing in hand but references.
    pub(crate) fn is_idle(&self) -> bool
        ensures { result ≡ is_idle self.now }
    {
        self.owned.is_nothing()
            && self.trail.is_empty()
            && self.place.is_absent()
            && self.granted == 0
            && self.needed == 0
            && self.freed == 0
            && self.freed_slots == 0
            && self.standalones.is_empty()
    }

    /// Whether it may make a standalone entry of this charge and name.
    pub(crate) fn may_stand(&self, charge: u64, name: u64) -> bool
        ensures { result ≡ may_stand self.now charge name }
    {
        self.place.is_absent()
            && charge <= self.granted
            && !has_standalone(self.standalones.as_slice(), name)
    }

    /// Its standalone entry of this name.
    pub(crate) fn standalone(&self, name: u64) -> Option<&Standalone>
        ensures { option_copied result ≡ find (is_standing name) self.now.standalones }
    {
        standalone_of(self.standalones.as_slice(), name)
    }

    /// Its standalone entry of this name goes.
    pub(crate) fn fell(&mut self, name: u64)
        ensures { self.new ≡ record self.old {
          standalones = dropped (is_standing name) self.old.standalones;
        } }
    {
        if let Some(index) = index_of(self.standalones.as_slice(), name) {
            self.standalones.remove(index);
        }
    }

    /// It has no place from now on, and no freed slots.
    pub(crate) fn leave(&mut self)
        ensures { self.new ≡ record self.old { place = Place.Absent; freed_slots = 0 } }
    {
        self.place = Place::Absent;
        self.freed_slots = 0;
    }

    /// Whether the slot stands in its trail.
    pub(crate) fn has_passed(&self, slot: u32) -> bool
        ensures { result ≡ list_any (is_slot slot) self.now.trail }
    {
        has_place(self.trail.as_slice(), slot)
    }

    /// The slot leaves its trail once.
    pub(crate) fn unpass(&mut self, slot: u32)
        ensures { self.new ≡ record self.old { trail = dropped (is_slot slot) self.old.trail } }
    {
        if let Some(index) = index_in(self.trail.as_slice(), slot) {
            self.trail.remove(index);
        }
    }

    /// Its dead list with this stamp, if that is new.
    ///
    /// It allocates the new list and leaves the client as it is.
    pub(crate) fn with_dead(
        &self,
        alloc: Global,
        stamp: Option<Stamp>,
    ) -> Result<Option<Listed<Stamp>>, AllocError>
        ensures ok { IfOk result
            (λ list. unwrap_or list self.now.dead ≡ joined self.now.dead stamp) }
        ensures err { IfErr result (λ _. is_some stamp ≡ true) }
    {
        let Some(stamp) = stamp else {
            return Ok(None);
        };
        let dead = self.dead.as_slice();
        if has_stamp(dead, stamp) {
            return Ok(None);
        }
        let mut all = Listed::copied(alloc, dead)?;
        all.push(stamp)?;
        Ok(Some(all))
    }

    /// Puts a new dead list in the place of the old one, if there is one.
    pub(crate) fn note(&mut self, dead: Option<Listed<Stamp>>)
        ensures { self.new ≡ record self.old { dead = unwrap_or dead self.old.dead } }
    {
        if let Some(dead) = dead {
            self.dead = dead;
        }
    }
}

/// An entry of one client outside the table.
#[derive(Clone, Copy, Debug, PartialEq, Eq)]
pub struct Standalone {
    pub name: u64,
    pub charge: u64,
}

/// The slot that a client owns.
#[derive(Clone, Copy, Debug, PartialEq, Eq)]
pub enum Owned {
    Nothing,
    ForBuilding(u32),
    ForFreeing(u32),
}

impl Owned {
    /// Whether no slot is owned.
    pub(crate) fn is_nothing(self) -> bool
        ensures { result ≡ owns_nothing self }
    {
        match self {
            Owned::Nothing => true,
            Owned::ForBuilding(_) => false,
            Owned::ForFreeing(_) => false,
        }
    }

    /// The slot that is owned for building.
    pub(crate) fn built(self) -> Option<u32>
        ensures { result ≡ built_by self }
    {
        match self {
            Owned::Nothing => None,
            Owned::ForBuilding(slot) => Some(slot),
            Owned::ForFreeing(_) => None,
        }
    }

    /// The slot that is owned for freeing.
    pub(crate) fn freed(self) -> Option<u32>
        ensures { result ≡ freed_by self }
    {
        match self {
            Owned::Nothing => None,
            Owned::ForBuilding(_) => None,
            Owned::ForFreeing(slot) => Some(slot),
        }
    }

    /// Whether a slot is owned for building.
    pub(crate) fn is_building(self) -> bool
        ensures { result ≡ is_building self }
    {
        match self {
            Owned::Nothing => false,
            Owned::ForBuilding(_) => true,
            Owned::ForFreeing(_) => false,
        }
    }
}

/// A client's place under the limit of occupancy.
#[derive(Clone, Copy, Debug, PartialEq, Eq)]
pub enum Place {
    Absent,
    /// Asked for when the table was full.
    Open,
    Granted,
}

impl Place {
    /// Whether it is none.
    pub(crate) fn is_absent(self) -> bool
        ensures { result ≡ is_absent self }
    {
        match self {
            Place::Absent => true,
            Place::Open => false,
            Place::Granted => false,
        }
    }

    /// Whether it is open or granted.
    pub(crate) fn is_placed(self) -> bool
        ensures { result ≡ is_placed self }
    {
        match self {
            Place::Absent => false,
            Place::Open => true,
            Place::Granted => true,
        }
    }

    /// Whether it is granted.
    pub(crate) fn is_granted(self) -> bool
        ensures { result ≡ is_granted self }
    {
        match self {
            Place::Absent => false,
            Place::Open => false,
            Place::Granted => true,
        }
    }

    /// The place once a slot was freed for it.
    pub(crate) fn with_slot(self) -> Place
        ensures { result ≡ place_granted self }
    {
        match self {
            Place::Absent => Place::Absent,
            Place::Open => Place::Granted,
            Place::Granted => Place::Granted,
        }
    }
}

fn has_stamp(stamps: &[Stamp], stamp: Stamp) -> bool
    ensures { result ≡ list_any (is_stamp stamp) stamps.now }
{
    stamps.iter().any(|known| stamp.client == known.client && stamp.number == known.number)
}

fn charges(standalones: &[Standalone]) -> u64
    requires { sum_by (λ s. s.charge) standalones.now < 2 ^ 64 }
    ensures { result ≡ sum_by (λ s. s.charge) standalones.now }
{
    standalones.iter().map(|standalone| standalone.charge).sum()
}

fn has_standalone(standalones: &[Standalone], name: u64) -> bool
    ensures { result ≡ list_any (is_standing name) standalones.now }
{
    standalones.iter().any(|standalone| standalone.name == name)
}

fn standalone_of(standalones: &[Standalone], name: u64) -> Option<&Standalone>
    ensures { option_copied result ≡ find (is_standing name) standalones.now }
{
    standalones
        .iter()
        .find(|standalone| standalone.name == name)
}

fn index_of(standalones: &[Standalone], name: u64) -> Option<usize>
    ensures first { result ≡ position (is_standing name) standalones.now }
    ensures within { IfSome result (λ index. index < length standalones.now) }
{
    standalones
        .iter()
        .position(|standalone| standalone.name == name)
}

fn has_place(trail: &[u32], slot: u32) -> bool
    ensures { result ≡ list_any (is_slot slot) trail.now }
{
    trail.iter().any(|passed| *passed == slot)
}

fn index_in(trail: &[u32], slot: u32) -> Option<usize>
    ensures first { result ≡ position (is_slot slot) trail.now }
    ensures within { IfSome result (λ index. index < length trail.now) }
{
    trail.iter().position(|passed| *passed == slot)
}
