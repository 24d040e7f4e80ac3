//! A slot with all that it holds: what a step reads of it, and what it leaves in it.
ghost use Rattle.std.specs.Prelude.{◌≡◌, ◌<◌, ◌+◌, ◌^◌, ◌⊎◌, IfOk, IfErr, OnOk, OnErr, IfSome};
ghost use Rattle.std.specs.Prelude.{length, position, sum_by, true};
ghost use Rattle.hcc_core.specs.declared.event.CoreError.TheVariants.{OutOfMemory};
ghost use Rattle.std.specs.Option.{option_copied};
ghost use Rattle.hcc_core.specs.World.{phase_of, phase_if, is_shareable, strays_of, references_of};
ghost use Rattle.hcc_core.specs.World.{uses_of, charge_of, stamp_of, hidden_stamp, trail_of};
ghost use Rattle.hcc_core.specs.World.{weight_of, counts_in, is_named, reference_in, has_reference};
ghost use Rattle.hcc_core.specs.World.{has_client, slot_holding};
ghost use Rattle.hcc_core.specs.Outcomes.{dropped};
ghost use Rattle.hcc_core.specs.References.{acquired, slot_acquired, slot_given, slot_used};
ghost use Rattle.hcc_core.specs.References.{left_on, dead_to, counting_in};
ghost use Rattle.hcc_core.specs.Uses.{may_clock, may_correct, slot_with_uses, slot_marked};
ghost use Rattle.hcc_core.specs.Entries.{slot_hidden, is_shown, is_free_for, entry_read};

use crate::event::{CoreError, Phase, Reply};
use crate::limits::NEAR;
use crate::listed::Listed;
use std::alloc::{AllocError, Global};

/// One place of the table.
#[derive(Drop)]
pub enum Slot {
    Empty { strays: u64 },
    Building { client: u32, strays: u64 },
    Shareable(Resident),
}

/// An entry in its slot, with all that the slot keeps beside it.
#[derive(Drop)]
pub struct Resident {
    /// Whether look-ups find the entry: Shown if so, else Hidden.
    pub shown: bool,
    pub entry: Entry,
    /// The slots that were passed on the way to this one.
    pub trail: Listed<u32>,
    /// In the order of acquiring.
    pub references: Listed<Reference>,
    pub uses: u64,
    pub hit: bool,
}

/// A key of 16 bytes as two words, with its value and its charge.
#[derive(Drop)]
pub struct Entry {
    pub key0: u64,
    pub key1: u64,
    pub stamp: Stamp,
    pub value: Listed<u8>,
    pub charge: u64,
}

/// Which entry this is: the client that showed it, and its number among that client's entries,
/// from 0.
#[derive(Clone, Copy, Debug, PartialEq, Eq)]
pub struct Stamp {
    pub client: u32,
    pub number: u64,
}

/// A reference that a client holds on a slot, under a name of its own.
#[derive(Clone, Copy, Debug, PartialEq, Eq)]
pub struct Reference {
    pub client: u32,
    pub name: u64,
    /// 1 to 3.
    pub weight: u64,
    /// Whether its release may count as a use.
    pub counting: bool,
}

impl Slot {
    /// Its phase.
    pub(crate) fn phase(&self) -> Phase
        ensures { result ≡ phase_of self.now }
    {
        match self {
            Slot::Empty { .. } => Phase::Empty,
            Slot::Building { .. } => Phase::Building,
            Slot::Shareable(resident) => phase_if(resident.shown),
        }
    }

    /// Whether it is Shown or Hidden.
    pub(crate) fn is_shareable(&self) -> bool
        ensures { result ≡ is_shareable self.now }
    {
        match self {
            Slot::Empty { .. } => false,
            Slot::Building { .. } => false,
            Slot::Shareable(_) => true,
        }
    }

    /// Whether it is Shown.
    pub(crate) fn is_shown(&self) -> bool
        ensures { result ≡ is_shown self.now }
    {
        match self {
            Slot::Empty { .. } => false,
            Slot::Building { .. } => false,
            Slot::Shareable(resident) => resident.shown,
        }
    }

    /// The references on it, in the order of acquiring.
    pub(crate) fn references(&self) -> &[Reference]
        ensures { result.now ≡ references_of self.now }
    {
        match self {
            Slot::Empty { .. } => &[],
            Slot::Building { .. } => &[],
            Slot::Shareable(resident) => resident.references.as_slice(),
        }
    }

    /// The slots that were passed on the way to its entry.
    pub(crate) fn trail(&self) -> &[u32]
        ensures { result.now ≡ trail_of self.now }
    {
        match self {
            Slot::Empty { .. } => &[],
            Slot::Building { .. } => &[],
            Slot::Shareable(resident) => resident.trail.as_slice(),
        }
    }

    /// The charge of its entry, or 0.
    pub(crate) fn charge(&self) -> u64
        ensures { result ≡ charge_of self.now }
    {
        match self {
            Slot::Empty { .. } => 0,
            Slot::Building { .. } => 0,
            Slot::Shareable(resident) => resident.entry.charge,
        }
    }

    /// What its references weigh in sum.
    pub(crate) fn weight(&self) -> u64
        requires { weight_of self.now < 2 ^ 64 }
        ensures { result ≡ weight_of self.now }
    {
        weight(self.references())
    }

    /// This client's reference of this name.
    pub(crate) fn reference(&self, client: u32, name: u64) -> Option<&Reference>
        ensures { option_copied result ≡ reference_in client name (references_of self.now) }
    {
        self.references().iter().find(|reference| reference.client == client
            && reference.name == name)
    }

    /// This client's reference of this name, if it counts.
    pub(crate) fn counting_reference(&self, client: u32, name: u64) -> Option<Reference>
        ensures { result ≡ counting_in client name (references_of self.now) }
    {
        match self.reference(client, name) {
            Some(reference) if reference.counting => Some(*reference),
            _ => None,
        }
    }

    /// Whether it has this client's reference of this name.
    pub(crate) fn has_reference(&self, client: u32, name: u64) -> bool
        ensures { result ≡ has_reference client name self.now }
    {
        self.references().iter().any(|reference| reference.client == client
            && reference.name == name)
    }

    /// Whether it has a reference of this client.
    pub(crate) fn has_client(&self, client: u32) -> bool
        ensures { result ≡ has_client client self.now }
    {
        self.references()
            .iter()
            .any(|reference| reference.client == client)
    }

    /// Whether a reference made now counts.
    pub(crate) fn counts(&self) -> bool
        ensures { result ≡ counts_in self.now }
    {
        match self {
            Slot::Empty { .. } => false,
            Slot::Building { .. } => false,
            Slot::Shareable(resident) => resident.uses < NEAR,
        }
    }

    /// What its references weigh, and what it is.
    pub(crate) fn left(&self) -> Reply
        requires { weight_of self.now < 2 ^ 64 }
        ensures { result ≡ left_on self.now }
    {
        Reply::Left {
            references: self.weight(),
            phase: self.phase(),
        }
    }

    /// The reply to an acquire here.
    pub(crate) fn acquired(&self, counting: bool) -> Reply
        ensures { result ≡ acquired self.now counting }
    {
        match self {
            Slot::Empty { .. } => Reply::Stray,
            Slot::Building { .. } => Reply::Stray,
            Slot::Shareable(resident) => Reply::Got {
                shown: resident.shown,
                counting,
            },
        }
    }

    /// The stamp of its entry.
    pub(crate) fn stamp(&self) -> Option<Stamp>
        ensures { result ≡ stamp_of self.now }
    {
        match self {
            Slot::Empty { .. } => None,
            Slot::Building { .. } => None,
            Slot::Shareable(resident) => Some(resident.entry.stamp),
        }
    }

    /// The stamp of its entry, if that is hidden.
    pub(crate) fn hidden_stamp(&self) -> Option<Stamp>
        ensures { result ≡ hidden_stamp self.now }
    {
        match self {
            Slot::Empty { .. } => None,
            Slot::Building { .. } => None,
            Slot::Shareable(resident) => {
                if resident.shown {
                    None
                } else {
                    Some(resident.entry.stamp)
                }
            }
        }
    }

    /// The stamp of its entry, if that is hidden and this client holds a reference on it.
    pub(crate) fn dead_to(&self, client: u32) -> Option<Stamp>
        ensures { result ≡ dead_to client self.now }
    {
        if self.has_client(client) {
            self.hidden_stamp()
        } else {
            None
        }
    }

    /// Whether it has no reference, or only this client's of this name, of weight 1.
    pub(crate) fn is_free_for(&self, client: u32, name: Option<u64>) -> bool
        ensures { result ≡ is_free_for client name (references_of self.now) }
    {
        is_free_for(self.references(), client, name)
    }

    /// Adds a reference, or strays. If memory runs out the slot is unchanged.
    pub(crate) fn acquire(&mut self, reference: Reference) -> Result<(), AllocError>
        requires { strays_of self.old + reference.weight < 2 ^ 64 }
        ensures ok { OnOk result (self.new ≡ slot_acquired self.old reference) }
        ensures err { OnErr result (self.new ≡ self.old) }
    {
        match self {
            Slot::Empty { strays } => *strays += reference.weight,
            Slot::Building { strays, .. } => *strays += reference.weight,
            Slot::Shareable(resident) => resident.references.push(reference)?,
        }
        Ok(())
    }

    /// Takes this client's reference of this name away.
    pub(crate) fn give(&mut self, client: u32, name: u64)
        ensures { self.new ≡ slot_given client name self.old }
    {
        match self {
            Slot::Empty { .. } => {}
            Slot::Building { .. } => {}
            Slot::Shareable(resident) => take_away(&mut resident.references, client, name),
        }
    }

    /// Takes this client's reference of this name away, as a use of its weight.
    pub(crate) fn spend(&mut self, client: u32, name: u64, reference: Reference)
        requires { uses_of self.old + reference.weight < 2 ^ 64 }
        ensures { self.new ≡ slot_used client name reference self.old }
    {
        match self {
            Slot::Empty { .. } => {}
            Slot::Building { .. } => {}
            Slot::Shareable(resident) => {
                take_away(&mut resident.references, client, name);
                resident.uses += reference.weight;
            }
        }
    }

    /// Hides its entry.
    pub(crate) fn hide(&mut self)
        ensures { self.new ≡ slot_hidden self.old }
    {
        match self {
            Slot::Empty { .. } => {}
            Slot::Building { .. } => {}
            Slot::Shareable(resident) => resident.shown = false,
        }
    }

    /// The uses of its entry, or 0.
    pub(crate) fn uses(&self) -> u64
        ensures { result ≡ uses_of self.now }
    {
        match self {
            Slot::Empty { .. } => 0,
            Slot::Building { .. } => 0,
            Slot::Shareable(resident) => resident.uses,
        }
    }

    /// Whether it is shown, not referenced, and has uses to count down.
    pub(crate) fn may_clock(&self) -> bool
        ensures { result ≡ may_clock self.now }
    {
        match self {
            Slot::Empty { .. } => false,
            Slot::Building { .. } => false,
            Slot::Shareable(resident) => {
                resident.shown && resident.references.is_empty() && 0 < resident.uses
            }
        }
    }

    /// Whether this reference doesn't count, and the uses are near their bound.
    pub(crate) fn may_correct(&self, client: u32, name: u64) -> bool
        ensures { result ≡ may_correct client name self.now }
    {
        self.counting_reference(client, name).is_none() && NEAR <= self.uses()
    }

    /// Puts these uses in the place of the entry's.
    pub(crate) fn set_uses(&mut self, uses: u64)
        ensures { self.new ≡ slot_with_uses uses self.old }
    {
        match self {
            Slot::Empty { .. } => {}
            Slot::Building { .. } => {}
            Slot::Shareable(resident) => resident.uses = uses,
        }
    }

    /// Marks its entry as hit.
    pub(crate) fn mark(&mut self)
        ensures { self.new ≡ slot_marked self.old }
    {
        match self {
            Slot::Empty { .. } => {}
            Slot::Building { .. } => {}
            Slot::Shareable(resident) => resident.hit = true,
        }
    }

    /// The trail of its entry, which goes.
    pub(crate) fn into_trail(self, alloc: Global) -> Listed<u32>
        ensures { result ≡ trail_of self }
    {
        match self {
            Slot::Empty { .. } => Listed::new(alloc),
            Slot::Building { .. } => Listed::new(alloc),
            Slot::Shareable(resident) => resident.trail,
        }
    }

    /// The key and value of its entry.
    pub(crate) fn read(&self, alloc: Global) -> Result<Reply, CoreError>
        ensures ok { IfOk result (λ reply. entry_read self.now ≡ Ok reply) }
        ensures err { IfErr result
            (λ e. ((e ≡ CoreError.OutOfMemory) × (is_shareable self.now ≡ true))
            ⊎ (entry_read self.now ≡ Err e)) }
    {
        match self {
            Slot::Empty { .. } => Err(CoreError::NotAllowed),
            Slot::Building { .. } => Err(CoreError::NotAllowed),
            Slot::Shareable(resident) => Ok(Reply::Entry {
                key0: resident.entry.key0,
                key1: resident.entry.key1,
                value: Listed::copied(alloc, resident.entry.value.as_slice())?,
            }),
        }
    }
}

fn weight(references: &[Reference]) -> u64
    requires { sum_by (λ r. r.weight) references.now < 2 ^ 64 }
    ensures { result ≡ sum_by (λ r. r.weight) references.now }
{
    references.iter().map(|reference| reference.weight).sum()
}

fn phase_if(shown: bool) -> Phase
    ensures { result ≡ phase_if shown }
{
    if shown { Phase::Shown } else { Phase::Hidden }
}

fn is_free_for(references: &[Reference], client: u32, name: Option<u64>) -> bool
    ensures { result ≡ is_free_for client name references.now }
{
    match (name, references) {
        (None, []) => true,
        (Some(name), [only]) => only.client == client && only.name == name && only.weight == 1,
        _ => false,
    }
}

/// The first reference of this client and name goes.
fn take_away(references: &mut Listed<Reference>, client: u32, name: u64)
    ensures { references.new ≡ dropped (is_named client name) references.old }
{
    if let Some(index) = index_of(references.as_slice(), client, name) {
        references.remove(index);
    }
}

fn index_of(references: &[Reference], client: u32, name: u64) -> Option<usize>
    ensures first { result ≡ position (is_named client name) references.now }
    ensures within { IfSome result (λ index. index < length references.now) }
{
    references.iter().position(|reference| reference.client == client && reference.name == name)
}

/// The first slot on which this client holds this name.
pub(crate) fn slot_holding(slots: &[Slot], client: u32, name: u64) -> Option<usize>
    ensures first { result ≡ slot_holding slots.now client name }
    ensures within { IfSome result (λ slot. slot < length slots.now) }
{
    slots
        .iter()
        .position(|slot| slot.has_reference(client, name))
}
