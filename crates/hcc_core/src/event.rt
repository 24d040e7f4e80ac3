//! The events that step a world, and the replies to them.
ghost use Rattle.std.specs.Prelude.{◌≡◌};
ghost use Rattle.hcc_core.specs.Texts.{text_of};

use crate::listed::Listed;
use crate::slot::Stamp;

/// One action of one client.
#[derive(Drop)]
pub enum Event {
    /// The client comes to life.
    Start {
        client: u32,
    },
    /// It looks at a slot.
    Look {
        client: u32,
        slot: u32,
    },
    /// It adds to a slot's acquires: a reference if the slot has an entry, else strays.
    Acquire {
        client: u32,
        slot: u32,
        weight: u64,
        name: u64,
    },
    /// It gives a reference back, as if it had never been used.
    Give {
        client: u32,
        name: u64,
    },
    /// It gives a counting reference back as a use.
    Use {
        client: u32,
        name: u64,
    },
    /// It takes an empty slot, to build an entry in it. Any other slot it looks at.
    Occupy {
        client: u32,
        slot: u32,
    },
    /// It shows the entry that it has built, and keeps a reference if a name is given.
    Show {
        client: u32,
        key0: u64,
        key1: u64,
        charge: u32,
        countdown: u64,
        name: Option<u64>,
        value: Listed<u8>,
    },
    /// It hides an entry on which it holds a reference.
    Hide {
        client: u32,
        name: u64,
    },
    /// It takes a slot with an entry, to free it: one that is not referenced or, with a name, one
    /// whose only reference is that one, of weight 1.
    Free {
        client: u32,
        slot: u32,
        name: Option<u64>,
    },
    /// It empties the slot that it is freeing.
    Empty {
        client: u32,
    },
    /// It writes a word of the slot that it is building.
    Write {
        client: u32,
    },
    /// It reads the entry on which it holds a reference.
    Read {
        client: u32,
        name: u64,
    },
    /// It asks for a place in the table.
    Enter {
        client: u32,
    },
    /// It asks for charge.
    Charge {
        client: u32,
        charge: u32,
    },
    /// It gives the slots that it freed back. An open place of its own is then granted.
    Slots {
        client: u32,
    },
    /// It spends what it freed on what it needs, and gives back the rest.
    Settle {
        client: u32,
    },
    /// The client, which has nothing in hand, ends its life.
    End {
        client: u32,
    },
    /// It counts an entry that is shown and not referenced down.
    Clock {
        client: u32,
        slot: u32,
    },
    /// It marks the entry on which it holds a reference as hit.
    Mark {
        client: u32,
        name: u64,
    },
    /// It corrects the uses of an entry that are near their bound.
    Correct {
        client: u32,
        name: u64,
    },
    /// It gives back all that it was granted, needs and freed.
    Waive {
        client: u32,
    },
    /// It gives back its place and the slots that it freed.
    Quit {
        client: u32,
    },
    /// It asks for the usage.
    Usage {
        client: u32,
    },
    /// It asks for the occupancy.
    Occupancy {
        client: u32,
    },
    /// It asks for the charges of standalone entries.
    Standing {
        client: u32,
    },
    /// It makes an entry outside the table, of this charge and name.
    Stand {
        client: u32,
        charge: u32,
        name: u64,
    },
    /// Its standalone entry of this name goes.
    Fall {
        client: u32,
        name: u64,
    },
    /// It asks how often a slot stands in trails.
    Count {
        client: u32,
        slot: u32,
    },
    /// It passes a slot, which joins its trail.
    Pass {
        client: u32,
        slot: u32,
    },
    /// It takes back that it passed a slot.
    Unpass {
        client: u32,
        slot: u32,
    },
    /// It moves the hand by four slots.
    Turn {
        client: u32,
    },
    /// It loads a word of a slot without a reference.
    Peek {
        client: u32,
        slot: u32,
    },
}

/// What a slot is, without what it holds.
#[derive(Clone, Copy, Debug, PartialEq, Eq)]
pub enum Phase {
    Empty,
    Building,
    Shown,
    Hidden,
}

/// What an event returns.
#[derive(Drop)]
pub enum Reply {
    Ok,
    Saw(Phase),
    /// An empty slot was taken for building.
    Taken,
    /// A reference was made.
    Got {
        shown: bool,
        counting: bool,
    },
    /// Acquires went astray in a slot with no entry.
    Stray,
    /// What the references left on the slot weigh, and what it is.
    Left {
        references: u64,
        phase: Phase,
    },
    /// The entry was hidden by this event.
    Hid,
    /// The entry was hidden before.
    Again,
    /// The charge of the entry that goes.
    Freed {
        charge: u64,
    },
    Entry {
        key0: u64,
        key1: u64,
        value: Listed<u8>,
    },
    /// What a charge was given at once, and what has to be freed for it.
    Split {
        granted: u64,
        needed: u64,
    },
    Granted,
    /// There is no place but one that freeing gives.
    Open,
    /// What the uses are now.
    Uses(u64),
    Count(u64),
    /// The entry that is shown in the slot, if one is.
    Shows(Option<Stamp>),
}

/// Why an event, or an opening, was refused. A refused event changes nothing.
#[derive(Clone, Copy, Debug, PartialEq, Eq)]
pub enum CoreError {
    NoSuchSlot,
    NoSuchClient,
    NotAllowed,
    OutOfMemory,
}

impl CoreError {
    /// The refusal as a sentence.
    pub fn text(self) -> &'static str
        ensures { result.now ≡ text_of self }
    {
        match self {
            CoreError::NoSuchSlot => "there is no such slot",
            CoreError::NoSuchClient => "there is no such client",
            CoreError::NotAllowed => "the protocol doesn't allow the event now",
            CoreError::OutOfMemory => "an allocation failed",
        }
    }
}
