//! What contracts see of a seat. No value of these types is ever made.
use crate::key::Key;
use hcc_core::client::Client;
use hcc_core::event::{Event, Reply};
use hcc_core::slot::{Entry, Stamp};
use std::collections::LinkedList;

/// A reference that a client holds on a slot, under a name of its own, on this entry.
pub struct Record {
    pub slot: u64,
    pub name: u64,
    /// 1 to 3.
    pub weight: u64,
    /// Whether its release may count as a use.
    pub counting: bool,
    /// Whether an acquire got it, and found the entry Visible; false for the reference that a
    /// client keeps of the entry that it shows.
    pub shown: bool,
    pub entry: Entry,
}

/// An entry that a client showed.
pub struct Made {
    pub serial: u64,
    pub key: Key,
    pub value: LinkedList<u8>,
    pub charge: u64,
}

/// An entry that a client took to free its slot: under which stamp it was shown, and what was
/// shown.
pub struct Gone {
    pub stamp: Stamp,
    pub made: Made,
}

/// A client that a view names beside its own, which it may start: what it showed, and which entries
/// it has seen dead.
pub struct Other {
    pub client: u64,
    pub made: LinkedList<Made>,
    pub dead: LinkedList<Stamp>,
}

/// What a client that reads without a reference has seen of a slot: the word of its stamp, and what
/// stood there at each look since.
pub struct Glimpse {
    pub slot: u64,
    pub word: u64,
    pub stood: Stood,
}

/// What stood in a slot at each look since its stamp word was loaded.
pub enum Stood {
    /// It was not looked at since.
    Unseen,
    /// This entry, and the word is its stamp word.
    Entry(Stamp),
    /// At least once an entry with another stamp word.
    Another,
}

/// What a seat knows of its shard.
pub struct View<T> {
    /// The tag of the table; none once the seat was joined to another.
    pub tag: Option<T>,
    /// The client that it stands for, while it has a tag.
    pub client: u64,
    /// What that client has in hand, as the world has it.
    pub work: Client,
    /// The other clients that it names. None of them is live.
    pub others: LinkedList<Other>,
    /// The references that the client holds.
    pub records: LinkedList<Record>,
    /// The data words that stand in the slot that the client owns, as far as it wrote them; all of
    /// the taken entry's in a slot that it frees.
    pub written: LinkedList<u64>,
    /// What the client showed in this shard, in order.
    pub made: LinkedList<Made>,
    /// The keys of the entries that it changed from Shown to Hidden, in order.
    pub hidden: LinkedList<Key>,
    /// How many entries it took to free them, and how many of these were Shown with uses left.
    pub takings: u64,
    pub warm: u64,
    /// The entries that it took to free their slots, in order.
    pub gone: LinkedList<Gone>,
    /// How many of its places were asked for where the shard was full.
    pub open_places: u64,
    /// How many slots it tried to occupy that weren't empty.
    pub saw: u64,
    /// How many turns of the hand it made.
    pub turns: u64,
    /// The key of each entry that it got as Shown and whose second key word it then read.
    pub met: LinkedList<Key>,
    /// The answers of its loads of the usage.
    pub seen: LinkedList<u64>,
    /// The charges of which not all was granted at once.
    pub tight: LinkedList<u64>,
    /// What it last saw of a stamp word that it loaded without a reference.
    pub glimpse: Option<Glimpse>,
}

/// An atomic step that a seat made: the address of its word, its operands (0 where it has fewer),
/// and the word that it found. A load has no operand, a store, an add, a subtraction, an and or an
/// or has one, and a compare-exchange has the word that it asks for and the one that it would
/// leave. Of a store, what it found is the word that it stored.
pub struct Atomic {
    pub address: u64,
    pub first: u64,
    pub second: u64,
    pub found: u64,
}

/// An event of the protocol, and what the machine replies to it.
pub struct Done {
    pub event: Event,
    pub reply: Reply,
}

/// What a seat knows, and each atomic step that it made, in order.
pub struct Logged<T> {
    pub known: View<T>,
    pub steps: LinkedList<Atomic>,
    /// The shard's history up to the last event that the seat made: the events of all clients, in
    /// the order in which they happened.
    pub past: LinkedList<Done>,
    /// How many steps the seats made that it took in, with those that they took in.
    pub taken_in: u64,
    /// What it was told of the history by the witness that it followed last.
    pub heard: LinkedList<Done>,
}
