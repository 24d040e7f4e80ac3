//! The clock table of one shard: a fixed number of slots, found by open addressing, and no lock.
//!
//! Benefits. A hit moves nothing: it adds 1 to a counter, and its release takes it back or adds 1
//! to another. No call waits for another thread, and none repeats a step because of one: each makes
//! at most a stated number of atomic steps and tries each compare-exchange once. An entry that is
//! held stays in its slot, with its key and value, whatever others erase and evict.
//!
//! Costs. The slots are as many as the table was made with, at most 84 of 100 are filled, and each
//! has room for the largest value. The clock is coarser than a list by last use. Threads that hit
//! one key at once change one word. An insertion never replaces a value, and a key can have two
//! entries for a time.
//!
//! A slot is a meta word, a displacement word and data words: key, charge, stamp, length, value.
//! The meta word has two counters of 30 bits, acquires and releases, a hit bit and a state:
//!
//! - *empty*: nothing is here. The word is 0, or counts strays.
//! - *under construction*: it belongs to one client, which fills or clears it.
//! - *visible*: it has an entry, which look-ups find.
//! - *invisible*: it has an entry that was erased and may still be held.
//!
//! In the last two, the shareable ones, acquires less releases are the references that clients
//! hold. If there are none, both counters are the entry's *countdown*, which the clock counts down.
//! A *stray* is an acquire that found no entry, since the slot was freed after the load before it;
//! it stays until a whole word is stored there, as undoing it would race with the next owner.
//!
//! A key's probes visit each slot exactly once. An insertion adds 1 to the *displacement* of each
//! slot that it passes, its entry's *trail*, and whoever frees the entry subtracts them again. So a
//! search ends at a displacement of 0: a visible entry of the key is at no later probe.
//!
//! The operations, in atomic steps:
//!
//! - [`find`], at each probe: load the meta word; if it is visible, add 1 to the acquires; compare
//!   the key, half by half; give the reference back unless it is a visible entry of this key; then
//!   load the displacement, and end at 0. A hit at the first probe is one load, one add and two
//!   loads of the key. If marks are asked for, it sets the hit bit of a word that lacks it.
//! - [`release`]: add to the releases if it was a use, else subtract from the acquires. If nobody
//!   holds the entry then, and it is invisible or was to go with its last reference, one
//!   compare-exchange tries to take it to construction; if it wins, the slot is freed.
//! - [`insert`], at each probe: set the occupied bit by a `fetch_or`. An empty slot is its own: it
//!   stores the data words, and last the meta word of a visible entry, with the countdown of its
//!   priority. A visible one it acquires, by one add of that countdown, and compares; on a match
//!   these references become uses, if they count, and the insertion ends. Any other it passes.
//!   Where it places nothing, it takes its trail back.
//! - [`hide`], at each probe: as a search; at each match clear the visible bit by a `fetch_and`.
//!   If only its own reference is left, one compare-exchange tries to take the entry, to free it.
//! - [`visit`], by the clock: load the meta word. An entry that is held stays. A visible one with a
//!   countdown above 0 gets 1 less, and at most 2; any other is taken, and its slot is freed. Each
//!   is one compare-exchange: if it loses, nothing is changed.
//! - [`pin_at`], for walks over all slots: load the meta word. A visible entry is acquired, by one
//!   add, and kept where that finds it visible still; else the add is taken back. A hidden one with
//!   no references is taken by one compare-exchange, and freed, where a list is lent that has room.
//! - Freeing: load key and charge, subtract 1 from the displacements of the trail, store 0. Until
//!   then others change nothing of the slot, except its displacement and, by strays, its meta word.
//!   Where a call is lent a list ([`FreedList`]), whoever frees an entry puts its key and the first
//!   word of its value there, for one load more; where that is full, no exchange is tried.
//!
//! Overflow. An acquire can't be refused, so a bound keeps the counters in their 30 bits. From
//! 2^29 + 4 releases on, a new reference doesn't count: its release subtracts. With that, uses and
//! references stay below 2^30 in every order of steps. An acquire that finds an entry with so many
//! tries once to subtract 2^29 from both counters, so that uses count again.
//!
//! What is proved of each call is in its contract, over what the client knows of the table (its
//! view) and the steps that it made (its log). Places, charges and evictions are in `hcc_charge`.
//! `docs/DESIGN.md` follows a hit, an insertion, an eviction and an erasure down to their steps.
#![tactic(auto)]

mod acquire;
mod build;
mod efforts;
mod freeing;
mod hiding;
mod inserting;
mod keeping;
pub mod laws;
mod lists;
mod optimistic;
mod parts;
mod pinning;
mod pins;
mod readings;
mod releasing;
mod search;
mod unpacking;
mod visiting;
mod walk;
mod words;

pub use acquire::again;
pub use efforts::Effort;
pub use freeing::free_taken;
pub use hiding::{Erased, hide};
pub use inserting::{Insertion, insert};
pub use keeping::{AtSlot, pin_at};
pub use lists::{Freed, FreedList, NoList};
pub use optimistic::{Got, read_optimistic};
pub use parts::{Part, read_part};
pub use pinning::pinned_charge;
pub use pins::{IfLast, Pin, PinAt, Use};
pub use readings::{
    copy_bytes, displacement, read_bytes, read_charge, read_key, read_len, read_word, word,
};
pub use releasing::{give_back, release};
pub use search::find;
pub use visiting::{ClockVisit, visit};
