//! The meta word of a slot: two counters, a hit bit and a state, packed into 64 bits.
//!
//! Every change of a slot is one atomic step on its meta word, and this crate is the only one that
//! looks inside it. [`layout`] says where the fields are. The functions read them, give the word
//! that a step leaves, and give the words that a new entry starts with, that the clock puts in
//! place and that a correction puts in place. Beside them, a key is seeded by a map that can be
//! undone, and an object's address and kind are packed into one word.
//!
//! All functions are pure, allocate nothing, and cost a few instructions.
//!
//! A slot is empty, under construction, or shareable: then it has an entry, visible or not. The
//! code of a slot is its word as a sum of fields, and each step of the protocol takes the code of a
//! slot to the code of the slot after it. Those laws are in the proofs of this crate, for the
//! crates above to cite: the steps in `StepLaws` and `ExchangeLaws`, what a word that was found
//! says in `CodeLaws`, and the bound under which no counter leaves its field in `NearLaws`.
#![tactic(auto)]

mod changes;
mod fields;
pub mod layout;
mod objects;
mod seeding;

pub use changes::{acquired, clocked, corrected, given_back, released, started, unreferenced};
pub use fields::{acquires, hit, refs, releases, state};
pub use objects::{ADDRESS_BITS, object_address, object_kind, packed_object};
pub use seeding::{seeded, unseeded};
