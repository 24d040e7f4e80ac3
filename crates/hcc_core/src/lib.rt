//! The protocol of one shard of a block cache, as a machine that is stepped by events.
//!
//! A world has slots, which hold entries, and clients, which hold named references on slots.
//! Each event is one atomic action of one client. What an event may do, and what the world is
//! after it, is in this crate's definitions; [`world::World::step`] does exactly that.
#![tactic(auto)]

pub mod client;
pub mod event;
pub mod laws;
pub mod limits;
pub mod listed;
mod machine;
pub mod setup;
pub mod slot;
mod sums;
pub mod world;
