//! The calls of the cache on one shard: each by one seat of one client, which begins and ends with
//! nothing in hand but its references and its standalone entries.
#![tactic(auto)]

mod closing;
mod entries;
mod erasing;
mod following;
mod getting;
mod imaging;
mod inserting;
mod keeping;
mod lookups;
mod reading;
mod releasing;
mod reopening;
mod seat;
mod shard;
mod totals;

pub use entries::{ClosedEntry, ClosedShard};
pub use following::ShardWitness;
pub use hcc_table::{Got, Part};
pub use inserting::{Inserted, Pinned};
pub use reopening::ReopenError;
pub use seat::{ShardSeat, Stats};
pub use shard::Shard;
