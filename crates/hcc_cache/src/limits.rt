//! The limits of a cache, in one place: its own, and those of the layers below.

pub use hcc_core::limits::{MOST_CLIENTS, MOST_HANDLES, MOST_SLOTS, STAMPS_PER_CLIENT};
pub use hcc_rule::layout::{FEWEST_SLOTS, MOST_CAPACITY, MOST_ROOM};

/// The most shards of one cache. It is a power of two, and so is each number that divides it.
pub const MOST_SHARDS: u32 = 64;

/// The fewest and the most entries that a client's list may take of what its calls free.
pub const FEWEST_GONE: u32 = 4;

pub const MOST_GONE: u32 = 65_536;
