//! Every limit of the protocol, stated once: code and definitions cite these constants.

/// The most slots of one world.
pub const MOST_SLOTS: u32 = 65_536;

/// The most clients of one world.
pub const MOST_CLIENTS: u32 = 1_024;

/// The most handles of one client.
pub const MOST_HANDLES: u32 = 16_384;

/// The most that one acquire adds.
pub const MOST_WEIGHT: u64 = 3;

/// What each client of a world adds to the bound on the weight of one slot's references: its
/// handles, and one acquire of a call in flight.
pub const REFERENCES_PER_CLIENT: u64 = MOST_HANDLES as u64 + MOST_WEIGHT;

/// The most that the references on one slot weigh. Twice this and four are below [`CORRECTION`],
/// so that the counters of a slot stay in their 30 bits.
pub const MOST_REFERENCES: u64 = MOST_CLIENTS as u64 * REFERENCES_PER_CLIENT;

/// What a correction subtracts from the use counter: half of its 30 bits.
pub const CORRECTION: u64 = 1 << 29;

/// How near to its end the use counter may come: from here on new references don't count.
pub const NEAR: u64 = CORRECTION + 4;

/// The most uses that an entry may begin with: with them and all references that may count, its
/// counters stay in their 30 bits.
pub const MOST_USES: u64 = NEAR + MOST_REFERENCES;

/// The highest first countdown.
pub const MOST_COUNTDOWN: u64 = 3;

/// How many entries one client may show.
pub const STAMPS_PER_CLIENT: u64 = 1 << 54;

/// The most usage that a charge may lead to.
pub const MOST_USAGE: u64 = 1 << 62;

/// How many of a hundred slots may be taken.
pub const OCCUPANCY_PERCENT: u64 = 84;

/// The most uses that a clock visit leaves.
pub const MOST_CLOCKED: u64 = 2;

/// How many slots one turn of the hand visits.
pub const SLOTS_PER_TURN: u64 = 4;
