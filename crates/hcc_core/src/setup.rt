//! The setup of a world.

/// How large a world is, and its rule of capacity.
#[derive(Clone, Copy, Debug, PartialEq, Eq)]
pub struct Setup {
    /// How many slots there are.
    pub slots: u32,
    /// How many clients there are.
    pub clients: u32,
    /// The charge that the world is meant to hold.
    pub capacity: u64,
    /// Whether a charge is granted only within the capacity.
    pub strict: bool,
}
