//! How large a shard is.

/// The size of a shard.
#[derive(Clone, Copy, Debug, PartialEq, Eq)]
pub struct Geometry {
    /// How many slots it has: a power of two, 8 to 65,536.
    pub slots: u32,
    /// How many payload words each slot has: 1 to 512. A value has at most eight times as many
    /// bytes.
    pub room: u32,
    /// How many clients it has: 1 to 1,024.
    pub clients: u32,
}
