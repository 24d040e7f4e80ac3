//! An image of a shard: the entries with which it begins.
use crate::key::Key;

/// An entry of an image. Its slot shows it, with no references and unmarked.
#[derive(Drop)]
pub struct ImageEntry {
    pub slot: u32,
    pub key: Key,
    /// At most eight times as many bytes as the shard has payload words for each slot.
    pub value: Vec<u8>,
    /// Above 0.
    pub charge: u32,
    /// At most [`MOST_USES`](hcc_core::limits::MOST_USES).
    pub uses: u32,
}
