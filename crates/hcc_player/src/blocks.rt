//! Traces of block reads: each client is a worker on a thread of its own, and reads the blocks of
//! its lines through one cache.

mod crew;
mod deal;
mod gate;
mod line;
mod play;
mod report;
mod tally;
mod worker;

pub use gate::{Gate, OpenGate};
pub use play::play_blocks;
