//! One function for each kind of step, and what it shows its seat.
mod bits;
mod counters;
mod does;
mod following;
mod frees;
mod glimpses;
mod hand;
mod ledgers;
mod looks;
mod occupancy;
mod owners;
mod reads;
mod references;
mod shows;
mod standing;
mod trails;

pub(crate) use does::{Does, End, Hear, Start, Tell};
pub use shows::Draft;
