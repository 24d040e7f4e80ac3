//! Charge and places of one shard: a client reserves both before it inserts an entry, and evicts
//! others where there is none left. Each call is a bounded number of atomic steps by one seat.
#![tactic(auto)]

mod asking;
mod evicting;
mod reserving;
mod settling;
mod standing;
mod swept;
mod tally;

pub use evicting::evict;
pub use reserving::{Refused, Reservation, reserve};
pub use settling::{give_up, keep_charge, settle};
pub use standing::{standalone_in, standalone_out};
pub use swept::Swept;
pub use tally::Tally;
