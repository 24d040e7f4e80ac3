//! Plays scripts of events in a new world of the cache's protocol, from bytes to bytes.
//!
//! A script is a text of lines, one event each; [`play::play_core`] reads it from any reader,
//! judges all of it, and writes one line for each event to any writer. What a text means, which
//! fault of it is reported, and what is written stand in this crate's definitions, apart from the
//! code that reads and writes.
#![tactic(auto)]

pub mod blocks;
pub mod fault;
mod grammar;
mod input;
pub mod limits;
mod line;
mod number;
pub mod options;
mod output;
pub mod play;
mod print;
mod report;
pub mod run;
mod script;
mod sums;
mod value;
mod words;
