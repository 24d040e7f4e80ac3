//! Tests of `hcc_table`, `hcc_charge` and `hcc_shard`: what no clause says. Entries are placed and
//! found where they can be, room is found, and the very words, turns and totals stand after each
//! call.
#![tactic(auto)]

#[cfg(test)]
mod any;
#[cfg(test)]
mod charge;
#[cfg(test)]
mod shard;
#[cfg(test)]
mod table;
