//! Of `hcc_shard`: that entries are placed and found where they can be, and the very words, turns
//! and totals that stand after each call.
mod calls;
mod full;
mod guest;
mod images;
mod parts;
mod rows;
mod threads;
mod visit;
