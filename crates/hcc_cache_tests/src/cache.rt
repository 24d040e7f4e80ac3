//! Of the cache: the limits as numbers, the texts of errors, keys from outside, that a cache is
//! made where there is memory, that entries are placed and found where they can be, also those of
//! an image, and the very words, turns and totals that stand after each call.

mod calls;
mod configs;
mod copies;
mod errors;
mod example;
mod full;
mod keys;
mod objects;
mod opening;
mod rows;
mod shared;
pub(crate) mod stage;
mod threads;
mod warm;
