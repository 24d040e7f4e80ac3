//! Tests of the cache, and of what reads blocks through it: what no clause says. They stand in a
//! crate of their own, so that a proof of the cache or of the reader doesn't wait for theirs.
//! Beside them stand chains of calls, which show what the clauses and laws give together.
#![tactic(auto)]

#[cfg(test)]
mod block;
#[cfg(test)]
mod cache;
#[cfg(test)]
pub mod chains;
