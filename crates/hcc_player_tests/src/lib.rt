//! Tests of `hcc_player`: what no clause says. Which text each fault names, and what a script, a
//! trace of calls or of block reads gives; what comes of readers and writers that fail; that
//! workers run at once; that the words of a running shard are what a script of its steps is told.
#![tactic(auto)]

#[cfg(test)]
mod blocks;
#[cfg(test)]
mod running;
#[cfg(test)]
mod scripts;
#[cfg(test)]
mod streams;
