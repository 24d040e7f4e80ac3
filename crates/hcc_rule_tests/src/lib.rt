//! Tests of `hcc_word`, `hcc_core` and `hcc_rule`: what no clause says. The numbers of words and of
//! events are those meant. A shard is made where there is memory; the very words stand that each
//! kind of step leaves; two clients on two threads end with the same words.
#![tactic(auto)]

#[cfg(test)]
mod amounts;
#[cfg(test)]
mod any;
#[cfg(test)]
mod basics;
#[cfg(test)]
mod corrections;
#[cfg(test)]
mod frees;
#[cfg(test)]
mod glimpses;
#[cfg(test)]
mod hired;
#[cfg(test)]
mod images;
#[cfg(test)]
mod inserts;
#[cfg(test)]
mod lookups;
#[cfg(test)]
mod protocol;
#[cfg(test)]
mod schedules;
#[cfg(test)]
mod steps;
#[cfg(test)]
mod threads;
#[cfg(test)]
mod words;
#[cfg(test)]
mod worker;
