//! A running shard is what the program `core` says of it. Two clients step a shard by the functions
//! of `hcc_rule`; each call is written as a line of a script. The player plays that script, and
//! behind each line it prints the slots to which the shard's own words decode.

mod acts;
mod picture;
mod seats;
mod tape;
mod worker;

use acts::{comes_to_nothing, counts_down, erases, frees, hides, stands, uses};
use seats::{bench, hired, restarted};
use std::test::Fail;
use tape::Tape;
use worker::{FIRST, THIRD};

#[test]
fn the_words_of_a_shard_are_those_of_the_script(rt: HostRuntime) -> Result<(), Fail> {
    let (table, mut seats) = bench(rt.alloc())?;
    let watcher = hired(&rt, &table, &mut seats);
    let one = hired(&rt, &table, &mut seats);
    let mut zero = hired(&rt, &table, &mut seats);
    let mut tape = Tape::new(rt.alloc(), watcher)?;
    let mut one = restarted(&mut zero, one, &mut tape)?;
    comes_to_nothing(&rt, &mut zero, &mut tape)?;
    stands(&mut one, &mut tape)?;
    zero.shows(&rt, &mut one, &mut tape, 2, FIRST, Some(1))?;
    uses(&rt, &mut one, &mut tape)?;
    hides(&mut zero, &mut tape)?;
    frees(&rt, &mut zero, &mut one, &mut tape)?;
    one.shows(&rt, &mut zero, &mut tape, 3, THIRD, None)?;
    counts_down(&rt, &mut zero, &mut one, &mut tape)?;
    erases(&rt, &mut one, &mut tape)?;
    tape.compare(&rt)
}
