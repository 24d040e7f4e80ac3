//! The subcommand `run`.
ghost use Rattle.std.specs.Prelude.{IfOk};
ghost use Rattle.hcc_play.specs.CommandLine.{IsCommand, run_app};

use crate::cache_options::with_cache_args;
use clap::Command;
use std::alloc::{AllocError, Global};

const ABOUT: &str = "\
Plays a trace of calls from standard input on a new cache, and writes a line of
answer for each call, and at the end the cache's books";

const AFTER: &str = "\
A trace has one call a line: the number of its client, a letter, and what else
the call needs, with one space between. A client keeps its handles in registers,
numbered 0 to 16383 and empty at first.

  0 I 7 9 5 L aa        client 0 inserts key 7.9 with charge 5, priority L and
                        value aa: placed, dropped
  0 P 3 7 9 5 L aa      the same, with a handle in register 3: placed, standalone
  0 G 3 7 9             it looks key 7.9 up into register 3: hit, miss
  0 F 4 3               one handle more on what register 3 holds, in 4: held
  0 V 3                 it reads the value under register 3: value aa
  0 R 3 U K             it releases register 3: freed, kept
  0 E 7 9               it erases key 7.9: erased, and how many entries
  0 U                   usage, pinned usage and occupancy
  0 W 0 5               the meta word of shard 0, slot 5, and its displacement
  0 S                   the client's stats

Priorities are H, L and B for high, low and bottom. A release is U, useful, or
N; and E, erase if it was the last, or K. A value is hexadecimal, two digits for
each byte, or - for none. `busy` says that the register to be filled holds a
handle, and `none` that the register to be read is empty: no call is made then.

A call may be answered `refused` and why:

  HandlesFull     the client holds as many handles as it may
  Spent           it has used all of its serials
  TooLarge        strict: the charge is above the capacity of a shard
  CapacityFull    strict: too little charge could be freed
  OccupancyFull   strict: the shard had no place, and no slot could be freed

The stats are counted from the beginning: `probes` are slots visited for a key,
`boosts` insertions that met an entry of their key, `evicted` entries that
evictions freed, `hit` those of them that a look-up had marked, `freed` their
charges in sum, `turns` turns of the hand, `corrections` corrections of counters
near their end, `lost` compare-exchanges that another client's step forestalled.

At the end all handles are released, the cache is closed, and a line of JSON has
in `charges` and `slots` the charges and the number of the entries that are
left, slot by slot, and in `usage` and `occupied` what the cache's books say.

The whole trace is judged first. At a fault nothing is played, and `line N:
FAULT` is told, of the first line at fault:

  TooLong        it has more than 8400 bytes
  Unended        no line feed ends it
  NotAscii       a byte is neither a space nor a visible character of ASCII
  BadWord        a word is empty or unknown, or there are too few or too many
  BadNumber      a word is no decimal number below 2^64 without leading zeros
  OutOfRange     a number is outside its range
  BadChoice      a word is none of those that may stand in its place
  BadValue       a value is no hexadecimal text
  ValueTooLong   a value is longer than the room of a slot";

/// The subcommand `run`.
pub fn run_command<'a>(alloc: Global) -> Result<Command<'a>, AllocError>
    ensures { IfOk result (IsCommand run_app) }
{
    let command = Command::new(alloc, "run").about(ABOUT).after_help(AFTER);
    with_cache_args(alloc, command)
}
