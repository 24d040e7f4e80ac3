//! The subcommand `blocks` on the command line.
ghost use Rattle.std.specs.Prelude.{◌≡◌, IfOk, codes, map};
ghost use Rattle.clap.specs.Words.{found_of, rows_of};
ghost use Rattle.hcc_play.specs.CommandLine.{IsArgument, IsCommand, block_option, blocks_app, file_option};
ghost use Rattle.hcc_play.specs.Settings.{Finds, GivesOptions};
ghost use Rattle.hcc_play.specs.Values.{texts_in};

use crate::cache_options::{config_of, with_cache_args};
use crate::values::number;
use clap::{Arg, ArgMatches, Command, value_parser};
use hcc_player::options::Options;
use std::alloc::{AllocError, Global};

const ABOUT: &str = "\
Reads blocks of files through one cache, by a trace from standard input, each
client on a thread of its own, and writes a line of JSON";

const AFTER: &str = "\
The files are read whole. A trace has one read a line: the client, the file and
the block, by their numbers from 0, with one space between.

  0 0 5                 client 0 reads block 5 of the first file
  1 0 5                 client 1 reads the same block

Each client reads its own lines, in order. Where the system starts no thread for
a client, its lines are played after those of another one. Blocks of several
files want a seed: without one reads can take twenty times as long.

The whole trace is judged first; at a fault nothing is read, and `line N: FAULT`
is told (`hcc_play run --help` has the faults). The line of JSON has in
`charges` and `slots` the charges and the number of the entries that are left in
the cache, in `usage` and `occupied` what its books say, and for each of the
`clients`:

  blocks    how many of its reads gave a block
  faults    how many the source failed
  hits      how many the cache had
  misses    how many it had not, the faults among them
  missing   how many were of blocks that aren't there
  sum       all bytes read, added up modulo 2^64";

/// The subcommand `blocks`.
pub fn blocks_command<'a>(alloc: Global) -> Result<Command<'a>, AllocError>
    ensures { IfOk result (IsCommand blocks_app) }
{
    let command = Command::new(alloc, "blocks").about(ABOUT).after_help(AFTER);
    with_cache_args(alloc, command)?
        .arg(block_arg(alloc))?
        .arg(file_arg(alloc))
}

fn block_arg<'a>(alloc: Global) -> Arg<'a>
    ensures { IsArgument block_option result }
{
    Arg::new(alloc, "block")
        .long("block")
        .value_name("N")
        .help("How many bytes a block has, 1 to eight times the room")
        .value_parser(value_parser!(u32))
        .default_value("16")
}

fn file_arg<'a>(alloc: Global) -> Arg<'a>
    ensures { IsArgument file_option result }
{
    Arg::new(alloc, "FILE")
        .help("The files that are read, none or more")
        .num_args(0..)
}

/// The options that were given. Whether they can be is judged later.
pub fn options_of(options: &ArgMatches<'_>) -> Option<Options>
    ensures { Finds (GivesOptions (rows_of (found_of options.now))) result }
{
    Some(Options {
        config: config_of(options)?,
        block: number(options, "block")?,
    })
}

/// The paths of the files, in order.
pub fn paths_of<'a>(alloc: Global, options: &ArgMatches<'a>) -> Result<Vec<&'a str>, AllocError>
    ensures { IfOk result (λ paths. map (λ path. path.now) paths.items
        ≡ texts_in (codes "FILE") (rows_of (found_of options.now))) }
{
    match options.get_strs("FILE") {
        Some(paths) => Vec::from_slice(alloc, paths),
        None => Ok(Vec::new(alloc)),
    }
}
