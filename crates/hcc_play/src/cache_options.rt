//! The options that say the size of a cache.
ghost use Rattle.std.specs.Prelude.{IfOk};
ghost use Rattle.clap.specs.Words.{app_of, found_of, rows_of};
ghost use Rattle.hcc_play.specs.CommandLine.{IsArgument, IsCommand, IsLocal, any_u32, any_u64};
ghost use Rattle.hcc_play.specs.CommandLine.{cache_options, flag_option, number_option, with_rules};
ghost use Rattle.hcc_play.specs.Settings.{Finds, GivesConfig};

use crate::values::{flag, number, wide_number};
use clap::{Arg, ArgAction, ArgMatches, Command, value_parser};
use hcc_cache::Config;
use std::alloc::{AllocError, Global};

/// A number of at most 32 bits.
fn number_arg<'a>(alloc: Global, name: &'a str, help: &'a str, default: &'a str) -> Arg<'a>
    ensures { IsArgument (number_option name.entry.now default.entry.now any_u32) result }
{
    Arg::new(alloc, name)
        .long(name)
        .value_name("N")
        .help(help)
        .value_parser(value_parser!(u32))
        .default_value(default)
}

/// A number of at most 64 bits.
fn wide_arg<'a>(alloc: Global, name: &'a str, help: &'a str, default: &'a str) -> Arg<'a>
    ensures { IsArgument (number_option name.entry.now default.entry.now any_u64) result }
{
    Arg::new(alloc, name)
        .long(name)
        .value_name("N")
        .help(help)
        .value_parser(value_parser!(u64))
        .default_value(default)
}

fn flag_arg<'a>(alloc: Global, name: &'a str, help: &'a str) -> Arg<'a>
    ensures { IsArgument (flag_option name.entry.now) result }
{
    Arg::new(alloc, name)
        .long(name)
        .help(help)
        .action(ArgAction::SetTrue)
}

/// A command with these options.
pub fn with_cache_args<'a>(alloc: Global, command: Command<'a>) -> Result<Command<'a>, AllocError>
    requires { IsLocal command }
    ensures { IfOk result (IsCommand (with_rules (app_of command.entry) cache_options)) }
{
    command
        .arg(number_arg(
            alloc,
            "slots",
            "How many slots each shard has, a power of two, 8 to 65536",
            "8",
        ))?
        .arg(number_arg(
            alloc,
            "room",
            "How many words of 8 bytes a value has room for, 1 to 512",
            "2",
        ))?
        .arg(number_arg(
            alloc,
            "clients",
            "How many clients there are, 1 to 1024",
            "1",
        ))?
        .arg(number_arg(
            alloc,
            "handles",
            "How many handles a client may hold, 1 to 16384",
            "8",
        ))?
        .arg(number_arg(
            alloc,
            "shards",
            "How many shards there are, a power of two, 1 to 64",
            "1",
        ))?
        .arg(wide_arg(
            alloc,
            "capacity",
            "The charge that the cache is meant to hold, 0 to 1099511627776",
            "600",
        ))?
        .arg(wide_arg(
            alloc,
            "serials",
            "How many serials each client has, 1 to 18014398509481984",
            "18014398509481984",
        ))?
        .arg(wide_arg(alloc, "seed", "The seed of the keys", "0"))?
        .arg(flag_arg(alloc, "strict", "Grants no charge beyond the capacity"))?
        .arg(flag_arg(alloc, "marks", "Marks the entries that look-ups find"))
}

/// The sizes that these options tell. Whether a cache can have them is judged later.
pub fn config_of(options: &ArgMatches<'_>) -> Option<Config>
    ensures { Finds (GivesConfig (rows_of (found_of options.now))) result }
{
    Some(Config {
        slots: number(options, "slots")?,
        room: number(options, "room")?,
        clients: number(options, "clients")?,
        handles: number(options, "handles")?,
        shards: number(options, "shards")?,
        capacity: wide_number(options, "capacity")?,
        strict: flag(options, "strict"),
        marks: flag(options, "marks"),
        serials: wide_number(options, "serials")?,
        seed: wide_number(options, "seed")?,
    })
}
