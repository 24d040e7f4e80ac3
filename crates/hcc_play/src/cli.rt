//! The command line.
ghost use Rattle.std.specs.Prelude.{◌≡◌, [], IfErr, IfOk, IfSome, codes, false, map, pos};
ghost use Rattle.std.specs.Prelude.{string_bytes};
ghost use Rattle.clap.specs.Words.{HasKind, found_of, rows_of, subcommand_rows_of};
ghost use Rattle.clap.specs.declared.builder.value_parser.ValueParser.TheVariants.{Signed, Unsigned};
ghost use Rattle.hcc_core.specs.Opening.{CanOpen};
ghost use Rattle.hcc_cache.specs.Configs.{is_within};
ghost use Rattle.hcc_play.specs.CommandLine.{IsArgument, IsCommand, core_app, flag_option};
ghost use Rattle.hcc_play.specs.CommandLine.{number_option, program};
ghost use Rattle.hcc_play.specs.Parsed.{faults_of, used_by};
ghost use Rattle.hcc_play.specs.Settings.{CanPlay, Finds, GivesSetup, is_played};
ghost use Rattle.hcc_play.specs.declared.cli.TheConstants.{PLAYED_SLOTS, PLAYED_CAPACITY};

use crate::blocks_command::blocks_command;
use crate::run_command::run_command;
use crate::values::{flag, number, wide_number};
use clap::{Arg, ArgAction, ArgMatches, Command, Error, value_parser};
use hcc_core::limits::MOST_CLIENTS;
use hcc_core::setup::Setup;
use std::alloc::{AllocError, Global};

/// The most slots of a world that is played: each line shows them all.
const PLAYED_SLOTS: u32 = 16;

/// The most capacity of a world that is played.
const PLAYED_CAPACITY: u64 = 1 << 40;

/// The version of the C interface and of the public calls of the cache, as CHANGELOG.md has it.
const VERSION: &str = "0.1.0";

const ABOUT: &str = "\
Plays scripts of a block cache's protocol and traces of calls on the cache, and
reads files through it";

const AFTER: &str = "\
With no arguments the program does `core` with the defaults.

Exit status: 0 done; 2 the arguments or the input were refused; 3 a read, a
write or a file failed; 4 the sizes of the cache were refused; 5 out of memory.";

const CORE_ABOUT: &str = "\
Plays a script of protocol events from standard input in a new world, and
writes a line for each event";

const CORE_AFTER: &str = "\
The world has slots, all empty, and clients, none live. A script has one event a
line: its name, the client, and what else it needs, with one space between.

  start 0               client 0 comes to life
  enter 0               it asks for a place in the table
  charge 0 5            it asks for a charge of 5
  occupy 0 1            it takes the empty slot 1
  show 0 7 9 5 2 - aa   it shows an entry: key 7.9, charge 5, countdown 2, value aa
  look 0 1              it looks at slot 1
  acquire 0 1 1 4       it takes a reference of weight 1, named 4
  read 0 4              it reads the entry under that reference
  use 0 4               it gives the reference back as used

The others, for a client c, a slot s and a name x:

  end c   empty c   write c   slots c   settle c   waive c   quit c   turn c
  usage c   occupancy c   standing c   clock c s   count c s   pass c s   unpass c s
  peek c s   give c x   hide c x   mark c x   correct c x   fall c x
  stand c CHARGE x
  free c s x, and show as above: there x is - where no reference is meant

Each line that is written has the answer, the slots, and then usage, occupancy,
standing and hand. An empty slot is E, one that is built is B and its client,
each with + and its stray acquires. An entry is S if shown and H if hidden, then
its key, @ its stamp, # its charge, u its uses, r its references (client, name
and weight of each) and h whether it was hit. Behind / is how often the slot
stands in trails. A refused event is answered `refused` and why: NoSuchSlot,
NoSuchClient, or NotAllowed by the protocol now. The whole script is judged
first; at a fault nothing is played, and `line N: FAULT` is told: the line is
TooLong, Unended or NotAscii, or has a BadWord, a BadNumber, a number OutOfRange,
a BadValue or one above 64 bytes, ValueTooLong (`hcc_play run --help` says more).";

fn slots_arg<'a>(alloc: Global) -> Arg<'a>
    ensures { IsArgument (number_option (codes "slots") (codes "2")
        (Signed (pos 1) (pos PLAYED_SLOTS))) result }
{
    Arg::new(alloc, "slots")
        .long("slots")
        .value_name("N")
        .help("How many slots the world has, 1 to 16")
        .value_parser(value_parser!(u32).range(1..=PLAYED_SLOTS as i64))
        .default_value("2")
}

fn clients_arg<'a>(alloc: Global) -> Arg<'a>
    ensures { IsArgument (number_option (codes "clients") (codes "2")
        (Signed (pos 1) (pos MOST_CLIENTS))) result }
{
    Arg::new(alloc, "clients")
        .long("clients")
        .value_name("N")
        .help("How many clients the world has, 1 to 1024")
        .value_parser(value_parser!(u32).range(1..=MOST_CLIENTS as i64))
        .default_value("2")
}

fn capacity_arg<'a>(alloc: Global) -> Arg<'a>
    ensures { IsArgument (number_option (codes "capacity") (codes "600")
        (Unsigned 0 PLAYED_CAPACITY)) result }
{
    Arg::new(alloc, "capacity")
        .long("capacity")
        .value_name("N")
        .help("The charge that the world is meant to hold, 0 to 1099511627776")
        .value_parser(value_parser!(u64).range(0..=PLAYED_CAPACITY as i64))
        .default_value("600")
}

fn strict_arg<'a>(alloc: Global) -> Arg<'a>
    ensures { IsArgument (flag_option (codes "strict")) result }
{
    Arg::new(alloc, "strict")
        .long("strict")
        .help("Grants no charge beyond the capacity")
        .action(ArgAction::SetTrue)
}

/// The subcommand `core`.
fn core_command<'a>(alloc: Global) -> Result<Command<'a>, AllocError>
    ensures { IfOk result (IsCommand core_app) }
{
    Command::new(alloc, "core")
        .about(CORE_ABOUT)
        .after_help(CORE_AFTER)
        .arg(slots_arg(alloc))?
        .arg(clients_arg(alloc))?
        .arg(capacity_arg(alloc))?
        .arg(strict_arg(alloc))
}

/// What the words give, of which the first is the program's name.
pub fn parsed<'a>(alloc: Global, words: &'a [String]) -> Result<ArgMatches<'a>, Error>
    ensures ok { IfOk result (λ matches. (faults_of (map string_bytes words.now) ≡ [])
        × (subcommand_rows_of matches ≡ used_by (map string_bytes words.now))) }
    ensures err { IfErr result (HasKind (faults_of (map string_bytes words.now))) }
{
    let command = command(alloc)?;
    command.try_get_matches_from(words)
}

/// The whole command line.
fn command<'a>(alloc: Global) -> Result<Command<'a>, AllocError>
    ensures { IfOk result (IsCommand program) }
{
    let core = core_command(alloc)?;
    let run = run_command(alloc)?;
    let blocks = blocks_command(alloc)?;
    Command::new(alloc, "hcc_play")
        .version(VERSION)
        .about(ABOUT)
        .after_help(AFTER)
        .override_usage("hcc_play [COMMAND]")
        .subcommand_required(true)
        .subcommand(core)?
        .subcommand(run)?
        .subcommand(blocks)
}

/// The setup where no word is given.
pub fn default_setup() -> Setup
    ensures opens { CanOpen result }
    ensures is { result ≡ record { slots = 2; clients = 2; capacity = 600; strict = false } }
{
    Setup {
        slots: 2,
        clients: 2,
        capacity: 600,
        strict: false,
    }
}

/// The setup that the options of `core` tell, if each is in its range.
pub fn setup_of(options: &ArgMatches<'_>) -> Option<Setup>
    ensures opens { IfSome result CanOpen }
    ensures given { Finds (λ setup. GivesSetup (rows_of (found_of options.now)) setup
        × CanPlay setup) result }
{
    let setup = Setup {
        slots: number(options, "slots")?,
        clients: number(options, "clients")?,
        capacity: wide_number(options, "capacity")?,
        strict: flag(options, "strict"),
    };
    if is_played(&setup) { Some(setup) } else { None }
}

/// Whether each number is in its range.
fn is_played(setup: &Setup) -> bool
    ensures { result ≡ is_played setup.now }
{
    is_within(1, PLAYED_SLOTS, setup.slots)
        && is_within(1, MOST_CLIENTS, setup.clients)
        && setup.capacity <= PLAYED_CAPACITY
}

/// Whether a number is in this range.
fn is_within(least: u32, most: u32, number: u32) -> bool
    ensures { result ≡ is_within least most number }
{
    least <= number && number <= most
}
