//! What the words ask for, and that it is done, over any runtime.
ghost use Rattle.std.specs.Prelude.{◌≡◌, ◌⊎◌, ℕ, List, ◌∷◌, IfErr, IfOk, codes, map, string_bytes};
ghost use Rattle.clap.specs.Words.{found_of, kind_of, rows_of, subcommand_rows_of};
ghost use Rattle.hcc_core.specs.Opening.{CanOpen};
ghost use Rattle.hcc_player.specs.Options.{config_check};
ghost use Rattle.hcc_play.specs.Lines.{AreUses, RunsAs, Use, words_in};
ghost use Rattle.hcc_play.specs.Plays.{EndsCalls, EndsCore};
ghost use Rattle.hcc_play.specs.Requests.{AsksFor, EndsBy, EndsFor, IsAsked, IsAskedBy, IsOpen, request_of};
ghost use Rattle.hcc_play.specs.Status.{status_after, status_of};
ghost use Rattle.hcc_play.specs.Settings.{Finds};

use crate::blocks::blocks;
use crate::blocks_command::{options_of, paths_of};
use crate::cache_options::config_of;
use crate::cli::{default_setup, parsed, setup_of};
use crate::status::{Status, status_of};
use clap::error::ErrorKind;
use clap::{ArgMatches, Error};
use hcc_cache::Config;
use hcc_core::setup::Setup;
use hcc_player::fault::PlayError;
use hcc_player::options::Options;
use hcc_player::play::play_core;
use hcc_player::run::play_run;
use std::alloc::{AllocError, Global};
use std::io;
use std::io::{Read, Write};
use std::rt::Files;
use std::thread::Threads;

/// What the words ask for.
#[derive(Drop)]
pub enum Request<'a> {
    /// A script of events in a world of this setup.
    Core(Setup),
    /// A trace of calls on a cache of this size.
    Run(Config),
    /// A trace of block reads over the files of these paths.
    Blocks(Options, Vec<&'a str>),
    /// No more: help was given, or the words were refused.
    Nothing(Status),
}

/// Which of the program's streams are terminals.
#[derive(Clone, Copy, Debug)]
pub struct Terminals {
    /// Standard input: somebody has to type the text.
    pub input: bool,
    /// Standard error: a long play shows there how far it is.
    pub errors: bool,
}

/// Does what the words ask for: the first is the program's name.
pub fn run<R: AllocGlobal + Input + Print + Eprint + Files + Threads + Sync>(
    rt: &R,
    words: &[String],
    terminals: Terminals,
) -> Status
    ensures { EndsFor (map string_bytes words.now) result }
{
    match asked(rt, words) {
        Request::Core(setup) => {
            awaits(rt, terminals, "a script");
            let mut reader = rt.reader();
            let mut writer = io::writer(rt);
            core(rt, &mut reader, &mut writer, setup)
        }
        Request::Run(config) => {
            if config.check().is_ok() {
                awaits(rt, terminals, "a trace of calls");
            }
            let mut reader = rt.reader();
            let mut writer = io::writer(rt);
            calls(rt, &mut reader, &mut writer, config)
        }
        Request::Blocks(options, paths) => blocks(rt, &options, &paths, terminals),
        Request::Nothing(status) => status,
    }
}

/// Says on standard error what is read, where somebody has to type it.
pub fn awaits<R: Eprint>(rt: &R, terminals: Terminals, what: &str) {
    if terminals.input {
        let _ = eprintln!(rt; "reads {what} from the terminal, up to the end of file (Ctrl-D)");
    }
}

/// What the words ask for, where help is given and wrong words are refused at once.
pub fn asked<'a, R: AllocGlobal + Print + Eprint>(rt: &R, words: &'a [String]) -> Request<'a>
    ensures opens { IsOpen result }
    ensures asked { IsAsked (map string_bytes words.now) result }
    ensures line { (name : List ℕ) (uses : List Use)
        → map string_bytes words.now ≡ name ∷ codes "run" ∷ words_in uses
        → AreUses uses → RunsAs uses result }
{
    if words.len() <= 1 {
        return Request::Core(default_setup());
    }
    match parsed(rt.alloc(), words) {
        Ok(matches) => found(rt, asked_by(rt.alloc(), &matches)),
        Err(error) => Request::Nothing(refused(rt, &error)),
    }
}

/// What was asked for, where that was found.
fn found<'a, R: Eprint>(rt: &R, asked: Result<Option<Request<'a>>, AllocError>) -> Request<'a>
    ensures { result ≡ request_of asked.entry }
{
    match asked {
        Ok(Some(request)) => request,
        Ok(None) => {
            let _ = rt.eprintln("error: a number is out of range");
            Request::Nothing(Status::Refused)
        }
        Err(AllocError) => Request::Nothing(told(rt, PlayError::OutOfMemory)),
    }
}

/// What the subcommand that was used asks for, if its numbers are in their ranges.
fn asked_by<'a>(alloc: Global, matches: &ArgMatches<'a>) -> Result<Option<Request<'a>>, AllocError>
    ensures { IfOk result (Finds (IsAskedBy (subcommand_rows_of matches.now))) }
{
    match matches.subcommand() {
        Some((name, options)) => asked_of(alloc, name, options),
        None => Ok(None),
    }
}

/// What the subcommand of this name asks for by its options.
fn asked_of<'a>(
    alloc: Global,
    name: &str,
    options: &ArgMatches<'a>,
) -> Result<Option<Request<'a>>, AllocError>
    ensures { IfOk result (Finds (AsksFor name.now (rows_of (found_of options.now)))) }
{
    match name {
        "core" => Ok(core_of(options)),
        "run" => Ok(calls_of(options)),
        "blocks" => reads_of(alloc, options),
        _ => Ok(None),
    }
}

/// The script that these options ask for.
fn core_of<'a>(options: &ArgMatches<'a>) -> Option<Request<'a>>
    ensures { Finds (AsksFor (codes "core") (rows_of (found_of options.now))) result }
{
    let setup = setup_of(options)?;
    Some(Request::Core(setup))
}

/// The trace of calls that these options ask for.
fn calls_of<'a>(options: &ArgMatches<'a>) -> Option<Request<'a>>
    ensures { Finds (AsksFor (codes "run") (rows_of (found_of options.now))) result }
{
    let config = config_of(options)?;
    Some(Request::Run(config))
}

/// The block reads that these options ask for.
fn reads_of<'a>(alloc: Global, options: &ArgMatches<'a>) -> Result<Option<Request<'a>>, AllocError>
    ensures { IfOk result (Finds (AsksFor (codes "blocks") (rows_of (found_of options.now)))) }
{
    let Some(found) = options_of(options) else {
        return Ok(None);
    };
    let paths = paths_of(alloc, options)?;
    Ok(Some(Request::Blocks(found, paths)))
}

/// Plays a script from a reader to a writer.
pub fn core<R: AllocGlobal + Eprint, I: Read, O: Write>(
    rt: &R,
    input: &mut I,
    output: &mut O,
    setup: Setup,
) -> Status
    requires { CanOpen setup }
    ensures { EndsCore setup (I.remaining input.old) (O.contents output.old)
        (O.contents output.new) result }
{
    ended(rt, play_core(rt.alloc(), input, output, setup))
}

/// Plays a trace of calls from a reader to a writer.
pub fn calls<R: AllocGlobal + Eprint, I: Read, O: Write>(
    rt: &R,
    input: &mut I,
    output: &mut O,
    config: Config,
) -> Status
    ensures ends { EndsCalls config (I.remaining input.old) (O.contents output.old)
        (O.contents output.new) result }
    ensures refused { IfErr (config_check config) (λ error. (result ≡ Status.BadOptions)
        × (input.new ≡ input.old) × (output.new ≡ output.old)) }
{
    let options = Options { config, block: 1 };
    ended(rt, play_run(rt.alloc(), input, output, &options))
}

/// Reports why a play ended early, where it did.
pub fn ended<R: Eprint>(rt: &R, played: Result<(), PlayError>) -> Status
    ensures { result ≡ status_after played }
{
    match played {
        Ok(()) => Status::Done,
        Err(error) => told(rt, error),
    }
}

/// Reports why a play ended.
pub fn told<R: Eprint>(rt: &R, error: PlayError) -> Status
    ensures { result ≡ status_of error }
{
    let _ = rt.eprintln(error);
    status_of(error)
}

/// Writes what `clap` says of wrong arguments, or the help that was asked for.
#[tactic(auto, using(crate::proofs::Asking::is_mistake))]
fn refused<R: Print + Eprint>(rt: &R, error: &Error) -> Status
    ensures { EndsBy (kind_of error.now) result }
{
    match error.kind() {
        ErrorKind::OutOfMemory => {
            let _ = rt.eprintln("out of memory");
            Status::NoMemory
        }
        ErrorKind::DisplayHelp | ErrorKind::DisplayVersion => shown(rt, error.print(rt)),
        _ => {
            let _ = error.print(rt);
            Status::Refused
        }
    }
}

/// The status after a text that was asked for, which may not have been written.
fn shown<R: Eprint>(rt: &R, written: io::Result<()>) -> Status
    ensures { (result ≡ Status.Done) ⊎ (result ≡ Status.Failed) }
{
    match written {
        Ok(()) => Status::Done,
        Err(_) => {
            let _ = rt.eprintln("write failed");
            Status::Failed
        }
    }
}
