//! The subcommand `blocks`: files are read whole, and their blocks by many threads.
ghost use Rattle.std.specs.Prelude.{◌≡◌, ◌<◌, ◌^◌, IfErr, IfOk, length, map};
ghost use Rattle.std.specs.List.{All};
ghost use Rattle.hcc_player.specs.Options.{options_check};
ghost use Rattle.hcc_player.specs.Work.{IsSteady};
ghost use Rattle.hcc_play.specs.Plays.{EndsReads};
ghost use Rattle.hcc_play.specs.Status.{status_of};

use crate::progress::Progress;
use crate::request::{Terminals, awaits, ended, told};
use crate::status::Status;
use hcc_block::{BlockSource, MemorySource};
use hcc_player::blocks::play_blocks;
use hcc_player::fault::PlayError;
use hcc_player::options::Options;
use std::alloc::{AllocError, Global};
use std::io::{ErrorKind, Read, Write};
use std::rt::Files;
use std::thread::Threads;
use std::{fs, io};

/// Plays the trace of block reads on standard input over the files of these paths.
pub fn blocks<R: AllocGlobal + Input + Print + Eprint + Files + Threads + Sync>(
    rt: &R,
    options: &Options,
    paths: &[&str],
    terminals: Terminals,
) -> Status
    ensures { length paths.now < 2 ^ 32
        → IfErr (options_check options.now) (λ error. result ≡ status_of error) }
{
    if paths.len() >= 1 << 32 {
        let _ = rt.eprintln("error: too many files");
        return Status::Refused;
    }
    match options.check() {
        Ok(()) => over(rt, options, paths, terminals),
        Err(error) => told(rt, error),
    }
}

/// Does so with options that can be, over files that aren't too many.
fn over<R: AllocGlobal + Input + Print + Eprint + Files + Threads + Sync>(
    rt: &R,
    options: &Options,
    paths: &[&str],
    terminals: Terminals,
) -> Status
    requires few { length paths.now < 2 ^ 32 }
    requires fine { options_check options.now ≡ Ok tt }
{
    let files = match files_of(rt, paths) {
        Ok(files) => files,
        Err(status) => return status,
    };
    let Ok(sources) = sources(rt.alloc(), &files, options.config.clients) else {
        return told(rt, PlayError::OutOfMemory);
    };
    awaits(rt, terminals, "a trace of block reads");
    let mut reader = rt.reader();
    let mut writer = io::writer(rt);
    reads(
        rt,
        &mut reader,
        &mut writer,
        options,
        &files,
        sources,
        terminals.errors,
    )
}

/// Plays a trace of block reads over these files, from a reader to a writer, and shows how far it
/// is.
fn reads<'a, R: AllocGlobal + Eprint + Threads + Sync, I: Read, O: Write>(
    rt: &R,
    input: &mut I,
    output: &mut O,
    options: &Options,
    files: &'a [Vec<u8>],
    sources: Vec<MemorySource<'a>>,
    shown: bool,
) -> Status
    requires options { options_check options.now ≡ Ok tt }
    requires count { length sources.items ≡ options.now.config.clients }
    requires content { All (λ source. ⟦<MemorySource<'a> as BlockSource>⟧.content source
        ≡ map (λ file. file.items) files.now) sources.items }
    ensures { EndsReads (map (λ file. file.items) files.now) options.now
        (IsSteady ⟦<MemorySource<'a> as BlockSource>⟧.reliable sources.entry.items)
        (I.remaining input.old) (O.contents output.old) (O.contents output.new) result }
{
    let gate = Progress::new(rt, shown);
    let played = play_blocks(
        rt.alloc(),
        rt,
        input,
        output,
        options,
        files,
        sources,
        &gate,
    );
    gate.end();
    ended(rt, played)
}

/// The bytes of the files of these paths, in order.
fn files_of<R: AllocGlobal + Eprint + Files>(rt: &R, paths: &[&str]) -> Result<Vec<Vec<u8>>, Status>
    ensures { IfOk result (λ files. length files.items ≡ length paths.now) }
{
    let mut files = Vec::new(rt.alloc());
    for (number, path) in paths.iter().enumerate() {
        match fs::read(rt, *path) {
            Ok(bytes) => {
                if files.push(bytes).is_err() {
                    return Err(told(rt, PlayError::OutOfMemory));
                }
            }
            Err(error) => return Err(unreadable(rt, number, &error)),
        }
    }
    Ok(files)
}

/// Reports that a file couldn't be read, or that an allocation failed for it.
fn unreadable<R: AllocGlobal + Eprint>(rt: &R, number: usize, error: &io::Error) -> Status {
    if error.kind() == ErrorKind::OutOfMemory {
        return told(rt, PlayError::OutOfMemory);
    }
    let _ = eprintln!(rt; "file {number}: unreadable");
    Status::Failed
}

/// A source of the files for each client.
fn sources<'a>(
    alloc: Global,
    files: &'a [Vec<u8>],
    clients: u32,
) -> Result<Vec<MemorySource<'a>>, AllocError>
    requires { length files.now < 2 ^ 32 }
    ensures count { IfOk result (λ sources. length sources.items ≡ clients) }
    ensures content { IfOk result (λ sources.
        All (λ source. ⟦<MemorySource<'a> as BlockSource>⟧.content source
        ≡ map (λ file. file.items) files.now) sources.items) }
{
    let mut sources = Vec::with_capacity(alloc, clients as usize)?;
    for _ in 0..clients {
        sources.push(MemorySource::new(files))?;
    }
    Ok(sources)
}
