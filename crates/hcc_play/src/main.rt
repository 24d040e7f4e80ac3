//! Plays scripts of a block cache's protocol and traces of calls on the cache, and reads files
//! through it, from the command line.
#![tactic(auto)]

mod blocks;
mod blocks_command;
mod cache_options;
mod cli;
mod progress;
mod request;
mod run_command;
mod status;
mod values;

use crate::request::{Terminals, run};
use crate::status::Status;
use std::io;
use std::io::{ErrorKind, IsTerminal};
use std::process::ExitCode;

/// The words of the command line.
fn words_of(rt: &HostRuntime) -> io::Result<Vec<String>> {
    let words = std::env::args(rt)?.collect(rt.alloc())?;
    Ok(words)
}

/// The status where the command line could not be read: a word of it is no text.
fn unread(rt: &HostRuntime, error: &io::Error) -> Status {
    if error.kind() == ErrorKind::OutOfMemory {
        let _ = rt.eprintln("out of memory");
        return Status::NoMemory;
    }
    let _ = rt.eprintln("error: the arguments are not text");
    Status::Refused
}

/// Which of its streams are terminals.
fn terminals_of(rt: &HostRuntime) -> Terminals {
    Terminals {
        input: rt.stdin().is_terminal(),
        errors: rt.stderr().is_terminal(),
    }
}

fn main(rt: HostRuntime) -> ExitCode {
    let status = match words_of(&rt) {
        Ok(words) => run(&rt, words.as_slice(), terminals_of(&rt)),
        Err(error) => unread(&rt, &error),
    };
    ExitCode::from(status.code())
}
