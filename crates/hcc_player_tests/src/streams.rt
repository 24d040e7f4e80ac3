//! Readers and writers that give or take little, are interrupted or fail at one of their calls:
//! what a play answers then, and what is out.
ghost use Rattle.std.specs.Prelude.{◌<◌};

use crate::scripts::{DEFAULTS, FIRST_OUTPUT, FIRST_SCRIPT};
use hcc_cache::Config;
use hcc_player::fault::PlayError;
use hcc_player::options::Options;
use hcc_player::play::play_core;
use hcc_player::run::play_run;
use std::alloc::Global;
use std::io;
use std::io::{ErrorKind, Read, Write};
use std::process::Abort;
use std::test::Fail;

/// How a call ends that is not served.
#[derive(Clone, Copy, Debug)]
pub(crate) enum End {
    Moves0,
    Fails(ErrorKind),
}

/// The calls of a fake. Each moves at most `step` bytes, but for the one of number `at`, counted
/// from 0, which ends otherwise.
#[derive(Clone, Copy)]
pub(crate) struct Calls {
    pub(crate) step: usize,
    pub(crate) at: usize,
    pub(crate) end: End,
    pub(crate) made: usize,
}

impl Calls {
    fn next(&mut self) -> io::Result<usize> {
        let number = self.made;
        self.made = number.saturating_add(1);
        match self.end {
            End::Moves0 if number == self.at => Ok(0),
            End::Fails(kind) if number == self.at => Err(io::Error::from(kind)),
            _ => Ok(self.step),
        }
    }
}

/// Calls of which none ends otherwise.
pub(crate) const ALL_SERVED: Calls = Calls {
    step: usize::MAX,
    at: usize::MAX,
    end: End::Moves0,
    made: 0,
};

/// A reader of these bytes.
#[derive(Drop)]
pub(crate) struct Source<'a> {
    pub(crate) rest: &'a [u8],
    pub(crate) calls: Calls,
}

impl Read for Source<'_> {
    fn read(&mut self, buffer: &mut [u8]) -> io::Result<usize> {
        let count = self.calls.next()?.min(buffer.len()).min(self.rest.len());
        buffer[..count].copy_from_slice(&self.rest[..count]);
        self.rest = &self.rest[count..];
        Ok(count)
    }
}

/// A writer that keeps what it took. Its flush may fail.
#[derive(Drop)]
pub(crate) struct Sink {
    pub(crate) taken: Vec<u8>,
    pub(crate) calls: Calls,
    pub(crate) flushes: bool,
}

impl Write for Sink {
    fn write(&mut self, bytes: &[u8]) -> io::Result<usize> {
        let count = self.calls.next()?.min(bytes.len());
        self.taken.extend_from_slice(&bytes[..count])?;
        Ok(count)
    }

    fn flush(&mut self) -> io::Result<()> {
        if self.flushes {
            return Ok(());
        }
        Err(io::Error::from(ErrorKind::Other))
    }
}

/// A text that is played, of each kind.
#[derive(Clone, Copy, Debug)]
enum Which {
    Script,
    Calls,
}

impl Which {
    fn text(self) -> &'static [u8] {
        match self {
            Which::Script => FIRST_SCRIPT,
            Which::Calls => FIRST_CALLS,
        }
    }

    /// What it gives.
    fn output(self) -> &'static [u8] {
        match self {
            Which::Script => FIRST_OUTPUT,
            Which::Calls => FIRST_ANSWERS,
        }
    }
}

/// A worked trace on a cache of one shard with 8 slots.
const FIRST_CALLS: &[u8] = b"\
0 I 0 1 200 L aa\n\
0 W 0 1\n\
0 G 0 0 1\n\
0 V 0\n\
0 R 0 U K\n\
0 W 0 1\n\
0 R 0 U K\n\
0 U\n";

/// What that trace gives.
const FIRST_ANSWERS: &[u8] = b"\
placed\n\
word e000000080000002 displaced 0\n\
hit\n\
value aa\n\
kept\n\
word e0000000c0000003 displaced 0\n\
none\n\
usage 200 pinned 0 occupancy 1\n\
{\"charges\":200,\"occupied\":1,\"slots\":1,\"usage\":200}\n";

const OPTIONS: Options = Options {
    config: Config {
        slots: 8,
        room: 2,
        clients: 1,
        handles: 8,
        shards: 1,
        capacity: 600,
        strict: false,
        marks: false,
        serials: 18_014_398_509_481_984,
        seed: 0,
    },
    block: 1,
};

/// What a play answered, what is out, and how many calls it made of each kind.
#[derive(Drop)]
struct Ran {
    answer: Result<(), PlayError>,
    out: Vec<u8>,
    reads: usize,
    writes: usize,
}

fn play(
    alloc: Global,
    which: Which,
    text: &[u8],
    reads: Calls,
    writes: Calls,
    flushes: bool,
) -> Ran {
    let mut reader = Source {
        rest: text,
        calls: reads,
    };
    let mut writer = Sink {
        taken: Vec::new(alloc),
        calls: writes,
        flushes,
    };
    let answer = match which {
        Which::Script => play_core(alloc, &mut reader, &mut writer, DEFAULTS),
        Which::Calls => play_run(alloc, &mut reader, &mut writer, &OPTIONS),
    };
    Ran {
        answer,
        out: writer.taken,
        reads: reader.calls.made,
        writes: writer.calls.made,
    }
}

/// Plays a text with one read that ends so, at each of them: what comes of it.
fn reads_end(rt: &impl Abort, alloc: Global, which: Which, kind: ErrorKind, step: usize)
    requires { 0 < step }
{
    let text = which.text();
    // The last read finds the end.
    let whole = text.len().div_ceil(step).saturating_add(1);
    for at in 0..whole {
        let calls = Calls {
            step,
            at,
            end: End::Fails(kind),
            made: 0,
        };
        let ran = play(alloc, which, text, calls, ALL_SERVED, true);
        let (answer, out, reads) = if kind == ErrorKind::Interrupted {
            (Ok(()), which.output(), whole.saturating_add(1))
        } else {
            let failed = Err(PlayError::ReadFailed);
            (failed, b"".as_slice(), at.saturating_add(1))
        };
        assert_eq!(rt; ran.answer, answer, "{which:?}: {kind:?} at {at} by {step}");
        assert_eq!(rt;
            ran.out.as_slice(),
            out,
            "{which:?}: {kind:?} at {at} by {step}"
        );
        assert_eq!(rt; ran.reads, reads, "{which:?}: {kind:?} at {at} by {step}");
    }
}

#[test]
fn each_read_may_end_otherwise(rt: HostRuntime) -> Result<(), Fail> {
    for which in [Which::Script, Which::Calls] {
        for kind in [ErrorKind::Interrupted, ErrorKind::Other] {
            for step in [1, 7, usize::MAX] {
                reads_end(&rt, rt.alloc(), which, kind, step);
            }
        }
    }
    Ok(())
}

/// Plays a text with one write that ends so, at each of them: what comes of it.
fn writes_end(rt: &impl Abort, alloc: Global, which: Which, end: End, step: usize)
    requires { 0 < step }
{
    let whole = which.output();
    let writes = whole.len().div_ceil(step);
    for at in 0..writes {
        let calls = Calls {
            step,
            at,
            end,
            made: 0,
        };
        let ran = play(alloc, which, which.text(), ALL_SERVED, calls, true);
        let (answer, out, made) = match end {
            End::Fails(ErrorKind::Interrupted) => (Ok(()), whole.len(), writes),
            _ => (Err(PlayError::WriteFailed), at.saturating_mul(step), at),
        };
        assert_eq!(rt; ran.answer, answer, "{which:?}: {end:?} at {at} by {step}");
        assert!(rt;
            whole.starts_with(ran.out.as_slice()),
            "{which:?}: {end:?} at {at} by {step}"
        );
        assert_eq!(rt; ran.out.len(), out, "{which:?}: {end:?} at {at} by {step}");
        assert_eq!(rt;
            ran.writes,
            made.saturating_add(1),
            "{which:?}: {end:?} at {at} by {step}"
        );
    }
}

#[test]
fn each_write_may_end_otherwise(rt: HostRuntime) -> Result<(), Fail> {
    let ends = [
        End::Fails(ErrorKind::Interrupted),
        End::Fails(ErrorKind::Other),
        End::Moves0,
    ];
    for which in [Which::Script, Which::Calls] {
        for end in ends {
            for step in [1, 7, usize::MAX] {
                writes_end(&rt, rt.alloc(), which, end, step);
            }
        }
    }
    Ok(())
}

#[test]
fn the_flush_may_fail(rt: HostRuntime) -> Result<(), Fail> {
    for which in [Which::Script, Which::Calls] {
        let ran = play(
            rt.alloc(),
            which,
            which.text(),
            ALL_SERVED,
            ALL_SERVED,
            false,
        );
        assert_eq!(rt; ran.answer, Err(PlayError::WriteFailed));
        assert_eq!(rt; ran.out.as_slice(), which.output());
    }
    Ok(())
}

#[test]
fn a_read_of_nothing_ends_the_text(rt: HostRuntime) -> Result<(), Fail> {
    let (step, at, end, made) = (8, 1, End::Moves0, 0);
    let calls = Calls {
        step,
        at,
        end,
        made,
    };
    let ran = play(
        rt.alloc(),
        Which::Script,
        FIRST_SCRIPT,
        calls,
        ALL_SERVED,
        true,
    );
    assert_eq!(rt; ran.answer, Ok(()));
    assert_eq!(rt;
        ran.out.as_slice(),
        b"ok : E+0/0 E+0/0 | 0 0 0 0\n".as_slice()
    );
    assert_eq!(rt; ran.reads, 2);
    Ok(())
}

/// A script whose output is written in several parts, and that output.
fn long_script(alloc: Global) -> Result<(Vec<u8>, Vec<u8>), Fail> {
    let mut text = b"start 0\n".to_vec(alloc)?;
    let mut out = b"ok : E+0/0 E+0/0 | 0 0 0 0\n".to_vec(alloc)?;
    for _ in 0..4_000 {
        text.extend_from_slice(b"start 0\n")?;
        out.extend_from_slice(b"refused NotAllowed : E+0/0 E+0/0 | 0 0 0 0\n")?;
    }
    Ok((text, out))
}

#[test]
fn a_write_may_fail_in_the_middle_of_a_play(rt: HostRuntime) -> Result<(), Fail> {
    let (text, whole) = long_script(rt.alloc())?;
    let (step, end, made) = (10_000, End::Fails(ErrorKind::Other), 0);
    for at in 0..16 {
        let calls = Calls {
            step,
            at,
            end,
            made,
        };
        let ran = play(rt.alloc(), Which::Script, &text, ALL_SERVED, calls, true);
        assert_eq!(rt; ran.answer, Err(PlayError::WriteFailed), "at {at}");
        assert_eq!(rt; ran.writes, at.saturating_add(1));
        assert!(rt; whole.starts_with(&ran.out), "at {at}");
        assert!(rt; ran.out.len() < whole.len(), "at {at}");
    }
    let ran = play(
        rt.alloc(),
        Which::Script,
        &text,
        ALL_SERVED,
        ALL_SERVED,
        true,
    );
    assert_eq!(rt; ran.answer, Ok(()));
    assert_eq!(rt; ran.out.as_slice(), whole.as_slice());
    Ok(())
}
