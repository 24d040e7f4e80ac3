//! What no clause says of plays of block reads: what the cache had, that a worker goes on after a
//! fault, that workers run at once, and what is out when a device fails.
ghost use Rattle.std.specs.Prelude.{◌≡◌, ◌<◌, ◌^◌, IfOk, length, map};
ghost use Rattle.std.specs.List.{All};

use crate::streams::{ALL_SERVED, Calls, End, Sink, Source};
use hcc_block::{BlockSource, FailingSource, MemorySource};
use hcc_cache::Config;
use hcc_player::blocks::{Gate, OpenGate, play_blocks};
use hcc_player::fault::PlayError;
use hcc_player::options::Options;
use std::alloc::{AllocError, Global};
use std::io::ErrorKind;
use std::sync::atomic::{AtomicU64, Ordering};
use std::test::Fail;
use std::thread::Threads;

/// The defaults of the program, with two clients.
const OPTIONS: Options = Options {
    config: Config {
        slots: 8,
        room: 2,
        clients: 2,
        handles: 8,
        shards: 1,
        capacity: 600,
        strict: false,
        marks: false,
        serials: 18_014_398_509_481_984,
        seed: 0,
    },
    block: 16,
};

/// A trace of client 1 alone over one file of 40 bytes.
const TRACE: &[u8] = b"1 0 0\n1 0 0\n1 0 2\n1 0 3\n1 1 0\n";

/// What it gives.
const REPORT: &[u8] = b"{\"charges\":24,\"clients\":[\
{\"blocks\":0,\"faults\":0,\"hits\":0,\"misses\":0,\"missing\":0,\"sum\":0},\
{\"blocks\":3,\"faults\":0,\"hits\":1,\"misses\":2,\"missing\":2,\"sum\":524}\
],\"occupied\":2,\"slots\":2,\"usage\":24}\n";

/// The same where the second read of the source fails, which is that of block 2.
const SECOND_FAILS: &[u8] = b"{\"charges\":16,\"clients\":[\
{\"blocks\":0,\"faults\":0,\"hits\":0,\"misses\":0,\"missing\":0,\"sum\":0},\
{\"blocks\":2,\"faults\":1,\"hits\":1,\"misses\":2,\"missing\":2,\"sum\":240}\
],\"occupied\":1,\"slots\":1,\"usage\":16}\n";

/// The same where the first fails: the next line reads the same block, and has it.
const FIRST_FAILS: &[u8] = b"{\"charges\":24,\"clients\":[\
{\"blocks\":0,\"faults\":0,\"hits\":0,\"misses\":0,\"missing\":0,\"sum\":0},\
{\"blocks\":2,\"faults\":1,\"hits\":0,\"misses\":3,\"missing\":2,\"sum\":404}\
],\"occupied\":2,\"slots\":2,\"usage\":24}\n";

/// What a play answered, and what is out.
#[derive(Drop)]
struct Ran {
    answer: Result<(), PlayError>,
    out: Vec<u8>,
}

/// Plays a trace over one file of the bytes 0 to 39. Of each client's source the read of this
/// number fails, from 0.
fn play<G: Gate + Sync, X: Threads + Sync>(
    alloc: Global,
    rt: &X,
    reader: Source<'_>,
    writer: Sink,
    fails: u64,
    gate: &G,
) -> Result<Ran, AllocError> {
    let mut file = Vec::new(alloc);
    for byte in 0..40 {
        file.push(byte)?;
    }
    let files = Vec::from_array(alloc, [file])?;
    let mut reader = reader;
    let mut writer = writer;
    let sources = sources(alloc, &files, OPTIONS.config.clients, fails)?;
    let answer = play_blocks(
        alloc,
        rt,
        &mut reader,
        &mut writer,
        &OPTIONS,
        &files,
        sources,
        gate,
    );
    Ok(Ran {
        answer,
        out: writer.taken,
    })
}

/// A source of the files for each client, of which this read fails.
fn sources<'a>(
    alloc: Global,
    files: &'a [Vec<u8>],
    clients: u32,
    fails: u64,
) -> Result<Vec<FailingSource<MemorySource<'a>>>, AllocError>
    requires { length files.now < 2 ^ 32 }
    ensures count { IfOk result (λ sources. length sources.items ≡ clients) }
    ensures content { IfOk result (λ sources.
        All (λ source. ⟦<FailingSource<MemorySource<'a>> as BlockSource>⟧.content source
        ≡ map (λ file. file.items) files.now) sources.items) }
{
    let mut sources = Vec::with_capacity(alloc, clients as usize)?;
    for _ in 0..clients {
        sources.push(FailingSource::new(MemorySource::new(files), fails))?;
    }
    Ok(sources)
}

/// A reader of this text.
fn reader(text: &[u8], calls: Calls) -> Source<'_> {
    Source { rest: text, calls }
}

fn writer(alloc: Global, calls: Calls, flushes: bool) -> Sink {
    Sink {
        taken: Vec::new(alloc),
        calls,
        flushes,
    }
}

#[test]
fn a_worker_goes_on_after_a_fault(rt: HostRuntime) -> Result<(), Fail> {
    for (fails, report) in [(u64::MAX, REPORT), (1, SECOND_FAILS), (0, FIRST_FAILS)] {
        let ran = play(
            rt.alloc(),
            &rt,
            reader(TRACE, ALL_SERVED),
            writer(rt.alloc(), ALL_SERVED, true),
            fails,
            &OpenGate,
        )?;
        assert_eq!(rt; ran.answer, Ok(()));
        assert_eq!(rt; ran.out.as_slice(), report);
    }
    Ok(())
}

#[test]
fn each_call_of_a_device_may_fail(rt: HostRuntime) -> Result<(), Fail> {
    let fails = End::Fails(ErrorKind::Other);
    for at in 0..7 {
        let [reads, writes] = [7, 32].map(|step| Calls {
            step,
            at,
            end: fails,
            made: 0,
        });
        for (reads, writes, flushes, error, front) in [
            (reads, ALL_SERVED, true, PlayError::ReadFailed, 0),
            (ALL_SERVED, writes, true, PlayError::WriteFailed, at * 32),
            (ALL_SERVED, ALL_SERVED, false, PlayError::WriteFailed, 1_000),
        ] {
            let ran = play(
                rt.alloc(),
                &rt,
                reader(TRACE, reads),
                writer(rt.alloc(), writes, flushes),
                u64::MAX,
                &OpenGate,
            )?;
            let served = ran.answer == Ok(());
            assert!(rt; served || ran.answer == Err(error), "{error:?} at {at}");
            let out = if served {
                REPORT.len()
            } else {
                front.min(REPORT.len())
            };
            assert_eq!(rt; ran.out.as_slice(), &REPORT[..out], "{error:?} at {at}");
            assert_eq!(rt; served, at > 5 && flushes, "{error:?} at {at}");
        }
    }
    Ok(())
}

/// Holds each client's first read until the other's begins, or for a number of turns; and sees that
/// each client's reads are numbered from 0, one after another.
#[derive(Drop)]
struct BothGate {
    /// What each client did last: twice the number of the read that it has begun, and one more
    /// while it reads.
    last: [AtomicU64; 2],
    late: AtomicU64,
    wrong: AtomicU64,
}

impl BothGate {
    /// The client goes on from what it did last.
    fn goes(&self, client: u32, from: u64) {
        let last = &self.last[client as usize % 2];
        if last.load(Ordering::SeqCst) != from {
            self.wrong.store(1, Ordering::SeqCst);
        }
        last.store(from.wrapping_add(1), Ordering::SeqCst);
    }
}

impl Gate for BothGate {
    fn before(&self, client: u32, call: u64) {
        self.goes(client, call.wrapping_mul(2));
        if call != 0 {
            return;
        }
        for _ in 0..1u64 << 30 {
            if self.last[1 - client as usize % 2].load(Ordering::SeqCst) != 0 {
                return;
            }
        }
        self.late.store(1, Ordering::SeqCst);
    }

    fn after(&self, client: u32, call: u64) {
        self.goes(client, call.wrapping_mul(2).wrapping_add(1));
    }
}

#[test]
fn workers_run_at_once(rt: HostRuntime) -> Result<(), Fail> {
    let gate = BothGate {
        last: [AtomicU64::new(0), AtomicU64::new(0)],
        late: AtomicU64::new(0),
        wrong: AtomicU64::new(0),
    };
    let ran = play(
        rt.alloc(),
        &rt,
        reader(b"0 0 0\n1 0 1\n1 0 3\n", ALL_SERVED),
        writer(rt.alloc(), ALL_SERVED, true),
        u64::MAX,
        &gate,
    )?;
    assert_eq!(rt; ran.answer, Ok(()));
    let [first, second] = &gate.last;
    let last = [first.load(Ordering::SeqCst), second.load(Ordering::SeqCst)];
    assert_eq!(rt; last, [2, 4]);
    assert_eq!(rt; gate.wrong.load(Ordering::SeqCst), 0);
    assert_eq!(rt; gate.late.load(Ordering::SeqCst), 0);
    Ok(())
}
