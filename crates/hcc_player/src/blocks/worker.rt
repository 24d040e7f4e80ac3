//! Workers: each plays its client's lines of a trace, in order, on a thread of its own.
ghost use Rattle.std.specs.Prelude.{◌≡◌, ◌+◌, ◌^◌, ◌<◌, ◌≤◌, ◌*◌, ◌⊎◌, length, IfOk};
ghost use Rattle.std.specs.List.{All};
ghost use Rattle.hcc_cache.specs.Known.{Knows};
ghost use Rattle.hcc_block.specs.Blocks.{block_of, FitsBlocks};
ghost use Rattle.hcc_block.specs.Reads.{HoldsSame};
ghost use Rattle.hcc_block.specs.Sources.{Fails};
ghost use Rattle.hcc_player.specs.Reading.{ReadsLine, ReadsLines, counts_in, counts_of, no_counts};
ghost use Rattle.hcc_player.specs.Tally.{found_by, lines_of_tally, Adds, IsTally};
ghost use Rattle.hcc_player.specs.Work.{AllWith, Ends, IsIdle, IsReady};

use super::gate::Gate;
use super::line::BlockRead;
use super::tally::{BlockTally, ClientReport, with_bytes};
use hcc_block::{BlockReader, BlockSource, ReadError};
use hcc_cache::{Cache, Client, Tag};
use std::alloc::AllocError;
use std::thread;
use std::thread::Threads;

/// A client with its reader, the lines that it plays, and a buffer for a block.
#[derive(Drop)]
pub struct Worker<T, S> {
    pub client: Client<T>,
    pub reader: BlockReader<S>,
    pub lines: Vec<BlockRead>,
    pub buffer: Vec<u8>,
}

/// A client that has played its lines, and what they came to.
#[derive(Drop)]
pub struct Done<T> {
    pub client: Client<T>,
    pub report: ClientReport,
}

/// Has each worker play its lines on a thread of its own. No worker waits for another.
pub fn work_all<
    T: Tag + Copy + Drop + Send + Sync,
    S: BlockSource + Send + Drop,
    G: Gate + Sync,
    R: Threads + Sync,
>(
    rt: &R,
    cache: &Cache<T>,
    gate: &G,
    workers: Vec<Worker<T, S>>,
) -> Result<Vec<Done<T>>, AllocError>
    requires { All (IsReady T.fits S.content S.reliable cache.now) workers.items }
    ensures count { IfOk result (λ done. length done.items ≡ length workers.items) }
    ensures each { IfOk result (λ done.
        AllWith (Ends T.fits S.content S.reliable cache.now) workers.items done.items) }
{
    thread::map_vec(
        rt,
        workers,
        &|worker: Worker<T, S>| -> Done<T>
            requires { IsReady T.fits S.content S.reliable cache.now worker }
            ensures { Ends T.fits S.content S.reliable cache.entry.now worker result }
        { work(cache, gate, worker) },
    )
}

/// Has a worker play its lines.
fn work<T: Tag + Copy + Drop, S: BlockSource + Drop, G: Gate>(
    cache: &Cache<T>,
    gate: &G,
    worker: Worker<T, S>,
) -> Done<T>
    requires { IsReady T.fits S.content S.reliable cache.now worker }
    ensures { Ends T.fits S.content S.reliable cache.now worker result }
{
    let Worker {
        mut client,
        mut reader,
        lines,
        mut buffer,
    } = worker;
    let report = play_lines(cache, gate, &mut client, &mut reader, &mut buffer, &lines);
    Done { client, report }
}

/// Plays a client's lines, in order. After a fault it goes on with the next line.
fn play_lines<T: Tag + Copy + Drop, S: BlockSource, G: Gate>(
    cache: &Cache<T>,
    gate: &G,
    client: &mut Client<T>,
    reader: &mut BlockReader<S>,
    buffer: &mut [u8],
    lines: &[BlockRead],
) -> ClientReport
    requires idle { IsIdle cache.now client.old }
    requires tag { FitsBlocks (T.fits cache.now.tag) (S.content reader.old.source)
        reader.old.block }
    requires block { reader.old.block ≤ 8 * cache.now.geometry.room }
    requires room { reader.old.block ≤ length buffer.old }
    requires counts { (reader.old.hits ≡ 0) × (reader.old.misses ≡ 0) }
    requires few { length lines.now < 2 ^ 63 }
    ensures idle { IsIdle cache.now client.new }
    ensures tally { IsTally (S.reliable reader.old.source)
        (found_by (S.content reader.old.source) reader.old.block lines.now) result }
    ensures told { (result.hits ≡ reader.new.hits) × (result.misses ≡ reader.new.misses) }
    ensures reads { ReadsLines T.fits cache.now (S.content reader.old.source) reader.old.block
        lines.now no_counts (counts_of result) client.old client.new }
{
    let number = client.number();
    let mut tally = BlockTally::new();
    let mut call = 0;
    for line in lines {
        gate.before(number, call);
        play_line(cache, client, reader, buffer, *line, &mut tally);
        gate.after(number, call);
        call += 1;
    }
    ClientReport {
        tally,
        hits: reader.hits(),
        misses: reader.misses(),
    }
}

/// Plays one line, and adds what it came to.
fn play_line<T: Tag + Copy + Drop, S: BlockSource>(
    cache: &Cache<T>,
    client: &mut Client<T>,
    reader: &mut BlockReader<S>,
    buffer: &mut [u8],
    line: BlockRead,
    tally: &mut BlockTally,
)
    requires known { Knows cache.now client.old }
    requires tag { FitsBlocks (T.fits cache.now.tag) (S.content reader.old.source)
        reader.old.block }
    requires block { reader.old.block ≤ 8 * cache.now.geometry.room }
    requires room { reader.old.block ≤ length buffer.old }
    requires few { lines_of_tally tally.old < 2 ^ 63 }
    requires counted { reader.old.hits + reader.old.misses
        ≡ tally.old.blocks + tally.old.faults }
    requires failed { tally.old.faults ≤ reader.old.misses }
    ensures adds { Adds (S.reliable reader.old.source)
        (block_of (S.content reader.old.source) reader.old.block line.file line.index)
        tally.old tally.new }
    ensures reads { ReadsLine T.fits cache.now (S.content reader.old.source) reader.old.block
        line (counts_in reader.old tally.old) (counts_in reader.new tally.new) client.old
        client.new }
    ensures faults { (tally.new.faults ≡ tally.old.faults)
        ⊎ Fails (S.failed reader.old.source) (S.failed reader.new.source) }
    ensures counted { reader.new.hits + reader.new.misses
        ≡ tally.new.blocks + tally.new.faults }
    ensures failed { tally.new.faults ≤ reader.new.misses }
    ensures lines { lines_of_tally tally.new ≡ lines_of_tally tally.old + 1 }
    ensures reliable { S.reliable reader.old.source → S.reliable reader.new.source }
    ensures content { S.content reader.new.source ≡ S.content reader.old.source }
    ensures size { reader.new.block ≡ reader.old.block }
    ensures known { Knows cache.now client.new }
    ensures same { HoldsSame cache.now client.old client.new }
{
    match reader.read(cache, client, line.file, line.index, buffer) {
        Ok(count) => {
            tally.blocks += 1;
            tally.sum = with_bytes(tally.sum, &buffer[..count]);
        }
        Err(ReadError::NoSuchBlock) => tally.missing += 1,
        Err(ReadError::SourceFault) => tally.faults += 1,
    }
}
